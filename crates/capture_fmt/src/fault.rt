//! Why bytes are no capture.
ghost use Rattle.std.specs.Prelude.{◌≡◌};

/// Why a capture can't be read on. The number is the place at which the record begins, in bytes from the front.
#[derive(Clone, Copy, Debug, PartialEq, Eq)]
pub enum CaptureFault {
    /// There is no such kind of record, or the four bytes after 01 are there and aren't `W32T`.
    BadKind(u64),
    /// The moment is above 4,000,000,000,000,000,000.
    BadReading(u64),
    /// A datagram has more than 256 bytes.
    BadLength(u64),
    /// The bytes end inside the record.
    Torn(u64),
    /// The record would begin at or past 2^40, whether or not a byte is there.
    TooLong(u64),
    /// A read failed.
    ReadFault,
}

/// What is wrong with a record, by the first of its fields that is wrong or incomplete.
#[derive(Clone, Copy, Debug, PartialEq, Eq)]
pub(crate) enum Flaw {
    BadKind,
    BadReading,
    BadLength,
    Torn,
}

impl Flaw {
    ghost use Rattle.capture_fmt.specs.Capture.{fault_of};

    /// The fault of a record that begins at this place.
    pub(crate) fn at(self, place: u64) -> CaptureFault
        ensures { result ≡ fault_of self place }
    {
        match self {
            Flaw::BadKind => CaptureFault::BadKind(place),
            Flaw::BadReading => CaptureFault::BadReading(place),
            Flaw::BadLength => CaptureFault::BadLength(place),
            Flaw::Torn => CaptureFault::Torn(place),
        }
    }
}
