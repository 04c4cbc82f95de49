//! Why bytes are no PDU.
ghost use Rattle.std.specs.Prelude.{◌≡◌};

/// Why no further PDU can be read. The number is the place at which the PDU begins, in bytes from the front of the
/// session. Where several apply, `Torn` inside the header comes first, then the others in this order, with `Torn`
/// inside the body before `BadBody`.
#[derive(Clone, Copy, Debug, PartialEq, Eq)]
pub enum PduFault {
    /// The version isn't 5.0.
    BadVersion(u64),
    /// The type isn't request, response, fault, bind, bind_ack or bind_nak.
    BadType(u64),
    /// The PDU isn't both the first and the last fragment of its call.
    BadFragment(u64),
    /// The numbers aren't written with the least significant byte first.
    BadDrep(u64),
    /// The PDU has fewer than 16 bytes, or more than 5,840.
    BadLength(u64),
    /// The PDU carries authentication.
    BadAuth(u64),
    /// The body is shorter than its type asks.
    BadBody(u64),
    /// The session ends inside the PDU.
    Torn(u64),
    /// A read failed.
    ReadFault,
}

/// What is wrong with a PDU.
#[derive(Clone, Copy, Debug, PartialEq, Eq)]
pub(crate) enum Flaw {
    BadVersion,
    BadType,
    BadFragment,
    BadDrep,
    BadLength,
    BadAuth,
    BadBody,
    Torn,
}

impl Flaw {
    ghost use Rattle.rpc_pdu.specs.Pdu.{fault_of};

    /// The fault of a PDU that begins at this place.
    pub(crate) fn at(self, place: u64) -> PduFault
        ensures { result ≡ fault_of self place }
    {
        match self {
            Flaw::BadVersion => PduFault::BadVersion(place),
            Flaw::BadType => PduFault::BadType(place),
            Flaw::BadFragment => PduFault::BadFragment(place),
            Flaw::BadDrep => PduFault::BadDrep(place),
            Flaw::BadLength => PduFault::BadLength(place),
            Flaw::BadAuth => PduFault::BadAuth(place),
            Flaw::BadBody => PduFault::BadBody(place),
            Flaw::Torn => PduFault::Torn(place),
        }
    }
}
