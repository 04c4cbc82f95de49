//! How a session ended.

/// Why no further call comes of a session.
#[derive(Clone, Copy, Debug, PartialEq, Eq)]
pub enum SessionEnd {
    /// The stream ended between two PDUs.
    Ended,
    /// The client sent what is no PDU of this profile, or what no client sends; that was answered by a fault.
    BadPdu,
    /// The stream ended inside a PDU.
    Torn,
    /// 10,000 PDUs were taken.
    Spent,
    /// A read failed.
    ReadFault,
    /// A write failed.
    WriteFault,
}
