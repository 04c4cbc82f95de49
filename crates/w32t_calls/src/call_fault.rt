//! Why a call got no answer.

/// What came in place of an answer. The number of `BadReply` is the place where that PDU begins, in bytes from the front of
/// the session.
#[derive(Clone, Copy, Debug, PartialEq, Eq)]
pub enum CallFault {
    /// The bind was refused by a bind_nak.
    Nak,
    /// The bind_ack doesn't accept the context.
    Rejected,
    /// The call was answered by a fault with this status.
    Fault(u32),
    /// The reply is no PDU of this profile, of another type or call identifier, or its fields are wrong.
    BadReply(u64),
    /// The stream ended before the reply was whole.
    Torn,
    /// A read failed.
    ReadFault,
    /// A write failed.
    WriteFault,
}
