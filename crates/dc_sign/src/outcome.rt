//! What a request is answered with.
use edge_traits::Datagram;

/// Why a request gets no reply, in the order in which they are looked at: the first that applies is given. The
/// order, and that a refused request gets no reply of any kind, are this project's own.
#[derive(Clone, Copy, Debug, PartialEq, Eq)]
pub enum Refusal {
    /// The length is not that of a message, which has 48, 68 or 120 bytes.
    BadLength,
    /// The version is not 1 to 4.
    BadVersion,
    /// The mode is neither 1, symmetric active, nor 3, client.
    BadMode,
    /// The request has 68 or 120 bytes, and no account has the RID in its key identifier: in the low 31 bits of it
    /// where the request has 68 bytes, and in all of it where it has 120.
    UnknownAccount,
    /// The request asks for the previous key, and the account has none. It asks by bit 31 of the key identifier where
    /// it has 68 bytes, and by bit 0 of the Flags where it has 120.
    NoOldKey,
}

/// What a request is answered with.
#[derive(Drop)]
pub enum Answer {
    /// A reply with a checksum, to a request with one.
    Signed(Datagram),
    /// A reply without one, to a request without one.
    Plain(Datagram),
    /// No reply.
    Refused(Refusal),
}
