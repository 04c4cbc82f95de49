//! What a message says.
use ntp_wire::Header;

/// Bytes in a short message.
pub const SHORT_LEN: usize = 68;

/// Bytes in an extended message.
pub const EXTENDED_LEN: usize = 120;

/// ClientHashIDHints of a sender that knows the one digest of this profile: bit 0.
pub const HASH_HINTS: u8 = 1;

/// SignatureHashID of that digest.
pub const SIGNATURE_HASH: u8 = 1;

/// Which checksum a request asks for.
#[derive(Clone, Copy, Debug, PartialEq, Eq)]
pub enum Kind {
    /// That of an Authenticator, in 68 bytes.
    Short,
    /// That of an ExtendedAuthenticator, in 120 bytes.
    Extended,
}

/// What stands behind the header.
#[derive(Clone, Copy, Debug, PartialEq, Eq)]
pub enum Tail {
    /// Nothing: the message is the header alone.
    Plain,
    /// An Authenticator (MS-SNTP): 20 bytes, so that the message has 68.
    Short68 {
        /// Key Identifier: the RID of the account in the low 31 bits. Bit 31 asks for the account's previous key.
        key_id: u32,
        /// Crypto-Checksum: MD5 of the account's key and the header.
        sum: [u8; 16],
    },
    /// An ExtendedAuthenticator (MS-SNTP): 72 bytes, so that the message has 120.
    Ext120 {
        /// Key Identifier: the RID of the account, all 32 bits of it.
        rid: u32,
        /// Reserved, 0 where this project writes it.
        reserved: u8,
        /// Flags: bit 0 asks for the account's previous key.
        flags: u8,
        /// ClientHashIDHints: bit 0 says that the sender knows the digest of this profile.
        hints: u8,
        /// SignatureHashID: the digest that was used, 0 in a request.
        hash: u8,
        /// Crypto-Checksum.
        sum: [u8; 64],
    },
}

/// A message: a header and its tail.
#[derive(Clone, Copy, Debug, PartialEq, Eq)]
pub struct Packet {
    pub header: Header,
    pub tail: Tail,
}

/// The bytes are no message: messages have 48, 68 or 120.
#[derive(Clone, Copy, Debug, PartialEq, Eq)]
pub struct BadLength;
