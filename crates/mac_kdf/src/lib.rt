//! The keyed digests of both kinds of signed messages, and the derivation of the key of the longer kind.
//!
//! - `hmac.rt`: HMAC-SHA512 of a text that comes in pieces (RFC 2104).
//! - `digests.rt`: the key derivation in counter mode (SP 800-108), the MD5 digest of the 68-byte message
//!   and the HMAC digest of the 120-byte message.
//!
//! The crate stands on the kit's `md5` and `sha2`. Nothing here refuses a key or a text, and nothing takes
//! memory. The layer above may rely on each result being the function on lists of bytes that `specs/`
//! defines in the words of the standards; those definitions know no pieces, and `HasTaken` of
//! `specs/Taken.antt` says which text an unfinished HMAC has taken. They are closed to proofs that do not
//! open them, so a digest stays a name.
#![tactic(auto)]

mod digests;
mod hmac;
#[cfg(test)]
mod tests;

pub use digests::{derive, ext_mac, ext_sum, md5_sum};
pub use hmac::Hmac;
