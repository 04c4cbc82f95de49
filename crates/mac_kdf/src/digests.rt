//! The derived key, and the digests of both kinds of signed messages.
ghost use Rattle.std.specs.Prelude.{◌≡◌, []};
ghost use Rattle.mac_kdf.specs.Digests.{ext_digest, ext_key, kdf, md5_digest};
ghost use Rattle.mac_kdf.specs.Taken.{HasTaken};

use crate::Hmac;
use md5::{Digest, Md5};

/// The length of a derived key in bits.
const DERIVED_BITS: u32 = 512;

/// What the keys of the 120-byte message are derived for: the label.
const SNTP_LABEL: &[u8] = b"sntp-ms";

/// A key of 64 bytes, derived from a key for a purpose (the label) and its circumstances (the context).
///
/// One round of SP 800-108, counter mode, with HMAC-SHA512. The counter and the length in bits are 32-bit
/// numbers, most significant byte first; the label and the context are parted by a zero byte.
#[tactic(auto, unfolding(crate::specs::Digests::kdf))]
pub fn derive(key: &[u8], label: &[u8], context: &[u8]) -> [u8; 64]
    ensures { result ≡ kdf key.now label.now context.now }
{
    let mut mac = Hmac::new(key);
    mac.update(&1u32.to_be_bytes());
    mac.update(label);
    mac.update(&[0]);
    mac.update(context);
    mac.update(&DERIVED_BITS.to_be_bytes());
    mac.finalize()
}

/// The checksum of a message of 68 bytes: MD5 of the account's key and the header (MS-SNTP, Authenticator).
#[tactic(auto, unfolding(crate::specs::Digests::md5_digest))]
pub fn md5_sum(key: &[u8; 16], header: &[u8; 48]) -> [u8; 16]
    ensures { result ≡ md5_digest key.now header.now }
{
    let mut hasher = Md5::new();
    hasher.update(key);
    hasher.update(header);
    hasher.finalize()
}

/// The checksum of a message of 120 bytes: HMAC-SHA512 of the header under a key that is derived from the
/// account's key for its relative identifier (MS-SNTP, ExtendedAuthenticator).
#[tactic(auto, unfolding(crate::specs::Digests::ext_digest))]
pub fn ext_sum(key: &[u8; 16], rid: u32, header: &[u8; 48]) -> [u8; 64]
    ensures { result ≡ ext_digest key.now rid header.now }
{
    ext_mac(key, rid).sum_with(header)
}

/// The HMAC of an account's messages of 120 bytes, before any text: begun with the key that is derived from the
/// account's key for its relative identifier.
#[tactic(auto, unfolding(crate::specs::Digests::ext_key))]
pub fn ext_mac(key: &[u8; 16], rid: u32) -> Hmac
    ensures { HasTaken result (ext_key key.now rid) [] }
{
    Hmac::new(&derive(key, SNTP_LABEL, &rid.to_le_bytes()))
}
