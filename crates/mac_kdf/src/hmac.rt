//! HMAC-SHA512 of a text that comes in pieces.
ghost use Rattle.std.specs.Prelude.{◌≡◌, ℕ, ◌-◌, ◌≤◌, List, [], ◌++◌, length, replicate};
ghost use Rattle.mac_kdf.specs.Hmac.{block_key, hmac, masked};
ghost use Rattle.mac_kdf.specs.Taken.{HasTaken};

use sha2::{Digest, Sha512};

/// Bytes in a block of SHA-512.
const BLOCK_LEN: usize = 128;

/// The byte that masks the key in the inner text (RFC 2104, section 2).
const INNER_PAD: u8 = 0x36;

/// The byte that masks the key in the outer text.
const OUTER_PAD: u8 = 0x5C;

/// An HMAC-SHA512 that takes its text piece by piece (RFC 2104).
///
/// A contract sees it by `HasTaken mac key text`: it was begun with this key, and has taken this text.
#[derive(Drop)]
pub struct Hmac {
    inner: Sha512,
    outer: Sha512,
}

impl Hmac {
    /// Begins with a key of any length and no text. A key longer than 128 bytes is hashed first.
    #[tactic(auto, unfolding(crate::specs::Taken::HasTaken))]
    pub fn new(key: &[u8]) -> Hmac
        ensures { HasTaken result key.now [] }
    {
        let block = block_key(key);
        let mut inner = Sha512::new();
        inner.update(masked(block, INNER_PAD));
        let mut outer = Sha512::new();
        outer.update(masked(block, OUTER_PAD));
        Hmac { inner, outer }
    }

    /// Takes the next piece of the text.
    #[tactic(auto, unfolding(crate::specs::Taken::HasTaken))]
    pub fn update(&mut self, piece: &[u8])
        ensures { (key text : List ℕ) → HasTaken self.old key text → HasTaken self.new key (text ++ piece.now) }
    {
        self.inner.update(piece);
    }

    /// The HMAC of all pieces joined.
    #[tactic(auto, unfolding(crate::specs::Taken::HasTaken, crate::specs::Hmac::hmac))]
    pub fn finalize(self) -> [u8; 64]
        ensures { (key text : List ℕ) → HasTaken self key text → result ≡ hmac key text }
    {
        let digest = self.inner.finalize();
        let mut outer = self.outer;
        outer.update(digest);
        outer.finalize()
    }

    /// The HMAC of the text that was taken and this piece. The piece isn't taken: so one HMAC serves for many texts
    /// under its key, whose two blocks are hashed once.
    #[tactic(auto, unfolding(crate::specs::Taken::HasTaken))]
    pub fn sum_with(&self, piece: &[u8]) -> [u8; 64]
        ensures { (key text : List ℕ) → HasTaken self.now key text → result ≡ hmac key (text ++ piece.now) }
    {
        let mut mac = Hmac {
            inner: copy(&self.inner),
            outer: copy(&self.outer),
        };
        mac.update(piece);
        mac.finalize()
    }
}

/// Another hasher that holds the same text.
fn copy(hasher: &Sha512) -> Sha512
    ensures { result ≡ hasher.now }
{
    match hasher.clone() {
        Ok(other) => other,
        Err(_) => unreachable!(),
    }
}

/// The key as one block: itself, or its digest where it is longer, and zero bytes after it.
#[tactic(auto, unfolding(crate::specs::Hmac::block_key))]
fn block_key(key: &[u8]) -> [u8; BLOCK_LEN]
    ensures { result ≡ block_key key.now }
{
    if key.len() > BLOCK_LEN {
        filled(&Sha512::digest(key))
    } else {
        filled(key)
    }
}

/// The bytes, and zero bytes after them to a block.
fn filled(bytes: &[u8]) -> [u8; BLOCK_LEN]
    requires { length bytes.now ≤ 128 }
    ensures { result ≡ bytes.now ++ replicate (128 - length bytes.now) 0 }
{
    let mut block = [0; BLOCK_LEN];
    block[..bytes.len()].copy_from_slice(bytes);
    block
}

/// The block with each byte under the mask.
#[tactic(auto, unfolding(crate::specs::Hmac::masked))]
fn masked(mut block: [u8; BLOCK_LEN], mask: u8) -> [u8; BLOCK_LEN]
    ensures { result ≡ masked mask block }
{
    for byte in block.iter_mut() {
        *byte ^= mask;
    }
    block
}
