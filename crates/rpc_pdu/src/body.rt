//! The bytes of a PDU's body.
ghost use Rattle.std.specs.Prelude.{◌≡◌, ◌<◌, ◌≤◌, ◌↔◌, All, IfSome, IsSome, length};

use arrayvec::ArrayVec;
use std::marker::Model;

/// Bytes in a body, at most: those of a PDU of 5,840 bytes behind its header.
pub(crate) const BODY_LEN: usize = 5_824;

/// At most 5,824 bytes.
#[derive(Drop)]
pub struct BodyBytes {
    bytes: ArrayVec<u8, BODY_LEN>,
}

impl Model for BodyBytes {
    ghost use Rattle.std.specs.Prelude.{ℕ, List, ◌<◌, ◌≤◌, All, length};

    ghost Value = { List ℕ };

    ghost view = { λ b. b.bytes.items };

    ghost invariant = { λ b. (length b.bytes.items ≤ 5824)
        × All (λ byte. byte < 256) b.bytes.items };
}

impl BodyBytes {
    /// The bytes as a body. None exactly where there are more than 5,824.
    pub fn from_slice(bytes: &[u8]) -> Option<BodyBytes>
        ensures body { IfSome result (λ body. body ≡ bytes.now) }
        ensures fits { IsSome result ↔ (length bytes.now ≤ 5824) }
    {
        if bytes.len() > BODY_LEN {
            return None;
        }
        Some(BodyBytes::holding(bytes))
    }

    /// These bytes, of which there are no more than a body holds.
    pub(crate) fn holding(bytes: &[u8]) -> BodyBytes
        requires { length bytes.now ≤ 5824 }
        ensures { result ≡ bytes.now }
    {
        let mut kept = ArrayVec::new();
        let _ = kept.try_extend_from_slice(bytes);
        BodyBytes { bytes: kept }
    }

    /// The bytes.
    pub fn as_slice(&self) -> &[u8]
        ensures bytes { result.now ≡ self.now }
        ensures within { length result.now ≤ 5824 }
        ensures below { All (λ byte. byte < 256) result.now }
    {
        self.bytes.as_slice()
    }
}
