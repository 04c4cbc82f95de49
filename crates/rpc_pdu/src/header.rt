//! The header of a PDU.
ghost use Rattle.std.specs.Prelude.{◌≡◌, ◌<◌, ◌↔◌, IsTrue, length, Some, None};
ghost use Rattle.rpc_pdu.specs.Header.{header_flaw, header_of, is_kind};
ghost use Rattle.rpc_pdu.specs.Pdu.{need};

use crate::bind::contexts_fit;
use crate::fault::Flaw;
use crate::{BIND, BIND_ACK, BIND_NAK, FAULT, OBJECT, REQUEST, RESPONSE, WHOLE};
use byte_codec::{read_array, read_u16_low_first, read_u32_low_first};

/// Bytes in a header.
pub(crate) const HEADER_LEN: usize = 16;

/// Bytes in a PDU, at most.
pub(crate) const PDU_LEN: usize = 5_840;

/// The version.
pub(crate) const VERSION: u8 = 5;

/// The minor number of the version.
pub(crate) const MINOR: u8 = 0;

/// The high half of the first byte of a data representation whose numbers have their least significant byte first.
pub(crate) const LOW_FIRST: u8 = 1;

/// What a header says (C706, 12.6.3.1).
#[derive(Clone, Copy, Debug, PartialEq, Eq)]
pub(crate) struct Header {
    pub(crate) version: u8,
    pub(crate) minor: u8,
    pub(crate) kind: u8,
    pub(crate) flags: u8,
    /// The first of the four bytes that say how numbers and letters are written.
    pub(crate) representation: u8,
    /// Bytes in the whole PDU.
    pub(crate) fragment_len: u16,
    pub(crate) auth_len: u16,
    pub(crate) call_id: u32,
}

/// The header in these bytes.
pub(crate) fn read_header(bytes: &[u8; HEADER_LEN]) -> Header
    ensures { result ≡ header_of bytes.now }
{
    let (fixed, rest) = read_array::<8>(bytes);
    let (fragment_len, rest) = read_u16_low_first(rest);
    let (auth_len, rest) = read_u16_low_first(rest);
    let (call_id, _) = read_u32_low_first(rest);
    Header {
        version: fixed[0],
        minor: fixed[1],
        kind: fixed[2],
        flags: fixed[3],
        representation: fixed[4],
        fragment_len,
        auth_len,
        call_id,
    }
}

impl Header {
    /// What is wrong with it, by the first fault of the list.
    #[tactic(auto, unfolding(crate::specs::Header::header_flaw))]
    pub(crate) fn flaw(&self) -> Option<Flaw>
        ensures { result ≡ header_flaw self.now }
    {
        if self.version != VERSION || self.minor != MINOR {
            return Some(Flaw::BadVersion);
        }
        if !is_known_kind(self.kind) {
            return Some(Flaw::BadType);
        }
        if self.flags & WHOLE != WHOLE {
            return Some(Flaw::BadFragment);
        }
        if self.representation >> 4 != LOW_FIRST {
            return Some(Flaw::BadDrep);
        }
        let len = self.fragment_len as usize;
        if len < HEADER_LEN || len > PDU_LEN {
            return Some(Flaw::BadLength);
        }
        if self.auth_len != 0 {
            return Some(Flaw::BadAuth);
        }
        None
    }

    /// Whether a body is shorter than its type asks.
    #[tactic(auto, unfolding(crate::specs::Pdu::need))]
    pub(crate) fn lacks(&self, body: &[u8]) -> bool
        ensures { IsTrue result ↔ (length body.now < need self.now body.now) }
    {
        match self.kind {
            BIND => !contexts_fit(body),
            BIND_ACK => body.len() < 10,
            BIND_NAK => body.len() < 2,
            RESPONSE => body.len() < 8,
            FAULT => body.len() < 12,
            _ if self.flags & OBJECT != 0 => body.len() < 24,
            _ => body.len() < 8,
        }
    }
}

/// Whether this profile has such a type.
#[tactic(auto, unfolding(crate::specs::Header::is_kind))]
fn is_known_kind(kind: u8) -> bool
    ensures { result ≡ is_kind kind }
{
    matches!(
        kind,
        REQUEST | RESPONSE | FAULT | BIND | BIND_ACK | BIND_NAK
    )
}
