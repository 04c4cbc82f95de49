//! The key that a request asks for, or why it is refused.
ghost use Rattle.std.specs.Prelude.{◌≡◌};
ghost use Rattle.dc_sign.specs.Asked.{asked_in};
ghost use Rattle.dc_sign.specs.Asking.{Decides};
ghost use Rattle.dc_sign.specs.Reply.{is_bad_request_mode, is_bad_version};

use crate::Refusal;
use key_book::Keys;
use ms_auth::{Packet, Tail, asks_for_previous, short_rid};
use ntp_wire::Header;

/// The key that a request names.
#[derive(Clone, Copy)]
pub(crate) struct Asked {
    /// The account's RID.
    pub(crate) rid: u32,
    /// Whether it is the account's previous key.
    pub(crate) old: bool,
}

/// The key that a request asks for, which is none for a header alone, or the first refusal that applies.
pub(crate) fn key_for<K: Keys>(keys: &K, request: &Packet) -> Result<Option<[u8; 16]>, Refusal>
    ensures { Decides (K.accounts keys.now)
        request.now.header.version request.now.header.mode (asked_in request.now.tail) result }
{
    if has_bad_version(&request.header) {
        return Err(Refusal::BadVersion);
    }
    if has_bad_mode(&request.header) {
        return Err(Refusal::BadMode);
    }
    let Some(asked) = asked_of(request.tail) else {
        return Ok(None);
    };
    let Some(account) = keys.find(asked.rid) else {
        return Err(Refusal::UnknownAccount);
    };
    match account.key(asked.old) {
        Some(key) => Ok(Some(key)),
        None => Err(Refusal::NoOldKey),
    }
}

/// The key that a tail names (MS-SNTP): by the low 31 bits and bit 31 of the Key Identifier of an Authenticator, and
/// by the Key Identifier and bit 0 of the Flags of an ExtendedAuthenticator.
fn asked_of(tail: Tail) -> Option<Asked>
    ensures { result ≡ asked_in tail }
{
    match tail {
        Tail::Plain => None,
        Tail::Short68 { key_id, .. } => Some(Asked {
            rid: short_rid(key_id),
            old: asks_for_previous(key_id),
        }),
        Tail::Ext120 { rid, flags, .. } => Some(Asked {
            rid,
            old: flags % 2 == 1,
        }),
    }
}

/// Whether the version is none that is answered.
fn has_bad_version(header: &Header) -> bool
    ensures { result ≡ is_bad_version header.now.version }
{
    header.version < 1 || header.version > 4
}

/// Whether the mode is neither that of a client nor symmetric active.
fn has_bad_mode(header: &Header) -> bool
    ensures { result ≡ is_bad_request_mode header.now.mode }
{
    header.mode != 1 && header.mode != 3
}
