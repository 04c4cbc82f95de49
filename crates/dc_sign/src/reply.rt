//! The reply to a request, or why there is none.
ghost use Rattle.std.specs.Prelude.{◌≡◌, ℕ, List};
ghost use Rattle.base_specs.specs.Time.{IsReading};
ghost use Rattle.ntp_wire.specs.Fields.{IsHeaderAt};
ghost use Rattle.ntp_wire.specs.Header.{HeaderFits};
ghost use Rattle.dc_sign.specs.Asked.{reply_tail};
ghost use Rattle.dc_sign.specs.Reply.{Answers, IsReplyHeader, IsReplyOf};

use crate::keys::key_for;
use crate::{Answer, Refusal, ServerInfo};
use key_book::Keys;
use ms_auth::{HASH_HINTS, Packet, SIGNATURE_HASH, Tail, read_packet, sign, write_packet};
use ntp_wire::{Header, to_ntp};

/// Answers a request that came at the reading `t2` by a reply that is sent at the reading `t3`, both in ticks of
/// 100 ns since 1601.
///
/// The first refusal that applies is given (see [`Refusal`]). Otherwise the reply has the length, the version, the
/// poll exponent and the key identifier of the request, mode 4 for mode 3 and mode 2 for mode 1, the transmit
/// timestamp of the request as its originate timestamp, the readings as its receive and transmit timestamps, and
/// the rest of its header from `info`. A request of 48 bytes gets a plain reply. One of 68 or 120 bytes gets a signed
/// one: its checksum is the digest of that header under the key that the request asks for (MS-SNTP, Authenticator
/// and ExtendedAuthenticator). An extended reply has of the request's Flags bit 0 alone, and 0 as its reserved byte.
pub fn answer<K: Keys>(keys: &K, info: &ServerInfo, bytes: &[u8], t2: i64, t3: i64) -> Answer
    requires received { IsReading t2 }
    requires sent { IsReading t3 }
    ensures answers { Answers (K.accounts keys.now) info.now bytes.now t2 t3 result }

    // There is one reply at most.
    ensures only { (one other : List ℕ)
        → IsReplyOf (K.accounts keys.now) info.now bytes.now t2 t3 one
        → IsReplyOf (K.accounts keys.now) info.now bytes.now t2 t3 other
        → one ≡ other }
{
    let Ok(request) = read_packet(bytes) else {
        return Answer::Refused(Refusal::BadLength);
    };
    let key = match key_for(keys, &request) {
        Ok(key) => key,
        Err(reason) => return Answer::Refused(reason),
    };
    let reply = Packet {
        header: reply_header(&request.header, info, t2, t3),
        tail: reply_tail(request.tail),
    };
    match key {
        Some(key) => Answer::Signed(write_packet(&sign(&reply, &key))),
        None => Answer::Plain(write_packet(&reply)),
    }
}

/// The header of the reply to a request with this header.
fn reply_header(asked: &Header, info: &ServerInfo, t2: i64, t3: i64) -> Header
    requires received { IsReading t2 }
    requires sent { IsReading t3 }
    ensures header { (bytes : List ℕ) → IsHeaderAt bytes asked.now
        → IsReplyHeader info.now bytes t2 t3 result }
    ensures fits { HeaderFits result }
{
    let info = *info;
    let asked = *asked;
    Header {
        leap: info.leap,
        version: asked.version,
        mode: if asked.mode == 3 { 4 } else { 2 },
        stratum: info.stratum,
        poll: asked.poll,
        precision: info.precision,
        root_delay: info.root_delay,
        root_dispersion: info.root_dispersion,
        reference_id: info.reference_id,
        reference: info.reference,
        originate: asked.transmit,
        receive: to_ntp(t2),
        transmit: to_ntp(t3),
    }
}

/// The tail of the reply to a request with this tail, with the checksum of the request still.
fn reply_tail(asked: Tail) -> Tail
    ensures { result ≡ reply_tail asked }
{
    match asked {
        Tail::Ext120 {
            rid,
            flags,
            sum,
            ..
        } => Tail::Ext120 {
            rid,
            reserved: 0,
            flags: flags % 2,
            hints: HASH_HINTS,
            hash: SIGNATURE_HASH,
            sum,
        },
        plain_or_short => plain_or_short,
    }
}
