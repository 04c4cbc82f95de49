//! A key that checks many messages.
ghost use Rattle.std.specs.Prelude.{◌≡◌, ◌↔◌, IsTrue};
ghost use Rattle.ms_auth.specs.Digest.{HasDigest};
ghost use Rattle.ms_auth.specs.Ready.{IsTailFor};

use crate::signing::bytes_of;
use crate::{Kind, Packet, Tail};
use mac_kdf::{Hmac, ext_mac, md5_sum};
use std::marker::Model;

/// An account's key, made ready once to check many messages of one kind.
///
/// The key of extended messages is derived when it is made, for the account's RID. A contract sees the kind, the RID and
/// the key alone, since what was made ready follows from them.
#[derive(Drop)]
pub struct Ready {
    kind: Kind,
    rid: u32,
    key: [u8; 16],
    /// Of the extended kind: the HMAC under the derived key, before any text.
    mac: Option<Hmac>,
}

impl Model for Ready {
    ghost use Rattle.ms_auth.specs.Ready.{IsPrepared, ReadyKey};

    ghost Value = { ReadyKey };

    ghost view = { λ r. record { kind = r.kind; rid = r.rid; key = r.key } };

    ghost invariant = { λ r. IsPrepared r.kind r.rid r.key r.mac };
}

impl Ready {
    /// Makes the key of the account with this RID ready for messages of this kind.
    pub fn new(kind: Kind, rid: u32, key: &[u8; 16]) -> Ready
        ensures { result ≡ record { kind = kind; rid = rid; key = key.now } }
    {
        let mac = match kind {
            Kind::Short => None,
            Kind::Extended => Some(ext_mac(key, rid)),
        };
        Ready {
            kind,
            rid,
            key: *key,
            mac,
        }
    }

    /// Whether the message carries the checksum under the key, as [`check`](crate::check) says. The message has to be of
    /// the kind, and an extended one of the RID.
    #[tactic(auto, unfolding(mac_kdf::specs::Digests::ext_digest))]
    pub fn check(&self, packet: &Packet) -> bool
        requires { IsTailFor self.now.kind self.now.rid packet.now.tail }
        ensures { IsTrue result ↔ HasDigest self.now.key packet.now }
    {
        let header = bytes_of(&packet.header);
        match (packet.tail, &self.mac) {
            (Tail::Short68 { sum, .. }, _) => sum == md5_sum(&self.key, &header),
            (Tail::Ext120 { sum, .. }, Some(mac)) => sum == mac.sum_with(&header),
            _ => unreachable!(),
        }
    }
}
