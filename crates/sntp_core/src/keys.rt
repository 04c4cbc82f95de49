//! The keys of a member's account.
ghost use Rattle.std.specs.Prelude.{◌≡◌, false, IfSome};
ghost use Rattle.std.specs.Option.{option_map_or};
ghost use Rattle.ms_auth.specs.Ready.{IsTailFor};
ghost use Rattle.sntp_core.specs.Packets.{carries, carries_either};

use key_book::Account;
use ms_auth::{Kind, Packet, Ready};
use std::marker::Model;

/// The keys of an account, each made ready once for messages of one kind.
#[derive(Drop)]
pub(crate) struct Keys {
    current: Ready,
    previous: Option<Ready>,
}

impl Model for Keys {
    ghost use Rattle.sntp_core.specs.Keys.{AccountKeys, AreOfOne, key_of};

    ghost Value = { AccountKeys };

    ghost view = { λ k. record {
      kind = k.current.kind;
      account = record { rid = k.current.rid; current = k.current.key; previous = key_of k.previous };
    } };

    ghost invariant = { λ k. AreOfOne k.current k.previous };
}

impl Keys {
    /// Makes the account's keys ready for messages of this kind.
    pub(crate) fn new(kind: Kind, account: &Account) -> Keys
        ensures { result ≡ record { kind = kind; account = account.now } }
    {
        let current = Ready::new(kind, account.rid, &account.current);
        let previous = match &account.previous {
            Some(key) => Some(Ready::new(kind, account.rid, key)),
            None => None,
        };
        Keys { current, previous }
    }

    /// Whether the message carries its checksum under the current or the previous key. It has to be of the kind, and an
    /// extended one of the account.
    pub(crate) fn carries_either(&self, packet: &Packet) -> bool
        requires { IsTailFor self.now.kind self.now.account.rid packet.now.tail }
        ensures { result ≡ carries_either self.now.account packet.now }
    {
        carries(packet, &self.current) || carries_previous(packet, &self.previous)
    }
}

/// Whether the message carries its checksum under this key.
fn carries(packet: &Packet, ready: &Ready) -> bool
    requires { IsTailFor ready.now.kind ready.now.rid packet.now.tail }
    ensures { result ≡ carries ready.now.key packet.now }
{
    ready.check(packet)
}

/// Whether the message carries its checksum under the previous key, if there is one.
fn carries_previous(packet: &Packet, previous: &Option<Ready>) -> bool
    requires { IfSome previous.now (λ ready. IsTailFor ready.kind ready.rid packet.now.tail) }
    ensures { result ≡ option_map_or (λ ready. carries ready.key packet.now) previous.now false }
{
    match previous {
        Some(ready) => carries(packet, ready),
        None => false,
    }
}
