//! What a member is set to.
ghost use Rattle.std.specs.Prelude.{◌≡◌, ◌<◌, ◌^◌};
ghost use Rattle.ms_auth.specs.declared.packet.Kind.{Kind};

use crate::Partners;
use key_book::Account;
use ms_auth::Kind;
use phase_rule::Limits;

/// What a member is set to.
#[derive(Drop)]
pub struct Conf {
    /// Which messages it sends and takes.
    pub kind: Kind,
    /// Its account, with the keys under which replies are signed.
    pub account: Account,
    /// Which corrections are allowed, and how often requests are sent.
    pub limits: Limits,
    /// The controllers that it asks, in the order of their rank.
    pub partners: Partners,

    // A short message has 31 bits for the number of the account.
    ghost short_rid: { kind ≡ Kind.Short → account.rid < 2 ^ 31 },
}
