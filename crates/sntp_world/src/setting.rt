//! The account of the member, how it is set, and how the clocks are at first.
ghost use Rattle.std.specs.Prelude.{◌≡◌, IfOk};
ghost use Rattle.sntp_world.specs.Setting.{world_conf};

use edge_traits::Addr;
use key_book::Account;
use ms_auth::Kind;
use phase_rule::Limits;
use sntp_core::{Conf, Partners};
use std::alloc::{AllocError, Global};

/// The member's reading at first: 1 January 2020.
pub(crate) const FIRST_READING: i64 = 132_223_104_000_000_000;

/// How far the controller's clock is ahead at first: three seconds.
pub(crate) const FIRST_AHEAD: i64 = 30_000_000;

/// The last moment that a clock may read.
pub(crate) const LAST_READING: i64 = 4_000_000_000_000_000_000;

/// The controller's address, from which each packet reaches the member: 10.0.0.1:123.
pub(crate) const CONTROLLER: Addr = Addr {
    ip: 0x0A00_0001,
    port: 123,
};

/// The one account of the controller's book, which is the member's.
pub(crate) const ACCOUNT: Account = Account {
    rid: 1103,
    current: [0, 1, 2, 3, 4, 5, 6, 7, 8, 9, 10, 11, 12, 13, 14, 15],
    previous: None,
};

/// Corrections up to two days, steps above 300 seconds, and a request each 1 to 16 seconds.
const LIMITS: Limits = Limits {
    max_pos: 172_800,
    max_neg: 172_800,
    max_allowed: 300,
    min_poll: 0,
    max_poll: 4,
};

/// How the member is set.
pub(crate) fn conf(alloc: Global) -> Result<Conf, AllocError>
    ensures { IfOk result (λ conf. conf ≡ world_conf) }
{
    Ok(Conf {
        kind: Kind::Short,
        account: ACCOUNT,
        limits: LIMITS,
        partners: Partners::new([CONTROLLER].to_vec(alloc)?),
    })
}
