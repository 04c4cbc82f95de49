//! The true time, and the devices that see it pass.
ghost use Rattle.base_specs.specs.Time.{IsReading};

use dc_sign::{Answer, ServerInfo, answer};
use edge_io::{Addr, Datagram, Drawn, Entropy, Link, Put, Receipt};
use key_book::Account;
use std::cell::Cell;
use std::time::Duration;
use std::{io, rt};

/// 1 January 1970 and 1 January 2020, in ticks.
const EPOCH: i64 = 116_444_736_000_000_000;

const NEW_YEAR: i64 = 132_223_104_000_000_000;

/// How long a datagram is on its way, and how long the controller takes to answer: 1 ms and 0.1 ms.
const DELAY: i64 = 10_000;

const WORK: i64 = 1_000;

/// The partner that is asked.
pub(crate) const PARTNER: Addr = Addr {
    ip: 0x0A00_0002,
    port: 123,
};

/// The account under which requests are signed.
pub(crate) const ACCOUNT: Account = Account {
    rid: 1103,
    current: [0, 1, 2, 3, 4, 5, 6, 7, 8, 9, 10, 11, 12, 13, 14, 15],
    previous: None,
};

/// The true time, from 1 January 2020 on, and a machine whose clock is behind it by so many ticks at first, and gains so
/// many a second.
#[derive(Drop)]
pub(crate) struct World {
    elapsed: Cell<i64>,
    behind: i64,
    gains: i64,
}

impl World {
    pub(crate) fn new(behind: i64, gains: i64) -> World {
        World {
            elapsed: Cell::new(0),
            behind,
            gains,
        }
    }

    /// The true time is now so many ticks after the beginning.
    pub(crate) fn set(&self, elapsed: i64) {
        self.elapsed.set(elapsed);
    }

    /// So many ticks pass.
    fn pass(&self, ticks: i64) {
        self.set(self.elapsed.get().saturating_add(ticks));
    }

    /// The true time.
    pub(crate) fn now(&self) -> i64
        ensures { IsReading result }
    {
        NEW_YEAR
            .saturating_add(self.elapsed.get())
            .clamp(0, 4_000_000_000_000_000_000)
    }

    /// What the machine's clock reads, in ticks since 1970.
    fn machine(&self) -> u64 {
        let gained = self.elapsed.get().saturating_mul(self.gains) / 10_000_000;
        let since_1970 = self.now().saturating_sub(EPOCH);
        let ticks = since_1970
            .saturating_sub(self.behind)
            .saturating_add(gained);
        u64::try_from(ticks).unwrap_or(0)
    }
}

/// The machine's clock.
#[derive(Drop)]
pub(crate) struct Machine<'a> {
    pub world: &'a World,
}

impl rt::Clock for Machine<'_> {
    fn monotonic(&self) -> io::Result<Duration> {
        self.since_1970()
    }

    fn since_1970(&self) -> io::Result<Duration> {
        Ok(Duration::from_nanos(self.world.machine().saturating_mul(100)))
    }
}

/// A link at whose other end a controller answers, by the true time.
#[derive(Drop)]
pub(crate) struct Controller<'a> {
    world: &'a World,
    reply: Option<Datagram>,
}

impl<'a> Controller<'a> {
    pub(crate) fn new(world: &'a World) -> Controller<'a> {
        Controller { world, reply: None }
    }
}

/// What the controller sends back to a request that it received and answers at these moments.
fn reply_to(request: &[u8], received: i64, sent: i64) -> Option<Datagram>
    requires received { IsReading received }
    requires sent { IsReading sent }
{
    let info = ServerInfo::local(received);
    match answer(&ACCOUNT, &info, request, received, sent) {
        Answer::Signed(reply) => Some(reply),
        Answer::Plain(_) | Answer::Refused(_) => None,
    }
}

impl Link for Controller<'_> {
    ghost use Rattle.std.specs.Prelude.{None};

    ghost told = { λ _. None };

    ghost faults = { λ _. 0 };

    fn send(&mut self, _to: Addr, bytes: &[u8]) -> Put {
        self.world.pass(DELAY);
        let received = self.world.now();
        self.world.pass(WORK);
        self.reply = reply_to(bytes, received, self.world.now());
        Put::Done
    }

    fn recv(&mut self) -> Receipt {
        match self.reply.take() {
            Some(reply) => {
                self.world.pass(DELAY);
                Receipt::got(PARTNER, reply)
            }
            None => Receipt::Quiet,
        }
    }
}

/// Words that are counted.
#[derive(Drop)]
pub(crate) struct Counted {
    pub last: u32,
}

impl Entropy for Counted {
    ghost use Rattle.std.specs.Prelude.{None};

    ghost words = { λ _. None };

    ghost faults = { λ _. 0 };

    fn word(&mut self) -> Drawn {
        self.last = self.last.wrapping_add(1);
        Drawn::Word(self.last)
    }
}
