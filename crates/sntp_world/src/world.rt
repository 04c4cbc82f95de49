//! What a world keeps.
ghost use Rattle.std.specs.Prelude.{◌≡◌, [], List, IfOk, option_map, reverse, slice_get};
ghost use Rattle.capture_fmt.specs.declared.event.Event.TheVariants.{Life};
ghost use Rattle.sntp_world.specs.declared.op.Op.{Op};
ghost use Rattle.sntp_world.specs.Accuracy.{IsNotNegative};
ghost use Rattle.sntp_world.specs.Setting.{first_reading};
ghost use Rattle.sntp_world.specs.State.{IsLeastSlack, State};
ghost use Rattle.sntp_world.specs.Standing.{Keeps, StandsForOps};
ghost use Rattle.sntp_world.specs.Steps.{StayNear};

use crate::NoMemory;
use crate::moment::Moment;
use crate::packet::Packet;
use crate::setting::conf;
use capture_fmt::Event;
use sntp_core::Member;
use std::alloc::Global;
use std::marker::Model;

/// A member, its controller, their clocks, and all packets that were sent.
///
/// It keeps its allocator. After NoMemory it is as it was.
#[derive(Drop)]
pub struct World {
    pub(crate) member: Member,
    /// The mark of the member's last life.
    pub(crate) mark: u32,
    /// How many requests were sent in that life.
    pub(crate) sent: u32,
    pub(crate) clocks: Moment,
    /// All packets, in the order of sending.
    pub(crate) packets: Vec<Packet>,
    /// The least slack of the corrections so far.
    pub(crate) slack: Option<i64>,
}

impl Model for World {
    ghost use Rattle.std.specs.Prelude.{◌≡◌, Some};
    ghost use Rattle.sntp_core.specs.Standing.{words_of};
    ghost use Rattle.sntp_world.specs.Standing.{IsReached, Kept};

    ghost Value = { Kept };

    ghost view = { λ w. record {
      member = w.member;
      clocks = w.clocks;
      packets = w.packets.items;
      slack = w.slack;
    } };

    // Some operations have led to what it keeps, and the mark and the number of requests are the member's.
    ghost invariant = { λ w. IsReached (record {
      member = w.member;
      clocks = w.clocks;
      packets = w.packets.items;
      slack = w.slack;
    })
        × ((words_of w.member).mark ≡ Some w.mark)
        × ((words_of w.member).sent ≡ w.sent) };
}

impl World {
    /// The world to which nothing has happened but the first Life of its member. NoMemory comes for want of memory.
    pub fn new(alloc: Global) -> Result<World, NoMemory>
        ensures { IfOk result (λ world. StandsForOps world []) }
    {
        let Ok(conf) = conf(alloc) else {
            return Err(NoMemory);
        };
        let mut member = Member::new(conf);
        let _started = member.step(&World::first_event());
        Ok(World {
            member,
            mark: 0,
            sent: 0,
            clocks: Moment::FIRST,
            packets: Vec::new(alloc),
            slack: None,
        })
    }

    /// The Life that the member has taken at first.
    pub(crate) fn first_event() -> Event
        ensures { result ≡ Life first_reading 0 }
    {
        Event::Life {
            now: Moment::FIRST.member,
            mark: 0,
        }
    }

    /// The least slack over all corrections so far, in ticks of 100 ns. None exactly where there was no correction.
    ///
    /// The slack of a correction is how much twice its error is below twice its bound, which is half the delay, plus
    /// the unevenness of the clocks between sending and arrival, plus half a tick.
    pub fn slack(&self) -> Option<i64>
        ensures kept { result ≡ self.now.slack }
        ensures least { (w : State) → Keeps self.now w → IsLeastSlack w.corrections result }

        // It isn't negative, where the clocks stayed within 68 years of each other.
        ensures never_negative { (ops : List Op) → StandsForOps self.now ops → StayNear ops → IsNotNegative result }
    {
        self.slack
    }

    /// The packet so many places before the one that was sent last.
    pub(crate) fn packet(&self, back: u32) -> Option<&Packet>
        ensures { option_map (λ p. p.now) result ≡ slice_get (reverse self.now.packets) back }
    {
        let after = back as usize + 1;
        self.packets.get(self.packets.len().checked_sub(after)?)
    }
}
