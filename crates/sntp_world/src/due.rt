//! What an operation comes to, by the world as it stands.
ghost use Rattle.std.specs.Prelude.{◌≡◌, ◌↔◌, ◌≤◌, IsTrue, length};
ghost use Rattle.capture_fmt.specs.declared.event.Event.TheVariants.{Arrive, Life};
ghost use Rattle.sntp_world.specs.declared.op.Op.TheVariants.{Ask, Craft, Deliver, Pass, Poll, Restart};
ghost use Rattle.sntp_world.specs.State.{State};
ghost use Rattle.sntp_world.specs.Setting.{controller_addr};
ghost use Rattle.sntp_world.specs.Standing.{Keeps};
ghost use Rattle.sntp_world.specs.Steps.{AsksForMember, HasAccountDigest};
ghost use Rattle.sntp_world.specs.Due.{IsDue, IsSentBefore, NamesAccount};

use crate::moment::Moment;
use crate::packet::{Destination, Packet, find_request, has_bytes};
use crate::setting::{ACCOUNT, CONTROLLER};
use crate::{Op, World};
use capture_fmt::Event;
use edge_traits::Datagram;
use ms_auth::{Tail, check, read_packet, short_rid};
use ntp_wire::read_header;

/// Counts are reserved so many at a time.
const BLOCK: u32 = 64;

/// The greatest mark after which a block can be reserved.
const LAST_MARK: u64 = 4_294_967_231;

/// What is to be done.
#[derive(Drop)]
pub(crate) enum Due {
    /// Nothing: the operation may not be.
    Nothing,
    /// The clocks move on.
    Time(Moment),
    /// The controller answers these bytes.
    Answer(Datagram),
    /// The member takes an event.
    Take(Event),
}

impl World {
    /// What an operation comes to.
    pub(crate) fn due(&self, op: &Op) -> Due
        ensures { (w : State) → Keeps self.now w → IsDue op.now result w }
    {
        match op {
            Op::Pass { d, e, f } => self.passing(*d, *e, *f),
            Op::Poll { word } => self.polling(*word),
            Op::Deliver { back } => self.delivering(*back),
            Op::Ask { bytes } => self.asking(bytes),
            Op::Craft { bytes } => self.crafting(bytes),
            Op::Restart => self.restarting(),
        }
    }

    fn passing(&self, d: u32, e: i32, f: i32) -> Due
        ensures { (w : State) → Keeps self.now w → IsDue (Pass d e f) result w }
    {
        match self.clocks.after(d, e, f) {
            Some(moment) => Due::Time(moment),
            None => Due::Nothing,
        }
    }

    /// A turn, while the member has counts left.
    fn polling(&self, word: u32) -> Due
        ensures { (w : State) → Keeps self.now w → IsDue (Poll word) result w }
    {
        let tick = Event::Tick {
            now: self.clocks.member,
            word,
        };
        if self.member.admits(&tick) {
            Due::Take(tick)
        } else {
            Due::Nothing
        }
    }

    fn delivering(&self, back: u32) -> Due
        ensures { (w : State) → Keeps self.now w → IsDue (Deliver back) result w }
    {
        // So that the prover has the world's invariant: operations have led to it.
        let _ = &self.member;
        let Some(packet) = self.packet(back) else {
            return Due::Nothing;
        };
        match packet.to {
            Destination::Controller => Due::Answer(packet.bytes.copy()),
            Destination::Member => Due::Take(self.arrival(&packet.bytes)),
        }
    }

    /// A stranger's request, which may not ask for a reply to a request that the member has yet to send.
    fn asking(&self, bytes: &Datagram) -> Due
        ensures { (w : State) → Keeps self.now w → IsDue (Ask bytes.now) result w }
    {
        let message = bytes.as_slice();
        if asks_for_member(message) && !is_known(self.packets.as_slice(), message) {
            return Due::Nothing;
        }
        Due::Answer(bytes.copy())
    }

    /// A stranger's packet, which may not be signed under the account's key unless it was overheard.
    fn crafting(&self, bytes: &Datagram) -> Due
        ensures { (w : State) → Keeps self.now w → IsDue (Craft bytes.now) result w }
    {
        let message = bytes.as_slice();
        if is_signed(message) && !has_bytes(self.packets.as_slice(), message) {
            return Due::Nothing;
        }
        Due::Take(self.arrival(bytes))
    }

    /// A life that begins after all counts that the last one has reserved.
    fn restarting(&self) -> Due
        ensures { (w : State) → Keeps self.now w → IsDue Restart result w }
    {
        let blocks = self.sent.div_ceil(BLOCK);
        let mark = u64::from(self.mark) + u64::from(BLOCK) * u64::from(blocks);
        if mark > LAST_MARK {
            return Due::Nothing;
        }
        Due::Take(self.life(mark as u32))
    }

    /// The member's next life, with this mark.
    fn life(&self, mark: u32) -> Event
        ensures { result ≡ Life self.now.clocks.member mark }
    {
        Event::Life {
            now: self.clocks.member,
            mark,
        }
    }

    /// The arrival of these bytes at the member.
    fn arrival(&self, bytes: &Datagram) -> Event
        ensures { result ≡ Arrive self.now.clocks.member controller_addr bytes.now }
    {
        Event::Arrive {
            now: self.clocks.member,
            from: CONTROLLER,
            bytes: bytes.copy(),
        }
    }
}

/// Whether the member's request with the transmit timestamp of these bytes is among the packets.
fn is_known(packets: &[Packet], bytes: &[u8]) -> bool
    // A header is there.
    requires { 48 ≤ length bytes.now }
    ensures { IsTrue result ↔ IsSentBefore packets.now bytes.now }
{
    match read_header(bytes) {
        Ok(header) => find_request(packets, header.transmit).is_some(),
        Err(_) => false,
    }
}

/// Whether the bytes are a message that asks under the member's account.
fn asks_for_member(bytes: &[u8]) -> bool
    ensures { IsTrue result ↔ AsksForMember bytes.now }
{
    match read_packet(bytes) {
        Ok(packet) => names_account(&packet.tail),
        Err(_) => false,
    }
}

/// Whether a message asks for a reply under the member's account.
fn names_account(tail: &Tail) -> bool
    ensures { IsTrue result ↔ NamesAccount tail.now }
{
    match tail {
        Tail::Plain => false,
        Tail::Short68 { key_id, .. } => short_rid(*key_id) == ACCOUNT.rid,
        Tail::Ext120 { rid, .. } => *rid == ACCOUNT.rid,
    }
}

/// Whether the bytes carry the account's digest.
fn is_signed(bytes: &[u8]) -> bool
    ensures { IsTrue result ↔ HasAccountDigest bytes.now }
{
    match read_packet(bytes) {
        Ok(packet) => check(&packet, &ACCOUNT.current),
        Err(_) => false,
    }
}
