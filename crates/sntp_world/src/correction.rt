//! The bound of a correction.
ghost use Rattle.std.specs.Prelude.{◌≡◌, ◌*◌, ◌<◌, ◌≤◌, ◌^◌, ◌-ℤ◌, ◌≤ℤ◌, nat_abs, pos, Some, ℤ, unsigned_abs};
ghost use Rattle.base_specs.specs.Time.{IsReading};
ghost use Rattle.ntp_wire.specs.Stamp.{ticks_of};
ghost use Rattle.time_machine.specs.Verdict.{delay_of};
ghost use Rattle.sntp_world.specs.Due.{IsAccepted, IsSlackBy, least_of};
ghost use Rattle.sntp_world.specs.Laws.{AreClocks};
ghost use Rattle.sntp_world.specs.State.{slack_of};

use crate::moment::Moment;
use crate::packet::{Packet, find_request};
use capture_fmt::Event;
use ntp_wire::{Header, read_header, to_ticks};
use time_machine::delay_of;

/// The least slack, with that of one more correction by this offset, which an accepted reply has led to at these
/// clocks.
pub(crate) fn least_with(
    least: Option<i64>,
    packets: &[Packet],
    event: &Event,
    offset: i64,
    clocks: Moment,
) -> Option<i64>
    requires accepted { IsAccepted packets.now clocks event.now }
    requires clocks { AreClocks clocks }
    requires small { unsigned_abs offset < 10 ^ 17 }
    ensures { (slack : ℤ) × IsSlackBy packets.now clocks event.now offset slack
        × (result ≡ Some (least_of least slack)) }
{
    let Event::Arrive { bytes, .. } = event else {
        return least;
    };
    let Ok(header) = read_header(bytes.as_slice()) else {
        return least;
    };
    let Some(request) = find_request(packets, header.originate) else {
        return least;
    };
    let slack = slack_of(request.at, &header, offset, clocks);
    Some(least_by(least, slack))
}

/// The lesser of both, or the second where there is no first.
fn least_by(least: Option<i64>, slack: i64) -> i64
    ensures { result ≡ least_of least slack }
{
    match least {
        Some(least) => { if least < slack { least } else { slack } }
        None => slack,
    }
}

/// How much twice the error of a correction is below twice its bound, in ticks of 100 ns. The request left at one
/// moment, and its reply, which led to this offset, came at the other.
fn slack_of(left: Moment, reply: &Header, offset: i64, came: Moment) -> i64
    requires left { IsReading left.member }
    requires uneven { left.uneven ≤ came.uneven }
    requires delayed { pos 0 ≤ℤ delay_of left.member
        (ticks_of reply.now.receive came.member) (ticks_of reply.now.transmit came.member) came.member }
    requires soon { delay_of left.member
        (ticks_of reply.now.receive came.member) (ticks_of reply.now.transmit came.member) came.member ≤ℤ pos 100000000 }
    requires clocks { AreClocks came }
    requires small { unsigned_abs offset < 10 ^ 17 }
    ensures { result ≡ slack_of (record {
      offset = offset;
      ahead = came.controller -ℤ came.member;
      delay = delay_of left.member
          (ticks_of reply.now.receive came.member) (ticks_of reply.now.transmit came.member) came.member;
      sent = left.uneven;
      came = came.uneven;
    }) }
{
    let uneven = (2 * (came.uneven - left.uneven) + 1) as i64;
    delay_between(left, reply, came) + uneven - twice_error(offset, came) as i64
}

/// The delay of a reply that came at one moment, and whose request left at the other.
fn delay_between(left: Moment, reply: &Header, came: Moment) -> i64
    requires left { IsReading left.member }
    requires came { IsReading came.member }
    ensures { result ≡ delay_of left.member
        (ticks_of reply.now.receive came.member) (ticks_of reply.now.transmit came.member) came.member }
{
    let received = to_ticks(reply.receive, came.member);
    let sent = to_ticks(reply.transmit, came.member);
    delay_of(left.member, received, sent, came.member)
}

/// Twice the error of a correction by this offset at these clocks.
fn twice_error(offset: i64, came: Moment) -> u64
    requires clocks { AreClocks came }
    requires small { unsigned_abs offset < 10 ^ 17 }
    ensures is { result ≡ 2 * nat_abs (offset -ℤ (came.controller -ℤ came.member)) }
    ensures fits { result ≤ 8200000000000000000 }
{
    let error = offset - (came.controller - came.member);
    2 * error.unsigned_abs()
}
