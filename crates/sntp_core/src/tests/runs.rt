//! Histories and their reports.
use super::kit::{FIRST, LAST, NEXT, QUICK, R0, Run, SECOND, Told, report_of, same};
use crate::Outcome;
use ms_auth::Kind;
use phase_rule::Limits;
use std::alloc::Global;
use std::process::Abort;
use std::test::Fail;

/// What a member of one partner is told, which polls each second, and its report.
fn expect_report(rt: &impl Abort, alloc: Global, all: &[Told], want: &[u8]) -> Result<(), Fail> {
    let report = report_of(alloc, QUICK, &[FIRST], all)?;
    same(rt, &report.as_slice(), &want, &());
    Ok(())
}

const SECOND_REPLY: &[Told] = &[
    Told::Life(R0, 0),
    Told::Tick(R0, 1),
    Told::Tick(R0 + SECOND, 2),
    Told::Reply(R0 + 12_010_000, 2, 2, R0 + SECOND),
    Told::Reply(R0 + 12_010_000, 1, 1, R0),
    Told::Reply(R0 + 12_010_000, 2, 2, R0 + SECOND),
];

#[test]
fn second_reply_is_no_request(rt: HostRuntime) -> Result<(), Fail> {
    let want = b"life mark=0\n\
send n=1 to=10.0.0.2:123\n\
send n=2 to=10.0.0.2:123\n\
moved n=2 offset=29000000 by=slew\n\
refused reason=NoRequest\n\
refused reason=NoRequest\n";
    expect_report(&rt, rt.alloc(), SECOND_REPLY, want)
}

/// What a member is told, and then whether something more is admitted.
type Admitted = (&'static [Told], Told, bool);

// A life is admitted only with a mark that isn't below a count that was sent, and nothing else before the first one.
const LIVES: &[Admitted] = &[
    (&[], Told::Tick(R0, 7), false),
    (
        &[Told::Life(R0, 0), Told::Tick(R0, 7)],
        Told::Life(R0, 0),
        false,
    ),
];

fn expect_admitted(rt: &impl Abort, alloc: Global, row: &Admitted) -> Result<(), Fail> {
    let (all, more, admitted) = *row;
    let mut run = Run::new(alloc, Kind::Short, QUICK, &[FIRST])?;
    run.tell_all(all)?;
    same(rt, &run.admits(more), &admitted, &all.len());
    Ok(())
}

fn expect_all_admitted(rt: &impl Abort, alloc: Global, rows: &[Admitted]) -> Result<(), Fail> {
    for row in rows {
        expect_admitted(rt, alloc, row)?;
    }
    Ok(())
}

const EARLIER_LIFE: &[Told] = &[
    Told::Life(R0, 0),
    Told::Tick(R0, 7),
    Told::Life(R0, 64),
    Told::Reply(R0 + 1, 1, 7, R0),
    Told::Tick(R0 + 1, 8),
];

#[test]
fn earlier_life_is_no_request(rt: HostRuntime) -> Result<(), Fail> {
    expect_all_admitted(&rt, rt.alloc(), LIVES)?;
    let want = b"life mark=0\n\
send n=1 to=10.0.0.2:123\n\
life mark=64\n\
refused reason=NoRequest\n\
send n=65 to=10.0.0.2:123\n";
    expect_report(&rt, rt.alloc(), EARLIER_LIFE, want)
}

/// A reply to the first request, which comes twice outside of the window and then at its first or its last moment.
fn window(now: i64) -> [Told; 6] {
    [
        Told::Life(R0, 0),
        Told::Tick(R0, 1),
        Told::Forget,
        Told::ReplyBy(R0 - 1, 1, 1, R0 + 30_000_000, R0 + 30_000_000),
        Told::ReplyBy(R0 + 100_000_001, 1, 1, R0 + 30_000_000, R0 + 30_000_000),
        Told::ReplyBy(now, 1, 1, R0 + 30_000_000, R0 + 30_000_000),
    ]
}

// Both ends of the window are in it, and a reply outside it leaves the request open.
#[test]
fn window_of_ten_seconds(rt: HostRuntime) -> Result<(), Fail> {
    let first = b"refused reason=NoRequest\nrefused reason=NoRequest\n\
moved n=1 offset=30000000 by=slew\n";
    let last = b"refused reason=NoRequest\nrefused reason=NoRequest\n\
moved n=1 offset=-20000000 by=slew\n";
    expect_report(&rt, rt.alloc(), &window(R0), first)?;
    expect_report(&rt, rt.alloc(), &window(R0 + 100_000_000), last)
}

/// When the second request is sent: a second after the first correction, whose offset is -1.
const LATER: i64 = R0 + 20_000_010;

const OFFSETS: &[Told] = &[
    Told::Life(R0, 0),
    Told::Tick(R0, 1),
    Told::ReplyBy(R0 + 10, 1, 1, R0 + 3, R0 + 4),
    Told::Tick(LATER - 1, 2),
    Told::Tick(LATER, 3),
    Told::ReplyBy(LATER, 2, 3, LATER + 3_000_000_001, LATER + 3_000_000_001),
    Told::Tick(LATER, 4),
    Told::Tick(R0 + 30_000_009, 5),
    Told::Tick(R0 + 20_000_009, 6),
    Told::Tick(R0 + 30_000_009, 7),
];

// A doubled offset of -3 ticks is an offset of -1, and a step moves the base too: the next Tick is before it.
#[test]
fn offset_and_delay(rt: HostRuntime) -> Result<(), Fail> {
    let want = b"life mark=0\n\
send n=1 to=10.0.0.2:123\n\
moved n=1 offset=-1 by=slew\n\
send n=2 to=10.0.0.2:123\n\
moved n=2 offset=3000000001 by=step\n\
send n=3 to=10.0.0.2:123\n\
send n=4 to=10.0.0.2:123\n\
send n=5 to=10.0.0.2:123\n";
    expect_report(&rt, rt.alloc(), OFFSETS, want)
}

/// Limits of a member as they are by default.
const REAL: Limits = Limits {
    max_pos: 4_294_967_295,
    max_neg: 4_294_967_295,
    max_allowed: 300,
    min_poll: 10,
    max_poll: 15,
};

/// The shortest interval of such a member.
const INTERVAL: i64 = 10_240_000_000;

/// A Life and twenty turns, of which the second gets ten bytes and the third a signed reply.
fn twenty_turns(alloc: Global) -> Result<Vec<Told>, Fail> {
    let mut all = Vec::new(alloc);
    all.push(Told::Life(R0, 0))?;
    for turn in 1..21u32 {
        let now = R0 + i64::from(turn - 1) * INTERVAL;
        all.push(Told::Tick(now, turn))?;
        if turn == 2 {
            all.push(Told::Bytes(now + 10_000, &[0; 10]))?;
        }
        if turn == 3 {
            all.push(Told::Reply(now + 2_010_000, 3, 3, now))?;
        }
    }
    Ok(all)
}

const REALISTIC: &[u8] = b"life mark=0\n\
send n=1 to=10.0.0.2:123\n\
send n=2 to=10.0.0.2:123\n\
refused reason=BadLength\n\
send n=3 to=10.0.0.2:123\n\
moved n=3 offset=29000000 by=slew\n\
send n=4 to=10.0.0.2:123\n\
send n=5 to=10.0.0.2:123\n\
send n=6 to=10.0.0.2:123\n\
send n=7 to=10.0.0.2:123\n\
send n=8 to=10.0.0.2:123\n\
send n=9 to=10.0.0.2:123\n\
send n=10 to=10.0.0.2:123\n\
send n=11 to=10.0.0.2:123\n\
send n=12 to=10.0.0.1:123\n\
send n=13 to=10.0.0.1:123\n\
send n=14 to=10.0.0.1:123\n\
send n=15 to=10.0.0.1:123\n\
send n=16 to=10.0.0.1:123\n\
send n=17 to=10.0.0.1:123\n\
send n=18 to=10.0.0.1:123\n\
send n=19 to=10.0.0.1:123\n";

// The other partners are asked after eight requests without an answer.
#[test]
fn realistic_run(rt: HostRuntime) -> Result<(), Fail> {
    let mut run = Run::new(rt.alloc(), Kind::Short, REAL, &[FIRST, NEXT, LAST])?;
    run.tell_all(&twenty_turns(rt.alloc())?)?;
    same(&rt, &run.report.as_slice(), &REALISTIC, &());
    same(&rt, &run.member.source(), &Some(0), &());
    run.tell(Told::Life(R0, 64))?;
    same(&rt, &run.member.source(), &None, &());
    Ok(())
}

/// The count, the last number of the address and the poll field of the request that is sent.
type Sent = (u32, u32, u8);

/// What is told sends this request.
fn expect_sent(rt: &impl Abort, run: &mut Run, told: Told, want: Sent) -> Result<(), Fail> {
    let got = match run.tell(told)? {
        Outcome::Sent { to, count, bytes } => (
            count,
            to.ip % 256,
            bytes.as_slice().get(2).copied(),
        ),
        _ => (0, 0, None),
    };
    same(rt, &got, &(want.0, want.1, Some(want.2)), &want);
    Ok(())
}

/// The first partner is asked eight times, then the next, then the last, and then the first again.
fn expect_partners(rt: &impl Abort, run: &mut Run) -> Result<(), Fail> {
    for count in 1..34u32 {
        let now = R0 + i64::from(count) * SECOND;
        let number = match count {
            1..9 | 25..33 => 2,
            9..17 | 33 => 1,
            _ => 3,
        };
        expect_sent(rt, run, Told::Tick(now, count), (count, number, 0))?;
    }
    Ok(())
}

const ONE_PARTNER: &[Told] = &[
    Told::Life(R0, 0),
    Told::Tick(R0 + SECOND, 1),
    Told::Tick(R0 + 2 * SECOND, 2),
    Told::Tick(R0 + 3 * SECOND, 3),
    Told::Tick(R0 + 4 * SECOND, 4),
    Told::Tick(R0 + 5 * SECOND, 5),
    Told::Tick(R0 + 6 * SECOND, 6),
    Told::Tick(R0 + 7 * SECOND, 7),
    Told::Tick(R0 + 8 * SECOND, 8),
    Told::Resync(R0 + 8 * SECOND, 9, 2),
    Told::Forget,
    Told::Reply(R0 + 8 * SECOND, 8, 8, R0 + 8 * SECOND),
    Told::Reply(R0 + 8 * SECOND + 10_000, 9, 9, R0 + 8 * SECOND),
];

// With three partners the first comes again after the last, and with one a change still closes all requests. A change
// counts itself among the eight that are open before the next one.
#[test]
fn changes_of_partner(rt: HostRuntime) -> Result<(), Fail> {
    let mut run = Run::new(rt.alloc(), Kind::Short, QUICK, &[FIRST, NEXT, LAST])?;
    run.tell(Told::Life(R0, 0))?;
    expect_partners(&rt, &mut run)?;
    let want = b"refused reason=NoRequest\nmoved n=9 offset=30000000 by=slew\n";
    expect_report(&rt, rt.alloc(), ONE_PARTNER, want)
}

/// When the calls are made: at the ninth second, whose Tick asked the next partner.
const CALLED: i64 = R0 + 9 * SECOND;

/// Flags of calls, with the request that each sends.
const CALLS: &[(u32, Sent)] = &[
    (2, (10, 1, 0)),
    (4, (11, 2, 0)),
    (3, (12, 2, 0)),
    (0xFFFF_FFFB, (13, 2, 0)),
    (7, (14, 2, 0)),
];

/// What calls with these flags send.
fn expect_calls(rt: &impl Abort, run: &mut Run, calls: &[(u32, Sent)]) -> Result<(), Fail> {
    for (flags, sent) in calls {
        expect_sent(rt, run, Told::Resync(CALLED, 7, *flags), *sent)?;
    }
    Ok(())
}

/// Seven calls more without a rediscovery, and the change of partner after them.
const MORE_CALLS: &[(u32, Sent)] = &[
    (2, (15, 2, 0)),
    (2, (16, 2, 0)),
    (2, (17, 2, 0)),
    (2, (18, 2, 0)),
    (2, (19, 2, 0)),
    (2, (20, 2, 0)),
    (2, (21, 2, 0)),
    (2, (22, 1, 0)),
];

/// Nine Ticks, so that the next partner is asked.
const NINE: &[Told] = &[
    Told::Life(R0, 0),
    Told::Tick(R0 + SECOND, 1),
    Told::Tick(R0 + 2 * SECOND, 2),
    Told::Tick(R0 + 3 * SECOND, 3),
    Told::Tick(R0 + 4 * SECOND, 4),
    Told::Tick(R0 + 5 * SECOND, 5),
    Told::Tick(R0 + 6 * SECOND, 6),
    Told::Tick(R0 + 7 * SECOND, 7),
    Told::Tick(R0 + 8 * SECOND, 8),
    Told::Tick(CALLED, 9),
];

// A rediscovery takes the first partner, closes all requests and counts itself: seven more follow before a change.
#[test]
fn rediscovery(rt: HostRuntime) -> Result<(), Fail> {
    let mut run = Run::new(rt.alloc(), Kind::Short, QUICK, &[FIRST, NEXT])?;
    run.tell_all(NINE)?;
    expect_calls(&rt, &mut run, CALLS)?;
    run.tell_all(&[Told::Forget, Told::Reply(CALLED + 10_000, 13, 7, CALLED)])?;
    let want = b"refused reason=NoRequest\n".as_slice();
    same(&rt, &run.report.as_slice(), &want, &());
    expect_calls(&rt, &mut run, MORE_CALLS)
}

/// When a member polls again after a small offset: its interval is two seconds.
const DUE: i64 = R0 + 10_000 + 2 * SECOND;

const SMALL_OFFSET: &[Told] = &[
    Told::Life(R0, 0),
    Told::Tick(R0, 1),
    Told::ReplyBy(R0 + 10_000, 1, 1, R0, R0),
    Told::Forget,
    Told::Tick(DUE - 1, 2),
];

// The polling interval doubles after a small offset, and its exponent stands in the request.
#[test]
fn polling_interval(rt: HostRuntime) -> Result<(), Fail> {
    let mut run = Run::new(rt.alloc(), Kind::Short, QUICK, &[FIRST])?;
    run.tell_all(SMALL_OFFSET)?;
    same(&rt, &run.report.as_slice(), &[].as_slice(), &());
    expect_sent(&rt, &mut run, Told::Tick(DUE, 3), (2, 2, 1))
}

const SPENT: &[Told] = &[
    Told::Life(R0, 4_294_967_293),
    Told::Tick(R0, 1),
    Told::Tick(R0 + SECOND, 2),
    Told::Reply(R0 + SECOND, 4_294_967_294, 1, R0),
    Told::Life(R0, 4_294_967_295),
];

// The last count is 4,294,967,295, over all lives.
#[test]
fn spent_counts(rt: HostRuntime) -> Result<(), Fail> {
    for (events, more) in [
        (3, Told::Tick(R0 + SECOND, 3)),
        (3, Told::Resync(R0 + 2 * SECOND, 3, 4)),
        (4, Told::Life(R0, 4_294_967_294)),
        (5, Told::Tick(R0, 4)),
    ] {
        expect_admitted(&rt, rt.alloc(), &(&SPENT[..events], more, false))?;
    }
    let want = b"life mark=4294967293\n\
send n=4294967294 to=10.0.0.2:123\n\
send n=4294967295 to=10.0.0.2:123\n\
moved n=4294967294 offset=25005000 by=slew\n\
life mark=4294967295\n";
    expect_report(&rt, rt.alloc(), SPENT, want)
}
