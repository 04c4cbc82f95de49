//! A reply to an earlier run's request.
use crate::asserts::{holds, same};
use edge_io::Addr;
use std::alloc::Global;
use std::process::Abort;
use std::test::Fail;
use test_scripts::{Came, INTERVAL, NEW_YEAR, Ran, SETTINGS, STEADY, Script, THIRD, run};
use w32tm_cmd::Status;

/// The first partner in rank.
const PARTNER: Addr = Addr {
    ip: 0x0A00_0002,
    port: 123,
};

/// One for the Life and one a turn, and one for a datagram that comes.
const READINGS: [i64; 6] = [
    NEW_YEAR,
    NEW_YEAR,
    NEW_YEAR + INTERVAL,
    NEW_YEAR + 2 * INTERVAL,
    NEW_YEAR + 2 * INTERVAL + 2_010_000,
    NEW_YEAR + 3 * INTERVAL,
];

/// Three turns of which the third gets the reply to the third request of a first run.
const THREE: Script<'static> = Script {
    settings: SETTINGS,
    came: &[Came::Nothing, Came::Nothing, Came::From(PARTNER, &THIRD)],
    readings: &READINGS,
    random: &[1, 2, 3],
    ..STEADY
};

fn run_three(alloc: Global, image: [u8; 256]) -> Result<Ran, Fail> {
    let script = Script { image, ..THREE };
    run(
        alloc,
        &["/member:3", "/config:c", "/keeper:k"],
        b"",
        &script,
    )
}

/// The report, how many corrections were made, and the status.
fn expect_report(rt: &impl Abort, ran: &Ran, report: &[u8], moves: usize) {
    same(
        rt,
        &(ran.status, ran.moves().len()),
        &(Status::Done, moves),
        &moves,
    );
    same(rt, &ran.written(), &report, &moves);
}

/// What the first run prints, which the reply corrects.
const FIRST: &[u8] = b"life mark=0\n\
send n=1 to=10.0.0.2:123\n\
send n=2 to=10.0.0.2:123\n\
send n=3 to=10.0.0.2:123\n\
moved n=3 offset=29000000 by=slew\n\
total sent=3 moved=1 refused=0\n\
link quiet=2 lost=0\n";

/// What the second prints, on the disk of the first, at the same readings and with the same words. The same reply, at the
/// same moment, answers no request of it.
const AGAIN: &[u8] = b"life mark=64\n\
send n=65 to=10.0.0.2:123\n\
send n=66 to=10.0.0.2:123\n\
send n=67 to=10.0.0.2:123\n\
refused reason=NoRequest\n\
total sent=3 moved=0 refused=1\n\
link quiet=2 lost=0\n";

#[test]
fn reply_to_an_earlier_run(rt: HostRuntime) -> Result<(), Fail> {
    let first = run_three(rt.alloc(), [0; 256])?;
    expect_report(&rt, &first, FIRST, 1);
    let image = *first.image();
    let second = run_three(rt.alloc(), image)?;
    expect_report(&rt, &second, AGAIN, 0);
    holds(&rt, first.capture().len() == second.capture().len(), &());
    Ok(())
}
