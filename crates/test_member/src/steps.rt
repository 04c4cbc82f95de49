//! A run of `/member` whose clock is stepped.
use crate::asserts::same;
use edge_io::{Addr, Move};
use std::test::Fail;
use test_scripts::{Came, INTERVAL, NEW_YEAR, SETTINGS, STEADY, Script, run};
use w32tm_cmd::Status;

const PEER: Addr = Addr {
    ip: 0x0A00_0002,
    port: 123,
};

// The replies to the first and to the second request, by a clock that is an hour, and then a second ahead. Their checksums are
// those of the key 00..0F and the 48 bytes of the header: `echo KEY HEADER | xxd -r -p | openssl md5`.
const AN_HOUR: [u8; 68] = *b"\x1C\x01\x0A\xE9\0\0\0\0\0\0\0\0LOCL\xE1\xB6\x6D\x90\0\0\0\0\
\0\0\0\x01\0\0\0\x01\xE1\xB6\x6D\x90\0\0\0\0\xE1\xB6\x6D\x90\0\x41\x89\x38\x4F\x04\0\0\
\x83\xCB\x11\x0D\x9A\x3D\x7E\x07\xE3\x83\xB2\xC5\x06\xC5\x2A\xB4";

const A_SECOND: [u8; 68] = *b"\x1C\x01\x0A\xE9\0\0\0\0\0\0\0\0LOCL\xE1\xB6\x63\x81\0\0\0\0\
\0\0\0\x02\0\0\0\x02\xE1\xB6\x63\x81\0\0\0\0\xE1\xB6\x63\x81\0\x41\x89\x38\x4F\x04\0\0\
\x88\xC7\xB9\xE2\x12\x7A\xC0\x06\xA3\x67\x6D\x19\xF0\x92\x27\x95";

/// Two replies. The second Tick is 1,024 seconds behind the first, so before the moment to which the step moved the clock:
/// it sends at once.
const STEPPED: Script<'static> = Script {
    settings: SETTINGS,
    came: &[Came::From(PEER, &AN_HOUR), Came::From(PEER, &A_SECOND)],
    readings: &[
        NEW_YEAR,
        NEW_YEAR,
        NEW_YEAR + 2_010_000,
        NEW_YEAR + INTERVAL,
        NEW_YEAR + INTERVAL + 2_010_000,
    ],
    random: &[1, 2],
    ..STEADY
};

const REPORT: &[u8] = b"life mark=0\n\
send n=1 to=10.0.0.2:123\n\
moved n=1 offset=35999000000 by=step\n\
send n=2 to=10.0.0.2:123\n\
moved n=2 offset=9000000 by=slew\n\
total sent=2 moved=2 refused=0\n\
link quiet=0 lost=0\n";

#[test]
fn a_step_and_the_next_tick(rt: HostRuntime) -> Result<(), Fail> {
    let words = ["/member:2", "/config:c", "/keeper:k"];
    let ran = run(rt.alloc(), &words, b"", &STEPPED)?;
    let moves = [Move::Step(35_999_000_000), Move::Slew(9_000_000)];
    same(
        &rt,
        &(ran.status, ran.written()),
        &(Status::Done, REPORT),
        &(),
    );
    same(&rt, &ran.moves(), &moves.as_slice(), &());
    Ok(())
}
