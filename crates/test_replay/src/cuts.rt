//! The capture of a run of twenty turns, cut at each byte.
use crate::asserts::{holds, same};
use std::process::Abort;
use std::test::Fail;
use test_scripts::{REALISTIC, Ran, SETTINGS, STEADY, Script, realistic_capture, run};
use w32tm_cmd::Status;

/// Where its records end, and how many lines there are of these: a Life has 17 bytes, a Tick 13, and an arrival 17 and those
/// that came, which are 10 in the second turn and 68 in the third. The Tick of the fourth turn has no line.
const ENDS: [(usize, usize); 24] = [
    (0, 0),
    (17, 1),
    (30, 2),
    (43, 3),
    (70, 4),
    (83, 5),
    (168, 6),
    (181, 6),
    (194, 7),
    (207, 8),
    (220, 9),
    (233, 10),
    (246, 11),
    (259, 12),
    (272, 13),
    (285, 14),
    (298, 15),
    (311, 16),
    (324, 17),
    (337, 18),
    (350, 19),
    (363, 20),
    (376, 21),
    (389, 22),
];

/// The last end that is not behind this place.
fn end_before(cut: usize) -> (usize, usize) {
    let mut last = (0, 0);
    for end in ENDS {
        if end.0 <= cut {
            last = end;
        }
    }
    last
}

/// At the end of a record it is done, and has a total line. Elsewhere the record that is cut is bad, and there are the lines
/// of those before it.
fn wanted(cut: usize) -> (Status, usize) {
    let (end, lines) = end_before(cut);
    if end == cut {
        (Status::Done, lines.saturating_add(1))
    } else {
        (Status::BadCapture { at: end as u64 }, lines)
    }
}

fn lines_in(text: &[u8]) -> usize {
    text.iter().filter(|byte| **byte == b'\n').count()
}

fn expect_cut(rt: &impl Abort, cut: usize, ran: &Ran) {
    let got = (ran.status, lines_in(ran.written()));
    same(rt, &got, &wanted(cut), &cut);
    let is_front = ran.status == Status::Done || REALISTIC.starts_with(ran.written());
    holds(rt, is_front, &cut);
}

#[test]
fn each_cut_of_a_run(rt: HostRuntime) -> Result<(), Fail> {
    let capture = realistic_capture(rt.alloc())?;
    let script = Script {
        settings: SETTINGS,
        ..STEADY
    };
    for cut in 0..390 {
        let front = capture.as_slice().get(..cut).unwrap_or(b"no capture");
        let ran = run(rt.alloc(), &["/replay", "/config:c"], front, &script)?;
        expect_cut(&rt, cut, &ran);
    }
    Ok(())
}
