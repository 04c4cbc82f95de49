//! Clocks and random words in memory, as tables.
ghost use Rattle.std.specs.Prelude.{All, IfOk};
ghost use Rattle.base_specs.specs.Time.{IsReading};

use edge_io::{Clock, ClockEntry, Drawn, Entropy, Move, Reading, ScriptClock, ScriptEntropy};
use std::alloc::{AllocError, Global};
use std::test::Fail;

/// The numbers among these that are readings.
fn readings_of(alloc: Global, numbers: &[i64]) -> Result<Vec<i64>, AllocError>
    ensures { IfOk result (λ readings. All IsReading readings.items) }
{
    numbers
        .iter()
        .copied()
        .filter(|number| *number >= 0 && *number <= 4_000_000_000_000_000_000)
        .collect(alloc)
}

/// The readings of a clock, its failing calls, and what it is to give.
struct ClockRow {
    readings: &'static [i64],
    fails: &'static [u64],
    wanted: &'static [Reading],
}

const CLOCKS: &[ClockRow] = &[
    ClockRow {
        readings: &[],
        fails: &[],
        wanted: &[Reading::Failed, Reading::Failed],
    },
    ClockRow {
        readings: &[5, 7, 5],
        fails: &[],
        wanted: &[
            Reading::At(5),
            Reading::At(7),
            Reading::At(5),
            Reading::Failed,
        ],
    },
    ClockRow {
        readings: &[5, 7],
        fails: &[1, 3],
        wanted: &[
            Reading::Failed,
            Reading::At(5),
            Reading::Failed,
            Reading::At(7),
            Reading::Failed,
        ],
    },
];

fn clock_of(
    alloc: Global,
    readings: &[i64],
    fails: &[u64],
    room: usize,
) -> Result<ScriptClock, Fail> {
    let readings = readings_of(alloc, readings)?;
    let fails = fails.to_vec(alloc)?;
    Ok(ScriptClock::new(alloc, readings, fails, room)?)
}

/// The place of the first reading that isn't as wanted.
fn first_wrong_reading<C: Clock>(clock: &mut C, wanted: &[Reading]) -> Option<usize> {
    for place in 0..wanted.len() {
        if clock.now() != wanted[place] {
            return Some(place);
        }
    }
    None
}

#[test]
fn clocks_give_their_readings(rt: HostRuntime) -> Result<(), Fail> {
    for row in CLOCKS {
        let mut clock = clock_of(rt.alloc(), row.readings, row.fails, 0)?;
        assert_eq!(rt; first_wrong_reading(&mut clock, row.wanted), None);
    }
    Ok(())
}

/// What a clock with room for two moves tells of a step, a reading that failed, one that didn't, and a slew.
const TOLD: &[ClockEntry] = &[
    ClockEntry::Correct(Move::Step(-3)),
    ClockEntry::Read(5),
    ClockEntry::Correct(Move::Slew(4)),
];

#[test]
fn clocks_tell_moves_while_there_is_room(rt: HostRuntime) -> Result<(), Fail> {
    let mut clock = clock_of(rt.alloc(), &[5, 7], &[1], 2)?;
    clock.step(-3);
    let wrong = first_wrong_reading(&mut clock, &[Reading::Failed, Reading::At(5)]);
    clock.slew(4);
    let moves = [Move::Step(-3), Move::Slew(4)];
    assert_eq!(rt;
        (wrong, clock.calls(), clock.moves()),
        (None, TOLD, moves.as_slice())
    );
    clock.slew(9);
    clock.step(9);
    let later = clock.now();
    assert_eq!(rt;
        (later, clock.calls().len(), clock.moves().len()),
        (Reading::At(7), 0, 0)
    );
    Ok(())
}

#[test]
fn entropies_give_their_words(rt: HostRuntime) -> Result<(), Fail> {
    let words = [7, u32::MAX, 7].to_vec(rt.alloc())?;
    let fails = [2].to_vec(rt.alloc())?;
    let mut entropy = ScriptEntropy::new(rt.alloc(), words, fails, 0)?;
    for want in [
        Drawn::Word(7),
        Drawn::Failed,
        Drawn::Word(u32::MAX),
        Drawn::Word(7),
        Drawn::Failed,
    ] {
        assert_eq!(rt; entropy.word(), want);
    }
    Ok(())
}
