//! Readings from memory.
ghost use Rattle.std.specs.Prelude.{◌≡◌, ◌<◌, [], ◌∷◌, All, IfOk, IfSome, Some, length, map};
ghost use Rattle.base_specs.specs.Time.{IsReading};
ghost use Rattle.base_specs.specs.Told.{Grew};
ghost use Rattle.edge_io.specs.ClockScript.{calls_of, clock_after, clock_call, clock_moved, moves_of};
ghost use Rattle.edge_io.specs.ClockScript.{now_answer};
ghost use Rattle.edge_traits.specs.Clock.{Correct, ReadingCounts, Reads, moves_among};

use crate::NoMemory;
use crate::calls::Calls;
use edge_traits::{Clock, Move, Reading};
use std::alloc::Global;
use std::marker::Model;

/// A call of a clock in memory: a reading that it gave, or a move.
#[derive(Clone, Copy, Debug, PartialEq, Eq)]
pub enum ClockEntry {
    /// The moment read, in ticks of 100 ns since 1 January 1601.
    Read(i64),
    /// A move.
    Correct(Move),
}

/// Readings from memory, and failures behind the last.
///
/// The calls of `now` are counted from 1, and those whose numbers are listed answer Failed: the reading is there
/// for the next call. `step` and `slew` can't fail and aren't counted. The clock tells the readings given and the
/// moves made, in their order, until there is no room for another move. From then on it tells nothing.
#[derive(Drop)]
pub struct ScriptClock {
    readings: Vec<i64>,
    given: usize,
    entries: Vec<ClockEntry>,
    /// The moves among the entries.
    moves: Vec<Move>,
    room: usize,
    is_telling: bool,
    calls: Calls,
}

impl Model for ScriptClock {
    ghost use Rattle.std.specs.Prelude.{◌≡◌, ◌+◌, ◌≤◌, All, length, drop, map, Some, None};
    ghost use Rattle.std.specs.Prelude.{if◌then◌else◌, vec_capacity};
    ghost use Rattle.base_specs.specs.Time.{IsReading};
    ghost use Rattle.edge_io.specs.ClockScript.{clock_call, ClockScript};
    ghost use Rattle.edge_traits.specs.Clock.{moves_among};

    ghost Value = { ClockScript };

    ghost view = { λ c. record {
      coming = drop c.given c.readings.items;
      told = if c.is_telling then Some (map clock_call c.entries.items) else None;
      room = c.room;
      fails = c.calls.fails.items;
      calls = c.calls.made;
      faults = c.calls.faults;
    } };

    ghost invariant = { λ c. (c.given ≤ length c.readings.items)
        × All IsReading c.readings.items
        × (c.moves.items ≡ moves_among (map clock_call c.entries.items))
        × (length c.entries.items ≡ c.given + length c.moves.items)
        × (length c.moves.items ≤ c.room)
        × (c.room ≤ vec_capacity c.moves)
        × (length c.readings.items + c.room ≤ vec_capacity c.entries) };
}

impl ScriptClock {
    /// A clock that gives these readings, with room to tell so many moves, whose calls of `now` of the numbers in
    /// `fails` fail.
    ///
    /// It takes the memory of its room, and answers NoMemory where that can't be had.
    pub fn new(
        alloc: Global,
        readings: Vec<i64>,
        fails: Vec<u64>,
        room: usize,
    ) -> Result<ScriptClock, NoMemory>
        requires { All IsReading readings.items }
        ensures script { IfOk result (λ c. c ≡ record {
          coming = readings.items;
          told = Some [];
          room = room;
          fails = fails.items;
          calls = 0;
          faults = 0;
        }) }
        ensures told { IfOk result (λ c. ⟦<ScriptClock as Clock>⟧.told c ≡ Some []) }
        ensures faults { IfOk result (λ c. ⟦<ScriptClock as Clock>⟧.faults c ≡ 0) }
    {
        let Some(both) = readings.len().checked_add(room) else {
            return Err(NoMemory);
        };
        let Ok(entries) = Vec::with_capacity(alloc, both) else {
            return Err(NoMemory);
        };
        let Ok(moves) = Vec::with_capacity(alloc, room) else {
            return Err(NoMemory);
        };
        Ok(ScriptClock {
            readings,
            given: 0,
            entries,
            moves,
            room,
            is_telling: true,
            calls: Calls {
                fails,
                made: 0,
                faults: 0,
            },
        })
    }

    /// The readings given and the moves made, the oldest first, and none once the clock tells nothing.
    pub fn calls(&self) -> &[ClockEntry]
        ensures script { map clock_call result.now ≡ calls_of self.now.told }
        ensures told { IfSome (⟦<ScriptClock as Clock>⟧.told self.now)
            (λ calls. map clock_call result.now ≡ calls) }
    {
        if self.is_telling { &self.entries } else { &[] }
    }

    /// The moves made, and none once the clock tells nothing.
    pub fn moves(&self) -> &[Move]
        ensures script { result.now ≡ moves_of self.now.told }
        ensures told { IfSome (⟦<ScriptClock as Clock>⟧.told self.now)
            (λ calls. result.now ≡ moves_among calls) }
    {
        if self.is_telling { &self.moves } else { &[] }
    }

    /// Tells a move, or nothing from now on.
    fn keep(&mut self, made: Move)
        ensures { self.new ≡ clock_moved made self.old }
    {
        if self.moves.len() >= self.room
            || self.entries.push(ClockEntry::Correct(made)).is_err()
            || self.moves.push(made).is_err()
        {
            self.is_telling = false;
        }
    }
}

impl Clock for ScriptClock {
    ghost told = { λ c. c.told };

    ghost faults = { λ c. c.faults };

    fn now(&mut self) -> Reading
        ensures gives { Reads result self.old.told self.new.told }
        ensures cause { ReadingCounts result self.old.faults self.new.faults }
        ensures answer { result ≡ now_answer self.old }
        ensures script { self.new ≡ clock_after result self.old }
    {
        if self.calls.begin() || self.given == self.readings.len() {
            self.calls.fail();
            return Reading::Failed;
        }
        let moment = self.readings[self.given];
        if self.entries.push(ClockEntry::Read(moment)).is_err() {
            self.is_telling = false;
        }
        self.given += 1;
        Reading::At(moment)
    }

    fn step(&mut self, amount: i64)
        ensures moves { Grew self.old.told self.new.told (Correct (Move.Step amount) ∷ []) }
        ensures cause { self.new.faults ≡ self.old.faults }
        ensures script { self.new ≡ clock_moved (Move.Step amount) self.old }
    {
        self.keep(Move::Step(amount));
    }

    fn slew(&mut self, amount: i64)
        ensures moves { Grew self.old.told self.new.told (Correct (Move.Slew amount) ∷ []) }
        ensures cause { self.new.faults ≡ self.old.faults }
        ensures script { self.new ≡ clock_moved (Move.Slew amount) self.old }
    {
        self.keep(Move::Slew(amount));
    }
}
