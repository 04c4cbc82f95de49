//! Words from memory.
ghost use Rattle.std.specs.Prelude.{◌≡◌, [], IfOk, IsOk, Some};
ghost use Rattle.edge_io.specs.EntropyScript.{entropy_after, word_answer};
ghost use Rattle.edge_traits.specs.Entropy.{DrawnCounts, Draws};

use crate::NoMemory;
use crate::calls::Calls;
use edge_traits::{Drawn, Entropy};
use std::alloc::Global;
use std::marker::Model;

/// Words from memory, and failures behind the last.
///
/// The draws are counted from 1, and those whose numbers are listed answer Failed: the word is there for the next
/// draw.
#[derive(Drop)]
pub struct ScriptEntropy {
    words: Vec<u32>,
    given: usize,
    calls: Calls,
}

impl Model for ScriptEntropy {
    ghost use Rattle.std.specs.Prelude.{◌≤◌, length, drop, take};
    ghost use Rattle.edge_io.specs.EntropyScript.{EntropyScript};

    ghost Value = { EntropyScript };

    ghost view = { λ e. record {
      coming = drop e.given e.words.items;
      given = take e.given e.words.items;
      fails = e.calls.fails.items;
      calls = e.calls.made;
      faults = e.calls.faults;
    } };

    ghost invariant = { λ e. e.given ≤ length e.words.items };
}

impl ScriptEntropy {
    /// A source of these words, whose draws of the numbers in `fails` fail.
    ///
    /// It takes no memory, so it never answers NoMemory, and the room limits nothing.
    pub fn new(
        _alloc: Global,
        words: Vec<u32>,
        fails: Vec<u64>,
        _room: usize,
    ) -> Result<ScriptEntropy, NoMemory>
        ensures made { IsOk result }
        ensures script { IfOk result (λ e. e ≡ record {
          coming = words.items;
          given = [];
          fails = fails.items;
          calls = 0;
          faults = 0;
        }) }
        ensures told { IfOk result (λ e. ⟦<ScriptEntropy as Entropy>⟧.words e ≡ Some []) }
        ensures faults { IfOk result (λ e. ⟦<ScriptEntropy as Entropy>⟧.faults e ≡ 0) }
    {
        Ok(ScriptEntropy {
            words,
            given: 0,
            calls: Calls {
                fails,
                made: 0,
                faults: 0,
            },
        })
    }
}

impl Entropy for ScriptEntropy {
    ghost use Rattle.std.specs.Prelude.{Some};

    ghost words = { λ e. Some e.given };

    ghost faults = { λ e. e.faults };

    fn word(&mut self) -> Drawn
        ensures gives { Draws result (Some self.old.given) (Some self.new.given) }
        ensures cause { DrawnCounts result self.old.faults self.new.faults }
        ensures answer { result ≡ word_answer self.old }
        ensures script { self.new ≡ entropy_after result self.old }
    {
        if self.calls.begin() || self.given == self.words.len() {
            self.calls.fail();
            return Drawn::Failed;
        }
        let word = self.words[self.given];
        self.given += 1;
        Drawn::Word(word)
    }
}
