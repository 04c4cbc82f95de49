//! What holds of all texts of computers.
ghost use Rattle.std.specs.Prelude.{◌≡◌, ◌≢◌, ℕ, List, Err, Result};
ghost use Rattle.partner_pick.specs.declared.entry.Entry.{Entry};
ghost use Rattle.partner_pick.specs.declared.fault.DirFault.{DirFault};
ghost use Rattle.partner_pick.specs.Parsing.{IsAnswer};

/// The laws of the text. There is nothing to do.
pub fn laws_of_directories()
    // Lines have one answer at most, beside want of memory: one directory, or one first bad line.
    ensures one_answer { (lines : List (List ℕ)) (answer other : Result (List Entry) DirFault)
        → IsAnswer lines answer → IsAnswer lines other
        → answer ≢ Err DirFault.NoMemory → other ≢ Err DirFault.NoMemory
        → answer ≡ other }
    // And no lines are without one.
    ensures some_answer { (lines : List (List ℕ))
        → ¬ ((answer : Result (List Entry) DirFault) → IsAnswer lines answer
        → answer ≡ Err DirFault.NoMemory) }
{}
