//! What holds of all texts of accounts.
ghost use Rattle.std.specs.Prelude.{◌≡◌, ◌≢◌, ℕ, List, Err, Result};
ghost use Rattle.key_book.specs.declared.account.Account.{Account};
ghost use Rattle.key_book.specs.declared.fault.BookFault.{BookFault};
ghost use Rattle.key_book.specs.Parsing.{IsAnswer};

/// The laws of the text. There is nothing to do.
pub fn laws_of_accounts()
    // Lines have one answer at most, beside want of memory: one list of accounts, or one first bad line.
    ensures one_answer { (lines : List (List ℕ)) (answer other : Result (List Account) BookFault)
        → IsAnswer lines answer → IsAnswer lines other
        → answer ≢ Err BookFault.NoMemory → other ≢ Err BookFault.NoMemory
        → answer ≡ other }
    // And no lines are without one.
    ensures some_answer { (lines : List (List ℕ))
        → ¬ ((answer : Result (List Account) BookFault) → IsAnswer lines answer
        → answer ≡ Err BookFault.NoMemory) }
{}
