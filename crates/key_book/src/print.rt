//! The text of a book.
ghost use Rattle.std.specs.Prelude.{◌≡◌, ◌++◌, ◌∷◌, [], ℕ, List, IfOk};
ghost use Rattle.std.specs.String.{string_bytes};
ghost use Rattle.key_book.specs.declared.account.Account.{Account};
ghost use Rattle.key_book.specs.AccountText.{account_line, printed, previous_digits};

use crate::Account;
use std::alloc::{AllocError, Global};

/// The lines of the accounts in their order, each with its line feed.
pub(crate) fn print_accounts(alloc: Global, accounts: &[Account]) -> Result<Vec<u8>, AllocError>
    ensures { IfOk result (λ text. text.items ≡ printed accounts.now) }
{
    let mut text = Vec::new(alloc);
    for account in accounts {
        let line = line_of(alloc, account)?;
        text.extend_from_slice(line.as_bytes())?;
        text.push(b'\n')?;
    }
    Ok(text)
}

/// The line of an account, without its end.
fn line_of(alloc: Global, account: &Account) -> Result<String, AllocError>
    ensures { IfOk result (λ line. string_bytes line ≡ account_line account.now) }
{
    let current = hex::encode(alloc, &account.current)?;
    let previous = previous_of(alloc, account.previous)?;
    format!(in alloc; "account {} {current}{previous}", account.rid)
}

/// A blank and the digits of the previous key, where there is one.
fn previous_of(alloc: Global, previous: Option<[u8; 16]>) -> Result<String, AllocError>
    ensures { IfOk result (λ text. string_bytes text ≡ previous_digits previous) }
{
    match previous {
        Some(key) => format!(in alloc; " {}", hex::encode(alloc, &key)?),
        None => Ok(String::new(alloc)),
    }
}
