//! The line of an account.
ghost use Rattle.std.specs.Prelude.{◌≡◌, ℕ, List, Option, IfSome, IfNone};
ghost use Rattle.key_book.specs.declared.account.Account.{Account};
ghost use Rattle.key_book.specs.AccountText.{SpellsAccount, SpellsKeys};

use crate::Account;
use text_grammar::{cut, read_decimal, read_key};

/// How each account line begins.
pub const ACCOUNT: &[u8] = b"account ";

/// The account that the line spells: `account RID KEY` or `account RID KEY PREVIOUS` with single blanks. None where
/// it spells none.
///
/// RID is a decimal without sign or leading zero of at most 4,294,967,295, and a key is 32 hexadecimal digits in either
/// case.
pub fn read_account(line: &[u8]) -> Option<Account>
    ensures read { IfSome result (λ account. SpellsAccount account line.now) }
    ensures found { (account : Account) → SpellsAccount account line.now → result ≡ Some account }
{
    let (rid, keys) = cut(line.strip_prefix(ACCOUNT)?, b' ')?;
    let rid = read_decimal(rid)?;
    let (current, previous) = read_keys(keys)?;
    Some(Account {
        rid,
        current,
        previous,
    })
}

/// The current key, and the previous one where there is one.
fn read_keys(text: &[u8]) -> Option<([u8; 16], Option<[u8; 16]>)>
    ensures read { IfSome result (λ keys. SpellsKeys keys.0 keys.1 text.now) }
    ensures found { (current : List ℕ) (previous : Option (List ℕ)) → SpellsKeys current previous text.now
        → result ≡ Some record { 0 = current; 1 = previous } }
{
    match cut(text, b' ') {
        None => Some((read_key(text)?, None)),
        Some((current, previous)) => Some((read_key(current)?, Some(read_key(previous)?))),
    }
}
