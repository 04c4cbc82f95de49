//! A book from a text.
ghost use Rattle.std.specs.Prelude.{◌≡◌, ◌≢◌, ◌≤◌, ◌⊎◌, ℕ, List, Result, length};
ghost use Rattle.std.specs.Str.Lines.{lines};
ghost use Rattle.key_book.specs.declared.account.Account.{Account};
ghost use Rattle.key_book.specs.declared.fault.BookFault.{BookFault};
ghost use Rattle.key_book.specs.Parsing.{IsAnswer, Takes};

use crate::line::{ACCOUNT, read_account};
use crate::{Book, BookFault, Keys};
use std::alloc::Global;
use text_grammar::next_line;

/// The accounts of the account lines of the text, in the order of the lines.
///
/// An account line begins with `account` and a blank; other lines are not looked at. It is `account RID KEY`
/// or `account RID KEY PREVIOUS` with single blanks: RID is a decimal without leading zeros of at most
/// 4,294,967,295, which no earlier account line has, and a key is 32 hexadecimal digits in either case. A
/// line ends with a line feed, and a carriage return just before it is dropped. Lines are counted from 1.
///
/// The first account line that is bad decides: [`BookFault::BadLine`] where it has another form, also where its
/// RID stood before, and [`BookFault::TwiceRid`] where it has this form and its RID stands on an earlier account
/// line. [`BookFault::NoMemory`] may come instead of every answer. The text has at most 16,777,217 bytes, and
/// no rule on its length makes a line bad.
pub fn parse_accounts(alloc: Global, text: &[u8]) -> Result<Book, BookFault>
    requires { length text.now ≤ 16777217 }
    // What is answered is true of the text.
    ensures answer { IsAnswer (lines text.now) result }
    // What is true of the text is answered, unless there is no memory.
    ensures exact { (answer : Result (List Account) BookFault) → IsAnswer (lines text.now) answer
        → answer ≢ Err BookFault.NoMemory → (result ≡ answer) ⊎ (result ≡ Err BookFault.NoMemory) }
{
    let mut book = Book::new(alloc);
    let mut left = text;
    let mut number = 0;
    while let Some((line, rest)) = next_line(left) {
        number += 1;
        add_line(&mut book, number, line)?;
        left = rest;
    }
    Ok(book)
}

/// Adds the account of the line with this number, where it is an account line.
fn add_line(book: &mut Book, number: u32, line: &[u8]) -> Result<(), BookFault>
    ensures { Takes number line.now book.old book.new result }
{
    if !line.starts_with(ACCOUNT) {
        return Ok(());
    }
    let Some(account) = read_account(line) else {
        return Err(BookFault::BadLine(number));
    };
    if book.find(account.rid).is_some() {
        return Err(BookFault::TwiceRid(number));
    }
    book.add(account).map_err(|_| BookFault::NoMemory)
}
