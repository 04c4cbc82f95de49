//! A directory from a text.
ghost use Rattle.std.specs.Prelude.{◌≡◌, ◌≢◌, ◌≤◌, ◌⊎◌, ℕ, List, Result, length};
ghost use Rattle.std.specs.Str.Lines.{lines};
ghost use Rattle.partner_pick.specs.declared.entry.Entry.{Entry};
ghost use Rattle.partner_pick.specs.declared.fault.DirFault.{DirFault};
ghost use Rattle.partner_pick.specs.Parsing.{IsAnswer, Takes};

use crate::{AddFault, COMPUTER, DirFault, Directory, read_entry};
use std::alloc::Global;
use text_grammar::next_line;

/// The entries of the computer lines of the text, in the order of the lines.
///
/// A computer line begins with `computer` and a blank; other lines are not looked at. [`read_entry`] says its
/// form. A line ends with a line feed, and a carriage return just before it is dropped. Lines are counted from 1.
///
/// The first computer line that is bad decides: [`DirFault::BadLine`] where it has another form, also where its
/// name stood before, and [`DirFault::TwiceName`] where it has this form and its name, byte by byte, stands on an
/// earlier computer line. [`DirFault::NoMemory`] may come instead of every answer. The text has at most 16,777,217
/// bytes, and no rule on its length makes a line bad.
pub fn parse_directory(alloc: Global, text: &[u8]) -> Result<Directory, DirFault>
    requires { length text.now ≤ 16777217 }
    // What is answered is true of the text.
    ensures answer { IsAnswer (lines text.now) result }
    // What is true of the text is answered, unless there is no memory.
    ensures exact { (answer : Result (List Entry) DirFault) → IsAnswer (lines text.now) answer
        → answer ≢ Err DirFault.NoMemory → (result ≡ answer) ⊎ (result ≡ Err DirFault.NoMemory) }
{
    let mut directory = Directory::new(alloc);
    let mut left = text;
    let mut number = 0;
    while let Some((line, rest)) = next_line(left) {
        number += 1;
        add_line(&mut directory, number, line)?;
        left = rest;
    }
    Ok(directory)
}

/// Adds the entry of the line with this number, where it is a computer line.
fn add_line(directory: &mut Directory, number: u32, line: &[u8]) -> Result<(), DirFault>
    ensures { Takes number line.now directory.old directory.new result }
{
    if !line.starts_with(COMPUTER) {
        return Ok(());
    }
    let Some(entry) = read_entry(line) else {
        return Err(DirFault::BadLine(number));
    };
    match directory.add(entry) {
        Ok(()) => Ok(()),
        Err(AddFault::Twice) => Err(DirFault::TwiceName(number)),
        Err(AddFault::NoMemory) => Err(DirFault::NoMemory),
    }
}
