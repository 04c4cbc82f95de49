//! The line of a computer.
ghost use Rattle.std.specs.Prelude.{◌≡◌, ◌≢◌, Bool, IfSome};
ghost use Rattle.partner_pick.specs.declared.entry.Entry.{Entry};
ghost use Rattle.partner_pick.specs.ComputerText.{SpellsEntry, flag_byte, flags_text};

use crate::{Entry, NameText};
use edge_traits::Addr;
use text_grammar::{cut, read_socket_address};

/// How each computer line begins.
pub const COMPUTER: &[u8] = b"computer ";

/// The entry that the line spells: `computer NAME ADDRESS:PORT FLAGS` with single blanks. None where it spells
/// none.
///
/// NAME is 1 to 63 letters, digits, `-` or `.`, ADDRESS four decimals of 0 to 255 joined by dots, PORT a decimal of
/// 1 to 65,535. FLAGS is four characters: `S` or `-` (in the site), `R` or `-` (reliable), `P` or `-` (parent
/// domain), `E` or `-` (PDC emulator).
pub fn read_entry(line: &[u8]) -> Option<Entry>
    ensures read { IfSome result (λ entry. SpellsEntry entry line.now) }
    ensures found { (entry : Entry) → SpellsEntry entry line.now → result ≡ Some entry }
{
    let (name, rest) = cut(line.strip_prefix(COMPUTER)?, b' ')?;
    let (address, flags) = cut(rest, b' ')?;
    let name = NameText::read(name)?;
    let (ip, port) = read_socket_address(address)?;
    let (in_site, reliable, parent, pdc) = read_flags(flags)?;
    Some(Entry {
        name,
        addr: Addr { ip, port },
        in_site,
        reliable,
        parent,
        pdc,
    })
}

/// The four flags in the order of the line. None where the text is anything else.
fn read_flags(text: &[u8]) -> Option<(bool, bool, bool, bool)>
    ensures read { IfSome result (λ f. text.now ≡ flags_text f.0 f.1 f.2 f.3) }
    ensures found { (s r p e : Bool) → text.now ≡ flags_text s r p e
        → result ≡ Some record { 0 = s; 1 = r; 2 = p; 3 = e } }
{
    let [in_site, reliable, parent, pdc] = text else {
        return None;
    };
    Some((
        read_flag(b'S', *in_site)?,
        read_flag(b'R', *reliable)?,
        read_flag(b'P', *parent)?,
        read_flag(b'E', *pdc)?,
    ))
}

/// Whether the flag of this letter is set: the letter says yes, and `-` says no.
fn read_flag(letter: u8, byte: u8) -> Option<bool>
    requires { letter ≢ 45 }
    ensures read { IfSome result (λ flag. byte ≡ flag_byte letter flag) }
    ensures found { (flag : Bool) → byte ≡ flag_byte letter flag → result ≡ Some flag }
{
    if byte == letter {
        Some(true)
    } else if byte == b'-' {
        Some(false)
    } else {
        None
    }
}
