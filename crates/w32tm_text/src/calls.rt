//! The lines of the commands that call a service.
ghost use Rattle.std.specs.Prelude.{◌≡◌, ◌++◌, ◌∷◌, [], codes, decimal};
ghost use Rattle.w32tm_text.specs.Calls.{bits_line, resync_line, source_line};

use crate::status::line;
use line_text::{Line, LineText};
use partner_pick::NameText;

/// The line of `/resync` for the result of its call, with its line feed.
pub fn resync_line(code: u32) -> LineText
    ensures { result ≡ resync_line code }
{
    match code {
        0 => line("The command completed successfully.\n"),
        1 => line("The computer did not resync because no time data was available.\n"),
        3 => line("The computer did not resync because the required time change was too big.\n"),
        _ => other_result(code),
    }
}

/// The line for a result that has no text of its own.
fn other_result(code: u32) -> LineText
    ensures { result ≡ codes "The computer did not resync. Result " ++ decimal code
        ++ codes "." ++ 10 ∷ [] }
{
    let mut line = Line::new();
    line.add_text("The computer did not resync. Result ");
    line.add_number(code);
    line.add_text(".\n");
    LineText::from_line(&line)
}

/// The line of `/query /bits`, with its line feed: the bits as eight lower-case hexadecimal digits.
#[tactic(auto, unfolding(crate::specs::Calls::bits_line, byte_codec::specs::Numbers::number_bytes))]
pub fn bits_line(bits: u32) -> LineText
    ensures { result ≡ bits_line bits }
{
    let mut line = Line::new();
    line.add_text("bits=0x");
    line.add_hex(&bits.to_be_bytes());
    line.add_text("\n");
    LineText::from_line(&line)
}

/// The line of `/query /source`, with its line feed: the name.
pub fn source_line(name: &NameText) -> LineText
    ensures { result ≡ source_line name.now }
{
    let mut line = Line::new();
    line.add_bytes(name.as_slice());
    line.add_text("\n");
    LineText::from_line(&line)
}
