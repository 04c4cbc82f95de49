//! The lines with which `/dc` ends.
ghost use Rattle.std.specs.Prelude.{◌≡◌, ◌<◌, All, length};
ghost use Rattle.w32tm_text.specs.Dc.{dc_lines, link_line, refused_line, replies_line};

use crate::fields::add_field;
use dc_sign::ServeEnd;
use line_text::{Line, LongLine};

/// The three lines with which `/dc` ends, each with its line feed: the replies, the refused requests by their reasons,
/// and what the link did. Numbers are in decimal.
pub fn dc_lines(end: &ServeEnd) -> [LongLine; 3]
    ensures lines { result ≡ dc_lines end.now }

    // None is empty.
    ensures some { All (λ line. 0 < length line) result }
{
    [replies_line(end), refused_line(end), link_line(end)]
}

/// How many replies were given.
#[tactic(auto, unfolding(crate::specs::Dc::replies_line))]
fn replies_line(end: &ServeEnd) -> LongLine
    ensures { result ≡ replies_line end.now }
{
    let mut line = Line::new();
    add_field(&mut line, "signed=", end.signed);
    add_field(&mut line, " plain=", end.plain);
    line.add_text("\n");
    line
}

/// How many requests were refused, by the reason.
#[tactic(auto, unfolding(crate::specs::Dc::refused_line))]
fn refused_line(end: &ServeEnd) -> LongLine
    ensures { result ≡ refused_line end.now }
{
    let [
        bad_length,
        bad_version,
        bad_mode,
        unknown_account,
        no_old_key,
    ] = end.refused;
    let mut line = Line::new();
    add_field(&mut line, "refused BadLength=", bad_length);
    add_field(&mut line, " BadVersion=", bad_version);
    add_field(&mut line, " BadMode=", bad_mode);
    add_field(&mut line, " UnknownAccount=", unknown_account);
    add_field(&mut line, " NoOldKey=", no_old_key);
    line.add_text("\n");
    line
}

/// What the link did.
#[tactic(auto, unfolding(crate::specs::Dc::link_line))]
fn link_line(end: &ServeEnd) -> LongLine
    ensures { result ≡ link_line end.now }
{
    let mut line = Line::new();
    add_field(&mut line, "link quiet=", end.quiet);
    add_field(&mut line, " lost=", end.lost);
    add_field(&mut line, " unsent=", end.unsent);
    line.add_text("\n");
    line
}
