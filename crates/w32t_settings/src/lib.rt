//! The settings of the service: one small text, whose numbers have the registry's names, read exactly.
//!
//! A text has account lines, computer lines and lines of the form `SETTING=VALUE`; empty lines and lines that begin
//! with `#` say nothing. [`read_settings`] gives the settings that such a text says, or the number of its least bad
//! line: a line of another form, or one that says again what an earlier one said, or the line in which the byte behind
//! the longest text stands. Where no line is bad, the text as a whole may be: a setting that is required is missing, or
//! two of them don't fit each other. That has the number of lines and one more. Want of memory comes freely.
//!
//! It stands on `text_grammar` (lines), `key_book` and `partner_pick` (their lines), `ms_auth` (the kind of messages),
//! `phase_rule` (limits) and `thiserror`. The layer above may rely on `answer` and `exact` of [`read_settings`], on the
//! invariants of [`Settings`], and on [`laws_of_settings`]: a text has just one answer. The definitions: the forms of
//! a line in `specs/SettingText.antt`, what the lines set and the defaults in `specs/Values.antt`, and the least bad
//! line in `specs/Answer.antt`. `specs/Progress.antt` belongs to the private part.
#![tactic(auto)]

mod draft;
mod laws;
mod read;
mod setting;
mod settings;
#[cfg(test)]
mod tests;
mod values;

pub use laws::laws_of_settings;
pub use read::read_settings;
pub use settings::{Settings, SettingsFault};
