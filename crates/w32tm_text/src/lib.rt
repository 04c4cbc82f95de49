//! The texts of the program `w32tm`: the words of its command line, and the lines that it prints.
//!
//! Words are read as a command with its options, [`read_words`]. `/show` prints a message by [`show_lines`], and `/dc`
//! ends with [`dc_lines`]. What a called service answers is printed by [`resync_line`], [`bits_line`] and
//! [`source_line`]. A run ends with a [`Status`], which has an exit code and a line on standard error, [`status_line`].
//! The settings text is read by [`read_settings`] of `w32t_settings`, whose [`Settings`] are handed on with their
//! definitions; [`conf_of`] says what a member is set to by them.
//!
//! It stands on `dc_sign`, `key_book` and `ms_auth` for what a command names and prints, on `text_grammar` for how
//! numbers, ports and keys are spelled, on `line_text` for lines that are written without memory, and on
//! `w32t_settings`, `partner_pick`, `phase_rule` and `time_machine` for settings and members. The layer above may rely
//! on this: words are a command exactly where the grammar says so, and one command at most; a message has its five lines,
//! the end of `/dc` its three, and a status its one code and its one line; a member is set to exactly what its settings
//! say, and there is no partner exactly where they have no candidate.
//!
//! The definitions stand in `specs/`: `Words.antt` has the grammar of commands, `Options.antt` which options each command
//! requires and allows and where they stand, `Show.antt` the lines of a message, `Dc.antt` those with which `/dc` ends,
//! `Calls.antt` those of `/resync` and `/query`, `Status.antt` the codes and the lines of statuses, and `Conf.antt` what a
//! member is set to. `Given.antt` belongs to the private part.
#![tactic(auto)]

mod calls;
mod conf;
mod dc;
mod fields;
mod options;
mod show;
mod status;
mod words;

pub use calls::{bits_line, resync_line, source_line};
pub use conf::{ConfFault, conf_of};
pub use dc::dc_lines;
pub use show::show_lines;
pub use status::{Status, status_line};
pub use w32t_settings::{Settings, SettingsFault, laws_of_settings, read_settings};
pub use words::{Action, BadWords, Command, read_words};
