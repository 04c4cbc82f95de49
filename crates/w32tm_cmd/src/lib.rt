//! The work of the program `w32tm`: it carries out the command that the words of the command line spell.
//!
//! The devices come from outside as one value, [`Outside`], over the traits of `edge_traits` and `slot_disk`. Which words
//! are a command, and what a member is set to by settings, is settled in `w32tm_text`; the settings are read by
//! `settings_source`. What a command does is a crate of its own: `dc_sign` answers a request and serves a link,
//! `member_run` keeps a clock, `monitor_run` asks computers, `replay_run` judges a capture, `client_run` makes a remote
//! call, and `sntp_world` runs a simulated world. Nothing here opens a file, prints, or ends the program, so a test runs a
//! whole command over objects in memory.
//!
//! The program above makes the call [`w32tm`], and may rely on its clauses: which words are bad, what a command asks of
//! each device and leaves there for each answer, and the cause of each answer. It prints [`status_line`] and ends with
//! [`Status::code`]. The law [`laws_of_recorded_runs`] puts a run of `/member` and a replay of its capture together: the
//! same lines, and done where no call failed. The laws [`laws_of_all_runs`] put all calls of `/member` on one disk together,
//! at whatever call of it each was stopped.
//!
//! Begin with [`w32tm`] in `run.rt`; each command has a file of its own, as `sign.rt`. Runs of it over objects in memory are
//! in the crates over `test_scripts`, one for each command. The definitions in `specs/`, in the order to read them:
//! `Seen.antt` (what each device did), `Sign.antt`, `Show.antt`, `Dc.antt`, `Member.antt`, `Monitor.antt`, `Replay.antt`,
//! `Ask.antt` and `Simulate.antt` (what each command does), `Config.antt` and `Partners.antt` (how one ends that gets no
//! settings, or settings without a partner), `Touching.antt` (which devices each answer leaves as they were), `Writing.antt`
//! (what is written line by line), `Again.antt` and `AllRuns.antt` (of the laws). The grammar of the words and the lines that
//! are printed are in `w32tm_text/specs`.
#![tactic(auto)]

mod ask;
mod config;
mod dc;
mod laws;
mod member;
mod monitor;
mod outside;
mod replay;
mod run;
mod service;
mod show;
mod sign;
mod simulate;
mod writing;

pub use laws::{laws_of_all_runs, laws_of_recorded_runs};
pub use outside::{Outside, Tells};
pub use run::w32tm;
pub use w32tm_text::{Status, status_line};
