//! Runs of members on one disk, one after the other, at whatever call of it each was stopped.
//!
//! A run, `Run` of `specs/Runs.antt`, is what a run kept and did, in the parts of `Lives` that hold of turns and of calls that ask
//! for requests alike. Each run finds what the one before may have left (`MayFind`): an image that a crash leaves at its end,
//! or, where the disk failed, just before that call or within it. So a stop between two calls of the disk is the end of the
//! run whose next call of it fails. [`laws_of_all_lives`] says what then holds of all runs; there is no other code.
//!
//! It stands on `run_deeds` for runs and on `time_machine` for histories and their laws. The layer above, `w32tm_cmd`, says
//! the same of the calls of the program, `laws_of_all_runs`, and may rely on each law here for the runs of any command.
//!
//! The definitions, in the order to read them: `specs/Runs.antt` (runs, what each finds, and all of them together) and
//! `specs/Laws.antt` (no timestamp twice, no request twice, replies to earlier runs, joined histories).
#![tactic(auto)]

mod laws;

pub use laws::laws_of_all_lives;
