//! A capture judged again: which lines a member writes over the events of a capture.
//!
//! [`replay`] steps a new member through the records of a capture and writes the report line of each event, and the
//! total line where the capture ends between two records. It names the place of the first record that is outside the
//! grammar or that may not follow those before it. No memory is taken, however long the capture is.
//!
//! It stands on `capture_fmt`, which reads the records, on `sntp_core`, which is the member, and on the traits `Source`
//! and `Sink` of `edge_traits`. The layer above may rely on `Replays` in `specs/Replay.antt`, which says of each answer
//! what was read and written, whatever source and sink tell, and on `ReplaysTo` in `specs/Judged.antt`: where the source
//! tells its bytes they decide the answer, unless a read or a write fails. A capture that spells a history which grows
//! is done where no device fails, and then the report of that history was written. [`laws_of_replays`] says that bytes
//! decide one answer at most, and which bytes decide for Done.
//!
//! `specs/Totals.antt` has what is counted, and `specs/Running.antt` belongs to the private part. What source and sink
//! tell is in `edge_seen`.
#![tactic(auto)]

mod end;
mod laws;
mod run;
#[cfg(test)]
mod tests;

pub use end::{ReplayEnd, ReplayWhy};
pub use laws::laws_of_replays;
pub use run::replay;
pub use sntp_core::{Conf, Partners};
