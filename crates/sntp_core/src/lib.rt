//! A member of a domain: it takes what happens, event by event, and answers what each event leads to.
//!
//! [`Member`] keeps its settings, its account's keys made ready, a mark, eight requests at most, a partner, a polling
//! interval and a reading, and forgets the rest. It asks no device and takes no memory. `admits` says whether an event may
//! come next, `step` takes it, and `source` names the partner whose reply was last accepted. [`line_of`] writes the line of
//! an outcome, and [`total_line`] the one with which a report closes.
//!
//! It stands on `time_machine`, which says what a history leads to, on `capture_fmt` for events, on `ms_auth` for messages
//! and checksums, on `phase_rule` for the judgement of an offset, and on `line_text` for lines; the requests that are open
//! are in an `arrayvec`. The layer above may rely on this: where a member stands for a history
//! (`StandsForHistory` in `specs/Standing.antt`; a new one stands for the empty history), `admits` is true exactly
//! where the history followed by the event grows, `step` answers what the event leads to in that history, and the
//! member then stands for the longer one. A refused arrival leaves the member as it was, whatever happened before.
//!
//! The files: `member.rt` (what is kept, and which part takes an event), `sending.rt` (a Life, a Tick, a Resync),
//! `arriving.rt` (an Arrive), `open.rt` (the requests that can be answered), `keys.rt` (the account's keys), and `report.rt`
//! (the lines). All of `specs/` but `Standing.antt` belongs to the private part.
#![tactic(auto)]

mod arriving;
mod keys;
mod laws;
mod member;
mod open;
mod report;
mod sending;
#[cfg(test)]
mod tests;

pub use laws::laws_of_members;
pub use line_text::LineText;
pub use member::Member;
pub use report::{line_of, total_line};
pub use time_machine::{Conf, How, Outcome, Partners, Reason};
