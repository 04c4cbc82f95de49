//! Runs of a member over its devices in memory. Tests alone: nothing here is shipped.
//!
//! `lives.rt` has a whole run of a member with its lines, its capture, its sends and its one correction, and the same where
//! one call of one device fails. `calls.rt` has calls of a run that is already going, and a step with the Tick after it.
//! `rounds.rt` has calls that ask for a request, each with what its round receives and answers. `hostile.rt` has replies of
//! which a bit was flipped on their way.
//!
//! It stands on `member_run`, and on the objects in memory of `edge_io` and `slot_disk`. What is expected was worked out from
//! the rules of the runs, the report and the capture; beside the member's replies stands the command that computed their
//! checksums.
#![tactic(auto)]

#[cfg(test)]
mod asserts;
#[cfg(test)]
mod calls;
#[cfg(test)]
mod hostile;
#[cfg(test)]
mod lives;
#[cfg(test)]
mod rounds;
