//! In which order each command calls its devices, seen over all devices together. Tests alone: nothing here is shipped.
//!
//! The devices number their calls together, so that a run is one word, a letter a call. Each word was put together by hand
//! from the rules of the command. `expected.rt` compares a run with its word; and makes each call of it fail in its turn:
//! a failing call is the last one, but for a send or a receive, and in a service for a read or a write of a session. `member.rt` has a run of a member with a step, a slew, a
//! refused reply, a change of partner and a second block of counts; `asking.rt` has `/resync` and `/query`, `serving.rt` `/service`,
//! `others.rt` the other commands, and `refused.rt` runs that end otherwise than as Done.
//!
//! It stands on `test_scripts` for the devices and the top call.
#![tactic(auto)]

#[cfg(test)]
mod asking;
#[cfg(test)]
mod expected;
#[cfg(test)]
mod member;
#[cfg(test)]
mod others;
#[cfg(test)]
mod refused;
#[cfg(test)]
mod serving;
