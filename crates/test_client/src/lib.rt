//! Calls to a remote computer, over sessions in memory. Tests alone: nothing here is shipped.
//!
//! `bytes.rt` has what a client writes and what it is sent; `calls.rt` makes each call over each reply, and lets each call on
//! the wire fail.
//!
//! It stands on `client_run`, and on the wire in memory of `edge_io`. No expected value comes from these crates: beside the
//! bytes stands the command that computed them.
#![tactic(auto)]

#[cfg(test)]
mod asserts;
#[cfg(test)]
mod bytes;
#[cfg(test)]
mod calls;
