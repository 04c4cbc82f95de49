//! Sessions of remote calls, as tables. Tests alone: nothing here is shipped.
//!
//! - `sessions.rt`: what the server's side answers, in any pieces and with failing reads and writes; `edges.rt` in it has
//!   numbers of several bytes, the lengths of names, and the last PDU of a session.
//! - `caller.rt`: what a client writes and what it makes of replies, and the bits of a computer; `sources.rt` in it has the
//!   replies to the call for the source.
//! - `vectors.rt`: sessions with impacket, a library of other authors.
//!
//! It stands on `w32t_calls`. No expected value comes from it: beside the bytes stands what computed them.
#![tactic(auto)]

#[cfg(test)]
mod caller;
#[cfg(test)]
mod sessions;
#[cfg(test)]
mod vectors;
