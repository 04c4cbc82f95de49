//! Values from outside, and rows that go through several crates. Tests alone: nothing here is shipped.
//!
//! - `digests.rt`: the published cases of HMAC-SHA512 (RFC 4231), and what OpenSSL gives for keys of about a block, for
//!   derived keys and for both digests.
//! - `messages.rt`: requests of a member that a controller answers, with the checksums that OpenSSL gives.
//! - `monitors.rt`: the clocks of a directory's computers, over devices whose calls fail or don't.
//! - `pdus.rt`: PDUs of remote calls, read from a session in any pieces.
//! - `runs.rt`: a controller that serves a link, whose calls and whose clock's calls fail or don't.
//!
//! It stands on `mac_kdf`, `ms_auth`, `key_book`, `dc_sign`, `rpc_pdu`, `partner_pick` and `monitor_run`, and on the
//! objects in memory of `edge_io`. No expected value comes from these crates: beside each stands where it is published,
//! or the command that computed it.
#![tactic(auto)]

#[cfg(test)]
mod asserts;
#[cfg(test)]
mod digests;
#[cfg(test)]
mod hex;
#[cfg(test)]
mod messages;
#[cfg(test)]
mod monitors;
#[cfg(test)]
mod pdus;
#[cfg(test)]
mod runs;
