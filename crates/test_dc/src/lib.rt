//! Runs of `/dc` over devices in memory. Tests alone: nothing here is shipped.
//!
//! `runs.rt` has a controller's run with its lines and its reply, the same where one call of one device fails, and each
//! length, version and mode of a datagram.
//!
//! It stands on `w32tm_cmd`, and on `test_scripts`, which makes the devices. The reply's checksum is OpenSSL's; beside it
//! stands the command that computed it.
#![tactic(auto)]

#[cfg(test)]
mod runs;
