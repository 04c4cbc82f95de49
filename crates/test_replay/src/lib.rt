//! Runs of `/replay` over devices in memory. Tests alone: nothing here is shipped.
//!
//! `runs.rt` has captures of two lives and of twenty turns with their reports, a capture that is cut at each place, runs
//! where one call of one device fails, and a capture that is longer than what a reader holds. `cuts.rt` cuts the capture of
//! twenty turns at each byte.
//!
//! It stands on `w32tm_cmd`, and on `test_scripts`, which makes the devices and has the capture of twenty turns.
//! Checksums in captures are OpenSSL's; beside each stands the command that computed it.
#![tactic(auto)]

#[cfg(test)]
mod asserts;
#[cfg(test)]
mod cuts;
#[cfg(test)]
mod runs;
