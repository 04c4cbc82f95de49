//! Runs of `/sign` over devices in memory: requests that are answered and refused, words that spell no command, and calls
//! that fail. Tests alone: nothing here is shipped.
//!
//! It stands on `w32tm_cmd` and on `test_scripts`, which makes the devices.
//! Checksums that are expected are OpenSSL's; beside each stands the command that computed it.
#![tactic(auto)]

#[cfg(test)]
mod asserts;
#[cfg(test)]
mod signing;
