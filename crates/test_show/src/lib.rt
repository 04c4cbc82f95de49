//! Runs of `/show` over devices in memory: a message's lines, lengths that are none, and writes that fail. Tests alone:
//! nothing here is shipped.
//!
//! It stands on `w32tm_cmd`, and on `test_scripts`, which makes the devices.
#![tactic(auto)]

#[cfg(test)]
mod asserts;
#[cfg(test)]
mod showing;
