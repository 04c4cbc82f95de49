//! Each command of the program once, over devices in memory. Tests alone: nothing here is shipped.
//!
//! `commands.rt` has a row for each command, with its input and all that it writes. Longer runs, and runs in which a call of a
//! device fails, are in the crates `test_sign`, `test_dc`, `test_monitor` and their kin.
//!
//! It stands on `w32tm_cmd`, and on `test_scripts`, which makes the devices.
#![tactic(auto)]

#[cfg(test)]
mod commands;
