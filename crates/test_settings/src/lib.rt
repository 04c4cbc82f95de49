//! Settings that are refused, by each command that reads some, over devices in memory. Tests alone: nothing here is
//! shipped.
//!
//! `refusals.rt` has bad settings with their lines, settings that can't be read, and settings that name no partner. No
//! other device is touched.
//!
//! It stands on `w32tm_cmd`, and on `test_scripts`, which makes the devices.
#![tactic(auto)]

#[cfg(test)]
mod refusals;
