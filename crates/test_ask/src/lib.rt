//! Runs of `/resync` and `/query` over devices in memory. Tests alone: nothing here is shipped.
//!
//! `answers.rt` has sessions that are answered, refused, or break off, and what is printed and written for each; `faults.rt`
//! runs where one call of one device fails, and runs without a session. `messages.rt` has the bytes of the messages.
//!
//! It stands on `w32tm_cmd`, and on `test_scripts`, which makes the devices.
#![tactic(auto)]

#[cfg(test)]
mod answers;
#[cfg(test)]
mod asserts;
#[cfg(test)]
mod faults;
#[cfg(test)]
mod messages;
