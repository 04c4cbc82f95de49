//! Runs of `/service` over devices in memory. Tests alone: nothing here is shipped.
//!
//! `sessions.rt` has whole runs: what each session is answered, what is printed and captured, and how the run ends; `faults.rt`
//! runs where one call of one device fails, and runs that never come to a session; `cuts.rt` a session that is cut at each byte.
//! `bytes.rt` has what clients send and what they are answered.
//!
//! It stands on `w32tm_cmd`, and on `test_scripts`, which makes the devices. What is expected was worked out from the rules of
//! sessions, report and capture; beside the bytes stands the command that made them.
#![tactic(auto)]

#[cfg(test)]
mod asserts;
#[cfg(test)]
mod bytes;
#[cfg(test)]
mod cuts;
#[cfg(test)]
mod faults;
#[cfg(test)]
mod sessions;
