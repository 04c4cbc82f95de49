//! Devices in memory, and runs of the top call over them, for the crates whose tests are such runs. Nothing here is
//! shipped.
//!
//! A [`Script`] says what the devices do, and [`run`] carries out words over them and tells how that ended, [`Ran`].
//! [`run_stopped`] does the same over a disk that stops at one of its calls. [`run_in_order`] tells in which order the devices were called, over all of them together. What several commands are
//! shown stands here too: a client's request, `sample.rt`, and a member's run of twenty turns with its capture and report,
//! `twenty_turns.rt`.
//!
//! It stands on the objects in memory of `edge_io` and `slot_disk`, and on `w32tm_cmd`. It promises that its calls return;
//! the tests above compare what a run told.
#![tactic(auto)]

mod noted;
mod objects;
mod ordered;
mod running;
mod sample;
mod scripts;
mod stopped;
mod twenty_turns;

pub use noted::Noted;
pub use ordered::{Ordered, call_at, run_in_order};
pub use running::{Devices, Ran, run};
pub use sample::REQUEST;
pub use scripts::{Came, Device, LATER, NEW_YEAR, STEADY, Script};
pub use stopped::{Stopped, StoppedDevices, run_stopped};
pub use twenty_turns::{INTERVAL, REALISTIC, SETTINGS, THIRD, realistic_capture};
