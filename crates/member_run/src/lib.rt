//! A run of a member over its devices.
//!
//! [`live`] is a whole run: it loads the keeper, takes the Life, and turn by turn a Tick and what was received, until
//! all turns are taken or a device fails. [`Running`] is a run between two calls: `start` is its first part, `turn` one
//! turn, and `resync` a request that was asked for, with its round of receipts. No call takes memory.
//!
//! It stands on `sntp_core` for the member, on `stamp_keep` and `slot_disk` for the counts that are reserved before
//! they are sent, on `capture_fmt` for records, on `line_text` for lines and on `edge_traits` and `edge_seen` for
//! devices. The layer above may rely on `Lives` of `run_deeds`, which says of a whole run what each device gave and
//! took, why it ended, and what its disk stands for, and on `Runs`, the same for each part of one. `specs/Running.antt`
//! says what a run keeps between its calls, and `specs/Starting.antt` how it begins.
//!
//! The files, in the order of a run: `life.rt` (the whole), `running.rt` (its start and a turn), `reserving.rt` (counts),
//! `devices.rt` (the devices, borrowed as one struct; readings, words, records and lines), `taking.rt` (an event),
//! `closing.rt` (the last lines), and `rounds.rt` (`resync`). All but `devices.rt` and `closing.rt` have an `impl Running`.
//! The other definitions in `specs/` belong to the private part. Its tests are runs, in `test_lives`.
#![tactic(auto)]

mod closing;
mod devices;
mod life;
mod reserving;
mod rounds;
mod running;
mod taking;

pub use life::live;
pub use run_deeds::{LifeEnd, Why};
pub use running::Running;
