//! What all devices of the program tell at a moment, with their counts of failed calls: one record, `Seen`, that the
//! contracts of runs and commands speak of. There is no code here.
//!
//! A call that is handed some of the devices says its clause for whatever the others tell: two moments of it are the
//! same `Seen`, with the fields of its own devices put in. Nobody but this crate and the one that gathers the devices
//! writes all fields out, so that a device more is a field more here and there.
//!
//! It stands on `edge_traits` for what each device tells. What the disk tells of its content stands beside this record
//! and not in it: a clause can't range over that, since it holds predicates (`DiskTold` of `slot_disk`).
#![tactic(auto)]
