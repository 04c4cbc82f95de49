//! The definitions that the contracts of all crates above cite. There is no code here.
//!
//! - `specs/Counts.antt`: what calls that fail do to a count of faults.
//! - `specs/Told.antt`: what an object tells of what it gave and took, and how that changes.
//! - `specs/Time.antt`: readings of a clock, and the timestamps of the wire.
//!
//! What speaks of a struct or an enum stands in the crate of that type. `proofs/` has the lemmas that
//! carry these facts over several calls.
#![tactic(auto)]
