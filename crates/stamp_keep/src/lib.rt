//! Counts are reserved 64 at a time, on a disk that may stop at any moment.
//!
//! A [`Keeper`] is what one life knows of its disk: the mark up to which counts are reserved, and which of three
//! slots is written next. A reserve writes the new mark behind a closed gate, syncs, opens that gate and closes
//! the oldest, so that each image that a crash may leave stands for the old mark or the new one, and can be loaded.
//! A slot that is known to be closed is never written at its gate but to open it, so a torn closing can't open a
//! slot of unknown bytes.
//!
//! It stands on `slot_disk` for the disk and its images (`LeavesOnly`), on `base_specs` for counts, and on
//! `byteorder` for the mark's bytes. The layer above may rely on `kept_mark` and `mark_of_image`, on `Fits`, on the
//! least mark of every image (`KeepsMarks`) and on the causes of each answer (`KeepCounts`, and `HasOtherVersion`
//! of `specs/Slots.antt`, as one word), in `specs/Keep.antt` and `specs/Image.antt`. It has no word of slots: these
//! are `specs/Slots.antt`, and the steps of a load and a reserve are `specs/Survey.antt` and `specs/Steps.antt`.
//! `specs/Written.antt` says which bytes a load and a reserve write, and how many calls they make.
#![tactic(auto)]

mod keeper;
mod slot;
mod steps;
mod survey;
#[cfg(test)]
mod tests;

pub use keeper::{KeepFault, Keeper};
