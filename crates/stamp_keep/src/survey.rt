//! What an image shows of its slots.
ghost use Rattle.std.specs.Prelude.{◌≡◌, ◌<◌, ◌≤◌, true, false};
ghost use Rattle.stamp_keep.specs.Slots.{BeginsLowest, IsNewest, IsTarget, NoneOpen, Remembers};
ghost use Rattle.stamp_keep.specs.Survey.{Arranged, Beats, Shows};

use crate::keeper::Keeper;
use crate::slot::{MARK_AT, OPEN, Slot};
use byteorder::{BigEndian, ByteOrder};

/// What a slot holds.
#[derive(Clone, Copy, Debug)]
pub struct Held {
    pub slot: Slot,
    pub is_open: bool,
    pub mark: u32,
}

impl Held {
    /// What the image holds in this slot.
    #[tactic(auto, unfolding(crate::specs::Image::mark_at))]
    fn read(image: &[u8; 256], slot: Slot) -> Held
        ensures shows { Shows image.now result }
        ensures slot { result.slot ≡ slot }
    {
        let at = slot.at();
        Held {
            slot,
            is_open: image[at] == OPEN,
            mark: BigEndian::read_u32(&image[at + MARK_AT..]),
        }
    }

    /// Whether it is open and has at least the mark of the other, if that is open.
    fn beats(self, other: Held) -> bool
        ensures yes { result ≡ true → Beats self other }
        ensures not { result ≡ false → self.is_open ≡ true → (other.is_open ≡ true) × (self.mark < other.mark) }
    {
        self.is_open && (!other.is_open || other.mark <= self.mark)
    }
}

/// The newest slot, and of the other two the target: a closed one, or else the one with the lesser mark.
fn arrange(newest: Held, lower: Held, higher: Held) -> Keeper
    ensures { Arranged newest lower higher result }
{
    let (target, third) = if !lower.is_open {
        (lower, higher)
    } else if !higher.is_open || higher.mark <= lower.mark {
        (higher, lower)
    } else {
        (lower, higher)
    };
    Keeper::of_slots(newest, target, third)
}

/// The keeper of an image whose target may still be open.
pub fn survey(image: &[u8; 256]) -> Keeper
    ensures remembers { Remembers result image.now }
    ensures newest { result.newest_open ≡ true → IsNewest image.now result.newest }
    ensures none { result.newest_open ≡ false → NoneOpen image.now × BeginsLowest result }
    ensures target { IsTarget image.now result.target }
{
    let lowest = Held::read(image, Slot::Lowest);
    let middle = Held::read(image, Slot::Middle);
    let highest = Held::read(image, Slot::Highest);
    if lowest.beats(middle) && lowest.beats(highest) {
        arrange(lowest, middle, highest)
    } else if middle.beats(highest) {
        arrange(middle, lowest, highest)
    } else {
        arrange(highest, lowest, middle)
    }
}
