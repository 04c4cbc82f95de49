//! What a disk in memory is at one moment.
ghost use Rattle.std.specs.Prelude.{◌≡◌, false, length, replicate};

/// The bytes as they read, and which of them were written since the last sync.
#[derive(Clone, Copy)]
pub struct Moment {
    pub bytes: [u8; 256],
    pub touched: [bool; 256],
    ghost size: { length bytes ≡ 256 },
}

impl Moment {
    /// A moment after a sync.
    pub fn synced(bytes: [u8; 256]) -> Moment
        ensures bytes { result.bytes ≡ bytes }
        ensures free { result.touched ≡ replicate 256 false }
    {
        Moment {
            bytes,
            touched: [false; 256],
        }
    }
}
