//! How a record is laid out.

/// The kind of a record that begins a run. A record's first byte is its kind.
pub(crate) const LIFE: u8 = 1;

/// The kind of a turn.
pub(crate) const TICK: u8 = 2;

/// The kind of a request that was asked for.
pub(crate) const RESYNC: u8 = 3;

/// The kind of a datagram that came.
pub(crate) const ARRIVE: u8 = 4;

/// What stands behind the kind where a run begins: the letters `W32T`.
pub(crate) const MAGIC: u32 = 0x5733_3254;

/// Bytes in a record, at most: those of an arrival of 256 bytes.
pub(crate) const RECORD_LEN: usize = 17 + 256;

/// The last moment that a clock may read, in ticks of 100 ns since 1 January 1601.
pub(crate) const LATEST: u64 = 4_000_000_000_000_000_000;

/// The place at and past which no record may begin.
pub(crate) const PLACE_LIMIT: u64 = 1 << 40;
