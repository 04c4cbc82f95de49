//! What the devices of a run do.
use edge_io::Addr;

/// 1 January 2020, in ticks.
pub const NEW_YEAR: i64 = 132_223_104_000_000_000;

/// A millisecond after it.
pub const LATER: i64 = NEW_YEAR + 10_000;

/// What comes over the link: a datagram and its sender, or nothing.
#[derive(Clone, Copy)]
pub enum Came<'a> {
    From(Addr, &'a [u8]),
    Nothing,
}

/// A device.
#[derive(Clone, Copy, Debug, PartialEq, Eq)]
pub enum Device {
    Config,
    Input,
    Link,
    Clock,
    Disk,
    Entropy,
    Out,
    Capture,
    Wire,
}

/// What the devices do: the settings text, the sizes of its pieces and of the input's, what comes over the link, what the
/// clock and the entropy give, what the disk holds, the bytes of each session of the wire, which come in pieces of the
/// first of those sizes, which calls of which devices fail, counted from 1 for each device, and the room of the output and
/// of the capture.
#[derive(Clone, Copy)]
pub struct Script<'a> {
    pub settings: &'a [u8],
    pub pieces: &'a [usize],
    pub came: &'a [Came<'a>],
    pub readings: &'a [i64],
    pub random: &'a [u32],
    pub image: [u8; 256],
    pub sessions: &'a [&'a [u8]],
    pub failing: &'a [(Device, u64)],
    pub room: usize,
}

/// Devices of which no call fails, without settings, datagrams, random words and sessions.
pub const STEADY: Script<'static> = Script {
    settings: b"",
    pieces: &[30],
    came: &[],
    readings: &[NEW_YEAR, LATER],
    random: &[],
    image: [0; 256],
    sessions: &[],
    failing: &[],
    room: 1000,
};
