//! In which order a run of the top call calls its devices.
use crate::noted::{Call, Noted};
use crate::running::{devices_of, words_of};
use crate::{Device, Devices, Script};
use edge_io::{ScriptClock, ScriptEntropy, ScriptLink, ScriptSink, ScriptSource, ScriptWire};
use slot_disk::MemoryDisk;
use std::alloc::{AllocError, Global};
use std::cell::Cell;
use std::test::Fail;
use w32tm_cmd::{Outside, Status, w32tm};

/// The devices of a run that note their calls.
type NotedDevices<'a> = Outside<
    Noted<'a, ScriptSource>,
    Noted<'a, ScriptSink>,
    Noted<'a, ScriptLink>,
    Noted<'a, ScriptClock>,
    Noted<'a, MemoryDisk>,
    Noted<'a, ScriptEntropy>,
    Noted<'a, ScriptWire>,
>;

/// How a run ended, and all calls that it made, in their order, a letter each:
///
/// - `g` reads the settings, `i` the input; `o` writes to the output, `c` to the capture;
/// - `s` sends a datagram, `r` receives one;
/// - `t` reads the clock, `m` corrects it; `e` draws a random word;
/// - `d` reads the disk, `w` writes to it, `y` syncs it;
/// - `n` asks the wire for a session, `h` reads of it, `p` writes to it.
#[derive(Drop)]
pub struct Ordered {
    pub status: Status,
    pub letters: Vec<u8>,
}

/// Carries out the words over the devices of the script and this input, and says in which order they were called.
pub fn run_in_order(
    alloc: Global,
    texts: &[&str],
    input: &[u8],
    script: &Script,
) -> Result<Ordered, Fail> {
    let words = words_of(alloc, texts)?;
    let devices = devices_of(alloc, input, script)?;
    let order = Cell::new(0);
    let mut noted = with_notes(alloc, devices, &order);
    let status = w32tm(alloc, &words, &mut noted);
    let letters = letters_of(alloc, &noted, order.get())?;
    Ok(Ordered { status, letters })
}

fn with_notes<'a>(alloc: Global, devices: Devices, order: &'a Cell<u32>) -> NotedDevices<'a> {
    Outside {
        config: Noted::new(alloc, devices.config, order, b'g'),
        capture_in: Noted::new(alloc, devices.capture_in, order, b'i'),
        out: Noted::new(alloc, devices.out, order, b'o'),
        capture_out: Noted::new(alloc, devices.capture_out, order, b'c'),
        link: Noted::new(alloc, devices.link, order, b' '),
        clock: Noted::new(alloc, devices.clock, order, b' '),
        disk: Noted::new(alloc, devices.disk, order, b' '),
        entropy: Noted::new(alloc, devices.entropy, order, b' '),
        wire: Noted::new(alloc, devices.wire, order, b' '),
    }
}

/// The letters of so many calls, each at the place of its number. A call that is missing is a blank.
fn letters_of(alloc: Global, noted: &NotedDevices, count: u32) -> Result<Vec<u8>, AllocError> {
    let mut letters = Vec::new(alloc);
    for _ in 0..count {
        letters.push(b' ')?;
    }
    for calls in [
        &noted.config.calls,
        &noted.capture_in.calls,
        &noted.out.calls,
        &noted.capture_out.calls,
        &noted.link.calls,
        &noted.clock.calls,
        &noted.disk.calls,
        &noted.entropy.calls,
        &noted.wire.calls,
    ] {
        place(&mut letters, calls);
    }
    Ok(letters)
}

fn place(letters: &mut Vec<u8>, calls: &[Call]) {
    for call in calls {
        if let Some(letter) = letters.get_mut(call.number.saturating_sub(1) as usize) {
            *letter = call.letter;
        }
    }
}

/// The device that a letter stands for.
fn device_of(letter: u8) -> Device {
    match letter {
        b'g' => Device::Config,
        b'i' => Device::Input,
        b'o' => Device::Out,
        b'c' => Device::Capture,
        b's' | b'r' => Device::Link,
        b't' | b'm' => Device::Clock,
        b'e' => Device::Entropy,
        b'n' | b'h' | b'p' => Device::Wire,
        _ => Device::Disk,
    }
}

/// Which call of which device this one is, where calls are counted that may fail: of a clock the readings alone. None for
/// a correction, and behind the last call.
pub fn call_at(letters: &[u8], place: usize) -> Option<(Device, u64)> {
    let letter = *letters.get(place)?;
    if letter == b'm' {
        return None;
    }
    let device = device_of(letter);
    let mut count: u64 = 1;
    for before in letters.get(..place)? {
        if *before != b'm' && device_of(*before) == device {
            count = count.saturating_add(1);
        }
    }
    Some((device, count))
}
