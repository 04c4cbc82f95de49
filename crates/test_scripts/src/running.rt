//! A run of the top call.
use crate::objects::{clock_of, disk_of, entropy_of, link_of, sink_of, source_of, wire_of};
use crate::{Device, Script};
use edge_io::{
    Clock, Drawn, Entropy, Filled, Link, Move, Reading, Receipt, ScriptClock, ScriptEntropy,
    ScriptLink, ScriptSink, ScriptSource, ScriptWire, Tried, fill_front,
};
use slot_disk::MemoryDisk;
use std::alloc::{AllocError, Global};
use std::test::Fail;
use w32tm_cmd::{Outside, Status, w32tm};

/// The devices of a run.
pub type Devices = Outside<
    ScriptSource,
    ScriptSink,
    ScriptLink,
    ScriptClock,
    MemoryDisk,
    ScriptEntropy,
    ScriptWire,
>;

/// How a run ended: its status and its devices, and what these gave when they were asked once more behind it: how many
/// bytes of the settings and of the input were left, a reading, a word, and the length of a datagram.
#[derive(Drop)]
pub struct Ran {
    pub status: Status,
    pub devices: Devices,
    pub config_left: usize,
    pub left: usize,
    pub next: Reading,
    pub drawn: Drawn,
    pub waits: Option<usize>,
}

impl Ran {
    ghost use Rattle.std.specs.Prelude.{◌≡◌, ◌<◌, IsSomeAnd, Some, length, slice_index_or};
    ghost use Rattle.edge_io.specs.ClockScript.{moves_of};
    ghost use Rattle.edge_io.specs.LinkScript.{sends_of};
    ghost use Rattle.edge_io.specs.SessionScript.{SessionScript};
    ghost use Rattle.edge_io.specs.WireScript.{opened_of};
    ghost use Rattle.edge_traits.specs.Wire.{written_to};
    ghost use Rattle.slot_disk.specs.Memory.{memory_tells};

    /// The bytes written.
    pub fn written(&self) -> &[u8]
        ensures { result.now ≡ self.now.devices.out.written }
    {
        self.devices.out.bytes()
    }

    /// The capture that was recorded.
    pub fn capture(&self) -> &[u8]
        ensures { result.now ≡ self.now.devices.capture_out.written }
    {
        self.devices.capture_out.bytes()
    }

    /// The corrections of the clock.
    pub fn moves(&self) -> &[Move]
        ensures { result.now ≡ moves_of self.now.devices.clock.told }
    {
        self.devices.clock.moves()
    }

    /// The sends that were tried.
    pub fn sends(&self) -> &[Tried]
        ensures { result.now ≡ sends_of self.now.devices.link.told }
    {
        self.devices.link.sends()
    }

    /// What the disk holds.
    pub fn image(&self) -> &[u8; 256]
        ensures { (memory_tells self.now.devices.disk).content ≡ Some result.now }
    {
        self.devices.disk.content()
    }

    /// What was written to the session of this number, the first of which is 0, where so many were opened.
    pub fn session(&self, number: usize) -> Option<&[u8]>
        ensures { (d : SessionScript) → number < length (opened_of self.now.devices.wire)
            → IsSomeAnd result (λ bytes. bytes.now
            ≡ written_to (slice_index_or (opened_of self.now.devices.wire) number d).told) }
    {
        if number < self.devices.wire.opened() {
            Some(self.devices.wire.written(number))
        } else {
            None
        }
    }
}

/// Carries out the words over the devices of the script and this input.
pub fn run(alloc: Global, texts: &[&str], input: &[u8], script: &Script) -> Result<Ran, Fail> {
    let words = words_of(alloc, texts)?;
    let devices = devices_of(alloc, input, script)?;
    Ok(carry_out(alloc, &words, devices))
}

/// Carries out the words over the devices, and looks at what these did.
fn carry_out(alloc: Global, words: &Vec<String>, mut devices: Devices) -> Ran {
    let status = w32tm(alloc, words, &mut devices);
    Ran {
        status,
        config_left: left_of(&mut devices.config),
        left: left_of(&mut devices.capture_in),
        next: devices.clock.now(),
        drawn: devices.entropy.word(),
        waits: waits_of(&mut devices.link),
        devices,
    }
}

/// The words as a command line has them.
pub(crate) fn words_of(alloc: Global, texts: &[&str]) -> Result<Vec<String>, AllocError> {
    let mut words = Vec::new(alloc);
    for text in texts {
        words.push(String::from_str(alloc, text)?)?;
    }
    Ok(words)
}

/// The devices that do what the script says.
pub(crate) fn devices_of(alloc: Global, input: &[u8], script: &Script) -> Result<Devices, Fail> {
    let (config, capture_in) = sources_of(alloc, input, script)?;
    let (out, capture_out) = sinks_of(alloc, script)?;
    let link = link_of(alloc, script.came, script.failing)?;
    let clock = clock_of(alloc, script.readings, script.failing)?;
    let disk = disk_of(alloc, script.image, script.failing)?;
    let entropy = entropy_of(alloc, script.random, script.failing)?;
    let wire = wire_of(alloc, script.sessions, script.pieces, script.failing)?;
    Ok(Outside {
        config,
        capture_in,
        out,
        capture_out,
        link,
        clock,
        disk,
        entropy,
        wire,
    })
}

/// The source of the settings, and that of the input.
fn sources_of(
    alloc: Global,
    input: &[u8],
    script: &Script,
) -> Result<(ScriptSource, ScriptSource), Fail> {
    let (pieces, failing) = (script.pieces, script.failing);
    let config = source_of(alloc, script.settings, pieces, failing, Device::Config)?;
    let capture_in = source_of(alloc, input, pieces, failing, Device::Input)?;
    Ok((config, capture_in))
}

/// The sink of what is written, and that of the capture.
fn sinks_of(alloc: Global, script: &Script) -> Result<(ScriptSink, ScriptSink), Fail> {
    let out = sink_of(alloc, script.room, script.failing, Device::Out)?;
    let capture_out = sink_of(alloc, script.room, script.failing, Device::Capture)?;
    Ok((out, capture_out))
}

/// How many bytes a source still gives, at most 512.
fn left_of(source: &mut ScriptSource) -> usize {
    let mut rest = [0; 512];
    match fill_front(source, &mut rest) {
        Filled::Bytes(count) => count,
        Filled::Failed => 512,
    }
}

/// The length of the datagram that a link gives next.
fn waits_of(link: &mut ScriptLink) -> Option<usize> {
    match link.recv() {
        Receipt::Got(_, bytes) => Some(bytes.as_slice().len()),
        _ => None,
    }
}
