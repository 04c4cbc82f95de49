//! A run of the top call over a disk that stops at one of its calls.
use crate::Script;
use crate::running::{devices_of, words_of};
use edge_io::{
    ScriptClock, ScriptEntropy, ScriptLink, ScriptSink, ScriptSource, ScriptWire, Tried,
};
use slot_disk::FuseDisk;
use std::alloc::Global;
use std::test::Fail;
use w32tm_cmd::{Outside, Status, w32tm};

/// The devices of a run whose disk stops.
pub type StoppedDevices = Outside<
    ScriptSource,
    ScriptSink,
    ScriptLink,
    ScriptClock,
    FuseDisk,
    ScriptEntropy,
    ScriptWire,
>;

/// How a run ended whose disk stopped: its status and its devices.
#[derive(Drop)]
pub struct Stopped {
    pub status: Status,
    pub devices: StoppedDevices,
}

impl Stopped {
    ghost use Rattle.std.specs.Prelude.{◌≡◌};
    ghost use Rattle.edge_io.specs.LinkScript.{sends_of};
    ghost use Rattle.slot_disk.specs.Fuse.{fuse_tells};

    /// The sends that were tried.
    pub fn sends(&self) -> &[Tried]
        ensures { result.now ≡ sends_of self.now.devices.link.told }
    {
        self.devices.link.sends()
    }

    /// The capture that was recorded.
    pub fn capture(&self) -> &[u8]
        ensures { result.now ≡ self.now.devices.capture_out.written }
    {
        self.devices.capture_out.bytes()
    }

    /// One of the images that a crash may leave now, chosen by `n`.
    pub fn pick(&self, n: u32) -> [u8; 256]
        ensures { (fuse_tells self.now.devices.disk).may_leave result }
    {
        self.devices.disk.disk().pick(n)
    }
}

/// Carries out the words over the devices of the script, whose disk passes so many calls and fails every later one.
pub fn run_stopped(
    alloc: Global,
    texts: &[&str],
    script: &Script,
    passes: u64,
) -> Result<Stopped, Fail> {
    let words = words_of(alloc, texts)?;
    let mut devices = stopping(alloc, script, passes)?;
    let status = w32tm(alloc, &words, &mut devices);
    Ok(Stopped { status, devices })
}

/// The devices of the script, with such a disk.
fn stopping(alloc: Global, script: &Script, passes: u64) -> Result<StoppedDevices, Fail> {
    let devices = devices_of(alloc, b"", script)?;
    match FuseDisk::new(alloc, devices.disk, passes) {
        Ok(disk) => Ok(Outside {
            config: devices.config,
            capture_in: devices.capture_in,
            out: devices.out,
            capture_out: devices.capture_out,
            link: devices.link,
            clock: devices.clock,
            disk,
            entropy: devices.entropy,
            wire: devices.wire,
        }),
        Err(_) => Err(Fail::from("no memory")),
    }
}
