//! Devices in memory that do what a script says.
ghost use Rattle.std.specs.Prelude.{◌<◌, All, IfOk, length};
ghost use Rattle.base_specs.specs.Time.{IsReading};
ghost use Rattle.edge_io.specs.LinkScript.{IsNoFailure};

use crate::{Came, Device};
use edge_io::{
    Datagram, Receipt, ScriptClock, ScriptEntropy, ScriptLink, ScriptSink, ScriptSource, ScriptWire,
};
use slot_disk::MemoryDisk;
use std::alloc::{AllocError, Global};
use std::test::Fail;

/// How many sends and how many receipts a link keeps.
const LINK_ROOM: usize = 300;

/// How many moves a clock keeps.
const MOVE_ROOM: usize = 30;

/// How many calls of a disk pass.
const DISK_ROOM: usize = 100;

/// How many answers a wire tells, and how many bytes can be written to each of its sessions.
const WIRE_ROOM: usize = 300;

/// The sizes among these that aren't 0.
fn sizes_of(alloc: Global, numbers: &[usize]) -> Result<Vec<usize>, AllocError>
    ensures { IfOk result (λ sizes. All (λ size. 0 < size) sizes.items) }
{
    numbers
        .iter()
        .copied()
        .filter(|size| *size > 0)
        .collect(alloc)
}

/// The numbers among these that are readings.
fn readings_of(alloc: Global, numbers: &[i64]) -> Result<Vec<i64>, AllocError>
    ensures { IfOk result (λ readings. All IsReading readings.items) }
{
    numbers
        .iter()
        .copied()
        .filter(|number| *number >= 0 && *number <= 4_000_000_000_000_000_000)
        .collect(alloc)
}

/// The receipt of what comes.
fn receipt_of(came: Came) -> Receipt
    ensures { IsNoFailure result }
{
    match came {
        Came::From(from, bytes) => Receipt::Got(from, Datagram::from_slice(bytes)),
        Came::Nothing => Receipt::Quiet,
    }
}

/// The receipts of all that comes.
fn receipts_of(alloc: Global, all: &[Came]) -> Result<Vec<Receipt>, AllocError>
    ensures { IfOk result (λ receipts. All IsNoFailure receipts.items) }
{
    let mut receipts = Vec::new(alloc);
    for came in all {
        receipts.push(receipt_of(*came))?;
    }
    Ok(receipts)
}

/// The calls of this device that fail.
fn calls_of(
    alloc: Global,
    failing: &[(Device, u64)],
    device: Device,
) -> Result<Vec<u64>, AllocError> {
    let mut calls = Vec::new(alloc);
    for (of, call) in failing {
        if *of == device {
            calls.push(*call)?;
        }
    }
    Ok(calls)
}

/// A source of these bytes, of which the calls of this device fail.
pub(crate) fn source_of(
    alloc: Global,
    bytes: &[u8],
    pieces: &[usize],
    failing: &[(Device, u64)],
    device: Device,
) -> Result<ScriptSource, Fail> {
    let bytes = bytes.to_vec(alloc)?;
    let sizes = sizes_of(alloc, pieces)?;
    let fails = calls_of(alloc, failing, device)?;
    let source = ScriptSource::new(alloc, bytes, sizes, fails, 0)?;
    Ok(source)
}

/// A sink with room for so many bytes, of which the calls of this device fail.
pub(crate) fn sink_of(
    alloc: Global,
    room: usize,
    failing: &[(Device, u64)],
    device: Device,
) -> Result<ScriptSink, Fail> {
    let sink = ScriptSink::new(alloc, calls_of(alloc, failing, device)?, room)?;
    Ok(sink)
}

/// A link over which these come, of which some calls fail.
pub(crate) fn link_of(
    alloc: Global,
    came: &[Came],
    failing: &[(Device, u64)],
) -> Result<ScriptLink, Fail> {
    let receipts = receipts_of(alloc, came)?;
    let fails = calls_of(alloc, failing, Device::Link)?;
    let link = ScriptLink::new(alloc, receipts, fails, LINK_ROOM)?;
    Ok(link)
}

/// A clock that gives these readings, of which some calls fail.
pub(crate) fn clock_of(
    alloc: Global,
    readings: &[i64],
    failing: &[(Device, u64)],
) -> Result<ScriptClock, Fail> {
    let readings = readings_of(alloc, readings)?;
    let fails = calls_of(alloc, failing, Device::Clock)?;
    let clock = ScriptClock::new(alloc, readings, fails, MOVE_ROOM)?;
    Ok(clock)
}

/// A disk that holds these bytes, of which some calls fail.
pub(crate) fn disk_of(
    alloc: Global,
    image: [u8; 256],
    failing: &[(Device, u64)],
) -> Result<MemoryDisk, Fail> {
    let fails = calls_of(alloc, failing, Device::Disk)?;
    match MemoryDisk::new(alloc, image, fails, DISK_ROOM) {
        Ok(disk) => Ok(disk),
        Err(_) => Err(Fail::from("no memory")),
    }
}

/// An entropy that draws these words, of which some calls fail.
pub(crate) fn entropy_of(
    alloc: Global,
    words: &[u32],
    failing: &[(Device, u64)],
) -> Result<ScriptEntropy, Fail> {
    let words = words.to_vec(alloc)?;
    let fails = calls_of(alloc, failing, Device::Entropy)?;
    let entropy = ScriptEntropy::new(alloc, words, fails, 0)?;
    Ok(entropy)
}

/// These bytes in pieces of this size at most.
fn pieces_of(alloc: Global, bytes: &[u8], size: usize) -> Result<Vec<Vec<u8>>, AllocError>
    ensures { IfOk result (λ pieces. All (λ piece. 0 < length piece.items) pieces.items) }
{
    let mut pieces = Vec::new(alloc);
    let mut rest = bytes;
    while !rest.is_empty() {
        let (piece, behind) = rest.split_at(size.clamp(1, rest.len()));
        pieces.push(piece.to_vec(alloc)?)?;
        rest = behind;
    }
    Ok(pieces)
}

/// Sessions of these bytes, each in pieces of this size at most.
fn sessions_of(alloc: Global, all: &[&[u8]], size: usize) -> Result<Vec<Vec<Vec<u8>>>, AllocError>
    ensures { IfOk result (λ sessions.
        All (λ pieces. All (λ piece. 0 < length piece.items) pieces.items) sessions.items) }
{
    let mut sessions = Vec::new(alloc);
    for bytes in all {
        sessions.push(pieces_of(alloc, bytes, size)?)?;
    }
    Ok(sessions)
}

/// A wire of these sessions, of which some calls fail.
pub(crate) fn wire_of(
    alloc: Global,
    sessions: &[&[u8]],
    pieces: &[usize],
    failing: &[(Device, u64)],
) -> Result<ScriptWire, Fail> {
    let size = pieces.first().copied().unwrap_or(1);
    let sessions = sessions_of(alloc, sessions, size)?;
    let fails = calls_of(alloc, failing, Device::Wire)?;
    let wire = ScriptWire::new(alloc, sessions, fails, WIRE_ROOM)?;
    Ok(wire)
}
