use crate::{KeepFault, Keeper};
use slot_disk::{Disk, FileDisk, FuseDisk, MemoryDisk, Put};
use std::alloc::Global;
use std::fs;
use std::test::Fail;

const FOLDER: &str = "stamp_keep_test";

const PATH: &str = "stamp_keep_test/keeper";

/// A slot's gate, version and mark.
type Slot = (u8, u8, u32);

/// A slot that is open.
const fn open(mark: u32) -> Slot {
    (0xA5, 1, mark)
}

/// An image of these slots, and all else of one byte.
fn image_of(slots: [Slot; 3], rest: u8) -> [u8; 256] {
    let mut image = [rest; 256];
    for (place, (gate, version, mark)) in slots.iter().enumerate() {
        let at = place * 64;
        image[at] = *gate;
        image[at + 1] = *version;
        image[at + 4..at + 8].copy_from_slice(&mark.to_be_bytes());
    }
    image
}

/// The same image with these gates, and with version 1, two zeros and a mark behind a gate that is opened.
fn turned(mut image: [u8; 256], gates: [u8; 3], mark: u32) -> [u8; 256] {
    for (place, gate) in gates.iter().enumerate() {
        let at = place * 64;
        if *gate == 0xA5 && image[at] != 0xA5 {
            image[at + 1..at + 4].copy_from_slice(&[1, 0, 0]);
            image[at + 4..at + 8].copy_from_slice(&mark.to_be_bytes());
        }
        image[at] = *gate;
    }
    image
}

fn mark_at(image: &[u8; 256], at: u8) -> u32 {
    let at = at as usize;
    if at < 200 && image[at] == 0xA5 {
        u32::from_be_bytes([image[at + 4], image[at + 5], image[at + 6], image[at + 7]])
    } else {
        0
    }
}

/// The greatest mark of the open slots.
fn greatest_mark(image: &[u8; 256]) -> u32 {
    mark_at(image, 0)
        .max(mark_at(image, 64))
        .max(mark_at(image, 128))
}

fn memory(alloc: Global, content: [u8; 256], fails: &[u64]) -> Result<MemoryDisk, Fail> {
    let fails = fails.to_vec(alloc)?;
    match MemoryDisk::new(alloc, content, fails, 100) {
        Ok(disk) => Ok(disk),
        Err(_) => Err(Fail::from("no memory")),
    }
}

/// Loads and then reserves so often, or until a fault.
fn live<D: Disk>(disk: &mut D, reserves: u32) -> Result<u32, KeepFault> {
    let mut keeper = Keeper::load(disk)?;
    'reserves: for _ in 0..reserves {
        keeper.reserve(disk)?;
    }
    Ok(keeper.mark())
}

/// Whether every image that a crash may leave stands for one of two marks, is loaded with it, and both are left.
fn leaves_both(alloc: Global, disk: &MemoryDisk, marks: [u32; 2]) -> Result<bool, Fail> {
    let (mut least, mut greatest, mut loaded) = (u32::MAX, 0, true);
    for n in 0..64 {
        let image = disk.pick(n);
        let mark = greatest_mark(&image);
        least = least.min(mark);
        greatest = greatest.max(mark);
        loaded &= marks.contains(&mark);
        loaded &= live(&mut memory(alloc, image, &[])?, 0) == Ok(mark);
    }
    Ok(loaded && [least, greatest] == marks)
}

/// Whether a life that is stopped at call `stop`, counted from 1, ends in a fault and leaves these marks.
fn stops(
    alloc: Global,
    content: [u8; 256],
    reserves: u32,
    stop: u64,
    marks: [u32; 2],
) -> Result<bool, Fail> {
    let disk = memory(alloc, content, &[])?;
    match FuseDisk::new(alloc, disk, stop.saturating_sub(1)) {
        Ok(mut fuse) => {
            let answer = live(&mut fuse, reserves);
            let left = leaves_both(alloc, fuse.disk(), marks)?;
            Ok(left && answer == Err(KeepFault::DiskFault))
        }
        Err(_) => Err(Fail::from("no memory")),
    }
}

// Two calls in the load, four in each of the first two reserves, and five in the third.
#[test]
fn keeper_on_a_zero_disk(rt: HostRuntime) -> Result<(), Fail> {
    for (stop, marks) in [
        (1, [0, 0]),
        (2, [0, 0]),
        (3, [0, 0]),
        (4, [0, 0]),
        (5, [0, 64]),
        (6, [0, 64]),
        (7, [64, 64]),
        (8, [64, 64]),
        (9, [64, 128]),
        (10, [64, 128]),
        (11, [128, 128]),
        (12, [128, 128]),
        (13, [128, 192]),
        (14, [128, 192]),
        (15, [128, 192]),
    ] {
        assert!(rt;
            stops(rt.alloc(), [0; 256], 3, stop, marks)?,
            "stopped at {stop}"
        );
    }
    let mut disk = memory(rt.alloc(), [0; 256], &[])?;
    assert_eq!(rt; live(&mut disk, 0), Ok(0));
    assert_eq!(rt; live(&mut disk, 1), Ok(64));
    assert_eq!(rt;
        &disk.content()[..8],
        [0xA5, 1, 0, 0, 0, 0, 0, 0x40].as_slice()
    );
    let mut disk = memory(rt.alloc(), [0; 256], &[])?;
    assert_eq!(rt; live(&mut disk, 3), Ok(192));
    let slots = [(0, 1, 64), open(128), open(192)];
    assert_eq!(rt; disk.content(), &image_of(slots, 0));
    assert!(rt; leaves_both(rt.alloc(), &disk, [192, 192])?);
    Ok(())
}

// A gate was opened and not synced. Stopped at its second call, the load has left one mark.
#[test]
fn load_begins_with_a_sync(rt: HostRuntime) -> Result<(), Fail> {
    let content = image_of([(0, 1, 64), (0, 1, 0), (0, 1, 0)], 0);
    let mut disk = memory(rt.alloc(), content, &[])?;
    assert_eq!(rt; disk.write_at(0, &[0xA5]), Put::Done);
    assert!(rt; leaves_both(rt.alloc(), &disk, [0, 64])?);
    let Ok(mut fuse) = FuseDisk::new(rt.alloc(), disk, 1) else {
        return Err(Fail::from("no memory"));
    };
    assert_eq!(rt; live(&mut fuse, 0), Err(KeepFault::DiskFault));
    assert!(rt; leaves_both(rt.alloc(), fuse.disk(), [64, 64])?);
    Ok(())
}

// Three reserves in a new file, and what a second life reads there.
#[test]
fn marks_in_a_file(rt: HostRuntime) -> Result<(), Fail> {
    let _ = fs::remove_dir_all(&rt, FOLDER);
    fs::create_dir(&rt, FOLDER)?;
    for reserves in [3, 0] {
        let Ok(mut disk) = FileDisk::open(&rt, PATH) else {
            return Err(Fail::from("no disk"));
        };
        assert_eq!(rt; live(&mut disk, reserves), Ok(192), "{reserves}");
    }
    let slots = [(0, 1, 64), open(128), open(192)];
    assert_eq!(rt;
        fs::read(&rt, PATH)?.as_slice(),
        image_of(slots, 0).as_slice()
    );
    fs::remove_dir_all(&rt, FOLDER)?;
    Ok(())
}

// Four calls in the load, which closes the slot with the least mark, and five in the reserve.
#[test]
fn load_of_three_open_slots(rt: HostRuntime) -> Result<(), Fail> {
    let content = image_of([open(64), open(128), open(192)], 0x5A);
    for stop in 1..10 {
        let marks = if stop < 7 { [192, 192] } else { [192, 256] };
        assert!(rt;
            stops(rt.alloc(), content, 1, stop, marks)?,
            "stopped at {stop}"
        );
    }
    Ok(())
}

#[test]
fn keeper_at_its_last_mark(rt: HostRuntime) -> Result<(), Fail> {
    for (slot, answer) in [
        (open(4_294_967_231), Ok(4_294_967_295)),
        (open(4_294_967_232), Err(KeepFault::StampsSpent)),
        ((0xA5, 9, 4_294_967_295), Err(KeepFault::BadVersion)),
    ] {
        let content = image_of([slot, open(64), (0, 1, 4_294_967_295)], 0x5A);
        let mut disk = memory(rt.alloc(), content, &[])?;
        assert_eq!(rt; live(&mut disk, 1), answer, "{slot:?}");
    }
    Ok(())
}

// The gates after the load, and after a reserve. All other bytes stay, but for the slot that is opened.
#[test]
fn slots_by_gate_mark_and_version(rt: HostRuntime) -> Result<(), Fail> {
    for (slots, answer, loaded, reserved) in [
        // Closed slots of any bytes.
        (
            [open(64), (0x5A, 1, 200), (0, 0, 0)],
            Ok(64),
            [0xA5, 0x5A, 0],
            [0xA5, 0xA5, 0],
        ),
        (
            [(0, 9, 255), open(64), (0xA4, 9, 255)],
            Ok(64),
            [0, 0xA5, 0xA4],
            [0xA5, 0xA5, 0xA4],
        ),
        (
            [(0xA6, 1, 7), (0x25, 1, 8), (0, 1, 9)],
            Ok(0),
            [0xA6, 0x25, 0],
            [0xA5, 0x25, 0],
        ),
        // Three open slots.
        (
            [open(64), open(128), open(192)],
            Ok(192),
            [0, 0xA5, 0xA5],
            [0xA5, 0, 0xA5],
        ),
        (
            [open(192), open(64), open(64)],
            Ok(192),
            [0xA5, 0xA5, 0],
            [0xA5, 0, 0xA5],
        ),
        (
            [open(64), open(64), open(64)],
            Ok(64),
            [0xA5, 0xA5, 0],
            [0xA5, 0, 0xA5],
        ),
        // Another version counts in the newest slot alone, the lowest of equals.
        (
            [open(64), (0xA5, 9, 64), (0, 1, 0)],
            Ok(64),
            [0xA5, 0xA5, 0],
            [0xA5, 0, 0xA5],
        ),
        (
            [(0xA5, 9, 64), open(64), (0, 1, 0)],
            Err(KeepFault::BadVersion),
            [0xA5, 0xA5, 0],
            [0xA5, 0xA5, 0],
        ),
        (
            [open(64), open(10), (0xA5, 0, 65)],
            Err(KeepFault::BadVersion),
            [0xA5; 3],
            [0xA5; 3],
        ),
    ] {
        let content = image_of(slots, 0x5A);
        let mut disk = memory(rt.alloc(), content, &[])?;
        assert_eq!(rt; live(&mut disk, 0), answer, "{slots:?}");
        let content = turned(content, loaded, 0);
        assert_eq!(rt; disk.content(), &content, "{slots:?}");
        let answer = answer.map(|mark| mark.saturating_add(64));
        assert_eq!(rt; live(&mut disk, 1), answer, "{slots:?}");
        let content = turned(content, reserved, answer.unwrap_or(0));
        assert_eq!(rt; disk.content(), &content, "{slots:?}");
    }
    Ok(())
}

// A call of a life on a zero disk fails, and a second life begins with what then stands there.
#[test]
fn goes_on_after_a_fault(rt: HostRuntime) -> Result<(), Fail> {
    for (fails, mark) in [
        (1, 64),
        (4, 64),
        (5, 64),
        (6, 128),
        (9, 128),
        (10, 192),
        (13, 192),
        (14, 256),
        (15, 256),
    ] {
        let mut disk = memory(rt.alloc(), [0; 256], &[fails])?;
        assert_eq!(rt; live(&mut disk, 3), Err(KeepFault::DiskFault), "at {fails}");
        assert_eq!(rt; live(&mut disk, 1), Ok(mark), "at {fails}");
    }
    Ok(())
}
