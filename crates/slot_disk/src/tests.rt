use crate::{Disk, FileDisk, FuseDisk, MemoryDisk, Put};
use std::alloc::Global;
use std::fmt::Debug;
use std::fs;
use std::process::Abort;
use std::test::Fail;

const FOLDER: &str = "slot_disk_test";

const PATH: &str = "slot_disk_test/keeper";

/// Both values are the same in this case. As a function it is proved once, where `assert_eq!` would be at each place.
fn same<T: PartialEq + Debug, C: Debug>(rt: &impl Abort, got: &T, want: &T, case: &C) {
    assert_eq!(rt; *got, *want, "{case:?}");
}

/// A call of a disk.
#[derive(Clone, Copy, Debug)]
enum Call {
    Read,
    /// A byte at a place.
    Write(u8, u8),
    Sync,
}

fn make<D: Disk>(disk: &mut D, call: Call) -> Put {
    match call {
        Call::Read => disk.read(&mut [0; 256]),
        Call::Write(at, byte) => disk.write_at(at as usize, &[byte]),
        Call::Sync => disk.sync(),
    }
}

/// A disk of zero bytes on which the calls of these numbers fail, with room for six.
fn zero_disk(alloc: Global, fails: &[u64]) -> Result<MemoryDisk, Fail> {
    let fails = fails.to_vec(alloc)?;
    match MemoryDisk::new(alloc, [0; 256], fails, 6) {
        Ok(disk) => Ok(disk),
        Err(_) => Err(Fail::from("no memory")),
    }
}

/// Which of 0, 1 and A5 stand at a place in some image that a crash may leave.
fn seen_at(disk: &MemoryDisk, at: u8) -> [bool; 3] {
    let mut seen = [false; 3];
    for n in 0..64 {
        let byte = disk.pick(n)[at as usize];
        seen[0] |= byte == 0;
        seen[1] |= byte == 1;
        seen[2] |= byte == 0xA5;
    }
    seen
}

/// A call and its answer; then the first two bytes, and what the first may be after a crash.
type Torn = (Call, Put, [u8; 2], [bool; 3]);

// Calls 3 and 5 fail, and the room ends after call 6.
const TORN: &[Torn] = &[
    (Call::Read, Put::Done, [0, 0], [true, false, false]),
    (Call::Write(0, 1), Put::Done, [1, 0], [true, true, true]),
    (Call::Write(1, 1), Put::Failed, [1, 0], [true, true, true]),
    (Call::Sync, Put::Done, [1, 0], [false, true, false]),
    (Call::Sync, Put::Failed, [1, 0], [false, true, false]),
    (Call::Write(1, 9), Put::Done, [1, 9], [false, true, false]),
    (Call::Write(0, 9), Put::Failed, [1, 9], [false, true, false]),
];

fn expect_torn(rt: &impl Abort, row: &Torn, disk: &mut MemoryDisk) {
    let (call, put, content, seen) = *row;
    same(rt, &make(disk, call), &put, &call);
    same(rt, &&disk.content()[..2], &content.as_slice(), &call);
    same(rt, &seen_at(disk, 0), &seen, &call);
}

#[test]
fn tears_what_is_not_synced(rt: HostRuntime) -> Result<(), Fail> {
    let mut disk = zero_disk(rt.alloc(), &[3, 5])?;
    for row in TORN {
        expect_torn(&rt, row, &mut disk);
    }
    Ok(())
}

// The last byte is torn as the first.
#[test]
fn tears_each_byte_of_a_write(rt: HostRuntime) -> Result<(), Fail> {
    let mut disk = zero_disk(rt.alloc(), &[2])?;
    same(&rt, &disk.write_at(0, &[1; 256]), &Put::Done, &());
    same(&rt, &disk.write_at(0, &[9; 256]), &Put::Failed, &());
    same(&rt, disk.content(), &[1; 256], &());
    for at in [0, 1, 127, 128, 254, 255] {
        same(&rt, &seen_at(&disk, at), &[true; 3], &at);
    }
    Ok(())
}

/// A zero disk of which the first call fails, and the fuse blows at the third.
fn fused(alloc: Global) -> Result<FuseDisk, Fail> {
    let disk = zero_disk(alloc, &[1])?;
    match FuseDisk::new(alloc, disk, 2) {
        Ok(fuse) => Ok(fuse),
        Err(_) => Err(Fail::from("no memory")),
    }
}

const FUSED: &[(Call, Put)] = &[
    (Call::Sync, Put::Failed),
    (Call::Write(0, 1), Put::Done),
    (Call::Write(1, 1), Put::Failed),
    (Call::Sync, Put::Failed),
    (Call::Read, Put::Failed),
];

fn expect_blown(rt: &impl Abort, disk: &MemoryDisk) {
    same(rt, &&disk.content()[..3], &[1, 0, 0].as_slice(), &());
    same(rt, &seen_at(disk, 1), &[true, false, true], &());
    same(rt, &seen_at(disk, 2), &[true, false, false], &());
}

#[test]
fn stops_when_the_fuse_has_blown(rt: HostRuntime) -> Result<(), Fail> {
    let mut fuse = fused(rt.alloc())?;
    for (call, put) in FUSED {
        same(&rt, &make(&mut fuse, *call), put, call);
    }
    expect_blown(&rt, fuse.disk());
    Ok(())
}

/// The disk in a file, or one without a file.
fn disk_at(rt: &HostRuntime, path: &str) -> FileDisk {
    match FileDisk::open(rt, path) {
        Ok(disk) => disk,
        Err(_) => FileDisk::without_file(),
    }
}

/// Why a path gives no disk, or nothing where it gives one.
fn reason_at(rt: &HostRuntime, path: &str) -> Result<String, Fail> {
    match FileDisk::open(rt, path) {
        Ok(_) => Ok(String::new(rt.alloc())),
        Err(reason) => Ok(format!(in rt.alloc(); "{reason}")?),
    }
}

/// Writes four pieces, and syncs.
fn write_pieces(disk: &mut FileDisk) -> [Put; 5] {
    [
        disk.write_at(0, &[1, 2, 3]),
        disk.write_at(65, &[4; 7]),
        disk.write_at(128, &[0xA5]),
        disk.write_at(249, &[7; 7]),
        disk.sync(),
    ]
}

/// Writes four pieces by way of a disk, and gives what a later disk reads.
fn written(rt: &HostRuntime) -> ([u8; 256], [Put; 5], Put) {
    let puts = write_pieces(&mut disk_at(rt, PATH));
    let mut image = [9; 256];
    let read = disk_at(rt, PATH).read(&mut image);
    (image, puts, read)
}

/// The byte at a place where those four pieces were written over `first` in five bytes and `rest` in all others.
fn byte_at(at: usize, first: u8, rest: u8) -> u8 {
    match at {
        0 => 1,
        1 => 2,
        2 => 3,
        3..=4 => first,
        65..=71 => 4,
        128 => 0xA5,
        249..=255 => 7,
        _ => rest,
    }
}

fn with_pieces(first: u8, rest: u8) -> [u8; 256] {
    let mut image = [0; 256];
    for at in 0..256 {
        image[at] = byte_at(at, first, rest);
    }
    image
}

// How many bytes there are before; then the bytes 3 and 4, and all others. A missing file is created, and a shorter one
// filled.
const BEFORE: &[(usize, u8, u8)] = &[(0, 0, 0), (5, 3, 0), (256, 3, 3)];

/// A new folder.
fn make_folder(rt: &HostRuntime, folder: &str) -> Result<(), Fail> {
    let _ = fs::remove_dir_all(rt, folder);
    fs::create_dir(rt, folder)?;
    Ok(())
}

/// A file that has this content.
fn expect_file(
    rt: &impl Abort,
    files: &HostRuntime,
    path: &str,
    content: &[u8],
) -> Result<(), Fail> {
    let bytes = fs::read(files, path)?;
    same(rt, &bytes.as_slice(), &content, &path);
    Ok(())
}

fn expect_pieces(
    rt: &impl Abort,
    files: &HostRuntime,
    before: usize,
    want: [u8; 256],
) -> Result<(), Fail> {
    if before > 0 {
        fs::write(files, PATH, &[3u8; 256][..before.min(256)])?;
    }
    let done = ([Put::Done; 5], Put::Done);
    let (image, puts, read) = written(files);
    same(rt, &image, &want, &before);
    same(rt, &(puts, read), &done, &before);
    expect_file(rt, files, PATH, &want)
}

#[test]
fn keeps_its_bytes_in_a_file(rt: HostRuntime) -> Result<(), Fail> {
    make_folder(&rt, FOLDER)?;
    for (before, first, rest) in BEFORE {
        expect_pieces(&rt, &rt, *before, with_pieces(*first, *rest))?;
    }
    fs::remove_dir_all(&rt, FOLDER)?;
    Ok(())
}

/// What comes of a read, a write and a sync.
fn three_calls(mut disk: FileDisk) -> [Put; 3] {
    [
        make(&mut disk, Call::Read),
        make(&mut disk, Call::Write(0, 1)),
        make(&mut disk, Call::Sync),
    ]
}

/// A path gives no disk, for this reason.
fn expect_reason(rt: &impl Abort, files: &HostRuntime, path: &str, want: &str) -> Result<(), Fail> {
    let reason = reason_at(files, path)?;
    same(rt, &reason.as_str(), &want, &path);
    Ok(())
}

const LONG: &str = "slot_disk_long/disk";

fn expect_left(rt: &impl Abort, files: &HostRuntime, content: &[u8]) -> Result<(), Fail> {
    fs::write(files, LONG, content)?;
    let puts = three_calls(disk_at(files, LONG));
    same(rt, &puts, &[Put::Failed; 3], &content.len());
    expect_file(rt, files, LONG, content)?;
    expect_reason(rt, files, LONG, "longer than 256 bytes")
}

#[test]
fn a_longer_file_is_left_as_it_is(rt: HostRuntime) -> Result<(), Fail> {
    make_folder(&rt, "slot_disk_long")?;
    expect_left(&rt, &rt, &[3; 257])?;
    expect_left(&rt, &rt, &[3; 300])?;
    fs::remove_dir_all(&rt, "slot_disk_long")?;
    Ok(())
}

const LOCKED: &str = "slot_disk_lock/disk";

// The second disk is none while the first has the file. A later one has it again.
fn expect_lock(rt: &impl Abort, files: &HostRuntime) -> Result<(), Fail> {
    let first = disk_at(files, LOCKED);
    let second = three_calls(disk_at(files, LOCKED));
    expect_reason(rt, files, LOCKED, "locked by another process")?;
    same(rt, &second, &[Put::Failed; 3], &());
    same(rt, &three_calls(first), &[Put::Done; 3], &());
    let later = three_calls(disk_at(files, LOCKED));
    same(rt, &later, &[Put::Done; 3], &());
    Ok(())
}

#[test]
fn a_file_has_one_disk_at_a_time(rt: HostRuntime) -> Result<(), Fail> {
    make_folder(&rt, "slot_disk_lock")?;
    expect_lock(&rt, &rt)?;
    fs::remove_dir_all(&rt, "slot_disk_lock")?;
    Ok(())
}

// A folder can't be opened for writing, and the other is no regular file.
const NO_FILES: &[(&str, &str)] = &[
    ("/", "Is a directory (os error 21)"),
    ("/dev/null", "not a regular file"),
];

#[test]
fn what_is_no_file_is_no_disk(rt: HostRuntime) -> Result<(), Fail> {
    for (path, want) in NO_FILES {
        let puts = three_calls(disk_at(&rt, path));
        same(&rt, &puts, &[Put::Failed; 3], path);
        expect_reason(&rt, &rt, path, want)?;
    }
    let puts = three_calls(FileDisk::without_file());
    same(&rt, &puts, &[Put::Failed; 3], &());
    Ok(())
}

const SHORT: &str = "slot_disk_short/disk";

// It can be read whole before anything was written to it.
fn expect_filled(rt: &impl Abort, files: &HostRuntime) -> Result<(), Fail> {
    fs::write(files, SHORT, &[3u8; 5])?;
    let mut disk = disk_at(files, SHORT);
    same(rt, &make(&mut disk, Call::Read), &Put::Done, &());
    let bytes = fs::read(files, SHORT)?;
    let ends = (bytes.len(), bytes.get(4), bytes.get(5), bytes.last());
    same(rt, &ends, &(256, Some(&3), Some(&0), Some(&0)), &());
    Ok(())
}

#[test]
fn a_short_file_is_filled(rt: HostRuntime) -> Result<(), Fail> {
    make_folder(&rt, "slot_disk_short")?;
    expect_filled(&rt, &rt)?;
    fs::remove_dir_all(&rt, "slot_disk_short")?;
    Ok(())
}
