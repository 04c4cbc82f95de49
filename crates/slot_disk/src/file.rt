//! A disk in a file of the machine.
ghost use Rattle.std.specs.Prelude.{◌≡◌, ◌↔◌, ◌+◌, ◌<◌, ◌≤◌, Err, IfOk, IsOk, length, false, true};
ghost use Rattle.std.specs.Fs.{file_type, metadata_len, IsFile};
ghost use Rattle.edge_traits.specs.Sink.{PutCounts};
ghost use Rattle.slot_disk.specs.Calls.{Ticks};
ghost use Rattle.slot_disk.specs.File.{calls_of, file_faults, is_open};
ghost use Rattle.slot_disk.specs.declared.no_disk.NoDisk.{NoDisk};

use crate::{DISK_LEN, Disk, NoDisk, Put};
use std::fs::{File, Files, Metadata, OpenOptions};
use std::io;
use std::os::unix::fs::FileExt;
use std::path::Path;

/// A file of 256 bytes, which no other disk has open at the same time.
///
/// It tells nothing but the number of its calls. What the file holds, and that the device keeps what a sync
/// brought to it, is trusted. A system call that is interrupted is made again, and is no fault.
#[derive(Drop)]
pub struct FileDisk {
    file: Option<File>,
    calls: u64,
    faults: u64,
}

impl FileDisk {
    /// Opens a file for reading and writing, creates it where it is missing, and locks it. A shorter file is filled
    /// with zero bytes to 256. A new or short file's folder is synced before it is filled, so it must be readable.
    /// A longer file, or what is no regular file, is left as it is. The error says which of these there is, that
    /// another disk has the file, or what the system refused.
    pub fn open<R: Files<File = File>>(files: &R, path: &str) -> Result<FileDisk, NoDisk>
        ensures calls { IfOk result (λ disk. calls_of disk ≡ 0) }
        ensures faults { IfOk result (λ disk. file_faults disk ≡ 0) }
        ensures opened { IfOk result (λ disk. is_open disk ≡ true) }
    {
        Ok(FileDisk {
            file: Some(open_filled(files, path)?),
            calls: 0,
            faults: 0,
        })
    }

    /// A disk without a file, of which every call fails.
    pub fn without_file() -> FileDisk
        ensures calls { calls_of result ≡ 0 }
        ensures faults { file_faults result ≡ 0 }
        ensures closed { is_open result ≡ false }
    {
        FileDisk {
            file: None,
            calls: 0,
            faults: 0,
        }
    }

    /// Counts a call by what came of it.
    fn answer(&mut self, outcome: io::Result<()>) -> Put
        ensures done { (result ≡ Put.Done) ↔ IsOk outcome }
        ensures calls { Ticks (calls_of self.old) (calls_of self.new) }
        ensures cause { PutCounts result (file_faults self.old) (file_faults self.new) }
        ensures same_file { is_open self.new ≡ is_open self.old }
    {
        self.calls = self.calls.saturating_add(1);
        match outcome {
            Ok(()) => Put::Done,
            Err(_) => {
                self.faults = self.faults.saturating_add(1);
                Put::Failed
            }
        }
    }
}

/// The error of each call without a file.
fn no_file() -> io::Error {
    io::Error::from(io::ErrorKind::NotFound)
}

/// Whether what was opened may become a disk: a regular file that isn't longer than one. The error is
/// [`NoDisk::NotRegular`] or [`NoDisk::TooLong`].
fn may_hold_disk(metadata: &Metadata) -> Result<(), NoDisk>
    ensures fits { IsOk result
        ↔ (IsFile (file_type metadata.now) × (metadata_len metadata.now ≤ 256)) }
    ensures not_regular { (result ≡ Err NoDisk.NotRegular) ↔ (IsFile (file_type metadata.now) → ⊥) }
    ensures too_long { (result ≡ Err NoDisk.TooLong)
        ↔ (IsFile (file_type metadata.now) × (256 < metadata_len metadata.now)) }
{
    if !metadata.is_file() {
        return Err(NoDisk::NotRegular);
    }
    if metadata.len() > DISK_LEN as u64 {
        return Err(NoDisk::TooLong);
    }
    Ok(())
}

/// The open file, locked, of 256 bytes.
fn open_filled<R: Files<File = File>>(files: &R, path: &str) -> Result<File, NoDisk> {
    let file = OpenOptions::new()
        .read(true)
        .write(true)
        .create(true)
        .open(files, path)?;
    // The lock goes when the file is closed.
    file.try_lock()?;
    let metadata = file.metadata()?;
    may_hold_disk(&metadata)?;
    if metadata.len() < DISK_LEN as u64 {
        // The name of a new file has to outlast a crash before anything is written.
        File::open(files, folder_of(path))?.sync_all()?;
        file.set_len(DISK_LEN as u64)?;
    }
    Ok(file)
}

/// The folder that the path's last name stands in.
fn folder_of(path: &str) -> &str {
    match Path::new(path).parent() {
        Some(folder) if !folder.as_str().is_empty() => folder.as_str(),
        _ => ".",
    }
}

impl Disk for FileDisk {
    ghost use Rattle.slot_disk.specs.Calls.{Elapses, Reads, Syncs, Writes};
    ghost use Rattle.slot_disk.specs.File.{AnswersFor, file_is_disk, file_tells};

    ghost told = { file_tells };

    ghost faults = { file_faults };

    ghost is_disk = { file_is_disk };

    fn read(&mut self, buf: &mut [u8; 256]) -> Put
        ensures reads { Reads result buf.new (file_tells self.old) (file_tells self.new) }
        ensures elapses { Elapses (file_tells self.old) (file_tells self.new) }
        ensures cause { PutCounts result (file_faults self.old) (file_faults self.new) }
        ensures file { AnswersFor self.old self.new result }
    {
        let outcome = match &self.file {
            Some(file) => file.read_exact_at(buf, 0),
            None => Err(no_file()),
        };
        self.answer(outcome)
    }

    fn write_at(&mut self, at: usize, piece: &[u8]) -> Put
        requires { at + length piece.now ≤ 256 }
        ensures writes { Writes result at piece.now (file_tells self.old) (file_tells self.new) }
        ensures elapses { Elapses (file_tells self.old) (file_tells self.new) }
        ensures cause { PutCounts result (file_faults self.old) (file_faults self.new) }
        ensures file { AnswersFor self.old self.new result }
    {
        let outcome = match &self.file {
            Some(file) => file.write_all_at(piece, at as u64),
            None => Err(no_file()),
        };
        self.answer(outcome)
    }

    fn sync(&mut self) -> Put
        ensures syncs { Syncs result (file_tells self.old) (file_tells self.new) }
        ensures elapses { Elapses (file_tells self.old) (file_tells self.new) }
        ensures cause { PutCounts result (file_faults self.old) (file_faults self.new) }
        ensures file { AnswersFor self.old self.new result }
    {
        let outcome = match &self.file {
            Some(file) => file.sync_data(),
            None => Err(no_file()),
        };
        self.answer(outcome)
    }
}
