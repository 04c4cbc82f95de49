//! The program `w32tm`. What it does, by its first word:
//!
//! - `/dc` answers the computers of a domain as their controller, and `/sign` one request on standard input;
//! - `/member` keeps a clock by its domain, and `/replay` says what a member does with the events of a capture;
//! - `/monitor` asks each computer of a domain for the time, and `/show` prints the fields of a message;
//! - `/service` keeps a clock as `/member` does, where remote calls ask for it;
//! - `/resync` has a computer's time service synchronize, and `/query` asks it for its source or for what it announces;
//! - `/simulate` runs a member in a simulated world.
//!
//! There is little here, and all of it is the edge: the words of the command line, the devices of the machine, the line
//! on standard error and the exit code. The work and its contract are the call `w32tm` of the crate `w32tm_cmd`; a
//! newcomer begins there.
//!
//! `devices.rt` opens what a command names and uses, and nothing else, and `outside.rt` hands each device in under its
//! name. What can't be opened is handed in as a device each call of which fails; where W32TM_EXPLAIN is 1, `explain.rt`
//! says why. `streams.rt` takes the standard streams that are closed before the run, and has the line and the code after
//! it. The devices are those of `edge_io`: files, standard input and output, a UDP socket, a TCP connection, the machine's
//! clock and its random words; the keeper's disk is the file of `slot_disk`. `input.rt` has the one type of all that is
//! read, `output.rt` of all that is written, `clock.rt` of the clock, and `wire.rt` has whom a command
//! calls, and where a service is called; the definitions of each stand in `specs/` under its name.
#![tactic(auto)]

mod clock;
mod devices;
mod explain;
mod input;
mod output;
mod outside;
mod streams;
mod wire;

use crate::explain::{explanation, is_asked};
use crate::outside::outside_of;
use crate::streams::{closed_streams, end_with};
use edge_io::WriterSink;
use std::alloc::AllocError;
use std::io::{ErrorKind, Write};
use std::process::ExitCode;
use std::rt::Env;
use std::{env, io};
use w32tm_cmd::{Status, w32tm};
use w32tm_text::{Command, read_words};

/// Carries out the words, prints the line of what went wrong, and ends with its code.
fn main(rt: HostRuntime) -> ExitCode {
    let _streams = closed_streams(&rt);
    let status = match words(&rt) {
        Ok(words) => carry_out(&rt, &words),
        Err(error) if error.kind() == ErrorKind::OutOfMemory => Status::NoMemory,
        // A word that isn't UTF-8 belongs to no command.
        Err(_) => Status::BadWords,
    };
    ExitCode::from(end_with(&mut WriterSink::new(rt.stderr()), &status))
}

/// Carries out the command that the words spell, and prints what it could not open where the environment asks for it.
fn carry_out(rt: &HostRuntime, words: &Vec<String>) -> Status {
    // Words that spell no command open nothing, and are refused by the run.
    let command = read_words(words).ok();
    let status = run(rt, words, &command).unwrap_or(Status::NoMemory);
    if is_asked(rt)
        && let Ok(text) = explanation(rt, rt.alloc(), words, &command, &status)
    {
        let _ = rt.stderr().write_all(text.as_bytes());
    }
    status
}

/// Carries out the command. The error is want of memory for the path of its record or of its samples.
fn run(
    rt: &HostRuntime,
    words: &Vec<String>,
    command: &Option<Command>,
) -> Result<Status, AllocError> {
    let mut outside = outside_of(rt, rt.alloc(), rt.stdin(), rt.stdout(), words, command)?;
    Ok(w32tm(rt.alloc(), words, &mut outside))
}

/// The words behind the program's name. The error is `OutOfMemory` where there is no memory for them, and
/// another one where a word isn't UTF-8.
fn words<R: Env + AllocGlobal>(rt: &R) -> io::Result<Vec<String>> {
    let mut words = Vec::new(rt.alloc());
    for word in env::args(rt)?.skip(1) {
        words.push(word)?;
    }
    Ok(words)
}

#[cfg(test)]
mod tests {
    use super::*;
    use std::fs;
    use std::test::Fail;

    const SETTINGS: &str = "Name=WS1\nRole=Member\nRid=1103\n\
        account 1103 000102030405060708090a0b0c0d0e0f\ncomputer DC1 127.0.0.1:9 S---\n";

    // Each run ends at the file that it shows, before its first line: at the first byte of a capture, at a keeper of
    // another version, and at a record that can't be written. The last one takes a turn, and its record is the file's.
    #[test]
    fn each_file_is_handed_to_its_device(rt: HostRuntime) -> Result<(), Fail> {
        let alloc = rt.alloc();
        let _ = fs::remove_dir_all(&rt, "run_files");
        fs::create_dir(&rt, "run_files")?;
        fs::write(&rt, "run_files/config", SETTINGS)?;
        fs::write(&rt, "run_files/capture", "no events")?;
        fs::write(&rt, "run_files/keeper", [0xA5, 2].as_slice())?;
        for (command, place, named, status) in [
            (
                "/replay",
                "/capture:run_files/capture",
                None,
                Status::BadCapture { at: 0 },
            ),
            (
                "/member:1",
                "/keeper:run_files/keeper",
                None,
                Status::BadKeeper,
            ),
            (
                "/member:1",
                "/keeper:run_files/new",
                Some("/capture:/dev/full"),
                Status::WriteFault,
            ),
            (
                "/member:1",
                "/keeper:run_files/new",
                Some("/capture:run_files/events"),
                Status::Done,
            ),
        ] {
            let mut words = Vec::new(alloc);
            for word in [command, "/config:run_files/config", place]
                .into_iter()
                .chain(named)
            {
                words.push(String::from_str(alloc, word)?)?;
            }
            let command = read_words(&words).ok();
            assert_eq!(rt; run(&rt, &words, &command)?, status, "{words:?}");
        }
        let events = fs::read(&rt, "run_files/events")?;
        assert!(rt; events.len() >= 30);
        assert!(rt; events.starts_with(b"\x01W32T"));
        fs::remove_dir_all(&rt, "run_files")?;
        Ok(())
    }
}
