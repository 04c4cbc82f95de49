//! Runs where a call fails, and runs without a session.
use crate::asserts::{Want, expect, ran_of, same};
use crate::messages::{ACK, BIND, NO_TIME, SOURCE, SYNC};
use std::alloc::Global;
use std::process::Abort;
use std::test::Fail;
use test_scripts::{Device, STEADY, run};
use w32tm_cmd::Status;

/// A device and the number of its call that fails; and what is wanted.
type Fault = (Device, u64, Want<'static>);

const LINE: &[u8] = b"The computer did not resync because no time data was available.\n";

const NOT_RESYNCED: Status = Status::NotResynced { result: 1 };

// The calls of the wire: a session, the bind, the two reads of its reply, the call, and the two reads of its reply. An eighth
// isn't made, and neither is a second write of the output.
const FAULTS: &[Fault] = &[
    (Device::Wire, 1, (Status::ReadFault, b"", [b"", b""])),
    (Device::Wire, 2, (Status::WriteFault, b"", [b"", b""])),
    (Device::Wire, 3, (Status::ReadFault, b"", [BIND, b""])),
    (Device::Wire, 4, (Status::ReadFault, b"", [BIND, b""])),
    (Device::Wire, 5, (Status::WriteFault, b"", [BIND, b""])),
    (Device::Wire, 6, (Status::ReadFault, b"", [BIND, SYNC])),
    (Device::Wire, 7, (Status::ReadFault, b"", [BIND, SYNC])),
    (Device::Out, 1, (Status::WriteFault, b"", [BIND, SYNC])),
    (Device::Wire, 8, (NOT_RESYNCED, LINE, [BIND, SYNC])),
    (Device::Out, 2, (NOT_RESYNCED, LINE, [BIND, SYNC])),
];

#[test]
fn faults_of_a_client(rt: HostRuntime) -> Result<(), Fail> {
    for fault in FAULTS {
        let failing = [(fault.0, fault.1)];
        let ran = ran_of(rt.alloc(), &["/resync"], &[ACK, NO_TIME], 500, &failing)?;
        expect(&rt, &ran, &fault.2, &failing);
    }
    Ok(())
}

// Words that are no command ask for no session.
const BAD_WORDS: &[&[&str]] = &[
    &["/query", "/source", "/bits"],
    &["/query"],
    &["/query", "/source", "/source"],
    &["/query", "/source", "/nowait"],
    &["/resync", "/source"],
    &["/resync", "/nowait", "/nowait"],
    &["/resync", "/computer:"],
    &["/resync", "/computer:10.0.0.1:0"],
];

#[test]
fn no_session_is_opened(rt: HostRuntime) -> Result<(), Fail> {
    for words in BAD_WORDS {
        is_bad(&rt, rt.alloc(), words)?;
    }
    for words in [["/resync"].as_slice(), &["/query", "/bits"]] {
        is_alone(&rt, rt.alloc(), words)?;
    }
    Ok(())
}

fn is_bad(rt: &impl Abort, alloc: Global, words: &[&str]) -> Result<(), Fail> {
    let ran = ran_of(alloc, words, &[ACK, SOURCE], 500, &[])?;
    expect(rt, &ran, &(Status::BadWords, b"", [b"", b""]), &words);
    same(rt, &ran.devices.wire.opened(), &0, &words);
    Ok(())
}

/// No session comes.
fn is_alone(rt: &impl Abort, alloc: Global, words: &[&str]) -> Result<(), Fail> {
    let ran = run(alloc, words, b"input", &STEADY)?;
    expect(rt, &ran, &(Status::PeerRefused, b"", [b"", b""]), &words);
    Ok(())
}
