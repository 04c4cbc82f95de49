//! Runs where a call of a device fails, and runs that never come to a session.
use crate::asserts::{DC1, SETTINGS, Want, expect, one, ran_of, ran_over};
use crate::bytes::{ACK, BIND, NAME_CLOCK, REPLY, RESULT_0, SOURCE, SYNC, UNBOUND};
use std::test::Fail;
use test_scripts::{Came, Device};
use w32tm_cmd::Status;

/// A device and the number of its call that fails; and what is wanted.
type Fault = (Device, u64, Want);

const LIFE: &[u8] = b"life mark=0\n";

// The session binds and asks for a synchronization, whose reply moves the clock. Where the call for the session fails, that
// ends the run; a failed read or write of the session ends the session alone. All other faults end the run at the call: the
// clock's at the Life, at the request and at the arrival; the disk's at its load and at the block of the request.
const FAULTS: &[Fault] = &[
    (
        Device::Wire,
        1,
        Want {
            status: Status::ReadFault,
            answered: &[],
            printed: LIFE,
            captured: 17,
        },
    ),
    (
        Device::Wire,
        2,
        Want {
            status: Status::Done,
            answered: &[&[]],
            printed: b"life mark=0\nsession n=1 end=ReadFault\ntotal sent=0 moved=0 refused=0\n\
link quiet=0 lost=0\n",
            captured: 17,
        },
    ),
    (
        Device::Wire,
        4,
        Want {
            status: Status::Done,
            answered: &[&[]],
            printed: b"life mark=0\nsession n=1 end=WriteFault\ntotal sent=0 moved=0 refused=0\n\
link quiet=0 lost=0\n",
            captured: 17,
        },
    ),
    (
        Device::Wire,
        7,
        Want {
            status: Status::Done,
            answered: &[&[ACK]],
            printed: b"life mark=0\nsend n=1 to=10.0.0.1:123\nmoved n=1 offset=29000000 by=slew\n\
session n=1 end=WriteFault\ntotal sent=1 moved=1 refused=0\nlink quiet=0 lost=0\n",
            captured: 119,
        },
    ),
    (
        Device::Clock,
        1,
        Want {
            status: Status::ClockFault,
            answered: &[],
            printed: b"",
            captured: 0,
        },
    ),
    (
        Device::Clock,
        2,
        Want {
            status: Status::ClockFault,
            answered: &[&[ACK]],
            printed: LIFE,
            captured: 17,
        },
    ),
    (
        Device::Clock,
        3,
        Want {
            status: Status::ClockFault,
            answered: &[&[ACK]],
            printed: b"life mark=0\nsend n=1 to=10.0.0.1:123\n",
            captured: 34,
        },
    ),
    (
        Device::Entropy,
        1,
        Want {
            status: Status::EntropyFault,
            answered: &[&[ACK]],
            printed: LIFE,
            captured: 17,
        },
    ),
    (
        Device::Disk,
        1,
        Want {
            status: Status::DiskFault,
            answered: &[],
            printed: b"",
            captured: 0,
        },
    ),
    (
        Device::Disk,
        3,
        Want {
            status: Status::DiskFault,
            answered: &[&[ACK]],
            printed: LIFE,
            captured: 17,
        },
    ),
    (
        Device::Capture,
        2,
        Want {
            status: Status::WriteFault,
            answered: &[&[ACK]],
            printed: LIFE,
            captured: 17,
        },
    ),
    (
        Device::Out,
        2,
        Want {
            status: Status::WriteFault,
            answered: &[&[ACK]],
            printed: LIFE,
            captured: 34,
        },
    ),
    (
        Device::Out,
        4,
        Want {
            status: Status::WriteFault,
            answered: &[&[ACK, RESULT_0]],
            printed: b"life mark=0\nsend n=1 to=10.0.0.1:123\nmoved n=1 offset=29000000 by=slew\n",
            captured: 119,
        },
    ),
    (
        Device::Out,
        6,
        Want {
            status: Status::WriteFault,
            answered: &[&[ACK, RESULT_0]],
            printed: b"life mark=0\nsend n=1 to=10.0.0.1:123\nmoved n=1 offset=29000000 by=slew\n\
session n=1 end=Ended\ntotal sent=1 moved=1 refused=0\n",
            captured: 119,
        },
    ),
    // A send and a receive that fail are counted.
    (
        Device::Link,
        1,
        Want {
            status: Status::Done,
            answered: &[&[ACK, RESULT_0]],
            printed: b"life mark=0\nsend n=1 to=10.0.0.1:123\nmoved n=1 offset=29000000 by=slew\n\
session n=1 end=Ended\ntotal sent=1 moved=1 refused=0\nlink quiet=0 lost=1\n",
            captured: 119,
        },
    ),
    // No call of the settings fails but the first.
    (
        Device::Config,
        1,
        Want {
            status: Status::ReadFault,
            answered: &[],
            printed: b"",
            captured: 0,
        },
    ),
];

#[test]
fn faults_of_a_service(rt: HostRuntime) -> Result<(), Fail> {
    for fault in FAULTS {
        let failing = [(fault.0, fault.1)];
        let came = [Came::From(DC1, REPLY)];
        let ran = ran_of(
            rt.alloc(),
            "/service:1",
            &[&[BIND, SYNC]],
            &came,
            500,
            &failing,
        )?;
        expect(&rt, &ran, &fault.2, &failing);
    }
    Ok(())
}

/// A keeper whose first slot is open, with this version and this mark.
fn kept(version: u8, mark: u32) -> [u8; 256] {
    let mut image = [0; 256];
    image[0] = 0xA5;
    image[1] = version;
    image[4..8].copy_from_slice(&mark.to_be_bytes());
    image
}

/// No other computer is in the directory.
const ALONE: &[u8] = b"Name=DC1\nRole=Pdc\nRid=1103\n\
account 1103 000102030405060708090a0b0c0d0e0f\ncomputer DC1 10.0.0.1:123 S--E\n";

/// Settings, a keeper, and what is wanted of a service whose one session binds and asks for a synchronization.
type Kept = (&'static [u8], [u8; 256], Want);

// Without a partner nothing but the settings is read. A keeper of another version ends the run before its Life; one past its
// last mark ends it at the call for a request.
fn kept_rows() -> [Kept; 4] {
    [
        (
            ALONE,
            [0; 256],
            Want {
                status: Status::NoPartner,
                answered: &[],
                printed: b"",
                captured: 0,
            },
        ),
        (
            b"Name=WS1\nRole=Nobody\n",
            [0; 256],
            Want {
                status: Status::BadConfig { line: 2 },
                answered: &[],
                printed: b"",
                captured: 0,
            },
        ),
        (
            SETTINGS,
            kept(2, 64),
            Want {
                status: Status::BadKeeper,
                answered: &[],
                printed: b"",
                captured: 0,
            },
        ),
        (
            SETTINGS,
            kept(1, 4_294_967_232),
            Want {
                status: Status::StampsSpent,
                answered: &[&[ACK]],
                printed: b"life mark=4294967232\n",
                captured: 17,
            },
        ),
    ]
}

#[test]
fn settings_and_keepers(rt: HostRuntime) -> Result<(), Fail> {
    let mut bytes = BIND.to_vec(rt.alloc())?;
    bytes.extend_from_slice(SYNC)?;
    for (settings, image, want) in &kept_rows() {
        let ran = ran_over(
            rt.alloc(),
            "/service:1",
            *settings,
            *image,
            &[],
            &one(&bytes),
        )?;
        expect(&rt, &ran, want, &want.status);
    }
    Ok(())
}

// Past the last mark the other calls are answered.
#[test]
fn answers_without_counts(rt: HostRuntime) -> Result<(), Fail> {
    let mut bytes = BIND.to_vec(rt.alloc())?;
    bytes.extend_from_slice(SOURCE)?;
    let image = kept(1, 4_294_967_232);
    let ran = ran_over(rt.alloc(), "/service:2", SETTINGS, image, &[], &one(&bytes))?;
    let want = Want {
        status: Status::Done,
        answered: &[&[ACK, NAME_CLOCK]],
        printed: b"life mark=4294967232\nsession n=1 end=Ended\ntotal sent=0 moved=0 refused=0\n\
link quiet=0 lost=0\n",
        captured: 17,
    };
    expect(&rt, &ran, &want, &"/service:2");
    Ok(())
}

// Words that are no command open no session.
#[test]
fn bad_words_of_a_service(rt: HostRuntime) -> Result<(), Fail> {
    for sessions in ["/service", "/service:0", "/service:10001", "/service:01"] {
        let ran = ran_of(rt.alloc(), sessions, &[&[UNBOUND]], &[], 500, &[])?;
        let want = Want {
            status: Status::BadWords,
            answered: &[],
            printed: b"",
            captured: 0,
        };
        expect(&rt, &ran, &want, &sessions);
    }
    Ok(())
}
