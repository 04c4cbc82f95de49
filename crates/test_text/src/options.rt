//! Words that spell a command with its options.
use crate::texts::words_of;
use edge_traits::Addr;
use std::alloc::AllocError;
use w32tm_text::{Action, read_words};

/// The commands, without what stands in the words of `/sign` and `/show`.
#[derive(Clone, Copy, Debug, PartialEq, Eq)]
enum Work {
    Sign,
    Show,
    Dc(u32),
    Member(u32),
    Monitor,
    Replay,
    Resync { wait: bool, rediscover: bool },
    QuerySource,
    QueryBits,
    Simulate(u32, u32),
    Service(u32),
}

fn work_of(action: &Action) -> Work {
    match action {
        Action::Sign(_) => Work::Sign,
        Action::Show(_) => Work::Show,
        Action::Dc(turns) => Work::Dc(*turns),
        Action::Member(turns) => Work::Member(*turns),
        Action::Monitor => Work::Monitor,
        Action::Replay => Work::Replay,
        Action::Resync { wait, rediscover } => Work::Resync {
            wait: *wait,
            rediscover: *rediscover,
        },
        Action::QuerySource => Work::QuerySource,
        Action::QueryBits => Work::QueryBits,
        Action::Simulate(seed, operations) => Work::Simulate(*seed, *operations),
        Action::Service(sessions) => Work::Service(*sessions),
    }
}

/// The command, the words in which the paths of the settings, the keeper's file, the capture and the clock's samples
/// stand, the port, the port of remote calls, and the service that is called. What isn't named is 0: that word is the
/// command, and no port.
type Said = (Work, [usize; 4], [u16; 2], Addr);

/// The service that is called where no word names one.
const OWN: Addr = Addr {
    ip: 0x7F00_0001,
    port: 49_152,
};

fn said_by(words: &Vec<String>) -> Option<Said> {
    let command = read_words(words).ok()?;
    let places = [
        command.config.unwrap_or(0),
        command.keeper.unwrap_or(0),
        command.capture.unwrap_or(0),
        command.clock.unwrap_or(0),
    ];
    let ports = [command.port.unwrap_or(0), command.rpc_port.unwrap_or(0)];
    Some((work_of(&command.action), places, ports, command.computer))
}

const GOOD: &[(&[&str], Work, [usize; 4], u16)] = &[
    (&["/dc:1", "/config:a"], Work::Dc(1), [1, 0, 0, 0], 0),
    (
        &["/dc:9", "/config:/etc/w32tm.conf"],
        Work::Dc(9),
        [1, 0, 0, 0],
        0,
    ),
    (
        &["/dc:10", "/config:C:\\w32tm.conf"],
        Work::Dc(10),
        [1, 0, 0, 0],
        0,
    ),
    (
        &["/dc:999999", "/config:a"],
        Work::Dc(999_999),
        [1, 0, 0, 0],
        0,
    ),
    (
        &["/dc:1000000", "/config:a"],
        Work::Dc(1_000_000),
        [1, 0, 0, 0],
        0,
    ),
    (
        &["/dc:3", "/config:a", "/port:123"],
        Work::Dc(3),
        [1, 0, 0, 0],
        123,
    ),
    (
        &["/dc:3", "/port:123", "/config:a"],
        Work::Dc(3),
        [2, 0, 0, 0],
        123,
    ),
    (
        &["/dc:3", "/port:1", "/config:a"],
        Work::Dc(3),
        [2, 0, 0, 0],
        1,
    ),
    (
        &["/dc:3", "/config:a", "/port:9"],
        Work::Dc(3),
        [1, 0, 0, 0],
        9,
    ),
    (
        &["/dc:3", "/config:a", "/port:10"],
        Work::Dc(3),
        [1, 0, 0, 0],
        10,
    ),
    (
        &["/dc:3", "/config:a", "/port:49152"],
        Work::Dc(3),
        [1, 0, 0, 0],
        49_152,
    ),
    (
        &["/dc:3", "/config:a", "/port:65534"],
        Work::Dc(3),
        [1, 0, 0, 0],
        65_534,
    ),
    (
        &["/dc:3", "/config:a", "/port:65535"],
        Work::Dc(3),
        [1, 0, 0, 0],
        65_535,
    ),
    // A path is any text that isn't empty, whatever it looks like.
    (&["/dc:3", "/config: "], Work::Dc(3), [1, 0, 0, 0], 0),
    (&["/dc:3", "/config::"], Work::Dc(3), [1, 0, 0, 0], 0),
    (&["/dc:3", "/config:/port:5"], Work::Dc(3), [1, 0, 0, 0], 0),
    (
        &["/dc:3", "/config:/port:0", "/port:5"],
        Work::Dc(3),
        [1, 0, 0, 0],
        5,
    ),
    (&["/dc:3", "/config:/config:"], Work::Dc(3), [1, 0, 0, 0], 0),
    (&["/dc:3", "/config:ü"], Work::Dc(3), [1, 0, 0, 0], 0),
    (
        &["/dc:3", "/config:a b\tc\nd"],
        Work::Dc(3),
        [1, 0, 0, 0],
        0,
    ),
    (&["/monitor", "/config:a"], Work::Monitor, [1, 0, 0, 0], 0),
    (
        &["/monitor", "/config:a", "/port:1"],
        Work::Monitor,
        [1, 0, 0, 0],
        1,
    ),
    (
        &["/monitor", "/port:65535", "/config:a"],
        Work::Monitor,
        [2, 0, 0, 0],
        65_535,
    ),
    (&["/monitor", "/config:0"], Work::Monitor, [1, 0, 0, 0], 0),
    (&["/replay", "/config:a"], Work::Replay, [1, 0, 0, 0], 0),
    (
        &["/replay", "/config:a", "/capture:b"],
        Work::Replay,
        [1, 0, 2, 0],
        0,
    ),
    (
        &["/replay", "/capture:b", "/config:a"],
        Work::Replay,
        [2, 0, 1, 0],
        0,
    ),
    (
        &["/replay", "/capture:a", "/config:a"],
        Work::Replay,
        [2, 0, 1, 0],
        0,
    ),
    (
        &["/replay", "/config:a", "/capture:/config:"],
        Work::Replay,
        [1, 0, 2, 0],
        0,
    ),
    (
        &["/replay", "/capture:/config:b", "/config:a"],
        Work::Replay,
        [2, 0, 1, 0],
        0,
    ),
    (
        &["/replay", "/config:-", "/capture:-"],
        Work::Replay,
        [1, 0, 2, 0],
        0,
    ),
    (
        &["/replay", "/config:capture", "/capture: "],
        Work::Replay,
        [1, 0, 2, 0],
        0,
    ),
    (
        &["/member:1", "/config:a", "/keeper:b"],
        Work::Member(1),
        [1, 2, 0, 0],
        0,
    ),
    (
        &["/member:9", "/keeper:b", "/config:a"],
        Work::Member(9),
        [2, 1, 0, 0],
        0,
    ),
    (
        &["/member:999999", "/config:a", "/keeper:b"],
        Work::Member(999_999),
        [1, 2, 0, 0],
        0,
    ),
    (
        &["/member:1000000", "/config:a", "/keeper:b"],
        Work::Member(1_000_000),
        [1, 2, 0, 0],
        0,
    ),
    (
        &["/member:3", "/config:a", "/keeper:b", "/capture:c"],
        Work::Member(3),
        [1, 2, 3, 0],
        0,
    ),
    (
        &["/member:3", "/config:a", "/keeper:b", "/port:1"],
        Work::Member(3),
        [1, 2, 0, 0],
        1,
    ),
    (
        &["/member:3", "/config:a", "/port:65535", "/keeper:b"],
        Work::Member(3),
        [1, 3, 0, 0],
        65_535,
    ),
    (
        &[
            "/member:3",
            "/config:a",
            "/keeper:b",
            "/capture:c",
            "/port:123",
        ],
        Work::Member(3),
        [1, 2, 3, 0],
        123,
    ),
    (
        &[
            "/member:3",
            "/port:123",
            "/capture:c",
            "/keeper:b",
            "/config:a",
        ],
        Work::Member(3),
        [4, 3, 2, 0],
        123,
    ),
    (
        &[
            "/member:3",
            "/capture:c",
            "/config:a",
            "/port:9",
            "/keeper:b",
        ],
        Work::Member(3),
        [2, 4, 1, 0],
        9,
    ),
    // One path may stand in more than one word, and look like an option.
    (
        &["/member:3", "/keeper:a", "/capture:a", "/config:a"],
        Work::Member(3),
        [3, 1, 2, 0],
        0,
    ),
    (
        &["/member:3", "/keeper:/config:", "/config:/keeper:"],
        Work::Member(3),
        [2, 1, 0, 0],
        0,
    ),
    // A simulation needs no settings.
    (&["/simulate:1:2"], Work::Simulate(1, 2), [0, 0, 0, 0], 0),
    (&["/simulate:0:1"], Work::Simulate(0, 1), [0, 0, 0, 0], 0),
    (
        &["/simulate:4294967295:99999"],
        Work::Simulate(u32::MAX, 99_999),
        [0, 0, 0, 0],
        0,
    ),
    (
        &["/simulate:1103:100000", "/capture:/config:a"],
        Work::Simulate(1103, 100_000),
        [0, 0, 1, 0],
        0,
    ),
    // The samples of a member's clock.
    (
        &["/member:3", "/config:a", "/keeper:b", "/clock:c"],
        Work::Member(3),
        [1, 2, 0, 3],
        0,
    ),
    (
        &["/member:3", "/clock:/clock:", "/keeper:b", "/config:a"],
        Work::Member(3),
        [3, 2, 0, 1],
        0,
    ),
    (
        &[
            "/member:3",
            "/port:5",
            "/clock:a",
            "/capture:a",
            "/keeper:a",
            "/config:a",
        ],
        Work::Member(3),
        [5, 4, 3, 2],
        5,
    ),
];

// Words of a service: its sessions, the words of its paths, its port and that of remote calls.
const SERVICES: &[(&[&str], u32, [usize; 4], [u16; 2])] = &[
    (
        &["/service:1", "/config:a", "/keeper:b"],
        1,
        [1, 2, 0, 0],
        [0, 0],
    ),
    (
        &["/service:10000", "/keeper:b", "/config:a"],
        10_000,
        [2, 1, 0, 0],
        [0, 0],
    ),
    (
        &["/service:9999", "/rpcport:1", "/config:a", "/keeper:b"],
        9_999,
        [2, 3, 0, 0],
        [0, 1],
    ),
    (
        &[
            "/service:2",
            "/config:a",
            "/keeper:b",
            "/capture:c",
            "/port:123",
            "/rpcport:65535",
            "/clock:d",
        ],
        2,
        [1, 2, 3, 6],
        [123, 65_535],
    ),
    (
        &[
            "/service:2",
            "/rpcport:49152",
            "/port:49152",
            "/capture:/rpcport:5",
            "/keeper:b",
            "/config:a",
        ],
        2,
        [5, 4, 3, 0],
        [49_152, 49_152],
    ),
];

// Words of commands that call a service, and the address and the port of that service.
const CALLS: &[(&[&str], Work, u32, u16)] = &[
    (
        &["/resync"],
        Work::Resync {
            wait: true,
            rediscover: false,
        },
        0x7F00_0001,
        49_152,
    ),
    (
        &["/resync", "/nowait"],
        Work::Resync {
            wait: false,
            rediscover: false,
        },
        0x7F00_0001,
        49_152,
    ),
    (
        &["/resync", "/computer:10.0.0.1", "/rediscover"],
        Work::Resync {
            wait: true,
            rediscover: true,
        },
        0x0A00_0001,
        49_152,
    ),
    (
        &[
            "/resync",
            "/rediscover",
            "/computer:255.255.255.255:65535",
            "/nowait",
        ],
        Work::Resync {
            wait: false,
            rediscover: true,
        },
        0xFFFF_FFFF,
        65_535,
    ),
    (
        &["/query", "/source"],
        Work::QuerySource,
        0x7F00_0001,
        49_152,
    ),
    (
        &["/query", "/computer:0.0.0.0:1", "/source"],
        Work::QuerySource,
        0,
        1,
    ),
    (&["/query", "/bits"], Work::QueryBits, 0x7F00_0001, 49_152),
    (
        &["/query", "/bits", "/computer:1.2.3.4:123"],
        Work::QueryBits,
        0x0102_0304,
        123,
    ),
];

#[test]
fn words_of_commands(rt: HostRuntime) -> Result<(), AllocError> {
    for (texts, work, places, port) in GOOD {
        let said = said_by(&words_of(rt.alloc(), texts)?);
        assert_eq!(rt; said, Some((*work, *places, [*port, 0], OWN)), "{texts:?}");
    }
    Ok(())
}

#[test]
fn words_of_services(rt: HostRuntime) -> Result<(), AllocError> {
    for (texts, sessions, places, ports) in SERVICES {
        let said = said_by(&words_of(rt.alloc(), texts)?);
        let service = Work::Service(*sessions);
        assert_eq!(rt; said, Some((service, *places, *ports, OWN)), "{texts:?}");
    }
    Ok(())
}

#[test]
fn words_of_calls(rt: HostRuntime) -> Result<(), AllocError> {
    for (texts, work, ip, port) in CALLS {
        let said = said_by(&words_of(rt.alloc(), texts)?);
        let called = Addr {
            ip: *ip,
            port: *port,
        };
        assert_eq!(rt; said, Some((*work, [0; 4], [0; 2], called)), "{texts:?}");
    }
    Ok(())
}
