//! Each call that a wire over TCP makes on the network and the clock, by rows: where sessions come from, how long they wait,
//! and how they end.

use crate::network::{Answer, Asked, Network, Plan};
use crate::wires::{Step, first_wrong_step};
use edge_io::{Addr, Opened, Put, TcpWire};
use std::fmt::Debug;
use std::net::Shutdown;
use std::process::Abort;

/// Both values are the same in this case.
fn same<T: PartialEq + Debug, C: Debug>(rt: &impl Abort, got: &T, want: &T, case: &C) {
    assert_eq!(rt; *got, *want, "{case:?}");
}

/// Where a wire's sessions come from.
#[derive(Clone, Copy)]
enum From {
    Port(u16),
    Address(u32, u16),
}

/// Where the sessions come from, what is asked of the wire, and the calls that it makes until it is dropped.
struct Row {
    name: &'static str,
    from: From,
    steps: &'static [Step],
    calls: &'static [(Asked, Answer)],
}

/// A limit of 30 seconds for reads, and for writes.
const READS: (Asked, Answer) = (Asked::ReadWithin(Some(30_000)), Answer::Done);

const WRITES: (Asked, Answer) = (Asked::WriteWithin(Some(30_000)), Answer::Done);

/// All addresses of the own machine.
const BOUND: (Asked, Answer) = (Asked::Bind(0, 123), Answer::Done);

const ACCEPTED: (Asked, Answer) = (Asked::Accept, Answer::Done);

/// 10.0.0.1, port 135.
const TO: From = From::Address(0x0A00_0001, 135);

const CONNECTED: (Asked, Answer) = (Asked::Connect(0x0A00_0001, 135, 30_000), Answer::Done);

/// Nothing more is written.
const SHUT: (Asked, Answer) = (Asked::Shutdown(Shutdown::Write), Answer::Done);

const ROWS: &[Row] = &[
    Row {
        name: "sessions of a port, and what the peer still sends for a second",
        from: From::Port(123),
        steps: &[
            Step::Read("."),
            Step::Open(Opened::Session),
            Step::Read("xxx"),
            Step::Write("abc", Put::Done),
            Step::Read("."),
            Step::Open(Opened::Session),
        ],
        calls: &[
            BOUND,
            ACCEPTED,
            READS,
            WRITES,
            (Asked::Read, Answer::Count(3)),
            (Asked::Write, Answer::Count(2)),
            (Asked::Write, Answer::Count(1)),
            (Asked::Read, Answer::Count(0)),
            SHUT,
            (Asked::Time, Answer::Count(7_000)),
            (Asked::Time, Answer::Count(7_000)),
            (Asked::ReadWithin(Some(1_000)), Answer::Done),
            (Asked::Read, Answer::Count(500)),
            (Asked::Time, Answer::Count(7_400)),
            (Asked::ReadWithin(Some(600)), Answer::Done),
            (Asked::Read, Answer::Error(4)),
            (Asked::Time, Answer::Count(7_999)),
            (Asked::ReadWithin(Some(1)), Answer::Done),
            (Asked::Read, Answer::Count(1)),
            (Asked::Time, Answer::Count(8_000)),
            (Asked::ReadWithin(Some(0)), Answer::Error(22)),
            ACCEPTED,
            READS,
            WRITES,
            SHUT,
            (Asked::Time, Answer::Count(9_000)),
            (Asked::Time, Answer::Count(9_500)),
            (Asked::ReadWithin(Some(500)), Answer::Done),
            (Asked::Read, Answer::Count(0)),
        ],
    },
    Row {
        name: "connections that were lost while they waited",
        from: From::Port(123),
        steps: &[Step::Open(Opened::Session)],
        calls: &[
            BOUND,
            (Asked::Accept, Answer::Error(4)),
            (Asked::Accept, Answer::Error(64)),
            (Asked::Accept, Answer::Error(71)),
            (Asked::Accept, Answer::Error(92)),
            (Asked::Accept, Answer::Error(95)),
            (Asked::Accept, Answer::Error(100)),
            (Asked::Accept, Answer::Error(101)),
            (Asked::Accept, Answer::Error(103)),
            (Asked::Accept, Answer::Error(104)),
            (Asked::Accept, Answer::Error(112)),
            (Asked::Accept, Answer::Error(113)),
            ACCEPTED,
            READS,
            WRITES,
            (Asked::Shutdown(Shutdown::Write), Answer::Error(107)),
        ],
    },
    Row {
        name: "a machine without room for a connection",
        from: From::Port(123),
        steps: &[
            Step::Open(Opened::Failed),
            Step::Read("."),
            Step::Write("abc", Put::Failed),
            Step::Open(Opened::Failed),
            Step::Open(Opened::Failed),
            Step::Open(Opened::Failed),
        ],
        calls: &[
            BOUND,
            (Asked::Accept, Answer::Error(24)),
            (Asked::Accept, Answer::Error(12)),
            (Asked::Accept, Answer::Error(105)),
            (Asked::Accept, Answer::Error(1)),
        ],
    },
    Row {
        name: "a peer that sends nothing",
        from: From::Port(123),
        steps: &[
            Step::Open(Opened::Session),
            Step::Read("!"),
            Step::Read("!"),
            Step::Write("abc", Put::Failed),
            Step::Open(Opened::Session),
        ],
        calls: &[
            BOUND,
            ACCEPTED,
            READS,
            WRITES,
            (Asked::Read, Answer::Error(4)),
            (Asked::Read, Answer::Error(11)),
            ACCEPTED,
            READS,
            WRITES,
            SHUT,
            (Asked::Time, Answer::Error(5)),
        ],
    },
    Row {
        name: "a peer that takes nothing",
        from: From::Port(123),
        steps: &[
            Step::Open(Opened::Session),
            Step::Write("abc", Put::Failed),
            Step::Write("abc", Put::Failed),
            Step::Read("!"),
        ],
        calls: &[
            BOUND,
            ACCEPTED,
            READS,
            WRITES,
            (Asked::Write, Answer::Error(4)),
            (Asked::Write, Answer::Count(2)),
            (Asked::Write, Answer::Error(11)),
        ],
    },
    Row {
        name: "a connection that takes no byte, and a clock that stops",
        from: From::Port(123),
        steps: &[
            Step::Open(Opened::Session),
            Step::Write("abc", Put::Failed),
            Step::Open(Opened::Session),
            Step::Write("abc", Put::Done),
        ],
        calls: &[
            BOUND,
            ACCEPTED,
            READS,
            WRITES,
            (Asked::Write, Answer::Count(0)),
            ACCEPTED,
            READS,
            WRITES,
            (Asked::Write, Answer::Count(3)),
            SHUT,
            (Asked::Time, Answer::Count(0)),
            (Asked::Time, Answer::Error(5)),
        ],
    },
    Row {
        name: "the one session of an address",
        from: TO,
        steps: &[
            Step::Read("."),
            Step::Write("abc", Put::Failed),
            Step::Open(Opened::Session),
            Step::Write("abc", Put::Done),
            Step::Read("xxxx"),
            Step::Open(Opened::NoMore),
            Step::Read("."),
            Step::Write("abc", Put::Failed),
            Step::Open(Opened::NoMore),
        ],
        calls: &[
            CONNECTED,
            READS,
            WRITES,
            (Asked::Write, Answer::Count(3)),
            (Asked::Read, Answer::Count(9)),
            SHUT,
            (Asked::Time, Answer::Count(0)),
            (Asked::Time, Answer::Count(1)),
            (Asked::ReadWithin(Some(999)), Answer::Done),
            (Asked::Read, Answer::Error(104)),
        ],
    },
    Row {
        name: "an address that refuses",
        from: TO,
        steps: &[
            Step::Open(Opened::Failed),
            Step::Open(Opened::NoMore),
            Step::Read("."),
        ],
        calls: &[(Asked::Connect(0x0A00_0001, 135, 30_000), Answer::Error(111))],
    },
    Row {
        name: "a read whose limit can't be set",
        from: TO,
        steps: &[Step::Open(Opened::Failed), Step::Open(Opened::NoMore)],
        calls: &[
            CONNECTED,
            (Asked::ReadWithin(Some(30_000)), Answer::Error(22)),
        ],
    },
    Row {
        name: "a write whose limit can't be set",
        from: From::Port(123),
        steps: &[Step::Open(Opened::Failed)],
        calls: &[
            BOUND,
            ACCEPTED,
            READS,
            (Asked::WriteWithin(Some(30_000)), Answer::Error(22)),
        ],
    },
    Row {
        name: "a port that is taken",
        from: From::Port(123),
        steps: &[],
        calls: &[(Asked::Bind(0, 123), Answer::Error(98))],
    },
];

/// The place of the first step that isn't as wanted, of a wire that is dropped then.
fn first_wrong(plan: &Plan, row: &Row) -> Option<usize> {
    let network = Network { plan };
    match row.from {
        From::Port(port) => match TcpWire::listen(network, port) {
            Ok(mut wire) => first_wrong_step(&mut wire, row.steps),
            Err(_) => None,
        },
        From::Address(ip, port) => {
            let mut wire = TcpWire::connect(network, Addr { ip, port });
            first_wrong_step(&mut wire, row.steps)
        }
    }
}

#[test]
fn calls_on_the_network(rt: HostRuntime) {
    for row in ROWS {
        let plan = Plan::new(row.calls);
        let wrong = first_wrong(&plan, row);
        same(&rt, &(wrong, plan.is_done()), &(None, true), &row.name);
    }
}
