//! Scripts that attack.
//!
//! The slacks come from `examples/peers/world.py attacks`.
use sntp_world::{Op, World};
use std::test::Fail;

/// What happens. Time passes, unevenly or so many times evenly.
#[derive(Clone, Copy)]
enum Deed {
    Pass(u32, i32, i32),
    Again(u32, u32),
    Poll(u32),
    Deliver(u32),
    Restart,
}

use Deed::{Again, Deliver, Pass, Poll, Restart};

/// What happens, and the least slack of what comes of it.
struct Attack {
    name: &'static str,
    deeds: &'static [Deed],
    slack: Option<i64>,
}

const MILLI: Deed = Pass(10_000, 0, 0);

const ATTACKS: [Attack; 12] = [
    Attack {
        name: "a reply after 2 ms",
        deeds: &[Poll(7), MILLI, Deliver(0), MILLI, Deliver(0)],
        slack: Some(20_001),
    },
    Attack {
        name: "a reply held back to the last tick of ten seconds",
        deeds: &[
            Poll(7),
            Pass(1_000_000, 0, 0),
            Deliver(0),
            Pass(99_000_000, 0, 0),
            Deliver(0),
        ],
        slack: Some(2_000_001),
    },
    Attack {
        name: "a reply one tick later",
        deeds: &[
            Poll(7),
            Pass(1_000_000, 0, 0),
            Deliver(0),
            Pass(99_000_001, 0, 0),
            Deliver(0),
        ],
        slack: None,
    },
    Attack {
        name: "a request held back, and its reply at once",
        deeds: &[Poll(7), Pass(99_900_000, 0, 0), Deliver(0), Deliver(0)],
        slack: Some(1),
    },
    Attack {
        name: "two replies exchanged",
        deeds: &[
            Poll(7),
            MILLI,
            Deliver(0),
            Pass(10_000_000, 0, 0),
            Poll(8),
            MILLI,
            Deliver(0),
            Deliver(2),
            Deliver(0),
        ],
        slack: Some(20_001),
    },
    Attack {
        name: "an old reply after a slew",
        deeds: &[
            Poll(7),
            MILLI,
            Deliver(0),
            Deliver(1),
            Deliver(0),
            Pass(20_000_000, 0, 0),
            Poll(8),
            MILLI,
            Deliver(2),
        ],
        slack: Some(1),
    },
    Attack {
        name: "a reply after a restart",
        deeds: &[
            Poll(7),
            MILLI,
            Deliver(0),
            Restart,
            Deliver(0),
            Poll(7),
            Deliver(1),
        ],
        slack: None,
    },
    Attack {
        name: "a step, and a slew after it",
        deeds: &[
            Pass(4_000_000_000, -2_000_000_000, 2_000_000_000),
            Poll(7),
            MILLI,
            Deliver(0),
            MILLI,
            Deliver(0),
            Pass(10_000_000, 0, 0),
            Poll(8),
            Pass(30_001, 0, 0),
            Deliver(0),
            Pass(9_999, 0, 0),
            Deliver(0),
        ],
        slack: Some(19_999),
    },
    Attack {
        name: "uneven clocks",
        deeds: &[
            Poll(7),
            Pass(1_000_000, 500, -500),
            Deliver(0),
            Pass(1_000_000, 0, 0),
            Deliver(0),
        ],
        slack: Some(2_002_001),
    },
    Attack {
        name: "clocks as uneven as they can be",
        deeds: &[
            Poll(7),
            Pass(1_000_000, -1_000_000, 1_000_000),
            Deliver(0),
            Pass(1_000_000, -1_000_000, 1_000_000),
            Deliver(0),
        ],
        slack: Some(4_000_001),
    },
    Attack {
        name: "the bound is reached",
        deeds: &[
            Pass(20_000_000, 20_000_000, -20_000_000),
            Poll(7),
            Pass(1, 0, 0),
            Deliver(0),
            Deliver(0),
        ],
        slack: Some(0),
    },
    Attack {
        name: "timestamps begin anew on the way",
        deeds: &[
            Again(1_183_109, 4_294_967_295),
            Pass(2_428_579_845, 0, 0),
            Poll(7),
            Pass(50_000_000, 0, 0),
            Deliver(0),
            Pass(10_000_000, 0, 0),
            Deliver(0),
        ],
        slack: Some(20_000_001),
    },
];

/// Does this, so often as it says.
fn act(world: &mut World, deed: Deed) -> Result<(), Fail> {
    match deed {
        Pass(d, e, f) => {
            world.step(&Op::Pass { d, e, f })?;
        }
        Again(times, d) => {
            let op = Op::Pass { d, e: 0, f: 0 };
            for _ in 0..times {
                world.step(&op)?;
            }
        }
        Poll(word) => {
            world.step(&Op::Poll { word })?;
        }
        Deliver(back) => {
            world.step(&Op::Deliver { back })?;
        }
        Restart => {
            world.step(&Op::Restart)?;
        }
    }
    Ok(())
}

#[test]
fn attacks(rt: HostRuntime) -> Result<(), Fail> {
    for attack in &ATTACKS {
        let name = attack.name;
        let mut world = World::new(rt.alloc())?;
        for deed in attack.deeds {
            act(&mut world, *deed)?;
        }
        assert_eq!(rt; world.slack(), attack.slack, "{name}");
    }
    Ok(())
}
