//! Runs from seeds.
use edge_io::{Addr, ScriptSink, ScriptSource};
use key_book::Account;
use md5::{Digest, Md5};
use ms_auth::Kind;
use phase_rule::Limits;
use replay_run::{Conf, Partners, ReplayEnd, ReplayWhy, replay};
use sntp_world::{SimEnd, simulate};
use std::alloc::Global;
use std::process::Abort;
use std::test::Fail;

/// A seed and a number of operations, with the summary, and the length and the MD5 checksum of the capture.
struct Row {
    seed: u32,
    n: u32,
    summary: &'static str,
    len: usize,
    sum: u128,
}

const ROWS: [Row; 12] = [
    Row {
        seed: 0,
        n: 1,
        summary: "ops=1 skipped=0\nsent=0 moved=0 refused=1\nslack=none\n",
        len: 102,
        sum: 0x24D17DAC_130CE6FF_A4E05657_677A20B0,
    },
    Row {
        seed: 4_294_967_295,
        n: 1,
        summary: "ops=1 skipped=0\nsent=0 moved=0 refused=0\nslack=none\n",
        len: 17,
        sum: 0xFEF6E7EB_9EA92082_63E96885_86CEAA60,
    },
    Row {
        seed: 1,
        n: 2,
        summary: "ops=2 skipped=0\nsent=1 moved=0 refused=0\nslack=none\n",
        len: 30,
        sum: 0xECC85CBC_B2079876_CCE32CA3_63236254,
    },
    Row {
        seed: 0,
        n: 1_000,
        summary: "ops=1000 skipped=7\nsent=120 moved=3 refused=255\nslack=1\n",
        len: 24_523,
        sum: 0xDB563622_090495DE_4FE5CF20_DB15BF51,
    },
    Row {
        seed: 1,
        n: 1_000,
        summary: "ops=1000 skipped=1\nsent=129 moved=4 refused=217\nslack=1\n",
        len: 21_331,
        sum: 0x07D20407_3FF582B7_A9B8F2A2_601CF09F,
    },
    Row {
        seed: 2,
        n: 5_000,
        summary: "ops=5000 skipped=11\nsent=621 moved=7 refused=1163\nslack=1\n",
        len: 112_120,
        sum: 0x683B73B8_6F89A793_4B7AC8EF_F5ECA977,
    },
    Row {
        seed: 3,
        n: 400,
        summary: "ops=400 skipped=7\nsent=52 moved=1 refused=91\nslack=1\n",
        len: 8_954,
        sum: 0x4903A721_8CE68669_0E7B4C8D_EAE601B8,
    },
    Row {
        seed: 1_103,
        n: 2_000,
        summary: "ops=2000 skipped=5\nsent=233 moved=8 refused=462\nslack=1\n",
        len: 44_905,
        sum: 0x2E084AEC_B0C6F66A_F37CBF9E_93F1D6EC,
    },
    Row {
        seed: 65_535,
        n: 300,
        summary: "ops=300 skipped=12\nsent=33 moved=0 refused=82\nslack=none\n",
        len: 7_800,
        sum: 0x9264D828_3F22DCB3_31F9B98B_9D632CDA,
    },
    Row {
        seed: 4_294_967_295,
        n: 1_000,
        summary: "ops=1000 skipped=6\nsent=128 moved=2 refused=224\nslack=1\n",
        len: 21_774,
        sum: 0xE4955AAB_B480F364_EDAF18A7_D46E0A7C,
    },
    Row {
        seed: 2_147_483_648,
        n: 1_500,
        summary: "ops=1500 skipped=7\nsent=178 moved=1 refused=386\nslack=1\n",
        len: 36_705,
        sum: 0x15C9D38D_16317E90_3BD1C63A_8DB0F75F,
    },
    Row {
        seed: 20_200_101,
        n: 3_000,
        summary: "ops=3000 skipped=8\nsent=376 moved=7 refused=676\nslack=1\n",
        len: 66_089,
        sum: 0x4AC0C0AA_A66F2128_DBF8748B_A123B5A6,
    },
];

/// What a run wrote.
#[derive(Drop)]
struct Ran {
    end: SimEnd,
    out: ScriptSink,
    capture: ScriptSink,
}

/// Runs a seed over sinks of which the writes with these numbers fail.
fn run_over(
    alloc: Global,
    seed: u32,
    n: u32,
    out_fails: Vec<u64>,
    capture_fails: Vec<u64>,
) -> Result<Ran, Fail> {
    let mut out = ScriptSink::new(alloc, out_fails, 200)?;
    let mut capture = ScriptSink::new(alloc, capture_fails, 10_000_000)?;
    let end = simulate(alloc, seed, n, &mut out, &mut capture);
    Ok(Ran { end, out, capture })
}

fn run(alloc: Global, seed: u32, n: u32) -> Result<Ran, Fail> {
    run_over(alloc, seed, n, Vec::new(alloc), Vec::new(alloc))
}

fn sum_of(bytes: &[u8]) -> u128 {
    let mut hasher = Md5::new();
    hasher.update(bytes);
    u128::from_be_bytes(hasher.finalize())
}

#[test]
fn seeds(rt: HostRuntime) -> Result<(), Fail> {
    for row in &ROWS {
        let seed = row.seed;
        let ran = run(rt.alloc(), seed, row.n)?;
        assert_eq!(rt; ran.end, SimEnd::Done, "seed {seed}");
        assert_eq!(rt; ran.out.bytes(), row.summary.as_bytes(), "seed {seed}");
        assert_eq!(rt; ran.capture.bytes().len(), row.len, "seed {seed}");
        assert_eq!(rt; sum_of(ran.capture.bytes()), row.sum, "seed {seed}");
    }
    Ok(())
}

/// The first two operations of the seed 1: the first Life, and a Tick that sends.
const ONE_TWO: &[u8] = b"\x01W32T\x01\xD5\xC0\x36\x69\x05\x00\x00\x00\x00\x00\x00\
\x02\x01\xD5\xC0\x36\x69\x05\x00\x00\x5E\x88\x81\x16";

const SUMMARY: &[u8] = b"ops=2 skipped=0\nsent=1 moved=0 refused=0\nslack=none\n";

#[test]
fn simulate_one_two(rt: HostRuntime) -> Result<(), Fail> {
    let ran = run(rt.alloc(), 1, 2)?;
    assert_eq!(rt; ran.end, SimEnd::Done);
    assert_eq!(rt; ran.out.bytes(), SUMMARY);
    assert_eq!(rt; ran.capture.bytes(), ONE_TWO);
    Ok(())
}

/// Two writes to the capture, and then three of the summary: each fails in its turn, and what was written before it stays.
#[test]
fn each_write_fails(rt: HostRuntime) -> Result<(), Fail> {
    let alloc = rt.alloc();
    for (call, captured) in [(1, 0), (2, 17)] {
        let mut fails = Vec::new(alloc);
        fails.push(call)?;
        let ran = run_over(alloc, 1, 2, Vec::new(alloc), fails)?;
        assert_eq!(rt; ran.end, SimEnd::WriteFault, "record {call}");
        assert_eq!(rt; ran.capture.bytes(), &ONE_TWO[..captured], "record {call}");
        assert!(rt; ran.out.bytes().is_empty(), "record {call}");
    }
    for (call, printed) in [(1, 0), (2, 16), (3, 41)] {
        let mut fails = Vec::new(alloc);
        fails.push(call)?;
        let ran = run_over(alloc, 1, 2, fails, Vec::new(alloc))?;
        assert_eq!(rt; ran.end, SimEnd::WriteFault, "line {call}");
        assert_eq!(rt; ran.capture.bytes(), ONE_TWO, "line {call}");
        assert_eq!(rt; ran.out.bytes(), &SUMMARY[..printed], "line {call}");
    }
    Ok(())
}

/// A member as the world's: the same account, limits and partner.
fn conf(alloc: Global) -> Result<Conf, Fail> {
    let partner = Addr {
        ip: 0x0A00_0001,
        port: 123,
    };
    Ok(Conf {
        kind: Kind::Short,
        account: Account {
            rid: 1103,
            current: [0, 1, 2, 3, 4, 5, 6, 7, 8, 9, 10, 11, 12, 13, 14, 15],
            previous: None,
        },
        limits: Limits {
            max_pos: 172_800,
            max_neg: 172_800,
            max_allowed: 300,
            min_poll: 0,
            max_poll: 4,
        },
        partners: Partners::new([partner].to_vec(alloc)?),
    })
}

/// A replay of the capture counts what the summary counts.
#[test]
fn replays_alike(rt: HostRuntime) -> Result<(), Fail> {
    let alloc = rt.alloc();
    for (seed, n, sent, moved, refused) in [
        (1u32, 2u32, 1u32, 0u64, 0u64),
        (0, 1_000, 120, 3, 255),
        (4_294_967_295, 1_000, 128, 2, 224),
    ] {
        let ran = run(alloc, seed, n)?;
        let mut source = ScriptSource::new(
            alloc,
            ran.capture.bytes().to_vec(alloc)?,
            Vec::new(alloc),
            Vec::new(alloc),
            0,
        )?;
        let mut sink = ScriptSink::new(alloc, Vec::new(alloc), 100_000)?;
        let end = replay(conf(alloc)?, &mut source, &mut sink);
        let why = ReplayWhy::Done;
        let want = ReplayEnd {
            sent,
            moved,
            refused,
            why,
        };
        assert_eq!(rt; end, want, "seed {seed}");
    }
    Ok(())
}
