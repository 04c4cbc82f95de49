//! Runs the simulated world from a seed, so that `bench/simulate.sh` can measure what an operation costs.
//!
//! The words are the seed and the number of operations; without words the seed 1 makes two. The program prints the summary
//! of the run, and how many bytes its capture has. It stands on `sntp_world`, whose contract says what is written; nothing
//! more is promised here.
#![tactic(auto)]

mod tally;

use anyhow::Context;
use sntp_world::{SimEnd, simulate};
use std::env;
use tally::Tally;

/// Runs the operations that the words name, and prints the summary.
fn main(rt: HostRuntime) -> anyhow::Result<()> {
    let mut words = env::args(&rt)?.skip(1);
    let seed: u32 = match words.next() {
        Some(seed) => seed.parse()?,
        None => 1,
    };
    let n: u32 = match words.next() {
        Some(n) => n.parse()?,
        None => 2,
    };
    let mut out = Tally::new();
    let mut capture = Tally::new();
    let end = simulate(rt.alloc(), seed, n, &mut out, &mut capture);
    let text = match end {
        SimEnd::Done => str::from_utf8(out.front()).ok(),
        SimEnd::WriteFault | SimEnd::NoMemory => None,
    };
    let text = text.context("the run ended early")?;
    println!(rt; "{text}capture={}", capture.len())?;
    Ok(())
}
