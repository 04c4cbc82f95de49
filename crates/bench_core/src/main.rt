//! Steps a member through a long history, again and again, so that `bench/core.sh` can measure what an event costs.
//!
//! The words are what to do and how often: `ticks` (requests alone), `short` and `extended` (each request is answered by a
//! reply that is accepted), `stray` (each reply answers no request), `forged` (each reply has another checksum), `md5`,
//! `hmac` and `derived` (the digests of as many replies alone, the last one with its key derived anew for each). One round
//! is 4,000 requests. The program prints what came of it.
#![tactic(auto)]

mod replies;
mod work;

use anyhow::Context;
use std::env;
use work::{Work, done};

/// Does the work that the words name, and prints what came of it.
fn main(rt: HostRuntime) -> anyhow::Result<()> {
    let mut words = env::args(&rt)?.skip(1);
    let name = words.next().context("ticks, short, extended, stray, forged, md5, hmac or derived")?;
    let rounds: u32 = words.next().context("how often")?.parse()?;
    let work = Work::named(name.as_str()).context(
        "ticks, short, extended, stray, forged, md5, hmac or derived",
    )?;
    let counts = done(rt.alloc(), work, rounds)?;
    println!(rt;
        "sent={} moved={} refused={}",
        counts.sent, counts.moved, counts.refused
    )?;
    Ok(())
}
