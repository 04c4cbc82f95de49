//! Takes sessions of remote calls from memory, again and again, so that `bench/calls.sh` can measure what a PDU costs.
//!
//! The words are what to do and with how many sessions: `wires` (each is made and opened, and no more), `reads` (its PDUs are
//! read by `PduReader` alone) and `serves` (`Session` answers it, and each call gets its reply). Without words it serves one.
//! A session is a bind and 9,000 requests. The program prints what came of it. It stands on `rpc_pdu` and `w32t_calls`,
//! whose contracts say what is read and answered; nothing more is promised here.
#![tactic(auto)]

mod session;
mod work;

use anyhow::Context;
use std::env;
use work::{Work, done};

/// Does the work that the words name, and prints what came of it.
fn main(rt: HostRuntime) -> anyhow::Result<()> {
    let mut words = env::args(&rt)?.skip(1);
    let work = match words.next() {
        Some(name) => Work::named(name.as_str()).context("wires, reads or serves")?,
        None => Work::Serves,
    };
    let sessions: u32 = match words.next() {
        Some(count) => count.parse()?,
        None => 1,
    };
    let counts = done(rt.alloc(), work, sessions)?;
    println!(rt;
        "sessions={} pdus={} calls={} written={}",
        counts.sessions, counts.pdus, counts.calls, counts.written
    )?;
    Ok(())
}
