//! The program `bench_digests`: it signs one message many times over, and prints what is left.
//!
//! `bench_digests short 1000` and `bench_digests extended 1000` sign the sample request of a member so often. The first key
//! is 16 zero bytes, and each later one the first 16 bytes of the checksum before it, so no signature can be left out.
//! The last of them is printed, and `bench/digests.sh` takes the time. It stands on `ms_auth`, whose contracts say what a
//! checksum is; nothing more is promised here.
#![tactic(auto)]

use ms_auth::{Kind, Tail, request, sign};
use ntp_wire::Stamp;
use std::process::ExitCode;
use std::{env, io};

/// Bytes in a key.
const KEY_LEN: usize = 16;

/// The RID of the sample request.
const RID: u32 = 1103;

/// Its poll exponent.
const POLL: u8 = 10;

/// Its transmit timestamp.
const STAMP: Stamp = Stamp {
    seconds: 1,
    fraction: 7,
};

/// Ends with 1 where the words could not be had, or the result not be printed.
fn main(rt: HostRuntime) -> ExitCode {
    match run(&rt) {
        Ok(()) => ExitCode::from(0),
        Err(_) => ExitCode::from(1),
    }
}

/// Reads the kind and the count, signs, and prints.
fn run(rt: &HostRuntime) -> io::Result<()> {
    let mut words = env::args(rt)?.skip(1);
    let kind = match words.next() {
        Some(word) if word.as_str() == "extended" => Kind::Extended,
        _ => Kind::Short,
    };
    let count = match words.next() {
        Some(word) => word.parse().unwrap_or(1),
        None => 1,
    };
    println!(rt; "{:032x}", u128::from_be_bytes(signed_often(kind, count)))
}

/// The first bytes of the last of so many checksums.
fn signed_often(kind: Kind, count: u32) -> [u8; KEY_LEN] {
    let unsigned = request(kind, RID, POLL, STAMP);
    let mut key = [0; KEY_LEN];
    for _ in 0..count {
        key = next_key(&sign(&unsigned, &key).tail);
    }
    key
}

/// The first bytes of the checksum of a tail.
fn next_key(tail: &Tail) -> [u8; KEY_LEN] {
    let mut key = [0; KEY_LEN];
    match tail {
        Tail::Plain => {}
        Tail::Short68 { sum, .. } => key = *sum,
        Tail::Ext120 { sum, .. } => key.copy_from_slice(&sum[..KEY_LEN]),
    }
    key
}
