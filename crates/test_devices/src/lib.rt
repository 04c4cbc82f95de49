//! The objects in memory of `edge_io` as tables, and its adapters over readers and writers. Tests alone: nothing here is
//! shipped.
//!
//! - `streams.rt`: sources and sinks, with their failing calls.
//! - `clocks.rt`: clocks, and random words.
//! - `links.rt`: links, and what they tell.
//! - `peers.rt`: readers and writers that signals cut short, and that break.
//! - `datagrams.rt`: links of the machine, on loopback.
//! - `machine.rt`: its files, random words and clocks.
//!
//! It stands on `edge_io`, and on `base_specs` for readings. What only `edge_io` itself can see is tested there.
#![tactic(auto)]

#[cfg(test)]
mod clocks;
#[cfg(test)]
mod datagrams;
#[cfg(test)]
mod links;
#[cfg(test)]
mod machine;
#[cfg(test)]
mod peers;
#[cfg(test)]
mod streams;
