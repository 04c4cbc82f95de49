//! Wires in memory as tables, and wires over TCP. Tests alone: nothing here is shipped.
//!
//! - `wires.rt`: wires in memory with their sessions.
//! - `network.rt`: a network in memory, and `calls.rt`: what a wire over TCP asks of it.
//! - `sockets.rt`: wires of the machine, on loopback.
//!
//! It stands on `edge_io`. What only `edge_io` itself can see is tested there.
#![tactic(auto)]

#[cfg(test)]
mod calls;
#[cfg(test)]
mod network;
#[cfg(test)]
mod sockets;
#[cfg(test)]
mod wires;
