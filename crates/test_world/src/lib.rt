//! Whole runs of the simulated world, against another program's answers. Tests alone: nothing here is shipped.
//!
//! `simulated.rt` runs `simulate` from seeds. The summaries and the checksums of the captures come from a program in
//! Python that was written from the rules of the world, and from nothing here. A replay of a capture counts the same.
//! `attacks.rt` steps a world through scripts that attack, and has the least slack of each.
//!
//! It stands on `sntp_world` and `replay_run`, and on the objects in memory of `edge_io`.
#![tactic(auto)]

#[cfg(test)]
mod attacks;
#[cfg(test)]
mod simulated;
