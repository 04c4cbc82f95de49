//! A member whose clock is off and drifts, and a controller that answers by the true time, in a closed loop. Tests alone:
//! nothing here is shipped.
//!
//! The member is the whole one: a `Running` of `member_run`, started and taken turn by turn. Its clock is the one that is
//! shipped, `RealClock` with its corrections. What is simulated is the machine below it: what the machine's clock reads is
//! the true time with an offset and a drift. A request is answered by `answer` of `dc_sign`, and both ways take the same
//! time. The link only carries datagrams and lets that time pass; the random words are counted; the lines and the records are
//! kept by nobody.
//!
//! `world.rt` has the true time and the devices over it; `settling.rt` has tables of machines, each with the errors of its
//! clock over 3,000 turns. What is expected was worked out by hand from the rate of a slew, the drift, and the interval
//! between two requests.
//!
//! It stands on `member_run`, `dc_sign`, and the devices of `edge_io` and `slot_disk`.
#![tactic(auto)]

#[cfg(test)]
mod settling;
#[cfg(test)]
mod world;
