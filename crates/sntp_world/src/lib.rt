//! A member of a domain, its controller, two clocks and a hostile net, as a program without devices.
//!
//! A [`World`] is moved by operations: time passes on both clocks, which run unevenly; the member polls or restarts; a
//! packet is delivered, again or late or never; strangers ask the controller and send packets of their own to the member.
//! [`World::step`] carries an operation out and answers what came of it, and [`World::slack`] says how far the worst
//! correction so far stayed within its bound. [`script`] makes a list of operations from a seed, and [`simulate`] runs
//! it, writes the member's events as a capture, and a summary. All of this is this project's own.
//!
//! It stands on `sntp_core`, which is the member, on `dc_sign`, which answers for the controller, and on `capture_fmt`,
//! whose records the events are written in. A world keeps all packets that were sent, and takes memory for each.
//!
//! The files: `op.rt` (operations, effects, and lists of operations), `setting.rt` (the account and the limits),
//! `moment.rt` (the two clocks), `packet.rt`, `world.rt` (what a world keeps), `due.rt` (what an operation comes to),
//! `stepping.rt` (how it is carried out), `correction.rt` (the bound of a correction), `draws.rt` (the list from a seed),
//! `totals.rt` (the summary), `run.rt`, and `laws.rt`. [`laws_of_worlds`] says: the history grows, both clocks are readings,
//! each packet was sent at readings, and an open request has its packet; no timestamp is sent twice, each signed reply was made
//! by the controller, no clock is corrected while a request is open, and each correction is within its bound.
//!
//! The bound: a correction errs by at most half the delay of its reply, what the clocks ran unevenly between sending and
//! arrival, and half a tick. It holds where the clocks are within 68 years of each other, whatever strangers and the net do,
//! and of each script without a premise. That nothing is forged and no timestamp guessed is part of the operations.
//!
//! The definitions, in the order to read them: `specs/Setting.antt`, `State.antt` (what the world is made of), `Steps.antt`
//! (what each operation does), `Standing.antt` (what a world keeps of it), `Draws.antt` (the script), `Summary.antt` and
//! `Simulation.antt` (what a run writes). `Laws.antt` says what holds of each world, and `Accuracy.antt` what the bound is and
//! what it rests on. `Due.antt` and `Running.antt` belong to the private part.
#![tactic(auto)]

mod correction;
mod draws;
mod due;
mod laws;
mod moment;
mod op;
mod packet;
mod run;
mod setting;
mod stepping;
#[cfg(test)]
mod tests;
mod totals;
mod world;

pub use draws::script;
pub use laws::laws_of_worlds;
pub use op::{Effect, NoMemory, Op, Script};
pub use run::{SimEnd, simulate};
pub use world::World;
