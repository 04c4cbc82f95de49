//! What a member of a domain does with whatever happens to it, as a function of its whole history.
//!
//! An event of `capture_fmt` is a Life (a run began, which sends the counts above a mark), a Tick (a turn began), a
//! Resync (a request was asked for) or an Arrive (a datagram came). `specs/` says what each event of a history leads
//! to: nothing, a request to the present partner, a correction of the clock by a reply, or a refusal for the first
//! reason that applies. There is no member here. Of code there are types (settings, [`Conf`] and [`Partners`], and
//! outcomes), the laws, and what members and `/monitor` both compute of a reply, in `times.rt` and `sender.rt`.
//!
//! It stands on `ms_auth` and `ntp_wire` for messages, on `key_book` for accounts, on `phase_rule` for limits and on
//! `capture_fmt` for events. The layer above may rely on [`laws_of_histories`]: counts rise, no two replies are accepted
//! for one request, a reply to a request of an earlier life is refused, at most eight requests are open, and one history
//! may come after another. A reader who doubts a definition reads [`laws_of_positions`] beside it, which says the same of
//! places in a history.
//!
//! The definitions, in the order to read them: `specs/Events.antt` (what happens), `Told.antt` (what came of it),
//! `Words.antt` (what stands at the end of a history), `Verdict.antt` (the reasons), `Machine.antt` (what an event
//! leads to, and what a history sends and moves), `Report.antt` (its lines), `Growing.antt` (which events may follow
//! one another), `Laws.antt` and `Positions.antt`. `Entries.antt` has words on lists, `Kept.antt` what a member keeps of
//! the words, and `After.antt` what one event changes.
#![tactic(auto)]

mod conf;
mod laws;
mod outcome;
mod partners;
mod sender;
mod times;

pub use conf::Conf;
pub use laws::{laws_of_histories, laws_of_positions};
pub use outcome::{How, Outcome, Reason, Request};
pub use partners::Partners;
pub use sender::{is_bad_mode, is_bad_stratum, is_same_addr};
pub use times::{delay_of, has_bad_times, offset_of};
