//! A run of the time service: a member whose requests are asked for over the network.
//!
//! [`serve_sessions`] is a whole run. It loads the keeper and takes the Life, and then opens one session of the wire after the
//! other. Each call that asks for a request is a request of the member with its round of receipts; the other two calls are
//! answered from the settings and from the member. A session's failed read or write ends that session alone. No call takes
//! memory.
//!
//! It stands on `member_run` for the member's run, on `w32t_calls` for the server's side of a session, on `w32t_settings` and
//! `partner_pick` for what the service tells of itself, on `w32tm_text` for statuses, on `line_text` for lines and on
//! `edge_traits` for devices. The layer above may rely on `Serves` of `specs/Serving.antt`: what the member did is the time
//! machine's over the events of the calls, each session was answered as its bytes ask, and each status has its cause.
//!
//! The definitions, in the order to read them: `specs/Profile.antt` (what a service tells of itself), `Answering.antt` (what a
//! call is answered), `Sessions.antt` (the sessions of a run, and how they ended), `One.antt` (what is done for one of them) and
//! `Serving.antt` (the whole run).
//!
//! The files, in the order of a run: `serving.rt` (the whole), `session.rt` (one session), `answers.rt` (one call), `lines.rt`
//! (the line of a session).
#![tactic(auto)]

mod answers;
mod lines;
mod serving;
mod session;

pub use serving::serve_sessions;
