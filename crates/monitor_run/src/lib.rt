//! How far the clocks of a directory's computers are.
//!
//! [`monitor`] asks each computer of a directory with a plain request, the own one too, and writes a line of what came
//! back, and at the end how many were asked and how many answered. It takes no memory.
//!
//! The crate stands on `partner_pick`, which keeps the directory, on `ntp_wire` and `ms_auth` for the bytes, on
//! `time_machine` for what a member says of the four times and of a sender, on `line_text` for the lines, and on the
//! traits of `edge_traits`, with `edge_seen` for what these tell. The layer above may rely on `Monitors` in
//! `specs/Monitoring.antt`, which says of each end of a run what link, clock, entropy and sink gave and took.
//!
//! `specs/Finding.antt` has the words in their order, each by the answer's bytes, `specs/Request.antt` the request,
//! `specs/Lines.antt` the lines, `specs/Asking.antt` what is done for one computer, and `specs/Ending.antt` how a run
//! ends. `specs/Progress.antt` belongs to the private part. Its tests are runs, `monitors.rt` of `sntp_vectors`.
#![tactic(auto)]

mod asking;
mod finding;
mod judging;
mod line;
mod request;
mod run;
mod why;

pub use partner_pick::{Directory, Entry};
pub use run::monitor;
pub use why::MonitorWhy;
