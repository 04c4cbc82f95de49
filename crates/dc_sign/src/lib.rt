//! What a controller of a domain answers to requests for the time.
//!
//! [`answer`] takes the accounts, the bytes of a request and two readings of the clock, and gives the plain or signed
//! reply, or the reason why there is none. It takes no memory and asks no device. [`serve`] answers the requests that
//! come over a link, a receipt a turn, and counts what came of them.
//!
//! The crate stands on `ms_auth`, which reads, signs and writes messages, on `ntp_wire` for headers and timestamps, on
//! `key_book`, which finds the account, and on the traits `Link` and `Clock` of `edge_traits`, with `edge_seen` for
//! what these tell. The layer above may rely on `Answers` in `specs/Reply.antt`: `refusal_of` is the first refusal that
//! applies to the bytes, and where there is none `IsReplyOf` says which bytes are the reply, and no others are; both
//! speak of the request's bytes by their places. And on `Serves` in `specs/Serving.antt`, which says of a whole run
//! what link and clock gave and took; `specs/Numbers.antt` has what is counted. `specs/Asked.antt` has the key that a
//! request asks for, and `specs/Info.antt` what a controller says of its own clock. `proofs/Uniqueness.antt` shows that
//! an answer is the only one, and `proofs/Replies.antt` that bytes behind the 120th refuse a request and that a reply
//! is as long as its request. The other definitions in `specs/` belong to the private part.
#![tactic(auto)]

mod info;
mod keys;
mod outcome;
mod readings;
mod reply;
mod run;
mod tally;
#[cfg(test)]
mod tests;

pub use info::ServerInfo;
pub use outcome::{Answer, Refusal};
pub use readings::two_readings;
pub use reply::answer;
pub use run::serve;
pub use tally::{ServeEnd, ServeWhy};
