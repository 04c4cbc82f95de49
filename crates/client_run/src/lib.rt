//! The client of a remote computer's time service: one session, one call.
//!
//! [`ask`] asks a wire for one session, binds to the time service, and makes the one call; what came of it is the answer, or
//! one of three faults. No memory is taken.
//!
//! It stands on the client's side of `w32t_calls`, on the PDUs of `rpc_pdu`, and on the wire of `edge_traits`. The layer above
//! may rely on `AsksOnce` in `specs/Asking.antt`: the bytes of the session decide the answer, which of them were taken, and
//! what was written to it; and after a failed read or write it says how far that was done.
#![tactic(auto)]

mod asking;
mod laws;

pub use asking::{AskFault, ask};
pub use laws::laws_of_asking;
pub use w32t_calls::{Call, Given};
