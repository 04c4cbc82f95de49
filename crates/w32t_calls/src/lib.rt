//! The three remote calls of the time service (MS-W32T over C706), both sides of a session: synchronize, the bits by which a
//! computer announces itself, and the source of its time.
//!
//! A [`Session`] is the server's side. `next` answers PDUs until one of them asks for a call, and hands it out; `reply` writes
//! its response. A [`Caller`] is the client's side: it binds, and then each call writes a request and takes one PDU as the
//! reply. [`service_bits`] is what a computer answers to the second call. No memory is taken.
//!
//! It stands on the PDUs of `rpc_pdu`, on `byte_codec` and `arrayvec`, and on the names and roles of `partner_pick`. The layer
//! above may rely on this: the bytes taken of a session and the answers given decide what is written, in whatever pieces the
//! bytes come (`run` of `next` and of `reply`); the bytes left decide the answer of each call (`told`); a failed read or
//! write ends the session, and nothing more is asked of it.
//!
//! The definitions: `specs/Serving.antt` cuts the bytes of a session into PDUs and answers them, `specs/Answers.antt` says what a
//! PDU leads to, `specs/Contexts.antt` what a bind offers, `specs/Stubs.antt` how calls and answers are written;
//! `specs/Asking.antt` is what a client writes, and `specs/Replies.antt` what it makes of the reply. `specs/Standing.antt` and
//! `specs/Calling.antt` say what each side keeps and does, `specs/Steps.antt` what one PDU does, and `specs/Bits.antt` the bits.
#![tactic(auto)]

mod accepted;
mod answers;
mod asked;
mod asking;
mod bits;
mod call;
mod call_fault;
mod caller;
mod end;
mod laws;
mod pdus;
mod places;
mod reaction;
mod replies;
mod session;
mod source;
mod stubs;

pub use bits::service_bits;
pub use call::{Call, Given};
pub use call_fault::CallFault;
pub use caller::Caller;
pub use end::SessionEnd;
pub use laws::laws_of_stubs;
pub use session::Session;
