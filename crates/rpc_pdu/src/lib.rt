//! PDUs of connection-oriented remote procedure calls (C706, chapter 12), read from a session and written to it.
//!
//! `PduReader` takes the bytes of a session, however the wire cuts them, and gives the PDUs one by one, or names the
//! first fault and its place. It takes the 16 bytes of a header, judges them, and only then takes the rest: never a
//! byte behind the PDU. `read_bind` reads what a bind offers, and `write_pdu` writes a PDU in one write. No memory is
//! taken.
//!
//! It stands on the device traits (`edge_traits`) with the words of `base_specs`, on the parts that codecs share
//! (`byte_codec`) and on `arrayvec`. The layer above may rely on the clauses of these calls, of which `told` says the
//! answer by the bytes left of the session and `run` speaks of all that was read of it, and on the laws of
//! `laws_of_pdus`: bytes are cut in one way, as PDUs or up to a first fault.
//!
//! The definitions: `specs/Header.antt` says what is wrong with a header, `specs/Bind.antt` what a bind offers,
//! `specs/Pdu.antt` which PDU stands first in bytes, `specs/Stream.antt` into which PDUs bytes are cut,
//! `specs/Reader.antt` what a reader keeps and does, and `specs/Fill.antt` what is taken of a wire, and that no session
//! is opened.
#![tactic(auto)]

mod bind;
mod body;
mod fault;
mod fill;
mod header;
mod laws;
mod pdu;
mod reader;
#[cfg(test)]
mod tests;
mod write;

pub use bind::{Bind, Context, ContextList, INTERFACE, NDR, read_bind};
pub use body::BodyBytes;
pub use fault::PduFault;
pub use laws::laws_of_pdus;
pub use pdu::{BIND, BIND_ACK, BIND_NAK, FAULT, OBJECT, Pdu, REQUEST, RESPONSE, WHOLE};
pub use reader::PduReader;
pub use write::write_pdu;
