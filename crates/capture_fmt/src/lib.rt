//! A run's events as bytes, so that the run can be judged again later.
//!
//! A capture, a format of this project's own, is the records of its events, joined, without a header: two captures, joined,
//! are a capture. Numbers are most significant byte first. `write_event` adds the record of one event to a sink, and
//! `EventReader` takes the bytes of a source, however the source cuts them, and gives the events one by one or names the
//! first fault and its place. No memory is taken.
//!
//! It stands on the device traits (`edge_traits`) and on the parts that codecs share (`byte_codec`). The layer above may
//! rely on the clauses of these calls, of which `run` speaks of all that a reader has read so far, and on the laws of
//! `laws_of_captures`: bytes spell one history at most, and have one first fault at most.
//!
//! The definitions: `specs/Event.antt` says which events have a record, `specs/Record.antt` what a record is and what is
//! wrong with one, `specs/Capture.antt` what a history's bytes are and where the first fault is, and `specs/Reader.antt`
//! what a reader keeps and does. `specs/Gather.antt` belongs to the private part.
#![tactic(auto)]

mod buffer;
mod decode;
mod event;
mod fault;
mod gather;
mod laws;
mod reader;
mod record;
mod write;

pub use event::Event;
pub use fault::CaptureFault;
pub use laws::laws_of_captures;
pub use reader::EventReader;
use record::{ARRIVE, LIFE, MAGIC, RECORD_LEN, RESYNC, TICK};
pub use write::write_event;
