//! The devices behind the traits of `edge_traits`: objects in memory, and the devices of the machine.
//!
//! It stands on `edge_traits`, on the counts of `base_specs` and on the codecs of `byte_codec`. The layers that only speak of devices stand on
//! `edge_traits` alone. Those that make devices, as main and the tests, stand on this crate too; it hands on the traits
//! and their answers.
//!
//! An object in memory (`ScriptSource`, `ScriptSink`, `ScriptLink`, `ScriptClock`, `ScriptEntropy`, `ScriptWire`) is
//! seen as the record of what it will do: what it has to give, its room, which of its calls fail, how many were made,
//! and its count of faults. Beside the clauses of its trait each call says its answer and the next record by these,
//! and leaves nothing open. A call that fails uses nothing up. A link and a clock keep their calls in one list, a
//! `LinkEntry` or `ClockEntry` each, so that their order is told. The memory of the lists is taken when the object is
//! made.
//!
//! An adapter (`ReaderSource`, `WriterSink`, `FileSink`, `RealClock`, `SampleClock`, `UdpLink`, `TcpWire`, `RandomFile`)
//! tells nothing, and says what it makes of what the reader, the writer or the machine's clock gave. What these give is
//! trusted, and what a socket gives and takes. `file_source` and `random_file` open files. A `FileSink` opens its file with
//! the first piece, so a file to which nothing is written stays as it was. What can't be opened is a `ClosedSource`, a
//! `FileSink` without a file, a link or a wire without a socket or words without a file: each call fails that can. `NullSink`
//! takes all and keeps nothing.
//!
//! A `RealClock` makes its corrections itself and leaves the machine's clock as it is; a `SampleClock` reads the machine's
//! clock and hands each correction to chronyd, as a sample.
//!
//! `laws_of_corrections`: a `RealClock` that is slewed by its offset never goes away from an even reference, and comes to
//! it.
//!
//! The definitions stand in `specs/`: a file of its own for each object, `Calls`, `Pieces`, `Writes` and `SessionScript`
//! for their parts, `Held`, `LateFile`, `CorrectedClock`, `Correction`, `Servo`, `Sample`, `Scaling`,
//! `SampleClock` and `TcpWire` for the adapters. Those of the traits are handed on.
#![tactic(auto)]

mod calls;
mod clock;
mod closed;
mod correction;
mod entropy;
mod file_sink;
mod laws;
mod link;
mod pieces;
mod random;
mod reader;
mod real_clock;
mod sample;
mod sample_clock;
mod session;
mod sink;
mod source;
mod tcp_wire;
mod udp_link;
mod wire;
mod writer;
mod writes;

pub use clock::{ClockEntry, ScriptClock};
pub use closed::ClosedSource;
pub use edge_traits::{
    Addr, Clock, DATAGRAM_LEN, Datagram, Drawn, Entropy, Filled, Link, Move, Opened, Put, Reading,
    Receipt, Sink, Source, Take, Tried, Wire, fill_front,
};
pub use entropy::ScriptEntropy;
pub use file_sink::FileSink;
pub use laws::laws_of_corrections;
pub use link::{LinkEntry, ScriptLink};
pub use random::{RandomFile, random_file};
pub use reader::{ReaderSource, file_source};
pub use real_clock::RealClock;
pub use sample_clock::SampleClock;
pub use sink::{NullSink, ScriptSink};
pub use source::ScriptSource;
pub use tcp_wire::TcpWire;
pub use udp_link::UdpLink;
pub use wire::ScriptWire;
pub use writer::WriterSink;

/// There was no memory.
#[derive(Clone, Copy, Debug, PartialEq, Eq)]
pub struct NoMemory;
