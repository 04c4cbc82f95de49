//! The outside as the work sees it: the traits of its devices, what they give, and addresses and datagrams.
//!
//! - `Source` is read and `Sink` is written, byte by byte; `fill_front` reads a source to its end, or until a buffer is
//!   full.
//! - `Link` sends and receives datagrams; `Wire` opens sessions, one after the other, that are read and written.
//! - `Clock` is read, stepped and slewed; `Entropy` gives random words.
//!
//! Each trait has a count of the calls that failed (`Wire` has two: one for requests and reads, and one for writes):
//! a call answers Failed exactly where its count rose, and no count falls. Its other ghost member is what the device
//! tells of what it gave and took; a link and a clock tell their calls in one list, so that their order is told. An object
//! in memory tells it. A real file, socket or clock tells nothing, and the contracts above speak of it in the same words.
//!
//! It stands on `base_specs` for what an object tells, and on `arrayvec` for the bytes of a datagram. The layer above may
//! rely on the clauses of the traits alone. The objects in memory and the devices of the machine are those of `edge_io`.
//! The definitions stand in `specs/`, a file a trait, and `Fill.antt` for `fill_front`; `proofs/` carries them over several
//! calls.
#![tactic(auto)]

mod clock;
mod datagram;
mod entropy;
mod fill;
mod link;
mod sink;
mod source;
mod wire;

pub use clock::{Clock, Move, Reading};
pub use datagram::{Addr, DATAGRAM_LEN, Datagram};
pub use entropy::{Drawn, Entropy};
pub use fill::{Filled, fill_front};
pub use link::{Link, Receipt, Tried};
pub use sink::{Put, Sink};
pub use source::{Source, Take};
pub use wire::{Opened, Wire};
