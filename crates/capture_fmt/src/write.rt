//! Writing records.
ghost use Rattle.std.specs.Prelude.{◌≡◌, ◌<◌};
ghost use Rattle.arrayvec.specs.ArrayVec.{array_vec_len};
ghost use Rattle.edge_traits.specs.Sink.{PutCounts, Writes};
ghost use Rattle.capture_fmt.specs.Event.{EventFits};
ghost use Rattle.capture_fmt.specs.Record.{event_bytes};

use crate::{ARRIVE, Event, LIFE, MAGIC, RECORD_LEN, RESYNC, TICK};
use arrayvec::ArrayVec;
use byte_codec::{add, add_u16, add_u32, add_u64};
use edge_traits::{Put, Sink};

/// Writes the record of an event, in one write. The event's moment has to be a reading.
///
/// Where the write fails, a front of the record may have been written.
pub fn write_event<O: Sink>(event: &Event, sink: &mut O) -> Put
    requires { EventFits event.now }
    ensures bytes { Writes result (event_bytes event.now) (O.written sink.old) (O.written sink.new) }
    ensures cause { PutCounts result (O.faults sink.old) (O.faults sink.new) }
{
    let bytes = record_of(event);
    sink.write(bytes.as_slice())
}

/// The record of an event.
#[tactic(auto, unfolding(crate::specs::Record::event_bytes))]
fn record_of(event: &Event) -> ArrayVec<u8, RECORD_LEN>
    requires { EventFits event.now }
    ensures bytes { result.items ≡ event_bytes event.now }
    ensures begun { 0 < array_vec_len result }
{
    let mut out = ArrayVec::new();
    match event {
        Event::Life { now, mark } => {
            out.push(LIFE);
            add_u32(&mut out, MAGIC);
            add_u64(&mut out, now.unsigned_abs());
            add_u32(&mut out, *mark);
        }
        Event::Tick { now, word } => {
            out.push(TICK);
            add_u64(&mut out, now.unsigned_abs());
            add_u32(&mut out, *word);
        }
        Event::Resync { now, word, flags } => {
            out.push(RESYNC);
            add_u64(&mut out, now.unsigned_abs());
            add_u32(&mut out, *word);
            add_u32(&mut out, *flags);
        }
        Event::Arrive { now, from, bytes } => {
            out.push(ARRIVE);
            add_u64(&mut out, now.unsigned_abs());
            add_u32(&mut out, from.ip);
            add_u16(&mut out, from.port);
            let bytes = bytes.as_slice();
            add_u16(&mut out, bytes.len() as u16);
            add(&mut out, bytes);
        }
    }
    out
}
