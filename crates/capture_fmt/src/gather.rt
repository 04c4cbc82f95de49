//! Gathering the bytes of the next record.
ghost use Rattle.std.specs.Prelude.{◌≡◌};
ghost use Rattle.capture_fmt.specs.Gather.{Gains, GatherCounts, Sees};
ghost use Rattle.capture_fmt.specs.Record.{IsCut};

use crate::Event;
use crate::buffer::Buffer;
use crate::decode::event_at;
use crate::fault::Flaw;
use edge_traits::{Source, Take};

/// What the bytes held show of the record that begins with them.
#[derive(Drop)]
pub(crate) enum Gathered {
    /// It is whole: its event, and how many bytes it has.
    Event(Event, usize),
    /// There is none: nothing is held, and nothing is left.
    End,
    /// It is wrong so.
    Flawed(Flaw),
    /// Nothing yet, and a read failed.
    Failed,
}

/// Takes bytes from the source until those held are a whole record or show a flaw. Where they do already, the source
/// isn't asked.
pub(crate) fn gather<S: Source>(source: &mut S, held: &mut Buffer) -> Gathered
    ensures gains { Gains held.old held.new (S.left source.old) (S.left source.new) }
    ensures sees { Sees result held.new (S.left source.new) }
    ensures cause { GatherCounts result (S.faults source.old) (S.faults source.new) }
    ensures unasked { ¬ IsCut held.old → source.new ≡ source.old }
{
    loop {
        let bytes = held.as_slice();
        match event_at(bytes) {
            Ok((event, rest)) => return Gathered::Event(event, bytes.len() - rest.len()),
            // The bytes that come next may complete it.
            Err(Flaw::Torn) => {}
            Err(flaw) => return Gathered::Flawed(flaw),
        }
        match held.fill(source) {
            Take::Bytes(_) => {}
            Take::End if held.as_slice().is_empty() => return Gathered::End,
            Take::End => return Gathered::Flawed(Flaw::Torn),
            Take::Failed => return Gathered::Failed,
        }
    }
}
