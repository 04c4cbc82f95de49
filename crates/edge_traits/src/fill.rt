//! Reading a source into a buffer.
ghost use Rattle.edge_traits.specs.Fill.{FillCounts, Fills};

use crate::{Source, Take};

/// How a buffer was filled.
#[derive(Clone, Copy, Debug, PartialEq, Eq)]
pub enum Filled {
    /// With this many bytes: the buffer is full, or nothing is left.
    Bytes(usize),
    /// A read failed.
    Failed,
}

/// Reads to the end, or until the buffer is full.
pub fn fill_front<S: Source>(source: &mut S, buf: &mut [u8]) -> Filled
    ensures bytes { Fills result buf.new (S.left source.old) (S.left source.new) }
    ensures cause { FillCounts result (S.faults source.old) (S.faults source.new) }
{
    let mut filled = 0;
    while filled < buf.len() {
        match source.read(&mut buf[filled..]) {
            Take::Bytes(count) => filled += count,
            Take::End => return Filled::Bytes(filled),
            Take::Failed => return Filled::Failed,
        }
    }
    Filled::Bytes(filled)
}
