//! Filling a buffer from a wire.
ghost use Rattle.std.specs.Prelude.{◌≡◌};
ghost use Rattle.rpc_pdu.specs.Fill.{FillCounts, Fills};

use edge_traits::{Take, Wire};

/// How a buffer was filled.
#[derive(Clone, Copy, Debug, PartialEq, Eq)]
pub(crate) enum Filled {
    /// It is full.
    Whole,
    /// The session ended behind this many bytes, and the buffer isn't full.
    End(usize),
    /// A read failed before the buffer was full.
    Failed,
}

/// Takes bytes of the open session until the buffer is full.
pub(crate) fn fill<W: Wire>(wire: &mut W, buf: &mut [u8]) -> Filled
    ensures bytes { Fills result buf.new (W.is_open wire.old) (W.told wire.old) (W.told wire.new) }
    ensures cause { FillCounts result (W.faults wire.old) (W.faults wire.new) }
    ensures open { W.is_open wire.new ≡ W.is_open wire.old }
    ensures writes { W.write_faults wire.new ≡ W.write_faults wire.old }
{
    let mut filled = 0;
    while filled < buf.len() {
        match wire.read(&mut buf[filled..]) {
            Take::Bytes(count) => filled += count,
            Take::End => return Filled::End(filled),
            Take::Failed => return Filled::Failed,
        }
    }
    Filled::Whole
}
