//! How calls and their answers are written.
ghost use Rattle.std.specs.Prelude.{◌≡◌, ◌≤◌, ◌+◌, ◌*◌, ◌++◌, length, true};
ghost use Rattle.byte_codec.specs.Numbers.{low_word_bytes};
ghost use Rattle.arrayvec.specs.ArrayVec.{array_vec_len};
ghost use Rattle.w32t_calls.specs.Answers.{call_of, is_operation};
ghost use Rattle.w32t_calls.specs.declared.call.Given.{Given};
ghost use Rattle.w32t_calls.specs.Stubs.{answer_stub, name_units};

use crate::places::word_at;
use crate::{Call, Given};
use arrayvec::ArrayVec;
use byte_codec::{add, add_u32_low_first};

/// The operation that synchronizes (W32TimeSync).
pub(crate) const SYNC: u16 = 0;

/// The operation for the bits (W32TimeGetNetlogonServiceBits).
pub(crate) const BITS: u16 = 1;

/// The operation for the source (W32TimeQuerySource).
pub(crate) const SOURCE: u16 = 3;

/// Bytes that the stub of `SYNC` asks for.
pub(crate) const SYNC_LEN: usize = 8;

/// Bytes in an answer's stub, at most: four numbers, 64 units, and the status.
pub(crate) const STUB_LEN: usize = 16 + 2 * 64 + 4;

/// The referent of a string that is there.
const REFERENT: u32 = 0x2_0000;

/// The call of an operation with this stub, which is long enough. None for an operation that isn't known.
pub(crate) fn call_for(operation: u16, stub: &[u8]) -> Call
    requires known { is_operation operation ≡ true }
    requires enough { operation ≡ 0 → 8 ≤ length stub.now }
    ensures { result ≡ call_of operation stub.now }
{
    match operation {
        SYNC => sync_of(stub),
        BITS => Call::Bits,
        _ => Call::Source,
    }
}

/// The call to synchronize that a stub asks for.
fn sync_of(stub: &[u8]) -> Call
    requires { 8 ≤ length stub.now }
    ensures { result ≡ call_of 0 stub.now }
{
    Call::Sync {
        wait: word_at(stub, 0),
        flags: word_at(stub, 4),
    }
}

/// The stub that answers so.
pub(crate) fn stub_of(given: &Given) -> ArrayVec<u8, STUB_LEN>
    ensures stub { result.items ≡ answer_stub given.now }
{
    match given {
        Given::Synced(number) | Given::Bits(number) => word_stub(*number),
        Given::Source(name) => name_stub(name.as_slice()),
    }
}

/// The stub of a number.
fn word_stub(number: u32) -> ArrayVec<u8, STUB_LEN>
    ensures { result.items ≡ low_word_bytes number }
{
    let mut stub = ArrayVec::new();
    add_u32_low_first(&mut stub, number);
    stub
}

/// The stub of a name.
fn name_stub(name: &[u8]) -> ArrayVec<u8, STUB_LEN>
    requires { length name.now ≤ 63 }
    ensures { result.items ≡ answer_stub (Given.Source name.now) }
{
    let count = name.len() as u32 + 1;
    let mut stub = ArrayVec::new();
    add_u32_low_first(&mut stub, REFERENT);
    add_u32_low_first(&mut stub, count);
    add_u32_low_first(&mut stub, 0);
    add_u32_low_first(&mut stub, count);
    add_units(&mut stub, name);
    if name.len() % 2 == 0 {
        add(&mut stub, &[0; 2]);
    }
    add_u32_low_first(&mut stub, 0);
    stub
}

/// Adds a name in units, with a closing zero unit.
fn add_units(stub: &mut ArrayVec<u8, STUB_LEN>, name: &[u8])
    requires { array_vec_len stub.old + 2 * length name.now + 2 ≤ 148 }
    ensures items { stub.new.items ≡ stub.old.items ++ name_units name.now }
    ensures length { array_vec_len stub.new ≡ array_vec_len stub.old + 2 * length name.now + 2 }
{
    for byte in name {
        add(stub, &[*byte, 0]);
    }
    add(stub, &[0; 2]);
}
