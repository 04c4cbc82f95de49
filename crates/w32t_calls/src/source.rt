//! The name in the answer to a call for the source.
ghost use Rattle.std.specs.Prelude.{◌≡◌, ◌≢◌, ◌+◌, ◌≤◌, ◌↔◌, ℕ, List, Err, None, IfSome, IsTrue, length};
ghost use Rattle.byte_codec.specs.Numbers.{low_word_at};
ghost use Rattle.rpc_pdu.specs.Pdu.{PduFits};
ghost use Rattle.w32t_calls.specs.Replies.{SourceOf, SpellsUnits, stub_in};
ghost use Rattle.w32t_calls.specs.Stubs.{SpellsSource};

use crate::CallFault;
use crate::places::word_at;
use crate::replies::{rounded_to_four, stub_in};
use arrayvec::ArrayVec;
use partner_pick::NameText;
use rpc_pdu::Pdu;

/// Units of a name with the closing one, at most.
const UNITS: usize = 64;

/// Where the units stand in the stub: the referent, the greatest count, the offset and the count stand before them.
const UNITS_AT: usize = 16;

/// The name in the response at this place.
pub(crate) fn source_in(place: u64, pdu: &Pdu) -> Result<NameText, CallFault>
    requires { PduFits pdu.now }
    ensures told { SourceOf place (stub_in place pdu.now) result }
    ensures no_read { result ≢ Err CallFault.ReadFault }
    ensures no_write { result ≢ Err CallFault.WriteFault }
{
    let stub = stub_in(place, pdu)?;
    match name_of(stub) {
        Some(name) => Ok(name),
        None => Err(CallFault::BadReply(place)),
    }
}

/// The name that a stub spells.
fn name_of(stub: &[u8]) -> Option<NameText>
    ensures name { IfSome result (λ name. SpellsSource name stub.now) }
    ensures none { result ≡ None → (name : List ℕ) → SpellsSource name stub.now → ⊥ }
{
    if stub.len() < UNITS_AT {
        return None;
    }
    let count = word_at(stub, 12) as usize;
    if !(2..=UNITS).contains(&count) {
        return None;
    }
    let end = UNITS_AT + rounded_to_four(2 * count);
    if stub.len() < end + 4 || !has_fields(stub, count, end) {
        return None;
    }
    name_in(&stub[UNITS_AT..UNITS_AT + 2 * count])
}

/// Whether the fields beside the count and the units are those of a name: a referent, a greatest count that isn't below the
/// count, the offset 0, and the status 0 at the end.
fn has_fields(stub: &[u8], count: usize, end: usize) -> bool
    requires head { 12 ≤ length stub.now }
    requires status { end + 4 ≤ length stub.now }
    ensures { IsTrue result ↔ ((low_word_at 0 stub.now ≢ 0) × (count ≤ low_word_at 4 stub.now)
        × (low_word_at 8 stub.now ≡ 0) × (low_word_at end stub.now ≡ 0)) }
{
    word_at(stub, 0) != 0
        && word_at(stub, 4) as usize >= count
        && word_at(stub, 8) == 0
        && word_at(stub, end) == 0
}

/// The name that these units spell, with the closing one.
fn name_in(units: &[u8]) -> Option<NameText>
    requires { length units.now ≤ 128 }
    ensures name { IfSome result (λ name. SpellsUnits name units.now) }
    ensures none { result ≡ None → (name : List ℕ) → SpellsUnits name units.now → ⊥ }
{
    let mut name: ArrayVec<u8, UNITS> = ArrayVec::new();
    let mut left = units;
    while let [low @ 0x20..=0x7E, 0, rest @ ..] = left {
        name.push(*low);
        left = rest;
    }
    if left != [0, 0].as_slice() {
        return None;
    }
    NameText::from_slice(name.as_slice())
}
