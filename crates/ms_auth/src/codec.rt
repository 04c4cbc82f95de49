//! Reading and writing messages.
ghost use Rattle.std.specs.Prelude.{◌≡◌, ◌≤◌, ◌+◌, ◌++◌, ◌↔◌, ℕ, List, length, IfOk, OnOk, IsErr, Ok};
ghost use Rattle.arrayvec.specs.ArrayVec.{array_vec_len};
ghost use Rattle.ms_auth.specs.declared.packet.Packet.{Packet};
ghost use Rattle.ms_auth.specs.Fields.{IsPacketAt};
ghost use Rattle.ms_auth.specs.Packet.{IsPacketLength, IsTailLength, SpellsPacket, SpellsTail, TailFits, packet_bytes, tail_bytes};

use crate::{BadLength, EXTENDED_LEN, Packet, SHORT_LEN, Tail};
use arrayvec::ArrayVec;
use byte_codec::{add, add_u32_low_first, read_array, read_u32_low_first};
use edge_traits::Datagram;
use ntp_wire::{HEADER_LEN, read_header, write_header};

/// Bytes behind the header of a short message.
const SHORT_TAIL_LEN: usize = SHORT_LEN - HEADER_LEN;

/// Bytes behind the header of an extended message.
const EXTENDED_TAIL_LEN: usize = EXTENDED_LEN - HEADER_LEN;

/// The message that the bytes spell, or `BadLength` exactly where they aren't 48, 68 or 120.
pub fn read_packet(bytes: &[u8]) -> Result<Packet, BadLength>
    ensures read { IfOk result (λ p. SpellsPacket p bytes.now) }
    ensures length { OnOk result (IsPacketLength (length bytes.now)) }
    ensures bad_length { IsErr result ↔ ¬ IsPacketLength (length bytes.now) }

    // The fields that a controller and a member look at stand at their places in the bytes, and so does the checksum.
    ensures places { IfOk result (λ p. IsPacketAt bytes.now p) }

    // Bytes spell one message, and what was written is read again.
    ensures only { (p q : Packet) → SpellsPacket p bytes.now → SpellsPacket q bytes.now → p ≡ q }
    ensures found { (p : Packet) → SpellsPacket p bytes.now → result ≡ Ok p }
{
    let Ok(header) = read_header(bytes) else {
        return Err(BadLength);
    };
    let (_, rest) = bytes.split_at(HEADER_LEN);
    let tail = read_tail(rest)?;
    Ok(Packet { header, tail })
}

/// The one spelling of a message.
pub fn write_packet(packet: &Packet) -> Datagram
    ensures spells { SpellsPacket packet.now result }
    ensures written { result ≡ packet_bytes packet.now }

    // What was read is written again.
    ensures again { (bytes : List ℕ) → SpellsPacket packet.now bytes → result ≡ bytes }
{
    Datagram::from_slice(spelling_of(*packet).as_slice())
}

/// All bytes of a message.
fn spelling_of(packet: Packet) -> ArrayVec<u8, 256>
    ensures { SpellsPacket packet result.items }
{
    let mut header = [0; 48];
    write_header(&packet.header, &mut header);
    let mut bytes = ArrayVec::new();
    add(&mut bytes, &header);
    add_tail(&mut bytes, packet.tail);
    bytes
}

/// Adds the bytes of a tail, the numbers in it with their least significant byte first.
fn add_tail(bytes: &mut ArrayVec<u8, 256>, tail: Tail)
    requires { array_vec_len bytes.old ≤ 48 }
    ensures items { bytes.new.items ≡ bytes.old.items ++ tail_bytes tail }
    ensures fits { TailFits tail }
{
    match tail {
        Tail::Plain => {}
        Tail::Short68 { key_id, sum } => {
            add_u32_low_first(bytes, key_id);
            add(bytes, &sum);
        }
        Tail::Ext120 {
            rid,
            reserved,
            flags,
            hints,
            hash,
            sum,
        } => {
            add_u32_low_first(bytes, rid);
            add(bytes, &[reserved, flags, hints, hash]);
            add(bytes, &sum);
        }
    }
}

/// The tail that the bytes behind a header spell.
fn read_tail(bytes: &[u8]) -> Result<Tail, BadLength>
    ensures read { IfOk result (λ t. SpellsTail t bytes.now) }
    ensures bad_length { IsErr result ↔ ¬ IsTailLength (length bytes.now) }
{
    match bytes.len() {
        0 => Ok(Tail::Plain),
        SHORT_TAIL_LEN => Ok(short_tail(bytes)),
        EXTENDED_TAIL_LEN => Ok(extended_tail(bytes)),
        _ => Err(BadLength),
    }
}

/// The tail that 20 bytes spell.
fn short_tail(bytes: &[u8]) -> Tail
    requires { length bytes.now ≡ 20 }
    ensures { SpellsTail result bytes.now }
{
    let (key_id, rest) = read_u32_low_first(bytes);
    let (sum, _) = read_array(rest);
    Tail::Short68 { key_id, sum }
}

/// The tail that 72 bytes spell.
fn extended_tail(bytes: &[u8]) -> Tail
    requires { length bytes.now ≡ 72 }
    ensures { SpellsTail result bytes.now }
{
    let (rid, rest) = read_u32_low_first(bytes);
    let ([reserved, flags, hints, hash], rest) = read_array::<4>(rest);
    let (sum, _) = read_array(rest);
    Tail::Ext120 {
        rid,
        reserved,
        flags,
        hints,
        hash,
        sum,
    }
}
