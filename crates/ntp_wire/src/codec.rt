//! Reading and writing headers.
ghost use Rattle.std.specs.Prelude.{◌≡◌, ◌+◌, ◌<◌, ◌≤◌, ◌↔◌, ◌++◌, length, take, IfOk, IsErr, Ok};
ghost use Rattle.std.specs.Int.{w32, cast_unsigned};
ghost use Rattle.arrayvec.specs.ArrayVec.{array_vec_len};
ghost use Rattle.byte_codec.specs.Numbers.{word_bytes};
ghost use Rattle.ntp_wire.specs.Fields.{IsHeaderAt};
ghost use Rattle.ntp_wire.specs.Header.{SpellsHeader, head_bytes, header_bytes, HeaderFits};
ghost use Rattle.ntp_wire.specs.declared.header.Header.{Header};
ghost use Rattle.ntp_wire.specs.Stamp.{stamp_bytes};

use crate::{HEADER_LEN, Header, HeaderFault, Stamp};
use arrayvec::ArrayVec;
use byte_codec::{add, add_u32, read_array, read_u32};

/// The header that the first 48 bytes spell, or `Short` exactly where there are fewer.
pub fn read_header(bytes: &[u8]) -> Result<Header, HeaderFault>
    ensures read { IfOk result (λ h. SpellsHeader h (take 48 bytes.now)) }
    ensures short { IsErr result ↔ (length bytes.now < 48) }

    // The fields that a controller and a member look at stand at their places.
    ensures fields { IfOk result (λ h. IsHeaderAt bytes.now h) }

    // 48 bytes spell one header.
    ensures only { (h : Header) → SpellsHeader h (take 48 bytes.now) → result ≡ Ok h }
{
    if bytes.len() < HEADER_LEN {
        return Err(HeaderFault::Short);
    }
    Ok(header_of(bytes))
}

/// Writes the one spelling of the header.
pub fn write_header(header: &Header, out: &mut [u8; 48])
    ensures written { out.new ≡ header_bytes header.now }
    ensures spells { SpellsHeader header.now out.new }
{
    out.copy_from_slice(spelling_of(*header).as_slice());
}

/// The header in the first bytes.
fn header_of(bytes: &[u8]) -> Header
    requires { 48 ≤ length bytes.now }
    ensures { SpellsHeader result (take 48 bytes.now) }
{
    let (head, rest) = read_array::<4>(bytes);
    let (root_delay, rest) = read_u32(rest);
    let (root_dispersion, rest) = read_u32(rest);
    let (reference_id, rest) = read_array::<4>(rest);
    let (reference, rest) = read_stamp(rest);
    let (originate, rest) = read_stamp(rest);
    let (receive, rest) = read_stamp(rest);
    let (transmit, _) = read_stamp(rest);
    Header {
        leap: head[0] / 64,
        version: head[0] / 8 % 8,
        mode: head[0] % 8,
        stratum: head[1],
        poll: head[2].cast_signed(),
        precision: head[3].cast_signed(),
        root_delay: root_delay.cast_signed(),
        root_dispersion,
        reference_id,
        reference,
        originate,
        receive,
        transmit,
    }
}

/// The timestamp that the bytes begin with, and what stands behind it.
fn read_stamp(bytes: &[u8]) -> (Stamp, &[u8])
    requires { 8 ≤ length bytes.now }
    ensures bytes { bytes.now ≡ stamp_bytes result.0 ++ result.1.now }
    ensures rest { length result.1.now + 8 ≡ length bytes.now }
{
    let (seconds, rest) = read_u32(bytes);
    let (fraction, rest) = read_u32(rest);
    (Stamp { seconds, fraction }, rest)
}

/// All 48 bytes of a header.
fn spelling_of(header: Header) -> ArrayVec<u8, 48>
    ensures spells { SpellsHeader header result.items }
    ensures length { array_vec_len result ≡ 48 }
{
    let mut bytes = ArrayVec::new();
    add(&mut bytes, &head_of(&header));
    add_u32(&mut bytes, header.root_delay.cast_unsigned());
    add_u32(&mut bytes, header.root_dispersion);
    add(&mut bytes, &header.reference_id);
    add_stamp(&mut bytes, header.reference);
    add_stamp(&mut bytes, header.originate);
    add_stamp(&mut bytes, header.receive);
    add_stamp(&mut bytes, header.transmit);
    bytes
}

/// The first byte, the stratum, the poll exponent and the precision.
#[tactic(auto, unfolding(crate::specs::Header::head_bytes))]
fn head_of(header: &Header) -> [u8; 4]
    ensures { result ≡ head_bytes header.now }
{
    let first = 64 * header.leap + 8 * header.version + header.mode;
    let poll = header.poll.cast_unsigned();
    let precision = header.precision.cast_unsigned();
    [first, header.stratum, poll, precision]
}

/// Adds the eight bytes of a timestamp.
fn add_stamp(bytes: &mut ArrayVec<u8, 48>, stamp: Stamp)
    requires { array_vec_len bytes.old + 8 ≤ 48 }
    ensures items { bytes.new.items ≡ bytes.old.items ++ stamp_bytes stamp }
    ensures length { array_vec_len bytes.new ≡ array_vec_len bytes.old + 8 }
{
    add_u32(bytes, stamp.seconds);
    add_u32(bytes, stamp.fraction);
}
