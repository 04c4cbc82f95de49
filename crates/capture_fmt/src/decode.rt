//! Reading a record from bytes that begin with it.
ghost use Rattle.std.specs.Prelude.{◌≡◌, ◌<◌, ◌≤◌, ◌^◌, ◌∷◌, ◌++◌, length, Some, IfOk, IfErr, unsigned_abs};
ghost use Rattle.base_specs.specs.Time.{IsReading};
ghost use Rattle.byte_codec.specs.Numbers.{double_word_bytes, half_word_bytes, word_bytes};
ghost use Rattle.capture_fmt.specs.Event.{EventFits};
ghost use Rattle.capture_fmt.specs.Record as layout;
ghost use Rattle.capture_fmt.specs.Record.{event_bytes, field_flaw, first_flaw, record_flaw};

use crate::Event;
use crate::fault::Flaw;
use crate::record::{ARRIVE, LATEST, LIFE, MAGIC, RESYNC, TICK};
use byte_codec::{read_u16, read_u32, read_u64};
use edge_traits::{Addr, DATAGRAM_LEN, Datagram};

/// The event whose record the bytes begin with, and what stands behind the record.
#[tactic(auto, unfolding(crate::specs::Record::record_flaw))]
pub(crate) fn event_at(bytes: &[u8]) -> Result<(Event, &[u8]), Flaw>
    ensures found { IfOk result (λ read. EventFits read.0 × (bytes.now ≡ event_bytes read.0 ++ read.1.now)) }
    ensures flaw { IfErr result (λ flaw. record_flaw bytes.now ≡ Some flaw) }
{
    let Some((kind, rest)) = bytes.split_first() else {
        return Err(Flaw::Torn);
    };
    match *kind {
        LIFE => life_at(rest),
        TICK => tick_at(rest),
        RESYNC => resync_at(rest),
        ARRIVE => arrive_at(rest),
        _ => Err(Flaw::BadKind),
    }
}

/// A Life, by what stands behind the byte of its kind.
fn life_at(bytes: &[u8]) -> Result<(Event, &[u8]), Flaw>
    ensures found { IfOk result (λ read. EventFits read.0
        × (layout.life_kind ∷ bytes.now ≡ event_bytes read.0 ++ read.1.now)) }
    ensures flaw { IfErr result (λ flaw. first_flaw layout.life_fields bytes.now ≡ Some flaw) }
{
    let rest = magic_at(bytes)?;
    let (now, rest) = reading_at(rest)?;
    let (mark, rest) = word_at(rest)?;
    Ok((Event::Life { now, mark }, rest))
}

/// A Tick, by what stands behind the byte of its kind.
fn tick_at(bytes: &[u8]) -> Result<(Event, &[u8]), Flaw>
    ensures found { IfOk result (λ read. EventFits read.0
        × (layout.tick_kind ∷ bytes.now ≡ event_bytes read.0 ++ read.1.now)) }
    ensures flaw { IfErr result (λ flaw. first_flaw layout.tick_fields bytes.now ≡ Some flaw) }
{
    let (now, rest) = reading_at(bytes)?;
    let (word, rest) = word_at(rest)?;
    Ok((Event::Tick { now, word }, rest))
}

/// A Resync, by what stands behind the byte of its kind.
fn resync_at(bytes: &[u8]) -> Result<(Event, &[u8]), Flaw>
    ensures found { IfOk result (λ read. EventFits read.0
        × (layout.resync_kind ∷ bytes.now ≡ event_bytes read.0 ++ read.1.now)) }
    ensures flaw { IfErr result (λ flaw. first_flaw layout.resync_fields bytes.now ≡ Some flaw) }
{
    let (now, rest) = reading_at(bytes)?;
    let (word, rest) = word_at(rest)?;
    let (flags, rest) = word_at(rest)?;
    Ok((Event::Resync { now, word, flags }, rest))
}

/// An Arrive, by what stands behind the byte of its kind.
fn arrive_at(bytes: &[u8]) -> Result<(Event, &[u8]), Flaw>
    ensures found { IfOk result (λ read. EventFits read.0
        × (layout.arrive_kind ∷ bytes.now ≡ event_bytes read.0 ++ read.1.now)) }
    ensures flaw { IfErr result (λ flaw. first_flaw layout.arrive_fields bytes.now ≡ Some flaw) }
{
    let (now, rest) = reading_at(bytes)?;
    let (ip, rest) = word_at(rest)?;
    let (port, rest) = half_word_at(rest)?;
    let (bytes, rest) = datagram_at(rest)?;
    let from = Addr { ip, port };
    Ok((Event::Arrive { now, from, bytes }, rest))
}

/// Takes the letters `W32T`.
#[tactic(auto, using(crate::proofs::Records::cut_number, crate::proofs::Records::other_magic))]
fn magic_at(bytes: &[u8]) -> Result<&[u8], Flaw>
    ensures found { IfOk result (λ rest. bytes.now ≡ word_bytes layout.magic_number ++ rest.now) }
    ensures flaw { IfErr result (λ flaw. field_flaw layout.magic bytes.now ≡ Some flaw) }
{
    let (number, rest) = word_at(bytes)?;
    if number != MAGIC {
        return Err(Flaw::BadKind);
    }
    Ok(rest)
}

/// Takes a moment.
#[tactic(auto, using(crate::proofs::Records::cut_number, crate::proofs::Records::late_reading))]
fn reading_at(bytes: &[u8]) -> Result<(i64, &[u8]), Flaw>
    ensures found { IfOk result (λ read. IsReading read.0
        × (bytes.now ≡ double_word_bytes (unsigned_abs read.0) ++ read.1.now)) }
    ensures flaw { IfErr result (λ flaw. field_flaw layout.reading bytes.now ≡ Some flaw) }
{
    let (ticks, rest) = double_word_at(bytes)?;
    if ticks > LATEST {
        return Err(Flaw::BadReading);
    }
    Ok((ticks as i64, rest))
}

/// Takes a datagram, with the number of its bytes before it.
#[tactic(auto, using(crate::proofs::Records::cut_number, crate::proofs::Records::long_datagram, crate::proofs::Records::cut_datagram))]
fn datagram_at(bytes: &[u8]) -> Result<(Datagram, &[u8]), Flaw>
    ensures found { IfOk result (λ read. (length read.0 ≤ 256)
        × (bytes.now ≡ half_word_bytes (length read.0) ++ (read.0 ++ read.1.now))) }
    ensures flaw { IfErr result (λ flaw. field_flaw layout.datagram bytes.now ≡ Some flaw) }
{
    let (len, rest) = half_word_at(bytes)?;
    let len = len as usize;
    if len > DATAGRAM_LEN {
        return Err(Flaw::BadLength);
    }
    if rest.len() < len {
        return Err(Flaw::Torn);
    }
    let (bytes, rest) = rest.split_at(len);
    Ok((Datagram::from_slice(bytes), rest))
}

/// Takes a number of eight bytes.
fn double_word_at(bytes: &[u8]) -> Result<(u64, &[u8]), Flaw>
    ensures found { IfOk result (λ read. (read.0 < 2 ^ 64) × (bytes.now ≡ double_word_bytes read.0 ++ read.1.now)) }
    ensures flaw { IfErr result (λ flaw. (flaw ≡ Flaw.Torn) × (length bytes.now < 8)) }
{
    if bytes.len() < 8 {
        return Err(Flaw::Torn);
    }
    Ok(read_u64(bytes))
}

/// Takes a number of four bytes.
fn word_at(bytes: &[u8]) -> Result<(u32, &[u8]), Flaw>
    ensures found { IfOk result (λ read. (read.0 < 2 ^ 32) × (bytes.now ≡ word_bytes read.0 ++ read.1.now)) }
    ensures flaw { IfErr result (λ flaw. (flaw ≡ Flaw.Torn) × (length bytes.now < 4)) }
{
    if bytes.len() < 4 {
        return Err(Flaw::Torn);
    }
    Ok(read_u32(bytes))
}

/// Takes a number of two bytes.
fn half_word_at(bytes: &[u8]) -> Result<(u16, &[u8]), Flaw>
    ensures found { IfOk result (λ read. (read.0 < 2 ^ 16) × (bytes.now ≡ half_word_bytes read.0 ++ read.1.now)) }
    ensures flaw { IfErr result (λ flaw. (flaw ≡ Flaw.Torn) × (length bytes.now < 2)) }
{
    if bytes.len() < 2 {
        return Err(Flaw::Torn);
    }
    Ok(read_u16(bytes))
}
