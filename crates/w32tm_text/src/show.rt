//! The lines of `/show`.
ghost use Rattle.std.specs.Prelude.{◌≡◌, ◌+◌, ◌≤◌, ◌<◌, [], ◌∷◌, ◌++◌, length, All, IsTrue};
ghost use Rattle.std.specs.Char.{is_ascii};
ghost use Rattle.std.specs.List.{list_all};
ghost use Rattle.w32tm_text.specs.Show.{clock_line, receive_line, reference_line, root_line, show_lines, stamp_digits, tail_line, word_digits};

use crate::fields::add_field;
use line_text::{Line, LongLine};
use ms_auth::{Packet, Tail};
use ntp_wire::{Header, Stamp};

/// The five lines of a message, each with its line feed: numbers in decimal, the reference identifier, timestamps, key
/// identifiers of short messages and checksums in lower-case hexadecimal.
pub fn show_lines(packet: &Packet) -> [LongLine; 5]
    ensures lines { result ≡ show_lines packet.now }

    // None is empty.
    ensures some { All (λ line. 0 < length line) result }
{
    let header = &packet.header;
    [
        clock_line(header),
        root_line(header),
        reference_line(header),
        receive_line(header),
        tail_line(packet.tail),
    ]
}

/// What the first four bytes hold.
#[tactic(auto, unfolding(crate::specs::Show::clock_line))]
fn clock_line(header: &Header) -> LongLine
    ensures { result ≡ clock_line header.now }
{
    let mut line = Line::new();
    add_field(&mut line, "leap=", header.leap);
    add_field(&mut line, " version=", header.version);
    add_field(&mut line, " mode=", header.mode);
    add_field(&mut line, " stratum=", header.stratum);
    add_field(&mut line, " poll=", header.poll);
    add_field(&mut line, " precision=", header.precision);
    line.add_text("\n");
    line
}

/// How far the sender is from a reference clock, and which one.
#[tactic(auto, unfolding(crate::specs::Show::root_line))]
fn root_line(header: &Header) -> LongLine
    ensures { result ≡ root_line header.now }
{
    let mut line = Line::new();
    add_field(&mut line, "rootdelay=", header.root_delay);
    add_field(&mut line, " rootdispersion=", header.root_dispersion);
    line.add_text(" refid=");
    line.add_hex(&header.reference_id);
    line.add_text("\n");
    line
}

/// The reference and the originate timestamp.
#[tactic(auto, unfolding(crate::specs::Show::reference_line))]
fn reference_line(header: &Header) -> LongLine
    ensures { result ≡ reference_line header.now }
{
    let mut line = Line::new();
    add_stamp(&mut line, "reference=", header.reference);
    add_stamp(&mut line, " originate=", header.originate);
    line.add_text("\n");
    line
}

/// The receive and the transmit timestamp.
#[tactic(auto, unfolding(crate::specs::Show::receive_line))]
fn receive_line(header: &Header) -> LongLine
    ensures { result ≡ receive_line header.now }
{
    let mut line = Line::new();
    add_stamp(&mut line, "receive=", header.receive);
    add_stamp(&mut line, " transmit=", header.transmit);
    line.add_text("\n");
    line
}

/// The tail: of which kind it is, and its fields.
#[tactic(auto, unfolding(crate::specs::Show::tail_line))]
fn tail_line(tail: Tail) -> LongLine
    ensures { result ≡ tail_line tail }
{
    let mut line = Line::new();
    match tail {
        Tail::Plain => line.add_text("tail=plain"),
        Tail::Short68 { key_id, sum } => {
            line.add_text("tail=short keyid=");
            add_word(&mut line, key_id);
            line.add_text(" checksum=");
            line.add_hex(&sum);
        }
        Tail::Ext120 {
            rid,
            reserved,
            flags,
            hints,
            hash,
            sum,
        } => {
            add_field(&mut line, "tail=extended rid=", rid);
            add_field(&mut line, " reserved=", reserved);
            add_field(&mut line, " flags=", flags);
            add_field(&mut line, " hints=", hints);
            add_field(&mut line, " hash=", hash);
            line.add_text(" checksum=");
            line.add_hex(&sum);
        }
    }
    line.add_text("\n");
    line
}

/// Adds a name and the digits of a timestamp.
fn add_stamp(line: &mut LongLine, name: &str, stamp: Stamp)
    requires room { length line.old + length name.now + 16 ≤ 256 }
    requires ascii { IsTrue (list_all is_ascii name.now) }
    ensures text { line.new ≡ line.old ++ name.now ++ stamp_digits stamp }
    ensures len { length line.new ≡ length line.old + length name.now + 16 }
{
    line.add_text(name);
    add_word(line, stamp.seconds);
    add_word(line, stamp.fraction);
}

/// Adds the eight digits of a number.
#[tactic(auto, unfolding(byte_codec::specs::Numbers::number_bytes))]
fn add_word(line: &mut LongLine, number: u32)
    requires room { length line.old + 8 ≤ 256 }
    ensures text { line.new ≡ line.old ++ word_digits number }
    ensures len { length line.new ≡ length line.old + 8 }
{
    line.add_hex(&number.to_be_bytes());
}
