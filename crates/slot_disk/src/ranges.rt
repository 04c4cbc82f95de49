//! Writing a range of bytes, and what a crash may make of it.
ghost use Rattle.std.specs.Prelude.{◌≡◌, ◌+◌, ◌<◌, ◌≤◌, length, slice_index, slice_index_or, true, false};
ghost use Rattle.slot_disk.specs.Calls.{Holds};
ghost use Rattle.slot_disk.specs.Moments.{IsImage, TearsFreely, Touches};

use crate::moment::Moment;

/// Marks a range as written.
fn touch(touched: &mut [bool], at: usize, count: usize)
    requires { at + count ≤ length touched.old }
    ensures { Touches at count touched.old touched.new }
{
    for i in 0..count {
        touched[at + i] = true;
    }
}

/// Puts a piece at its place.
fn put(bytes: &mut [u8], at: usize, piece: &[u8])
    requires { at + length piece.now ≤ length bytes.old }
    ensures { Holds at piece.now bytes.old bytes.new }
{
    for (i, byte) in piece.iter().enumerate() {
        bytes[at + i] = *byte;
    }
}

/// Writes a piece, which a crash may tear until a sync.
pub fn write(moment: &mut Moment, at: usize, piece: &[u8])
    requires { at + length piece.now ≤ 256 }
    ensures bytes { Holds at piece.now moment.old.bytes moment.new.bytes }
    ensures torn { TearsFreely at (length piece.now) moment.old moment.new }
{
    touch(&mut moment.touched, at, piece.len());
    put(&mut moment.bytes, at, piece);
}

/// A write that fails: a crash may leave any bytes in its range.
pub fn tear(moment: &mut Moment, at: usize, count: usize)
    requires { at + count ≤ 256 }
    ensures bytes { moment.new.bytes ≡ moment.old.bytes }
    ensures torn { TearsFreely at count moment.old moment.new }
{
    touch(&mut moment.touched, at, count);
}

/// One of the images that a crash may leave, chosen by `n`: 0 is the disk as it reads.
pub fn image_of(moment: &Moment, n: u32) -> [u8; 256]
    ensures image { IsImage moment.now result }
    ensures first { n ≡ 0 → result ≡ moment.now.bytes }
{
    let mut image = moment.bytes;
    if n == 0 {
        return image;
    }
    for at in 0..256 {
        if moment.touched[at] {
            image[at] = torn_byte(n, at as u32, moment.bytes[at]);
        }
    }
    image
}

/// The byte at a place where a write was torn: the byte as it reads, 0, A5, or any.
fn torn_byte(n: u32, at: u32, reads: u8) -> u8 {
    let mixed = n
        .wrapping_mul(256)
        .wrapping_add(at)
        .wrapping_mul(2_654_435_761);
    let mixed = (mixed ^ (mixed / 65_536)).wrapping_mul(2_246_822_519) / 65_536;
    match mixed % 4 {
        0 => reads,
        1 => 0,
        2 => 0xA5,
        _ => (mixed / 4 % 256) as u8,
    }
}
