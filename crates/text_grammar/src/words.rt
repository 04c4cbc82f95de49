//! Numbers and keys.
ghost use Rattle.std.specs.Prelude.{◌≡◌, ◌<◌, ◌^◌, ℕ, List, length, decimal, IfSome, IsSome, IsTrue, IsUtf8, ◌↔◌};
ghost use Rattle.hex.specs.Hex.{decode_of};
ghost use Rattle.text_grammar.specs.Decimal.{BeginsAsDecimal};

use hex::FromHex;

/// The number that the bytes spell: decimal digits without a sign and without a leading zero, at most
/// 4,294,967,295. None where they are anything else.
pub fn read_decimal(text: &[u8]) -> Option<u32>
    ensures read { IfSome result (λ n. text.now ≡ decimal n) }
    ensures found { (n : ℕ) → n < 2 ^ 32 → text.now ≡ decimal n → result ≡ Some n }
{
    if !begins_as_decimal(text) {
        return None;
    }
    utf8_of(text)?.parse().ok()
}

/// The bytes as a `str`, which `parse` reads.
fn utf8_of(text: &[u8]) -> Option<&str>
    ensures same { IfSome result (λ s. s.now ≡ text.now) }
    ensures found { IsUtf8 text.now → IsSome result }
{
    str::from_utf8(text).ok()
}

/// Whether the bytes begin as the one spelling of a number does. `parse` takes a plus and leading zeros.
fn begins_as_decimal(text: &[u8]) -> bool
    ensures { IsTrue result ↔ BeginsAsDecimal text.now }
{
    match text {
        [] => false,
        [only] => *only != b'+',
        [first, ..] => *first != b'+' && *first != b'0',
    }
}

/// The 16 bytes of a key that 32 hexadecimal digits in either case spell, the first byte first. None where
/// the text is anything else.
pub fn read_key(text: &[u8]) -> Option<[u8; 16]>
    ensures read { IfSome result (λ k. decode_of text.now ≡ Ok k) }
    ensures found { (k : List ℕ) → length k ≡ 16 → decode_of text.now ≡ Ok k → result ≡ Some k }
{
    <[u8; 16] as FromHex>::from_hex(text).ok()
}
