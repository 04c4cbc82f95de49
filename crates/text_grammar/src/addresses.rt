//! Addresses and ports.
ghost use Rattle.std.specs.Prelude.{◌≡◌, ◌+◌, ◌*◌, ◌<◌, ◌≤◌, ◌^◌, ◌++◌, ◌∷◌, ℕ, List, decimal, IfSome, IsSomeAnd};
ghost use Rattle.text_grammar.specs.Address.{SpellsAddress, SpellsPort, SpellsSocketAddress};

use crate::{cut, read_decimal};

/// The address that the bytes spell, its first byte highest: four decimals of 0 to 255 joined by dots, without
/// signs or leading zeros. None where they are anything else.
pub fn read_address(text: &[u8]) -> Option<u32>
    ensures read { IfSome result (λ ip. SpellsAddress ip text.now) }
    ensures found { (ip : ℕ) → SpellsAddress ip text.now → result ≡ Some ip }
{
    let (a, rest) = read_part(text)?;
    let (b, rest) = read_part(rest)?;
    let (c, rest) = read_part(rest)?;
    Some(address_of(a, b, c, read_byte(rest)?))
}

/// The address of four bytes, the first highest.
fn address_of(a: u8, b: u8, c: u8, d: u8) -> u32
    ensures { result ≡ a * 2 ^ 24 + b * 2 ^ 16 + c * 2 ^ 8 + d }
{
    u32::from_be_bytes([a, b, c, d])
}

/// A decimal of 0 to 255 before the first dot, and what stands behind that dot.
fn read_part(text: &[u8]) -> Option<(u8, &[u8])>
    ensures read { IfSome result (λ part. text.now ≡ decimal part.0 ++ 46 ∷ part.1.now) }
    ensures found { (n : ℕ) (rest : List ℕ) → n < 256 → text.now ≡ decimal n ++ 46 ∷ rest
        → IsSomeAnd result (λ part. (part.0 ≡ n) × (part.1.now ≡ rest)) }
{
    let (digits, rest) = cut(text, b'.')?;
    Some((read_byte(digits)?, rest))
}

/// A decimal of 0 to 255.
fn read_byte(text: &[u8]) -> Option<u8>
    ensures read { IfSome result (λ n. text.now ≡ decimal n) }
    ensures found { (n : ℕ) → n < 256 → text.now ≡ decimal n → result ≡ Some n }
{
    u8::try_from(read_decimal(text)?).ok()
}

/// The port that the bytes spell: a decimal of 1 to 65,535 without a sign or a leading zero. None where they are
/// anything else.
pub fn read_port(text: &[u8]) -> Option<u16>
    ensures read { IfSome result (λ port. SpellsPort port text.now) }
    ensures found { (port : ℕ) → SpellsPort port text.now → result ≡ Some port }
{
    match u16::try_from(read_decimal(text)?) {
        Ok(port) if port > 0 => Some(port),
        _ => None,
    }
}

/// The address and the port that ADDRESS:PORT spells. None where the bytes are anything else.
pub fn read_socket_address(text: &[u8]) -> Option<(u32, u16)>
    ensures read { IfSome result (λ both. SpellsSocketAddress both.0 both.1 text.now) }
    ensures found { (ip port : ℕ) → SpellsSocketAddress ip port text.now
        → result ≡ Some record { 0 = ip; 1 = port } }
{
    let (address, port) = cut(text, b':')?;
    Some((read_address(address)?, read_port(port)?))
}
