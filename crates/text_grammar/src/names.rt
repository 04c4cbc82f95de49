//! Names of computers.
ghost use Rattle.std.specs.Prelude.{◌≡◌, ◌↔◌, IsTrue};
ghost use Rattle.text_grammar.specs.Name.{IsName, is_name_byte};

/// Bytes in a name, at most.
pub const NAME_LEN: usize = 63;

/// Whether the bytes are a name: 1 to 63 letters, digits, `-` or `.`.
pub fn is_name(text: &[u8]) -> bool
    ensures { IsTrue result ↔ IsName text.now }
{
    !text.is_empty() && text.len() <= NAME_LEN && text.iter().all(is_name_byte)
}

/// Whether a name may have the byte in it.
fn is_name_byte(byte: &u8) -> bool
    ensures { result ≡ is_name_byte byte.now }
{
    byte.is_ascii_alphanumeric() || *byte == b'-' || *byte == b'.'
}
