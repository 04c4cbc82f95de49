//! Names of computers.
ghost use Rattle.std.specs.Prelude.{◌≡◌, ◌<◌, ◌≤◌, ◌↔◌, ℕ, List, All, IfSome, IsSome, length};
ghost use Rattle.text_grammar.specs.Name.{SpellsName};

use arrayvec::ArrayVec;
use std::marker::Model;
use text_grammar::{NAME_LEN, is_name};

/// A name of at most 63 ASCII bytes.
#[derive(Drop)]
pub struct NameText {
    bytes: ArrayVec<u8, 63>,
}

impl Model for NameText {
    ghost use Rattle.std.specs.Prelude.{ℕ, List, ◌<◌, ◌≤◌, All, length};

    ghost Value = { List ℕ };

    ghost view = { λ name. name.bytes.items };

    ghost invariant = { λ name. (length name.bytes.items ≤ 63)
        × All (λ byte. byte < 128) name.bytes.items };
}

impl NameText {
    /// The bytes as a name. None exactly where there are more than 63, or one is not ASCII.
    pub fn from_slice(bytes: &[u8]) -> Option<NameText>
        ensures name { IfSome result (λ name. name ≡ bytes.now) }
        ensures fits { IsSome result ↔ ((length bytes.now ≤ 63) × All (λ byte. byte < 128) bytes.now) }
    {
        if bytes.len() > NAME_LEN || !bytes.is_ascii() {
            return None;
        }
        let mut name = ArrayVec::new();
        name.try_extend_from_slice(bytes).ok()?;
        Some(NameText { bytes: name })
    }

    /// The name that the bytes spell: 1 to 63 letters, digits, `-` or `.`. None where they are anything else.
    pub fn read(text: &[u8]) -> Option<NameText>
        ensures read { IfSome result (λ name. SpellsName name text.now) }
        ensures found { (name : List ℕ) → SpellsName name text.now → result ≡ Some name }
    {
        if is_name(text) {
            NameText::from_slice(text)
        } else {
            None
        }
    }

    /// The bytes.
    pub fn as_slice(&self) -> &[u8]
        ensures bytes { result.now ≡ self.now }
        ensures within { length result.now ≤ 63 }
        ensures ascii { All (λ byte. byte < 128) result.now }
    {
        self.bytes.as_slice()
    }
}
