//! Lines, and what stands before and behind a byte.
ghost use Rattle.std.specs.Prelude.{◌≡◌, ◌+◌, ◌<◌, ◌≤◌, ◌∷◌, ◌++◌, ◌↔◌, ℕ, List, [], length, take, drop, IfSome, IsNone, IfNone, IsSomeAnd};
ghost use Rattle.std.specs.Str.Lines.{lines, strip_carriage_return};
ghost use Rattle.text_grammar.specs.Bytes.{HasNo};
ghost use Rattle.text_grammar.specs.Lines.{FirstLine, is_skipped};

/// The first line of the text and what stands behind its line feed. None where there is no line.
pub fn next_line(text: &[u8]) -> Option<(&[u8], &[u8])>
    ensures first { IfSome result (λ p. FirstLine text.now p.0.now p.1.now) }
    ensures line { IfSome result (λ p. lines text.now ≡ p.0.now ∷ lines p.1.now) }
    ensures shorter { IfSome result (λ p. length p.1.now < length text.now) }
    ensures none { IsNone result ↔ (text.now ≡ []) }
{
    if text.is_empty() {
        return None;
    }
    match cut(text, b'\n') {
        Some((line, rest)) => Some((without_carriage_return(line), rest)),
        None => Some((text, &[])),
    }
}

/// A line that a line feed ended, without the carriage return just before it.
fn without_carriage_return(line: &[u8]) -> &[u8]
    ensures { result.now ≡ strip_carriage_return line.now }
{
    match line {
        [front @ .., b'\r'] => front,
        _ => line,
    }
}

/// Whether the line says nothing: an empty one, and one that begins with `#`, whatever stands behind it.
pub fn is_skipped(line: &[u8]) -> bool
    ensures { result ≡ is_skipped line.now }
{
    match line {
        [] => true,
        [first, ..] => *first == b'#',
    }
}

/// What stands before the first such byte, and what stands behind it. None where the byte isn't there.
pub fn cut(text: &[u8], byte: u8) -> Option<(&[u8], &[u8])>
    ensures parts { IfSome result (λ p. text.now ≡ p.0.now ++ byte ∷ p.1.now) }
    ensures first { IfSome result (λ p. HasNo byte p.0.now) }
    ensures none { IfNone result (HasNo byte text.now) }
    ensures found { (front back : List ℕ) → HasNo byte front → text.now ≡ front ++ byte ∷ back
        → IsSomeAnd result (λ p. (p.0.now ≡ front) × (p.1.now ≡ back)) }
{
    let at = place_of(text, byte)?;
    Some((&text[..at], &text[at + 1..]))
}

/// The first place of the byte.
fn place_of(text: &[u8], byte: u8) -> Option<usize>
    ensures within { IfSome result (λ at. at < length text.now) }
    ensures parts { IfSome result (λ at. text.now
        ≡ take at text.now ++ byte ∷ drop (at + 1) text.now) }
    ensures first { IfSome result (λ at. HasNo byte (take at text.now)) }
    ensures none { IfNone result (HasNo byte text.now) }
{
    text.iter().position(|b| *b == byte)
}
