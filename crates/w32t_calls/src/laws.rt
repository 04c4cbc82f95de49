//! What holds of all replies.
ghost use Rattle.std.specs.Prelude.{◌≡◌, ◌^◌, ◌<◌, ◌≤◌, ℕ, List, Ok, All, length};
ghost use Rattle.w32t_calls.specs.declared.call.Given.{Given};
ghost use Rattle.w32t_calls.specs.Replies.{word_in};
ghost use Rattle.w32t_calls.specs.Stubs.{SpellsSource, answer_stub};

/// The laws of the stubs: what the server's side answers is what the client's side reads. There is nothing to do.
pub fn laws_of_stubs()
    // A number is read as it was answered.
    ensures synced { (place result : ℕ) → result < 2 ^ 32 → word_in place (answer_stub (Given.Synced result)) ≡ Ok result }
    ensures bits { (place bits : ℕ) → bits < 2 ^ 32 → word_in place (answer_stub (Given.Bits bits)) ≡ Ok bits }

    // A name of 1 to 63 printed bytes is read as it was answered, and as no other.
    ensures source { (name : List ℕ) → 1 ≤ length name → length name ≤ 63
        → All (λ byte. (0x20 ≤ byte) × (byte ≤ 0x7E)) name → SpellsSource name (answer_stub (Given.Source name)) }
    ensures one_name { (name other stub : List ℕ) → SpellsSource name stub → SpellsSource other stub → name ≡ other }
{}
