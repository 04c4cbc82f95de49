//! Entries that are compared by their names.
ghost use Rattle.std.specs.Prelude.{◌≡◌, ◌∷◌, [], ℕ, List, nat_eq};
ghost use Rattle.std.proofs.Common.{ap};
ghost use Rattle.std.specs.Cmp.{on_equiv, on_per, partial_equiv_from_equiv};
ghost use Rattle.std.specs.Cmp.Lexicographic.{bytes_decides, nat_list_eq_equiv, pointwise};
ghost use Rattle.partner_pick.specs.declared.entry.Entry.{Entry};

use crate::Entry;
use std::hash::{Hash, Hasher};
use std::marker::Model;

/// An entry that is the same as another where their names are. Contracts see the entry.
#[derive(Drop)]
pub(crate) struct Named {
    entry: Entry,
}

impl Model for Named {
    ghost Value = { Entry };

    ghost view = { λ named. named.entry };
}

impl Named {
    /// The entry, to be compared by its name.
    pub(crate) fn new(entry: Entry) -> Named
        ensures { result ≡ entry }
    {
        Named { entry }
    }

    /// The entry.
    pub(crate) fn entry(&self) -> &Entry
        ensures { result.now ≡ self.now }
    {
        &self.entry
    }

    /// The bytes of its name.
    fn name(&self) -> &[u8]
        ensures { result.now ≡ self.now.name }
    {
        self.entry.name.as_slice()
    }
}

impl PartialEq for Named {
    ghost eq = { λ (a b : Entry). pointwise nat_eq a.name b.name };

    ghost laws = { on_per (λ (e : Entry). e.name) (partial_equiv_from_equiv nat_list_eq_equiv) };

    fn eq(&self, other: &Named) -> bool {
        self.name() == other.name()
    }
}

impl Eq for Named {
    ghost laws = { on_equiv (λ (e : Entry). e.name) nat_list_eq_equiv };
}

/// The bytes of the name, in one piece.
impl Hash for Named {
    ghost hash_input = { λ (e : Entry). e.name ∷ [] };

    ghost respects_eq = { λ x y same. ap (λ (name : List ℕ). name ∷ []) ((bytes_decides x.name y.name).0 same) };

    fn hash<H: Hasher>(&self, state: &mut H) {
        state.write(self.name());
    }
}
