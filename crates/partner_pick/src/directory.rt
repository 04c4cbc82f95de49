//! The list of the computers that may be asked.
ghost use Rattle.std.specs.Prelude.{◌≡◌, ◌<◌, ◌↔◌, ◌∷◌, ◌++◌, [], Err, OnErr, OnOk, Some, length, slice_get};
ghost use Rattle.partner_pick.specs.Names.{AreDistinct, HasName};

use crate::Entry;
use crate::named::Named;
use indexmap::IndexSet;
use std::alloc::Global;
use std::marker::Model;

/// Why an entry isn't added to a directory.
#[derive(Clone, Copy, Debug, Drop, PartialEq, Eq)]
pub enum AddFault {
    /// An entry of the same name is there already.
    Twice,
    /// There is no memory for it.
    NoMemory,
}

/// Entries with distinct names, in the order of their lines.
///
/// They stand in a set that keeps the order, so that a name is looked up without a look at the others.
#[derive(Drop)]
pub struct Directory {
    entries: IndexSet<Named>,
}

impl Model for Directory {
    ghost use Rattle.std.specs.Prelude.{List};
    ghost use Rattle.partner_pick.specs.declared.entry.Entry.{Entry};
    ghost use Rattle.partner_pick.specs.Names.{AreDistinct};

    ghost Value = { List Entry };

    ghost view = { λ directory. directory.entries.keys };

    ghost invariant = { λ directory. AreDistinct directory.entries.keys };
}

impl Directory {
    /// A directory without entries.
    pub fn new(alloc: Global) -> Directory
        ensures { result ≡ [] }
    {
        Directory {
            entries: IndexSet::new(alloc),
        }
    }

    /// How many entries there are.
    pub fn len(&self) -> usize
        ensures len { result ≡ length self.now }
        ensures distinct { AreDistinct self.now }
    {
        self.entries.len()
    }

    /// The entry of a place, counted from 0.
    pub fn at(&self, i: usize) -> &Entry
        requires { i < length self.now }
        ensures { slice_get self.now i ≡ Some result.now }
    {
        self.entries.as_slice()[i].entry()
    }

    /// Adds an entry at the end, unless one of its name is there.
    pub fn add(&mut self, entry: Entry) -> Result<(), AddFault>
        ensures ok { OnOk result (self.new ≡ self.old ++ entry ∷ []) }
        ensures twice { (result ≡ Err AddFault.Twice) ↔ HasName self.old entry.name }
        ensures err { OnErr result (self.new ≡ self.old) }
    {
        match self.entries.insert(Named::new(entry)) {
            Ok(true) => Ok(()),
            Ok(false) => Err(AddFault::Twice),
            Err(_) => Err(AddFault::NoMemory),
        }
    }
}
