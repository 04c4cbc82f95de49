//! The contexts that are accepted.
ghost use Rattle.std.specs.Prelude.{◌≡◌, ◌<◌, ◌≤◌, ◌+◌, ◌++◌, ◌∷◌, []};
ghost use Rattle.arrayvec.specs.ArrayVec.{array_vec_len};
ghost use Rattle.w32t_calls.specs.Contexts.{accepted_of, is_accepted};

use arrayvec::ArrayVec;
use rpc_pdu::{Context, ContextList};
use std::marker::Model;

/// Contexts that are accepted, at most.
const CONTEXTS: usize = 8;

/// The numbers of the contexts that a bind offered and that are accepted.
#[derive(Drop)]
pub(crate) struct Accepted {
    ids: ArrayVec<u16, CONTEXTS>,
}

impl Model for Accepted {
    ghost use Rattle.std.specs.Prelude.{ℕ, List, ◌≤◌, length};

    ghost Value = { List ℕ };

    ghost view = { λ a. a.ids.items };

    ghost invariant = { λ a. length a.ids.items ≤ 8 };
}

impl Accepted {
    /// None.
    pub(crate) fn none() -> Accepted
        ensures { result ≡ [] }
    {
        Accepted {
            ids: ArrayVec::new(),
        }
    }

    /// Those of these contexts that are known and have NDR.
    pub(crate) fn of(contexts: &ContextList) -> Accepted
        ensures { result ≡ accepted_of contexts.now }
    {
        let mut ids = ArrayVec::new();
        for i in 0..contexts.len() {
            add_accepted(&mut ids, contexts.at(i));
        }
        Accepted { ids }
    }

    /// Whether this context is among them.
    pub(crate) fn has(&self, id: u16) -> bool
        ensures { result ≡ is_accepted id self.now }
    {
        self.ids.contains(&id)
    }
}

/// Adds the number of a context that is known and has NDR.
fn add_accepted(ids: &mut ArrayVec<u16, CONTEXTS>, context: &Context)
    requires { array_vec_len ids.old < 8 }
    ensures items { ids.new.items ≡ ids.old.items ++ accepted_of (context.now ∷ []) }
    ensures length { array_vec_len ids.new ≤ array_vec_len ids.old + 1 }
{
    if context.known && context.ndr {
        ids.push(context.id);
    }
}
