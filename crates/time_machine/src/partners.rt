//! The controllers that a member asks.
ghost use Rattle.std.specs.Prelude.{◌≡◌, ◌<◌, length};

use edge_traits::Addr;
use std::marker::Model;

/// The addresses of the ranked controllers, the best one first. There is one at least.
#[derive(Drop)]
pub struct Partners {
    list: Vec<Addr>,
}

impl Model for Partners {
    ghost use Rattle.std.specs.Prelude.{List, ◌<◌, length};
    ghost use Rattle.edge_traits.specs.declared.datagram.Addr.{Addr};

    ghost Value = { List Addr };

    ghost view = { λ p. p.list.items };

    ghost invariant = { λ p. 0 < length p.list.items };
}

impl Partners {
    /// The addresses, of which there has to be one.
    pub fn new(list: Vec<Addr>) -> Partners
        requires { 0 < length list.items }
        ensures { result ≡ list.items }
    {
        Partners { list }
    }

    /// The addresses in the order of their rank.
    pub fn as_slice(&self) -> &[Addr]
        ensures list { result.now ≡ self.now }
        ensures some { 0 < length result.now }
    {
        self.list.as_slice()
    }
}
