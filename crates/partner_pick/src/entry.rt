//! The entries of a directory, and what each is worth.
ghost use Rattle.std.specs.Prelude.{◌≡◌, ◌≤◌, ◌↔◌, IsSome, IsTrue};
ghost use Rattle.partner_pick.specs.Queries.{first_query, points, score_of};

use crate::NameText;
use edge_traits::Addr;

/// A controller that may be asked for the time.
#[derive(Drop)]
pub struct Entry {
    /// The computer's name, compared byte by byte.
    pub name: NameText,
    /// Where it is asked.
    pub addr: Addr,
    /// It is in the same site.
    pub in_site: bool,
    /// It is a reliable time source.
    pub reliable: bool,
    /// It is of the parent domain, and else of the own domain.
    pub parent: bool,
    /// It is the PDC emulator of its domain.
    pub pdc: bool,
}

/// What a computer is in its domain, which decides the queries that it asks.
#[derive(Clone, Copy, Debug, PartialEq, Eq)]
pub enum Role {
    /// It asks for any controller of its own domain, in its site (1) and out of it (2). These two queries are this
    /// project's own; those of the other roles are the Windows Time service's.
    Member,
    /// It asks for the parent domain (1), for a reliable source of its own domain (2) and for its own
    /// domain's PDC emulator (3) in its site, and then for the same out of it (4, 5, 6).
    Controller,
    /// The PDC emulator asks what a controller asks, but for a PDC emulator.
    Pdc,
}

/// How much an entry is worth: 8 in the site, 4 for a reliable source, 2 for the parent domain and 1 for a
/// PDC emulator, added up (the score of a time source, How the Windows Time Service Works).
pub fn score(entry: &Entry) -> u8
    ensures score { result ≡ score_of entry.now }
    ensures within { result ≤ 15 }
{
    points(8, entry.in_site)
        + points(4, entry.reliable)
        + points(2, entry.parent)
        + points(1, entry.pdc)
}

/// So many points for a flag that is set.
fn points(worth: u8, flag: bool) -> u8
    ensures { result ≡ points worth flag }
{
    if flag { worth } else { 0 }
}

/// Whether an entry matches a query of the role. Each kind that is asked for has a query in the site and one out
/// of it.
pub(crate) fn is_asked_for(entry: &Entry, role: Role) -> bool
    ensures { IsTrue result ↔ IsSome (first_query role entry.now) }
{
    match role {
        Role::Member => !entry.parent,
        Role::Controller => entry.parent || entry.reliable || entry.pdc,
        Role::Pdc => entry.parent || entry.reliable,
    }
}
