//! What a member is set to by its settings.
ghost use Rattle.std.specs.Prelude.{◌≡◌, ◌<◌, ◌⊎◌, ◌↔◌, ℕ, All, Err, IfOk, Ok, Some, length, map};
ghost use Rattle.time_machine.specs.declared.conf.Conf.{Conf};
ghost use Rattle.w32tm_text.specs.declared.conf.ConfFault.{ConfFault};
ghost use Rattle.w32tm_text.specs.Conf.{ArePartners, HasNoCandidate, IsConfOf, address_at};

use edge_traits::Addr;
use key_book::Keys;
use partner_pick::{Directory, NoMemory, best, rank};
use std::alloc::{AllocError, Global};
use thiserror::Error;
use time_machine::{Conf, Partners};
use w32t_settings::Settings;

/// Why settings give nothing that a member could be set to.
#[derive(Clone, Copy, Debug, PartialEq, Eq, Error)]
pub enum ConfFault {
    /// No computer of the directory is a candidate for the role.
    #[error("no partner")]
    NoPartner,
    /// There is no memory for the addresses.
    #[error("no memory")]
    NoMemory,
}

/// What a member with these settings is set to: the account of Rid, and the addresses of the candidates in rank.
///
/// [`ConfFault::NoPartner`] comes exactly where the directory has no candidate, whether there is memory or not.
/// [`ConfFault::NoMemory`] comes for want of memory.
pub fn conf_of(alloc: Global, settings: &Settings) -> Result<Conf, ConfFault>
    ensures answer { IfOk result (IsConfOf settings.now) }
    // What the settings say is answered, unless there is no memory.
    ensures exact { (conf : Conf) → IsConfOf settings.now conf
        → (result ≡ Ok conf) ⊎ (result ≡ Err ConfFault.NoMemory) }
    ensures no_partner { (result ≡ Err ConfFault.NoPartner) ↔ HasNoCandidate settings.now }
    // Settings say one thing at most.
    ensures one { (conf other : Conf) → IsConfOf settings.now conf → IsConfOf settings.now other
        → conf ≡ other }
{
    // This takes no memory, so that want of it never hides that there is no partner.
    if best(&settings.directory, settings.role, &settings.name).is_none() {
        return Err(ConfFault::NoPartner);
    }
    let Ok(list) = partners_of(alloc, settings) else {
        return Err(ConfFault::NoMemory);
    };
    Ok(Conf {
        kind: settings.kind,
        account: settings.book.find(settings.rid).unwrap(),
        limits: settings.limits,
        partners: Partners::new(list),
    })
}

/// The addresses of the candidates, in rank.
fn partners_of(alloc: Global, settings: &Settings) -> Result<Vec<Addr>, NoMemory>
    ensures { IfOk result (λ list. ArePartners settings.now list.items) }
{
    let places = rank(alloc, &settings.directory, settings.role, &settings.name)?;
    addresses_at(alloc, &settings.directory, &places).map_err(|_| NoMemory)
}

/// The addresses of the computers at these places, in their order.
fn addresses_at(
    alloc: Global,
    directory: &Directory,
    places: &[usize],
) -> Result<Vec<Addr>, AllocError>
    requires { All (λ place. place < length directory.now) places.now }
    ensures { IfOk result (λ list.
        map (address_at directory.now) places.now ≡ map Some list.items) }
{
    let mut addresses = Vec::with_capacity(alloc, places.len())?;
    for place in places {
        addresses.push(directory.at(*place).addr)?;
    }
    Ok(addresses)
}
