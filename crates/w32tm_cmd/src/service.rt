//! The command `/service`: a member keeps its clock by its domain, as remote calls ask for it.
ghost use Rattle.std.specs.Prelude.{◌≡◌, ◌≤◌};
ghost use Rattle.base_specs.specs.Counts.{Rose};
ghost use Rattle.w32tm_cmd.specs.Config.{status_of};
ghost use Rattle.w32tm_cmd.specs.Seen.{NeverFalls};
ghost use Rattle.w32tm_cmd.specs.Service.{ServicePromise};
ghost use Rattle.w32tm_cmd.specs.Touching.{ServiceTouches};

use crate::config::status_of;
use crate::{Outside, Status, Tells};
use edge_io::{Clock, Entropy, Link, Sink, Source, Wire};
use partner_pick::rank;
use service_run::serve_sessions;
use settings_source::settings_from;
use slot_disk::Disk;
use std::alloc::Global;
use w32tm_text::{ConfFault, conf_of};

/// Reads the settings, and serves so many sessions of the wire at most with a new member of theirs.
pub(crate) fn serve_calls<S: Source, O: Sink, L: Link, C: Clock, D: Disk, E: Entropy, W: Wire>(
    alloc: Global,
    sessions: u32,
    outside: &mut Outside<S, O, L, C, D, E, W>,
) -> Status
    requires most { sessions ≤ 10000 }
    ensures service { let seen = ⟦<Outside<S, O, L, C, D, E, W> as Tells>⟧.seen in
        let disk = ⟦<Outside<S, O, L, C, D, E, W> as Tells>⟧.disk in
        ServicePromise sessions (disk outside.old) (disk outside.new)
        (seen outside.old) (seen outside.new) result }
    ensures touches { ServiceTouches outside.old outside.new result }
    ensures config_fault { let seen = ⟦<Outside<S, O, L, C, D, E, W> as Tells>⟧.seen in
        result ≡ Status.ReadFault → ¬ Rose (seen outside.old).wire_faults (seen outside.new).wire_faults
        → outside.new ≡ record outside.old { config = outside.new.config } }
    ensures counts { let seen = ⟦<Outside<S, O, L, C, D, E, W> as Tells>⟧.seen in
        NeverFalls (seen outside.old) (seen outside.new) }
{
    let settings = match settings_from(alloc, &mut outside.config) {
        Ok(settings) => settings,
        Err(fault) => return status_of(fault),
    };
    let conf = match conf_of(alloc, &settings) {
        Ok(conf) => conf,
        Err(ConfFault::NoPartner) => return Status::NoPartner,
        Err(ConfFault::NoMemory) => return Status::NoMemory,
    };
    let Ok(ranked) = rank(alloc, &settings.directory, settings.role, &settings.name) else {
        return Status::NoMemory;
    };
    serve_sessions(
        conf,
        &settings,
        ranked.as_slice(),
        sessions,
        &mut outside.link,
        &mut outside.clock,
        &mut outside.disk,
        &mut outside.entropy,
        &mut outside.out,
        &mut outside.capture_out,
        &mut outside.wire,
    )
}
