//! The command `/monitor`: every computer of the settings is asked how far its clock is.
ghost use Rattle.std.specs.Prelude.{◌≡◌};
ghost use Rattle.w32tm_cmd.specs.Config.{status_of};
ghost use Rattle.w32tm_cmd.specs.Monitor.{MonitorPromise};
ghost use Rattle.w32tm_cmd.specs.Seen.{FaultsHaveCauses};
ghost use Rattle.w32tm_cmd.specs.Touching.{MonitorTouches};

use crate::config::status_of;
use crate::{Outside, Status, Tells};
use edge_io::{Clock, Entropy, Link, Sink, Source, Wire};
use monitor_run::{MonitorWhy, monitor};
use settings_source::settings_from;
use slot_disk::Disk;
use std::alloc::Global;

/// Reads the settings, and asks the computers of their directory in its order.
pub(crate) fn ask_computers<S: Source, O: Sink, L: Link, C: Clock, D: Disk, E: Entropy, W: Wire>(
    alloc: Global,
    outside: &mut Outside<S, O, L, C, D, E, W>,
) -> Status
    ensures monitor { let seen = ⟦<Outside<S, O, L, C, D, E, W> as Tells>⟧.seen in
        MonitorPromise (seen outside.old) (seen outside.new) result }
    ensures touches { MonitorTouches outside.old outside.new result }
    ensures causes { let seen = ⟦<Outside<S, O, L, C, D, E, W> as Tells>⟧.seen in
        FaultsHaveCauses (seen outside.old) (seen outside.new) result }
{
    let settings = match settings_from(alloc, &mut outside.config) {
        Ok(settings) => settings,
        Err(fault) => return status_of(fault),
    };
    let why = monitor(
        &settings.directory,
        &mut outside.link,
        &mut outside.clock,
        &mut outside.entropy,
        &mut outside.out,
    );
    match why {
        MonitorWhy::Done => Status::Done,
        MonitorWhy::ClockFault => Status::ClockFault,
        MonitorWhy::EntropyFault => Status::EntropyFault,
        MonitorWhy::WriteFault => Status::WriteFault,
    }
}
