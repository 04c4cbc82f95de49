//! The command `/replay`: a member is stepped through a capture.
ghost use Rattle.std.specs.Prelude.{◌≡◌};
ghost use Rattle.base_specs.specs.Counts.{Rose};
ghost use Rattle.w32tm_cmd.specs.Config.{status_of};
ghost use Rattle.w32tm_cmd.specs.Replay.{ReplayPromise};
ghost use Rattle.w32tm_cmd.specs.Seen.{FaultsHaveCauses};
ghost use Rattle.w32tm_cmd.specs.Touching.{ReplayTouches};

use crate::config::status_of;
use crate::{Outside, Status, Tells};
use edge_io::{Clock, Entropy, Link, Sink, Source, Wire};
use replay_run::{ReplayWhy, replay};
use settings_source::settings_from;
use slot_disk::Disk;
use std::alloc::Global;
use w32tm_text::{ConfFault, conf_of};

/// Reads the settings, and steps a new member of theirs through the capture.
pub(crate) fn replay_capture<S: Source, O: Sink, L: Link, C: Clock, D: Disk, E: Entropy, W: Wire>(
    alloc: Global,
    outside: &mut Outside<S, O, L, C, D, E, W>,
) -> Status
    ensures replay { let seen = ⟦<Outside<S, O, L, C, D, E, W> as Tells>⟧.seen in
        ReplayPromise (seen outside.old) (seen outside.new) result }
    ensures touches { ReplayTouches outside.old outside.new result }
    ensures config_fault { let seen = ⟦<Outside<S, O, L, C, D, E, W> as Tells>⟧.seen in
        result ≡ Status.ReadFault
        → ¬ Rose (seen outside.old).read_faults (seen outside.new).read_faults
        → outside.new ≡ record outside.old { config = outside.new.config } }
    ensures causes { let seen = ⟦<Outside<S, O, L, C, D, E, W> as Tells>⟧.seen in
        FaultsHaveCauses (seen outside.old) (seen outside.new) result }
{
    let settings = match settings_from(alloc, &mut outside.config) {
        Ok(settings) => settings,
        Err(fault) => return status_of(fault),
    };
    let conf = match conf_of(alloc, &settings) {
        Ok(conf) => conf,
        Err(ConfFault::NoPartner) => return Status::NoPartner,
        Err(ConfFault::NoMemory) => return Status::NoMemory,
    };
    match replay(conf, &mut outside.capture_in, &mut outside.out).why {
        ReplayWhy::Done => Status::Done,
        ReplayWhy::BadCapture(at) => Status::BadCapture { at },
        ReplayWhy::ReadFault => Status::ReadFault,
        ReplayWhy::WriteFault => Status::WriteFault,
    }
}
