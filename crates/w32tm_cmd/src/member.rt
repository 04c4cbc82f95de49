//! The command `/member`: a member keeps its clock by its domain.
ghost use Rattle.std.specs.Prelude.{◌≡◌};
ghost use Rattle.w32tm_cmd.specs.Config.{status_of};
ghost use Rattle.w32tm_cmd.specs.Member.{MemberPromise};
ghost use Rattle.w32tm_cmd.specs.Seen.{FaultsHaveCauses};
ghost use Rattle.w32tm_cmd.specs.Touching.{MemberTouches};

use crate::config::status_of;
use crate::{Outside, Status, Tells};
use edge_io::{Clock, Entropy, Link, Sink, Source, Wire};
use member_run::{Why, live};
use settings_source::settings_from;
use slot_disk::Disk;
use std::alloc::Global;
use w32tm_text::{ConfFault, conf_of};

/// Reads the settings, and runs a new member of theirs for so many turns.
pub(crate) fn keep_clock<S: Source, O: Sink, L: Link, C: Clock, D: Disk, E: Entropy, W: Wire>(
    alloc: Global,
    turns: u32,
    outside: &mut Outside<S, O, L, C, D, E, W>,
) -> Status
    ensures member { let seen = ⟦<Outside<S, O, L, C, D, E, W> as Tells>⟧.seen in
        let disk = ⟦<Outside<S, O, L, C, D, E, W> as Tells>⟧.disk in
        MemberPromise turns (disk outside.old) (disk outside.new)
        (seen outside.old) (seen outside.new) result }
    ensures touches { MemberTouches outside.old outside.new result }
    ensures causes { let seen = ⟦<Outside<S, O, L, C, D, E, W> as Tells>⟧.seen in
        FaultsHaveCauses (seen outside.old) (seen outside.new) result }
{
    let settings = match settings_from(alloc, &mut outside.config) {
        Ok(settings) => settings,
        Err(fault) => return status_of(fault),
    };
    let conf = match conf_of(alloc, &settings) {
        Ok(conf) => conf,
        Err(ConfFault::NoPartner) => return Status::NoPartner,
        Err(ConfFault::NoMemory) => return Status::NoMemory,
    };
    let end = live(
        conf,
        turns,
        &mut outside.link,
        &mut outside.clock,
        &mut outside.disk,
        &mut outside.entropy,
        &mut outside.out,
        &mut outside.capture_out,
    );
    match end.why {
        Why::Done => Status::Done,
        Why::DiskFault => Status::DiskFault,
        Why::BadVersion => Status::BadKeeper,
        Why::StampsSpent => Status::StampsSpent,
        Why::ClockFault => Status::ClockFault,
        Why::EntropyFault => Status::EntropyFault,
        Why::SinkFault => Status::WriteFault,
    }
}
