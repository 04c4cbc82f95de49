//! The command `/dc`: a controller answers and signs what comes over the link.
ghost use Rattle.std.specs.Prelude.{◌≡◌};
ghost use Rattle.w32tm_cmd.specs.Dc.{DcPromise};
ghost use Rattle.w32tm_cmd.specs.Seen.{FaultsHaveCauses};
ghost use Rattle.w32tm_cmd.specs.Touching.{DcTouches};

use crate::config::status_of;
use crate::writing::write_lines;
use crate::{Outside, Status, Tells};
use dc_sign::{ServeWhy, serve};
use edge_io::{Clock, Entropy, Link, Put, Sink, Source, Wire};
use settings_source::settings_from;
use slot_disk::Disk;
use std::alloc::Global;
use w32tm_text::dc_lines;

/// Reads the settings, serves so many turns with their accounts, and writes the closing lines, each in one write.
pub(crate) fn serve_requests<S: Source, O: Sink, L: Link, C: Clock, D: Disk, E: Entropy, W: Wire>(
    alloc: Global,
    turns: u32,
    outside: &mut Outside<S, O, L, C, D, E, W>,
) -> Status
    ensures dc { let seen = ⟦<Outside<S, O, L, C, D, E, W> as Tells>⟧.seen in
        DcPromise turns (seen outside.old) (seen outside.new) result }
    ensures touches { DcTouches outside.old outside.new result }
    ensures causes { let seen = ⟦<Outside<S, O, L, C, D, E, W> as Tells>⟧.seen in
        FaultsHaveCauses (seen outside.old) (seen outside.new) result }
{
    let settings = match settings_from(alloc, &mut outside.config) {
        Ok(settings) => settings,
        Err(fault) => return status_of(fault),
    };
    let end = serve(turns, &mut outside.link, &mut outside.clock, &settings.book);
    match end.why {
        ServeWhy::ClockFault => Status::ClockFault,
        ServeWhy::Done => match write_lines(&mut outside.out, &dc_lines(&end)) {
            Put::Done => Status::Done,
            Put::Failed => Status::WriteFault,
        },
    }
}
