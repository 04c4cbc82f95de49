//! The command `/show`: the fields of a message are printed.
ghost use Rattle.w32tm_cmd.specs.Seen.{FaultsHaveCauses};
ghost use Rattle.w32tm_cmd.specs.Show.{Shows};
ghost use Rattle.w32tm_cmd.specs.Touching.{ShowTouches};

use crate::writing::write_lines;
use crate::{Outside, Status, Tells};
use dc_sign::Refusal;
use edge_io::{Clock, Entropy, Link, Put, Sink, Source, Wire};
use ms_auth::read_packet;
use slot_disk::Disk;
use w32tm_text::show_lines;

/// Writes the lines of the message that the bytes spell, each in one write.
pub(crate) fn show_message<S: Source, O: Sink, L: Link, C: Clock, D: Disk, E: Entropy, W: Wire>(
    bytes: &[u8],
    outside: &mut Outside<S, O, L, C, D, E, W>,
) -> Status
    ensures show { let seen = ⟦<Outside<S, O, L, C, D, E, W> as Tells>⟧.seen in
        Shows bytes.now (seen outside.old) (seen outside.new) result }
    ensures touches { ShowTouches outside.old outside.new result }
    ensures causes { let seen = ⟦<Outside<S, O, L, C, D, E, W> as Tells>⟧.seen in
        FaultsHaveCauses (seen outside.old) (seen outside.new) result }
{
    let Ok(message) = read_packet(bytes) else {
        return Status::BadRequest {
            reason: Refusal::BadLength,
        };
    };
    match write_lines(&mut outside.out, &show_lines(&message)) {
        Put::Done => Status::Done,
        Put::Failed => Status::WriteFault,
    }
}
