//! The commands `/resync` and `/query`: a computer is asked over the wire, and its answer is printed.
ghost use Rattle.std.specs.Prelude.{◌≡◌, ◌<◌, length};
ghost use Rattle.w32tm_cmd.specs.Ask.{AskPromise, answer_line, status_given, sync_call};
ghost use Rattle.w32tm_cmd.specs.Seen.{NeverFalls};
ghost use Rattle.w32tm_cmd.specs.Touching.{AskTouches};

use crate::{Outside, Status, Tells};
use client_run::{AskFault, Call, Given, ask};
use edge_io::{Clock, Entropy, Link, Put, Sink, Source, Wire};
use line_text::LineText;
use slot_disk::Disk;
use w32tm_text::{bits_line, resync_line, source_line};

/// The flags of a call to synchronize, and of one before which the partners are looked for anew.
const SYNC_FLAGS: u32 = 2;

const REDISCOVER_FLAGS: u32 = 6;

/// Makes the call in one session, and writes the line of its answer, in one write.
pub(crate) fn ask_computer<S: Source, O: Sink, L: Link, C: Clock, D: Disk, E: Entropy, W: Wire>(
    call: Call,
    outside: &mut Outside<S, O, L, C, D, E, W>,
) -> Status
    ensures ask { let seen = ⟦<Outside<S, O, L, C, D, E, W> as Tells>⟧.seen in
        AskPromise call (seen outside.old) (seen outside.new) result }
    ensures touches { AskTouches outside.old outside.new result }
    ensures counts { let seen = ⟦<Outside<S, O, L, C, D, E, W> as Tells>⟧.seen in
        NeverFalls (seen outside.old) (seen outside.new) }
{
    let given = match ask(call, &mut outside.wire) {
        Ok(given) => given,
        Err(AskFault::Refused) => return Status::PeerRefused,
        Err(AskFault::ReadFault) => return Status::ReadFault,
        Err(AskFault::WriteFault) => return Status::WriteFault,
    };
    match outside.out.write(answer_line(&given).as_slice()) {
        Put::Done => status_of(&given),
        Put::Failed => Status::WriteFault,
    }
}

/// The call of `/resync`.
pub(crate) fn sync_call(wait: bool, rediscover: bool) -> Call
    ensures { result ≡ sync_call wait rediscover }
{
    Call::Sync {
        wait: u32::from(wait),
        flags: if rediscover {
            REDISCOVER_FLAGS
        } else {
            SYNC_FLAGS
        },
    }
}

/// The line of an answer.
#[tactic(auto, unfolding(w32tm_text::specs::Calls::bits_line))]
fn answer_line(given: &Given) -> LineText
    ensures line { result ≡ answer_line given.now }
    ensures some { 0 < length result }
{
    match given {
        Given::Synced(result) => resync_line(*result),
        Given::Bits(bits) => bits_line(*bits),
        Given::Source(name) => source_line(name),
    }
}

/// How a command ends that was given this answer.
fn status_of(given: &Given) -> Status
    ensures { result ≡ status_given given.now }
{
    match given {
        Given::Synced(result) if *result != 0 => Status::NotResynced { result: *result },
        _ => Status::Done,
    }
}
