//! The command `/sign`: a time request is read and answered as a domain controller answers it.
ghost use Rattle.w32tm_cmd.specs.Seen.{FaultsHaveCauses};
ghost use Rattle.w32tm_cmd.specs.Sign.{Signs};
ghost use Rattle.w32tm_cmd.specs.Touching.{SignTouches};

use crate::{Outside, Status, Tells};
use dc_sign::{Answer, ServerInfo, answer, two_readings};
use edge_io::{Clock, DATAGRAM_LEN, Entropy, Filled, Link, Put, Sink, Source, Wire, fill_front};
use key_book::Account;
use slot_disk::Disk;

/// The most bytes that are read of a request: one more than a datagram holds, so that a longer input is
/// seen to be longer.
const INPUT_LEN: usize = DATAGRAM_LEN + 1;

/// Reads the request, then the clock twice, and writes the reply under the account in one write.
pub(crate) fn sign_request<S: Source, O: Sink, L: Link, C: Clock, D: Disk, E: Entropy, W: Wire>(
    account: &Account,
    outside: &mut Outside<S, O, L, C, D, E, W>,
) -> Status
    ensures sign { let seen = ⟦<Outside<S, O, L, C, D, E, W> as Tells>⟧.seen in
        Signs account.now (seen outside.old) (seen outside.new) result }
    ensures touches { SignTouches outside.old outside.new result }
    ensures causes { let seen = ⟦<Outside<S, O, L, C, D, E, W> as Tells>⟧.seen in
        FaultsHaveCauses (seen outside.old) (seen outside.new) result }
{
    let mut input = [0; INPUT_LEN];
    let Filled::Bytes(count) = fill_front(&mut outside.capture_in, &mut input) else {
        return Status::ReadFault;
    };
    let Some((t2, t3)) = two_readings(&mut outside.clock) else {
        return Status::ClockFault;
    };
    match answer(account, &ServerInfo::local(t2), &input[..count], t2, t3) {
        Answer::Signed(reply) | Answer::Plain(reply) => match outside.out.write(reply.as_slice()) {
            Put::Done => Status::Done,
            Put::Failed => Status::WriteFault,
        },
        Answer::Refused(reason) => Status::BadRequest { reason },
    }
}
