//! The top call.
ghost use Rattle.std.specs.Prelude.{◌≡◌, ◌↔◌, ℕ, Bool, List};
ghost use Rattle.base_specs.specs.Counts.{Rose};
ghost use Rattle.key_book.specs.declared.account.Account.{Account};
ghost use Rattle.w32t_calls.specs.declared.call.Call.TheVariants.{Bits, Source};
ghost use Rattle.w32tm_cmd.specs.Ask.{AskPromise, sync_call};
ghost use Rattle.w32tm_cmd.specs.Dc.{DcPromise};
ghost use Rattle.w32tm_cmd.specs.Member.{MemberPromise};
ghost use Rattle.w32tm_cmd.specs.Monitor.{MonitorPromise};
ghost use Rattle.w32tm_cmd.specs.Replay.{ReplayPromise};
ghost use Rattle.w32tm_cmd.specs.Seen.{FaultsHaveCauses, NeverFalls};
ghost use Rattle.w32tm_cmd.specs.Service.{IsOverWire, ServicePromise};
ghost use Rattle.w32tm_cmd.specs.Show.{ShowPromise};
ghost use Rattle.w32tm_cmd.specs.Sign.{SignPromise};
ghost use Rattle.w32tm_cmd.specs.Simulate.{SimulatePromise};
ghost use Rattle.w32tm_cmd.specs.Touching.{AskTouches, DcTouches, MemberTouches, MonitorTouches, ReplayTouches, ServiceTouches, ShowTouches, SignTouches, SimulateTouches};
ghost use Rattle.w32tm_text.specs.Words.{IsDc, IsMember, IsMonitor, IsQueryBits, IsQuerySource, IsReplay, IsResync, IsService, IsShow, IsSign, IsSimulate, SpellNothing, texts};

use crate::ask::{ask_computer, sync_call};
use crate::dc::serve_requests;
use crate::member::keep_clock;
use crate::monitor::ask_computers;
use crate::replay::replay_capture;
use crate::service::serve_calls;
use crate::show::show_message;
use crate::sign::sign_request;
use crate::simulate::simulate_world;
use crate::{Outside, Status, Tells};
use client_run::Call;
use edge_io::{Clock, Entropy, Link, Sink, Source, Wire};
use slot_disk::Disk;
use std::alloc::Global;
use w32tm_text::{Action, read_words};

/// Carries out the command that the words spell.
///
/// `/sign:RID:KEY` and `/sign:RID:KEY:PREVIOUS` read a time request from `capture_in`, to its end or to
/// 257 bytes, then read the clock twice, and write to `out` the reply of a controller with that one account
/// and the local information. `/show:HEX` writes to `out` the lines of the message that the bytes spell,
/// each in one write. These two take no memory.
///
/// `/dc:TURNS`, `/member:TURNS`, `/monitor` and `/replay` first read the settings, to the end of their text or to the
/// byte behind the longest. `/dc` serves the accounts for so many receipts of the link, and writes its three closing
/// lines. `/member` keeps the clock by the partners that the settings name: it loads the keeper's mark, and turn by turn
/// sends what is due and takes what came. `/monitor` asks each computer for the time, and writes a line for each and a
/// last one. `/replay` steps a member through the capture of `capture_in`, and writes its report. They take memory for
/// the settings alone, `/member` and `/replay` for their partners too; where there is none no other device is touched.
///
/// `/service:SESSIONS` reads the settings as `/member` does, and then serves so many sessions of remote calls at most, one
/// after the other. A call for a synchronization is one request of its member and the round of receipts behind it.
///
/// `/resync`, `/query /source` and `/query /bits` ask the wire for one session, bind in it and make one call, and write to
/// `out` the line of its answer. They take no memory.
///
/// `/simulate:SEED:N` runs N operations of the seed in a simulated world, records its member's events in `capture_out`, and
/// writes to `out` the three lines of the summary. It takes memory for the operations and for each message.
///
/// A failed call is the last, but for one of the link. In which order two devices are called is tested (`test_orders`).
pub fn w32tm<S: Source, O: Sink, L: Link, C: Clock, D: Disk, E: Entropy, W: Wire>(
    alloc: Global,
    words: &Vec<String>,
    outside: &mut Outside<S, O, L, C, D, E, W>,
) -> Status
    ensures bad_words { (result ≡ Status.BadWords) ↔ SpellNothing (texts words.now.items) }
    ensures untouched { result ≡ Status.BadWords → outside.new ≡ outside.old }

    // What `/sign` asks of the devices and leaves there, for each answer; that the request decides, where it is told; and
    // when it is answered or refused.
    ensures sign { let seen = ⟦<Outside<S, O, L, C, D, E, W> as Tells>⟧.seen in
        (account : Account) → IsSign account (texts words.now.items)
        → SignPromise account (seen outside.old) (seen outside.new) result }
    ensures sign_touches { (account : Account) → IsSign account (texts words.now.items)
        → SignTouches outside.old outside.new result }

    // The same of `/show`, which refuses exactly what is no message.
    ensures show { let seen = ⟦<Outside<S, O, L, C, D, E, W> as Tells>⟧.seen in
        (bytes : List ℕ) → IsShow bytes (texts words.now.items)
        → ShowPromise bytes (seen outside.old) (seen outside.new) result }
    ensures show_touches { (bytes : List ℕ) → IsShow bytes (texts words.now.items)
        → ShowTouches outside.old outside.new result }

    // What `/dc` asks of the devices and leaves there, for each answer; that a bad text is named exactly; and when it
    // is done.
    ensures dc { let seen = ⟦<Outside<S, O, L, C, D, E, W> as Tells>⟧.seen in
        (turns : ℕ) → IsDc turns (texts words.now.items)
        → DcPromise turns (seen outside.old) (seen outside.new) result }
    ensures dc_touches { (turns : ℕ) → IsDc turns (texts words.now.items)
        → DcTouches outside.old outside.new result }

    // The same of `/member`: its requests, corrections, capture and report are the time machine's over the events that
    // were woven of what the devices gave, and each count is reserved before it is sent.
    ensures member { let seen = ⟦<Outside<S, O, L, C, D, E, W> as Tells>⟧.seen in
        let disk = ⟦<Outside<S, O, L, C, D, E, W> as Tells>⟧.disk in
        (turns : ℕ) → IsMember turns (texts words.now.items)
        → MemberPromise turns (disk outside.old) (disk outside.new)
        (seen outside.old) (seen outside.new) result }
    ensures member_touches { (turns : ℕ) → IsMember turns (texts words.now.items)
        → MemberTouches outside.old outside.new result }

    // The same of `/monitor`.
    ensures monitor { let seen = ⟦<Outside<S, O, L, C, D, E, W> as Tells>⟧.seen in
        IsMonitor (texts words.now.items)
        → MonitorPromise (seen outside.old) (seen outside.new) result }
    ensures monitor_touches { IsMonitor (texts words.now.items)
        → MonitorTouches outside.old outside.new result }

    // The same of `/replay`, which also names a bad capture and the want of a partner exactly.
    ensures replay { let seen = ⟦<Outside<S, O, L, C, D, E, W> as Tells>⟧.seen in
        IsReplay (texts words.now.items)
        → ReplayPromise (seen outside.old) (seen outside.new) result }
    ensures replay_touches { IsReplay (texts words.now.items)
        → ReplayTouches outside.old outside.new result }
    ensures replay_config_fault { let seen = ⟦<Outside<S, O, L, C, D, E, W> as Tells>⟧.seen in
        IsReplay (texts words.now.items) → result ≡ Status.ReadFault
        → ¬ Rose (seen outside.old).read_faults (seen outside.new).read_faults
        → outside.new ≡ record outside.old { config = outside.new.config } }

    // The same of `/service`: each session is answered as its bytes ask, the events of its member are woven of its calls,
    // and the wire is asked for so many sessions at most. A failed read of the settings leaves all else as it was.
    ensures service { let seen = ⟦<Outside<S, O, L, C, D, E, W> as Tells>⟧.seen in
        let disk = ⟦<Outside<S, O, L, C, D, E, W> as Tells>⟧.disk in
        (sessions : ℕ) → IsService sessions (texts words.now.items)
        → ServicePromise sessions (disk outside.old) (disk outside.new)
        (seen outside.old) (seen outside.new) result }
    ensures service_touches { (sessions : ℕ) → IsService sessions (texts words.now.items)
        → ServiceTouches outside.old outside.new result }
    ensures service_config_fault { let seen = ⟦<Outside<S, O, L, C, D, E, W> as Tells>⟧.seen in
        (sessions : ℕ) → IsService sessions (texts words.now.items) → result ≡ Status.ReadFault
        → ¬ Rose (seen outside.old).wire_faults (seen outside.new).wire_faults
        → outside.new ≡ record outside.old { config = outside.new.config } }

    // What `/resync` asks of the wire and prints, for each answer; that the bytes of the session decide; and when it is
    // answered or refused.
    ensures resync { let seen = ⟦<Outside<S, O, L, C, D, E, W> as Tells>⟧.seen in
        (wait rediscover : Bool) → IsResync wait rediscover (texts words.now.items)
        → AskPromise (sync_call wait rediscover) (seen outside.old) (seen outside.new) result }
    ensures resync_touches { (wait rediscover : Bool)
        → IsResync wait rediscover (texts words.now.items)
        → AskTouches outside.old outside.new result }

    // The same of `/query`.
    ensures query_source { let seen = ⟦<Outside<S, O, L, C, D, E, W> as Tells>⟧.seen in
        IsQuerySource (texts words.now.items)
        → AskPromise Source (seen outside.old) (seen outside.new) result }
    ensures query_source_touches { IsQuerySource (texts words.now.items)
        → AskTouches outside.old outside.new result }
    ensures query_bits { let seen = ⟦<Outside<S, O, L, C, D, E, W> as Tells>⟧.seen in
        IsQueryBits (texts words.now.items)
        → AskPromise Bits (seen outside.old) (seen outside.new) result }
    ensures query_bits_touches { IsQueryBits (texts words.now.items)
        → AskTouches outside.old outside.new result }

    // What `/simulate` records and prints, for each answer: the events and the summary of the world that the seed and the
    // number of operations determine.
    ensures simulate { let seen = ⟦<Outside<S, O, L, C, D, E, W> as Tells>⟧.seen in
        (seed operations : ℕ) → IsSimulate seed operations (texts words.now.items)
        → SimulatePromise seed operations (seen outside.old) (seen outside.new) result }
    ensures simulate_touches { (seed operations : ℕ)
        → IsSimulate seed operations (texts words.now.items)
        → SimulateTouches outside.old outside.new }

    // No count falls.
    ensures counts { let seen = ⟦<Outside<S, O, L, C, D, E, W> as Tells>⟧.seen in
        NeverFalls (seen outside.old) (seen outside.new) }

    // Each fault has its cause. On `/service`, `/resync` and `/query`, whose faults may be the wire's, that is said above.
    ensures causes { let seen = ⟦<Outside<S, O, L, C, D, E, W> as Tells>⟧.seen in
        (IsOverWire (texts words.now.items) → ⊥)
        → FaultsHaveCauses (seen outside.old) (seen outside.new) result }
{
    match read_words(words) {
        Err(_) => Status::BadWords,
        Ok(command) => match command.action {
            Action::Sign(account) => sign_request(&account, outside),
            Action::Show(bytes) => show_message(bytes.as_slice(), outside),
            Action::Dc(turns) => serve_requests(alloc, turns, outside),
            Action::Member(turns) => keep_clock(alloc, turns, outside),
            Action::Monitor => ask_computers(alloc, outside),
            Action::Replay => replay_capture(alloc, outside),
            Action::Resync { wait, rediscover } => {
                ask_computer(sync_call(wait, rediscover), outside)
            }
            Action::QuerySource => ask_computer(Call::Source, outside),
            Action::QueryBits => ask_computer(Call::Bits, outside),
            Action::Simulate(seed, operations) => simulate_world(alloc, seed, operations, outside),
            Action::Service(sessions) => serve_calls(alloc, sessions, outside),
        },
    }
}
