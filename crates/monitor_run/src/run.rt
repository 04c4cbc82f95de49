//! Asking every computer of a directory.
ghost use Rattle.std.specs.Prelude.{◌≡◌, ◌<◌, ◌≤◌, length, IfErr, IfOk, OnOk};
ghost use Rattle.base_specs.specs.Counts.{Rose};
ghost use Rattle.base_specs.specs.Told.{Added};
ghost use Rattle.edge_seen.specs.Seen.{Seen};
ghost use Rattle.monitor_run.specs.declared.why.MonitorWhy.{MonitorWhy};
ghost use Rattle.monitor_run.specs.Monitoring.{Monitors, monitoring};
ghost use Rattle.monitor_run.specs.Progress.{FailsToWrite, Reports, Stops};

use crate::MonitorWhy;
use crate::asking::ask_computer;
use crate::finding::Finding;
use crate::line::{computers_line, line_of};
use edge_traits::{Clock, Entropy, Link, Put, Sink};
use line_text::LongLine;
use partner_pick::{Directory, Entry};

/// Asks every computer of a directory how far its clock is, in the order of the entries, the own computer's too. For
/// each entry the clock is read, a timestamp is drawn (the seconds, then the fraction), the plain request with it is
/// sent to the entry's address, and one receipt is taken; behind a datagram the clock is read again. Then the entry's
/// line is written in one write:
///
/// - `NAME offset=TICKS delay=TICKS stratum=N`, in ticks of 100 ns;
/// - `NAME error=WORD`, where WORD is NoAnswer where nothing came, and else the first of BadLength, BadSource, BadMode,
///   BadStratum, NoRequest and BadTimes that applies.
///
/// Behind them stands `total computers=N answered=N`, which counts the lines without an error. A failed send or receive
/// is no end. A failed call of clock, entropy or sink ends the run, and no call is made behind it.
pub fn monitor<L: Link, C: Clock, E: Entropy, O: Sink>(
    directory: &Directory,
    link: &mut L,
    clock: &mut C,
    entropy: &mut E,
    out: &mut O,
) -> MonitorWhy
    // Whatever the devices tell that are not asked.
    ensures monitors { (others : Seen) → Monitors directory.now
        (monitoring others (L.told link.old) (L.faults link.old) (C.told clock.old) (C.faults clock.old)
        (E.words entropy.old) (E.faults entropy.old) (O.written out.old) (O.faults out.old))
        (monitoring others (L.told link.new) (L.faults link.new) (C.told clock.new) (C.faults clock.new)
        (E.words entropy.new) (E.faults entropy.new) (O.written out.new) (O.faults out.new))
        result }

    // Each fault has its cause, and where there is none the run is done.
    ensures clock_cause { result ≡ MonitorWhy.ClockFault
        → Rose (C.faults clock.old) (C.faults clock.new) }
    ensures entropy_cause { result ≡ MonitorWhy.EntropyFault
        → Rose (E.faults entropy.old) (E.faults entropy.new) }
    ensures write_cause { result ≡ MonitorWhy.WriteFault
        → Rose (O.faults out.old) (O.faults out.new) }
    ensures complete { ¬ Rose (C.faults clock.old) (C.faults clock.new)
        → ¬ Rose (E.faults entropy.old) (E.faults entropy.new)
        → ¬ Rose (O.faults out.old) (O.faults out.new)
        → result ≡ MonitorWhy.Done }

    // No count falls.
    ensures link_count { L.faults link.old ≤ L.faults link.new }
    ensures clock_count { C.faults clock.old ≤ C.faults clock.new }
    ensures entropy_count { E.faults entropy.old ≤ E.faults entropy.new }
    ensures write_count { O.faults out.old ≤ O.faults out.new }
{
    ask_all(directory, link, clock, entropy, out)
}

/// The work of [`monitor`], by `Monitors` alone: the other clauses of that call follow from it.
fn ask_all<L: Link, C: Clock, E: Entropy, O: Sink>(
    directory: &Directory,
    link: &mut L,
    clock: &mut C,
    entropy: &mut E,
    out: &mut O,
) -> MonitorWhy
    ensures { (others : Seen) → Monitors directory.now
        (monitoring others (L.told link.old) (L.faults link.old) (C.told clock.old) (C.faults clock.old)
        (E.words entropy.old) (E.faults entropy.old) (O.written out.old) (O.faults out.old))
        (monitoring others (L.told link.new) (L.faults link.new) (C.told clock.new) (C.faults clock.new)
        (E.words entropy.new) (E.faults entropy.new) (O.written out.new) (O.faults out.new))
        result }
{
    let mut answered = 0;
    for place in 0..directory.len() {
        match report(directory.at(place), link, clock, entropy, out) {
            Ok(finding) => answered += finding.answers(),
            Err(why) => return why,
        }
    }
    match write_line(&computers_line(directory.len(), answered), out) {
        Ok(()) => MonitorWhy::Done,
        Err(why) => why,
    }
}

/// Asks the computer of an entry, and writes its line.
fn report<L: Link, C: Clock, E: Entropy, O: Sink>(
    entry: &Entry,
    link: &mut L,
    clock: &mut C,
    entropy: &mut E,
    out: &mut O,
) -> Result<Finding, MonitorWhy>
    ensures reports { IfOk result (λ finding. (others : Seen) → Reports entry.now
        (monitoring others (L.told link.old) (L.faults link.old) (C.told clock.old) (C.faults clock.old)
        (E.words entropy.old) (E.faults entropy.old) (O.written out.old) (O.faults out.old))
        (monitoring others (L.told link.new) (L.faults link.new) (C.told clock.new) (C.faults clock.new)
        (E.words entropy.new) (E.faults entropy.new) (O.written out.new) (O.faults out.new)) finding) }
    ensures stops { IfErr result (λ why. (others : Seen) → Stops entry.now
        (monitoring others (L.told link.old) (L.faults link.old) (C.told clock.old) (C.faults clock.old)
        (E.words entropy.old) (E.faults entropy.old) (O.written out.old) (O.faults out.old))
        (monitoring others (L.told link.new) (L.faults link.new) (C.told clock.new) (C.faults clock.new)
        (E.words entropy.new) (E.faults entropy.new) (O.written out.new) (O.faults out.new)) why) }
{
    let ask = ask_computer(entry.addr, link, clock, entropy)?;
    let finding = ask.finding(entry.addr);
    write_line(&line_of(&entry.name, finding), out)?;
    Ok(finding)
}

/// Writes a line, in one write.
fn write_line<O: Sink>(line: &LongLine, out: &mut O) -> Result<(), MonitorWhy>
    requires { 0 < length line.now }
    ensures wrote { OnOk result (Added (O.written out.old) (O.written out.new) line.now) }
    ensures no_fault { OnOk result (O.faults out.new ≡ O.faults out.old) }
    ensures broke_off { IfErr result (FailsToWrite line.now
        (O.written out.old) (O.written out.new) (O.faults out.old) (O.faults out.new)) }
{
    match out.write(line.as_slice()) {
        Put::Done => Ok(()),
        Put::Failed => Err(MonitorWhy::WriteFault),
    }
}
