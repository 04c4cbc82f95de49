//! The devices that a command works with.
use edge_io::{Clock, Entropy, Link, Sink, Source, Wire};
use slot_disk::Disk;

/// The devices, each under the name of what a command does with it.
#[derive(Drop)]
pub struct Outside<S: Source, O: Sink, L: Link, C: Clock, D: Disk, E: Entropy, W: Wire> {
    /// The settings text.
    pub config: S,
    /// What is read: for `/sign` the request, for `/replay` the capture.
    pub capture_in: S,
    /// What is printed: for `/sign` the reply, else the lines of the command.
    pub out: O,
    /// Where the events of `/member`, `/service` and `/simulate` are recorded.
    pub capture_out: O,
    /// Where datagrams are sent and received.
    pub link: L,
    /// The clock that is read and corrected.
    pub clock: C,
    /// Where counts are reserved before they are sent.
    pub disk: D,
    /// Where random words come from.
    pub entropy: E,
    /// Where sessions of remote calls come from.
    pub wire: W,
}

/// All that the devices tell at a moment, and their counts of failed calls. The clauses speak of the
/// devices through this alone, so each device is told of under a name of its own.
pub trait Tells {
    ghost use Rattle.slot_disk.specs.Told.{DiskTold};
    ghost use Rattle.edge_seen.specs.Seen.{Seen};

    /// What is told at a moment, by all but the disk.
    ghost seen: { Self → Seen };

    /// What the disk tells.
    ghost disk: { Self → DiskTold };
}

impl<S: Source, O: Sink, L: Link, C: Clock, D: Disk, E: Entropy, W: Wire> Tells
    for Outside<S, O, L, C, D, E, W> {
    ghost seen = { λ o. record {
      config = S.left o.config;
      config_faults = S.faults o.config;
      left = S.left o.capture_in;
      read_faults = S.faults o.capture_in;
      written = O.written o.out;
      write_faults = O.faults o.out;
      capture = O.written o.capture_out;
      capture_faults = O.faults o.capture_out;
      link = L.told o.link;
      link_faults = L.faults o.link;
      clock = C.told o.clock;
      clock_faults = C.faults o.clock;
      disk_faults = D.faults o.disk;
      words = E.words o.entropy;
      entropy_faults = E.faults o.entropy;
      wire = W.told o.wire;
      wire_faults = W.faults o.wire;
      wire_write_faults = W.write_faults o.wire;
    } };

    ghost disk = { λ o. D.told o.disk };
}
