//! All devices of a command, each under the name of what the command does with it.
ghost use Rattle.std.specs.Prelude.{◌≡◌, ℕ, IfOk, None, Some, false, true};
ghost use Rattle.edge_io.specs.declared.tcp_wire.Side.TheVariants.{Closed, Connecting};
ghost use Rattle.edge_traits.specs.declared.datagram.Addr.{Addr};
ghost use Rattle.slot_disk.specs.File.{is_open};
ghost use Rattle.w32tm.specs.Clock.{is_sampled};
ghost use Rattle.w32tm.specs.Devices.{config_by, draws_by, has_socket, has_words, keeper_by, port_by, read_by, recorded_by, samples_by};
ghost use Rattle.w32tm.specs.Input.{is_closed, is_standard};
ghost use Rattle.w32tm.specs.Output.{is_file, is_null};
ghost use Rattle.w32tm.specs.Wire.{IsListening, rpc_port_by, target_by};

use crate::clock::MachineClock;
use crate::devices::{
    capture_of, capture_read, capture_recorded, clock_of, config_of, disk_of, entropy_of, link_of,
    record_of,
};
use crate::input::Input;
use crate::output::Output;
use crate::wire::wire_of;
use edge_io::{
    FileSink, RandomFile, ReaderSource, RealClock, SampleClock, TcpWire, UdpLink, WriterSink,
};
use slot_disk::FileDisk;
use std::alloc::{AllocError, Global};
use std::fs::File;
use std::io::{Read, Write};
use std::net::Net;
use std::rt::Files;
use std::time::Clock;
use w32tm_cmd::Outside;
use w32tm_text::Command;

/// The devices of this command of the words, with standard input and output where it uses these. The error is want of
/// memory for the path of its record or of its samples.
pub(crate) fn outside_of<
    R: Files<File = File> + Net + Clock + Copy + Drop,
    I: Read + Drop,
    W: Write + Drop,
>(
    rt: R,
    alloc: Global,
    stdin: I,
    stdout: W,
    words: &Vec<String>,
    command: &Option<Command>,
) -> Result<
    Outside<
        Input<ReaderSource<I>, ReaderSource<File>>,
        Output<WriterSink<W>, FileSink<R>>,
        UdpLink,
        MachineClock<RealClock<R>, SampleClock<R>>,
        FileDisk,
        RandomFile<File>,
        TcpWire<R>,
    >,
    AllocError,
>
    // Settings are never read from standard input, and what is written goes nowhere else than to standard output.
    ensures config { IfOk result (λ o. is_standard o.config ≡ false) }
    ensures out { IfOk result (λ o. (is_file o.out ≡ false) × (is_null o.out ≡ false)) }

    // What the words don't name is opened by no command.
    ensures no_config { config_by command.now ≡ None → IfOk result (λ o. is_closed o.config ≡ true) }
    ensures no_capture { read_by command.now ≡ None
        → IfOk result (λ o. is_standard o.capture_in ≡ true) }
    ensures no_record { recorded_by command.now ≡ None
        → IfOk result (λ o. is_null o.capture_out ≡ true) }
    ensures no_keeper { keeper_by command.now ≡ None → IfOk result (λ o. is_open o.disk ≡ false) }

    // Without a path of samples the run corrects its clock.
    ensures no_samples { samples_by command.now ≡ None
        → IfOk result (λ o. is_sampled o.clock ≡ false) }

    // Nor what the command doesn't use.
    ensures no_link { port_by command.now ≡ None → IfOk result (λ o. has_socket o.link ≡ false) }
    ensures no_entropy { draws_by command.now ≡ false
        → IfOk result (λ o. has_words o.entropy ≡ false) }

    // A service is called where the command calls one, and it is that of the words.
    ensures called { (to : Addr) → target_by command.now ≡ Some to
        → IfOk result (λ o. o.wire.side ≡ Connecting to) }
    // A service accepts sessions; the others have none.
    ensures served { (port : ℕ) → rpc_port_by command.now ≡ Some port
        → IfOk result (λ o. IsListening o.wire.side) }
    ensures no_wire { target_by command.now ≡ None → rpc_port_by command.now ≡ None
        → IfOk result (λ o. o.wire.side ≡ Closed) }
{
    let (config, keeper, samples, read, recorded) = match command {
        Some(command) => (
            command.config,
            command.keeper,
            command.clock,
            capture_read(command),
            capture_recorded(command),
        ),
        None => (None, None, None, None, None),
    };
    Ok(Outside {
        config: config_of(&rt, words, config),
        capture_in: capture_of(&rt, stdin, words, read),
        out: Output::Standard(WriterSink::new(stdout)),
        capture_out: record_of(rt, alloc, words, recorded)?,
        link: link_of(&rt, command),
        clock: clock_of(rt, alloc, words, samples)?,
        disk: disk_of(&rt, words, keeper),
        entropy: entropy_of(&rt, command),
        wire: wire_of(rt, command),
    })
}
