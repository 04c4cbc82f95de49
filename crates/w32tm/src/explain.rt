//! Why something that a command names can't be opened, where the environment asks for it.

use crate::devices::{capture_read, capture_recorded, path_in, port_by};
use crate::wire::{rpc_port_by, target_by};
use edge_io::{Addr, UdpLink};
use libc::net::{POLLERR, POLLOUT, poll};
use libc::types::pollfd;
use slot_disk::FileDisk;
use std::alloc::{AllocError, Global};
use std::fs::{File, OpenOptions};
use std::io;
use std::net::{Ipv4Addr, Net, SocketAddr, SocketAddrV4, TcpListener, TcpStream};
use std::os::fd::AsRawFd;
use std::rt::{Env, Files};
use std::time::Duration;
use w32tm_cmd::Status;
use w32tm_text::Command;

/// The variable of the environment that asks for it, where it is 1.
const VARIABLE: &str = "W32TM_EXPLAIN";

/// How many seconds a connection waits for the peer, as that of the run did.
const CONNECT_SECONDS: u64 = 30;

/// Whether the environment asks for it.
pub(crate) fn is_asked<R: Env>(environment: &R) -> bool {
    let mut value = [0; 2];
    matches!(environment.var(VARIABLE, &mut value), Ok(1)) && value[0] == b'1'
}

/// A line for each thing that the command names and that can't be opened: its path, port or address, and the reason, in
/// the words of the system or of the keeper's disk. A pipe of samples that nobody reads has a line too.
///
/// Each is opened once more, as the run opened it. So the run must have closed its own, and what can be opened by now
/// has no line. A capture that is recorded is tried only where a write failed, since the first write opens it, the samples
/// of a clock only where a reading failed, and a service that is called only where a read failed.
pub(crate) fn explanation<R: Files<File = File> + Net>(
    rt: &R,
    alloc: Global,
    words: &Vec<String>,
    command: &Option<Command>,
    status: &Status,
) -> Result<String, AllocError> {
    let mut text = String::new(alloc);
    if let Some(command) = command {
        add_files(&mut text, rt, words, command, status)?;
    }
    if let Some(port) = port_by(command)
        && let Err(reason) = UdpLink::bind(rt, port)
    {
        writeln!(text, "w32tm: port {port}: {reason}")?;
    }
    if let Some(port) = rpc_port_by(command)
        && let Err(reason) = TcpListener::bind(rt, SocketAddrV4::new(Ipv4Addr::UNSPECIFIED, port))
    {
        writeln!(text, "w32tm: port {port} of remote calls: {reason}")?;
    }
    if *status == Status::ReadFault
        && let Some(target) = target_by(command)
    {
        add_target(&mut text, rt, target)?;
    }
    Ok(text)
}

/// Adds the lines of the command's files.
fn add_files<R: Files<File = File>>(
    text: &mut String,
    files: &R,
    words: &Vec<String>,
    command: &Command,
    status: &Status,
) -> Result<(), AllocError> {
    let config = path_in(words, command.config, "/config:");
    add_file(text, files, config, OpenOptions::new().read(true))?;
    let capture = path_in(words, capture_read(command), "/capture:");
    add_file(text, files, capture, OpenOptions::new().read(true))?;
    if let Some(path) = path_in(words, command.keeper, "/keeper:")
        && let Err(reason) = FileDisk::open(files, path)
    {
        writeln!(text, "w32tm: {path}: {reason}")?;
    }
    if *status == Status::ClockFault
        && let Some(path) = path_in(words, command.clock, "/clock:")
    {
        add_samples(text, files, path)?;
    }
    if *status == Status::WriteFault {
        let record = path_in(words, capture_recorded(command), "/capture:");
        add_file(text, files, record, OpenOptions::new().write(true))?;
    }
    Ok(())
}

/// Adds the line of a file that can't be opened in this way.
fn add_file<R: Files>(
    text: &mut String,
    files: &R,
    path: Option<&str>,
    how: &OpenOptions,
) -> Result<(), AllocError> {
    if let Some(path) = path
        && let Err(reason) = how.open(files, path)
    {
        writeln!(text, "w32tm: {path}: {reason}")?;
    }
    Ok(())
}

/// Adds the line of what takes samples, where it can't be opened or where nobody reads it.
fn add_samples<R: Files<File = File>>(
    text: &mut String,
    files: &R,
    path: &str,
) -> Result<(), AllocError> {
    match samples_at(files, path) {
        Ok(samples) if is_unread(&samples) => {
            writeln!(text, "w32tm: {path}: a pipe that nobody reads")?;
        }
        Ok(_) => {}
        Err(reason) => writeln!(text, "w32tm: {path}: {reason}")?,
    }
    Ok(())
}

/// Opens what takes samples, to write. To open a pipe for both first waits for no reader.
fn samples_at<R: Files>(files: &R, path: &str) -> io::Result<R::File> {
    let _both = OpenOptions::new().read(true).write(true).open(files, path)?;
    OpenOptions::new().append(true).open(files, path)
}

/// Whether it is the end of a pipe that nobody reads. Nothing is written to find out.
fn is_unread(file: &File) -> bool {
    let mut asked = [pollfd {
        fd: file.as_raw_fd(),
        events: POLLOUT,
        revents: 0,
    }];
    poll(&mut asked, 0) > 0 && asked[0].revents & POLLERR != 0
}

/// Adds the line of a service that can't be connected to.
fn add_target<R: Net>(text: &mut String, net: &R, target: Addr) -> Result<(), AllocError> {
    let to = SocketAddrV4::new(Ipv4Addr::from_bits(target.ip), target.port);
    let limit = Duration::from_secs(CONNECT_SECONDS);
    if let Err(reason) = TcpStream::connect_timeout(net, &SocketAddr::V4(to), limit) {
        writeln!(text, "w32tm: {to}: {reason}")?;
    }
    Ok(())
}

#[cfg(test)]
mod tests {
    use super::*;
    use edge_io::TcpWire;
    use std::io::pipe;
    use std::test::Fail;
    use w32tm_text::read_words;

    // Words, how their run ended, and the lines. The reasons are those of the C library.
    const RUNS: &[(&[&str], Status, &str)] = &[
        (&["/nothing"], Status::BadWords, ""),
        (&["/monitor", "/config:/dev/null"], Status::Done, ""),
        (
            &["/replay", "/config:/no/c", "/capture:/dev/null/e"],
            Status::ReadFault,
            "w32tm: /no/c: No such file or directory (os error 2)\n\
             w32tm: /dev/null/e: Not a directory (os error 20)\n",
        ),
        (
            &[
                "/member:1",
                "/config:/dev/null",
                "/keeper:/",
                "/capture:/no/e",
            ],
            Status::DiskFault,
            "w32tm: /: Is a directory (os error 21)\n",
        ),
        (
            &[
                "/member:1",
                "/config:/dev/null",
                "/keeper:/dev/null",
                "/clock:/no/s",
            ],
            Status::ClockFault,
            "w32tm: /dev/null: not a regular file\n\
             w32tm: /no/s: No such file or directory (os error 2)\n",
        ),
        (
            &[
                "/member:1",
                "/config:/dev/null",
                "/keeper:/dev/null",
                "/capture:/no/e",
            ],
            Status::WriteFault,
            "w32tm: /dev/null: not a regular file\n\
             w32tm: /no/e: No such file or directory (os error 2)\n",
        ),
    ];

    #[test]
    fn reasons_of_runs(rt: HostRuntime) -> Result<(), Fail> {
        for (texts, status, lines) in RUNS {
            let mut words = Vec::new(rt.alloc());
            for text in *texts {
                words.push(String::from_str(rt.alloc(), text)?)?;
            }
            let text = explanation(&rt, rt.alloc(), &words, &read_words(&words).ok(), status)?;
            assert_eq!(rt; text.as_str(), *lines, "{texts:?}");
        }
        Ok(())
    }

    /// The lines of a member whose samples went to this descriptor, and whose clock failed.
    fn lines_of_samples(rt: &HostRuntime, fd: i32) -> Result<String, Fail> {
        let mut words = Vec::new(rt.alloc());
        for text in ["/member:1", "/config:/dev/null", "/keeper:/dev/null"] {
            words.push(String::from_str(rt.alloc(), text)?)?;
        }
        words.push(format!(in rt.alloc(); "/clock:/dev/fd/{fd}")?)?;
        let command = read_words(&words).ok();
        Ok(explanation(rt, rt.alloc(), &words, &command, &Status::ClockFault)?)
    }

    // It is found by its descriptor. As long as it has a reader, there is no line of it.
    #[test]
    fn reason_of_a_pipe(rt: HostRuntime) -> Result<(), Fail> {
        let (reader, writer) = pipe(&rt)?;
        let fd = writer.as_raw_fd();
        let keeper = "w32tm: /dev/null: not a regular file\n";
        assert_eq!(rt; lines_of_samples(&rt, fd)?.as_str(), keeper);
        drop(reader);
        let both = format!(in rt.alloc();
            "{keeper}w32tm: /dev/fd/{fd}: a pipe that nobody reads\n"
        )?;
        assert_eq!(rt; lines_of_samples(&rt, fd)?.as_str(), both.as_str());
        Ok(())
    }

    #[test]
    fn reason_of_a_port(rt: HostRuntime) -> Result<(), Fail> {
        let taken = UdpLink::bind(&rt, 0)?;
        let port = taken.port()?;
        let mut words = Vec::new(rt.alloc());
        for text in ["/dc:1", "/config:/dev/null"] {
            words.push(String::from_str(rt.alloc(), text)?)?;
        }
        words.push(format!(in rt.alloc(); "/port:{port}")?)?;
        let command = read_words(&words).ok();
        let text = explanation(&rt, rt.alloc(), &words, &command, &Status::Done)?;
        let line = format!(in rt.alloc();
            "w32tm: port {port}: Address already in use (os error 98)\n"
        )?;
        assert_eq!(rt; text.as_str(), line.as_str());
        Ok(())
    }

    #[test]
    fn reason_of_a_port_of_calls(rt: HostRuntime) -> Result<(), Fail> {
        let taken = TcpWire::listen(&rt, 0)?;
        let port = taken.port()?;
        let mut words = Vec::new(rt.alloc());
        for text in ["/service:1", "/config:/dev/null", "/keeper:/dev/null"] {
            words.push(String::from_str(rt.alloc(), text)?)?;
        }
        words.push(format!(in rt.alloc(); "/rpcport:{port}")?)?;
        let command = read_words(&words).ok();
        let text = explanation(&rt, rt.alloc(), &words, &command, &Status::ReadFault)?;
        let line = format!(in rt.alloc();
            "w32tm: /dev/null: not a regular file\n\
             w32tm: port {port} of remote calls: Address already in use (os error 98)\n"
        )?;
        assert_eq!(rt; text.as_str(), line.as_str());
        Ok(())
    }

    // A port on which somebody listens, and one whose listener is gone. Where no read failed no service is tried.
    #[test]
    fn reason_of_a_service(rt: HostRuntime) -> Result<(), Fail> {
        let listener = TcpWire::listen(&rt, 0)?;
        let free = TcpWire::listen(&rt, 0)?.port()?;
        for (port, status, reason) in [
            (listener.port()?, Status::ReadFault, None),
            (
                free,
                Status::ReadFault,
                Some("Connection refused (os error 111)"),
            ),
            (free, Status::PeerRefused, None),
        ] {
            let mut words = Vec::new(rt.alloc());
            words.push(String::from_str(rt.alloc(), "/resync")?)?;
            words.push(format!(in rt.alloc(); "/computer:127.0.0.1:{port}")?)?;
            let command = read_words(&words).ok();
            let text = explanation(&rt, rt.alloc(), &words, &command, &status)?;
            let line = match reason {
                Some(reason) => format!(in rt.alloc(); "w32tm: 127.0.0.1:{port}: {reason}\n")?,
                None => String::new(rt.alloc()),
            };
            assert_eq!(rt; text.as_str(), line.as_str());
        }
        Ok(())
    }
}
