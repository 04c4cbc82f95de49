//! The devices of a command. What it names is opened, and nothing that it doesn't use; words that spell no command
//! open nothing. What can't be opened is a device each call of which fails.
ghost use Rattle.std.specs.Prelude.{◌≡◌, ◌++◌, ℕ, List, IfOk, IfSome, IsSomeAnd, None, Some, codes, false, option_map, true, unwrap_or};
ghost use Rattle.slot_disk.specs.File.{is_open};
ghost use Rattle.w32tm.specs.Clock.{is_sampled};
ghost use Rattle.w32tm.specs.Devices.{HasPathAt, capture_read, capture_recorded, default_port, draws_by, has_socket, has_words, port_by};
ghost use Rattle.w32tm.specs.Input.{is_closed, is_standard};
ghost use Rattle.w32tm.specs.Output.{is_file, is_null};

use crate::clock::MachineClock;
use crate::input::Input;
use crate::output::Output;
use edge_io::{
    ClosedSource, FileSink, NullSink, RandomFile, ReaderSource, RealClock, SampleClock, Sink,
    UdpLink, file_source, random_file,
};
use slot_disk::FileDisk;
use std::alloc::{AllocError, Global};
use std::fs::File;
use std::io::Read;
use std::net::Net;
use std::rt::{Clock, Files};
use w32tm_text::{Action, Command};

/// The port of a controller, where the words name none.
const CONTROLLER_PORT: u16 = 123;

/// Any free port.
const ANY_PORT: u16 = 0;

/// The settings text: the file of `/config:`, whose path is in the word of this place.
pub(crate) fn config_of<R: Files, I: Read>(
    files: &R,
    words: &Vec<String>,
    place: Option<usize>,
) -> Input<ReaderSource<I>, ReaderSource<R::File>>
    ensures unnamed { place ≡ None → is_closed result ≡ true }
    ensures no_other { is_standard result ≡ false }
{
    match path_in(words, place, "/config:") {
        Some(path) => file_input(files, path),
        None => Input::Closed(ClosedSource::new()),
    }
}

/// The capture or the request: the file of `/capture:`, whose path is in the word of this place, and else standard
/// input.
pub(crate) fn capture_of<R: Files, I: Read + Drop>(
    files: &R,
    stdin: I,
    words: &Vec<String>,
    place: Option<usize>,
) -> Input<ReaderSource<I>, ReaderSource<R::File>>
    ensures unnamed { place ≡ None → is_standard result ≡ true }
    ensures named { (at : ℕ) (path : List ℕ) → place ≡ Some at
        → HasPathAt (codes "/capture:") words.now.items at path → is_standard result ≡ false }
{
    match path_in(words, place, "/capture:") {
        Some(path) => file_input(files, path),
        None => Input::Standard(ReaderSource::new(stdin)),
    }
}

/// The record of a run: the file of `/capture:`, whose path is in the word of this place, and else nothing is kept. The
/// file isn't touched before the first write. The error is want of memory for its path.
pub(crate) fn record_of<R: Files + Drop, O: Sink>(
    files: R,
    alloc: Global,
    words: &Vec<String>,
    place: Option<usize>,
) -> Result<Output<O, FileSink<R>>, AllocError>
    ensures unnamed { place ≡ None → IfOk result (λ o. is_null o ≡ true) }
    ensures named { (at : ℕ) (path : List ℕ) → place ≡ Some at
        → HasPathAt (codes "/capture:") words.now.items at path
        → IfOk result (λ o. is_file o ≡ true) }
{
    match path_in(words, place, "/capture:") {
        Some(path) => {
            let path = String::from_str(alloc, path)?;
            Ok(Output::File(FileSink::new(files, path)))
        }
        None => Ok(Output::Null(NullSink)),
    }
}

/// The keeper's disk: the file of `/keeper:`, whose path is in the word of this place, and else none.
pub(crate) fn disk_of<R: Files<File = File>>(
    files: &R,
    words: &Vec<String>,
    place: Option<usize>,
) -> FileDisk
    ensures unnamed { place ≡ None → is_open result ≡ false }
{
    match path_in(words, place, "/keeper:") {
        Some(path) => match FileDisk::open(files, path) {
            Ok(disk) => disk,
            Err(_) => FileDisk::without_file(),
        },
        None => FileDisk::without_file(),
    }
}

/// The machine's clock: where a path is behind `/clock:` in the word of this place, each correction is a sample to it, and
/// else the run corrects the clock. The error is want of memory for the path.
pub(crate) fn clock_of<R: Files + Clock + Drop>(
    rt: R,
    alloc: Global,
    words: &Vec<String>,
    place: Option<usize>,
) -> Result<MachineClock<RealClock<R>, SampleClock<R>>, AllocError>
    ensures unnamed { place ≡ None → IfOk result (λ c. is_sampled c ≡ false) }
    ensures named { (at : ℕ) (path : List ℕ) → place ≡ Some at
        → HasPathAt (codes "/clock:") words.now.items at path
        → IfOk result (λ c. is_sampled c ≡ true) }
{
    match path_in(words, place, "/clock:") {
        Some(path) => {
            let path = String::from_str(alloc, path)?;
            Ok(MachineClock::Sampled(SampleClock::new(rt, path)))
        }
        None => Ok(MachineClock::Corrected(RealClock::new(rt))),
    }
}

/// The word of the capture that is read: `/replay` alone reads one.
pub(crate) fn capture_read(command: &Command) -> Option<usize>
    ensures { result ≡ capture_read command.now.action command.now.capture }
{
    match command.action {
        Action::Replay => command.capture,
        _ => None,
    }
}

/// The word of the capture that is recorded: `/member`, `/service` and `/simulate` alone record one.
pub(crate) fn capture_recorded(command: &Command) -> Option<usize>
    ensures { result ≡ capture_recorded command.now.action command.now.capture }
{
    match command.action {
        Action::Member(_) | Action::Simulate(_, _) | Action::Service(_) => command.capture,
        _ => None,
    }
}

/// The link, on the local port that the words name, or on that of the command.
pub(crate) fn link_of<R: Net>(net: &R, command: &Option<Command>) -> UdpLink
    // Words that spell no command bind no port, nor does a command that has none.
    ensures no_port { port_by command.now ≡ None → has_socket result ≡ false }
{
    let Some(port) = port_by(command) else {
        return UdpLink::without_socket();
    };
    match UdpLink::bind(net, port) {
        Ok(link) => link,
        Err(_) => UdpLink::without_socket(),
    }
}

/// The random words, which `/member`, `/service` and `/monitor` draw.
pub(crate) fn entropy_of<R: Files>(files: &R, command: &Option<Command>) -> RandomFile<R::File>
    // The others open no file of random words.
    ensures no_draws { draws_by command.now ≡ false → has_words result ≡ false }
{
    if !draws_by(command) {
        return RandomFile::without_file();
    }
    match random_file(files) {
        Ok(words) => words,
        Err(_) => RandomFile::without_file(),
    }
}

/// Whether there is a command that draws random words.
fn draws_by(command: &Option<Command>) -> bool
    ensures { result ≡ draws_by command.now }
{
    match command {
        Some(command) => matches!(
            command.action,
            Action::Member(_) | Action::Monitor | Action::Service(_)
        ),
        None => false,
    }
}

/// The path in the word of this place, behind the name of its option.
pub(crate) fn path_in<'a>(
    words: &'a Vec<String>,
    place: Option<usize>,
    name: &str,
) -> Option<&'a str>
    ensures read { IfSome result (λ path. IsSomeAnd place
        (λ at. HasPathAt name.now words.now.items at path.now)) }
    ensures found { (at : ℕ) (path : List ℕ) → place ≡ Some at
        → HasPathAt name.now words.now.items at path → IsSomeAnd result (λ p. p.now ≡ path) }
{
    words.get(place?)?.strip_prefix(name)
}

/// The bytes of a file.
fn file_input<R: Files, I: Read>(
    files: &R,
    path: &str,
) -> Input<ReaderSource<I>, ReaderSource<R::File>>
    ensures { is_standard result ≡ false }
{
    match file_source(files, path) {
        Ok(source) => Input::File(source),
        Err(_) => Input::Closed(ClosedSource::new()),
    }
}

/// The local port of the command's link. None where there is no command, or one without a link.
pub(crate) fn port_by(command: &Option<Command>) -> Option<u16>
    ensures { result ≡ port_by command.now }
{
    match command {
        Some(command) => port_of(command),
        None => None,
    }
}

/// The local port of the command's link. None where it has no link.
fn port_of(command: &Command) -> Option<u16>
    ensures { result ≡ option_map (λ port. unwrap_or command.now.port port)
        (default_port command.now.action) }
{
    let default_port = match command.action {
        Action::Dc(_) => CONTROLLER_PORT,
        Action::Member(_) | Action::Monitor | Action::Service(_) => ANY_PORT,
        _ => return None,
    };
    Some(command.port.unwrap_or(default_port))
}

#[cfg(test)]
mod tests {
    use super::*;
    use edge_io::{Addr, Drawn, Entropy, Link, Put, Receipt, Source, Take};
    use slot_disk::Disk;
    use std::fs;
    use std::test::Fail;
    use w32tm_text::read_words;

    #[test]
    fn local_ports(rt: HostRuntime) -> Result<(), AllocError> {
        for (words, port) in [
            (["/dc:5", "/config:a"].as_slice(), Some(123)),
            (&["/dc:5", "/config:a", "/port:40123"], Some(40123)),
            (&["/member:3", "/config:a", "/keeper:b"], Some(0)),
            (&["/port:8", "/member:3", "/config:a", "/keeper:b"], None),
            (&["/member:3", "/port:8", "/config:a", "/keeper:b"], Some(8)),
            (&["/monitor", "/config:a"], Some(0)),
            (&["/monitor", "/port:9", "/config:a"], Some(9)),
            (&["/service:3", "/config:a", "/keeper:b"], Some(0)),
            (
                &["/service:3", "/config:a", "/keeper:b", "/port:8"],
                Some(8),
            ),
            (
                &["/service:3", "/config:a", "/keeper:b", "/rpcport:8"],
                Some(0),
            ),
            (&["/replay", "/config:a"], None),
            (&["/show:"], None),
            (&["/query", "/bits"], None),
        ] {
            let words = owned(rt.alloc(), words)?;
            let command = read_words(&words).ok();
            assert_eq!(rt; port_by(&command), port, "{words:?}");
        }
        Ok(())
    }

    #[test]
    fn captures_of_commands(rt: HostRuntime) -> Result<(), AllocError> {
        for (words, read, recorded) in [
            (
                ["/replay", "/config:a", "/capture:b"].as_slice(),
                Some(2),
                None,
            ),
            (&["/replay", "/config:a"], None, None),
            (
                &["/member:3", "/capture:b", "/config:a", "/keeper:c"],
                None,
                Some(1),
            ),
            (&["/member:3", "/config:a", "/keeper:c"], None, None),
            (&["/monitor", "/config:a"], None, None),
            (&["/simulate:1:2", "/capture:b"], None, Some(1)),
            (
                &["/service:3", "/config:a", "/keeper:b", "/capture:c"],
                None,
                Some(3),
            ),
            (&["/service:3", "/config:a", "/keeper:b"], None, None),
            (&["/simulate:1:2"], None, None),
        ] {
            let words = owned(rt.alloc(), words)?;
            let command = read_words(&words).ok();
            let command = command.as_ref();
            assert_eq!(rt; command.and_then(capture_read), read, "{words:?}");
            assert_eq!(rt; command.and_then(capture_recorded), recorded, "{words:?}");
        }
        Ok(())
    }

    #[test]
    fn records_and_keepers(rt: HostRuntime) -> Result<(), Fail> {
        let alloc = rt.alloc();
        let words = owned(
            alloc,
            &[
                "/member:1",
                "/capture:/no/such/capture",
                "/keeper:/no/such/k",
            ],
        )?;
        let mut record: Output<NullSink, _> = record_of(&rt, alloc, &words, Some(1))?;
        assert_eq!(rt; record.write(b"abc"), Put::Failed);
        record = record_of(&rt, alloc, &words, None)?;
        assert_eq!(rt; record.write(b"abc"), Put::Done);
        for place in [None, Some(2)] {
            let mut disk = disk_of(&rt, &words, place);
            assert_eq!(rt; disk.sync(), Put::Failed, "{place:?}");
        }
        Ok(())
    }

    // Settings and a capture that is read come from their files, and not from standard input.
    #[test]
    fn named_files_are_opened(rt: HostRuntime) -> Result<(), Fail> {
        let _ = fs::remove_dir_all(&rt, "read_files");
        fs::create_dir(&rt, "read_files")?;
        fs::write(&rt, "read_files/a", "Rid=1103")?;
        fs::write(&rt, "read_files/b", "events")?;
        let words = owned(
            rt.alloc(),
            &["/replay", "/config:read_files/a", "/capture:read_files/b"],
        )?;
        let mut buf = [0; 9];
        let mut config: Input<ReaderSource<&[u8]>, _> = config_of(&rt, &words, Some(1));
        assert_eq!(rt; config.read(&mut buf), Take::Bytes(8));
        assert_eq!(rt; &buf[..8], b"Rid=1103".as_slice());
        let mut capture = capture_of(&rt, b"input".as_slice(), &words, Some(2));
        assert_eq!(rt; capture.read(&mut buf), Take::Bytes(6));
        assert_eq!(rt; &buf[..6], b"events".as_slice());
        fs::remove_dir_all(&rt, "read_files")?;
        Ok(())
    }

    // A keeper that is missing is made, of 256 zero bytes. A record is made by its first write.
    #[test]
    fn named_files_are_made(rt: HostRuntime) -> Result<(), Fail> {
        let alloc = rt.alloc();
        let _ = fs::remove_dir_all(&rt, "made_files");
        fs::create_dir(&rt, "made_files")?;
        let words = owned(
            alloc,
            &["/member:1", "/keeper:made_files/k", "/capture:made_files/c"],
        )?;
        let mut disk = disk_of(&rt, &words, Some(1));
        assert_eq!(rt; disk.sync(), Put::Done);
        assert_eq!(rt;
            fs::read(&rt, "made_files/k")?.as_slice(),
            [0; 256].as_slice()
        );
        let mut record: Output<NullSink, _> = record_of(&rt, alloc, &words, Some(2))?;
        assert_eq!(rt; record.write(b"abc"), Put::Done);
        assert_eq!(rt;
            fs::read(&rt, "made_files/c")?.as_slice(),
            b"abc".as_slice()
        );
        fs::remove_dir_all(&rt, "made_files")?;
        Ok(())
    }

    #[test]
    fn words_are_drawn_for_two_commands(rt: HostRuntime) -> Result<(), Fail> {
        for (words, draws) in [
            (["/member:1", "/config:a", "/keeper:b"].as_slice(), true),
            (&["/monitor", "/config:a"], true),
            (&["/dc:5", "/config:a"], false),
            (&["/replay", "/config:a"], false),
        ] {
            let words = owned(rt.alloc(), words)?;
            let command = read_words(&words).ok();
            let word = entropy_of(&rt, &command).word();
            assert_eq!(rt; matches!(word, Drawn::Word(_)), draws, "{words:?}");
        }
        Ok(())
    }

    #[test]
    fn link_is_on_the_named_port(rt: HostRuntime) -> Result<(), Fail> {
        let alloc = rt.alloc();
        let mut peer = UdpLink::bind(&rt, 0)?;
        // A port that was free a moment ago.
        let port = UdpLink::bind(&rt, 0)?.port()?;
        let named = format!(in alloc; "/port:{port}")?;
        let words = owned(alloc, &["/dc:1", "/config:a", named.as_str()])?;
        let mut link = link_of(&rt, &read_words(&words).ok());
        let to = Addr {
            ip: 0x7F00_0001,
            port,
        };
        assert_eq!(rt; peer.send(to, b"abc"), Put::Done);
        let Receipt::Got(_, bytes) = link.recv() else {
            assert!(rt; false, "nothing came");
            return Ok(());
        };
        assert_eq!(rt; bytes.as_slice(), b"abc".as_slice());
        Ok(())
    }

    #[test]
    fn paths_of_options(rt: HostRuntime) -> Result<(), AllocError> {
        let words = owned(rt.alloc(), &["/replay", "/config:a b", "/capture:/c:d"])?;
        assert_eq!(rt; path_in(&words, Some(1), "/config:"), Some("a b"));
        assert_eq!(rt; path_in(&words, Some(2), "/capture:"), Some("/c:d"));
        assert_eq!(rt; path_in(&words, None, "/capture:"), None);
        Ok(())
    }

    fn owned(alloc: Global, words: &[&str]) -> Result<Vec<String>, AllocError> {
        let mut owned = Vec::new(alloc);
        for word in words {
            owned.push(String::from_str(alloc, word)?)?;
        }
        Ok(owned)
    }
}
