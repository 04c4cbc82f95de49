//! Sessions of TCP.
ghost use Rattle.std.specs.Prelude.{◌≡◌, ◌<◌, false, true, IfErr, IfOk, IfSome, IsErrAnd, IsFalse, IsTrue, None};
ghost use Rattle.std.specs.Prelude.{length};
ghost use Rattle.std.specs.IoError.{error_kind, raw_os_error};
ghost use Rattle.std.specs.Option.{is_some};
ghost use Rattle.edge_io.specs.TcpWire.{Answers, IsPassing, IsPassingKind, IsPassingNumber, SessionGives, SessionTakes};
ghost use Rattle.edge_io.specs.TcpWire.{is_accepting, used_up};
ghost use Rattle.edge_io.specs.declared.tcp_wire.Side.TheVariants.{Closed, Connecting, Ended};
ghost use Rattle.edge_traits.specs.Sink.{PutCounts};
ghost use Rattle.edge_traits.specs.Source.{TakeCounts};
ghost use Rattle.edge_traits.specs.Wire.{is_session, OpenedCounts, Opens, WireReads, WireWrites};

use crate::reader::read_again;
use crate::udp_link::socket_addr_of;
use crate::writer::write_whole;
use edge_traits::{Addr, Opened, Put, Take, Wire};
use std::io::{self, ErrorKind, Read};
use std::net::{
    Ipv4Addr, Net, OpenListener, OpenStream, Shutdown, SocketAddr, SocketAddrV4, TcpListener,
    TcpStream,
};
use std::time::{Clock, Duration, Instant};

/// How many seconds a connection, a read and a write wait for the peer.
const IDLE_SECONDS: u64 = 30;

/// How many seconds the end of a session waits for the peer's.
const LINGER_SECONDS: u64 = 1;

/// Bytes that are read away at once at the end of a session.
const DRAIN_LEN: usize = 512;

/// Sessions over TCP of IPv4: those that a port accepts, one after the other, or the one with an address. It tells
/// nothing.
///
/// A request for a session closes the one before it. Where a port accepts, it waits for the next connection without
/// limit; one that was lost while it waited is passed over. Where an address is connected to, the first request does so,
/// for at most 30 seconds, and no session comes after it. Without a socket each request fails.
///
/// A read fails to which nothing came within 30 seconds, and so does a write of which nothing could be sent on for so
/// long. A piece is written whole, and a write to a peer that is gone fails and is no signal. A session of which a read
/// or a write failed is closed at once, since what it wrote before has come or never will, and each read and write after
/// that fails. A call that a signal cuts short is made again, and is no fault.
///
/// At the end of a session, and where the wire is dropped, nothing more is written, and what the peer still sends is
/// read away until it ends too, for about a second at most. Else the last answer could be lost to a reset.
pub struct TcpWire<R: Net + Clock + Drop> {
    rt: R,
    side: Side<R::Listener>,
    /// The connection of the session, if none of its reads and writes failed.
    stream: Option<R::Stream>,
    is_open: bool,
    faults: u64,
    write_faults: u64,
}

/// Where the next session comes from.
#[derive(Drop)]
enum Side<L> {
    /// From this listener.
    Accepting(L),
    /// From this address, to which nothing was connected yet.
    Connecting(Addr),
    /// From nowhere: the address was connected to.
    Ended,
    /// From a socket that isn't there.
    Closed,
}

impl<R: Net + Clock + Drop> TcpWire<R> {
    /// The wire that accepts connections on this port of all IPv4 addresses of the machine, or on any free one where
    /// that is 0. It fails where the port can't be had. Sessions that were closed on it before are no hindrance.
    pub fn listen(rt: R, port: u16) -> io::Result<TcpWire<R>>
        ensures side { IfOk result (λ w. is_accepting w.side ≡ true) }
        ensures told { IfOk result (λ w. ⟦<TcpWire<R> as Wire>⟧.told w ≡ None) }
        ensures faults { IfOk result (λ w. ⟦<TcpWire<R> as Wire>⟧.faults w ≡ 0) }
        ensures write_faults { IfOk result (λ w. ⟦<TcpWire<R> as Wire>⟧.write_faults w ≡ 0) }
        ensures no_session { IfOk result (λ w. ⟦<TcpWire<R> as Wire>⟧.is_open w ≡ false) }
    {
        let listener = TcpListener::bind(&rt, SocketAddrV4::new(Ipv4Addr::UNSPECIFIED, port))?;
        Ok(TcpWire::of_side(rt, Side::Accepting(listener)))
    }

    /// The wire whose one session is with this address. The first request for a session connects to it.
    pub fn connect(rt: R, to: Addr) -> TcpWire<R>
        ensures side { result.side ≡ Connecting to }
        ensures told { ⟦<TcpWire<R> as Wire>⟧.told result ≡ None }
        ensures faults { ⟦<TcpWire<R> as Wire>⟧.faults result ≡ 0 }
        ensures write_faults { ⟦<TcpWire<R> as Wire>⟧.write_faults result ≡ 0 }
        ensures no_session { ⟦<TcpWire<R> as Wire>⟧.is_open result ≡ false }
    {
        TcpWire::of_side(rt, Side::Connecting(to))
    }

    /// A wire without a socket, each request of which fails: it stands for a port that can't be had.
    pub fn without_socket(rt: R) -> TcpWire<R>
        ensures side { result.side ≡ Closed }
        ensures told { ⟦<TcpWire<R> as Wire>⟧.told result ≡ None }
        ensures faults { ⟦<TcpWire<R> as Wire>⟧.faults result ≡ 0 }
        ensures write_faults { ⟦<TcpWire<R> as Wire>⟧.write_faults result ≡ 0 }
        ensures no_session { ⟦<TcpWire<R> as Wire>⟧.is_open result ≡ false }
    {
        TcpWire::of_side(rt, Side::Closed)
    }

    /// A wire with this side, of which nothing was asked yet.
    fn of_side(rt: R, side: Side<R::Listener>) -> TcpWire<R>
        ensures side { result.side ≡ side }
        ensures faults { (result.faults ≡ 0) × (result.write_faults ≡ 0) }
        ensures no_session { (result.is_open ≡ false) × (result.stream ≡ None) }
    {
        TcpWire {
            rt,
            side,
            stream: None,
            is_open: false,
            faults: 0,
            write_faults: 0,
        }
    }

    /// The port that the wire accepts on. Where it accepts none, the error is NotConnected.
    pub fn port(&self) -> io::Result<u16>
        ensures no_port { is_accepting self.now.side ≡ false
            → IsErrAnd result (λ error. error_kind error ≡ ErrorKind.NotConnected) }
    {
        match &self.side {
            Side::Accepting(listener) => Ok(listener.local_addr()?.port()),
            _ => Err(io::Error::from(ErrorKind::NotConnected)),
        }
    }

    /// A new connection with its limits set, or none where it can't be had.
    fn connection(&self) -> Option<R::Stream>
        ensures closed { self.now.side ≡ Closed → result ≡ None }
        ensures ended { self.now.side ≡ Ended → result ≡ None }
    {
        match &self.side {
            Side::Accepting(listener) => with_limits(accept_again(listener).ok()?),
            Side::Connecting(to) => {
                let to = SocketAddr::V4(socket_addr_of(*to));
                let limit = Duration::from_secs(IDLE_SECONDS);
                with_limits(TcpStream::connect_timeout(&self.rt, &to, limit).ok()?)
            }
            Side::Ended | Side::Closed => None,
        }
    }

    /// Closes the session, if one is open.
    fn end_session(&mut self)
        ensures closed { (self.new.is_open ≡ false) × (self.new.stream ≡ None) }
        ensures side { self.new.side ≡ self.old.side }
        ensures faults { (self.new.faults ≡ self.old.faults)
            × (self.new.write_faults ≡ self.old.write_faults) }
    {
        self.is_open = false;
        if let Some(stream) = self.stream.take() {
            end_stream(&self.rt, stream);
        }
    }
}

impl<R: Net + Clock + Drop> Drop for TcpWire<R> {
    fn drop(mut self) {
        self.end_session();
        let TcpWire {
            rt: _rt,
            side: _side,
            stream: _stream,
            is_open: _,
            faults: _,
            write_faults: _,
        } = self;
    }
}

impl<R: Net + Clock + Drop> Wire for TcpWire<R> {
    ghost use Rattle.std.specs.Prelude.{None};

    ghost told = { λ _. None };

    ghost is_open = { λ w. w.is_open };

    ghost faults = { λ w. w.faults };

    ghost write_faults = { λ w. w.write_faults };

    fn next_session(&mut self) -> Opened
        ensures opens { Opens result None None }
        ensures open { self.new.is_open ≡ is_session result }
        ensures cause { OpenedCounts result self.old.faults self.new.faults }
        ensures writes { self.new.write_faults ≡ self.old.write_faults }
        // A listener stays, an address is used up, and without a socket it fails.
        ensures side { self.new.side ≡ used_up self.old.side }
        ensures answer { Answers result self.old.side }
        ensures stream { is_some self.new.stream ≡ is_session result }
    {
        self.end_session();
        if let Side::Ended = &self.side {
            return Opened::NoMore;
        }
        self.stream = self.connection();
        self.side.use_up();
        self.is_open = self.stream.is_some();
        if self.is_open {
            return Opened::Session;
        }
        self.faults = self.faults.saturating_add(1);
        Opened::Failed
    }

    fn read(&mut self, buf: &mut [u8]) -> Take
        requires { 0 < length buf.old }
        ensures bytes { WireReads result self.old.is_open buf.new None None }
        ensures no_session { self.old.is_open ≡ false → result ≡ Take.End }
        ensures open { self.new.is_open ≡ self.old.is_open }
        ensures cause { TakeCounts result self.old.faults self.new.faults }
        ensures writes { self.new.write_faults ≡ self.old.write_faults }
        ensures side { self.new.side ≡ self.old.side }
        // After a failed read there is no connection, and without one each read of the session fails.
        ensures content { self.old.is_open ≡ true → SessionGives result buf.new
            R.Stream.remaining self.old.stream self.new.stream }
    {
        if !self.is_open {
            return Take::End;
        }
        if let Some(stream) = &mut self.stream {
            match read_again(stream, buf) {
                Ok(0) => return Take::End,
                Ok(count) => return Take::Bytes(count),
                Err(_) => {}
            }
        }
        self.stream = None;
        self.faults = self.faults.saturating_add(1);
        Take::Failed
    }

    fn write(&mut self, piece: &[u8]) -> Put
        requires { 0 < length piece.now }
        ensures bytes { WireWrites result self.old.is_open piece.now None None }
        ensures no_session { self.old.is_open ≡ false → result ≡ Put.Failed }
        ensures open { self.new.is_open ≡ self.old.is_open }
        ensures cause { PutCounts result self.old.write_faults self.new.write_faults }
        ensures reads { self.new.faults ≡ self.old.faults }
        ensures side { self.new.side ≡ self.old.side }
        // After a failed write there is no connection, and without one each write fails.
        ensures content { self.old.is_open ≡ true → SessionTakes result piece.now
            R.Stream.contents self.old.stream self.new.stream }
    {
        if self.is_open
            && let Some(stream) = &mut self.stream
            && write_whole(stream, piece)
        {
            return Put::Done;
        }
        self.stream = None;
        self.write_faults = self.write_faults.saturating_add(1);
        Put::Failed
    }
}

impl<L: Drop> Side<L> {
    /// An address is connected to once.
    fn use_up(&mut self)
        ensures { self.new ≡ used_up self.old }
    {
        if let Side::Connecting(_) = self {
            *self = Side::Ended;
        }
    }
}

/// The next connection. Those that were lost while they waited are passed over, up to 2^64 - 1 of them.
fn accept_again<L: OpenListener>(listener: &L) -> io::Result<L::Stream>
    ensures other { IfErr result (λ error. IsPassing error → ⊥) }
{
    for _ in 0..u64::MAX {
        match listener.accept() {
            Ok((stream, _)) => return Ok(stream),
            Err(error) if is_passing(&error) => {}
            Err(error) => return Err(error),
        }
    }
    Err(too_many())
}

/// The error of too many accepts.
fn too_many() -> io::Error
    ensures kind { IsPassingKind (error_kind result) → ⊥ }
    ensures number { IsPassingNumber (raw_os_error result) → ⊥ }
{
    io::Error::other("too many accepts")
}

/// An accept failed by its one connection or by a signal, and the next connection may be there. accept(2) names the errors
/// that a connection over TCP may have met while it waited.
fn is_passing(error: &io::Error) -> bool
    ensures passing { IsTrue result → IsPassing error.now }
    ensures other { IsFalse result → IsPassing error.now → ⊥ }
{
    is_passing_kind(error.kind()) || is_passing_number(error.raw_os_error())
}

/// The error is of a kind that a connection or a signal alone has.
fn is_passing_kind(kind: ErrorKind) -> bool
    ensures passing { IsTrue result → IsPassingKind kind }
    ensures other { IsFalse result → IsPassingKind kind → ⊥ }
{
    matches!(
        kind,
        ErrorKind::ConnectionAborted
            | ErrorKind::ConnectionReset
            | ErrorKind::HostUnreachable
            | ErrorKind::Interrupted
            | ErrorKind::NetworkDown
            | ErrorKind::NetworkUnreachable
    )
}

/// The error has a number of Linux that a connection alone has: ENONET, EPROTO, ENOPROTOOPT, EOPNOTSUPP or EHOSTDOWN, which
/// have no kind of their own.
fn is_passing_number(number: Option<i32>) -> bool
    ensures passing { IsTrue result → IsPassingNumber number }
    ensures other { IsFalse result → IsPassingNumber number → ⊥ }
{
    matches!(number, Some(64 | 71 | 92 | 95 | 112))
}

/// The stream, whose reads and writes wait for so long, or none where that can't be set.
fn with_limits<S: OpenStream + Drop>(stream: S) -> Option<S>
    ensures same { IfSome result (λ limited. limited ≡ stream) }
{
    let limit = Some(Duration::from_secs(IDLE_SECONDS));
    stream.set_read_timeout(limit).ok()?;
    stream.set_write_timeout(limit).ok()?;
    Some(stream)
}

/// Ends a session: nothing more is written, what the peer still sends is read away, and the connection is closed.
fn end_stream<C: Clock, S: OpenStream + Read + Drop>(clock: &C, stream: S) {
    let mut stream = stream;
    if stream.shutdown(Shutdown::Write).is_ok()
        && let Ok(start) = Instant::now(clock)
    {
        drain(clock, start, &mut stream);
    }
}

/// Reads until the peer ends, a read fails, or the time is over.
fn drain<C: Clock, S: OpenStream + Read>(clock: &C, start: Instant, stream: &mut S) {
    let mut buf = [0; DRAIN_LEN];
    for _ in 0..u64::MAX {
        if !waits_on(clock, start, stream) {
            return;
        }
        match stream.read(&mut buf) {
            Ok(0) => return,
            Err(error) if error.kind() != ErrorKind::Interrupted => return,
            _ => {}
        }
    }
}

/// Lets the next read wait for what is left of the time, and says whether there is any.
fn waits_on<C: Clock, S: OpenStream>(clock: &C, start: Instant, stream: &S) -> bool {
    let Ok(elapsed) = start.elapsed(clock) else {
        return false;
    };
    // A time of 0 is refused.
    let left = Duration::from_secs(LINGER_SECONDS).saturating_sub(elapsed);
    stream.set_read_timeout(Some(left)).is_ok()
}

#[cfg(test)]
mod tests {
    use super::*;
    use std::io::Write;
    use std::test::Fail;

    /// 127.0.0.1.
    const LOCALHOST: u32 = 0x7F00_0001;

    /// The address of this port of the own machine.
    fn at(port: u16) -> SocketAddrV4 {
        SocketAddrV4::new(Ipv4Addr::LOCALHOST, port)
    }

    /// Whether the next read gives these bytes, or is at the end where there are none.
    fn gives<S: Read>(stream: &mut S, want: &[u8]) -> bool {
        let mut buf = [0; 8];
        match stream.read(&mut buf) {
            Ok(count) => buf.get(..count) == Some(want),
            Err(_) => false,
        }
    }

    /// Whether the next read of the session gives these bytes.
    fn reads<W: Wire>(wire: &mut W, want: &[u8]) -> bool {
        let mut buf = [0; 8];
        match wire.read(&mut buf) {
            Take::Bytes(count) => buf.get(..count) == Some(want),
            _ => false,
        }
    }

    /// Whether a read answers this, which is no number of bytes, and a write fails.
    fn neither_reads_nor_writes<W: Wire>(wire: &mut W, want: Take) -> bool {
        wire.read(&mut [0; 8]) == want && wire.write(b"a") == Put::Failed
    }

    /// Whether the wire connects to a server, asks it and is answered.
    fn asks_a_server<W: Wire, L: OpenListener>(wire: &mut W, listener: &L) -> bool
    where
        L::Stream: Read + Write,
    {
        wire.next_session() == Opened::Session
            && wire.write(b"ask") == Put::Done
            && answers_the_wire(listener)
            && reads(wire, b"yes")
            && wire.read(&mut [0; 8]) == Take::End
    }

    /// Whether a server reads the question and writes the answer, and then closes the connection.
    fn answers_the_wire<L: OpenListener>(listener: &L) -> bool
    where
        L::Stream: Read + Write,
    {
        match listener.accept() {
            Ok((mut server, _)) => gives(&mut server, b"ask") && server.write(b"yes").is_ok(),
            Err(_) => false,
        }
    }

    #[test]
    fn a_connected_session_on_loopback(rt: HostRuntime) -> Result<(), Fail> {
        let listener = TcpListener::bind(&rt, at(0))?;
        let (ip, port) = (LOCALHOST, listener.local_addr()?.port());
        let mut wire = TcpWire::connect(&rt, Addr { ip, port });
        let is_closed = neither_reads_nor_writes(&mut wire, Take::End);
        let is_answered = asks_a_server(&mut wire, &listener);
        let later = wire.next_session();
        assert_eq!(rt;
            (is_closed, is_answered, later),
            (true, true, Opened::NoMore)
        );
        assert_eq!(rt; (wire.faults, wire.write_faults), (0, 1));
        Ok(())
    }

    #[test]
    fn a_refused_connection(rt: HostRuntime) {
        // Nobody can listen on port 0.
        let (ip, port) = (LOCALHOST, 0);
        let mut wire = TcpWire::connect(&rt, Addr { ip, port });
        let opened = [wire.next_session(), wire.next_session()];
        assert_eq!(rt;
            (opened, wire.faults),
            ([Opened::Failed, Opened::NoMore], 1)
        );
    }

    /// Whether the session waits for 30 seconds.
    fn waits_30_seconds(wire: &TcpWire<&HostRuntime>) -> bool {
        let limit = Some(Duration::from_secs(30));
        match &wire.stream {
            Some(stream) => {
                stream.read_timeout().is_ok_and(|time| time == limit)
                    && stream.write_timeout().is_ok_and(|time| time == limit)
            }
            None => false,
        }
    }

    #[test]
    fn limits_of_a_session(rt: HostRuntime) -> Result<(), Fail> {
        let mut wire = TcpWire::listen(&rt, 0)?;
        let _client = TcpStream::connect(&rt, at(wire.port()?))?;
        let opened = wire.next_session();
        assert!(rt; opened == Opened::Session && waits_30_seconds(&wire));
        // A read to which nothing came in time is no end.
        if let Some(stream) = &wire.stream {
            stream.set_read_timeout(Some(Duration::from_millis(1)))?;
        }
        let failed = wire.read(&mut [0; 8]);
        let is_closed = neither_reads_nor_writes(&mut wire, Take::Failed);
        assert_eq!(rt; (failed, is_closed), (Take::Failed, true));
        Ok(())
    }

    /// Whether a write fails before very many pieces were taken.
    fn fills_up<W: Wire>(wire: &mut W) -> bool {
        for _ in 0..20_000 {
            if wire.write(&[7; 4096]) == Put::Failed {
                return true;
            }
        }
        false
    }

    #[test]
    fn a_peer_that_never_reads(rt: HostRuntime) -> Result<(), Fail> {
        let mut wire = TcpWire::listen(&rt, 0)?;
        let _client = TcpStream::connect(&rt, at(wire.port()?))?;
        let opened = wire.next_session();
        if let Some(stream) = &wire.stream {
            stream.set_write_timeout(Some(Duration::from_millis(1)))?;
        }
        let is_full = fills_up(&mut wire);
        let is_closed = neither_reads_nor_writes(&mut wire, Take::Failed);
        assert_eq!(rt; (opened, is_full, is_closed), (Opened::Session, true, true));
        Ok(())
    }

    #[test]
    fn requests_without_a_socket(rt: HostRuntime) {
        let mut wire = TcpWire::without_socket(&rt);
        let opened = [wire.next_session(), wire.next_session()];
        let is_closed = neither_reads_nor_writes(&mut wire, Take::End);
        assert_eq!(rt; (opened, is_closed), ([Opened::Failed; 2], true));
        assert_eq!(rt;
            (wire.port().is_err(), wire.faults, wire.write_faults),
            (true, 2, 1)
        );
    }
}
