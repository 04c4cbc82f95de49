//! Datagrams of a socket.
ghost use Rattle.std.specs.Prelude.{◌≡◌, ◌≢◌, ◌≤◌, ◌⊎◌, [], ◌∷◌, IfErr, IfOk, IsErrAnd, IsFalse, IsSome, IsTrue};
ghost use Rattle.std.specs.Prelude.{None, length, take};
ghost use Rattle.std.specs.IoError.{error_kind};
ghost use Rattle.std.specs.Net.Addr.{ipv4_bits, IsIpv4OfBits};
ghost use Rattle.std.specs.Net.Socket.{v4_ip, v4_port};
ghost use Rattle.base_specs.specs.Told.{Grew};
ghost use Rattle.edge_traits.specs.Link.{Receive, ReceiptCounts, ReceiptFits, Send};
ghost use Rattle.edge_traits.specs.Sink.{PutCounts};

use edge_traits::{Addr, DATAGRAM_LEN, Datagram, Link, Put, Receipt};
use std::io::{self, ErrorKind};
use std::net::{Ipv4Addr, Net, SocketAddr, SocketAddrV4, UdpSocket};
use std::time::Duration;

/// How many seconds a receive waits.
const WAIT_SECONDS: u64 = 1;

/// A socket on one port of all IPv4 addresses of the machine. It tells nothing, and is connected to no one.
///
/// A receive waits up to one second, and is quiet then. Of a longer datagram the first 256 bytes are taken. A call
/// that a signal cuts short is made again, and is no fault. Without a socket each call fails.
#[derive(Drop)]
pub struct UdpLink {
    socket: Option<UdpSocket>,
    faults: u64,
}

impl UdpLink {
    /// A link on this port, or on any free one where that is 0. It fails where the port can't be had.
    pub fn bind<R: Net>(net: &R, port: u16) -> io::Result<UdpLink>
        ensures open { IfOk result (λ l. IsSome l.socket) }
        ensures told { IfOk result (λ l. ⟦<UdpLink as Link>⟧.told l ≡ None) }
        ensures faults { IfOk result (λ l. ⟦<UdpLink as Link>⟧.faults l ≡ 0) }
    {
        let socket = UdpSocket::bind(net, SocketAddrV4::new(Ipv4Addr::UNSPECIFIED, port))?;
        socket.set_read_timeout(Some(Duration::from_secs(WAIT_SECONDS)))?;
        Ok(UdpLink {
            socket: Some(socket),
            faults: 0,
        })
    }

    /// A link without a socket, each call of which fails: it stands for a port that can't be had.
    pub fn without_socket() -> UdpLink
        ensures closed { result.socket ≡ None }
        ensures told { ⟦<UdpLink as Link>⟧.told result ≡ None }
        ensures faults { ⟦<UdpLink as Link>⟧.faults result ≡ 0 }
    {
        UdpLink {
            socket: None,
            faults: 0,
        }
    }

    /// The port that the link is on. Without a socket the error is NotConnected.
    pub fn port(&self) -> io::Result<u16>
        ensures no_port { self.now.socket ≡ None
            → IsErrAnd result (λ error. error_kind error ≡ ErrorKind.NotConnected) }
    {
        match &self.socket {
            Some(socket) => Ok(socket.local_addr()?.port()),
            None => Err(io::Error::from(ErrorKind::NotConnected)),
        }
    }
}

impl Link for UdpLink {
    ghost use Rattle.std.specs.Prelude.{None};

    ghost told = { λ _. None };

    ghost faults = { λ l. l.faults };

    fn send(&mut self, to: Addr, bytes: &[u8]) -> Put
        ensures sends { Grew None None
            (Send (record { to = to; bytes = take 256 bytes.now; put = result }) ∷ []) }
        ensures cause { PutCounts result self.old.faults self.new.faults }
        // Without a socket it fails, and none is bound later.
        ensures closed { self.old.socket ≡ None → result ≡ Put.Failed }
        ensures same { self.new.socket ≡ self.old.socket }
    {
        let sent = Datagram::from_slice(bytes);
        if let Some(socket) = &self.socket
            && send_whole(socket, sent.as_slice(), socket_addr_of(to))
        {
            return Put::Done;
        }
        self.faults = self.faults.saturating_add(1);
        Put::Failed
    }

    fn recv(&mut self) -> Receipt
        ensures fits { ReceiptFits result }
        ensures gives { Grew None None (Receive result ∷ []) }
        ensures cause { ReceiptCounts result self.old.faults self.new.faults }
        // Without a socket it fails, and none is bound later.
        ensures closed { self.old.socket ≡ None → result ≡ Receipt.Failed }
        ensures same { self.new.socket ≡ self.old.socket }
    {
        let receipt = match &self.socket {
            Some(socket) => recv_front(socket),
            None => Receipt::Failed,
        };
        if let Receipt::Failed = &receipt {
            self.faults = self.faults.saturating_add(1);
        }
        receipt
    }
}

/// Sends the bytes as one datagram, and says whether all of them went.
fn send_whole(socket: &UdpSocket, bytes: &[u8], to: SocketAddrV4) -> bool {
    matches!(send_again(socket, bytes, to), Ok(count) if count == bytes.len())
}

/// What the socket gives next: the front of a datagram, or nothing within the time that it waits.
fn recv_front(socket: &UdpSocket) -> Receipt
    ensures { ReceiptFits result }
{
    let mut buf = [0; DATAGRAM_LEN];
    match recv_again(socket, &mut buf) {
        Ok((count, SocketAddr::V4(from))) => {
            Receipt::got(addr_of(&from), Datagram::from_slice(&buf[..count]))
        }
        Ok((_, SocketAddr::V6(_))) => Receipt::Failed,
        Err(error) => receipt_without(&error),
    }
}

/// What a receive gives where no datagram came: it is quiet just where its time was over.
fn receipt_without(error: &io::Error) -> Receipt
    ensures fits { ReceiptFits result }
    ensures quiet { result ≡ Receipt.Quiet → (error_kind error.now ≡ ErrorKind.WouldBlock)
        ⊎ (error_kind error.now ≡ ErrorKind.TimedOut) }
    ensures failed { result ≢ Receipt.Quiet → (result ≡ Receipt.Failed)
        × (error_kind error.now ≢ ErrorKind.WouldBlock)
        × (error_kind error.now ≢ ErrorKind.TimedOut) }
{
    if is_time_over(error) {
        Receipt::Quiet
    } else {
        Receipt::Failed
    }
}

/// The address as the socket has it.
pub(crate) fn socket_addr_of(to: Addr) -> SocketAddrV4
    ensures port { v4_port result ≡ to.port }
    ensures ip { IsIpv4OfBits (v4_ip result) to.ip }
{
    SocketAddrV4::new(Ipv4Addr::from_bits(to.ip), to.port)
}

/// The address that the socket gave.
fn addr_of(from: &SocketAddrV4) -> Addr
    ensures { result ≡ record { ip = ipv4_bits (v4_ip from.now); port = v4_port from.now } }
{
    Addr {
        ip: from.ip().to_bits(),
        port: from.port(),
    }
}

/// The time of a receive is over, and nothing came.
fn is_time_over(error: &io::Error) -> bool
    ensures over { IsTrue result → (error_kind error.now ≡ ErrorKind.WouldBlock)
        ⊎ (error_kind error.now ≡ ErrorKind.TimedOut) }
    ensures other { IsFalse result → (error_kind error.now ≢ ErrorKind.WouldBlock)
        × (error_kind error.now ≢ ErrorKind.TimedOut) }
{
    matches!(error.kind(), ErrorKind::WouldBlock | ErrorKind::TimedOut)
}

/// Sends, and again as long as a signal cuts that short. It gives up after 2^64 - 1 of them.
fn send_again(socket: &UdpSocket, bytes: &[u8], to: SocketAddrV4) -> io::Result<usize>
    ensures no_signal { IfErr result (λ error. error_kind error ≢ ErrorKind.Interrupted) }
{
    for _ in 0..u64::MAX {
        match socket.send_to(bytes, to) {
            Err(error) if error.kind() == ErrorKind::Interrupted => {}
            done => return done,
        }
    }
    Err(io::Error::from(ErrorKind::Other))
}

/// Receives, and again as long as a signal cuts that short. It gives up after 2^64 - 1 of them.
fn recv_again(socket: &UdpSocket, buf: &mut [u8]) -> io::Result<(usize, SocketAddr)>
    ensures within { IfOk result (λ got. got.0 ≤ length buf.new) }
    ensures no_signal { IfErr result (λ error. error_kind error ≢ ErrorKind.Interrupted) }
{
    for _ in 0..u64::MAX {
        match socket.recv_from(buf) {
            Err(error) if error.kind() == ErrorKind::Interrupted => {}
            done => return done,
        }
    }
    Err(io::Error::from(ErrorKind::Other))
}

#[cfg(test)]
mod tests {
    use super::*;
    use std::test::Fail;

    /// 127.0.0.1.
    const LOCALHOST: u32 = 0x7F00_0001;

    /// Whether pieces of four lengths are sent to this address.
    fn sends_pieces<L: Link>(link: &mut L, to: Addr) -> bool {
        link.send(to, b"") == Put::Done
            && link.send(to, b"abc") == Put::Done
            && link.send(to, &[7; 256]) == Put::Done
            && link.send(to, &[7; 300]) == Put::Done
    }

    /// Whether the socket of a link sends 300 bytes, which the link does not, and waits for a second.
    fn sends_more_and_waits_a_second(link: &UdpLink, to: SocketAddrV4) -> bool {
        match &link.socket {
            Some(socket) => {
                socket
                    .send_to(&[7; 300], to)
                    .is_ok_and(|count| count == 300)
                    && socket
                        .read_timeout()
                        .is_ok_and(|time| time == Some(Duration::from_secs(1)))
            }
            None => false,
        }
    }

    /// The place of the first receipt that isn't of so many bytes from this address.
    fn first_wrong_receipt<L: Link>(link: &mut L, from: Addr, lens: &[usize]) -> Option<usize> {
        for place in 0..lens.len() {
            let is_right = match link.recv() {
                Receipt::Got(sender, bytes) => {
                    sender == from && bytes.as_slice().len() == lens[place]
                }
                _ => false,
            };
            if !is_right {
                return Some(place);
            }
        }
        None
    }

    #[test]
    fn datagrams_on_loopback(rt: HostRuntime) -> Result<(), Fail> {
        let mut near = UdpLink::bind(&rt, 0)?;
        let mut far = UdpLink::bind(&rt, 0)?;
        let (from, to) = (near.port()?, far.port()?);
        let is_taken = UdpLink::bind(&rt, to).is_err();
        let ip = LOCALHOST;
        let are_sent = sends_pieces(&mut near, Addr { ip, port: to });
        let addr = SocketAddrV4::new(Ipv4Addr::LOCALHOST, to);
        let is_longer = sends_more_and_waits_a_second(&near, addr);
        assert_eq!(rt; (is_taken, are_sent, is_longer), (true, true, true));
        let lens = [0, 3, 256, 256, 256];
        let wrong = first_wrong_receipt(&mut far, Addr { ip, port: from }, &lens);
        let is_quiet = matches!(far.recv(), Receipt::Quiet);
        assert_eq!(rt; (wrong, is_quiet), (None, true));
        let refused = near.send(Addr { ip, port: 0 }, b"x");
        assert_eq!(rt; (refused, near.faults, far.faults), (Put::Failed, 1, 0));
        Ok(())
    }

    /// Whether the socket of a link is bound to all addresses of IPv4.
    fn is_on_all_addresses(link: &UdpLink) -> bool {
        match &link.socket {
            Some(socket) => {
                matches!(socket.local_addr(), Ok(SocketAddr::V4(own)) if own.ip().to_bits() == 0)
            }
            None => false,
        }
    }

    #[test]
    fn a_link_is_on_all_addresses(rt: HostRuntime) -> Result<(), Fail> {
        let link = UdpLink::bind(&rt, 0)?;
        assert!(rt; is_on_all_addresses(&link));
        Ok(())
    }

    #[test]
    fn calls_without_a_socket(rt: HostRuntime) {
        let mut link = UdpLink::without_socket();
        let to = Addr {
            ip: LOCALHOST,
            port: 9,
        };
        assert!(rt; link.port().is_err());
        assert_eq!(rt; link.send(to, b"abc"), Put::Failed);
        assert!(rt; matches!(link.recv(), Receipt::Failed));
        assert_eq!(rt; link.faults, 2);
    }
}
