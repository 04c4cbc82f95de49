//! Links of the machine, on loopback.

use edge_io::{Addr, Link, Put, UdpLink};
use std::net::{Ipv4Addr, SocketAddrV4, UdpSocket};
use std::test::Fail;

/// 127.0.0.1.
const LOCALHOST: u32 = 0x7F00_0001;

#[test]
fn a_link_sends_256_bytes_at_most(rt: HostRuntime) -> Result<(), Fail> {
    let mut near = UdpLink::bind(&rt, 0)?;
    let far = UdpSocket::bind(&rt, SocketAddrV4::new(Ipv4Addr::LOCALHOST, 0))?;
    let (ip, port) = (LOCALHOST, far.local_addr()?.port());
    assert_eq!(rt; near.send(Addr { ip, port }, &[7; 300]), Put::Done);
    let mut buf = [0; 300];
    assert_eq!(rt; far.recv_from(&mut buf)?.0, 256);
    Ok(())
}
