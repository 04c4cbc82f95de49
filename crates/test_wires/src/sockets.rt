//! Wires of the machine that accept, on loopback.

use edge_io::{Opened, Put, Take, TcpWire, Wire};
use std::io::{Read, Write};
use std::net::{Ipv4Addr, SocketAddrV4, TcpStream};
use std::test::Fail;

/// The address of this port of the own machine.
fn at(port: u16) -> SocketAddrV4 {
    SocketAddrV4::new(Ipv4Addr::LOCALHOST, port)
}

/// Whether the next read gives these bytes, or is at the end where there are none.
fn gives<S: Read>(stream: &mut S, want: &[u8]) -> bool {
    let mut buf = [0; 8];
    match stream.read(&mut buf) {
        Ok(count) => buf.get(..count) == Some(want),
        Err(_) => false,
    }
}

/// Whether the next read of the session gives these bytes.
fn reads<W: Wire>(wire: &mut W, want: &[u8]) -> bool {
    let mut buf = [0; 8];
    match wire.read(&mut buf) {
        Take::Bytes(count) => buf.get(..count) == Some(want),
        _ => false,
    }
}

/// Whether a read answers this, which is no number of bytes, and a write fails.
fn neither_reads_nor_writes<W: Wire>(wire: &mut W, want: Take) -> bool {
    wire.read(&mut [0; 8]) == want && wire.write(b"a") == Put::Failed
}

/// Whether a session reads what its client writes in two pieces.
fn reads_two_pieces<W: Wire, S: Write>(wire: &mut W, client: &mut S) -> bool {
    client.write(b"abc").is_ok()
        && reads(wire, b"abc")
        && client.write(b"de").is_ok()
        && reads(wire, b"de")
}

/// Whether a session reads and answers what its client writes. Then the client writes more that nobody reads.
fn answers_a_client<W: Wire, S: Write>(wire: &mut W, client: &mut S) -> bool {
    wire.next_session() == Opened::Session
        && reads_two_pieces(wire, client)
        && wire.write(b"answer") == Put::Done
        && client.write(b"more").is_ok()
}

/// Whether the client has its answer and then the end, and no reset.
fn has_its_answer<S: Read>(client: &mut S) -> bool {
    gives(client, b"answer") && gives(client, b"")
}

#[test]
fn accepted_sessions_on_loopback(rt: HostRuntime) -> Result<(), Fail> {
    let mut wire = TcpWire::listen(&rt, 0)?;
    let port = wire.port()?;
    let mut first = TcpStream::connect(&rt, at(port))?;
    let mut second = TcpStream::connect(&rt, at(port))?;
    let is_closed = neither_reads_nor_writes(&mut wire, Take::End);
    let is_first = answers_a_client(&mut wire, &mut first);
    let is_second = answers_a_client(&mut wire, &mut second);
    let is_taken = TcpWire::listen(&rt, port).is_err();
    drop(wire);
    // Though sessions were just closed on the port, it can be had again.
    let is_free = TcpWire::listen(&rt, port).is_ok();
    let are_answered = has_its_answer(&mut first) && has_its_answer(&mut second);
    assert_eq!(rt;
        [
            is_closed,
            is_first,
            is_second,
            is_taken,
            is_free,
            are_answered
        ],
        [true; 6]
    );
    Ok(())
}

/// Whether a write fails in time. The first piece to a peer that is gone is still sent, and is refused then.
fn refuses_a_write<W: Wire>(wire: &mut W) -> bool {
    for _ in 0..1000 {
        if wire.write(b"a") == Put::Failed {
            return true;
        }
    }
    false
}

#[test]
fn writes_to_a_peer_that_is_gone(rt: HostRuntime) -> Result<(), Fail> {
    let mut wire = TcpWire::listen(&rt, 0)?;
    let client = TcpStream::connect(&rt, at(wire.port()?))?;
    let opened = wire.next_session();
    drop(client);
    let is_refused = refuses_a_write(&mut wire);
    let is_closed = neither_reads_nor_writes(&mut wire, Take::Failed);
    assert_eq!(rt;
        (opened, is_refused, is_closed),
        (Opened::Session, true, true)
    );
    Ok(())
}
