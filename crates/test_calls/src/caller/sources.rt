//! What a client makes of replies to the call for the source.
use super::{ANSWERED, after_bind, changed, front, in_pieces, pdu};
use arrayvec::ArrayVec;
use w32t_calls::{CallFault, Caller};

/// The length of the name that source makes of this stub.
fn named_by(stub: &[u8]) -> Result<usize, CallFault> {
    let mut body: ArrayVec<u8, 300> = ArrayVec::new();
    let _ = body.try_extend_from_slice(&[0; 8]);
    let _ = body.try_extend_from_slice(stub);
    let reply = pdu(2, 2, body.as_slice());
    let bytes = after_bind(reply.as_slice());
    let mut wire = in_pieces(bytes.as_slice(), 7);
    let mut caller = Caller::new();
    caller.bind(&mut wire)?;
    let name = caller.source(&mut wire)?;
    Ok(name.as_slice().len())
}

#[test]
fn replies_to_source(rt: HostRuntime) {
    let bad = Err(CallFault::BadReply(56));
    // The stub of the name DC1: the referent, the greatest count, the offset, the count, the units and the status.
    let answered = ANSWERED.as_slice();
    let stub = &answered[108..136];
    for (place, byte, told) in [
        (0, 0, Ok(3)),
        (2, 0, bad),
        (3, 9, Ok(3)),
        (4, 3, bad),
        (4, 5, Ok(3)),
        (7, 1, Ok(3)),
        (8, 1, bad),
        (11, 1, bad),
        (12, 0, bad),
        (12, 1, bad),
        (12, 3, bad),
        (12, 5, bad),
        (12, 65, bad),
        (15, 1, bad),
        (16, 0x1F, bad),
        (16, 0x20, Ok(3)),
        (16, 0x7E, Ok(3)),
        (16, 0x7F, bad),
        (16, 0, bad),
        (17, 1, bad),
        (22, 1, bad),
        (23, 1, bad),
        (24, 1, bad),
        (27, 1, bad),
    ] {
        let reply = changed(stub, place, byte);
        assert_eq!(rt; named_by(reply.as_slice()), told, "{byte} at {place}");
    }
    // A name of two bytes, with padding that isn't looked at.
    let short = changed(changed(stub, 12, 3).as_slice(), 20, 0);
    let padded = changed(changed(short.as_slice(), 22, 0xFF).as_slice(), 23, 0xFF);
    assert_eq!(rt; named_by(short.as_slice()), Ok(2));
    assert_eq!(rt; named_by(padded.as_slice()), Ok(2));
    for len in 0..28 {
        assert_eq!(rt; named_by(front(stub, len)), bad, "{len} bytes");
    }
}

/// The stub of a name of so many letters, whose status stands after this many bytes of padding.
fn long_stub(letters: u8, padding: usize) -> ArrayVec<u8, 300> {
    let mut out = ArrayVec::new();
    let count = letters.saturating_add(1);
    let _ = out.try_extend_from_slice(&[
        1, 0, 0, 0, 0xFF, 0xFF, 0xFF, 0xFF, 0, 0, 0, 0, count, 0, 0, 0,
    ]);
    for _ in 0..letters {
        let _ = out.try_extend_from_slice(b"A\0");
    }
    let _ = out.try_extend_from_slice(&[0; 6][..padding.saturating_add(2).min(6)]);
    let _ = out.try_extend_from_slice(&[0; 4]);
    out
}

#[test]
fn shortest_and_longest_name(rt: HostRuntime) {
    let bad = Err(CallFault::BadReply(56));
    for (letters, padding, told) in [
        (0, 2, bad),
        (1, 0, Ok(1)),
        (2, 2, Ok(2)),
        (62, 2, Ok(62)),
        (63, 0, Ok(63)),
        (64, 2, bad),
    ] {
        let stub = long_stub(letters, padding);
        assert_eq!(rt; named_by(stub.as_slice()), told, "{letters} letters");
    }
}
