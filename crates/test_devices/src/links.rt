//! Links in memory, as tables.
ghost use Rattle.std.specs.Prelude.{All, IfOk};
ghost use Rattle.edge_io.specs.LinkScript.{IsNoFailure};

use edge_io::{Addr, Datagram, Link, LinkEntry, Put, Receipt, ScriptLink};
use std::alloc::{AllocError, Global};
use std::test::Fail;

/// Where receipts come from.
const PEER: Addr = Addr {
    ip: 0x0A00_0001,
    port: 40_000,
};

/// Another address.
const OTHER: Addr = Addr {
    ip: 0xFFFF_FFFF,
    port: 123,
};

/// The receipt of these bytes from the peer, or a quiet one, which is ".".
fn receipt_of(text: &str) -> Receipt
    ensures { IsNoFailure result }
{
    if text == "." {
        Receipt::Quiet
    } else {
        Receipt::got(PEER, Datagram::from_slice(text.as_bytes()))
    }
}

/// The receipts of these texts.
fn receipts_of(alloc: Global, texts: &[&str]) -> Result<Vec<Receipt>, AllocError>
    ensures { IfOk result (λ receipts. All IsNoFailure receipts.items) }
{
    let mut receipts = Vec::new(alloc);
    for text in texts {
        receipts.push(receipt_of(text))?;
    }
    Ok(receipts)
}

/// Whether a receipt is of these bytes from the peer, or failed for "!", or is quiet for ".".
fn is_receipt(receipt: &Receipt, want: &str) -> bool {
    match receipt {
        Receipt::Got(from, bytes) => *from == PEER && bytes.as_slice() == want.as_bytes(),
        Receipt::Quiet => want == ".",
        Receipt::Failed => want == "!",
    }
}

/// The place of the first receipt that isn't as wanted.
fn first_wrong_receipt<L: Link>(link: &mut L, wanted: &[&str]) -> Option<usize> {
    for place in 0..wanted.len() {
        if !is_receipt(&link.recv(), wanted[place]) {
            return Some(place);
        }
    }
    None
}

/// The receipts of a link, its failing calls, and what it is to give.
struct LinkRow {
    texts: &'static [&'static str],
    fails: &'static [u64],
    wanted: &'static [&'static str],
}

const LINKS: &[LinkRow] = &[
    LinkRow {
        texts: &[],
        fails: &[],
        wanted: &[".", "."],
    },
    LinkRow {
        texts: &["ab", ".", "c"],
        fails: &[2],
        wanted: &["ab", "!", ".", "c", "."],
    },
    LinkRow {
        texts: &["ab"],
        fails: &[1, 3],
        wanted: &["!", "ab", "!", "."],
    },
];

fn link_of(alloc: Global, texts: &[&str], fails: &[u64], room: usize) -> Result<ScriptLink, Fail> {
    let receipts = receipts_of(alloc, texts)?;
    let fails = fails.to_vec(alloc)?;
    Ok(ScriptLink::new(alloc, receipts, fails, room)?)
}

#[test]
fn links_give_their_receipts(rt: HostRuntime) -> Result<(), Fail> {
    for row in LINKS {
        let mut link = link_of(rt.alloc(), row.texts, row.fails, 0)?;
        assert_eq!(rt; first_wrong_receipt(&mut link, row.wanted), None);
    }
    Ok(())
}

/// Whether this is a send of so many bytes to this address, and this came of it.
fn is_send(entry: &LinkEntry, to: Addr, len: usize, put: Put) -> bool {
    match entry {
        LinkEntry::Send(sent) => {
            sent.to == to && sent.bytes.as_slice().len() == len && sent.put == put
        }
        LinkEntry::Receive(_) => false,
    }
}

/// Whether these are a send to the peer, a receipt of "ab", and a send to the other address that failed.
fn are_three_calls(calls: &[LinkEntry]) -> bool {
    match calls {
        [first, LinkEntry::Receive(receipt), last] => {
            is_send(first, PEER, 1, Put::Done)
                && is_receipt(receipt, "ab")
                && is_send(last, OTHER, 256, Put::Failed)
        }
        _ => false,
    }
}

#[test]
fn links_tell_calls_while_there_is_room(rt: HostRuntime) -> Result<(), Fail> {
    let mut link = link_of(rt.alloc(), &["ab", "c", "d"], &[3], 2)?;
    link.send(PEER, b"x");
    let first = first_wrong_receipt(&mut link, &["ab"]);
    link.send(OTHER, &[7; 300]);
    assert_eq!(rt;
        (first, are_three_calls(link.calls()), link.sends().len()),
        (None, true, 2)
    );
    // There is room for two receipts, as for two sends.
    let later = first_wrong_receipt(&mut link, &["c", "d"]);
    assert_eq!(rt;
        (later, link.calls().len(), link.sends().len()),
        (None, 0, 0)
    );
    Ok(())
}
