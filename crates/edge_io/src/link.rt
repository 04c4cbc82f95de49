//! Datagrams from memory.
ghost use Rattle.std.specs.Prelude.{◌≡◌, [], ◌∷◌, All, IfOk, IfSome, Some, drop, map, take};
ghost use Rattle.base_specs.specs.Told.{Grew};
ghost use Rattle.edge_io.specs.LinkScript.{calls_of, first_receipt, link_call, link_received, link_sent};
ghost use Rattle.edge_io.specs.LinkScript.{recv_answer, send_answer, sends_of, with_receipt, with_send, IsNoFailure};
ghost use Rattle.edge_traits.specs.Link.{Receive, ReceiptCounts, ReceiptFits, Send, sends_among};
ghost use Rattle.edge_traits.specs.Sink.{PutCounts};

use crate::NoMemory;
use crate::calls::Calls;
use edge_traits::{Addr, Datagram, Link, Put, Receipt, Tried};
use std::alloc::Global;
use std::marker::Model;

/// A call of a link in memory, with what came of it.
#[derive(Drop)]
pub enum LinkEntry {
    /// A send that was tried.
    Send(Tried),
    /// A receive, and what it gave.
    Receive(Receipt),
}

/// Receipts from memory, and quiet ones behind the last. Sends are done, and go nowhere.
///
/// The calls are counted from 1, sends and receives together, and those whose numbers are listed answer Failed: the
/// receipt is there for the next receive. The link tells its calls in their order until there is no room for another
/// send, or none for another receipt. From then on it tells nothing.
#[derive(Drop)]
pub struct ScriptLink {
    receipts: Vec<Receipt>,
    next: usize,
    entries: Vec<LinkEntry>,
    /// The sends among the entries.
    sent: Vec<Tried>,
    room: usize,
    is_telling: bool,
    calls: Calls,
}

impl Model for ScriptLink {
    ghost use Rattle.std.specs.Prelude.{◌≡◌, ◌+◌, ◌≤◌, All, length, drop, map, Some, None};
    ghost use Rattle.std.specs.Prelude.{if◌then◌else◌, vec_capacity};
    ghost use Rattle.edge_io.specs.LinkScript.{link_call, IsNoFailure, LinkScript};
    ghost use Rattle.edge_traits.specs.Link.{receipts_among, sends_among};

    ghost Value = { LinkScript };

    ghost view = { λ l. record {
      coming = drop l.next l.receipts.items;
      told = if l.is_telling then Some (map link_call l.entries.items) else None;
      room = l.room;
      fails = l.calls.fails.items;
      calls = l.calls.made;
      faults = l.calls.faults;
    } };

    ghost invariant = { λ l. (l.next ≤ length l.receipts.items)
        × All IsNoFailure l.receipts.items
        × (l.sent.items ≡ sends_among (map link_call l.entries.items))
        × (length l.entries.items
        ≡ length l.sent.items + length (receipts_among (map link_call l.entries.items)))
        × (length l.sent.items ≤ l.room)
        × (length l.entries.items ≤ length l.sent.items + l.room)
        × (l.room ≤ vec_capacity l.sent)
        × (l.room + l.room ≤ vec_capacity l.entries) };
}

impl ScriptLink {
    /// A link that gives these receipts, with room to tell so many sends and so many receipts, whose calls of the
    /// numbers in `fails` fail.
    ///
    /// It takes the memory of its room, and answers NoMemory where that can't be had.
    pub fn new(
        alloc: Global,
        receipts: Vec<Receipt>,
        fails: Vec<u64>,
        room: usize,
    ) -> Result<ScriptLink, NoMemory>
        requires { All IsNoFailure receipts.items }
        ensures script { IfOk result (λ l. l ≡ record {
          coming = receipts.items;
          told = Some [];
          room = room;
          fails = fails.items;
          calls = 0;
          faults = 0;
        }) }
        ensures told { IfOk result (λ l. ⟦<ScriptLink as Link>⟧.told l ≡ Some []) }
        ensures faults { IfOk result (λ l. ⟦<ScriptLink as Link>⟧.faults l ≡ 0) }
    {
        let Some(both) = room.checked_add(room) else {
            return Err(NoMemory);
        };
        let Ok(entries) = Vec::with_capacity(alloc, both) else {
            return Err(NoMemory);
        };
        let Ok(sent) = Vec::with_capacity(alloc, room) else {
            return Err(NoMemory);
        };
        Ok(ScriptLink {
            receipts,
            next: 0,
            entries,
            sent,
            room,
            is_telling: true,
            calls: Calls {
                fails,
                made: 0,
                faults: 0,
            },
        })
    }

    /// The calls made, the oldest first, and none once the link tells nothing.
    pub fn calls(&self) -> &[LinkEntry]
        ensures script { map link_call result.now ≡ calls_of self.now.told }
        ensures told { IfSome (⟦<ScriptLink as Link>⟧.told self.now)
            (λ calls. map link_call result.now ≡ calls) }
    {
        if self.is_telling { &self.entries } else { &[] }
    }

    /// The sends tried, and none once the link tells nothing.
    pub fn sends(&self) -> &[Tried]
        ensures script { result.now ≡ sends_of self.now.told }
        ensures told { IfSome (⟦<ScriptLink as Link>⟧.told self.now)
            (λ calls. result.now ≡ sends_among calls) }
    {
        if self.is_telling { &self.sent } else { &[] }
    }

    /// Takes the next receipt.
    fn take(&mut self) -> Receipt
        ensures gives { result ≡ first_receipt self.old.coming }
        ensures no_failure { IsNoFailure result }
        ensures fits { ReceiptFits result }
        ensures left { self.new ≡ record self.old { coming = drop 1 self.old.coming } }
    {
        if self.next == self.receipts.len() {
            return Receipt::Quiet;
        }
        let receipt = self.receipts[self.next].copy();
        self.next += 1;
        receipt
    }

    /// Tells a send, or nothing from now on.
    fn keep_send(&mut self, to: Addr, bytes: &Datagram, put: Put)
        ensures { self.new ≡ record self.old {
          told = with_send self.old.room (record { to = to; bytes = bytes.now; put = put })
              self.old.told;
        } }
    {
        let tried = tried_send(to, bytes, put);
        let entry = LinkEntry::Send(tried_send(to, bytes, put));
        if self.sent.len() >= self.room
            || self.entries.push(entry).is_err()
            || self.sent.push(tried).is_err()
        {
            self.is_telling = false;
        }
    }

    /// Tells a receipt, or nothing from now on.
    fn keep_receipt(&mut self, receipt: Receipt)
        ensures { self.new ≡ record self.old {
          told = with_receipt self.old.room receipt self.old.told;
        } }
    {
        if self.entries.len() - self.sent.len() >= self.room
            || self.entries.push(LinkEntry::Receive(receipt)).is_err()
        {
            self.is_telling = false;
        }
    }
}

/// A send of these bytes, and what came of it.
fn tried_send(to: Addr, bytes: &Datagram, put: Put) -> Tried
    ensures { result ≡ record { to = to; bytes = bytes.now; put = put } }
{
    Tried {
        to,
        bytes: bytes.copy(),
        put,
    }
}

impl Link for ScriptLink {
    ghost told = { λ l. l.told };

    ghost faults = { λ l. l.faults };

    fn send(&mut self, to: Addr, bytes: &[u8]) -> Put
        ensures sends { Grew self.old.told self.new.told
            (Send (record { to = to; bytes = take 256 bytes.now; put = result }) ∷ []) }
        ensures cause { PutCounts result self.old.faults self.new.faults }
        ensures answer { result ≡ send_answer self.old }
        ensures script { self.new ≡ link_sent
            (record { to = to; bytes = take 256 bytes.now; put = result }) self.old }
    {
        let put = if self.calls.fails_now() {
            Put::Failed
        } else {
            Put::Done
        };
        self.keep_send(to, &Datagram::from_slice(bytes), put);
        put
    }

    fn recv(&mut self) -> Receipt
        ensures fits { ReceiptFits result }
        ensures gives { Grew self.old.told self.new.told (Receive result ∷ []) }
        ensures cause { ReceiptCounts result self.old.faults self.new.faults }
        ensures answer { result ≡ recv_answer self.old }
        ensures script { self.new ≡ link_received result self.old }
    {
        let receipt = if self.calls.fails_now() {
            Receipt::Failed
        } else {
            self.take()
        };
        self.keep_receipt(receipt.copy());
        receipt
    }
}
