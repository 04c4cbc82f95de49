//! Datagrams that are sent and received.
ghost use Rattle.std.specs.Prelude.{◌≡◌};
ghost use Rattle.edge_traits.specs.Link.{ReceiptFits};

use crate::{Addr, Datagram, Put};

/// What a receive gave.
#[derive(Drop)]
pub enum Receipt {
    /// A datagram and its sender.
    Got(Addr, Datagram),
    /// Nothing came.
    Quiet,
    /// The receive failed.
    Failed,
}

impl Receipt {
    /// The receipt of a datagram from this sender.
    pub fn got(from: Addr, bytes: Datagram) -> Receipt
        ensures same { result ≡ Receipt.Got from bytes }
        ensures fits { ReceiptFits result }
    {
        Receipt::Got(from, bytes)
    }

    /// The same receipt once more.
    pub fn copy(&self) -> Receipt
        ensures same { result ≡ self.now }
        ensures fits { ReceiptFits result }
    {
        match self {
            Receipt::Got(from, bytes) => Receipt::got(*from, bytes.copy()),
            Receipt::Quiet => Receipt::Quiet,
            Receipt::Failed => Receipt::Failed,
        }
    }
}

/// A send that was tried: where to, its bytes, and its answer.
#[derive(Drop)]
pub struct Tried {
    pub to: Addr,
    pub bytes: Datagram,
    pub put: Put,
}

/// Datagrams that are sent to anyone and received from anyone.
pub trait Link {
    ghost use Rattle.std.specs.Prelude.{ℕ, List, [], ◌∷◌, take, Option};
    ghost use Rattle.base_specs.specs.Told.{Grew};
    ghost use Rattle.edge_traits.specs.Link.{LinkCall, Receive, ReceiptCounts, ReceiptFits, Send};
    ghost use Rattle.edge_traits.specs.Sink.{PutCounts};

    /// Its calls, the oldest first, each with what came of it, where the link tells them.
    ghost told: { Self → Option (List LinkCall) };

    /// How often a send or a receive has failed.
    ghost faults: { Self → ℕ };

    /// Sends the first 256 of the bytes to this address.
    fn send(&mut self, to: Addr, bytes: &[u8]) -> Put
        ensures sends { Grew (told self.old) (told self.new)
            (Send (record { to = to; bytes = take 256 bytes.now; put = result }) ∷ []) }
        ensures cause { PutCounts result (faults self.old) (faults self.new) };

    /// Takes the next datagram that came.
    fn recv(&mut self) -> Receipt
        ensures fits { ReceiptFits result }
        ensures gives { Grew (told self.old) (told self.new) (Receive result ∷ []) }
        ensures cause { ReceiptCounts result (faults self.old) (faults self.new) };
}
