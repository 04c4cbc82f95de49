//! Devices that note in which order they are called.
ghost use Rattle.std.specs.Prelude.{◌≡◌};

use edge_io::{
    Addr, Clock, Drawn, Entropy, Link, Opened, Put, Reading, Receipt, Sink, Source, Take, Wire,
};
use slot_disk::Disk;
use std::alloc::Global;
use std::cell::Cell;

/// A call: its number among the calls of all devices of a run, from 1, and its letter.
#[derive(Clone, Copy)]
pub(crate) struct Call {
    pub number: u32,
    pub letter: u8,
}

/// A device that notes its calls.
#[derive(Drop)]
pub struct Noted<'a, T> {
    pub(crate) inner: T,
    pub(crate) calls: Vec<Call>,
    order: &'a Cell<u32>,
    /// The letter of a read or a write, where the device makes only these.
    letter: u8,
}

impl<'a, T> Noted<'a, T> {
    pub(crate) fn new(alloc: Global, inner: T, order: &'a Cell<u32>, letter: u8) -> Noted<'a, T> {
        Noted {
            inner,
            calls: Vec::new(alloc),
            order,
            letter,
        }
    }

    /// Notes the next call. One for which there is no memory is missing from the list, and the test fails.
    fn note(&mut self, letter: u8)
        ensures { self.new.inner ≡ self.old.inner }
    {
        let number = self.order.get().saturating_add(1);
        self.order.set(number);
        let _ = self.calls.push(Call { number, letter });
    }
}

impl<T: Source> Source for Noted<'_, T> {
    ghost left = { λ noted. T.left noted.inner };

    ghost faults = { λ noted. T.faults noted.inner };

    fn read(&mut self, buf: &mut [u8]) -> Take {
        self.note(self.letter);
        self.inner.read(buf)
    }
}

impl<T: Sink> Sink for Noted<'_, T> {
    ghost written = { λ noted. T.written noted.inner };

    ghost faults = { λ noted. T.faults noted.inner };

    fn write(&mut self, piece: &[u8]) -> Put {
        self.note(self.letter);
        self.inner.write(piece)
    }
}

impl<T: Link> Link for Noted<'_, T> {
    ghost told = { λ noted. T.told noted.inner };

    ghost faults = { λ noted. T.faults noted.inner };

    fn send(&mut self, to: Addr, bytes: &[u8]) -> Put {
        self.note(b's');
        self.inner.send(to, bytes)
    }

    fn recv(&mut self) -> Receipt {
        self.note(b'r');
        self.inner.recv()
    }
}

impl<T: Clock> Clock for Noted<'_, T> {
    ghost told = { λ noted. T.told noted.inner };

    ghost faults = { λ noted. T.faults noted.inner };

    fn now(&mut self) -> Reading {
        self.note(b't');
        self.inner.now()
    }

    fn step(&mut self, amount: i64) {
        self.note(b'm');
        self.inner.step(amount);
    }

    fn slew(&mut self, amount: i64) {
        self.note(b'm');
        self.inner.slew(amount);
    }
}

impl<T: Entropy> Entropy for Noted<'_, T> {
    ghost words = { λ noted. T.words noted.inner };

    ghost faults = { λ noted. T.faults noted.inner };

    fn word(&mut self) -> Drawn {
        self.note(b'e');
        self.inner.word()
    }
}

impl<T: Disk> Disk for Noted<'_, T> {
    ghost told = { λ noted. T.told noted.inner };

    ghost faults = { λ noted. T.faults noted.inner };

    ghost is_disk = { λ noted. T.is_disk noted.inner };

    fn read(&mut self, buf: &mut [u8; 256]) -> Put {
        self.note(b'd');
        self.inner.read(buf)
    }

    fn write_at(&mut self, at: usize, piece: &[u8]) -> Put {
        self.note(b'w');
        self.inner.write_at(at, piece)
    }

    fn sync(&mut self) -> Put {
        self.note(b'y');
        self.inner.sync()
    }
}

impl<T: Wire> Wire for Noted<'_, T> {
    ghost told = { λ noted. T.told noted.inner };

    ghost is_open = { λ noted. T.is_open noted.inner };

    ghost faults = { λ noted. T.faults noted.inner };

    ghost write_faults = { λ noted. T.write_faults noted.inner };

    fn next_session(&mut self) -> Opened {
        self.note(b'n');
        self.inner.next_session()
    }

    fn read(&mut self, buf: &mut [u8]) -> Take {
        self.note(b'h');
        self.inner.read(buf)
    }

    fn write(&mut self, piece: &[u8]) -> Put {
        self.note(b'p');
        self.inner.write(piece)
    }
}
