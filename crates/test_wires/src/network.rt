//! A network in memory, by which a wire over TCP is seen from the other side: each call that it makes, in their order.

use std::cell::Cell;
use std::io::{self, ErrorKind, Read, Write};
use std::net::{Net, OpenListener, OpenStream, Shutdown, SocketAddr};
use std::os::fd::{AsRawFd, RawFd};
use std::time::{Clock, Duration};

/// A call on the network or the clock. Addresses are numbers, and times milliseconds.
#[derive(Clone, Copy, PartialEq, Eq)]
pub(crate) enum Asked {
    Bind(u32, u16),
    Connect(u32, u16, u128),
    Accept,
    ReadWithin(Option<u128>),
    WriteWithin(Option<u128>),
    Read,
    Write,
    Shutdown(Shutdown),
    Time,
}

/// What a call is answered.
#[derive(Clone, Copy)]
pub(crate) enum Answer {
    Done,
    /// So many bytes, or so many milliseconds.
    Count(u16),
    /// The error with this number on Linux.
    Error(i32),
}

/// The calls that are wanted, in their order, each with its answer. From a call on that is another, each fails.
#[derive(Drop)]
pub(crate) struct Plan {
    calls: &'static [(Asked, Answer)],
    made: Cell<usize>,
    is_left: Cell<bool>,
}

impl Plan {
    pub(crate) fn new(calls: &'static [(Asked, Answer)]) -> Plan {
        Plan {
            calls,
            made: Cell::new(0),
            is_left: Cell::new(false),
        }
    }

    /// These calls were made and no other.
    pub(crate) fn is_done(&self) -> bool {
        !self.is_left.get() && self.made.get() == self.calls.len()
    }

    /// Makes a call, and gives its number.
    fn answer(&self, asked: Asked) -> io::Result<u16> {
        let made = self.made.get();
        match self.calls.get(made) {
            Some((wanted, answer)) if *wanted == asked && !self.is_left.get() => {
                self.made.set(made.saturating_add(1));
                match answer {
                    Answer::Done => Ok(0),
                    Answer::Count(count) => Ok(*count),
                    Answer::Error(number) => Err(io::Error::from_raw_os_error(*number)),
                }
            }
            _ => {
                self.is_left.set(true);
                Err(io::Error::from(ErrorKind::Unsupported))
            }
        }
    }
}

/// The network, and each listener and stream of it.
#[derive(Clone, Copy)]
pub(crate) struct Network<'a> {
    pub(crate) plan: &'a Plan,
}

/// The number of an address of IPv4, and its port.
fn numbers_of(addr: SocketAddr) -> (u32, u16) {
    match addr {
        SocketAddr::V4(addr) => (addr.ip().to_bits(), addr.port()),
        SocketAddr::V6(_) => (0, 0),
    }
}

fn millis_of(limit: Option<Duration>) -> Option<u128> {
    limit.map(|limit| limit.as_millis())
}

impl<'a> Net for Network<'a> {
    type Stream = Network<'a>;

    type Listener = Network<'a>;

    fn bind(&self, addr: SocketAddr) -> io::Result<Network<'a>> {
        let (ip, port) = numbers_of(addr);
        self.plan.answer(Asked::Bind(ip, port))?;
        Ok(*self)
    }

    fn connect(&self, _addr: SocketAddr) -> io::Result<Network<'a>> {
        Err(io::Error::from(ErrorKind::Unsupported))
    }

    fn connect_timeout(&self, addr: SocketAddr, limit: Duration) -> io::Result<Network<'a>> {
        let (ip, port) = numbers_of(addr);
        self.plan
            .answer(Asked::Connect(ip, port, limit.as_millis()))?;
        Ok(*self)
    }
}

impl<'a> OpenListener for Network<'a> {
    type Stream = Network<'a>;

    fn accept(&self) -> io::Result<(Network<'a>, SocketAddr)> {
        self.plan.answer(Asked::Accept)?;
        Ok((*self, SocketAddr::from(([10, 0, 0, 1], 1024))))
    }
}

impl<'a> OpenStream for Network<'a> {
    fn set_read_timeout(&self, limit: Option<Duration>) -> io::Result<()> {
        self.plan.answer(Asked::ReadWithin(millis_of(limit)))?;
        Ok(())
    }

    fn set_write_timeout(&self, limit: Option<Duration>) -> io::Result<()> {
        self.plan.answer(Asked::WriteWithin(millis_of(limit)))?;
        Ok(())
    }

    fn shutdown(&self, how: Shutdown) -> io::Result<()> {
        self.plan.answer(Asked::Shutdown(how))?;
        Ok(())
    }
}

impl<'a> AsRawFd for Network<'a> {
    fn as_raw_fd(&self) -> RawFd {
        -1
    }
}

impl<'a> Read for Network<'a> {
    fn read(&mut self, buf: &mut [u8]) -> io::Result<usize> {
        let count = usize::from(self.plan.answer(Asked::Read)?).min(buf.len());
        buf[..count].fill(b'x');
        Ok(count)
    }
}

impl<'a> Write for Network<'a> {
    fn write(&mut self, buf: &[u8]) -> io::Result<usize> {
        let count = usize::from(self.plan.answer(Asked::Write)?);
        Ok(count.min(buf.len()))
    }

    fn flush(&mut self) -> io::Result<()> {
        Ok(())
    }
}

impl<'a> Clock for Network<'a> {
    fn monotonic(&self) -> io::Result<Duration> {
        let millis = self.plan.answer(Asked::Time)?;
        Ok(Duration::from_millis(u64::from(millis)))
    }

    fn since_1970(&self) -> io::Result<Duration> {
        Err(io::Error::from(ErrorKind::Unsupported))
    }
}
