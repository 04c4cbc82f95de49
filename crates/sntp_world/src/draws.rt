//! Numbers from a seed, and the operations that they make.
ghost use Rattle.std.specs.Prelude.{◌≡◌, ◌+◌, ◌*◌, ◌<◌, ℕ, IfOk, length};
ghost use Rattle.sntp_world.specs.declared.op.Op.TheVariants as Op;
ghost use Rattle.sntp_world.specs.Draws.{bytes_drawn, draw, draws_at, draws_of_restart_or_ask, op_at, restart_or_ask_at, script_of, small, state_at};

use crate::{NoMemory, Op, Script};
use edge_traits::Datagram;
use std::alloc::{AllocError, Global};

/// Bytes in a stranger's packet.
const STRANGER_LEN: usize = 68;

/// The first byte of a stranger's request: leap indicator 0, version 3, mode 3.
const CLIENT: u8 = 0x1B;

/// A generator of numbers below 65,536. It is no good one: what counts is that everyone can write it again.
#[derive(Clone, Copy)]
pub(crate) struct Draws {
    state: u32,
}

impl Draws {
    /// The numbers from this seed.
    pub(crate) fn new(seed: u32) -> Draws
        ensures { result.state ≡ seed }
    {
        Draws { state: seed }
    }

    /// The next number.
    fn draw(&mut self) -> u32
        ensures drawn { (seed n : ℕ) → self.old.state ≡ state_at seed n → result ≡ draw seed (n + 1) }
        ensures state { (seed n : ℕ) → self.old.state ≡ state_at seed n
            → self.new.state ≡ state_at seed (n + 1) }
        ensures below { result < 65536 }
    {
        self.state = self
            .state
            .wrapping_mul(1_664_525)
            .wrapping_add(1_013_904_223);
        self.state >> 16
    }

    /// The next operation.
    pub(crate) fn op(&mut self) -> Op
        ensures op { (seed n : ℕ) → self.old.state ≡ state_at seed n → result ≡ op_at seed (n + 1) }
        ensures state { (seed n : ℕ) → self.old.state ≡ state_at seed n
            → self.new.state ≡ state_at seed (n + draws_at seed (n + 1)) }
    {
        match self.draw() % 16 {
            0..=5 => self.pass(),
            6..=8 => self.poll(),
            9..=13 => Op::Deliver {
                back: self.draw() % 8,
            },
            14 => Op::Craft {
                bytes: Datagram::from_slice(&self.bytes()),
            },
            _ => self.restart_or_ask(),
        }
    }

    /// The rest of an operation that begins with a draw for Pass.
    fn pass(&mut self) -> Op
        ensures op { (seed n : ℕ) → self.old.state ≡ state_at seed n
            → result ≡ Op.Pass (10000 * (1 + draw seed (n + 1))) (small (draw seed (n + 2))) (small (draw seed (n + 3))) }
        ensures state { (seed n : ℕ) → self.old.state ≡ state_at seed n
            → self.new.state ≡ state_at seed (n + 3) }
    {
        let d = 10_000 * (1 + self.draw());
        let e = self.small();
        let f = self.small();
        Op::Pass { d, e, f }
    }

    /// An amount from -1,000 to 1,000.
    fn small(&mut self) -> i32
        ensures drawn { (seed n : ℕ) → self.old.state ≡ state_at seed n → result ≡ small (draw seed (n + 1)) }
        ensures state { (seed n : ℕ) → self.old.state ≡ state_at seed n
            → self.new.state ≡ state_at seed (n + 1) }
    {
        (self.draw() % 2_001) as i32 - 1_000
    }

    fn poll(&mut self) -> Op
        ensures op { (seed n : ℕ) → self.old.state ≡ state_at seed n
            → result ≡ Op.Poll (draw seed (n + 1) * 65536 + draw seed (n + 2)) }
        ensures state { (seed n : ℕ) → self.old.state ≡ state_at seed n
            → self.new.state ≡ state_at seed (n + 2) }
    {
        let high = self.draw();
        let low = self.draw();
        Op::Poll {
            word: high << 16 | low,
        }
    }

    fn restart_or_ask(&mut self) -> Op
        ensures op { (seed n : ℕ) → self.old.state ≡ state_at seed n
            → result ≡ restart_or_ask_at seed (n + 1) }
        ensures state { (seed n : ℕ) → self.old.state ≡ state_at seed n
            → self.new.state ≡ state_at seed (n + draws_of_restart_or_ask seed (n + 1)) }
    {
        if self.draw() % 8 == 0 {
            return Op::Restart;
        }
        let mut bytes = [CLIENT; STRANGER_LEN];
        self.fill(&mut bytes[1..]);
        Op::Ask {
            bytes: Datagram::from_slice(&bytes),
        }
    }

    /// The bytes of a stranger's packet.
    fn bytes(&mut self) -> [u8; STRANGER_LEN]
        ensures drawn { (seed n : ℕ) → self.old.state ≡ state_at seed n → result ≡ bytes_drawn seed (n + 1) 68 }
        ensures state { (seed n : ℕ) → self.old.state ≡ state_at seed n
            → self.new.state ≡ state_at seed (n + 68) }
    {
        let mut bytes = [0; STRANGER_LEN];
        self.fill(&mut bytes);
        bytes
    }

    /// A draw for each byte.
    #[tactic(auto, using(crate::proofs::Drawn::bytes_drawn_none))]
    fn fill(&mut self, bytes: &mut [u8])
        ensures drawn { (seed n : ℕ) → self.old.state ≡ state_at seed n
            → bytes.new ≡ bytes_drawn seed (n + 1) (length bytes.old) }
        ensures state { (seed n : ℕ) → self.old.state ≡ state_at seed n
            → self.new.state ≡ state_at seed (n + length bytes.old) }
    {
        for byte in bytes {
            *byte = (self.draw() % 256) as u8;
        }
    }
}

/// The first `n` operations of a seed. NoMemory comes for want of memory.
pub fn script(alloc: Global, seed: u32, n: u32) -> Result<Script, NoMemory>
    ensures { IfOk result (λ ops. ops ≡ script_of seed n) }
{
    match ops_of(alloc, seed, n) {
        Ok(ops) => Ok(Script::new(ops)),
        Err(_) => Err(NoMemory),
    }
}

fn ops_of(alloc: Global, seed: u32, n: u32) -> Result<Vec<Op>, AllocError>
    ensures { IfOk result (λ ops. ops.items ≡ script_of seed n) }
{
    let mut draws = Draws::new(seed);
    let mut ops = Vec::with_capacity(alloc, n as usize)?;
    for _ in 0..n {
        ops.push(draws.op())?;
    }
    Ok(ops)
}
