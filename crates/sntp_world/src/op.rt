//! What can happen in the world, and what comes of it.
ghost use Rattle.std.specs.Prelude.{◌≡◌, ◌<◌, Some, length, slice_get};

use dc_sign::Answer;
use edge_traits::Datagram;
use sntp_core::Outcome;
use std::marker::Model;

/// What happens. Amounts of time are in ticks of 100 ns.
#[derive(Drop)]
pub enum Op {
    /// Time passes: the member's clock moves on by `d + e`, and the controller's by `d + f`.
    Pass { d: u32, e: i32, f: i32 },
    /// The member's turn comes, with this random word for a request.
    Poll { word: u32 },
    /// A packet reaches its destination, and stays: it can be delivered again. It is the one so many places before the
    /// packet that was sent last.
    Deliver { back: u32 },
    /// A stranger asks the controller.
    Ask { bytes: Datagram },
    /// A stranger's packet reaches the member as if it came from the controller.
    Craft { bytes: Datagram },
    /// The member is started again, on a keeper that reserves counts by 64.
    Restart,
}

/// A list of operations.
#[derive(Drop)]
pub struct Script {
    ops: Vec<Op>,
}

impl Model for Script {
    ghost use Rattle.std.specs.Prelude.{List};
    ghost use Rattle.sntp_world.specs.declared.op.Op.{Op};

    ghost Value = { List Op };

    ghost view = { λ s. s.ops.items };
}

impl Script {
    /// These operations, in their order.
    pub(crate) fn new(ops: Vec<Op>) -> Script
        ensures { result ≡ ops.items }
    {
        Script { ops }
    }

    /// How many operations there are.
    pub fn len(&self) -> usize
        ensures { result ≡ length self.now }
    {
        self.ops.len()
    }

    /// The operation at this place, which is below the length.
    pub fn at(&self, i: usize) -> &Op
        requires { i < length self.now }
        ensures { slice_get self.now i ≡ Some result.now }
    {
        &self.ops[i]
    }
}

/// What came of an operation.
#[derive(Drop)]
pub enum Effect {
    /// It may not be, and nothing happened.
    Skipped,
    /// Time passed.
    Passed,
    /// The controller answered. A reply is one more packet, to the member.
    Answered(Answer),
    /// The member took an event. A request is one more packet, to the controller, and a correction moves its clock.
    Stepped(Outcome),
}

/// There is no memory for what was asked.
#[derive(Clone, Copy, Debug, PartialEq, Eq)]
pub struct NoMemory;
