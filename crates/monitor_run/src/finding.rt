//! What is found of a computer.
ghost use Rattle.std.specs.Prelude.{◌≡◌, ◌≤◌, if◌then◌else◌};
ghost use Rattle.monitor_run.specs.Lines.{is_answered};

/// Why there is no offset, in the order in which the words apply.
#[derive(Clone, Copy)]
pub(crate) enum Word {
    /// Nothing came, or the receive failed.
    NoAnswer,
    /// The answer hasn't 48 bytes.
    BadLength,
    /// It came from another address or port.
    BadSource,
    /// Its mode isn't 4, server.
    BadMode,
    /// Its sender's clock isn't synchronized: the stratum isn't 1 to 15, or the leap indicator is 3.
    BadStratum,
    /// Its originate timestamp isn't that of the request.
    NoRequest,
    /// It left before the request arrived, or the delay is negative.
    BadTimes,
}

/// What is found of a computer. Times are in ticks of 100 ns.
#[derive(Clone, Copy)]
pub(crate) enum Finding {
    /// It answered.
    Answered {
        /// How far its clock is ahead.
        offset: i64,
        /// How long both messages were on their way.
        delay: i64,
        stratum: u8,
    },
    /// It didn't answer this request, or its answer can't be used.
    Wrong(Word),
}

impl Finding {
    /// How many answers that is: one, or none where there is an error.
    pub(crate) fn answers(self) -> usize
        ensures one { result ≡ (if is_answered self then 1 else 0) }
        ensures few { result ≤ 1 }
    {
        match self {
            Finding::Answered { .. } => 1,
            Finding::Wrong(_) => 0,
        }
    }
}
