//! The requests that can be answered.
ghost use Rattle.std.specs.Prelude.{◌≡◌, ◌<◌, ◌∷◌, ◌++◌, [], find, length};
ghost use Rattle.base_specs.specs.Time.{IsReading};
ghost use Rattle.time_machine.specs.Verdict.{is_answered};
ghost use Rattle.sntp_core.specs.Open.{AreBelow, IsPlaceOf};

use arrayvec::ArrayVec;
use ntp_wire::Stamp;
use std::marker::Model;
use time_machine::Request;

/// How long a request can be answered, in ticks of 100 ns: ten seconds.
const WINDOW: i64 = 100_000_000;

/// Requests in the order of sending, eight at most. Their counts rise, so that one is found by its count.
#[derive(Drop)]
pub(crate) struct OpenRequests {
    list: ArrayVec<Request, 8>,
}

impl Model for OpenRequests {
    ghost use Rattle.std.specs.Prelude.{List};
    ghost use Rattle.time_machine.specs.declared.outcome.Request.{Request};
    ghost use Rattle.sntp_core.specs.Open.{IsRising};

    ghost Value = { List Request };

    ghost view = { λ o. o.list.items };

    ghost invariant = { λ o. IsRising o.list.items };
}

impl OpenRequests {
    /// No requests.
    pub(crate) fn new() -> OpenRequests
        ensures { result ≡ [] }
    {
        OpenRequests {
            list: ArrayVec::new(),
        }
    }

    /// How many there are.
    pub(crate) fn len(&self) -> usize
        ensures { result ≡ length self.now }
    {
        self.list.len()
    }

    /// Closes all.
    pub(crate) fn clear(&mut self)
        ensures { self.new ≡ [] }
    {
        self.list.clear();
    }

    /// Adds the request that was sent last. There has to be room for it, and no count may be as great.
    pub(crate) fn add(&mut self, request: Request)
        requires room { length self.old < 8 }
        requires later { AreBelow request.count self.old }
        ensures { self.new ≡ self.old ++ request ∷ [] }
    {
        self.list.push(request);
    }

    /// The request with this timestamp that can be answered at this reading. It is found by the timestamp's seconds, which
    /// are its count.
    pub(crate) fn answered(&self, now: i64, stamp: Stamp) -> Option<Request>
        requires { IsReading now }
        ensures { result ≡ find (is_answered now stamp) self.now }
    {
        let place = self.place_of(stamp.seconds)?;
        let request = self.list.as_slice()[place];
        if is_answered(&request, now, stamp) {
            Some(request)
        } else {
            None
        }
    }

    /// The place of the request with this count.
    fn place_of(&self, count: u32) -> Option<usize>
        ensures { IsPlaceOf count self.now result }
    {
        self.list
            .as_slice()
            .binary_search_by_key(&count, |request| request.count)
            .ok()
    }
}

/// Whether the timestamp is the request's, which can be answered at this reading.
fn is_answered(request: &Request, now: i64, stamp: Stamp) -> bool
    requires { IsReading now }
    ensures { result ≡ is_answered now stamp request.now }
{
    request.count == stamp.seconds
        && request.word == stamp.fraction
        && request.at <= now
        && now - WINDOW <= request.at
}
