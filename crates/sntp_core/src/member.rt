//! The member.
ghost use Rattle.std.specs.Prelude.{◌≡◌, ◌+◌, ◌<◌, ◌≤◌, length, unwrap_or};
ghost use Rattle.std.specs.Option.{ForSome};
ghost use Rattle.sntp_core.specs.Open.{AreBelow};
ghost use Rattle.sntp_core.specs.Ranges.{IsBase};

use crate::keys::Keys;
use crate::open::OpenRequests;
use capture_fmt::Event;
use time_machine::{Conf, Outcome};

/// What a member keeps of all that happened.
///
/// It takes no memory but what its settings hold. A refused arrival leaves it as it was.
#[derive(Drop)]
pub struct Member {
    pub(crate) conf: Conf,
    /// The keys of its account.
    pub(crate) keys: Keys,
    /// The mark of the last life.
    pub(crate) mark: Option<u32>,
    /// How many requests were sent in this life.
    pub(crate) sent: u32,
    /// The greatest count that was ever sent.
    pub(crate) greatest: u32,
    /// From when on the polling interval counts.
    pub(crate) base: Option<i64>,
    /// The exponent of the polling interval.
    pub(crate) poll: u8,
    /// The place of the present partner in rank.
    pub(crate) partner: usize,
    /// The requests that can be answered, in the order of sending.
    pub(crate) open_requests: OpenRequests,
    /// The place in rank of the partner whose reply was last accepted in this life.
    pub(crate) source: Option<usize>,
    ghost base_in: { ForSome base IsBase },
    ghost poll_low: { conf.limits.min_poll ≤ poll },
    ghost poll_high: { poll ≤ conf.limits.max_poll },
    ghost partner_in: { partner < length conf.partners },
    ghost few: { length open_requests ≤ 8 },
    ghost counted: { AreBelow (unwrap_or mark 0 + sent + 1) open_requests },
    ghost ready: { keys ≡ record { kind = conf.kind; account = conf.account } },
}

impl Member {
    ghost use Rattle.std.specs.Prelude.{◌↔◌, List, [], ◌∷◌, IsTrue, IfSome};
    ghost use Rattle.time_machine.specs.Events.{History, IsRead};
    ghost use Rattle.time_machine.specs.Told.{IsRefused, count_moved};
    ghost use Rattle.time_machine.specs.Machine.{source_of, told, outcome_at, outcome_by};
    ghost use Rattle.time_machine.specs.Growing.{MayFollow, HasCounts, Grows};
    ghost use Rattle.time_machine.specs.Laws.{IsFirstMove};
    ghost use Rattle.time_machine.specs.After.{after};
    ghost use Rattle.sntp_core.specs.Standing.{StandsForHistory, conf_of, words_of};

    /// A member to which nothing has happened.
    pub fn new(conf: Conf) -> Member
        ensures conf { conf_of result ≡ conf }
        ensures stands { StandsForHistory result [] }
    {
        let keys = Keys::new(conf.kind, &conf.account);
        let poll = conf.limits.min_poll;
        // There is one partner at least.
        let _partners = conf.partners.as_slice();
        Member {
            conf,
            keys,
            mark: None,
            sent: 0,
            greatest: 0,
            base: None,
            poll,
            partner: 0,
            open_requests: OpenRequests::new(),
            source: None,
        }
    }

    /// Whether the event may come next.
    ///
    /// A life may begin where its mark is at least every count that was sent before. Any other event may come once a
    /// life began, and one that may send where the mark plus the number of requests sent since is below
    /// 4,294,967,295.
    pub fn admits(&self, event: &Event) -> bool
        ensures follows { IsTrue result ↔ MayFollow (conf_of self.now) (words_of self.now) event.now }
        ensures grows { (history : History) → StandsForHistory self.now history
            → (IsTrue result ↔ Grows (conf_of self.now) (event.now ∷ history)) }
    {
        self.may_follow(event)
    }

    /// [`Member::admits`] by the fields alone, whatever history they stand for.
    fn may_follow(&self, event: &Event) -> bool
        ensures { IsTrue result ↔ MayFollow (conf_of self.now) (words_of self.now) event.now }
    {
        match event {
            Event::Life { mark, .. } => self.greatest <= *mark,
            Event::Tick { .. } | Event::Resync { .. } => self.has_counts(),
            Event::Arrive { .. } => self.mark.is_some(),
        }
    }

    /// Whether a life began, and its counts aren't used up.
    fn has_counts(&self) -> bool
        ensures { IsTrue result ↔ HasCounts (words_of self.now) }
    {
        match self.mark {
            Some(mark) => u64::from(mark) + u64::from(self.sent) < 4_294_967_295,
            None => false,
        }
    }

    /// Takes an event, which has to be admitted and to come at a reading, and answers what it leads to.
    ///
    /// A request that is to be sent is counted as sent, and a correction of the clock as made. A datagram that arrived
    /// is refused for the first [`Reason`](crate::Reason) that applies.
    pub fn step(&mut self, event: &Event) -> Outcome
        requires admitted { MayFollow (conf_of self.old) (words_of self.old) event.now }
        requires read { IsRead event.now }
        ensures conf { conf_of self.new ≡ conf_of self.old }
        ensures answer { (history : History) → StandsForHistory self.old history
            → result ≡ outcome_at (conf_of self.old) history event.now }
        ensures stands { (history : History) → StandsForHistory self.old history
            → StandsForHistory self.new (event.now ∷ history) }

        // No earlier reply was accepted for the same request.
        ensures once { (history : History) → StandsForHistory self.old history
            → IfSome (count_moved result) (λ count. IsFirstMove count (told (conf_of self.old) history)) }

        // A refused arrival leaves the member as it was, whatever happened before.
        ensures refused { IsRefused result → self.new ≡ self.old }
    {
        self.advance(event)
    }

    /// [`Member::step`] by the fields alone, whatever history they stand for.
    fn advance(&mut self, event: &Event) -> Outcome
        requires admitted { MayFollow (conf_of self.old) (words_of self.old) event.now }
        requires read { IsRead event.now }
        ensures conf { self.new.conf ≡ self.old.conf }
        ensures words { words_of self.new ≡ after self.old.conf (words_of self.old) event.now }
        ensures answer { result ≡ outcome_by self.old.conf (words_of self.old) event.now }
        ensures refused { IsRefused result → self.new ≡ self.old }
    {
        match event {
            Event::Life { mark, .. } => self.start(*mark),
            Event::Tick { now, word } => self.tick(*now, *word),
            Event::Resync { now, word, flags } => self.resync(*now, *word, *flags),
            Event::Arrive { now, from, bytes } => self.arrive(*now, *from, bytes.as_slice()),
        }
    }

    /// The place in rank, from 0, of the partner whose reply was last accepted in this life.
    pub fn source(&self) -> Option<usize>
        ensures kept { result ≡ (words_of self.now).source }
        ensures last { (history : History) → StandsForHistory self.now history
            → result ≡ source_of (conf_of self.now) history }
    {
        self.source
    }
}
