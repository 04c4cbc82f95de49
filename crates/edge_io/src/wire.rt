//! Sessions from memory.
ghost use Rattle.std.specs.Prelude.{◌≡◌, ◌<◌, true, false, [], All, IfOk, IfSome, None, Some};
ghost use Rattle.std.specs.Prelude.{length, map, slice_index_or};
ghost use Rattle.std.specs.Option.{is_some};
ghost use Rattle.edge_io.specs.SessionScript.{session_of, IsFresh, SessionScript};
ghost use Rattle.edge_io.specs.SourceScript.{buffer_after};
ghost use Rattle.edge_io.specs.WireScript.{begun, closed_up, faults_behind_write, first_session};
ghost use Rattle.edge_io.specs.WireScript.{next_answer, opened_of, told_of, with_answer, wire_opened};
ghost use Rattle.edge_io.specs.WireScript.{wire_read, wire_read_answer, wire_write_answer, wire_written};
ghost use Rattle.edge_traits.specs.Sink.{PutCounts};
ghost use Rattle.edge_traits.specs.Source.{TakeCounts};
ghost use Rattle.edge_traits.specs.Wire.{is_session, written_to, OpenedCounts, Opens, WireReads, WireWrites};

use crate::NoMemory;
use crate::calls::Calls;
use crate::session::HeldSession;
use edge_traits::{Opened, Put, Take, Wire};
use std::alloc::Global;
use std::collections::VecDeque;
use std::marker::Model;

/// Sessions from memory, and none behind the last.
///
/// A session gives its pieces one at a time: a piece that the buffer is too small for goes on with the next read. It
/// has room for so many bytes that are written to it, and a piece that is too long for what is left of the room is
/// refused whole.
///
/// The calls are counted from 1, requests, reads and writes together, and those whose numbers are listed answer
/// Failed and use nothing up, but for a read without a session, which is at the end. The wire tells its answers until
/// there is no room for another answer. From then on it tells nothing.
#[derive(Drop)]
pub struct ScriptWire {
    waiting: VecDeque<HeldSession>,
    closed: Vec<HeldSession>,
    current: Option<HeldSession>,
    /// The answers told, without that of the open session.
    answers: Vec<Opened>,
    room: usize,
    is_telling: bool,
    calls: Calls,
    write_faults: u64,
}

impl Model for ScriptWire {
    ghost use Rattle.std.specs.Prelude.{◌≡◌, ◌+◌, ◌<◌, ◌≤◌, true, if◌then◌else◌, All, length};
    ghost use Rattle.std.specs.Prelude.{None, Some, vec_capacity};
    ghost use Rattle.std.specs.Option.{is_some, option_to_list};
    ghost use Rattle.edge_io.specs.SessionScript.{IsFresh};
    ghost use Rattle.edge_io.specs.WireScript.{IsCounted, WireScript};

    ghost Value = { WireScript };

    ghost view = { λ w. record {
      waiting = w.waiting.items;
      closed = w.closed.items;
      current = w.current;
      earlier = if w.is_telling then Some w.answers.items else None;
      room = w.room;
      fails = w.calls.fails.items;
      calls = w.calls.made;
      faults = w.calls.faults;
      write_faults = w.write_faults;
    } };

    ghost invariant = { λ w. (length w.answers.items ≤ w.room)
        × (w.room ≤ vec_capacity w.answers)
        × All IsFresh w.waiting.items
        × (length w.closed.items + length (option_to_list w.current) + length w.waiting.items
        ≤ vec_capacity w.closed)
        × (w.is_telling ≡ true → is_some w.current ≡ true → length w.answers.items < w.room)
        × IsCounted (if w.is_telling then Some w.answers.items else None) w.closed.items };
}

impl ScriptWire {
    #[tactic(auto, unfolding(crate::specs::WireScript::entries_of, crate::specs::WireScript::opened_in))]
    /// A wire that gives these sessions, each a list of pieces, whose calls of the numbers in `fails` fail. It has room
    /// to tell so many answers, and in each session for so many bytes that are written to it.
    ///
    /// It takes the memory of its room, and answers NoMemory where that can't be had.
    pub fn new(
        alloc: Global,
        sessions: Vec<Vec<Vec<u8>>>,
        fails: Vec<u64>,
        room: usize,
    ) -> Result<ScriptWire, NoMemory>
        requires { All (λ pieces. All (λ piece. 0 < length piece.items) pieces.items)
            sessions.items }
        ensures script { IfOk result (λ w. w ≡ record {
          waiting = map (λ pieces. session_of room (map (λ piece. piece.items) pieces.items))
              sessions.items;
          closed = [];
          current = None;
          earlier = Some [];
          room = room;
          fails = fails.items;
          calls = 0;
          faults = 0;
          write_faults = 0;
        }) }
        ensures told { IfOk result (λ w. ⟦<ScriptWire as Wire>⟧.told w ≡ Some []) }
        ensures open { IfOk result (λ w. ⟦<ScriptWire as Wire>⟧.is_open w ≡ false) }
        ensures faults { IfOk result (λ w. ⟦<ScriptWire as Wire>⟧.faults w ≡ 0) }
        ensures write_faults { IfOk result (λ w. ⟦<ScriptWire as Wire>⟧.write_faults w ≡ 0) }
    {
        let waiting = waiting_of(alloc, &sessions, room)?;
        let Ok(closed) = Vec::with_capacity(alloc, sessions.len()) else {
            return Err(NoMemory);
        };
        let Ok(answers) = Vec::with_capacity(alloc, room) else {
            return Err(NoMemory);
        };
        Ok(ScriptWire {
            waiting,
            closed,
            current: None,
            answers,
            room,
            is_telling: true,
            calls: Calls {
                fails,
                made: 0,
                faults: 0,
            },
            write_faults: 0,
        })
    }

    /// How many sessions were opened.
    pub fn opened(&self) -> usize
        ensures { result ≡ length (opened_of self.now) }
    {
        match self.current {
            Some(_) => self.closed.len() + 1,
            None => self.closed.len(),
        }
    }

    /// The bytes written to a session that was opened, the first of which is 0.
    pub fn written(&self, session: usize) -> &[u8]
        requires { session < length (opened_of self.now) }
        ensures { (d : SessionScript)
            → result.now ≡ written_to (slice_index_or (opened_of self.now) session d).told }
    {
        match (self.closed.get(session), &self.current) {
            (Some(earlier), _) => earlier.written(),
            (None, Some(current)) => current.written(),
            (None, None) => &[],
        }
    }

    /// Closes the open session.
    fn close(&mut self)
        ensures script { self.new ≡ closed_up self.old }
        ensures told { told_of self.new ≡ told_of self.old }
    {
        if let Some(session) = self.current.take() {
            if self.closed.push(session).is_err()
                || (self.is_telling && self.answers.push(Opened::Session).is_err())
            {
                self.is_telling = false;
            }
        }
    }

    /// Opens the next session, and says whether there is one. It tells nothing from now on where there is no room for
    /// the answer.
    fn begin(&mut self) -> bool
        requires { self.old.current ≡ None }
        ensures any { result ≡ is_some (first_session self.old.waiting) }
        ensures script { result ≡ true → self.new ≡ begun self.old }
        ensures none { result ≡ false → self.new ≡ self.old }
        ensures told { result ≡ true
            → Opens Opened.Session (told_of self.old) (told_of self.new) }
    {
        let Some(session) = self.waiting.pop_front() else {
            return false;
        };
        self.is_telling = self.is_telling && self.answers.len() < self.room;
        self.current = Some(session);
        true
    }

    /// Tells an answer that opened no session, or nothing from now on.
    fn keep(&mut self, answer: Opened)
        requires closed { self.old.current ≡ None }
        requires other { is_session answer ≡ false }
        ensures script { self.new ≡ record self.old {
          earlier = with_answer self.old.room answer self.old.earlier;
        } }
        ensures told { Opens answer (told_of self.old) (told_of self.new) }
    {
        if self.answers.len() >= self.room || self.answers.push(answer).is_err() {
            self.is_telling = false;
        }
    }
}

impl Wire for ScriptWire {
    ghost use Rattle.std.specs.Option.{is_some};
    ghost use Rattle.edge_io.specs.WireScript.{told_of};

    ghost told = { λ w. told_of w };

    ghost is_open = { λ w. is_some w.current };

    ghost faults = { λ w. w.faults };

    ghost write_faults = { λ w. w.write_faults };

    fn next_session(&mut self) -> Opened
        ensures opens { Opens result (told_of self.old) (told_of self.new) }
        ensures open { is_some self.new.current ≡ is_session result }
        ensures cause { OpenedCounts result self.old.faults self.new.faults }
        ensures writes { self.new.write_faults ≡ self.old.write_faults }
        ensures answer { result ≡ next_answer self.old }
        ensures script { self.new ≡ wire_opened result self.old }
    {
        self.close();
        if self.calls.fails_now() {
            self.keep(Opened::Failed);
            return Opened::Failed;
        }
        if self.begin() {
            return Opened::Session;
        }
        self.keep(Opened::NoMore);
        Opened::NoMore
    }

    fn read(&mut self, buf: &mut [u8]) -> Take
        requires { 0 < length buf.old }
        ensures bytes { WireReads result (is_some self.old.current) buf.new
            (told_of self.old) (told_of self.new) }
        ensures no_session { is_some self.old.current ≡ false → result ≡ Take.End }
        ensures open { is_some self.new.current ≡ is_some self.old.current }
        ensures cause { TakeCounts result self.old.faults self.new.faults }
        ensures writes { self.new.write_faults ≡ self.old.write_faults }
        ensures answer { result ≡ wire_read_answer self.old (length buf.old) }
        ensures buffer { IfSome self.old.current
            (λ session. buf.new ≡ buffer_after result session.told.left buf.old) }
        ensures script { self.new ≡ wire_read result self.old }
    {
        let Some(mut session) = self.current.take() else {
            self.calls.begin();
            return Take::End;
        };
        let is_due = self.calls.fails_now();
        let taken = session.read(buf, is_due);
        self.current = Some(session);
        taken
    }

    fn write(&mut self, piece: &[u8]) -> Put
        requires { 0 < length piece.now }
        ensures bytes { WireWrites result (is_some self.old.current) piece.now
            (told_of self.old) (told_of self.new) }
        ensures no_session { is_some self.old.current ≡ false → result ≡ Put.Failed }
        ensures open { is_some self.new.current ≡ is_some self.old.current }
        ensures cause { PutCounts result self.old.write_faults self.new.write_faults }
        ensures reads { self.new.faults ≡ self.old.faults }
        ensures answer { result ≡ wire_write_answer self.old (length piece.now) }
        ensures script { self.new ≡ wire_written result piece.now self.old }
    {
        let is_due = self.calls.begin();
        let put = match self.current.take() {
            Some(mut session) => {
                let put = session.write(piece, is_due);
                self.current = Some(session);
                put
            }
            None => Put::Failed,
        };
        self.write_faults = faults_behind(put, self.write_faults);
        put
    }
}

/// The count of faults behind a write.
fn faults_behind(put: Put, faults: u64) -> u64
    ensures count { result ≡ faults_behind_write put faults }
    ensures cause { PutCounts put faults result }
{
    match put {
        Put::Done => faults,
        Put::Failed => faults.saturating_add(1),
    }
}

/// The sessions that wait, with the memory for what is written to them.
fn waiting_of(
    alloc: Global,
    sessions: &[Vec<Vec<u8>>],
    room: usize,
) -> Result<VecDeque<HeldSession>, NoMemory>
    requires { All (λ pieces. All (λ piece. 0 < length piece.items) pieces.items) sessions.now }
    ensures sessions { IfOk result (λ waiting. waiting.items
        ≡ map (λ pieces. session_of room (map (λ piece. piece.items) pieces.items)) sessions.now) }
    ensures fresh { IfOk result (λ waiting. All IsFresh waiting.items) }
{
    let mut waiting = VecDeque::new(alloc);
    for pieces in sessions {
        let session = HeldSession::new(alloc, pieces, room)?;
        if waiting.push_back(session).is_err() {
            return Err(NoMemory);
        }
    }
    Ok(waiting)
}
