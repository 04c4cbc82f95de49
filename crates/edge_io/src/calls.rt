//! The calls of an object in memory: which of them fail, and how many there were.
ghost use Rattle.std.specs.Prelude.{◌≡◌, if◌then◌else◌, IsTrue};
ghost use Rattle.base_specs.specs.Counts.{next_count, Fails};
ghost use Rattle.edge_io.specs.Calls.{is_listed};

/// The numbers of the calls that fail, the calls made so far, and those of them that failed.
#[derive(Drop)]
pub(crate) struct Calls {
    pub(crate) fails: Vec<u64>,
    pub(crate) made: u64,
    pub(crate) faults: u64,
}

impl Calls {
    /// Counts a call, and says whether it is one of those that fail.
    pub(crate) fn begin(&mut self) -> bool
        ensures listed { result ≡ is_listed self.old.fails.items (next_count self.old.made) }
        ensures counted { self.new ≡ record self.old { made = next_count self.old.made } }
    {
        self.made = self.made.saturating_add(1);
        self.fails.contains(&self.made)
    }

    /// Counts a call, and a fault where it is one of those that fail, and says whether it is.
    pub(crate) fn fails_now(&mut self) -> bool
        ensures listed { result ≡ is_listed self.old.fails.items (next_count self.old.made) }
        ensures counted { self.new ≡ record self.old {
          made = next_count self.old.made;
          faults = if result then next_count self.old.faults else self.old.faults;
        } }
        ensures fault { IsTrue result → Fails self.old.faults self.new.faults }
    {
        let is_due = self.begin();
        if is_due {
            self.fail();
        }
        is_due
    }

    /// Counts a fault.
    pub(crate) fn fail(&mut self)
        ensures counted { self.new ≡ record self.old { faults = next_count self.old.faults } }
        ensures fault { Fails self.old.faults self.new.faults }
    {
        self.faults = self.faults.saturating_add(1);
    }
}
