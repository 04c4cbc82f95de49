//! What holds of all captures.
ghost use Rattle.std.specs.Prelude.{◌≡◌, ◌<◌, ◌⊎◌, ℕ, List, ◌++◌, length, None};
ghost use Rattle.std.specs.List.{AllByRecursion};
ghost use Rattle.capture_fmt.specs.declared.event.Event.{Event};
ghost use Rattle.capture_fmt.specs.declared.fault.CaptureFault.{CaptureFault};
ghost use Rattle.capture_fmt.specs.Event.{EventFits};
ghost use Rattle.capture_fmt.specs.Record.{event_bytes, record_flaw};
ghost use Rattle.capture_fmt.specs.Capture.{FaultAt, SpellsEvents, place_limit};

/// The laws of the format. There is nothing to do.
pub fn laws_of_captures()
    // No bytes begin with the records of two events.
    ensures one_record { (event other : Event) (rest more : List ℕ) → EventFits event → EventFits other
        → event_bytes event ++ rest ≡ event_bytes other ++ more → (event ≡ other) × (rest ≡ more) }
    // Bytes spell one history at most.
    ensures one_history { (bytes : List ℕ) (events others : List Event)
        → SpellsEvents events bytes → SpellsEvents others bytes → events ≡ others }
    // The joined bytes of two histories spell the joined history.
    ensures joined { (events more : List Event) (bytes others : List ℕ)
        → SpellsEvents events bytes → SpellsEvents more others → SpellsEvents (events ++ more) (bytes ++ others) }

    // Bytes have one first fault at most, and none where they spell a history and end below the limit.
    ensures one_fault { (bytes : List ℕ) (wrong other : CaptureFault)
        → FaultAt bytes wrong → FaultAt bytes other → wrong ≡ other }
    ensures no_fault { (bytes : List ℕ) (events : List Event) (wrong : CaptureFault)
        → SpellsEvents events bytes → length bytes < place_limit → FaultAt bytes wrong → ⊥ }

    // A record has no flaw, and bytes without a flaw begin with a record: so they spell a history or have a first fault.
    ensures whole { (event : Event) (rest : List ℕ) → EventFits event → record_flaw (event_bytes event ++ rest) ≡ None }
    ensures begins { (bytes : List ℕ) → AllByRecursion (λ b. b < 256) bytes → record_flaw bytes ≡ None
        → (event : Event) × (rest : List ℕ) × EventFits event × (bytes ≡ event_bytes event ++ rest) }
    ensures judged { (bytes : List ℕ) → AllByRecursion (λ b. b < 256) bytes
        → ((events : List Event) × SpellsEvents events bytes × (length bytes < place_limit))
        ⊎ ((wrong : CaptureFault) × FaultAt bytes wrong) }
{}
