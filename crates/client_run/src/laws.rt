//! What holds of all sessions.
ghost use Rattle.std.specs.Prelude.{◌≡◌, ℕ, List, Result};
ghost use Rattle.w32t_calls.specs.declared.call.Call.{Call};
ghost use Rattle.w32t_calls.specs.declared.call.Given.{Given};
ghost use Rattle.w32t_calls.specs.declared.call_fault.CallFault.{CallFault};
ghost use Rattle.client_run.specs.Asking.{Tells};

/// The law of what a session tells: its bytes tell one answer at most. There is nothing to do.
pub fn laws_of_asking()
    ensures one_answer { (call : Call) (bytes : List ℕ) (told other : Result Given CallFault)
        → Tells call bytes told → Tells call bytes other → told ≡ other }
{}
