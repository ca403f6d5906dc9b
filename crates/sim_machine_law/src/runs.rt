ghost use Rattle.std.specs.Prelude.{◌≡◌, ◌+◌, ℕ, Some};
ghost use Rattle.sim_machine.specs.State.{User, Facilities};
ghost use Rattle.sim_machine.specs.Trying.{preempt};
ghost use Rattle.sim_machine_law.specs.Courses.{Run, AddsAtMostOne, EndsBy, GoesOnFrom, HasOneLineMore, UsesNoMore, lines_after, trace_after};

/// A trace is the lines of the run and a last line, on its end; and with a greater limit the lines stay and others come behind
/// them. So a trace without its last line begins each trace with a greater limit, and from the end of the run on the whole
/// trace stays (SimPy's "Monitoring", where each event is traced as it is processed).
pub fn trace_grows<B>()
    ensures next { (r : Run B) (n : ℕ) → AddsAtMostOne (lines_after r n) (lines_after r (n + 1)) }
    ensures last { (r : Run B) (n : ℕ) → HasOneLineMore (lines_after r n) (trace_after r n) }

    // For any limit and any greater one, in the words of traces alone.
    ensures begins { (r : Run B) (n k : ℕ) → GoesOnFrom (trace_after r n) (trace_after r (n + k)) }
    ensures ended { (r : Run B) (n k : ℕ) → EndsBy r n → trace_after r (n + k) ≡ trace_after r n }
{}

/// A preemption ends the use of its victim: after it no user of the resource has the victim's request (SimPy's "Shared
/// resources", PreemptiveResource, where the preempted process loses its slot).
pub fn preemption_ends_use()
    ensures ended { (n : ℕ) (u : User) (f : Facilities) → UsesNoMore n u (preempt n u f) }
{}
