ghost use Rattle.std.specs.Prelude.{◌≡◌, ℕ, ◌+◌, List, [], None, Some, ◌↔◌};
ghost use Rattle.std.specs.List.{Contains};
ghost use Rattle.sim_types.specs.declared.event.Entry.{Entry};
ghost use Rattle.sim_types.specs.declared.setup.Arrival.{Arrival};
ghost use Rattle.sim_machine.specs.Agenda.{due};
ghost use Rattle.sim_machine.specs.Units.{Course};
ghost use Rattle.sim_machine.specs.Runs.{HasEnded};
ghost use Rattle.sim_machine_law.specs.Courses.{Run, CanGoOn, ComesFirst, EndsBy, IsAddedAt, IsNext, IsOnlyFirst, IsRunTo, IsSameWith, StaysFrom, WritesAtMostOne, course_after, next_course};

/// The entry that is due is the one that comes before all others: by time, then urgency, then the order of scheduling (SimPy's
/// "Time and Scheduling").
pub fn due_entry()
    ensures contained { (es : List Entry) (x : Entry) → due es ≡ Some x → Contains es x }
    ensures first { (es : List Entry) (x : Entry) → due es ≡ Some x → ComesFirst es x }
    ensures none_where_empty { (es : List Entry) → (due es ≡ None) ↔ (es ≡ []) }

    // In a lawful state no number is given twice, and then only one entry can be the first.
    ensures no_other { (es : List Entry) (x : Entry) → IsOnlyFirst es x → due es ≡ Some x }
{}

/// A run with one unit more is the run and then its next unit (SimPy's "Environments", where a simulation is run step by step).
pub fn next_unit<B>()
    ensures next { (r : Run B) (n : ℕ) → course_after r (n + 1) ≡ next_course r (course_after r n) }
{}

/// A run that has ended stays as it is, so its trace is the same for every greater limit (SimPy's "Environments", where a run
/// stops).
pub fn ended_run<B>()
    ensures unit { (r : Run B) (m : Course B) → HasEnded r.plan m → next_course r m ≡ m }
    ensures run { (r : Run B) (n : ℕ) → EndsBy r n → StaysFrom r n }
{}

/// A unit leaves the lines that were written, and adds at most one behind them (SimPy's "Monitoring", where each event is traced
/// as it is processed).
pub fn lines_of_a_unit<B>()
    ensures one_at_most { (r : Run B) (m : Course B) → WritesAtMostOne m (next_course r m) }
{}

/// Where the turn of a body is a function, nothing in a run is left open (SimPy's "Time and Scheduling", where a simulation is
/// deterministic): the relations of a unit and of a run hold of no other state than the functions give.
pub fn one_course<B>()
    ensures unit { (r : Run B) (m n : Course B) → IsNext r m n → n ≡ next_course r m }
    ensures run { (r : Run B) (k : ℕ) (n : Course B) → IsRunTo r k n → n ≡ course_after r k }

    // Until the run has ended there is a unit. The process that runs is alive in every lawful state.
    ensures goes_on { (r : Run B) (m : Course B) → CanGoOn r m → IsNext r m (next_course r m) }
{}

/// An arrival that is added behind all others, to come in once as many events were processed as at some state, leaves all units
/// before that state as they were. (Arrivals are this project's own; SimPy has none.)
pub fn added_arrival<B>()
    ensures same { (r : Run B) (a : Arrival) (n : ℕ) → IsAddedAt r a n → IsSameWith r a n }
{}
