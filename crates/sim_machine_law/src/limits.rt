ghost use Rattle.std.specs.Prelude.{◌≡◌, ◌<◌, ◌≤◌, ◌⊎◌, ℕ};
ghost use Rattle.sim_machine.specs.Units.{Course};
ghost use Rattle.sim_machine.specs.Runs.{HasEnded, end_of, units_made};
ghost use Rattle.sim_machine_law.specs.Courses.{Run, IsRunTo, course_after};

/// A run of so many units at most makes them all, or fewer where it ends sooner: before each unit that it makes it has not
/// ended (units are this project's own; SimPy's "Environments" stop at an event, at a time, or for want of events).
pub fn made_units<B>()
    ensures at_most { (r : Run B) (limit : ℕ) → units_made r.plan r.turn r.journal limit ≤ limit }
    ensures same_run { (r : Run B) (limit : ℕ) →
        course_after r (units_made r.plan r.turn r.journal limit) ≡ course_after r limit }
    ensures each { (r : Run B) (limit k : ℕ) →
        k < units_made r.plan r.turn r.journal limit → end_of r.plan (course_after r k) ≡ None }
    ensures whole { (r : Run B) (limit : ℕ) →
        (units_made r.plan r.turn r.journal limit ≡ limit)
        ⊎ HasEnded r.plan (course_after r limit) }

    // And so many units has the run, where the turn of a body is a function.
    ensures units { (r : Run B) (limit : ℕ) (n : Course B) (made : IsRunTo r limit n) →
        made.units ≡ units_made r.plan r.turn r.journal limit }
{}
