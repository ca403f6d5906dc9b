ghost use Rattle.sim_machine.specs.State.{Plan};
ghost use Rattle.sim_lawful.specs.LawfulRuns.{ArrivesLawful, IsPlanOf, OpensLawful, StepsLawful};

use sim_machine::LawfulBody;

/// The state that a run begins with is lawful, where the setup is for the code. (Lawful states are this project's own: SimPy's
/// documentation says what happens, and not what stays true.)
pub fn lawful_opening<B: LawfulBody>()
    ensures opening { (c : B.Code) (g : Plan B) → IsPlanOf B.body c g → OpensLawful B.body c g }
{}

/// A step leads from a lawful state to a lawful one, whatever it does: the pop of an event, the call of a callback, any
/// operation that a process asks for, or the settling of an event.
pub fn lawful_step<B: LawfulBody>()
    ensures step { (c : B.Code) (g : Plan B) → IsPlanOf B.body c g → StepsLawful B.body c g }
{}

/// An arrival that comes in by one of the ports leads from a lawful state to a lawful one. Units are steps and arrivals, so each
/// unit does. (Arrivals are this project's own; SimPy has none.)
pub fn lawful_arrival<B: LawfulBody>()
    ensures arrival { (c : B.Code) (g : Plan B) → IsPlanOf B.body c g → ArrivesLawful B.body c g }
{}
