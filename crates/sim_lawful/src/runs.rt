ghost use Rattle.sim_machine_law.specs.Courses.{Run};
ghost use Rattle.sim_lawful.specs.LawfulRuns.{IsRunOf, StaysLawful, UsersFit, LevelsFromZero, LevelsFit, ItemsFit};

use sim_machine::LawfulBody;

/// Each state that a run comes to is lawful, where the setup is for the code, the bodies' turns are among those of the law, and
/// all arrivals come in by ports that there are. (Lawful states are this project's own.)
pub fn lawful_run<B: LawfulBody>()
    ensures run { (code : B.Code) (r : Run B) → IsRunOf B.body code r → StaysLawful B.body code r }
{}

/// In each state that such a run comes to, a resource has no more users than its capacity, a container holds from 0 to its
/// capacity, and a store has no more items than its capacity (SimPy's "Shared resources").
pub fn within_capacity<B: LawfulBody>()
    ensures users { (code : B.Code) (r : Run B) → IsRunOf B.body code r → UsersFit r }
    ensures levels_low { (code : B.Code) (r : Run B) → IsRunOf B.body code r → LevelsFromZero r }
    ensures levels_high { (code : B.Code) (r : Run B) → IsRunOf B.body code r → LevelsFit r }
    ensures items { (code : B.Code) (r : Run B) → IsRunOf B.body code r → ItemsFit r }
{}
