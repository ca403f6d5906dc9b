ghost use Rattle.sim_lawful.specs.ReachedEvents.{InLawful, KeepsAsked, KeepsEntries, KeepsLeft, KeepsMembers, KeepsNamed, KeepsPlaces, KeepsProcessed, KeepsProcesses, KeepsRegistered, KeepsScopes, KeepsTargets, KeepsTold, KeepsUsers, KeepsWaiters};

use sim_machine::LawfulBody;

/// In a lawful state all is kept that a later unit may come back to: so the memory of an event that is not kept may be given
/// again. (This project's own; in SimPy it is collected.)
pub fn reached_events_are_kept<B: LawfulBody>()
    ensures entries { (c : B.Code) → InLawful B.body c (KeepsEntries B.body c) }
    ensures waiters { (c : B.Code) → InLawful B.body c (KeepsWaiters B.body c) }
    ensures users { (c : B.Code) → InLawful B.body c (KeepsUsers B.body c) }
    ensures scopes { (c : B.Code) → InLawful B.body c (KeepsScopes B.body c) }

    // Live processes: their own events, what they wait for, and what they hold.
    ensures processes { (c : B.Code) → InLawful B.body c (KeepsProcesses B.body c) }
    ensures targets { (c : B.Code) → InLawful B.body c (KeepsTargets B.body c) }
    ensures places { (c : B.Code) → InLawful B.body c (KeepsPlaces B.body c) }

    // Events that are told, named, or processed just now, and members of what is kept.
    ensures told { (c : B.Code) → InLawful B.body c (KeepsTold B.body c) }
    ensures named { (c : B.Code) → InLawful B.body c (KeepsNamed B.body c) }
    ensures processed { (c : B.Code) → InLawful B.body c (KeepsProcessed B.body c) }
    ensures members { (c : B.Code) → InLawful B.body c (KeepsMembers B.body c) }

    // What the operation names that a process asks for.
    ensures asked { (c : B.Code) → InLawful B.body c (KeepsAsked B.body c) }

    // What callbacks name: the process that they resume, and the condition or event that they check, build or trigger.
    ensures registered { (c : B.Code) → InLawful B.body c (KeepsRegistered B.body c) }
    ensures left { (c : B.Code) → InLawful B.body c (KeepsLeft B.body c) }
{}
