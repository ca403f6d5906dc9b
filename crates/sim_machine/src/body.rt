//! What a process does, as contracts see it.
ghost use Rattle.sim_machine.specs.Bodies.{BodyOf, start_of};
ghost use Rattle.sim_machine.specs.BodyLaw.{IsLawfulBody};

/// A kind of bodies that keeps the law of bodies.
pub trait LawfulBody {
    /// What the bodies of one run share, as the statements of a scenario.
    type Code;

    /// How a body begins, what it does in a poll, what it tells of itself, and the states that it can be in.
    ghost body: { BodyOf Self Self.Code };

    /// The law of a body.
    ghost lawful: { (code : Self.Code) → IsLawfulBody (body.facts code) (body.tell code)
        (body.sound code) (start_of body code) (body.turn code) };
}
