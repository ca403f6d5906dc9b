ghost use Rattle.std.specs.Prelude.{◌≤◌, ◌≡◌, ◌<◌, ℕ, ℤ, List, Option, Some, length, slice_index_or, IfOk};
ghost use Rattle.sim_types.specs.declared.event.EventId.{EventId};
ghost use Rattle.sim_types.specs.declared.event.Signal.TheVariants as signal;
ghost use Rattle.sim_types.specs.declared.op.Op.{Op};
ghost use Rattle.sim_machine.specs.NumberBounds.{most_events};
ghost use Rattle.sim_procs.specs.Premises.{CanBegin, CanBeTold, ChangesOnly, EntersWithin, events_in_places};
ghost use Rattle.sim_procs.specs.QuietPolls.{Polls};

use sim_machine::LawfulBody;
use sim_types::{EventId, Op, ProcId, Signal};
use std::alloc::{AllocError, Global};

/// What a process does: a state machine that is polled by hand. It asks for one operation each time, and is told with
/// the next poll what came of it. (In SimPy a process is a generator; the operations are what it yields and calls.)
pub trait Body: LawfulBody + Sized + Drop {
    /// The events that stand in the places.
    ghost events_held: { Self → List EventId };

    /// The place that gets the event that the body is told next, where that is one that it made. None where none does.
    ghost told_place: { Self.Code → Self → Option ℕ };

    /// A body that has memory for all that a process of this code keeps.
    ghost is_for: { Self.Code → Self → Type 0 };

    /// As many scopes may be open at once in a process of this code.
    ghost most_open: { Self.Code → ℕ };

    /// The same number: each process is given memory for so many scopes.
    fn scopes_needed(code: &Self::Code) -> usize
        ensures { result ≡ most_open code.now };

    /// A body for this code that is yet to be filled. This alone takes memory.
    fn blank(alloc: Global, code: &Self::Code) -> Result<Self, AllocError>
        ensures { IfOk result (λ b. is_for code.now b) };

    /// Makes this the start of a process of a kind, with the numbers that it begins with.
    fn fill(&mut self, code: &Self::Code, kind: u32, args: &[i64])
        requires can { CanBegin (Self.body.facts code.now) kind args.now }
        requires is_for { is_for code.now self.old }
        ensures { self.new ≡ Self.body.begun code.now kind args.now };

    /// Tells the body its own number, once after `fill` and before the first poll.
    fn own(&mut self, id: ProcId)
        requires { id.0 < most_events }
        ensures { self.new ≡ Self.body.numbered self.old id };

    /// The body is told what came of its last operation, and asks for the next one, which is large and so is written where it
    /// is wanted. Where it asks for nothing (`Nop`), it may go on, told that this is done, for at most so many polls in all.
    /// The answer is how many there were, of which the last asks for what is written. A body may always make one alone.
    fn poll(
        &mut self,
        code: &Self::Code,
        now: i64,
        signal: Signal,
        most: u32,
        asked: &mut Op,
    ) -> u32
        requires some { 1 ≤ most }
        requires can { CanBeTold Self.body code.now self.old signal }
        ensures most { result ≤ most }
        ensures polls { Polls Self.body code.now now signal result self.old asked.new self.new };

    /// The event in a place, or event 0.
    fn place(&self, at: u8) -> EventId
        requires { at < 64 }
        ensures { result ≡ slice_index_or (events_held self.now) at (record { 0 = 0 }) };

    /// How many places, counted from the first, are to be looked at for events: event 0 stands in all behind them.
    fn places_in_use(&self) -> u8
        ensures few { result ≤ 64 }
        ensures rest { (at : ℕ) → result ≤ at
            → slice_index_or (events_held self.now) at (record { 0 = 0 }) ≡ record { 0 = 0 } };

    /// The place that gets the event that the body is told next, where that is one that it made. None where none does.
    fn place_told(&self, code: &Self::Code) -> Option<u8>
        ensures { result ≡ told_place code.now self.now };

    /// The places that a sound body tells are those that `place` reads.
    ghost places: { (code : Self.Code) (b : Self) → Self.body.sound code b
        → events_in_places Self.body code b ≡ events_held b };

    /// The place that gets an event is one of the 64.
    ghost told_place_within: { (code : Self.Code) (b : Self) (e : EventId) (at : ℕ)
        → CanBeTold Self.body code b (signal.Made e) → told_place code b ≡ Some at → at < 64 };

    /// A poll that tells of an event that the body made changes no other place.
    ghost other_places_stay: { (code : Self.Code) (b : Self) (time : ℤ) (e : EventId) (asked : Op)
        (d : Self) → CanBeTold Self.body code b (signal.Made e)
        → Self.body.turn code b time (signal.Made e) asked d
        → ChangesOnly (told_place code b) (events_held b) (events_held d) };

    /// Who asks to enter a resource has fewer scopes open than there may be.
    ghost enters_within: { (code : Self.Code) → EntersWithin Self.body code (most_open code) };
}
