//! A process is polled, and what it asks for is done.
ghost use Rattle.std.specs.Prelude.{◌≡◌, ◌+◌, ◌<◌, ◌≤◌, ◌^◌, ℕ, [], length, Option, None, IsFalse, IsSome, IsSomeAnd};
ghost use Rattle.sim_types.specs.declared.event.Signal.TheVariants as signal;
ghost use Rattle.sim_machine.specs.Processes.{told_more};
ghost use Rattle.sim_machine.specs.Setups.{FitsCode};
ghost use Rattle.sim_happen_model.specs.TableOf.{AreNeeded};
ghost use Rattle.sim_happen_model.specs.HappenOf.{AreHeldByFew, held};
ghost use Rattle.sim_procs.specs.RecordOf.{record_of};
ghost use Rattle.sim_shared_model.specs.Measuring.{ChangesOnlyAt};
ghost use Rattle.sim_steps_model.specs.Becoming.{AreFew, IsOwing};
ghost use Rattle.sim_steps_model.specs.Dropping.{CanLeave};
ghost use Rattle.sim_steps_model.specs.PartsOf.{HasUnitRoom, IsRunning, IsRunningIn, KeepsResources};
ghost use Rattle.sim_steps_model.specs.Polling.{NamesKept, event_placed, place_changed, place_given};
ghost use Rattle.sim_steps_model.specs.QuietUnits.{AsksAtLast, AsksOwingAtLast, DoesAskedAtLast, MovesAtLast};
ghost use Rattle.sim_steps_model.specs.Resources.{AreResourcesReady};
ghost use Rattle.sim_steps_model.specs.Touching.{touched_places};
ghost use Rattle.sim_steps_model.specs.StandsFor.{StandsForSome};

use crate::parts::Parts;
use crate::resources::touched_at;
use sim_procs::Body;
use sim_steps_model::{Mode, Touched, Unit, Units};
use sim_types::{EventId, Line, Op, Places, ProcId, Signal};

// Whether a process that is told this may put an event into a place.
fn fills_place(told: Signal) -> bool
    ensures { IsFalse result → (at : Option ℕ) → place_changed at told ≡ None }
{
    matches!(told, Signal::Made(_))
}

impl<B: Body> Parts<B> {
    // Polls the body of the running process, at most so many times in a row: it is told this in the first, and asks for
    // nothing in all but the last. The answer is how often it was polled.
    #[inline(always)]
    fn poll_body(
        &mut self,
        code: &B::Code,
        event: EventId,
        process: ProcId,
        told: Signal,
        most: u32,
        asked: &mut Op,
    ) -> u32
        requires some { 1 ≤ most }
        requires code { code.now ≡ self.old.code }
        requires stands { StandsForSome B.body self.old }
        requires running { IsRunning event process told self.old.control }
        requires events { length self.old.shared.happen.events < 2 ^ 62 }
        ensures most { result ≤ most }
        ensures asks { AsksAtLast B.body process told result self.old asked.new self.new }
        ensures resources { self.new.shared.setup ≡ self.new.setup.resources }
        ensures scopes { IsSomeAnd (record_of process self.new.live)
            (λ r. r.room ≡ B.most_open code.now) }
    {
        let time = self.shared.happen().now();
        let body = self.processes.body_mut(process);
        let made = body.poll(code, time, told, most, asked);
        if made > 1 {
            self.tell_done();
        }
        made
    }

    // The running process is told next that this is done.
    fn tell_done(&mut self)
        ensures { self.new
            ≡ record self.old { control = told_more signal.Done self.old.control } }
    {
        if let Mode::Active(_, _, told) = &mut self.mode {
            *told = Signal::Done;
        }
    }

    // Polls the running process, and takes a holder of what then stands in the place that changes. What it asks for names
    // events that are kept.
    #[inline(always)]
    fn ask(
        &mut self,
        code: &B::Code,
        event: EventId,
        process: ProcId,
        told: Signal,
        place: Option<u8>,
        most: u32,
        asked: &mut Op,
    ) -> u32
        requires code { code.now ≡ self.old.code }
        requires stands { StandsForSome B.body self.old }
        requires running { IsRunning event process told self.old.control }
        requires place { place
            ≡ place_given (B.told_place code.now) told (record_of process self.old.live) }
        requires some { 1 ≤ most }
        requires once { 1 < most → (at : Option ℕ) → place_changed at told ≡ None }
        requires fits { FitsCode (B.body.facts code.now) self.old.setup }
        requires few { AreFew (2 ^ 40) (held self.old.shared.happen) }
        requires needed { AreNeeded self.old.shared.happen.events }
        requires room { HasUnitRoom self.old }
        requires events { length self.old.shared.happen.events + 40 ≤ 2 ^ 62 }
        ensures most { result ≤ most }
        ensures asked { AsksOwingAtLast B.body event process result
            (event_placed B.events_held place (record_of process self.old.live))
            self.old asked.new self.new }
        ensures resources { self.new.shared.setup ≡ self.new.setup.resources }
        ensures same_resources { KeepsResources self.old self.new }
        ensures names { NamesKept (B.body.facts code.now) asked.new self.new }
        ensures running { IsRunningIn event process self.new.control }
        ensures alive { IsSome (record_of process self.new.live) }
        ensures scopes { IsSomeAnd (record_of process self.new.live)
            (λ r. r.room ≡ B.most_open code.now) }
        ensures ready { AreResourcesReady self.new }
        ensures room { HasUnitRoom self.new }
        ensures number { length self.new.shared.happen.events + 40 ≤ 2 ^ 62 }
        ensures few { AreFew (2 ^ 41) (held self.new.shared.happen) }
        ensures holders { AreHeldByFew self.new.shared.happen.events }
        ensures owing { IsOwing B.body [] self.new }
        ensures can { CanLeave B.body self.new }
    {
        let made = self.poll_body(code, event, process, told, most, asked);
        let now = self.event_in(process, place);
        self.hold(now);
        made
    }

    // Polls the running process, and does what it asks for. What stood in the place that changed is still to be given back.
    #[inline(always)]
    fn do_asked(
        &mut self,
        code: &B::Code,
        event: EventId,
        process: ProcId,
        told: Signal,
        place: Option<u8>,
        most: u32,
        listed: &mut Places,
    ) -> Units
        requires code { code.now ≡ self.old.code }
        requires stands { StandsForSome B.body self.old }
        requires running { IsRunning event process told self.old.control }
        requires place { place
            ≡ place_given (B.told_place code.now) told (record_of process self.old.live) }
        requires some { 1 ≤ most }
        requires once { 1 < most → (at : Option ℕ) → place_changed at told ≡ None }
        requires fits { FitsCode (B.body.facts code.now) self.old.setup }
        requires room { HasUnitRoom self.old }
        requires few { AreFew (2 ^ 40) (held self.old.shared.happen) }
        requires needed { AreNeeded self.old.shared.happen.events }
        requires events { length self.old.shared.happen.events + 40 ≤ 2 ^ 62 }
        ensures most { result.made ≤ most }
        ensures does { DoesAskedAtLast B.body event process result.made
            (event_placed B.events_held place (record_of process self.old.live))
            self.old result.last self.new }
        ensures touched { ChangesOnlyAt (touched_places result.touched listed.new)
            self.old.shared self.new.shared }
    {
        let mut asked = Op::Nop;
        let made = self.ask(code, event, process, told, place, most, &mut asked);
        let mut touched = Touched::Nothing;
        match asked {
            Op::Nop => self.tell_done(),
            Op::Timeout(delay, value) => self.timeout(event, process, delay, value),
            Op::Pause(delay, value) => self.pause(event, process, delay, value),
            Op::Wait(on) => self.wait(event, process, on),
            Op::NewEvent => self.new_event(event, process),
            Op::Succeed(triggered, value) => self.succeed(event, process, triggered, value),
            Op::Fail(triggered, value) => self.fail(event, process, triggered, value),
            Op::Spawn(kind, args) => self.spawn(code, event, process, kind, args),
            Op::Interrupt(other, cause) => self.interrupt(event, process, other, cause),
            Op::Drop(other, value) => {
                touched = self.drop_process(event, process, other, value, listed)
            }
            Op::Chain(source, other) => self.chain(event, process, source, other),
            Op::AllOf(ref members) => self.make_condition(event, process, true, members),
            Op::AnyOf(ref members) => self.make_condition(event, process, false, members),
            Op::Has(condition, other) => self.has(event, process, condition, other),
            Op::Enter(res, priority, preempts) => {
                touched = Touched::One(res);
                self.enter(event, process, res, priority, preempts)
            }
            Op::Leave => touched = touched_at(self.leave(event, process)),
            Op::Release(request) => touched = Touched::One(self.release(event, process, request)),
            Op::Put(res, amount, priority) => {
                touched = Touched::One(res);
                self.put(event, process, res, amount, priority)
            }
            Op::PutWait(res, amount, priority) => {
                touched = Touched::One(res);
                self.put_wait(event, process, res, amount, priority)
            }
            Op::Get(res, least, greatest) => {
                touched = Touched::One(res);
                self.get(event, process, res, least, greatest)
            }
            Op::GetWait(res, least, greatest) => {
                touched = Touched::One(res);
                self.get_wait(event, process, res, least, greatest)
            }
            Op::Cancel(cancelled) => touched = touched_at(self.cancel(event, process, cancelled)),
            Op::Count(res) => self.count(event, process, res),
            Op::Draw(lo, hi) => self.draw(event, process, lo, hi),
            Op::Finish(value) => self.finish(event, process, value),
            Op::Die(what) => self.die(event, process, what),
            Op::Log(value) => {
                self.tell_done();
                let time = self.shared.happen().now();
                let last = Unit::Line(Line::Log {
                    time,
                    process,
                    value,
                });
                return Units {
                    made,
                    last,
                    touched,
                };
            }
        }
        let last = Unit::Quiet;
        Units {
            made,
            last,
            touched,
        }
    }

    /// Polls the running process, at most so many times in a row, does what it asks for in the last, and gives back what its
    /// body names no more. Who is told of an event that it made is polled once: that event goes into a place, and what stood
    /// there is to be given back.
    #[inline(always)]
    pub(crate) fn poll(
        &mut self,
        code: &B::Code,
        event: EventId,
        process: ProcId,
        told: Signal,
        most: u32,
        listed: &mut Places,
    ) -> Units
        requires some { 1 ≤ most }
        requires code { code.now ≡ self.old.code }
        requires stands { StandsForSome B.body self.old }
        requires running { IsRunning event process told self.old.control }
        requires fits { FitsCode (B.body.facts code.now) self.old.setup }
        requires room { HasUnitRoom self.old }
        requires few { AreFew (2 ^ 40) (held self.old.shared.happen) }
        requires needed { AreNeeded self.old.shared.happen.events }
        requires events { length self.old.shared.happen.events + 40 ≤ 2 ^ 62 }
        ensures most { result.made ≤ most }
        ensures moves { MovesAtLast B.body result.made self.old result.last self.new }
        ensures touched { ChangesOnlyAt (touched_places result.touched listed.new)
            self.old.shared self.new.shared }
    {
        let place = self.place_told(code, process, told);
        let left = self.event_in(process, place);
        let most = if fills_place(told) { 1 } else { most };
        let units = self.do_asked(code, event, process, told, place, most, listed);
        self.unhold(left);
        units
    }
}
