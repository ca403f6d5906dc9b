ghost use Rattle.std.specs.Prelude.{◌≡◌, ◌≢◌, ◌+◌, ◌<◌, ◌≤◌, ◌^◌, [], length, IsTrue, OnOk};
ghost use Rattle.sim_machine.specs.Processes.{told_more, not_active};
ghost use Rattle.sim_machine.specs.Setups.{FitsCode};
ghost use Rattle.sim_happen_model.specs.HappenOf.{held};
ghost use Rattle.sim_shared_model.specs.Measuring.{ChangesOnlyAt};
ghost use Rattle.sim_steps_model.specs.Becoming.{AreFew};
ghost use Rattle.sim_steps_model.specs.Resting.{CanStep, rest_in};
ghost use Rattle.sim_steps_model.specs.PartsOf.{HasRoomForNext, HasUnitRoom, IsRunningIn, IsRunningAt, KeepsButRoom, next_takes_room};
ghost use Rattle.sim_steps_model.specs.QuietUnits.{MovesAtLast};
ghost use Rattle.sim_steps_model.specs.StandsFor.{StandsForSome};
ghost use Rattle.sim_steps_model.specs.Touching.{touched_places};

use crate::ready::Ready;
use crate::resources::touched_at;
use rand_pcg::Pcg64;
use sim_procs::{Body, Procs};
use sim_shared::Shared;
use sim_steps_model::{Mode, Rest, Touched, Unit, Units};
use sim_types::{Callback, EventId, Places, ProcId, Setup, Signal};
use std::alloc::{AllocError, Global};
use std::marker::Model;
use std::snapshot::Snapshot;

/// Time, what happens in it and the resources, the live processes and the numbers of a kernel, and what it was opened with.
pub struct Parts<B: Body> {
    pub(crate) shared: Shared,
    pub(crate) processed: u64,
    pub(crate) generator: Pcg64,
    pub(crate) processes: Procs<B>,
    /// What the process that is made next has already.
    pub(crate) ready: Option<Ready<B>>,
    pub(crate) mode: Mode,
    /// The process kind that each port starts.
    pub(crate) ports: Vec<u32>,
    pub(crate) code: Snapshot<B::Code>,
    pub(crate) setup: Snapshot<Setup>,
    pub(crate) seed: Snapshot<u64>,
    pub(crate) alloc: Global,
}

impl<B: Body> Model for Parts<B> {
    ghost use Rattle.std.specs.Prelude.{is_some};
    ghost use Rattle.sim_steps_model.specs.PartsOf.{PartsOf, control_of, AreSoundParts};

    ghost Value = { PartsOf B B.Code };

    ghost view = { λ a. record {
      shared = a.shared;
      processed = a.processed;
      generator = a.generator;
      live = a.processes.live;
      control = control_of a.mode a.shared.happen.left;
      code = a.code.value;
      setup = a.setup.value;
      seed = a.seed.value;
      spare = a.processes.spare;
      ready = is_some a.ready;
    } };

    ghost invariant = { λ a. AreSoundParts a.mode a.shared a.ports.items a.setup.value
        (B.is_for a.code.value) (B.most_open a.code.value) a.processes.room a.ready };
}

impl<B: Body> Parts<B> {
    // Whether there is room for all that one unit takes.
    fn is_ready(&self) -> bool
        ensures { IsTrue result → HasUnitRoom self.now }
    {
        self.ready.is_some() && self.processes.has_room() && self.shared.is_ready()
    }

    // Makes room for all that one unit takes.
    #[inline(never)]
    fn make_room(&mut self, code: &B::Code) -> Result<(), AllocError>
        requires { code.now ≡ self.old.code }
        ensures kept { KeepsButRoom self.old self.new }
        ensures room { OnOk result (HasUnitRoom self.new) }
    {
        self.shared.reserve()?;
        self.reserve_process(code)
    }

    // Whether the next unit may take room.
    fn next_takes_room(&self) -> bool
        ensures { result ≡ next_takes_room self.now.control }
    {
        match self.mode {
            Mode::Idle | Mode::Over(_, _) => false,
            Mode::Calling(_) => {
                let callback = self.shared.happen().table().first_left();
                matches!(callback, Some(Callback::TryPut(_)))
            }
            Mode::Active(_, _, _) => true,
        }
    }

    /// Makes room for all that the next unit takes. Most units in which no process runs take none, and then no room is
    /// tested.
    #[inline(always)]
    pub fn reserve_for_next(&mut self, code: &B::Code) -> Result<(), AllocError>
        requires code { code.now ≡ self.old.code }
        ensures kept { KeepsButRoom self.old self.new }
        ensures room { OnOk result (HasRoomForNext self.new) }
    {
        if !self.next_takes_room() {
            return Ok(());
        }
        self.reserve(code)
    }

    /// Makes room for all that one unit takes, whichever it is. Mostly it is there, which one test tells.
    pub fn reserve(&mut self, code: &B::Code) -> Result<(), AllocError>
        requires { code.now ≡ self.old.code }
        ensures kept { KeepsButRoom self.old self.new }
        ensures room { OnOk result (HasUnitRoom self.new) }
    {
        if self.is_ready() {
            return Ok(());
        }
        self.make_room(code)
    }

    /// The running process goes on, and is told this.
    pub(crate) fn tell(&mut self, event: EventId, process: ProcId, told: Signal)
        requires running { IsRunningIn event process self.old.control }
        ensures { self.new ≡ record self.old { control = told_more told self.old.control } }
    {
        self.mode = Mode::Active(event, process, told);
    }

    /// The running process waits or has ended.
    pub(crate) fn rest(&mut self, event: EventId)
        requires running { IsRunningAt event self.old.control }
        ensures { self.new ≡ record self.old { control = not_active self.old.control } }
    {
        self.mode = Mode::Calling(event);
    }

    /// Where the kernel stands.
    pub fn rest_now(&self) -> Rest
        ensures { result ≡ rest_in self.now }
    {
        match self.mode {
            Mode::Idle if self.shared.happen().is_empty() => Rest::Empty,
            Mode::Idle => Rest::Idle,
            Mode::Calling(_) | Mode::Active(_, _, _) => Rest::Busy,
            Mode::Over(why, _) => Rest::Over(why),
        }
    }

    /// The time of the machine.
    pub fn now(&self) -> i64
        ensures { result ≡ self.now.shared.happen.time }
    {
        self.shared.happen().now()
    }

    /// How many events were processed.
    pub fn processed(&self) -> u64
        ensures { result ≡ self.now.processed }
    {
        self.processed
    }

    /// Units in a row, at most so many: an event is popped, a callback is called, an event is settled, or a process is polled;
    /// one alone, or all but the last are polls in which a process asks for nothing. At all resources but those touched the
    /// same is measured as before. Where a process is dropped their places are listed.
    #[inline(always)]
    pub fn units(&mut self, code: &B::Code, most: u32, listed: &mut Places) -> Units
        requires some { 1 ≤ most }
        requires code { code.now ≡ self.old.code }
        requires stands { StandsForSome B.body self.old }
        requires can { CanStep self.old }
        requires fits { FitsCode (B.body.facts code.now) self.old.setup }
        requires room { HasRoomForNext self.old }
        requires few { AreFew (2 ^ 40) (held self.old.shared.happen) }
        requires events { length self.old.shared.happen.events + 40 ≤ 2 ^ 62 }
        requires processed { self.old.processed < 2 ^ 62 }
        ensures most { result.made ≤ most }
        ensures moves { MovesAtLast B.body result.made self.old result.last self.new }
        ensures touched { ChangesOnlyAt (touched_places result.touched listed.new)
            self.old.shared self.new.shared }
    {
        let _known = self.slots();
        match self.mode {
            Mode::Idle => Units {
                made: 1,
                last: self.pop(),
                touched: Touched::Nothing,
            },
            Mode::Calling(event) => {
                let touched = touched_at(self.call(event));
                Units {
                    made: 1,
                    last: Unit::Quiet,
                    touched,
                }
            }
            Mode::Active(event, process, told) => {
                self.poll(code, event, process, told, most, listed)
            }
            Mode::Over(_, _) => unreachable!(),
        }
    }
}
