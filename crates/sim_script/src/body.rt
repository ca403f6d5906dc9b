//! Scripts as the bodies of processes.
use crate::script::{Script, ask_nothing};
use sim_machine::LawfulBody;
use sim_procs::Body;
use sim_scenario::Scenario;
use sim_types::{EventId, Op, ProcId, Signal};
use std::alloc::{AllocError, Global};

impl LawfulBody for Script {
    ghost use Rattle.sim_script_law.specs.ScriptMembers.{script_body};
    ghost use Rattle.sim_script_law.proofs.Laws.ScriptLaw.{script_lawful};

    type Code = Scenario;

    ghost body = { script_body };

    ghost lawful = { script_lawful };
}

impl Body for Script {
    ghost use Rattle.sim_script_model.specs.Needs.{most_open_scopes};
    ghost use Rattle.sim_script_law.specs.ScriptMembers.{script_holds, script_is_for, script_told_place};
    ghost use Rattle.sim_script_law.proofs.Laws.ScriptLaw.{script_enters_within, script_has_places};
    ghost use Rattle.sim_script_law.proofs.Laws.GivenPlaces.{script_gives_within, script_holds_as_many, script_keeps_others};

    ghost events_held = { script_holds };

    ghost told_place = { script_told_place };

    ghost places = { script_has_places };

    ghost told_place_within = { λ x b e at can is.
        script_gives_within x b e can.sound can.told at is };

    ghost other_places_stay = { λ x b time e asked d can turned. record {
      length = script_holds_as_many x b e can.sound can.told time asked d turned;
      each = script_keeps_others x b e can.sound can.told time asked d turned;
    } };

    ghost is_for = { script_is_for };

    ghost most_open = { λ x. most_open_scopes x.code };

    ghost enters_within = { λ x. record {
      fewer = λ b time told res priority preempts d can turned.
          script_enters_within x b time told res priority preempts d can.sound can.told turned;
    } };

    fn scopes_needed(code: &Scenario) -> usize {
        code.most_open_scopes()
    }

    fn blank(alloc: Global, code: &Scenario) -> Result<Script, AllocError> {
        Script::new(alloc, code)
    }

    fn fill(&mut self, code: &Scenario, kind: u32, args: &[i64]) {
        self.begin(kind, &code.kinds()[kind as usize], args);
    }

    fn own(&mut self, id: ProcId) {
        self.set_number(id);
    }

    #[inline(always)]
    fn poll(
        &mut self,
        code: &Scenario,
        now: i64,
        signal: Signal,
        most: u32,
        asked: &mut Op,
    ) -> u32 {
        let statements = code.code();
        let mut asks = self.turn(statements, now, signal, asked);
        let mut made = 1;
        while !asks && made < most {
            asks = self.turn(statements, now, Signal::Done, asked);
            made += 1;
        }
        if !asks {
            ask_nothing(asked);
        }
        made
    }

    fn place(&self, at: u8) -> EventId {
        self.held(at)
    }

    fn places_in_use(&self) -> u8 {
        self.kept_variables()
    }

    fn place_told(&self, code: &Scenario) -> Option<u8> {
        self.given(code.code())
    }
}
