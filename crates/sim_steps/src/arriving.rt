//! What arrives from outside (this project's own: SimPy has no such call).
ghost use Rattle.std.specs.Prelude.{◌≡◌, ◌+◌, ◌<◌, ◌≤◌, ◌^◌, length};
ghost use Rattle.sim_types.specs.declared.line.Line.TheVariants as line;
ghost use Rattle.sim_machine.specs.Setups.{FitsCode};
ghost use Rattle.sim_machine.specs.Units as units;
ghost use Rattle.sim_happen_model.specs.HappenOf.{held};
ghost use Rattle.sim_steps_model.specs.Becoming.{AreFew, BecomesWith};
ghost use Rattle.sim_steps_model.specs.Opening.{most_begun};
ghost use Rattle.sim_steps_model.specs.PartsOf.{HasUnitRoom, KeepsResources, plan_of};
ghost use Rattle.sim_steps_model.specs.StandsFor.{StandsForSome};

use crate::parts::Parts;
use sim_procs::Body;
use sim_types::Line;

impl<B: Body> Parts<B> {
    /// A value comes in by a port: a process of the port's kind is made, with the value as its argument. The answer is the
    /// line that tells it.
    pub fn arrive(&mut self, code: &B::Code, port: u32, value: i64) -> Line
        requires code { code.now ≡ self.old.code }
        requires stands { StandsForSome B.body self.old }
        requires port { port < length self.old.setup.ports }
        requires fits { FitsCode (B.body.facts code.now) self.old.setup }
        requires room { HasUnitRoom self.old }
        requires events { length self.old.shared.happen.events + 2 ≤ 2 ^ 62 }
        requires few { AreFew (2 ^ 40) (held self.old.shared.happen) }
        ensures becomes { BecomesWith B.body most_begun
            (units.arrive (plan_of B.body self.old) port value)
            self.old self.new }
        ensures line { result ≡ line.Arrive self.old.processed value port }
        ensures resources { KeepsResources self.old self.new }
    {
        let kind = self.ports[port as usize];
        let _process = self.begin(code, kind, &[value]);
        Line::Arrive {
            after: self.processed,
            port,
            value,
        }
    }
}
