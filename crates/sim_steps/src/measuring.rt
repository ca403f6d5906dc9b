//! What is measured at resources.
ghost use Rattle.std.specs.Prelude.{◌≡◌, ◌<◌, length};
ghost use Rattle.sim_machine.specs.Measures.{measure_at};
ghost use Rattle.sim_machine.specs.State.{Facilities};
ghost use Rattle.sim_shared_model.specs.ShowsAll.{ShowsAll};

use crate::parts::Parts;
use sim_procs::Body;
use sim_types::Measure;

impl<B: Body> Parts<B> {
    /// How much waits at a resource and is held there: of the machine's facilities, where these show them.
    pub fn measure(&self, res: u32) -> Measure
        requires res { res < length self.now.setup.resources }
        ensures shown { (f : Facilities) → ShowsAll self.now.shared f →
            result ≡ measure_at self.now.setup.resources res f }
    {
        self.shared.measure(res)
    }
}
