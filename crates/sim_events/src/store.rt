ghost use Rattle.std.specs.Prelude.{◌≡◌, true};
ghost use Rattle.slab.specs.Slab.{ContainsKey};
ghost use Rattle.sim_callbacks.specs.declared.chain.Chain.{Chain};
ghost use Rattle.sim_events.specs.Stores.{IsStore, IsStored, GivesBack, FreesPart};

use crate::part::Part;
use crate::slot::Slot;
use sim_callbacks::Nodes;
use slab::Slab;

/// The slots of the events that are kept, the nodes of their callbacks and of those that are left to call, and what
/// those have besides that are conditions.
#[derive(Drop)]
pub(crate) struct Store {
    pub(crate) slots: Slab<Slot>,
    pub(crate) nodes: Nodes,
    pub(crate) parts: Slab<Part>,
}

// Gives back a part, if there is one.
fn free_part(parts: &mut Slab<Part>, is_there: bool, part: usize)
    requires { is_there ≡ true → ContainsKey parts.old part }
    ensures { FreesPart is_there part parts.old parts.new }
{
    if is_there {
        parts.remove(part);
    }
}

impl Store {
    /// Gives back the slot of an event, with its callbacks and what it has as a condition.
    #[inline(always)]
    pub(crate) fn give_back(&mut self, key: usize)
        requires store { IsStore self.old }
        requires there { ContainsKey self.old.slots key }
        ensures { (left : Chain) → IsStored self.old left → GivesBack self.old key self.new left }
    {
        let slot = self.slots.remove(key);
        let mut callbacks = slot.callbacks;
        self.nodes.free(&mut callbacks);
        free_part(&mut self.parts, slot.is_condition, slot.part);
    }
}
