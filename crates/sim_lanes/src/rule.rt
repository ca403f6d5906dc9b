//! The table of words on which the lanes lie, and its rule.
use crate::view::View;
use atomic_table::{Seat, Table, TableRule};
use sim_types::List;
use std::alloc::Global;

/// The rule of lanes, over their capacities. It holds between any two steps, whatever the schedule.
pub struct LanesRule;

impl TableRule<u8, View, List<u32>> for LanesRule {
    ghost use Rattle.sim_lanes.specs.LanesRule.{Lanes};
    ghost use Rattle.sim_lanes.specs.Views.{lanes_from};
    ghost use Rattle.sim_lanes.specs.declared.view.View.TheVariants.{Taker};

    ghost holds = { Lanes };

    ghost first = { λ capacities. Taker 0 (lanes_from 1 capacities) };
}

/// The words of all lanes. The table has no slots.
pub type LaneTable = Table<u8, View, List<u32>, LanesRule, Global>;

/// The seat of one end.
pub type LaneSeat = Seat<u8, View>;
