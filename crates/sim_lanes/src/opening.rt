//! The opening of lanes.
ghost use Rattle.std.specs.Prelude.{◌≡◌, ℕ, ◌+◌, ◌<◌, ◌≤◌, ◌^◌, List, [], All, length, slice_get, slice_index, Some, IfOk, OnOk};
ghost use Rattle.std.specs.Arc.{arc_value};
ghost use Rattle.sim_lanes.specs.Places.{end_of};
ghost use Rattle.sim_lanes.specs.Ends.{PosterOf, AreInOrder, taken_of, posted_of};
ghost use Rattle.sim_lanes.specs.Opening.{AreEnds, HasSplit, fresh_posters};

use crate::lane_end::LaneEnd;
use crate::poster::LanePoster;
use crate::rule::{LaneSeat, LaneTable};
use crate::steps::PosterSeat;
use crate::taker::LaneTaker;
use sim_inbox::Inbox;
use sim_types::List;
use std::alloc::{AllocError, Global};
use std::sync::Arc;

/// Where lanes with these capacities lie, and how many words they take together.
fn lay_out(alloc: Global, capacities: &[u32]) -> Result<(Vec<LaneEnd>, usize), AllocError>
    requires few { length capacities.now ≤ 16 }
    requires each { All (λ c. 0 < c) capacities.now }
    ensures many { IfOk result (λ r. length r.0.items ≡ length capacities.now) }
    ensures ends { IfOk result (λ r. AreEnds capacities.now r.0.items) }
    ensures words { IfOk result (λ r. r.1 ≡ end_of 1 capacities.now) }
{
    let mut ends = Vec::with_capacity(alloc, capacities.len())?;
    let mut place = 1;
    for p in 0..capacities.len() {
        let capacity = capacities[p];
        ends.push(LaneEnd {
            place,
            capacity: u64::from(capacity),
            count: 0,
        })?;
        place += 2 + 2 * capacity as usize;
    }
    Ok((ends, place))
}

/// A poster for each lane, its seat split off the first one.
fn split_posters(
    alloc: Global,
    table: &Arc<LaneTable, Global>,
    seat: &mut LaneSeat,
    ends: &[LaneEnd],
) -> Result<Vec<LanePoster>, AllocError>
    requires first { HasSplit (arc_value table.now).shared.key
        (arc_value table.now).shared.table_id seat.old.table_id seat.old.me 0 }
    requires many { length ends.now ≡ length (arc_value table.now).shared.key }
    requires ends { AreEnds (arc_value table.now).shared.key ends.now }
    ensures last { OnOk result (HasSplit (arc_value table.now).shared.key
        (arc_value table.now).shared.table_id seat.new.table_id seat.new.me (length ends.now)) }
    ensures posters { IfOk result (λ posters. posters.items ≡ fresh_posters
        (arc_value table.now).shared.table_id (arc_value table.now).shared.key (length ends.now)) }
{
    let mut posters = Vec::with_capacity(alloc, ends.len())?;
    for p in 0..ends.len() {
        let theirs = Arc::try_clone(table)?;
        let own = table.shared.split_seat::<PosterSeat>(seat);
        posters.push(LanePoster {
            table: theirs,
            seat: own,
            end: ends[p],
        })?;
    }
    Ok(posters)
}

/// A lane with room for so many posts for each capacity: their taker, and a poster for each.
pub fn new_lanes(
    alloc: Global,
    capacities: &[u32],
) -> Result<(LaneTaker, List<LanePoster>), AllocError>
    requires few { length capacities.now ≤ 16 }
    requires each { All (λ c. 0 < c) capacities.now }
    ensures count { IfOk result (λ r. length r.0.lanes ≡ length capacities.now) }
    ensures taken { IfOk result (λ r. (p : ℕ) → taken_of r.0 p ≡ []) }
    ensures many { IfOk result (λ r. length r.1 ≡ length capacities.now) }
    ensures own { IfOk result (λ r. AreInOrder r.0.inbox r.1) }
    ensures fresh { IfOk result (λ r. (p : ℕ) (x : PosterOf) → slice_get r.1 p ≡ Some x →
        (posted_of x ≡ []) × (x.knows.capacity ≡ slice_index capacities.now p)) }
{
    let (ends, words) = lay_out(alloc, capacities)?;
    let zeros = Vec::from_elem(alloc, 0, words)?;
    let about = List::from_vec(Vec::from_slice(alloc, capacities)?);
    let (table, mut seat) = LaneTable::of_words(alloc, zeros.as_slice(), &about)?;
    let table = Arc::new(alloc, table)?;
    let posters = split_posters(alloc, &table, &mut seat, ends.as_slice())?;
    Ok((LaneTaker { table, seat, ends }, List::from_vec(posters)))
}

/// Opens lanes. Each has room for just so many posts as are asked for.
#[derive(Drop)]
pub struct LaneInbox;

impl Inbox for LaneInbox {
    type Taker = LaneTaker;

    fn open(
        &self,
        alloc: Global,
        capacities: &[u32],
    ) -> Result<(LaneTaker, List<LanePoster>), AllocError>
        requires few { length capacities.now ≤ 16 }
        requires each { All (λ c. 0 < c) capacities.now }
        ensures taker { IfOk result (λ r. (length r.0.lanes ≡ length capacities.now)
            × ((p : ℕ) → taken_of r.0 p ≡ [])) }
        ensures many { IfOk result (λ r. length r.1 ≡ length capacities.now) }
        ensures own { IfOk result (λ r. AreInOrder r.0.inbox r.1) }
        ensures fresh { IfOk result (λ r. (p : ℕ) (x : PosterOf) → slice_get r.1 p ≡ Some x →
            (posted_of x ≡ []) × (slice_index capacities.now p ≤ x.knows.capacity)) }
    {
        new_lanes(alloc, capacities)
    }
}
