//! A chain of nodes, in the slab that has them.
ghost use Rattle.std.specs.Prelude.{◌≡◌, ◌≢◌, suc, ◌+◌, ◌-◌, ◌<◌, [], ◌∷◌, ◌++◌, MatchOption, if◌then◌else◌, false};
ghost use Rattle.std.specs.List.{list_any};
ghost use Rattle.slab.specs.Slab.{slab_len, HasRoomFor};
ghost use Rattle.sim_machine.specs.Events.{without_first};
ghost use Rattle.sim_machine.specs.Users.{first_of_list};
ghost use Rattle.sim_machine.specs.Standing.{one_if};
ghost use Rattle.sim_machine.specs.Callbacks.{is_same_callback};
ghost use Rattle.sim_callbacks.specs.Chains.{callbacks_in, IsChain, IsEmpty};
ghost use Rattle.sim_callbacks.specs.Keeping.{KeepsOthers, LosesFirst, MayBePassedOn};
ghost use Rattle.sim_callbacks.specs.Places.{IsFoundAt, IsFirstWith, without_at};

use crate::callback::is_same;
use sim_types::Callback;
use slab::Slab;

/// A callback, and the key of the next node of its chain: after the last comes the first.
#[derive(Drop)]
pub struct Node {
    pub(crate) callback: Callback,
    pub(crate) next: usize,
}

/// A list of callbacks, whose nodes are among many in one `Nodes`: how many there are, and the key of the last node, which
/// counts only where there is one, and whose next is the first.
#[derive(Clone, Copy)]
pub struct Chain {
    pub(crate) last: usize,
    pub(crate) count: usize,
}

/// Where a node stands: its place in the chain, its key, and the key of the node before it. The last node comes before the
/// first.
#[derive(Clone, Copy)]
pub(crate) struct Found {
    pub(crate) place: usize,
    pub(crate) at: usize,
    pub(crate) before: usize,
}

// No callbacks.
const EMPTY: Chain = Chain { last: 0, count: 0 };

impl Chain {
    /// No callbacks.
    pub fn new() -> Chain
        ensures { IsEmpty result }
    {
        EMPTY
    }

    /// Takes the whole chain, which may then belong to another owner. No callbacks are left.
    pub fn take(&mut self) -> Chain
        ensures taken { result ≡ self.old }
        ensures passed_on { MayBePassedOn result }
        ensures empty { IsEmpty self.new }
    {
        let whole = *self;
        *self = EMPTY;
        whole
    }

    /// Appends a callback.
    #[inline(always)]
    pub(crate) fn append(&mut self, nodes: &mut Slab<Node>, callback: Callback)
        requires room { HasRoomFor nodes.old 1 }
        requires chain { IsChain nodes.old self.old }
        ensures callbacks { callbacks_in nodes.new self.new
            ≡ callbacks_in nodes.old self.old ++ callback ∷ [] }
        ensures others { KeepsOthers nodes.old self.old nodes.new self.new }
        ensures len { slab_len nodes.new ≡ slab_len nodes.old + 1 }
        ensures capacity { nodes.new.capacity ≡ nodes.old.capacity }
    {
        let _known = nodes.capacity();
        if self.count == 0 {
            let next = nodes.vacant_key();
            let key = nodes.insert_reserved(Node { callback, next });
            *self = Chain {
                last: key,
                count: 1,
            };
            return;
        }
        let next = nodes[self.last].next;
        let key = nodes.insert_reserved(Node { callback, next });
        nodes[self.last].next = key;
        self.last = key;
        self.count += 1;
    }

    /// The first callback, if there is one.
    pub(crate) fn first(&self, nodes: &Slab<Node>) -> Option<Callback>
        requires { IsChain nodes.now self.now }
        ensures { result ≡ first_of_list (callbacks_in nodes.now self.now) }
    {
        if self.count == 0 {
            return None;
        }
        let first = nodes[self.last].next;
        Some(nodes[first].callback)
    }

    /// Takes out the first callback, if there is one.
    pub(crate) fn take_first(&mut self, nodes: &mut Slab<Node>) -> Option<Callback>
        requires chain { IsChain nodes.old self.old }
        ensures callbacks { LosesFirst result nodes.old self.old nodes.new self.new }
        ensures others { KeepsOthers nodes.old self.old nodes.new self.new }
        ensures count { self.new.count ≡ self.old.count - 1 }
        ensures len { MatchOption result
            (slab_len nodes.new ≡ slab_len nodes.old)
            (λ c. slab_len nodes.new + 1 ≡ slab_len nodes.old) }
        ensures balance { slab_len nodes.new + self.old.count
            ≡ slab_len nodes.old + self.new.count }
        ensures capacity { nodes.new.capacity ≡ nodes.old.capacity }
    {
        if self.count == 0 {
            return None;
        }
        let first = nodes[self.last].next;
        let next = nodes[first].next;
        // The only node of a chain names itself, and this changes nothing.
        nodes[self.last].next = next;
        let node = nodes.remove(first);
        self.count -= 1;
        Some(node.callback)
    }

    // The first node with this callback.
    #[tactic(auto, using(crate::proofs::Finding::looked_none, crate::proofs::Finding::looked_more, crate::proofs::Finding::looked_found, crate::proofs::Finding::looked_all))]
    fn find(&self, nodes: &Slab<Node>, wanted: Callback) -> Option<Found>
        requires { IsChain nodes.now self.now }
        ensures { MatchOption result
            (list_any (is_same_callback wanted) (callbacks_in nodes.now self.now) ≡ false)
            (IsFirstWith nodes.now self.now wanted) }
    {
        let mut before = self.last;
        for place in 0..self.count {
            let at = nodes[before].next;
            if is_same(wanted, nodes[at].callback) {
                return Some(Found { place, at, before });
            }
            before = at;
        }
        None
    }

    // The key of the last node once a node is taken out.
    fn last_without(&self, found: &Found) -> usize
        requires { found.now.place < self.now.count }
        ensures last { found.now.place + 1 ≡ self.now.count → result ≡ found.now.before }
        ensures earlier { found.now.place + 1 ≢ self.now.count → result ≡ self.now.last }
    {
        if found.place + 1 == self.count {
            found.before
        } else {
            self.last
        }
    }

    // Takes out a node.
    fn unlink(&mut self, nodes: &mut Slab<Node>, found: Found)
        requires chain { IsChain nodes.old self.old }
        requires found { IsFoundAt nodes.old self.old found }
        ensures callbacks { callbacks_in nodes.new self.new
            ≡ without_at found.place (callbacks_in nodes.old self.old) }
        ensures others { KeepsOthers nodes.old self.old nodes.new self.new }
        ensures len { slab_len nodes.new + 1 ≡ slab_len nodes.old }
        ensures capacity { nodes.new.capacity ≡ nodes.old.capacity }
    {
        let next = nodes[found.at].next;
        // The only node of a chain names itself, and this changes nothing.
        nodes[found.before].next = next;
        let _node = nodes.remove(found.at);
        self.last = self.last_without(&found);
        self.count -= 1;
    }

    /// Takes out the first callback that is the same as this one. False where there is none.
    pub(crate) fn take_out(&mut self, nodes: &mut Slab<Node>, wanted: Callback) -> bool
        requires chain { IsChain nodes.old self.old }
        ensures found { result
            ≡ list_any (is_same_callback wanted) (callbacks_in nodes.old self.old) }
        ensures callbacks { callbacks_in nodes.new self.new
            ≡ without_first (is_same_callback wanted) (callbacks_in nodes.old self.old) }
        ensures others { KeepsOthers nodes.old self.old nodes.new self.new }
        ensures len { slab_len nodes.new + one_if result ≡ slab_len nodes.old }
        ensures capacity { nodes.new.capacity ≡ nodes.old.capacity }
    {
        match self.find(nodes, wanted) {
            Some(found) => {
                self.unlink(nodes, found);
                true
            }
            None => false,
        }
    }

    /// Gives back all nodes.
    #[tactic(auto, using(crate::proofs::Freeing::freed_none, crate::proofs::Freeing::freed_more))]
    pub(crate) fn free(&mut self, nodes: &mut Slab<Node>)
        requires chain { IsChain nodes.old self.old }
        ensures callbacks { callbacks_in nodes.new self.new ≡ [] }
        ensures others { KeepsOthers nodes.old self.old nodes.new self.new }
        ensures len { slab_len nodes.new + self.old.count ≡ slab_len nodes.old }
        ensures capacity { nodes.new.capacity ≡ nodes.old.capacity }
    {
        while self.count > 0 {
            let _callback = self.take_first(nodes);
        }
    }
}
