ghost use Rattle.std.specs.Prelude.{◌≡◌, ◌+◌, ◌<◌, ◌≤◌, [], ◌∷◌, ◌++◌, length, is_some, IsOk, OnOk};
ghost use Rattle.std.specs.List.{list_any};
ghost use Rattle.sim_machine.specs.Events.{without_first};
ghost use Rattle.sim_machine.specs.Users.{first_of_list};
ghost use Rattle.sim_machine.specs.Standing.{one_if};
ghost use Rattle.sim_machine.specs.Callbacks.{is_same_callback};
ghost use Rattle.sim_callbacks.specs.Chains.{callbacks_in, spare_in, IsChain};
ghost use Rattle.sim_callbacks.specs.Keeping.{KeepsAll, KeepsOthers, LosesFirst};

use crate::chain::{Chain, Node};
use sim_types::Callback;
use slab::Slab;
use std::alloc::{AllocError, Global};
use std::marker::Model;

/// The nodes of many chains of callbacks, in one slab: one callback more, in whichever chain, takes no memory beyond what
/// was reserved for all.
#[derive(Drop)]
pub struct Nodes {
    slab: Slab<Node>,
}

impl Model for Nodes {
    ghost use Rattle.slab.specs.Slab.{Slab, HasRoomFor};
    ghost use Rattle.sim_callbacks.specs.declared.chain.Node.{Node};

    ghost Value = { Slab Node };

    ghost view = { λ a. a.slab };

    ghost invariant = { λ a. HasRoomFor a.slab 0 };
}

impl Nodes {
    /// No nodes. It takes no memory.
    pub fn new(alloc: Global) -> Nodes
        ensures { spare_in result ≡ 0 }
    {
        Nodes {
            slab: Slab::new(alloc),
        }
    }

    /// Makes room for so many more callbacks.
    pub fn reserve(&mut self, more: u32) -> Result<(), AllocError>
        ensures ok { OnOk result (more ≤ spare_in self.new) }
        ensures succeeds { more ≤ spare_in self.old → IsOk result }
        ensures never_less { spare_in self.old ≤ spare_in self.new }
        ensures chains { KeepsAll self.old self.new }
    {
        self.slab.reserve(more as usize)
    }

    /// For how many more callbacks there is room.
    pub fn spare(&self) -> usize
        ensures { result ≡ spare_in self.now }
    {
        self.slab.capacity() - self.slab.len()
    }

    /// Appends a callback to a chain.
    #[inline(always)]
    pub fn append(&mut self, chain: &mut Chain, callback: Callback)
        requires spare { 0 < spare_in self.old }
        requires chain { IsChain self.old chain.old }
        ensures callbacks { callbacks_in self.new chain.new
            ≡ callbacks_in self.old chain.old ++ callback ∷ [] }
        ensures others { KeepsOthers self.old chain.old self.new chain.new }
        ensures spare { spare_in self.new + 1 ≡ spare_in self.old }
    {
        chain.append(&mut self.slab, callback);
    }

    /// The first callback of a chain, if there is one. No other is looked at.
    pub fn first(&self, chain: &Chain) -> Option<Callback>
        requires { IsChain self.now chain.now }
        ensures { result ≡ first_of_list (callbacks_in self.now chain.now) }
    {
        chain.first(&self.slab)
    }

    /// Takes out the first callback of a chain, if there is one.
    pub fn take_first(&mut self, chain: &mut Chain) -> Option<Callback>
        requires { IsChain self.old chain.old }
        ensures callbacks { LosesFirst result self.old chain.old self.new chain.new }
        ensures others { KeepsOthers self.old chain.old self.new chain.new }
        ensures spare { spare_in self.new ≡ spare_in self.old + one_if (is_some result) }
    {
        chain.take_first(&mut self.slab)
    }

    /// Takes out the first callback of a chain that is the same as this one. False where there is none.
    pub fn take_out(&mut self, chain: &mut Chain, wanted: Callback) -> bool
        requires { IsChain self.old chain.old }
        ensures found { result
            ≡ list_any (is_same_callback wanted) (callbacks_in self.old chain.old) }
        ensures callbacks { callbacks_in self.new chain.new
            ≡ without_first (is_same_callback wanted) (callbacks_in self.old chain.old) }
        ensures others { KeepsOthers self.old chain.old self.new chain.new }
        ensures spare { spare_in self.new ≡ spare_in self.old + one_if result }
    {
        chain.take_out(&mut self.slab, wanted)
    }

    /// Takes out all callbacks of a chain.
    pub fn free(&mut self, chain: &mut Chain)
        requires { IsChain self.old chain.old }
        ensures callbacks { callbacks_in self.new chain.new ≡ [] }
        ensures others { KeepsOthers self.old chain.old self.new chain.new }
        ensures spare { spare_in self.new
            ≡ spare_in self.old + length (callbacks_in self.old chain.old) }
    {
        chain.free(&mut self.slab);
    }
}
