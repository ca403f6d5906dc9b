//! What has a name.
ghost use Rattle.std.specs.Option.{IfSome};
ghost use Rattle.std.specs.Prelude.{◌≡◌, ◌<◌, [], length, map, position, slice_get, Some, OnOk, OnErr};
ghost use Rattle.sim_language.specs.Lines.{same};
ghost use Rattle.sim_language.specs.Named.{Named, is_named, place_of, value_of, with_one};

use indexmap::IndexMap;
use std::alloc::{AllocError, Global};
use std::marker::Model;

/// How many names are looked through one by one, at most. To find where the map has a name takes longer than that.
const FEW: usize = 8;

/// What has a name, in the order in which the names came. The names are parts of a text.
#[derive(Drop)]
pub struct Names<'t, V> {
    index: IndexMap<&'t [u8], V>,
}

impl<'t, V> Model for Names<'t, V> {
    ghost use Rattle.std.specs.Prelude.{List, map};
    ghost use Rattle.sim_language.specs.Named.{Named};

    ghost Value = { List (Named V) };

    ghost view = { λ a. map (λ e. record { name = e.0.now; value = e.1 }) a.index.entries };
}

impl<'t, V: Copy> Names<'t, V> {
    /// No names. It takes no memory.
    pub fn new(alloc: Global) -> Names<'t, V>
        ensures { result ≡ [] }
    {
        Names {
            index: IndexMap::new(alloc),
        }
    }

    /// How many names there are.
    pub fn len(&self) -> usize
        ensures { result ≡ length self.now }
    {
        self.index.len()
    }

    /// What has the name.
    pub fn get(&self, name: &[u8]) -> Option<V>
        ensures { result ≡ value_of name.now self.now }
    {
        Some(self.at(self.index_of(name)?))
    }

    pub fn contains(&self, name: &[u8]) -> bool
        ensures { result ≡ is_named name.now self.now }
    {
        self.index_of(name).is_some()
    }

    /// The index of the name, counted from 0.
    pub fn index_of(&self, name: &[u8]) -> Option<usize>
        ensures index { result ≡ place_of name.now self.now }
        ensures below { IfSome result (λ index. index < length self.now) }
    {
        if self.index.len() <= FEW {
            place_among(self.index.keys().as_slice(), name)
        } else {
            self.index.get_index_of(&name)
        }
    }

    /// What stands at an index, counted from 0.
    pub fn at(&self, index: usize) -> V
        requires { index < length self.now }
        ensures { slice_get (map (λ n. n.value) self.now) index ≡ Some result }
    {
        self.index[index]
    }

    /// One more behind the others, unless its name is there.
    pub fn add(&mut self, name: &'t [u8], value: V) -> Result<(), AllocError>
        ensures ok { OnOk result
            (self.new ≡ with_one self.old (record { name = name.now; value = value })) }
        ensures err { OnErr result (self.new ≡ self.old) }
    {
        if !self.index.contains_key(&name) {
            self.index.insert(name, value)?;
        }
        Ok(())
    }
}

/// Where the name stands first among these.
fn place_among(names: &[&[u8]], name: &[u8]) -> Option<usize>
    ensures { result ≡ position (λ known. same name.now known.now) names.now }
{
    names.iter().position(|known| name == *known)
}
