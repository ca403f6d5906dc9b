//! Lists that contracts see as lists.
ghost use Rattle.std.specs.Prelude.{◌≡◌, ◌↔◌, IsTrue, [], ◌∷◌, ◌++◌, length, IfOk, OnOk, OnErr, slice_get, option_copied};

use std::alloc::{AllocError, Global};
use std::marker::Model;

/// A list of values.
#[derive(Drop)]
pub struct List<T> {
    inner: Vec<T>,
}

impl<T> Model for List<T> {
    ghost use Rattle.std.specs.Prelude.{List};

    ghost Value = { List T };

    ghost view = { λ a. a.inner.items };
}

impl<T> List<T> {
    /// An empty list. It takes no memory.
    pub fn new(alloc: Global) -> List<T>
        ensures { result ≡ [] }
    {
        List {
            inner: Vec::new(alloc),
        }
    }

    /// The elements of a vector.
    pub fn from_vec(elements: Vec<T>) -> List<T>
        ensures { result ≡ elements.items }
    {
        List { inner: elements }
    }

    /// The elements as a vector.
    pub fn into_vec(self) -> Vec<T>
        ensures { result.items ≡ self }
    {
        let List { inner } = self;
        inner
    }

    pub fn len(&self) -> usize
        ensures { result ≡ length self.now }
    {
        self.inner.len()
    }

    pub fn is_empty(&self) -> bool
        ensures { IsTrue result ↔ (self.now ≡ []) }
    {
        self.inner.is_empty()
    }

    /// Appends an element.
    pub fn push(&mut self, value: T) -> Result<(), AllocError>
    where
        T: Drop,
        ensures ok { OnOk result (self.new ≡ self.old ++ value ∷ []) }
        ensures err { OnErr result (self.new ≡ self.old) }
    {
        self.inner.push(value)?;
        Ok(())
    }

    pub fn as_slice(&self) -> &[T]
        ensures { result.now ≡ self.now }
    {
        self.inner.as_slice()
    }
}

/// A name, as bytes.
#[derive(Drop)]
pub struct Name {
    bytes: List<u8>,
}

impl Model for Name {
    ghost use Rattle.std.specs.Prelude.{List, ℕ};

    ghost Value = { List ℕ };

    ghost view = { λ a. a.bytes };
}

impl Name {
    /// A name of these bytes.
    pub fn new(alloc: Global, bytes: &[u8]) -> Result<Name, AllocError>
        ensures { IfOk result (λ name. name ≡ bytes.now) }
    {
        Ok(Name {
            bytes: List::from_vec(Vec::from_slice(alloc, bytes)?),
        })
    }

    pub fn bytes(&self) -> &[u8]
        ensures { result.now ≡ self.now }
    {
        self.bytes.as_slice()
    }
}
