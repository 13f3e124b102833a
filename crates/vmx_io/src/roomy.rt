//! A `Vec` that contracts see as the list of its items beside its room: how many items more it takes with no memory.
//!
//! Growth comes first: a step that must not fail half-way asks for room, and then pushes without asking.
ghost use Rattle.std.specs.Prelude.{◌≡◌, [], ◌∷◌, ◌++◌, ◌<◌, ◌≤◌, ◌-◌, ◌==◌, length, slice_index_or, OnOk, OnErr};

use std::alloc::{AllocError, Global};
use std::marker::Model;

/// Items in order, counted from 0, and room for more.
#[derive(Debug, Drop)]
pub struct Roomy<T> {
    items: Vec<T>,
}

impl<T> Model for Roomy<T> {
    ghost use Rattle.std.specs.Prelude.{List, ℕ, ◌-◌, vec_len, vec_capacity};
    ghost use Rattle.std.specs.Coded.{coded_list, coded×, coded_ℕ};

    ghost Value = { List T × ℕ };

    ghost coded = { coded× (coded_list T.code) coded_ℕ };

    ghost view = { λ list. (list.items.items, vec_capacity list.items - vec_len list.items) };
}

impl<T> Roomy<T> {
    /// No items and no room. It takes no memory.
    pub fn new(alloc: Global) -> Roomy<T>
        ensures empty { result ≡ ([], 0) }
    {
        Roomy {
            items: Vec::new(alloc),
        }
    }

    /// Makes room for so many items more.
    pub fn reserve(&mut self, more: usize) -> Result<(), AllocError>
        ensures same { self.new.0 ≡ self.old.0 }
        ensures room { self.old.1 ≤ self.new.1 }
        ensures ok { OnOk result (more ≤ self.new.1) }
        ensures err { OnErr result (self.old.1 < more) }
    {
        self.items.reserve(more)
    }

    /// Appends an item where there is room for it. It takes no memory.
    pub fn push(&mut self, item: T)
        requires room { 0 < self.old.1 }
        ensures items { self.new.0 ≡ self.old.0 ++ item ∷ [] }
        ensures room { self.new.1 ≡ self.old.1 - 1 }
    {
        self.items.push_reserved(item);
    }

    pub fn into_vec(self) -> Vec<T>
        ensures items { result.items ≡ self.0 }
    {
        let Roomy { items } = self;
        items
    }

    pub fn as_slice(&self) -> &[T]
        ensures items { result.now ≡ self.now.0 }
    {
        self.items.as_slice()
    }

    pub fn len(&self) -> usize
        ensures len { result ≡ length self.now.0 }
    {
        self.items.len()
    }

    pub fn is_empty(&self) -> bool
        ensures empty { result ≡ (length self.now.0 == 0) }
    {
        self.items.is_empty()
    }

    /// How many items more it takes with no memory.
    pub fn room(&self) -> usize
        ensures room { result ≡ self.now.1 }
    {
        self.items.capacity() - self.items.len()
    }

    /// The item at an index.
    pub fn at(&self, index: usize) -> &T
        requires within { index < length self.now.0 }
        ensures value { result.now ≡ slice_index_or self.now.0 index result.now }
    {
        &self.items[index]
    }
}
