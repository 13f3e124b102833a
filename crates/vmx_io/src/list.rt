//! A `Vec` that contracts see as the list of its items, with no capacity and no pointer.
//!
//! A struct that holds a `List` is in a clause a record that holds a list, so that `≡` compares contents. The list
//! keeps its allocator: its methods take none.
ghost use Rattle.std.specs.Prelude.{◌≡◌, ◌+◌, ◌==◌, [], ◌∷◌, ◌++◌, ◌<◌, length, slice_index_or, IfErr, MatchOption, OnOk, OnErr};
ghost use Rattle.std.specs.Borrow.{sem};

use std::alloc::{AllocError, AllocFailed, Global};
use std::marker::Model;

/// Items in order, counted from 0.
#[derive(Debug, Drop)]
pub struct List<T> {
    items: Vec<T>,
}

impl<T> Model for List<T> {
    ghost use Rattle.std.specs.Prelude.{List};
    ghost use Rattle.std.specs.Coded.{coded_list};

    ghost Value = { List T };

    ghost coded = { coded_list T.code };

    ghost view = { λ list. list.items.items };
}

impl<T> List<T> {
    ghost use Rattle.vmx_io.specs.Lends.{lends_item};

    /// The list of no items. It takes no memory.
    pub fn new(alloc: Global) -> List<T>
        ensures empty { result ≡ [] }
    {
        List {
            items: Vec::new(alloc),
        }
    }

    /// The items of the vector, which it keeps. It takes no memory.
    pub fn of(items: Vec<T>) -> List<T>
        ensures items { result ≡ items.items }
    {
        List { items }
    }

    pub fn into_vec(self) -> Vec<T>
        ensures items { result.items ≡ self }
    {
        let List { items } = self;
        items
    }

    pub fn as_slice(&self) -> &[T]
        ensures items { result.now ≡ self.now }
    {
        self.items.as_slice()
    }

    pub fn len(&self) -> usize
        ensures len { result ≡ length self.now }
    {
        self.items.len()
    }

    pub fn is_empty(&self) -> bool
        ensures empty { result ≡ (length self.now == 0) }
    {
        self.items.is_empty()
    }

    /// The item at an index.
    pub fn at(&self, index: usize) -> &T
        requires within { index < length self.now }
        ensures value { result.now ≡ slice_index_or self.now index result.now }
    {
        &self.items[index]
    }

    /// Lends the item at an index: the list then has there what was last written, and all other items as before.
    pub fn at_mut(&mut self, index: usize) -> &mut T
        requires within { index < length self.old }
        ensures* writes_back { sem 𝓛 (lends_item T.row self.entry index result) }
        ensures value { result.now ≡ slice_index_or self.old index result.now }
    {
        &mut self.items[index]
    }

    /// Appends an item. For want of memory it gives the item back.
    pub fn push(&mut self, item: T) -> Result<(), AllocFailed<T>>
        ensures ok { OnOk result (self.new ≡ self.old ++ item ∷ []) }
        ensures err { OnErr result (self.new ≡ self.old) }
        ensures returned { IfErr result (λ e. e.value ≡ item) }
    {
        self.items.push(item)
    }

    /// Takes the last item out.
    pub fn pop(&mut self) -> Option<T>
        ensures last { MatchOption result ((self.old ≡ []) × (self.new ≡ [])) (λ item. self.old ≡ self.new ++ item ∷ []) }
    {
        self.items.pop()
    }

    /// Takes the first item out, in time that grows with the list.
    pub fn pop_first(&mut self) -> Option<T>
    where
        T: Drop,
        ensures first { MatchOption result ((self.old ≡ []) × (self.new ≡ [])) (λ item. self.old ≡ item ∷ self.new) }
    {
        if self.items.is_empty() {
            return None;
        }
        Some(self.items.remove(0))
    }

    /// Asks for room for so many items more.
    pub fn reserve(&mut self, more: usize) -> Result<(), AllocError>
        ensures same { self.new ≡ self.old }
    {
        self.items.reserve(more)
    }
}
