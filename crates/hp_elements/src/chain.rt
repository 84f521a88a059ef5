//! A list whose cells are linked, so that lists are joined and cells are moved without memory.
ghost use Rattle.std.specs.Prelude.{◌≡◌, ◌+◌, ◌-◌, ◌^◌, ◌<◌, ◌==◌, ◌↔◌, [], ◌∷◌, ◌++◌, length, take, drop, slice_set, slice_index_or, OnOk, OnErr, IfErr, IsSome, IfSome, MatchOption};

use std::alloc::{AllocFailed, Global};
use std::collections::LinkedList;
use std::collections::linked_list::Iter;
use std::marker::Model;
use std::mem;

/// A list of linked cells. An empty one that nothing was pushed to has no allocator.
pub struct Chain<T> {
    cells: Option<LinkedList<T>>,
}

impl<T: Drop> Drop for Chain<T> {
    #[inline(always)]
    fn drop(self) {
        let Chain { cells: _ } = self;
    }
}

impl<T> Model for Chain<T> {
    ghost use Rattle.std.specs.Prelude.{List};

    ghost Value = { List T };

    ghost use Rattle.hp_elements.specs.Lists.{chained};

    ghost view = { λ c. chained c.cells };
}

impl<T> Chain<T> {
    /// A chain without items.
    #[inline]
    pub fn new() -> Chain<T>
        ensures { result ≡ [] }
    {
        Chain { cells: None }
    }

    /// The number of items.
    #[inline]
    pub fn len(&self) -> usize
        ensures value { result ≡ length self.now }
        ensures fits { result < 2 ^ 63 }
    {
        match &self.cells {
            None => 0,
            Some(cells) => cells.len(),
        }
    }

    /// Whether there is no item.
    #[inline]
    pub fn is_empty(&self) -> bool
        ensures { result ≡ (length self.now == 0) }
    {
        self.len() == 0
    }

    /// The first item; `None` where there is none.
    pub fn first(&self) -> Option<&T>
        ensures some { IsSome result ↔ (0 < length self.now) }
        ensures value { IfSome result (λ item. item.now ≡ slice_index_or self.now 0 item.now) }
    {
        match &self.cells {
            None => None,
            Some(cells) => cells.front(),
        }
    }

    /// Goes over the items, in order.
    #[inline]
    pub fn iter(&self) -> ChainIter<'_, T>
        ensures { result ≡ self.now }
    {
        ChainIter {
            rest: match &self.cells {
                None => None,
                Some(cells) => Some(cells.iter()),
            },
        }
    }
}

impl<T: Drop> Chain<T> {
    /// Appends an item. At an `Err`, which comes only for want of memory, the chain is as before and the item comes back.
    #[inline]
    pub fn push(&mut self, alloc: Global, item: T) -> Result<(), AllocFailed<T>>
        ensures ok { OnOk result (self.new ≡ self.old ++ item ∷ []) }
        ensures err { OnErr result (self.new ≡ self.old) }
        ensures returned { IfErr result (λ failed. failed.value ≡ item) }
    {
        if self.cells.is_none() {
            self.cells = Some(LinkedList::new(alloc));
        }
        match &mut self.cells {
            Some(cells) => cells.push_back(item),
            None => unreachable!(),
        }
    }

    /// Appends the cells of another chain. It takes no memory.
    pub fn append(&mut self, other: Chain<T>)
        requires { length self.old + length other < 2 ^ 63 }
        ensures { self.new ≡ self.old ++ other }
    {
        let Chain { cells } = other;
        match cells {
            None => {}
            Some(mut more) => match &mut self.cells {
                None => self.cells = Some(more),
                Some(cells) => match cells.append(&mut more) {
                    Ok(()) => {}
                    Err(_) => unreachable!(),
                },
            },
        }
    }

    /// Puts an item in the place of the first one, and gives that one back.
    pub fn replace_first(&mut self, item: T) -> T
        requires { 0 < length self.old }
        ensures value { result ≡ slice_index_or self.old 0 result }
        ensures items { self.new ≡ slice_set self.old 0 item }
    {
        match &mut self.cells {
            None => unreachable!(),
            Some(cells) => mem::replace(cells.front_mut().unwrap(), item),
        }
    }

    /// Puts an item in the place of the last one, and gives that one back.
    pub fn replace_last(&mut self, item: T) -> T
        requires { 0 < length self.old }
        ensures value { result ≡ slice_index_or self.old (length self.old - 1) result }
        ensures items { self.new ≡ slice_set self.old (length self.old - 1) item }
    {
        match &mut self.cells {
            None => unreachable!(),
            Some(cells) => mem::replace(cells.back_mut().unwrap(), item),
        }
    }

    /// Puts an item in the place of the first one.
    pub fn set_first(&mut self, item: T)
        requires { 0 < length self.old }
        ensures { self.new ≡ slice_set self.old 0 item }
    {
        let _ = self.replace_first(item);
    }

    /// Takes the first item off; `None` where there is none.
    pub fn pop_front(&mut self) -> Option<T>
        ensures { MatchOption result ((self.old ≡ []) × (self.new ≡ [])) (λ item. self.old ≡ item ∷ self.new) }
    {
        match &mut self.cells {
            None => None,
            Some(cells) => cells.pop_front(),
        }
    }

    /// Takes the first cell off, as a chain of that item alone. It takes no memory.
    pub fn take_first(&mut self) -> Chain<T>
        requires { 0 < length self.old }
        ensures first { result ≡ take 1 self.old }
        ensures rest { self.new ≡ drop 1 self.old }
    {
        match &mut self.cells {
            None => unreachable!(),
            Some(cells) => match cells.split_off(1) {
                Ok(rest) => Chain {
                    cells: Some(mem::replace(cells, rest)),
                },
                Err(_) => unreachable!(),
            },
        }
    }

    /// Takes all cells, and leaves an empty chain.
    pub fn take_all(&mut self) -> Chain<T>
        ensures all { result ≡ self.old }
        ensures rest { self.new ≡ [] }
    {
        Chain {
            cells: self.cells.take(),
        }
    }
}

/// Goes over the items of a chain.
#[derive(Drop)]
pub struct ChainIter<'a, T> {
    rest: Option<Iter<'a, T>>,
}

impl<'a, T> Model for ChainIter<'a, T> {
    ghost use Rattle.std.specs.Prelude.{List};

    ghost Value = { List T };

    ghost use Rattle.hp_elements.specs.Lists.{chained};

    ghost view = { λ i. chained i.rest };
}

impl<'a, T> Iterator for ChainIter<'a, T> {
    type Item = &'a T;

    ghost use Rattle.std.specs.Iterator.{YieldsFirstRef, item_count};

    ghost next_gives = { YieldsFirstRef (λ rest. rest) };

    ghost remaining = { item_count (λ rest. rest) };

    fn next(&mut self) -> Option<&'a T> {
        match &mut self.rest {
            None => None,
            Some(rest) => rest.next(),
        }
    }
}
