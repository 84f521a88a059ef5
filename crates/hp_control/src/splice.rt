//! Items put into a stack's middle, in the place of others, and taken off.
ghost use Rattle.std.specs.Prelude.{◌≡◌, ◌<◌, ◌≤◌, [], ◌∷◌, length, slice_set, slice_index_or, OnOk, OnErr, MatchOption};
ghost use Rattle.hp_control.specs.Adoption.{spliced};

use crate::items::begin;
use crate::stack::Stack;
use hp_elements::NoMemory;
use std::alloc::Global;
use std::mem;

impl<T: Drop> Stack<T> {
    /// Takes the top item off; `None` where there is none.
    #[inline(always)]
    pub fn pop(&mut self) -> Option<T>
        ensures { MatchOption result ((self.old ≡ []) × (self.new ≡ [])) (λ item. self.old ≡ item ∷ self.new) }
    {
        match &mut self.items {
            Some(items) => items.pop(),
            None => None,
        }
    }

    /// Puts an item in the place of the one at a depth, and gives that one back.
    pub fn replace(&mut self, depth: usize, item: T) -> T
        requires { depth < length self.old }
        ensures value { result ≡ slice_index_or self.old depth result }
        ensures items { self.new ≡ slice_set self.old depth item }
    {
        let place = self.len() - 1 - depth;
        match &mut self.items {
            Some(items) => mem::replace(&mut items[place], item),
            None => unreachable!(),
        }
    }

    /// Puts an item in below the top `depth` ones. At an `Err`, which comes only for want of memory, the stack is as before and the
    /// item is dropped.
    pub fn insert_at(&mut self, alloc: Global, depth: usize, item: T) -> Result<(), NoMemory>
        requires { depth ≤ length self.old }
        ensures ok { OnOk result (self.new ≡ spliced depth 0 (item ∷ []) self.old) }
        ensures err { OnErr result (self.new ≡ self.old) }
    {
        let place = self.len() - depth;
        begin(alloc, &mut self.items);
        match &mut self.items {
            Some(items) => {
                items.insert(place, item)?;
                Ok(())
            }
            None => unreachable!(),
        }
    }
}
