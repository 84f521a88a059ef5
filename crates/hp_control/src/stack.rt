//! Stacks, which contracts see as lists with their top first.
ghost use Rattle.std.specs.Prelude.{◌≡◌, ◌+◌, ◌-◌, ◌<◌, ◌≤◌, ◌==◌, [], ◌∷◌, ◌++◌, length, take, drop, OnOk, OnErr, IfErr, slice_index_or, vec_len};

use crate::items::{add, as_slice, begin};
use hp_elements::NoMemory;
use std::alloc::{AllocFailed, Global};
use std::marker::Model;

/// A list whose end is its top, as the stack of open elements and the list of formatting elements are. A contract sees
/// its items with the top first. One that never had an item takes no heap.
pub struct Stack<T> {
    pub(crate) items: Option<Vec<T>>,
}

impl<T: Drop> Drop for Stack<T> {
    #[inline(always)]
    fn drop(self) {
        let Stack { items: _ } = self;
    }
}

impl<T> Model for Stack<T> {
    ghost use Rattle.std.specs.Prelude.{List, reverse};

    ghost Value = { List T };

    ghost use Rattle.hp_control.specs.Held.{held};

    ghost view = { λ s. reverse (held s.items) };
}

impl<T> Stack<T> {
    /// A stack without items.
    pub fn new() -> Stack<T>
        ensures { result ≡ [] }
    {
        Stack { items: None }
    }

    /// The number of items.
    pub fn len(&self) -> usize
        ensures { result ≡ length self.now }
    {
        as_slice(&self.items).len()
    }

    /// Whether there is no item.
    pub fn is_empty(&self) -> bool
        ensures { result ≡ (length self.now == 0) }
    {
        self.len() == 0
    }

    /// The item at a depth; the top is at 0.
    pub fn at(&self, depth: usize) -> &T
        requires { depth < length self.now }
        ensures { result.now ≡ slice_index_or self.now depth result.now }
    {
        let items = as_slice(&self.items);
        &items[items.len() - 1 - depth]
    }
}

impl<T: Drop> Stack<T> {
    /// Puts an item on top. At an `Err`, which comes only for want of memory, the stack is as before and the item comes back.
    pub fn push(&mut self, alloc: Global, item: T) -> Result<(), AllocFailed<T>>
        ensures ok { OnOk result (self.new ≡ item ∷ self.old) }
        ensures err { OnErr result (self.new ≡ self.old) }
        ensures returned { IfErr result (λ failed. failed.value ≡ item) }
    {
        begin(alloc, &mut self.items);
        match &mut self.items {
            Some(items) => items.push(item),
            None => unreachable!(),
        }
    }

    /// The same, but an item for which there is no memory is dropped.
    #[inline(always)]
    pub fn add(&mut self, alloc: Global, item: T) -> Result<(), NoMemory>
        ensures ok { OnOk result (self.new ≡ item ∷ self.old) }
        ensures err { OnErr result (self.new ≡ self.old) }
    {
        add(alloc, &mut self.items, item)
    }

    /// Takes the top `count` items off.
    #[inline(always)]
    pub fn drop_top(&mut self, count: usize)
        requires { count ≤ length self.old }
        ensures { self.new ≡ drop count self.old }
    {
        match count {
            0 => {}
            1 => {
                let _ = self.pop();
            }
            _ => self.drop_many(count),
        }
    }

    /// Takes the top `count` items off, one by one.
    #[inline(never)]
    fn drop_many(&mut self, count: usize)
        requires { count ≤ length self.old }
        ensures { self.new ≡ drop count self.old }
    {
        let rest = self.len() - count;
        let Some(items) = &mut self.items else {
            return;
        };
        items.truncate(rest);
    }

    /// Takes the item at a depth out; the top is at 0.
    pub fn take_out(&mut self, depth: usize)
        requires { depth < length self.old }
        ensures { self.new ≡ take depth self.old ++ drop (depth + 1) self.old }
    {
        if depth == 0 {
            return self.drop_top(1);
        }
        let at = self.len() - 1 - depth;
        match &mut self.items {
            Some(items) => {
                let _ = items.remove(at);
            }
            None => unreachable!(),
        }
    }

    /// Takes so many items from a depth on out; the top is at 0. It takes no memory.
    pub fn take_out_many(&mut self, depth: usize, count: usize)
        requires { depth + count ≤ length self.old }
        ensures { self.new ≡ take depth self.old ++ drop (depth + count) self.old }
    {
        let rest = self.len() - count;
        let Some(items) = &mut self.items else {
            return;
        };
        cut_out(items, rest - depth, count);
    }
}

/// Takes so many items from a place on out.
fn cut_out<T: Drop>(items: &mut Vec<T>, from: usize, count: usize)
    requires { from + count ≤ vec_len items.old }
    ensures { items.new.items ≡ take from items.old.items ++ drop (from + count) items.old.items }
{
    drop(items.drain(from..from + count));
}
