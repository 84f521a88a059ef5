//! A list whose first item stands in the list itself.
ghost use Rattle.std.specs.Prelude.{◌≡◌, ◌-◌, ◌==◌, [], ◌∷◌, ◌++◌, length, slice_get, OnOk, OnErr, IfErr, MatchOption};
ghost use Rattle.std.specs.Option.{option_copied};

use std::alloc::{AllocFailed, Global};
use std::marker::Model;
use std::mem;
use std::vec::IntoIter;

/// Where the items of a list stand.
#[derive(Drop)]
enum Items<T> {
    Empty,
    One([T; 1]),
    Many(Vec<T>),
}

/// A list of items. A list of none or one takes no heap.
#[derive(Drop)]
pub struct List<T> {
    items: Items<T>,
}

impl<T> Model for List<T> {
    ghost use Rattle.std.specs.Prelude.{List};

    ghost Value = { List T };

    ghost use Rattle.hp_elements.specs.Lists.{listed};

    ghost view = { λ l. listed l.items };
}

impl<T> List<T> {
    /// A list without items.
    #[inline]
    pub fn new() -> List<T>
        ensures { result ≡ [] }
    {
        List {
            items: Items::Empty,
        }
    }

    /// A list of one item.
    #[inline]
    pub fn of_one(item: T) -> List<T>
        ensures { result ≡ item ∷ [] }
    {
        List {
            items: Items::One([item]),
        }
    }

    /// The items, in order.
    #[inline]
    pub fn as_slice(&self) -> &[T]
        ensures { result.now ≡ self.now }
    {
        match &self.items {
            Items::Empty => &[],
            Items::One(items) => &items[..],
            Items::Many(items) => items.as_slice(),
        }
    }

    /// The number of items.
    #[inline]
    pub fn len(&self) -> usize
        ensures { result ≡ length self.now }
    {
        self.as_slice().len()
    }

    /// Whether there is no item.
    #[inline]
    pub fn is_empty(&self) -> bool
        ensures { result ≡ (length self.now == 0) }
    {
        self.as_slice().is_empty()
    }

    /// The last item; `None` where there is none.
    #[inline]
    pub fn last(&self) -> Option<&T>
        ensures { option_copied result ≡ slice_get self.now (length self.now - 1) }
    {
        self.as_slice().last()
    }
}

impl<T: Drop> List<T> {
    /// Appends an item. At an `Err`, which comes only for want of memory, the list is as before and the item comes back.
    #[inline(always)]
    pub fn push(&mut self, alloc: Global, item: T) -> Result<(), AllocFailed<T>>
        ensures ok { OnOk result (self.new ≡ self.old ++ item ∷ []) }
        ensures err { OnErr result (self.new ≡ self.old) }
        ensures returned { IfErr result (λ failed. failed.value ≡ item) }
    {
        match &mut self.items {
            Items::Many(items) => items.push(item),
            Items::Empty => {
                self.items = Items::One([item]);
                Ok(())
            }
            Items::One(_) => self.push_second(alloc, item),
        }
    }

    /// The same where the list has one item: the two go to the heap.
    #[inline(never)]
    fn push_second(&mut self, alloc: Global, item: T) -> Result<(), AllocFailed<T>>
        ensures ok { OnOk result (self.new ≡ self.old ++ item ∷ []) }
        ensures err { OnErr result (self.new ≡ self.old) }
        ensures returned { IfErr result (λ failed. failed.value ≡ item) }
    {
        let items = mem::replace(&mut self.items, Items::Empty);
        let (items, answer) = pushed(alloc, items, item);
        self.items = items;
        answer
    }

    /// Takes the last item off the list; `None` where there is none.
    pub fn pop(&mut self) -> Option<T>
        ensures { MatchOption result ((self.old ≡ []) × (self.new ≡ [])) (λ item. self.old ≡ self.new ++ item ∷ []) }
    {
        if let Items::Many(items) = &mut self.items {
            return items.pop();
        }
        let items = mem::replace(&mut self.items, Items::Empty);
        let (items, last) = popped(items);
        self.items = items;
        last
    }
}

ghost use Rattle.hp_elements.specs.Lists.{listed, left_of};

/// The items with one more behind them; where there is no memory, the items as they are, and the item.
fn pushed<T: Drop>(
    alloc: Global,
    items: Items<T>,
    item: T,
) -> (Items<T>, Result<(), AllocFailed<T>>)
    ensures ok { OnOk result.1 (listed result.0 ≡ listed items ++ item ∷ []) }
    ensures err { OnErr result.1 (listed result.0 ≡ listed items) }
    ensures returned { IfErr result.1 (λ failed. failed.value ≡ item) }
{
    match items {
        Items::Empty => (Items::One([item]), Ok(())),
        Items::One([first]) => two(alloc, first, item),
        Items::Many(mut items) => {
            let answer = items.push(item);
            (Items::Many(items), answer)
        }
    }
}

/// A first item and a second one; where there is no memory, the first alone, and the second.
fn two<T: Drop>(alloc: Global, first: T, second: T) -> (Items<T>, Result<(), AllocFailed<T>>)
    ensures ok { OnOk result.1 (listed result.0 ≡ first ∷ second ∷ []) }
    ensures err { OnErr result.1 (listed result.0 ≡ first ∷ []) }
    ensures returned { IfErr result.1 (λ failed. failed.value ≡ second) }
{
    let mut items = Vec::new(alloc);
    match items.push(first) {
        Err(failed) => {
            (
                Items::One([failed.value]),
                Err(AllocFailed { value: second }),
            )
        }
        Ok(()) => {
            let answer = items.push(second);
            (Items::Many(items), answer)
        }
    }
}

/// The items without the last one, and that one.
fn popped<T: Drop>(items: Items<T>) -> (Items<T>, Option<T>)
    ensures { MatchOption result.1 ((listed items ≡ []) × (listed result.0 ≡ [])) (λ item. listed items ≡ listed result.0 ++ item ∷ []) }
{
    match items {
        Items::Empty => (Items::Empty, None),
        Items::One([item]) => (Items::Empty, Some(item)),
        Items::Many(mut items) => {
            let last = items.pop();
            (Items::Many(items), last)
        }
    }
}

/// The items of a list that are still to come.
#[derive(Drop)]
enum Left<T> {
    One(Option<T>),
    Many(IntoIter<T>),
}

/// Takes the items of a list, in order.
#[derive(Drop)]
pub struct ListIntoIter<T> {
    left: Left<T>,
}

impl<T> Model for ListIntoIter<T> {
    ghost use Rattle.std.specs.Prelude.{List};

    ghost Value = { List T };

    ghost use Rattle.hp_elements.specs.Lists.{left_of};

    ghost view = { λ i. left_of i.left };
}

impl<T: Drop> Iterator for ListIntoIter<T> {
    type Item = T;

    ghost use Rattle.std.specs.Iterator.{YieldsFirst, item_count};

    ghost next_gives = { YieldsFirst (λ rest. rest) };

    ghost remaining = { item_count (λ rest. rest) };

    fn next(&mut self) -> Option<T> {
        match &mut self.left {
            Left::One(item) => item.take(),
            Left::Many(items) => items.next(),
        }
    }
}

impl<T: Drop> IntoIterator for List<T> {
    type Item = T;

    type IntoIter = ListIntoIter<T>;

    ghost into_iter_gives = { λ list items. items ≡ list };

    fn into_iter(self) -> ListIntoIter<T> {
        let List { items } = self;
        ListIntoIter {
            left: all_left(items),
        }
    }
}

/// Some items, all still to come.
fn all_left<T: Drop>(items: Items<T>) -> Left<T>
    ensures { left_of result ≡ listed items }
{
    match items {
        Items::Empty => Left::One(None),
        Items::One([item]) => Left::One(Some(item)),
        Items::Many(items) => Left::Many(items.into_iter()),
    }
}
