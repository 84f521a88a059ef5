//! Items on the heap. A list that never had an item takes no heap.
ghost use Rattle.std.specs.Prelude.{◌≡◌, [], ◌∷◌, ◌++◌, OnOk, OnErr, IsSome};
ghost use Rattle.hp_control.specs.Held.{held};

use std::alloc::{AllocError, Global};

/// The items, in order.
#[inline]
pub(crate) fn as_slice<T>(items: &Option<Vec<T>>) -> &[T]
    ensures { result.now ≡ held items.now }
{
    match items {
        Some(items) => items.as_slice(),
        None => &[],
    }
}

/// Makes the `Vec`, where it hasn't been made yet. It takes no memory.
#[inline(always)]
pub(crate) fn begin<T: Drop>(alloc: Global, items: &mut Option<Vec<T>>)
    ensures made { IsSome items.new }
    ensures same { held items.new ≡ held items.old }
{
    if items.is_none() {
        *items = Some(Vec::new(alloc));
    }
}

/// Appends an item. At an `Err`, which comes only for want of memory, the items are as before and the item is dropped.
#[inline(always)]
pub(crate) fn add<T: Drop>(
    alloc: Global,
    items: &mut Option<Vec<T>>,
    item: T,
) -> Result<(), AllocError>
    ensures ok { OnOk result (held items.new ≡ held items.old ++ item ∷ []) }
    ensures err { OnErr result (held items.new ≡ held items.old) }
{
    begin(alloc, items);
    match items {
        Some(items) => match items.reserve(1) {
            Ok(()) => {
                items.push_reserved(item);
                Ok(())
            }
            Err(failed) => {
                lose(item);
                Err(failed)
            }
        },
        None => unreachable!(),
    }
}

/// Drops what there is no memory for. Out of line, so that a value on its usual way is moved as one piece.
#[inline(never)]
pub(crate) fn lose<T: Drop>(_value: T) {}
