// Lists of more items.
ghost use Rattle.std.specs.Prelude.{◌≡◌, ◌+◌, ◌↔◌, ◌++◌, ◌^◌, ◌<◌, ◌≤◌, ℕ, List, take, length, OnOk, OnErr, IsTrue};
ghost use Rattle.std.specs.List.{AllByRecursion, Contains};
ghost use Rattle.page_types.specs.Items.{varbyte, items_of, item_list_from, AreItems, AreItemsFrom, IsItemList};
ghost use Rattle.posting_code.specs.Uniting.{IsUnited, TakesFirst};
ghost use Rattle.posting_code.specs.Inner.Places.{IsListAfter, items_left, TakesItem};

use crate::walking::{Place, skip_below, stands_here};
use crate::writing::{put_varbyte, varbyte_size};
use page_types::next_item;
use std::alloc::AllocError;

/// Whether some item is not in a list. It takes no memory.
pub fn lacks(list: &[u8], items: &[u32]) -> bool
    requires list { IsItemList list.now }
    requires items { AreItems items.now }
    ensures { IsTrue result ↔ ((i : ℕ) × Contains items.now i × (Contains (items_of list.now) i → ⊥)) }
{
    let mut place = Place {
        last: 0,
        rest: list,
    };
    for item in items {
        place = skip_below(place, *item);
        if !stands_here(place, *item) {
            return true;
        }
    }
    false
}

/// Appends the list of items that come after the item `last`, where the bytes are their list after another one.
/// Without memory some of its bytes may be there.
fn put_run(before: u32, run: &[u8], last: u32, out: &mut Vec<u8>) -> Result<(), AllocError>
    requires run { IsListAfter before run.now }
    requires above { AreItemsFrom last (items_left before run.now) }
    ensures ok { OnOk result (out.new.items
        ≡ out.old.items ++ item_list_from last (items_left before run.now)) }
    ensures front { take (length out.old.items) out.new.items ≡ out.old.items }
{
    match next_item(before, run) {
        Ok((first, after)) => {
            put_varbyte(first - last, out)?;
            out.extend_from_slice(after)?;
            Ok(())
        }
        Err(_) => Ok(()),
    }
}

/// Appends the list of both. Without memory some of its bytes may be there.
fn put_merged(list: &[u8], items: &[u32], out: &mut Vec<u8>) -> Result<(), AllocError>
    requires list { IsItemList list.now }
    requires items { AreItems items.now }
    ensures ok { OnOk result ((bytes : List ℕ) × (out.new.items ≡ out.old.items ++ bytes)
        × IsUnited list.now items.now bytes) }
    ensures front { take (length out.old.items) out.new.items ≡ out.old.items }
{
    let mut place = Place {
        last: 0,
        rest: list,
    };
    let mut last = 0;
    for item in items {
        let next = skip_below(place, *item);
        let run = &place.rest[..place.rest.len() - next.rest.len()];
        put_run(place.last, run, last, out)?;
        last = last.max(next.last);
        place = next;
        if !stands_here(place, *item) {
            put_varbyte(*item - last, out)?;
            last = *item;
        }
    }
    put_run(place.last, place.rest, last, out)?;
    Ok(())
}

/// Appends the list of a list's items and of others. Without memory nothing is appended.
///
/// What lies between two of the new items is copied as it is.
pub fn merge(list: &[u8], items: &[u32], out: &mut Vec<u8>) -> Result<(), AllocError>
    requires list { IsItemList list.now }
    requires items { AreItems items.now }
    ensures ok { OnOk result ((bytes : List ℕ) × (out.new.items ≡ out.old.items ++ bytes)
        × IsUnited list.now items.now bytes) }
    ensures err { OnErr result (out.new.items ≡ out.old.items) }
{
    let before = out.len();
    match put_merged(list, items, out) {
        Ok(()) => Ok(()),
        Err(e) => {
            out.truncate(before);
            Err(e)
        }
    }
}

/// How many bytes the list of items has that come after the item `last`, where the bytes are their list after another
/// one.
fn run_size(before: u32, run: &[u8], last: u32) -> usize
    requires run { IsListAfter before run.now }
    requires above { AreItemsFrom last (items_left before run.now) }
    ensures { result ≡ length (item_list_from last (items_left before run.now)) }
{
    match next_item(before, run) {
        Ok((first, after)) => varbyte_size(first - last) + after.len(),
        Err(_) => 0,
    }
}

/// What the items of a list and others come to, up to a place in the list.
#[derive(Clone, Copy, Debug)]
struct Taken {
    /// The last item of both, or 0.
    last: u32,
    /// How many bytes their list has.
    size: usize,
}

/// The same with an item more, which is taken where it is not in the list.
fn with_item(place: Place<'_>, taken: Taken, item: u32) -> Taken
    requires list { IsListAfter place.last place.rest.now }
    requires above { AllByRecursion (λ i. item ≤ i) (items_left place.last place.rest.now) }
    requires rises { taken.last < item }
    requires item { item < 2 ^ 31 }
    requires size { taken.size < 2 ^ 63 }
    ensures { TakesItem (items_left place.entry.last place.entry.rest.now) item
        taken.last taken.size result.last result.size }
{
    if stands_here(place, item) {
        return taken;
    }
    Taken {
        last: item,
        size: taken.size + varbyte_size(item - taken.last),
    }
}

/// How many of these items, the first of them, a list takes within so many bytes; none where it has more already. It
/// takes no memory.
pub fn fitting(list: &[u8], items: &[u32], most: usize) -> usize
    requires list { IsItemList list.now }
    requires items { AreItems items.now }
    ensures { TakesFirst list.now items.now most result }
{
    let mut place = Place {
        last: 0,
        rest: list,
    };
    let mut taken = Taken { last: 0, size: 0 };
    for (k, item) in items.iter().enumerate() {
        let next = skip_below(place, *item);
        let run = &place.rest[..place.rest.len() - next.rest.len()];
        let size = taken.size + run_size(place.last, run, taken.last);
        let last = taken.last.max(next.last);
        taken = with_item(next, Taken { last, size }, *item);
        place = next;
        if taken.size + run_size(place.last, place.rest, taken.last) > most {
            return k;
        }
    }
    items.len()
}
