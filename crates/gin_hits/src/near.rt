// Whether lists of items that are in order have items that rise. Where one item stood is remembered, and the next one
// is sought from there on.
ghost use Rattle.std.specs.Prelude.{◌≡◌, ◌↔◌, ◌<◌, ◌≤◌, length, get_or, IsTrue};
ghost use Rattle.std.specs.List.{AllPairs};
ghost use Rattle.core_state.specs.Log.{In};
ghost use Rattle.gin_hits.specs.Inner.Near.{AreBelow};

/// This number, if all items before it are below an item, and else 0.
fn start_near(items: &[u32], near: usize, item: u32) -> usize
    requires { AllPairs (λ i j. i ≤ j) items.now }
    ensures { AreBelow items.now result item }
{
    if near > 0 && near <= items.len() && items[near - 1] < item {
        return near;
    }
    0
}

/// The number of the first item, from this one on, that isn't below an item.
fn first_from(items: &[u32], from: usize, item: u32) -> usize
    requires below { AreBelow items.now from item }
    ensures below { AreBelow items.now result item }
    ensures there { result < length items.now → item ≤ get_or items.now result 0 }
{
    let mut at = from;
    while at < items.len() && items[at] < item {
        at += 1;
    }
    at
}

/// Whether a list that is in order has the item, and near which number a greater one is then to be sought. Whatever
/// number is given, the answer is right; it takes no time where that of an item little below was.
pub(crate) fn has_near(items: &[u32], near: usize, item: u32) -> (bool, usize)
    requires { AllPairs (λ i j. i ≤ j) items.now }
    ensures { IsTrue result.0 ↔ In item items.now }
{
    let from = start_near(items, near, item);
    let at = first_from(items, from, item);
    if at < items.len() {
        return (items[at] == item, at);
    }
    (false, at)
}

/// The number that is remembered for a list; 0 where none is.
pub(crate) fn near_at(near: &[usize], list: usize) -> usize {
    match near.get(list) {
        Some(at) => *at,
        None => 0,
    }
}

/// Remembers a number for a list.
pub(crate) fn remember(near: &mut Vec<usize>, list: usize, at: usize) {
    if let Some(place) = near.get_mut(list) {
        *place = at;
    }
}
