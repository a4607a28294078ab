// A place in an item list, and the way from it to the next items.
ghost use Rattle.std.specs.Prelude.{◌≤◌, ◌↔◌, IsTrue};
ghost use Rattle.std.specs.List.{AllByRecursion, Contains};
ghost use Rattle.posting_code.specs.Inner.Places.{IsListAfter, Passes, items_left};

use page_types::next_item;

/// A place in a list: the item before it, or 0, and the bytes after it.
#[derive(Clone, Copy, Debug)]
pub(crate) struct Place<'a> {
    /// The item before it, or 0.
    pub(crate) last: u32,
    /// The bytes after it.
    pub(crate) rest: &'a [u8],
}

/// The place before the first item from the place on that is not below a bound.
pub(crate) fn skip_below<'a>(place: Place<'a>, bound: u32) -> Place<'a>
    requires { IsListAfter place.last place.rest.now }
    ensures { Passes bound place.entry.last place.entry.rest.now
        result.last result.rest.now }
{
    let mut last = place.last;
    let mut rest = place.rest;
    while let Ok((item, after)) = next_item(last, rest) {
        if item >= bound {
            return Place { last, rest };
        }
        last = item;
        rest = after;
    }
    Place { last, rest }
}

/// Whether an item is at a place before which all items of the list are below it.
pub(crate) fn stands_here(place: Place<'_>, item: u32) -> bool
    requires list { IsListAfter place.last place.rest.now }
    requires above { AllByRecursion (λ i. item ≤ i) (items_left place.last place.rest.now) }
    ensures { IsTrue result
        ↔ Contains (items_left place.entry.last place.entry.rest.now) item }
{
    match next_item(place.last, place.rest) {
        Ok((here, _)) => here == item,
        Err(_) => false,
    }
}
