// A search among the keys of a leaf, or the bounds of an inner page.
ghost use Rattle.std.specs.Prelude.{◌≡◌, ◌↔◌, ◌<◌, length, IsTrue, Some};
ghost use Rattle.std.specs.List.{slice_get};
ghost use Rattle.page_types.specs.Keys.{BoundLess, Rising};
ghost use Rattle.entry_tree.specs.Finding.{IsBelow};
ghost use Rattle.entry_tree.specs.Inner.Searching.{marks_shown, IsBetween};

use gin_opclass::{CompareKeys, Judge, Meaning, OpClass};
use page_types::{Entries, EntryChildren};

/// The keys of a leaf's entries, or the bounds of an inner page's children, by reference.
#[derive(Clone, Copy)]
pub(crate) enum Marks<'a> {
    /// The keys of these entries.
    Keys(&'a Entries),
    /// The bounds of these children.
    Bounds(&'a EntryChildren),
}

/// How many there are.
fn count(marks: Marks<'_>) -> usize
    ensures { result ≡ length (marks_shown marks.entry) }
{
    match marks {
        Marks::Keys(entries) => entries.len(),
        Marks::Bounds(children) => children.len(),
    }
}

/// The one with this number.
fn mark_at<'a>(marks: Marks<'a>, k: usize) -> &'a [u8]
    requires { k < length (marks_shown marks) }
    ensures { slice_get (marks_shown marks.entry) k ≡ Some result.now }
{
    match marks {
        Marks::Keys(entries) => match entries.get(k) {
            Some(entry) => entry.key,
            None => &[],
        },
        Marks::Bounds(children) => match children.get(k) {
            Some(child) => child.bound,
            None => &[],
        },
    }
}

/// Whether a bound is there and below a key.
pub(crate) fn is_below<Q, W: Meaning<Q>, C: CompareKeys, J: Judge<Q, W>>(
    class: &OpClass<Q, W, C, J>,
    bound: &[u8],
    key: &[u8],
) -> bool
    ensures { IsTrue result ↔ IsBelow bound.now key.now }
{
    !bound.is_empty() && class.compare(bound, key).is_lt()
}

/// How many of them are below a key. They rise.
pub(crate) fn below<Q, W: Meaning<Q>, C: CompareKeys, J: Judge<Q, W>>(
    marks: Marks<'_>,
    class: &OpClass<Q, W, C, J>,
    key: &[u8],
) -> usize
    requires { Rising BoundLess (marks_shown marks) }
    ensures { IsBetween key.now (marks_shown marks.entry) result result }
{
    let mut low = 0;
    let mut high = count(marks);
    while low < high {
        let middle = low + (high - low) / 2;
        if is_below(class, mark_at(marks, middle), key) {
            low = middle + 1;
        } else {
            high = middle;
        }
    }
    low
}
