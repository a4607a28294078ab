// Where a key is sought.
ghost use Rattle.std.specs.Prelude.{◌≡◌, ◌↔◌, IsTrue, Some};
ghost use Rattle.std.specs.List.{slice_get};
ghost use Rattle.page_types.specs.Pages.{IsPage, AreEntries, AreEntryChildren};
ghost use Rattle.page_types.specs.declared.page.Entry.{Entry};
ghost use Rattle.page_types.specs.declared.page.Body.TheVariants as body;
ghost use Rattle.entry_tree.specs.Finding.{IsEntryBody, IsFound, IsFoundIn};

use crate::searching::{Marks, below, is_below};
use gin_opclass::{CompareKeys, Judge, Meaning, OpClass};
use page_types::{Body, Entries, EntryChildren, Page};

/// What is found of a key on a page.
#[derive(Clone, Copy, Debug, PartialEq, Eq)]
pub enum Found {
    /// The entry with this number has the key.
    Here { place: usize },
    /// No entry has the key: those before this number are less, the others greater.
    Absent { place: usize },
    /// The key is sought below this child.
    Down { child: u32 },
    /// The key is above all that may be here, and is sought on this page, the right link.
    Right { page: u32 },
}

/// Whether the entry with this number has the key.
fn has_key(entries: &Entries, k: usize, key: &[u8]) -> bool
    ensures { IsTrue result
        ↔ ((e : Entry) × (slice_get entries.now k ≡ Some e) × (e.key ≡ key.now)) }
{
    match entries.get(k) {
        Some(entry) => entry.key == key,
        None => false,
    }
}

/// What is found of a key on a leaf.
fn find_entry<Q, W: Meaning<Q>, C: CompareKeys, J: Judge<Q, W>>(
    right: u32,
    high: &[u8],
    entries: &Entries,
    class: &OpClass<Q, W, C, J>,
    key: &[u8],
) -> Found
    requires { AreEntries entries.now }
    ensures { IsFoundIn right (body.EntryLeaf high.now entries.now) key.now result }
{
    if is_below(class, high, key) {
        return Found::Right { page: right };
    }
    let place = below(Marks::Keys(entries), class, key);
    if has_key(entries, place, key) {
        Found::Here { place }
    } else {
        Found::Absent { place }
    }
}

/// What is found of a key on an inner page.
fn find_child<Q, W: Meaning<Q>, C: CompareKeys, J: Judge<Q, W>>(
    right: u32,
    children: &EntryChildren,
    class: &OpClass<Q, W, C, J>,
    key: &[u8],
) -> Found
    requires { AreEntryChildren right children.now }
    ensures { IsFoundIn right (body.EntryInner children.now) key.now result }
{
    let place = below(Marks::Bounds(children), class, key);
    match children.get(place) {
        Some(child) => Found::Down { child: child.page },
        None => Found::Right { page: right },
    }
}

/// What is found of a key on a page of the entry tree. It takes no memory.
pub fn find<Q, W: Meaning<Q>, C: CompareKeys, J: Judge<Q, W>>(
    page: &Page,
    class: &OpClass<Q, W, C, J>,
    key: &[u8],
) -> Found
    requires encoded { IsPage page.now }
    requires entries { IsEntryBody page.now.body }
    ensures { IsFound page.now key.now result }
{
    match &page.body {
        Body::EntryLeaf { high, entries } => {
            find_entry(page.right, high.as_slice(), entries, class, key)
        }
        Body::EntryInner(children) => find_child(page.right, children, class, key),
        _ => Found::Right { page: page.right },
    }
}
