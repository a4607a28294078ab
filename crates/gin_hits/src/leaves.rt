// What is sought on pages of the tree.
ghost use Rattle.std.specs.Prelude.{◌≡◌, ◌↔◌, ◌||◌, ℕ, ◌+◌, ◌<◌, ◌≤◌, [], length, map, true, slice_range, IsTrue};
ghost use Rattle.std.specs.List.{slice_get};
ghost use Rattle.page_types.specs.Keys.{KeyLess};
ghost use Rattle.page_types.specs.Pages.{IsPage, AreEntries};
ghost use Rattle.page_types.specs.declared.page.Entry.{Entry};
ghost use Rattle.core_moments.specs.Walk as walk;
ghost use Rattle.core_moments.specs.Judging.{fits_asked};
ghost use Rattle.entry_tree.specs.Finding.{IsEntryBody};
ghost use Rattle.gin_hits.specs.Rows.{asked_for};
ghost use Rattle.gin_hits.specs.Entries.{entries_with};
ghost use Rattle.gin_hits.specs.Inner.Searching.{IsBetween, keys_of};

use crate::fitting::fits;
use entry_tree::{Found, find};
use gin_opclass::{CompareKeys, Judge, Meaning, OpClass};
use page_types::{Body, Entries, Page};

/// Whether the key of the entry with this number is below a key.
fn is_below<Q, W: Meaning<Q>, C: CompareKeys, J: Judge<Q, W>>(
    entries: &Entries,
    k: usize,
    class: &OpClass<Q, W, C, J>,
    key: &[u8],
) -> bool
    ensures { IsTrue result
        ↔ ((e : Entry) × (slice_get entries.now k ≡ Some e) × KeyLess e.key key.now) }
{
    match entries.get(k) {
        Some(entry) => class.compare(entry.key, key).is_lt(),
        None => false,
    }
}

/// How many of the entries of a leaf have keys below this one. The keys rise.
fn below<Q, W: Meaning<Q>, C: CompareKeys, J: Judge<Q, W>>(
    entries: &Entries,
    class: &OpClass<Q, W, C, J>,
    key: &[u8],
) -> usize
    requires { AreEntries entries.now }
    ensures { IsBetween key.now (keys_of entries.now) result result }
{
    let mut low = 0;
    let mut high = entries.len();
    while low < high {
        let middle = low + (high - low) / 2;
        if is_below(entries, middle, class, key) {
            low = middle + 1;
        } else {
            high = middle;
        }
    }
    low
}

/// Whether there is an entry with this number whose key is this one, or begins with it where it is a prefix.
fn fits_at(entries: &Entries, k: usize, asked: &[u8], prefix: bool) -> bool
    ensures { IsTrue result ↔ ((e : Entry) × (slice_get entries.now k ≡ Some e)
        × (fits_asked (asked_for asked.now prefix) e.key ≡ true)) }
{
    match entries.get(k) {
        Some(entry) => fits(entry.key, asked, prefix),
        None => false,
    }
}

/// The entries of a leaf whose keys are this one, or begin with it where it is a prefix: the number of the first,
/// and the number after the last.
pub(crate) fn fitting<Q, W: Meaning<Q>, C: CompareKeys, J: Judge<Q, W>>(
    entries: &Entries,
    class: &OpClass<Q, W, C, J>,
    asked: &[u8],
    prefix: bool,
) -> (usize, usize)
    requires { AreEntries entries.now }
    ensures ordered { result.0 ≤ result.1 }
    ensures within { result.1 ≤ length entries.now }
    ensures are { slice_range entries.now result.0 result.1
        ≡ entries_with (fits_asked (asked_for asked.now prefix)) entries.now }
{
    let count = entries.len();
    let from = below(entries, class, asked);
    let mut end = from;
    while end < count && fits_at(entries, end, asked, prefix) {
        end += 1;
    }
    (from, end)
}

/// Whether it is a page of the entry tree.
fn is_of_tree(page: &Page) -> bool
    ensures { IsTrue result ↔ IsEntryBody page.now.body }
{
    matches!(page.body, Body::EntryLeaf { .. } | Body::EntryInner(_))
}

/// The page that is next on the way of a key to its leaf; 0 at that leaf.
pub fn toward<Q, W: Meaning<Q>, C: CompareKeys, J: Judge<Q, W>>(
    page: &Page,
    class: &OpClass<Q, W, C, J>,
    key: &[u8],
) -> u32
    requires { IsPage page.now }
    ensures { result ≡ walk.toward key.now page.now }
{
    if !is_of_tree(page) {
        return 0;
    }
    match find(page, class, key) {
        Found::Down { child } => child,
        Found::Right { page: right } => right,
        Found::Here { .. } => 0,
        Found::Absent { .. } => 0,
    }
}

/// Whether more keys than those of a leaf with this high key may begin with a prefix.
fn has_more(high: &[u8], asked: &[u8]) -> bool
    ensures { result ≡ (walk.is_empty high.now || walk.begins asked.now high.now) }
{
    high.is_empty() || high.starts_with(asked)
}

/// The leaf that is next where more keys may be sought: the right link of a leaf that may not have all that begin with
/// a prefix; 0 where there is none.
pub fn beyond(page: &Page, asked: &[u8], prefix: bool) -> u32
    ensures { result ≡ walk.beyond (walk.sought_of (asked_for asked.now prefix)) page.now }
{
    let Body::EntryLeaf { high, .. } = &page.body else {
        return 0;
    };
    if !prefix {
        return 0;
    }
    if has_more(high.as_slice(), asked) {
        page.right
    } else {
        0
    }
}
