// When a record RemoveItems may come next, as far as the record, and its page before and after say.
ghost use Rattle.std.specs.Prelude.{◌≡◌, ◌↔◌, true, false};
ghost use Rattle.std.specs.List.{All};
ghost use Rattle.page_types.specs.Items.{IsItemList};
ghost use Rattle.page_types.specs.Pages.{IsPage, IsEntry, AreEntries};
ghost use Rattle.page_types.specs.Parts.{postings_shown, entry_shown};
ghost use Rattle.core_state.specs.VacuumRules.{IsRemoveItemsHere};
ghost use Rattle.core_state.specs.Judging.{Judges};
ghost use Rattle.core_state.specs.Inner.TreeItems.{IsFirstItem};
ghost use Rattle.core_vacuum.specs.Inner.Removing.{AreAmong, EntryGoes, EntriesGo, EntriesLeft, ListLeft};

use core_state::State;
use page_types::{Body, Entries, EntryRef, ITEM_LIMIT, Kind, Page, PostingsRef, Record, next_item};
use std::alloc::AllocError;

/// The next item of a list after the item `last`, and the bytes after it; the limit of items where there is none.
fn first_item(last: u32, list: &[u8]) -> (u32, &[u8])
    ensures { IsFirstItem last list.now result.0 result.1.now }
{
    match next_item(last, list) {
        Ok(found) => found,
        Err(_) => (ITEM_LIMIT, list),
    }
}

/// Whether the items of a list are among those of another.
fn are_among(new: &[u8], old: &[u8]) -> bool
    requires new { IsItemList new.now }
    requires old { IsItemList old.now }
    ensures { result ≡ true ↔ AreAmong new.now old.now }
{
    let mut left = new;
    let mut last = 0;
    let mut was = old;
    let mut item = 0;
    while let Ok((next, behind)) = next_item(item, was) {
        item = next;
        was = behind;
        let (first, rest) = first_item(last, left);
        if first < item {
            return false;
        }
        if first == item {
            last = first;
            left = rest;
        }
    }
    left.is_empty()
}

/// Whether what an entry leads to has changed.
fn is_changed(a: PostingsRef<'_>, b: PostingsRef<'_>) -> bool
    ensures { result ≡ false ↔ (postings_shown a.entry ≡ postings_shown b.entry) }
{
    match (a, b) {
        (PostingsRef::Inline(a), PostingsRef::Inline(b)) => a != b,
        (PostingsRef::Root(a), PostingsRef::Root(b)) => a != b,
        _ => true,
    }
}

/// Whether an entry stays as it is, but that its list may lose items.
fn entry_goes(old: EntryRef<'_>, new: EntryRef<'_>) -> bool
    requires old { IsEntry (entry_shown old) }
    requires new { IsEntry (entry_shown new) }
    ensures { result ≡ true ↔ EntryGoes (entry_shown old.entry) (entry_shown new.entry) }
{
    if old.key != new.key {
        return false;
    }
    match (old.postings, new.postings) {
        (PostingsRef::Inline(list), PostingsRef::Inline(left)) => are_among(left, list),
        (PostingsRef::Root(root), PostingsRef::Root(left)) => root == left,
        _ => false,
    }
}

/// Whether entries stay as they are, but that their lists lose items, one at least.
fn entries_go(old: &Entries, new: &Entries) -> bool
    requires old { AreEntries old.now }
    requires new { AreEntries new.now }
    ensures { result ≡ true ↔ EntriesGo old.now new.now }
{
    if new.len() != old.len() {
        return false;
    }
    let mut less = false;
    for k in 0..old.len() {
        let Some(was) = old.get(k) else {
            return false;
        };
        let Some(left) = new.get(k) else {
            return false;
        };
        if !entry_goes(was, left) {
            return false;
        }
        less = less || is_changed(was.postings, left.postings);
    }
    less
}

/// Whether a record leaves a leaf of the entry tree with entries that lost items, and all else of it as it was.
fn leaves_entries(rec: &Record, old: &Page, new: &Page) -> bool
    requires old { IsPage old.now }
    requires new { IsPage new.now }
    ensures { result ≡ true ↔ EntriesLeft rec.now old.now new.now }
{
    let Body::EntryLeaf { high, entries } = &old.body else {
        return false;
    };
    let Body::EntryLeaf {
        high: new_high,
        entries: new_entries,
    } = &new.body
    else {
        return false;
    };
    if new.right != old.right || new.stamp != rec.number || high.as_slice() != new_high.as_slice() {
        return false;
    }
    entries_go(entries, new_entries)
}

/// Whether a record leaves a leaf of a posting tree with fewer items, and all else of it as it was.
fn leaves_list(rec: &Record, old: &Page, new: &Page) -> bool
    requires old { IsPage old.now }
    requires new { IsPage new.now }
    ensures { result ≡ true ↔ ListLeft rec.now old.now new.now }
{
    let Body::PostLeaf { high, items } = &old.body else {
        return false;
    };
    let Body::PostLeaf {
        high: new_high,
        items: left,
    } = &new.body
    else {
        return false;
    };
    if new.right != old.right || new.stamp != rec.number || new_high != high {
        return false;
    }
    let (items, left) = (items.as_slice(), left.as_slice());
    if left == items {
        return false;
    }
    are_among(left, items)
}

/// Whether RemoveItems may come next: items leave the lists of a leaf, one at least, none comes, and all
/// else of it stays.
pub fn valid_remove_items(
    state: &State,
    rec: &Record,
    before: &[Page],
    after: &[Page],
    _floor: u32,
    _since: u64,
) -> Result<bool, AllocError>
    requires before { All IsPage before.now }
    requires after { All IsPage after.now }
    ensures { Judges IsRemoveItemsHere state.now.value rec.now before.now after.now result }
{
    let Kind::RemoveItems = rec.kind else {
        return Ok(false);
    };
    if before.len() != 1 || after.len() != 1 || rec.changes.as_slice().len() != 1 {
        return Ok(false);
    }
    let (old, new) = (&before[0], &after[0]);
    if leaves_entries(rec, old, new) {
        return Ok(true);
    }
    Ok(leaves_list(rec, old, new))
}
