// When a record AddItems or AddPostings may come next, as far as the record, and its pages before and
// after say.
ghost use Rattle.std.specs.Prelude.{◌≡◌, ◌↔◌, ℕ, List, true, IfSome, IfNone};
ghost use Rattle.std.specs.List.{All};
ghost use Rattle.ts_base.specs.Keys.{Key};
ghost use Rattle.page_types.specs.Items.{IsItemList};
ghost use Rattle.page_types.specs.declared.page.Entry.{Entry};
ghost use Rattle.page_types.specs.Pages.{IsPage, AreEntries};
ghost use Rattle.core_state.specs.TreeRules.{IsAddItemsHere, IsAddPostingsHere};
ghost use Rattle.core_state.specs.Judging.{Judges};
ghost use Rattle.core_state.specs.Changes.{UpTo, ItemUpTo};
ghost use Rattle.core_state.specs.Inner.TreeItems.{IsFirstItem, Takes, HadList, TakesEntry};
ghost use Rattle.core_state.specs.Inner.TreeItems.{LeafLeft, LeavesEntries, LeavesPostings};

use crate::linking::is_below;
use crate::members::{Members, go_on, shared};
use crate::state::State;
use page_types::{Body, Entries, ITEM_LIMIT, Kind, Page, PostingsRef, Record, next_item};
use std::alloc::AllocError;

/// The next item of a list after the item `last`, and the bytes after it; the limit of items where there is none.
fn first_item(last: u32, list: &[u8]) -> (u32, &[u8])
    ensures { IsFirstItem last list.now result.0 result.1.now }
{
    match next_item(last, list) {
        Ok(found) => found,
        Err(_) => (ITEM_LIMIT, list),
    }
}

/// Whether an item may be where this is the high item.
fn is_item_up_to(item: u32, high: u32) -> bool
    ensures { result ≡ true ↔ ItemUpTo item high }
{
    high == 0 || item <= high
}

/// Whether a list has the items of another, and more, each of those up to this high item (0: none).
fn takes(old: &[u8], new: &[u8], high: u32) -> bool
    requires old { IsItemList old.now }
    requires new { IsItemList new.now }
    ensures { result ≡ true ↔ Takes high old.now new.now }
{
    let mut was = old;
    let mut last = 0;
    let mut rest = new;
    let mut item = 0;
    let mut more = false;
    while let Ok((next, behind)) = next_item(item, rest) {
        item = next;
        rest = behind;
        let (first, left) = first_item(last, was);
        if first < item {
            return false;
        }
        if first == item {
            last = first;
            was = left;
            continue;
        }
        if !is_item_up_to(item, high) {
            return false;
        }
        more = true;
    }
    more && was.is_empty()
}

/// The item list of the entry with this key at this place, and the place after it; of a key that comes
/// new no bytes, and the place.
fn list_before<'a>(old: &'a Entries, k: usize, key: &[u8], comes: bool) -> Option<(&'a [u8], usize)>
    ensures some { IfSome result (λ f. HadList old.now k key.now comes f.0.now f.1) }
    ensures none { IfNone result ((list : List ℕ) (next : ℕ) → HadList old.now k key.now comes list next → ⊥) }
{
    if comes {
        return Some((&[], k));
    }
    if k >= old.len() {
        return None;
    }
    let was = old.get(k)?;
    let PostingsRef::Inline(list) = was.postings else {
        return None;
    };
    if was.key != key {
        return None;
    }
    Some((list, k + 1))
}

/// Whether a key may be where this is the bound.
pub(crate) fn is_up_to(key: &[u8], bound: &[u8]) -> bool
    ensures { result ≡ true ↔ UpTo key.now bound.now }
{
    bound.is_empty() || !is_below(bound, key)
}

/// Whether an entry with a key up to this high key takes items, or comes with some, and the others stay.
fn takes_entry(high: &[u8], old: &Entries, new: &Entries) -> bool
    requires old { AreEntries old.now }
    requires new { AreEntries new.now }
    ensures { result ≡ true ↔ TakesEntry high.now old.now new.now }
{
    let k = shared(Members::Entries(old), Members::Entries(new));
    let Some(entry) = new.get(k) else {
        return false;
    };
    let PostingsRef::Inline(list) = entry.postings else {
        return false;
    };
    let comes = new.len() > old.len();
    let Some((was, next)) = list_before(old, k, entry.key, comes) else {
        return false;
    };
    if !is_up_to(entry.key, high) || !takes(was, list, 0) {
        return false;
    }
    go_on(Members::Entries(old), next, Members::Entries(new), k + 1)
}

/// The high key of a leaf of the entry tree, its entries and those that a record leaves there, all else
/// being as it was.
pub(crate) fn leaf_left<'a>(
    rec: &Record,
    old: &'a Page,
    new: &'a Page,
) -> Option<(&'a [u8], &'a Entries, &'a Entries)>
    ensures some { IfSome result (λ f. LeafLeft rec.now old.now new.now f.0.now f.1.now f.2.now) }
    ensures none { IfNone result ((high : Key) (entries then : List Entry)
        → LeafLeft rec.now old.now new.now high entries then → ⊥) }
{
    let Body::EntryLeaf { high, entries } = &old.body else {
        return None;
    };
    let Body::EntryLeaf {
        high: new_high,
        entries: new_entries,
    } = &new.body
    else {
        return None;
    };
    if new.right != old.right || new.stamp != rec.number || high.as_slice() != new_high.as_slice() {
        return None;
    }
    Some((high.as_slice(), entries, new_entries))
}

/// Whether a record leaves a leaf of the entry tree with items added under a key.
fn leaves_entries(rec: &Record, old: &Page, new: &Page) -> bool
    requires old { IsPage old.now }
    requires new { IsPage new.now }
    ensures { result ≡ true ↔ LeavesEntries rec.now old.now new.now }
{
    let Some((high, entries, new_entries)) = leaf_left(rec, old, new) else {
        return false;
    };
    takes_entry(high, entries, new_entries)
}

/// Whether AddItems may come next: a leaf of the entry tree gets items under a key up to its high key,
/// at least one of them new there, and all else of it stays.
pub fn valid_add_items(
    state: &State,
    rec: &Record,
    before: &[Page],
    after: &[Page],
    _floor: u32,
    _since: u64,
) -> Result<bool, AllocError>
    requires before { All IsPage before.now }
    requires after { All IsPage after.now }
    ensures { Judges IsAddItemsHere state.now.value rec.now before.now after.now result }
{
    let Kind::AddItems = rec.kind else {
        return Ok(false);
    };
    if before.len() != 1 || after.len() != 1 || rec.changes.as_slice().len() != 1 {
        return Ok(false);
    }
    Ok(leaves_entries(rec, &before[0], &after[0]))
}

/// Whether a record leaves a leaf of a posting tree with items added up to its high item.
fn leaves_postings(rec: &Record, old: &Page, new: &Page) -> bool
    requires old { IsPage old.now }
    requires new { IsPage new.now }
    ensures { result ≡ true ↔ LeavesPostings rec.now old.now new.now }
{
    let Body::PostLeaf { high, items } = &old.body else {
        return false;
    };
    let Body::PostLeaf {
        high: new_high,
        items: new_items,
    } = &new.body
    else {
        return false;
    };
    if new.right != old.right || new.stamp != rec.number || new_high != high {
        return false;
    }
    takes(items.as_slice(), new_items.as_slice(), *high)
}

/// Whether AddPostings may come next: a leaf of a posting tree gets items up to its high item, at least
/// one of them new there, and all else of it stays.
pub fn valid_add_postings(
    state: &State,
    rec: &Record,
    before: &[Page],
    after: &[Page],
    _floor: u32,
    _since: u64,
) -> Result<bool, AllocError>
    requires after { All IsPage after.now }
    requires before { All IsPage before.now }
    ensures { Judges IsAddPostingsHere state.now.value rec.now before.now after.now result }
{
    let Kind::AddPostings = rec.kind else {
        return Ok(false);
    };
    if before.len() != 1 || after.len() != 1 || rec.changes.as_slice().len() != 1 {
        return Ok(false);
    }
    Ok(leaves_postings(rec, &before[0], &after[0]))
}
