// Items added under a key of a leaf.
ghost use Rattle.std.specs.Prelude.{◌≡◌, ◌≤◌, ℕ, List, length, IfOk, IfSome, IfNone, Some};
ghost use Rattle.std.specs.List.{slice_get};
ghost use Rattle.page_types.specs.Numbers.{most_body, most_inline};
ghost use Rattle.page_types.specs.Items.{AreItems, IsItemList};
ghost use Rattle.page_types.specs.Keys.{IsKey};
ghost use Rattle.page_types.specs.Parts.{entry_shown};
ghost use Rattle.page_types.specs.Encoding.{body_bytes};
ghost use Rattle.page_types.specs.Pages.{IsPage};
ghost use Rattle.page_types.specs.Views.{entries_in};
ghost use Rattle.page_types.specs.declared.page.Page.{Page};
ghost use Rattle.posting_code.specs.Uniting.{IsUnited};
ghost use Rattle.entry_tree.specs.Adding.{IsEntryLeaf, HasNoTree, list_entry, IsAdded};
ghost use Rattle.entry_tree.specs.Inner.Spots.{IsSpot, leaf_at, IsPlace, leaf_put};

use crate::searching::{Marks, below};
use gin_opclass::{CompareKeys, Judge, Meaning, OpClass};
use page_types::{
    Body, Entries, EntryRef, MOST_BODY_BYTES, MOST_INLINE_BYTES, Page, PostingsRef, body_length,
};
use posting_code::merge;
use std::alloc::{AllocError, Global};

/// The bytes of an entry with an item list, but for those of its key and its list.
const ENTRY_FRONT: usize = 5;

/// What adding items under a key of a leaf gives.
#[derive(Drop)]
pub enum Added {
    /// The leaf with the items under the key.
    Done(Page),
    /// The key's list would have more than 1000 bytes.
    TooLong,
    /// The leaf has no room for that list.
    Full,
}

/// Where a key is on a leaf, or belongs.
#[derive(Clone, Copy)]
struct Spot<'a> {
    /// The number of its entry.
    place: usize,
    /// Whether it has one.
    there: bool,
    /// The item list of that entry, else no bytes.
    old: &'a [u8],
}

/// The item list of the entry with this number, where it has the key.
fn list_of<'a>(entries: &'a Entries, k: usize, key: &[u8]) -> Option<&'a [u8]>
    ensures some { IfSome result (λ list.
        slice_get entries.now k ≡ Some (list_entry key.now list.now)) }
    ensures none { IfNone result ((list : List ℕ)
        → slice_get entries.now k ≡ Some (list_entry key.now list) → ⊥) }
{
    let Some(entry) = entries.get(k) else {
        return None;
    };
    if entry.key != key {
        return None;
    }
    match entry.postings {
        PostingsRef::Inline(list) => Some(list),
        PostingsRef::Root(_) => None,
    }
}

/// Where a key that has no posting tree is on a leaf, or belongs.
fn spot_of<'a, Q, W: Meaning<Q>, C: CompareKeys, J: Judge<Q, W>>(
    page: &'a Page,
    class: &OpClass<Q, W, C, J>,
    key: &[u8],
) -> Spot<'a>
    requires page { IsPage page.now }
    requires leaf { IsEntryLeaf page.now.body }
    requires no_tree { HasNoTree page.now.body key.now }
    ensures { IsSpot (entries_in page.now.body) key.now result.place result.there result.old.now }
{
    let Body::EntryLeaf { entries, .. } = &page.body else {
        unreachable!()
    };
    let place = below(Marks::Keys(entries), class, key);
    match list_of(entries, place, key) {
        Some(old) => Spot {
            place,
            there: true,
            old,
        },
        None => Spot {
            place,
            there: false,
            old: &[],
        },
    }
}

/// The list of a list's items and of others.
fn united(alloc: Global, old: &[u8], items: &[u32]) -> Result<Vec<u8>, AllocError>
    requires list { IsItemList old.now }
    requires items { AreItems items.now }
    ensures { IfOk result (λ list. IsUnited old.now items.now list.items) }
{
    let mut list = Vec::new(alloc);
    merge(old, items, &mut list)?;
    Ok(list)
}

/// How many bytes the body of a leaf has with this list of the key.
fn size_with(page: &Page, spot: Spot<'_>, key: &[u8], list: &[u8]) -> usize
    requires leaf { IsEntryLeaf page.now.body }
    requires fits { length (body_bytes page.now.body) ≤ most_body }
    requires spot { IsSpot (entries_in page.now.body) key.now spot.place spot.there spot.old.now }
    requires key { IsKey key.now }
    requires list { length list.now ≤ most_inline }
    ensures { result ≡ length (body_bytes
        (leaf_at page.now.body key.now spot.entry.place spot.entry.there list.now)) }
{
    if spot.there {
        body_length(page) - spot.old.len() + list.len()
    } else {
        body_length(page) + ENTRY_FRONT + key.len() + list.len()
    }
}

/// Puts an entry at its place on a leaf: its items into the entry that is there, or itself between
/// the others.
fn put(leaf: &mut Page, place: usize, there: bool, entry: EntryRef<'_>) -> Result<(), AllocError>
    requires leaf { IsEntryLeaf leaf.old.body }
    requires place { IsPlace (entries_in leaf.old.body) place there }
    ensures { IfOk result (λ done. leaf.new
        ≡ record leaf.old { body = leaf_put leaf.old.body place there (entry_shown entry.entry) }) }
{
    let Body::EntryLeaf { entries, .. } = &mut leaf.body else {
        unreachable!()
    };
    if there {
        entries.set_postings(place, entry.postings)
    } else {
        entries.insert(place, entry)
    }
}

/// The leaf with this entry at its place.
pub(crate) fn leaf_with(
    page: &Page,
    place: usize,
    there: bool,
    entry: EntryRef<'_>,
) -> Result<Page, AllocError>
    requires leaf { IsEntryLeaf page.now.body }
    requires place { IsPlace (entries_in page.now.body) place there }
    ensures { IfOk result (λ leaf. leaf
        ≡ record page.now { body = leaf_put page.now.body place there (entry_shown entry.entry) }) }
{
    let mut leaf = page.clone()?;
    match put(&mut leaf, place, there, entry) {
        Ok(()) => Ok(leaf),
        Err(e) => {
            drop(leaf);
            Err(e)
        }
    }
}

/// The leaf with this list of the key, where neither is too long.
fn add_list(page: &Page, spot: Spot<'_>, key: &[u8], list: &[u8]) -> Result<Added, AllocError>
    requires leaf { IsEntryLeaf page.now.body }
    requires fits { length (body_bytes page.now.body) ≤ most_body }
    requires spot { IsSpot (entries_in page.now.body) key.now spot.place spot.there spot.old.now }
    requires key { IsKey key.now }
    ensures { IfOk result (λ answer. (items : List ℕ)
        → IsUnited spot.entry.old.now items list.now → IsAdded page.now key.now items answer) }
{
    if list.len() > MOST_INLINE_BYTES {
        return Ok(Added::TooLong);
    }
    if size_with(page, spot, key, list) > MOST_BODY_BYTES {
        return Ok(Added::Full);
    }
    let entry = EntryRef {
        key,
        postings: PostingsRef::Inline(list),
    };
    Ok(Added::Done(leaf_with(page, spot.place, spot.there, entry)?))
}

/// A leaf with items added under a key, whose entry is made where there is none.
pub fn add<Q, W: Meaning<Q>, C: CompareKeys, J: Judge<Q, W>>(
    alloc: Global,
    page: &Page,
    class: &OpClass<Q, W, C, J>,
    key: &[u8],
    items: &[u32],
) -> Result<Added, AllocError>
    requires page { IsPage page.now }
    requires leaf { IsEntryLeaf page.now.body }
    requires key { IsKey key.now }
    requires no_tree { HasNoTree page.now.body key.now }
    requires items { AreItems items.now }
    ensures added { IfOk result (λ answer. IsAdded page.now key.now items.now answer) }
    ensures is_page { IfOk result (λ answer. (p : Page) → answer ≡ Added.Done p → IsPage p) }
{
    let spot = spot_of(page, class, key);
    let list = united(alloc, spot.old, items)?;
    add_list(page, spot, key, &list)
}
