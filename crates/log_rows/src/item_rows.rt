// The rows of the kinds 13 to 15: items come into the trees.
use crate::lists::{are_among, without_same};
use crate::sizes::item_list;
use crate::step::{Changed, RIGHT, Step};
use log_walks::{
    Fault, KeyLeaf, PlainEntry, PlainPostings, PostLeaf, Rules, Store, are_pending, entries_in,
    key_leaf_in, must, need, page_for_item, page_for_key, post_leaf_in, root_of,
};
use page_types::MOST_INLINE_BYTES;
use std::alloc::{AllocError, Global};

/// An entry of a leaf that a record changes or makes.
#[derive(Clone, Copy)]
struct Changing<'a> {
    /// The leaf's high key, or no bytes.
    high: &'a [u8],
    /// The entry that was in its place, unless that is after the others.
    first: Option<&'a PlainEntry>,
    /// The entry before with its key, unless it is made.
    was: Option<&'a PlainEntry>,
    /// The entry after it.
    left: &'a PlainEntry,
    /// Whether nothing else changes.
    alone: bool,
}

/// The entry with this key.
fn entry_with<'a>(entries: &'a [PlainEntry], key: &[u8]) -> Option<&'a PlainEntry> {
    for entry in entries {
        if entry.key.as_slice() == key {
            return Some(entry);
        }
    }
    None
}

/// Whether these are the old entries but those with this key.
fn others_stay(olds: &[PlainEntry], news: &[PlainEntry], key: &[u8]) -> bool {
    let mut rest = news;
    for old in olds {
        match rest {
            _ if old.key.as_slice() == key => {}
            [new, others @ ..] if new == old => rest = others,
            _ => return false,
        }
    }
    rest.is_empty()
}

/// The first entry that differs, where the leaf keeps its high key.
fn first_change<'a>(was: KeyLeaf<'a>, left: KeyLeaf<'a>) -> Option<Changing<'a>> {
    let (olds, news) = without_same(was.entries, left.entries);
    let (new, behind) = news.split_first()?;
    let stay = others_stay(olds, behind, &new.key);
    Some(Changing {
        high: was.high,
        first: olds.first(),
        was: entry_with(was.entries, &new.key),
        left: new,
        alone: stay && was.high == left.high,
    })
}

/// The entry of a leaf of the tree of keys that changes.
fn change_in<'a>(leaf: Changed<'a>) -> Option<Changing<'a>> {
    let was = key_leaf_in(leaf.was_live())?;
    let left = key_leaf_in(leaf.left.live())?;
    first_change(was, left)
}

/// The inline items of an entry.
fn inline_items(entry: &PlainEntry) -> Option<&[u32]> {
    match &entry.postings {
        PlainPostings::Inline(items) => Some(items),
        PlainPostings::Root(_) => None,
    }
}

/// The inline items of an entry; none where there is no entry.
fn items_before(entry: Option<&PlainEntry>) -> Option<&[u32]> {
    match entry {
        Some(entry) => inline_items(entry),
        None => Some(&[]),
    }
}

/// The items that are in the new list and not in the old one.
fn added_items(alloc: Global, old: &[u32], new: &[u32]) -> Result<Vec<u32>, AllocError> {
    let mut added = Vec::new(alloc);
    for item in new {
        if !old.contains(item) {
            added.push(*item)?;
        }
    }
    Ok(added)
}

/// Items were added, at least one, and none left.
fn grows(old: &[u32], new: &[u32], added: &[u32]) -> Rules {
    Rules::new()
        .and(are_among(old, new), "no item leaves the list")
        .and(!added.is_empty(), "an item is added")
}

/// An entry whose inline items change.
#[derive(Clone, Copy)]
struct Grown<'a> {
    /// Its key.
    key: &'a [u8],
    /// The leaf's high key, or no bytes.
    high: &'a [u8],
    /// The items before; none of an entry that is made.
    old: &'a [u32],
    /// The items after it.
    new: &'a [u32],
}

/// The entry of a leaf whose inline items change, where nothing else does.
fn grown_entry<'a>(leaf: Changed<'a>) -> Option<Grown<'a>> {
    let change = change_in(leaf)?;
    let old = items_before(change.was)?;
    let new = inline_items(change.left)?;
    if change.alone && leaf.keeps_right() {
        Some(Grown {
            key: &change.left.key,
            high: change.high,
            old,
            new,
        })
    } else {
        None
    }
}

/// The entry of a changed leaf whose inline items change.
fn entry_grown<'a>(leaf: Changed<'a>) -> Result<Grown<'a>, Fault> {
    need(
        grown_entry(leaf),
        "the inline items of one entry of a leaf change",
    )
}

/// These items come to the entry up to the leaf's high key, at least one of them not under it yet; the list has at most
/// 1000 bytes.
fn items_come(entry: Grown<'_>, added: &[u32]) -> Rules {
    grows(entry.old, entry.new, added)
        .and(
            item_list(entry.new) <= MOST_INLINE_BYTES,
            "the list has at most 1000 bytes",
        )
        .and(
            entry.high.is_empty() || entry.key <= entry.high,
            "the key is at most the high key",
        )
}

/// The way down from page 1 for the key leads to the leaf, and each of the items has a linked row with this key.
fn items_belong(store: &Store, page: u32, key: &[u8], added: &[u32]) -> Rules {
    Rules::new()
        .and(
            page_for_key(store, key) == Some(page),
            "the way down for the key leads to the leaf",
        )
        .and(
            are_pending(store, key, added),
            "each item has a linked row with the key",
        )
}

/// 13 AddItems, without the way down and the rows: items come under one key; the entry is made where the key has none.
pub(crate) fn add_items_here(step: &Step<'_>) -> Result<(), Fault> {
    let entry = entry_grown(step.one()?)?;
    let added = added_items(step.alloc, entry.old, entry.new)?;
    items_come(entry, &added).end()
}

/// 13 AddItems: items come under one key, and belong there.
pub(crate) fn add_items(step: &Step<'_>) -> Result<(), Fault> {
    let leaf = step.one()?;
    let entry = entry_grown(leaf)?;
    let added = added_items(step.alloc, entry.old, entry.new)?;
    items_come(entry, &added)
        .then(items_belong(step.store, leaf.page, entry.key, &added))
        .end()
}

/// Whether the page is a leaf of a posting tree with these items alone, and no high item.
fn is_new_leaf(new: Changed<'_>, items: &[u32]) -> bool {
    match post_leaf_in(new.left.live()) {
        Some(leaf) => leaf.high == 0 && leaf.items == items,
        None => false,
    }
}

/// The inline items of an entry of a leaf, which names this root then, where nothing else changes.
fn moved_items<'a>(leaf: Changed<'a>, root: u32) -> Option<&'a [u32]> {
    let change = change_in(leaf)?;
    let old = change.first?;
    let names = old.key == change.left.key && root_of(change.left) == Some(root);
    if change.alone && names && leaf.keeps_right() {
        inline_items(old)
    } else {
        None
    }
}

/// 14 MakeTree: the new PostLeaf has exactly the inline items of an entry, which names it then.
pub(crate) fn make_tree(step: &Step<'_>) -> Result<(), Fault> {
    let (page, new) = step.two()?;
    let items = need(
        moved_items(page, new.page),
        "an entry comes to name the new page",
    )?;
    step.is_new(new)
        .and(new.leads_to(0), RIGHT)
        .and(
            is_new_leaf(new, items),
            "the new page has the entry's items",
        )
        .end()
}

/// Whether the way down from the root leads to this page for each item.
fn leads_to(store: &Store, root: u32, page: u32, items: &[u32]) -> bool {
    for item in items {
        if page_for_item(store, root, *item) != Some(page) {
            return false;
        }
    }
    true
}

/// Whether the entry's root leads to the page for each item, and each has a linked row with its key.
fn takes(store: &Store, entry: &PlainEntry, page: u32, items: &[u32]) -> bool {
    match root_of(entry) {
        Some(root) => leads_to(store, root, page, items) && are_pending(store, &entry.key, items),
        None => false,
    }
}

/// Whether one of the entries does.
fn one_takes(store: &Store, entries: &[PlainEntry], page: u32, items: &[u32]) -> bool {
    for entry in entries {
        if takes(store, entry, page, items) {
            return true;
        }
    }
    false
}

/// Whether an entry of the tree of keys does.
fn may_add(store: &Store, page: u32, items: &[u32]) -> bool {
    for leaf in store.pages() {
        if one_takes(store, entries_in(leaf.shown.live()), page, items) {
            return true;
        }
    }
    false
}

/// Whether the items are at most the leaf's high item, which stays.
fn are_within(was: PostLeaf<'_>, left: PostLeaf<'_>, items: &[u32]) -> bool {
    for item in items {
        if was.high != 0 && *item > was.high {
            return false;
        }
    }
    was.high == left.high
}

/// A leaf of a posting tree that a record changes.
#[derive(Clone, Copy)]
struct GrownLeaf<'a> {
    /// Before it.
    was: PostLeaf<'a>,
    /// After it.
    left: PostLeaf<'a>,
}

/// The leaf of a posting tree that a record changes, where its right link stays.
fn leaf_grown<'a>(page: Changed<'a>) -> Result<GrownLeaf<'a>, Fault> {
    must(page.keeps_right(), RIGHT)?;
    match (
        post_leaf_in(page.was_live()),
        post_leaf_in(page.left.live()),
    ) {
        (Some(was), Some(left)) => Ok(GrownLeaf { was, left }),
        (Some(_), None) => Err(Fault::Broken("it stays a posting leaf")),
        (None, _) => Err(Fault::Broken("it changes a posting leaf")),
    }
}

/// These items come to the leaf up to its high item, at least one of them not there yet.
fn postings_come(leaf: GrownLeaf<'_>, items: &[u32]) -> Rules {
    grows(leaf.was.items, leaf.left.items, items).and(
        are_within(leaf.was, leaf.left, items),
        "the items are at most the high item",
    )
}

/// 15 AddPostings, without the entry and the rows: items come to a leaf of a posting tree.
pub(crate) fn add_postings_here(step: &Step<'_>) -> Result<(), Fault> {
    let leaf = leaf_grown(step.one()?)?;
    let items = added_items(step.alloc, leaf.was.items, leaf.left.items)?;
    postings_come(leaf, &items).end()
}

/// 15 AddPostings: items come to a leaf of a posting tree; the root of an entry leads down to it for each item, and
/// each has a linked row with the entry's key.
pub(crate) fn add_postings(step: &Step<'_>) -> Result<(), Fault> {
    let page = step.one()?;
    let leaf = leaf_grown(page)?;
    let items = added_items(step.alloc, leaf.was.items, leaf.left.items)?;
    postings_come(leaf, &items)
        .and(
            may_add(step.store, page.page, &items),
            "an entry's root leads to the page, and each item has a linked row with its key",
        )
        .end()
}
