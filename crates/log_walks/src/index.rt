// The index: the pending list, the tree of keys and the posting trees.
use crate::plain::{
    PlainBody, PlainChild, PlainEntry, PlainPostings, PlainRow, entries_in, rows_in,
};
use crate::store::Store;
use page_types::{PAGE_LIMIT, PostChild};
use std::alloc::{AllocError, Global};

/// The metapage.
pub const META: u32 = 0;

/// The root of the tree of keys.
pub const ROOT: u32 = 1;

/// The first page of the pending list, or 0.
pub fn first_pending(store: &Store) -> u32 {
    match store.live(META) {
        Some(PlainBody::Meta { first, .. }) => *first,
        _ => 0,
    }
}

/// Pages that lead from one to the next by their right links, up to 0.
#[derive(Clone, Copy)]
pub struct Line {
    /// The last page, unless there is none.
    pub last: Option<u32>,
    /// How many pages there are.
    pub count: u32,
}

/// The pages from the first along right links; none where these go in a circle.
pub fn line_from(store: &Store, first: u32) -> Option<Line> {
    let mut last = None;
    let mut count = 0u32;
    let mut page = first;
    for _ in 0..store.most_in_line() {
        if page == 0 {
            return Some(Line { last, count });
        }
        last = Some(page);
        count = count.saturating_add(1);
        page = store.right(page);
    }
    None
}

/// The first page of the pending list, or 0; also 0 where its links go in a circle.
fn first_linked(store: &Store) -> u32 {
    let first = first_pending(store);
    match line_from(store, first) {
        Some(_) => first,
        None => 0,
    }
}

/// Whether a key is among these.
fn has_key(keys: &[Vec<u8>], key: &[u8]) -> bool {
    for other in keys {
        if other.as_slice() == key {
            return true;
        }
    }
    false
}

/// Whether the row has the item, and the key if one is asked for.
fn serves(row: &PlainRow, key: Option<&[u8]>, item: u32) -> bool {
    row.item == item
        && match key {
            Some(key) => has_key(&row.keys, key),
            None => true,
        }
}

/// Whether one of the rows has the item, and the key if one is asked for.
fn has_row_among(rows: &[PlainRow], key: Option<&[u8]>, item: u32) -> bool {
    for row in rows {
        if serves(row, key, item) {
            return true;
        }
    }
    false
}

/// Whether a row on the pages from the first along right links has the item, and the key if one is asked for.
pub fn has_row_from(store: &Store, first: u32, key: Option<&[u8]>, item: u32) -> bool {
    let mut page = first;
    for _ in 0..store.most_in_line() {
        if has_row_among(rows_in(store.live(page)), key, item) {
            return true;
        }
        page = store.right(page);
        if page == 0 {
            break;
        }
    }
    false
}

/// Whether rows on the pages from the first along right links have each of these keys with the item.
pub fn has_rows_from(store: &Store, first: u32, keys: &[Vec<u8>], item: u32) -> bool {
    for key in keys {
        if !has_row_from(store, first, Some(key.as_slice()), item) {
            return false;
        }
    }
    true
}

/// Whether a linked row has the item.
pub fn has_row(store: &Store, item: u32) -> bool {
    has_row_from(store, first_linked(store), None, item)
}

/// Whether linked rows have the key with each of these items.
pub fn are_pending(store: &Store, key: &[u8], items: &[u32]) -> bool {
    let first = first_linked(store);
    for item in items {
        if !has_row_from(store, first, Some(key), *item) {
            return false;
        }
    }
    true
}

/// The pages of children that were not found yet come after those that were.
fn find_children(found: &mut Vec<u32>, children: &[PostChild]) -> Result<(), AllocError> {
    for child in children {
        if !found.contains(&child.page) {
            found.push(child.page)?;
        }
    }
    Ok(())
}

/// The children of an inner page of a posting tree; of another page none.
fn children_of(store: &Store, page: u32) -> &[PostChild] {
    match store.live(page) {
        Some(PlainBody::PostInner(children)) => children,
        _ => &[],
    }
}

/// The root, and each page below it once.
fn pages_below(alloc: Global, store: &Store, root: u32) -> Result<Vec<u32>, AllocError> {
    let mut found = Vec::new(alloc);
    found.push(root)?;
    // Each page is found once at most.
    for k in 0..PAGE_LIMIT as usize {
        let Some(page) = found.get(k).copied() else {
            break;
        };
        find_children(&mut found, children_of(store, page))?;
    }
    Ok(found)
}

/// Whether the item is on the page, a leaf of a posting tree.
fn is_on(store: &Store, page: u32, item: u32) -> bool {
    match store.live(page) {
        Some(PlainBody::PostLeaf { items, .. }) => items.contains(&item),
        _ => false,
    }
}

/// Whether the item is on a leaf below this root.
fn is_below(alloc: Global, store: &Store, root: u32, item: u32) -> Result<bool, AllocError> {
    for page in &pages_below(alloc, store, root)? {
        if is_on(store, *page, item) {
            return Ok(true);
        }
    }
    Ok(false)
}

/// Whether the item is under the entry.
fn is_under(
    alloc: Global,
    store: &Store,
    entry: &PlainEntry,
    item: u32,
) -> Result<bool, AllocError> {
    match &entry.postings {
        PlainPostings::Inline(items) => Ok(items.contains(&item)),
        PlainPostings::Root(root) => is_below(alloc, store, *root, item),
    }
}

/// Whether this is the key, if one is asked for.
fn is_asked(key: &[u8], asked: Option<&[u8]>) -> bool {
    match asked {
        Some(asked) => key == asked,
        None => true,
    }
}

/// Whether the item is under one of the entries, under that with the key if one is asked for.
fn is_in_leaf(
    alloc: Global,
    store: &Store,
    entries: &[PlainEntry],
    key: Option<&[u8]>,
    item: u32,
) -> Result<bool, AllocError> {
    for entry in entries {
        if is_asked(&entry.key, key) && is_under(alloc, store, entry, item)? {
            return Ok(true);
        }
    }
    Ok(false)
}

/// Whether the main part has the item, under this key if one is asked for.
fn is_in_main(
    alloc: Global,
    store: &Store,
    key: Option<&[u8]>,
    item: u32,
) -> Result<bool, AllocError> {
    for left in store.pages() {
        if is_in_leaf(alloc, store, entries_in(left.shown.live()), key, item)? {
            return Ok(true);
        }
    }
    Ok(false)
}

/// Whether the main part has the item under each of these keys.
pub fn all_in_main(
    alloc: Global,
    store: &Store,
    keys: &[Vec<u8>],
    item: u32,
) -> Result<bool, AllocError> {
    for key in keys {
        if !is_in_main(alloc, store, Some(key.as_slice()), item)? {
            return Ok(false);
        }
    }
    Ok(true)
}

/// Whether no linked row and nothing in the main part has the item.
pub fn has_no_pair(alloc: Global, store: &Store, item: u32) -> Result<bool, AllocError> {
    Ok(!has_row(store, item) && !is_in_main(alloc, store, None, item)?)
}

/// Whether the item has all these keys in linked rows, or all in the main part.
pub fn is_indexed(
    alloc: Global,
    store: &Store,
    keys: &[Vec<u8>],
    item: u32,
) -> Result<bool, AllocError> {
    let linked = has_rows_from(store, first_linked(store), keys, item);
    Ok(linked || all_in_main(alloc, store, keys, item)?)
}

/// The child for a key: the first whose bound isn't below it.
fn bound_for_key(children: &[PlainChild], key: &[u8]) -> Option<u32> {
    for child in children {
        if child.bound.is_empty() || key <= child.bound.as_slice() {
            return Some(child.page);
        }
    }
    None
}

/// The child below which the key is.
fn child_for_key(store: &Store, page: u32, key: &[u8]) -> Option<u32> {
    match store.live(page)? {
        PlainBody::EntryInner(children) => bound_for_key(children, key),
        _ => None,
    }
}

/// The page to which the way down from the root leads for a key; none where it goes in a circle.
pub fn page_for_key(store: &Store, key: &[u8]) -> Option<u32> {
    let mut page = ROOT;
    for _ in 0..=store.count() {
        match child_for_key(store, page, key) {
            None => return Some(page),
            Some(child) => page = child,
        }
    }
    None
}

/// The child for an item: the first whose bound isn't below it.
fn bound_for_item(children: &[PostChild], item: u32) -> Option<u32> {
    for child in children {
        if item <= child.bound {
            return Some(child.page);
        }
    }
    None
}

/// The child below which the item is.
fn child_for_item(store: &Store, page: u32, item: u32) -> Option<u32> {
    match store.live(page)? {
        PlainBody::PostInner(children) => bound_for_item(children, item),
        _ => None,
    }
}

/// The page to which the way down from a root leads for an item; none where it goes in a circle.
pub fn page_for_item(store: &Store, root: u32, item: u32) -> Option<u32> {
    let mut page = root;
    for _ in 0..=store.count() {
        match child_for_item(store, page, item) {
            None => return Some(page),
            Some(child) => page = child,
        }
    }
    None
}

/// The root of the posting tree that the entry names.
pub fn root_of(entry: &PlainEntry) -> Option<u32> {
    match &entry.postings {
        PlainPostings::Inline(_) => None,
        PlainPostings::Root(root) => Some(*root),
    }
}
