// Decoded pages as plain ones.
use crate::fault::Fault;
use crate::plain::{
    PlainBody, PlainChild, PlainEntry, PlainHead, PlainPage, PlainPostings, PlainRow,
};
use page_types::{
    Body, Bytes, Entries, EntryChildRef, EntryChildren, EntryRef, Gone, HeadRef, Page, PiecesRef,
    PostChildren, PostingsRef, RowRef, Rows, Slots,
};
use std::alloc::Global;

/// The head of a slot, unless that is free.
fn plain_slot(alloc: Global, slot: Option<HeadRef<'_>>) -> Result<Option<PlainHead>, Fault> {
    match slot {
        None => Ok(None),
        Some(head) => Ok(Some(PlainHead {
            fields: head.fields,
            vector: Vec::from_slice(alloc, head.vector)?,
        })),
    }
}

/// A heap page.
fn plain_heap(alloc: Global, slots: &Slots) -> Result<PlainBody, Fault> {
    let mut all = Vec::new(alloc);
    for k in 0..slots.len() {
        all.push(plain_slot(alloc, slots.get(k))?)?;
    }
    Ok(PlainBody::Heap(all))
}

/// An overflow page.
fn plain_overflow(alloc: Global, part: &Bytes) -> Result<PlainBody, Fault> {
    Ok(PlainBody::Overflow(Vec::from_slice(alloc, part.as_slice())?))
}

/// The keys of a row.
fn plain_keys(alloc: Global, keys: PiecesRef<'_>) -> Result<Vec<Vec<u8>>, Fault> {
    let mut all = Vec::new(alloc);
    for k in 0..keys.len() {
        all.push(Vec::from_slice(alloc, keys.at(k))?)?;
    }
    Ok(all)
}

/// A row of a pending page.
fn plain_row(alloc: Global, row: RowRef<'_>) -> Result<PlainRow, Fault> {
    Ok(PlainRow {
        item: row.item,
        keys: plain_keys(alloc, row.keys)?,
    })
}

/// A pending page.
fn plain_pending(alloc: Global, rows: &Rows) -> Result<PlainBody, Fault> {
    let mut all = Vec::new(alloc);
    for k in 0..rows.len() {
        if let Some(row) = rows.get(k) {
            all.push(plain_row(alloc, row)?)?;
        }
    }
    Ok(PlainBody::Pending(all))
}

/// The items of a list: each byte below 128 ends a difference, whose low seven bits come first.
fn plain_items(alloc: Global, list: &[u8]) -> Result<Vec<u32>, Fault> {
    let mut items = Vec::new(alloc);
    let mut item = 0u32;
    let mut scale = 1u32;
    for byte in list {
        let digit = (*byte % 128) as u32;
        item = item.saturating_add(digit.saturating_mul(scale));
        scale = scale.saturating_mul(128);
        if *byte < 128 {
            items.push(item)?;
            scale = 1;
        }
    }
    Ok(items)
}

/// Where an entry's items are.
fn plain_postings(alloc: Global, postings: PostingsRef<'_>) -> Result<PlainPostings, Fault> {
    match postings {
        PostingsRef::Inline(list) => Ok(PlainPostings::Inline(plain_items(alloc, list)?)),
        PostingsRef::Root(root) => Ok(PlainPostings::Root(root)),
    }
}

/// An entry of a leaf of the tree of keys.
fn plain_entry(alloc: Global, entry: EntryRef<'_>) -> Result<PlainEntry, Fault> {
    let postings = plain_postings(alloc, entry.postings)?;
    let key = Vec::from_slice(alloc, entry.key)?;
    Ok(PlainEntry { key, postings })
}

/// The entries of a leaf.
fn plain_entries(alloc: Global, entries: &Entries) -> Result<Vec<PlainEntry>, Fault> {
    let mut all = Vec::new(alloc);
    for k in 0..entries.len() {
        if let Some(entry) = entries.get(k) {
            all.push(plain_entry(alloc, entry)?)?;
        }
    }
    Ok(all)
}

/// A leaf of the tree of keys.
fn plain_leaf(alloc: Global, high: &Bytes, entries: &Entries) -> Result<PlainBody, Fault> {
    let entries = plain_entries(alloc, entries)?;
    let high = Vec::from_slice(alloc, high.as_slice())?;
    Ok(PlainBody::EntryLeaf { high, entries })
}

/// A child of an inner page of the tree of keys.
fn plain_child(alloc: Global, child: EntryChildRef<'_>) -> Result<PlainChild, Fault> {
    Ok(PlainChild {
        page: child.page,
        bound: Vec::from_slice(alloc, child.bound)?,
    })
}

/// An inner page of the tree of keys.
fn plain_inner(alloc: Global, children: &EntryChildren) -> Result<PlainBody, Fault> {
    let mut all = Vec::new(alloc);
    for k in 0..children.len() {
        if let Some(child) = children.get(k) {
            all.push(plain_child(alloc, child)?)?;
        }
    }
    Ok(PlainBody::EntryInner(all))
}

/// A leaf of a posting tree.
fn plain_post_leaf(alloc: Global, high: u32, items: &Bytes) -> Result<PlainBody, Fault> {
    let items = plain_items(alloc, items.as_slice())?;
    Ok(PlainBody::PostLeaf { high, items })
}

/// An inner page of a posting tree.
fn plain_post_inner(alloc: Global, children: &PostChildren) -> Result<PlainBody, Fault> {
    let mut all = Vec::new(alloc);
    for k in 0..children.len() {
        if let Some(child) = children.get(k) {
            all.push(*child)?;
        }
    }
    Ok(PlainBody::PostInner(all))
}

/// What a deleted page keeps.
fn plain_gone(alloc: Global, gone: &Gone) -> Result<PlainBody, Fault> {
    match gone {
        Gone::Overflow(part) => plain_overflow(alloc, part),
        Gone::Pending(rows) => plain_pending(alloc, rows),
        Gone::PostLeaf { high, items } => plain_post_leaf(alloc, *high, items),
    }
}

/// What is on a page of either tree.
fn plain_tree(alloc: Global, body: &Body) -> Result<PlainBody, Fault> {
    match body {
        Body::EntryLeaf { high, entries } => plain_leaf(alloc, high, entries),
        Body::EntryInner(children) => plain_inner(alloc, children),
        Body::PostLeaf { high, items } => plain_post_leaf(alloc, *high, items),
        Body::PostInner(children) => plain_post_inner(alloc, children),
        _ => Err(Fault::Broken("a changed page isn't free")),
    }
}

/// What is on a page, or was there when it was deleted; there is something.
fn plain_body(alloc: Global, body: &Body) -> Result<PlainBody, Fault> {
    match body {
        Body::Meta { first, last, pages } => Ok(PlainBody::Meta {
            first: *first,
            last: *last,
            pages: *pages,
        }),
        Body::Heap(slots) => plain_heap(alloc, slots),
        Body::Overflow(part) => plain_overflow(alloc, part),
        Body::Pending(rows) => plain_pending(alloc, rows),
        Body::Deleted(gone) => plain_gone(alloc, gone),
        _ => plain_tree(alloc, body),
    }
}

/// The page, on which something is.
pub fn plain_page(alloc: Global, page: &Page) -> Result<PlainPage, Fault> {
    let body = plain_body(alloc, &page.body)?;
    Ok(PlainPage {
        right: page.right,
        stamp: page.stamp,
        deleted: matches!(&page.body, Body::Deleted(_)),
        body,
    })
}
