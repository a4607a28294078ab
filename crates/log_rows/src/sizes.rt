// How many bytes the parts of tree pages have.
use log_walks::{PlainBody, PlainChild, PlainEntry, PlainPostings};

/// A page's body has at most so many bytes, and grows or is split only above half of that.
pub(crate) const HALF_BODY: usize = 4084;

/// A key field: its length, and the key.
fn key_field(key: &[u8]) -> usize {
    key.len().saturating_add(2)
}

/// A high key field, which a leaf without right link doesn't have.
pub(crate) fn high_field(high: &[u8]) -> usize {
    if high.is_empty() { 0 } else { key_field(high) }
}

/// A difference between items: a byte for each seven bits.
fn varbyte(difference: u32) -> usize {
    match difference {
        0..128 => 1,
        128..16_384 => 2,
        16_384..2_097_152 => 3,
        2_097_152..268_435_456 => 4,
        _ => 5,
    }
}

/// The differences of rising items, the first from 0.
pub(crate) fn item_list(items: &[u32]) -> usize {
    let mut size = 0usize;
    let mut last = 0u32;
    for item in items {
        size = size.saturating_add(varbyte(item.saturating_sub(last)));
        last = *item;
    }
    size
}

/// An entry's list with its length, or its root.
fn postings(postings: &PlainPostings) -> usize {
    match postings {
        PlainPostings::Inline(items) => item_list(items).saturating_add(2),
        PlainPostings::Root(_) => 4,
    }
}

/// Entries: each a key field, a form, and a list or a root.
pub(crate) fn entries(all: &[PlainEntry]) -> usize {
    let mut size = 0usize;
    for entry in all {
        size = size
            .saturating_add(key_field(&entry.key))
            .saturating_add(1)
            .saturating_add(postings(&entry.postings));
    }
    size
}

/// Children of the tree of keys: each a page and a bound.
pub(crate) fn children(all: &[PlainChild]) -> usize {
    let mut size = 0usize;
    for child in all {
        size = size
            .saturating_add(4)
            .saturating_add(key_field(&child.bound));
    }
    size
}

/// So many children of a posting tree: each a page and a bound.
pub(crate) fn post_children(count: usize) -> usize {
    count.saturating_mul(8)
}

/// The high item of a posting leaf.
pub(crate) const HIGH_ITEM: usize = 4;

/// The body of a tree page; 0 of another page.
pub(crate) fn tree_body(body: &PlainBody) -> usize {
    match body {
        PlainBody::EntryLeaf { high, entries: all } => entries(all).saturating_add(high_field(
            high,
        )),
        PlainBody::EntryInner(all) => children(all),
        PlainBody::PostLeaf { items, .. } => item_list(items).saturating_add(HIGH_ITEM),
        PlainBody::PostInner(all) => post_children(all.len()),
        _ => 0,
    }
}
