// The two parts of a page that is split.
use crate::lists::are_parts;
use log_walks::{PlainBody, PlainChild, PlainEntry, key_leaf_in, post_leaf_in};
use page_types::PostChild;

/// What divides the two parts of a split page: what the first part's bound becomes.
#[derive(Clone, Copy)]
pub(crate) enum Divider<'a> {
    /// A key, in the tree of keys.
    Key(&'a [u8]),
    /// An item, in a posting tree.
    Item(u32),
}

impl Divider<'_> {
    /// Whether it is this key.
    pub(crate) fn is_key(self, bound: &[u8]) -> bool {
        match self {
            Divider::Key(mid) => mid == bound,
            Divider::Item(_) => false,
        }
    }

    /// Whether it is this item.
    pub(crate) fn is_item(self, bound: u32) -> bool {
        match self {
            Divider::Key(_) => false,
            Divider::Item(mid) => mid == bound,
        }
    }
}

/// The last bound of children in the tree of keys; no bytes where there is none.
fn last_key(children: &[PlainChild]) -> &[u8] {
    match children.last() {
        Some(child) => &child.bound,
        None => &[],
    }
}

/// The last bound of children in a posting tree; 0 where there is none.
fn last_item(children: &[PostChild]) -> u32 {
    match children.last() {
        Some(child) => child.bound,
        None => 0,
    }
}

/// What divides the first part of a page, which this is, from the second one: its high key or item, or its last bound.
pub(crate) fn divider_of(front: &PlainBody) -> Divider<'_> {
    match front {
        PlainBody::EntryLeaf { high, .. } => Divider::Key(high),
        PlainBody::EntryInner(children) => Divider::Key(last_key(children)),
        PlainBody::PostLeaf { high, .. } => Divider::Item(*high),
        PlainBody::PostInner(children) => Divider::Item(last_item(children)),
        _ => Divider::Item(0),
    }
}

/// Whether a key is at least the last of the first entries' keys, and below the first of the others'.
fn divides_entries(front: &[PlainEntry], mid: &[u8], back: &[PlainEntry]) -> bool {
    match (front.last(), back.first()) {
        (Some(last), Some(next)) => last.key.as_slice() <= mid && mid < next.key.as_slice(),
        _ => false,
    }
}

/// Whether an item is at least the last of the first ones, and below the first of the others.
fn divides_items(front: &[u32], mid: u32, back: &[u32]) -> bool {
    match (front.last(), back.first()) {
        (Some(last), Some(next)) => *last <= mid && mid < *next,
        _ => false,
    }
}

/// Whether two leaves of the tree of keys hold these entries, divided by the first one's high key; the second one keeps
/// the high key.
fn hold_entries(high: &[u8], all: &[PlainEntry], front: &PlainBody, back: &PlainBody) -> bool {
    match (key_leaf_in(Some(front)), key_leaf_in(Some(back))) {
        (Some(front), Some(back)) => {
            back.high == high
                && are_parts(all, front.entries, back.entries)
                && divides_entries(front.entries, front.high, back.entries)
        }
        _ => false,
    }
}

/// Whether two leaves of a posting tree hold these items, likewise.
fn hold_items(high: u32, all: &[u32], front: &PlainBody, back: &PlainBody) -> bool {
    match (post_leaf_in(Some(front)), post_leaf_in(Some(back))) {
        (Some(front), Some(back)) => {
            back.high == high
                && are_parts(all, front.items, back.items)
                && divides_items(front.items, front.high, back.items)
        }
        _ => false,
    }
}

/// Whether two inner pages of the tree of keys hold these children.
fn hold_children(all: &[PlainChild], front: &PlainBody, back: &PlainBody) -> bool {
    match (front, back) {
        (PlainBody::EntryInner(front), PlainBody::EntryInner(back)) => are_parts(all, front, back),
        _ => false,
    }
}

/// Whether two inner pages of a posting tree hold these children.
fn hold_posts(all: &[PostChild], front: &PlainBody, back: &PlainBody) -> bool {
    match (front, back) {
        (PlainBody::PostInner(front), PlainBody::PostInner(back)) => are_parts(all, front, back),
        _ => false,
    }
}

/// Whether the content of a tree page was split into that of two pages, neither of them empty.
pub(crate) fn are_halves(whole: &PlainBody, front: &PlainBody, back: &PlainBody) -> bool {
    match whole {
        PlainBody::EntryLeaf { high, entries } => hold_entries(high, entries, front, back),
        PlainBody::EntryInner(all) => hold_children(all, front, back),
        PlainBody::PostLeaf { high, items } => hold_items(*high, items, front, back),
        PlainBody::PostInner(all) => hold_posts(all, front, back),
        _ => false,
    }
}
