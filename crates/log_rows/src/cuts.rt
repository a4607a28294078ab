// Where the content of a tree page is cut in two.
use crate::lists::in_two;
use crate::sizes::{HIGH_ITEM, children, entries, high_field, item_list, post_children};
use log_walks::{PlainBody, PlainChild, PlainEntry};
use page_types::MOST_BODY_BYTES;

/// How many bytes two parts of a tree page have.
#[derive(Clone, Copy)]
struct Cut {
    /// What the first part lists: entries, children or items.
    listed: usize,
    /// The high key or high item of the first part.
    high: usize,
    /// The body of the second part.
    back: usize,
}

/// The bytes of a high key that is the last of these entries' keys.
fn last_high(front: &[PlainEntry]) -> usize {
    match front.last() {
        Some(last) => high_field(&last.key),
        None => 0,
    }
}

/// Of a leaf of the tree of keys, whose first part gets its last key as high key.
fn entry_cut(high: &[u8], all: &[PlainEntry], place: usize) -> Cut {
    let (front, back) = in_two(all, place);
    Cut {
        listed: entries(front),
        high: last_high(front),
        back: entries(back).saturating_add(high_field(high)),
    }
}

/// Of an inner page of the tree of keys.
fn child_cut(all: &[PlainChild], place: usize) -> Cut {
    let (front, back) = in_two(all, place);
    Cut {
        listed: children(front),
        high: 0,
        back: children(back),
    }
}

/// Of a leaf of a posting tree.
fn item_cut(all: &[u32], place: usize) -> Cut {
    let (front, back) = in_two(all, place);
    Cut {
        listed: item_list(front),
        high: HIGH_ITEM,
        back: item_list(back).saturating_add(HIGH_ITEM),
    }
}

/// Of an inner page of a posting tree with so many children.
fn post_child_cut(count: usize, place: usize) -> Cut {
    Cut {
        listed: post_children(place),
        high: 0,
        back: post_children(count.saturating_sub(place)),
    }
}

/// The page's content, cut after its first `place` members.
fn cut_at(body: &PlainBody, place: usize) -> Cut {
    match body {
        PlainBody::EntryLeaf { high, entries: all } => entry_cut(high, all, place),
        PlainBody::EntryInner(all) => child_cut(all, place),
        PlainBody::PostLeaf { items, .. } => item_cut(items, place),
        PlainBody::PostInner(all) => post_child_cut(all.len(), place),
        _ => post_child_cut(0, 0),
    }
}

/// How many entries, children or items are on a tree page.
pub(crate) fn members(body: &PlainBody) -> usize {
    match body {
        PlainBody::EntryLeaf { entries: all, .. } => all.len(),
        PlainBody::EntryInner(all) => all.len(),
        PlainBody::PostLeaf { items, .. } => items.len(),
        PlainBody::PostInner(all) => all.len(),
        _ => 0,
    }
}

impl Cut {
    /// Whether the first part has at least half of the bytes.
    fn keeps_half(self, whole: usize) -> bool {
        self.listed.saturating_mul(2) >= whole
    }

    /// Whether the first part fits.
    fn fits(self) -> bool {
        self.listed.saturating_add(self.high) <= MOST_BODY_BYTES
    }

    /// Whether the page may be cut here alone: the first part has half of the bytes, and both fit.
    fn is_better(self, whole: usize) -> bool {
        self.keeps_half(whole) && self.fits() && self.back <= MOST_BODY_BYTES
    }
}

/// Whether the page may be cut after its first `place` members: they have at least half of the bytes, where two such
/// parts fit, else they are the longest first part that fits.
pub(crate) fn may_cut_at(body: &PlainBody, place: usize) -> bool {
    let count = members(body);
    let whole = cut_at(body, count).listed;
    if cut_at(body, place).keeps_half(whole) {
        return true;
    }
    for other in 1..count {
        let cut = cut_at(body, other);
        if cut.is_better(whole) || cut.fits() && other > place {
            return false;
        }
    }
    true
}
