// What is on a page.
ghost use Rattle.std.specs.Prelude.{◌≡◌};

use crate::bytes::Bytes;
use crate::entries::Entries;
use crate::inners::{EntryChildren, PostChildren};
use crate::pieces::Pieces;
use crate::rows::Rows;
use crate::slots::Slots;
use std::alloc::AllocError;

/// A document's name: the place of its head, and its serial number.
#[derive(Clone, Copy, Debug, PartialEq, Eq)]
pub struct Name {
    /// The heap page.
    pub page: u32,
    /// The slot on it.
    pub slot: u16,
    /// The serial number.
    pub serial: u64,
}

/// A document's head.
#[derive(Debug, Drop)]
pub struct Head {
    /// The document's serial number.
    pub serial: u64,
    /// The transaction that placed it.
    pub inserted_by: u32,
    /// The transaction that marked it deleted, or 0.
    pub deleted_by: u32,
    /// The first overflow page, or 0.
    pub overflow: u32,
    /// The first private pending page, or 0.
    pub private: u32,
    /// How many bytes the vector has.
    pub bytes: u32,
    /// The vector's bytes, where they are at most 2000; else none, for they are on the overflow pages.
    pub vector: Bytes,
}

/// A row of the pending list: an item and keys of its document.
#[derive(Debug, Drop)]
pub struct Row {
    /// The document's item.
    pub item: u32,
    /// Keys, rising.
    pub keys: Pieces,
}

/// Where an entry's items are.
#[derive(Debug, Drop)]
pub enum Postings {
    /// In the entry, as an item list.
    Inline(Bytes),
    /// In the posting tree with this root.
    Root(u32),
}

/// An entry of a leaf of the entry tree.
#[derive(Debug, Drop)]
pub struct Entry {
    /// The key.
    pub key: Bytes,
    /// Its items.
    pub postings: Postings,
}

/// A child of an inner page of the entry tree.
#[derive(Debug, Drop)]
pub struct EntryChild {
    /// The child's page.
    pub page: u32,
    /// The greatest key that may be below it; no bytes: there is no bound.
    pub bound: Bytes,
}

/// A child of an inner page of a posting tree.
#[derive(Clone, Copy, Debug, PartialEq, Eq)]
pub struct PostChild {
    /// The child's page.
    pub page: u32,
    /// The greatest item that may be below it; 4,294,967,295: there is no bound.
    pub bound: u32,
}

/// What a deleted page keeps of what was on it.
#[derive(Debug, Drop)]
pub enum Gone {
    /// A part of a vector.
    Overflow(Bytes),
    /// Rows of the pending list.
    Pending(Rows),
    /// A leaf of a posting tree: its high item and its item list.
    PostLeaf { high: u32, items: Bytes },
}

/// What is on a page: a variant a kind, in the order of their numbers.
#[derive(Debug, Drop)]
pub enum Body {
    /// No record has changed the page.
    Free,
    /// The metapage: the first and the last page of the pending list (0: none), and how many it has.
    Meta { first: u32, last: u32, pages: u32 },
    /// Heads of documents.
    Heap(Slots),
    /// A part of a vector that is too long for its head; the right link leads to the next one.
    Overflow(Bytes),
    /// Rows of the pending list.
    Pending(Rows),
    /// A leaf of the entry tree: its high key (none without right link) and its entries.
    EntryLeaf { high: Bytes, entries: Entries },
    /// An inner page of the entry tree.
    EntryInner(EntryChildren),
    /// A leaf of a posting tree: its high item (0 without right link) and its item list.
    PostLeaf { high: u32, items: Bytes },
    /// An inner page of a posting tree.
    PostInner(PostChildren),
    /// A page that was deleted.
    Deleted(Gone),
}

/// A page.
#[derive(Debug, Drop)]
pub struct Page {
    /// The right link, or 0.
    pub right: u32,
    /// The number of the last record that changed the page.
    pub stamp: u64,
    /// What is on it.
    pub body: Body,
}

impl Clone for Gone {
    ghost is_clone = { λ a b. b ≡ a };

    fn clone(&self) -> Result<Gone, AllocError> {
        match self {
            Gone::Overflow(bytes) => Ok(Gone::Overflow(bytes.clone()?)),
            Gone::Pending(rows) => Ok(Gone::Pending(rows.clone()?)),
            Gone::PostLeaf { high, items } => Ok(Gone::PostLeaf {
                high: *high,
                items: items.clone()?,
            }),
        }
    }
}

impl Clone for Body {
    ghost is_clone = { λ a b. b ≡ a };

    fn clone(&self) -> Result<Body, AllocError> {
        match self {
            Body::Free => Ok(Body::Free),
            Body::Meta { first, last, pages } => Ok(Body::Meta {
                first: *first,
                last: *last,
                pages: *pages,
            }),
            Body::Heap(slots) => Ok(Body::Heap(slots.clone()?)),
            Body::Overflow(bytes) => Ok(Body::Overflow(bytes.clone()?)),
            Body::Pending(rows) => Ok(Body::Pending(rows.clone()?)),
            Body::EntryLeaf { high, entries } => {
                let high = high.clone()?;
                let entries = entries.clone()?;
                Ok(Body::EntryLeaf { high, entries })
            }
            Body::EntryInner(children) => Ok(Body::EntryInner(children.clone()?)),
            Body::PostLeaf { high, items } => Ok(Body::PostLeaf {
                high: *high,
                items: items.clone()?,
            }),
            Body::PostInner(children) => Ok(Body::PostInner(children.clone()?)),
            Body::Deleted(gone) => Ok(Body::Deleted(gone.clone()?)),
        }
    }
}

impl Clone for Page {
    ghost is_clone = { λ a b. b ≡ a };

    fn clone(&self) -> Result<Page, AllocError> {
        let body = self.body.clone()?;
        Ok(Page {
            right: self.right,
            stamp: self.stamp,
            body,
        })
    }
}
