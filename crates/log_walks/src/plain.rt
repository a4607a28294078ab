// Pages in lists that can be compared and changed.
use page_types::{HeadFields, PostChild};

/// A head, and the vector's bytes that are in it.
#[derive(PartialEq, Drop)]
pub struct PlainHead {
    /// All but the vector.
    pub fields: HeadFields,
    /// The vector's bytes, where they are at most 2000; else none.
    pub vector: Vec<u8>,
}

/// A row of the pending list.
#[derive(PartialEq, Drop)]
pub struct PlainRow {
    /// The document's item.
    pub item: u32,
    /// Keys of it.
    pub keys: Vec<Vec<u8>>,
}

/// Where an entry's items are.
#[derive(PartialEq, Drop)]
pub enum PlainPostings {
    /// In the entry.
    Inline(Vec<u32>),
    /// In the posting tree with this root.
    Root(u32),
}

/// An entry of a leaf of the entry tree.
#[derive(PartialEq, Drop)]
pub struct PlainEntry {
    /// The key.
    pub key: Vec<u8>,
    /// Its items.
    pub postings: PlainPostings,
}

/// A child of an inner page of the entry tree.
#[derive(PartialEq, Drop)]
pub struct PlainChild {
    /// The child's page.
    pub page: u32,
    /// The greatest key that may be below it; no bytes: there is no bound.
    pub bound: Vec<u8>,
}

/// What is on a page that some record has changed.
#[derive(PartialEq, Drop)]
pub enum PlainBody {
    /// The pending list: its first and its last page (0: none), and how many it has.
    Meta {
        first: u32,
        last: u32,
        pages: u32,
    },
    /// Slots, each free or with a head.
    Heap(Vec<Option<PlainHead>>),
    /// A part of a vector.
    Overflow(Vec<u8>),
    /// Rows of the pending list.
    Pending(Vec<PlainRow>),
    /// A leaf of the entry tree: its high key (none without right link) and its entries.
    EntryLeaf {
        high: Vec<u8>,
        entries: Vec<PlainEntry>,
    },
    /// An inner page of the entry tree.
    EntryInner(Vec<PlainChild>),
    /// A leaf of a posting tree: its high item (0 without right link) and its items.
    PostLeaf {
        high: u32,
        items: Vec<u32>,
    },
    /// An inner page of a posting tree.
    PostInner(Vec<PostChild>),
}

/// A page that some record has changed.
#[derive(Drop)]
pub struct PlainPage {
    /// The right link, or 0.
    pub right: u32,
    /// The number of the last record that changed it.
    pub stamp: u64,
    /// It was deleted; the body stays.
    pub deleted: bool,
    /// What is on it, or was there when it was deleted.
    pub body: PlainBody,
}

impl PlainPage {
    /// What is on it, unless it was deleted.
    pub fn live(&self) -> Option<&PlainBody> {
        if self.deleted { None } else { Some(&self.body) }
    }
}

/// A leaf of the tree of keys.
#[derive(Clone, Copy)]
pub struct KeyLeaf<'a> {
    /// Its high key, no bytes without right link.
    pub high: &'a [u8],
    /// Its entries.
    pub entries: &'a [PlainEntry],
}

/// A leaf of a posting tree.
#[derive(Clone, Copy)]
pub struct PostLeaf<'a> {
    /// Its high item, 0 without right link.
    pub high: u32,
    /// Its items.
    pub items: &'a [u32],
}

/// The leaf of the tree of keys that this is.
pub fn key_leaf_in(body: Option<&PlainBody>) -> Option<KeyLeaf<'_>> {
    match body {
        Some(PlainBody::EntryLeaf { high, entries }) => Some(KeyLeaf { high, entries }),
        _ => None,
    }
}

/// The leaf of a posting tree that this is.
pub fn post_leaf_in(body: Option<&PlainBody>) -> Option<PostLeaf<'_>> {
    match body {
        Some(PlainBody::PostLeaf { high, items }) => Some(PostLeaf { high: *high, items }),
        _ => None,
    }
}

/// The entries of a leaf of the tree of keys; of another page none.
pub fn entries_in(body: Option<&PlainBody>) -> &[PlainEntry] {
    match body {
        Some(PlainBody::EntryLeaf { entries, .. }) => entries,
        _ => &[],
    }
}

/// The slots of a heap page; of another page none.
pub fn slots_in(body: Option<&PlainBody>) -> &[Option<PlainHead>] {
    match body {
        Some(PlainBody::Heap(slots)) => slots,
        _ => &[],
    }
}

/// The rows of a pending page; of another page none.
pub fn rows_in(body: Option<&PlainBody>) -> &[PlainRow] {
    match body {
        Some(PlainBody::Pending(rows)) => rows,
        _ => &[],
    }
}
