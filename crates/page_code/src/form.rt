// What the first two bytes of a page say.

/// The kind of a live page, or of a deleted one.
#[derive(Clone, Copy, Debug, PartialEq, Eq)]
pub enum Form {
    /// All zeros.
    Free,
    /// The metapage.
    Meta,
    /// Heads of documents.
    Heap,
    /// A part of a vector.
    Overflow,
    /// Rows of the pending list.
    Pending,
    /// A leaf of the entry tree.
    EntryLeaf,
    /// An inner page of the entry tree.
    EntryInner,
    /// A leaf of a posting tree.
    PostLeaf,
    /// An inner page of a posting tree.
    PostInner,
    /// A deleted page with a part of a vector.
    GoneOverflow,
    /// A deleted page with rows of the pending list.
    GonePending,
    /// A deleted leaf of a posting tree.
    GonePostLeaf,
}
