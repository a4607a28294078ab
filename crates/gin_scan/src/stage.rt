// What a scan reads next.
ghost use Rattle.std.specs.Prelude.{◌≡◌};
ghost use Rattle.gin_scan.specs.Inner.Ways.{stage_with};

use page_types::Name;

/// What a scan reads next.
#[derive(Clone, Copy)]
pub(crate) enum Stage {
    /// The metapage.
    Meta,
    /// This page of the pending list, and at most so many; page 0: there is no further one.
    Pending {
        page: u32,
        left: u32,
    },
    /// This page on the way of the key with this number to its leaf, and at most so many pages for it; a number past
    /// all keys: all that was read is judged.
    Down {
        key: usize,
        page: u32,
        left: u32,
    },
    /// This leaf, where more keys may fit the one with this number, and at most so many pages for it; page 0: there is
    /// no further one.
    Leaf {
        key: usize,
        page: u32,
        left: u32,
    },
    /// This page of the posting tree with this number, on the way of the key with that one, and at most so many pages
    /// of the tree; page 0: there is no further one. Then the trees after it are read, and then a leaf; so many pages
    /// were read on the key's way to leaves.
    Posting {
        key: usize,
        at: usize,
        page: u32,
        left: u32,
        then: u32,
        read: u32,
    },
    /// The heap page of the kept item with this number; none is left after the last.
    Heads {
        at: usize,
    },
    /// This page with a part of the vector that waits under this number, and at most so many; page 0: all
    /// parts were read, and it is matched.
    Parts {
        at: usize,
        page: u32,
        left: u32,
    },
    /// Nothing.
    Done,
}

impl Stage {
    /// The same, where at most so many pages are left.
    pub(crate) fn with_left(self, left: u32) -> Stage
        ensures { result ≡ stage_with self left }
    {
        match self {
            Stage::Pending { page, .. } => Stage::Pending { page, left },
            Stage::Down { key, page, .. } => Stage::Down { key, page, left },
            Stage::Leaf { key, page, .. } => Stage::Leaf { key, page, left },
            Stage::Posting {
                key,
                at,
                page,
                then,
                read,
                ..
            } => {
                Stage::Posting {
                    key,
                    at,
                    page,
                    left,
                    then,
                    read,
                }
            }
            Stage::Parts { at, page, .. } => Stage::Parts { at, page, left },
            other => other,
        }
    }
}

/// A document of the snapshot whose vector is on overflow pages, and is still to be matched.
#[derive(Clone, Copy)]
pub(crate) struct LongVector {
    /// The document's name.
    pub(crate) name: Name,
    /// The first overflow page.
    pub(crate) first: u32,
    /// How many bytes the vector has.
    pub(crate) size: u32,
}
