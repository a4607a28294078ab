// The records of the log, and how they change pages.
ghost use Rattle.std.specs.Prelude.{◌≡◌, ◌↔◌, length, OnOk, OnErr, IfOk, IsOk};

use crate::PAGE_BYTES;
use crate::bytes::Bytes;
use crate::edits::apply;
use crate::error::BadChange;
use crate::seq::Seq;
use std::alloc::{AllocError, Global};
use std::marker::Model;

/// The bytes of a whole page, which need not be a page's encoding. Contracts see them as a list of 8192 bytes.
#[derive(Debug, Drop)]
pub struct PageBytes {
    inner: Vec<u8>,
}

impl Model for PageBytes {
    ghost use Rattle.std.specs.Prelude.{◌≡◌, List, ℕ, length};

    ghost Value = { List ℕ };

    ghost view = { λ b. b.inner.items };

    ghost invariant = { λ b. length b.inner.items ≡ 8192 };
}

impl PageBytes {
    ghost use Rattle.page_types.specs.Edits.{edited, CanEdit};

    /// These bytes, which are not copied.
    pub fn from_vec(bytes: Vec<u8>) -> PageBytes
        requires { length bytes.items ≡ PAGE_BYTES }
        ensures { result ≡ bytes.items }
    {
        PageBytes { inner: bytes }
    }

    /// A copy of these bytes.
    pub fn from_slice(alloc: Global, bytes: &[u8]) -> Result<PageBytes, AllocError>
        requires { length bytes.now ≡ PAGE_BYTES }
        ensures { IfOk result (λ b. b ≡ bytes.now) }
    {
        let inner = Vec::from_slice(alloc, bytes)?;
        Ok(PageBytes { inner })
    }

    /// The bytes, by reference.
    pub fn as_slice(&self) -> &[u8]
        ensures value { result.now ≡ self.now }
        ensures size { length self.now ≡ PAGE_BYTES }
    {
        self.inner.as_slice()
    }

    /// The bytes as a vector, which are not copied.
    pub fn into_vec(self) -> Vec<u8>
        ensures value { result.items ≡ self }
        ensures size { length self ≡ PAGE_BYTES }
    {
        let PageBytes { inner } = self;
        inner
    }

    /// Changes the bytes, as the record with this number does. A refusal leaves them as they are.
    pub fn change(&mut self, number: u64, change: &Change) -> Result<(), BadChange>
        ensures done { OnOk result (self.new ≡ edited number change.now.edit self.old) }
        ensures ok { IsOk result ↔ CanEdit change.now.edit self.old }
        ensures same { OnErr result (self.new ≡ self.old) }
    {
        apply(&mut self.inner, number, change)
    }
}

/// How a page is changed.
#[derive(Debug, Drop)]
pub enum Edit {
    /// All its bytes from now on.
    Image(PageBytes),
    /// New bytes 0 to 7; and in place of the body's bytes from `start` on, `cut` of them, these bytes.
    Delta {
        front: [u8; 8],
        start: u16,
        cut: u16,
        bytes: Bytes,
    },
}

/// The change of a page.
#[derive(Debug, Drop)]
pub struct Change {
    /// The page.
    pub page: u32,
    /// How it is changed.
    pub edit: Edit,
}

/// What a record is of: a variant a kind, in the order of their numbers, which begin at 1.
#[derive(Clone, Copy, Debug, PartialEq, Eq)]
pub enum Kind {
    /// The store is made.
    Create,
    /// A transaction begins.
    Begin,
    /// A transaction commits, as this commit.
    Commit { commit: u32 },
    /// A transaction ends without effect; with xid 0, each that runs.
    Abort,
    /// Reopening may begin with the changes of this record.
    Checkpoint { redo: u64 },
    /// A document's head is placed.
    PlaceHead { item: u32, serial: u64 },
    /// A part of a document's vector is put in front of the others.
    PutOverflow { item: u32, serial: u64 },
    /// A document is marked deleted.
    MarkDeleted { item: u32, serial: u64 },
    /// A page of a document's rows is put in front of the others.
    PutPending { item: u32, serial: u64 },
    /// A document's row is added to the last pending page.
    AddRow { item: u32, serial: u64 },
    /// A document's pages of rows are linked to the pending list.
    LinkPending { item: u32, serial: u64 },
    /// The first page leaves the pending list.
    Shift,
    /// Items are added to an entry.
    AddItems,
    /// An entry's items move to a posting tree.
    MakeTree,
    /// Items are added to a leaf of a posting tree.
    AddPostings,
    /// A root gets a level more below it.
    GrowRoot,
    /// A page is split.
    Split,
    /// Items leave a list.
    RemoveItems,
    /// An empty leaf of a posting tree is deleted.
    DeletePost,
    /// The first page of a dead document's chain is deleted.
    DropPage { item: u32, serial: u64 },
    /// Slots of dead documents become free.
    FreeSlots,
}

/// A record of the log.
#[derive(Debug, Drop)]
pub struct Record {
    /// Its number: records count from 1.
    pub number: u64,
    /// The transaction, or 0.
    pub xid: u32,
    /// What it is of.
    pub kind: Kind,
    /// The changes of pages, in order.
    pub changes: Changes,
}

/// The changes of a record. Contracts see them as a list.
pub type Changes = Seq<Change>;
