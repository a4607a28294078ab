// Which transaction placed each document, and which commit deleted it.
ghost use Rattle.std.specs.Prelude.{◌≡◌, ◌-◌, ◌<◌, [], ◌∷◌, ◌++◌, get_or, slice_set, OnOk, IsOk};
ghost use Rattle.core_state.specs.Lives.{placer, first_end, with_ends, some_commit};

use crate::table::name_of;
use page_types::Name;
use std::alloc::{AllocError, Global};
use std::marker::Model;

/// By which commits a document was inserted and deleted.
#[derive(Clone, Copy, Debug, PartialEq, Eq)]
pub struct Life {
    /// The commit that inserted it.
    pub inserted: u32,
    /// The commit that deleted it.
    pub deleted: Option<u32>,
}

/// A document as it was placed.
#[derive(Clone, Copy, Debug)]
pub struct Placed {
    /// Its item.
    pub item: u32,
    /// The transaction that placed it.
    pub xid: u32,
}

/// The documents that were placed, in the order of their serials, which begin at 1, with the commits
/// that deleted them; 0 is none.
#[derive(Drop)]
pub(crate) struct Lives {
    placed: Vec<Placed>,
    ends: Vec<u32>,
}

impl Model for Lives {
    ghost use Rattle.std.specs.Prelude.{◌-◌, min, length};
    ghost use Rattle.std.specs.Vec.{vec_capacity};
    ghost use Rattle.core_state.specs.Inner.LivesKept.{LivesValue};

    ghost Value = { LivesValue };

    ghost view = { λ l. record {
      placed = l.placed.items;
      ends = l.ends.items;
      left = min (vec_capacity l.placed - length l.placed.items)
          (vec_capacity l.ends - length l.ends.items);
    } };
}

/// The xid that placed the document of this name, where these were placed.
fn placer_of(placed: &[Placed], name: &Name) -> Option<u32>
    ensures { result ≡ placer placed.now name.now }
{
    if name.serial == 0 {
        return None;
    }
    let known = placed.get((name.serial - 1) as usize)?;
    let named = name_of(known.item, name.serial);
    if name.page == named.page && name.slot == named.slot {
        Some(known.xid)
    } else {
        None
    }
}

/// The commit that deleted a document, where this one does so too.
fn note_end(ends: &mut [u32], k: usize, commit: u32)
    ensures { ends.new ≡ slice_set ends.old k (first_end commit (get_or ends.old k 0)) }
{
    if k < ends.len() && ends[k] == 0 {
        ends[k] = commit;
    }
}

/// The commits that deleted these documents, where this one deletes those of these names.
fn note_ends(ends: &mut [u32], placed: &[Placed], names: &[Name], commit: u32)
    ensures { ends.new ≡ with_ends commit placed.now names.now ends.old }
{
    for name in names {
        if placer_of(placed, name).is_some() {
            note_end(ends, (name.serial - 1) as usize, commit);
        }
    }
}

impl Lives {
    /// No documents.
    pub(crate) fn new(alloc: Global) -> Lives
        ensures placed { result.placed ≡ [] }
        ensures ends { result.ends ≡ [] }
    {
        Lives {
            placed: Vec::new(alloc),
            ends: Vec::new(alloc),
        }
    }

    /// Makes room for one more.
    pub(crate) fn reserve(&mut self) -> Result<(), AllocError>
        ensures placed { self.new.placed ≡ self.old.placed }
        ensures ends { self.new.ends ≡ self.old.ends }
        ensures room { OnOk result (0 < self.new.left) }
        ensures ok { 0 < self.old.left → IsOk result }
    {
        self.placed.reserve(1)?;
        self.ends.reserve(1)
    }

    /// One more, for which there is room.
    pub(crate) fn push(&mut self, item: u32, xid: u32)
        requires { 0 < self.old.left }
        ensures placed { self.new.placed
            ≡ self.old.placed ++ record { item = item; xid = xid } ∷ [] }
        ensures ends { self.new.ends ≡ self.old.ends ++ 0 ∷ [] }
    {
        self.placed.push_reserved(Placed { item, xid });
        self.ends.push_reserved(0);
    }

    /// A commit deletes the documents of these names.
    pub(crate) fn end(&mut self, names: &[Name], commit: u32)
        ensures placed { self.new.placed ≡ self.old.placed }
        ensures ends { self.new.ends
            ≡ with_ends commit self.old.placed names.now self.old.ends }
        ensures left { self.new.left ≡ self.old.left }
    {
        note_ends(&mut self.ends, &self.placed, names, commit);
    }

    /// The xid that placed the document of this name.
    pub(crate) fn placer(&self, name: &Name) -> Option<u32>
        ensures { result ≡ placer self.now.placed name.now }
    {
        placer_of(&self.placed, name)
    }

    /// The life of the document with this serial, which this commit inserted.
    pub(crate) fn life(&self, inserted: u32, serial: u64) -> Life
        ensures { result ≡ record {
          inserted = inserted;
          deleted = some_commit (get_or self.now.ends (serial - 1) 0);
        } }
    {
        let deleted = match self.ends.get(serial.saturating_sub(1) as usize) {
            Some(commit) if *commit != 0 => Some(*commit),
            _ => None,
        };
        Life { inserted, deleted }
    }
}
