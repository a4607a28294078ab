// The entries of a leaf of the entry tree.
ghost use Rattle.std.specs.Prelude.{◌≡◌, ◌^◌, ◌<◌, ◌≤◌, [], ◌∷◌, ◌++◌, length, IsOk, IfOk, OnOk, OnErr, IfSome, IfNone};
ghost use Rattle.std.specs.Prelude.{Some};
ghost use Rattle.std.specs.List.{slice_get, insert, remove, flat_map};
ghost use Rattle.page_types.specs.Inner.Joins.{postings_with};
ghost use Rattle.page_types.specs.Parts.{postings_shown, entry_shown};
ghost use Rattle.page_types.specs.Encoding.{entry_bytes};
ghost use Rattle.page_types.specs.Views.{list_in};

use crate::pieces::Pieces;
use std::alloc::{AllocError, Global};
use std::marker::Model;

/// Where an entry's items are, the list by reference.
#[derive(Clone, Copy, Debug)]
pub enum PostingsRef<'a> {
    /// In the entry, as an item list.
    Inline(&'a [u8]),
    /// In the posting tree with this root.
    Root(u32),
}

/// An entry, by reference.
#[derive(Clone, Copy, Debug)]
pub struct EntryRef<'a> {
    /// The key.
    pub key: &'a [u8],
    /// Its items.
    pub postings: PostingsRef<'a>,
}

/// The entries of a leaf. Contracts see them as a list.
#[derive(Debug, Drop)]
pub struct Entries {
    keys: Pieces,
    roots: Vec<Option<u32>>,
    lists: Pieces,
}

impl Model for Entries {
    ghost use Rattle.std.specs.Prelude.{◌≡◌, List, length};
    ghost use Rattle.page_types.specs.declared.page.Entry.{Entry};

    ghost Value = { List Entry };

    ghost use Rattle.page_types.specs.Inner.Joins.{joined, postings_with, entry_with};

    ghost view = { λ e. joined entry_with e.keys (joined postings_with e.roots.items e.lists) };

    ghost invariant = { λ e. (length e.keys ≡ length e.roots.items)
        × (length e.lists ≡ length e.roots.items) };
}

/// The two parts of what an entry leads to.
fn parts_of<'a>(postings: PostingsRef<'a>) -> (Option<u32>, &'a [u8])
    ensures whole { postings_with result.0 result.1.now ≡ postings_shown postings.entry }
    ensures list { result.1.now ≡ list_in (postings_shown postings.entry) }
{
    match postings {
        PostingsRef::Inline(items) => (None, items),
        PostingsRef::Root(root) => (Some(root), &[]),
    }
}

/// How many bytes an entry's encoding has.
fn entry_size(entry: EntryRef<'_>) -> usize
    requires { length (entry_bytes (entry_shown entry)) < 2 ^ 64 }
    ensures { result ≡ length (entry_bytes (entry_shown entry.entry)) }
{
    let postings = match entry.postings {
        PostingsRef::Inline(items) => 3 + items.len(),
        PostingsRef::Root(_) => 5,
    };
    2 + entry.key.len() + postings
}

impl Entries {
    ghost use Rattle.page_types.specs.Views.{with_postings};

    /// No entries.
    pub fn new(alloc: Global) -> Entries
        ensures { result ≡ [] }
    {
        Entries {
            keys: Pieces::new(alloc),
            roots: Vec::new(alloc),
            lists: Pieces::new(alloc),
        }
    }

    /// No entries, with room for so many whose keys have so many bytes together, and their lists too.
    pub fn with_room(alloc: Global, count: usize, size: usize) -> Result<Entries, AllocError>
        ensures { IfOk result (λ entries. entries ≡ []) }
    {
        let keys = Pieces::with_room(alloc, count, size)?;
        let roots = Vec::with_capacity(alloc, count)?;
        let lists = Pieces::with_room(alloc, count, size)?;
        Ok(Entries { keys, roots, lists })
    }

    /// How many entries there are.
    pub fn len(&self) -> usize
        ensures { result ≡ length self.now }
    {
        self.roots.len()
    }

    /// How many bytes their encoding has.
    pub(crate) fn size(&self) -> usize
        requires { length (flat_map entry_bytes self.now) < 2 ^ 64 }
        ensures { result ≡ length (flat_map entry_bytes self.now) }
    {
        let mut size = 0;
        for k in 0..self.len() {
            if let Some(entry) = self.get(k) {
                size += entry_size(entry);
            }
        }
        size
    }

    /// The entry with this number, by reference.
    pub fn get(&self, k: usize) -> Option<EntryRef<'_>>
        ensures some { IfSome result (λ entry. slice_get self.now k ≡ Some (entry_shown entry)) }
        ensures none { IfNone result (length self.now ≤ k) }
    {
        if k >= self.roots.len() {
            return None;
        }
        let key = self.keys.at(k);
        let items = self.lists.at(k);
        let postings = match self.roots[k] {
            None => PostingsRef::Inline(items),
            Some(root) => PostingsRef::Root(root),
        };
        Some(EntryRef { key, postings })
    }

    /// One entry more, after the others. Without memory they stay as they are.
    pub fn push(&mut self, entry: EntryRef<'_>) -> Result<(), AllocError>
        ensures ok { OnOk result (self.new ≡ self.old ++ entry_shown entry.entry ∷ []) }
        ensures err { OnErr result (self.new ≡ self.old) }
    {
        let (root, items) = parts_of(entry.postings);
        self.roots.reserve(1)?;
        self.keys.push(entry.key)?;
        match self.lists.push(items) {
            Ok(()) => {
                self.roots.push_reserved(root);
                Ok(())
            }
            Err(e) => {
                let n = self.roots.len();
                self.keys.truncate(n);
                Err(e)
            }
        }
    }

    /// Other items of an entry; its key stays. Without memory all stay as they are; a list that is not longer, or a
    /// root, takes none.
    pub fn set_postings(&mut self, k: usize, postings: PostingsRef<'_>) -> Result<(), AllocError>
        requires { k < length self.old }
        ensures ok { OnOk result (self.new
            ≡ with_postings self.old k (postings_shown postings.entry)) }
        ensures err { OnErr result (self.new ≡ self.old) }
        ensures short { IfSome (slice_get self.old k) (λ e. length (list_in (postings_shown
            postings.entry)) ≤ length (list_in e.postings)) → IsOk result }
    {
        let (root, items) = parts_of(postings);
        self.lists.set(k, items)?;
        self.roots[k] = root;
        Ok(())
    }

    /// One entry more, in front of the one with this number, or after all. Without memory they stay as they are.
    pub fn insert(&mut self, k: usize, entry: EntryRef<'_>) -> Result<(), AllocError>
        requires { k ≤ length self.old }
        ensures ok { OnOk result (self.new ≡ insert self.old k (entry_shown entry.entry)) }
        ensures err { OnErr result (self.new ≡ self.old) }
    {
        let (root, items) = parts_of(entry.postings);
        self.roots.reserve(1)?;
        self.keys.insert(k, entry.key)?;
        match self.lists.insert(k, items) {
            Ok(()) => {
                self.roots.insert(k, root).unwrap();
                Ok(())
            }
            Err(e) => {
                self.keys.remove(k);
                Err(e)
            }
        }
    }

    /// The entry with this number goes. It takes no memory.
    pub fn remove(&mut self, k: usize)
        requires { k < length self.old }
        ensures { self.new ≡ remove self.old k }
    {
        self.keys.remove(k);
        self.roots.remove(k);
        self.lists.remove(k);
    }
}

impl Clone for Entries {
    ghost is_clone = { λ a b. b ≡ a };

    fn clone(&self) -> Result<Entries, AllocError> {
        let keys = self.keys.clone()?;
        let roots = self.roots.clone()?;
        let lists = self.lists.clone()?;
        Ok(Entries { keys, roots, lists })
    }
}
