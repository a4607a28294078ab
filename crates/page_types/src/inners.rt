// The children of inner pages.
ghost use Rattle.std.specs.Prelude.{◌≡◌, ◌^◌, ◌<◌, ◌≤◌, [], ◌∷◌, ◌++◌, length, slice_set, IsOk, OnOk, OnErr, IfSome};
ghost use Rattle.std.specs.Prelude.{IfNone, Some};
ghost use Rattle.std.specs.List.{slice_get, insert, remove, flat_map};
ghost use Rattle.page_types.specs.Encoding.{entry_child_bytes, post_child_bytes};

use crate::page::PostChild;
use crate::pieces::Pieces;
use crate::seq::Seq;
use std::alloc::{AllocError, Global};
use std::marker::Model;

/// A child of an inner page of the entry tree, its bound by reference.
#[derive(Clone, Copy, Debug)]
pub struct EntryChildRef<'a> {
    /// The child's page.
    pub page: u32,
    /// The greatest key that may be below it; no bytes: there is no bound.
    pub bound: &'a [u8],
}

/// The children of an inner page of the entry tree. Contracts see them as a list.
#[derive(Debug, Drop)]
pub struct EntryChildren {
    pages: Vec<u32>,
    bounds: Pieces,
}

impl Model for EntryChildren {
    ghost use Rattle.std.specs.Prelude.{◌≡◌, List, length};
    ghost use Rattle.page_types.specs.declared.page.EntryChild.{EntryChild};

    ghost Value = { List EntryChild };

    ghost use Rattle.page_types.specs.Inner.Joins.{joined, child_with};

    ghost view = { λ c. joined child_with c.pages.items c.bounds };

    ghost invariant = { λ c. length c.pages.items ≡ length c.bounds };
}

impl EntryChildren {
    ghost use Rattle.page_types.specs.Parts.{child_shown};

    /// No children.
    pub fn new(alloc: Global) -> EntryChildren
        ensures { result ≡ [] }
    {
        EntryChildren {
            pages: Vec::new(alloc),
            bounds: Pieces::new(alloc),
        }
    }

    /// How many children there are.
    pub fn len(&self) -> usize
        ensures { result ≡ length self.now }
    {
        self.pages.len()
    }

    /// How many bytes their encoding has.
    pub(crate) fn size(&self) -> usize
        requires { length (flat_map entry_child_bytes self.now) < 2 ^ 64 }
        ensures { result ≡ length (flat_map entry_child_bytes self.now) }
    {
        6 * self.pages.len() + self.bounds.size()
    }

    /// The child with this number, by reference.
    pub fn get(&self, k: usize) -> Option<EntryChildRef<'_>>
        ensures some { IfSome result (λ child. slice_get self.now k ≡ Some (child_shown child)) }
        ensures none { IfNone result (length self.now ≤ k) }
    {
        if k >= self.pages.len() {
            return None;
        }
        let bound = self.bounds.at(k);
        let page = self.pages[k];
        Some(EntryChildRef { page, bound })
    }

    /// One child more, after the others. Without memory they stay as they are.
    pub fn push(&mut self, child: EntryChildRef<'_>) -> Result<(), AllocError>
        ensures ok { OnOk result (self.new ≡ self.old ++ child_shown child.entry ∷ []) }
        ensures err { OnErr result (self.new ≡ self.old) }
    {
        self.pages.reserve(1)?;
        self.bounds.push(child.bound)?;
        self.pages.push_reserved(child.page);
        Ok(())
    }

    /// Another child at a place. Without memory all stay as they are; a bound that is not longer takes none.
    pub fn set(&mut self, k: usize, child: EntryChildRef<'_>) -> Result<(), AllocError>
        requires { k < length self.old }
        ensures ok { OnOk result (self.new ≡ slice_set self.old k (child_shown child.entry)) }
        ensures err { OnErr result (self.new ≡ self.old) }
        ensures short { IfSome (slice_get self.old k)
            (λ c. length child.entry.bound.now ≤ length c.bound) → IsOk result }
    {
        self.bounds.set(k, child.bound)?;
        self.pages[k] = child.page;
        Ok(())
    }

    /// One child more, in front of the one with this number, or after all. Without memory they stay as they are.
    pub fn insert(&mut self, k: usize, child: EntryChildRef<'_>) -> Result<(), AllocError>
        requires { k ≤ length self.old }
        ensures ok { OnOk result (self.new ≡ insert self.old k (child_shown child.entry)) }
        ensures err { OnErr result (self.new ≡ self.old) }
    {
        self.pages.reserve(1)?;
        self.bounds.insert(k, child.bound)?;
        self.pages.insert(k, child.page).unwrap();
        Ok(())
    }

    /// The child with this number goes. It takes no memory.
    pub fn remove(&mut self, k: usize)
        requires { k < length self.old }
        ensures { self.new ≡ remove self.old k }
    {
        self.pages.remove(k);
        self.bounds.remove(k);
    }
}

impl Clone for EntryChildren {
    ghost is_clone = { λ a b. b ≡ a };

    fn clone(&self) -> Result<EntryChildren, AllocError> {
        let pages = self.pages.clone()?;
        let bounds = self.bounds.clone()?;
        Ok(EntryChildren { pages, bounds })
    }
}

/// The children of an inner page of a posting tree. Contracts see them as a list.
pub type PostChildren = Seq<PostChild>;

impl Seq<PostChild> {
    /// How many bytes their encoding has.
    pub(crate) fn size(&self) -> usize
        requires { length (flat_map post_child_bytes self.now) < 2 ^ 64 }
        ensures { result ≡ length (flat_map post_child_bytes self.now) }
    {
        8 * self.inner.len()
    }

    /// Another child at a place. It takes no memory.
    pub fn set(&mut self, k: usize, child: PostChild)
        requires { k < length self.old }
        ensures { self.new ≡ slice_set self.old k child }
    {
        self.inner[k] = child;
    }

    /// One child more, in front of the one with this number, or after all. Without memory they stay as they are.
    pub fn insert(&mut self, k: usize, child: PostChild) -> Result<(), AllocError>
        requires { k ≤ length self.old }
        ensures ok { OnOk result (self.new ≡ insert self.old k child) }
        ensures err { OnErr result (self.new ≡ self.old) }
    {
        self.inner.insert(k, child)?;
        Ok(())
    }

    /// The child with this number goes. It takes no memory.
    pub fn remove(&mut self, k: usize)
        requires { k < length self.old }
        ensures { self.new ≡ remove self.old k }
    {
        self.inner.remove(k);
    }
}

impl Clone for Seq<PostChild> {
    ghost is_clone = { λ a b. b ≡ a };

    fn clone(&self) -> Result<Seq<PostChild>, AllocError> {
        let inner = self.inner.clone()?;
        Ok(Seq { inner })
    }
}
