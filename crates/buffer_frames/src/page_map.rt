// Pages by their numbers, each as its bytes.
ghost use Rattle.std.specs.Prelude.{◌≡◌, ◌≢◌, ◌↔◌, ◌==◌, ◌<◌, ◌^◌, ℕ, List, Some, None, cond};
ghost use Rattle.std.specs.Prelude.{is_some, length, get_or, OnOk, OnErr, IfOk, IfSome, IsOk};
ghost use Rattle.std.specs.Option.{option_copied};
ghost use Rattle.page_types.specs.Edits.{edited, CanEdit};
ghost use Rattle.buffer_frames.specs.Homes.{home_at, home_of};
ghost use Rattle.buffer_frames.specs.Maps.{lookup};

use crate::home::Home;
use page_types::{BadChange, Change, PAGE_BYTES, PageBytes};
use std::alloc::{AllocError, Global};

/// There is a place for this page.
#[tactic(auto, using(crate::proofs::Padded::get_or_padded))]
fn make_place(pages: &mut Vec<Option<PageBytes>>, page: usize) -> Result<(), AllocError>
    requires { page < 2 ^ 32 }
    ensures there { OnOk result (page < length pages.new.items) }
    ensures same { (p : ℕ) → get_or pages.new.items p None ≡ get_or pages.old.items p None }
{
    let missing = (page + 1).saturating_sub(pages.len());
    pages.reserve(missing)?;
    for added in 0..missing {
        let _ = added;
        pages.push_reserved(None);
    }
    Ok(())
}

/// Changes the bytes of a page, if they are there, as the record with this number does.
fn change_raw(slot: &mut Option<PageBytes>, number: u64, change: &Change) -> Result<(), BadChange>
    ensures done { OnOk result ((b : List ℕ) → slot.old ≡ Some b
        → slot.new ≡ Some (edited number change.now.edit b)) }
    ensures ok { (b : List ℕ) → slot.old ≡ Some b → IsOk result ↔ CanEdit change.now.edit b }
    ensures same { OnErr result (slot.new ≡ slot.old) }
    ensures there { OnOk result (slot.old ≢ None) }
{
    match slot {
        Some(raw) => raw.change(number, change),
        None => Err(BadChange),
    }
}

/// Pages by their numbers, each as its 8192 bytes.
#[derive(Debug, Drop)]
pub struct PageMap {
    pages: Vec<Option<PageBytes>>,
}

impl PageMap {
    /// No page.
    pub(crate) fn new(alloc: Global) -> PageMap
        ensures { (p : ℕ) → lookup result p ≡ None }
    {
        PageMap {
            pages: Vec::new(alloc),
        }
    }

    /// The bytes of a page, if it is there.
    pub fn get(&self, page: u32) -> Option<&[u8]>
        ensures value { option_copied result ≡ lookup self.now page }
        ensures size { IfSome result (λ b. length b.now ≡ PAGE_BYTES) }
    {
        match self.pages.get(page as usize) {
            Some(Some(raw)) => Some(raw.as_slice()),
            _ => None,
        }
    }

    /// Whether a page is there.
    pub fn contains(&self, page: u32) -> bool
        ensures { result ≡ is_some (lookup self.now page) }
    {
        matches!(self.pages.get(page as usize), Some(Some(_)))
    }

    /// Puts a page. Without memory all stays as it is.
    pub(crate) fn put(&mut self, page: u32, bytes: PageBytes) -> Result<(), AllocError>
        ensures ok { OnOk result ((p : ℕ)
            → lookup self.new p ≡ cond (page == p) (Some bytes) (lookup self.old p)) }
        ensures err { OnErr result ((p : ℕ) → lookup self.new p ≡ lookup self.old p) }
    {
        let place = page as usize;
        make_place(&mut self.pages, place)?;
        self.pages[place] = Some(bytes);
        Ok(())
    }

    /// Changes a page that is there, as the record with this number does. A refusal leaves all as
    /// it is.
    pub(crate) fn change(&mut self, number: u64, change: &Change) -> Result<(), BadChange>
        ensures done { OnOk result ((b : List ℕ) → lookup self.old change.now.page ≡ Some b
            → (p : ℕ) → lookup self.new p
            ≡ cond (change.now.page == p) (Some (edited number change.now.edit b))
            (lookup self.old p)) }
        ensures ok { (b : List ℕ) → lookup self.old change.now.page ≡ Some b
            → IsOk result ↔ CanEdit change.now.edit b }
        ensures same { OnErr result ((p : ℕ) → lookup self.new p ≡ lookup self.old p) }
    {
        let place = change.page as usize;
        if place >= self.pages.len() {
            return Err(BadChange);
        }
        change_raw(&mut self.pages[place], number, change)
    }

    /// Where each page lies in memory. The bytes are not copied.
    pub(crate) fn into_homes(self, alloc: Global) -> Result<Vec<Home>, AllocError>
        ensures { IfOk result (λ homes. (p : ℕ)
            → home_at homes.items p ≡ home_of (lookup self p)) }
    {
        let PageMap { pages } = self;
        let mut pages = pages;
        let mut homes = Vec::with_capacity(alloc, pages.len())?;
        for place in 0..pages.len() {
            homes.push_reserved(Home::of(pages[place].take()));
        }
        Ok(homes)
    }
}
