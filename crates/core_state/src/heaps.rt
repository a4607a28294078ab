// The heap pages: those on which a head was placed.
ghost use Rattle.std.specs.Prelude.{◌≡◌, ◌≤◌, ◌<◌, [], OnOk, IsOk};
ghost use Rattle.std.specs.List.{slice_get};
ghost use Rattle.core_state.specs.Log.{In};
ghost use Rattle.core_state.specs.States.{with_page};
ghost use Rattle.core_state.specs.PageChoice.{IsLeastIfAny};
ghost use Rattle.core_state.specs.Inner.Rising.{AreRising};

use crate::freed::note_page;
use std::alloc::{AllocError, Global};
use std::marker::Model;

/// The heap pages, rising. Contracts see them as a list, with the room for more.
#[derive(Drop)]
pub(crate) struct HeapPages {
    pages: Vec<u32>,
}

impl Model for HeapPages {
    ghost use Rattle.std.specs.Prelude.{◌-◌, length};
    ghost use Rattle.std.specs.Vec.{vec_capacity};
    ghost use Rattle.core_state.specs.Inner.Rising.{AreRising, RisingPages};

    ghost Value = { RisingPages };

    ghost view = { λ h. record {
      pages = h.pages.items;
      left = vec_capacity h.pages - length h.pages.items;
    } };

    ghost invariant = { λ h. AreRising h.pages.items };
}

/// The page at a place.
pub(crate) fn page_at(pages: &[u32], place: usize) -> Option<u32>
    ensures { result ≡ slice_get pages.now place }
{
    pages.get(place).copied()
}

/// The first of rising pages that isn't below this one.
fn first_from(pages: &[u32], page: u32) -> Option<u32>
    requires { AreRising pages.now }
    ensures { IsLeastIfAny (λ p. (page ≤ p) × In p pages.now) result }
{
    match pages.binary_search(&page) {
        Ok(_) => Some(page),
        Err(place) => page_at(pages, place),
    }
}

impl HeapPages {
    /// No pages.
    pub(crate) fn new(alloc: Global) -> HeapPages
        ensures { result.pages ≡ [] }
    {
        HeapPages {
            pages: Vec::new(alloc),
        }
    }

    /// Makes room for one more.
    pub(crate) fn reserve(&mut self) -> Result<(), AllocError>
        ensures pages { self.new.pages ≡ self.old.pages }
        ensures room { OnOk result (0 < self.new.left) }
        ensures ok { 0 < self.old.left → IsOk result }
    {
        self.pages.reserve(1)
    }

    /// One more, if it isn't there, for which there is room.
    pub(crate) fn note(&mut self, page: u32)
        requires { 0 < self.old.left }
        ensures { self.new.pages ≡ with_page page self.old.pages }
    {
        note_page(&mut self.pages, page);
    }

    /// The first that isn't below this page.
    pub(crate) fn from(&self, page: u32) -> Option<u32>
        ensures { IsLeastIfAny (λ p. (page ≤ p) × In p self.now.pages) result }
    {
        first_from(&self.pages, page)
    }
}
