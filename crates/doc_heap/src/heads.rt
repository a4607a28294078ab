// The heads on a heap page.
ghost use Rattle.std.specs.Prelude.{◌≡◌};
ghost use Rattle.std.specs.Option.{option_map};
ghost use Rattle.page_types.specs.Parts.{head_shown};
ghost use Rattle.doc_heap.specs.HeapPages.{head_on};

use page_types::{Body, HeadRef, Page};

/// The head in a slot, by reference; none exactly where the slot is free or absent, as each slot is
/// of a page that is no heap page. It takes no memory.
pub fn head(page: &Page, slot: u16) -> Option<HeadRef<'_>>
    ensures { option_map head_shown result ≡ head_on page.now slot }
{
    match &page.body {
        Body::Heap(slots) => slots.get(usize::from(slot)),
        _ => None,
    }
}
