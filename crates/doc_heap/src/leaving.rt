// What dead documents leave on their heap page.
ghost use Rattle.std.specs.Prelude.{◌≡◌, ◌↔◌, ◌≢◌, ◌⊎◌, ◌<◌, List, slice_set, Option, IsSome, Some, None, true, false};
ghost use Rattle.page_types.specs.Numbers.{page_limit};
ghost use Rattle.page_types.specs.Pages.{IsPage};
ghost use Rattle.page_types.specs.declared.page.Head.{Head};
ghost use Rattle.page_types.specs.declared.page.Body.TheVariants as body;
ghost use Rattle.page_types.specs.Views.{slot_at};
ghost use Rattle.core_state.specs.Documents.{slot_of};
ghost use Rattle.doc_heap.specs.HeapPages.{head_on, ChangesSlot};
ghost use Rattle.doc_heap.specs.Leaving.{with_first, fields_with, FreesSlots, FreesItems, SlotIsHead};
ghost use Rattle.doc_heap.specs.Inner.Freeing.{FreesOne};

use page_types::{Body, HeadFields, MOST_SLOTS, Page, Slots};

/// One of the two chains of pages of a document.
#[derive(Clone, Copy, Debug)]
pub enum Chain {
    /// The vector, where it is too long for the head.
    Overflow,
    /// The rows, while they aren't linked to the pending list.
    Private,
}

/// The fields with this page as the first of a chain.
fn with_first(fields: HeadFields, chain: Chain, page: u32) -> HeadFields
    ensures { result ≡ fields_with chain page fields }
{
    match chain {
        Chain::Overflow => HeadFields {
            overflow: page,
            ..fields
        },
        Chain::Private => HeadFields {
            private: page,
            ..fields
        },
    }
}

/// The chain of the head in a slot gets this first page.
fn begin_chain(slots: &mut Slots, k: usize, chain: Chain, page: u32)
    ensures { (h : Head) → slot_at slots.old k ≡ Some h
        → slots.new ≡ slice_set slots.old k (Some (with_first chain page h)) }
{
    let fields = match slots.get(k) {
        None => return,
        Some(head) => head.fields,
    };
    slots.set_fields(k, with_first(fields, chain, page));
}

/// Takes the first page off a chain of the head in a slot, which is used; the chain goes on with this
/// page, 0 where it ends. It takes no memory.
pub fn drop_page(page: &mut Page, slot: u16, chain: Chain, next: u32)
    requires { IsSome (head_on page.old slot) }
    ensures dropped { (h : Head) → head_on page.old slot ≡ Some h
        → ChangesSlot page.old slot (Some (with_first chain next h)) page.new }
    ensures is_page { next < page_limit → IsPage page.old → IsPage page.new }
{
    if let Body::Heap(slots) = &mut page.body {
        begin_chain(slots, usize::from(slot), chain, next);
    }
}

/// Makes the slot of an item free; true where it was used.
fn free_one(slots: &mut Slots, item: u32) -> bool
    ensures { FreesOne item slots.old slots.new result }
{
    let slot = item as usize % MOST_SLOTS;
    if slots.get(slot).is_none() {
        return false;
    }
    slots.free(slot);
    true
}

/// Makes the slots of these items free; true where one of them was used.
fn free_all(slots: &mut Slots, items: &[u32]) -> bool
    ensures frees { FreesSlots items.now slots.old slots.new }
    ensures some { result ≡ true ↔ (slots.new ≢ slots.old) }
    ensures is_page { (p : Page) → p.body ≡ body.Heap slots.old → IsPage p
        → IsPage (record p { body = body.Heap slots.new }) }
{
    let mut freed = false;
    for k in 0..items.len() {
        if free_one(slots, items[k]) {
            freed = true;
        }
    }
    freed
}

/// Makes the slots of these items free on a heap page; true exactly where one of them was used. It takes
/// no memory.
pub fn free_items(page: &mut Page, items: &[u32]) -> bool
    requires { (slots : List (Option Head)) × (page.old.body ≡ body.Heap slots) }
    ensures freed { FreesItems page.old items.now page.new }
    ensures some { result ≡ true ↔ (page.new ≢ page.old) }
    ensures is_page { IsPage page.old → IsPage page.new }
{
    match &mut page.body {
        Body::Heap(slots) => free_all(slots, items),
        _ => false,
    }
}

/// A changed slot is a changed head of its document.
pub fn slots_are_heads()
    ensures { SlotIsHead }
{}
