// Putting a head on a heap page, or on a page that becomes one.
ghost use Rattle.std.specs.Prelude.{◌≡◌, ◌↔◌, ◌^◌, ◌≤◌, ◌<◌, length, IfOk, OnOk, IfSome, Some, None};
ghost use Rattle.page_types.specs.declared.page.Body.TheVariants as body;
ghost use Rattle.page_types.specs.Numbers.{most_body};
ghost use Rattle.page_types.specs.Encoding.{body_bytes};
ghost use Rattle.page_types.specs.Pages.{IsPage, IsHead};
ghost use Rattle.page_types.specs.Parts.{head_shown};
ghost use Rattle.page_types.specs.Views.{slots_of};
ghost use Rattle.core_state.specs.Changes.{PutsSlot};
ghost use Rattle.doc_heap.specs.HeapPages.{IsLowestFree, GetsHead, HasNoRoom, IsPlaced, right_on_heap};

use page_types::{Body, Head, HeadFields, HeadRef, MOST_BODY_BYTES, Page, Slots, body_length};
use std::alloc::{AllocError, Global};

/// A head, its vector by reference.
fn by_reference(head: &Head) -> HeadRef<'_>
    ensures { head_shown result ≡ head.now }
{
    HeadRef {
        fields: HeadFields {
            serial: head.serial,
            inserted_by: head.inserted_by,
            deleted_by: head.deleted_by,
            overflow: head.overflow,
            private: head.private,
            bytes: head.bytes,
        },
        vector: head.vector.as_slice(),
    }
}

/// The lowest free slot, else the next.
fn lowest_free(slots: &Slots) -> usize
    ensures lowest { IsLowestFree slots.now result }
    ensures in_row { result ≤ length slots.now }
{
    for k in 0..slots.len() {
        if slots.get(k).is_none() {
            return k;
        }
    }
    slots.len()
}

/// The slots of a page; one that is no heap page has none.
fn copied_slots(alloc: Global, page: &Page) -> Result<Slots, AllocError>
    ensures { IfOk result (λ s. s ≡ slots_of page.now) }
{
    match &page.body {
        Body::Heap(slots) => slots.clone(),
        _ => Ok(Slots::new(alloc)),
    }
}

/// Puts a head into this slot, or after all slots.
fn put(slots: &mut Slots, k: usize, head: HeadRef<'_>) -> Result<(), AllocError>
    requires { k ≤ length slots.old }
    ensures { OnOk result (PutsSlot slots.old k (Some (head_shown head.entry)) slots.new) }
{
    if k < slots.len() {
        slots.set(k, Some(head))
    } else {
        slots.push(Some(head))
    }
}

/// The slots of a page with the head in the lowest free one, else in the next, and that slot.
fn slots_with(alloc: Global, page: &Page, head: &Head) -> Result<(Slots, usize), AllocError>
    requires { length (body_bytes page.now.body) ≤ most_body }
    ensures gets { IfOk result (λ r. GetsHead page.now head.now r.1 r.0) }
    ensures size { IfOk result (λ r. length (body_bytes (body.Heap r.0)) < 2 ^ 64) }
{
    let head = by_reference(head);
    let mut slots = copied_slots(alloc, page)?;
    let slot = lowest_free(&slots);
    put(&mut slots, slot, head)?;
    Ok((slots, slot))
}

/// The right link of a page as a heap page: a page that becomes one has none.
fn right_link(page: &Page) -> u32
    ensures { result ≡ right_on_heap page.now.right page.now.body }
{
    match page.body {
        Body::Heap(_) => page.right,
        _ => 0,
    }
}

/// The page with the head in its lowest free slot, else in the next, and that slot; none exactly where
/// its body would be too long, or all slots that a page may have are used.
///
/// A page that is no heap page, as one that is free or deleted, is taken as a heap page without slots
/// and without right link.
pub fn place(alloc: Global, page: &Page, head: &Head) -> Result<Option<(Page, u16)>, AllocError>
    requires { length (body_bytes page.now.body) ≤ most_body }
    ensures placed { IfOk result (λ o. IfSome o (λ p. IsPlaced page.now head.now p.0 p.1)) }
    ensures full { IfOk result (λ o. (o ≡ None) ↔ HasNoRoom page.now head.now) }
    ensures is_page { IfOk result (λ o. IfSome o (λ p.
        IsPage page.now → IsHead head.now → IsPage p.0)) }
{
    let (slots, slot) = slots_with(alloc, page, head)?;
    let placed = Page {
        right: right_link(page),
        stamp: page.stamp,
        body: Body::Heap(slots),
    };
    if body_length(&placed) > MOST_BODY_BYTES {
        return Ok(None);
    }
    Ok(Some((placed, slot as u16)))
}
