// Changes of one head on a heap page.
ghost use Rattle.std.specs.Prelude.{◌≡◌, slice_set, IsSome, Some, None};
ghost use Rattle.page_types.specs.Pages.{IsPage};
ghost use Rattle.page_types.specs.declared.page.Head.{Head};
ghost use Rattle.page_types.specs.Views.{slot_at};
ghost use Rattle.doc_heap.specs.HeapPages.{head_on, ChangesSlot};

use page_types::{Body, HeadFields, Page, Slots};

/// The head in a slot gets this deleting transaction.
fn mark_slot(slots: &mut Slots, k: usize, xid: u32)
    ensures { (h : Head) → slot_at slots.old k ≡ Some h
        → slots.new ≡ slice_set slots.old k (Some (record h { deleted_by = xid })) }
{
    let fields = match slots.get(k) {
        None => return,
        Some(head) => head.fields,
    };
    let marked = HeadFields {
        deleted_by: xid,
        ..fields
    };
    slots.set_fields(k, marked);
}

/// Marks the head in a slot, which is used, as deleted by this transaction. It takes no memory.
pub fn mark(page: &mut Page, slot: u16, xid: u32)
    requires { IsSome (head_on page.old slot) }
    ensures marked { (h : Head) → head_on page.old slot ≡ Some h
        → ChangesSlot page.old slot (Some (record h { deleted_by = xid })) page.new }
    ensures is_page { IsPage page.old → IsPage page.new }
{
    if let Body::Heap(slots) = &mut page.body {
        mark_slot(slots, usize::from(slot), xid);
    }
}

/// Makes a slot free, which is used. It takes no memory.
pub fn free(page: &mut Page, slot: u16)
    requires { IsSome (head_on page.old slot) }
    ensures freed { ChangesSlot page.old slot None page.new }
    ensures is_page { IsPage page.old → IsPage page.new }
{
    if let Body::Heap(slots) = &mut page.body {
        slots.free(usize::from(slot));
    }
}
