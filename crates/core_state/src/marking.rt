// When a record MarkDeleted or PutOverflow may come next, as far as the record, its pages before
// and after, and the state of the log say.
ghost use Rattle.std.specs.Prelude.{◌≡◌, ◌≢◌, ◌↔◌, ℕ, true, [], ◌∷◌, Some, IfSome, IfNone};
ghost use Rattle.page_types.specs.Parts.{head_shown, head_with};
ghost use Rattle.page_types.specs.declared.page.Head.{Head};
ghost use Rattle.core_state.specs.Log.{changed};
ghost use Rattle.core_state.specs.Changes.{PutsSlot};
ghost use Rattle.core_state.specs.HeapRules.{IsMarkDeletedHere, IsPutOverflowHere};
ghost use Rattle.core_state.specs.Judging.{Judges};
ghost use Rattle.core_state.specs.States.{fate_of, use_of};
ghost use Rattle.core_state.specs.Inner.HeadChanges.{HasHead, FindsHead, LeavesInSlot, LeavesPart};
ghost use Rattle.core_state.specs.Inner.HeadChanges.{MayBeMarked, MayBePut};

use crate::answers::Fate;
use crate::placing::others_stay;
use crate::state::State;
use crate::table::name_of;
use crate::valid::changes_pages;
use page_types::{
    Body, HeadFields, HeadRef, Kind, MOST_BODY_BYTES, MOST_SHORT_BYTES, Name, Page, Record, Slots,
};
use std::alloc::AllocError;

/// The head of the document with this name, if it has its slot of this heap page.
pub fn head_in(page: &Page, name: Name) -> Option<HeadRef<'_>>
    ensures some { IfSome result (λ h. HasHead page.now name (head_shown h)) }
    ensures none { IfNone result ((h : Head) → HasHead page.now name h → ⊥) }
{
    let Body::Heap(slots) = &page.body else {
        return None;
    };
    match slots.get(usize::from(name.slot)) {
        Some(head) if head.fields.serial == name.serial => Some(head),
        _ => None,
    }
}

/// Whether a slot becomes a head with these fields and this vector, and the others stay.
fn puts_head(slots: &Slots, slot: u16, fields: HeadFields, vector: &[u8], new: &Slots) -> bool
    ensures { result ≡ true
        ↔ PutsSlot slots.now slot (Some (head_with fields vector.now)) new.now }
{
    let k = usize::from(slot);
    let Some(head) = new.get(k) else {
        return false;
    };
    if head.fields != fields || head.vector != vector {
        return false;
    }
    new.len() == slots.len().max(k + 1) && others_stay(slots, k, new)
}

/// Whether a record leaves the page with such a head in the slot, and all else as it was.
pub(crate) fn leaves_in_slot(
    rec: &Record,
    slot: u16,
    old: &Page,
    fields: HeadFields,
    vector: &[u8],
    new: &Page,
) -> bool
    ensures { result ≡ true
        ↔ LeavesInSlot rec.now slot old.now (head_with fields vector.now) new.now }
{
    let Body::Heap(slots) = &old.body else {
        return false;
    };
    let Body::Heap(new_slots) = &new.body else {
        return false;
    };
    if new.right != old.right || new.stamp != rec.number {
        return false;
    }
    puts_head(slots, slot, fields, vector, new_slots)
}

/// Whether a head is of a document that a commit inserted, and that none who wasn't aborted marked.
fn may_be_marked(state: &State, fields: HeadFields) -> bool
    ensures { result ≡ true
        ↔ MayBeMarked (fate_of state.now.value) fields.inserted_by fields.deleted_by }
{
    let Fate::Committed(_) = state.fate(fields.inserted_by) else {
        return false;
    };
    fields.deleted_by == 0 || state.fate(fields.deleted_by) == Fate::Aborted
}

/// Whether a record leaves a part of a vector on this page, in front of the page `first`.
fn leaves_part(rec: &Record, first: u32, new: &Page) -> bool
    ensures { result ≡ true ↔ LeavesPart rec.now first new.now }
{
    let Body::Overflow(part) = &new.body else {
        return false;
    };
    if new.right != first || new.stamp != rec.number {
        return false;
    }
    first == 0 || part.len() == MOST_BODY_BYTES
}

/// Whether MarkDeleted may come next: its transaction runs, the slot's head has the serial, a commit
/// inserted it, none who wasn't aborted marked it, and its deleting xid becomes the record's.
pub fn valid_mark_deleted(
    state: &State,
    rec: &Record,
    before: &[Page],
    after: &[Page],
    _floor: u32,
    _since: u64,
) -> Result<bool, AllocError>
    ensures { Judges IsMarkDeletedHere state.now.value rec.now before.now after.now result }
{
    let Kind::MarkDeleted { item, serial } = rec.kind else {
        return Ok(false);
    };
    let name = name_of(item, serial);
    if before.len() != 1 || after.len() != 1 || !changes_pages(rec, &[name.page]) {
        return Ok(false);
    }
    let Fate::Running = state.fate(rec.xid) else {
        return Ok(false);
    };
    let old = &before[0];
    let Some(head) = head_in(old, name) else {
        return Ok(false);
    };
    if !may_be_marked(state, head.fields) {
        return Ok(false);
    }
    let fields = HeadFields {
        deleted_by: rec.xid,
        ..head.fields
    };
    Ok(leaves_in_slot(rec, name.slot, old, fields, head.vector, &after[0]))
}

/// Whether this transaction placed a head whose vector is too long for it, and runs.
fn may_be_put(state: &State, xid: u32, fields: HeadFields) -> bool
    ensures { result ≡ true
        ↔ MayBePut (fate_of state.now.value) xid fields.inserted_by fields.bytes }
{
    if fields.inserted_by != xid || fields.bytes <= MOST_SHORT_BYTES {
        return false;
    }
    state.fate(xid) == Fate::Running
}

/// The second of two pages that a record changes, of which this is the first.
pub(crate) fn second_page(rec: &Record, first: u32) -> Option<u32>
    ensures some { IfSome result (λ p. changed rec.now ≡ first ∷ p ∷ []) }
    ensures none { IfNone result ((p : ℕ) → changed rec.now ≢ first ∷ p ∷ []) }
{
    let changes = rec.changes.as_slice();
    if changes.len() != 2 || changes[0].page != first {
        return None;
    }
    Some(changes[1].page)
}

/// The new page that a record changes after the heap page of this name, and the head that the document
/// with this name has there.
pub(crate) fn page_and_head<'a>(
    state: &State,
    rec: &Record,
    name: Name,
    before: &'a [Page],
    since: u64,
) -> Option<(u32, HeadRef<'a>)>
    ensures some { IfSome result
        (λ f. FindsHead (use_of state.now.value) since rec.now name before.now f.0 (head_shown f.1)) }
    ensures none { IfNone result
        ((p : ℕ) (h : Head) → FindsHead (use_of state.now.value) since rec.now name before.now p h → ⊥) }
{
    let page = second_page(rec, name.page)?;
    if before.len() != 2 || !state.is_new(page, since) {
        return None;
    }
    let head = head_in(&before[0], name)?;
    Some((page, head))
}

/// Whether PutOverflow may come next: its transaction placed the head and runs, the vector is too
/// long for its head, and a new page with a part of it becomes the head's first overflow page.
pub fn valid_put_overflow(
    state: &State,
    rec: &Record,
    before: &[Page],
    after: &[Page],
    _floor: u32,
    since: u64,
) -> Result<bool, AllocError>
    ensures { Judges (IsPutOverflowHere since) state.now.value rec.now before.now after.now result }
{
    let Kind::PutOverflow { item, serial } = rec.kind else {
        return Ok(false);
    };
    let name = name_of(item, serial);
    let Some((new, head)) = page_and_head(state, rec, name, before, since) else {
        return Ok(false);
    };
    if after.len() != 2 || !may_be_put(state, rec.xid, head.fields) {
        return Ok(false);
    }
    if !leaves_part(rec, head.fields.overflow, &after[1]) {
        return Ok(false);
    }
    let fields = HeadFields {
        overflow: new,
        ..head.fields
    };
    Ok(leaves_in_slot(rec, name.slot, &before[0], fields, head.vector, &after[0]))
}
