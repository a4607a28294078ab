// When a record DropPage may come next, as far as the record, its pages before and after, and the state
// of the log say.
ghost use Rattle.std.specs.Prelude.{◌≡◌, ◌≢◌, ◌↔◌, ℕ, true, [], ◌∷◌, Some, IfSome, IfNone};
ghost use Rattle.page_types.specs.Parts.{head_shown};
ghost use Rattle.page_types.specs.declared.page.Head.{Head};
ghost use Rattle.core_state.specs.Log.{changed};
ghost use Rattle.core_state.specs.Documents as documents;
ghost use Rattle.core_state.specs.Changes.{PutsSlot};
ghost use Rattle.core_state.specs.VacuumRules.{IsDropPageHere};
ghost use Rattle.core_state.specs.Judging.{Judges};
ghost use Rattle.core_state.specs.Inner.HeadChanges.{LeavesInSlot};
ghost use Rattle.core_vacuum.specs.Inner.Dropping.{FirstGone};

use crate::freeing::{is_dead, is_same_head};
use core_state::{State, begin_with, head_in, others_stay};
use page_types::{Body, Gone, HeadFields, HeadRef, Kind, Name, Page, Record, Rows, Slots};
use std::alloc::AllocError;

/// A heap page has at most this many slots.
const MOST_SLOTS: u32 = 2048;

/// The name of the document with this item and serial.
fn name_of(item: u32, serial: u64) -> Name
    ensures { result ≡ documents.name_of (record { item = item; serial = serial }) }
{
    Name {
        page: item / MOST_SLOTS,
        slot: (item % MOST_SLOTS) as u16,
        serial,
    }
}

/// The second of two pages that a record changes, of which this is the first.
fn second_page(rec: &Record, first: u32) -> Option<u32>
    ensures some { IfSome result (λ p. changed rec.now ≡ first ∷ p ∷ []) }
    ensures none { IfNone result ((p : ℕ) → changed rec.now ≢ first ∷ p ∷ []) }
{
    let changes = rec.changes.as_slice();
    if changes.len() != 2 || changes[0].page != first {
        return None;
    }
    Some(changes[1].page)
}

/// Whether these are the same rows.
fn are_same(rows: &Rows, new: &Rows) -> bool
    ensures { result ≡ true ↔ (new.now ≡ rows.now) }
{
    new.len() == rows.len() && begin_with(new, rows)
}

/// The head once the page, which is the first of one of its chains, is deleted, if a record leaves it so.
fn head_then<'a>(
    rec: &Record,
    page: u32,
    head: HeadRef<'a>,
    was: &Page,
    new: &Page,
) -> Option<HeadRef<'a>>
    ensures some { IfSome result
        (λ h. FirstGone rec.now page was.now new.now (head_shown head.entry) (head_shown h)) }
    ensures none { IfNone result
        ((h : Head) → FirstGone rec.now page was.now new.now (head_shown head.entry) h → ⊥) }
{
    if new.right != was.right || new.stamp != rec.number {
        return None;
    }
    let Body::Deleted(gone) = &new.body else {
        return None;
    };
    let fields = match (&was.body, gone) {
        (Body::Overflow(part), Gone::Overflow(kept)) => {
            if head.fields.overflow != page || part.as_slice() != kept.as_slice() {
                return None;
            }
            HeadFields {
                overflow: was.right,
                ..head.fields
            }
        }
        (Body::Pending(rows), Gone::Pending(kept)) => {
            if head.fields.private != page || !are_same(rows, kept) {
                return None;
            }
            HeadFields {
                private: was.right,
                ..head.fields
            }
        }
        _ => return None,
    };
    Some(HeadRef {
        fields,
        vector: head.vector,
    })
}

/// Whether a slot becomes this head, and the others stay.
fn puts_head(slots: &Slots, slot: u16, head: HeadRef<'_>, new: &Slots) -> bool
    ensures { result ≡ true ↔ PutsSlot slots.now slot (Some (head_shown head.entry)) new.now }
{
    let k = usize::from(slot);
    let Some(now) = new.get(k) else {
        return false;
    };
    if !is_same_head(now, head) {
        return false;
    }
    new.len() == slots.len().max(k + 1) && others_stay(slots, k, new)
}

/// Whether a record leaves a heap page with this head in the slot, and all else of it as it was.
fn leaves_in_slot(rec: &Record, slot: u16, old: &Page, head: HeadRef<'_>, new: &Page) -> bool
    ensures { result ≡ true ↔ LeavesInSlot rec.now slot old.now (head_shown head.entry) new.now }
{
    let Body::Heap(slots) = &old.body else {
        return false;
    };
    let Body::Heap(new_slots) = &new.body else {
        return false;
    };
    if new.right != old.right || new.stamp != rec.number {
        return false;
    }
    puts_head(slots, slot, head, new_slots)
}

/// Whether DropPage may come next: the slot's head has the serial, its document is dead, and the first page
/// of one of its chains is deleted, which goes on from the next one.
pub fn valid_drop_page(
    state: &State,
    rec: &Record,
    before: &[Page],
    after: &[Page],
    floor: u32,
    _since: u64,
) -> Result<bool, AllocError>
    ensures { Judges (IsDropPageHere floor) state.now.value rec.now before.now after.now result }
{
    let Kind::DropPage { item, serial } = rec.kind else {
        return Ok(false);
    };
    let name = name_of(item, serial);
    let Some(page) = second_page(rec, name.page) else {
        return Ok(false);
    };
    if page == 0 || before.len() != 2 || after.len() != 2 {
        return Ok(false);
    }
    let (old, was) = (&before[0], &before[1]);
    let (new, dropped) = (&after[0], &after[1]);
    let Some(head) = head_in(old, name) else {
        return Ok(false);
    };
    if !is_dead(state, head, floor) {
        return Ok(false);
    }
    let Some(then) = head_then(rec, page, head, was, dropped) else {
        return Ok(false);
    };
    Ok(leaves_in_slot(rec, name.slot, old, then, new))
}
