// When a record PlaceHead may come next, as far as the record, its heap page before and after, and
// the state of the log say.
ghost use Rattle.std.specs.Prelude.{◌≡◌, ◌≢◌, ◌↔◌, ℕ, true};
ghost use Rattle.std.specs.Option.{option_map};
ghost use Rattle.page_types.specs.Parts.{head_shown};
ghost use Rattle.page_types.specs.Views.{slot_at};
ghost use Rattle.core_state.specs.HeapRules.{IsNewHead, IsPlaceHeadHere};
ghost use Rattle.core_state.specs.Judging.{Judges};
ghost use Rattle.core_state.specs.States.{use_of};
ghost use Rattle.core_state.specs.Inner.Placing.{PlacesHead, LeavesHead};

use crate::answers::Fate;
use crate::state::State;
use crate::table::name_of;
use crate::valid::changes_pages;
use page_types::{Body, HeadRef, Kind, Name, Page, Record, Slots};
use std::alloc::{AllocError, Global};

/// Whether two slots have the same head, or both are free.
fn is_same(a: Option<HeadRef<'_>>, b: Option<HeadRef<'_>>) -> bool
    ensures { result ≡ true ↔ (option_map head_shown a.entry ≡ option_map head_shown b.entry) }
{
    match (a, b) {
        (None, None) => true,
        (Some(a), Some(b)) => a.fields == b.fields && a.vector == b.vector,
        _ => false,
    }
}

/// Whether all slots but this one stay.
pub fn others_stay(slots: &Slots, k: usize, new: &Slots) -> bool
    ensures { result ≡ true ↔ ((j : ℕ) → j ≢ k → slot_at new.now j ≡ slot_at slots.now j) }
{
    let end = slots.len().max(new.len());
    for j in 0..end {
        if j != k && !is_same(new.get(j), slots.get(j)) {
            return false;
        }
    }
    true
}

/// Whether a head is a new one with this serial, of this transaction.
fn is_new_head(head: HeadRef<'_>, serial: u64, xid: u32) -> bool
    ensures { result ≡ true ↔ IsNewHead (head_shown head.entry) serial xid }
{
    let fields = head.fields;
    fields.serial == serial
        && fields.inserted_by == xid
        && fields.deleted_by == 0
        && fields.overflow == 0
        && fields.private == 0
}

/// Whether a slot, which was free or is the next, gets a new head with this serial, of this
/// transaction, and the others stay.
fn places_head(slots: &Slots, slot: u16, new: &Slots, serial: u64, xid: u32) -> bool
    ensures { result ≡ true ↔ PlacesHead slots.now slot new.now serial xid }
{
    let k = usize::from(slot);
    let Some(head) = new.get(k) else {
        return false;
    };
    if k > slots.len() || slots.get(k).is_some() || new.len() != slots.len().max(k + 1) {
        return false;
    }
    is_new_head(head, serial, xid) && others_stay(slots, k, new)
}

/// Whether a record leaves the page of this name, which is an old heap page or a new page, with a
/// new head in its slot.
fn leaves_head(
    alloc: Global,
    state: &State,
    rec: &Record,
    name: Name,
    old: &Page,
    new: &Page,
    since: u64,
) -> bool
    ensures { result ≡ true
        ↔ LeavesHead (use_of state.now.value) since rec.now name old.now new.now }
{
    let Body::Heap(new_slots) = &new.body else {
        return false;
    };
    if new.stamp != rec.number {
        return false;
    }
    if let Body::Heap(slots) = &old.body {
        if new.right == old.right
            && places_head(slots, name.slot, new_slots, name.serial, rec.xid)
        {
            return true;
        }
    }
    new.right == 0
        && state.is_new(name.page, since)
        && places_head(
            &Slots::new(alloc),
            name.slot,
            new_slots,
            name.serial,
            rec.xid,
        )
}

/// Whether PlaceHead may come next: its transaction runs, its serial is the next, and a new head
/// comes into a slot that is free or the next, of an old heap page or a new page.
pub fn valid_place_head(
    alloc: Global,
    state: &State,
    rec: &Record,
    before: &[Page],
    after: &[Page],
    _floor: u32,
    since: u64,
) -> Result<bool, AllocError>
    ensures { Judges (IsPlaceHeadHere since) state.now.value rec.now before.now after.now result }
{
    let Kind::PlaceHead { item, serial } = rec.kind else {
        return Ok(false);
    };
    let name = name_of(item, serial);
    if before.len() != 1 || after.len() != 1 || !changes_pages(rec, &[name.page]) {
        return Ok(false);
    }
    let Fate::Running = state.fate(rec.xid) else {
        return Ok(false);
    };
    if serial != state.next_serial() {
        return Ok(false);
    }
    Ok(leaves_head(alloc, state, rec, name, &before[0], &after[0], since))
}
