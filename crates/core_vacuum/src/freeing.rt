// When a record FreeSlots may come next, as far as the record, its page before and after, and the state
// of the log say.
ghost use Rattle.std.specs.Prelude.{◌≡◌, ◌↔◌, true};
ghost use Rattle.std.specs.Option.{option_map};
ghost use Rattle.page_types.specs.Parts.{head_shown};
ghost use Rattle.core_state.specs.Changes.{IsDeadHead};
ghost use Rattle.core_state.specs.VacuumRules.{MayFree, SlotLoses, IsFreeSlotsHere};
ghost use Rattle.core_state.specs.Judging.{Judges};
ghost use Rattle.core_state.specs.States.{known_by, fate_of};
ghost use Rattle.core_vacuum.specs.Inner.Freeing.{BecomesFree, SlotsGo, LeavesSlots};

use core_state::{Fate, State};
use page_types::{Body, HeadRef, Kind, Page, Record, Slots};
use std::alloc::AllocError;

/// Whether a head says that its document is dead by so many commits.
pub fn is_dead(state: &State, head: HeadRef<'_>, floor: u32) -> bool
    ensures { result ≡ true ↔ IsDeadHead (fate_of state.now.value) floor (head_shown head.entry) }
{
    if let Fate::Aborted = state.fate(head.fields.inserted_by) {
        return true;
    }
    match state.fate(head.fields.deleted_by) {
        Fate::Committed(number) => number <= floor,
        _ => false,
    }
}

/// Whether the slot of a head may become free: its document is dead, and its chains are empty.
fn may_be_freed(state: &State, head: HeadRef<'_>, floor: u32) -> bool
    ensures { result ≡ true ↔ MayFree (known_by state.now.value) floor (head_shown head.entry) }
{
    if head.fields.overflow != 0 || head.fields.private != 0 {
        return false;
    }
    is_dead(state, head, floor)
}

/// Whether two heads are the same.
pub fn is_same_head(a: HeadRef<'_>, b: HeadRef<'_>) -> bool
    ensures { result ≡ true ↔ (head_shown a.entry ≡ head_shown b.entry) }
{
    a.fields == b.fields && a.vector == b.vector
}

/// Whether a slot stays as it is, or becomes free where it may.
fn slot_goes(state: &State, old: Option<HeadRef<'_>>, new: Option<HeadRef<'_>>, floor: u32) -> bool
    ensures { result ≡ true ↔ SlotLoses (known_by state.now.value) floor
        (option_map head_shown old.entry) (option_map head_shown new.entry) }
{
    match (old, new) {
        (None, None) => true,
        (Some(a), Some(b)) => is_same_head(a, b),
        (Some(a), None) => may_be_freed(state, a, floor),
        (None, Some(_)) => false,
    }
}

/// Whether a slot was used, and is free.
fn becomes_free(old: Option<HeadRef<'_>>, new: Option<HeadRef<'_>>) -> bool
    ensures { result ≡ true ↔ BecomesFree (option_map head_shown old.entry) (option_map head_shown new.entry) }
{
    match (old, new) {
        (Some(_), None) => true,
        _ => false,
    }
}

/// Whether slots stay as they are, or become free where they may, one at least.
fn slots_go(state: &State, slots: &Slots, new: &Slots, floor: u32) -> bool
    ensures { result ≡ true ↔ SlotsGo (known_by state.now.value) floor slots.now new.now }
{
    if new.len() != slots.len() {
        return false;
    }
    let mut freed = false;
    for k in 0..slots.len() {
        let (old, now) = (slots.get(k), new.get(k));
        if !slot_goes(state, old, now, floor) {
            return false;
        }
        freed = freed || becomes_free(old, now);
    }
    freed
}

/// Whether a record leaves a heap page with slots that became free, and all else of it as it was.
fn leaves_slots(state: &State, rec: &Record, old: &Page, new: &Page, floor: u32) -> bool
    ensures { result ≡ true
        ↔ LeavesSlots (known_by state.now.value) floor rec.now old.now new.now }
{
    let Body::Heap(slots) = &old.body else {
        return false;
    };
    let Body::Heap(new_slots) = &new.body else {
        return false;
    };
    if new.right != old.right || new.stamp != rec.number {
        return false;
    }
    slots_go(state, slots, new_slots, floor)
}

/// Whether FreeSlots may come next: slots of dead documents without chains, one at least, become free.
pub fn valid_free_slots(
    state: &State,
    rec: &Record,
    before: &[Page],
    after: &[Page],
    floor: u32,
    _since: u64,
) -> Result<bool, AllocError>
    ensures { Judges (IsFreeSlotsHere floor) state.now.value rec.now before.now after.now result }
{
    let Kind::FreeSlots = rec.kind else {
        return Ok(false);
    };
    if before.len() != 1 || after.len() != 1 || rec.changes.as_slice().len() != 1 {
        return Ok(false);
    }
    Ok(leaves_slots(state, rec, &before[0], &after[0], floor))
}
