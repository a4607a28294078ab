// A table that nobody shares any more.
ghost use Rattle.std.specs.Prelude.{◌≡◌, ℕ, ◌+◌, ◌<◌, ◌≤◌, false, slice_index_or};
ghost use mathlib.Core.Option.{some};
ghost use lib.ListN.{get_elem?};
ghost use Rattle.std.specs.Slots.{slots_items, slots_filled, slots_len, IsFull};
ghost use Rattle.std.specs.Slots.Ownership.{Filled};
ghost use Rattle.latch_table.specs.declared.slots.Slot.TheVariants.{Frame, Journal, Away};

use crate::slots::Slot;
use atomic_table::Closed;
use std::alloc::Global;

/// The journal of a table that is closed. The frames are dropped.
pub(crate) fn unlay<F: Drop, J>(mut closed: Closed<Slot<F, J>, Global>) -> J
    requires full { IsFull closed.slots }
    requires frames { (k : ℕ) → k + 2 < slots_len closed.slots
        → (f : F) × (get_elem? (slots_items closed.slots) k ≡ some (Frame f)) }
    requires journal { (b : J) × (k : ℕ) × (k + 2 ≡ slots_len closed.slots)
        × (get_elem? (slots_items closed.slots) k ≡ some (Journal b)) }
    requires last { (k : ℕ) → k + 1 ≡ slots_len closed.slots
        → get_elem? (slots_items closed.slots) k ≡ some Away }
    ensures { (k : ℕ) (b : J) → k + 2 ≡ slots_len closed.slots
        → get_elem? (slots_items closed.slots) k ≡ some (Journal b) → result ≡ b }
{
    let count = closed.slot_count();
    drop_first(&mut closed, count - 2);
    let slot = closed.take(count - 2);
    let Slot::Journal(journal) = slot else {
        unreachable!()
    };
    let slot = closed.take(count - 1);
    let Slot::Away = slot else { unreachable!() };
    closed.free();
    journal
}

/// Drops so many frames, which come first.
fn drop_first<F: Drop, J>(closed: &mut Closed<Slot<F, J>, Global>, count: usize)
    requires full { IsFull closed.old.slots }
    requires few { count ≤ slots_len closed.old.slots }
    requires frames { (k : ℕ) → k < count
        → (f : F) × (get_elem? (slots_items closed.old.slots) k ≡ some (Frame f)) }
    ensures items { slots_items closed.new.slots ≡ slots_items closed.old.slots }
    ensures length { slots_len closed.new.slots ≡ slots_len closed.old.slots }
    ensures rest { Filled (slots_filled closed.new.slots) count (slots_len closed.old.slots) }
    ensures empty { (k : ℕ) → k < count
        → slice_index_or (slots_filled closed.new.slots) k false ≡ false }
{
    for i in 0..count {
        let slot = closed.take(i);
        let Slot::Frame(frame) = slot else {
            unreachable!()
        };
        drop(frame);
    }
}
