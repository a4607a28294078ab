// A table laid over frames and a journal.
ghost use Rattle.std.specs.Prelude.{◌≡◌, ◌+◌, ◌<◌, ◌≤◌, ◌^◌, [], ◌∷◌, ◌++◌, List, length, map, IfOk, IfErr};
ghost use Rattle.std.specs.declared.snapshot.Snapshot.{Snapshot};
ghost use Rattle.std.specs.Vec.{vec_capacity};
ghost use Rattle.latch_table.specs.declared.slots.Slot.{Slot};
ghost use Rattle.latch_table.specs.declared.slots.Slot.TheVariants.{Frame, Journal, Away};
ghost use Rattle.latch_table.specs.PassStates.{first_state};
ghost use Rattle.latch_table.specs.Told.{HasOpened};
ghost use Rattle.latch_table.specs.Laying.{CanLie};
ghost use Rattle.latch_table.specs.Passes.{state, IsPassOf};

use crate::held::Held;
use crate::pass::Pass;
use crate::plays::Open;
use crate::rule::{Base, Latches, Place};
use crate::slots::{Framed, Journaled, Slot};
use crate::table::LatchTable;
use atomic_table::{Refused, Table};
use std::alloc::{AllocError, Global};
use std::snapshot::Snapshot;
use std::sync::atomic::AtomicU32;

/// The table, with the first pass once it has looked.
pub(crate) fn open_first<F: Framed, J: Journaled>(
    table: Base<F, J>,
    mut seat: Place<F, J>,
    waiting: Vec<AtomicU32>,
) -> (LatchTable<F, J>, Pass<F, J>)
    requires table { seat.table_id ≡ table.shared.table_id }
    requires words { table.shared.table_id.words ≡ table.shared.table_id.slots }
    requires last { 2 ≤ table.shared.table_id.slots }
    requires waiting { length waiting.items ≡ table.shared.table_id.words }
    requires first { (key : Snapshot J) × (seat.me ≡ (first_state key, [])) }
    ensures same { result.0.table.shared.table_id ≡ table.shared.table_id }
    ensures pass { IsPassOf result.0.table.shared.table_id result.1 }
    ensures opened { (key : Snapshot J) → seat.me ≡ (first_state key, [])
        → HasOpened J.Journaled key.value (first_state key) (state result.1) }
{
    look(&table.shared, &mut seat);
    let held = Held::None;
    (LatchTable { table, waiting }, Pass { seat, held })
}

/// The words and slots, and the seat of the first pass, which has seen nothing.
pub(crate) fn found<F: Framed + Drop, J: Journaled>(
    alloc: Global,
    frames: Vec<F>,
    journal: J,
) -> Result<(Base<F, J>, Place<F, J>), J>
    requires count { length frames.items < 2 ^ 32 }
    requires lie { CanLie F.Framed J.Journaled frames.items journal }
    ensures table { IfOk result (λ t. (t.1.table_id ≡ t.0.shared.table_id)
        × (t.0.shared.table_id.words ≡ t.0.shared.table_id.slots)
        × (t.0.shared.table_id.slots ≡ length frames.items + 2)) }
    ensures first { IfOk result (λ t. (key : Snapshot J) × (key.value ≡ journal)
        × (t.1.me ≡ (first_state key, []))) }
    ensures refused { IfErr result (λ b. b ≡ journal) }
{
    let Ok(words) = Vec::from_elem(alloc, 0u64, frames.len() + 2) else {
        return Err(journal);
    };
    let start = Snapshot::of(&journal);
    let slots = fill(alloc, frames, journal)?;
    match Table::new(alloc, words.as_slice(), slots, &start) {
        Ok(made) => Ok(made),
        Err(Refused { slots }) => Err(journal_of(slots)),
    }
}

/// The first look of the first pass.
fn look<F: Framed, J: Journaled>(latches: &Latches<F, J>, seat: &mut Place<F, J>)
    requires table { (seat.old.table_id ≡ latches.now.table_id) × (0 < latches.now.table_id.words) }
    requires first { (key : Snapshot J) × (seat.old.me ≡ (first_state key, [])) }
    ensures same { seat.new.table_id ≡ seat.old.table_id }
    ensures opened { (key : Snapshot J) → seat.old.me ≡ (first_state key, [])
        → HasOpened J.Journaled key.value (first_state key) seat.new.me.0 × (seat.new.me.1 ≡ []) }
{
    latches.load::<Open>(seat, 0);
}

/// So many counts of those who wait.
pub(crate) fn counts(alloc: Global, count: usize) -> Result<Vec<AtomicU32>, AllocError>
    ensures { IfOk result (λ v. length v.items ≡ count) }
{
    let mut counts = Vec::new(alloc);
    for _ in 0..count {
        counts.push(AtomicU32::new(0))?;
    }
    Ok(counts)
}

/// The slots of the table: the frames, the journal, and the empty one of the right of maintenance.
fn fill<F: Drop, J>(alloc: Global, frames: Vec<F>, journal: J) -> Result<Vec<Slot<F, J>>, J>
    requires { length frames.items < 2 ^ 32 }
    ensures ok { IfOk result
        (λ v. v.items ≡ map Frame frames.items ++ Journal journal ∷ Away ∷ []) }
    ensures refused { IfErr result (λ b. b ≡ journal) }
{
    let Ok(mut slots) = Vec::with_capacity(alloc, frames.len() + 2) else {
        return Err(journal);
    };
    push_frames(&mut slots, frames);
    push_last(&mut slots, Slot::Journal(journal));
    push_last(&mut slots, Slot::Away);
    Ok(slots)
}

/// One slot more, for which there is room.
fn push_last<F, J>(slots: &mut Vec<Slot<F, J>>, slot: Slot<F, J>)
    requires { length slots.old.items < vec_capacity slots.old }
    ensures items { slots.new.items ≡ slots.old.items ++ slot ∷ [] }
    ensures capacity { vec_capacity slots.old ≤ vec_capacity slots.new }
{
    let pushed = slots.push(slot);
    let Ok(()) = pushed else { unreachable!() };
}

/// A slot for each frame, for which there is room.
fn push_frames<F: Drop, J>(slots: &mut Vec<Slot<F, J>>, frames: Vec<F>)
    requires none { slots.old.items ≡ [] }
    requires room { length frames.items ≤ vec_capacity slots.old }
    ensures items { slots.new.items ≡ map Frame frames.items }
    ensures capacity { vec_capacity slots.old ≤ vec_capacity slots.new }
{
    for frame in frames {
        push_last(slots, Slot::Frame(frame));
    }
}

/// The journal of a table's slots.
fn journal_of<F: Drop, J>(mut slots: Vec<Slot<F, J>>) -> J
    requires { (frames : List F) × (b : J)
        × (slots.items ≡ map Frame frames ++ Journal b ∷ Away ∷ []) }
    ensures { (frames : List F) (b : J) → slots.items ≡ map Frame frames ++ Journal b ∷ Away ∷ []
        → result ≡ b }
{
    let Some(slot) = slots.pop() else {
        unreachable!()
    };
    let Slot::Away = slot else { unreachable!() };
    let Some(slot) = slots.pop() else {
        unreachable!()
    };
    let Slot::Journal(journal) = slot else {
        unreachable!()
    };
    drop_frames(slots);
    journal
}

/// Drops the frames in these slots.
fn drop_frames<F: Drop, J>(mut slots: Vec<Slot<F, J>>)
    requires { (frames : List F) × (slots.items ≡ map Frame frames) }
{
    while let Some(slot) = slots.pop() {
        let Slot::Frame(frame) = slot else {
            unreachable!()
        };
        drop(frame);
    }
    slots.destroy_empty();
}
