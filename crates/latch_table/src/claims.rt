// Claims of frames, and frames given back.
ghost use Rattle.std.specs.Prelude.{◌≡◌, ◌≢◌, ℕ, List, ◌∷◌, ◌+◌, ◌<◌, false, Some, None, MatchOption};
ghost use Rattle.atomic_table.specs.Table.{rest};
ghost use Rattle.core_state.specs.Log.{In};
ghost use Rattle.latch_table.specs.declared.slots.Slot.{Slot};
ghost use Rattle.latch_table.specs.declared.slots.Slot.TheVariants.{Away};
ghost use Rattle.latch_table.specs.declared.states.Note.{Note};
ghost use Rattle.latch_table.specs.PassStates.{found_by, without_frame};
ghost use Rattle.latch_table.specs.Held.{turned_by};
ghost use Rattle.latch_table.specs.Told.{HasClaimed, HasClaimedJournal};
ghost use Rattle.latch_table.specs.Giving.{HasGivenJournal, CanGive};
ghost use Rattle.std.specs.declared.snapshot.Snapshot.{Snapshot};

use crate::attempts::Attempt;
use crate::changes::Changes;
use crate::plays::{Claim, ClaimJournal, GiveBack, GiveJournal};
use crate::rule::{Latches, Place};
use crate::slots::{Framed, Journaled, Slot};

/// Takes a frame where its word is free, with the page that is sought.
pub(crate) fn take<F: Framed, J: Journaled, A: Attempt>(
    latches: &Latches<F, J>,
    seat: &mut Place<F, J>,
    frame: usize,
    page: u32,
) -> Option<F>
    requires table { (seat.old.table_id ≡ latches.now.table_id)
        × (frame + 2 < latches.now.table_id.slots)
        × (latches.now.table_id.words ≡ latches.now.table_id.slots) }
    requires room { 0 < seat.old.me.0.room }
    ensures same { (seat.new.table_id ≡ seat.old.table_id) × (seat.new.id ≡ seat.old.id) }
    ensures claimed { (found : ℕ) × MatchOption result
        ((found ≢ 0) × (seat.new.me ≡ (found_by A.notes frame found seat.old.me.0, seat.old.me.1)))
        (λ f. (found ≡ 0)
        × HasClaimed F.Framed J.Journaled frame page f
        (found_by A.notes frame found seat.old.me.0) seat.new.me.0
        × (seat.new.me.1 ≡ (frame, Away) ∷ seat.old.me.1)) }
{
    let is_free = latches.compare_exchange::<Claim<A>>(seat, frame, 0, page as u64 + 1) == 0;
    if !is_free {
        return None;
    }
    let slot = latches.exchange(seat, frame, Slot::Away);
    let Slot::Frame(value) = slot else {
        unreachable!()
    };
    Some(value)
}

/// Takes the journal where its word is free.
pub(crate) fn take_journal<F: Framed, J: Journaled>(
    latches: &Latches<F, J>,
    seat: &mut Place<F, J>,
    word: usize,
) -> Option<J>
    requires table { seat.old.table_id ≡ latches.now.table_id }
    requires last { word + 2 ≡ latches.now.table_id.slots }
    requires words { latches.now.table_id.words ≡ latches.now.table_id.slots }
    requires room { 0 < seat.old.me.0.room }
    ensures same { (seat.new.table_id ≡ seat.old.table_id) × (seat.new.id ≡ seat.old.id) }
    ensures claimed { MatchOption result (seat.new.me ≡ seat.old.me)
        (λ b. HasClaimedJournal J.Journaled b seat.old.me.0 seat.new.me.0
        × (seat.new.me.1 ≡ (word, Away) ∷ seat.old.me.1)) }
{
    if latches.compare_exchange::<ClaimJournal>(seat, word, 0, 1) != 0 {
        return None;
    }
    let slot = latches.exchange(seat, word, Slot::Away);
    let Slot::Journal(journal) = slot else {
        unreachable!()
    };
    Some(journal)
}

/// Brings the slot to the front that is after so many.
pub(crate) fn turn<F, J>(seat: &mut Place<F, J>, times: usize)
    ensures { (seat.new.table_id ≡ seat.old.table_id) × (seat.new.id ≡ seat.old.id)
        × (seat.new.me ≡ (seat.old.me.0, turned_by times seat.old.me.1)) }
{
    for _ in 0..times {
        seat.turn();
    }
}

/// Gives back the frame that was taken last, as it is noted.
pub(crate) fn put<F: Framed, J: Journaled>(
    latches: &Latches<F, J>,
    seat: &mut Place<F, J>,
    frame: usize,
    value: F,
)
    requires table { (seat.old.table_id ≡ latches.now.table_id)
        × (frame < latches.now.table_id.slots)
        × (latches.now.table_id.words ≡ latches.now.table_id.slots) }
    requires room { 0 < seat.old.me.0.room }
    requires noted { (note : Note) × In note seat.old.me.0.frames × (note.frame ≡ frame)
        × (F.page value ≡ note.page) × (F.bytes value ≡ note.bytes) }
    requires front { (xs : List (ℕ × Slot F J)) × (seat.old.me.1 ≡ (frame, Away) ∷ xs) }
    ensures { (seat.new.table_id ≡ seat.old.table_id) × (seat.new.id ≡ seat.old.id)
        × (seat.new.me ≡ (without_frame frame seat.old.me.0, rest seat.old.me.1)) }
{
    let away = latches.exchange(seat, frame, Slot::Frame(value));
    let Slot::Away = away else { unreachable!() };
    latches.store::<GiveBack>(seat, frame, 0);
}

/// Gives back the journal, which was taken last.
pub(crate) fn put_journal<F: Framed, J: Journaled, C: Changes<J>>(
    latches: &Latches<F, J>,
    seat: &mut Place<F, J>,
    word: usize,
    journal: J,
)
    requires table { seat.old.table_id ≡ latches.now.table_id }
    requires last { word + 2 ≡ latches.now.table_id.slots }
    requires words { latches.now.table_id.words ≡ latches.now.table_id.slots }
    requires room { 0 < seat.old.me.0.room }
    requires seen { seat.old.me.0.fresh ≡ false }
    requires start { (key : Snapshot J) × (seat.old.me.0.start ≡ Some key) }
    requires can { CanGive J.Journaled word seat.old.me.0 journal (C.change seat.old.me.0 journal) }
    requires front { (xs : List (ℕ × Slot F J)) × (seat.old.me.1 ≡ (word, Away) ∷ xs) }
    ensures same { (seat.new.table_id ≡ seat.old.table_id) × (seat.new.id ≡ seat.old.id) }
    ensures given { (b : J) → seat.old.me.0.journal ≡ Some b
        → HasGivenJournal J.Journaled b journal (C.change seat.old.me.0 journal) seat.old.me.0
        seat.new.me.0 }
    ensures rest { seat.new.me.1 ≡ rest seat.old.me.1 }
{
    let away = latches.exchange(seat, word, Slot::Journal(journal));
    let Slot::Away = away else { unreachable!() };
    latches.store::<GiveJournal<C>>(seat, word, 0);
}
