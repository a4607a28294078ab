// The right of maintenance, claimed and given back.
ghost use Rattle.std.specs.Prelude.{◌≡◌, ◌≢◌, ℕ, ◌+◌, ◌<◌, true, false, Some};
ghost use Rattle.latch_table.specs.PassStates.{found_by, without_work};
ghost use Rattle.latch_table.specs.Told.{HasClaimedWork};

use crate::attempts::Attempt;
use crate::plays::{ClaimWork, GiveWork};
use crate::rule::{Latches, Place};
use crate::slots::{Framed, Journaled};

/// Takes the right where its word is free.
pub(crate) fn take_work<F: Framed, J: Journaled, A: Attempt>(
    latches: &Latches<F, J>,
    seat: &mut Place<F, J>,
    word: usize,
) -> bool
    requires table { seat.old.table_id ≡ latches.now.table_id }
    requires last { word + 1 ≡ latches.now.table_id.slots }
    requires words { latches.now.table_id.words ≡ latches.now.table_id.slots }
    requires room { 0 < seat.old.me.0.room }
    ensures same { (seat.new.table_id ≡ seat.old.table_id) × (seat.new.id ≡ seat.old.id) }
    ensures out { seat.new.me.1 ≡ seat.old.me.1 }
    ensures claimed { (found : ℕ)
        × (result ≡ true → (found ≡ 0)
        × HasClaimedWork J.Journaled (found_by A.notes word found seat.old.me.0) seat.new.me.0)
        × (result ≡ false → (found ≢ 0)
        × (seat.new.me.0 ≡ found_by A.notes word found seat.old.me.0)) }
{
    latches.compare_exchange::<ClaimWork<A>>(seat, word, 0, 1) == 0
}

/// Gives the right back.
pub(crate) fn put_work<F: Framed, J: Journaled>(
    latches: &Latches<F, J>,
    seat: &mut Place<F, J>,
    word: usize,
)
    requires table { seat.old.table_id ≡ latches.now.table_id }
    requires last { word + 1 ≡ latches.now.table_id.slots }
    requires words { latches.now.table_id.words ≡ latches.now.table_id.slots }
    requires room { 0 < seat.old.me.0.room }
    requires right { (at : ℕ) × (seat.old.me.0.work ≡ Some at) }
    ensures same { (seat.new.table_id ≡ seat.old.table_id) × (seat.new.id ≡ seat.old.id) }
    ensures given { seat.new.me ≡ (without_work seat.old.me.0, seat.old.me.1) }
{
    latches.store::<GiveWork>(seat, word, 0);
}
