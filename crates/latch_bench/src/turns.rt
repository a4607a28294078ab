// Turns: a frame, then the journal, one more in each, and back.
ghost use Rattle.std.specs.Prelude.{◌≡◌, ◌+◌, ◌<◌, None};
ghost use Rattle.latch_table.specs.Passes.{state, IsPassOf};
ghost use Rattle.latch_bench.specs.Hands.{IsFree, HoldsAlike};

use crate::slots::{Added, Desk, Hand};
use latch_table::Looked;
use std::sync::Wait;

/// How many frames the table has.
pub(crate) const FRAMES: u32 = 64;

/// Logs one record more, as long as they can be counted.
fn log_one<R: Wait>(rt: &R, desk: &Desk, hand: &mut Hand)
    requires pass { IsPassOf desk.now.table.shared.table_id hand.old }
    requires no_journal { (state hand.old).journal ≡ None }
    ensures pass { IsPassOf desk.now.table.shared.table_id hand.new }
    ensures alike { HoldsAlike (state hand.old) (state hand.new) }
{
    let mut tally = desk.claim_journal(rt, hand);
    match tally.count.checked_add(1) {
        Some(count) => {
            tally.count = count;
            desk.give_back_journal::<Added>(hand, tally);
        }
        None => desk.give_back_journal::<Looked>(hand, tally),
    }
}

/// Logs so many records.
pub(crate) fn log_often<R: Wait>(rt: &R, desk: &Desk, hand: &mut Hand, times: u32)
    requires pass { IsPassOf desk.now.table.shared.table_id hand.old }
    requires no_journal { (state hand.old).journal ≡ None }
{
    for _ in 0..times {
        log_one(rt, desk, hand);
    }
}

/// Claims a frame, counts so many more in it, and gives it back; how many it counts then.
pub(crate) fn touch<R: Wait>(rt: &R, desk: &Desk, hand: &mut Hand, frame: u32, more: u64) -> u64
    requires free { IsFree desk.now.table.shared.table_id hand.old }
    requires within { frame + 2 < desk.now.table.shared.table_id.slots }
    ensures free { IsFree desk.now.table.shared.table_id hand.new }
    ensures room { (state hand.new).room ≡ (state hand.old).room }
{
    let mut leaf = desk.claim(rt, hand, frame, frame);
    leaf.count = leaf.count.saturating_add(more);
    let count = leaf.count;
    desk.give_back(hand, frame, leaf);
    count
}

/// One more in this frame and in the journal.
fn count_one<R: Wait>(rt: &R, desk: &Desk, hand: &mut Hand, frame: u32)
    requires free { IsFree desk.now.table.shared.table_id hand.old }
    requires within { frame + 2 < desk.now.table.shared.table_id.slots }
    ensures free { IsFree desk.now.table.shared.table_id hand.new }
    ensures room { (state hand.new).room ≡ (state hand.old).room }
{
    let mut leaf = desk.claim(rt, hand, frame, frame);
    leaf.count = leaf.count.saturating_add(1);
    log_one(rt, desk, hand);
    desk.give_back(hand, frame, leaf);
}

/// So many turns, by frames in a row.
pub(crate) fn take_turns<R: Wait>(rt: &R, desk: &Desk, hand: &mut Hand, turns: u32) -> u64
    requires free { IsFree desk.now.table.shared.table_id hand.old }
    requires slots { desk.now.table.shared.table_id.slots ≡ 66 }
    ensures free { IsFree desk.now.table.shared.table_id hand.new }
    ensures room { (state hand.new).room ≡ (state hand.old).room }
{
    for turn in 0..turns {
        count_one(rt, desk, hand, turn % FRAMES);
    }
    u64::from(turns)
}

/// What all frames count.
pub(crate) fn count_frames<R: Wait>(rt: &R, desk: &Desk, hand: &mut Hand) -> u64
    requires free { IsFree desk.now.table.shared.table_id hand.old }
    requires slots { desk.now.table.shared.table_id.slots ≡ 66 }
    ensures free { IsFree desk.now.table.shared.table_id hand.new }
    ensures room { (state hand.new).room ≡ (state hand.old).room }
{
    let mut all = 0u64;
    for frame in 0..FRAMES {
        all = all.saturating_add(touch(rt, desk, hand, frame, 0));
    }
    all
}
