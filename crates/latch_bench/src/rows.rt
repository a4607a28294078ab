// Four frames in a row, claimed in rising order and given back in any.
ghost use Rattle.std.specs.Prelude.{◌≡◌, ◌≢◌, ℕ, ◌+◌, ◌<◌, ◌≤◌, length, None};
ghost use mathlib.Core.Option.{some};
ghost use lib.ListN.{get_elem?};
ghost use Rattle.latch_table.specs.Passes.{state};
ghost use Rattle.latch_bench.specs.Hands.{IsFree, IsHolding};
ghost use Rattle.latch_bench.specs.Lent.{AreLent};

use crate::slots::{Desk, Hand, Leaf};
use std::sync::Wait;

/// How many frames a row has.
const WIDTH: usize = 4;

/// The 24 orders of four places.
const ORDERS: &str = "0123 0132 0213 0231 0312 0321 1023 1032 1203 1230 1302 1320 \
    2013 2031 2103 2130 2301 2310 3012 3021 3102 3120 3201 3210";

/// The values of a row's frames.
type Row = [Option<Leaf>; 4];

/// Whether a try to claim this frame finds it taken. A pass that holds four frames makes none.
fn is_taken(desk: &Desk, hand: &mut Hand, frame: u32, held: usize) -> bool
    requires holding { IsHolding desk.now.table.shared.table_id hand.old }
    requires within { frame + 2 < desk.now.table.shared.table_id.slots }
    requires held { held ≡ length (state hand.old).frames }
    requires few { held ≤ 4 }
    ensures holding { IsHolding desk.now.table.shared.table_id hand.new }
    ensures frames { (state hand.new).frames ≡ (state hand.old).frames }
    ensures room { (state hand.new).room ≡ (state hand.old).room }
{
    if held == WIDTH {
        return false;
    }
    match desk.try_claim(hand, frame, frame) {
        None => true,
        Some(leaf) => {
            desk.give_back(hand, frame, leaf);
            false
        }
    }
}

/// The frames of a row, claimed in rising order; and how many tries to claim them once more found
/// them taken.
fn claim_row<R: Wait>(rt: &R, desk: &Desk, hand: &mut Hand, base: u32) -> (Row, u64)
    requires free { IsFree desk.now.table.shared.table_id hand.old }
    requires base { base + 5 < desk.now.table.shared.table_id.slots }
    requires low { base ≤ 60 }
    ensures holding { IsHolding desk.now.table.shared.table_id hand.new }
    ensures lent { AreLent (state hand.new).frames base result.0 }
    ensures room { (state hand.new).room ≡ (state hand.old).room }
{
    let mut row = [None, None, None, None];
    let mut taken = 0u64;
    for place in 0..WIDTH {
        let frame = base + place as u32;
        row[place] = Some(desk.claim(rt, hand, frame, frame));
        taken = taken.saturating_add(u64::from(is_taken(desk, hand, frame, place + 1)));
    }
    (row, taken)
}

/// Gives the frame at this place back, where it is held.
fn give_at(desk: &Desk, hand: &mut Hand, base: u32, row: &mut Row, place: usize)
    requires holding { IsHolding desk.now.table.shared.table_id hand.old }
    requires low { base ≤ 60 }
    requires place { place < 4 }
    requires lent { AreLent (state hand.old).frames base row.old }
    ensures holding { IsHolding desk.now.table.shared.table_id hand.new }
    ensures lent { AreLent (state hand.new).frames base row.new }
    ensures here { get_elem? row.new place ≡ some None }
    ensures others { (k : ℕ) → k ≢ place → get_elem? row.new k ≡ get_elem? row.old k }
    ensures room { (state hand.new).room ≡ (state hand.old).room }
{
    if let Some(leaf) = row[place].take() {
        desk.give_back(hand, base + place as u32, leaf);
    }
}

/// Gives the frames of a row back in this order.
fn give_in_order(desk: &Desk, hand: &mut Hand, base: u32, row: &mut Row, order: &str)
    requires holding { IsHolding desk.now.table.shared.table_id hand.old }
    requires low { base ≤ 60 }
    requires lent { AreLent (state hand.old).frames base row.old }
    ensures holding { IsHolding desk.now.table.shared.table_id hand.new }
    ensures lent { AreLent (state hand.new).frames base row.new }
    ensures room { (state hand.new).room ≡ (state hand.old).room }
{
    for digit in order.bytes() {
        give_at(desk, hand, base, row, usize::from(digit % 4));
    }
}

/// Gives those back that are still held.
fn give_rest(desk: &Desk, hand: &mut Hand, base: u32, row: &mut Row)
    requires holding { IsHolding desk.now.table.shared.table_id hand.old }
    requires low { base ≤ 60 }
    requires lent { AreLent (state hand.old).frames base row.old }
    ensures free { IsFree desk.now.table.shared.table_id hand.new }
    ensures room { (state hand.new).room ≡ (state hand.old).room }
{
    for place in 0..WIDTH {
        give_at(desk, hand, base, row, place);
    }
}

/// Claims a row, and gives it back in this order; how many tries found a held frame taken.
fn run_order<R: Wait>(rt: &R, desk: &Desk, hand: &mut Hand, base: u32, order: &str) -> u64
    requires free { IsFree desk.now.table.shared.table_id hand.old }
    requires base { base + 5 < desk.now.table.shared.table_id.slots }
    requires low { base ≤ 60 }
    ensures free { IsFree desk.now.table.shared.table_id hand.new }
    ensures room { (state hand.new).room ≡ (state hand.old).room }
{
    let (mut row, taken) = claim_row(rt, desk, hand, base);
    give_in_order(desk, hand, base, &mut row, order);
    give_rest(desk, hand, base, &mut row);
    taken
}

/// Claims a row from each frame on that begins one, in each order; how many tries found a held
/// frame taken.
pub(crate) fn run_orders<R: Wait>(rt: &R, desk: &Desk, hand: &mut Hand, base: u32) -> u64
    requires free { IsFree desk.now.table.shared.table_id hand.old }
    requires base { base + 5 < desk.now.table.shared.table_id.slots }
    requires low { base ≤ 60 }
    ensures free { IsFree desk.now.table.shared.table_id hand.new }
    ensures room { (state hand.new).room ≡ (state hand.old).room }
{
    let mut taken = 0u64;
    for order in ORDERS.split(' ') {
        taken = taken.saturating_add(run_order(rt, desk, hand, base, order));
    }
    taken
}
