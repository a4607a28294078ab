// The ends of lists that lie one after the other.
ghost use Rattle.std.specs.Prelude.{◌≡◌, ℕ, ◌+◌, ◌-◌, ◌^◌, ◌<◌, ◌≤◌, length, map, slice_index, slice_range, EachIndex};
ghost use Rattle.std.specs.List.{splice};
ghost use Rattle.std.specs.Vec.{vec_capacity};
ghost use Rattle.page_types.specs.Inner.Cuts.{EndAt, CanMove, start_at, moved, ends_with};

use crate::splice::replace_run;

/// Where the list with this number begins.
#[tactic(auto, using(crate::proofs::Cutting::start_before))]
pub(crate) fn start_of(ends: &[usize], k: usize) -> usize
    requires { k ≤ length ends.now }
    ensures { result ≡ start_at 0 ends.now k }
{
    if k == 0 { 0 } else { ends[k - 1] }
}

/// Moves the ends of lists that began at `from` and now begin at `to`.
fn move_ends(ends: &mut [usize], from: usize, to: usize)
    requires { EachIndex ends.old (λ k. (from ≤ slice_index ends.old k)
        × (to + (slice_index ends.old k - from) < 2 ^ 64)) }
    ensures { ends.new ≡ map (moved from to) ends.old }
{
    for end in ends.iter_mut() {
        *end = to + (*end - from);
    }
}

/// The same of the ends from one number up to another.
fn move_some(ends: &mut Vec<usize>, low: usize, high: usize, from: usize, to: usize)
    requires in_order { low ≤ high }
    requires within { high ≤ length ends.old.items }
    requires fits { CanMove from to (slice_range ends.old.items low high) }
    ensures { ends.new.items ≡ splice ends.old.items low high (map (moved from to)
        (slice_range ends.old.items low high)) }
{
    move_ends(&mut ends[low..high], from, to);
}

/// The ends of lists with this size are in place of those from one number up to another. It takes no memory.
pub(crate) fn replace_ends(
    ends: &mut Vec<usize>,
    from: usize,
    to: usize,
    new: &[usize],
    size: usize,
)
    requires in_order { from ≤ to }
    requires within { to ≤ length ends.old.items }
    requires at { EndAt 0 new.now size }
    requires fits { (last : ℕ) × EndAt 0 ends.old.items last
        × (start_at 0 ends.old.items from + size + (last - start_at 0 ends.old.items to) < 2 ^ 64) }
    requires room { length ends.old.items + length new.now
        ≤ vec_capacity ends.old + (to - from) }
    ensures { ends.new.items ≡ ends_with ends.old.items from to new.now size }
{
    let start = start_of(ends, from);
    let end = start_of(ends, to);
    replace_run(ends, from, to, new).unwrap();
    let behind = from + new.len();
    let count = ends.len();
    move_some(ends, from, behind, 0, start);
    move_some(ends, behind, count, end, start + size);
}
