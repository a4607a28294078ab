// The table, laid and closed.
ghost use Rattle.std.specs.Prelude.{◌≡◌, ℕ, length, IfOk};
ghost use mathlib.Core.Option.{some};
ghost use lib.ListN.{get_elem?};
ghost use Rattle.latch_table.specs.Passes.{state};
ghost use Rattle.latch_bench.specs.Hands.{IsFree};
ghost use Rattle.latch_bench.specs.declared.slots.Leaf.{Leaf};

use crate::slots::{Desk, Hand, Leaf, Tally};
use crate::turns::FRAMES;
use anyhow::{Result, bail};
use std::alloc::{AllocError, Global};

/// A frame for each page.
fn leaves(alloc: Global) -> Result<Vec<Leaf>, AllocError>
    ensures pages { IfOk result
        (λ v. (i : ℕ) (f : Leaf) → get_elem? v.items i ≡ some f → f.page ≡ i) }
    ensures count { IfOk result (λ v. length v.items ≡ 64) }
{
    let mut leaves = Vec::new(alloc);
    for page in 0..FRAMES {
        leaves.push(Leaf { page, count: 0 })?;
    }
    Ok(leaves)
}

/// The table, over frames and a journal without a record.
pub(crate) fn lay(alloc: Global) -> Result<(Desk, Hand)>
    ensures free { IfOk result (λ t. IsFree t.0.table.shared.table_id t.1) }
    ensures room { IfOk result (λ t. (state t.1).room ≡ 16) }
    ensures slots { IfOk result (λ t. t.0.table.shared.table_id.slots ≡ 66) }
{
    let frames = leaves(alloc)?;
    match Desk::new(alloc, frames, Tally { count: 0 }) {
        Ok(made) => Ok(made),
        Err(_) => bail!("out of memory"),
    }
}

/// How many records the journal of a table has that is closed.
pub(crate) fn close(desk: Desk, hand: Hand) -> u64
    requires free { IsFree desk.table.shared.table_id hand }
    requires room { (state hand).room ≡ 16 }
{
    desk.close(hand).count
}
