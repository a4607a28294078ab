// Two vectors in one.
ghost use Rattle.std.specs.Prelude.{◌<◌, ◌≤◌, ◌⊎◌, ◌++◌, length, IfOk};
ghost use Rattle.ts_base.specs.Vectors.{IsNormal, content_size};
ghost use Rattle.ts_vector.specs.Normal.{IsNormalFormOf};
ghost use Rattle.ts_vector.specs.Inner.CappedForm.{shifted_within};
ghost use Rattle.ts_vector.specs.Inner.Steps.{HeadsStand};

use crate::changes::later;
use crate::columns::Columns;
use crate::normal::put;
use std::alloc::{AllocError, Global};
use std::cmp::Ordering;

/// Which entry comes next: the one at i of the first list, the one at j of the second, or both as one.
fn order(first: &Columns, i: usize, second: &Columns, j: usize) -> Ordering
    requires { (i < length first.now) ⊎ (j < length second.now) }
    ensures { HeadsStand first.now i second.now j result }
{
    if j >= second.len() {
        return Ordering::Less;
    }
    if i >= first.len() {
        return Ordering::Greater;
    }
    first.lexeme(i).cmp(second.lexeme(j))
}

/// The entries of both lists in one, the second ones with each position so much later.
pub fn merged(
    alloc: Global,
    first: &Columns,
    second: &Columns,
    by: u16,
) -> Result<Columns, AllocError>
    requires first { IsNormal first.now }
    requires second { IsNormal second.now }
    ensures form { IfOk result
        (IsNormalFormOf (shifted_within 0 first.now ++ shifted_within by second.now)) }
    ensures normal { IfOk result IsNormal }
    ensures size { IfOk result (λ out. content_size out
        ≤ content_size (shifted_within 0 first.now ++ shifted_within by second.now)) }
{
    let mut out = Columns::new(alloc);
    let (firsts, seconds) = (first.len(), second.len());
    let (mut i, mut j) = (0, 0);
    while i < firsts || j < seconds {
        let order = order(first, i, second, j);
        match order {
            Ordering::Less => {
                let mut positions = later(alloc, first.positions(i), 0)?;
                put(&mut out, first.lexeme(i), &mut positions)?;
                i += 1;
            }
            Ordering::Equal => {
                let mut positions = later(alloc, first.positions(i), 0)?;
                let others = later(alloc, second.positions(j), by)?;
                positions.extend_from_slice(others.as_slice())?;
                put(&mut out, first.lexeme(i), &mut positions)?;
                i += 1;
                j += 1;
            }
            Ordering::Greater => {
                let mut positions = later(alloc, second.positions(j), by)?;
                put(&mut out, second.lexeme(j), &mut positions)?;
                j += 1;
            }
        }
    }
    Ok(out)
}
