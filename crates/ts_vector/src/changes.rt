// Vectors made of vectors.
ghost use Rattle.std.specs.Prelude.{◌≡◌, ◌≤◌, ◌⊎◌, map, All, Any, IfOk};
ghost use Rattle.ts_base.specs.declared.Weight.{Weight};
ghost use Rattle.ts_base.specs.Vectors.{IsPosition};
ghost use Rattle.ts_vector.specs.Changes.{stripped, weighted, reweighted, IsGreatest};
ghost use Rattle.ts_vector.specs.Inner.CappedForm.{moved_within};

use crate::columns::Columns;
use std::alloc::{AllocError, Global};
use ts_base::{LAST_POSITION, Position, Weight};

/// The entries without their positions.
pub fn without_positions(alloc: Global, entries: &Columns) -> Result<Columns, AllocError>
    ensures { IfOk result (λ made. made ≡ stripped entries.now) }
{
    let mut made = Columns::new(alloc);
    for entry in entries.entry_refs() {
        made.push(entry.lexeme(), &[])?;
    }
    Ok(made)
}

/// The positions at this weight.
fn with_weight(
    alloc: Global,
    positions: &[Position],
    weight: Weight,
) -> Result<Vec<Position>, AllocError>
    ensures { IfOk result (λ made. made.items ≡ map (weighted weight) positions.now) }
{
    let mut made = Vec::new(alloc);
    for position in positions {
        made.push(Position::new(position.at(), weight))?;
    }
    Ok(made)
}

/// The entries with each position at this weight.
pub fn entries_with_weight(
    alloc: Global,
    entries: &Columns,
    weight: Weight,
) -> Result<Columns, AllocError>
    ensures { IfOk result (λ made. made ≡ reweighted weight entries.now) }
{
    let mut made = Columns::new(alloc);
    for entry in entries.entry_refs() {
        let positions = with_weight(alloc, entry.positions(), weight)?;
        made.push(entry.lexeme(), positions.as_slice())?;
    }
    Ok(made)
}

/// The greater of a number and the greatest number of these positions.
pub fn greatest_from(positions: &[Position], from: u16) -> u16
    requires { from ≤ LAST_POSITION }
    ensures lower { from ≤ result }
    ensures upper { result ≤ LAST_POSITION }
    ensures bound { All (λ p. p.at ≤ result) positions.now }
    ensures met { (result ≡ from) ⊎ Any (λ p. p.at ≡ result) positions.now }
{
    let mut greatest = from;
    for position in positions {
        greatest = greatest.max(position.at());
    }
    greatest
}

/// The greatest number of a position, 0 where there is none.
pub fn greatest(entries: &Columns) -> u16
    ensures greatest { IsGreatest entries.now result }
    ensures bound { result ≤ LAST_POSITION }
{
    let mut greatest: u16 = 0;
    for entry in entries.entry_refs() {
        greatest = greatest_from(entry.positions(), greatest);
    }
    greatest
}

/// Each position so much later, and at most 16383.
pub fn later(alloc: Global, positions: &[Position], by: u16) -> Result<Vec<Position>, AllocError>
    ensures { IfOk result (λ made. made.items ≡ map (moved_within by) positions.now) }
{
    let mut made = Vec::new(alloc);
    for position in positions {
        let at = position.at().saturating_add(by).min(LAST_POSITION);
        made.push(Position::new(at, position.weight()))?;
    }
    Ok(made)
}
