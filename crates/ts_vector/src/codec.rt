// The bytes of a vector.
ghost use Rattle.std.specs.Prelude.{◌≡◌, ℕ, ◌^◌, ◌<◌, ◌≤◌, ◌++◌, length, All, OnOk};
ghost use Rattle.std.specs.List.{flat_map};
ghost use Rattle.ts_base.specs.Vectors.{IsEntry, IsNormal, content_size};
ghost use Rattle.ts_base.specs.Endian.{little_bytes};
ghost use Rattle.ts_base.specs.Encoding.{position_bytes, entry_bytes, vector_bytes};
ghost use Rattle.ts_vector.specs.Inner.Extends.{Extends};

use crate::SIZE_LIMIT;
use crate::columns::{Columns, EntryRef};
use crate::normal::rank;
use std::alloc::AllocError;
use ts_base::{Position, WEIGHT_UNIT};

/// Appends a number in two bytes, the little end first.
fn put_two(out: &mut Vec<u8>, n: u16) -> Result<(), AllocError>
    ensures ok { OnOk result (out.new.items ≡ out.old.items ++ little_bytes 2 n) }
    ensures grows { Extends out.old.items out.new.items }
{
    out.push((n % 256) as u8)?;
    out.push((n / 256) as u8)?;
    Ok(())
}

/// Appends a number in four bytes, the little end first.
fn put_four(out: &mut Vec<u8>, n: u32) -> Result<(), AllocError>
    ensures ok { OnOk result (out.new.items ≡ out.old.items ++ little_bytes 4 n) }
    ensures grows { Extends out.old.items out.new.items }
{
    put_two(out, (n % 65536) as u16)?;
    put_two(out, (n / 65536) as u16)?;
    Ok(())
}

/// Appends a position: its weight's number times 16384, plus its number.
fn put_position(out: &mut Vec<u8>, position: &Position) -> Result<(), AllocError>
    ensures ok { OnOk result (out.new.items ≡ out.old.items ++ position_bytes position.now) }
    ensures grows { Extends out.old.items out.new.items }
{
    let number = rank(position.weight()) as u16 * WEIGHT_UNIT + position.at();
    put_two(out, number)
}

/// Appends positions.
fn put_positions(out: &mut Vec<u8>, positions: &[Position]) -> Result<(), AllocError>
    ensures ok { OnOk result
        (out.new.items ≡ out.old.items ++ flat_map position_bytes positions.now) }
    ensures grows { Extends out.old.items out.new.items }
{
    for position in positions {
        put_position(out, position)?;
    }
    Ok(())
}

/// Appends a lexeme and its positions.
fn put_entry(out: &mut Vec<u8>, entry: &EntryRef<'_>) -> Result<(), AllocError>
    requires { IsEntry entry.now }
    ensures ok { OnOk result (out.new.items ≡ out.old.items ++ entry_bytes entry.now) }
    ensures grows { Extends out.old.items out.new.items }
{
    let (lexeme, positions) = (entry.lexeme(), entry.positions());
    put_two(out, lexeme.len() as u16)?;
    out.extend_from_slice(lexeme)?;
    put_two(out, positions.len() as u16)?;
    put_positions(out, positions)
}

/// Appends entries, each with its positions.
fn put_each(out: &mut Vec<u8>, entries: &Columns) -> Result<(), AllocError>
    requires { All IsEntry entries.now }
    ensures ok { OnOk result (out.new.items ≡ out.old.items ++ flat_map entry_bytes entries.now) }
    ensures grows { Extends out.old.items out.new.items }
{
    for entry in entries.entry_refs() {
        put_entry(out, &entry)?;
    }
    Ok(())
}

/// Appends the encoding of entries in normal form.
pub fn put_entries(out: &mut Vec<u8>, entries: &Columns) -> Result<(), AllocError>
    requires normal { IsNormal entries.now }
    requires limit { content_size entries.now < SIZE_LIMIT }
    ensures ok { OnOk result (out.new.items ≡ out.old.items ++ vector_bytes entries.now) }
    ensures grows { Extends out.old.items out.new.items }
{
    put_four(out, entries.len() as u32)?;
    put_each(out, entries)
}
