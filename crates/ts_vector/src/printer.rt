// Prints vectors.
ghost use Rattle.std.specs.Prelude.{◌≡◌, ◌∷◌, ◌++◌, All, OnOk};
ghost use Rattle.std.specs.List.{flat_map};
ghost use Rattle.std.specs.String.{string_bytes};
ghost use Rattle.std.specs.Str.{IsUtf8};
ghost use Rattle.ts_base.specs.Vectors.{IsEntry};
ghost use Rattle.ts_vector.specs.Printed.{weight_text, position_text, positions_text, entry_text, vector_text};

use crate::columns::{Columns, EntryRef, EntryRefs};
use itoa::Buffer;
use std::alloc::AllocError;
use std::str;
use ts_base::{Position, Weight, push_quoted};

/// Appends the letter of a weight; D is not printed.
fn put_weight(out: &mut String, weight: Weight) -> Result<(), AllocError>
    ensures { OnOk result (string_bytes out.new ≡ string_bytes out.old ++ weight_text weight) }
{
    match weight {
        Weight::D => {}
        Weight::C => out.push('C')?,
        Weight::B => out.push('B')?,
        Weight::A => out.push('A')?,
    }
    Ok(())
}

/// Appends a position: its number and the letter of its weight.
fn put_position(out: &mut String, position: &Position) -> Result<(), AllocError>
    ensures { OnOk result (string_bytes out.new ≡ string_bytes out.old ++ position_text position.now) }
{
    let mut buffer = Buffer::new();
    out.push_str(buffer.format(position.at()))?;
    put_weight(out, position.weight())
}

/// Appends a colon and the positions with commas between them, or nothing.
fn put_positions(out: &mut String, positions: &[Position]) -> Result<(), AllocError>
    ensures { OnOk result (string_bytes out.new ≡ string_bytes out.old ++ positions_text positions.now) }
{
    let Some((first, others)) = positions.split_first() else {
        return Ok(());
    };
    out.push(':')?;
    put_position(out, first)?;
    for position in others {
        out.push(',')?;
        put_position(out, position)?;
    }
    Ok(())
}

/// Appends an entry: its lexeme in quotes, then its positions.
fn put_entry(out: &mut String, entry: &EntryRef<'_>) -> Result<(), AllocError>
    requires { IsUtf8 entry.now.lexeme }
    ensures { OnOk result (string_bytes out.new ≡ string_bytes out.old ++ entry_text entry.now) }
{
    let text = unsafe { str::from_utf8_unchecked(entry.lexeme()) };
    push_quoted(out, text)?;
    put_positions(out, entry.positions())
}

/// Appends entries, each after a space.
fn put_others(out: &mut String, refs: EntryRefs<'_>) -> Result<(), AllocError>
    requires { All IsEntry refs }
    ensures { OnOk result (string_bytes out.new
        ≡ string_bytes out.old ++ flat_map (λ e. 32 ∷ entry_text e) refs.entry) }
{
    for entry in refs {
        out.push(' ')?;
        put_entry(out, &entry)?;
    }
    Ok(())
}

/// Appends the entries with one space between two.
pub fn put_entries(out: &mut String, entries: &Columns) -> Result<(), AllocError>
    requires { All IsEntry entries.now }
    ensures { OnOk result (string_bytes out.new ≡ string_bytes out.old ++ vector_text entries.now) }
{
    let mut refs = entries.entry_refs();
    let Some(first) = refs.next() else {
        return Ok(());
    };
    put_entry(out, &first)?;
    put_others(out, refs)
}
