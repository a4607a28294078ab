// The rows of a pending page, read from left to right.
ghost use Rattle.std.specs.Prelude.{◌≡◌, [], Ok};
ghost use Rattle.page_types.specs.Fields.{Gives};
ghost use Rattle.page_types.specs.declared.page.Row.{Row};
ghost use Rattle.page_code.specs.Bodies.{keys_at, some_at, row_at, rows_at};

use crate::fields::{read_below, read_key};
use page_types::{ITEM_LIMIT, Pieces, ReadError, Rows, u16_at};
use std::alloc::Global;

/// So many keys in place of those that were there, each above the last.
fn read_keys<'a>(keys: &mut Pieces, count: u16, bytes: &'a [u8]) -> Result<&'a [u8], ReadError>
    ensures { Gives (λ rest. (keys.new, rest.now)) result (keys_at count bytes.now) }
{
    keys.truncate(0);
    let mut last: &[u8] = &[];
    let mut rest = bytes;
    for _ in 0..count {
        let (key, behind) = read_key(last, rest)?;
        keys.push(key)?;
        last = key;
        rest = behind;
    }
    Ok(rest)
}

/// How many keys a row has, at least one.
#[tactic(auto, unfolding(crate::specs::Bodies::some_at))]
fn read_some(bytes: &[u8]) -> Result<(u16, &[u8]), ReadError>
    ensures { Gives (λ x. (x.0, x.1.now)) result (some_at bytes.now) }
{
    let (count, rest) = u16_at(bytes)?;
    if count > 0 {
        Ok((count, rest))
    } else {
        Err(ReadError::Fault(bytes.len()))
    }
}

/// An item and its keys, which are in place of those that were there.
#[tactic(auto, unfolding(crate::specs::Bodies::row_at))]
fn read_row<'a>(keys: &mut Pieces, bytes: &'a [u8]) -> Result<(u32, &'a [u8]), ReadError>
    ensures { Gives (λ x. (record { item = x.0; keys = keys.new }, x.1.now)) result
        (row_at bytes.now) }
{
    let (item, rest) = read_below(ITEM_LIMIT, bytes)?;
    let (count, rest) = read_some(rest)?;
    let rest = read_keys(keys, count, rest)?;
    Ok((item, rest))
}

/// So many rows.
pub fn read_rows(alloc: Global, count: u16, bytes: &[u8]) -> Result<(Rows, &[u8]), ReadError>
    ensures { Gives (λ x. (x.0, x.1.now)) result (rows_at count bytes.now) }
{
    let mut rows = Rows::new(alloc);
    let mut keys = Pieces::new(alloc);
    let mut rest = bytes;
    for _ in 0..count {
        let (item, behind) = read_row(&mut keys, rest)?;
        rows.push(item, &keys)?;
        rest = behind;
    }
    Ok((rows, rest))
}
