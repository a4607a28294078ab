// Vectors by their bytes.
use std::alloc::{AllocError, Global};
use std::str::from_utf8;

/// The most bytes of a lexeme.
const LONGEST_LEXEME: usize = 2046;

/// The most positions of a lexeme.
const MOST_POSITIONS: usize = 256;

/// The size of a vector, the bytes of its lexemes and two for each position, is below this.
const SIZE_LIMIT: usize = 1_048_576;

/// The key of a document without lexemes.
const PLACEHOLDER: &[u8] = b"\x01";

/// A number in two bytes, and what is after it.
fn number_in(bytes: &[u8]) -> Option<(usize, &[u8])> {
    match bytes {
        [low, high, rest @ ..] => Some((u16::from_le_bytes([*low, *high]) as usize, rest)),
        _ => None,
    }
}

/// A number in four bytes, and what is after it.
fn count_in(bytes: &[u8]) -> Option<(u32, &[u8])> {
    match bytes {
        [a, b, c, d, rest @ ..] => Some((u32::from_le_bytes([*a, *b, *c, *d]), rest)),
        _ => None,
    }
}

/// Whether this is a text of 1 to 2046 bytes.
fn is_lexeme(bytes: &[u8]) -> bool {
    !bytes.is_empty() && bytes.len() <= LONGEST_LEXEME && from_utf8(bytes).is_ok()
}

/// Whether these are at most 256 positions from 1 to 16383, which rise. The weight is the two high bits.
fn are_positions(bytes: &[u8]) -> bool {
    let mut last = 0;
    let mut rest = bytes;
    for _ in 0..MOST_POSITIONS {
        match number_in(rest) {
            None => return rest.is_empty(),
            Some((number, behind)) => {
                let at = number % 16384;
                if at <= last {
                    return false;
                }
                last = at;
                rest = behind;
            }
        }
    }
    rest.is_empty()
}

/// A field of a vector.
#[derive(Clone, Copy)]
struct Field<'a> {
    /// Its bytes.
    bytes: &'a [u8],
    /// What is after it.
    behind: &'a [u8],
}

/// The field whose size is before it in two bytes, in units of so many bytes.
fn field_in(bytes: &[u8], unit: usize) -> Option<Field<'_>> {
    let (count, rest) = number_in(bytes)?;
    let (bytes, behind) = rest.split_at_checked(count.saturating_mul(unit))?;
    Some(Field { bytes, behind })
}

/// A lexeme of a vector with its positions, two bytes each.
#[derive(Clone, Copy)]
struct Lexeme<'a> {
    /// The text.
    text: &'a [u8],
    /// How many bytes it and its positions have.
    size: usize,
    /// What is after them.
    behind: &'a [u8],
}

/// A lexeme above the last one.
fn lexeme_in<'a>(last: &[u8], bytes: &'a [u8]) -> Option<Lexeme<'a>> {
    let text = field_in(bytes, 1)?;
    let positions = field_in(text.behind, 2)?;
    if text.bytes > last && is_lexeme(text.bytes) && are_positions(positions.bytes) {
        Some(Lexeme {
            text: text.bytes,
            size: text.bytes.len().saturating_add(positions.bytes.len()),
            behind: positions.behind,
        })
    } else {
        None
    }
}

/// The key of a lexeme.
fn key_of(alloc: Global, text: &[u8]) -> Result<Vec<u8>, AllocError> {
    let mut key = Vec::from_slice(alloc, b"\0")?;
    key.extend_from_slice(text)?;
    Ok(key)
}

/// So many lexemes as keys, where just these are there, rising, and together small enough.
fn keys_in(alloc: Global, count: u32, bytes: &[u8]) -> Result<Option<Vec<Vec<u8>>>, AllocError> {
    let mut keys = Vec::new(alloc);
    let mut rest = bytes;
    let mut last: &[u8] = &[];
    let mut size = 0usize;
    for _ in 0..count {
        let Some(lexeme) = lexeme_in(last, rest) else {
            return Ok(None);
        };
        keys.push(key_of(alloc, lexeme.text)?)?;
        size = size.saturating_add(lexeme.size);
        last = lexeme.text;
        rest = lexeme.behind;
    }
    let whole = rest.is_empty() && size < SIZE_LIMIT;
    Ok(if whole { Some(keys) } else { None })
}

/// The key of a document without lexemes, alone.
fn placeholder(alloc: Global) -> Result<Option<Vec<Vec<u8>>>, AllocError> {
    let mut keys = Vec::new(alloc);
    keys.push(Vec::from_slice(alloc, PLACEHOLDER)?)?;
    Ok(Some(keys))
}

/// The keys of the vector that these bytes encode, in key order; none where they encode no vector.
pub fn keys_of(alloc: Global, bytes: &[u8]) -> Result<Option<Vec<Vec<u8>>>, AllocError> {
    match count_in(bytes) {
        None => Ok(None),
        Some((0, [])) => placeholder(alloc),
        Some((count, rest)) => keys_in(alloc, count, rest),
    }
}
