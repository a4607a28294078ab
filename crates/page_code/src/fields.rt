// Fields that are on pages, read from the front of the bytes.
ghost use Rattle.std.specs.Prelude.{◌≡◌, IsTrue};
ghost use Rattle.std.specs.Str.{IsAscii, is_utf8};
ghost use Rattle.page_types.specs.Fields.{Gives};
ghost use Rattle.page_code.specs.Fields.{below_at, are_zeros, zeros_at, is_key_text, is_key, is_above, sized_at};
ghost use Rattle.page_code.specs.Fields.{key_at, bound_at};

use page_types::{MOST_KEY_TEXT, ReadError, slice_at, u16_at, u32_at};
use std::cmp::Ordering;

/// A number in four bytes that is below the limit.
#[tactic(auto, unfolding(crate::specs::Fields::below_at))]
pub fn read_below(limit: u32, bytes: &[u8]) -> Result<(u32, &[u8]), ReadError>
    ensures { Gives (λ x. (x.0, x.1.now)) result (below_at limit bytes.now) }
{
    let (number, rest) = u32_at(bytes)?;
    if number < limit {
        Ok((number, rest))
    } else {
        Err(ReadError::Fault(bytes.len()))
    }
}

/// Whether all of them are 0. All are looked at, since many can be at once.
fn all_zeros(bytes: &[u8]) -> bool
    ensures { result ≡ are_zeros bytes.now }
{
    let mut most = 0;
    for byte in bytes {
        most = most.max(*byte);
    }
    most == 0
}

/// So many zero bytes; what is after them is read.
#[tactic(auto, unfolding(crate::specs::Fields::zeros_at))]
pub fn skip_zeros(size: usize, bytes: &[u8]) -> Result<&[u8], ReadError>
    ensures { Gives (λ rest. rest.now) result (zeros_at size bytes.now) }
{
    let (gap, rest) = slice_at(size, bytes)?;
    if all_zeros(gap) {
        Ok(rest)
    } else {
        Err(ReadError::Fault(bytes.len()))
    }
}

/// Whether all of them are below 128.
fn is_ascii(bytes: &[u8]) -> bool
    ensures { IsTrue result → IsAscii bytes.now }
{
    bytes.iter().all(|byte| *byte < 128)
}

/// Whether this is a text in UTF-8, which most often is in ASCII.
fn is_text(bytes: &[u8]) -> bool
    ensures { result ≡ is_utf8 bytes.now }
{
    if is_ascii(bytes) {
        return true;
    }
    str::from_utf8(bytes).is_ok()
}

/// Whether this is a lexeme.
fn is_lexeme(text: &[u8]) -> bool
    ensures { result ≡ is_key_text text.now }
{
    !text.is_empty() && text.len() <= MOST_KEY_TEXT && is_text(text)
}

/// Whether this is a key.
fn is_whole_key(bytes: &[u8]) -> bool
    ensures { result ≡ is_key bytes.now }
{
    match bytes {
        [0, text @ ..] => is_lexeme(text),
        [1, rest @ ..] => rest.is_empty(),
        _ => false,
    }
}

/// Whether the key is above the last.
#[inline(always)]
fn is_above_last(last: &[u8], key: &[u8]) -> bool
    ensures { result ≡ is_above last.now key.now }
{
    last.cmp(key) == Ordering::Less
}

/// Bytes after their length.
#[tactic(auto, unfolding(crate::specs::Fields::sized_at))]
fn read_sized(bytes: &[u8]) -> Result<(&[u8], &[u8]), ReadError>
    ensures { Gives (λ x. (x.0.now, x.1.now)) result (sized_at bytes.now) }
{
    let (size, rest) = u16_at(bytes)?;
    slice_at(usize::from(size), rest)
}

/// A key field whose key is above the last.
#[tactic(auto, unfolding(crate::specs::Fields::key_at))]
pub fn read_key<'a>(last: &[u8], bytes: &'a [u8]) -> Result<(&'a [u8], &'a [u8]), ReadError>
    ensures { Gives (λ x. (x.0.now, x.1.now)) result (key_at last.now bytes.now) }
{
    let (key, rest) = read_sized(bytes)?;
    if is_whole_key(key) && is_above_last(last, key) {
        Ok((key, rest))
    } else {
        Err(ReadError::Fault(bytes.len()))
    }
}

/// A bound that is above the last, or none where it may lack.
#[tactic(auto, unfolding(crate::specs::Fields::bound_at))]
pub fn read_bound<'a>(
    may_lack: bool,
    last: &[u8],
    bytes: &'a [u8],
) -> Result<(&'a [u8], &'a [u8]), ReadError>
    ensures { Gives (λ x. (x.0.now, x.1.now)) result (bound_at may_lack last.now bytes.now) }
{
    let (bound, rest) = read_sized(bytes)?;
    if is_whole_key(bound) && is_above_last(last, bound) || may_lack && bound.is_empty() {
        Ok((bound, rest))
    } else {
        Err(ReadError::Fault(bytes.len()))
    }
}
