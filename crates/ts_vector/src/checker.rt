// Checks the bytes of a vector, entry by entry.
ghost use Rattle.std.specs.Prelude.{◌≡◌, ℕ, ◌+◌, ◌*◌, ◌<◌, ◌≤◌, List, ◌++◌, length, IfOk, IfErr, IsTrue, ◌↔◌};
ghost use Rattle.std.specs.Str.{IsAscii, IsUtf8};
ghost use Rattle.ts_base.specs.Endian.{little_bytes};
ghost use Rattle.ts_base.specs.Lexemes.{IsBefore};
ghost use Rattle.ts_base.specs.Vectors.{Vector, content_size};
ghost use Rattle.ts_base.specs.declared.TheConstants.{SIZE_LIMIT};
ghost use Rattle.ts_vector.specs.Decoded.{counted, named};
ghost use Rattle.ts_vector.specs.Inner.Fields.{Stops, IsFront, Adds, BytesStop, IsChecked};

use crate::SIZE_LIMIT;
use crate::bytes::{Stop, four, positions, take, two};
use std::str;
use ts_base::{LONGEST_LEXEME, MOST_POSITIONS};

/// What is known of the entries so far.
#[derive(Clone, Copy, Debug)]
pub struct Front<'a> {
    /// The last lexeme, empty where there is none.
    last: &'a [u8],
    /// The size of the entries' content.
    size: usize,
    /// How many positions they have.
    places: usize,
}

/// The length of the next lexeme, after entries of this size, and the rest.
fn length(size: usize, bytes: &[u8]) -> Result<(usize, &[u8]), Stop>
    requires { size < SIZE_LIMIT }
    ensures some { IfOk result (λ x. 1 ≤ x.0) }
    ensures most { IfOk result (λ x. x.0 ≤ LONGEST_LEXEME) }
    ensures small { IfOk result (λ x. size + x.0 < SIZE_LIMIT) }
    ensures ok { IfOk result (λ x. bytes.now ≡ little_bytes 2 x.0 ++ x.1.now) }
    ensures err { IfErr result (λ stop. (n : ℕ) → (v : Vector) → length v < n
        → size ≡ content_size v → Stops (counted n v) bytes.now stop) }
{
    let (length, rest) = two(bytes)?;
    let length = usize::from(length);
    if length == 0 || length > LONGEST_LEXEME || size + length >= SIZE_LIMIT {
        return Err(Stop { left: bytes.len() });
    }
    Ok((length, rest))
}

/// Whether no byte is above 127. Most lexemes are so, and so short that a loop is the fastest.
fn is_ascii(bytes: &[u8]) -> bool
    ensures { IsTrue result → IsAscii bytes.now }
{
    for byte in bytes {
        if *byte > 127 {
            return false;
        }
    }
    true
}

/// Whether the bytes are text.
fn is_text(bytes: &[u8]) -> bool
    ensures { IsTrue result ↔ IsUtf8 bytes.now }
{
    if is_ascii(bytes) {
        return true;
    }
    str::from_utf8(bytes).is_ok()
}

/// Whether the first bytes are before the second ones. Most lexemes are so short that a loop is
/// the fastest.
fn is_before(first: &[u8], second: &[u8]) -> bool
    ensures { IsTrue result ↔ IsBefore first.now second.now }
{
    let shorter = first.len().min(second.len());
    for i in 0..shorter {
        let (a, b) = (first[i], second[i]);
        if a != b {
            return a < b;
        }
    }
    first.len() < second.len()
}

/// Whether the bytes are text and after the last lexeme.
fn is_next(last: &[u8], bytes: &[u8]) -> bool
    ensures { IsTrue result ↔ (IsBefore last.now bytes.now × IsUtf8 bytes.now) }
{
    is_before(last, bytes) && is_text(bytes)
}

/// The number of a lexeme's positions, after entries and a lexeme of this size, and the rest.
fn number(size: usize, bytes: &[u8]) -> Result<(usize, &[u8]), Stop>
    requires { size < SIZE_LIMIT }
    ensures few { IfOk result (λ x. x.0 ≤ MOST_POSITIONS) }
    ensures small { IfOk result (λ x. size + 2 * x.0 < SIZE_LIMIT) }
    ensures ok { IfOk result (λ x. bytes.now ≡ little_bytes 2 x.0 ++ x.1.now) }
    ensures err { IfErr result (λ stop. (n : ℕ) → (v : Vector) → (l : List ℕ)
        → size ≡ content_size v + length l → Stops (named n v l) bytes.now stop) }
{
    let (number, rest) = two(bytes)?;
    let number = usize::from(number);
    if number > MOST_POSITIONS || size + 2 * number >= SIZE_LIMIT {
        return Err(Stop { left: bytes.len() });
    }
    Ok((number, rest))
}

impl<'a> Front<'a> {
    /// Checks the next entry: what is known after it, and the rest.
    fn entry(self, bytes: &'a [u8]) -> Result<(Front<'a>, &'a [u8]), Stop>
        requires small { self.size < SIZE_LIMIT }
        requires few { 2 * self.places ≤ self.size }
        ensures small { IfOk result (λ x. x.0.size < SIZE_LIMIT) }
        ensures few { IfOk result (λ x. 2 * x.0.places ≤ x.0.size) }
        ensures ok { IfOk result (λ x. (n : ℕ) → (v : Vector) → length v < n → IsFront v self.entry
            → Adds n v bytes.now x.0 x.1.now) }
        ensures err { IfErr result (λ stop. (n : ℕ) → (v : Vector) → length v < n
            → IsFront v self.entry → Stops (counted n v) bytes.now stop) }
    {
        let (length, rest) = length(self.size, bytes)?;
        let (lexeme, after) = take(rest, length)?;
        if !is_next(self.last, lexeme) {
            return Err(Stop { left: rest.len() });
        }
        let (number, rest) = number(self.size + length, after)?;
        let rest = positions(number, rest)?;
        let front = Front {
            last: lexeme,
            size: self.size + length + 2 * number,
            places: self.places + number,
        };
        Ok((front, rest))
    }
}

/// Checks a vector's whole encoding, and gives the number of its entries, that of their positions,
/// and their bytes.
pub fn checked(bytes: &[u8]) -> Result<(usize, usize, &[u8]), Stop>
    ensures ok { IfOk result (λ x. IsChecked bytes.now x.0 x.2.now) }
    ensures err { IfErr result (BytesStop bytes.now) }
{
    let (count, entries) = four(bytes)?;
    let mut rest = entries;
    let mut front = Front {
        last: &bytes[..0],
        size: 0,
        places: 0,
    };
    for _ in 0..count {
        (front, rest) = front.entry(rest)?;
    }
    if !rest.is_empty() {
        return Err(Stop { left: rest.len() });
    }
    Ok((count as usize, front.places, entries))
}
