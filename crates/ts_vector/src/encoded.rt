// A vector's encoding, read where it lies.
ghost use Rattle.std.specs.Prelude.{◌≡◌, ℕ, ◌<◌, ◌≤◌, ◌↔◌, ◌%◌, ◌++◌, [], List, length, drop, sum_by, IsTrue, IfOk};
ghost use Rattle.std.specs.Prelude.{IfErr};
ghost use Rattle.std.specs.Iterator.{YieldsFirst, item_count};
ghost use Rattle.ts_base.specs.Endian.{little_bytes};
ghost use Rattle.ts_base.specs.Vectors.{Entry, IsPosition, IsEntry, IsNormal, content_size};
ghost use Rattle.ts_base.specs.Encoding.{position_number, entry_size, IsEncoding};
ghost use Rattle.ts_base.specs.declared.TheConstants.{SIZE_LIMIT};
ghost use Rattle.ts_vector.specs.Decoded.{EncodingFails};
ghost use Rattle.ts_vector.specs.Inner.Told.{IsFirst};

use crate::bytes::{Stop, weight};
use crate::checker::checked;
use crate::error::VectorError;
use std::marker::Model;
use std::str;
use ts_base::{Position, WEIGHT_UNIT};

/// The number in the first two bytes, and the rest.
fn first_number(bytes: &[u8]) -> (u16, &[u8])
    requires { 2 ≤ length bytes.now }
    ensures value { bytes.now ≡ little_bytes 2 result.0 ++ result.1.now }
    ensures fits { result.0 < 65536 }
{
    let number = u16::from(bytes[1]) * 256 + u16::from(bytes[0]);
    (number, &bytes[2..])
}

/// The position with this number.
fn position(number: u16) -> Position
    requires { 1 ≤ number % WEIGHT_UNIT }
    ensures value { number ≡ position_number result }
    ensures valid { IsPosition result }
{
    Position::new(number % WEIGHT_UNIT, weight(number / WEIGHT_UNIT))
}

/// The positions that are left of an encoding's entry, in order. Contracts see them as a list.
#[derive(Debug, Drop)]
pub struct Positions<'a> {
    /// Their bytes.
    rest: &'a [u8],
}

impl<'a> Model for Positions<'a> {
    ghost use Rattle.std.specs.Prelude.{List};
    ghost use Rattle.ts_base.specs.Vectors.{Position as Place};

    ghost Value = { List Place };

    ghost use Rattle.ts_vector.specs.Inner.Told.{places_told, ArePlaces};

    ghost view = { λ p. places_told p.rest.now };

    ghost invariant = { λ p. ArePlaces p.rest.now (places_told p.rest.now) };
}

impl<'a> Positions<'a> {
    /// No position.
    pub(crate) fn none() -> Positions<'a>
        ensures { result ≡ [] }
    {
        Positions { rest: &[] }
    }

    /// How many positions are left.
    pub fn len(&self) -> usize
        ensures { result ≡ length self.now }
    {
        self.rest.len() / 2
    }

    /// Whether no position is left.
    pub fn is_empty(&self) -> bool
        ensures { IsTrue result ↔ (self.now ≡ []) }
    {
        self.rest.is_empty()
    }
}

impl<'a> Iterator for Positions<'a> {
    type Item = Position;

    ghost next_gives = { YieldsFirst (λ left. left) };

    ghost remaining = { item_count (λ left. left) };

    /// The next position.
    fn next(&mut self) -> Option<Position> {
        if self.rest.is_empty() {
            return None;
        }
        let (number, rest) = first_number(self.rest);
        self.rest = rest;
        Some(position(number))
    }
}

/// A lexeme and its positions in an encoding. Contracts see it as an entry.
#[derive(Debug, Drop)]
pub struct EntryBytes<'a> {
    /// The lexeme.
    lexeme: &'a str,
    /// The bytes of its positions.
    positions: &'a [u8],
}

impl<'a> Model for EntryBytes<'a> {
    ghost use Rattle.ts_base.specs.Vectors.{Entry, IsEntry};

    ghost Value = { Entry };

    ghost use Rattle.ts_vector.specs.Inner.Told.{places_told, ArePlaces};

    ghost view = { λ e. record { lexeme = e.lexeme.now; positions = places_told e.positions.now } };

    ghost invariant = { λ e. IsEntry
        (record { lexeme = e.lexeme.now; positions = places_told e.positions.now })
        × ArePlaces e.positions.now (places_told e.positions.now) };
}

impl<'a> EntryBytes<'a> {
    /// The lexeme.
    pub fn lexeme(&self) -> &'a str
        ensures value { result.now ≡ self.now.lexeme }
        ensures valid { IsEntry self.now }
    {
        self.lexeme
    }

    /// Its positions.
    pub fn positions(&self) -> Positions<'a>
        ensures value { result ≡ self.now.positions }
        ensures valid { IsEntry self.now }
    {
        Positions {
            rest: self.positions,
        }
    }
}

/// The first entry of an encoding's entries, and the rest.
fn first_entry(bytes: &[u8]) -> (EntryBytes<'_>, &[u8])
    requires { (e : Entry) × (rest : List ℕ) × IsFirst bytes.now e rest }
    ensures { (e : Entry) → (rest : List ℕ) → IsFirst bytes.now e rest
        → (result.0 ≡ e) × (result.1.now ≡ rest) }
{
    let (length, rest) = first_number(bytes);
    let (lexeme, rest) = rest.split_at(usize::from(length));
    let (count, rest) = first_number(rest);
    let (positions, rest) = rest.split_at(2 * usize::from(count));
    let lexeme = unsafe { str::from_utf8_unchecked(lexeme) };
    (EntryBytes { lexeme, positions }, rest)
}

/// The entries that are left of an encoding, in order. Contracts see them as a list.
#[derive(Debug, Drop)]
pub struct Entries<'a> {
    /// How many are left.
    count: usize,
    /// Their bytes.
    rest: &'a [u8],
}

impl<'a> Model for Entries<'a> {
    ghost use Rattle.ts_base.specs.Vectors.{Vector};

    ghost Value = { Vector };

    ghost use Rattle.ts_vector.specs.Inner.Told.{entries_told, AreEntries};

    ghost view = { λ e. entries_told e.count e.rest.now };

    ghost invariant = { λ e. AreEntries e.count e.rest.now (entries_told e.count e.rest.now) };
}

impl<'a> Entries<'a> {
    /// How many bytes the entries that are left have.
    pub fn bytes_left(&self) -> usize
        ensures { result ≡ sum_by entry_size self.now }
    {
        self.rest.len()
    }
}

impl<'a> Iterator for Entries<'a> {
    type Item = EntryBytes<'a>;

    ghost next_gives = { YieldsFirst (λ left. left) };

    ghost remaining = { item_count (λ left. left) };

    /// The next entry.
    fn next(&mut self) -> Option<EntryBytes<'a>> {
        if self.count == 0 {
            return None;
        }
        let (entry, rest) = first_entry(self.rest);
        self.rest = rest;
        self.count -= 1;
        Some(entry)
    }
}

/// A vector's encoding in a slice, checked whole. Contracts see it as the list of its entries.
#[derive(Debug, Drop)]
pub struct VectorBytes<'a> {
    /// How many entries it has.
    count: usize,
    /// How many positions they have.
    places: usize,
    /// Their bytes.
    entries: &'a [u8],
}

impl<'a> Model for VectorBytes<'a> {
    ghost use Rattle.ts_base.specs.Vectors.{Vector};

    ghost Value = { Vector };

    ghost use Rattle.ts_vector.specs.Inner.Told.{entries_told, AreEntries};

    ghost view = { λ b. entries_told b.count b.entries.now };

    ghost invariant = { λ b. AreEntries b.count b.entries.now
        (entries_told b.count b.entries.now) };
}

impl<'a> VectorBytes<'a> {
    /// The vector with this encoding, which is read where it lies. It takes no memory.
    pub fn new(bytes: &'a [u8]) -> Result<VectorBytes<'a>, VectorError>
        ensures value { IfOk result (IsEncoding bytes.now) }
        ensures cause { IfErr result (EncodingFails bytes.now) }
    {
        match checked(bytes) {
            Ok((count, places, entries)) => Ok(VectorBytes {
                count,
                places,
                entries,
            }),
            Err(Stop { left }) => Err(VectorError::BadBytes {
                at: bytes.len() - left,
            }),
        }
    }

    /// The number of lexemes.
    pub fn count(&self) -> usize
        ensures count { result ≡ length self.now }
        ensures normal { IsNormal self.now }
        ensures limit { content_size self.now < SIZE_LIMIT }
    {
        self.count
    }

    /// How many bytes its lexemes have together, and how many positions there are.
    pub(crate) fn lengths(&self) -> (usize, usize) {
        let others = self.places.saturating_add(self.count.saturating_mul(2));
        let lexemes = self.entries.len().saturating_sub(others.saturating_mul(2));
        (lexemes, self.places)
    }

    /// The entries, in the order of their lexemes.
    pub fn entries(&self) -> Entries<'a>
        ensures value { result ≡ self.now }
        ensures normal { IsNormal self.now }
    {
        Entries {
            count: self.count,
            rest: self.entries,
        }
    }

    /// The entries from the index `first` on.
    pub fn entries_from(&self, first: usize) -> Entries<'a>
        ensures { result ≡ drop first self.now }
    {
        let mut entries = self.entries();
        let mut skipped = 0;
        while skipped < first {
            entries.next();
            skipped += 1;
        }
        entries
    }

    /// The entries from the index `first` on, which have so many bytes. It walks over none.
    pub fn last_entries(&self, first: usize, bytes_left: usize) -> Entries<'a>
        requires within { first ≤ length self.now }
        requires bytes { bytes_left ≡ sum_by entry_size (drop first self.now) }
        ensures { result ≡ drop first self.now }
    {
        let (_, rest) = self.entries.split_at(self.entries.len() - bytes_left);
        Entries {
            count: self.count - first,
            rest,
        }
    }
}
