// Entries in memory, without a block of memory for each.
ghost use Rattle.std.specs.Prelude.{◌≡◌, ◌+◌, ◌-◌, ◌^◌, min, ◌<◌, ◌≤◌, ◌∷◌, [], ◌++◌, length, slice_index_or, IfOk};
ghost use Rattle.std.specs.Prelude.{OnOk, OnErr};
ghost use Rattle.std.specs.Iterator.{YieldsFirst, item_count};
ghost use Rattle.ts_base.specs.Vectors.{Entry, content_size};
ghost use Rattle.ts_vector.specs.Inner.Columns.{origin, start_from, piece};

use crate::encoded::{Positions, VectorBytes};
use std::alloc::{AllocError, Global};
use std::marker::Model;
use ts_base::Position;

/// Where an entry ends.
#[derive(Clone, Copy, Debug, Drop)]
pub struct Ends {
    /// The end of its lexeme among the bytes of all lexemes.
    lexeme: u32,
    /// The end of its positions among all positions.
    positions: u32,
}

/// Where the first entry starts.
const ORIGIN: Ends = Ends {
    lexeme: 0,
    positions: 0,
};

/// Lexemes with their positions: the bytes of all lexemes, all positions, and where each entry ends.
/// Contracts see them as the list of the entries.
#[derive(Debug, Drop)]
pub struct Columns {
    /// The bytes of the lexemes, one after another.
    lexemes: Vec<u8>,
    /// The positions of all lexemes, one after another.
    positions: Vec<Position>,
    /// Where each entry ends.
    ends: Vec<Ends>,
}

impl Model for Columns {
    ghost use Rattle.std.specs.Prelude.{List};
    ghost use Rattle.ts_base.specs.Vectors.{Entry};

    ghost Value = { List Entry };

    ghost use Rattle.ts_vector.specs.Inner.Columns.{column_entries, AreColumns};

    ghost view = { λ c. column_entries c.lexemes.items c.positions.items c.ends.items };

    ghost invariant = { λ c. AreColumns c.lexemes.items c.positions.items c.ends.items };
}

/// The end after so many more, if it can be numbered.
fn end(len: usize, more: usize) -> Result<u32, AllocError>
    ensures { IfOk result (λ n. n ≡ len + more) }
{
    let Some(end) = len.checked_add(more) else {
        return Err(AllocError);
    };
    u32::try_from(end).map_err(|_| AllocError)
}

/// The ends of an entry that is the last in columns so long. A column of 4 GiB counts as the end
/// of memory.
fn ends_at(lexemes: usize, positions: usize) -> Result<Ends, AllocError>
    ensures lexeme { IfOk result (λ ends. ends.lexeme ≡ lexemes) }
    ensures positions { IfOk result (λ ends. ends.positions ≡ positions) }
{
    Ok(Ends {
        lexeme: end(lexemes, 0)?,
        positions: end(positions, 0)?,
    })
}

/// Appends the positions of an encoding.
fn put_places(list: &mut Vec<Position>, places: Positions<'_>) -> Result<(), AllocError>
    ensures { OnOk result (list.new.items ≡ list.old.items ++ places.entry) }
{
    for place in places {
        list.push(place)?;
    }
    Ok(())
}

/// Where the entry at the index k starts, and where it ends.
fn bounds(ends: &[Ends], k: usize) -> (Ends, Ends)
    requires { k < length ends.now }
    ensures start { (d : Ends) → result.0 ≡ start_from origin ends.now k d }
    ensures end { (d : Ends) → result.1 ≡ slice_index_or ends.now k d }
{
    if k == 0 {
        return (ORIGIN, ends[0]);
    }
    (ends[k - 1], ends[k])
}

/// The items from one place up to another.
fn part<T>(items: &[T], from: u32, to: u32) -> &[T]
    requires start { from ≤ to }
    requires end { to ≤ length items.now }
    ensures { result.now ≡ piece from to items.now }
{
    &items[from as usize..to as usize]
}

impl Columns {
    ghost use Rattle.ts_vector.specs.Inner.Columns.{entry, entry_at};

    /// No entry.
    pub fn new(alloc: Global) -> Columns
        ensures { result ≡ [] }
    {
        Columns {
            lexemes: Vec::new(alloc),
            positions: Vec::new(alloc),
            ends: Vec::new(alloc),
        }
    }

    /// An encoding's entries.
    pub fn of_encoding(alloc: Global, encoded: &VectorBytes<'_>) -> Result<Columns, AllocError>
        ensures { IfOk result (λ columns. columns ≡ encoded.now) }
    {
        let (bytes, places) = encoded.lengths();
        let mut lexemes = Vec::with_capacity(alloc, bytes)?;
        let mut positions = Vec::with_capacity(alloc, places)?;
        let mut ends = Vec::with_capacity(alloc, encoded.count())?;
        for entry in encoded.entries() {
            lexemes.extend_from_slice(entry.lexeme().as_bytes())?;
            put_places(&mut positions, entry.positions())?;
            ends.push(ends_at(lexemes.len(), positions.len())?)?;
        }
        Ok(Columns {
            lexemes,
            positions,
            ends,
        })
    }

    /// How many entries there are.
    pub fn len(&self) -> usize
        ensures { result ≡ length self.now }
    {
        self.ends.len()
    }

    /// The size of the content: the bytes of all lexemes and two for each position.
    pub fn size(&self) -> usize
        ensures { result ≡ min (content_size self.now) (2 ^ 64 - 1) }
    {
        let positions = self.positions.len().saturating_mul(2);
        self.lexemes.len().saturating_add(positions)
    }

    /// The bytes of the lexeme at the index k.
    pub fn lexeme(&self, k: usize) -> &[u8]
        requires { k < length self.now }
        ensures { (d : Entry) → result.now ≡ (slice_index_or self.now k d).lexeme }
    {
        let (start, end) = bounds(self.ends.as_slice(), k);
        part(self.lexemes.as_slice(), start.lexeme, end.lexeme)
    }

    /// The positions of the lexeme at the index k.
    pub fn positions(&self, k: usize) -> &[Position]
        requires { k < length self.now }
        ensures { (d : Entry) → result.now ≡ (slice_index_or self.now k d).positions }
    {
        let (start, end) = bounds(self.ends.as_slice(), k);
        part(self.positions.as_slice(), start.positions, end.positions)
    }

    /// The entry at the index k; after the last one there is an empty one.
    pub fn entry(&self, k: usize) -> EntryRef<'_>
        ensures { result ≡ entry_at self.now k }
    {
        if k >= self.len() {
            return EntryRef {
                lexeme: &[],
                positions: &[],
            };
        }
        EntryRef {
            lexeme: self.lexeme(k),
            positions: self.positions(k),
        }
    }

    /// The entries, one after another.
    pub fn entry_refs(&self) -> EntryRefs<'_>
        ensures { result ≡ self.now }
    {
        EntryRefs {
            lexemes: self.lexemes.as_slice(),
            positions: self.positions.as_slice(),
            start: ORIGIN,
            ends: self.ends.as_slice(),
        }
    }

    /// Adds an entry at the end. A column of 4 GiB counts as the end of memory.
    pub fn push(&mut self, lexeme: &[u8], positions: &[Position]) -> Result<(), AllocError>
        ensures ok { OnOk result (self.new ≡ self.old ++ entry lexeme.now positions.now ∷ []) }
        ensures err { OnErr result (self.new ≡ self.old) }
    {
        let ends = Ends {
            lexeme: end(self.lexemes.len(), lexeme.len())?,
            positions: end(self.positions.len(), positions.len())?,
        };
        self.lexemes.reserve(lexeme.len())?;
        self.positions.reserve(positions.len())?;
        self.ends.reserve(1)?;
        self.lexemes.extend_from_slice(lexeme)?;
        self.positions.extend_from_slice(positions)?;
        self.ends.push(ends)?;
        Ok(())
    }
}

/// An entry that lies in columns.
#[derive(Debug, Drop)]
pub struct EntryRef<'a> {
    /// The bytes of its lexeme.
    lexeme: &'a [u8],
    /// Its positions.
    positions: &'a [Position],
}

impl<'a> Model for EntryRef<'a> {
    ghost use Rattle.ts_base.specs.Vectors.{Entry};

    ghost Value = { Entry };

    ghost view = { λ r. record { lexeme = r.lexeme.now; positions = r.positions.now } };
}

impl<'a> EntryRef<'a> {
    /// The bytes of its lexeme.
    pub fn lexeme(&self) -> &'a [u8]
        ensures { result.now ≡ self.now.lexeme }
    {
        self.lexeme
    }

    /// Its positions.
    pub fn positions(&self) -> &'a [Position]
        ensures { result.now ≡ self.now.positions }
    {
        self.positions
    }
}

/// The entries of columns that are left, in order. Contracts see them as a list.
#[derive(Debug, Drop)]
pub struct EntryRefs<'a> {
    /// The bytes of all lexemes.
    lexemes: &'a [u8],
    /// The positions of all lexemes.
    positions: &'a [Position],
    /// Where the next entry starts.
    start: Ends,
    /// Where each entry ends that is left.
    ends: &'a [Ends],
}

impl<'a> Model for EntryRefs<'a> {
    ghost use Rattle.std.specs.Prelude.{List, length};
    ghost use Rattle.ts_base.specs.Vectors.{Entry};

    ghost Value = { List Entry };

    ghost use Rattle.ts_vector.specs.Inner.Columns.{entries_from, AreEnds};

    ghost view = { λ r. entries_from r.start r.ends.now r.lexemes.now r.positions.now };

    ghost invariant = { λ r. AreEnds r.start r.ends.now (length r.lexemes.now)
        (length r.positions.now) };
}

impl<'a> Iterator for EntryRefs<'a> {
    type Item = EntryRef<'a>;

    ghost next_gives = { YieldsFirst (λ left. left) };

    ghost remaining = { item_count (λ left. left) };

    /// The next entry.
    fn next(&mut self) -> Option<EntryRef<'a>> {
        let (end, ends) = self.ends.split_first()?;
        let entry = EntryRef {
            lexeme: part(self.lexemes, self.start.lexeme, end.lexeme),
            positions: part(self.positions, self.start.positions, end.positions),
        };
        self.start = *end;
        self.ends = ends;
        Some(entry)
    }
}
