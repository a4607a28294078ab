// Entries by their lexemes, to which others are joined.
ghost use Rattle.std.specs.Prelude.{◌≡◌, ℕ, ◌+◌, ◌*◌, ◌^◌, ◌<◌, [], ◌++◌, length, All, IfOk, IsTrue, OnOk};
ghost use Rattle.ts_base.specs.Lexemes.{IsLexeme};
ghost use Rattle.ts_base.specs.Vectors.{IsPosition, IsNormal, content_size};
ghost use Rattle.ts_vector.specs.Changes.{IsGreatest};
ghost use Rattle.ts_vector.specs.Normal.{IsNormalFormOf};
ghost use Rattle.ts_vector.specs.Inner.CappedForm.{shifted_within};
ghost use Rattle.ts_vector.specs.Inner.Columns.{entry};
ghost use Rattle.ts_vector.specs.Inner.Gathered.{IsHeld, IsFull, Puts, AreBehind};

use crate::changes::{greatest_from, later};
use crate::columns::Columns;
use crate::normal::settle;
use std::alloc::{AllocError, Global};
use std::collections::BTreeMap;
use std::marker::Model;
use std::str;
use ts_base::{Lexeme, MOST_POSITIONS, Position};

/// Entries by their lexemes. Contracts see them as the list of the entries.
#[derive(Debug, Drop)]
pub struct Gathered {
    /// The positions of each lexeme.
    lexemes: BTreeMap<Lexeme, Vec<Position>>,
    /// The size of the content.
    size: usize,
    /// The greatest number of a position, 0 where there is none.
    greatest: u16,
}

impl Model for Gathered {
    ghost use Rattle.std.specs.Prelude.{◌≡◌, ◌≤◌};
    ghost use Rattle.ts_base.specs.Vectors.{Vector, IsNormal, content_size};
    ghost use Rattle.ts_base.specs.declared.TheConstants.{LAST_POSITION};
    ghost use Rattle.ts_vector.specs.Pairs.{pairs_of};
    ghost use Rattle.ts_vector.specs.Changes.{IsGreatest};

    ghost Value = { Vector };

    ghost view = { λ g. pairs_of g.lexemes.entries };

    ghost invariant = { λ g. IsNormal (pairs_of g.lexemes.entries)
        × (g.size ≡ content_size (pairs_of g.lexemes.entries))
        × IsGreatest (pairs_of g.lexemes.entries) g.greatest × (g.greatest ≤ LAST_POSITION) };
}

/// The lexeme with these bytes.
fn lexeme_of(alloc: Global, bytes: &[u8]) -> Result<Lexeme, AllocError>
    requires { IsLexeme bytes.now }
    ensures { IfOk result (λ lexeme. lexeme ≡ bytes.now) }
{
    let text = unsafe { str::from_utf8_unchecked(bytes) };
    Ok(Lexeme::from_string(String::from_str(alloc, text)?))
}

/// Whether there are 256 positions, and others are after all of them.
fn is_full(positions: &[Position], others: &[Position]) -> bool
    ensures { IsTrue result → IsFull positions.now others.now }
{
    if positions.len() < MOST_POSITIONS {
        return false;
    }
    let last = positions[positions.len() - 1].at();
    for other in others {
        if other.at() <= last {
            return false;
        }
    }
    true
}

impl Gathered {
    /// No entry.
    pub fn new(alloc: Global) -> Gathered
        ensures { result ≡ [] }
    {
        Gathered {
            lexemes: BTreeMap::new(alloc),
            size: 0,
            greatest: 0,
        }
    }

    /// The size of the content.
    pub fn size(&self) -> usize
        ensures size { result ≡ content_size self.now }
        ensures normal { IsNormal self.now }
    {
        self.size
    }

    /// The positions of a lexeme, and how much of the content its entry has.
    fn held(&self, lexeme: &Lexeme) -> (&[Position], usize)
        ensures { IsHeld self.now lexeme.now result.0.now result.1 }
    {
        match self.lexemes.get(lexeme) {
            Some(positions) => {
                let size = lexeme.as_str().len() + 2 * positions.len();
                (positions.as_slice(), size)
            }
            None => (&[], 0),
        }
    }

    /// Adds an entry: its positions to those of its lexeme, or with a lexeme of its own.
    fn put(
        &mut self,
        alloc: Global,
        lexeme: &[u8],
        positions: &[Position],
    ) -> Result<(), AllocError>
        requires lexeme { IsLexeme lexeme.now }
        requires positions { All IsPosition positions.now }
        requires behind { AreBehind self.old lexeme.now positions.now }
        requires small { content_size self.old + length lexeme.now + 2 * length positions.now < 2 ^ 32 }
        ensures { OnOk result (Puts self.old (entry lexeme.now positions.now) self.new) }
    {
        let lexeme = lexeme_of(alloc, lexeme)?;
        let (before, held) = self.held(&lexeme);
        if is_full(before, positions) {
            return Ok(());
        }
        let mut all = Vec::new(alloc);
        all.extend_from_slice(before)?;
        all.extend_from_slice(positions)?;
        settle(&mut all);
        let size = self.size + lexeme.as_str().len() + 2 * all.len() - held;
        let greatest = greatest_from(all.as_slice(), self.greatest);
        self.lexemes.insert(lexeme, all)?;
        self.size = size;
        self.greatest = greatest;
        Ok(())
    }

    /// Joins entries: each position after the greatest so far.
    pub fn join(&mut self, alloc: Global, other: &Columns) -> Result<(), AllocError>
        requires normal { IsNormal other.now }
        requires small { content_size self.old + content_size other.now < 2 ^ 32 }
        ensures { OnOk result ((n : ℕ) × IsGreatest self.old n
            × IsNormalFormOf (self.old ++ shifted_within n other.now) self.new) }
    {
        let by = self.greatest;
        for entry in other.entry_refs() {
            let positions = later(alloc, entry.positions(), by)?;
            self.put(alloc, entry.lexeme(), positions.as_slice())?;
        }
        Ok(())
    }

    /// The entries in columns.
    pub fn columns(&self, alloc: Global) -> Result<Columns, AllocError>
        ensures value { IfOk result (λ columns. columns ≡ self.now) }
        ensures normal { IsNormal self.now }
    {
        let mut columns = Columns::new(alloc);
        for (lexeme, positions) in &self.lexemes {
            columns.push(lexeme.as_str().as_bytes(), positions.as_slice())?;
        }
        Ok(columns)
    }
}
