// Vectors that are built of lexemes at positions, which come one by one.
ghost use Rattle.std.specs.Prelude.{◌≡◌, ◌<◌, ◌∷◌, [], ◌++◌, length, map, replicate, All, IfOk, IfErr, OnOk, OnErr};
ghost use Rattle.ts_vector.specs.Changes.{IsBuiltOf};
ghost use Rattle.ts_vector.specs.Failures.{ItemsFail};
ghost use Rattle.ts_vector.specs.Inner.Building.{AreGrouped, rows_of};

use crate::columns::Columns;
use crate::error::VectorError;
use crate::lexemes::Lexemes;
use crate::normal::normal_form;
use crate::{TsVector, within_limit};
use std::alloc::{AllocError, Global};
use std::marker::Model;
use ts_base::{Lexeme, Position};

/// One place at which a lexeme occurs.
#[derive(Clone, Copy, Debug)]
pub struct Occurrence {
    /// Which of the lexemes.
    lexeme: usize,
    /// Its position.
    position: Position,
}

/// A vector that is built of lexemes at positions, in any order. Contracts see it as the list of
/// these items.
///
/// It takes time in proportion to their number, and for sorting the different lexemes among them.
#[derive(Drop)]
pub struct VectorBuilder {
    /// The lexemes, each once.
    lexemes: Lexemes,
    /// Where they occur.
    occurrences: Vec<Occurrence>,
}

impl Model for VectorBuilder {
    ghost use Rattle.std.specs.Prelude.{List};
    ghost use Rattle.ts_base.specs.Vectors.{Entry};

    ghost Value = { List Entry };

    ghost use Rattle.ts_vector.specs.Inner.Building.{items_of, AreBuilding};

    ghost view = { λ b. items_of b.lexemes b.occurrences.items };

    ghost invariant = { λ b. AreBuilding b.lexemes b.occurrences.items };
}

/// So many lists without positions.
fn empty_lists(alloc: Global, count: usize) -> Result<Vec<Vec<Position>>, AllocError>
    ensures { IfOk result (λ lists. map (λ list. list.items) lists.items ≡ replicate count []) }
{
    let mut lists = Vec::with_capacity(alloc, count)?;
    for _ in 0..count {
        lists.push(Vec::new(alloc))?;
    }
    Ok(lists)
}

/// The positions of each of so many lexemes.
fn grouped(
    alloc: Global,
    count: usize,
    occurrences: &[Occurrence],
) -> Result<Vec<Vec<Position>>, AllocError>
    requires { All (λ o. o.lexeme < count) occurrences.now }
    ensures { IfOk result
        (λ lists. AreGrouped count occurrences.now (map (λ list. list.items) lists.items)) }
{
    let mut lists = empty_lists(alloc, count)?;
    for occurrence in occurrences {
        lists[occurrence.lexeme].push(occurrence.position)?;
    }
    Ok(lists)
}

/// Each lexeme with its positions.
fn rows(alloc: Global, lexemes: &[Lexeme], lists: &[Vec<Position>]) -> Result<Columns, AllocError>
    requires { length lists.now ≡ length lexemes.now }
    ensures { IfOk result (λ columns. columns
        ≡ rows_of lexemes.now (map (λ list. list.items) lists.now)) }
{
    let mut columns = Columns::new(alloc);
    for k in 0..lexemes.len() {
        columns.push(lexemes[k].as_str().as_bytes(), lists[k].as_slice())?;
    }
    Ok(columns)
}

impl VectorBuilder {
    ghost use Rattle.ts_vector.specs.Inner.Columns.{entry};

    /// Without items.
    pub fn new(alloc: Global) -> Result<VectorBuilder, AllocError>
        ensures { IfOk result (λ builder. builder ≡ []) }
    {
        Ok(VectorBuilder {
            lexemes: Lexemes::new(alloc)?,
            occurrences: Vec::new(alloc),
        })
    }

    /// Adds a lexeme at a position. Where memory runs out, nothing has changed.
    pub fn push(&mut self, lexeme: &Lexeme, position: Position) -> Result<(), AllocError>
        ensures ok { OnOk result (self.new ≡ self.old ++ entry lexeme.now (position ∷ []) ∷ []) }
        ensures err { OnErr result (self.new ≡ self.old) }
    {
        prove!(position.at() > 0);
        prove!(!lexeme.as_str().is_empty());
        self.occurrences.reserve(1)?;
        let lexeme = self.lexemes.number_of(lexeme)?;
        self.occurrences
            .push_reserved(Occurrence { lexeme, position });
        Ok(())
    }

    /// The normal form of the items, if it is within the limit.
    pub fn finish(self, alloc: Global) -> Result<TsVector, VectorError>
        ensures value { IfOk result (IsBuiltOf self) }
        ensures cause { IfErr result (ItemsFail self) }
    {
        let lexemes = self.lexemes.as_slice();
        let Ok(lists) = grouped(alloc, lexemes.len(), self.occurrences.as_slice()) else {
            return Err(VectorError::OutOfMemory);
        };
        let Ok(rows) = rows(alloc, lexemes, lists.as_slice()) else {
            return Err(VectorError::OutOfMemory);
        };
        match normal_form(alloc, rows) {
            Ok(entries) => within_limit(entries),
            Err(_) => Err(VectorError::OutOfMemory),
        }
    }
}
