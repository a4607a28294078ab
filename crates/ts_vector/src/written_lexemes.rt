// Lexemes of a text as they are written, without a block of memory for each.
ghost use Rattle.std.specs.Prelude.{◌≡◌, ◌∷◌, [], ◌++◌, MatchOption, OnOk};
ghost use Rattle.ts_vector.specs.Text.{written, entries as entries_of, FirstLong, AllShort};

use crate::columns::Columns;
use std::alloc::{AllocError, Global};
use std::marker::Model;
use ts_base::{LONGEST_LEXEME, Position};

/// Lexemes as they are written, each with the offset at which it starts and its positions.
/// Contracts see them as a list.
#[derive(Debug, Drop)]
pub struct WrittenLexemes {
    /// The offset at which each starts.
    starts: Vec<u32>,
    /// The lexemes with their positions.
    entries: Columns,
}

impl Model for WrittenLexemes {
    ghost use Rattle.std.specs.Prelude.{List, ◌≡◌, length};
    ghost use Rattle.ts_vector.specs.Text.{Written};

    ghost Value = { List Written };

    ghost use Rattle.ts_vector.specs.Inner.WrittenLexemes.{written_lexemes};

    ghost view = { λ d. written_lexemes d.starts.items d.entries };

    ghost invariant = { λ d. length d.starts.items ≡ length d.entries };
}

impl WrittenLexemes {
    /// No lexeme.
    pub fn new(alloc: Global) -> WrittenLexemes
        ensures { result ≡ [] }
    {
        WrittenLexemes {
            starts: Vec::new(alloc),
            entries: Columns::new(alloc),
        }
    }

    /// Adds a lexeme at the end. An offset of 4 GiB counts as the end of memory.
    pub fn push(
        &mut self,
        start: usize,
        lexeme: &[u8],
        positions: &[Position],
    ) -> Result<(), AllocError>
        ensures { OnOk result
            (self.new ≡ self.old ++ written start lexeme.now positions.now ∷ []) }
    {
        let Ok(start) = u32::try_from(start) else {
            return Err(AllocError);
        };
        self.starts.reserve(1)?;
        self.entries.push(lexeme, positions)?;
        self.starts.push_reserved(start);
        Ok(())
    }

    /// Where the first lexeme of more than 2046 bytes starts.
    pub fn first_long(&self) -> Option<usize>
        ensures { MatchOption result (AllShort self.now) (FirstLong self.now) }
    {
        for k in 0..self.starts.len() {
            if self.entries.lexeme(k).len() > LONGEST_LEXEME {
                return Some(self.starts[k] as usize);
            }
        }
        None
    }

    /// The lexemes with their positions.
    pub fn into_entries(self) -> Columns
        ensures { result ≡ entries_of self }
    {
        self.entries
    }
}
