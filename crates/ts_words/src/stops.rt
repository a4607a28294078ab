// Stop lists.
ghost use Rattle.std.specs.Prelude.{◌≡◌, ◌↔◌, [], IfOk, IfErr, OnOk, OnErr, IsTrue, Contains};
ghost use Rattle.std.specs.Str.Lines.{lines};
ghost use Rattle.ts_base.specs.LineErrors.{IsBadFault, IsBadRefusal};
ghost use Rattle.ts_words.specs.StopLists.{IsBadLine, IsStopList, Adds};
ghost use Rattle.ts_words.specs.Simple.{is_stop};

use std::alloc::Global;
use std::collections::BTreeSet;
use std::marker::Model;
use ts_base::{LONGEST_LEXEME, LineError, LinesError, front_word, lower_case};

/// The words that a dictionary leaves out. Contracts see them as a list.
#[derive(Debug, Drop)]
pub struct StopList {
    /// The words, in lower case.
    words: BTreeSet<String>,
}

impl Model for StopList {
    ghost use Rattle.std.specs.Prelude.{List, ℕ, map};
    ghost use Rattle.std.specs.String.{string_bytes};

    ghost Value = { List (List ℕ) };

    ghost view = { λ s. map string_bytes s.words.keys };
}

impl StopList {
    /// The list without words.
    pub fn new(alloc: Global) -> StopList
        ensures { result ≡ [] }
    {
        StopList {
            words: BTreeSet::new(alloc),
        }
    }

    /// The stop words of a text: of each line the first word, in lower case.
    pub fn read(alloc: Global, text: &str) -> Result<StopList, LinesError>
        ensures stops { IfOk result (IsStopList (lines text.now)) }
        ensures bad { IfErr result (IsBadRefusal IsBadLine (lines text.now)) }
    {
        let mut stops = StopList::new(alloc);
        let mut number = 0;
        for line in text.lines() {
            number += 1;
            if let Err(error) = stops.add_line(alloc, line) {
                return Err(error.at(number));
            }
        }
        Ok(stops)
    }

    /// Takes the stop word of one line more. A line whose first word has more than 2046 bytes is
    /// bad. A refused line changes nothing.
    pub fn add_line(&mut self, alloc: Global, line: &str) -> Result<(), LineError>
        ensures taken { OnOk result (Adds line.now self.old self.new) }
        ensures fault { IfErr result (IsBadFault IsBadLine line.now) }
        ensures failed { OnErr result (self.new ≡ self.old) }
    {
        let Some((word, _)) = front_word(line) else {
            return Ok(());
        };
        if word.len() > LONGEST_LEXEME {
            return Err(LineError::Bad);
        }
        let word = lower_case(alloc, word)?;
        self.words.insert(word)?;
        Ok(())
    }

    /// Whether the list has this word.
    pub fn contains(&self, word: &str) -> bool
        ensures value { result ≡ is_stop self.now word.now }
        ensures member { IsTrue result ↔ Contains self.now word.now }
    {
        self.words.contains(word)
    }
}
