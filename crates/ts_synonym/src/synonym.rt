// The dictionary.
ghost use Rattle.std.specs.Prelude.{◌≡◌, [], IfOk, IfErr, OnOk, OnErr, option_copied};
ghost use Rattle.std.specs.Str.Lines.{lines};
ghost use Rattle.ts_base.specs.Dictionary.{IsWordAnswer};
ghost use Rattle.ts_base.specs.LineErrors.{IsBadFault, IsBadRefusal};
ghost use Rattle.ts_synonym.specs.Synonyms.{cased as cased_of, given_for, synonym_answer, IsBadLine, IsSynonymList};
ghost use Rattle.ts_synonym.specs.Synonyms.{Adds};

use crate::line::{cased, is_bad, two_words, without_mark};
use indexmap::IndexMap;
use std::alloc::{AllocError, Global};
use std::marker::Model;
use ts_base::{Answer, Dictionary, Found, Lexeme, LineError, LinesError, lower_case};

/// A dictionary that replaces a word by one other.
#[derive(Debug, Drop)]
pub struct Synonym {
    /// Whether words are compared as they are; else in lower case.
    sensitive: bool,
    /// The words, each with what stands for it.
    pairs: IndexMap<String, Found>,
}

impl Model for Synonym {
    ghost use Rattle.std.specs.Prelude.{map, All};
    ghost use Rattle.ts_base.specs.Lexemes.{IsLexeme};
    ghost use Rattle.ts_synonym.specs.Synonyms.{Synonyms};

    ghost Value = { Synonyms };

    ghost use Rattle.ts_synonym.specs.Views.{pair};

    ghost view = { λ s. record { sensitive = s.sensitive; pairs = map pair s.pairs.entries } };

    ghost invariant = { λ s. All (λ e. IsLexeme e.1.lexeme) s.pairs.entries };
}

impl Synonym {
    /// The dictionary of no lines.
    pub fn new(alloc: Global, sensitive: bool) -> Synonym
        ensures { IsSynonymList sensitive [] result }
    {
        Synonym {
            sensitive,
            pairs: IndexMap::new(alloc),
        }
    }

    /// The dictionary of these lines.
    pub fn read(alloc: Global, text: &str, sensitive: bool) -> Result<Synonym, LinesError>
        ensures value { IfOk result (IsSynonymList sensitive (lines text.now)) }
        ensures bad { IfErr result (IsBadRefusal IsBadLine (lines text.now)) }
    {
        let mut synonym = Synonym::new(alloc, sensitive);
        let mut number = 0;
        for line in text.lines() {
            number += 1;
            if let Err(error) = synonym.add_line(alloc, line) {
                return Err(error.at(number));
            }
        }
        Ok(synonym)
    }

    /// Takes one line more, of which the first two words count. A line of fewer is skipped, and a
    /// word that an earlier line has keeps what that line gives.
    ///
    /// A line is bad where one of the two words has more than 2046 bytes, or the replacement is
    /// `*`. A refused line changes nothing.
    pub fn add_line(&mut self, alloc: Global, line: &str) -> Result<(), LineError>
        ensures taken { OnOk result (Adds line.now self.old self.new) }
        ensures fault { IfErr result (IsBadFault IsBadLine line.now) }
        ensures failed { OnErr result (self.new ≡ self.old) }
    {
        let Some((word, replacement)) = two_words(line) else {
            return Ok(());
        };
        if is_bad(word, replacement) {
            return Err(LineError::Bad);
        }
        let word = cased(alloc, word, self.sensitive)?;
        if self.pairs.contains_key(word.as_str()) {
            return Ok(());
        }
        let (text, prefix) = without_mark(replacement);
        let lexeme = Lexeme::from_string(cased(alloc, text, self.sensitive)?);
        self.pairs.insert(word, Found { lexeme, prefix })?;
        Ok(())
    }

    /// What stands for a word.
    fn find(&self, alloc: Global, word: &str) -> Result<Option<&Found>, AllocError>
        ensures value { IfOk result (λ r. option_copied r
            ≡ given_for self.now (cased_of self.now.sensitive word.now)) }
        ensures named { IsWordAnswer (synonym_answer self.now word.now) }
    {
        if self.sensitive {
            return Ok(self.pairs.get(word));
        }
        let word = lower_case(alloc, word)?;
        Ok(self.pairs.get(word.as_str()))
    }
}

impl Dictionary for Synonym {
    ghost use Rattle.ts_synonym.specs.Synonyms.{synonym_answer};

    ghost answer = { synonym_answer };

    /// What stands for the word; unknown where no line has it.
    fn lexize(&self, alloc: Global, word: &str) -> Result<Answer, AllocError> {
        let Some(found) = self.find(alloc, word)? else {
            return Ok(Answer::Unknown);
        };
        let text = String::from_str(alloc, found.lexeme.as_str())?;
        let mut all = Vec::new(alloc);
        all.push(Found {
            lexeme: Lexeme::from_string(text),
            prefix: found.prefix,
        })?;
        Ok(Answer::Lexemes(all))
    }
}
