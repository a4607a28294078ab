// The placed lexemes of a text.
ghost use Rattle.std.specs.Prelude.{◌≡◌, ◌+◌, [], ◌∷◌, ◌++◌, map, true, All, IfOk, OnOk};
ghost use Rattle.ts_base.specs.Dictionary.{answer_value};
ghost use Rattle.ts_config.specs.Known.{IsWithin};
ghost use Rattle.ts_config.specs.Answers.{asked_for};
ghost use Rattle.ts_config.specs.Phrases.{lists};
ghost use Rattle.ts_config.specs.Parts.{GivesAt, Decides};
ghost use Rattle.ts_config.specs.Inner.Looking.{IsToken};
ghost use Rattle.ts_config.specs.Placing.{placed_at, placed_from, ArePlaced};
ghost use Rattle.ts_config.specs.Inner.Positions.{last_position};

use crate::config::Config;
use crate::configs::Configs;
use crate::phrases::{Listed, answer_to};
use std::alloc::{AllocError, Global};
use ts_base::{Answer, Found, Lexeme};
use ts_parser::{Token, Tokens, tokens};

/// A lexeme of a text, with its position.
#[derive(Debug, Drop)]
pub struct Placed {
    /// The lexeme.
    pub lexeme: Lexeme,
    /// Whether it is in a query for each lexeme that begins with it.
    pub prefix: bool,
    /// Its position among the words of the text, numbered from 1.
    pub position: usize,
}

/// Appends the lexemes of one token, which share a position.
fn push_placed(out: &mut Vec<Placed>, found: Vec<Found>, position: usize) -> Result<(), AllocError>
    ensures { OnOk result (out.new.items ≡ out.old.items ++ map (placed_at position) found.items) }
{
    for Found { lexeme, prefix } in found {
        out.push(Placed {
            lexeme,
            prefix,
            position,
        })?;
    }
    Ok(())
}

/// The next position. No text that fits into memory has so many words that there is none.
fn next_position(last: usize) -> Result<usize, AllocError>
    ensures { IfOk result (λ next. next ≡ last + 1) }
{
    last.checked_add(1).ok_or(AllocError)
}

/// Appends what a token was answered, where `last` is the last position so far, and gives the last
/// position after it.
fn place(out: &mut Vec<Placed>, answer: Answer, last: usize) -> Result<usize, AllocError>
    ensures placed { OnOk result
        (out.new.items ≡ out.old.items ++ placed_from last (answer_value answer ∷ [])) }
    ensures position { IfOk result (λ next. next ≡ last_position last (answer_value answer ∷ [])) }
{
    match answer {
        Answer::Unknown => Ok(last),
        Answer::Stop => next_position(last),
        Answer::Lexemes(found) => {
            let position = next_position(last)?;
            push_placed(out, found, position)?;
            Ok(position)
        }
    }
}

impl Configs {
    /// What the dictionary at a place gives of a token: the answer to its word, or, where it is a thesaurus, the
    /// words of the phrase that begins there, whose other tokens are passed over.
    fn given_at(
        &self,
        alloc: Global,
        place: usize,
        config: &Config,
        text: &str,
        token: Token,
        left: &mut Tokens<'_>,
    ) -> Result<Answer, AllocError>
        requires listed { lists config.now place token ≡ true }
        requires token { IsToken text.now token }
        requires rest { All (IsToken text.now) left.old }
        ensures { IfOk result (λ a. GivesAt self.now config.now text.now place token left.old
            (answer_value a) left.new) }
    {
        let Some(dictionary) = self.dictionary_at(place) else {
            return Ok(Answer::Unknown);
        };
        let Some((thesaurus, name)) = dictionary.as_thesaurus() else {
            return answer_to(alloc, dictionary, text, token);
        };
        let Some(sub) = self.dictionary(name) else {
            return Ok(Answer::Unknown);
        };
        let listed = Listed {
            place,
            thesaurus,
            sub,
        };
        listed.phrase(alloc, config, text, token, left)
    }

    /// What the part that begins with a token is answered: the first dictionary of the token's list that knows
    /// it decides. The other tokens of a phrase are passed over.
    fn part(
        &self,
        alloc: Global,
        config: &Config,
        text: &str,
        token: Token,
        left: &mut Tokens<'_>,
    ) -> Result<Answer, AllocError>
        requires token { IsToken text.now token }
        requires rest { All (IsToken text.now) left.old }
        ensures { IfOk result (λ a. Decides self.now config.now text.now token left.old
            (asked_for config.now token) (answer_value a) left.new) }
    {
        let places = config.asked_for(token);
        for place in places {
            match self.given_at(alloc, *place, config, text, token, left)? {
                Answer::Unknown => {}
                answer => return Ok(answer),
            }
        }
        Ok(Answer::Unknown)
    }

    /// The lexemes of a text by a configuration of these, with their positions: for each token the first
    /// of its type's dictionaries that knows it decides. A stop word takes a position; a token that none
    /// of them knows, or of more than 2046 bytes, takes none; all lexemes of a token take one.
    ///
    /// A thesaurus replaces a phrase that begins with the token: its words take one position, and the tokens up to
    /// its last one are passed over.
    pub fn lexize_all(
        &self,
        alloc: Global,
        config: &Config,
        text: &str,
    ) -> Result<Vec<Placed>, AllocError>
        requires { IsWithin self.now config.now }
        ensures { IfOk result (λ list. ArePlaced self.now config.now text.now list.items) }
    {
        let mut out = Vec::new(alloc);
        let mut position = 0;
        let mut left = tokens(text);
        while let Some(token) = left.next() {
            let answer = self.part(alloc, config, text, token, &mut left)?;
            position = place(&mut out, answer, position)?;
        }
        Ok(out)
    }
}
