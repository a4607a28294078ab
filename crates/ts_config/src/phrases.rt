// Phrases of a thesaurus among the tokens of a text.
ghost use Rattle.std.specs.Prelude.{◌≡◌, ◌≤◌, [], ◌∷◌, map, true, All, IfOk, MatchOption};
ghost use Rattle.ts_base.specs.Dictionary.{answer_value};
ghost use Rattle.ts_parser.specs.Between.{IsBetween};
ghost use Rattle.ts_config.specs.Answers.{asked_for as asked_of, word_of};
ghost use Rattle.ts_config.specs.Rules.{answer_by, rules_of};
ghost use Rattle.ts_config.specs.Phrases.{is_asked as is_asked_of, lists, seen, behind, answers_to, GivesPhrase};
ghost use Rattle.ts_config.specs.Inner.Looking.{IsToken, IsNextSeen, AreSeen};

use crate::config::Config;
use crate::dictionaries::AnyDictionary;
use std::alloc::{AllocError, Global};
use ts_base::{Answer, Dictionary, Found, LONGEST_LEXEME};
use ts_parser::{Token, Tokens};
use ts_thesaurus::Thesaurus;

impl Config {
    /// The places of the dictionaries that are asked for a token: none where it is longer than a lexeme.
    pub(crate) fn asked_for(&self, token: Token) -> &[usize]
        ensures { result.now ≡ asked_of self.now token }
    {
        if token.length > LONGEST_LEXEME {
            return &[];
        }
        self.list(token.kind)
    }

    /// Whether any dictionary is asked for a token.
    fn is_asked(&self, token: Token) -> bool
        ensures { result ≡ is_asked_of self.now token }
    {
        !self.asked_for(token).is_empty()
    }

    /// Whether the dictionary at a place is asked for a token.
    fn lists(&self, place: usize, token: Token) -> bool
        ensures { result ≡ lists self.now place token }
    {
        self.asked_for(token).contains(&place)
    }
}

/// The next token that the thesaurus at a place sees.
fn next_seen(config: &Config, place: usize, ahead: &mut Tokens<'_>) -> Option<Token>
    ensures { MatchOption result
        (seen config.now place ahead.old ≡ [])
        (λ t. IsNextSeen config.now place ahead.old t ahead.new) }
{
    while let Some(token) = ahead.next() {
        if config.lists(place, token) {
            return Some(token);
        }
        if config.is_asked(token) {
            return None;
        }
    }
    None
}

/// Passes over the first `count` tokens for which any dictionary is asked, and those before and between them.
fn pass_over(config: &Config, left: &mut Tokens<'_>, count: usize)
    ensures { left.new ≡ behind config.now count left.old }
{
    let mut count = count;
    while count > 0 {
        let Some(token) = left.next() else {
            return;
        };
        if config.is_asked(token) {
            count -= 1;
        }
    }
}

/// A list of lexemes once more.
fn copied(alloc: Global, words: &[Found]) -> Result<Vec<Found>, AllocError>
    ensures { IfOk result (λ copy. copy.items ≡ words.now) }
{
    let mut copy = Vec::with_capacity(alloc, words.len())?;
    for word in words {
        copy.push(word.clone()?)?;
    }
    Ok(copy)
}

/// What a dictionary answers to a token of a text.
pub fn answer_to(
    alloc: Global,
    dictionary: &AnyDictionary,
    text: &str,
    token: Token,
) -> Result<Answer, AllocError>
    requires between { IsBetween text.now token }
    requires some { 1 ≤ token.length }
    requires most { token.length ≤ LONGEST_LEXEME }
    ensures { IfOk result (λ a. answer_value a
        ≡ answer_by (rules_of dictionary.now) (word_of text.now token)) }
{
    dictionary.lexize(alloc, token.of(text))
}

/// A thesaurus that a configuration lists.
#[derive(Drop)]
pub struct Listed<'a> {
    /// Its place among all dictionaries.
    pub place: usize,
    /// Its rules.
    pub thesaurus: &'a Thesaurus,
    /// Its subdictionary.
    pub sub: &'a AnyDictionary,
}

impl Listed<'_> {
    /// What the subdictionary answers to the first token and to those after it that the thesaurus sees, as
    /// long as some rule goes on with them.
    fn answers(
        &self,
        alloc: Global,
        config: &Config,
        text: &str,
        first: Token,
        left: &Tokens<'_>,
    ) -> Result<Vec<Answer>, AllocError>
        requires listed { lists config.now self.now.place first ≡ true }
        requires first { IsToken text.now first }
        requires rest { All (IsToken text.now) left.now }
        ensures { IfOk result (λ answers. AreSeen self.now.thesaurus.now
            (answers_to (answer_by (rules_of self.now.sub.now)) text.now
            (seen config.now self.now.place (first ∷ left.now)))
            (map answer_value answers.items)) }
    {
        let mut ahead = left.again();
        let mut walk = self.thesaurus.walk(alloc);
        walk.push(answer_to(alloc, self.sub, text, first)?)?;
        while walk.continues() {
            let Some(next) = next_seen(config, self.place, &mut ahead) else {
                return Ok(walk.into_answers());
            };
            walk.push(answer_to(alloc, self.sub, text, next)?)?;
        }
        Ok(walk.into_answers())
    }

    /// The words of the phrase that begins with a token, whose other tokens are passed over; unknown where none does.
    pub fn phrase(
        &self,
        alloc: Global,
        config: &Config,
        text: &str,
        first: Token,
        left: &mut Tokens<'_>,
    ) -> Result<Answer, AllocError>
        requires listed { lists config.now self.now.place first ≡ true }
        requires first { IsToken text.now first }
        requires rest { All (IsToken text.now) left.old }
        ensures { IfOk result (λ a. GivesPhrase config.now text.now
            (answer_by (rules_of self.now.sub.now)) self.now.place self.now.thesaurus.now
            first left.old (answer_value a) left.new) }
    {
        let answers = self.answers(alloc, config, text, first, left)?;
        let Some(replaced) = self.thesaurus.best(&answers) else {
            return Ok(Answer::Unknown);
        };
        // A rule without sample words replaces nothing.
        if replaced.tokens == 0 {
            return Ok(Answer::Unknown);
        }
        pass_over(config, left, replaced.tokens - 1);
        Ok(Answer::Lexemes(copied(alloc, replaced.words)?))
    }
}
