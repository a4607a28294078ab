// The dictionary `simple`.
ghost use Rattle.std.specs.Prelude.{◌≡◌};

use crate::stops::StopList;
use std::alloc::{AllocError, Global};
use ts_base::{Answer, Dictionary, Found, Lexeme, lower_case};

/// Gives each word in lower case, but for stop words. Without `accept` it doesn't know them, and
/// serves to leave stop words out before another dictionary.
#[derive(Debug, Drop)]
pub struct Simple {
    /// The words that are left out.
    stops: StopList,
    /// Whether it knows the words that are no stop words.
    accept: bool,
}

impl Simple {
    /// The dictionary with these stop words.
    pub fn new(stops: StopList, accept: bool) -> Simple
        ensures stops { result.stops ≡ stops }
        ensures accept { result.accept ≡ accept }
    {
        Simple { stops, accept }
    }
}

impl Dictionary for Simple {
    ghost use Rattle.ts_words.specs.Simple.{simple_answer};

    ghost answer = { λ d word. simple_answer d.stops d.accept word };

    /// The word in lower case, where it is no stop word.
    fn lexize(&self, alloc: Global, word: &str) -> Result<Answer, AllocError> {
        let lowered = lower_case(alloc, word)?;
        if self.stops.contains(lowered.as_str()) {
            return Ok(Answer::Stop);
        }
        if !self.accept {
            return Ok(Answer::Unknown);
        }
        let mut found = Vec::new(alloc);
        found.push(Found {
            lexeme: Lexeme::from_string(lowered),
            prefix: false,
        })?;
        Ok(Answer::Lexemes(found))
    }
}
