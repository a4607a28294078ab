// The dictionary of stems.
ghost use Rattle.std.specs.Prelude.{◌≡◌, string_bytes};
ghost use Rattle.porter_stem.specs.Stem.{stem as stem_of};

use crate::steps::stem;
use std::alloc::{AllocError, Global};
use ts_base::{Answer, Dictionary, Found, Lexeme, lower_case};
use ts_words::StopList;

/// Gives the stem of each word in lower case, but for stop words. It knows every word.
#[derive(Debug, Drop)]
pub struct Porter {
    /// The words that are left out.
    stops: StopList,
}

impl Porter {
    /// The dictionary with these stop words.
    pub fn new(stops: StopList) -> Porter
        ensures { result.stops ≡ stops }
    {
        Porter { stops }
    }
}

/// The text of a word's stem.
fn stem_text(word: String) -> String
    ensures { string_bytes result ≡ stem_of (string_bytes word) }
{
    let mut bytes = word.into_bytes();
    stem(&mut bytes);
    unsafe { String::from_utf8_unchecked(bytes) }
}

impl Dictionary for Porter {
    ghost use Rattle.porter_stem.specs.Porter.{porter_answer};

    ghost answer = { λ d word. porter_answer d.stops word };

    /// The stem of the word in lower case, where it is no stop word.
    fn lexize(&self, alloc: Global, word: &str) -> Result<Answer, AllocError> {
        let lowered = lower_case(alloc, word)?;
        if self.stops.contains(lowered.as_str()) {
            return Ok(Answer::Stop);
        }
        let lexeme = Lexeme::from_string(stem_text(lowered));
        let mut found = Vec::new(alloc);
        found.push(Found {
            lexeme,
            prefix: false,
        })?;
        Ok(Answer::Lexemes(found))
    }
}
