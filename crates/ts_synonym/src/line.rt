// The words of a line of synonyms.
ghost use Rattle.std.specs.Prelude.{◌≡◌, ◌↔◌, ℕ, List, IfOk, IfSome, IfNone, IsTrue, string_bytes};
ghost use Rattle.ts_synonym.specs.Synonyms.{cased as cased_of, HasTwoWords, IsBadPair, IsMarked};

use std::alloc::{AllocError, Global};
use ts_base::{LONGEST_LEXEME, front_word, lower_case};

/// The first two words of a line; none where it has fewer.
pub fn two_words(line: &str) -> Option<(&str, &str)>
    ensures some { IfSome result (λ r. HasTwoWords line.now r.0.now r.1.now) }
    ensures none { IfNone result ((word replacement : List ℕ)
        → ¬ HasTwoWords line.now word replacement) }
{
    let (word, behind) = front_word(line)?;
    let (replacement, _) = front_word(behind)?;
    Some((word, replacement))
}

/// Whether these two words make a line bad.
pub fn is_bad(word: &str, replacement: &str) -> bool
    ensures { IsTrue result ↔ IsBadPair word.now replacement.now }
{
    word.len() > LONGEST_LEXEME || replacement.len() > LONGEST_LEXEME || replacement == "*"
}

/// A replacement without its mark, and whether it has one.
pub fn without_mark(replacement: &str) -> (&str, bool)
    ensures { IsMarked replacement.now result.0.now result.1 }
{
    match replacement.strip_suffix('*') {
        Some(text) => (text, true),
        None => (replacement, false),
    }
}

/// A word as it is compared.
pub fn cased(alloc: Global, word: &str, sensitive: bool) -> Result<String, AllocError>
    ensures { IfOk result (λ r. string_bytes r ≡ cased_of sensitive word.now) }
{
    if sensitive {
        String::from_str(alloc, word)
    } else {
        lower_case(alloc, word)
    }
}
