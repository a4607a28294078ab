// The words of a line.
ghost use Rattle.std.specs.Prelude.{◌≡◌, ◌↔◌, ℕ, ◌≤◌, length, map, All, IfOk, IsTrue};
ghost use Rattle.ts_base.specs.declared.TheConstants.{LONGEST_LEXEME};
ghost use Rattle.ts_base.specs.Words.{AreWords};
ghost use Rattle.ts_thesaurus.specs.Lines.{IsPassed, AreFit};

use std::alloc::{AllocError, Global};
use ts_base::{LONGEST_LEXEME, front_word, without_blanks};

/// Whether a line is passed: it has nothing but blanks, or `#` after blanks.
pub fn is_passed(line: &str) -> bool
    ensures { IsTrue result ↔ IsPassed line.now }
{
    let rest = without_blanks(line);
    rest.is_empty() || rest.as_bytes()[0] == b'#'
}

/// The words between blanks.
pub fn words_of(alloc: Global, text: &str) -> Result<Vec<&str>, AllocError>
    ensures { IfOk result (λ words. AreWords text.now (map (λ w. w.now) words.items)) }
{
    let mut words = Vec::new(alloc);
    let mut rest = text;
    while let Some((word, behind)) = front_word(rest) {
        words.push(word)?;
        rest = behind;
    }
    Ok(words)
}

/// Whether no word is longer than a lexeme.
fn are_sized(words: &[&str]) -> bool
    ensures { IsTrue result ↔ All (λ w. length w.now ≤ LONGEST_LEXEME) words.now }
{
    words.iter().all(|word| word.len() <= LONGEST_LEXEME)
}

/// Whether there are words, none longer than a lexeme.
pub fn are_fit(words: &[&str]) -> bool
    ensures { IsTrue result ↔ AreFit (map (λ w. w.now) words.now) }
{
    !words.is_empty() && are_sized(words)
}
