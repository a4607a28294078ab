// The words of a line.
ghost use Rattle.std.specs.Prelude.{◌≡◌, ℕ, ◌≤◌, List, ◌++◌, length, take, drop, All, IfSome, IfNone, IfOk};
ghost use Rattle.std.specs.String.{string_bytes};
ghost use Rattle.ts_base.specs.Bytes.{IsBlank, BeginsWithout};
ghost use Rattle.ts_base.specs.Words.{BeginsWithWord, lower};

use crate::bytes::is_blank;
use std::alloc::{AllocError, Global};

/// How many blanks are at the front.
fn blanks_len(bytes: &[u8]) -> usize
    ensures within { result ≤ length bytes.now }
    ensures blank { All IsBlank (take result bytes.now) }
    ensures all { BeginsWithout IsBlank (drop result bytes.now) }
{
    bytes
        .iter()
        .position(|byte| !is_blank(*byte))
        .unwrap_or(bytes.len())
}

/// How many bytes of a word are at the front.
fn word_len(bytes: &[u8]) -> usize
    ensures within { result ≤ length bytes.now }
    ensures word { All (λ c. ¬ IsBlank c) (take result bytes.now) }
    ensures all { BeginsWithout (λ c. ¬ IsBlank c) (drop result bytes.now) }
{
    bytes
        .iter()
        .position(|byte| is_blank(*byte))
        .unwrap_or(bytes.len())
}

/// What is after the blanks at the front.
pub fn without_blanks(text: &str) -> &str
    ensures blanks { (gap : List ℕ) × All IsBlank gap × (text.now ≡ gap ++ result.now) }
    ensures all { BeginsWithout IsBlank result.now }
{
    &text[blanks_len(text.as_bytes())..]
}

/// The first word of a line that need not be UTF-8, and what is after it; none in a line of
/// blanks.
pub fn first_word(line: &[u8]) -> Option<(&[u8], &[u8])>
    ensures some { IfSome result (λ r. BeginsWithWord line.now r.0.now r.1.now) }
    ensures none { IfNone result (All IsBlank line.now) }
{
    let text = &line[blanks_len(line)..];
    if text.is_empty() {
        return None;
    }
    Some(text.split_at(word_len(text)))
}

/// The first word of a line, and what is after it; none in a line of blanks.
pub fn front_word(line: &str) -> Option<(&str, &str)>
    ensures some { IfSome result (λ r. BeginsWithWord line.now r.0.now r.1.now) }
    ensures none { IfNone result (All IsBlank line.now) }
{
    let text = without_blanks(line);
    let (word, rest) = text.split_at(word_len(text.as_bytes()));
    if word.is_empty() {
        return None;
    }
    Some((word, rest))
}

/// The word with A to Z, and no other character, in lower case.
pub fn lower_case(alloc: Global, word: &str) -> Result<String, AllocError>
    ensures { IfOk result (λ lowered. string_bytes lowered ≡ lower word.now) }
{
    let mut lowered = String::from_str(alloc, word)?;
    lowered.make_ascii_lowercase();
    Ok(lowered)
}
