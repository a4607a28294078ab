// One line of a thesaurus.
ghost use Rattle.std.specs.Prelude.{◌≡◌, ℕ, List, IfOk, IfErr, IfSome, IfNone};
ghost use Rattle.ts_thesaurus.specs.Lines.{IsCut};
ghost use Rattle.ts_thesaurus.specs.Faults.{IsFault};
ghost use Rattle.ts_thesaurus.specs.Inner.Reading.{Reads};

use crate::line_words::{indexed_words, sample_words};
use crate::rule::KeptRule;
use crate::words::{are_fit, is_passed, words_of};
use std::alloc::Global;
use ts_base::{Dictionary, LineError};

/// What is before the first `:` of a line, and after it.
fn sides(line: &str) -> Option<(&str, &str)>
    ensures some { IfSome result (λ r. IsCut line.now r.0.now r.1.now) }
    ensures none { IfNone result ((left right : List ℕ) → ¬ IsCut line.now left right) }
{
    line.split_once(':')
}

/// The rule of a line; none where it is passed.
pub fn read_line<D: Dictionary>(
    alloc: Global,
    line: &str,
    sub: &D,
) -> Result<Option<KeptRule>, LineError>
    ensures value { IfOk result (Reads (D.answer sub.now) line.now) }
    ensures fault { IfErr result (IsFault (D.answer sub.now) line.now) }
{
    if is_passed(line) {
        return Ok(None);
    }
    let Some((left, right)) = sides(line) else {
        return Err(LineError::Bad);
    };
    let sample = words_of(alloc, left)?;
    let indexed = words_of(alloc, right)?;
    if !are_fit(&sample) {
        return Err(LineError::Bad);
    }
    if !are_fit(&indexed) {
        return Err(LineError::Bad);
    }
    let Some(words) = indexed_words(alloc, &indexed, sub)? else {
        return Err(LineError::Bad);
    };
    let samples = sample_words(alloc, &sample, sub)?;
    Ok(Some(KeptRule { samples, words }))
}
