// What the words of a line stand for, by the subdictionary.
ghost use Rattle.std.specs.Prelude.{◌≡◌, ◌++◌, ◌∷◌, [], map, All, IfOk, IfErr, OnOk, option_map, Some};
ghost use Rattle.ts_base.specs.Dictionary.{answer_value};
ghost use Rattle.ts_thesaurus.specs.Lines.{lexemes_in as lexemes_in_of, indexed_word as indexed_word_of};
ghost use Rattle.ts_thesaurus.specs.Lines.{indexed_words as indexed_words_of, sample_words as sample_words_of};
ghost use Rattle.ts_thesaurus.specs.Inner.Reading.{IsAsked, StandsFor, IsWordFault, AreWordsFault};
ghost use Rattle.ts_thesaurus.specs.Views.{sample_value};

use crate::rule::Sample;
use std::alloc::{AllocError, Global};
use ts_base::{Answer, Dictionary, Found, Lexeme, LineError};

/// The lexemes of an answer, if it has any.
fn lexemes_in(answer: Answer) -> Option<Vec<Found>>
    ensures { option_map (λ v. v.items) result ≡ lexemes_in_of (answer_value answer) }
{
    match answer {
        Answer::Lexemes(found) => Some(found),
        Answer::Stop | Answer::Unknown => None,
    }
}

/// What an indexed word gives; none where it is bad.
fn indexed_word<D: Dictionary>(
    alloc: Global,
    word: &str,
    sub: &D,
) -> Result<Option<Vec<Found>>, AllocError>
    requires { IsAsked word.now }
    ensures { IfOk result (λ r. option_map (λ v. v.items) r
        ≡ indexed_word_of (D.answer sub.now) word.now) }
{
    let Some(text) = word.strip_prefix('*') else {
        return Ok(lexemes_in(sub.lexize(alloc, word)?));
    };
    if text.is_empty() {
        return Ok(None);
    }
    let lexeme = Lexeme::from_string(String::from_str(alloc, text)?);
    let mut found = Vec::new(alloc);
    found.push(Found {
        lexeme,
        prefix: false,
    })?;
    Ok(Some(found))
}

/// What the indexed words give, one after the other; none where one is bad.
pub fn indexed_words<D: Dictionary>(
    alloc: Global,
    words: &[&str],
    sub: &D,
) -> Result<Option<Vec<Found>>, AllocError>
    requires { All (λ w. IsAsked w.now) words.now }
    ensures { IfOk result (λ r. option_map (λ v. v.items) r
        ≡ indexed_words_of (D.answer sub.now) (map (λ w. w.now) words.now)) }
{
    let mut all = Vec::new(alloc);
    for word in words {
        let Some(mut found) = indexed_word(alloc, word, sub)? else {
            return Ok(None);
        };
        all.append(&mut found)?;
    }
    Ok(Some(all))
}

/// What a sample word stands for; none where it is unknown.
fn sample_word<D: Dictionary>(
    alloc: Global,
    word: &str,
    sub: &D,
) -> Result<Option<Sample>, LineError>
    requires { IsAsked word.now }
    ensures value { IfOk result (StandsFor (D.answer sub.now) word.now) }
    ensures fault { IfErr result (IsWordFault (D.answer sub.now) word.now) }
{
    if word == "?" {
        return Ok(Some(Sample::AnyStop));
    }
    match sub.lexize(alloc, word)? {
        Answer::Lexemes(found) => Ok(Some(Sample::Lexemes(found))),
        Answer::Stop => Err(LineError::StopInSample),
        Answer::Unknown => Ok(None),
    }
}

/// What the sample words stand for. A stop word among them comes before an unknown one.
pub fn sample_words<D: Dictionary>(
    alloc: Global,
    words: &[&str],
    sub: &D,
) -> Result<Vec<Sample>, LineError>
    requires { All (λ w. IsAsked w.now) words.now }
    ensures value { IfOk result (λ samples.
        sample_words_of (D.answer sub.now) (map (λ w. w.now) words.now)
        ≡ Some (map sample_value samples.items)) }
    ensures fault { IfErr result (AreWordsFault (D.answer sub.now) (map (λ w. w.now) words.now)) }
{
    let mut samples = Vec::new(alloc);
    let mut known = true;
    for word in words {
        match sample_word(alloc, word, sub)? {
            Some(sample) => keep(&mut samples, sample)?,
            None => known = false,
        }
    }
    if !known {
        return Err(LineError::UnknownInSample);
    }
    Ok(samples)
}

/// Puts a sample after the others.
fn keep(samples: &mut Vec<Sample>, sample: Sample) -> Result<(), AllocError>
    ensures { OnOk result (samples.new.items ≡ samples.old.items ++ sample ∷ []) }
{
    samples.push(sample)?;
    Ok(())
}
