// How samples fit answers.
ghost use Rattle.std.specs.Prelude.{◌≡◌, ◌↔◌, map, IsTrue};
ghost use Rattle.ts_base.specs.Dictionary.{answer_value};
ghost use Rattle.ts_thesaurus.specs.Rules.{lexemes_of, Fits, FitsFirst, FitsAll, Continues};
ghost use Rattle.ts_thesaurus.specs.Views.{sample_value, rule_value};

use crate::rule::{KeptRule, Sample};
use ts_base::{Answer, Found};

/// Whether both have the same lexemes, marks aside.
fn same_lexemes(left: &[Found], right: &[Found]) -> bool
    ensures { IsTrue result ↔ (lexemes_of left.now ≡ lexemes_of right.now) }
{
    if left.len() != right.len() {
        return false;
    }
    for (i, one) in left.iter().enumerate() {
        if one.lexeme != right[i].lexeme {
            return false;
        }
    }
    true
}

/// Whether the sample fits the answer.
fn fits(sample: &Sample, answer: &Answer) -> bool
    ensures { IsTrue result ↔ Fits (sample_value sample.now) (answer_value answer.now) }
{
    match (sample, answer) {
        (Sample::AnyStop, Answer::Stop) => true,
        (Sample::Lexemes(lexemes), Answer::Lexemes(found)) => same_lexemes(lexemes, found),
        _ => false,
    }
}

/// Whether the samples fit the first answers, one each.
pub fn fits_first(samples: &[Sample], answers: &[Answer]) -> bool
    ensures { IsTrue result ↔ FitsFirst (map sample_value samples.now) (map answer_value answers.now) }
{
    for (i, sample) in samples.iter().enumerate() {
        if i >= answers.len() || !fits(sample, &answers[i]) {
            return false;
        }
    }
    true
}

/// Whether the first samples fit all answers, one each.
pub fn fits_all(samples: &[Sample], answers: &[Answer]) -> bool
    ensures { IsTrue result ↔ FitsAll (map sample_value samples.now) (map answer_value answers.now) }
{
    for (i, answer) in answers.iter().enumerate() {
        if i >= samples.len() || !fits(&samples[i], answer) {
            return false;
        }
    }
    true
}

/// Whether some rule has a beginning that fits all of these answers.
pub fn goes_on(rules: &[KeptRule], answers: &[Answer]) -> bool
    ensures { IsTrue result ↔ Continues (map rule_value rules.now) (map answer_value answers.now) }
{
    for rule in rules {
        if fits_all(&rule.samples, answers) {
            return true;
        }
    }
    false
}
