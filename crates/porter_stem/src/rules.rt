// A step by a table of rules.
ghost use Rattle.std.specs.Prelude.{◌≡◌, ◌≤◌, ◌+◌, ◌++◌, length, map, take, false, IfSome, IsTrue};
ghost use Rattle.std.specs.Vec.{vec_capacity, vec_len};
ghost use Rattle.porter_stem.specs.Tables.{ends_in, holds, longest as longest_of, applied as applied_of};
ghost use Rattle.porter_stem.specs.Tables.{step as step_of};
ghost use Rattle.porter_stem.specs.Views.{rule_of, found_of};

use crate::rule::{Condition, Rule};
use crate::shape::shape_of;

/// Whether the last letters differ, which says most suffixes from a word's end.
fn ends_apart(word: &[u8], suffix: &[u8]) -> bool
    ensures { IsTrue result → ends_in suffix.now word.now ≡ false }
{
    match (word.last(), suffix.last()) {
        (Some(letter), Some(end)) => letter != end,
        _ => false,
    }
}

/// Whether a word ends in this suffix.
pub fn has_suffix(word: &[u8], suffix: &str) -> bool
    ensures { result ≡ ends_in suffix.now word.now }
{
    let suffix = suffix.as_bytes();
    if ends_apart(word, suffix) {
        return false;
    }
    word.ends_with(suffix)
}

/// Whether a condition holds of a stem.
fn is_met(condition: Condition, stem: &[u8]) -> bool
    ensures { result ≡ holds condition stem.now }
{
    let shape = shape_of(stem);
    match condition {
        Condition::Always => true,
        Condition::HasVowel => shape.has_vowel,
        Condition::MeasureAbove(n) => shape.measure > n,
        Condition::IonBehind => {
            shape.measure > 1 && (has_suffix(stem, "s") || has_suffix(stem, "t"))
        }
        Condition::FinalE => shape.measure > 1 || (shape.measure == 1 && !shape.ends_short(stem)),
    }
}

/// Of a table the rule with the longest suffix that the word has.
fn longest(word: &[u8], rules: &[Rule]) -> Option<Rule>
    ensures found { found_of result ≡ longest_of (map rule_of rules.now) word.now }
    ensures fits { IfSome result (λ r. length r.suffix.now ≤ length word.now) }
{
    let mut found: Option<Rule> = None;
    for rule in rules {
        if has_suffix(word, rule.suffix) {
            match found {
                Some(old) if old.suffix.len() >= rule.suffix.len() => {}
                _ => found = Some(*rule),
            }
        }
    }
    found
}

/// Puts `given` in place of all from a place on.
fn replace(word: &mut Vec<u8>, at: usize, given: &str)
    requires { at + length given.now ≤ vec_len word.old }
    ensures items { word.new.items ≡ take at word.old.items ++ given.now }
    ensures capacity { vec_capacity word.old ≤ vec_capacity word.new }
{
    word.truncate(at);
    match word.extend_from_slice(given.as_bytes()) {
        Ok(()) => {}
        Err(_) => unreachable!(),
    }
}

/// Applies a table to a word, and gives the rule that was applied.
pub fn step(word: &mut Vec<u8>, rules: &[Rule]) -> Option<Rule>
    ensures applied { found_of result ≡ applied_of (map rule_of rules.now) word.old.items }
    ensures value { word.new.items ≡ step_of (map rule_of rules.now) word.old.items }
    ensures shorter { IfSome result (λ r. vec_len word.new + length r.suffix.now
        ≡ vec_len word.old + length r.given.now) }
    ensures capacity { vec_capacity word.old ≤ vec_capacity word.new }
{
    let rule = longest(word, rules)?;
    let at = word.len() - rule.suffix.len();
    if !is_met(rule.condition, &word[..at]) {
        return None;
    }
    replace(word, at, rule.given);
    Some(rule)
}
