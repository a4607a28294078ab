// The steps of the algorithm.
ghost use Rattle.std.specs.Prelude.{◌≡◌, ◌<◌, ◌++◌, ◌∷◌, []};
ghost use Rattle.std.specs.Vec.{vec_capacity, vec_len};
ghost use Rattle.porter_stem.specs.Stem.{stem as stem_of, step_1b as step_1b_of, step_5b as step_5b_of, mended};
ghost use Rattle.porter_stem.specs.Stem.{stemmed, is_small};
ghost use Rattle.std.specs.List.{list_all};

use crate::rules::{has_suffix, step};
use crate::shape::shape_of;
use crate::tables::{RULES_1A, RULES_1B, RULES_1C, RULES_2, RULES_3, RULES_4, RULES_5A};

/// Appends an e, for which there is room.
fn add_e(word: &mut Vec<u8>)
    requires { vec_len word.old < vec_capacity word.old }
    ensures { word.new.items ≡ word.old.items ++ 101 ∷ [] }
{
    match word.push(b'e') {
        Ok(()) => {}
        Err(_) => unreachable!(),
    }
}

/// Mends a word from which `ed` or `ing` was taken.
fn mend(word: &mut Vec<u8>)
    requires { vec_len word.old < vec_capacity word.old }
    ensures { word.new.items ≡ mended word.old.items }
{
    if has_suffix(word, "at") || has_suffix(word, "bl") || has_suffix(word, "iz") {
        add_e(word);
        return;
    }
    let shape = shape_of(word);
    if shape.ends_double(word)
        && !(has_suffix(word, "l") || has_suffix(word, "s") || has_suffix(word, "z"))
    {
        word.truncate(word.len() - 1);
    } else if shape.measure == 1 && shape.ends_short(word) {
        add_e(word);
    }
}

/// Step 1b: `ed` and `ing`, and what a word gets in their place.
fn step_1b(word: &mut Vec<u8>)
    ensures { word.new.items ≡ step_1b_of word.old.items }
{
    if let Some(rule) = step(word, &RULES_1B) {
        if rule.given.is_empty() {
            mend(word);
        }
    }
}

/// Step 5b: a double l.
fn step_5b(word: &mut Vec<u8>)
    ensures { word.new.items ≡ step_5b_of word.old.items }
{
    if !has_suffix(word, "l") {
        return;
    }
    let shape = shape_of(word);
    if shape.measure > 1 && shape.ends_double(word) {
        word.truncate(word.len() - 1);
    }
}

/// Whether all letters are a to z.
fn is_plain(word: &[u8]) -> bool
    ensures { result ≡ list_all is_small word.now }
{
    word.iter().all(|letter| matches!(*letter, b'a'..=b'z'))
}

/// The steps in turn.
fn all_steps(word: &mut Vec<u8>)
    ensures { word.new.items ≡ stemmed word.old.items }
{
    let _ = step(word, &RULES_1A);
    step_1b(word);
    let _ = step(word, &RULES_1C);
    let _ = step(word, &RULES_2);
    let _ = step(word, &RULES_3);
    let _ = step(word, &RULES_4);
    let _ = step(word, &RULES_5A);
    step_5b(word);
}

/// Puts the stem of a word in its place, by M. F. Porter's "An algorithm for suffix stripping" of 1980.
///
/// The word `s`, and a word with a byte other than a to z, stay as they are. It takes no memory: a stem is no longer
/// than its word.
pub fn stem(word: &mut Vec<u8>)
    ensures { word.new.items ≡ stem_of word.old.items }
{
    if is_plain(word) && word.as_slice() != b"s".as_slice() {
        all_steps(word);
    }
}
