// Which entries of an encoded vector an operand names, and where they are.
ghost use Rattle.std.specs.Prelude.{◌≡◌, ℕ, ◌+◌, ◌<◌, ◌≤◌, ◌==◌, ◌&&◌, true, false, Contains, length, slice_index_or};
ghost use Rattle.std.specs.Prelude.{vec_len};
ghost use Rattle.std.specs.List.{flat_map};
ghost use Rattle.std.specs.declared.cmp.Ordering.TheVariants.{Less, Equal, Greater};
ghost use Rattle.ts_base.specs.Lexemes.{IsBefore};
ghost use Rattle.ts_base.specs.Vectors.{Position as PlaceOf, Entry, IsNormal};
ghost use Rattle.ts_match.specs.Meaning.{asks_for, fits as fits_weight, names as names_lexeme, is_met};
ghost use Rattle.ts_match.specs.Meaning.{is_stripped as stripped_vector};
ghost use Rattle.ts_match.specs.Inner.Ranges.{NamesRange, stands_at};
ghost use Rattle.ts_match.specs.Inner.Setting.{CanSet, HasSet};

use crate::bit_sets::BitSet;
use crate::layout::{Move, set_position};
use crate::ranges::{EntryRange, FARTHEST, any_weight, asked, begins_with, fits};
use std::cmp::Ordering;
use ts_base::{LAST_POSITION, Position, Weights};
use ts_query::Operand;
use ts_vector::VectorBytes;

/// Whether the operand names the lexeme.
pub fn names(operand: &Operand, lexeme: &str) -> bool
    ensures { result ≡ names_lexeme operand.now lexeme.now }
{
    if operand.prefix {
        return begins_with(lexeme, &operand.lexeme);
    }
    lexeme == operand.lexeme.as_str()
}

/// Where a lexeme is to those that the operand names: Less before them, Equal if it is one, Greater after them.
fn compare(operand: &Operand, lexeme: &str) -> Ordering
    ensures before { result ≡ Less → IsBefore lexeme.now operand.now.lexeme }
    ensures named { result ≡ Equal → names_lexeme operand.now lexeme.now ≡ true }
    ensures behind { result ≡ Greater → (¬ IsBefore lexeme.now operand.now.lexeme)
        × (names_lexeme operand.now lexeme.now ≡ false) }
{
    if let Ordering::Less = lexeme.cmp(operand.lexeme.as_str()) {
        return Ordering::Less;
    }
    if names(operand, lexeme) {
        return Ordering::Equal;
    }
    Ordering::Greater
}

/// The entries that an operand names. They are walked up to the first one after them.
pub fn find(vector: &VectorBytes, operand: &Operand) -> EntryRange
    ensures { NamesRange vector.now operand.now result }
{
    let count = vector.count();
    let mut first = 0;
    let mut end = 0;
    for entry in vector.entries() {
        match compare(operand, entry.lexeme()) {
            Ordering::Less => {
                end += 1;
                first = end;
            }
            Ordering::Equal => end += 1,
            Ordering::Greater => return EntryRange { first, end },
        }
    }
    EntryRange { first, end: count }
}

/// Whether the vector has a lexeme, and none has a position.
pub fn is_stripped(vector: &VectorBytes) -> bool
    ensures stripped { result ≡ stripped_vector vector.now }
    ensures normal { IsNormal vector.now }
{
    let count = vector.count();
    if count == 0 {
        return false;
    }
    let mut places = vector.places(0, count);
    match places.next() {
        Some(_) => false,
        None => true,
    }
}

/// Whether the position has this number and a fitting weight.
fn is_at(position: Position, at: usize, weights: Weights) -> bool
    ensures { result ≡ ((position.at == at) && fits_weight weights position.weight) }
{
    position.at() as usize == at && fits(weights, position.weight())
}

/// Whether the operand has a position where `sum` says.
pub fn stands(vector: &VectorBytes, operand: &Operand, found: EntryRange, sum: usize) -> bool
    requires { NamesRange vector.now operand.now found }
    ensures { result ≡ stands_at operand.now vector.now sum }
{
    if sum < FARTHEST {
        return false;
    }
    let at = sum - FARTHEST;
    for position in vector.places(found.first, found.end) {
        if is_at(position, at, operand.weights) {
            return true;
        }
    }
    false
}

/// Whether the operand holds of the vector.
pub fn meets(vector: &VectorBytes, operand: &Operand, found: EntryRange) -> bool
    requires { NamesRange vector.now operand.now found }
    ensures { result ≡ is_met operand.now vector.now }
{
    if any_weight(operand.weights) {
        return found.first < found.end;
    }
    for position in vector.places(found.first, found.end) {
        if asked(operand.weights, position.weight()) {
            return true;
        }
    }
    false
}

/// The greatest position of the entries that were found.
pub fn last_in(vector: &VectorBytes, found: EntryRange) -> usize
    requires { found.end ≤ length vector.now }
    ensures each { (i : ℕ) (e : Entry) (p : PlaceOf) → found.first ≤ i → i < found.end
        → Contains (slice_index_or vector.now i e).positions p → p.at ≤ result }
    ensures small { result ≤ LAST_POSITION }
{
    let mut last: usize = 0;
    for position in vector.places(found.first, found.end) {
        last = last.max(position.at() as usize);
    }
    last
}

/// How many positions the entries have that were found.
pub fn count_positions(vector: &VectorBytes, found: EntryRange) -> usize {
    let mut count: usize = 0;
    for _ in vector.places(found.first, found.end) {
        count = count.saturating_add(1);
    }
    count
}

/// Lets a bit set be true also at each position of a fitting weight that the found entries have, moved.
pub fn set_found(
    bits: &mut BitSet,
    count: usize,
    vector: &VectorBytes,
    found: EntryRange,
    how: Move,
)
    requires { CanSet count bits.old vector.now found how.by }
    ensures value { HasSet count bits.old bits.new vector.now found how }
    ensures len { vec_len bits.new.words ≡ vec_len bits.old.words }
{
    for position in vector.places(found.first, found.end) {
        set_position(bits, count, position, how.weights, how.by);
    }
}
