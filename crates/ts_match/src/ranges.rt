// Which lexemes of a vector an operand names, and where they are.
ghost use Rattle.std.specs.Prelude.{◌≡◌, ◌≢◌, ℕ, ◌<◌, ◌≤◌, ◌==◌, ◌&&◌, true, false, length, AllPairs, slice_index_or};
ghost use Rattle.std.specs.Ordering.{nat_cmp};
ghost use Rattle.std.specs.Cmp.Lexicographic.{slice_cmp};
ghost use Rattle.std.specs.List.{list_any, starts_with};
ghost use Rattle.std.specs.Prelude.{nat_eq};
ghost use Rattle.std.specs.declared.cmp.Ordering.TheVariants.{Less};
ghost use Rattle.ts_base.specs.Lexemes.{IsBefore};
ghost use Rattle.ts_base.specs.Vectors.{Entry, IsNormal};
ghost use Rattle.ts_match.specs.Meaning.{asks_any, asks_for, fits as fits_weight, is_met};
ghost use Rattle.ts_match.specs.Meaning.{is_stripped as stripped_vector};
ghost use Rattle.ts_match.specs.Inner.Ranges.{NamesRange, stands_at};

use std::cmp::Ordering;
use ts_base::{Lexeme, Position, Weight, Weights};
use ts_query::Operand;
use ts_vector::TsVector;

/// No phrase reaches back as far: it has fewer than 32768 nodes, and a distance is at most 16384.
pub const FARTHEST: usize = 536_870_912;

/// The lexemes of a vector at the indices from `first` on and below `end`.
#[derive(Clone, Copy, Debug, PartialEq, Eq)]
pub struct EntryRange {
    /// The index of the first one.
    pub first: usize,
    /// The index after the last one.
    pub end: usize,
}

/// The index of the first lexeme that is not before this one.
fn first_from(vector: &TsVector, lexeme: &Lexeme) -> usize
    ensures within { result ≤ length vector.now }
    ensures below { (k : ℕ) (d : Entry) → k < result
        → IsBefore (slice_index_or vector.now k d).lexeme lexeme.now }
    ensures above { (k : ℕ) (d : Entry) → result ≤ k → k < length vector.now
        → slice_cmp nat_cmp (slice_index_or vector.now k d).lexeme lexeme.now ≢ Less }
{
    let mut low = 0;
    let mut high = vector.count();
    while low < high {
        let mid = low + (high - low) / 2;
        match vector.lexeme(mid).cmp(lexeme.as_str()) {
            Ordering::Less => low = mid + 1,
            _ => high = mid,
        }
    }
    low
}

/// Whether a lexeme begins with the prefix.
pub fn begins_with(lexeme: &str, prefix: &Lexeme) -> bool
    ensures { result ≡ starts_with nat_eq lexeme.now prefix.now }
{
    let bytes = lexeme.as_bytes();
    bytes.starts_with(prefix.as_str().as_bytes())
}

/// The index of the first lexeme from `first` on that does not begin with the prefix.
fn end_of_prefix(vector: &TsVector, prefix: &Lexeme, first: usize) -> usize
    requires within { first ≤ length vector.now }
    requires above { (k : ℕ) (d : Entry) → first ≤ k → k < length vector.now
        → slice_cmp nat_cmp (slice_index_or vector.now k d).lexeme prefix.now ≢ Less }
    ensures from { first ≤ result }
    ensures within { result ≤ length vector.now }
    ensures begin { (k : ℕ) (d : Entry) → first ≤ k → k < result
        → starts_with nat_eq (slice_index_or vector.now k d).lexeme prefix.now ≡ true }
    ensures behind { (k : ℕ) (d : Entry) → result ≤ k → k < length vector.now
        → starts_with nat_eq (slice_index_or vector.now k d).lexeme prefix.now ≡ false }
{
    let mut low = first;
    let mut high = vector.count();
    while low < high {
        let mid = low + (high - low) / 2;
        if begins_with(vector.lexeme(mid), prefix) {
            low = mid + 1;
        } else {
            high = mid;
        }
    }
    low
}

/// The index after the lexeme where it is at `first`, and else `first`.
fn end_of_lexeme(vector: &TsVector, lexeme: &Lexeme, first: usize) -> usize
    requires within { first ≤ length vector.now }
    requires above { (k : ℕ) (d : Entry) → first ≤ k → k < length vector.now
        → slice_cmp nat_cmp (slice_index_or vector.now k d).lexeme lexeme.now ≢ Less }
    ensures from { first ≤ result }
    ensures within { result ≤ length vector.now }
    ensures same { (k : ℕ) (d : Entry) → first ≤ k → k < result
        → (slice_index_or vector.now k d).lexeme ≡ lexeme.now }
    ensures behind { (k : ℕ) (d : Entry) → result ≤ k → k < length vector.now
        → (slice_index_or vector.now k d).lexeme ≢ lexeme.now }
{
    if first < vector.count() {
        if vector.lexeme(first) == lexeme.as_str() {
            return first + 1;
        }
    }
    first
}

/// The lexemes that an operand names.
pub fn find(vector: &TsVector, operand: &Operand) -> EntryRange
    ensures { NamesRange vector.now operand.now result }
{
    let first = first_from(vector, &operand.lexeme);
    if operand.prefix {
        let end = end_of_prefix(vector, &operand.lexeme, first);
        return EntryRange { first, end };
    }
    let end = end_of_lexeme(vector, &operand.lexeme, first);
    EntryRange { first, end }
}

/// Whether no weight is asked for, so that each fits.
pub fn any_weight(weights: Weights) -> bool
    ensures { result ≡ asks_any weights }
{
    !(weights.a || weights.b || weights.c || weights.d)
}

/// Whether this weight is asked for.
pub fn asked(weights: Weights, weight: Weight) -> bool
    ensures { result ≡ asks_for weights weight }
{
    match weight {
        Weight::A => weights.a,
        Weight::B => weights.b,
        Weight::C => weights.c,
        Weight::D => weights.d,
    }
}

/// Whether a position of this weight fits.
pub fn fits(weights: Weights, weight: Weight) -> bool
    ensures { result ≡ fits_weight weights weight }
{
    any_weight(weights) || asked(weights, weight)
}

/// Whether one of the positions has this number and a fitting weight.
fn has_position(positions: &[Position], at: usize, weights: Weights) -> bool
    requires { AllPairs (λ p q. p.at < q.at) positions.now }
    ensures { result ≡ list_any (λ p. p.at == at && fits_weight weights p.weight) positions.now }
{
    let mut low = 0;
    let mut high = positions.len();
    while low < high {
        let mid = low + (high - low) / 2;
        let position = positions[mid];
        let here = position.at() as usize;
        if here == at {
            return fits(weights, position.weight());
        }
        if here < at {
            low = mid + 1;
        } else {
            high = mid;
        }
    }
    false
}

/// Whether the operand has a position where `sum` says.
pub fn stands(vector: &TsVector, operand: &Operand, found: EntryRange, sum: usize) -> bool
    requires normal { IsNormal vector.now }
    requires found { NamesRange vector.now operand.now found }
    ensures { result ≡ stands_at operand.now vector.now sum }
{
    if sum < FARTHEST {
        return false;
    }
    let at = sum - FARTHEST;
    for k in found.first..found.end {
        if has_position(vector.positions(k), at, operand.weights) {
            return true;
        }
    }
    false
}

/// Whether one of the positions has a weight that is asked for.
fn has_weight(positions: &[Position], weights: Weights) -> bool
    ensures { result ≡ list_any (λ p. asks_for weights p.weight) positions.now }
{
    positions.iter().any(|p| asked(weights, p.weight()))
}

/// Whether the operand holds of the vector.
pub fn meets(vector: &TsVector, operand: &Operand, found: EntryRange) -> bool
    requires { NamesRange vector.now operand.now found }
    ensures { result ≡ is_met operand.now vector.now }
{
    if any_weight(operand.weights) {
        return found.first < found.end;
    }
    for k in found.first..found.end {
        if has_weight(vector.positions(k), operand.weights) {
            return true;
        }
    }
    false
}

/// Whether the vector has a lexeme, and none has a position.
pub fn is_stripped(vector: &TsVector) -> bool
    ensures stripped { result ≡ stripped_vector vector.now }
    ensures normal { IsNormal vector.now }
{
    let count = vector.count();
    if count == 0 {
        return false;
    }
    for k in 0..count {
        if !vector.positions(k).is_empty() {
            return false;
        }
    }
    true
}

/// How many positions the found lexemes have.
pub fn count_positions(vector: &TsVector, found: EntryRange) -> usize
    requires { found.end ≤ length vector.now }
{
    let mut count: usize = 0;
    for k in found.first..found.end {
        count = count.saturating_add(vector.positions(k).len());
    }
    count
}
