// Whether a phrase holds of a vector, by a bit set of places for each of its nodes.
ghost use Rattle.std.specs.Prelude.{◌≡◌, ◌∷◌, [], ℕ, ◌+◌, ◌-◌, ◌*◌, ◌<◌, ◌≤◌, ◌==◌, ◌&&◌, ◌||◌, ◌↔◌, if◌then◌else◌};
ghost use Rattle.std.specs.Prelude.{IsTrue, IfSome, All, AllPairs, Contains, length, reverse, slice_index_or, vec_len};
ghost use Rattle.std.specs.List.{list_any};
ghost use Rattle.ts_base.specs.Vectors.{Position as PlaceOf, Entry, IsNormal};
ghost use Rattle.ts_query.specs.declared.query.Node.TheVariants.{Leaf};
ghost use Rattle.ts_query.specs.Queries.{Tree};
ghost use Rattle.ts_match.specs.Meaning.{fits as fits_weight, width, HoldsSomewhere};
ghost use Rattle.ts_match.specs.Inner.Plan.{offset_of};
ghost use Rattle.ts_match.specs.declared.bit_sets.BitSet.{BitSet as BitSetOf};
ghost use Rattle.ts_query.specs.declared.query.Node.TheVariants.{Not as NotNode, And as AndNode, Or as OrNode};
ghost use Rattle.ts_match.specs.Inner.Setting.{CanSet, HasSet};
ghost use Rattle.ts_match.specs.Inner.BitSets.{bit_value, truths_at, beginning, IsWide};
ghost use Rattle.ts_match.specs.Inner.Heights.{height_behind, HasRoom, HaveRoom, AreWide, SameBitSets, HasBitSets};
ghost use Rattle.ts_match.specs.Inner.Phrases.{IsPhraseOf, IsPrepared, IsLaidOut, SaysWhere, HasOperand, HasRange};
ghost use Rattle.ts_match.specs.Inner.Phrases.{HasPlaces, leaf_value, truth_step};

use crate::bit_sets::{
    BitSet, BitSets, WIDEST, WORD, clear, is_somewhere, join, meet, negate, set,
};
use crate::phrase::{Phrase, offset};
use crate::ranges::{EntryRange, FARTHEST, fits};
use crate::stack::put;
use crate::work::Step;
use ts_base::{LAST_POSITION, Position, Weights};
use ts_query::Node;
use ts_vector::TsVector;

/// How far after its beginning an operand of the phrase is at most.
fn reach_of(phrase: &Phrase) -> usize
    requires { IsPrepared phrase.now.vector.now phrase.now.operands.now phrase.now.found.now
        phrase.now.steps.now }
    ensures near { All (λ s. offset_of s.place ≤ result) phrase.now.steps.now }
    ensures least { (reach : ℕ) → All (λ s. offset_of s.place ≤ reach) phrase.now.steps.now
        → result ≤ reach }
    ensures far { result ≤ FARTHEST }
    ensures width { (t : Tree) → IsPhraseOf phrase.now.operands.now phrase.now.steps.now t
        → result ≡ width t }
{
    let mut reach: usize = 0;
    for step in phrase.steps {
        reach = reach.max(offset(step.place));
    }
    reach
}

/// The last of some positions; 0 where there is none.
fn last_position(positions: &[Position]) -> usize
    requires { AllPairs (λ p q. p.at < q.at) positions.now }
    ensures each { (p : PlaceOf) → Contains positions.now p → p.at ≤ result }
    ensures small { result ≤ LAST_POSITION }
{
    let count = positions.len();
    if count == 0 {
        return 0;
    }
    let last = positions[count - 1];
    last.at() as usize
}

/// The greatest position of the lexemes that were found.
pub fn last_in(vector: &TsVector, found: EntryRange) -> usize
    requires normal { IsNormal vector.now }
    requires within { found.end ≤ length vector.now }
    ensures each { (i : ℕ) (e : Entry) (p : PlaceOf) → found.first ≤ i → i < found.end
        → Contains (slice_index_or vector.now i e).positions p → p.at ≤ result }
    ensures small { result ≤ LAST_POSITION }
{
    let mut last: usize = 0;
    for k in found.first..found.end {
        last = last.max(last_position(vector.positions(k)));
    }
    last
}

/// The greatest position of the lexemes that the operand of this step names; 0 where it has none.
fn last_of(phrase: &Phrase, step: Step) -> usize
    requires normal { IsNormal phrase.now.vector.now }
    requires same { length phrase.now.operands.now ≤ length phrase.now.found.now }
    requires operand { HasOperand (length phrase.now.operands.now) step.node }
    requires found { HasRange phrase.now.vector.now phrase.now.operands.now phrase.now.found.now
        step }
    ensures each { (reach count : ℕ) → result + reach < WORD * count
        → HasPlaces phrase.now.vector.now phrase.now.found.now reach count step }
    ensures small { result ≤ LAST_POSITION }
{
    match step.node {
        Node::Leaf(k) => phrase.vector.last_in(phrase.found[k as usize]),
        _ => 0,
    }
}

/// The greatest position of the lexemes that the operands of a phrase name.
fn last_place(phrase: &Phrase) -> usize
    requires { IsPrepared phrase.now.vector.now phrase.now.operands.now phrase.now.found.now
        phrase.now.steps.now }
    ensures each { (reach count : ℕ) → result + reach < WORD * count
        → All (HasPlaces phrase.now.vector.now phrase.now.found.now reach count)
        phrase.now.steps.now }
    ensures small { result ≤ LAST_POSITION }
{
    let mut last: usize = 0;
    for step in phrase.steps {
        last = last.max(last_of(phrase, *step));
    }
    last
}

/// How positions are put into a bit set: those of a fitting weight, moved by `by`.
#[derive(Clone, Copy, Debug)]
pub struct Move {
    /// The weights that fit.
    pub weights: Weights,
    /// How far each is moved.
    pub by: usize,
}

/// Lets a bit set be true also at a position, moved by `by`, if it has a fitting weight.
pub fn set_position(
    bits: &mut BitSet,
    count: usize,
    position: Position,
    weights: Weights,
    by: usize,
)
    requires wide { IsWide count bits.old }
    requires near { by ≤ FARTHEST }
    requires within { position.at + by < WORD * count }
    ensures value { (j : ℕ) → bit_value count bits.new j
        ≡ (bit_value count bits.old j || ((j == position.at + by) && fits_weight weights
        position.weight)) }
    ensures len { vec_len bits.new.words ≡ vec_len bits.old.words }
{
    if fits(weights, position.weight()) {
        set(bits, count, position.at() as usize + by);
    }
}

/// Lets a bit set be true also at each of the positions of a fitting weight, moved by `by`.
fn set_positions(
    bits: &mut BitSet,
    count: usize,
    positions: &[Position],
    weights: Weights,
    by: usize,
)
    requires wide { IsWide count bits.old }
    requires near { by ≤ FARTHEST }
    requires within { (p : PlaceOf) → Contains positions.now p → p.at + by < WORD * count }
    ensures value { (j : ℕ) → bit_value count bits.new j
        ≡ (bit_value count bits.old j || list_any (λ p. (j == p.at + by) && fits_weight weights
        p.weight) positions.now) }
    ensures len { vec_len bits.new.words ≡ vec_len bits.old.words }
{
    for position in positions {
        set_position(bits, count, *position, weights, by);
    }
}

/// Lets a bit set be true also at each position of a fitting weight that the found entries have, moved.
pub fn set_found(bits: &mut BitSet, count: usize, vector: &TsVector, found: EntryRange, how: Move)
    requires ready { CanSet count bits.old vector.now found how.by }
    requires order { found.first ≤ found.end }
    ensures value { HasSet count bits.old bits.new vector.now found how }
    ensures len { vec_len bits.new.words ≡ vec_len bits.old.words }
{
    for i in found.first..found.end {
        set_positions(bits, count, vector.positions(i), how.weights, how.by);
    }
}

/// Lets a bit set be true where the operand of this step is, and nowhere else.
fn lay(phrase: &Phrase, step: Step, k: u16, reach: usize, count: usize, bits: &mut BitSet)
    requires normal { IsNormal phrase.now.vector.now }
    requires same { length phrase.now.operands.now ≤ length phrase.now.found.now }
    requires far { reach ≤ FARTHEST }
    requires leaf { step.node ≡ Leaf k }
    requires placed { IsLaidOut phrase.now.vector.now phrase.now.operands.now phrase.now.found.now
        reach count step }
    requires wide { IsWide count bits.old }
    ensures value { (j : ℕ) → bit_value count bits.new j
        ≡ leaf_value phrase.now.vector.now phrase.now.operands.now (beginning reach j) step }
    ensures len { vec_len bits.new.words ≡ vec_len bits.old.words }
{
    let weights = phrase.operands[k as usize].weights;
    let found = phrase.found[k as usize];
    let by = reach - offset(step.place);
    clear(bits, count);
    phrase
        .vector
        .set_found(bits, count, found, Move { weights, by });
}

/// Puts the bit set of an operand on the stack.
fn put_leaf(phrase: &Phrase, step: Step, k: u16, reach: usize, count: usize, bit_sets: &mut BitSets)
    requires normal { IsNormal phrase.now.vector.now }
    requires same { length phrase.now.operands.now ≤ length phrase.now.found.now }
    requires far { reach ≤ FARTHEST }
    requires leaf { step.node ≡ Leaf k }
    requires placed { IsLaidOut phrase.now.vector.now phrase.now.operands.now phrase.now.found.now
        reach count step }
    requires wide { AreWide count bit_sets.old.stack.items bit_sets.old.spare.items }
    requires room { 0 < length bit_sets.old.spare.items }
    ensures height { length bit_sets.new.stack.items ≡ length bit_sets.old.stack.items + 1 }
    ensures same { SameBitSets bit_sets.old.stack.items bit_sets.old.spare.items
        bit_sets.new.stack.items bit_sets.new.spare.items }
    ensures truths { (j : ℕ) → truths_at count j (reverse bit_sets.new.stack.items)
        ≡ leaf_value phrase.now.vector.now phrase.now.operands.now (beginning reach j) step ∷
        truths_at count j (reverse bit_sets.old.stack.items) }
{
    let Some(mut bits) = bit_sets.spare.pop() else {
        unreachable!();
    };
    lay(phrase, step, k, reach, count, &mut bits);
    put(&mut bit_sets.stack, bits);
}

/// Negates the bit set on top of the stack.
fn negate_top(bit_sets: &mut BitSets, count: usize)
    requires wide { AreWide count bit_sets.old.stack.items bit_sets.old.spare.items }
    requires operand { 0 < length bit_sets.old.stack.items }
    ensures height { length bit_sets.new.stack.items ≡ length bit_sets.old.stack.items }
    ensures same { SameBitSets bit_sets.old.stack.items bit_sets.old.spare.items
        bit_sets.new.stack.items bit_sets.new.spare.items }
    ensures truths { (value : _) (j : ℕ) → truths_at count j (reverse bit_sets.new.stack.items)
        ≡ truth_step NotNode value (truths_at count j (reverse bit_sets.old.stack.items)) }
{
    let Some(mut bits) = bit_sets.stack.pop() else {
        unreachable!();
    };
    negate(&mut bits, count);
    put(&mut bit_sets.stack, bits);
}

/// Lets a bit set be true where both are, or where one of both is.
fn combine(bits: &mut BitSet, other: &BitSet, count: usize, both: bool)
    requires wide { IsWide count bits.old }
    requires other { IsWide count other.now }
    ensures value { (j : ℕ) → bit_value count bits.new j
        ≡ (if both then (bit_value count bits.old j && bit_value count other.now j)
        else (bit_value count bits.old j || bit_value count other.now j)) }
    ensures len { vec_len bits.new.words ≡ vec_len bits.old.words }
{
    if both {
        meet(bits, other, count);
    } else {
        join(bits, other, count);
    }
}

/// Puts one bit set in place of the two on top of the stack, true where both are or where one is.
fn join_top(bit_sets: &mut BitSets, count: usize, both: bool)
    requires wide { AreWide count bit_sets.old.stack.items bit_sets.old.spare.items }
    requires operands { 1 < length bit_sets.old.stack.items }
    ensures height { length bit_sets.new.stack.items ≡ length bit_sets.old.stack.items - 1 }
    ensures same { SameBitSets bit_sets.old.stack.items bit_sets.old.spare.items
        bit_sets.new.stack.items bit_sets.new.spare.items }
    ensures truths { (value : _) (j : ℕ) → truths_at count j (reverse bit_sets.new.stack.items)
        ≡ truth_step (if both then AndNode else OrNode) value (truths_at count j (reverse
        bit_sets.old.stack.items)) }
{
    let Some(right) = bit_sets.stack.pop() else {
        unreachable!();
    };
    let Some(mut left) = bit_sets.stack.pop() else {
        unreachable!();
    };
    combine(&mut left, &right, count, both);
    put(&mut bit_sets.stack, left);
    bit_sets.spare.push_reserved(right);
}

/// Lets a step of a phrase work on the stack of bit sets.
fn work_on(phrase: &Phrase, step: Step, reach: usize, count: usize, bit_sets: &mut BitSets)
    requires normal { IsNormal phrase.now.vector.now }
    requires same { length phrase.now.operands.now ≤ length phrase.now.found.now }
    requires far { reach ≤ FARTHEST }
    requires placed { IsLaidOut phrase.now.vector.now phrase.now.operands.now phrase.now.found.now
        reach count step }
    requires wide { AreWide count bit_sets.old.stack.items bit_sets.old.spare.items }
    requires room { HasRoom (length bit_sets.old.stack.items + length bit_sets.old.spare.items)
        step.node (length bit_sets.old.stack.items) }
    ensures height { length bit_sets.new.stack.items
        ≡ height_behind step.node (length bit_sets.old.stack.items) }
    ensures same { SameBitSets bit_sets.old.stack.items bit_sets.old.spare.items
        bit_sets.new.stack.items bit_sets.new.spare.items }
    ensures truths { (j : ℕ) → truths_at count j (reverse bit_sets.new.stack.items)
        ≡ truth_step step.node (leaf_value phrase.now.vector.now phrase.now.operands.now
        (beginning reach j) step)
        (truths_at count j (reverse bit_sets.old.stack.items)) }
{
    match step.node {
        Node::Leaf(k) => put_leaf(phrase, step, k, reach, count, bit_sets),
        Node::Not => negate_top(bit_sets, count),
        Node::And | Node::Phrase(_) => join_top(bit_sets, count, true),
        Node::Or => join_top(bit_sets, count, false),
    }
}

/// Lets no bit set be in use.
fn free_all(bit_sets: &mut BitSets)
    ensures free { bit_sets.new.stack.items ≡ [] }
    ensures same { SameBitSets bit_sets.old.stack.items bit_sets.old.spare.items
        bit_sets.new.stack.items bit_sets.new.spare.items }
{
    while let Some(bits) = bit_sets.stack.pop() {
        bit_sets.spare.push_reserved(bits);
    }
}

/// Leaves the bit set of the phrase alone on the stack.
fn fill_bit_sets(phrase: &Phrase, reach: usize, count: usize, bit_sets: &mut BitSets)
    requires prepared { IsPrepared phrase.now.vector.now phrase.now.operands.now
        phrase.now.found.now phrase.now.steps.now }
    requires far { reach ≤ FARTHEST }
    requires width { (t : Tree) → IsPhraseOf phrase.now.operands.now phrase.now.steps.now t
        → reach ≡ width t }
    requires placed { All (IsLaidOut phrase.now.vector.now phrase.now.operands.now
        phrase.now.found.now reach count) phrase.now.steps.now }
    requires enough { reach < WORD * count }
    requires wide { AreWide count bit_sets.old.stack.items bit_sets.old.spare.items }
    requires room { HaveRoom (length bit_sets.old.stack.items + length bit_sets.old.spare.items)
        phrase.now.steps.now 0 }
    ensures same { SameBitSets bit_sets.old.stack.items bit_sets.old.spare.items
        bit_sets.new.stack.items bit_sets.new.spare.items }
    ensures bits { (t : Tree)
        → IsPhraseOf phrase.now.operands.now phrase.now.steps.now t
        → (bits : BitSetOf) × (bit_sets.new.stack.items ≡ bits ∷ [])
        × SaysWhere phrase.now.vector.now t count bits }
{
    free_all(bit_sets);
    for step in phrase.steps {
        work_on(phrase, *step, reach, count, bit_sets);
    }
}

/// Whether the phrase holds, by a bit set for each node; None where its widths add up to more than bit sets are
/// made for.
pub fn holds_by_bit_sets(phrase: &Phrase, bit_sets: &mut BitSets) -> Option<bool>
    requires prepared { IsPrepared phrase.now.vector.now phrase.now.operands.now
        phrase.now.found.now phrase.now.steps.now }
    requires phrase { (t : Tree) × IsPhraseOf phrase.now.operands.now phrase.now.steps.now t }
    requires bit_sets { HasBitSets phrase.now.steps.now bit_sets.old.stack.items
        bit_sets.old.spare.items }
    ensures meaning { IfSome result (λ holds. (t : Tree)
        → IsPhraseOf phrase.now.operands.now phrase.now.steps.now t
        → IsTrue holds ↔ HoldsSomewhere phrase.now.vector.now t) }
    ensures none { (t : Tree) → IsPhraseOf phrase.now.operands.now phrase.now.steps.now t
        → result ≡ None ↔ (WIDEST < width t) }
    ensures same { SameBitSets bit_sets.old.stack.items bit_sets.old.spare.items
        bit_sets.new.stack.items bit_sets.new.spare.items }
{
    let reach = reach_of(phrase);
    if reach > WIDEST {
        return None;
    }
    let count = (last_place(phrase) + reach) / WORD + 1;
    fill_bit_sets(phrase, reach, count, bit_sets);
    let Some(bits) = bit_sets.stack.last() else {
        unreachable!();
    };
    Some(is_somewhere(bits, count))
}
