// Whether a phrase holds of a vector.
ghost use Rattle.std.specs.Prelude.{◌≡◌, ℕ, ◌+◌, ◌-◌, ◌^◌, ◌<◌, ◌≤◌, ◌↔◌, IsTrue, IfSome, true, All, Contains, length};
ghost use Rattle.std.specs.Prelude.{reverse, slice_index_or, vec_len, vec_capacity};
ghost use Rattle.ts_base.specs.Vectors.{Position as Place, Entry, IsNormal};
ghost use Rattle.ts_query.specs.Queries.{Tree};
ghost use Rattle.ts_match.specs.Meaning.{at, HoldsSomewhere};
ghost use Rattle.ts_query.specs.declared.query.Node.TheVariants.{Leaf};
ghost use Rattle.ts_match.specs.declared.work.Place.TheVariants.{Within};
ghost use Rattle.ts_match.specs.Inner.Plan.{offset_of, needs};
ghost use Rattle.ts_match.specs.Inner.Phrases.{IsPhraseOf, IsStep, IsPrepared, IsNeeded, HasRange, HoldsWith, CanTry};
ghost use Rattle.ts_match.specs.Inner.Phrases.{IsTried, place_from, leaf_value, truth_step};

use crate::ranges::{EntryRange, FARTHEST};
use crate::seen::{Kind, Seen};
use crate::stack::{put, take_top};
use crate::work::{Place as StepPlace, Step};
use ts_base::Position;
use ts_query::{Node, Operand};
use ts_vector::{Places, TsVector};

/// A phrase, and what its operands find in a vector.
#[derive(Drop)]
pub struct Phrase<'a> {
    /// The vector.
    pub vector: &'a Seen<'a>,
    /// The operands of the query.
    pub operands: &'a [Operand],
    /// What is found for each of them that the phrase has.
    pub found: &'a [EntryRange],
    /// The steps of the phrase.
    pub steps: &'a [Step],
}

/// Lets a node work on a stack of truths.
pub fn apply(stack: &mut Vec<bool>, node: Node, value: bool)
    requires { vec_len stack.old < vec_capacity stack.old }
    ensures stack { reverse stack.new.items ≡ truth_step node value (reverse stack.old.items) }
    ensures len { vec_len stack.new ≤ vec_len stack.old + 1 }
    ensures capacity { vec_capacity stack.new ≡ vec_capacity stack.old }
{
    match node {
        Node::Leaf(_) => put(stack, value),
        Node::Not => {
            let operand = take_top(stack, false);
            put(stack, !operand);
        }
        Node::And | Node::Phrase(_) => {
            let right = take_top(stack, false);
            let left = take_top(stack, false);
            put(stack, left && right);
        }
        Node::Or => {
            let right = take_top(stack, false);
            let left = take_top(stack, false);
            put(stack, left || right);
        }
    }
}

/// How far after the phrase's beginning a node is.
pub fn offset(place: StepPlace) -> usize
    ensures { result ≡ offset_of place }
{
    match place {
        StepPlace::Outside { .. } => 0,
        StepPlace::Within { offset, .. } => offset,
    }
}

/// Whether the operand of a leaf is at its offset, where the phrase's beginning is counted as `from`.
fn leaf_at(phrase: &Phrase, step: Step, from: usize) -> bool
    requires ready { IsPrepared phrase.now.vector.now phrase.now.operands.now phrase.now.found.now
        phrase.now.steps.now }
    requires step { IsStep (length phrase.now.operands.now) step }
    requires found { HasRange phrase.now.vector.now phrase.now.operands.now phrase.now.found.now
        step }
    requires small { from < 2 ^ 32 }
    ensures { result ≡ leaf_value phrase.now.vector.now phrase.now.operands.now from step }
{
    match step.node {
        Node::Leaf(k) => {
            let k = k as usize;
            let sum = from + offset(step.place);
            phrase
                .vector
                .stands(&phrase.operands[k], phrase.found[k], sum)
        }
        _ => false,
    }
}

/// Whether the phrase holds where its beginning is counted as `from`.
fn holds_at(phrase: &Phrase, stack: &mut Vec<bool>, from: usize) -> bool
    requires ready { IsPrepared phrase.now.vector.now phrase.now.operands.now phrase.now.found.now
        phrase.now.steps.now }
    requires room { length phrase.now.steps.now ≤ vec_capacity stack.old }
    requires small { from < 2 ^ 32 }
    ensures meaning { (t : Tree) → IsPhraseOf phrase.now.operands.now phrase.now.steps.now t
        → result ≡ at phrase.now.vector.now t (place_from t from) }
    ensures capacity { vec_capacity stack.new ≡ vec_capacity stack.old }
{
    stack.clear();
    for step in phrase.steps {
        let value = leaf_at(phrase, *step, from);
        apply(stack, step.node, value);
    }
    take_top(stack, false)
}

/// Whether the phrase holds where an operand of this offset is at one of the positions.
fn holds_with_any(
    phrase: &Phrase,
    stack: &mut Vec<bool>,
    positions: &[Position],
    offset: usize,
) -> bool
    requires { CanTry phrase.now (vec_capacity stack.old) offset }
    ensures tried { IsTried phrase.now (Contains positions.now) offset result }
    ensures capacity { vec_capacity stack.new ≡ vec_capacity stack.old }
{
    for position in positions {
        if holds_at(phrase, stack, position.at() as usize + FARTHEST - offset) {
            return true;
        }
    }
    false
}

/// Whether the phrase holds where an operand of this offset is at one of the positions of an encoding.
fn holds_with_places(phrase: &Phrase, stack: &mut Vec<bool>, places: Places, offset: usize) -> bool
    requires { CanTry phrase.now (vec_capacity stack.old) offset }
    ensures tried { IsTried phrase.now (Contains places.entry) offset result }
    ensures capacity { vec_capacity stack.new ≡ vec_capacity stack.old }
{
    for position in places {
        if holds_at(phrase, stack, position.at() as usize + FARTHEST - offset) {
            return true;
        }
    }
    false
}

/// Whether the phrase holds where an operand of this offset is at a position of what it found in a vector in memory.
fn holds_in_lists(
    phrase: &Phrase,
    stack: &mut Vec<bool>,
    vector: &TsVector,
    found: EntryRange,
    offset: usize,
) -> bool
    requires ready { IsPrepared phrase.now.vector.now phrase.now.operands.now phrase.now.found.now
        phrase.now.steps.now }
    requires room { length phrase.now.steps.now ≤ vec_capacity stack.old }
    requires near { offset ≤ FARTHEST }
    requires within { found.end ≤ length vector.now }
    ensures sound { (t : Tree) → IsPhraseOf phrase.now.operands.now phrase.now.steps.now t
        → IsTrue result → HoldsSomewhere phrase.now.vector.now t }
    ensures whole { (t : Tree) (k : ℕ) (e : Entry) (p : Place)
        → IsPhraseOf phrase.now.operands.now phrase.now.steps.now t → found.first ≤ k
        → k < found.end → Contains (slice_index_or vector.now k e).positions p
        → IsTrue (at phrase.now.vector.now t (place_from t (p.at + FARTHEST - offset)))
        → IsTrue result }
    ensures capacity { vec_capacity stack.new ≡ vec_capacity stack.old }
{
    for k in found.first..found.end {
        if holds_with_any(phrase, stack, vector.positions(k), offset) {
            return true;
        }
    }
    false
}

/// Whether the phrase holds where an operand of this offset is at a position of what it found.
fn holds_in(phrase: &Phrase, stack: &mut Vec<bool>, found: EntryRange, offset: usize) -> bool
    requires ready { IsPrepared phrase.now.vector.now phrase.now.operands.now phrase.now.found.now
        phrase.now.steps.now }
    requires room { length phrase.now.steps.now ≤ vec_capacity stack.old }
    requires near { offset ≤ FARTHEST }
    requires within { found.end ≤ length phrase.now.vector.now }
    ensures sound { (t : Tree) → IsPhraseOf phrase.now.operands.now phrase.now.steps.now t
        → IsTrue result → HoldsSomewhere phrase.now.vector.now t }
    ensures whole { (t : Tree) (k : ℕ) (e : Entry) (p : Place)
        → IsPhraseOf phrase.now.operands.now phrase.now.steps.now t → found.first ≤ k
        → k < found.end
        → Contains (slice_index_or phrase.now.vector.now k e).positions p
        → IsTrue (at phrase.now.vector.now t (place_from t (p.at + FARTHEST - offset)))
        → IsTrue result }
    ensures capacity { vec_capacity stack.new ≡ vec_capacity stack.old }
{
    match phrase.vector.kind() {
        Kind::Listed(vector) => holds_in_lists(phrase, stack, vector, found, offset),
        Kind::Encoded(vector) => {
            let places = vector.places(found.first, found.end);
            holds_with_places(phrase, stack, places, offset)
        }
    }
}

/// Whether the phrase holds where the operand of this step is at one of its positions.
fn holds_with(phrase: &Phrase, stack: &mut Vec<bool>, step: Step) -> bool
    requires ready { IsPrepared phrase.now.vector.now phrase.now.operands.now phrase.now.found.now
        phrase.now.steps.now }
    requires room { length phrase.now.steps.now ≤ vec_capacity stack.old }
    requires step { IsStep (length phrase.now.operands.now) step }
    requires found { HasRange phrase.now.vector.now phrase.now.operands.now phrase.now.found.now
        step }
    ensures sound { (t : Tree) → IsPhraseOf phrase.now.operands.now phrase.now.steps.now t
        → IsTrue result → HoldsSomewhere phrase.now.vector.now t }
    ensures whole { (t : Tree) → IsPhraseOf phrase.now.operands.now phrase.now.steps.now t
        → HoldsWith phrase.now.vector.now phrase.now.operands.now t step → IsTrue result }
    ensures capacity { vec_capacity stack.new ≡ vec_capacity stack.old }
{
    match step.node {
        Node::Leaf(k) => holds_in(phrase, stack, phrase.found[k as usize], offset(step.place)),
        _ => false,
    }
}

/// The number of the operand where the step is the leaf of one that the phrase needs.
fn needed_operand(step: Step) -> Option<u16>
    ensures { IfSome result (λ k. (e : ℕ) × (step
        ≡ record { node = Leaf k; place = Within e true })) }
{
    if let StepPlace::Within { needed: true, .. } = step.place {
        if let Node::Leaf(k) = step.node {
            return Some(k);
        }
    }
    None
}

/// Whether the phrase needs what is here.
pub fn is_needed(step: Step) -> bool
    ensures { result ≡ needs step.place }
{
    match step.place {
        StepPlace::Outside { .. } => false,
        StepPlace::Within { needed, .. } => needed,
    }
}

/// Of the operands that the phrase needs, the leaf of the one with the fewest positions.
fn rarest(phrase: &Phrase) -> Option<Step>
    requires { IsPrepared phrase.now.vector.now phrase.now.operands.now phrase.now.found.now
        phrase.now.steps.now }
    ensures { IfSome result (IsNeeded phrase.now.steps.now) }
{
    let mut best = None;
    let mut least = usize::MAX;
    for step in phrase.steps {
        if let Some(k) = needed_operand(*step) {
            let count = phrase.vector.count_positions(phrase.found[k as usize]);
            if count <= least {
                best = Some(*step);
                least = count;
            }
        }
    }
    best
}

/// Whether the phrase holds. An operand that it needs is wherever it holds, so the positions of the rarest such
/// operand are
/// tried, and where there is none those of every operand, and a beginning at which no operand is.
pub fn phrase_holds(phrase: &Phrase, stack: &mut Vec<bool>) -> bool
    requires ready { IsPrepared phrase.now.vector.now phrase.now.operands.now phrase.now.found.now
        phrase.now.steps.now }
    requires room { length phrase.now.steps.now ≤ vec_capacity stack.old }
    ensures meaning { (t : Tree) → IsPhraseOf phrase.now.operands.now phrase.now.steps.now t
        → IsTrue result ↔ HoldsSomewhere phrase.now.vector.now t }
    ensures capacity { vec_capacity stack.new ≡ vec_capacity stack.old }
{
    if let Some(step) = rarest(phrase) {
        return holds_with(phrase, stack, step);
    }
    if holds_at(phrase, stack, 0) {
        return true;
    }
    for step in phrase.steps {
        if holds_with(phrase, stack, *step) {
            return true;
        }
    }
    false
}
