// Whether a vector satisfies a query.
ghost use Rattle.std.specs.Prelude.{◌≡◌, ℕ, ◌+◌, ◌<◌, ◌≤◌, ◌↔◌, false, true, IsTrue, All, Contains, length};
ghost use Rattle.std.specs.Prelude.{slice_index_or, vec_len, vec_capacity};
ghost use Rattle.ts_base.specs.Vectors.{IsNormal};
ghost use Rattle.ts_query.specs.declared.query.Node.TheVariants.{Leaf, Phrase as PhraseNode};
ghost use Rattle.ts_query.specs.Queries.{Tree, operands_of};
ghost use Rattle.ts_match.specs.Meaning.{is_met, is_stripped as stripped_vector, places, HoldsSomewhere, Holds};
ghost use Rattle.ts_match.specs.Plan.{plan_of};
ghost use Rattle.ts_match.specs.declared.work.Place.TheVariants.{Within};
ghost use Rattle.ts_match.specs.declared.work.Step.{Step as StepOf};
ghost use Rattle.ts_match.specs.Inner.Plan.{next_of};
ghost use Rattle.ts_match.specs.Inner.Heights.{SameBitSets, HasBitSets};
ghost use Rattle.ts_match.specs.Inner.Pass.{AreBounds};
ghost use Rattle.ts_match.specs.Inner.Phrases.{IsPhraseOf, IsStep, HasOperand, HasRange, StandsWithin, StandsOutside};
ghost use Rattle.ts_match.specs.Inner.Phrases.{IsUnitNode, operand_at};

use crate::bit_sets::BitSets;
use crate::layout::holds_by_bit_sets;
use crate::pass::{Bounds, find_bounds, found_for};
use crate::phrase::{Phrase, is_needed, phrase_holds};
use crate::ranges::EntryRange;
use crate::seen::Seen;
use crate::work::{MatchWork, Place, Step};
use ts_query::{Node, Operand, TsQuery};
use ts_vector::{TsVector, VectorBytes};

/// Finds the lexemes of the operand of a leaf; false where there are none and the phrase needs one.
fn find_leaf(
    vector: &Seen,
    operands: &[Operand],
    bounds: &[Bounds],
    step: Step,
    found: &mut Vec<EntryRange>,
) -> bool
    requires room { length operands.now ≤ vec_len found.old }
    requires operand { HasOperand (length operands.now) step.node }
    requires bounds { AreBounds vector.now operands.now bounds.now }
    ensures here { HasRange vector.now operands.now found.new.items step }
    ensures others { (s : StepOf) → HasRange vector.now operands.now found.old.items s
        → HasRange vector.now operands.now found.new.items s }
    ensures lacking { result ≡ false → (k : ℕ) × (e : ℕ) × (step
        ≡ record { node = Leaf k; place = Within e true })
        × ((p : ℕ) → Contains (places (operand_at operands.now k) vector.now) p → ⊥) }
    ensures len { vec_len found.new ≡ vec_len found.old }
{
    let Node::Leaf(k) = step.node else {
        return true;
    };
    let k = k as usize;
    let range = found_for(vector, operands, bounds, k);
    found[k] = range;
    if range.first < range.end {
        return true;
    }
    !is_needed(step)
}

/// Finds the lexemes of the operands of a phrase; false where the phrase needs one that the vector lacks.
fn find_leaves(
    vector: &Seen,
    operands: &[Operand],
    bounds: &[Bounds],
    steps: &[Step],
    found: &mut Vec<EntryRange>,
) -> bool
    requires room { length operands.now ≤ vec_len found.old }
    requires bounds { AreBounds vector.now operands.now bounds.now }
    requires steps { All (IsStep (length operands.now)) steps.now }
    ensures found { IsTrue result
        → All (HasRange vector.now operands.now found.new.items) steps.now }
    ensures lacking { result ≡ false → IsNormal vector.now → (t : Tree)
        → IsPhraseOf operands.now steps.now t → ¬ HoldsSomewhere vector.now t }
    ensures len { vec_len found.new ≡ vec_len found.old }
{
    for step in steps {
        if !find_leaf(vector, operands, bounds, *step, found) {
            return false;
        }
    }
    true
}

/// Whether a phrase holds of a vector, by its steps.
fn phrase_value(
    vector: &Seen,
    operands: &[Operand],
    bounds: &[Bounds],
    steps: &[Step],
    found: &mut Vec<EntryRange>,
    bit_sets: &mut BitSets,
    truths: &mut Vec<bool>,
) -> bool
    requires bounds { AreBounds vector.now operands.now bounds.now }
    requires found { length operands.now ≤ vec_len found.old }
    requires steps { All (IsStep (length operands.now)) steps.now }
    requires truths { length steps.now ≤ vec_capacity truths.old }
    requires phrase { (t : Tree) × IsPhraseOf operands.now steps.now t }
    requires bit_sets { HasBitSets steps.now bit_sets.old.stack.items bit_sets.old.spare.items }
    ensures meaning { (t : Tree) → IsPhraseOf operands.now steps.now t
        → IsTrue result ↔ ((stripped_vector vector.now ≡ false) × HoldsSomewhere vector.now t) }
    ensures bit_sets { SameBitSets bit_sets.old.stack.items bit_sets.old.spare.items
        bit_sets.new.stack.items bit_sets.new.spare.items }
    ensures found { vec_len found.new ≡ vec_len found.old }
    ensures truths { vec_capacity truths.new ≡ vec_capacity truths.old }
{
    if vector.is_stripped() {
        return false;
    }
    if !find_leaves(vector, operands, bounds, steps, found) {
        return false;
    }
    let phrase = Phrase {
        vector,
        operands,
        found: found.as_slice(),
        steps,
    };
    match holds_by_bit_sets(&phrase, bit_sets) {
        Some(holds) => holds,
        None => phrase_holds(&phrase, truths),
    }
}

/// Whether the vector satisfies the part of a query whose steps these are: an operand outside phrases, or a phrase.
fn unit_value(
    vector: &Seen,
    operands: &[Operand],
    bounds: &[Bounds],
    steps: &[Step],
    node: Node,
    found: &mut Vec<EntryRange>,
    bit_sets: &mut BitSets,
    truths: &mut Vec<bool>,
) -> bool
    requires bounds { AreBounds vector.now operands.now bounds.now }
    requires kind { IsUnitNode node }
    requires operand { HasOperand (length operands.now) node }
    requires found { length operands.now ≤ vec_len found.old }
    requires steps { All (IsStep (length operands.now)) steps.now }
    requires truths { length steps.now ≤ vec_capacity truths.old }
    requires phrase { (n : ℕ) → node ≡ PhraseNode n
        → (t : Tree) × IsPhraseOf operands.now steps.now t }
    requires bit_sets { HasBitSets steps.now bit_sets.old.stack.items bit_sets.old.spare.items }
    ensures leaf { (k : ℕ) → node ≡ Leaf k → result
        ≡ is_met (operand_at operands.now k) vector.now }
    ensures phrase { (n : ℕ) (t : Tree) → node ≡ PhraseNode n → IsPhraseOf operands.now steps.now t
        → IsTrue result ↔ ((stripped_vector vector.now ≡ false) × HoldsSomewhere vector.now t) }
    ensures bit_sets { SameBitSets bit_sets.old.stack.items bit_sets.old.spare.items
        bit_sets.new.stack.items bit_sets.new.spare.items }
    ensures found { vec_len found.new ≡ vec_len found.old }
    ensures truths { vec_capacity truths.new ≡ vec_capacity truths.old }
{
    match node {
        Node::Leaf(k) => {
            let k = k as usize;
            let range = found_for(vector, operands, bounds, k);
            vector.meets(&operands[k], range)
        }
        Node::Phrase(_) => phrase_value(vector, operands, bounds, steps, found, bit_sets, truths),
        _ => unreachable!(),
    }
}

/// The first step from an index on that is outside phrases.
fn end_of_unit(steps: &[Step], from: usize) -> usize
    requires { from ≤ length steps.now }
    ensures from { from ≤ result }
    ensures within { result ≤ length steps.now }
    ensures inner { (k : ℕ) (d : StepOf) → from ≤ k → k < result
        → StandsWithin (slice_index_or steps.now k d).place }
    ensures last { (d : StepOf) → result < length steps.now
        → StandsOutside (slice_index_or steps.now result d).place }
{
    let mut end = from;
    while end < steps.len() {
        if let Place::Outside { .. } = steps[end].place {
            return end;
        }
        end += 1;
    }
    end
}

/// The step that is next where a node has this truth.
fn next_step(place: Place, value: bool) -> usize
    ensures { result ≡ next_of place value }
{
    match place {
        Place::Outside { on_true, on_false } => if value { on_true } else { on_false },
        Place::Within { .. } => 0,
    }
}

/// Whether the query holds, by its plan. An operand or a phrase is looked at only where what comes before it leaves
/// the answer open.
fn evaluate(
    query: &TsQuery,
    steps: &[Step],
    vector: &Seen,
    bounds: &[Bounds],
    found: &mut Vec<EntryRange>,
    bit_sets: &mut BitSets,
    truths: &mut Vec<bool>,
) -> bool
    requires plan { steps.now ≡ plan_of query.now }
    requires bounds { AreBounds vector.now (operands_of query.now) bounds.now }
    requires found { length steps.now ≤ vec_len found.old }
    requires truths { length steps.now ≤ vec_capacity truths.old }
    requires bit_sets { HasBitSets steps.now bit_sets.old.stack.items bit_sets.old.spare.items }
    ensures meaning { IsTrue result ↔ Holds query.now vector.now }
    ensures bit_sets { SameBitSets bit_sets.old.stack.items bit_sets.old.spare.items
        bit_sets.new.stack.items bit_sets.new.spare.items }
    ensures found { vec_len found.new ≡ vec_len found.old }
    ensures truths { vec_capacity truths.new ≡ vec_capacity truths.old }
{
    let operands = query.operands();
    if steps.is_empty() {
        return false;
    }
    let mut from = 0;
    while from < steps.len() {
        let end = end_of_unit(steps, from);
        let step = steps[end];
        let unit = &steps[from..end + 1];
        let value = unit_value(
            vector, operands, bounds, unit, step.node, found, bit_sets, truths,
        );
        from = next_step(step.place, value);
    }
    from == steps.len()
}

/// Whether the vector satisfies the query, by work that was made for the query.
///
/// ```
/// let vector = TsVector::parse(alloc, "cat:3 fat:2 the:1")?;
/// let query = TsQuery::parse(alloc, "fat <-> cat & !dog")?;
/// let mut work = MatchWork::new(alloc, &query)?;
/// assert!(rt; matches(&query, &mut work, &vector));
/// ```
pub fn matches(query: &TsQuery, work: &mut MatchWork, vector: &TsVector) -> bool
    requires { work.old ≡ plan_of query.now }
    ensures meaning { IsTrue result ↔ Holds query.now vector.now }
    ensures work { work.new ≡ work.old }
{
    evaluate(
        query,
        &work.steps,
        &Seen::listed(vector),
        &[],
        &mut work.found,
        &mut work.bit_sets,
        &mut work.truths,
    )
}

/// Whether the vector with this encoding satisfies the query, by work that was made for the query.
/// The encoding is read where it lies, and no memory is taken.
pub fn matches_encoded(query: &TsQuery, work: &mut MatchWork, vector: &VectorBytes) -> bool
    requires { work.old ≡ plan_of query.now }
    ensures meaning { IsTrue result ↔ Holds query.now vector.now }
    ensures work { work.new ≡ work.old }
{
    find_bounds(vector, query.operands(), &work.marks, &mut work.bounds);
    evaluate(
        query,
        &work.steps,
        &Seen::encoded(vector),
        work.bounds.as_slice(),
        &mut work.found,
        &mut work.bit_sets,
        &mut work.truths,
    )
}
