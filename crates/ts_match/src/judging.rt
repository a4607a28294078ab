// What can be said of a query when of each operand only a little is known.
ghost use Rattle.std.specs.Prelude.{◌≡◌, ◌+◌, ◌<◌, ◌≤◌, if◌then◌else◌, length, reverse, vec_len, vec_capacity};
ghost use Rattle.ts_base.specs.declared.Tri.TheVariants.{Maybe};
ghost use Rattle.ts_query.specs.Queries.{operands_of};
ghost use Rattle.ts_match.specs.Meaning.{asks_any};
ghost use Rattle.ts_match.specs.Judging.{least as least_of, greatest as greatest_of, opposite as opposite_of};
ghost use Rattle.ts_match.specs.Judging.{at_most_maybe as lowered_of, judged};
ghost use Rattle.ts_match.specs.Inner.Phrases.{IsStep, HasOperand};
ghost use Rattle.ts_match.specs.Plan.{plan_of};
ghost use Rattle.ts_match.specs.Inner.Weighing.{given_at, leaf_answer, negated_answer, weighed};

use crate::ranges::any_weight;
use crate::stack::{put, take_top};
use crate::work::{MatchWork, Place, Step};
use ts_base::Tri;
use ts_query::{Node, Operand, TsQuery};

/// The lesser of two answers; False is below Maybe, and Maybe below True.
fn least(a: Tri, b: Tri) -> Tri
    ensures { result ≡ least_of a b }
{
    match a {
        Tri::False => Tri::False,
        Tri::Maybe => at_most_maybe(b),
        Tri::True => b,
    }
}

/// The greater of two answers.
fn greatest(a: Tri, b: Tri) -> Tri
    ensures { result ≡ greatest_of a b }
{
    match a {
        Tri::True => Tri::True,
        Tri::Maybe => at_least_maybe(b),
        Tri::False => b,
    }
}

/// The answer for what is negated.
fn opposite(answer: Tri) -> Tri
    ensures { result ≡ opposite_of answer }
{
    match answer {
        Tri::False => Tri::True,
        Tri::Maybe => Tri::Maybe,
        Tri::True => Tri::False,
    }
}

/// The answer, but no more than Maybe.
fn at_most_maybe(answer: Tri) -> Tri
    ensures { result ≡ lowered_of answer }
{
    match answer {
        Tri::False => Tri::False,
        _ => Tri::Maybe,
    }
}

/// The answer, but no less than Maybe.
fn at_least_maybe(answer: Tri) -> Tri
    ensures { result ≡ greatest_of Maybe answer }
{
    match answer {
        Tri::True => Tri::True,
        _ => Tri::Maybe,
    }
}

/// Within a phrase a leaf is no more than Maybe.
fn leaf_at(place: Place, value: Tri) -> Tri
    ensures { result ≡ leaf_answer place value }
{
    match place {
        Place::Outside { .. } => value,
        Place::Within { .. } => at_most_maybe(value),
    }
}

/// Within a phrase a negation is Maybe.
fn negated_at(place: Place, operand: Tri) -> Tri
    ensures { result ≡ negated_answer place operand }
{
    match place {
        Place::Outside { .. } => opposite(operand),
        Place::Within { .. } => Tri::Maybe,
    }
}

/// What is given of an operand; where it asks for weights, True is no more than Maybe.
fn given(operands: &[Operand], values: &[Tri], node: Node) -> Tri
    requires operand { HasOperand (length operands.now) node }
    requires same { length values.now ≡ length operands.now }
    ensures { result ≡ given_at operands.now values.now node }
{
    match node {
        Node::Leaf(k) => {
            let k = k as usize;
            if any_weight(operands[k].weights) {
                return values[k];
            }
            at_most_maybe(values[k])
        }
        _ => Tri::Maybe,
    }
}

/// Lets a node at a place work on a stack of answers.
fn weigh(stack: &mut Vec<Tri>, step: Step, value: Tri)
    requires { vec_len stack.old < vec_capacity stack.old }
    ensures stack { reverse stack.new.items
        ≡ weighed step.place step.node value (reverse stack.old.items) }
    ensures len { vec_len stack.new ≤ vec_len stack.old + 1 }
    ensures capacity { vec_capacity stack.new ≡ vec_capacity stack.old }
{
    match step.node {
        Node::Leaf(_) => put(stack, leaf_at(step.place, value)),
        Node::Not => {
            let operand = take_top(stack, Tri::Maybe);
            put(stack, negated_at(step.place, operand));
        }
        Node::And | Node::Phrase(_) => {
            let right = take_top(stack, Tri::Maybe);
            let left = take_top(stack, Tri::Maybe);
            put(stack, least(left, right));
        }
        Node::Or => {
            let right = take_top(stack, Tri::Maybe);
            let left = take_top(stack, Tri::Maybe);
            put(stack, greatest(left, right));
        }
    }
}

/// The answer for a query, by its plan.
fn judge_steps(query: &TsQuery, steps: &[Step], values: &[Tri], stack: &mut Vec<Tri>) -> Tri
    requires plan { steps.now ≡ plan_of query.now }
    requires each { length values.now ≡ length (operands_of query.now) }
    requires room { length steps.now ≤ vec_capacity stack.old }
    ensures answer { result ≡ judged query.now values.now }
    ensures capacity { vec_capacity stack.new ≡ vec_capacity stack.old }
{
    let operands = query.operands();
    stack.clear();
    for step in steps {
        let value = given(operands, values, step.node);
        weigh(stack, *step, value);
    }
    take_top(stack, Tri::False)
}

/// The answer for a query, by a value for each operand in the order of the text and by work that was made for the
/// query.
pub fn judge(query: &TsQuery, work: &mut MatchWork, values: &[Tri]) -> Tri
    requires made { work.old ≡ plan_of query.now }
    requires each { length values.now ≡ length (operands_of query.now) }
    ensures answer { result ≡ judged query.now values.now }
    ensures work { work.new ≡ work.old }
{
    judge_steps(query, &work.steps, values, &mut work.answers)
}
