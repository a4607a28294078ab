// What is made ready of a query before it is matched.
ghost use Rattle.std.specs.Prelude.{◌≡◌, ◌+◌, ◌*◌, ◌^◌, ◌<◌, ◌≤◌, ◌∷◌, IfOk, All, length, reverse, vec_len};
ghost use Rattle.std.specs.Prelude.{vec_capacity};
ghost use Rattle.ts_query.specs.Queries.{or_joint, and_joint, phrase_joint};
ghost use Rattle.ts_match.specs.Inner.Stacks.{total};
ghost use Rattle.ts_match.specs.declared.work.Due.TheVariants.{At};
ghost use Rattle.ts_match.specs.Plan.{plan_of, under_not, right_place};
ghost use Rattle.ts_match.specs.Inner.Plan.{left_widths_of, left_width, measured, distance, spread_on, left_due};
ghost use Rattle.ts_match.specs.Inner.Plan.{due_place, offset_of};

use crate::bit_sets::{BitSets, make_bit_sets};
use crate::pass::{Bounds, Mark, UNKNOWN, make_marks};
use crate::ranges::EntryRange;
use crate::stack::{put, take_top};
use std::alloc::{AllocError, Global};
use std::marker::Model;
use ts_base::Tri;
use ts_query::{Node, TsQuery};

/// Where a node of a query is.
#[derive(Clone, Copy, Debug, PartialEq, Eq)]
pub enum Place {
    /// Outside phrases; and the step that is next where the node is true, and where it is false.
    Outside { on_true: usize, on_false: usize },
    /// Within a phrase, this far after its beginning; and whether the phrase needs it.
    Within { offset: usize, needed: bool },
}

/// A node of a query and where it is.
#[derive(Clone, Copy, Debug, PartialEq, Eq)]
pub struct Step {
    /// The node.
    pub node: Node,
    /// Where it is.
    pub place: Place,
}

/// What is known of the place of a node that is still to be laid out.
#[derive(Clone, Copy, Debug, PartialEq, Eq)]
pub enum Due {
    /// The place.
    At(Place),
    /// The left operand of a `&` outside phrases; and the step that is next where it is false.
    /// Where it is true, the step after it is next.
    LeftOfAnd { on_false: usize },
    /// The left operand of a `|` outside phrases; and the step that is next where it is true.
    /// Where it is false, the step after it is next.
    LeftOfOr { on_true: usize },
}

/// Puts the width of a node on the stack in place of its operands' widths, and gives that of the left one.
#[tactic(auto, using(crate::proofs::Stacks::top_and_below))]
fn measure(stack: &mut Vec<u32>, node: Node) -> u32
    requires room { vec_len stack.old < vec_capacity stack.old }
    requires fits { total (reverse stack.old.items) + distance node < 2 ^ 32 }
    ensures left { result ≡ left_width node (reverse stack.old.items) }
    ensures stack { reverse stack.new.items ≡ measured node (reverse stack.old.items) }
    ensures sum { total (reverse stack.new.items) ≤ total (reverse stack.old.items) + distance
        node }
    ensures len { vec_len stack.new ≤ vec_len stack.old + 1 }
    ensures capacity { vec_capacity stack.new ≡ vec_capacity stack.old }
{
    match node {
        Node::Leaf(_) => {
            put(stack, 0);
            0
        }
        Node::Not => 0,
        Node::And | Node::Or => {
            let right = take_top(stack, 0);
            let left = take_top(stack, 0);
            put(stack, left.max(right));
            left
        }
        Node::Phrase(distance) => {
            let right = take_top(stack, 0);
            let left = take_top(stack, 0);
            put(stack, left + right + distance as u32);
            left
        }
    }
}

/// Where the operand of a `!` is.
fn place_under_not(place: Place) -> Place
    ensures { result ≡ under_not place }
{
    match place {
        Place::Outside { on_true, on_false } => Place::Outside {
            on_true: on_false,
            on_false: on_true,
        },
        Place::Within { offset, .. } => Place::Within {
            offset,
            needed: false,
        },
    }
}

/// What is known of the place of the left operand of a `&`.
fn left_of_and(place: Place) -> Due
    ensures { result ≡ left_due and_joint place }
{
    match place {
        Place::Outside { on_false, .. } => Due::LeftOfAnd { on_false },
        Place::Within { .. } => Due::At(place),
    }
}

/// What is known of the place of the left operand of a `|`.
fn left_of_or(place: Place) -> Due
    ensures { result ≡ left_due or_joint place }
{
    match place {
        Place::Outside { on_true, .. } => Due::LeftOfOr { on_true },
        Place::Within { .. } => Due::At(place_under_not(place)),
    }
}

/// Where the right operand of a `|` is.
fn right_of_or(place: Place) -> Place
    ensures { result ≡ right_place or_joint 0 place }
{
    match place {
        Place::Outside { .. } => place,
        Place::Within { .. } => place_under_not(place),
    }
}

/// Where the operands of a phrase operator are; the right one begins after the left one's width and the distance.
fn places_in_phrase(place: Place, width: u32, distance: u16) -> (Place, Place)
    requires { offset_of place < 2 ^ 63 }
    ensures left { At result.0 ≡ left_due (phrase_joint distance) place }
    ensures right { result.1 ≡ right_place (phrase_joint distance) width place }
{
    let behind = width as usize + distance as usize;
    match place {
        Place::Outside { .. } => (
            Place::Within {
                offset: 0,
                needed: true,
            },
            Place::Within {
                offset: behind,
                needed: true,
            },
        ),
        Place::Within { offset, needed } => (
            place,
            Place::Within {
                offset: offset + behind,
                needed,
            },
        ),
    }
}

/// Puts what is known of the places of a node's operands on the stack of those that are due, the right one on top.
fn spread(due: &mut Vec<Due>, node: Node, width: u32, place: Place)
    requires room { vec_len due.old + 2 ≤ vec_capacity due.old }
    requires near { offset_of place < 2 ^ 63 }
    ensures due { reverse due.new.items ≡ spread_on node width place (reverse due.old.items) }
    ensures len { vec_len due.new ≤ vec_len due.old + 2 }
    ensures capacity { vec_capacity due.new ≡ vec_capacity due.old }
{
    match node {
        Node::Leaf(_) => {}
        Node::Not => put(due, Due::At(place_under_not(place))),
        Node::And => {
            put(due, left_of_and(place));
            put(due, Due::At(place));
        }
        Node::Or => {
            put(due, left_of_or(place));
            put(due, Due::At(right_of_or(place)));
        }
        Node::Phrase(distance) => {
            let (left, right) = places_in_phrase(place, width, distance);
            put(due, Due::At(left));
            put(due, Due::At(right));
        }
    }
}

/// The place of a node, where the step after it has this index.
fn place_before(due: Due, behind: usize) -> Place
    ensures { result ≡ due_place behind due }
{
    match due {
        Due::At(place) => place,
        Due::LeftOfAnd { on_false } => Place::Outside {
            on_true: behind,
            on_false,
        },
        Due::LeftOfOr { on_true } => Place::Outside {
            on_true,
            on_false: behind,
        },
    }
}

/// For each node in postfix order the width of its left operand.
fn left_widths(alloc: Global, query: &TsQuery) -> Result<Vec<u32>, AllocError>
    ensures { IfOk result (λ widths. widths.items ≡ left_widths_of query.now) }
{
    let nodes = query.nodes();
    let mut stack = Vec::with_capacity(alloc, nodes.len())?;
    let mut widths = Vec::with_capacity(alloc, nodes.len())?;
    for node in nodes {
        let left = measure(&mut stack, *node);
        widths.push_reserved(left);
    }
    Ok(widths)
}

/// The nodes of a query, each with its place. The places are found from the last node back.
/// After the last step comes the end where the query holds, and after that the one where it does not.
fn lay_out(alloc: Global, query: &TsQuery, widths: &[u32]) -> Result<Vec<Step>, AllocError>
    requires { widths.now ≡ left_widths_of query.now }
    ensures { IfOk result (λ steps. steps.items ≡ plan_of query.now) }
{
    let nodes = query.nodes();
    let count = nodes.len();
    let root = Due::At(Place::Outside {
        on_true: count,
        on_false: count + 1,
    });
    let mut due = Vec::with_capacity(alloc, count + 2)?;
    put(&mut due, root);
    let mut steps = Vec::with_capacity(alloc, count)?;
    for i in (0..count).rev() {
        let place = place_before(take_top(&mut due, root), i + 1);
        let node = nodes[i];
        spread(&mut due, node, widths[i], place);
        steps.push_reserved(Step { node, place });
    }
    steps.reverse();
    Ok(steps)
}

/// Room to match one query, and where each of its nodes is.
#[derive(Debug, Drop)]
pub struct MatchWork {
    pub(crate) steps: Vec<Step>,
    pub(crate) marks: Vec<Mark>,
    pub(crate) bounds: Vec<Bounds>,
    pub(crate) found: Vec<EntryRange>,
    pub(crate) bit_sets: BitSets,
    pub(crate) truths: Vec<bool>,
    pub(crate) answers: Vec<Tri>,
}

impl Model for MatchWork {
    ghost use Rattle.std.specs.Prelude.{List, ◌≤◌, length, vec_len, vec_capacity};
    ghost use Rattle.ts_match.specs.declared.work.Step.{Step};
    ghost use Rattle.ts_match.specs.Inner.Heights.{HasBitSets};

    ghost Value = { List Step };

    ghost view = { λ work. work.steps.items };

    ghost invariant = { λ work. (length work.steps.items ≤ vec_len work.found) ×
        (length work.steps.items ≤ vec_capacity work.truths) × (length work.steps.items ≤ vec_capacity work.answers) ×
        HasBitSets work.steps.items work.bit_sets.stack.items work.bit_sets.spare.items };
}

impl MatchWork {
    /// Stacks that are large enough for the query, a bit set of places for each level of its phrases, and its
    /// operands in the order of a walk.
    pub fn new(alloc: Global, query: &TsQuery) -> Result<MatchWork, AllocError>
        ensures { IfOk result (λ work. work ≡ plan_of query.now) }
    {
        let widths = left_widths(alloc, query)?;
        let steps = lay_out(alloc, query, &widths)?;
        let room = steps.len();
        let none = EntryRange { first: 0, end: 0 };
        let operands = query.operands();
        Ok(MatchWork {
            marks: make_marks(alloc, operands)?,
            bounds: vec![in alloc; UNKNOWN; operands.len()]?,
            found: vec![in alloc; none; room]?,
            bit_sets: make_bit_sets(alloc, &steps)?,
            truths: Vec::with_capacity(alloc, room)?,
            answers: Vec::with_capacity(alloc, room)?,
            steps,
        })
    }
}
