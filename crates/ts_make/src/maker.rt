// Queries that are made of texts, without their stop operands.
ghost use Rattle.std.specs.Prelude.{◌≡◌, ◌≢◌, ◌≤◌, ◌<◌, ◌+◌, ℕ, List, [], ◌∷◌, ◌++◌, length, vec_len, OnOk, IfErr};
ghost use Rattle.ts_query.specs.Queries.{and_joint, phrase_joint, IsNear, IsSound};
ghost use Rattle.ts_query.specs.Building.{with_joint, nodes_among, AreSound};
ghost use Rattle.ts_config.specs.Known.{IsWithin};
ghost use Rattle.ts_make.specs.Groups.{Group, AreGroups};
ghost use Rattle.ts_make.specs.Trees.{phrase_of};
ghost use Rattle.ts_make.specs.Removal.{Sketch, stop, not_sketch, joint_sketch, query_left};
ghost use Rattle.ts_make.specs.Limits.{IsOnlyPast};
ghost use Rattle.ts_make.specs.Made.{HasGroups, sketched};
ghost use Rattle.ts_make.specs.Making.{link_joint, nodes_sketched, IsMaking, OperandFails};
ghost use Rattle.ts_make.specs.Inner.Making.{part as part_value, joined_part, kept_joint};

use crate::joining::{Marks, Way, near, write_groups};
use std::alloc::Global;
use ts_base::Weights;
use ts_config::{Config, Configs, Placed};
use ts_query::{NODE_LIMIT, QueryBuilder, QueryError, TsQuery};

/// What joins two queries.
#[derive(Clone, Copy, Debug)]
pub enum Link {
    /// Both hold.
    And,
    /// One of both holds.
    Or,
    /// The second is at this distance after the first.
    Phrase(u16),
}

/// What is left of a query's part.
#[derive(Clone, Copy, Debug)]
struct Part {
    /// Whether anything is left.
    there: bool,
    /// The distance that stop operands leave at its beginning.
    left: u16,
    /// The distance that they leave at its end.
    right: u16,
}

/// A part with these distances, 16384 for each above it.
fn near_part(there: bool, left: usize, right: usize) -> Part
    ensures { result ≡ part_value there left right }
{
    Part {
        there,
        left: near(left),
        right: near(right),
    }
}

/// What is left of two parts with a phrase operator between them.
fn phrase_part(distance: u16, x: Part, y: Part) -> Part
    ensures { result ≡ joined_part (phrase_joint distance) x y }
{
    let before = x.left as usize + distance as usize + y.left as usize;
    let behind = x.right as usize + distance as usize + y.right as usize;
    match (x.there, y.there) {
        (true, true) => near_part(true, x.left as usize, y.right as usize),
        (true, false) => near_part(true, x.left as usize, behind),
        (false, true) => near_part(true, before, y.right as usize),
        (false, false) => near_part(false, before, before),
    }
}

/// What is left of two parts with `&` or `|` between them.
fn pair_part(x: Part, y: Part) -> Part
    ensures { result ≡ joined_part and_joint x y }
{
    match (x.there, y.there) {
        (true, true) => near_part(true, 0, 0),
        (true, false) => x,
        (false, true) => y,
        (false, false) => {
            let greater = if x.left < y.left { y.left } else { x.left };
            near_part(false, greater as usize, greater as usize)
        }
    }
}

/// What is left of two parts with an operator between them.
fn joined(link: Link, x: Part, y: Part) -> Part
    ensures { result ≡ joined_part (link_joint link) x y }
{
    match link {
        Link::And | Link::Or => pair_part(x, y),
        Link::Phrase(distance) => phrase_part(distance, x, y),
    }
}

/// Takes the last part off.
fn take_part(parts: &mut Vec<Part>) -> Part
    requires { 1 ≤ vec_len parts.old }
    ensures { parts.old.items ≡ parts.new.items ++ result ∷ [] }
{
    match parts.pop() {
        Some(part) => part,
        None => unreachable!(),
    }
}

/// Writes the operator between two parts that are both left.
fn write_link(builder: &mut QueryBuilder, link: Link, x: Part, y: Part) -> Result<(), QueryError>
    requires { 2 ≤ length builder.old }
    ensures value { OnOk result
        (builder.new ≡ with_joint (kept_joint (link_joint link) x y) builder.old) }
    ensures refused { IfErr result (IsOnlyPast
        (nodes_among (with_joint (kept_joint (link_joint link) x y) builder.old))) }
{
    match link {
        Link::And => builder.and(),
        Link::Or => builder.or(),
        Link::Phrase(distance) => {
            let whole = distance as usize + x.right as usize + y.left as usize;
            builder.phrase(near(whole))
        }
    }
}

/// A query that is made of texts, node by node, each operator after its operands. What was made so
/// far is kept as a list of sketches, the last of them first; an operator takes the last of them.
/// An operand whose text has no lexemes is a stop operand, which is removed as it comes. After a
/// refusal it is of no more use.
#[derive(Drop)]
pub struct QueryMaker {
    /// What is left of the sketches, as trees.
    builder: QueryBuilder,
    /// For each sketch what is left of it.
    parts: Vec<Part>,
    /// How many nodes were removed.
    removed: usize,
}

impl QueryMaker {
    /// Nothing is made.
    pub fn new(alloc: Global) -> QueryMaker
        ensures { IsMaking result [] }
    {
        QueryMaker {
            builder: QueryBuilder::new(alloc),
            parts: Vec::new(alloc),
            removed: 0,
        }
    }

    /// Whether the nodes that were made are few enough.
    fn check(&self) -> Result<(), QueryError>
        requires { self.now.removed ≤ NODE_LIMIT }
        ensures few { OnOk result (self.now.removed + nodes_among self.now.builder < NODE_LIMIT) }
        ensures refused { IfErr result
            (IsOnlyPast (self.now.removed + nodes_among self.now.builder)) }
    {
        if self.removed + self.builder.node_count() >= NODE_LIMIT {
            return Err(QueryError::TooManyNodes);
        }
        Ok(())
    }

    /// Puts what is left of a new sketch after the others.
    fn add_part(&mut self, part: Part) -> Result<(), QueryError>
        requires { self.old.removed ≤ NODE_LIMIT }
        ensures parts { OnOk result (self.new.parts.items ≡ self.old.parts.items ++ part ∷ []) }
        ensures trees { self.new.builder ≡ self.old.builder }
        ensures removed { self.new.removed ≡ self.old.removed }
        ensures few { OnOk result (self.old.removed + nodes_among self.old.builder < NODE_LIMIT) }
        ensures refused { IfErr result
            (IsOnlyPast (self.old.removed + nodes_among self.old.builder)) }
    {
        match self.parts.push(part) {
            Ok(()) => self.check(),
            Err(_) => Err(QueryError::OutOfMemory),
        }
    }

    /// Makes a stop operand.
    pub fn stop(&mut self) -> Result<(), QueryError>
        requires { (ds : List Sketch) × IsMaking self.old ds }
        ensures value { OnOk result ((ds : List Sketch) → IsMaking self.old ds
            → IsMaking self.new (stop ∷ ds)) }
        ensures refused { IfErr result (λ e. (ds : List Sketch) → IsMaking self.old ds
            → IsOnlyPast (nodes_sketched (stop ∷ ds)) e) }
    {
        self.removed += 1;
        self.add_part(near_part(false, 0, 0))
    }

    /// Makes the phrase of the position groups of placed lexemes, of which there is one at least.
    fn write(&mut self, placed: Vec<Placed>, marks: Marks) -> Result<(), QueryError>
        requires { (ds : List Sketch) × IsMaking self.old ds }
        ensures value { OnOk result ((groups : List Group) (ds : List Sketch)
            → AreGroups placed.items groups → groups ≢ [] → IsMaking self.old ds
            → IsMaking self.new (sketched (phrase_of marks.weights marks.prefix groups) ∷ ds)) }
        ensures refused { IfErr result (λ e. (groups : List Group) (ds : List Sketch)
            → AreGroups placed.items groups → groups ≢ [] → IsMaking self.old ds
            → IsOnlyPast
            (nodes_sketched (sketched (phrase_of marks.weights marks.prefix groups) ∷ ds)) e) }
    {
        write_groups(&mut self.builder, Way::Phrase, marks, placed)?;
        self.add_part(near_part(true, 0, 0))
    }

    /// Makes an operand: the phrase of its text's position groups, or a stop operand where it has
    /// none.
    pub fn operand(
        &mut self,
        alloc: Global,
        configs: &Configs,
        config: &Config,
        text: &str,
        weights: Weights,
        prefix: bool,
    ) -> Result<(), QueryError>
        requires within { IsWithin configs.now config.now }
        requires making { (ds : List Sketch) × IsMaking self.old ds }
        ensures value { OnOk result ((groups : List Group)
            × HasGroups configs.now config.now text.now groups
            × ((ds : List Sketch) → IsMaking self.old ds
            → IsMaking self.new (sketched (phrase_of weights prefix groups) ∷ ds))) }
        ensures refused { IfErr result
            (OperandFails configs.now config.now text.now weights prefix self.old) }
    {
        let placed = configs.lexize_all(alloc, config, text)?;
        if placed.is_empty() {
            return self.stop();
        }
        self.write(placed, Marks { weights, prefix })
    }

    /// Negates the last sketch.
    pub fn not(&mut self) -> Result<(), QueryError>
        requires { (d : Sketch) × (ds : List Sketch) × IsMaking self.old (d ∷ ds) }
        ensures value { OnOk result ((d : Sketch) (ds : List Sketch) → IsMaking self.old (d ∷ ds)
            → IsMaking self.new (not_sketch d ∷ ds)) }
        ensures refused { IfErr result (λ e. (d : Sketch) (ds : List Sketch)
            → IsMaking self.old (d ∷ ds) → IsOnlyPast (nodes_sketched (not_sketch d ∷ ds)) e) }
    {
        if self.parts[self.parts.len() - 1].there {
            self.builder.not()?;
        } else {
            self.removed += 1;
        }
        self.check()
    }

    /// Joins the last two sketches by an operator.
    pub fn join(&mut self, link: Link) -> Result<(), QueryError>
        requires { (d : Sketch) × (e : Sketch) × (ds : List Sketch)
            × IsMaking self.old (e ∷ d ∷ ds) }
        ensures value { OnOk result ((d e : Sketch) (ds : List Sketch)
            → IsMaking self.old (e ∷ d ∷ ds)
            → IsMaking self.new (joint_sketch (link_joint link) d e ∷ ds)) }
        ensures refused { IfErr result (λ r. (d e : Sketch) (ds : List Sketch)
            → IsMaking self.old (e ∷ d ∷ ds)
            → IsOnlyPast (nodes_sketched (joint_sketch (link_joint link) d e ∷ ds)) r) }
    {
        let y = take_part(&mut self.parts);
        let x = take_part(&mut self.parts);
        let part = joined(link, x, y);
        if x.there && y.there {
            write_link(&mut self.builder, link, x, y)?;
            return self.add_part(part);
        }
        self.removed += 1;
        self.add_part(part)
    }

    /// What is left of the one sketch, if there is one; nothing is the empty query.
    pub fn finish(self) -> TsQuery
        requires { (ds : List Sketch) × (length ds ≤ 1) × IsMaking self ds }
        ensures value { (ds : List Sketch) → length ds ≤ 1 → IsMaking self ds
            → result ≡ query_left ds }
        ensures sound { IsSound result }
    {
        self.builder.finish()
    }
}
