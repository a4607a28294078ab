// A query that is written node by node.
ghost use Rattle.std.specs.Prelude.{◌≡◌, ◌≤◌, ◌<◌, [], ◌∷◌, length, OnOk, OnErr, IfErr};
ghost use Rattle.ts_query.specs.Queries.{or_joint, and_joint, phrase_joint, leaf, IsNear, IsSound};
ghost use Rattle.ts_query.specs.Tokens.{operand};
ghost use Rattle.ts_query.specs.Postfix.{top};
ghost use Rattle.ts_query.specs.Building.{with_not, with_joint, nodes_among, AreSound, IsOnlyFull};
ghost use Rattle.ts_query.specs.Inner.Parsing.{link_joint};

use crate::error::QueryError;
use crate::parser::Link;
use crate::query::{Builder, Operand, TsQuery};
use crate::{GREATEST_DISTANCE, NODE_LIMIT};
use std::alloc::Global;
use std::marker::Model;
use ts_base::{LONGEST_LEXEME, Lexeme, Weights};

/// A query that is written node by node, each operator after its operands. What was written so far is kept as a
/// list of trees;
/// an operator takes the last of them. A refused node leaves it unchanged.
#[derive(Drop)]
pub struct QueryBuilder {
    /// The nodes and operands so far.
    lists: Builder,
}

impl Model for QueryBuilder {
    ghost use Rattle.std.specs.Prelude.{List};
    ghost use Rattle.ts_query.specs.Queries.{Tree};
    ghost use Rattle.ts_query.specs.Building.{trees_code};

    ghost Value = { List Tree };

    ghost coded = { trees_code };

    ghost use Rattle.ts_query.specs.Inner.Built.{trees_in, IsWritten};

    ghost view = { λ b. trees_in b.lists };

    ghost invariant = { λ b. IsWritten b.lists (trees_in b.lists) };
}

impl QueryBuilder {
    /// Nothing is written.
    pub fn new(alloc: Global) -> QueryBuilder
        ensures { result ≡ [] }
    {
        QueryBuilder {
            lists: Builder::new(alloc),
        }
    }

    /// How many nodes were written.
    pub fn node_count(&self) -> usize
        ensures value { result ≡ nodes_among self.now }
        ensures sound { AreSound self.now }
    {
        self.lists.nodes.as_slice().len()
    }

    /// Writes an operand, a tree of its own. No weights stand for any weight.
    pub fn operand(
        &mut self,
        lexeme: Lexeme,
        weights: Weights,
        prefix: bool,
    ) -> Result<(), QueryError>
        ensures value { OnOk result (self.new ≡ leaf (operand lexeme weights prefix) ∷ self.old) }
        ensures room { OnOk result (nodes_among self.new < NODE_LIMIT) }
        ensures same { OnErr result (self.new ≡ self.old) }
        ensures refused { IfErr result (IsOnlyFull self.old) }
    {
        prove!(lexeme.as_str().len() <= LONGEST_LEXEME);
        if self.node_count() + 1 >= NODE_LIMIT {
            return Err(QueryError::TooManyNodes);
        }
        self.lists.leaf(Operand {
            lexeme,
            weights,
            prefix,
        })?;
        Ok(())
    }

    /// Writes `!` after the last tree.
    pub fn not(&mut self) -> Result<(), QueryError>
        requires { 1 ≤ length self.old }
        ensures value { OnOk result (self.new ≡ with_not self.old) }
        ensures room { OnOk result (nodes_among self.new < NODE_LIMIT) }
        ensures same { OnErr result (self.new ≡ self.old) }
        ensures refused { IfErr result (IsOnlyFull self.old) }
    {
        if self.node_count() + 1 >= NODE_LIMIT {
            return Err(QueryError::TooManyNodes);
        }
        self.lists.not()?;
        Ok(())
    }

    /// Writes `&` after the last two trees.
    pub fn and(&mut self) -> Result<(), QueryError>
        requires { 2 ≤ length self.old }
        ensures value { OnOk result (self.new ≡ with_joint and_joint self.old) }
        ensures room { OnOk result (nodes_among self.new < NODE_LIMIT) }
        ensures same { OnErr result (self.new ≡ self.old) }
        ensures refused { IfErr result (IsOnlyFull self.old) }
    {
        self.link(Link::And)
    }

    /// Writes `|` after the last two trees.
    pub fn or(&mut self) -> Result<(), QueryError>
        requires { 2 ≤ length self.old }
        ensures value { OnOk result (self.new ≡ with_joint or_joint self.old) }
        ensures room { OnOk result (nodes_among self.new < NODE_LIMIT) }
        ensures same { OnErr result (self.new ≡ self.old) }
        ensures refused { IfErr result (IsOnlyFull self.old) }
    {
        self.link(Link::Or)
    }

    /// Writes a phrase operator after the last two trees.
    pub fn phrase(&mut self, distance: u16) -> Result<(), QueryError>
        requires near { distance ≤ GREATEST_DISTANCE }
        requires trees { 2 ≤ length self.old }
        ensures value { OnOk result (self.new ≡ with_joint (phrase_joint distance) self.old) }
        ensures room { OnOk result (nodes_among self.new < NODE_LIMIT) }
        ensures same { OnErr result (self.new ≡ self.old) }
        ensures refused { IfErr result (IsOnlyFull self.old) }
    {
        self.link(Link::Phrase(distance))
    }

    /// Writes a binary operator after the last two trees.
    fn link(&mut self, link: Link) -> Result<(), QueryError>
        requires near { IsNear (link_joint link) }
        requires trees { 2 ≤ length self.old }
        ensures value { OnOk result (self.new ≡ with_joint (link_joint link) self.old) }
        ensures room { OnOk result (nodes_among self.new < NODE_LIMIT) }
        ensures same { OnErr result (self.new ≡ self.old) }
        ensures refused { IfErr result (IsOnlyFull self.old) }
    {
        if self.node_count() + 1 >= NODE_LIMIT {
            return Err(QueryError::TooManyNodes);
        }
        self.lists.link(link)?;
        Ok(())
    }

    /// The query whose tree was written; the empty query where nothing was.
    pub fn finish(self) -> TsQuery
        requires { length self ≤ 1 }
        ensures value { result ≡ top self }
        ensures sound { IsSound result }
    {
        self.lists.finish()
    }
}
