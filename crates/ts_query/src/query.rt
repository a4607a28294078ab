// A query in memory.
ghost use Rattle.std.specs.Prelude.{◌≡◌, ◌<◌, ◌≤◌, List, [], ◌∷◌, ◌++◌, map, OnOk, OnErr, IfOk, IfErr, length};
ghost use Rattle.std.specs.String.{string_bytes};
ghost use Rattle.ts_query.specs.Queries.{Query, or_joint, and_joint, phrase_joint, leaf, IsNear, HasLexeme, IsSound};
ghost use Rattle.ts_query.specs.Queries.{operands_of};
ghost use Rattle.ts_query.specs.Tokens.{operand};
ghost use Rattle.ts_query.specs.Postfix.{Item, operand_item, not_item, joint_item, joint_node, postfix_of, nodes_for};
ghost use Rattle.ts_query.specs.Inner.Parsing.{link_joint, word_operand, entry_item};
ghost use Rattle.ts_query.specs.Printing.{printed};
ghost use Rattle.ts_query.specs.Refusals.{IsReadAs, IsRefused};

use crate::error::QueryError;
use crate::parser::{Entry, Link, Word};
use crate::print::print;
use crate::reader::read;
use crate::{GREATEST_DISTANCE, NODE_LIMIT};
use std::alloc::{AllocError, Global};
use std::marker::Model;
use ts_base::{LONGEST_LEXEME, Lexeme, LexemeError, Weights};

/// A lexeme that a vector is asked for. With weights, one of its positions has one of them; `prefix` asks for a
/// lexeme that begins so.
#[derive(Clone, Debug, Drop)]
pub struct Operand {
    /// The lexeme.
    pub lexeme: Lexeme,
    /// The weights; none stand for any.
    pub weights: Weights,
    /// Whether it asks for a lexeme that begins so.
    pub prefix: bool,
}

/// A node of a query's tree. The nodes are in postfix order, so each is after its operands.
#[derive(Clone, Copy, Debug, PartialEq, Eq)]
pub enum Node {
    /// The operand with this number, from 0 on in the order of the text.
    Leaf(u16),
    /// What holds where the operand doesn't.
    Not,
    /// What holds where both operands hold.
    And,
    /// What holds where one of both operands holds.
    Or,
    /// A phrase with this distance.
    Phrase(u16),
}

/// A query: a tree of operands, or the empty query.
#[derive(Debug, Drop)]
pub struct TsQuery {
    /// The tree's nodes in postfix order.
    nodes: Vec<Node>,
    /// The operands in the order of the text.
    operands: Vec<Operand>,
}

impl Model for TsQuery {
    ghost use Rattle.std.specs.Prelude.{◌≡◌};
    ghost use Rattle.ts_query.specs.Queries.{Query, operands_of};
    ghost use Rattle.ts_query.specs.Postfix.{query_code, query_of, IsStored};

    ghost Value = { Query };

    ghost coded = { query_code };

    ghost view = { λ q. query_of q.operands.items q.nodes.items };

    ghost invariant = { λ q. IsStored (query_of q.operands.items q.nodes.items) q.operands.items
        q.nodes.items };
}

/// The node of an operator.
fn node_of(link: Link) -> Node
    ensures { result ≡ joint_node (link_joint link) }
{
    match link {
        Link::And => Node::And,
        Link::Or => Node::Or,
        Link::Phrase(distance) => Node::Phrase(distance),
    }
}

/// The two lists of a query that is being made.
#[derive(Drop)]
pub struct Builder {
    /// The nodes so far.
    pub nodes: Vec<Node>,
    /// The operands so far.
    pub operands: Vec<Operand>,
}

impl Builder {
    ghost use Rattle.ts_query.specs.Inner.Built.{operands_from, IsBuilt};

    /// Two empty lists.
    pub fn new(alloc: Global) -> Builder
        ensures { IsBuilt result [] }
    {
        Builder {
            nodes: Vec::new(alloc),
            operands: Vec::new(alloc),
        }
    }

    /// Adds an operand.
    pub fn leaf(&mut self, operand: Operand) -> Result<(), AllocError>
        requires { length self.old.operands.items < 65536 }
        ensures built { OnOk result
            ((is : List Item) → IsBuilt self.old is
            → IsBuilt self.new (is ++ operand_item operand ∷ [])) }
        ensures same { OnErr result
            ((is : List Item) → IsBuilt self.old is → IsBuilt self.new is) }
    {
        let number = self.operands.as_slice().len() as u16;
        self.nodes.push(Node::Leaf(number))?;
        let Ok(()) = self.operands.push(operand) else {
            self.nodes.truncate(self.nodes.len() - 1);
            return Err(AllocError);
        };
        Ok(())
    }

    /// Adds `!`, after its operand.
    pub fn not(&mut self) -> Result<(), AllocError>
        ensures built { OnOk result
            ((is : List Item) → IsBuilt self.old is → IsBuilt self.new (is ++ not_item ∷ [])) }
        ensures same { OnErr result
            ((is : List Item) → IsBuilt self.old is → IsBuilt self.new is) }
    {
        self.nodes.push(Node::Not)?;
        Ok(())
    }

    /// Adds a binary operator, after its operands.
    pub fn link(&mut self, link: Link) -> Result<(), AllocError>
        ensures built { OnOk result
            ((is : List Item) → IsBuilt self.old is
            → IsBuilt self.new (is ++ joint_item (link_joint link) ∷ [])) }
        ensures same { OnErr result
            ((is : List Item) → IsBuilt self.old is → IsBuilt self.new is) }
    {
        self.nodes.push(node_of(link))?;
        Ok(())
    }

    /// Adds all nodes of a query.
    fn copy(&mut self, query: &TsQuery) -> Result<(), AllocError>
        requires { (is : List Item) × IsBuilt self.old is
            × (length (operands_from is) < NODE_LIMIT) }
        ensures items { OnOk result
            ((is : List Item) → IsBuilt self.old is
            → IsBuilt self.new (is ++ postfix_of query.now)) }
        ensures sound { IsSound query.now }
    {
        let mut next = 0;
        for node in query.nodes() {
            match *node {
                Node::Leaf(_) => {
                    self.leaf(query.operands()[next].clone()?)?;
                    next += 1;
                }
                Node::Not => self.not()?,
                Node::And => self.link(Link::And)?,
                Node::Or => self.link(Link::Or)?,
                Node::Phrase(distance) => self.link(Link::Phrase(distance))?,
            }
        }
        Ok(())
    }

    /// The query of the lists.
    pub fn finish(self) -> TsQuery
        requires { (q : Query) × IsBuilt self (postfix_of q) × IsSound q }
        ensures value { (q : Query) → IsBuilt self (postfix_of q) → result ≡ q }
        ensures sound { IsSound result }
    {
        TsQuery {
            nodes: self.nodes,
            operands: self.operands,
        }
    }
}

/// The operand that a text has, whose lexeme is short enough.
fn operand_of(alloc: Global, word: &Word) -> Result<Operand, AllocError>
    requires { HasLexeme (word_operand word.now) }
    ensures { IfOk result (λ o. o ≡ word_operand word.now) }
{
    match Lexeme::new(alloc, word.lexeme.as_str()) {
        Ok(lexeme) => Ok(Operand {
            lexeme,
            weights: word.weights,
            prefix: word.prefix,
        }),
        Err(LexemeError::OutOfMemory) => Err(AllocError),
        Err(LexemeError::Empty | LexemeError::TooLong) => unreachable!(),
    }
}

impl TsQuery {
    ghost use Rattle.ts_query.specs.Joining.{joined_queries, negated_query, IsOnlyTooLarge};

    /// The empty query, which holds of nothing.
    pub fn empty(alloc: Global) -> TsQuery
        ensures value { result ≡ None }
        ensures sound { IsSound result }
    {
        TsQuery {
            nodes: Vec::new(alloc),
            operands: Vec::new(alloc),
        }
    }

    /// The nodes of the tree in postfix order; none for the empty query.
    pub fn nodes(&self) -> &[Node]
        ensures value { result.now ≡ nodes_for self.now }
        ensures sound { IsSound self.now }
    {
        self.nodes.as_slice()
    }

    /// The operands in the order of the text.
    pub fn operands(&self) -> &[Operand]
        ensures value { result.now ≡ operands_of self.now }
        ensures sound { IsSound self.now }
    {
        self.operands.as_slice()
    }

    /// The query that a text stands for. A fault of syntax comes before all other refusals, a distance that is too
    /// large
    /// before a lexeme that is too long, and both before too many nodes.
    ///
    /// ```rust
    /// let query = TsQuery::parse(alloc, "(cat|rat)&fat:*")?;
    /// assert_eq!(rt; query.to_text(alloc)?.as_str(), "( 'cat' | 'rat' ) & 'fat':*");
    /// ```
    pub fn parse(alloc: Global, text: &str) -> Result<TsQuery, QueryError>
        ensures value { IfOk result (IsReadAs text.now) }
        ensures refused { IfErr result (IsRefused text.now) }
    {
        let outcome = match read(alloc, text)? {
            Ok(outcome) => outcome,
            Err(at) => return Err(QueryError::Syntax { at }),
        };
        if let Some(at) = outcome.far {
            return Err(QueryError::DistanceTooLarge { at });
        }
        if let Some(at) = outcome.long {
            return Err(QueryError::LexemeTooLong { at });
        }
        if outcome.entries.as_slice().len() >= NODE_LIMIT {
            return Err(QueryError::TooManyNodes);
        }
        let query = TsQuery::from_entries(alloc, outcome.entries.as_slice())?;
        Ok(query)
    }

    /// The query with this postfix list.
    fn from_entries(alloc: Global, entries: &[Entry]) -> Result<TsQuery, AllocError>
        requires { (q : Query) × (map entry_item entries.now ≡ postfix_of q) × IsSound q }
        ensures value { IfOk result
            (λ r. (q : Query) → map entry_item entries.now ≡ postfix_of q → r ≡ q) }
        ensures sound { IfOk result IsSound }
    {
        let mut builder = Builder::new(alloc);
        for entry in entries {
            match entry {
                Entry::Operand(word) => {
                    let operand = operand_of(alloc, word)?;
                    builder.leaf(operand)?;
                }
                Entry::Not => builder.not()?,
                Entry::Joined(link) => builder.link(*link)?,
            }
        }
        Ok(builder.finish())
    }

    /// The query of one operand. No weights stand for any weight.
    pub fn operand(
        alloc: Global,
        lexeme: &Lexeme,
        weights: Weights,
        prefix: bool,
    ) -> Result<TsQuery, AllocError>
        ensures value { IfOk result (λ q. q ≡ Some (leaf (operand lexeme.now weights prefix))) }
        ensures sound { IfOk result IsSound }
    {
        prove!(lexeme.as_str().len() <= LONGEST_LEXEME);
        let lexeme = lexeme.clone()?;
        let mut builder = Builder::new(alloc);
        builder.leaf(Operand {
            lexeme,
            weights,
            prefix,
        })?;
        Ok(builder.finish())
    }

    /// What holds where both hold.
    pub fn and(&self, alloc: Global, other: &TsQuery) -> Result<TsQuery, QueryError>
        ensures value { IfOk result (λ q. q ≡ joined_queries and_joint self.now other.now) }
        ensures sound { IfOk result IsSound }
        ensures refused { IfErr result
            (IsOnlyTooLarge (joined_queries and_joint self.now other.now)) }
    {
        self.joined(alloc, Link::And, other)
    }

    /// What holds where one of both holds.
    pub fn or(&self, alloc: Global, other: &TsQuery) -> Result<TsQuery, QueryError>
        ensures value { IfOk result (λ q. q ≡ joined_queries or_joint self.now other.now) }
        ensures sound { IfOk result IsSound }
        ensures refused { IfErr result
            (IsOnlyTooLarge (joined_queries or_joint self.now other.now)) }
    {
        self.joined(alloc, Link::Or, other)
    }

    /// What holds where this query is followed by the other at the distance.
    pub fn phrase(
        &self,
        alloc: Global,
        other: &TsQuery,
        distance: u16,
    ) -> Result<TsQuery, QueryError>
        requires { distance ≤ GREATEST_DISTANCE }
        ensures value { IfOk result
            (λ q. q ≡ joined_queries (phrase_joint distance) self.now other.now) }
        ensures sound { IfOk result IsSound }
        ensures refused { IfErr result
            (IsOnlyTooLarge (joined_queries (phrase_joint distance) self.now other.now)) }
    {
        self.joined(alloc, Link::Phrase(distance), other)
    }

    /// What holds where this query doesn't; the empty query stays empty.
    pub fn not(&self, alloc: Global) -> Result<TsQuery, QueryError>
        ensures value { IfOk result (λ q. q ≡ negated_query self.now) }
        ensures sound { IfOk result IsSound }
        ensures refused { IfErr result (IsOnlyTooLarge (negated_query self.now)) }
    {
        if self.nodes().is_empty() {
            return Ok(TsQuery::empty(alloc));
        }
        if self.nodes().len() + 1 >= NODE_LIMIT {
            return Err(QueryError::TooManyNodes);
        }
        let mut builder = Builder::new(alloc);
        builder.copy(self)?;
        builder.not()?;
        Ok(builder.finish())
    }

    /// The printed form: each lexeme in quotes, then its marks, brackets only where they are needed.
    pub fn to_text(&self, alloc: Global) -> Result<String, AllocError>
        ensures { IfOk result (λ text. string_bytes text ≡ printed self.now) }
    {
        if self.nodes().is_empty() {
            return Ok(String::new(alloc));
        }
        let text = print(alloc, self.nodes(), self.operands())?;
        Ok(text)
    }

    /// Both queries with an operator between them; beside an empty query the other.
    fn joined(&self, alloc: Global, link: Link, other: &TsQuery) -> Result<TsQuery, QueryError>
        requires { IsNear (link_joint link) }
        ensures value { IfOk result (λ q. q ≡ joined_queries (link_joint link) self.now other.now) }
        ensures sound { IfOk result IsSound }
        ensures refused { IfErr result
            (IsOnlyTooLarge (joined_queries (link_joint link) self.now other.now)) }
    {
        if self.nodes().is_empty() {
            let query = other.copied(alloc)?;
            return Ok(query);
        }
        if other.nodes().is_empty() {
            let query = self.copied(alloc)?;
            return Ok(query);
        }
        if self.nodes().len() + other.nodes().len() + 1 >= NODE_LIMIT {
            return Err(QueryError::TooManyNodes);
        }
        let mut builder = Builder::new(alloc);
        builder.copy(self)?;
        builder.copy(other)?;
        builder.link(link)?;
        Ok(builder.finish())
    }

    /// The same query.
    fn copied(&self, alloc: Global) -> Result<TsQuery, QueryError>
        ensures value { IfOk result (λ q. q ≡ self.now) }
        ensures sound { IfOk result IsSound }
        ensures refused { IfErr result (λ e. e ≡ QueryError.OutOfMemory) }
    {
        let mut builder = Builder::new(alloc);
        builder.copy(self)?;
        Ok(builder.finish())
    }
}
