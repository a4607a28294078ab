// Queries that are made of texts.
ghost use Rattle.std.specs.Prelude.{◌≡◌, ◌≤◌, IfOk, IfErr};
ghost use Rattle.ts_query.specs.Queries.{IsSound};
ghost use Rattle.ts_config.specs.Known.{IsWithin};
ghost use Rattle.ts_make.specs.Made.{IsMadeOf, RemakingFails, IsMadeQuery, MadeQueryFails, IsJoined, JoinedFails};
ghost use Rattle.ts_make.specs.Made.{IsPlainQuery, PlainQueryFails, IsPhraseQuery, PhraseQueryFails};
ghost use Rattle.ts_make.specs.Inner.Joins.{groups_query};

use crate::joining::{Marks, Way, write_groups};
use crate::maker::{Link, QueryMaker};
use std::alloc::Global;
use ts_base::Weights;
use ts_config::{Config, Configs};
use ts_query::{Node, QueryBuilder, QueryError, TsQuery};

/// The query that a text is made, or why there is none.
pub type MadeQuery = Result<TsQuery, QueryError>;

/// The query whose operands are texts, each made by a configuration of these, without its stop
/// operands.
fn remade(alloc: Global, configs: &Configs, config: &Config, query: &TsQuery) -> MadeQuery
    requires { IsWithin configs.now config.now }
    ensures value { IfOk result (IsMadeOf configs.now config.now query.now) }
    ensures sound { IfOk result IsSound }
    ensures refused { IfErr result (RemakingFails configs.now config.now query.now) }
{
    let mut maker = QueryMaker::new(alloc);
    let mut next = 0;
    for node in query.nodes() {
        match *node {
            Node::Leaf(_) => {
                let operand = &query.operands()[next];
                next += 1;
                let text = operand.lexeme.as_str();
                maker.operand(
                    alloc,
                    configs,
                    config,
                    text,
                    operand.weights,
                    operand.prefix,
                )?;
            }
            Node::Not => maker.not()?,
            Node::And => maker.join(Link::And)?,
            Node::Or => maker.join(Link::Or)?,
            Node::Phrase(distance) => maker.join(Link::Phrase(distance))?,
        }
    }
    Ok(maker.finish())
}

/// The query that a text in the grammar of queries is made by a configuration of these: each
/// operand is the phrase of its own text's position groups, with its weights and its mark, and
/// operands without lexemes are removed. 32768 nodes or more are too many, counted before the
/// removal, with one for each such operand.
pub fn to_tsquery(alloc: Global, configs: &Configs, config: &Config, text: &str) -> MadeQuery
    requires { IsWithin configs.now config.now }
    ensures value { IfOk result (IsMadeQuery configs.now config.now text.now) }
    ensures sound { IfOk result IsSound }
    ensures refused { IfErr result (MadeQueryFails configs.now config.now text.now) }
{
    let query = TsQuery::parse(alloc, text)?;
    remade(alloc, configs, config, &query)
}

/// The position groups of a text by a configuration of these, joined.
fn groups_joined(
    alloc: Global,
    configs: &Configs,
    config: &Config,
    text: &str,
    way: Way,
) -> MadeQuery
    requires { IsWithin configs.now config.now }
    ensures value { IfOk result (IsJoined (groups_query way) configs.now config.now text.now) }
    ensures sound { IfOk result IsSound }
    ensures refused { IfErr result
        (JoinedFails (groups_query way) configs.now config.now text.now) }
{
    let placed = configs.lexize_all(alloc, config, text)?;
    let marks = Marks {
        weights: Weights::default(),
        prefix: false,
    };
    let mut builder = QueryBuilder::new(alloc);
    write_groups(&mut builder, way, marks, placed)?;
    Ok(builder.finish())
}

/// The query for all lexemes that a text has by a configuration of these, in any order: the
/// position groups joined by `&`.
pub fn plainto_tsquery(alloc: Global, configs: &Configs, config: &Config, text: &str) -> MadeQuery
    requires { IsWithin configs.now config.now }
    ensures value { IfOk result (IsPlainQuery configs.now config.now text.now) }
    ensures sound { IfOk result IsSound }
    ensures refused { IfErr result (PlainQueryFails configs.now config.now text.now) }
{
    groups_joined(alloc, configs, config, text, Way::Conjunction)
}

/// The query for all lexemes that a text has by a configuration of these, in its order: the
/// position groups joined by `<N>`, N the difference of their positions, at most 16384.
pub fn phraseto_tsquery(alloc: Global, configs: &Configs, config: &Config, text: &str) -> MadeQuery
    requires { IsWithin configs.now config.now }
    ensures value { IfOk result (IsPhraseQuery configs.now config.now text.now) }
    ensures sound { IfOk result IsSound }
    ensures refused { IfErr result (PhraseQueryFails configs.now config.now text.now) }
{
    groups_joined(alloc, configs, config, text, Way::Phrase)
}
