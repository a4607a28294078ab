// What the texts of a statement stand for.
ghost use Rattle.std.specs.Prelude.{◌≡◌, IfOk, IfErr};
ghost use Rattle.std.specs.String.{string_bytes};
ghost use Rattle.ts_base.specs.Vectors.{Vector};
ghost use Rattle.ts_config.specs.Known.{IsWithin};
ghost use Rattle.ts_vector.specs.Changes.{IsJoinOf};
ghost use Rattle.shell_script.specs.Grammar.{vector_by, query_by};
ghost use Rattle.shell_run.specs.Values.{with_weight, IsSourceOf, SourceFails, IsPartOf, PartFails, JoinIsRefused};
ghost use Rattle.shell_run.specs.Values.{IsValueOf, ExprFails, IsMadeBy, MakingFails, IsQueryOf, QueryFails, IsShown};
ghost use Rattle.shell_run.specs.Values.{IsQueried};
ghost use Rattle.shell_run.specs.Inner.Refusing.{vector_refusal, query_refusal};
ghost use Rattle.shell_script.specs.ReplyView.{refusal, reply};
ghost use Rattle.shell_script.specs.StatementView.{vector_source, query_source, part, expr};

use shell_script::{Expr, Maker, Part, QuerySource, Refusal, Reply, TextFault, VectorSource};
use std::alloc::{AllocError, Global};
use ts_base::Weight;
use ts_config::{Config, Configs};
use ts_make::{phraseto_tsquery, plainto_tsquery, to_tsquery, to_tsvector};
use ts_query::{QueryError, TsQuery};
use ts_vector::{Joined, TsVector, VectorError};
use ts_websearch::websearch_to_tsquery;

/// The refusal that an error of a vector is printed as.
fn vector_refused(error: VectorError) -> Refusal
    ensures { result ≡ vector_refusal error }
{
    match error {
        VectorError::Syntax { at } | VectorError::BadBytes { at } => {
            Refusal::Text(TextFault::BadVector(at))
        }
        VectorError::LexemeTooLong { at } => Refusal::Text(TextFault::LongLexeme(at)),
        VectorError::VectorTooLarge { bytes } => Refusal::Text(TextFault::LargeVector(bytes)),
        VectorError::OutOfMemory => Refusal::Memory,
    }
}

/// The refusal that an error of a query is printed as.
fn query_refused(error: QueryError) -> Refusal
    ensures { result ≡ query_refusal error }
{
    match error {
        QueryError::Syntax { at } | QueryError::DistanceTooLarge { at } => {
            Refusal::Text(TextFault::BadQuery(at))
        }
        QueryError::LexemeTooLong { at } => Refusal::Text(TextFault::LongLexeme(at)),
        QueryError::TooManyNodes => Refusal::Text(TextFault::LargeQuery),
        QueryError::OutOfMemory => Refusal::Memory,
    }
}

/// With this weight at each position, where there is one.
fn weighted(alloc: Global, vector: TsVector, weight: Option<Weight>) -> Result<TsVector, AllocError>
    ensures { IfOk result (λ v. v ≡ with_weight weight vector) }
{
    match weight {
        Some(weight) => vector.set_weight(alloc, weight),
        None => Ok(vector),
    }
}

/// The vector that a text is made by the configuration of this name.
fn made_vector(
    alloc: Global,
    configs: &Configs,
    config: &str,
    weight: Option<Weight>,
    text: &str,
) -> Result<TsVector, Refusal>
    ensures value { IfOk result (IsSourceOf configs.now (vector_by config.now weight text.now)) }
    ensures cause { IfErr result (λ why.
        SourceFails configs.now (vector_by config.now weight text.now) (refusal why)) }
{
    let Some(mapping) = configs.config(config) else {
        return Err(Refusal::NoConfiguration);
    };
    let vector = match to_tsvector(alloc, configs, mapping, text) {
        Ok(vector) => vector,
        Err(error) => return Err(vector_refused(error)),
    };
    match weighted(alloc, vector, weight) {
        Ok(vector) => Ok(vector),
        Err(_) => Err(Refusal::Memory),
    }
}

/// What a vector is made of.
fn source_value(
    alloc: Global,
    configs: &Configs,
    from: &VectorSource<'_>,
) -> Result<TsVector, Refusal>
    ensures value { IfOk result (IsSourceOf configs.now (vector_source from.now)) }
    ensures cause { IfErr result
        (λ why. SourceFails configs.now (vector_source from.now) (refusal why)) }
{
    match from {
        VectorSource::Text(text) => match TsVector::parse(alloc, text.as_str()) {
            Ok(vector) => Ok(vector),
            Err(error) => Err(vector_refused(error)),
        },
        VectorSource::Made {
            config,
            weight,
            text,
        } => made_vector(alloc, configs, config, *weight, text.as_str()),
    }
}

/// The vector of a part.
fn part_value(alloc: Global, configs: &Configs, from: &Part<'_>) -> Result<TsVector, Refusal>
    ensures value { IfOk result (IsPartOf configs.now (part from.now)) }
    ensures cause { IfErr result (λ why. PartFails configs.now (part from.now) (refusal why)) }
{
    let vector = match source_value(alloc, configs, &from.source) {
        Ok(vector) => vector,
        Err(why) => return Err(why),
    };
    if !from.stripped {
        return Ok(vector);
    }
    match vector.strip(alloc) {
        Ok(stripped) => Ok(stripped),
        Err(_) => Err(Refusal::Memory),
    }
}

/// Both vectors joined.
fn join(alloc: Global, first: Joined, second: &TsVector) -> Result<Joined, Refusal>
    ensures value { IfOk result (IsJoinOf first second.now) }
    ensures cause { IfErr result (λ why. JoinIsRefused first second.now (refusal why)) }
{
    match first.push(alloc, second) {
        Ok(vector) => Ok(vector),
        Err(error) => Err(vector_refused(error)),
    }
}

/// The vector, to which others are joined.
fn begun(alloc: Global, first: &TsVector) -> Result<Joined, Refusal>
    ensures value { IfOk result (λ value. value ≡ first.now) }
    ensures memory { IfErr result (λ why. why ≡ Refusal.Memory) }
{
    match Joined::new(alloc, first) {
        Ok(value) => Ok(value),
        Err(_) => Err(Refusal::Memory),
    }
}

/// The vector with all that was joined to it.
fn finished(alloc: Global, value: Joined) -> Result<TsVector, Refusal>
    ensures value { IfOk result (λ vector. vector ≡ value) }
    ensures memory { IfErr result (λ why. why ≡ Refusal.Memory) }
{
    match value.finish(alloc) {
        Ok(vector) => Ok(vector),
        Err(_) => Err(Refusal::Memory),
    }
}

/// The vector of an expression. Its parts are made and joined in turn, and the first refusal
/// counts. That of one part is the part's, and nothing is copied.
pub fn expr_value(alloc: Global, configs: &Configs, from: &Expr<'_>) -> Result<TsVector, Refusal>
    ensures value { IfOk result (IsValueOf configs.now (expr from.now)) }
    ensures cause { IfErr result (λ why. ExprFails configs.now (expr from.now) (refusal why)) }
{
    let first = part_value(alloc, configs, &from.first)?;
    if from.others.is_empty() {
        return Ok(first);
    }
    let mut value = begun(alloc, &first)?;
    for other in &from.others {
        let next = part_value(alloc, configs, other)?;
        match join(alloc, value, &next) {
            Ok(joined) => value = joined,
            Err(why) => return Err(why),
        }
    }
    finished(alloc, value)
}

/// The query that a text is made in this way, by one of these configurations.
fn made_by(
    alloc: Global,
    configs: &Configs,
    mapping: &Config,
    maker: Maker,
    text: &str,
) -> Result<TsQuery, QueryError>
    requires { IsWithin configs.now mapping.now }
    ensures value { IfOk result (IsMadeBy maker configs.now mapping.now text.now) }
    ensures refused { IfErr result (MakingFails maker configs.now mapping.now text.now) }
{
    match maker {
        Maker::To => to_tsquery(alloc, configs, mapping, text),
        Maker::Plain => plainto_tsquery(alloc, configs, mapping, text),
        Maker::Phrase => phraseto_tsquery(alloc, configs, mapping, text),
        Maker::Web => websearch_to_tsquery(alloc, configs, mapping, text),
    }
}

/// The query that a text is made in this way, by the configuration of this name.
fn made_query(
    alloc: Global,
    configs: &Configs,
    maker: Maker,
    config: &str,
    text: &str,
) -> Result<TsQuery, Refusal>
    ensures value { IfOk result (IsQueryOf configs.now (query_by maker config.now text.now)) }
    ensures cause { IfErr result
        (λ why. QueryFails configs.now (query_by maker config.now text.now) (refusal why)) }
{
    let Some(mapping) = configs.config(config) else {
        return Err(Refusal::NoConfiguration);
    };
    match made_by(alloc, configs, mapping, maker, text) {
        Ok(query) => Ok(query),
        Err(error) => Err(query_refused(error)),
    }
}

/// What a query is made of.
pub fn query_value(
    alloc: Global,
    configs: &Configs,
    from: &QuerySource<'_>,
) -> Result<TsQuery, Refusal>
    ensures value { IfOk result (IsQueryOf configs.now (query_source from.now)) }
    ensures cause { IfErr result
        (λ why. QueryFails configs.now (query_source from.now) (refusal why)) }
{
    match from {
        QuerySource::Text(text) => match TsQuery::parse(alloc, text.as_str()) {
            Ok(query) => Ok(query),
            Err(error) => Err(query_refused(error)),
        },
        QuerySource::Made {
            maker,
            config,
            text,
        } => made_query(alloc, configs, *maker, config, text.as_str()),
    }
}

/// The text of an expression's vector.
pub fn show(alloc: Global, configs: &Configs, from: &Expr<'_>) -> Reply
    ensures { IsShown configs.now (expr from.now) (reply result) }
{
    match expr_value(alloc, configs, from) {
        Ok(vector) => match vector.to_text(alloc) {
            Ok(text) => Reply::Vector(text),
            Err(_) => Reply::Refused(Refusal::Memory),
        },
        Err(why) => Reply::Refused(why),
    }
}

/// The printed form of a query.
pub fn ask_query(alloc: Global, configs: &Configs, from: &QuerySource<'_>) -> Reply
    ensures { IsQueried configs.now (query_source from.now) (reply result) }
{
    match query_value(alloc, configs, from) {
        Ok(query) => match query.to_text(alloc) {
            Ok(text) => Reply::Query(text),
            Err(_) => Reply::Refused(Refusal::Memory),
        },
        Err(why) => Reply::Refused(why),
    }
}
