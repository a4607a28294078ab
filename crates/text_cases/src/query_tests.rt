// Queries: what is printed of texts, and which are refused.
use crate::kinds::{Kind, try_rows};
use std::alloc::Global;
use std::test::Fail;
use ts_base::{Lexeme, Weights};
use ts_query::{QueryBuilder, QueryError, TsQuery};

/// Texts and what they give; after `#` are steps that join operands, and `%` is the query that is written node by
/// node.
const ROWS: &str = concat!(
    // What is printed.
    "(fat | rat) & !cat:*A=( 'fat' | 'rat' ) & !'cat':*A;",
    "a <16384> b='a' <16384> 'b';",
    "a <-> 1.5 <1> b='a' <-> '1.5' <-> 'b';",
    "cat <2> rat='cat' <2> 'rat';",
    "fat <-> rat | cat & !dog='fat' <-> 'rat' | 'cat' & !'dog';",
    "=; \t\n=;",
    // The places of faults.
    "a b=syntax error at 2;a & =syntax error at 4;()=syntax error at 1;(a=syntax error at 2;",
    "a)=syntax error at 1;a!b=syntax error at 1;a(b=syntax error at 1;a<b=syntax error at 2;",
    "a<-b=syntax error at 3;a<1b=syntax error at 3;a<=syntax error at 2;a<1=syntax error at 3;",
    "a:Ae=syntax error at 3;'a'b=syntax error at 3;'a' b=syntax error at 4;&=syntax error at 0;",
    "a:1=syntax error at 2;!=syntax error at 1;''=syntax error at 2;'' =syntax error at 2;",
    "a:*A:=syntax error at 4;a <->=syntax error at 5;a & | b=syntax error at 4;",
    "a < -> b=syntax error at 3;a <- > b=syntax error at 4;a:A(b)=syntax error at 3;",
    "<->=syntax error at 0;é é=syntax error at 3;a: A=syntax error at 3;",
    "(a | b=syntax error at 6;((a) & b))=syntax error at 9;a\\=syntax error at 2;",
    "'a=syntax error at 2;a <--> b=syntax error at 4;a <> b=syntax error at 3;",
    "! & a=syntax error at 2;a:A'b'=syntax error at 3;fat &=syntax error at 5;",
    "a <16385> b &=syntax error at 13;",
    // The limits.
    "a <20000> b=distance too large at 2;",
    "a <0016384> b <99999999999999999999> c <16385> d=distance too large at 14;",
    "«a^2047» <16385> b=distance too large at 2048;",
    "b <16384> «a^2047»=lexeme too long at 10;",
    "b <16384> «a^2046»='b' <16384> '«a^2046»';",
    "x«|x^16383»='x'« | 'x'^16383»;x«|x^16384»=too many nodes;",
    // Deep texts.
    "«(^1000000»=syntax error at 1000000;«(^1000000»a«)^1000000»='a';",
    "«!^1000000»a=too many nodes;«!^32766»'a'=«!^32766»'a';",
    // Queries that are joined: each step is an operator and an operand, and `!` negates it.
    "#|fat |rat &!cat=( 'fat' | 'rat' ) & !'cat':*A;#|fat -rat='fat' <-> 'rat';#|!=;#| &fat='fat';",
    "%=( 'fat' | 'rat':* ) <2> !'cat'",
);

/// The query of one word, with marks for the word `cat`; the empty query for none.
fn operand(alloc: Global, word: &str) -> Result<TsQuery, QueryError> {
    let Ok(lexeme) = Lexeme::new(alloc, word) else {
        return Ok(TsQuery::empty(alloc));
    };
    let marked = word == "cat";
    let weights = Weights {
        a: marked,
        ..Weights::default()
    };
    let query = TsQuery::operand(alloc, &lexeme, weights, marked)?;
    Ok(query)
}

/// The query of one word, negated after `!`.
fn signed(alloc: Global, word: &str) -> Result<TsQuery, QueryError> {
    match word.strip_prefix('!') {
        Some(word) => operand(alloc, word)?.not(alloc),
        None => operand(alloc, word),
    }
}

/// A query and a step: an operator and an operand.
fn joined(alloc: Global, query: &TsQuery, step: &str) -> Result<TsQuery, QueryError> {
    let mut word = step.chars();
    let sign = word.next();
    let next = signed(alloc, word.as_str())?;
    match sign {
        Some('|') => query.or(alloc, &next),
        Some('&') => query.and(alloc, &next),
        _ => query.phrase(alloc, &next, 1),
    }
}

/// The query that steps lead to, from the empty query on.
fn built(alloc: Global, row: &str) -> Result<TsQuery, QueryError> {
    let mut query = TsQuery::empty(alloc);
    for step in row.split(' ') {
        query = joined(alloc, &query, step)?;
    }
    Ok(query)
}

/// A lexeme that is short enough.
fn lexeme(alloc: Global, text: &str) -> Result<Lexeme, QueryError> {
    match Lexeme::new(alloc, text) {
        Ok(lexeme) => Ok(lexeme),
        Err(_) => Err(QueryError::OutOfMemory),
    }
}

/// A query that is written node by node: each operator is after its operands.
fn written(alloc: Global) -> Result<TsQuery, QueryError> {
    let mut builder = QueryBuilder::new(alloc);
    builder.operand(lexeme(alloc, "fat")?, Weights::default(), false)?;
    builder.operand(lexeme(alloc, "rat")?, Weights::default(), true)?;
    builder.or()?;
    builder.operand(lexeme(alloc, "cat")?, Weights::default(), false)?;
    builder.not()?;
    builder.phrase(2)?;
    Ok(builder.finish())
}

/// The query of a row's text.
pub fn query_of(alloc: Global, text: &str) -> Result<TsQuery, QueryError> {
    if text == "%" {
        return written(alloc);
    }
    match text.strip_prefix('#') {
        Some(row) => built(alloc, row),
        None => TsQuery::parse(alloc, text),
    }
}

/// The printed form of a query, or why there is none.
pub fn printed(
    alloc: Global,
    out: &mut String,
    query: Result<TsQuery, QueryError>,
) -> Result<(), Fail> {
    match query {
        Ok(query) => out.push_str(query.to_text(alloc)?.as_str())?,
        Err(error) => write!(out, "{error}")?,
    }
    Ok(())
}

/// The nodes of a row's query, and how many operands it has.
pub fn nodes(alloc: Global, out: &mut String, text: &str) -> Result<(), Fail> {
    let query = query_of(alloc, text)?;
    let nodes = query.nodes();
    let count = query.operands().len();
    write!(out, "{nodes:?} {count}")?;
    Ok(())
}

/// The nodes of a query are in postfix order.
const NODES: &str = "#|fat |rat &!cat=[Leaf(0), Leaf(1), Or, Leaf(2), Not, And] 3";

/// Each row gives its outcome.
#[test]
fn queries(rt: HostRuntime) -> Result<(), Fail> {
    let alloc = rt.alloc();
    try_rows(&rt, alloc, Kind::Query, ROWS, 62)?;
    try_rows(&rt, alloc, Kind::Nodes, NODES, 1)
}
