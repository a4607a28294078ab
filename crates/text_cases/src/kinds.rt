// The kinds of rows, and who answers them.
use crate::rows::expanded;
use crate::{
    base_tests, config_tests, match_tests, parser_tests, query_tests, script_tests,
    thesaurus_tests, vector_tests, word_tests,
};
use std::alloc::Global;
use std::process::Abort;
use std::test::Fail;
use ts_config::Configs;

/// What a row asks for.
#[derive(Clone, Copy)]
pub enum Kind {
    /// How two lexemes are to each other.
    Order,
    /// The first word of a line.
    Front,
    /// A text without blanks, in lower case and in quotes.
    Written,
    /// What comes of a definition, or of a text by those before it.
    Step,
    /// Whether vectors satisfy a query.
    Verdicts,
    /// The answer for a query by values.
    Judgement,
    /// The keys of a vector.
    VectorKeys,
    /// The keys of a query.
    QueryKeys,
    /// The tokens of a text.
    Tokens,
    /// The type of a name.
    TokenKind,
    /// The printed form of a query.
    Query,
    /// The nodes of a query.
    Nodes,
    /// The steps of a script.
    Script,
    /// What a first line says.
    OpeningLine,
    /// What a line of a configuration says.
    Mapping,
    /// What a line by itself says.
    Statement,
    /// The best rule of a thesaurus.
    Best,
    /// Whether phrases go on.
    GoingOn,
    /// What a dictionary knows of a word.
    Told,
    /// The printed form of a vector.
    Vector,
    /// The printed form of a vector that is joined in one value.
    Joined,
    /// How many lexemes a large vector has.
    Large,
    /// A vector without positions, and with one weight.
    Changed,
    /// What is read of bytes.
    Bytes,
    /// The encoding of a vector.
    Encoded,
    /// The entries of joined vectors.
    Joins,
    /// The stem of a word.
    Stem,
    /// The answer of stems.
    Porter,
    /// Which words a stop list has.
    Stops,
    /// The answer of `simple` where it accepts.
    Accepted,
    /// Which lines a stop list takes, and the answer of `simple` where it doesn't accept.
    Passed,
    /// What synonyms have for a word.
    Synonym,
    /// Which lines synonyms take, and what they have for a word.
    SynonymLines,
}

/// Puts the answer to a row about dictionaries.
fn answer_word(alloc: Global, out: &mut String, kind: Kind, asked: &str) -> Result<(), Fail> {
    match kind {
        Kind::Best => thesaurus_tests::best(alloc, out, asked),
        Kind::GoingOn => thesaurus_tests::going_on(alloc, out, asked),
        Kind::Told => thesaurus_tests::single(alloc, out, asked),
        Kind::Stem => word_tests::stemmed(alloc, out, asked),
        Kind::Porter => word_tests::porter(alloc, out, asked),
        Kind::Stops => word_tests::stopped(alloc, out, asked),
        Kind::Accepted => word_tests::accepted(alloc, out, asked),
        Kind::Passed => word_tests::passed(alloc, out, asked),
        Kind::SynonymLines => word_tests::synonym_lines(alloc, out, asked),
        _ => word_tests::replaced(alloc, out, asked),
    }
}

/// Puts the answer to a row about vectors.
fn answer_vector(alloc: Global, out: &mut String, kind: Kind, asked: &str) -> Result<(), Fail> {
    match kind {
        Kind::Vector => vector_tests::printed(alloc, out, vector_tests::vector(alloc, asked)),
        Kind::Joined => vector_tests::printed(alloc, out, vector_tests::joined(alloc, asked)),
        Kind::Large => vector_tests::large(alloc, out, asked),
        Kind::Changed => vector_tests::changed(alloc, out, asked),
        Kind::Bytes => vector_tests::read(alloc, out, asked),
        Kind::Encoded => vector_tests::encoded(alloc, out, asked),
        _ => vector_tests::joins(alloc, out, asked),
    }
}

/// Puts the answer to a row about queries.
fn answer_query(alloc: Global, out: &mut String, kind: Kind, asked: &str) -> Result<(), Fail> {
    match kind {
        Kind::Query => query_tests::printed(alloc, out, query_tests::query_of(alloc, asked)),
        Kind::Nodes => query_tests::nodes(alloc, out, asked),
        Kind::Verdicts => match_tests::verdicts(alloc, out, asked),
        Kind::Judgement => match_tests::judgement(alloc, out, asked),
        Kind::VectorKeys => match_tests::keys_of_vector(alloc, out, asked),
        _ => match_tests::keys_of_query(alloc, out, asked),
    }
}

/// Puts the answer to a row about words, tokens and scripts.
fn answer_text(alloc: Global, out: &mut String, kind: Kind, asked: &str) -> Result<(), Fail> {
    match kind {
        Kind::Order => base_tests::compared(alloc, out, asked),
        Kind::Front => base_tests::front(out, asked),
        Kind::Written => base_tests::written(alloc, out, asked),
        Kind::Tokens => parser_tests::tokens(alloc, out, asked),
        Kind::TokenKind => parser_tests::kind(out, asked),
        Kind::Script => script_tests::script(out, asked),
        Kind::OpeningLine => script_tests::opening_line(alloc, out, asked),
        Kind::Mapping => script_tests::mapping(alloc, out, asked),
        _ => script_tests::statement(alloc, out, asked),
    }
}

/// Puts the answer to a row.
fn answer(
    alloc: Global,
    out: &mut String,
    configs: &mut Configs,
    kind: Kind,
    asked: &str,
) -> Result<(), Fail> {
    match kind {
        Kind::Step => config_tests::outcome(alloc, out, configs, asked),
        Kind::Query | Kind::Nodes | Kind::Verdicts | Kind::Judgement => {
            answer_query(alloc, out, kind, asked)
        }
        Kind::VectorKeys | Kind::QueryKeys => answer_query(alloc, out, kind, asked),
        Kind::Vector | Kind::Joined | Kind::Large | Kind::Changed => {
            answer_vector(alloc, out, kind, asked)
        }
        Kind::Bytes | Kind::Encoded | Kind::Joins => answer_vector(alloc, out, kind, asked),
        Kind::Best | Kind::GoingOn | Kind::Told | Kind::Stem | Kind::Porter | Kind::Stops => {
            answer_word(alloc, out, kind, asked)
        }
        Kind::Accepted | Kind::Passed | Kind::Synonym | Kind::SynonymLines => {
            answer_word(alloc, out, kind, asked)
        }
        _ => answer_text(alloc, out, kind, asked),
    }
}

/// Tries a row.
fn try_row<R: Abort>(
    rt: &R,
    alloc: Global,
    configs: &mut Configs,
    kind: Kind,
    row: &str,
) -> Result<(), Fail> {
    let row = expanded(alloc, row)?;
    let (asked, want) = row.as_str().split_once('=').unwrap_or((row.as_str(), ""));
    let mut given = String::new(alloc);
    answer(alloc, &mut given, configs, kind, asked)?;
    assert_eq!(rt; given.as_str(), want, "{asked}");
    Ok(())
}

/// Tries so many rows of one kind, with `;` between two. In a row `«x^n»` stands for n times x, and `~` for a quotation
/// mark. Steps begin with the configurations that are there from the start.
pub fn try_rows<R: Abort>(
    rt: &R,
    alloc: Global,
    kind: Kind,
    rows: &str,
    count: u32,
) -> Result<(), Fail> {
    let mut configs = Configs::new(alloc)?;
    let mut tried = 0u32;
    for row in rows.split(';') {
        try_row(rt, alloc, &mut configs, kind, row)?;
        tried = tried.saturating_add(1);
    }
    assert_eq!(rt; tried, count);
    Ok(())
}
