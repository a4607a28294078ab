// Documents that are read from their texts and from their encodings, and matched against queries
// where they lie.
ghost use Rattle.std.specs.Prelude.{◌≡◌};
ghost use Rattle.ts_match.specs.Plan.{plan_of};

use crate::documents::{DOCUMENTS, all_documents, long_document, odd_document, wide_phrase};
use anyhow::Result;
use bench_base::{Bench, Figure};
use std::alloc::Global;
use ts_match::{MatchWork, matches_encoded};
use ts_query::TsQuery;
use ts_vector::{TsVector, VectorBytes};

/// The queries that each document is matched against.
const QUERIES: &str = "\
    waa
    wzz
    wb:*
    waa:A
    waa & wab
    wzx | wzy | wzz
    !waa
    waa & !wab
    waa <-> wab
    waa <2> wab
    waa <0> wab
    !waa <-> wab
    !waa <-> !wab
    wa:* <-> wb:*
    (waa | wab) <-> (wac | wad)
    waa <-> (wab <2> w:*)
    (w:* <2> waa) & !(waa <-> wab)
    !(waa <-> wab) & (wac <-> wad | wae <-> waf)
    waa | wab | wac | wad | wae | waf | wag | wah | wai | waj | \
        wak | wal | wam | wan | wao | wap | waq | war | was | wat
    (waa & wab & wac & wad & wae) | (waf & wag & wah & wai & waj) | \
        (wak <3> wal & wam & wan & wao) | (wap & waq & war <9> was & wat)
";

/// The documents of the texts.
fn parse_all(alloc: Global, texts: &str) -> Result<Vec<TsVector>> {
    let mut documents = Vec::new(alloc);
    for text in texts.lines() {
        documents.push(TsVector::parse(alloc, text)?)?;
    }
    Ok(documents)
}

/// The encoding of a document.
fn encoding(alloc: Global, document: &TsVector) -> Result<Vec<u8>> {
    let mut bytes = Vec::new(alloc);
    document.encode(&mut bytes)?;
    Ok(bytes)
}

/// The encodings of the documents.
fn encode_all(alloc: Global, documents: &[TsVector]) -> Result<Vec<Vec<u8>>> {
    let mut encodings = Vec::new(alloc);
    for document in documents {
        encodings.push(encoding(alloc, document)?)?;
    }
    Ok(encodings)
}

/// How many lexemes the encodings have, each decoded.
fn decode_all(alloc: Global, encodings: &[Vec<u8>]) -> Result<usize> {
    let mut lexemes = 0usize;
    for bytes in encodings {
        lexemes = lexemes.saturating_add(TsVector::decode(alloc, bytes)?.count());
    }
    Ok(lexemes)
}

/// How many lexemes the encodings have, each checked where it lies.
fn check_all(encodings: &[Vec<u8>]) -> Result<usize> {
    let mut lexemes = 0usize;
    for bytes in encodings {
        lexemes = lexemes.saturating_add(VectorBytes::new(bytes)?.count());
    }
    Ok(lexemes)
}

/// The documents of the encodings, each checked where it lies.
fn check_each<'a>(alloc: Global, encodings: &'a [Vec<u8>]) -> Result<Vec<VectorBytes<'a>>> {
    let mut documents = Vec::new(alloc);
    for bytes in encodings {
        documents.push(VectorBytes::new(bytes)?)?;
    }
    Ok(documents)
}

/// How many of the documents satisfy the query.
fn count(query: &TsQuery, work: &mut MatchWork, documents: &[VectorBytes]) -> usize
    requires { work.old ≡ plan_of query.now }
{
    let mut found = 0usize;
    for document in documents {
        if matches_encoded(query, work, document) {
            found = found.saturating_add(1);
        }
    }
    found
}

/// Matches each document against a query that was read.
fn time_matches(
    bench: &Bench<'_>,
    query: &TsQuery,
    work: &mut MatchWork,
    documents: &[VectorBytes],
    what: &str,
) -> Result<()>
    requires { work.old ≡ plan_of query.now }
{
    let start = bench.start()?;
    let found = count(query, work, documents);
    let times = u32::try_from(documents.len()).unwrap_or(u32::MAX);
    bench.report(start, found, what, Figure::Each(times))
}

/// Matches each document against a query.
fn match_query(bench: &Bench<'_>, documents: &[VectorBytes], text: &str, what: &str) -> Result<()> {
    let query = TsQuery::parse(bench.alloc(), text)?;
    let mut work = MatchWork::new(bench.alloc(), &query)?;
    time_matches(bench, &query, &mut work, documents, what)
}

/// Matches each document against each query.
fn match_queries(bench: &Bench<'_>, documents: &[VectorBytes], queries: &str) -> Result<()> {
    for query in queries.lines() {
        match_query(bench, documents, query.trim(), query.trim())?;
    }
    Ok(())
}

/// Matches each spelled document against each query.
fn match_all(bench: &Bench<'_>, encodings: &[Vec<u8>]) -> Result<()> {
    let documents = check_each(bench.alloc(), encodings)?;
    match_queries(bench, &documents, QUERIES)
}

/// Matches one spelled document against a query.
fn match_one(bench: &Bench<'_>, encoding: &[u8], text: &str, what: &str) -> Result<()> {
    let documents = [VectorBytes::new(encoding)?];
    match_query(bench, &documents, text, what)
}

/// Matches one document against a query that is hard.
fn match_hard(bench: &Bench<'_>, document: &str, text: &str, what: &str) -> Result<()> {
    let document = TsVector::parse(bench.alloc(), document)?;
    let bytes = encoding(bench.alloc(), &document)?;
    match_one(bench, &bytes, text, what)
}

/// Two matches that are hard.
fn match_both_hard(bench: &Bench<'_>) -> Result<()> {
    let wide = wide_phrase(bench.alloc())?;
    let odd = odd_document(bench.alloc())?;
    match_hard(
        bench,
        &odd,
        &wide,
        "for a phrase of 8,000 operands on each side",
    )?;
    let long = long_document(bench.alloc())?;
    match_hard(
        bench,
        &long,
        "a:* <-> b:*",
        "for a:* <-> b:* over 8,000 lexemes",
    )
}

/// Reads the documents from their texts.
fn read_texts(bench: &Bench<'_>, texts: &str) -> Result<Vec<TsVector>> {
    let start = bench.start()?;
    let documents = parse_all(bench.alloc(), texts)?;
    let figure = Figure::Bytes(texts.len());
    bench.report(
        start,
        texts.len(),
        "bytes of texts of 1000 documents",
        figure,
    )?;
    Ok(documents)
}

/// Reads each encoding, decoded and where it lies.
fn read_encodings(bench: &Bench<'_>, encodings: &[Vec<u8>]) -> Result<()> {
    let start = bench.start()?;
    let lexemes = decode_all(bench.alloc(), encodings)?;
    bench.report(start, lexemes, "lexemes decoded", Figure::Each(DOCUMENTS))?;
    let start = bench.start()?;
    let lexemes = check_all(encodings)?;
    bench.report(
        start,
        lexemes,
        "lexemes checked where they lie",
        Figure::Each(DOCUMENTS),
    )
}

/// The encodings of the documents, which are read from their texts.
fn spelled_documents(bench: &Bench<'_>) -> Result<Vec<Vec<u8>>> {
    let texts = all_documents(bench.alloc())?;
    let documents = read_texts(bench, &texts)?;
    encode_all(bench.alloc(), &documents)
}

/// Reads the documents, and matches them against each query; then two matches that are hard.
pub(crate) fn run_matches(bench: &Bench<'_>) -> Result<()> {
    let encodings = spelled_documents(bench)?;
    read_encodings(bench, &encodings)?;
    match_all(bench, &encodings)?;
    match_both_hard(bench)
}
