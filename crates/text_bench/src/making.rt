// What is made of texts.
ghost use Rattle.ts_config.specs.Known.{IsWithin};

use crate::configs::{all_configs, simple};
use crate::texts::{cut, text_of};
use anyhow::Result;
use bench_base::{Bench, Figure};
use std::alloc::Global;
use ts_config::{Config, Configs};
use ts_make::{to_tsquery, to_tsvector};
use ts_parser::tokens;
use ts_thesaurus::Thesaurus;
use ts_websearch::websearch_to_tsquery;

/// Rows: what is made, the configuration, the text, how often, and what is counted.
const ROWS: &str = "\
    tokens simple|paragraph 12000|1 tokens
    placed simple|paragraph 12000|1 lexemes placed by simple
    placed english|paragraph 12000|1 lexemes placed by english
    vector simple|paragraph 15|400 lexemes in vectors made by simple
    vector english|paragraph 15|400 lexemes in vectors made by english
    query simple|operand 9999+last 1|1 nodes in the query of 10000 operands
    web english|paragraph 120|40 nodes in queries of web texts
    query simple|open 1000000+letter 1+close 1000000|1 node in the query of a million brackets
";

/// As `ROWS`, of input that is to take much time.
const LONG_ROWS: &str = "\
    placed long|letter 100000|1 lexemes placed where a long phrase is looked for
    thesaurus simple|letter 1000000+rule 1|1 thesaurus of a million sample words
    thesaurus simple|letters 10000000+rule 1|1 thesaurus of a sample word of 100 MB
    thesaurus simple|indexed 33333333|1 thesaurus of 100 MB of indexed words
    thesaurus simple|blanks 10000000+rule 1|1 thesaurus of 100 MB of blanks
    web simple|quotes 10000000|1 nodes of 100 MB of quotes
    web simple|hyphens 10000000|1 nodes of 100 MB of hyphens
    web simple|or 25000000|1 nodes of 100 MB of operators
    web simple|letter 50000000|1 nodes of 100 MB of one-letter words
";

/// How many tokens a text has.
fn count_tokens(text: &str) -> usize {
    let mut count = 0usize;
    for _ in tokens(text) {
        count = count.saturating_add(1);
    }
    count
}

/// How much is made of a text.
fn made(alloc: Global, configs: &Configs, config: &Config, maker: &str, text: &str) -> Result<usize>
    requires { IsWithin configs.now config.now }
{
    Ok(match maker {
        "tokens" => count_tokens(text),
        "thesaurus" => usize::from(Thesaurus::read(alloc, text, &simple(alloc)).is_ok()),
        "placed" => configs.lexize_all(alloc, config, text)?.len(),
        "vector" => to_tsvector(alloc, configs, config, text)?.count(),
        "web" => websearch_to_tsquery(alloc, configs, config, text)?
            .nodes()
            .len(),
        _ => to_tsquery(alloc, configs, config, text)?.nodes().len(),
    })
}

/// How much is made of a text, so many times; nothing where it is refused.
fn made_often(alloc: Global, configs: &Configs, call: &str, text: &str, times: u32) -> usize {
    let (maker, name) = cut(call);
    let Some(config) = configs.config(name) else {
        return 0;
    };
    let mut count = 0usize;
    for _ in 0..times {
        count = count.saturating_add(made(alloc, configs, config, maker, text).unwrap_or(0));
    }
    count
}

/// Makes of a text what is called for, so many times, and prints how much that is.
fn run_call(
    bench: &Bench<'_>,
    configs: &Configs,
    call: &str,
    text: &str,
    last: &str,
) -> Result<()> {
    let (times, what) = cut(last);
    let times = times.parse::<u32>()?;
    let start = bench.start()?;
    let count = made_often(bench.alloc(), configs, call, text, times);
    let size = text.len().saturating_mul(times as usize);
    bench.report(start, count, what, Figure::Bytes(size))
}

/// Makes what a row says, and prints it.
fn run_row(bench: &Bench<'_>, configs: &Configs, row: &str) -> Result<()> {
    let (call, rest) = row.split_once('|').unwrap_or((row, ""));
    let (words, last) = rest.split_once('|').unwrap_or((rest, ""));
    let text = text_of(bench.alloc(), words)?;
    run_call(bench, configs, call, &text, last)
}

/// Makes what each row says.
fn run_rows(bench: &Bench<'_>, configs: &Configs, rows: &str) -> Result<()> {
    for row in rows.lines() {
        run_row(bench, configs, row.trim())?;
    }
    Ok(())
}

/// Makes what each row says, and where time is asked for each that is to take much time.
fn run_all_rows(bench: &Bench<'_>, configs: &Configs) -> Result<()> {
    run_rows(bench, configs, ROWS)?;
    if bench.is_timed() {
        run_rows(bench, configs, LONG_ROWS)?;
    }
    Ok(())
}

/// Makes what there is to make.
pub(crate) fn run_makers(bench: &Bench<'_>) -> Result<()> {
    let configs = all_configs(bench.alloc())?;
    run_all_rows(bench, &configs)
}
