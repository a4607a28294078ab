//! Makes values of texts by each call there is for that, reads dictionaries of a hundred thousand
//! lines, and matches made documents against queries: prints how many tokens, lexemes and nodes
//! there are, how many words the dictionaries know, and how many documents each query finds. With
//! the word `time` it also prints how long each of these takes, and takes input that is to take
//! much time. With `texts`, `dictionaries` or `matches` it does that part alone.
#![tactic(auto)]

mod configs;
mod dictionaries;
mod documents;
mod making;
mod matching;
mod texts;

use anyhow::Result;
use bench_base::Bench;
use dictionaries::run_dictionaries;
use making::run_makers;
use matching::run_matches;

/// The whole program.
fn run(bench: &Bench<'_>) -> Result<()> {
    if bench.runs("texts") {
        run_makers(bench)?;
    }
    if bench.runs("dictionaries") {
        run_dictionaries(bench)?;
    }
    if bench.runs("matches") {
        run_matches(bench)?;
    }
    Ok(())
}

/// The whole program, at the process's own words, output and clock.
fn main(rt: HostRuntime) -> Result<()> {
    run(&Bench::new(&rt)?)
}
