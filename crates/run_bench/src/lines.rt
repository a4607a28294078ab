// What the parts of this bench print, and what ends it.
ghost use Rattle.std.specs.Prelude.{IsTrue, OnOk};

use anyhow::{Result, bail, ensure};
use bench_base::Bench;
use disk_trait::Failed;

/// What must hold; else the program ends with these words.
pub(crate) fn must(holds: bool, what: &str) -> Result<()>
    ensures { OnOk result (IsTrue holds) }
{
    ensure!(holds, "{what}");
    Ok(())
}

/// What a call of a device answers.
pub(crate) fn answered<T>(answer: Result<T, Failed>) -> Result<T> {
    match answer {
        Ok(value) => Ok(value),
        Err(_) => bail!("a call of the device fails"),
    }
}

/// Prints two numbers between three pieces of text.
pub(crate) fn print_two(
    bench: &Bench<'_>,
    pieces: [&str; 3],
    first: u64,
    second: u64,
) -> Result<()> {
    let [front, between, end] = pieces;
    let out = bench.runtime();
    println!(out; "{front}{first}{between}{second}{end}")?;
    Ok(())
}
