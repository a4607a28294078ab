// Work on the trees of a device, each call of which fails in turn: what is left then takes the work.
use crate::cleaning::walk_on;
use crate::pages::{Silent, synced};
use crate::print_counts;
use crate::rows::{Row, word};
use crate::working::{Worked, done_on};
use anyhow::Result;
use bench_base::Bench;
use disk_trait::MemoryDisk;
use std::alloc::AllocError;

/// What work on a device comes to.
#[derive(Clone, Copy)]
struct Outcome {
    /// Whether it was refused.
    refused: bool,
    /// How many items the trees then have; none where they are not read.
    items: u64,
}

/// Whether work was refused.
fn is_refused(worked: Option<Worked>) -> bool {
    match worked {
        Some(Worked { done: Ok(()), .. }) => false,
        _ => true,
    }
}

/// What the work of a row on a device comes to, and how many calls of the device that takes.
fn outcome_of(bench: &Bench<'_>, disk: Silent, row: Row<'_>) -> (Outcome, u64) {
    let (worked, left) = done_on(bench, disk, row);
    let calls = left.disk.calls();
    let items = match walk_on(bench.alloc(), left, "*") {
        Some((items, _)) => items,
        None => 0,
    };
    let refused = is_refused(worked);
    (Outcome { refused, items }, calls)
}

/// The same with what is synced of a device, where this call fails: whether the work was refused, and what the work
/// comes to with what is then left.
fn with_fault(
    bench: &Bench<'_>,
    disk: &MemoryDisk,
    row: Row<'_>,
    call: u64,
) -> Result<(bool, Outcome), AllocError> {
    let fails = vec![in bench.alloc(); call]?;
    let mut image = synced(bench.alloc(), disk)?;
    image.disk.set_fails(fails);
    let (worked, mut left) = done_on(bench, image, row);
    left.disk.set_fails(Vec::new(bench.alloc()));
    let (then, _) = outcome_of(bench, left, row);
    Ok((is_refused(worked), then))
}

/// Each of so many calls fails in turn: how many of them refuse the work, and after how many what is left comes to
/// something else.
fn fail_each(
    bench: &Bench<'_>,
    disk: &MemoryDisk,
    row: Row<'_>,
    wanted: Outcome,
    calls: u64,
) -> Result<(u64, u64), AllocError> {
    let mut refused: u64 = 0;
    let mut differ: u64 = 0;
    for before in 0..calls {
        let (first, then) = with_fault(bench, disk, row, before.saturating_add(1))?;
        if first {
            refused = refused.saturating_add(1);
        }
        if then.refused != wanted.refused || then.items != wanted.items {
            differ = differ.saturating_add(1);
        }
    }
    Ok((refused, differ))
}

/// Prints how many calls of a device fail in turn in the work of a row, how many of them refuse it, and after how many
/// what is left comes to something else.
pub(crate) fn run(bench: &Bench<'_>, disk: &MemoryDisk, row: Row<'_>) -> Result<()> {
    let (verb, words) = word(row.words);
    let row = Row { verb, words, ..row };
    let image = synced(bench.alloc(), disk)?;
    let (wanted, calls) = outcome_of(bench, image, row);
    let (refused, differ) = fail_each(bench, disk, row, wanted, calls)?;
    let counts = [
        (wanted.items, row.title),
        (calls, "calls of the device fail in turn"),
        (refused, "of them refuse"),
        (differ, "of them leave something else"),
    ];
    print_counts(bench, &counts)
}
