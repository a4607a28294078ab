// Looks at a state, made again and again: the sum of what they find.
use crate::logs::{ITEM, delete_pages, empty, fill_pages};
use anyhow::Result;
use bench_base::{Bench, Figure};
use core_state::{Fate, PageUse, State};
use page_types::Name;

/// The bytes of a head.
const HEAD: u32 = 100;

/// The looks that are made at the state of the first log where time is asked for.
const LOOKS: &str = "\
    fates of transactions
    uses of pages
    inserted names
    deleted names
    placed names of running transactions
    heap pages
    new pages
    numbers that come next";

/// The name of the document that a transaction of the first log placed.
fn name_of(xid: u32) -> Name {
    let item = ITEM.wrapping_add(xid);
    Name {
        page: item / 2048,
        slot: (item % 2048) as u16,
        serial: u64::from(xid),
    }
}

/// How many of the documents of the first log, by their names, a commit inserted and none deleted.
fn living(state: &State, count: u32) -> u64 {
    let mut sum = 0u64;
    for n in 0..count {
        if let Some(life) = state.document(&name_of(n.wrapping_add(1))) {
            sum = sum.wrapping_add(u64::from(life.deleted.is_none()));
        }
    }
    sum
}

/// The commits of so many first xids.
fn fates(state: &State, count: u32) -> u64 {
    let mut sum = 0u64;
    for xid in 0..count {
        if let Fate::Committed(commit) = state.fate(xid) {
            sum = sum.wrapping_add(u64::from(commit));
        }
    }
    sum
}

/// How many of so many first pages are in use.
fn uses(state: &State, count: u32) -> u64 {
    let mut sum = 0u64;
    for page in 0..count {
        if state.use_of(page) == PageUse::Used {
            sum = sum.wrapping_add(1);
        }
    }
    sum
}

/// How many names so many first commits inserted.
fn inserted(state: &State, count: u32) -> u64 {
    let mut sum = 0u64;
    for before in 0..count.min(state.commits()) {
        sum = sum.wrapping_add(state.inserted(before + 1).len() as u64);
    }
    sum
}

/// How many names so many first commits deleted.
fn deleted(state: &State, count: u32) -> u64 {
    let mut sum = 0u64;
    for before in 0..count.min(state.commits()) {
        sum = sum.wrapping_add(state.deleted(before + 1).len() as u64);
    }
    sum
}

/// How many names the running ones of so many first xids have placed.
fn placed(state: &State, count: u32) -> u64 {
    let mut sum = 0u64;
    for xid in 0..count {
        if let Some(runner) = state.running(xid) {
            sum = sum.wrapping_add(runner.inserted.as_slice().len() as u64);
        }
    }
    sum
}

/// The heap pages from each of so many first pages on.
fn heaps(state: &State, count: u32) -> u64 {
    let mut sum = 0u64;
    for page in 0..count {
        sum = sum.wrapping_add(u64::from(state.heap_from(page).unwrap_or(0)));
    }
    sum
}

/// The lowest unused page, the end of the pages, and the page that a head is tried on.
fn new_pages(state: &State, count: u32) -> u64 {
    let mut sum = 0u64;
    for k in 0..count {
        let page = state.unused().unwrap_or(0).wrapping_add(state.extent());
        let page = page.wrapping_add(state.heap_page(k).unwrap_or(0));
        sum = sum.wrapping_add(u64::from(page));
    }
    sum
}

/// The numbers that are drawn next.
fn new_numbers(state: &State, count: u32) -> u64 {
    let mut sum = 0u64;
    for _ in 0..count {
        sum = sum.wrapping_add(state.length()).wrapping_add(state.redo());
        sum = sum.wrapping_add(state.next_serial());
        sum = sum.wrapping_add(u64::from(state.next_xid()));
    }
    sum
}

/// The sum of the pages that may be used again under each of so many numbers of records.
fn reusable(state: &State, count: u32) -> u64 {
    let mut sum = 0u64;
    for since in 0..count {
        let page = state.reusable(u64::from(since)).unwrap_or(0);
        sum = sum.wrapping_add(u64::from(page));
    }
    sum
}

/// The sum of the numbers of the pages with room for a head, from each of so many numbers on.
fn with_room(state: &State, count: u32) -> u64 {
    let mut sum = 0u64;
    for k in 0..count {
        sum = sum.wrapping_add(u64::from(state.room_from(k, HEAD).unwrap_or(0)));
    }
    sum
}

/// The sum of what so many looks of this name find.
fn sum_of(state: &State, name: &str, count: u32) -> u64 {
    match name {
        "fates" => fates(state, count),
        "uses" => uses(state, count),
        "inserted" => inserted(state, count),
        "deleted" => deleted(state, count),
        "placed" => placed(state, count),
        "heap" => heaps(state, count),
        "new" => new_pages(state, count),
        "numbers" => new_numbers(state, count),
        "living" => living(state, count),
        "reusable" => reusable(state, count),
        _ => with_room(state, count),
    }
}

/// Looks so often, by the first word of what is looked for, and prints the sum of what is found.
pub(crate) fn look(bench: &Bench<'_>, state: &State, what: &str, count: u32) -> Result<()> {
    let (name, _) = what.split_once(' ').unwrap_or((what, ""));
    let start = bench.start()?;
    let sum = sum_of(state, name, count);
    bench.report(start, sum as usize, what, Figure::Each(count))
}

/// Makes each look of a list.
fn look_at_each(bench: &Bench<'_>, state: &State, looks: &str, count: u32) -> Result<()> {
    for what in looks.lines() {
        look(bench, state, what.trim(), count)?;
    }
    Ok(())
}

/// Makes each look at the state of the first log.
pub(crate) fn look_at_all(bench: &Bench<'_>, state: &State, count: u32) -> Result<()> {
    look_at_each(bench, state, LOOKS, count)
}

/// The same, after so many pages are deleted in a state.
fn find_deleted(bench: &Bench<'_>, state: &mut State, pages: u32) -> Result<()> {
    delete_pages(bench.alloc(), state, pages)?;
    look(bench, state, "reusable pages", pages)
}

/// Looks for pages to use again among so many deleted ones, of which at first all are held back.
pub(crate) fn look_for_pages(bench: &Bench<'_>, pages: u32) -> Result<()> {
    let mut state = empty(bench.alloc());
    let found = find_deleted(bench, &mut state, pages);
    drop(state);
    found
}

/// Looks in a state for pages with room for a head, after so many are full but for the last one.
fn find_room(bench: &Bench<'_>, state: &mut State, pages: u32) -> Result<()> {
    fill_pages(bench.alloc(), state, pages)?;
    look(bench, state, "room on pages", pages)
}

/// Looks for pages with room for a head among so many full ones.
pub(crate) fn look_for_room(bench: &Bench<'_>, pages: u32) -> Result<()> {
    let mut state = empty(bench.alloc());
    let found = find_room(bench, &mut state, pages);
    drop(state);
    found
}
