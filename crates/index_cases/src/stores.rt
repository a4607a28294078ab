// Inserts, searches and deletions, by the calls of a store. A call that memory refused is made once more.
ghost use Rattle.std.specs.Prelude.{◌≡◌, IfOk};
ghost use Rattle.engine.specs.Answers.{IsSession};

use crate::documents::next_document;
use crate::pages::synced;
use crate::rows::{Row, number, word};
use crate::{exchange, given, refused};
use anyhow::Result;
use bench_base::{Bench, Figure};
use disk_trait::MemoryDisk;
use engine::{Db, DbError, Name, OpenFault, Pass, Unopened, WIDEST};
use std::alloc::Global;
use std::result;
use ts_query::TsQuery;
use ts_vector::TsVector;

/// Inserts a document: its serial.
fn insert(store: &mut Db<MemoryDisk>, pass: &mut Pass, vector: TsVector) -> Option<u64>
    requires session { IsSession store.old pass.old }
    ensures session { IsSession store.new pass.new }
    ensures room { pass.new.room ≡ pass.old.room }
{
    let stored = match store.insert(pass, &vector) {
        Err(DbError::OutOfMemory) => store.insert(pass, &vector),
        stored => stored,
    };
    drop(vector);
    match stored {
        Ok(name) => Some(name.serial),
        Err(_) => None,
    }
}

/// Inserts so many documents of these words, or of drawn ones where there are none: how many, and the serial of the
/// last one.
fn insert_all(
    alloc: Global,
    store: &mut Db<MemoryDisk>,
    pass: &mut Pass,
    words: &str,
    times: u32,
) -> Option<(usize, u64)>
    requires session { IsSession store.old pass.old }
    ensures session { IsSession store.new pass.new }
    ensures room { pass.new.room ≡ pass.old.room }
{
    let mut drawn = 0;
    let mut last = 0;
    for _ in 0..times {
        let vector = next_document(alloc, words, &mut drawn)?;
        last = insert(store, pass, vector)?;
    }
    Some((times as usize, last))
}

/// Searches for documents: their names.
fn search(store: &mut Db<MemoryDisk>, pass: &mut Pass, query: &TsQuery) -> Option<Vec<Name>>
    requires session { IsSession store.old pass.old }
    ensures session { IsSession store.new pass.new }
    ensures room { pass.new.room ≡ pass.old.room }
{
    let found = match store.search(pass, query) {
        Err(DbError::OutOfMemory) => store.search(pass, query),
        found => found,
    };
    match found {
        Ok(names) => Some(names),
        Err(_) => None,
    }
}

/// Searches so often: how many documents are found, and the name of the last one.
fn search_often(
    store: &mut Db<MemoryDisk>,
    pass: &mut Pass,
    query: &TsQuery,
    times: u32,
) -> Option<(usize, Option<Name>)>
    requires session { IsSession store.old pass.old }
    ensures session { IsSession store.new pass.new }
    ensures room { pass.new.room ≡ pass.old.room }
{
    let mut found = (0, None);
    for _ in 0..times {
        let names = search(store, pass, query)?;
        found = (names.len(), names.last().copied());
    }
    Some(found)
}

/// Deletes a document.
fn delete(store: &mut Db<MemoryDisk>, pass: &mut Pass, name: Name) -> result::Result<(), DbError>
    requires session { IsSession store.old pass.old }
    ensures session { IsSession store.new pass.new }
    ensures room { pass.new.room ≡ pass.old.room }
{
    match store.delete(pass, name) {
        Err(DbError::OutOfMemory) => store.delete(pass, name),
        deleted => deleted,
    }
}

/// Deletes the first of these documents, and each that is so many after one that it deletes: how many, and the serial
/// of the last one.
fn delete_each(
    store: &mut Db<MemoryDisk>,
    pass: &mut Pass,
    names: &[Name],
    step: u32,
) -> Option<(usize, u64)>
    requires session { IsSession store.old pass.old }
    ensures session { IsSession store.new pass.new }
    ensures room { pass.new.room ≡ pass.old.room }
{
    let mut deleted = (0usize, 0);
    let mut left = 1u32;
    for name in names {
        left = left.saturating_sub(1);
        if left == 0 {
            delete(store, pass, *name).ok()?;
            deleted = (deleted.0.saturating_add(1), name.serial);
            left = step;
        }
    }
    Some(deleted)
}

/// Deletes each so many-th document that satisfies a query: how many, and the serial of the last one.
fn delete_some(
    store: &mut Db<MemoryDisk>,
    pass: &mut Pass,
    query: &TsQuery,
    step: &str,
) -> Option<(usize, u64)>
    requires session { IsSession store.old pass.old }
    ensures session { IsSession store.new pass.new }
    ensures room { pass.new.room ≡ pass.old.room }
{
    let names = search(store, pass, query)?;
    delete_each(store, pass, &names, number(step))
}

/// Searches so often: how many documents are found, or the slot of the last one, and its serial.
fn look(
    store: &mut Db<MemoryDisk>,
    pass: &mut Pass,
    query: &TsQuery,
    row: Row<'_>,
) -> Option<(usize, u64)>
    requires session { IsSession store.old pass.old }
    ensures session { IsSession store.new pass.new }
    ensures room { pass.new.room ≡ pass.old.room }
{
    match search_often(store, pass, query, row.times)? {
        (_, Some(name)) if row.verb == "slot" => Some((usize::from(name.slot), name.serial)),
        (count, Some(name)) => Some((count, name.serial)),
        (count, None) => Some((count, 0)),
    }
}

/// Inserts, deletes or searches so often, or asks for a slot, by the words of a row.
fn call(
    alloc: Global,
    store: &mut Db<MemoryDisk>,
    pass: &mut Pass,
    row: Row<'_>,
) -> Option<(usize, u64)>
    requires session { IsSession store.old pass.old }
    ensures session { IsSession store.new pass.new }
    ensures room { pass.new.room ≡ pass.old.room }
{
    if row.verb == "insert" {
        return insert_all(alloc, store, pass, row.words, row.times);
    }
    if row.verb == "delete" {
        let (step, text) = word(row.words);
        let query = TsQuery::parse(alloc, text).ok()?;
        return delete_some(store, pass, &query, step);
    }
    let query = TsQuery::parse(alloc, row.words).ok()?;
    look(store, pass, &query, row)
}

/// The same, and prints how many documents are stored, deleted or found, or the slot, and the serial of the last one.
fn work_on(
    bench: &Bench<'_>,
    store: &mut Db<MemoryDisk>,
    pass: &mut Pass,
    row: Row<'_>,
) -> Result<()>
    requires session { IsSession store.old pass.old }
    ensures session { IsSession store.new pass.new }
    ensures room { pass.new.room ≡ pass.old.room }
{
    let start = bench.start()?;
    let Some((count, last)) = call(bench.alloc(), store, pass, row) else {
        return Err(refused("a call of the store is refused"));
    };
    bench.report(start, count, row.title, Figure::Each(row.times))?;
    bench.count(last, "is the last serial")
}

/// A store, and its pass; else its device, and why.
type Opened = result::Result<(Db<MemoryDisk>, Pass), Unopened<MemoryDisk>>;

/// The store of a device.
fn open(alloc: Global, disk: MemoryDisk) -> Opened
    ensures session { IfOk result (λ x. IsSession x.0 x.1) }
    ensures room { IfOk result (λ x. (x.1).room ≡ 16) }
{
    match Db::open(alloc, disk, WIDEST) {
        Err(
            Unopened {
                store,
                why: OpenFault::OutOfMemory,
            },
        ) => Db::open(alloc, store, WIDEST),
        opened => opened,
    }
}

/// Does what a row says with the store of a device: the device then.
fn run_over(bench: &Bench<'_>, disk: MemoryDisk, row: Row<'_>) -> Result<MemoryDisk> {
    match open(bench.alloc(), disk) {
        Ok((mut store, mut pass)) => {
            let done = work_on(bench, &mut store, &mut pass, row);
            given(done, store.close(pass))
        }
        Err(unopened) => given(Err(refused("a store is not opened")), unopened.store),
    }
}

/// The same with what is synced of a device, which is left as it is where the row is refused.
pub(crate) fn run(bench: &Bench<'_>, disk: &mut MemoryDisk, row: Row<'_>) -> Result<()> {
    let image = synced(bench.alloc(), disk)?;
    exchange(disk, run_over(bench, image.disk, row)?);
    Ok(())
}
