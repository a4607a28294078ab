// A store's own calls, row by row, under limits that no script can set, and by two sessions in turn.
ghost use Rattle.std.specs.Prelude.{◌≡◌, ◌≤◌};
ghost use Rattle.engine.specs.Answers.{IsSession, KeepsSessions};
ghost use Rattle.wal.specs.declared.sizes.TheConstants.{LOG_LIMIT};
ghost use Rattle.page_types.specs.Numbers.{page_limit};
ghost use Rattle.core_state.specs.Log.{xid_bound};

use crate::runs::empty;
use crate::tally::Tally;
use disk_trait::{Disk, File, MemoryDisk};
use engine::{Db, DbError, Name, Pass, Settings, WIDEST};
use std::alloc::Global;
use ts_query::TsQuery;
use ts_vector::TsVector;

/// A store in which a third transaction finds no xid: what needs none is answered as ever.
const SPENT: Settings = Settings {
    xid_limit: 3,
    ..WIDEST
};

/// Limits of logs that have room for one document. To a second insert the first of them refuses the head, the next its
/// row, one byte being short, and the last its Commit, one byte being short.
const SHORT: u64 = 65_536;

const ROWLESS: u64 = 74_026;

const UNENDED: u64 = 74_048;

/// That of a log that has just room for two.
const JUST: u64 = 74_049;

/// That of one in which, after two documents, a deletion's mark finds room, and then neither its Commit nor its Abort.
const BARELY: u64 = 82_310;

/// Calls of each with what they are answered: names, or why not.
const SPENT_ROWS: &str = "\
insert a:1 | 2/0#1
insert a:1 | 2/1#2
insert a:1 | transactions spent
delete 2/0#1 | transactions spent
delete 2/2#3 | no document
cleanup |
vacuum |
search a | 2/0#1 2/1#2";

/// What is refused is never found. A cleanup has no room for its first record.
const SHORT_ROWS: &str = "\
insert a:1 | 2/0#1
insert a:1 | log full
search a | 2/0#1
delete 2/0#1 | log full
update 2/0#1 a:2 | log full
cleanup | log full
search a | 2/0#1";

const JUST_ROWS: &str = "\
insert a:1 | 2/0#1
insert a:1 | 2/1#2
insert a:1 | log full
cleanup | log full
search a | 2/0#1 2/1#2";

const BARELY_ROWS: &str = "\
insert a:1 | 2/0#1
insert a:1 | 2/1#2
delete 2/0#1 | log full
delete 2/0#1 | log full
cleanup | log full
search a | 2/0#1 2/1#2";

/// Such a store, opened again with the widest limits: after one document, and after two.
const ONE_ROWS: &str = "\
search a | 2/0#1
cleanup |
insert a:1 | 2/1#2
search a | 2/0#1 2/1#2";

const WIDE_ROWS: &str = "\
search a | 2/0#1 2/1#2
cleanup |
search a | 2/0#1 2/1#2
delete 2/0#1 |
delete 2/0#1 | no document
search a | 2/1#2
insert a:1 | 2/2#3";

/// A store that two sessions share: each sees what the other has committed, and takes no part in what it deletes.
const SHARED_ROWS: &str = "\
insert a:1 | 2/0#1
other search a | 2/0#1
other insert a:2 | 2/1#2
cleanup |
search a | 2/0#1 2/1#2
other update 2/0#1 a:3 | 2/2#3
delete 2/0#1 | no document
insert b:1 | 2/3#4
other delete 2/1#2 |
search a | 2/2#3
other search b | 2/3#4
other cleanup |
search a | 2/2#3
other vacuum |
insert c:1 | 2/0#5
other search !b | 2/2#3 2/0#5";

/// What a call answers.
type Answer = Result<Vec<Name>, DbError>;

/// The name that a word is.
fn name_of(word: &str) -> Name {
    let (page, rest) = word.split_once('/').unwrap_or((word, ""));
    let (slot, serial) = rest.split_once('#').unwrap_or((rest, ""));
    Name {
        page: page.parse().unwrap_or(0),
        slot: slot.parse().unwrap_or(0),
        serial: serial.parse().unwrap_or(0),
    }
}

/// One name alone.
fn alone(alloc: Global, stored: Result<Name, DbError>) -> Answer {
    let name = stored?;
    match vec![in alloc; name] {
        Ok(names) => Ok(names),
        Err(_) => Err(DbError::OutOfMemory),
    }
}

/// What the store answers an insert of this vector, or an update of the document with a name.
fn put(
    store: &mut Db<MemoryDisk>,
    pass: &mut Pass,
    old: Option<Name>,
    vector: &TsVector,
) -> Result<Name, DbError>
    requires session { IsSession store.old pass.old }
    ensures session { IsSession store.new pass.new }
    ensures room { pass.new.room ≡ pass.old.room }
    ensures others { KeepsSessions store.old store.new }
{
    match old {
        Some(name) => store.update(pass, name, vector),
        None => store.insert(pass, vector),
    }
}

/// What the store answers a call. A text that is no query or vector is answered as if there were no memory.
fn answer(alloc: Global, store: &mut Db<MemoryDisk>, pass: &mut Pass, call: &str) -> Answer
    requires session { IsSession store.old pass.old }
    ensures session { IsSession store.new pass.new }
    ensures room { pass.new.room ≡ pass.old.room }
    ensures others { KeepsSessions store.old store.new }
{
    let (verb, words) = call.split_once(' ').unwrap_or((call, ""));
    if verb == "search" {
        return match TsQuery::parse(alloc, words) {
            Ok(query) => store.search(pass, &query),
            Err(_) => Err(DbError::OutOfMemory),
        };
    }
    let (first, rest) = words.split_once(' ').unwrap_or((words, ""));
    if verb == "delete" {
        store.delete(pass, name_of(first))?;
        return Ok(Vec::new(alloc));
    }
    if verb == "cleanup" {
        store.cleanup(pass)?;
        return Ok(Vec::new(alloc));
    }
    if verb == "vacuum" {
        store.vacuum(pass)?;
        return Ok(Vec::new(alloc));
    }
    let (old, text) = if verb == "update" {
        (Some(name_of(first)), rest)
    } else {
        (None, words)
    };
    match TsVector::parse(alloc, text) {
        Ok(vector) => alone(alloc, put(store, pass, old, &vector)),
        Err(_) => Err(DbError::OutOfMemory),
    }
}

/// Whether these words are the names.
fn are_named(names: &[Name], wanted: &str) -> bool {
    let mut words = wanted.split_whitespace();
    for name in names {
        match words.next() {
            Some(word) if name_of(word) == *name => {}
            _ => return false,
        }
    }
    words.next().is_none()
}

/// Whether a refusal has these words.
fn says(alloc: Global, refusal: &DbError, wanted: &str) -> bool {
    match format!(in alloc; "{refusal}") {
        Ok(words) => words.as_str() == wanted,
        Err(_) => false,
    }
}

/// Whether a call of the second session, which begins with `other`, or of the first is answered by these names, or
/// refused with these words.
fn answers(
    alloc: Global,
    store: &mut Db<MemoryDisk>,
    pass: &mut Pass,
    other: &mut Pass,
    row: &str,
) -> bool
    requires session { IsSession store.old pass.old }
    requires other { IsSession store.old other.old }
    ensures session { IsSession store.new pass.new }
    ensures other { IsSession store.new other.new }
    ensures rooms { (pass.new.room ≡ pass.old.room) × (other.new.room ≡ other.old.room) }
{
    let (call, wanted) = row.split_once('|').unwrap_or((row, ""));
    let answered = match call.strip_prefix("other ") {
        Some(call) => answer(alloc, store, other, call.trim()),
        None => answer(alloc, store, pass, call.trim()),
    };
    match answered {
        Ok(names) => are_named(&names, wanted),
        Err(refusal) => says(alloc, &refusal, wanted.trim()),
    }
}

/// Each call of these rows is answered as its row says.
fn follow(
    rt: &(impl Print + AllocGlobal),
    store: &mut Db<MemoryDisk>,
    pass: &mut Pass,
    other: &mut Pass,
    rows: &str,
    tally: &mut Tally,
)
    requires session { IsSession store.old pass.old }
    requires other { IsSession store.old other.old }
    ensures session { IsSession store.new pass.new }
    ensures other { IsSession store.new other.new }
    ensures rooms { (pass.new.room ≡ pass.old.room) × (other.new.room ≡ other.old.room) }
{
    for row in rows.lines() {
        let holds = answers(rt.alloc(), store, pass, other, row);
        tally.see(rt, holds, row, 0);
    }
}

/// Two sessions of a store with these limits over a device: each call of the rows is answered as its row says, what
/// both have seen is seen by the first when the second ends, and the log does not pass its limit. The device that
/// they leave.
fn see_rows(
    rt: &(impl Print + AllocGlobal),
    disk: MemoryDisk,
    settings: Settings,
    rows: &str,
    tally: &mut Tally,
) -> MemoryDisk
    requires log { settings.log_limit ≤ LOG_LIMIT }
    requires xids { settings.xid_limit ≤ xid_bound }
    requires pages { settings.pages ≤ page_limit }
{
    let (mut store, mut pass) = match Db::open(rt.alloc(), disk, settings) {
        Ok(opened) => opened,
        Err(unopened) => {
            tally.see(rt, false, "a store that is opened", 0);
            return unopened.store;
        }
    };
    let mut other = store.split(&mut pass);
    follow(rt, &mut store, &mut pass, &mut other, rows, tally);
    store.join(&mut pass, other);
    let mut disk = store.close(pass);
    let within = match disk.length(File::Log) {
        Ok(len) => len <= settings.log_limit,
        Err(_) => false,
    };
    tally.see(rt, within, "a log within its limit", settings.log_limit);
    disk
}

/// A new store whose log has this limit, which is opened again with the widest limits.
fn see_narrow(
    rt: &(impl Print + AllocGlobal),
    log_limit: u64,
    rows: &str,
    wide: &str,
    tally: &mut Tally,
)
    requires log { log_limit ≤ LOG_LIMIT }
{
    let narrow = Settings {
        log_limit,
        ..WIDEST
    };
    let disk = see_rows(rt, empty(rt.alloc()), narrow, rows, tally);
    drop(see_rows(rt, disk, WIDEST, wide, tally));
}

/// Stores with narrow limits, each opened again with wide ones but where no xid is left, and one that two sessions
/// share.
pub fn see_calls(rt: &(impl Print + AllocGlobal), tally: &mut Tally) {
    drop(see_rows(rt, empty(rt.alloc()), SPENT, SPENT_ROWS, tally));
    see_narrow(rt, SHORT, SHORT_ROWS, ONE_ROWS, tally);
    see_narrow(rt, ROWLESS, SHORT_ROWS, ONE_ROWS, tally);
    see_narrow(rt, UNENDED, SHORT_ROWS, ONE_ROWS, tally);
    see_narrow(rt, JUST, JUST_ROWS, WIDE_ROWS, tally);
    see_narrow(rt, BARELY, BARELY_ROWS, WIDE_ROWS, tally);
    drop(see_rows(rt, empty(rt.alloc()), WIDEST, SHARED_ROWS, tally));
}
