// The state after each record of a log, of records that no store would write, and before the first one; which page
// is taken then, and which records may come next.
use crate::rows::{cut, long, number, see, word};
use crate::state_rows::{LOGS, TAKEN, VALID};
use core_state::{
    State, history_is_one, keys_are_one, newest_may_go, pages_are_shown, state_follows,
    valid_abort, valid_begin, valid_commit, valid_create, valid_is_monotone, valid_place_head,
};
use page_space::{SpaceError, take};
use page_types::{
    Body, Bytes, Change, Changes, Edit, Entries, HeadFields, HeadRef, Kind, Name, Page, Record,
    Slots,
};
use std::alloc::{AllocError, Global};
use std::process::Abort;
use std::test::Fail;

/// The kind that words stand for.
fn kind_of(words: &str) -> Kind {
    let (name, rest) = word(words);
    let (first, second) = word(rest);
    let item = number(first);
    let serial = long(second);
    match name {
        "Create" => Kind::Create,
        "Begin" => Kind::Begin,
        "Commit" => Kind::Commit { commit: item },
        "Abort" => Kind::Abort,
        "Checkpoint" => Kind::Checkpoint { redo: long(first) },
        "PlaceHead" => Kind::PlaceHead { item, serial },
        "MarkDeleted" => Kind::MarkDeleted { item, serial },
        "DeletePost" => Kind::DeletePost,
        _ => Kind::FreeSlots,
    }
}

/// The changes of these pages, which get this first byte.
pub(crate) fn changes_of(alloc: Global, pages: &str, front: u8) -> Result<Changes, AllocError> {
    let mut changes = Changes::new(alloc);
    for page in pages.split_whitespace() {
        let edit = Edit::Delta {
            front: [front, 0, 0, 0, 0, 0, 0, 0],
            start: 0,
            cut: 0,
            bytes: Bytes::from_slice(alloc, &[])?,
        };
        let page = number(page);
        changes.push(Change { page, edit })?;
    }
    Ok(changes)
}

/// The record that comes next, of this xid and kind.
fn record(
    alloc: Global,
    state: &State,
    words: &str,
    pages: &str,
    front: u8,
) -> Result<Record, AllocError> {
    let (xid, kind) = word(words);
    Ok(Record {
        number: state.length().wrapping_add(1),
        xid: number(xid),
        kind: kind_of(kind),
        changes: changes_of(alloc, pages, front)?,
    })
}

/// Appends names.
fn put_names(text: &mut String, sign: &str, names: &[Name]) -> Result<(), AllocError> {
    write!(text, " {sign}")?;
    for name in names {
        let Name { page, slot, serial } = *name;
        write!(text, " {page}/{slot}#{serial}")?;
    }
    Ok(())
}

/// Appends the names of each commit.
fn put_commits(text: &mut String, state: &State) -> Result<(), AllocError> {
    for commit in 1..=state.commits() {
        put_names(text, "-", state.deleted(commit))?;
        put_names(text, "+", state.inserted(commit))?;
        text.push_str(",")?;
    }
    Ok(())
}

/// Appends the old heap pages.
fn put_heap(text: &mut String, state: &State) -> Result<(), AllocError> {
    text.push_str(" heap")?;
    for k in 0..4 {
        if let Some(page) = state.heap_page(k) {
            write!(text, " {page}")?;
        }
    }
    Ok(())
}

/// What a state says.
fn tell(alloc: Global, state: &State) -> Result<String, AllocError> {
    let (length, xid) = (state.length(), state.next_xid());
    let (serial, commits) = (state.next_serial(), state.commits());
    let runs = if state.has_running() { " runs," } else { "" };
    let mut text = format!(in alloc;
        "{length}: xid {xid}, serial {serial}, commits {commits},{runs}"
    )?;
    put_commits(&mut text, state)?;
    let redo = state.redo();
    if redo != 1 {
        write!(text, " redo {redo},")?;
    }
    put_heap(&mut text, state)?;
    Ok(text)
}

/// What a state says, once more where that is refused.
fn told(alloc: Global, state: &State) -> Result<String, AllocError> {
    match tell(alloc, state) {
        Ok(text) => Ok(text),
        Err(_) => tell(alloc, state),
    }
}

/// A record more, once more where it is refused. Room is made for it before where its number is even.
fn take_record(state: &mut State, record: &Record) -> Result<(), AllocError> {
    let has_no_room = record.number % 2 == 0 && state.make_room(record).is_err();
    if has_no_room || state.step(record).is_err() {
        return state.step(record);
    }
    Ok(())
}

/// Whether the state says what its row says after a record more.
fn is_followed(alloc: Global, state: &mut State, row: &str) -> Result<bool, AllocError> {
    let (words, rest) = cut(row);
    let (pages, rest) = cut(rest);
    let (front, tells) = cut(rest);
    let front = front.parse().unwrap_or(0);
    let next = match record(alloc, state, words, pages, front) {
        Ok(record) => record,
        Err(_) => record(alloc, state, words, pages, front)?,
    };
    take_record(state, &next)?;
    Ok(told(alloc, state)?.as_str() == tells)
}

/// The fields of a head: the one that is placed first, a new one with serial 2 of transaction 1, or one that
/// differs from it.
fn head(name: &str) -> HeadFields {
    let mut fields = HeadFields {
        serial: 2,
        inserted_by: 1,
        deleted_by: 0,
        overflow: 0,
        private: 0,
        bytes: 0,
    };
    match name {
        "First" => fields.serial = 1,
        "Foreign" => fields.inserted_by = 2,
        "Marked" => fields.deleted_by = 1,
        "Long" => fields.overflow = 7,
        "Keyed" => fields.private = 7,
        _ => {}
    }
    fields
}

/// The slots with these heads.
fn slots_of(alloc: Global, names: &str) -> Result<Slots, AllocError> {
    let mut slots = Slots::new(alloc);
    for name in names.split_whitespace() {
        let fields = head(name);
        let vector = &[];
        slots.push(Some(HeadRef { fields, vector }))?;
    }
    Ok(slots)
}

/// The page that words stand for: a heap page with a right link and heads, a metapage with a first page, an empty
/// leaf of the entry tree, or one that no record has changed.
fn page(alloc: Global, words: &str, stamp: u64) -> Result<Page, AllocError> {
    let (kind, rest) = word(words);
    let (link, names) = word(rest);
    let link = number(link);
    let body = match kind {
        "heap" => Body::Heap(slots_of(alloc, names)?),
        "meta" => Body::Meta {
            first: link,
            last: 0,
            pages: 0,
        },
        "leaf" => Body::EntryLeaf {
            high: Bytes::from_slice(alloc, &[])?,
            entries: Entries::new(alloc),
        },
        _ => Body::Free,
    };
    let right = if kind == "heap" { link } else { 0 };
    Ok(Page { right, stamp, body })
}

/// The pages that words stand for.
fn pages_of(alloc: Global, words: &str, stamp: u64) -> Result<Vec<Page>, AllocError> {
    let mut pages = Vec::new(alloc);
    for words in words.split_terminator(',') {
        pages.push(page(alloc, words.trim(), stamp)?)?;
    }
    Ok(pages)
}

/// A record, its pages before and after, and since.
#[derive(Clone, Copy)]
struct Move<'a> {
    record: &'a Record,
    before: &'a [Page],
    after: &'a [Page],
    since: u64,
}

/// Puts the names of the calls that find a record valid, of those of Create, Begin, Commit, Abort and PlaceHead.
fn put_valid(
    alloc: Global,
    out: &mut String,
    state: &State,
    m: &Move<'_>,
) -> Result<(), AllocError> {
    if valid_create(state, m.record, m.before, m.after, 0, m.since)? {
        out.push_str("Create")?;
    }
    if valid_begin(state, m.record, m.before, m.after, 0, m.since)? {
        out.push_str("Begin")?;
    }
    if valid_commit(state, m.record, m.before, m.after, 0, m.since)? {
        out.push_str("Commit")?;
    }
    if valid_abort(state, m.record, m.before, m.after, 0, m.since)? {
        out.push_str("Abort")?;
    }
    if valid_place_head(alloc, state, m.record, m.before, m.after, 0, m.since)? {
        out.push_str("PlaceHead")?;
    }
    Ok(())
}

/// Whether a record is found valid by the call that words say, with these pages before and after, and since.
fn is_valid(
    alloc: Global,
    state: &State,
    record: &Record,
    words: &str,
) -> Result<bool, AllocError> {
    let (before, rest) = cut(words);
    let (after, rest) = cut(rest);
    let (since, call) = cut(rest);
    let olds = pages_of(alloc, before, 0)?;
    let news = pages_of(alloc, after, record.number)?;
    let m = Move {
        record,
        before: &olds,
        after: &news,
        since: long(since),
    };
    let mut found = String::new(alloc);
    put_valid(alloc, &mut found, state, &m)?;
    Ok(found.as_str() == if call == "none" { "" } else { call })
}

/// Whether a record is found valid by the call that its row says, and by no other.
fn is_found(alloc: Global, state: &State, row: &str) -> Result<bool, AllocError> {
    let (words, rest) = cut(row);
    let (pages, rest) = cut(rest);
    let record = record(alloc, state, words, pages, 2)?;
    is_valid(alloc, state, &record, rest)
}

/// Whether this page is taken, or none is.
fn takes_page(state: &State, since: u64, page: &str) -> bool {
    match take(state, since) {
        Ok(taken) => taken == number(page),
        Err(SpaceError::StoreFull) => page == "full",
    }
}

/// Whether a look at a state gives what its row says.
fn tells(alloc: Global, state: &State, verb: &str, words: &str) -> Result<bool, AllocError> {
    let (first, second) = word(words);
    let n = number(first);
    let text = match verb {
        "limits" => return Ok(state.pages() == n && state.xid_limit() == number(second)),
        "take" => return Ok(takes_page(state, u64::from(n), second)),
        "fate" => format!(in alloc; "{:?}", state.fate(n))?,
        _ => format!(in alloc; "{:?}", state.use_of(n))?,
    };
    Ok(text.as_str() == second)
}

/// Begins a run; whether this is the one heap page then.
fn starts(state: &mut State, page: &str) -> bool {
    state.start_run();
    state.heap_page(0) == Some(number(page)) && state.heap_page(1).is_none()
}

/// Whether a row holds.
fn holds(alloc: Global, state: &mut State, row: &str) -> Result<bool, AllocError> {
    let (verb, words) = word(row);
    match verb {
        "new" => {
            let (pages, xids) = word(words);
            *state = State::new(alloc, number(pages), number(xids));
            Ok(true)
        }
        "start" => Ok(starts(state, words)),
        "limits" | "take" | "fate" | "use" => tells(alloc, state, verb, words),
        "valid" => is_found(alloc, state, words),
        _ => is_followed(alloc, state, row),
    }
}

/// Each row holds.
fn follow(rt: &impl Abort, alloc: Global, state: &mut State, rows: &str) -> Result<(), AllocError> {
    for row in rows.lines() {
        see(rt, holds(alloc, state, row.trim())?, row);
    }
    Ok(())
}

#[test]
fn a_state_follows_its_log(rt: HostRuntime) -> Result<(), Fail> {
    let alloc = rt.alloc();
    let mut state = State::new(alloc, 0, 0);
    follow(&rt, alloc, &mut state, LOGS)?;
    follow(&rt, alloc, &mut state, TAKEN)?;
    follow(&rt, alloc, &mut state, VALID)?;
    Ok(())
}

/// The laws are there to be cited.
#[test]
fn laws() {
    keys_are_one();
    pages_are_shown();
    valid_is_monotone();
    newest_may_go();
    history_is_one();
    state_follows();
}
