// What the core says of pages to take, of running transactions and of documents, against the walks.
use crate::told::{CORE_DIFFERS, PAGES};
use core_state::{Life, State};
use log_walks::{Doc, Fate, Fault, Ledger, PlainBody, PlainPage, Store, Transaction, must};
use page_types::{Change, Kind, Name, Record};

/// A page's body and the bytes that come to it are so many at most, where one of them is a free
/// slot's.
const MOST_ROOM: u32 = 8169;

/// The bytes of a large head.
const LARGE: u32 = 2029;

/// The lowest page that no record has changed.
fn lowest_unused(store: &Store) -> Option<u32> {
    let page = store.lowest_unused();
    if page < PAGES { Some(page) } else { None }
}

/// The lowest page that a record of number `since` at most has deleted.
fn lowest_deleted(store: &Store, since: u64) -> Option<u32> {
    for left in store.pages() {
        if left.shown.deleted && left.shown.stamp <= since {
            return Some(left.page);
        }
    }
    None
}

/// Whether this is a heap page.
fn is_heap(page: &PlainPage) -> bool {
    matches!(page.live(), Some(PlainBody::Heap(_)))
}

/// Whether the state names this heap page from another page on, after which it is the first, and
/// from itself on.
fn names_heap(state: &State, from: u32, page: u32) -> bool {
    state.heap_from(from) == Some(page) && state.heap_from(page) == Some(page)
}

/// Whether the state names the heap pages in order.
fn same_heaps(state: &State, store: &Store) -> bool {
    let mut from = 0u32;
    for left in store.pages() {
        if is_heap(&left.shown) {
            if !names_heap(state, from, left.page) {
                return false;
            }
            from = left.page.saturating_add(1);
        }
    }
    state.heap_from(from).is_none()
}

/// The used length that is in a page's bytes.
fn used_in(bytes: &[u8]) -> u32 {
    match (bytes.get(16), bytes.get(17)) {
        (Some(low), Some(high)) => u16::from_le_bytes([*low, *high]) as u32,
        _ => 0,
    }
}

/// The used length of a page, 0 where no record has changed it.
fn used_length(store: &Store, page: u32) -> u32 {
    match store.bytes(page) {
        Some(bytes) => used_in(bytes.as_slice()),
        None => 0,
    }
}

/// The number of the first page with room for so many bytes, of these pages, whose numbers begin
/// with this one.
fn first_with_room(store: &Store, pages: &[u32], from: u32, bytes: u32) -> Option<u32> {
    let mut number = from;
    for page in pages {
        if used_length(store, *page).saturating_add(bytes) <= MOST_ROOM {
            return Some(number);
        }
        number = number.saturating_add(1);
    }
    None
}

/// Whether the state says which of these pages has room for so many bytes, from each number on.
fn same_room(state: &State, store: &Store, pages: &[u32], bytes: u32) -> bool {
    let mut rest = pages;
    let mut from = 0u32;
    for _ in 0..pages.len().saturating_add(2) {
        if state.room_from(from, bytes) != first_with_room(store, rest, from, bytes) {
            return false;
        }
        rest = behind_first(rest);
        from = from.saturating_add(1);
    }
    true
}

/// The pages after the first one.
fn behind_first(pages: &[u32]) -> &[u32] {
    match pages {
        [_, rest @ ..] => rest,
        [] => &[],
    }
}

/// Whether the state tries heads on these pages, in order.
fn tries_pages(state: &State, pages: &[u32]) -> bool {
    let mut number = 0u32;
    for page in pages {
        if state.heap_page(number) != Some(*page) {
            return false;
        }
        number = number.saturating_add(1);
    }
    state.heap_page(number).is_none()
}

/// Whether the state tries heads on these pages, and says which of them have room: for nothing, for just what this
/// page has, for a byte more, and for a large head.
fn same_tries(state: &State, store: &Store, pages: &[u32], page: u32) -> bool {
    let rest = MOST_ROOM.saturating_sub(used_length(store, page));
    tries_pages(state, pages)
        && same_room(state, store, pages, 0)
        && same_room(state, store, pages, rest)
        && same_room(state, store, pages, rest.saturating_add(1))
        && same_room(state, store, pages, LARGE)
}

/// The first page that a record changes, or 0.
fn first_changed(changes: &[Change]) -> u32 {
    match changes.first() {
        Some(change) => change.page,
        None => 0,
    }
}

/// Whether the state names the pages to take.
fn same_pages(state: &State, store: &Store, records: u64) -> bool {
    let half = records / 2;
    state.unused() == lowest_unused(store)
        && state.extent() == PAGES
        && state.reusable(records) == lowest_deleted(store, records)
        && state.reusable(half) == lowest_deleted(store, half)
        && state.reusable(u64::MAX) == lowest_deleted(store, u64::MAX)
}

/// The name of a document.
fn name_of(doc: &Doc) -> Name {
    Name {
        page: doc.page(),
        slot: u16::try_from(doc.slot()).unwrap_or(u16::MAX),
        serial: doc.serial,
    }
}

/// The commit of a transaction that ended so.
fn commit_of(fate: Fate) -> Option<u32> {
    match fate {
        Fate::Committed(commit) => Some(commit),
        _ => None,
    }
}

/// The last commit that inserted the document.
fn inserting_commit(ledger: &Ledger, doc: &Doc) -> Option<u32> {
    let mut inserted = None;
    for transaction in &ledger.transactions {
        if transaction.placed.contains(doc) {
            inserted = commit_of(transaction.fate).or(inserted);
        }
    }
    inserted
}

/// The last commit that deleted the document.
fn deleting_commit(ledger: &Ledger, doc: &Doc) -> Option<u32> {
    let mut deleted = None;
    for transaction in &ledger.transactions {
        if transaction.marked.contains(doc) {
            deleted = commit_of(transaction.fate).or(deleted);
        }
    }
    deleted
}

/// The commits that inserted and deleted a document, where it was inserted.
fn life(ledger: &Ledger, doc: &Doc) -> Option<Life> {
    let inserted = inserting_commit(ledger, doc)?;
    let deleted = deleting_commit(ledger, doc);
    Some(Life { inserted, deleted })
}

/// Whether the state has the life of this document, and of none in the slot after its own.
fn same_life(state: &State, ledger: &Ledger, doc: &Doc) -> bool {
    let name = name_of(doc);
    let other = Name {
        slot: name.slot ^ 1,
        ..name
    };
    state.document(&name) == life(ledger, doc) && state.document(&other).is_none()
}

/// Whether the state has the life of each of these documents.
fn have_lives(state: &State, ledger: &Ledger, docs: &[Doc]) -> bool {
    for doc in docs {
        if !same_life(state, ledger, doc) {
            return false;
        }
    }
    true
}

/// Whether the state has the lives of the documents of the record's transaction, where it ends, or of
/// the document that the record places or marks.
fn same_lives(state: &State, ledger: &Ledger, record: &Record) -> bool {
    let Some(transaction) = ledger.transaction(record.xid) else {
        return true;
    };
    match record.kind {
        Kind::Commit { .. } | Kind::Abort => {
            have_lives(state, ledger, &transaction.placed)
                && have_lives(state, ledger, &transaction.marked)
        }
        Kind::PlaceHead { item, serial } | Kind::MarkDeleted { item, serial } => {
            same_life(state, ledger, &Doc { item, serial })
        }
        _ => true,
    }
}

/// Whether the names end with the last of the documents, and are as many.
fn end_alike(names: &[Name], docs: &[Doc]) -> bool {
    let ends = match (names.last(), docs.last()) {
        (Some(name), Some(doc)) => *name == name_of(doc),
        (None, None) => true,
        _ => false,
    };
    ends && names.len() == docs.len()
}

/// Whether the state and the ledger have the same of a running transaction.
fn tell_alike(told: &core_state::Transaction, walked: &Transaction) -> bool {
    end_alike(told.inserted.as_slice(), &walked.placed)
        && end_alike(told.deleted.as_slice(), &walked.marked)
}

/// Whether the state has the record's transaction, where it runs.
fn same_running(state: &State, ledger: &Ledger, record: &Record) -> bool {
    let told = state.running(record.xid);
    match (ledger.transaction(record.xid), told) {
        (Some(walked), Some(told)) => walked.fate == Fate::Running && tell_alike(told, walked),
        (Some(walked), None) => walked.fate != Fate::Running,
        (None, told) => told.is_none(),
    }
}

/// The state after a valid record, which leaves these pages, says what the walks find. Heads are
/// tried on `tried` in order.
pub(crate) fn must_choose(
    state: &State,
    ledger: &Ledger,
    store: &Store,
    tried: &[u32],
    record: &Record,
) -> Result<(), Fault> {
    let page = first_changed(record.changes.as_slice());
    let same = same_pages(state, store, ledger.records)
        && same_heaps(state, store)
        && same_tries(state, store, tried, page)
        && same_running(state, ledger, record)
        && same_lives(state, ledger, record);
    must(same, CORE_DIFFERS)
}
