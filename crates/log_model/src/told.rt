// What the core says of a log: its tests of the kinds of records that it has, and its state.
ghost use Rattle.std.specs.Prelude.{IfOk};
ghost use Rattle.std.specs.List.{All};
ghost use Rattle.page_types.specs.Pages.{IsPage};

use core_state::{
    Fate, PageUse, State, XID_BOUND, valid_abort, valid_add_items, valid_add_postings,
    valid_add_row, valid_begin, valid_commit, valid_create, valid_grow_root, valid_link_pending,
    valid_make_tree, valid_mark_deleted, valid_place_head, valid_put_overflow, valid_put_pending,
    valid_shift, valid_split,
};
use core_vacuum::{valid_delete_post, valid_drop_page, valid_free_slots, valid_remove_items};
use log_rows::{Step, here};
use log_walks::{Doc, Fault, Ledger, LeftBytes, LeftPage, Rules, Store, Transaction, must};
use page_code::{PageError, decode_page};
use page_types::{Kind, Name, Page, Record, zero_page};
use std::alloc::{AllocError, Global};

/// The rule that is broken where the core and the walks say otherwise of a record.
pub(crate) const CORE_DIFFERS: &str = "the core and the walks agree";

/// A log's pages are below this.
pub(crate) const PAGES: u32 = 1_048_576;

/// The state of the empty log.
pub(crate) fn empty_state(alloc: Global) -> State {
    State::new(alloc, PAGES, XID_BOUND)
}

/// The page that the bytes encode.
fn page_of(alloc: Global, bytes: &[u8]) -> Result<Page, Fault>
    ensures { IfOk result IsPage }
{
    match decode_page(alloc, bytes) {
        Ok(page) => Ok(page),
        Err(PageError::OutOfMemory) => Err(Fault::OutOfMemory),
        Err(PageError::BadPage { .. }) => Err(Fault::Broken(
            "the bytes of a page are its encoding",
        )),
    }
}

/// A page of the store; one that no record has changed is of zeros.
fn page_before(alloc: Global, store: &Store, page: u32) -> Result<Page, Fault>
    ensures { IfOk result IsPage }
{
    match store.bytes(page) {
        Some(bytes) => page_of(alloc, bytes.as_slice()),
        None => page_of(alloc, &zero_page(alloc)?),
    }
}

/// The pages that a record changes, as it finds and as it leaves them.
#[derive(Drop)]
struct Pages {
    /// Before it.
    before: Vec<Page>,
    /// After it.
    behind: Vec<Page>,
}

impl Pages {
    /// One page more.
    fn push(&mut self, alloc: Global, store: &Store, left: &LeftBytes) -> Result<(), Fault>
        requires before { All IsPage self.old.before.items }
        requires behind { All IsPage self.old.behind.items }
        ensures before { All IsPage self.new.before.items }
        ensures behind { All IsPage self.new.behind.items }
    {
        let before = page_before(alloc, store, left.page)?;
        self.before.push(before)?;
        let behind = page_of(alloc, left.bytes.as_slice())?;
        Ok(self.behind.push(behind)?)
    }
}

/// The pages that a record changes, which have these bytes after it.
fn pages_of(alloc: Global, store: &Store, bytes: &[LeftBytes]) -> Result<Pages, Fault>
    ensures before { IfOk result (λ p. All IsPage p.before.items) }
    ensures behind { IfOk result (λ p. All IsPage p.behind.items) }
{
    let mut pages = Pages {
        before: Vec::new(alloc),
        behind: Vec::new(alloc),
    };
    for left in bytes {
        pages.push(alloc, store, left)?;
    }
    Ok(pages)
}

/// Whether the core finds that a record of a transaction's end or beginning may come next; none of another kind.
fn test_transaction(
    state: &State,
    record: &Record,
    pages: &Pages,
) -> Result<Option<bool>, AllocError> {
    let floor = state.commits();
    let since = record.number;
    let before = pages.before.as_slice();
    let behind = pages.behind.as_slice();
    let found = match record.kind {
        Kind::Create => valid_create(state, record, before, behind, floor, since),
        Kind::Begin => valid_begin(state, record, before, behind, floor, since),
        Kind::Commit { .. } => valid_commit(state, record, before, behind, floor, since),
        Kind::Abort => valid_abort(state, record, before, behind, floor, since),
        _ => return Ok(None),
    };
    Ok(Some(found?))
}

/// The same of a record that places or marks a head, or puts a part of a vector.
fn test_head(
    alloc: Global,
    state: &State,
    record: &Record,
    pages: &Pages,
) -> Result<Option<bool>, AllocError> {
    let floor = state.commits();
    let since = record.number;
    let before = pages.before.as_slice();
    let behind = pages.behind.as_slice();
    let found = match record.kind {
        Kind::PlaceHead { .. } => {
            valid_place_head(alloc, state, record, before, behind, floor, since)
        }
        Kind::PutOverflow { .. } => {
            valid_put_overflow(state, record, before, behind, floor, since)
        }
        Kind::MarkDeleted { .. } => {
            valid_mark_deleted(state, record, before, behind, floor, since)
        }
        _ => return Ok(None),
    };
    Ok(Some(found?))
}

/// The same of a record of a document's rows.
fn test_rows(state: &State, record: &Record, pages: &Pages) -> Result<Option<bool>, AllocError> {
    let floor = state.commits();
    let since = record.number;
    let before = pages.before.as_slice();
    let behind = pages.behind.as_slice();
    let found = match record.kind {
        Kind::PutPending { .. } => valid_put_pending(state, record, before, behind, floor, since),
        Kind::AddRow { .. } => valid_add_row(state, record, before, behind, floor, since),
        Kind::LinkPending { .. } => {
            valid_link_pending(state, record, before, behind, floor, since)
        }
        _ => return Ok(None),
    };
    Ok(Some(found?))
}

/// The same of a record that changes the index.
fn test_index(state: &State, record: &Record, pages: &Pages) -> Result<Option<bool>, AllocError>
    requires before { All IsPage pages.now.before.items }
    requires behind { All IsPage pages.now.behind.items }
{
    let floor = state.commits();
    let since = record.number;
    let before = pages.before.as_slice();
    let behind = pages.behind.as_slice();
    let found = match record.kind {
        Kind::Shift => valid_shift(state, record, before, behind, floor, since),
        Kind::AddItems => valid_add_items(state, record, before, behind, floor, since),
        Kind::MakeTree => valid_make_tree(state, record, before, behind, floor, since),
        Kind::AddPostings => valid_add_postings(state, record, before, behind, floor, since),
        Kind::GrowRoot => valid_grow_root(state, record, before, behind, floor, since),
        Kind::Split => valid_split(state, record, before, behind, floor, since),
        _ => return Ok(None),
    };
    Ok(Some(found?))
}

/// The same of a record that takes dead documents out.
fn test_vacuum(state: &State, record: &Record, pages: &Pages) -> Result<Option<bool>, AllocError>
    requires before { All IsPage pages.now.before.items }
    requires behind { All IsPage pages.now.behind.items }
{
    let floor = state.commits();
    let since = record.number;
    let before = pages.before.as_slice();
    let behind = pages.behind.as_slice();
    let found = match record.kind {
        Kind::RemoveItems => valid_remove_items(state, record, before, behind, floor, since),
        Kind::DeletePost => valid_delete_post(state, record, before, behind, floor, since),
        Kind::DropPage { .. } => valid_drop_page(state, record, before, behind, floor, since),
        Kind::FreeSlots => valid_free_slots(state, record, before, behind, floor, since),
        _ => return Ok(None),
    };
    Ok(Some(found?))
}

/// Whether the core finds that a record may come next, as far as its pages before and after it
/// say; none of a kind without a test.
fn core_finds(state: &State, step: &Step<'_>, bytes: &[LeftBytes]) -> Result<Option<bool>, Fault> {
    let pages = pages_of(step.alloc, step.store, bytes)?;
    let found = match step.record.kind {
        Kind::PlaceHead { .. } | Kind::PutOverflow { .. } | Kind::MarkDeleted { .. } => {
            test_head(step.alloc, state, step.record, &pages)
        }
        Kind::PutPending { .. } | Kind::AddRow { .. } | Kind::LinkPending { .. } => {
            test_rows(state, step.record, &pages)
        }
        Kind::Shift
        | Kind::AddItems
        | Kind::MakeTree
        | Kind::AddPostings
        | Kind::GrowRoot
        | Kind::Split => test_index(state, step.record, &pages),
        Kind::RemoveItems | Kind::DeletePost | Kind::DropPage { .. } | Kind::FreeSlots => {
            test_vacuum(state, step.record, &pages)
        }
        _ => test_transaction(state, step.record, &pages),
    };
    Ok(found?)
}

/// The core finds of a record what the rules of its kind on the pages before and after it say; of a
/// kind of which the core has no test there is nothing to find.
pub(crate) fn must_find(state: &State, step: &Step<'_>, bytes: &[LeftBytes]) -> Result<(), Fault> {
    let holds = match here(step) {
        None => return Ok(()),
        Some(Err(Fault::OutOfMemory)) => return Err(Fault::OutOfMemory),
        Some(holds) => holds.is_ok(),
    };
    must(core_finds(state, step, bytes)? == Some(holds), CORE_DIFFERS)
}

/// Whether the two fates are one.
fn same_fate(state: Fate, ledger: log_walks::Fate) -> bool {
    match state {
        Fate::Unused => ledger == log_walks::Fate::Unused,
        Fate::Running => ledger == log_walks::Fate::Running,
        Fate::Aborted => ledger == log_walks::Fate::Aborted,
        Fate::Committed(commit) => ledger == log_walks::Fate::Committed(commit),
    }
}

/// Whether the name is that of the document.
fn is_name(name: &Name, doc: &Doc) -> bool {
    name.page == doc.page() && name.slot as usize == doc.slot() && name.serial == doc.serial
}

/// Whether the names are those of the documents.
fn are_names(names: &[Name], docs: &[Doc]) -> bool {
    for (name, doc) in names.iter().zip(docs) {
        if !is_name(name, doc) {
            return false;
        }
    }
    names.len() == docs.len()
}

/// Whether the state has the names of a commit.
fn has_names(state: &State, commit: u32, transaction: &Transaction) -> bool {
    if commit == 0 || commit > state.commits() {
        return false;
    }
    are_names(state.deleted(commit), &transaction.marked)
        && are_names(state.inserted(commit), &transaction.placed)
}

/// Whether the state has the names of the commit that this record is, if it is one.
fn same_names(state: &State, ledger: &Ledger, record: &Record) -> bool {
    let Kind::Commit { commit } = record.kind else {
        return true;
    };
    match ledger.transaction(record.xid) {
        Some(transaction) => has_names(state, commit, transaction),
        None => false,
    }
}

/// Whether the state has the use of a page that a record has left.
fn same_use(state: &State, left: &LeftPage) -> bool {
    let used = if left.shown.deleted {
        PageUse::Deleted(left.shown.stamp)
    } else {
        PageUse::Used
    };
    state.use_of(left.page) == used
}

/// The same of each of these pages.
fn same_uses(state: &State, left: &[LeftPage]) -> bool {
    for page in left {
        if !same_use(state, page) {
            return false;
        }
    }
    true
}

/// Whether a transaction runs.
fn has_running(ledger: &Ledger) -> bool {
    for transaction in &ledger.transactions {
        if transaction.fate == log_walks::Fate::Running {
            return true;
        }
    }
    false
}

/// Whether the state has the numbers that come next.
fn same_numbers(state: &State, ledger: &Ledger) -> bool {
    state.length() == ledger.records
        && state.commits() == ledger.commits
        && state.next_xid() as usize == ledger.next_xid()
        && state.next_serial() == ledger.next_serial
        && state.redo() == ledger.redo
}

/// Whether the state has the fates.
fn same_fates(state: &State, ledger: &Ledger, xid: u32) -> bool {
    state.has_running() == has_running(ledger) && same_fate(state.fate(xid), ledger.fate(xid))
}

/// The state after a valid record, which changes these pages, says what the ledger says.
pub(crate) fn must_tell(
    state: &State,
    ledger: &Ledger,
    record: &Record,
    left: &[LeftPage],
) -> Result<(), Fault> {
    Rules::new()
        .and(same_uses(state, left), CORE_DIFFERS)
        .and(same_numbers(state, ledger), CORE_DIFFERS)
        .and(same_fates(state, ledger, record.xid), CORE_DIFFERS)
        .and(same_names(state, ledger, record), CORE_DIFFERS)
        .end()
}
