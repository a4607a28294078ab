// When a record may come next, as far as the record, its pages before and after, and the state of
// the log say.
ghost use Rattle.std.specs.Prelude.{◌≡◌, ◌↔◌, true, []};
ghost use Rattle.page_types.specs.declared.page.Body.TheVariants as body;
ghost use Rattle.core_state.specs.Log.{changed, xid_bound};
ghost use Rattle.core_state.specs.Changes.{made_with};
ghost use Rattle.core_state.specs.Judging.{Judges};
ghost use Rattle.core_state.specs.TransactionRules.{IsCreateHere, IsBeginHere, IsCommitHere, IsAbortHere};

use crate::answers::Fate;
use crate::state::State;
use crate::table::XID_BOUND;
use page_types::{Body, Kind, Page, Record};
use std::alloc::AllocError;

/// Whether a record changes these pages, in this order.
pub(crate) fn changes_pages(rec: &Record, pages: &[u32]) -> bool
    ensures { result ≡ true ↔ (changed rec.now ≡ pages.now) }
{
    let changes = rec.changes.as_slice();
    if changes.len() != pages.len() {
        return false;
    }
    for (i, page) in pages.iter().enumerate() {
        if changes[i].page != *page {
            return false;
        }
    }
    true
}

/// Whether a record leaves this page as an empty metapage.
fn is_first_meta(rec: &Record, page: &Page) -> bool
    ensures { result ≡ true ↔ (page.now ≡ made_with rec.now 0 (body.Meta 0 0 0)) }
{
    match page.body {
        Body::Meta { first, last, pages } => {
            page.right == 0 && page.stamp == rec.number && first == 0 && last == 0 && pages == 0
        }
        _ => false,
    }
}

/// Whether a record leaves this page as an empty leaf of the entry tree, without right link.
fn is_first_leaf(rec: &Record, page: &Page) -> bool
    ensures { result ≡ true ↔ (page.now ≡ made_with rec.now 0 (body.EntryLeaf [] [])) }
{
    match &page.body {
        Body::EntryLeaf { high, entries } => {
            page.right == 0 && page.stamp == rec.number && high.len() == 0 && entries.len() == 0
        }
        _ => false,
    }
}

/// Whether Create may come next: the log is empty, and an empty metapage and an empty leaf of the
/// entry tree are made.
pub fn valid_create(
    state: &State,
    rec: &Record,
    before: &[Page],
    after: &[Page],
    _floor: u32,
    _since: u64,
) -> Result<bool, AllocError>
    ensures { Judges IsCreateHere state.now.value rec.now before.now after.now result }
{
    let Kind::Create = rec.kind else {
        return Ok(false);
    };
    if after.len() != 2 || state.length() != 0 || !changes_pages(rec, &[0, 1]) {
        return Ok(false);
    }
    Ok(is_first_meta(rec, &after[0]) && is_first_leaf(rec, &after[1]))
}

/// Whether Begin may come next: its xid is the next one and below the bound of xids, and it changes
/// no page.
pub fn valid_begin(
    state: &State,
    rec: &Record,
    before: &[Page],
    after: &[Page],
    _floor: u32,
    _since: u64,
) -> Result<bool, AllocError>
    ensures { Judges IsBeginHere state.now.value rec.now before.now after.now result }
{
    let Kind::Begin = rec.kind else {
        return Ok(false);
    };
    Ok(changes_pages(rec, &[]) && rec.xid == state.next_xid() && rec.xid < XID_BOUND)
}

/// Whether Commit may come next: its transaction runs, its number is the next, and it changes no
/// page.
pub fn valid_commit(
    state: &State,
    rec: &Record,
    before: &[Page],
    after: &[Page],
    _floor: u32,
    _since: u64,
) -> Result<bool, AllocError>
    ensures { Judges IsCommitHere state.now.value rec.now before.now after.now result }
{
    let Kind::Commit { commit } = rec.kind else {
        return Ok(false);
    };
    let is_next = u64::from(commit) == u64::from(state.commits()) + 1;
    Ok(is_next && changes_pages(rec, &[]) && state.fate(rec.xid) == Fate::Running)
}

/// Whether Abort may come next: its transaction runs, or its xid is 0, and it changes no page.
pub fn valid_abort(
    state: &State,
    rec: &Record,
    before: &[Page],
    after: &[Page],
    _floor: u32,
    _since: u64,
) -> Result<bool, AllocError>
    ensures { Judges IsAbortHere state.now.value rec.now before.now after.now result }
{
    let Kind::Abort = rec.kind else {
        return Ok(false);
    };
    Ok(changes_pages(rec, &[]) && (rec.xid == 0 || state.fate(rec.xid) == Fate::Running))
}
