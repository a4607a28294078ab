// The rows of the kinds 1 to 5: the store is made, transactions begin and end, checkpoints.
use crate::pending_rows::meta_in;
use crate::step::{Changed, LEFT, RIGHT, Step};
use log_walks::{Doc, Fault, META, ROOT, Rules, head_of, is_indexed, key_leaf_in, must, need};

/// Xids are below this.
const XID_BOUND: u32 = 16_777_216;

/// Whether a metapage names no page.
fn is_empty_meta(meta: Changed<'_>) -> bool {
    match meta_in(meta.left.live()) {
        Some(meta) => meta.first == 0 && meta.last == 0 && meta.pages == 0,
        None => false,
    }
}

/// Whether a leaf of the tree of keys has no high key and no entry.
fn is_empty_leaf(leaf: Changed<'_>) -> bool {
    match key_leaf_in(leaf.left.live()) {
        Some(leaf) => leaf.high.is_empty() && leaf.entries.is_empty(),
        None => false,
    }
}

/// 1 Create: the log is empty; an empty Meta and an empty EntryLeaf.
pub(crate) fn create(step: &Step<'_>) -> Result<(), Fault> {
    let (meta, root) = step.two()?;
    Rules::new()
        .and(meta.leads_to(0) && root.leads_to(0), RIGHT)
        .and(is_empty_meta(meta) && is_empty_leaf(root), LEFT)
        .and(step.ledger.records == 0, "the log is empty")
        .and(meta.page == META, "it changes the page 0")
        .and(root.page == ROOT, "it changes the page 1")
        .end()
}

/// 2 Begin: the xid is the next one and below 2^24.
pub(crate) fn begin(step: &Step<'_>) -> Result<(), Fault> {
    let xid = step.record.xid;
    step.changes_none()
        .and(
            xid as usize == step.ledger.next_xid(),
            "the xid is the next",
        )
        .and(xid < XID_BOUND, "the xid is below 2^24")
        .end()
}

/// The item has all these keys in one part of the index, where that is asked.
fn must_be_indexed(step: &Step<'_>, keys: &[Vec<u8>], item: u32) -> Result<(), Fault> {
    if !step.terms.asks_index {
        return Ok(());
    }
    let indexed = is_indexed(step.alloc, step.store, keys, item)?;
    must(indexed, "each placed document is indexed")
}

/// A document that a committing transaction placed is whole, and indexed where that is asked.
fn may_commit(step: &Step<'_>, doc: Doc) -> Result<(), Fault> {
    let head = need(head_of(step.store, doc), "a placed document has its slot")?;
    let keys = step.keys_of(head)?;
    must_be_indexed(step, &keys, doc.item)
}

/// 3 Commit, without its documents: the xid runs, the commit number is the next.
pub(crate) fn commit_here(step: &Step<'_>, commit: u32) -> Result<(), Fault> {
    let next = step.ledger.commits.checked_add(1);
    step.changes_none()
        .then(step.runs())
        .and(next == Some(commit), "the commit number is the next")
        .end()
}

/// 3 Commit: besides, each document that the xid placed is whole, and indexed where that is asked.
pub(crate) fn commit(step: &Step<'_>, commit: u32) -> Result<(), Fault> {
    commit_here(step, commit)?;
    if let Some(transaction) = step.ledger.transaction(step.record.xid) {
        for doc in &transaction.placed {
            may_commit(step, *doc)?;
        }
    }
    Ok(())
}

/// 4 Abort: the xid runs; or it is 0, which ends every running transaction.
pub(crate) fn abort(step: &Step<'_>) -> Result<(), Fault> {
    let none = step.changes_none();
    if step.record.xid == 0 {
        none.end()
    } else {
        none.then(step.runs()).end()
    }
}

/// 5 Checkpoint: the redo number is at least the last one, or 1 where there is none, and at most the record's own.
pub(crate) fn checkpoint(step: &Step<'_>, redo: u64) -> Result<(), Fault> {
    let rises = redo >= step.ledger.redo;
    let within = redo <= step.record.number;
    step.changes_none()
        .and(rises, "the redo number is at least the last one")
        .and(within, "the redo number is at most the record's own")
        .end()
}
