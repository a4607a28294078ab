// Records and commits as lines.
use crate::lines::{push_doc, push_number};
use log_walks::{Doc, Fate, Ledger, Transaction};
use page_types::{Change, Edit, Kind, Record};
use std::alloc::{AllocError, Global};

/// The name of a kind.
fn name_of(kind: Kind) -> &'static str {
    match kind {
        Kind::Create => "Create",
        Kind::Begin => "Begin",
        Kind::Commit { .. } => "Commit",
        Kind::Abort => "Abort",
        Kind::Checkpoint { .. } => "Checkpoint",
        Kind::PlaceHead { .. } => "PlaceHead",
        Kind::PutOverflow { .. } => "PutOverflow",
        Kind::MarkDeleted { .. } => "MarkDeleted",
        Kind::PutPending { .. } => "PutPending",
        Kind::AddRow { .. } => "AddRow",
        Kind::LinkPending { .. } => "LinkPending",
        Kind::Shift => "Shift",
        Kind::AddItems => "AddItems",
        Kind::MakeTree => "MakeTree",
        Kind::AddPostings => "AddPostings",
        Kind::GrowRoot => "GrowRoot",
        Kind::Split => "Split",
        Kind::RemoveItems => "RemoveItems",
        Kind::DeletePost => "DeletePost",
        Kind::DropPage { .. } => "DropPage",
        Kind::FreeSlots => "FreeSlots",
    }
}

/// The document that a record of this kind names.
fn doc_in(kind: Kind) -> Option<Doc> {
    match kind {
        Kind::PlaceHead { item, serial }
        | Kind::PutOverflow { item, serial }
        | Kind::MarkDeleted { item, serial }
        | Kind::PutPending { item, serial }
        | Kind::AddRow { item, serial }
        | Kind::LinkPending { item, serial }
        | Kind::DropPage { item, serial } => Some(Doc { item, serial }),
        _ => None,
    }
}

/// Puts the fields of a record after a line, each with a space before it.
fn push_fields(line: &mut String, kind: Kind) -> Result<(), AllocError> {
    match (kind, doc_in(kind)) {
        (Kind::Commit { commit }, _) => push_number(line, " commit ", u64::from(commit)),
        (Kind::Checkpoint { redo }, _) => push_number(line, " redo ", redo),
        (_, Some(doc)) => push_doc(line, " doc ", doc),
        _ => Ok(()),
    }
}

/// The letter of a change: `i` of an image, `d` of a delta.
fn letter_of(change: &Change) -> &'static str {
    match &change.edit {
        Edit::Image(_) => "i",
        Edit::Delta { .. } => "d",
    }
}

/// Puts the changed pages after a line.
fn push_pages(line: &mut String, changes: &[Change]) -> Result<(), AllocError> {
    let mut before = " pages ";
    for change in changes {
        push_number(line, before, u64::from(change.page))?;
        line.push_str(letter_of(change))?;
        before = ",";
    }
    Ok(())
}

/// Puts a record into an empty line.
fn push_record(line: &mut String, record: &Record) -> Result<(), AllocError> {
    push_number(line, "", record.number)?;
    line.push(' ')?;
    line.push_str(name_of(record.kind))?;
    push_number(line, " xid ", u64::from(record.xid))?;
    push_fields(line, record.kind)?;
    push_pages(line, record.changes.as_slice())
}

/// A record: its number, kind, xid, fields and changed pages.
pub(crate) fn record_line(alloc: Global, record: &Record) -> Result<String, AllocError> {
    let mut line = String::new(alloc);
    push_record(&mut line, record)?;
    Ok(line)
}

/// The transaction of a commit.
fn transaction_of(ledger: &Ledger, commit: u32) -> Option<&Transaction> {
    for transaction in &ledger.transactions {
        if transaction.fate == Fate::Committed(commit) {
            return Some(transaction);
        }
    }
    None
}

/// Puts documents after a line, each with this before it.
fn push_docs(line: &mut String, piece: &str, docs: &[Doc]) -> Result<(), AllocError> {
    for doc in docs {
        push_doc(line, piece, *doc)?;
    }
    Ok(())
}

/// Puts a commit into an empty line: the names that it deletes, and those that it inserts.
fn push_commit(
    line: &mut String,
    commit: u32,
    transaction: &Transaction,
) -> Result<(), AllocError> {
    push_number(line, "commit ", u64::from(commit))?;
    push_docs(line, " -", &transaction.marked)?;
    push_docs(line, " +", &transaction.placed)
}

/// A line of the history: a commit with its names, or after the last one how many there are.
pub(crate) fn commit_line(
    alloc: Global,
    ledger: &Ledger,
    commit: u32,
) -> Result<String, AllocError> {
    let mut line = String::new(alloc);
    match transaction_of(ledger, commit) {
        Some(transaction) => push_commit(&mut line, commit, transaction)?,
        None => push_number(&mut line, "commits ", u64::from(ledger.commits))?,
    }
    Ok(line)
}
