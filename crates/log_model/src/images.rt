// The first change of each page is an image, from number 1 on and from the redo number of each checkpoint on.
use log_walks::{Fault, Store, must};
use page_types::{Change, Edit, Kind, Record};
use std::alloc::{AllocError, Global};

/// The rule.
const RULE: &str = "the first change of a page is an image";

/// Whether the change is an image.
fn is_image(change: &Change) -> bool {
    matches!(&change.edit, Edit::Image(_))
}

/// Whether the first change of each page that was not seen yet is an image; they are seen then.
fn begin_with_images(changes: &[Change], seen: &mut Vec<u32>) -> Result<bool, AllocError> {
    for change in changes {
        if !seen.contains(&change.page) {
            if !is_image(change) {
                return Ok(false);
            }
            seen.push(change.page)?;
        }
    }
    Ok(true)
}

/// Whether the first change of each page in the records between two numbers is an image.
fn have_images(alloc: Global, records: &[Record], from: u64, to: u64) -> Result<bool, AllocError> {
    let mut seen = Vec::new(alloc);
    for record in records {
        let within = from <= record.number && record.number <= to;
        if within && !begin_with_images(record.changes.as_slice(), &mut seen)? {
            return Ok(false);
        }
    }
    Ok(true)
}

/// Whether the page was changed from this record number on: its stamp is the number of its last change.
fn was_changed(store: &Store, page: u32, from: u64) -> bool {
    match store.page(page) {
        Some(page) => page.stamp >= from,
        None => false,
    }
}

/// Whether each change is an image, or of a page that was changed from this record number on.
fn may_be_deltas(store: &Store, changes: &[Change], from: u64) -> bool {
    for change in changes {
        if !is_image(change) && !was_changed(store, change.page, from) {
            return false;
        }
    }
    true
}

/// Whether the rule holds from the redo number on up to the record, where that is a checkpoint.
fn redo_has_images(alloc: Global, records: &[Record], record: &Record) -> Result<bool, AllocError> {
    match record.kind {
        Kind::Checkpoint { redo } => have_images(alloc, records, redo, record.number),
        _ => Ok(true),
    }
}

/// The rule holds of the records up to this one, where it holds of those before it: these pages are those after them,
/// and this is the last of their redo numbers, which rise.
pub(crate) fn must_have_images(
    alloc: Global,
    store: &Store,
    redo: u64,
    records: &[Record],
    record: &Record,
) -> Result<(), Fault> {
    let redone = redo_has_images(alloc, records, record)?;
    let holds = may_be_deltas(store, record.changes.as_slice(), redo);
    must(redone && holds, RULE)
}
