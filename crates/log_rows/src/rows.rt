// The row of a record's kind.
use crate::heap_rows::{
    mark_deleted, place_head, place_head_here, put_overflow, put_overflow_here,
};
use crate::item_rows::{add_items, add_items_here, add_postings, add_postings_here, make_tree};
use crate::pending_rows::{
    add_row, add_row_here, link_pending, link_pending_here, put_pending, put_pending_here, shift,
    shift_here,
};
use crate::shape_rows::{delete_post, delete_post_here, grow_root, grow_root_here, split};
use crate::step::Step;
use crate::transaction_rows::{abort, begin, checkpoint, commit, commit_here, create};
use crate::vacuum_rows::{
    drop_page, drop_page_here, free_slots, free_slots_here, remove_items, remove_items_here,
};
use log_walks::{Doc, Fault};
use page_types::Kind;

/// The row of a record that names a document.
fn document_row(step: &Step<'_>) -> Result<(), Fault> {
    match step.record.kind {
        Kind::PlaceHead { item, serial } => place_head(step, Doc { item, serial }),
        Kind::PutOverflow { item, serial } => put_overflow(step, Doc { item, serial }),
        Kind::MarkDeleted { item, serial } => mark_deleted(step, Doc { item, serial }),
        Kind::PutPending { item, serial } => put_pending(step, Doc { item, serial }),
        Kind::AddRow { item, serial } => add_row(step, Doc { item, serial }),
        Kind::LinkPending { item, serial } => link_pending(step, Doc { item, serial }),
        Kind::DropPage { item, serial } => drop_page(step, Doc { item, serial }),
        _ => tree_row(step),
    }
}

/// The row of a record that changes the index, or frees slots.
fn tree_row(step: &Step<'_>) -> Result<(), Fault> {
    match step.record.kind {
        Kind::Shift => shift(step),
        Kind::AddItems => add_items(step),
        Kind::MakeTree => make_tree(step),
        Kind::AddPostings => add_postings(step),
        Kind::GrowRoot => grow_root(step),
        Kind::Split => split(step),
        Kind::RemoveItems => remove_items(step),
        Kind::DeletePost => delete_post(step),
        Kind::FreeSlots => free_slots(step),
        _ => Err(Fault::Broken("the record has a row")),
    }
}

/// Whether the record may follow the log: the first rule of its kind's row that is broken, where one is.
pub fn row(step: &Step<'_>) -> Result<(), Fault> {
    match step.record.kind {
        Kind::Create => create(step),
        Kind::Begin => begin(step),
        Kind::Commit { commit: number } => commit(step, number),
        Kind::Abort => abort(step),
        Kind::Checkpoint { redo } => checkpoint(step, redo),
        _ => document_row(step),
    }
}

/// The rules of a record that changes the index, or frees slots, which speak of it, its pages and transactions alone,
/// for the kinds 12 to 19 and 21; none of another kind.
fn tree_here(step: &Step<'_>) -> Option<Result<(), Fault>> {
    match step.record.kind {
        Kind::Shift => Some(shift_here(step)),
        Kind::AddItems => Some(add_items_here(step)),
        Kind::AddPostings => Some(add_postings_here(step)),
        Kind::GrowRoot => Some(grow_root_here(step)),
        Kind::MakeTree | Kind::Split => Some(tree_row(step)),
        Kind::RemoveItems => Some(remove_items_here(step)),
        Kind::DeletePost => Some(delete_post_here(step)),
        Kind::FreeSlots => Some(free_slots_here(step)),
        _ => None,
    }
}

/// The first broken rule of those that speak of the record, of its pages before and after, of transactions and of the
/// numbers that come next alone, for the kinds 1 to 4 and 6 to 21; none of another kind.
pub fn here(step: &Step<'_>) -> Option<Result<(), Fault>> {
    match step.record.kind {
        Kind::Commit { commit: number } => Some(commit_here(step, number)),
        Kind::PlaceHead { item, serial } => Some(place_head_here(step, Doc { item, serial })),
        Kind::PutOverflow { item, serial } => Some(put_overflow_here(step, Doc { item, serial })),
        Kind::PutPending { item, serial } => Some(put_pending_here(step, Doc { item, serial })),
        Kind::AddRow { item, serial } => Some(add_row_here(step, Doc { item, serial })),
        Kind::LinkPending { item, serial } => Some(link_pending_here(step, Doc { item, serial })),
        Kind::DropPage { item, serial } => Some(drop_page_here(step, Doc { item, serial })),
        Kind::Create | Kind::Begin | Kind::Abort | Kind::MarkDeleted { .. } => Some(row(step)),
        _ => tree_here(step),
    }
}
