// The rows of the kinds 6 to 8: heads are placed and marked, parts of long vectors are put.
use crate::slots::{head_comes, head_in, with_deleting, with_overflow};
use crate::step::{Changed, LEFT, RIGHT, Step};
use log_walks::{
    Doc, Fate, Fault, PlainBody, PlainHead, Rules, has_no_pair, head_of, must, need, slots_in,
    whole_keys,
};
use page_types::{MOST_BODY_BYTES, MOST_SHORT_BYTES};

/// A head may come to the page: an old heap page, which keeps its right link, or a new page, whose right link is 0.
fn may_take_head(step: &Step<'_>, heap: Changed<'_>) -> Rules {
    match heap.was_live() {
        Some(PlainBody::Heap(_)) => Rules::new().and(heap.keeps_right(), RIGHT),
        _ => step.is_new(heap).and(heap.leads_to(0), RIGHT),
    }
}

/// A new head has this serial and the record's xid, the deleting xid 0 and two empty chains.
fn is_new_head(step: &Step<'_>, doc: Doc, head: &PlainHead) -> bool {
    let fields = &head.fields;
    fields.serial == doc.serial
        && fields.inserted_by == step.record.xid
        && fields.deleted_by == 0
        && fields.overflow == 0
        && fields.private == 0
}

/// 6 PlaceHead, without the index: the xid runs, the serial is the next, the slot is free or the next; the head has
/// this serial and xid, the deleting xid 0 and two empty chains.
pub(crate) fn place_head_here(step: &Step<'_>, doc: Doc) -> Result<(), Fault> {
    let heap = step.one()?;
    let was = slots_in(heap.was_live());
    let left = slots_in(heap.left.live());
    let head = need(head_in(left, doc.slot()), "the slot has a head then")?;
    let is_next = doc.serial == step.ledger.next_serial;
    step.runs()
        .and(heap.page == doc.page(), "it changes the item's heap page")
        .and(is_next, "the serial is the next")
        .then(may_take_head(step, heap))
        .and(
            is_new_head(step, doc, head),
            "the head is a new one of the record",
        )
        .and(head_comes(was, left, doc.slot()), LEFT)
        .end()
}

/// 6 PlaceHead: besides, no pair of the item.
pub(crate) fn place_head(step: &Step<'_>, doc: Doc) -> Result<(), Fault> {
    place_head_here(step, doc)?;
    let no_pair = has_no_pair(step.alloc, step.store, doc.item)?;
    must(no_pair, "no row and no posting has the item")
}

/// Whether a part of a vector is on the page, which is full unless it ends the chain.
fn has_part(new: Changed<'_>, is_last: bool) -> bool {
    match new.left.live() {
        Some(PlainBody::Overflow(part)) => is_last || part.len() == MOST_BODY_BYTES,
        _ => false,
    }
}

/// 7 PutOverflow, whole or not: an own document with a vector of more than 2000 bytes; the new page leads to the head's
/// first overflow page and becomes the first; it holds 8168 bytes unless it ends the chain.
pub(crate) fn put_overflow_here(step: &Step<'_>, doc: Doc) -> Result<(), Fault> {
    let (heap, new) = step.two()?;
    let head = step.own_head(doc)?;
    let first = head.fields.overflow;
    step.is_new(new)
        .and(
            head.fields.bytes > MOST_SHORT_BYTES,
            "the vector is too long for its head",
        )
        .and(
            has_part(new, first == 0),
            "the new page has a part of the vector",
        )
        .and(new.leads_to(first), RIGHT)
        .then(heap.gives_head(doc, with_overflow(head, new.page)))
        .end()
}

/// 7 PutOverflow: besides, the document isn't whole.
pub(crate) fn put_overflow(step: &Step<'_>, doc: Doc) -> Result<(), Fault> {
    put_overflow_here(step, doc)?;
    let head = step.own_head(doc)?;
    match whole_keys(step.alloc, step.store, head)? {
        None => Ok(()),
        Some(_) => Err(Fault::Broken("the document isn't whole")),
    }
}

/// Whether the transaction that inserted the document has committed.
fn is_inserted(step: &Step<'_>, head: &PlainHead) -> bool {
    matches!(
        step.ledger.fate(head.fields.inserted_by),
        Fate::Committed(_)
    )
}

/// Whether no transaction has marked the document deleted but an aborted one.
fn is_unmarked(step: &Step<'_>, head: &PlainHead) -> bool {
    let by = head.fields.deleted_by;
    by == 0 || step.ledger.fate(by) == Fate::Aborted
}

/// 8 MarkDeleted: the xid runs; the slot's head has the serial, its inserting xid has committed, its deleting xid was 0
/// or an aborted one and becomes the xid.
pub(crate) fn mark_deleted(step: &Step<'_>, doc: Doc) -> Result<(), Fault> {
    let heap = step.one()?;
    let head = need(head_of(step.store, doc), "the slot's head has the serial")?;
    step.runs()
        .and(is_inserted(step, head), "the inserting xid has committed")
        .and(
            is_unmarked(step, head),
            "the deleting xid was 0 or an aborted one",
        )
        .then(heap.gives_head(doc, with_deleting(head, step.record.xid)))
        .end()
}
