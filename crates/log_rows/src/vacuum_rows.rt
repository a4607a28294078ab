// The rows of the kinds 18, 20 and 21: items of dead documents leave their lists, their chains lose pages, and their
// slots become free.
use crate::lists::are_among;
use crate::slots::{with_overflow, with_private};
use crate::step::{Changed, RIGHT, Step};
use log_walks::{
    Doc, Fate, Fault, PlainBody, PlainEntry, PlainHead, PlainPostings, Rules, entries_in,
    has_no_pair, has_row, head_at, head_of, item_at, key_leaf_in, need, post_leaf_in, root_of,
    slots_in,
};
use page_types::HeadFields;
use std::alloc::AllocError;

/// The rule of a list that loses items.
const COMES: &str = "no item comes to a list";

/// The document is dead.
fn is_dead(step: &Step<'_>, doc: Doc) -> Rules {
    Rules::new().and(
        step.ledger.is_dead(doc, step.terms.floor),
        "the document is dead",
    )
}

/// Whether a head says that its document is dead: its inserting xid was aborted, or its deleting xid is among the
/// first `floor` commits.
fn tells_dead(step: &Step<'_>, head: &PlainHead) -> bool {
    let aborted = step.ledger.fate(head.fields.inserted_by) == Fate::Aborted;
    match step.ledger.fate(head.fields.deleted_by) {
        Fate::Committed(number) => aborted || number <= step.terms.floor,
        _ => aborted,
    }
}

/// The head says that its document is dead.
fn is_told_dead(step: &Step<'_>, head: &PlainHead) -> Rules {
    Rules::new().and(
        tells_dead(step, head),
        "the head says that the document is dead",
    )
}

/// The document is dead, and no pair has its item.
fn is_dead_and_unlisted(step: &Step<'_>, doc: Doc) -> Result<Rules, AllocError> {
    let no_pair = has_no_pair(step.alloc, step.store, doc.item)?;
    Ok(is_dead(step, doc).and(no_pair, "no row and no posting has the item"))
}

/// The item may leave a list: its document is dead and has no linked row.
fn may_leave(step: &Step<'_>, item: u32) -> Rules {
    match head_at(step.store, item) {
        None => Rules::new().and(false, "a removed item's document has its slot"),
        Some(head) => {
            let serial = head.fields.serial;
            let linked = has_row(step.store, item);
            is_dead(step, Doc { item, serial }).and(!linked, "no row of a removed item is linked")
        }
    }
}

/// The inline items of an entry.
fn items_of(entry: &PlainEntry) -> &[u32] {
    match &entry.postings {
        PlainPostings::Inline(items) => items,
        PlainPostings::Root(_) => &[],
    }
}

/// No item comes to the entries of a leaf, which keeps them.
fn entries_lose(old: &[PlainEntry], new: &[PlainEntry]) -> Rules {
    let mut rules = Rules::new().and(old.len() == new.len(), "the leaf keeps its entries");
    for (old, new) in old.iter().zip(new) {
        rules = rules
            .and(old.key == new.key, "the leaf keeps its keys")
            .and(root_of(old) == root_of(new), "an entry keeps its form")
            .and(are_among(items_of(new), items_of(old)), COMES);
    }
    rules
}

/// Each item that left a list may leave.
fn items_leave(step: &Step<'_>, old: &[u32], new: &[u32]) -> Rules {
    let mut rules = Rules::new();
    for item in old {
        if !new.contains(item) {
            rules = rules.then(may_leave(step, *item));
        }
    }
    rules
}

/// Each item that left an entry of a leaf may leave.
fn entries_leave(step: &Step<'_>, old: &[PlainEntry], new: &[PlainEntry]) -> Rules {
    let mut rules = Rules::new();
    for (old, new) in old.iter().zip(new) {
        rules = rules.then(items_leave(step, items_of(old), items_of(new)));
    }
    rules
}

/// The items of a leaf of a posting tree; of another page none.
fn items_in(body: Option<&PlainBody>) -> &[u32] {
    match post_leaf_in(body) {
        Some(leaf) => leaf.items,
        None => &[],
    }
}

/// No item comes to a leaf of a posting tree, which keeps its high item.
fn post_leaf_loses(leaf: Changed<'_>) -> Rules {
    match (
        post_leaf_in(leaf.was_live()),
        post_leaf_in(leaf.left.live()),
    ) {
        (Some(old), Some(new)) => Rules::new()
            .and(are_among(new.items, old.items), COMES)
            .and(old.high == new.high, "the leaf keeps its high item"),
        _ => Rules::new().and(false, "it changes the items of a leaf"),
    }
}

/// No item comes to a leaf, which keeps all else.
fn leaf_loses(leaf: Changed<'_>) -> Rules {
    match (key_leaf_in(leaf.was_live()), key_leaf_in(leaf.left.live())) {
        (Some(old), Some(new)) => entries_lose(old.entries, new.entries).and(
            old.high == new.high,
            "the leaf keeps its high key",
        ),
        _ => post_leaf_loses(leaf),
    }
}

/// 18 RemoveItems, without the documents: items leave the lists of a leaf, at least one, and none comes.
pub(crate) fn remove_items_here(step: &Step<'_>) -> Result<(), Fault> {
    let leaf = step.one()?;
    leaf_loses(leaf)
        .and(!leaf.keeps_body(), "an item is removed")
        .and(leaf.keeps_right(), RIGHT)
        .end()
}

/// Each item that left a leaf may leave.
fn leaf_leaves(step: &Step<'_>, old: Option<&PlainBody>, new: Option<&PlainBody>) -> Rules {
    entries_leave(step, entries_in(old), entries_in(new)).then(items_leave(
        step,
        items_in(old),
        items_in(new),
    ))
}

/// 18 RemoveItems: at least one item is removed; the document of each is dead and has no linked row.
pub(crate) fn remove_items(step: &Step<'_>) -> Result<(), Fault> {
    remove_items_here(step)?;
    let leaf = step.one()?;
    leaf_leaves(step, leaf.was_live(), leaf.left.live()).end()
}

/// The head's fields where the page is the first of one of its chains, which goes on to the next.
fn without_page(head: &PlainHead, page: Changed<'_>) -> Option<HeadFields> {
    let right = page.left.right;
    match page.was_live() {
        Some(PlainBody::Overflow(_)) if head.fields.overflow == page.page => {
            Some(with_overflow(head, right))
        }
        Some(PlainBody::Pending(_)) if head.fields.private == page.page => {
            Some(with_private(head, right))
        }
        _ => None,
    }
}

/// 20 DropPage, without the index: the head says that the document is dead; the first page of one of its chains becomes
/// Deleted, and the head goes on to the next.
pub(crate) fn drop_page_here(step: &Step<'_>, doc: Doc) -> Result<(), Fault> {
    let (heap, page) = step.two()?;
    let head = need(head_of(step.store, doc), "the document has its slot")?;
    let fields = without_page(head, page);
    let fields = need(fields, "the page is the first of one of the head's chains")?;
    is_told_dead(step, head)
        .then(page.is_deleted())
        .then(heap.gives_head(doc, fields))
        .end()
}

/// 20 DropPage: the document is dead, and no pair of its item; the first page of one of its chains becomes Deleted.
pub(crate) fn drop_page(step: &Step<'_>, doc: Doc) -> Result<(), Fault> {
    drop_page_here(step, doc)?;
    is_dead_and_unlisted(step, doc)?.end()
}

/// A slot becomes free, whose head says that its document is dead, and whose chains are empty; or it stays.
fn slot_loses(step: &Step<'_>, old: &Option<PlainHead>, new: &Option<PlainHead>) -> Rules {
    match (old, new) {
        (Some(head), None) => {
            let empty = head.fields.overflow == 0 && head.fields.private == 0;
            is_told_dead(step, head).and(empty, "the chains of a freed document are empty")
        }
        _ => Rules::new().and(old == new, "the other slots stay"),
    }
}

/// The slots that became free; the others stay.
fn slots_lose(step: &Step<'_>, old: &[Option<PlainHead>], new: &[Option<PlainHead>]) -> Rules {
    let mut rules = Rules::new().and(old.len() == new.len(), "the page keeps its slots");
    for (old, new) in old.iter().zip(new) {
        rules = rules.then(slot_loses(step, old, new));
    }
    rules
}

/// 21 FreeSlots, without the index: at least one slot becomes free; the head of each says that its document is dead,
/// and its chains are empty.
pub(crate) fn free_slots_here(step: &Step<'_>) -> Result<(), Fault> {
    let heap = step.one()?;
    let old = slots_in(heap.was_live());
    let new = slots_in(heap.left.live());
    slots_lose(step, old, new)
        .and(!new.is_empty(), "it changes a heap page")
        .and(heap.keeps_right(), RIGHT)
        .and(!heap.keeps_body(), "a slot becomes free")
        .end()
}

/// The document of a slot that becomes free is dead, and no pair has its item.
fn slot_leaves(
    step: &Step<'_>,
    item: u32,
    old: &Option<PlainHead>,
    new: &Option<PlainHead>,
) -> Result<Rules, AllocError> {
    match (old, new) {
        (Some(head), None) => {
            let serial = head.fields.serial;
            is_dead_and_unlisted(step, Doc { item, serial })
        }
        _ => Ok(Rules::new()),
    }
}

/// 21 FreeSlots: at least one slot becomes free; the document of each is dead, its chains are empty, and no pair has
/// its item.
pub(crate) fn free_slots(step: &Step<'_>) -> Result<(), Fault> {
    free_slots_here(step)?;
    let heap = step.one()?;
    let old = slots_in(heap.was_live());
    let mut rules = Rules::new();
    for (slot, (old, new)) in old.iter().zip(slots_in(heap.left.live())).enumerate() {
        rules = rules.then(slot_leaves(step, item_at(heap.page, slot), old, new)?);
    }
    rules.end()
}
