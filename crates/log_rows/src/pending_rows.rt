// The rows of the kinds 9 to 12: rows of documents are put and linked, and leave the pending list.
use crate::slots::with_private;
use crate::step::{Changed, LEFT, RIGHT, Step};
use log_walks::{
    Doc, Fault, Line, META, PlainBody, PlainRow, Rules, Store, all_in_main, first_pending,
    has_rows_from, head_at, line_from, must, need, rows_in,
};

/// The last of these keys, where each is above the one before it and the first above another; else none.
fn rise_in<'a>(above: &'a [u8], keys: &'a [Vec<u8>]) -> Option<&'a [u8]> {
    let mut last = above;
    for key in keys {
        if key.as_slice() <= last {
            return None;
        }
        last = key.as_slice();
    }
    Some(last)
}

/// The last key of these rows, where the keys of all rise.
fn rise_on<'a>(above: &'a [u8], rows: &'a [PlainRow]) -> Option<&'a [u8]> {
    let mut last = above;
    for row in rows {
        last = rise_in(last, &row.keys)?;
    }
    Some(last)
}

/// Whether the keys of these rows and of those on the pages from another on rise.
fn rise_along(store: &Store, rows: &[PlainRow], behind: u32) -> bool {
    let mut page = behind;
    let mut last = rise_on(&[], rows);
    for _ in 0..store.most_in_line() {
        let Some(above) = last else {
            return false;
        };
        if page == 0 {
            return true;
        }
        last = rise_on(above, rows_in(store.live(page)));
        page = store.right(page);
    }
    false
}

/// Whether there is a row, and each has the item.
fn have_item(rows: &[PlainRow], item: u32) -> bool {
    for row in rows {
        if row.item != item {
            return false;
        }
    }
    !rows.is_empty()
}

/// Whether each of these keys is among others.
fn are_keys(keys: &[Vec<u8>], others: &[Vec<u8>]) -> bool {
    for key in keys {
        if !others.contains(key) {
            return false;
        }
    }
    true
}

/// Whether each row has keys that are among others.
fn have_keys_of(rows: &[PlainRow], keys: &[Vec<u8>]) -> bool {
    for row in rows {
        if !are_keys(&row.keys, keys) {
            return false;
        }
    }
    true
}

/// 9 PutPending, without the document and its chain: an own document; the new page has a row or more, with its item and
/// rising keys; it leads to the head's first private page and becomes the first.
pub(crate) fn put_pending_here(step: &Step<'_>, doc: Doc) -> Result<(), Fault> {
    let (heap, new) = step.two()?;
    let head = step.own_head(doc)?;
    let rows = rows_in(new.left.live());
    let rise = rise_on(&[], rows).is_some();
    step.is_new(new)
        .and(
            have_item(rows, doc.item),
            "its rows, at least one, have the item",
        )
        .and(rise, "the keys of the page rise")
        .and(new.leads_to(head.fields.private), RIGHT)
        .then(heap.gives_head(doc, with_private(head, new.page)))
        .end()
}

/// The document is whole and has no linked row; the rows have keys of it alone.
fn must_have_own_keys(step: &Step<'_>, doc: Doc, rows: &[PlainRow]) -> Result<(), Fault> {
    let keys = step.keys_to_link(doc)?;
    must(
        have_keys_of(rows, &keys),
        "its keys are keys of the document",
    )
}

/// 9 PutPending: besides, the document is whole, with no linked row; the rows have keys of it alone, and these and the
/// keys of its private chain after them rise.
pub(crate) fn put_pending(step: &Step<'_>, doc: Doc) -> Result<(), Fault> {
    put_pending_here(step, doc)?;
    let (_, new) = step.two()?;
    let rows = rows_in(new.left.live());
    let rise = rise_along(step.store, rows, new.left.right);
    must(rise, "the keys of the private chain rise")?;
    must_have_own_keys(step, doc, rows)
}

/// The pages of the pending list.
fn pending_list(step: &Step<'_>) -> Result<Line, Fault> {
    let list = line_from(step.store, first_pending(step.store));
    need(list, "the pending list ends")
}

/// Whether this is what is on a pending page.
fn is_pending(body: Option<&PlainBody>) -> bool {
    matches!(body, Some(PlainBody::Pending(_)))
}

/// The row with this item that comes after others.
fn added_row<'a>(was: &[PlainRow], left: &'a [PlainRow], item: u32) -> Option<&'a PlainRow> {
    match left {
        [others @ .., row] if row.item == item && others == was => Some(row),
        _ => None,
    }
}

/// The row with this item that comes to a pending page, which keeps its right link.
fn row_added_to<'a>(page: Changed<'a>, item: u32) -> Result<&'a PlainRow, Fault> {
    let stays = page.keeps_right() && is_pending(page.was_live());
    must(stays, "it changes a pending page")?;
    let row = added_row(rows_in(page.was_live()), rows_in(page.left.live()), item);
    need(row, "a row with the item comes after those of the page")
}

/// 10 AddRow, without the document and the list: the xid runs; a row with the item comes after those of a pending page.
pub(crate) fn add_row_here(step: &Step<'_>, doc: Doc) -> Result<(), Fault> {
    row_added_to(step.one()?, doc.item)?;
    step.runs().end()
}

/// The document is whole and has no linked row; the row has exactly its keys.
fn must_have_all_keys(step: &Step<'_>, doc: Doc, row: &PlainRow) -> Result<(), Fault> {
    let keys = step.keys_to_link(doc)?;
    must(row.keys == keys, "the row has exactly the document's keys")
}

/// 10 AddRow: besides, an own document, whole, with no linked row, of which the row has exactly the keys; the page is
/// the last pending page.
pub(crate) fn add_row(step: &Step<'_>, doc: Doc) -> Result<(), Fault> {
    let page = step.one()?;
    let row = row_added_to(page, doc.item)?;
    let list = pending_list(step)?;
    must(
        list.last == Some(page.page),
        "it changes the last pending page",
    )?;
    must_have_all_keys(step, doc, row)
}

/// What is on a metapage.
#[derive(Clone, Copy)]
pub(crate) struct Meta {
    /// The first pending page, or 0.
    pub(crate) first: u32,
    /// The last one, or 0.
    pub(crate) last: u32,
    /// How many there are.
    pub(crate) pages: u32,
}

/// The metapage that this is.
pub(crate) fn meta_in(body: Option<&PlainBody>) -> Option<Meta> {
    match body {
        Some(PlainBody::Meta { first, last, pages }) => Some(Meta {
            first: *first,
            last: *last,
            pages: *pages,
        }),
        _ => None,
    }
}

/// How the metapage changes.
#[derive(Clone, Copy)]
struct Listing {
    /// As it was.
    was: Meta,
    /// As the record leaves it.
    left: Meta,
}

/// How the metapage changes, which keeps its right link.
fn listing_of(meta: Changed<'_>) -> Option<Listing> {
    let was = meta_in(meta.was_live())?;
    let left = meta_in(meta.left.live())?;
    if meta.page == META && meta.keeps_right() {
        Some(Listing { was, left })
    } else {
        None
    }
}

/// The metapage as a record that links a chain changes it, and the page that was the list's last, if that is changed.
fn linked_pages<'a>(step: &Step<'a>) -> Option<(Listing, Option<Changed<'a>>)> {
    match step.left {
        [_, meta] => Some((listing_of(step.changed(meta))?, None)),
        [_, meta, last] => Some((listing_of(step.changed(meta))?, Some(step.changed(last)))),
        _ => None,
    }
}

/// The chain from page `to` on becomes the list, which had no page.
fn begins_list(meta: Listing, to: u32) -> Rules {
    let empty = meta.was.first == 0 && meta.was.last == 0;
    Rules::new()
        .and(empty, "the list has no page")
        .and(meta.left.first == to, "the chain is the list")
}

/// The chain from page `to` on comes after the page that the metapage named last.
fn extends_list(meta: Listing, last: Changed<'_>, to: u32) -> Rules {
    let stays = meta.was.first != 0 && meta.left.first == meta.was.first;
    Rules::new()
        .and(stays, "the list has the same first page")
        .and(
            last.page == meta.was.last,
            "it changes the page that is last",
        )
        .and(
            is_pending(last.was_live()),
            "the last page is a pending page",
        )
        .and(last.leads_to(to), RIGHT)
        .and(last.keeps_body(), LEFT)
}

/// A chain that begins with page `to` is linked: after the pending page that the metapage names last, or as the list
/// where it names none. The metapage counts more pages then.
fn links(step: &Step<'_>, to: u32) -> Rules {
    let Some((meta, last)) = linked_pages(step) else {
        return Rules::new().and(false, "it changes the metapage and a page at most");
    };
    let rules = match last {
        None => begins_list(meta, to),
        Some(last) => extends_list(meta, last, to),
    };
    rules.and(
        meta.left.pages > meta.was.pages,
        "the metapage counts more pages",
    )
}

/// 11 LinkPending, without the document and both lists: an own document with a private chain, which comes after the
/// last page; the head has none then.
pub(crate) fn link_pending_here(step: &Step<'_>, doc: Doc) -> Result<(), Fault> {
    let heap = step.first()?;
    let head = step.own_head(doc)?;
    let first = head.fields.private;
    links(step, first)
        .and(first != 0, "the head has a private chain")
        .then(heap.gives_head(doc, with_private(head, 0)))
        .end()
}

/// Whether the metapage names the last page of a chain, and counts its pages.
fn counts(meta: Listing, chain: Line) -> bool {
    let counted = meta.was.pages.checked_add(chain.count) == Some(meta.left.pages);
    counted && chain.last == Some(meta.left.last)
}

/// The chain is counted, and comes after the list's last page.
fn must_link(step: &Step<'_>, chain: Line) -> Result<(), Fault> {
    let list = pending_list(step)?;
    let Some((meta, last)) = linked_pages(step) else {
        return Err(Fault::Broken("it changes the metapage and a page at most"));
    };
    let last = match last {
        Some(last) => Some(last.page),
        None => None,
    };
    Rules::new()
        .and(
            counts(meta, chain),
            "the metapage counts the chain's pages and names its last",
        )
        .and(list.last == last, "it changes the last pending page")
        .end()
}

/// The document is whole and has no linked row; the rows from this page on have all its keys.
fn must_have_rows(step: &Step<'_>, doc: Doc, first: u32) -> Result<(), Fault> {
    let keys = step.keys_to_link(doc)?;
    let have_all = has_rows_from(step.store, first, &keys, doc.item);
    must(have_all, "the rows of the private chain have all keys")
}

/// 11 LinkPending: besides, the document is whole, with no linked row; the rows of its private chain have all its keys;
/// the metapage names and counts its pages, and it comes after the list's last page.
pub(crate) fn link_pending(step: &Step<'_>, doc: Doc) -> Result<(), Fault> {
    link_pending_here(step, doc)?;
    let private = step.own_head(doc)?.fields.private;
    let chain = need(line_from(step.store, private), "the private chain ends")?;
    must_have_rows(step, doc, private)?;
    must_link(step, chain)
}

/// The first page leaves the list, and leads to this one.
fn is_shifted(meta: Listing, right: u32) -> bool {
    let last = if right == 0 { 0 } else { meta.was.last };
    meta.left.first == right
        && meta.left.last == last
        && meta.left.pages.checked_add(1) == Some(meta.was.pages)
}

/// The first page leaves the metapage's list, and leads to this one.
fn meta_shifts(page: Changed<'_>, right: u32) -> bool {
    match listing_of(page) {
        Some(meta) => is_shifted(meta, right),
        None => false,
    }
}

/// All these keys have the item in the main part.
fn must_be_in_main(step: &Step<'_>, keys: &[Vec<u8>], item: u32) -> Result<(), Fault> {
    let moved = all_in_main(step.alloc, step.store, keys, item)?;
    must(moved, "all keys of a row's document are in the main part")
}

/// The document of a row has all its keys in the main part.
fn must_be_moved(step: &Step<'_>, item: u32) -> Result<(), Fault> {
    let head = need(head_at(step.store, item), "a row's document has its slot")?;
    let keys = step.keys_of(head)?;
    must_be_in_main(step, &keys, item)
}

/// 12 Shift, without the list and the documents: the page that the metapage names first, a pending page, becomes
/// Deleted and leaves the list.
pub(crate) fn shift_here(step: &Step<'_>) -> Result<(), Fault> {
    let (meta, page) = step.two()?;
    let is_first = first_pending(step.store) == page.page;
    page.is_deleted()
        .and(is_first, "it changes the first pending page")
        .and(is_pending(page.was_live()), "it changes a pending page")
        .and(
            meta_shifts(meta, page.left.right),
            "the page leaves the list",
        )
        .end()
}

/// 12 Shift: besides, the list ends, and the document of each row on the page has all its keys in the main part.
pub(crate) fn shift(step: &Step<'_>) -> Result<(), Fault> {
    shift_here(step)?;
    pending_list(step)?;
    let (_, page) = step.two()?;
    for row in rows_in(page.was_live()) {
        must_be_moved(step, row.item)?;
    }
    Ok(())
}
