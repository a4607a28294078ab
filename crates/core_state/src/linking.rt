// When a record PutPending, AddRow or LinkPending may come next, as far as the record, its pages
// before and after, and the state of the log say.
ghost use Rattle.std.specs.Prelude.{◌≡◌, ◌↔◌, true, length};
ghost use Rattle.page_types.specs.Keys.{KeyLess, Rising};
ghost use Rattle.page_types.specs.Parts.{pieces_shown, row_shown};
ghost use Rattle.core_state.specs.PendingRules.{IsPutPendingHere, IsAddRowHere, IsLinkPendingHere};
ghost use Rattle.core_state.specs.Judging.{Judges};
ghost use Rattle.core_state.specs.States.{fate_of};
ghost use Rattle.core_state.specs.Inner.PendingRows.{Follow, AreRowsOf, BeginWith, IsPlacedBy};
ghost use Rattle.core_state.specs.Inner.PendingRows.{LeavesRows, AddsRow, MetaGrows, LeadsOn, LinksList};

use crate::answers::Fate;
use crate::marking::{head_in, leaves_in_slot, page_and_head};
use crate::state::State;
use crate::table::name_of;
use crate::valid::changes_pages;
use page_types::{Body, HeadFields, Kind, Page, PiecesRef, Record, RowRef, Rows};
use std::alloc::AllocError;
use std::cmp::Ordering;

/// Whether a key is below another.
pub(crate) fn is_below(low: &[u8], high: &[u8]) -> bool
    ensures { result ≡ true ↔ KeyLess low.now high.now }
{
    let Ordering::Less = low.cmp(high) else {
        return false;
    };
    true
}

/// Whether keys rise.
fn keys_rise(keys: PiecesRef<'_>) -> bool
    ensures { result ≡ true ↔ Rising KeyLess (pieces_shown keys.entry) }
{
    for j in 1..keys.len() {
        if !is_below(keys.at(j - 1), keys.at(j)) {
            return false;
        }
    }
    true
}

/// Whether the first of these keys, if there is one, is above the last of those before.
fn keys_follow(before: PiecesRef<'_>, keys: PiecesRef<'_>) -> bool
    ensures { result ≡ true ↔ Follow (pieces_shown before.entry) (pieces_shown keys.entry) }
{
    if before.len() == 0 || keys.len() == 0 {
        return true;
    }
    is_below(before.at(before.len() - 1), keys.at(0))
}

/// Whether there is a row, each is of the item, and their keys rise from row to row.
fn are_rows_of(rows: &Rows, item: u32) -> bool
    ensures { result ≡ true ↔ AreRowsOf item rows.now }
{
    let Some(first) = rows.get(0) else {
        return false;
    };
    if first.item != item || !keys_rise(first.keys) {
        return false;
    }
    let mut before = first.keys;
    for k in 1..rows.len() {
        let Some(row) = rows.get(k) else {
            return false;
        };
        if row.item != item || !keys_rise(row.keys) || !keys_follow(before, row.keys) {
            return false;
        }
        if row.keys.len() > 0 {
            before = row.keys;
        }
    }
    true
}

/// Whether two rows have the same item and the same keys.
fn is_same_row(a: RowRef<'_>, b: RowRef<'_>) -> bool
    ensures { result ≡ true ↔ (row_shown a.entry ≡ row_shown b.entry) }
{
    if a.item != b.item || a.keys.len() != b.keys.len() {
        return false;
    }
    for j in 0..a.keys.len() {
        if a.keys.at(j) != b.keys.at(j) {
            return false;
        }
    }
    true
}

/// Whether rows begin with others.
pub fn begin_with(rows: &Rows, front: &Rows) -> bool
    ensures { result ≡ true ↔ BeginWith rows.now front.now }
{
    for k in 0..front.len() {
        let Some(a) = rows.get(k) else {
            return false;
        };
        let Some(b) = front.get(k) else {
            return false;
        };
        if !is_same_row(a, b) {
            return false;
        }
    }
    true
}

/// Whether this transaction placed the head, and runs.
fn is_placed_by(state: &State, xid: u32, fields: HeadFields) -> bool
    ensures { result ≡ true ↔ IsPlacedBy (fate_of state.now.value) xid fields.inserted_by }
{
    fields.inserted_by == xid && state.fate(xid) == Fate::Running
}

/// Whether a record leaves rows of the item on this page, in front of the page `first`.
fn leaves_rows(rec: &Record, item: u32, first: u32, new: &Page) -> bool
    ensures { result ≡ true ↔ LeavesRows rec.now item first new.now }
{
    let Body::Pending(rows) = &new.body else {
        return false;
    };
    if new.right != first || new.stamp != rec.number {
        return false;
    }
    are_rows_of(rows, item)
}

/// Whether PutPending may come next: its transaction placed the head and runs, and a new page with rows
/// of the document, whose keys rise from row to row, becomes the head's first private page.
pub fn valid_put_pending(
    state: &State,
    rec: &Record,
    before: &[Page],
    after: &[Page],
    _floor: u32,
    since: u64,
) -> Result<bool, AllocError>
    ensures { Judges (IsPutPendingHere since) state.now.value rec.now before.now after.now result }
{
    let Kind::PutPending { item, serial } = rec.kind else {
        return Ok(false);
    };
    let name = name_of(item, serial);
    let Some((new, head)) = page_and_head(state, rec, name, before, since) else {
        return Ok(false);
    };
    if after.len() != 2 || !is_placed_by(state, rec.xid, head.fields) {
        return Ok(false);
    }
    if !leaves_rows(rec, item, head.fields.private, &after[1]) {
        return Ok(false);
    }
    let fields = HeadFields {
        private: new,
        ..head.fields
    };
    Ok(leaves_in_slot(rec, name.slot, &before[0], fields, head.vector, &after[0]))
}

/// Whether a record leaves the page with a row of the item after those that it had.
fn adds_row(rec: &Record, item: u32, old: &Page, new: &Page) -> bool
    ensures { result ≡ true ↔ AddsRow rec.now item old.now new.now }
{
    let Body::Pending(rows) = &old.body else {
        return false;
    };
    let Body::Pending(new_rows) = &new.body else {
        return false;
    };
    if new.right != old.right || new.stamp != rec.number {
        return false;
    }
    let Some(row) = new_rows.get(rows.len()) else {
        return false;
    };
    if row.item != item || new_rows.len() != rows.len() + 1 {
        return false;
    }
    begin_with(new_rows, rows)
}

/// Whether AddRow may come next: its transaction runs, and a row of the document comes after those of
/// a pending page.
pub fn valid_add_row(
    state: &State,
    rec: &Record,
    before: &[Page],
    after: &[Page],
    _floor: u32,
    _since: u64,
) -> Result<bool, AllocError>
    ensures { Judges IsAddRowHere state.now.value rec.now before.now after.now result }
{
    let Kind::AddRow { item, serial: _ } = rec.kind else {
        return Ok(false);
    };
    if before.len() != 1 || after.len() != 1 || rec.changes.as_slice().len() != 1 {
        return Ok(false);
    }
    let Fate::Running = state.fate(rec.xid) else {
        return Ok(false);
    };
    Ok(adds_row(rec, item, &before[0], &after[0]))
}

/// Whether a record leaves the metapage with this first page and a greater number of pages.
fn meta_grows(rec: &Record, first: u32, old: &Page, new: &Page) -> bool
    ensures { result ≡ true ↔ MetaGrows rec.now first old.now new.now }
{
    let Body::Meta { pages: count, .. } = old.body else {
        return false;
    };
    let Body::Meta {
        first: named,
        pages,
        ..
    } = new.body
    else {
        return false;
    };
    if new.right != old.right || new.stamp != rec.number || named != first {
        return false;
    }
    if pages <= count {
        return false;
    }
    true
}

/// Whether a record leaves a pending page with its rows, in front of the page `to`.
fn leads_on(rec: &Record, to: u32, old: &Page, new: &Page) -> bool
    ensures { result ≡ true ↔ LeadsOn rec.now to old.now new.now }
{
    let Body::Pending(rows) = &old.body else {
        return false;
    };
    let Body::Pending(new_rows) = &new.body else {
        return false;
    };
    if new.right != to || new.stamp != rec.number || new_rows.len() != rows.len() {
        return false;
    }
    begin_with(new_rows, rows)
}

/// Whether a record leaves pages, of which the first is `to`, as the pending list: the metapage, which
/// names no page, changes after this heap page.
fn begins_list(rec: &Record, heap: u32, to: u32, before: &[Page], after: &[Page]) -> bool
    requires before { length before.now ≡ 2 }
    requires after { length after.now ≡ 2 }
    ensures { result ≡ true ↔ LinksList rec.now heap to before.now after.now }
{
    let meta = &before[1];
    let Body::Meta { first, last, .. } = meta.body else {
        return false;
    };
    if first != 0 || last != 0 || !changes_pages(rec, &[heap, 0]) {
        return false;
    }
    meta_grows(rec, to, meta, &after[1])
}

/// Whether a record leaves pages, of which the first is `to`, behind the pending list: the metapage and
/// the last page that it names change after this heap page.
fn extends_list(rec: &Record, heap: u32, to: u32, before: &[Page], after: &[Page]) -> bool
    requires before { length before.now ≡ 3 }
    requires after { length after.now ≡ 3 }
    ensures { result ≡ true ↔ LinksList rec.now heap to before.now after.now }
{
    let meta = &before[1];
    let Body::Meta { first, last, .. } = meta.body else {
        return false;
    };
    if first == 0 || !changes_pages(rec, &[heap, 0, last]) {
        return false;
    }
    if !meta_grows(rec, first, meta, &after[1]) {
        return false;
    }
    leads_on(rec, to, &before[2], &after[2])
}

/// Whether a record leaves pages, of which the first is `to`, behind the pending list, and changes this
/// heap page before those of the list.
fn links_list(rec: &Record, heap: u32, to: u32, before: &[Page], after: &[Page]) -> bool
    ensures { result ≡ true ↔ LinksList rec.now heap to before.now after.now }
{
    if after.len() != before.len() {
        return false;
    }
    if before.len() == 2 {
        return begins_list(rec, heap, to, before, after);
    }
    if before.len() != 3 {
        return false;
    }
    extends_list(rec, heap, to, before, after)
}

/// Whether LinkPending may come next: its transaction placed the head and runs, and the head's private
/// pages, of which there is one, come behind the pending list.
pub fn valid_link_pending(
    state: &State,
    rec: &Record,
    before: &[Page],
    after: &[Page],
    _floor: u32,
    _since: u64,
) -> Result<bool, AllocError>
    ensures { Judges IsLinkPendingHere state.now.value rec.now before.now after.now result }
{
    let Kind::LinkPending { item, serial } = rec.kind else {
        return Ok(false);
    };
    let name = name_of(item, serial);
    if before.len() == 0 || after.len() == 0 {
        return Ok(false);
    }
    let old = &before[0];
    let Some(head) = head_in(old, name) else {
        return Ok(false);
    };
    if head.fields.private == 0 || !is_placed_by(state, rec.xid, head.fields) {
        return Ok(false);
    }
    if !links_list(rec, name.page, head.fields.private, before, after) {
        return Ok(false);
    }
    let fields = HeadFields {
        private: 0,
        ..head.fields
    };
    Ok(leaves_in_slot(rec, name.slot, old, fields, head.vector, &after[0]))
}
