// Heads on heap pages: placed, marked, freed and read.
ghost use Rattle.std.specs.Prelude.{◌≡◌, true, IsSome};
ghost use Rattle.page_types.specs.Pages.{IsPage};
ghost use Rattle.doc_heap.specs.HeapPages.{head_on};

use crate::kinds::{Kind, try_rows};
use crate::page_tests::{page_in, said};
use crate::rows::{bytes_of, cut, long, number, page_with, short, word};
use doc_heap::{free, head, mark, place};
use page_types::{Bytes, Head, Page};
use std::alloc::{AllocError, Global};
use std::test::Fail;

/// A change of a page, or a look at it, the page before, and what comes of it. `place` has a serial, a transaction
/// and the bytes of a vector, and gives a slot and a page, where there is room; `mark` has a slot and a
/// transaction.
///
/// A head gets the lowest free slot, else the next. A page that was none of the heap has no slots and loses its
/// right link. A body has at most 8168 bytes, and a free slot has one.
const HEADS: &str = "\
    place 2 2 63 | 00 | 0 | 02 00 0100 00 00*3 00 00*7 1e00 00*6 01 02 00*7 02 00*15 01 00*3 63
    place 2 2 63 | 02 00 0100 05 00*3 07 00*7 1f00 00*6 01 01 00*7 01 00*15 02 00*3 6162 | 1 | 02 00 0200 05 00*3 \
        07 00*7 3d00 00*6 01 01 00*7 01 00*15 02 00*3 6162 01 02 00*7 02 00*15 01 00*3 63
    place 2 2 63 | 02 00 0300 00 00*3 07 00*7 3f00 00*6 01 01 00*7 01 00*15 02 00*3 6162 00 01 01 00*7 01 00*15 02 \
        00*3 6162 | 1 | 02 00 0300 00 00*3 07 00*7 5c00 00*6 01 01 00*7 01 00*15 02 00*3 6162 01 02 00*7 02 00*15 \
        01 00*3 63 01 01 00*7 01 00*15 02 00*3 6162
    place 2 2 63 | 02 00 0200 00 00*3 07 00*7 0200 00*6 00 00 | 0 | 02 00 0200 00 00*3 07 00*7 1f00 00*6 01 02 00*7 \
        02 00*15 01 00*3 63 00
    place 2 2 63 | 09 03 0000 09 00*3 18 00*7 0300 00*6 78797a | 0 | 02 00 0100 00 00*3 18 00*7 1e00 00*6 01 02 \
        00*7 02 00*15 01 00*3 63
    place 2 2 63 | 02 00 0500 00 00*3 07 00*7 ca1f 00*6 01 01 00*7 01 00*15 0807 00*2 61*1800 01 01 00*7 01 00*15 \
        0807 00*2 61*1800 01 01 00*7 01 00*15 0807 00*2 61*1800 01 01 00*7 01 00*15 0807 00*2 61*1800 01 01 00*7 01 \
        00*15 1903 00*2 62*793 | 5 | 02 00 0600 00 00*3 07 00*7 e81f 00*6 01 01 00*7 01 00*15 0807 00*2 61*1800 01 \
        01 00*7 01 00*15 0807 00*2 61*1800 01 01 00*7 01 00*15 0807 00*2 61*1800 01 01 00*7 01 00*15 0807 00*2 \
        61*1800 01 01 00*7 01 00*15 1903 00*2 62*793 01 02 00*7 02 00*15 01 00*3 63
    place 2 2 63 | 02 00 0500 00 00*3 07 00*7 cb1f 00*6 01 01 00*7 01 00*15 0807 00*2 61*1800 01 01 00*7 01 00*15 \
        0807 00*2 61*1800 01 01 00*7 01 00*15 0807 00*2 61*1800 01 01 00*7 01 00*15 0807 00*2 61*1800 01 01 00*7 01 \
        00*15 1a03 00*2 62*794 | none
    place 2 2 63 | 02 00 1b00 00 00*3 07 00*7 cb1f 00*6 01 01 00*7 01 00*15 d007 00*2 61*2000 01 01 00*7 01 00*15 \
        d007 00*2 61*2000 01 01 00*7 01 00*15 d007 00*2 61*2000 01 01 00*7 01 00*15 d007 00*2 61*2000 00*23 | 4 | \
        02 00 1b00 00 00*3 07 00*7 e81f 00*6 01 01 00*7 01 00*15 d007 00*2 61*2000 01 01 00*7 01 00*15 d007 00*2 \
        61*2000 01 01 00*7 01 00*15 d007 00*2 61*2000 01 01 00*7 01 00*15 d007 00*2 61*2000 01 02 00*7 02 00*15 01 \
        00*3 63 00*22
    place 2 2 63 | 02 00 1c00 00 00*3 07 00*7 cc1f 00*6 01 01 00*7 01 00*15 d007 00*2 61*2000 01 01 00*7 01 00*15 \
        d007 00*2 61*2000 01 01 00*7 01 00*15 d007 00*2 61*2000 01 01 00*7 01 00*15 d007 00*2 61*2000 00*24 | none
    mark 0 3 | 02 00 0100 05 00*3 07 00*7 1f00 00*6 01 01 00*7 01 00*15 02 00*3 6162 | 02 00 0100 05 00*3 07 00*7 \
        1f00 00*6 01 01 00*7 01 00*3 03 00*11 02 00*3 6162
    mark 1 4 | 02 00 0300 00 00*3 07 00*7 5d00 00*6 01 01 00*7 01 00*15 02 00*3 6162 01 01 00*7 01 00*3 03 00*11 02 \
        00*3 6162 01 01 00*7 01 00*15 02 00*3 6162 | 02 00 0300 00 00*3 07 00*7 5d00 00*6 01 01 00*7 01 00*15 02 \
        00*3 6162 01 01 00*7 01 00*3 04 00*11 02 00*3 6162 01 01 00*7 01 00*15 02 00*3 6162
    free 0 | 02 00 0100 05 00*3 07 00*7 1f00 00*6 01 01 00*7 01 00*15 02 00*3 6162 | 02 00 0100 05 00*3 07 00*7 \
        0100 00*6 00
    free 1 | 02 00 0300 00 00*3 07 00*7 5d00 00*6 01 01 00*7 01 00*15 02 00*3 6162 01 01 00*7 01 00*3 03 00*11 02 \
        00*3 6162 01 01 00*7 01 00*15 02 00*3 6162 | 02 00 0300 00 00*3 07 00*7 3f00 00*6 01 01 00*7 01 00*15 02 \
        00*3 6162 00 01 01 00*7 01 00*15 02 00*3 6162
    head 1 | 02 00 0300 00 00*3 07 00*7 3f00 00*6 00 01 01 00*7 01 00*3 03 00*11 02 00*3 6162 01 01 00*7 01 00*15 \
        02 00*3 6162 | Some(HeadRef { fields: HeadFields { serial: 1, inserted_by: 1, deleted_by: 3, overflow: 0, \
        private: 0, bytes: 2 }, vector: [97, 98] })
    head 0 | 02 00 0200 00 00*3 07 00*7 2000 00*6 00 01 01 00*7 01 00*15 02 00*3 6162 | None
    head 2 | 02 00 0200 00 00*3 07 00*7 2000 00*6 00 01 01 00*7 01 00*15 02 00*3 6162 | None
    head 0 | 00 | None
    head 0 | 03 00 0000 04 00*3 0e 00*7 0600 00*6 616263646566 | None
";

/// The head of a serial, a transaction and a vector.
fn head_of(alloc: Global, words: &str) -> Result<Head, AllocError> {
    let (serial, rest) = word(words);
    let (xid, vector) = word(rest);
    let vector = bytes_of(alloc, vector)?;
    Ok(Head {
        serial: long(serial),
        inserted_by: number(xid),
        deleted_by: 0,
        overflow: 0,
        private: 0,
        bytes: u32::try_from(vector.len()).unwrap_or(u32::MAX),
        vector: Bytes::from_vec(vector),
    })
}

/// Whether two pages say the same.
fn say_same(alloc: Global, page: &Page, other: &Page) -> Result<bool, AllocError> {
    let told = said(alloc, page)?;
    Ok(told == said(alloc, other)?)
}

/// Whether a page has these bytes.
pub(crate) fn has_bytes(alloc: Global, page: &Page, words: &str) -> Result<bool, AllocError> {
    let bytes = page_with(alloc, words)?;
    match page_in(alloc, &bytes) {
        Ok(wanted) => say_same(alloc, page, &wanted),
        Err(_) => Ok(false),
    }
}

/// Whether this slot, and this page, are what a row says.
fn is_there(alloc: Global, page: &Page, slot: u16, tells: &str) -> Result<bool, AllocError> {
    let (wanted, after) = cut(tells);
    Ok(slot == short(wanted) && has_bytes(alloc, page, after)?)
}

/// Whether a head is placed where its row says, and makes this page.
fn is_placed(alloc: Global, page: &Page, words: &str, tells: &str) -> Result<bool, AllocError>
    requires { IsPage page.now }
{
    let head = head_of(alloc, words)?;
    match place(alloc, page, &head)? {
        None => Ok(tells == "none"),
        Some((placed, slot)) => is_there(alloc, &placed, slot, tells),
    }
}

/// Whether a slot has a head.
fn has_head(page: &Page, slot: u16) -> bool
    ensures { result ≡ true → IsSome (head_on page.now slot) }
{
    head(page, slot).is_some()
}

/// Whether a slot has the head that its row says.
fn is_read(alloc: Global, page: &Page, slot: u16, tells: &str) -> Result<bool, AllocError> {
    let text = format!(in alloc; "{:?}", head(page, slot))?;
    Ok(text.as_str() == tells)
}

/// Whether a head that is marked, or else freed, leaves this page.
fn is_changed(
    alloc: Global,
    mut page: Page,
    marks: bool,
    words: &str,
    tells: &str,
) -> Result<bool, AllocError> {
    let (slot, xid) = word(words);
    let slot = short(slot);
    if !has_head(&page, slot) {
        return Ok(false);
    }
    if marks {
        mark(&mut page, slot, number(xid));
    } else {
        free(&mut page, slot);
    }
    has_bytes(alloc, &page, tells)
}

/// Whether a change of a page, or a look at it, gives what its row says.
fn gives(alloc: Global, page: Page, words: &str, tells: &str) -> Result<bool, AllocError>
    requires { IsPage page }
{
    let (verb, words) = word(words);
    match verb {
        "place" => is_placed(alloc, &page, words, tells),
        "head" => is_read(alloc, &page, short(words), tells),
        _ => is_changed(alloc, page, verb == "mark", words, tells),
    }
}

/// Whether a row holds.
pub(crate) fn holds(alloc: Global, row: &str) -> Result<bool, AllocError> {
    let (words, rest) = cut(row);
    let (before, tells) = cut(rest);
    let bytes = page_with(alloc, before)?;
    match page_in(alloc, &bytes) {
        Ok(page) => gives(alloc, page, words, tells),
        Err(_) => Ok(false),
    }
}

#[test]
fn heads_are_placed_marked_freed_and_read(rt: HostRuntime) -> Result<(), Fail> {
    try_rows(&rt, rt.alloc(), Kind::Head, HEADS)?;
    Ok(())
}
