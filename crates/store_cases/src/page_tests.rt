// Each kind of page, and bytes that are no pages.
ghost use Rattle.std.specs.Prelude.{IfOk};
ghost use Rattle.page_types.specs.Pages.{IsPage};

use crate::kinds::{Kind, try_rows};
use crate::page_rows::{EDITS, PAGES};
use crate::rows::{bytes_of, cut, number, page_with, word};
use page_code::{PageError, decode_page, encode_page};
use page_types::Page;
use std::alloc::{AllocError, Global};
use std::test::Fail;

/// The page whose encoding the bytes are.
pub(crate) fn page_in(alloc: Global, bytes: &[u8]) -> Result<Page, PageError>
    ensures { IfOk result (λ p. IsPage p) }
{
    decode_page(alloc, bytes)
}

/// What a copy of the page says.
pub(crate) fn said(alloc: Global, page: &Page) -> Result<String, AllocError> {
    let copy = page.clone()?;
    format!(in alloc; "{copy:?}")
}

/// Where these bytes are refused, if they are.
fn refused(alloc: Global, bytes: &[u8]) -> Option<usize> {
    match decode_page(alloc, bytes).err() {
        Some(PageError::BadPage { at }) => Some(at),
        _ => None,
    }
}

/// Whether a page is what its row says, and is written so over other bytes.
fn is_so(alloc: Global, page: &Page, tells: &str, bytes: &[u8]) -> Result<bool, AllocError>
    requires { IsPage page.now }
{
    let mut out = page_with(alloc, "ff*8192")?;
    encode_page(page, &mut out);
    Ok(out.as_slice() == bytes && said(alloc, page)?.as_str() == tells)
}

/// Whether a page is read as what its row says, and written again.
pub(crate) fn is_page(alloc: Global, row: &str) -> Result<bool, AllocError> {
    let (_, rest) = cut(row);
    let (tells, words) = cut(rest);
    let bytes = page_with(alloc, words)?;
    match page_in(alloc, &bytes) {
        Ok(page) => is_so(alloc, &page, tells, &bytes),
        Err(_) => Ok(false),
    }
}

/// Whether a page is refused with a byte more, a byte less, and cut to 23 bytes.
pub(crate) fn is_refused_else(alloc: Global, row: &str) -> Result<bool, AllocError> {
    let mut bytes = page_with(alloc, cut(cut(row).1).1)?;
    bytes.push(0)?;
    let longer = refused(alloc, &bytes);
    bytes.truncate(8191);
    let shorter = refused(alloc, &bytes);
    bytes.truncate(23);
    Ok([longer, shorter, refused(alloc, &bytes)] == [Some(8192), Some(8191), Some(23)])
}

/// The words of the page with this name, none where there is no such page.
fn words_of(name: &str) -> &str {
    for row in PAGES.lines() {
        let (other, rest) = cut(row);
        if other == name {
            return cut(rest).1;
        }
    }
    ""
}

/// Puts bytes at a place, as far as there is room.
fn put_bytes(page: &mut [u8], at: usize, bytes: &[u8]) {
    let mut place = at;
    for byte in bytes {
        if let Some(slot) = page.get_mut(place) {
            *slot = *byte;
        }
        place = place.saturating_add(1);
    }
}

/// Whether a page with other bytes from a place on is refused where its row says.
pub(crate) fn is_refused_there(alloc: Global, row: &str) -> Result<bool, AllocError> {
    let (name, rest) = word(row);
    let (at, rest) = word(rest);
    let (digits, rest) = word(rest);
    let bytes = bytes_of(alloc, digits)?;
    let mut page = page_with(alloc, words_of(name))?;
    put_bytes(&mut page, number(at) as usize, &bytes);
    Ok(refused(alloc, &page) == word(rest).0.parse().ok())
}

/// Pages are read and written, and bytes that are no pages are refused at their places.
#[test]
fn pages(rt: HostRuntime) -> Result<(), Fail> {
    let alloc = rt.alloc();
    try_rows(&rt, alloc, Kind::Page, PAGES)?;
    try_rows(&rt, alloc, Kind::PageAlone, PAGES)?;
    try_rows(&rt, alloc, Kind::PageEdit, EDITS)?;
    Ok(())
}
