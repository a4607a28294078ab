// Rows of a document's keys, on pages of their own.
ghost use Rattle.std.specs.Prelude.{◌≡◌, ◌≢◌, ◌+◌, ◌≤◌, ◌<◌, [], ◌∷◌, ◌++◌, length, map, take, All, IfOk};
ghost use Rattle.page_types.specs.Numbers.{most_body, item_limit};
ghost use Rattle.page_types.specs.Pages.{IsPage};
ghost use Rattle.pending_list.specs.Packing.{AreKeys, row_of, row_length, page_of_row, ArePacked};

use page_types::{Body, MOST_BODY_BYTES, Page, Pieces, Rows};
use std::alloc::{AllocError, Global};

/// The bytes of a row before its keys: its item and the number of keys.
const ROW_FRONT: usize = 6;

/// The bytes of a key's length.
const KEY_FRONT: usize = 2;

/// How many of the first keys have room in one row after so many bytes of a page.
pub(crate) fn fitting(used: usize, keys: &[Vec<u8>]) -> usize
    requires { used ≤ most_body }
    ensures within { result ≤ length keys.now }
    ensures fits { result ≢ 0
        → used + row_length (take result (map (λ key. key.items) keys.now)) ≤ most_body }
    ensures most { result < length keys.now → most_body
        < used + row_length (take (result + 1) (map (λ key. key.items) keys.now)) }
{
    let mut size = used + ROW_FRONT;
    for k in 0..keys.len() {
        size += KEY_FRONT + keys[k].len();
        if size > MOST_BODY_BYTES {
            return k;
        }
    }
    keys.len()
}

/// Adds a row of these keys to others.
pub(crate) fn push_row(
    alloc: Global,
    item: u32,
    keys: &[Vec<u8>],
    rows: &mut Rows,
) -> Result<(), AllocError>
    ensures { IfOk result (λ done. rows.new
        ≡ rows.old ++ row_of item (map (λ key. key.items) keys.now) ∷ []) }
{
    let mut pieces = Pieces::new(alloc);
    for key in keys {
        pieces.push(key.as_slice())?;
    }
    rows.push(item, &pieces)
}

/// Adds a page with one row of these keys, which leads to no other page.
fn push_page(
    alloc: Global,
    item: u32,
    keys: &[Vec<u8>],
    pages: &mut Vec<Page>,
) -> Result<(), AllocError>
    ensures { IfOk result (λ done. pages.new.items
        ≡ pages.old.items ++ page_of_row item (map (λ key. key.items) keys.now) ∷ []) }
{
    pages.reserve(1)?;
    let mut rows = Rows::new(alloc);
    push_row(alloc, item, keys, &mut rows)?;
    pages.push_reserved(Page {
        right: 0,
        stamp: 0,
        body: Body::Pending(rows),
    });
    Ok(())
}

/// Adds pages with all these keys in their order, each with as many of those that are left as fit.
fn pack(alloc: Global, item: u32, keys: &[Vec<u8>], pages: &mut Vec<Page>) -> Result<(), AllocError>
    requires none { pages.old.items ≡ [] }
    requires keys { AreKeys (map (λ key. key.items) keys.now) }
    ensures { IfOk result (λ done.
        ArePacked item (map (λ key. key.items) keys.now) pages.new.items) }
{
    let mut rest = keys;
    while !rest.is_empty() {
        let (front, back) = rest.split_at(fitting(0, rest));
        push_page(alloc, item, front, pages)?;
        rest = back;
    }
    Ok(())
}

/// Pages with all keys of a document in their order, one row of its item each: each but the last has
/// as many of the keys as fit.
pub fn rows(alloc: Global, item: u32, keys: &[Vec<u8>]) -> Result<Vec<Page>, AllocError>
    requires item { item < item_limit }
    requires keys { AreKeys (map (λ key. key.items) keys.now) }
    ensures packed { IfOk result (λ pages.
        ArePacked item (map (λ key. key.items) keys.now) pages.items) }
    ensures are_pages { IfOk result (λ pages. All IsPage pages.items) }
{
    let mut pages = Vec::new(alloc);
    pack(alloc, item, keys, &mut pages)?;
    Ok(pages)
}
