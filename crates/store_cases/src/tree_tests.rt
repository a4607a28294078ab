// Pages of posting trees: items sought, leaves made, filled and split, roots that grow, parents that take a new page or
// lose one; leaves of the entry tree of which an entry comes to lead to such a tree; and leaves without dead items.
ghost use Rattle.std.specs.Prelude.{◌≡◌, ◌≤◌, IsTrue};
ghost use Rattle.page_types.specs.Encoding.{count_of};
ghost use Rattle.page_types.specs.Pages.{IsPage};
ghost use Rattle.entry_tree.specs.Adding.{IsEntryLeaf};
ghost use Rattle.entry_tree.specs.Rooting.{HasListAt};
ghost use Rattle.posting_tree.specs.Adding.{IsPostLeaf};
ghost use Rattle.posting_tree.specs.Reading.{IsPostBody};

use crate::entry_rows::{ADOPTED, FILLED, FOUND, GROWN, LEFT, SPLIT};
use crate::entry_tests;
use crate::heap_tests::has_bytes;
use crate::item_tests::items_in;
use crate::kinds::{Kind, try_rows};
use crate::page_tests::page_in;
use crate::rows::{bytes_of, cut, number, page_with, word};
use entry_tree::root_at;
use page_types::{Body, ITEM_LIMIT, MOST_INLINE_BYTES, Page, PostingsRef};
use posting_code::{ItemSet, Items, Keep};
use posting_tree::{
    Added, add, adopt, find, first_child, grow, has_room, leaf, remove, split, unlink, upper,
};
use std::alloc::{AllocError, Global};
use std::test::Fail;

/// What is done with a page, the page before, and what comes of it. `find` has an item; `tell` gives the first child,
/// the greatest item, and whether a child more has room; `leaf` has a list, and no page before; `add` has two items;
/// `half` and `most` have the number of the new page of a split, and `grow` that of the root's child; `adopt` has the
/// page that was split, the new one, and the item that divides them; `unlink` has the child that goes. `root` has the
/// number of an entry of a leaf of the entry tree, and the root that it leads to in place of its list.
///
/// Six such leaves are full, or nearly: in four the first list has no bytes, one, two and three; in two more it has
/// none, and the body has two bytes less, and one.
///
/// A child has 8 bytes: 1020 of them have 8160 of the 8168 that a body may have, and leave room for one; 1021 have all.
/// Where there are so many, their pages are the numbers from 1 or 2 on, and so are their bounds, as far as they have
/// one. More than half of 1021 are 511.
const TREES: &str = "\
    find 2 | 07 00 0300 00*4 00*8 0700 00*6 00*4 010101 | Here
    find 4 | 07 00 0300 00*4 00*8 0700 00*6 00*4 010101 | Absent
    find 1 | 07 00 0000 00*4 00*8 0400 00*6 00*4 | Absent
    find 5 | 07 00 0300 09 00*3 00*8 0700 00*6 05 00*3 010101 | Absent
    find 6 | 07 00 0300 09 00*3 00*8 0700 00*6 05 00*3 010101 | Right { page: 9 }
    find 300 | 08 00 0200 00*4 00*8 1000 00*6 08 00*3 2c01 00*2 09 00*3 ffffffff | Down { child: 8 }
    find 301 | 08 00 0200 00*4 00*8 1000 00*6 08 00*3 2c01 00*2 09 00*3 ffffffff | Down { child: 9 }
    find 2147483647 | 08 00 0200 00*4 00*8 1000 00*6 08 00*3 2c01 00*2 09 00*3 ffffffff | Down { child: 9 }
    find 400 | 08 00 0200 0b 00*3 00*8 1000 00*6 08 00*3 2c01 00*2 09 00*3 9001 00*2 | Down { child: 9 }
    find 401 | 08 00 0200 0b 00*3 00*8 1000 00*6 08 00*3 2c01 00*2 09 00*3 9001 00*2 | Right { page: 11 }
    find 1 | 07 00 0200 00*4 00*8 0600 00*6 00*4 0202 | Absent
    find 2 | 07 00 0200 00*4 00*8 0600 00*6 00*4 0202 | Here
    find 3 | 07 00 0200 00*4 00*8 0600 00*6 00*4 0202 | Absent
    find 4 | 07 00 0200 00*4 00*8 0600 00*6 00*4 0202 | Here
    find 5 | 07 00 0200 00*4 00*8 0600 00*6 00*4 0202 | Absent
    tell | 08 00 0200 00*4 00*8 1000 00*6 08 00*3 2c01 00*2 09 00*3 ffffffff | Some(8) 4294967295 true
    tell | 08 00 0200 0b 00*3 00*8 1000 00*6 08 00*3 2c01 00*2 09 00*3 9001 00*2 | Some(8) 400 true
    tell | 07 00 0300 00*4 00*8 0700 00*6 00*4 010101 | None 0 true
    tell | 07 00 0300 09 00*3 00*8 0700 00*6 05 00*3 010101 | None 5 true
    tell | 07 00 dc1f 00*4 00*8 e01f 00*6 00*4 01*8156 | None 0 true
    tell | 07 00 dd1f 00*4 00*8 e11f 00*6 00*4 01*8157 | None 0 false
    tell | 08 00 fc03 00*4 00*8 e01f 00*6 1..1019 fc03 00*2 ffffffff | Some(1) 4294967295 true
    tell | 08 00 fd03 00*4 00*8 e81f 00*6 1..1020 fd03 00*2 ffffffff | Some(1) 4294967295 false
    tell | 08 00 fc03 0b 00*3 00*8 e01f 00*6 2..1021 | Some(2) 1021 true
    tell | 08 00 fd03 0b 00*3 00*8 e81f 00*6 1..1021 | Some(1) 1021 false
    find 1000 | 08 00 fd03 0b 00*3 00*8 e81f 00*6 1..1021 | Down { child: 1000 }
    find 1022 | 08 00 fd03 0b 00*3 00*8 e81f 00*6 1..1021 | Right { page: 11 }
    leaf 010101 | 00 | 07 00 0300 00*4 00*8 0700 00*6 00*4 010101
    leaf 8020 | 00 | 07 00 0100 00*4 00*8 0600 00*6 00*4 8020
    add 4097 4098 | 07 00 0100 00*4 00*8 0600 00*6 00*4 8020 | 07 00 0300 00*4 00*8 0800 00*6 00*4 80200101
    add 4 6 | 07 00 0300 09 00*3 00*8 0700 00*6 08 00*3 010101 | 07 00 0500 09 00*3 00*8 0900 00*6 08 00*3 \
        0101010102
    add 1 2 | 07 00 0100 00*4 00*8 0500 00*6 00*4 03 | 07 00 0300 00*4 00*8 0700 00*6 00*4 010101
    add 1 150 | 07 00 0200 09 00*3 00*8 0700 00*6 2c01 00*2 01ab02 | 07 00 0300 09 00*3 00*8 0900 00*6 2c01 \
        00*2 0195019601
    add 1 2147483647 | 07 00 0000 00*4 00*8 0400 00*6 00*4 | 07 00 0200 00*4 00*8 0a00 00*6 00*4 01feffffff07
    add 8160 8164 | 07 00 e31f 00*4 00*8 e71f 00*6 00*4 01*8163 | 07 00 e41f 00*4 00*8 e81f 00*6 00*4 01*8164
    add 8164 8165 | 07 00 e31f 00*4 00*8 e71f 00*6 00*4 01*8163 | full
    half 5 | 07 00 0400 09 00*3 00*8 0800 00*6 09 00*3 01010101 | 07 00 0200 05 00*3 00*8 0600 00*6 02 00*3 \
        0101; 07 00 0200 09 00*3 00*8 0600 00*6 09 00*3 0301
    most 5 | 07 00 0400 09 00*3 00*8 0800 00*6 09 00*3 01010101 | 07 00 0300 05 00*3 00*8 0700 00*6 03 00*3 \
        010101; 07 00 0100 09 00*3 00*8 0500 00*6 09 00*3 04
    half 5 | 07 00 0200 00*4 00*8 0700 00*6 00*4 01c701 | 07 00 0100 05 00*3 00*8 0500 00*6 01 00*3 01; 07 00 \
        0100 00*4 00*8 0600 00*6 00*4 c801
    half 5 | 07 00 0600 00*4 00*8 0e00 00*6 00*4 01010106a3029494b102 | 07 00 0500 05 00*3 00*8 0a00 00*6 2c01 \
        00*2 01010106a302; 07 00 0100 00*4 00*8 0800 00*6 00*4 c096b102
    most 5 | 07 00 0400 00*4 00*8 0c00 00*6 00*4 010101fdc5868f01 | 07 00 0300 05 00*3 00*8 0700 00*6 03 00*3 \
        010101; 07 00 0100 00*4 00*8 0900 00*6 00*4 80c6868f01
    most 5 | 07 00 0200 00*4 00*8 0a00 00*6 00*4 01feffffff07 | 07 00 0100 05 00*3 00*8 0500 00*6 01 00*3 01; \
        07 00 0100 00*4 00*8 0900 00*6 00*4 ffffffff07
    half 5 | 07 00 0200 00*4 00*8 0800 00*6 00*4 01ff8101 | 07 00 0100 05 00*3 00*8 0500 00*6 01 00*3 01; 07 00 \
        0100 00*4 00*8 0700 00*6 00*4 808201
    half 5 | 07 00 0200 00*4 00*8 0a00 00*6 00*4 01feffffff07 | 07 00 0100 05 00*3 00*8 0500 00*6 01 00*3 01; \
        07 00 0100 00*4 00*8 0900 00*6 00*4 ffffffff07
    most 5 | 07 00 0400 00*4 00*8 0900 00*6 00*4 010101c501 | 07 00 0300 05 00*3 00*8 0700 00*6 03 00*3 010101; \
        07 00 0100 00*4 00*8 0600 00*6 00*4 c801
    most 5 | 07 00 0400 00*4 00*8 0a00 00*6 00*4 010101fd8101 | 07 00 0300 05 00*3 00*8 0700 00*6 03 00*3 010101; \
        07 00 0100 00*4 00*8 0700 00*6 00*4 808201
    most 5 | 07 00 0400 00*4 00*8 0b00 00*6 00*4 010101bd96b102 | 07 00 0300 05 00*3 00*8 0700 00*6 03 00*3 010101; \
        07 00 0100 00*4 00*8 0800 00*6 00*4 c096b102
    half 5 | 08 00 0300 00*4 00*8 1800 00*6 08 00*3 2c01 00*2 09 00*3 9001 00*2 0a 00*3 ffffffff | 08 00 0200 \
        05 00*3 00*8 1000 00*6 08 00*3 2c01 00*2 09 00*3 9001 00*2; 08 00 0100 00*4 00*8 0800 00*6 0a 00*3 \
        ffffffff
    most 5 | 08 00 0400 0c 00*3 00*8 2000 00*6 08 00*3 2c01 00*2 09 00*3 9001 00*2 0a 00*3 f401 00*2 0b 00*3 \
        5802 00*2 | 08 00 0300 05 00*3 00*8 1800 00*6 08 00*3 2c01 00*2 09 00*3 9001 00*2 0a 00*3 f401 00*2; 08 00 \
        0100 0c 00*3 00*8 0800 00*6 0b 00*3 5802 00*2
    half 5 | 08 00 fd03 0b 00*3 00*8 e81f 00*6 1..1021 | 08 00 ff01 05 00*3 00*8 f80f 00*6 1..511; 08 00 fe01 0b 00*3 \
        00*8 f00f 00*6 512..1021
    most 5 | 08 00 fd03 0b 00*3 00*8 e81f 00*6 1..1021 | 08 00 fc03 05 00*3 00*8 e01f 00*6 1..1020; 08 00 0100 0b 00*3 \
        00*8 0800 00*6 1021..1021
    grow 6 | 07 00 0300 00*4 00*8 0700 00*6 00*4 010101 | 08 00 0100 00*4 00*8 0800 00*6 06 00*3 ffffffff; 07 \
        00 0300 00*4 00*8 0700 00*6 00*4 010101
    grow 6 | 08 00 0300 00*4 00*8 1800 00*6 08 00*3 2c01 00*2 09 00*3 9001 00*2 0a 00*3 ffffffff | 08 00 0100 \
        00*4 00*8 0800 00*6 06 00*3 ffffffff; 08 00 0300 00*4 00*8 1800 00*6 08 00*3 2c01 00*2 09 00*3 9001 00*2 \
        0a 00*3 ffffffff
    adopt 8 7 200 | 08 00 0200 00*4 00*8 1000 00*6 08 00*3 2c01 00*2 09 00*3 ffffffff | 08 00 0300 00*4 00*8 \
        1800 00*6 08 00*3 c8 00*3 07 00*3 2c01 00*2 09 00*3 ffffffff
    adopt 9 7 500 | 08 00 0200 00*4 00*8 1000 00*6 08 00*3 2c01 00*2 09 00*3 ffffffff | 08 00 0300 00*4 00*8 \
        1800 00*6 08 00*3 2c01 00*2 09 00*3 f401 00*2 07 00*3 ffffffff
    adopt 1020 1021 1020 | 08 00 fc03 00*4 00*8 e01f 00*6 1..1019 fc03 00*2 ffffffff | 08 00 fd03 00*4 00*8 e81f 00*6 \
        1..1020 fd03 00*2 ffffffff
    adopt 7 6 500 | 08 00 0200 00*4 00*8 1000 00*6 08 00*3 2c01 00*2 09 00*3 ffffffff | none
    adopt 7 6 500 | 07 00 0300 00*4 00*8 0700 00*6 00*4 010101 | none
    unlink 8 | 08 00 0300 00*4 00*8 1800 00*6 08 00*3 2c01 00*2 09 00*3 9001 00*2 0a 00*3 ffffffff | 08 00 0200 00*4 \
        00*8 1000 00*6 09 00*3 9001 00*2 0a 00*3 ffffffff
    unlink 9 | 08 00 0300 00*4 00*8 1800 00*6 08 00*3 2c01 00*2 09 00*3 9001 00*2 0a 00*3 ffffffff | 08 00 0200 00*4 \
        00*8 1000 00*6 08 00*3 2c01 00*2 0a 00*3 ffffffff
    unlink 10 | 08 00 0300 00*4 00*8 1800 00*6 08 00*3 2c01 00*2 09 00*3 9001 00*2 0a 00*3 ffffffff | none
    unlink 7 | 08 00 0300 00*4 00*8 1800 00*6 08 00*3 2c01 00*2 09 00*3 9001 00*2 0a 00*3 ffffffff | none
    unlink 8 | 07 00 0300 00*4 00*8 0700 00*6 00*4 010101 | none
    root 1 11 | 05 00 0300 0c 00*3 00*8 1e00 00*6 0200 006d 0200 0061 00 0000 0200 0063 00 0300 010101 0200 006d 01 09 \
        00*3 | 05 00 0300 0c 00*3 00*8 1d00 00*6 0200 006d 0200 0061 00 0000 0200 0063 01 0b 00*3 0200 006d 01 09 00*3
    root 2 11 | 05 00 0300 0c 00*3 00*8 1e00 00*6 0200 006d 0200 0061 00 0000 0200 0063 00 0300 010101 0200 006d 01 09 \
        00*3 | no list
    root 0 11 | 05 00 0400 00*4 00*8 e81f 00*6 0200 0061 00 0000 ff07 00 62*2046 00 e803 01*1000 ff07 00 63*2046 00 \
        e803 01*1000 1c04 00 64*1051 00 e803 01*1000 | none
    root 0 11 | 05 00 0400 00*4 00*8 e81f 00*6 0200 0061 00 0100 01 ff07 00 62*2046 00 e803 01*1000 ff07 00 63*2046 \
        00 e803 01*1000 1c04 00 64*1051 00 e703 01*999 | none
    root 0 11 | 05 00 0400 00*4 00*8 e81f 00*6 0200 0061 00 0200 0101 ff07 00 62*2046 00 e803 01*1000 ff07 00 \
        63*2046 00 e803 01*1000 1c04 00 64*1051 00 e603 01*998 | 05 00 0400 00*4 00*8 e81f 00*6 0200 0061 01 0b 00*3 \
        ff07 00 62*2046 00 e803 01*1000 ff07 00 63*2046 00 e803 01*1000 1c04 00 64*1051 00 e603 01*998
    root 0 11 | 05 00 0400 00*4 00*8 e81f 00*6 0200 0061 00 0300 010101 ff07 00 62*2046 00 e803 01*1000 ff07 00 \
        63*2046 00 e803 01*1000 1c04 00 64*1051 00 e503 01*997 | 05 00 0400 00*4 00*8 e71f 00*6 0200 0061 01 0b 00*3 \
        ff07 00 62*2046 00 e803 01*1000 ff07 00 63*2046 00 e803 01*1000 1c04 00 64*1051 00 e503 01*997
    root 0 11 | 05 00 0400 00*4 00*8 e61f 00*6 0200 0061 00 0000 ff07 00 62*2046 00 e803 01*1000 ff07 00 63*2046 00 \
        e803 01*1000 1c04 00 64*1051 00 e603 01*998 | 05 00 0400 00*4 00*8 e81f 00*6 0200 0061 01 0b 00*3 ff07 00 \
        62*2046 00 e803 01*1000 ff07 00 63*2046 00 e803 01*1000 1c04 00 64*1051 00 e603 01*998
    root 0 11 | 05 00 0400 00*4 00*8 e71f 00*6 0200 0061 00 0000 ff07 00 62*2046 00 e803 01*1000 ff07 00 63*2046 00 \
        e803 01*1000 1c04 00 64*1051 00 e703 01*999 | none
";

/// Whether a page is a leaf of a posting tree.
fn is_leaf(page: &Page) -> bool
    ensures { IsTrue result → IsPostLeaf page.now.body }
{
    matches!(page.body, Body::PostLeaf { .. })
}

/// Whether a page is one of a posting tree.
fn is_tree_page(page: &Page) -> bool
    ensures { IsTrue result → IsPostBody page.now.body }
{
    matches!(page.body, Body::PostLeaf { .. } | Body::PostInner(_))
}

/// How many items, entries or children a page of a tree has.
pub(crate) fn members(page: &Page) -> usize
    ensures { result ≤ count_of page.now.body }
{
    match &page.body {
        Body::PostLeaf { items, .. } => match Items::new(items.as_slice()) {
            Ok(list) => list.len(),
            Err(_) => 0,
        },
        Body::PostInner(children) => children.len(),
        Body::EntryLeaf { entries, .. } => entries.len(),
        Body::EntryInner(children) => children.len(),
        _ => 0,
    }
}

/// Whether an item is found as its row says.
fn is_found(alloc: Global, page: &Page, item: u32, tells: &str) -> Result<bool, AllocError>
    requires page { IsPage page.now }
    requires postings { IsPostBody page.now.body }
{
    if item == 0 || item >= ITEM_LIMIT {
        return Ok(false);
    }
    let text = format!(in alloc; "{:?}", find(page, item))?;
    Ok(text.as_str() == tells)
}

/// Whether a page has the first child, the greatest item and the room that its row says.
fn is_told(alloc: Global, page: &Page, tells: &str) -> Result<bool, AllocError>
    requires { IsPage page.now }
{
    let (first, upper, room) = (first_child(page), upper(page), has_room(page));
    let text = format!(in alloc; "{first:?} {upper} {room}")?;
    Ok(text.as_str() == tells)
}

/// Whether the leaf of a list is this page.
fn is_made(alloc: Global, words: &str, tells: &str) -> Result<bool, AllocError> {
    let list = bytes_of(alloc, words)?;
    if Items::new(&list).is_err() || list.len() > MOST_INLINE_BYTES {
        return Ok(false);
    }
    has_bytes(alloc, &leaf(alloc, &list)?, tells)
}

/// Whether a leaf with two items more is this page, or has no room for them.
fn is_filled(alloc: Global, page: &Page, words: &str, tells: &str) -> Result<bool, AllocError>
    requires { IsPage page.now }
{
    let (first, second) = word(words);
    let (first, second) = (number(first), number(second));
    if !is_leaf(page) || first == 0 || first >= second || second >= ITEM_LIMIT {
        return Ok(false);
    }
    match add(alloc, page, &[first, second])? {
        Added::Full => Ok(tells == "full"),
        Added::Done(filled) => has_bytes(alloc, &filled, tells),
    }
}

/// Whether two pages are these.
pub(crate) fn have_bytes(
    alloc: Global,
    pages: &(Page, Page),
    tells: &str,
) -> Result<bool, AllocError> {
    let (first, second) = tells.split_once("; ").unwrap_or((tells, ""));
    Ok(has_bytes(alloc, &pages.0, first)? && has_bytes(alloc, &pages.1, second)?)
}

/// Whether a page is split into these.
fn is_split(
    alloc: Global,
    page: &Page,
    keep: Keep,
    new: u32,
    tells: &str,
) -> Result<bool, AllocError>
    requires page { IsPage page.now }
    requires postings { IsPostBody page.now.body }
{
    if members(page) < 2 {
        return Ok(false);
    }
    have_bytes(alloc, &split(alloc, page, new, keep)?, tells)
}

/// Whether a root that grows, and its child, are these.
fn is_grown(alloc: Global, page: &Page, child: u32, tells: &str) -> Result<bool, AllocError>
    requires { IsPostBody page.now.body }
{
    have_bytes(alloc, &grow(alloc, page, child)?, tells)
}

/// Whether a page that is given is this one, or none is.
pub(crate) fn is_given(
    alloc: Global,
    given: &Option<Page>,
    tells: &str,
) -> Result<bool, AllocError> {
    match given {
        None => Ok(tells == "none"),
        Some(page) => has_bytes(alloc, page, tells),
    }
}

/// Whether a parent with one child more is this page, or does not name the child.
fn is_adopted(alloc: Global, parent: &Page, words: &str, tells: &str) -> Result<bool, AllocError> {
    let (page, rest) = word(words);
    let (new, mid) = word(rest);
    let adopted = adopt(parent, number(page), number(new), number(mid))?;
    is_given(alloc, &adopted, tells)
}

/// Whether a parent without a child is this page, or has no such child before the last.
fn is_unlinked(alloc: Global, parent: &Page, child: u32, tells: &str) -> Result<bool, AllocError> {
    is_given(alloc, &unlink(parent, child)?, tells)
}

/// Whether an entry of a page has a list of its own.
fn has_list(page: &Page, place: usize) -> bool
    ensures leaf { IsTrue result → IsEntryLeaf page.now.body }
    ensures list { IsTrue result → HasListAt page.now.body place }
{
    let Body::EntryLeaf { entries, .. } = &page.body else {
        return false;
    };
    match entries.get(place) {
        Some(entry) => matches!(entry.postings, PostingsRef::Inline(_)),
        None => false,
    }
}

/// Whether a leaf whose entry comes to lead to a tree is this page, or has no room for its root.
fn is_rooted(alloc: Global, page: &Page, words: &str, tells: &str) -> Result<bool, AllocError>
    requires { IsPage page.now }
{
    let (place, root) = word(words);
    let place = number(place) as usize;
    if !has_list(page, place) {
        return Ok(tells == "no list");
    }
    is_given(alloc, &root_at(page, place, number(root))?, tells)
}

/// Whether a page without the items of a list is this one, or has none of them.
fn is_left(alloc: Global, page: &Page, words: &str, tells: &str) -> Result<bool, AllocError>
    requires { IsPage page.now }
{
    let dead = ItemSet::new(items_in(alloc, words)?);
    is_given(alloc, &remove(alloc, page, &dead)?, tells)
}

/// Whether a change of a page, or a look at it, gives what its row says.
fn gives(alloc: Global, page: &Page, words: &str, tells: &str) -> Result<bool, AllocError>
    requires { IsPage page.now }
{
    let (verb, words) = word(words);
    match verb {
        "root" => return is_rooted(alloc, page, words, tells),
        "remove" => return is_left(alloc, page, words, tells),
        _ => {}
    }
    if entry_tests::is_entry_page(page) {
        return entry_tests::gives(alloc, page, verb, words, tells);
    }
    if !is_tree_page(page) {
        return is_made(alloc, words, tells);
    }
    match verb {
        "find" => is_found(alloc, page, number(words), tells),
        "tell" => is_told(alloc, page, tells),
        "add" => is_filled(alloc, page, words, tells),
        "half" => is_split(alloc, page, Keep::Half, number(words), tells),
        "most" => is_split(alloc, page, Keep::Most, number(words), tells),
        "grow" => is_grown(alloc, page, number(words), tells),
        "unlink" => is_unlinked(alloc, page, number(words), tells),
        _ => is_adopted(alloc, page, words, tells),
    }
}

/// Whether a row holds.
pub(crate) fn holds(alloc: Global, row: &str) -> Result<bool, AllocError> {
    let (words, rest) = cut(row);
    let (before, tells) = cut(rest);
    let bytes = page_with(alloc, before)?;
    match page_in(alloc, &bytes) {
        Ok(page) => gives(alloc, &page, words, tells),
        Err(_) => Ok(false),
    }
}

#[test]
fn pages_of_trees_are_read_made_and_changed(rt: HostRuntime) -> Result<(), Fail> {
    for rows in [TREES, FOUND, FILLED, SPLIT, GROWN, ADOPTED, LEFT] {
        try_rows(&rt, rt.alloc(), Kind::Tree, rows)?;
    }
    Ok(())
}
