// Item lists, written and read, and bytes that are none; and what is left of lists without dead items.
ghost use Rattle.std.specs.Prelude.{IfOk};
ghost use Rattle.page_types.specs.Items.{AreItems, IsItemList};

use crate::kinds::{Kind, try_rows};
use crate::rows::{bytes_of, cut, number, numbers, word};
use posting_code::{ItemSet, Items, ListError, encode_items, without};
use std::alloc::{AllocError, Global};
use std::test::Fail;

/// Bytes with the items of their list, or with the place where they are none.
const LISTS: &str = "\
    01 7f 8001 808001 | 1 128 256 16640
    |
    ffffffff07 | 2147483647
    8000 | bad 0
    00 | bad 0
    0100 | bad 1
    80 | bad 1
    0180 | bad 2
    0581800001 | bad 1
    ffffffff08 | bad 0
    ffffffff0701 | bad 5
    808080808001 | bad 0
    01808080808080 | bad 7
";

/// Whether these are the items of a list, the last one and their number too.
fn has_items(alloc: Global, list: Items, wanted: &[u64]) -> Result<bool, AllocError> {
    let count = list.len();
    let last = u64::from(list.last_item());
    let mut read = Vec::new(alloc);
    for item in list {
        read.push(u64::from(item))?;
    }
    let ends = *wanted.last().unwrap_or(&last) == last;
    Ok(ends && count == wanted.len() && read.as_slice() == wanted)
}

/// Whether the bytes of a row are the list that it says, or are refused at its place.
pub(crate) fn is_list(alloc: Global, row: &str) -> Result<bool, AllocError> {
    let (words, tells) = cut(row);
    let (bad, place) = word(tells);
    let bytes = bytes_of(alloc, words)?;
    match Items::new(&bytes) {
        Ok(list) => has_items(alloc, list, &numbers(alloc, tells)?),
        Err(ListError::BadList { at }) => Ok(bad == "bad" && at == number(place) as usize),
    }
}

/// Dead items, by their list, a list, what is left of it, and how many items these are. By hand: a list is the
/// differences of its items, so the difference of an item that is left is its own and those of the dead ones right
/// before it, together. 128 is `8001`, 255 `ff01`, 16,512 `808101` and 16,640 `808201`.
const LEFT: &str = "\
    | 010101 | 010101 | 3
    04 | 010101 | 010101 | 3
    0202 | 010202 | 010202 | 3
    01 | 010101 | 0201 | 2
    02 | 010101 | 0102 | 2
    03 | 010101 | 0101 | 2
    010101 | 010101 | | 0
    010102 | 010101 | 03 | 1
    020202 | 010101010101 | 010202 | 3
    010202 | 010101010101 | 020202 | 3
    010101010101 | 0202 | | 0
    03 | 03 | | 0
    01 | | | 0
    | | | 0
    8001 | 017f8001808001 | 01ff01808001 | 3
    01 | 017f8001808001 | 80018001808001 | 3
    01ff01 | 017f8001808001 | 8001808101 | 2
    808201 | 017f8001808001 | 017f8001 | 3
    01 | 01feffffff07 | ffffffff07 | 1
    ffffffff07 | 01feffffff07 | 01 | 1
    64 | 01*200 | 01*99 02 01*99 | 199
    02*100 | 01*200 | 01 02*99 | 100
    01 02*99 | 01*200 | 02*100 | 100
    8001 | 01*128 | 01*127 | 127
    8001 | 01*129 | 01*127 02 | 128
    01*127 | 01*128 | 8001 | 1
    01*200 | 01*200 | | 0
";

/// The items of a list.
fn listed(alloc: Global, bytes: &[u8]) -> Result<Vec<u32>, AllocError>
    requires { IsItemList bytes.now }
    ensures { IfOk result (λ items. AreItems items.items) }
{
    let mut items = Vec::new(alloc);
    let Ok(list) = Items::new(bytes) else {
        return Ok(items);
    };
    for item in list {
        items.push(item)?;
    }
    Ok(items)
}

/// The items of the list that words stand for; none where they stand for no list.
pub(crate) fn items_in(alloc: Global, words: &str) -> Result<Vec<u32>, AllocError>
    ensures { IfOk result (λ items. AreItems items.items) }
{
    let bytes = bytes_of(alloc, words)?;
    if Items::new(&bytes).is_err() {
        return Ok(Vec::new(alloc));
    }
    listed(alloc, &bytes)
}

/// Whether this is left of a list without dead items, after what was there before, and so many items.
fn leaves(
    alloc: Global,
    list: &[u8],
    dead: &ItemSet,
    left: &[u8],
    count: u32,
) -> Result<bool, AllocError> {
    if Items::new(list).is_err() {
        return Ok(false);
    }
    let mut out = bytes_of(alloc, "6265666f7265")?;
    let kept = without(list, dead, &mut out)?;
    Ok(kept == count && out.as_slice().strip_prefix(b"before".as_slice()) == Some(left))
}

/// Whether a list without dead items is what its row says.
pub(crate) fn is_left(alloc: Global, row: &str) -> Result<bool, AllocError> {
    let (dead, rest) = cut(row);
    let (list, rest) = cut(rest);
    let (left, count) = cut(rest);
    let dead = ItemSet::new(items_in(alloc, dead)?);
    let list = bytes_of(alloc, list)?;
    let left = bytes_of(alloc, left)?;
    leaves(alloc, &list, &dead, &left, number(count))
}

/// Whether lists are written one after another.
fn are_written(alloc: Global) -> Result<bool, AllocError> {
    let mut out = Vec::new(alloc);
    encode_items(&[1, 128, 256, 16640], &mut out)?;
    encode_items(&[], &mut out)?;
    encode_items(&[2_147_483_647], &mut out)?;
    Ok(out.as_slice() == b"\x01\x7f\x80\x01\x80\x80\x01\xff\xff\xff\xff\x07".as_slice())
}

#[test]
fn item_lists_are_read_and_written(rt: HostRuntime) -> Result<(), Fail> {
    let alloc = rt.alloc();
    try_rows(&rt, alloc, Kind::Items, LISTS)?;
    try_rows(&rt, alloc, Kind::Left, LEFT)?;
    let written = matches!(are_written(alloc), Ok(true));
    assert!(rt; written || are_written(alloc)?);
    Ok(())
}
