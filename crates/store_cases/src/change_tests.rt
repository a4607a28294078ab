// What a change makes of a page's bytes.
ghost use Rattle.std.specs.Prelude.{◌≡◌, length};

use crate::kinds::{Kind, try_rows};
use crate::rows::{bytes_of, cut, page_with, short, word};
use page_types::{Bytes, Change, Changes, Edit, PAGE_BYTES, PageBytes, apply};
use std::alloc::{AllocError, Global};
use std::test::Fail;

/// Changes by record 258, the page before, and the page after, where they are made. A delta gives the right link 5;
/// its words are where it begins, how many bytes it cuts, and which bytes it puts there. Else all bytes are new.
const CHANGES: &str = "\
    0 0 7878 | 03 00*3 04 00*3 0e 00*7 06 00*7 616263646566 | 03 00*3 05 00*3 0201 00*6 08 00*7 7878616263646566
    1 2 787878 | 03 00*3 04 00*3 0e 00*7 06 00*7 616263646566 | 03 00*3 05 00*3 0201 00*6 07 00*7 61787878646566
    2 2 | 03 00*3 04 00*3 0e 00*7 06 00*7 616263646566 | 03 00*3 05 00*3 0201 00*6 04 00*7 61626566
    6 0 7878 | 03 00*3 04 00*3 0e 00*7 06 00*7 616263646566 | 03 00*3 05 00*3 0201 00*6 08 00*7 6162636465667878
    3 0 | 03 00*3 04 00*3 0e 00*7 06 00*7 616263646566 | 03 00*3 05 00*3 0201 00*6 06 00*7 616263646566
    0 6 | 03 00*3 04 00*3 0e 00*7 06 00*7 616263646566 | 03 00*3 05 00*3 0201 00*6 00*8
    7 0 | 03 00*3 04 00*3 0e 00*7 06 00*7 616263646566 | none
    5 2 | 03 00*3 04 00*3 0e 00*7 06 00*7 616263646566 | none
    6 0 78*8163 | 03 00*3 04 00*3 0e 00*7 06 00*7 616263646566 | none
    0 0 | 03 00*3 04 00*3 0e 00*7 e91f 00*6 616263646566 | none
    all 6e6f7420612070616765 | 03 00*3 04 00*3 0e 00*7 06 00*7 616263646566 | 6e6f7420612070616765
    all 07*8192 | 03 00*3 04 00*3 0e 00*7 06 00*7 616263646566 | 07*8192
";

/// A copy of a copy of bytes.
fn copied(alloc: Global, bytes: &[u8]) -> Result<Bytes, AllocError> {
    let bytes = Bytes::from_slice(alloc, bytes)?;
    bytes.clone()
}

/// The edit that words stand for.
fn edit_of(alloc: Global, words: &str) -> Result<Edit, AllocError> {
    let (start, rest) = word(words);
    if start == "all" {
        let image = PageBytes::from_vec(page_with(alloc, rest)?);
        let copy = PageBytes::from_slice(alloc, image.as_slice())?;
        return Ok(Edit::Image(copy));
    }
    let (cut, new) = word(rest);
    let bytes = copied(alloc, &bytes_of(alloc, new)?)?;
    Ok(Edit::Delta {
        front: [3, 0, 0, 0, 5, 0, 0, 0],
        start: short(start),
        cut: short(cut),
        bytes,
    })
}

/// A list of one change.
fn one_change(alloc: Global, words: &str) -> Result<Changes, AllocError> {
    let edit = edit_of(alloc, words)?;
    let mut changes = Changes::new(alloc);
    changes.push(Change { page: 2, edit })?;
    Ok(changes)
}

/// Whether the first change of a list is made by record 258.
fn is_done(bytes: &mut [u8], changes: &Changes) -> bool
    requires { length bytes.old ≡ PAGE_BYTES }
{
    match changes.get(0) {
        Some(change) => apply(bytes, 258, change).is_ok(),
        None => false,
    }
}

/// Whether a change makes of one page another, or is refused and leaves it, where no other is given.
pub(crate) fn is_made(alloc: Global, row: &str) -> Result<bool, AllocError> {
    let (words, pages) = cut(row);
    let (before, after) = cut(pages);
    let mut bytes = page_with(alloc, before)?;
    let wanted = page_with(alloc, if after == "none" { before } else { after })?;
    let changes = one_change(alloc, words)?;
    let done = is_done(&mut bytes, &changes) == (after != "none");
    let one = changes.len() == 1 && changes.get(1).is_none();
    Ok(bytes == wanted && done && one && changes.into_vec().len() == 1)
}

#[test]
fn changes_are_made_or_refused(rt: HostRuntime) -> Result<(), Fail> {
    try_rows(&rt, rt.alloc(), Kind::Change, CHANGES)?;
    Ok(())
}
