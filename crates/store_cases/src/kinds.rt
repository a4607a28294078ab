// The kinds of rows that need no other, and who tries them.
use crate::rows::see;
use crate::{
    change_tests, heap_tests, item_tests, list_tests, page_tests, record_tests, tree_tests,
};
use std::alloc::{AllocError, Global};
use std::process::Abort;

/// What a row says.
#[derive(Clone, Copy)]
pub(crate) enum Kind {
    /// A page, and its bytes.
    Page,
    /// A page of which no more bytes and no fewer are a page.
    PageAlone,
    /// Where a page with other bytes is refused.
    PageEdit,
    /// A record, and its bytes.
    Record,
    /// A record of which no fewer bytes are a record.
    RecordAlone,
    /// Where bytes are refused as a record.
    RecordFault,
    /// Bytes, and the items of their list.
    Items,
    /// Dead items, a list, and what is left of it.
    Left,
    /// A list, the steps that change it, and what it then says.
    List,
    /// A change of a page's bytes.
    Change,
    /// A change of a heap page, or a look at it.
    Head,
    /// A change of a page of a tree, or a look at it.
    Tree,
}

/// Whether a row holds.
fn holds(alloc: Global, kind: Kind, row: &str) -> Result<bool, AllocError> {
    match kind {
        Kind::Page => page_tests::is_page(alloc, row),
        Kind::PageAlone => page_tests::is_refused_else(alloc, row),
        Kind::PageEdit => page_tests::is_refused_there(alloc, row),
        Kind::Record => record_tests::is_record(alloc, row),
        Kind::RecordAlone => record_tests::is_refused_cut(alloc, row),
        Kind::RecordFault => record_tests::is_refused_there(alloc, row),
        Kind::Items => item_tests::is_list(alloc, row),
        Kind::Left => item_tests::is_left(alloc, row),
        Kind::List => list_tests::holds(alloc, row),
        Kind::Change => change_tests::is_made(alloc, row),
        Kind::Head => heap_tests::holds(alloc, row),
        Kind::Tree => tree_tests::holds(alloc, row),
    }
}

/// Each row holds; it is tried once more where it does not, so that it does with ample memory and with any one
/// allocation failing.
pub(crate) fn try_rows(
    rt: &impl Abort,
    alloc: Global,
    kind: Kind,
    rows: &str,
) -> Result<(), AllocError> {
    for row in rows.lines() {
        let row = row.trim();
        let held = matches!(holds(alloc, kind, row), Ok(true));
        see(rt, held || holds(alloc, kind, row)?, row);
    }
    Ok(())
}
