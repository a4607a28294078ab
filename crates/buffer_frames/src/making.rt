// The record that makes a store.
ghost use Rattle.std.specs.Prelude.{◌≡◌, [], IfOk};
ghost use Rattle.buffer_frames.specs.First.{first_page, first_record as first, first_sheets};
ghost use Rattle.page_types.specs.declared.page.Body.TheVariants as body;

use crate::drawing::images;
use crate::step::Sheet;
use page_types::{Body, Bytes, Entries, Kind, Page, Record};
use std::alloc::{AllocError, Global};

/// A page of a new store.
fn page_of(content: Body) -> Page
    ensures { result ≡ first_page content }
{
    Page {
        right: 0,
        stamp: 1,
        body: content,
    }
}

/// The pages of a new store: an empty metapage, and an empty leaf of the entry tree.
pub(crate) fn first_pages(alloc: Global) -> Result<Vec<Sheet>, AllocError>
    ensures { IfOk result (λ sheets. sheets.items ≡ first_sheets) }
{
    let meta = Body::Meta {
        first: 0,
        last: 0,
        pages: 0,
    };
    let leaf = Body::EntryLeaf {
        high: Bytes::from_vec(Vec::new(alloc)),
        entries: Entries::new(alloc),
    };
    let mut sheets = Vec::new(alloc);
    sheets.push(Sheet::new(0, page_of(meta)))?;
    sheets.push(Sheet::new(1, page_of(leaf)))?;
    Ok(sheets)
}

/// The record that makes a store.
pub(crate) fn first_record(alloc: Global) -> Result<Record, AllocError>
    ensures { IfOk result (λ r. r ≡ first) }
{
    let sheets = first_pages(alloc)?;
    let changes = images(alloc, &sheets)?;
    Ok(Record {
        number: 1,
        xid: 0,
        kind: Kind::Create,
        changes,
    })
}
