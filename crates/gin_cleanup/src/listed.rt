// Pages of the pending list.
ghost use Rattle.std.specs.Prelude.{◌≡◌, ◌↔◌, List, IfSome, IfNone, IfOk, true, map};
ghost use Rattle.page_types.specs.declared.page.Row.{Row};
ghost use Rattle.page_types.specs.declared.page.Body.TheVariants as body;
ghost use Rattle.gin_cleanup.specs.Going.{IsMetaPage};
ghost use Rattle.gin_cleanup.specs.Inner.Noting.{AreOfDocuments, GoesOnWith};

use page_types::{Body, Page, Rows};
use std::alloc::{AllocError, Global};

/// The page that names the first and the last page of the pending list.
pub(crate) const META_PAGE: u32 = 0;

/// What the metapage names.
#[derive(Clone, Copy)]
pub(crate) struct ListNames {
    /// The first page of the list, 0 where it is empty.
    pub(crate) first: u32,
    /// The last one.
    pub(crate) last: u32,
    /// How many there are.
    pub(crate) pages: u32,
}

/// What this page names, where it is the metapage.
pub(crate) fn named_by(meta: &Page) -> Option<ListNames>
    ensures some { IfSome result (λ n. meta.now.body ≡ body.Meta n.first n.last n.pages) }
    ensures none { IfNone result (IsMetaPage meta.now → ⊥) }
{
    match meta.body {
        Body::Meta { first, last, pages } => Some(ListNames { first, last, pages }),
        _ => None,
    }
}

/// The rows of a page of the list.
pub(crate) fn rows_of(page: &Page) -> Option<&Rows>
    ensures some { IfSome result (λ r. page.now.body ≡ body.Pending r.now) }
    ensures none { IfNone result ((rows : List Row) → page.now.body ≡ body.Pending rows → ⊥) }
{
    match &page.body {
        Body::Pending(rows) => Some(rows),
        _ => None,
    }
}

/// The items of these rows.
pub(crate) fn items_of(alloc: Global, rows: &Rows) -> Result<Vec<u32>, AllocError>
    ensures { IfOk result (λ v. v.items ≡ map (λ (w : Row). w.item) rows.now) }
{
    let mut items = Vec::new(alloc);
    for k in 0..rows.len() {
        if let Some(row) = rows.get(k) {
            items.push(row.item)?;
        }
    }
    Ok(items)
}

/// Whether each row is of a document: none has the item 0.
pub(crate) fn are_documents(rows: &Rows) -> bool
    ensures { result ≡ true ↔ AreOfDocuments rows.now }
{
    for k in 0..rows.len() {
        if let Some(row) = rows.get(k) {
            if row.item == 0 {
                return false;
            }
        }
    }
    true
}

/// Whether the first row is of one of these items.
pub(crate) fn goes_on(rows: &Rows, before: &[u32]) -> bool
    ensures { result ≡ true ↔ GoesOnWith rows.now before.now }
{
    match rows.get(0) {
        Some(row) => before.contains(&row.item),
        None => false,
    }
}
