// A row more on a pending page.
ghost use Rattle.std.specs.Prelude.{◌≡◌, ◌↔◌, ◌<◌, ◌≤◌, length, map, IfOk, IfSome, None};
ghost use Rattle.page_types.specs.Numbers.{most_body, item_limit};
ghost use Rattle.page_types.specs.Encoding.{body_bytes};
ghost use Rattle.page_types.specs.Pages.{IsPage};
ghost use Rattle.pending_list.specs.Packing.{AreKeys};
ghost use Rattle.pending_list.specs.Adding.{IsPendingPage, with_row, HasNoRoom};

use crate::packing::{fitting, push_row};
use page_types::{Body, Page, body_length};
use std::alloc::{AllocError, Global};

/// A pending page with one row of these keys more, after the others; none exactly where its body
/// would be too long.
pub fn add_row(
    alloc: Global,
    page: &Page,
    item: u32,
    keys: &[Vec<u8>],
) -> Result<Option<Page>, AllocError>
    requires page { IsPendingPage page.now }
    requires fits { length (body_bytes page.now.body) ≤ most_body }
    requires item { item < item_limit }
    requires keys { AreKeys (map (λ key. key.items) keys.now) }
    ensures added { IfOk result (λ o. IfSome o (λ new.
        new ≡ record page.now { body = with_row page.now item (map (λ key. key.items) keys.now) })) }
    ensures full { IfOk result (λ o. (o ≡ None)
        ↔ HasNoRoom page.now item (map (λ key. key.items) keys.now)) }
    ensures is_page { IfOk result (λ o. IfSome o (λ new. IsPage page.now → IsPage new)) }
{
    if fitting(body_length(page), keys) < keys.len() {
        return Ok(None);
    }
    let Body::Pending(old) = &page.body else {
        unreachable!()
    };
    let mut rows = old.clone()?;
    push_row(alloc, item, keys, &mut rows)?;
    Ok(Some(Page {
        right: page.right,
        stamp: page.stamp,
        body: Body::Pending(rows),
    }))
}
