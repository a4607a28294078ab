// A root that grows.
ghost use Rattle.std.specs.Prelude.{◌≡◌, ◌<◌, IfOk};
ghost use Rattle.page_types.specs.Numbers.{page_limit};
ghost use Rattle.page_types.specs.Pages.{IsPage};
ghost use Rattle.entry_tree.specs.Finding.{IsEntryBody};
ghost use Rattle.entry_tree.specs.Growing.{root_over, moved_down};

use page_types::{Body, EntryChildRef, EntryChildren, Page};
use std::alloc::{AllocError, Global};

/// A root with the new page as its one child, without bound, and the new page, which takes the
/// root's content and has no right link.
pub fn grow(alloc: Global, page: &Page, child: u32) -> Result<(Page, Page), AllocError>
    requires { IsEntryBody page.now.body }
    ensures root { IfOk result (λ pages. pages.0 ≡ root_over page.now child) }
    ensures child { IfOk result (λ pages. pages.1 ≡ moved_down page.now) }
    ensures are_pages { IfOk result (λ pages. IsPage page.now → page.now.right ≡ 0
        → child < page_limit → IsPage pages.0 × IsPage pages.1) }
{
    let mut children = EntryChildren::new(alloc);
    children.push(EntryChildRef {
        page: child,
        bound: &[],
    })?;
    match page.body.clone() {
        Ok(body) => {
            let root = Page {
                right: page.right,
                stamp: page.stamp,
                body: Body::EntryInner(children),
            };
            let moved = Page {
                right: 0,
                stamp: page.stamp,
                body,
            };
            Ok((root, moved))
        }
        Err(e) => {
            drop(children);
            Err(e)
        }
    }
}
