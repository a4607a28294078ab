// A parent that loses a child.
ghost use Rattle.std.specs.Prelude.{◌≡◌, ◌↔◌, IfOk, IfSome, None};
ghost use Rattle.page_types.specs.Pages.{IsPage};
ghost use Rattle.page_types.specs.Views.{post_children_in};
ghost use Rattle.posting_tree.specs.Unlinking.{IsBeforeLast, IsUnlinked};

use crate::adopting::place_of;
use page_types::{Body, Page};
use std::alloc::AllocError;

/// A parent without a child and its bound; none exactly where no child but the last is it.
pub fn unlink(parent: &Page, child: u32) -> Result<Option<Page>, AllocError>
    ensures unlinked { IfOk result (λ o. IfSome o (λ p. IsUnlinked child parent.now.body p.body)) }
    ensures same { IfOk result (λ o. IfSome o (λ p. p ≡ record parent.now { body = p.body })) }
    ensures none { IfOk result (λ o. (o ≡ None)
        ↔ (IsBeforeLast child (post_children_in parent.now.body) → ⊥)) }
    ensures is_page { IfOk result (λ o. IfSome o (λ p. IsPage parent.now → IsPage p)) }
{
    let children = match &parent.body {
        Body::PostInner(children) => children,
        _ => return Ok(None),
    };
    let Some((place, _)) = place_of(children.as_slice(), child) else {
        return Ok(None);
    };
    if children.len() - place <= 1 {
        return Ok(None);
    }
    let mut fewer = children.clone()?;
    fewer.remove(place);
    Ok(Some(Page {
        right: parent.right,
        stamp: parent.stamp,
        body: Body::PostInner(fewer),
    }))
}
