// A parent that takes the new page of a split.
ghost use Rattle.std.specs.Prelude.{◌≡◌, ◌≢◌, ◌↔◌, ℕ, ◌<◌, IfOk, IfSome, IfNone, Some, None};
ghost use Rattle.std.specs.List.{slice_get};
ghost use Rattle.page_types.specs.Numbers.{page_limit};
ghost use Rattle.page_types.specs.Pages.{IsPage};
ghost use Rattle.page_types.specs.Views.{post_children_in};
ghost use Rattle.page_types.specs.declared.page.PostChild.{PostChild};
ghost use Rattle.core_state.specs.Log.{In};
ghost use Rattle.core_state.specs.TreeRules.{PostParent};
ghost use Rattle.posting_tree.specs.Reading.{HasRoomForChild};
ghost use Rattle.posting_tree.specs.Adopting.{IsDivider};

use page_types::{Body, Page, PostChild};
use std::alloc::AllocError;

/// The number of the first child with this page, and its bound.
pub(crate) fn place_of(children: &[PostChild], page: u32) -> Option<(usize, u32)>
    ensures some { IfSome result (λ at. slice_get children.now at.0
        ≡ Some (record { page = page; bound = at.1 })) }
    ensures first { IfSome result (λ at. (j : ℕ) (c : PostChild) → j < at.0
        → slice_get children.now j ≡ Some c → c.page ≢ page) }
    ensures none { IfNone result ((c : PostChild) → In c children.now → c.page ≢ page) }
{
    for (k, child) in children.iter().enumerate() {
        if child.page == page {
            return Some((k, child.bound));
        }
    }
    None
}

/// A parent whose child `page` was split: the child gets the bound `mid`, and the new page comes after it with its old
/// bound; none exactly where the parent does not name the child.
pub fn adopt(parent: &Page, page: u32, new: u32, mid: u32) -> Result<Option<Page>, AllocError>
    ensures adopted { IfOk result (λ o. IfSome o (λ p.
        PostParent page new mid parent.now.body p.body)) }
    ensures same { IfOk result (λ o. IfSome o (λ p. p ≡ record parent.now { body = p.body })) }
    ensures none { IfOk result (λ o. (o ≡ None)
        ↔ ((c : PostChild) → In c (post_children_in parent.now.body) → c.page ≢ page)) }
    ensures is_page { IfOk result (λ o. IfSome o (λ p.
        (w : PostParent page new mid parent.now.body p.body) → IsDivider mid w.bound w.front
        → IsPage parent.now → HasRoomForChild parent.now → new < page_limit → IsPage p)) }
{
    let children = match &parent.body {
        Body::PostInner(children) => children,
        _ => return Ok(None),
    };
    let Some((place, bound)) = place_of(children.as_slice(), page) else {
        return Ok(None);
    };
    let mut more = children.clone()?;
    more.set(place, PostChild { page: new, bound });
    more.insert(place, PostChild { page, bound: mid })?;
    Ok(Some(Page {
        right: parent.right,
        stamp: parent.stamp,
        body: Body::PostInner(more),
    }))
}
