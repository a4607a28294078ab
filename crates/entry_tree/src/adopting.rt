// A parent that takes the new page of a split.
ghost use Rattle.std.specs.Prelude.{◌≡◌, ◌≢◌, ◌↔◌, ◌<◌, length, IfOk, IfSome, IfNone, Some, None};
ghost use Rattle.std.specs.List.{slice_get};
ghost use Rattle.page_types.specs.Numbers.{page_limit};
ghost use Rattle.page_types.specs.Pages.{IsPage};
ghost use Rattle.page_types.specs.Views.{entry_children_in};
ghost use Rattle.page_types.specs.declared.page.EntryChild.{EntryChild};
ghost use Rattle.core_state.specs.Log.{In};
ghost use Rattle.core_state.specs.TreeRules.{EntryParent};
ghost use Rattle.entry_tree.specs.Reading.{HasRoomForChild};
ghost use Rattle.entry_tree.specs.Adopting.{IsDivider, IsOneMore};

use page_types::{Body, EntryChildRef, EntryChildren, Page};
use std::alloc::{AllocError, Global};

/// The number of the first child with this page.
fn place_of(children: &EntryChildren, page: u32) -> Option<usize>
    ensures some { IfSome result (λ k. (c : EntryChild) × (slice_get children.now k ≡ Some c)
        × (c.page ≡ page)) }
    ensures none { IfNone result ((c : EntryChild) → In c children.now → c.page ≢ page) }
{
    for k in 0..children.len() {
        if let Some(child) = children.get(k) {
            if child.page == page {
                return Some(k);
            }
        }
    }
    None
}

/// Makes of a copy of the children those with one more: the one with this number gets another bound,
/// and the new page comes after it with the old one.
fn put_one_more(
    children: &EntryChildren,
    k: usize,
    new: u32,
    mid: &[u8],
    more: &mut EntryChildren,
) -> Result<(), AllocError>
    requires there { k < length children.now }
    requires copy { more.old ≡ children.now }
    ensures { IfOk result (λ done. IsOneMore children.now k new mid.now more.new) }
{
    let Some(old) = children.get(k) else {
        unreachable!()
    };
    let behind = EntryChildRef {
        page: new,
        bound: old.bound,
    };
    let here = EntryChildRef {
        page: old.page,
        bound: mid,
    };
    more.set(k, behind)?;
    more.insert(k, here)
}

/// A parent whose child `page` was split: the child gets the bound `mid`, and the new page comes
/// after it with its old bound; none exactly where the parent does not name the child.
pub fn adopt(parent: &Page, page: u32, new: u32, mid: &[u8]) -> Result<Option<Page>, AllocError>
    ensures adopted { IfOk result (λ o. IfSome o (λ p.
        EntryParent page new mid.now parent.now.body p.body)) }
    ensures same { IfOk result (λ o. IfSome o (λ p. p ≡ record parent.now { body = p.body })) }
    ensures none { IfOk result (λ o. (o ≡ None)
        ↔ ((c : EntryChild) → In c (entry_children_in parent.now.body) → c.page ≢ page)) }
    ensures is_page { IfOk result (λ o. IfSome o (λ p.
        (w : EntryParent page new mid.now parent.now.body p.body) → IsDivider mid.now w.bound w.front
        → IsPage parent.now → HasRoomForChild parent.now → new < page_limit → IsPage p)) }
{
    let children = match &parent.body {
        Body::EntryInner(children) => children,
        _ => return Ok(None),
    };
    let Some(place) = place_of(children, page) else {
        return Ok(None);
    };
    let mut more = children.clone()?;
    match put_one_more(children, place, new, mid, &mut more) {
        Ok(()) => Ok(Some(Page {
            right: parent.right,
            stamp: parent.stamp,
            body: Body::EntryInner(more),
        })),
        Err(e) => {
            drop(more);
            Err(e)
        }
    }
}
