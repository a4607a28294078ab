// The parts of a page of a posting tree that is split, and its parent with the new page.
ghost use Rattle.std.specs.Prelude.{◌≡◌, ◌≢◌, ◌↔◌, ◌<◌, List, [], ◌∷◌, ◌++◌, length, IfOk, IfErr};
ghost use Rattle.std.specs.Prelude.{IfSome, IfNone, IsTrue};
ghost use Rattle.page_types.specs.Items.{items_of, IsItemList};
ghost use Rattle.page_types.specs.Encoding.{count_of};
ghost use Rattle.page_types.specs.Numbers.{page_limit, item_limit};
ghost use Rattle.page_types.specs.Pages.{IsPage};
ghost use Rattle.page_types.specs.declared.page.PostChild.{PostChild};
ghost use Rattle.core_state.specs.TreeRules.{PostParent};
ghost use Rattle.posting_tree.specs.Reading.{IsPostBody};
ghost use Rattle.gin_place.specs.Adopting.{DividesItems, CanTakeItem};
ghost use Rattle.gin_place.specs.Inner.Dividing.{AreSplit, PassedItem, BarsItem, WhyNotDivided, WhyNotTaken};
ghost use Rattle.gin_place.specs.declared.sought.Sought.TheVariants as soughts;

use crate::error::PlaceError;
use crate::growing::is_large;
use crate::holding::bad_page;
use crate::sought::Sought;
use buffer_frames::Held;
use page_types::{Body, Page, PostChild};
use posting_code::{Items, Keep};
use posting_tree::{adopt, has_room, split};
use std::alloc::Global;

/// How many items a list has, and the last of them, 0 where there is none.
fn count_and_last(list: &[u8]) -> (usize, u32)
    ensures { IsItemList list.now → result.0 ≡ length (items_of list.now) }
{
    match Items::new(list) {
        Ok(items) => (items.len(), items.last_item()),
        Err(_) => (0, 0),
    }
}

/// How many items or children a page has, and whether an item belongs after all of them: it is above the
/// items, or below the last child.
fn members(page: &Page, item: u32) -> (usize, bool)
    requires page { IsPage page.now }
    ensures { IsPostBody page.now.body → result.0 ≡ count_of page.now.body }
{
    match &page.body {
        Body::PostLeaf { items, .. } => {
            let (count, last) = count_and_last(items.as_slice());
            (count, last < item)
        }
        Body::PostInner(children) => (children.len(), is_under_last(children.as_slice(), item)),
        _ => (0, false),
    }
}

/// Whether an item is above the bounds of all children but the last.
fn is_under_last(children: &[PostChild], item: u32) -> bool {
    let Some(place) = children.len().checked_sub(2) else {
        return true;
    };
    children[place].bound < item
}

/// The two parts of a page of a posting tree that is held. The first keeps most where the item to come is
/// after all that the page has, so that pages stay full where items come in order; else half.
pub(crate) fn parts_of(
    alloc: Global,
    root: u32,
    item: u32,
    held: &Held,
    new: u32,
) -> Result<(Page, Page), PlaceError>
    requires new { (new ≢ 0) × (new < page_limit) }
    ensures parts { IfOk result (λ r. AreSplit (soughts.Item root item) held.now.content new r.0 r.1) }
    ensures cause { IfErr result (WhyNotDivided (soughts.Item root item) held.now) }
{
    let page = held.page();
    let (count, after) = members(page, item);
    if !is_large(Sought::Item { root, item }, page) || count < 2 {
        return Err(bad_page(held));
    }
    let keep = if after { Keep::Most } else { Keep::Half };
    Ok(split(alloc, page, new, keep)?)
}

/// Whether the page is named by this child or one before it; none where two name it, or the item does not
/// divide what is below it.
fn named_by(named: bool, child: &PostChild, page: u32, mid: u32) -> Option<bool>
    ensures some { IfSome result (λ n. (before : List PostChild) → PassedItem named before page mid
        → PassedItem n (before ++ child.now ∷ []) page mid) }
    ensures none { IfNone result (BarsItem named child.now page mid) }
{
    if child.page == page {
        return if named || child.bound <= mid {
            None
        } else {
            Some(true)
        };
    }
    if !named && mid <= child.bound {
        return None;
    }
    Some(named)
}

/// Whether one child alone has this page, and an item divides what is below it: the bounds before it are
/// below the item, and its own is above.
fn divides(children: &[PostChild], page: u32, mid: u32) -> bool
    ensures { IsTrue result ↔ DividesItems children.now page mid }
{
    let mut named = false;
    for child in children {
        let Some(now) = named_by(named, child, page, mid) else {
            return false;
        };
        named = now;
    }
    named
}

/// The parent that is held, with the new page after the page that is split.
pub(crate) fn adopting(held: &Held, page: u32, new: u32, mid: u32) -> Result<Page, PlaceError>
    requires item { mid < item_limit }
    requires new { new < page_limit }
    ensures adopts { IfOk result (λ p. PostParent page new mid held.now.content.body p.body) }
    ensures same { IfOk result (λ p. p ≡ record held.now.content { body = p.body }) }
    ensures is_page { IfOk result IsPage }
    ensures cause { IfErr result (WhyNotTaken (CanTakeItem page mid) held.now) }
{
    let parent = held.page();
    let Body::PostInner(children) = &parent.body else {
        return Err(bad_page(held));
    };
    if !has_room(parent) || !divides(children.as_slice(), page, mid) {
        return Err(bad_page(held));
    }
    match adopt(parent, page, new, mid)? {
        Some(adopted) => Ok(adopted),
        None => Err(bad_page(held)),
    }
}
