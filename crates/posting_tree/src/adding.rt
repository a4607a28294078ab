// The first leaf of a tree, and items added to a leaf.
ghost use Rattle.std.specs.Prelude.{◌≡◌, ◌≤◌, length, IfOk};
ghost use Rattle.page_types.specs.Numbers.{most_inline};
ghost use Rattle.page_types.specs.Items.{AreItems, IsItemList};
ghost use Rattle.page_types.specs.Pages.{IsPage};
ghost use Rattle.page_types.specs.declared.page.Page.{Page};
ghost use Rattle.posting_tree.specs.Adding.{first_leaf, IsPostLeaf, IsAdded};

use page_types::{Body, Bytes, MOST_BODY_BYTES, Page};
use posting_code::merge;
use std::alloc::{AllocError, Global};

/// The most bytes of a leaf's list, before which the body has a high item.
pub const MOST_LIST_BYTES: usize = MOST_BODY_BYTES - 4;

/// What adding items to a leaf gives.
#[derive(Drop)]
pub enum Added {
    /// The leaf with the items.
    Done(Page),
    /// The leaf has no room for its list with them.
    Full,
}

/// The one leaf of a new tree, with the item list that was in a key's entry.
pub fn leaf(alloc: Global, list: &[u8]) -> Result<Page, AllocError>
    requires list { IsItemList list.now }
    requires short { length list.now ≤ most_inline }
    ensures leaf { IfOk result (λ p. p ≡ first_leaf list.now) }
    ensures is_page { IfOk result (λ p. IsPage p) }
{
    let items = Bytes::from_slice(alloc, list)?;
    Ok(Page {
        right: 0,
        stamp: 0,
        body: Body::PostLeaf { high: 0, items },
    })
}

/// A leaf with items added.
pub fn add(alloc: Global, page: &Page, items: &[u32]) -> Result<Added, AllocError>
    requires page { IsPage page.now }
    requires leaf { IsPostLeaf page.now.body }
    requires items { AreItems items.now }
    ensures added { IfOk result (λ answer. IsAdded page.now items.now answer) }
    ensures is_page { IfOk result (λ answer. (p : Page) → answer ≡ Added.Done p → IsPage p) }
{
    let Body::PostLeaf { high, items: old } = &page.body else {
        unreachable!()
    };
    let mut list = Vec::new(alloc);
    merge(old.as_slice(), items, &mut list)?;
    if list.len() > MOST_LIST_BYTES {
        return Ok(Added::Full);
    }
    Ok(Added::Done(Page {
        right: page.right,
        stamp: page.stamp,
        body: Body::PostLeaf {
            high: *high,
            items: Bytes::from_vec(list),
        },
    }))
}
