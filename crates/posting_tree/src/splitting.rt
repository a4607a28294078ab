// A page that is split.
ghost use Rattle.std.specs.Prelude.{◌≡◌, ◌≢◌, ◌<◌, ◌≤◌, length, IfOk};
ghost use Rattle.page_types.specs.Numbers.{page_limit};
ghost use Rattle.page_types.specs.Items.{items_of, IsItemList};
ghost use Rattle.page_types.specs.Encoding.{count_of};
ghost use Rattle.page_types.specs.Pages.{IsPage};
ghost use Rattle.page_types.specs.declared.page.Body.TheVariants as body;
ghost use Rattle.core_state.specs.TreeRules.{FitsPage};
ghost use Rattle.posting_code.specs.Cutting.{IsCut};
ghost use Rattle.entry_tree.specs.Splitting.{body_cutting, AreParts};
ghost use Rattle.posting_tree.specs.Reading.{IsPostBody};
ghost use Rattle.posting_tree.specs.Splitting.{EndsAtLast};

use page_types::{Body, Bytes, Page, PostChild, PostChildren, Seq};
use posting_code::{Keep, cut, encode_items};
use std::alloc::{AllocError, Global};

/// The two parts of a leaf: the second one's list is its first item's own difference, and then the bytes as they were.
fn leaf_parts(alloc: Global, high: u32, list: &[u8], keep: Keep) -> Result<(Body, Body), AllocError>
    requires list { IsItemList list.now }
    requires two { 2 ≤ length (items_of list.now) }
    ensures cut { IfOk result (λ parts.
        IsCut (body_cutting (body.PostLeaf high list.now)) parts.0 parts.1 keep) }
    ensures ends { IfOk result (λ parts. EndsAtLast parts.0) }
{
    let Some(halves) = cut(list, keep) else {
        unreachable!()
    };
    let front = Bytes::from_slice(alloc, halves.front)?;
    let mut back = Vec::new(alloc);
    encode_items(&[halves.next], &mut back)?;
    back.extend_from_slice(halves.rest)?;
    let left = Body::PostLeaf {
        high: halves.last,
        items: front,
    };
    let right = Body::PostLeaf {
        high,
        items: Bytes::from_vec(back),
    };
    Ok((left, right))
}

/// These children, as those of a page.
fn children_of(alloc: Global, part: &[PostChild]) -> Result<PostChildren, AllocError>
    ensures { IfOk result (λ children. children ≡ part.now) }
{
    let mut children = Seq::new(alloc);
    for child in part {
        children.push(*child)?;
    }
    Ok(children)
}

/// The two parts of an inner page, whose children all have eight bytes.
fn inner_parts(
    alloc: Global,
    children: &[PostChild],
    keep: Keep,
) -> Result<(Body, Body), AllocError>
    requires two { 2 ≤ length children.now }
    requires fits { FitsPage (body.PostInner children.now) }
    ensures cut { IfOk result (λ parts.
        IsCut (body_cutting (body.PostInner children.now)) parts.0 parts.1 keep) }
    ensures ends { IfOk result (λ parts. EndsAtLast parts.0) }
{
    let count = children.len();
    let place = match keep {
        Keep::Half => count - count / 2,
        Keep::Most => count - 1,
    };
    let left = children_of(alloc, &children[..place])?;
    let right = children_of(alloc, &children[place..])?;
    Ok((Body::PostInner(left), Body::PostInner(right)))
}

/// The two pages of a split: the page with the first items or children, whose right link is the new page and whose high
/// item, where it is a leaf, is its last item; and the new page with the others, the old right link and high item.
pub fn split(alloc: Global, page: &Page, new: u32, keep: Keep) -> Result<(Page, Page), AllocError>
    requires page { IsPage page.now }
    requires postings { IsPostBody page.now.body }
    requires members { 2 ≤ count_of page.now.body }
    ensures parts { IfOk result (λ pages. AreParts page.now new keep pages.0 pages.1) }
    ensures ends { IfOk result (λ pages. EndsAtLast pages.0.body) }
    ensures are_pages { IfOk result (λ pages. new ≢ 0 → new < page_limit
        → IsPage pages.0 × IsPage pages.1) }
{
    let (first, second) = match &page.body {
        Body::PostLeaf { high, items } => leaf_parts(alloc, *high, items.as_slice(), keep)?,
        Body::PostInner(children) => inner_parts(alloc, children.as_slice(), keep)?,
        _ => unreachable!(),
    };
    let left = Page {
        right: new,
        stamp: page.stamp,
        body: first,
    };
    let right = Page {
        right: page.right,
        stamp: page.stamp,
        body: second,
    };
    Ok((left, right))
}
