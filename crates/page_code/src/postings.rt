// The pages of a posting tree, read from left to right.
ghost use Rattle.std.specs.Prelude.{◌≡◌, [], Ok};
ghost use Rattle.page_types.specs.Fields.{Gives};
ghost use Rattle.page_code.specs.Bodies.{item_bound_at, may_lack_bound, post_child_at, post_children_at, is_high_item};
ghost use Rattle.page_code.specs.Bodies.{high_item_at, posting_at};

use crate::fields::read_below;
use crate::items::skip_items;
use page_types::{
    Bytes, ITEM_LIMIT, NO_BOUND, PAGE_LIMIT, PostChild, PostChildren, ReadError, u32_at,
};
use std::alloc::Global;

/// A bound that is at least so great, or none where it may lack.
#[tactic(auto, unfolding(crate::specs::Bodies::item_bound_at))]
fn read_item_bound(may_lack: bool, least: u64, bytes: &[u8]) -> Result<(u32, &[u8]), ReadError>
    ensures { Gives (λ x. (x.0, x.1.now)) result (item_bound_at may_lack least bytes.now) }
{
    let (bound, rest) = u32_at(bytes)?;
    if least <= u64::from(bound) && bound < ITEM_LIMIT || may_lack && bound == NO_BOUND {
        Ok((bound, rest))
    } else {
        Err(ReadError::Fault(bytes.len()))
    }
}

/// A child whose bound is at least so great, with so many children after it.
#[tactic(auto, unfolding(crate::specs::Bodies::post_child_at))]
fn read_post_child(
    right: u32,
    least: u64,
    behind: u16,
    bytes: &[u8],
) -> Result<(PostChild, &[u8]), ReadError>
    ensures { Gives (λ x. (x.0, x.1.now)) result (post_child_at right least behind bytes.now) }
{
    let (page, rest) = read_below(PAGE_LIMIT, bytes)?;
    let (bound, rest) = read_item_bound(right == 0 && behind == 0, least, rest)?;
    Ok((PostChild { page, bound }, rest))
}

/// So many children.
pub fn read_post_children(
    alloc: Global,
    right: u32,
    count: u16,
    bytes: &[u8],
) -> Result<(PostChildren, &[u8]), ReadError>
    ensures { Gives (λ x. (x.0, x.1.now)) result (post_children_at right count bytes.now) }
{
    let mut children = PostChildren::new(alloc);
    let mut least = 0;
    let mut rest = bytes;
    for i in 0..count {
        let (child, behind) = read_post_child(right, least, count - 1 - i, rest)?;
        children.push(child)?;
        least = u64::from(child.bound) + 1;
        rest = behind;
    }
    Ok((children, rest))
}

/// Whether this is a high item beside this right link.
fn is_high(right: u32, high: u32) -> bool
    ensures { result ≡ is_high_item right high }
{
    if right == 0 {
        high == 0
    } else {
        high > 0 && high < ITEM_LIMIT
    }
}

/// A high item.
#[tactic(auto, unfolding(crate::specs::Bodies::high_item_at))]
fn read_high_item(right: u32, bytes: &[u8]) -> Result<(u32, &[u8]), ReadError>
    ensures { Gives (λ x. (x.0, x.1.now)) result (high_item_at right bytes.now) }
{
    let (high, rest) = u32_at(bytes)?;
    if is_high(right, high) {
        Ok((high, rest))
    } else {
        Err(ReadError::Fault(bytes.len()))
    }
}

/// A high item and a list of so many items.
#[tactic(auto, unfolding(crate::specs::Bodies::posting_at))]
pub fn read_posting(
    alloc: Global,
    right: u32,
    count: u16,
    bytes: &[u8],
) -> Result<((u32, Bytes), &[u8]), ReadError>
    ensures { Gives (λ x. (x.0, x.1.now)) result (posting_at right count bytes.now) }
{
    let (high, list) = read_high_item(right, bytes)?;
    let rest = skip_items(count, list)?;
    let size = list.len().saturating_sub(rest.len());
    let items = Bytes::from_slice(alloc, &list[..size])?;
    Ok(((high, items), rest))
}
