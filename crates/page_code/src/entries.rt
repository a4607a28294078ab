// The pages of the entry tree, read from left to right.
ghost use Rattle.std.specs.Prelude.{◌≡◌, [], Ok};
ghost use Rattle.page_types.specs.Fields.{Gives};
ghost use Rattle.page_types.specs.Parts.{postings_shown, entry_shown, child_shown};
ghost use Rattle.page_code.specs.Bodies.{inline_size_at, inline_at, root_at, postings_at, entry_at, entries_at};
ghost use Rattle.page_code.specs.Bodies.{high_key_at, entry_leaf_at, may_lack_bound, entry_child_at, entry_children_at};

use crate::fields::{read_below, read_bound, read_key};
use crate::items::skip_list;
use page_types::{
    Body, Bytes, Entries, EntryChildRef, EntryChildren, EntryRef, MOST_INLINE_BYTES, PAGE_LIMIT,
    PostingsRef, ReadError, slice_at, u16_at,
};
use std::alloc::Global;

/// The length of an inline item list.
#[tactic(auto, unfolding(crate::specs::Bodies::inline_size_at))]
fn read_inline_size(bytes: &[u8]) -> Result<(u16, &[u8]), ReadError>
    ensures { Gives (λ x. (x.0, x.1.now)) result (inline_size_at bytes.now) }
{
    let (size, rest) = u16_at(bytes)?;
    if usize::from(size) <= MOST_INLINE_BYTES {
        Ok((size, rest))
    } else {
        Err(ReadError::Fault(bytes.len()))
    }
}

/// An inline item list after the byte 0, read within its length.
#[tactic(auto, unfolding(crate::specs::Bodies::inline_at))]
fn read_inline(bytes: &[u8]) -> Result<(PostingsRef<'_>, &[u8]), ReadError>
    ensures { Gives (λ x. (postings_shown x.0, x.1.now)) result (inline_at bytes.now) }
{
    let (size, whole) = read_inline_size(bytes)?;
    let (items, rest) = slice_at(usize::from(size), whole)?;
    match skip_list(items) {
        Ok(_) => Ok((PostingsRef::Inline(items), rest)),
        Err(ReadError::OutOfMemory) => Err(ReadError::OutOfMemory),
        Err(ReadError::Fault(left)) => Err(ReadError::Fault(
            whole.len().saturating_sub(items.len().saturating_sub(left)),
        )),
    }
}

/// The root of a posting tree after the byte 1.
#[tactic(auto, unfolding(crate::specs::Bodies::root_at))]
fn read_root(bytes: &[u8]) -> Result<(PostingsRef<'_>, &[u8]), ReadError>
    ensures { Gives (λ x. (postings_shown x.0, x.1.now)) result (root_at bytes.now) }
{
    let (root, rest) = read_below(PAGE_LIMIT, bytes)?;
    Ok((PostingsRef::Root(root), rest))
}

/// An item list or a root, by the byte before it.
fn read_postings(bytes: &[u8]) -> Result<(PostingsRef<'_>, &[u8]), ReadError>
    ensures { Gives (λ x. (postings_shown x.0, x.1.now)) result (postings_at bytes.now) }
{
    match bytes {
        [] => Err(ReadError::Fault(0)),
        [0, rest @ ..] => read_inline(rest),
        [1, rest @ ..] => read_root(rest),
        [_, ..] => Err(ReadError::Fault(bytes.len())),
    }
}

/// An entry whose key is above the last.
#[tactic(auto, unfolding(crate::specs::Bodies::entry_at))]
fn read_entry<'a>(last: &[u8], bytes: &'a [u8]) -> Result<(EntryRef<'a>, &'a [u8]), ReadError>
    ensures { Gives (λ x. (entry_shown x.0, x.1.now)) result (entry_at last.now bytes.now) }
{
    let (key, rest) = read_key(last, bytes)?;
    let (postings, rest) = read_postings(rest)?;
    Ok((EntryRef { key, postings }, rest))
}

/// The least bytes of an entry: a key of one byte after its length, and an empty list after a byte and its length.
const LEAST_ENTRY_BYTES: usize = 6;

/// So many entries. Room is taken for as many as the bytes can have.
fn read_entries(alloc: Global, count: u16, bytes: &[u8]) -> Result<(Entries, &[u8]), ReadError>
    ensures { Gives (λ x. (x.0, x.1.now)) result (entries_at count bytes.now) }
{
    let most = usize::from(count).min(bytes.len() / LEAST_ENTRY_BYTES);
    let mut entries = Entries::with_room(alloc, most, bytes.len())?;
    let mut last: &[u8] = &[];
    let mut rest = bytes;
    for _ in 0..count {
        let (entry, behind) = read_entry(last, rest)?;
        entries.push(entry)?;
        last = entry.key;
        rest = behind;
    }
    Ok((entries, rest))
}

/// The high key of a leaf with a right link.
fn read_high_key(right: u32, bytes: &[u8]) -> Result<(&[u8], &[u8]), ReadError>
    ensures { Gives (λ x. (x.0.now, x.1.now)) result (high_key_at right bytes.now) }
{
    if right == 0 {
        Ok((&[], bytes))
    } else {
        read_key(&[], bytes)
    }
}

/// A leaf.
#[tactic(auto, unfolding(crate::specs::Bodies::entry_leaf_at))]
pub fn read_entry_leaf(
    alloc: Global,
    right: u32,
    count: u16,
    bytes: &[u8],
) -> Result<(Body, &[u8]), ReadError>
    ensures { Gives (λ x. (x.0, x.1.now)) result (entry_leaf_at right count bytes.now) }
{
    let (high, rest) = read_high_key(right, bytes)?;
    let (entries, rest) = read_entries(alloc, count, rest)?;
    let high = Bytes::from_slice(alloc, high)?;
    Ok((Body::EntryLeaf { high, entries }, rest))
}

/// A child whose bound is above the last, with so many children after it.
#[tactic(auto, unfolding(crate::specs::Bodies::entry_child_at))]
fn read_entry_child<'a>(
    right: u32,
    last: &[u8],
    behind: u16,
    bytes: &'a [u8],
) -> Result<(EntryChildRef<'a>, &'a [u8]), ReadError>
    ensures { Gives (λ x. (child_shown x.0, x.1.now)) result
        (entry_child_at right last.now behind bytes.now) }
{
    let (page, rest) = read_below(PAGE_LIMIT, bytes)?;
    let (bound, rest) = read_bound(right == 0 && behind == 0, last, rest)?;
    Ok((EntryChildRef { page, bound }, rest))
}

/// So many children.
pub fn read_entry_children(
    alloc: Global,
    right: u32,
    count: u16,
    bytes: &[u8],
) -> Result<(EntryChildren, &[u8]), ReadError>
    ensures { Gives (λ x. (x.0, x.1.now)) result (entry_children_at right count bytes.now) }
{
    let mut children = EntryChildren::new(alloc);
    let mut last: &[u8] = &[];
    let mut rest = bytes;
    for i in 0..count {
        let (child, behind) = read_entry_child(right, last, count - 1 - i, rest)?;
        children.push(child)?;
        last = child.bound;
        rest = behind;
    }
    Ok((children, rest))
}
