// A page that is split.
ghost use Rattle.std.specs.Prelude.{◌≡◌, ◌≢◌, ◌+◌, ◌^◌, ◌<◌, ◌≤◌, ◌↔◌, ℕ, suc, List, [], ◌++◌, length, take};
ghost use Rattle.std.specs.Prelude.{IfOk, IfSome, IfNone, IsTrue};
ghost use Rattle.page_types.specs.Numbers.{page_limit, most_body};
ghost use Rattle.page_types.specs.Parts.{entry_shown};
ghost use Rattle.page_types.specs.Encoding.{entry_bytes, body_bytes, count_of};
ghost use Rattle.page_types.specs.Pages.{IsPage};
ghost use Rattle.page_types.specs.declared.page.Entry.{Entry};
ghost use Rattle.page_types.specs.declared.page.EntryChild.{EntryChild};
ghost use Rattle.page_types.specs.declared.page.Body.TheVariants as body;
ghost use Rattle.core_state.specs.TreeRules.{KeepsHalf, FitsPage};
ghost use Rattle.posting_code.specs.Cutting.{IsEven, IsCut};
ghost use Rattle.posting_code.specs.declared.dividing.Keep.TheVariants.{Most};
ghost use Rattle.entry_tree.specs.Finding.{IsEntryBody};
ghost use Rattle.entry_tree.specs.Splitting.{body_cutting, AreParts};
ghost use Rattle.entry_tree.specs.Inner.Parts.{last_key, left_of, right_of, bytes_before, IsCutPlace};
ghost use Rattle.entry_tree.specs.Inner.Parts.{cut_key, IsPart};
ghost use Rattle.entry_tree.specs.Inner.Parts.{IsFirstHalf, IsLastFitting};

use crate::pages::upper;
use page_types::{
    Body, Bytes, Entries, EntryChildren, EntryRef, MOST_BODY_BYTES, Page, PostingsRef,
};
use posting_code::Keep;
use std::alloc::{AllocError, Global};

/// The bytes of a child, but for those of its bound.
const CHILD_FRONT: usize = 6;

/// How many members a page has.
fn member_count(page: &Page) -> usize
    requires { IsEntryBody page.now.body }
    ensures { result ≡ count_of page.now.body }
{
    match &page.body {
        Body::EntryLeaf { entries, .. } => entries.len(),
        Body::EntryInner(children) => children.len(),
        _ => 0,
    }
}

/// How many bytes an entry has.
fn entry_size(entry: EntryRef<'_>) -> usize
    requires { length (entry_bytes (entry_shown entry)) ≤ most_body }
    ensures { result ≡ length (entry_bytes (entry_shown entry.entry)) }
{
    match entry.postings {
        PostingsRef::Inline(items) => 5 + entry.key.len() + items.len(),
        PostingsRef::Root(_) => 7 + entry.key.len(),
    }
}

/// How many bytes the member with this number has.
fn member_size(page: &Page, k: usize) -> usize
    requires page { IsPage page.now }
    requires entries { IsEntryBody page.now.body }
    requires there { k < count_of page.now.body }
    ensures { length (bytes_before page.now.body (suc k))
        ≡ length (bytes_before page.now.body k) + result }
{
    match &page.body {
        Body::EntryLeaf { entries, .. } => match entries.get(k) {
            Some(entry) => entry_size(entry),
            None => 0,
        },
        Body::EntryInner(children) => match children.get(k) {
            Some(child) => CHILD_FRONT + child.bound.len(),
            None => 0,
        },
        _ => 0,
    }
}

/// The key of the entry with this number.
fn key_of(entries: &Entries, k: usize) -> &[u8]
    requires { k < length entries.now }
    ensures { result.now ≡ last_key (take (suc k) entries.now) }
{
    match entries.get(k) {
        Some(entry) => entry.key,
        None => &[],
    }
}

/// How many bytes the high key has where the member with this number is the last.
fn high_size(page: &Page, k: usize) -> usize
    requires page { IsPage page.now }
    requires entries { IsEntryBody page.now.body }
    requires there { k < count_of page.now.body }
    ensures size { length (body_bytes (left_of page.now.body k))
        ≡ result + length (bytes_before page.now.body (suc k)) }
    ensures small { result ≤ 2049 }
{
    match &page.body {
        Body::EntryLeaf { entries, .. } => 2 + key_of(entries, k).len(),
        _ => 0,
    }
}

/// How many bytes the members before the one with this number have.
fn size_before(page: &Page, k: usize) -> usize
    requires page { IsPage page.now }
    requires entries { IsEntryBody page.now.body }
    requires there { k ≤ count_of page.now.body }
    ensures { result ≡ length (bytes_before page.now.body k) }
{
    let mut size = 0;
    for j in 0..k {
        size += member_size(page, j);
    }
    size
}

/// Whether the part up to the member with this number fits on a page.
fn fits(page: &Page, k: usize) -> bool
    requires page { IsPage page.now }
    requires entries { IsEntryBody page.now.body }
    requires place { IsCutPlace page.now.body k }
    ensures { IsTrue result ↔ FitsPage (left_of page.now.body k) }
{
    size_before(page, k + 1) + high_size(page, k) <= MOST_BODY_BYTES
}

/// Whether the part up to the member with this number has at least half of the bytes.
fn keeps_half(page: &Page, k: usize) -> bool
    requires page { IsPage page.now }
    requires entries { IsEntryBody page.now.body }
    requires place { IsCutPlace page.now.body k }
    ensures { IsTrue result ↔ KeepsHalf page.now.body (left_of page.now.body k) }
{
    size_before(page, member_count(page)) <= 2 * size_before(page, k + 1)
}

/// The first member but the last up to which there is at least half of the bytes.
fn first_half(page: &Page) -> Option<usize>
    requires page { IsPage page.now }
    requires entries { IsEntryBody page.now.body }
    ensures some { IfSome result (λ k. IsFirstHalf page.now.body k) }
    ensures none { IfNone result ((k : ℕ) → IsCutPlace page.now.body k
        → KeepsHalf page.now.body (left_of page.now.body k) → ⊥) }
{
    let count = member_count(page);
    let whole = size_before(page, count);
    let mut size = 0;
    for k in 0..count.saturating_sub(1) {
        size += member_size(page, k);
        if whole <= 2 * size {
            return Some(k);
        }
    }
    None
}

/// The last member but the last of all up to which the first part fits on a page.
fn last_fitting(page: &Page) -> usize
    requires page { IsPage page.now }
    requires entries { IsEntryBody page.now.body }
    requires members { 2 ≤ count_of page.now.body }
    ensures { IsLastFitting page.now.body result }
{
    let mut found = 0;
    let mut size = 0;
    for k in 0..member_count(page).saturating_sub(1) {
        size += member_size(page, k);
        if size + high_size(page, k) <= MOST_BODY_BYTES {
            found = k;
        }
    }
    found
}

/// The place at half of the bytes where both parts then fit, else after the longest first part that fits.
fn even(page: &Page) -> usize
    requires page { IsPage page.now }
    requires entries { IsEntryBody page.now.body }
    requires members { 2 ≤ count_of page.now.body }
    ensures place { IsCutPlace page.now.body result }
    ensures even { IsEven (body_cutting page.now.body)
        (left_of page.now.body result) (right_of page.now.body result) }
{
    if let Some(k) = first_half(page) {
        if fits(page, k) {
            return k;
        }
    }
    last_fitting(page)
}

/// The place after the longest first part that fits, where it has at least half of the bytes; else as `even`.
fn most_or_even(page: &Page) -> usize
    requires page { IsPage page.now }
    requires entries { IsEntryBody page.now.body }
    requires members { 2 ≤ count_of page.now.body }
    ensures place { IsCutPlace page.now.body result }
    ensures cut { IsCut (body_cutting page.now.body)
        (left_of page.now.body result) (right_of page.now.body result) Most }
{
    let k = last_fitting(page);
    if keeps_half(page, k) {
        return k;
    }
    even(page)
}

/// The number of the last member that stays on the page.
fn place_of_cut(page: &Page, keep: Keep) -> usize
    requires page { IsPage page.now }
    requires entries { IsEntryBody page.now.body }
    requires members { 2 ≤ count_of page.now.body }
    ensures place { IsCutPlace page.now.body result }
    ensures cut { IsCut (body_cutting page.now.body)
        (left_of page.now.body result) (right_of page.now.body result) keep }
{
    match keep {
        Keep::Half => even(page),
        Keep::Most => most_or_even(page),
    }
}

/// The key of the entry with this number; no bytes on an inner page.
fn cut_key(page: &Page, k: usize) -> &[u8]
    requires { k < count_of page.now.body }
    ensures { result.now ≡ cut_key page.now.body k }
{
    match &page.body {
        Body::EntryLeaf { entries, .. } => key_of(entries, k),
        _ => &[],
    }
}

/// Adds the entries from one number on, before another one.
fn push_entries(
    entries: &Entries,
    from: usize,
    to: usize,
    part: &mut Entries,
) -> Result<(), AllocError>
    requires order { from ≤ to }
    requires there { to ≤ length entries.now }
    requires none { part.old ≡ [] }
    ensures { IfOk result (λ done. take from entries.now ++ part.new ≡ take to entries.now) }
{
    for k in from..to {
        if let Some(entry) = entries.get(k) {
            part.push(entry)?;
        }
    }
    Ok(())
}

/// Adds the children from one number on, before another one.
fn push_children(
    children: &EntryChildren,
    from: usize,
    to: usize,
    part: &mut EntryChildren,
) -> Result<(), AllocError>
    requires order { from ≤ to }
    requires there { to ≤ length children.now }
    requires none { part.old ≡ [] }
    ensures { IfOk result (λ done. take from children.now ++ part.new ≡ take to children.now) }
{
    for k in from..to {
        if let Some(child) = children.get(k) {
            part.push(child)?;
        }
    }
    Ok(())
}

/// A leaf with this high key and the entries from one number on, before another one.
fn leaf_part(
    alloc: Global,
    high: &[u8],
    entries: &Entries,
    from: usize,
    to: usize,
) -> Result<Body, AllocError>
    requires order { from ≤ to }
    requires there { to ≤ length entries.now }
    ensures { IfOk result (λ part. (es : List Entry)
        × (part ≡ body.EntryLeaf high.now es) × (take from entries.now ++ es ≡ take to entries.now)) }
{
    let high = Bytes::from_slice(alloc, high)?;
    let mut part = Entries::new(alloc);
    match push_entries(entries, from, to, &mut part) {
        Ok(()) => Ok(Body::EntryLeaf {
            high,
            entries: part,
        }),
        Err(e) => {
            drop(high);
            drop(part);
            Err(e)
        }
    }
}

/// An inner page with the children from one number on, before another one.
fn inner_part(
    alloc: Global,
    children: &EntryChildren,
    from: usize,
    to: usize,
) -> Result<Body, AllocError>
    requires order { from ≤ to }
    requires there { to ≤ length children.now }
    ensures { IfOk result (λ part. (cs : List EntryChild)
        × (part ≡ body.EntryInner cs) × (take from children.now ++ cs ≡ take to children.now)) }
{
    let mut part = EntryChildren::new(alloc);
    match push_children(children, from, to, &mut part) {
        Ok(()) => Ok(Body::EntryInner(part)),
        Err(e) => {
            drop(part);
            Err(e)
        }
    }
}

/// The members of a page from one number on, before another one, on a leaf with this high key.
fn part_of(
    alloc: Global,
    page: &Page,
    high: &[u8],
    from: usize,
    to: usize,
) -> Result<Body, AllocError>
    requires entries { IsEntryBody page.now.body }
    requires order { from ≤ to }
    requires there { to ≤ count_of page.now.body }
    ensures { IfOk result (λ part. IsPart high.now from to page.now.body part) }
{
    match &page.body {
        Body::EntryLeaf { entries, .. } => leaf_part(alloc, high, entries, from, to),
        Body::EntryInner(children) => inner_part(alloc, children, from, to),
        _ => unreachable!(),
    }
}

/// The two pages of a split: the page with the first members, whose right link is the new page, and
/// the new page with the others and the old right link.
pub fn split(alloc: Global, page: &Page, new: u32, keep: Keep) -> Result<(Page, Page), AllocError>
    requires page { IsPage page.now }
    requires entries { IsEntryBody page.now.body }
    requires members { 2 ≤ count_of page.now.body }
    ensures parts { IfOk result (λ pages. AreParts page.now new keep pages.0 pages.1) }
    ensures are_pages { IfOk result (λ pages. new ≢ 0 → new < page_limit
        → IsPage pages.0 × IsPage pages.1) }
{
    let k = place_of_cut(page, keep);
    let first = part_of(alloc, page, cut_key(page, k), 0, k + 1)?;
    match part_of(alloc, page, upper(page), k + 1, member_count(page)) {
        Ok(second) => {
            let left = Page {
                right: new,
                stamp: page.stamp,
                body: first,
            };
            let right = Page {
                right: page.right,
                stamp: page.stamp,
                body: second,
            };
            Ok((left, right))
        }
        Err(e) => {
            drop(first);
            Err(e)
        }
    }
}
