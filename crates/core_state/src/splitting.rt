// When a record Split may come next, as far as the record, its pages before and after, and the state
// of the log say.
ghost use Rattle.std.specs.Prelude.{◌≡◌, ◌↔◌, ◌+◌, ◌≤◌, ◌++◌, ℕ, true, length, Some, IfSome, IfNone};
ghost use Rattle.std.specs.List.{All, flat_map, slice_get};
ghost use Rattle.ts_base.specs.Keys.{Key};
ghost use Rattle.page_types.specs.Numbers.{most_body};
ghost use Rattle.page_types.specs.Items.{items_of, IsItemList};
ghost use Rattle.page_types.specs.Pages.{IsPage, AreEntries};
ghost use Rattle.page_types.specs.Parts.{entry_shown};
ghost use Rattle.page_types.specs.Encoding.{entry_bytes, high_key_bytes};
ghost use Rattle.page_types.specs.declared.page.Body.TheVariants as body;
ghost use Rattle.core_state.specs.Changes.{made_with};
ghost use Rattle.core_state.specs.TreeRules.{EntryHalves, PostHalves, EntryParent, PostParent};
ghost use Rattle.core_state.specs.TreeRules.{listed_bytes, IsSplitPlace, IsSplitHere};
ghost use Rattle.core_state.specs.Judging.{Judges};
ghost use Rattle.core_state.specs.Inner.Members.{members_of};
ghost use Rattle.core_state.specs.Inner.SplitPages.{Divides, DividesList, NoLonger, AreHalves, IsLongest};
ghost use Rattle.core_state.specs.Inner.SplitPages.{Divided, LeavesSplit};

use crate::linking::is_below;
use crate::members::{Members, count, go_on, shared};
use crate::state::State;
use crate::tree_pages::HALF_BODY;
use page_types::{
    Body, Entries, EntryChildren, EntryRef, Kind, MOST_BODY_BYTES, Page, PostChildren, PostingsRef,
    Record, body_length, next_item, read_items,
};
use std::alloc::AllocError;

/// Whether members are those of a first part and then those of a second.
fn is_joined(whole: Members<'_>, front: Members<'_>, back: Members<'_>) -> bool
    ensures { result ≡ true
        ↔ (members_of whole.entry ≡ members_of front.entry ++ members_of back.entry) }
{
    let k = count(front);
    let n = shared(whole, front);
    if n != k {
        return false;
    }
    go_on(whole, k, back, 0)
}

/// Whether there are entries on both sides, those of the first up to this key, and the others above it.
fn divides(mid: &[u8], front: &Entries, back: &Entries) -> bool
    requires front { AreEntries front.now }
    requires back { AreEntries back.now }
    ensures { result ≡ true ↔ Divides mid.now front.now back.now }
{
    if front.len() == 0 {
        return false;
    }
    let Some(last) = front.get(front.len() - 1) else {
        return false;
    };
    let Some(first) = back.get(0) else {
        return false;
    };
    if is_below(mid, last.key) {
        return false;
    }
    is_below(mid, first.key)
}

/// The key at which these entries of a leaf are divided into two leaves.
fn leaf_mid<'a>(high: &[u8], entries: &Entries, left: &'a Page, right: &Page) -> Option<&'a [u8]>
    requires left { IsPage left.now }
    requires right { IsPage right.now }
    ensures some { IfSome result (λ mid. EntryHalves mid.now (body.EntryLeaf high.now entries.now)
        left.now.body right.now.body) }
    ensures none { IfNone result ((mid : Key) → EntryHalves mid (body.EntryLeaf high.now entries.now)
        left.now.body right.now.body → ⊥) }
{
    let Body::EntryLeaf {
        high: mid,
        entries: front,
    } = &left.body
    else {
        return None;
    };
    let Body::EntryLeaf {
        high: end,
        entries: back,
    } = &right.body
    else {
        return None;
    };
    if end.as_slice() != high || !divides(mid.as_slice(), front, back) {
        return None;
    }
    if !is_joined(
        Members::Entries(entries),
        Members::Entries(front),
        Members::Entries(back),
    ) {
        return None;
    }
    Some(mid.as_slice())
}

/// The key at which these children of an inner page of the entry tree are divided into two pages.
fn inner_mid<'a>(children: &EntryChildren, left: &'a Page, right: &Page) -> Option<&'a [u8]>
    ensures some { IfSome result (λ mid. EntryHalves mid.now (body.EntryInner children.now)
        left.now.body right.now.body) }
    ensures none { IfNone result ((mid : Key) → EntryHalves mid (body.EntryInner children.now)
        left.now.body right.now.body → ⊥) }
{
    let Body::EntryInner(front) = &left.body else {
        return None;
    };
    let Body::EntryInner(back) = &right.body else {
        return None;
    };
    if front.len() == 0 || back.len() == 0 {
        return None;
    }
    let last = front.get(front.len() - 1)?;
    if !is_joined(
        Members::Children(children),
        Members::Children(front),
        Members::Children(back),
    ) {
        return None;
    }
    Some(last.bound)
}

/// The key at which a page of the entry tree is divided into two.
fn entry_mid<'a>(old: &Page, left: &'a Page, right: &Page) -> Option<&'a [u8]>
    requires left { IsPage left.now }
    requires right { IsPage right.now }
    ensures some { IfSome result
        (λ mid. EntryHalves mid.now old.now.body left.now.body right.now.body) }
    ensures none { IfNone result
        ((mid : Key) → EntryHalves mid old.now.body left.now.body right.now.body → ⊥) }
{
    match &old.body {
        Body::EntryLeaf { high, entries } => leaf_mid(high.as_slice(), entries, left, right),
        Body::EntryInner(children) => inner_mid(children, left, right),
        _ => None,
    }
}

/// Whether there are items on both sides, those of a list, and those of the first are up to this item
/// and the others above it.
fn divides_list(mid: u32, items: &[u8], front: &[u8], back: &[u8]) -> bool
    requires items { IsItemList items.now }
    requires front { IsItemList front.now }
    requires back { IsItemList back.now }
    ensures { result ≡ true ↔ DividesList mid items.now front.now back.now }
{
    let Ok(read) = read_items(front.len(), front) else {
        return false;
    };
    let k = front.len();
    if k == 0 || k > items.len() || &items[..k] != front || read.last > mid {
        return false;
    }
    let Ok((first, left)) = next_item(read.last, &items[k..]) else {
        return false;
    };
    let Ok((same, rest)) = next_item(0, back) else {
        return false;
    };
    if same != first || rest != left {
        return false;
    }
    mid < first
}

/// The item at which this list of a posting leaf is divided into two leaves.
fn post_leaf_mid(high: u32, items: &[u8], left: &Page, right: &Page) -> Option<u32>
    requires items { IsItemList items.now }
    requires left { IsPage left.now }
    requires right { IsPage right.now }
    ensures some { IfSome result
        (λ mid. PostHalves mid (body.PostLeaf high items.now) left.now.body right.now.body) }
    ensures none { IfNone result
        ((mid : ℕ) → PostHalves mid (body.PostLeaf high items.now) left.now.body right.now.body → ⊥) }
{
    let Body::PostLeaf {
        high: mid,
        items: front,
    } = &left.body
    else {
        return None;
    };
    let Body::PostLeaf {
        high: end,
        items: back,
    } = &right.body
    else {
        return None;
    };
    if *end != high || !divides_list(*mid, items, front.as_slice(), back.as_slice()) {
        return None;
    }
    Some(*mid)
}

/// The item at which these children of an inner posting page are divided into two pages.
fn post_inner_mid(children: &PostChildren, left: &Page, right: &Page) -> Option<u32>
    ensures some { IfSome result
        (λ mid. PostHalves mid (body.PostInner children.now) left.now.body right.now.body) }
    ensures none { IfNone result
        ((mid : ℕ) → PostHalves mid (body.PostInner children.now) left.now.body right.now.body → ⊥) }
{
    let Body::PostInner(front) = &left.body else {
        return None;
    };
    let Body::PostInner(back) = &right.body else {
        return None;
    };
    if front.len() == 0 || back.len() == 0 {
        return None;
    }
    let last = front.get(front.len() - 1)?;
    if !is_joined(
        Members::Posts(children),
        Members::Posts(front),
        Members::Posts(back),
    ) {
        return None;
    }
    Some(last.bound)
}

/// The item at which a page of a posting tree is divided into two.
fn post_mid(old: &Page, left: &Page, right: &Page) -> Option<u32>
    requires old { IsPage old.now }
    requires left { IsPage left.now }
    requires right { IsPage right.now }
    ensures some { IfSome result (λ mid. PostHalves mid old.now.body left.now.body right.now.body) }
    ensures none { IfNone result
        ((mid : ℕ) → PostHalves mid old.now.body left.now.body right.now.body → ⊥) }
{
    match &old.body {
        Body::PostLeaf { high, items } => post_leaf_mid(*high, items.as_slice(), left, right),
        Body::PostInner(children) => post_inner_mid(children, left, right),
        _ => None,
    }
}

/// Whether a child with this page and this bound is at this place.
fn is_child(children: &EntryChildren, k: usize, page: u32, bound: &[u8]) -> bool
    ensures { result ≡ true
        ↔ (slice_get children.now k ≡ Some (record { page = page; bound = bound.now })) }
{
    let Some(child) = children.get(k) else {
        return false;
    };
    child.page == page && child.bound == bound
}

/// The same of a posting tree.
fn is_post(children: &PostChildren, k: usize, page: u32, bound: u32) -> bool
    ensures { result ≡ true
        ↔ (slice_get children.now k ≡ Some (record { page = page; bound = bound })) }
{
    let Some(child) = children.get(k) else {
        return false;
    };
    child.page == page && child.bound == bound
}

/// Whether the parent has the new page after the page, with its bound, and the page the bound `mid`.
fn adopts_child(page: u32, new: u32, mid: &[u8], old: &Page, then: &Page) -> bool
    requires { IsPage then.now }
    ensures { result ≡ true ↔ EntryParent page new mid.now old.now.body then.now.body }
{
    let Body::EntryInner(was) = &old.body else {
        return false;
    };
    let Body::EntryInner(now) = &then.body else {
        return false;
    };
    let k = shared(Members::Children(was), Members::Children(now));
    if k >= was.len() {
        return false;
    }
    let Some(child) = was.get(k) else {
        return false;
    };
    if child.page != page || !is_child(now, k, page, mid) {
        return false;
    }
    if !is_child(now, k + 1, new, child.bound) {
        return false;
    }
    go_on(Members::Children(was), k + 1, Members::Children(now), k + 2)
}

/// The same of a posting tree.
fn adopts_post(page: u32, new: u32, mid: u32, old: &Page, then: &Page) -> bool
    requires { IsPage then.now }
    ensures { result ≡ true ↔ PostParent page new mid old.now.body then.now.body }
{
    let Body::PostInner(was) = &old.body else {
        return false;
    };
    let Body::PostInner(now) = &then.body else {
        return false;
    };
    let k = shared(Members::Posts(was), Members::Posts(now));
    if k >= was.len() {
        return false;
    }
    let Some(child) = was.get(k) else {
        return false;
    };
    if child.page != page || !is_post(now, k, page, mid) {
        return false;
    }
    if !is_post(now, k + 1, new, child.bound) {
        return false;
    }
    go_on(Members::Posts(was), k + 1, Members::Posts(now), k + 2)
}

/// How many bytes the high key of a leaf has, with its length; 0 where there is none.
fn high_size(high: &[u8]) -> usize
    requires { length (high_key_bytes high.now) ≤ most_body }
    ensures { result ≡ length (high_key_bytes high.now) }
{
    if high.is_empty() {
        return 0;
    }
    2 + high.len()
}

/// How many bytes the entries, children or items of a page of a tree have.
fn listed_size(page: &Page) -> usize
    requires { IsPage page.now }
    ensures { result ≡ length (listed_bytes page.now.body) }
{
    match &page.body {
        Body::EntryLeaf { high, .. } => body_length(page) - high_size(high.as_slice()),
        Body::EntryInner(_) => body_length(page),
        Body::PostInner(_) => body_length(page),
        Body::PostLeaf { items, .. } => items.len(),
        _ => 0,
    }
}

/// How many bytes an entry has.
fn entry_size(entry: EntryRef<'_>) -> usize
    requires { length (entry_bytes (entry_shown entry)) ≤ most_body }
    ensures { result ≡ length (entry_bytes (entry_shown entry.entry)) }
{
    match entry.postings {
        PostingsRef::Inline(items) => 5 + entry.key.len() + items.len(),
        PostingsRef::Root(_) => 7 + entry.key.len(),
    }
}

/// Whether no longer first part of a leaf fits, after so many bytes of entries, with these after them.
fn none_longer(front: usize, back: &Entries) -> bool
    requires { front + length (flat_map entry_bytes back.now) ≤ most_body }
    ensures { result ≡ true ↔ NoLonger front back.now }
{
    let mut size = front;
    for k in 0..back.len().saturating_sub(1) {
        let Some(entry) = back.get(k) else {
            return false;
        };
        size += entry_size(entry);
        if size + 2 + entry.key.len() <= MOST_BODY_BYTES {
            return false;
        }
    }
    true
}

/// Whether a list has one item.
fn has_one(items: &[u8]) -> bool
    requires { IsItemList items.now }
    ensures { result ≡ true ↔ (length (items_of items.now) ≡ 1) }
{
    let Ok((_, rest)) = next_item(0, items) else {
        return false;
    };
    rest.is_empty()
}

/// Whether the first part of a page, with so many bytes of what it lists, is the longest that fits.
fn is_longest(front: usize, old: &Page, left: &Page, right: &Page) -> bool
    requires old { IsPage old.now }
    requires left { IsPage left.now }
    requires right { IsPage right.now }
    requires halves { AreHalves old.now.body left.now.body right.now.body }
    requires front { front ≡ length (listed_bytes left.now.body) }
    ensures { result ≡ true ↔ IsLongest old.now.body left.now.body }
{
    match &right.body {
        Body::EntryLeaf { entries, .. } => none_longer(front, entries),
        Body::EntryInner(children) => children.len() == 1,
        Body::PostInner(children) => children.len() == 1,
        Body::PostLeaf { items, .. } => has_one(items.as_slice()),
        _ => false,
    }
}

/// Whether a page is divided at half of its bytes, or after the longest first part that fits.
fn is_split_place(old: &Page, left: &Page, right: &Page) -> bool
    requires old { IsPage old.now }
    requires left { IsPage left.now }
    requires right { IsPage right.now }
    requires halves { AreHalves old.now.body left.now.body right.now.body }
    ensures { result ≡ true ↔ IsSplitPlace old.now.body left.now.body }
{
    let front = listed_size(left);
    if listed_size(old) <= 2 * front {
        return true;
    }
    is_longest(front, old, left, right)
}

/// Whether a page is divided into these two, and its parent has the new one after it.
fn is_divided(page: u32, new: u32, before: &[Page], after: &[Page]) -> bool
    requires before { length before.now ≡ 3 }
    requires after { length after.now ≡ 3 }
    requires were { All IsPage before.now }
    requires are { All IsPage after.now }
    ensures { result ≡ true ↔ Divided page new before.now after.now }
{
    if let Some(mid) = entry_mid(&before[0], &after[0], &after[1]) {
        return adopts_child(page, new, mid, &before[2], &after[2]);
    }
    if let Some(mid) = post_mid(&before[0], &after[0], &after[1]) {
        return adopts_post(page, new, mid, &before[2], &after[2]);
    }
    false
}

/// Whether a record leaves a page with this right link.
fn is_left(rec: &Record, right: u32, page: &Page) -> bool
    ensures { result ≡ true ↔ (page.now ≡ made_with rec.now right page.now.body) }
{
    page.right == right && page.stamp == rec.number
}

/// Whether a record leaves a page with a large body divided, with its second part on the new page, and
/// the new page with its parent.
fn leaves_split(rec: &Record, page: u32, new: u32, before: &[Page], after: &[Page]) -> bool
    requires before { length before.now ≡ 3 }
    requires after { length after.now ≡ 3 }
    requires were { All IsPage before.now }
    requires are { All IsPage after.now }
    ensures { result ≡ true ↔ LeavesSplit rec.now page new before.now after.now }
{
    let old = &before[0];
    let old_parent = &before[2];
    let left = &after[0];
    let right = &after[1];
    let parent = &after[2];
    if !is_left(rec, new, left) || !is_left(rec, old.right, right) {
        return false;
    }
    if !is_left(rec, old_parent.right, parent) || body_length(old) <= HALF_BODY {
        return false;
    }
    if !is_divided(page, new, before, after) {
        return false;
    }
    is_split_place(old, left, right)
}

/// Whether Split may come next: a page of a tree, which has a large body, is divided, the new page takes
/// the second part and the right link, and comes after the page in its parent.
pub fn valid_split(
    state: &State,
    rec: &Record,
    before: &[Page],
    after: &[Page],
    _floor: u32,
    since: u64,
) -> Result<bool, AllocError>
    requires after { All IsPage after.now }
    requires before { All IsPage before.now }
    ensures { Judges (IsSplitHere since) state.now.value rec.now before.now after.now result }
{
    let Kind::Split = rec.kind else {
        return Ok(false);
    };
    let changes = rec.changes.as_slice();
    if changes.len() != 3 || before.len() != 3 || after.len() != 3 {
        return Ok(false);
    }
    let page = changes[0].page;
    let new = changes[1].page;
    if !state.is_new(new, since) {
        return Ok(false);
    }
    Ok(leaves_split(rec, page, new, before, after))
}
