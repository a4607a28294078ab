// Items that leave the lists of a leaf.
ghost use Rattle.std.specs.Prelude.{◌≡◌, ◌↔◌, ◌∷◌, ◌++◌, ℕ, [], IfOk, IfSome, IsTrue, None};
ghost use Rattle.std.specs.List.{AllByRecursion, Contains};
ghost use Rattle.page_types.specs.Items.{IsItemList};
ghost use Rattle.page_types.specs.Parts.{postings_shown, entry_shown};
ghost use Rattle.page_types.specs.Views.{list_in};
ghost use Rattle.page_types.specs.Pages.{IsPage, IsEntry, ArePostings};
ghost use Rattle.page_types.specs.declared.page.Entry.{Entry};
ghost use Rattle.page_types.specs.declared.page.Body.TheVariants as body;
ghost use Rattle.posting_code.specs.Uniting.{IsLeft};
ghost use Rattle.entry_tree.specs.Adding.{list_entry};
ghost use Rattle.posting_tree.specs.RemovalLogging.{LeftLeafIsLogged};
ghost use Rattle.posting_tree.specs.Removing.{IsEntryLeft, AreEntriesLeft, IsLeafLeft, IsListed, HasNone};

use page_types::{Body, Bytes, Entries, EntryRef, MOST_BODY_BYTES, Page, PostingsRef};
use posting_code::{ItemSet, without};
use std::alloc::{AllocError, Global};

/// Writes the list of a list's items but the dead ones in place of what was there, and answers whether it had none of
/// them.
fn write_left(list: &[u8], dead: &ItemSet, out: &mut Vec<u8>) -> Result<bool, AllocError>
    requires { IsItemList list.now }
    ensures left { IfOk result (λ same. IsLeft list.now dead.now out.new.items) }
    ensures same { IfOk result (λ same. IsTrue same ↔ HasNone dead.now list.now) }
{
    out.clear();
    without(list, dead, out)?;
    Ok(out.as_slice() == list)
}

/// Adds the entry of a key with its items in this list to the others.
fn push_list(key: &[u8], list: &[u8], left: &mut Entries) -> Result<(), AllocError>
    ensures { IfOk result (λ done. left.new ≡ left.old ++ list_entry key.now list.now ∷ []) }
{
    let postings = PostingsRef::Inline(list);
    left.push(EntryRef { key, postings })
}

/// Adds an entry without the dead items to the others, and answers whether it had none of them. The list is written in
/// `list` first.
fn push_left(
    entry: EntryRef<'_>,
    dead: &ItemSet,
    list: &mut Vec<u8>,
    left: &mut Entries,
) -> Result<bool, AllocError>
    requires { ArePostings (postings_shown entry.postings) }
    ensures left { IfOk result (λ same. (f : Entry) × (left.new ≡ left.old ++ f ∷ [])
        × IsEntryLeft dead.now (entry_shown entry.entry) f) }
    ensures same { IfOk result (λ same. IsTrue same
        ↔ HasNone dead.now (list_in (postings_shown entry.entry.postings))) }
{
    match entry.postings {
        PostingsRef::Inline(items) => {
            let same = write_left(items, dead, list)?;
            push_list(entry.key, list.as_slice(), left)?;
            Ok(same)
        }
        PostingsRef::Root(_) => {
            left.push(entry)?;
            Ok(true)
        }
    }
}

/// Adds all entries without the dead items to an empty list, and answers whether they had none of them.
fn push_all_left(
    alloc: Global,
    entries: &Entries,
    dead: &ItemSet,
    left: &mut Entries,
) -> Result<bool, AllocError>
    requires each { AllByRecursion IsEntry entries.now }
    requires none { left.old ≡ [] }
    ensures left { IfOk result (λ same. AreEntriesLeft dead.now entries.now left.new) }
    ensures same { IfOk result (λ same. IsTrue same
        ↔ AllByRecursion (λ e. HasNone dead.now (list_in e.postings)) entries.now) }
{
    let mut list = Vec::new(alloc);
    let mut same = true;
    for k in 0..entries.len() {
        let Some(entry) = entries.get(k) else {
            unreachable!()
        };
        same = push_left(entry, dead, &mut list, left)? && same;
    }
    Ok(same)
}

/// The leaf of entries without the dead items; none exactly where it has none of them.
fn entry_leaf(
    alloc: Global,
    high: &Bytes,
    entries: &Entries,
    dead: &ItemSet,
) -> Result<Option<Body>, AllocError>
    requires { AllByRecursion IsEntry entries.now }
    ensures left { IfOk result (λ o. IfSome o (λ b.
        IsLeafLeft dead.now (body.EntryLeaf high.now entries.now) b)) }
    ensures none { IfOk result (λ o. (o ≡ None) ↔ ((i : ℕ)
        → IsListed (body.EntryLeaf high.now entries.now) i → Contains dead.now i → ⊥)) }
{
    let mut left = Entries::with_room(alloc, entries.len(), MOST_BODY_BYTES)?;
    if push_all_left(alloc, entries, dead, &mut left)? {
        return Ok(None);
    }
    Ok(Some(Body::EntryLeaf {
        high: high.clone()?,
        entries: left,
    }))
}

/// The leaf of a posting tree without the dead items; none exactly where it has none of them.
fn post_leaf(
    alloc: Global,
    high: u32,
    list: &[u8],
    dead: &ItemSet,
) -> Result<Option<Body>, AllocError>
    requires { IsItemList list.now }
    ensures left { IfOk result (λ o. IfSome o (λ b.
        IsLeafLeft dead.now (body.PostLeaf high list.now) b)) }
    ensures none { IfOk result (λ o. (o ≡ None) ↔ ((i : ℕ)
        → IsListed (body.PostLeaf high list.now) i → Contains dead.now i → ⊥)) }
{
    let mut left = Vec::new(alloc);
    if write_left(list, dead, &mut left)? {
        return Ok(None);
    }
    Ok(Some(Body::PostLeaf {
        high,
        items: Bytes::from_vec(left),
    }))
}

/// What is on a page, without the dead items; none exactly where it has none of them.
fn body_left(alloc: Global, page: &Page, dead: &ItemSet) -> Result<Option<Body>, AllocError>
    requires { IsPage page.now }
    ensures left { IfOk result (λ o. IfSome o (λ b. IsLeafLeft dead.now page.now.body b)) }
    ensures none { IfOk result (λ o. (o ≡ None)
        ↔ ((i : ℕ) → IsListed page.now.body i → Contains dead.now i → ⊥)) }
{
    match &page.body {
        Body::EntryLeaf { high, entries } => entry_leaf(alloc, high, entries, dead),
        Body::PostLeaf { high, items } => post_leaf(alloc, *high, items.as_slice(), dead),
        _ => Ok(None),
    }
}

/// The leaf of entries, or of a posting tree, whose lists lack the dead items, all else as it was; none exactly where
/// the page has none of them.
pub fn remove(alloc: Global, page: &Page, dead: &ItemSet) -> Result<Option<Page>, AllocError>
    requires { IsPage page.now }
    ensures left { IfOk result (λ o. IfSome o (λ p. IsLeafLeft dead.now page.now.body p.body)) }
    ensures same { IfOk result (λ o. IfSome o (λ p. p ≡ record page.now { body = p.body })) }
    ensures none { IfOk result (λ o. (o ≡ None)
        ↔ ((i : ℕ) → IsListed page.now.body i → Contains dead.now i → ⊥)) }
    ensures is_page { IfOk result (λ o. IfSome o (λ p. IsPage p)) }
{
    let Some(body) = body_left(alloc, page, dead)? else {
        return Ok(None);
    };
    Ok(Some(Page {
        right: page.right,
        stamp: page.stamp,
        body,
    }))
}

/// A leaf that lacks some items, of which it had one at least, is what the record of that asks of its page.
pub fn left_leaf_may_be_logged()
    ensures { LeftLeafIsLogged }
{}
