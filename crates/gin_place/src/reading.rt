// What a page says of items that are to come under a key.
ghost use Rattle.std.specs.Prelude.{◌≡◌, ℕ, ◌≤◌, length, Some, None, IfOk, IfSome, IfNone, IsTrue, false};
ghost use Rattle.std.specs.List.{slice_get};
ghost use Rattle.page_types.specs.Parts.{entry_shown};
ghost use Rattle.page_types.specs.Views.{entries_in};
ghost use Rattle.core_state.specs.Changes.{UpTo};
ghost use Rattle.entry_tree.specs.Adding.{IsEntryLeaf, HasNoTree};
ghost use Rattle.entry_tree.specs.Finding.{IsFound};
ghost use Rattle.entry_tree.specs.Reading.{upper_in};
ghost use Rattle.entry_tree.specs.declared.finding.Found.TheVariants as found;
ghost use Rattle.entry_tree.specs.Adding.{IsAdded};
ghost use Rattle.entry_tree.specs.declared.adding.Added.TheVariants as added;
ghost use Rattle.gin_place.specs.Inner.Reading.{IsAsked, HasFresh, IsShortList, IsReading, IsRoomy, IsFullLeaf};
ghost use Rattle.gin_place.specs.declared.sought.Sought.TheVariants as soughts;

use crate::sought::{Sought, is_tree_page};
use entry_tree::{Added, Found, add, find, has_room};
use gin_opclass::{CompareKeys, Judge, Meaning, OpClass};
use page_types::{Body, EntryRef, MOST_INLINE_BYTES, Page, PostingsRef};
use posting_code::{fitting, lacks};
use std::alloc::{AllocError, Global};

/// What a page says of items that are to come under a key, where nothing is to be logged.
#[derive(Drop)]
pub(crate) enum Next {
    /// The way goes on to this child.
    Down(u32),
    /// The key's items are in the posting tree with this root.
    Tree(u32),
    /// So many of the items, the first of them, are under the key.
    Stand(usize),
    /// What is sought has no place on the page.
    Bad,
}

/// What a page says of items that are to come under a key.
#[derive(Drop)]
pub(crate) enum Reading {
    /// The page with so many of the items, the first of them, under the key.
    Added(Page, usize),
    /// The list of the entry with this number would be too long, and is to become a posting tree.
    Long(usize),
    /// The page has no room: for a child more, or for the items.
    Full,
    /// Nothing is to be logged.
    On(Next),
}

/// The entry with this number.
fn entry_at(page: &Page, place: usize) -> Option<EntryRef<'_>>
    ensures some { IfSome result
        (λ entry. slice_get (entries_in page.now.body) place ≡ Some (entry_shown entry)) }
    ensures none { IfNone result (length (entries_in page.now.body) ≤ place) }
{
    match &page.body {
        Body::EntryLeaf { entries, .. } => entries.get(place),
        _ => None,
    }
}

/// What a leaf says of items that some are to be added of: with all of them; nothing where the key's list
/// would be too long.
fn with_items<Q, W: Meaning<Q>, C: CompareKeys, J: Judge<Q, W>>(
    alloc: Global,
    page: &Page,
    class: &OpClass<Q, W, C, J>,
    key: &[u8],
    items: &[u32],
) -> Result<Option<Reading>, AllocError>
    requires asked { IsAsked page.now key.now items.now }
    requires leaf { IsEntryLeaf page.now.body }
    requires within { UpTo key.now (upper_in page.now.body) }
    requires no_tree { HasNoTree page.now.body key.now }
    requires fresh { HasFresh page.now.body key.now items.now }
    ensures some { IfOk result (λ o. IfSome o (λ r. IsReading page.now key.now items.now r)) }
    ensures none { IfOk result (λ o. IfNone o (IsAdded page.now key.now items.now added.TooLong)) }
{
    match add(alloc, page, class, key, items)? {
        Added::Done(new) => Ok(Some(Reading::Added(new, items.len()))),
        Added::Full => Ok(Some(Reading::Full)),
        Added::TooLong => Ok(None),
    }
}

/// What a leaf says of items that are too many for the key's list, which has fewer than two bytes: with
/// the first of them, as many as the list takes.
fn with_first<Q, W: Meaning<Q>, C: CompareKeys, J: Judge<Q, W>>(
    alloc: Global,
    page: &Page,
    class: &OpClass<Q, W, C, J>,
    key: &[u8],
    list: &[u8],
    items: &[u32],
) -> Result<Reading, AllocError>
    requires asked { IsAsked page.now key.now items.now }
    requires leaf { IsEntryLeaf page.now.body }
    requires within { UpTo key.now (upper_in page.now.body) }
    requires list { IsShortList page.now key.now list.now }
    requires long { IsAdded page.now key.now items.now added.TooLong }
    ensures { IfOk result (λ r. IsReading page.now key.now items.now r) }
{
    let count = fitting(list, items, MOST_INLINE_BYTES);
    match add(alloc, page, class, key, &items[..count])? {
        Added::Done(new) => Ok(Reading::Added(new, count)),
        Added::Full => Ok(Reading::Full),
        Added::TooLong => unreachable!(),
    }
}

/// What the entry of the key says, which has this number.
fn read_entry<Q, W: Meaning<Q>, C: CompareKeys, J: Judge<Q, W>>(
    alloc: Global,
    page: &Page,
    place: usize,
    class: &OpClass<Q, W, C, J>,
    key: &[u8],
    items: &[u32],
) -> Result<Reading, AllocError>
    requires asked { IsAsked page.now key.now items.now }
    requires here { IsFound page.now key.now (found.Here place) }
    ensures { IfOk result (λ r. IsReading page.now key.now items.now r) }
{
    let Some(entry) = entry_at(page, place) else {
        return Ok(Reading::On(Next::Bad));
    };
    match entry.postings {
        PostingsRef::Root(root) => Ok(Reading::On(Next::Tree(root))),
        PostingsRef::Inline(list) => {
            if !lacks(list, items) {
                return Ok(Reading::On(Next::Stand(items.len())));
            }
            match with_items(alloc, page, class, key, items)? {
                Some(reading) => Ok(reading),
                None if list.len() < 2 => with_first(alloc, page, class, key, list, items),
                None => Ok(Reading::Long(place)),
            }
        }
    }
}

/// What a leaf says on which no entry has the key.
fn read_none<Q, W: Meaning<Q>, C: CompareKeys, J: Judge<Q, W>>(
    alloc: Global,
    page: &Page,
    class: &OpClass<Q, W, C, J>,
    key: &[u8],
    items: &[u32],
) -> Result<Reading, AllocError>
    requires asked { IsAsked page.now key.now items.now }
    requires absent { (place : ℕ) × IsFound page.now key.now (found.Absent place) }
    ensures { IfOk result (λ r. IsReading page.now key.now items.now r) }
{
    if items.is_empty() {
        return Ok(Reading::On(Next::Stand(0)));
    }
    match with_items(alloc, page, class, key, items)? {
        Some(reading) => Ok(reading),
        None => with_first(alloc, page, class, key, &[], items),
    }
}

/// What a page of the entry tree says of items that are to come under a key. An inner page without room
/// for a child more is full on a way on which room is made.
pub(crate) fn read_entries<Q, W: Meaning<Q>, C: CompareKeys, J: Judge<Q, W>>(
    alloc: Global,
    page: &Page,
    class: &OpClass<Q, W, C, J>,
    key: &[u8],
    items: &[u32],
    making_room: bool,
) -> Result<Reading, AllocError>
    requires asked { IsAsked page.now key.now items.now }
    ensures reading { IfOk result (λ r. IsReading page.now key.now items.now r) }
    ensures room { IfOk result (λ r. IsTrue making_room → IsRoomy soughts.Key page.now r) }
    ensures leaf { IfOk result (λ r. making_room ≡ false → IsFullLeaf page.now r) }
{
    if !is_tree_page(Sought::Key, page) {
        return Ok(Reading::On(Next::Bad));
    }
    match find(page, class, key) {
        Found::Here { place } => read_entry(alloc, page, place, class, key, items),
        Found::Absent { .. } => read_none(alloc, page, class, key, items),
        Found::Down { child } => {
            if making_room && !has_room(page) {
                return Ok(Reading::Full);
            }
            Ok(Reading::On(Next::Down(child)))
        }
        Found::Right { .. } => Ok(Reading::On(Next::Bad)),
    }
}
