// Pages of the entry tree: keys sought, items added under a key, pages split, roots that grow, parents that take a new
// page.
ghost use Rattle.std.specs.Prelude.{◌≡◌, ℕ, false, IsTrue, Some};
ghost use Rattle.std.specs.List.{slice_get};
ghost use Rattle.page_types.specs.Items.{AreItems};
ghost use Rattle.page_types.specs.Keys.{IsKey, IsKeyText};
ghost use Rattle.page_types.specs.Pages.{IsPage};
ghost use Rattle.core_state.specs.Log.{In};
ghost use Rattle.entry_tree.specs.Adding.{IsEntryLeaf, HasNoTree, tree_entry};
ghost use Rattle.entry_tree.specs.Finding.{IsEntryBody};

use crate::heap_tests::has_bytes;
use crate::item_tests::items_in;
use crate::rows::{bytes_of, number, word};
use crate::tree_tests::{have_bytes, is_given, members};
use entry_tree::{Added, add, adopt, find, first_child, grow, has_room, split, upper};
use gin_opclass::key_class;
use page_types::{Body, Entries, MOST_KEY_TEXT, Page, PostingsRef};
use posting_code::Keep;
use std::alloc::{AllocError, Global};

/// Whether a page is one of the entry tree.
pub(crate) fn is_entry_page(page: &Page) -> bool
    ensures { IsTrue result → IsEntryBody page.now.body }
{
    matches!(page.body, Body::EntryLeaf { .. } | Body::EntryInner(_))
}

/// Whether a key is found as its row says.
fn is_found(alloc: Global, page: &Page, words: &str, tells: &str) -> Result<bool, AllocError>
    requires page { IsPage page.now }
    requires entries { IsEntryBody page.now.body }
{
    let key = bytes_of(alloc, words)?;
    let text = format!(in alloc; "{:?}", find(page, &key_class(), &key))?;
    Ok(text.as_str() == tells)
}

/// Whether a page has the first child, the greatest key and the room that its row says.
fn is_told(alloc: Global, page: &Page, tells: &str) -> Result<bool, AllocError>
    requires { IsPage page.now }
{
    let (first, upper, room) = (first_child(page), upper(page), has_room(page));
    let text = format!(in alloc; "{first:?} {upper:?} {room}")?;
    Ok(text.as_str() == tells)
}

/// Whether this is the text of a key.
fn is_lexeme(text: &[u8]) -> bool
    ensures { IsTrue result → IsKeyText text.now }
{
    !text.is_empty() && text.len() <= MOST_KEY_TEXT && str::from_utf8(text).is_ok()
}

/// Whether this is a key.
fn is_key(bytes: &[u8]) -> bool
    ensures { IsTrue result → IsKey bytes.now }
{
    match bytes {
        [0, text @ ..] => is_lexeme(text),
        [1, rest @ ..] => rest.is_empty(),
        _ => false,
    }
}

/// Whether the entry with this number has a key and leads to a posting tree.
fn leads_down(entries: &Entries, k: usize, key: &[u8]) -> bool
    ensures { result ≡ false → (root : ℕ) → slice_get entries.now k ≡ Some (tree_entry key.now root) → ⊥ }
{
    match entries.get(k) {
        Some(entry) => entry.key == key && matches!(entry.postings, PostingsRef::Root(_)),
        None => false,
    }
}

/// Whether no entry of a key leads to a posting tree.
fn none_leads_down(entries: &Entries, key: &[u8]) -> bool
    ensures { IsTrue result → (root : ℕ) → In (tree_entry key.now root) entries.now → ⊥ }
{
    for k in 0..entries.len() {
        if leads_down(entries, k, key) {
            return false;
        }
    }
    true
}

/// Whether a page is a leaf on which this key has no posting tree.
fn is_leaf_for(page: &Page, key: &[u8]) -> bool
    ensures leaf { IsTrue result → IsEntryLeaf page.now.body }
    ensures no_tree { IsTrue result → HasNoTree page.now.body key.now }
{
    match &page.body {
        Body::EntryLeaf { entries, .. } => none_leads_down(entries, key),
        _ => false,
    }
}

/// Whether a leaf with items more under a key is this page, or has no room for them.
fn takes(
    alloc: Global,
    page: &Page,
    key: &[u8],
    items: &[u32],
    tells: &str,
) -> Result<bool, AllocError>
    requires page { IsPage page.now }
    requires items { AreItems items.now }
{
    if !is_key(key) || !is_leaf_for(page, key) {
        return Ok(false);
    }
    match add(alloc, page, &key_class(), key, items)? {
        Added::Done(filled) => has_bytes(alloc, &filled, tells),
        Added::TooLong => Ok(tells == "too long"),
        Added::Full => Ok(tells == "full"),
    }
}

/// Whether a leaf with the items of a list more under a key is this page, or has no room for them.
fn is_filled(alloc: Global, page: &Page, words: &str, tells: &str) -> Result<bool, AllocError>
    requires { IsPage page.now }
{
    let (list, key) = word(words);
    let items = items_in(alloc, list)?;
    let key = bytes_of(alloc, key)?;
    takes(alloc, page, &key, &items, tells)
}

/// Whether a page is split into these.
fn is_split(
    alloc: Global,
    page: &Page,
    keep: Keep,
    new: u32,
    tells: &str,
) -> Result<bool, AllocError>
    requires page { IsPage page.now }
    requires entries { IsEntryBody page.now.body }
{
    if members(page) < 2 {
        return Ok(false);
    }
    have_bytes(alloc, &split(alloc, page, new, keep)?, tells)
}

/// Whether a root that grows, and its child, are these.
fn is_grown(alloc: Global, page: &Page, child: u32, tells: &str) -> Result<bool, AllocError>
    requires { IsEntryBody page.now.body }
{
    have_bytes(alloc, &grow(alloc, page, child)?, tells)
}

/// Whether a parent with one child more is this page, or does not name the child.
fn is_adopted(alloc: Global, parent: &Page, words: &str, tells: &str) -> Result<bool, AllocError> {
    let (page, rest) = word(words);
    let (new, mid) = word(rest);
    let mid = bytes_of(alloc, mid)?;
    let adopted = adopt(parent, number(page), number(new), &mid)?;
    is_given(alloc, &adopted, tells)
}

/// Whether a change of a page, or a look at it, gives what its row says.
pub(crate) fn gives(
    alloc: Global,
    page: &Page,
    verb: &str,
    words: &str,
    tells: &str,
) -> Result<bool, AllocError>
    requires page { IsPage page.now }
    requires entries { IsEntryBody page.now.body }
{
    match verb {
        "find" => is_found(alloc, page, words, tells),
        "tell" => is_told(alloc, page, tells),
        "add" => is_filled(alloc, page, words, tells),
        "half" => is_split(alloc, page, Keep::Half, number(words), tells),
        "most" => is_split(alloc, page, Keep::Most, number(words), tells),
        "grow" => is_grown(alloc, page, number(words), tells),
        _ => is_adopted(alloc, page, words, tells),
    }
}
