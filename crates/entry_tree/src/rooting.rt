// An entry whose items move to a posting tree.
ghost use Rattle.std.specs.Prelude.{◌≡◌, ◌↔◌, ℕ, ◌<◌, ◌≤◌, List, length, IfOk, IfSome, IfNone, Some, None};
ghost use Rattle.std.specs.List.{slice_get};
ghost use Rattle.page_types.specs.Numbers.{most_body, page_limit};
ghost use Rattle.page_types.specs.Encoding.{body_bytes};
ghost use Rattle.page_types.specs.Pages.{IsPage};
ghost use Rattle.page_types.specs.Views.{entries_in};
ghost use Rattle.entry_tree.specs.Adding.{IsEntryLeaf, list_entry};
ghost use Rattle.entry_tree.specs.Rooting.{HasListAt, rooted};

use crate::adding::leaf_with;
use page_types::{Body, EntryRef, MOST_BODY_BYTES, Page, PostingsRef, body_length};
use std::alloc::AllocError;

/// By how many bytes the root of a posting tree is longer than an item list of no bytes.
const ROOT_BYTES: usize = 4 - 2;

/// The key and the item list of the entry with this number.
fn entry_at(page: &Page, place: usize) -> (&[u8], &[u8])
    requires leaf { IsEntryLeaf page.now.body }
    requires list { HasListAt page.now.body place }
    ensures { slice_get (entries_in page.now.body) place
        ≡ Some (list_entry result.0.now result.1.now) }
{
    let Body::EntryLeaf { entries, .. } = &page.body else {
        unreachable!()
    };
    match entries.get(place) {
        Some(
            EntryRef {
                key,
                postings: PostingsRef::Inline(list),
            },
        ) => (key, list),
        _ => unreachable!(),
    }
}

/// A leaf whose entry with this number leads to the posting tree with this root, in place of its item
/// list. None exactly where its body would have more than 8168 bytes, which only a list of fewer than
/// two bytes can make it.
pub fn root_at(page: &Page, place: usize, root: u32) -> Result<Option<Page>, AllocError>
    requires leaf { IsEntryLeaf page.now.body }
    requires fits { length (body_bytes page.now.body) ≤ most_body }
    requires list { HasListAt page.now.body place }
    ensures rooted { IfOk result (λ o. IfSome o (λ p.
        p ≡ record page.now { body = rooted page.now.body place root })) }
    ensures none { IfOk result (λ o. (o ≡ None)
        ↔ (most_body < length (body_bytes (rooted page.now.body place root)))) }
    ensures short { IfOk result (λ o. o ≡ None → (key list : List ℕ)
        → slice_get (entries_in page.now.body) place ≡ Some (list_entry key list)
        → length list < 2) }
    ensures is_page { IfOk result (λ o. IfSome o (λ p.
        IsPage page.now → root < page_limit → IsPage p)) }
{
    let (key, list) = entry_at(page, place);
    if body_length(page) - list.len() + ROOT_BYTES > MOST_BODY_BYTES {
        return Ok(None);
    }
    let entry = EntryRef {
        key,
        postings: PostingsRef::Root(root),
    };
    Ok(Some(leaf_with(page, place, true, entry)?))
}
