// How many bytes are on a page.
ghost use Rattle.std.specs.Prelude.{◌≡◌, ◌^◌, ◌<◌, length};
ghost use Rattle.page_types.specs.Encoding.{high_key_bytes, gone_bytes, body_bytes};

use crate::page::{Body, Gone, Page};

/// How many bytes the high key of a leaf has, 0 where there is none.
fn high_key_size(high: &[u8]) -> usize
    requires { length (high_key_bytes high.now) < 2 ^ 64 }
    ensures { result ≡ length (high_key_bytes high.now) }
{
    if high.is_empty() { 0 } else { 2 + high.len() }
}

/// How many bytes a deleted page keeps.
fn gone_size(gone: &Gone) -> usize
    requires { length (gone_bytes gone.now) < 2 ^ 64 }
    ensures { result ≡ length (gone_bytes gone.now) }
{
    match gone {
        Gone::Overflow(bytes) => bytes.len(),
        Gone::Pending(rows) => rows.size(),
        Gone::PostLeaf { items, .. } => 4 + items.len(),
    }
}

/// How many bytes are on a page: the length of its body. It takes no memory.
///
/// A body that has an encoding is never longer than 8168 bytes.
pub fn body_length(page: &Page) -> usize
    requires fits { length (body_bytes page.now.body) < 2 ^ 64 }
    ensures { result ≡ length (body_bytes page.now.body) }
{
    match &page.body {
        Body::Free => 0,
        Body::Meta { .. } => 12,
        Body::Heap(slots) => slots.size(),
        Body::Overflow(bytes) => bytes.len(),
        Body::Pending(rows) => rows.size(),
        Body::EntryLeaf { high, entries } => high_key_size(high.as_slice()) + entries.size(),
        Body::EntryInner(children) => children.size(),
        Body::PostLeaf { items, .. } => 4 + items.len(),
        Body::PostInner(children) => children.size(),
        Body::Deleted(gone) => gone_size(gone),
    }
}
