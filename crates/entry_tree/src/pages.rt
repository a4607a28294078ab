// The first child, the greatest key, and the room of a page.
ghost use Rattle.std.specs.Prelude.{◌≡◌, ◌↔◌, ◌≤◌, length, IsTrue};
ghost use Rattle.page_types.specs.Numbers.{most_body};
ghost use Rattle.page_types.specs.Encoding.{body_bytes};
ghost use Rattle.entry_tree.specs.Reading.{first_child_in, last_bound, upper_in, HasRoomForChild};

use page_types::{Body, EntryChildren, MOST_BODY_BYTES, MOST_KEY_TEXT, Page, body_length};

/// The bytes of the longest child: its page, the length of its bound, and the longest key.
const LONGEST_CHILD: usize = 4 + (2 + (1 + MOST_KEY_TEXT));

/// The leftmost child of an inner page of the entry tree, none of another page. It takes no memory.
pub fn first_child(page: &Page) -> Option<u32>
    ensures { result ≡ first_child_in page.now.body }
{
    match &page.body {
        Body::EntryInner(children) => Some(children.get(0)?.page),
        _ => None,
    }
}

/// The bound of the last child.
fn bound_of_last(children: &EntryChildren) -> &[u8]
    ensures { result.now ≡ last_bound children.now }
{
    match children.get(children.len().saturating_sub(1)) {
        Some(child) => child.bound,
        None => &[],
    }
}

/// The high key of a leaf, or the last bound of an inner page; no bytes where it has none. It takes
/// no memory.
pub fn upper(page: &Page) -> &[u8]
    ensures { result.now ≡ upper_in page.now.body }
{
    match &page.body {
        Body::EntryLeaf { high, .. } => high.as_slice(),
        Body::EntryInner(children) => bound_of_last(children),
        _ => &[],
    }
}

/// Whether one child of the greatest size more fits on a page. It takes no memory.
pub fn has_room(page: &Page) -> bool
    requires { length (body_bytes page.now.body) ≤ most_body }
    ensures { IsTrue result ↔ HasRoomForChild page.now }
{
    body_length(page) + LONGEST_CHILD <= MOST_BODY_BYTES
}
