// The first child, the greatest item, and the room of a page.
ghost use Rattle.std.specs.Prelude.{◌≡◌, ◌↔◌, ◌≤◌, length, IsTrue};
ghost use Rattle.page_types.specs.Numbers.{most_body};
ghost use Rattle.page_types.specs.Encoding.{body_bytes};
ghost use Rattle.posting_tree.specs.Reading.{first_child_in, upper_in, HasRoomForChild};

use page_types::{Body, MOST_BODY_BYTES, Page, body_length};

/// The bytes of a child: its page and its bound.
const CHILD_BYTES: usize = 4 + 4;

/// The leftmost child of an inner page of a posting tree, none of another page. It takes no memory.
pub fn first_child(page: &Page) -> Option<u32>
    ensures { result ≡ first_child_in page.now.body }
{
    match &page.body {
        Body::PostInner(children) => Some(children.get(0)?.page),
        _ => None,
    }
}

/// The high item of a leaf, 0 where it has none, or the last bound of an inner page. It takes no memory.
pub fn upper(page: &Page) -> u32
    ensures { result ≡ upper_in page.now.body }
{
    match &page.body {
        Body::PostLeaf { high, .. } => *high,
        Body::PostInner(children) => match children.as_slice().last() {
            Some(child) => child.bound,
            None => 0,
        },
        _ => 0,
    }
}

/// Whether one child more fits on a page. It takes no memory.
pub fn has_room(page: &Page) -> bool
    requires { length (body_bytes page.now.body) ≤ most_body }
    ensures { IsTrue result ↔ HasRoomForChild page.now }
{
    body_length(page) + CHILD_BYTES <= MOST_BODY_BYTES
}
