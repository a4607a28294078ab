// What a way is for: a key in the entry tree, or an item in a posting tree.
ghost use Rattle.std.specs.Prelude.{◌≡◌, ◌↔◌, IsTrue};
ghost use Rattle.gin_place.specs.Trees.{root_of, tree_of, IsTreeBody};

use page_types::{Body, Page};

/// The root of the entry tree.
pub(crate) const ROOT: u32 = 1;

/// What is sought, in the tree where it is.
#[derive(Clone, Copy)]
pub(crate) enum Sought {
    /// The key, in the entry tree.
    Key,
    /// This item, in the posting tree with this root, which the key's entry names.
    Item { root: u32, item: u32 },
}

impl Sought {
    /// The root of the tree.
    pub(crate) fn root(self) -> u32
        ensures { result ≡ root_of self }
    {
        match self {
            Sought::Key => ROOT,
            Sought::Item { root, .. } => root,
        }
    }

    /// The root of the posting tree, where an item is sought.
    pub(crate) fn tree(self) -> Option<u32>
        ensures { result ≡ tree_of self }
    {
        match self {
            Sought::Key => None,
            Sought::Item { root, .. } => Some(root),
        }
    }
}

/// Whether it is a page of such a tree.
pub(crate) fn is_tree_page(sought: Sought, page: &Page) -> bool
    ensures { IsTrue result ↔ IsTreeBody sought page.now.body }
{
    match sought {
        Sought::Key => matches!(page.body, Body::EntryLeaf { .. } | Body::EntryInner(_)),
        Sought::Item { .. } => matches!(page.body, Body::PostLeaf { .. } | Body::PostInner(_)),
    }
}
