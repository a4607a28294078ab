// When a record MakeTree or GrowRoot may come next, as far as the record, its pages before and after,
// and the state of the log say.
ghost use Rattle.std.specs.Prelude.{◌≡◌, ◌↔◌, ℕ, List, true, [], ◌∷◌, IfSome, IfNone};
ghost use Rattle.std.specs.List.{All};
ghost use Rattle.page_types.specs.Numbers.{no_bound};
ghost use Rattle.page_types.specs.Pages.{IsPage};
ghost use Rattle.core_state.specs.TreeRules.{IsMakeTreeHere, IsGrowRootHere, OneChild};
ghost use Rattle.core_state.specs.Judging.{Judges};
ghost use Rattle.core_state.specs.States.{use_of};
ghost use Rattle.core_state.specs.Inner.TreePages.{SecondIsNew, BecomesRoot, MakesRoot, SameTree, GrowsRoot};

use crate::members::{Members, go_on, shared};
use crate::state::State;
use crate::tree_items::leaf_left;
use page_types::{
    Body, Entries, EntryChildren, Kind, NO_BOUND, Page, PostChildren, PostingsRef, Record,
    body_length,
};
use std::alloc::AllocError;

/// A page grows or is split only where its body has more bytes than this.
pub(crate) const HALF_BODY: usize = 4084;

/// The second of two pages that a record changes, where it is a new one.
fn second_new(state: &State, rec: &Record, since: u64) -> Option<u32>
    ensures some { IfSome result (λ p. SecondIsNew (use_of state.now.value) since rec.now p) }
    ensures none { IfNone result
        ((p : ℕ) → SecondIsNew (use_of state.now.value) since rec.now p → ⊥) }
{
    let changes = rec.changes.as_slice();
    if changes.len() != 2 {
        return None;
    }
    let page = changes[1].page;
    if !state.is_new(page, since) {
        return None;
    }
    Some(page)
}

/// Whether an entry with this item list becomes one with this root, and the others stay.
fn becomes_root(list: &[u8], root: u32, old: &Entries, new: &Entries) -> bool
    ensures { result ≡ true ↔ BecomesRoot list.now root old.now new.now }
{
    let k = shared(Members::Entries(old), Members::Entries(new));
    let Some(was) = old.get(k) else {
        return false;
    };
    let Some(entry) = new.get(k) else {
        return false;
    };
    let PostingsRef::Inline(items) = was.postings else {
        return false;
    };
    let PostingsRef::Root(page) = entry.postings else {
        return false;
    };
    if k >= old.len() || page != root || items != list || was.key != entry.key {
        return false;
    }
    go_on(Members::Entries(old), k + 1, Members::Entries(new), k + 1)
}

/// Whether a record leaves a leaf of the entry tree with a root in place of an entry's item list, and
/// that list on the leaf of a posting tree.
fn makes_root(rec: &Record, root: u32, old: &Page, new: &Page, leaf: &Page) -> bool
    ensures { result ≡ true ↔ MakesRoot rec.now root old.now new.now leaf.now }
{
    let Some((_, entries, new_entries)) = leaf_left(rec, old, new) else {
        return false;
    };
    let Body::PostLeaf { high, items } = &leaf.body else {
        return false;
    };
    if leaf.right != 0 || leaf.stamp != rec.number || *high != 0 {
        return false;
    }
    becomes_root(items.as_slice(), root, entries, new_entries)
}

/// Whether MakeTree may come next: the item list of an entry of a leaf comes to a new page, a leaf
/// without right link, and the entry has that page as root.
pub fn valid_make_tree(
    state: &State,
    rec: &Record,
    before: &[Page],
    after: &[Page],
    _floor: u32,
    since: u64,
) -> Result<bool, AllocError>
    ensures { Judges (IsMakeTreeHere since) state.now.value rec.now before.now after.now result }
{
    let Kind::MakeTree = rec.kind else {
        return Ok(false);
    };
    let Some(root) = second_new(state, rec, since) else {
        return Ok(false);
    };
    if before.len() != 2 || after.len() != 2 {
        return Ok(false);
    }
    Ok(makes_root(rec, root, &before[0], &after[0], &after[1]))
}

/// Whether this page alone is the child, without bound.
fn is_lone_child(children: &EntryChildren, page: u32) -> bool
    ensures { result ≡ true ↔ (children.now ≡ record { page = page; bound = [] } ∷ []) }
{
    let Some(child) = children.get(0) else {
        return false;
    };
    if children.len() != 1 || child.page != page {
        return false;
    }
    child.bound.is_empty()
}

/// The same of a posting tree.
fn is_lone_post(children: &PostChildren, page: u32) -> bool
    ensures { result ≡ true ↔ (children.now ≡ record { page = page; bound = no_bound } ∷ []) }
{
    let Some(child) = children.get(0) else {
        return false;
    };
    if children.len() != 1 || child.page != page {
        return false;
    }
    child.bound == NO_BOUND
}

/// Whether this page alone becomes the child of a root with this content.
fn is_one_child(page: u32, root: &Body, inner: &Body) -> bool
    ensures { result ≡ true ↔ OneChild page root.now inner.now }
{
    match (root, inner) {
        (Body::EntryLeaf { .. }, Body::EntryInner(children)) => is_lone_child(children, page),
        (Body::EntryInner(_), Body::EntryInner(children)) => is_lone_child(children, page),
        (Body::PostLeaf { .. }, Body::PostInner(children)) => is_lone_post(children, page),
        (Body::PostInner(_), Body::PostInner(children)) => is_lone_post(children, page),
        _ => false,
    }
}

/// Whether two pages of a tree have the same content.
fn is_same_tree(a: &Body, b: &Body) -> bool
    ensures { result ≡ true ↔ SameTree a.now b.now }
{
    match (a, b) {
        (
            Body::EntryLeaf { high, entries },
            Body::EntryLeaf {
                high: other,
                entries: others,
            },
        ) => {
            high.as_slice() == other.as_slice()
                && go_on(Members::Entries(entries), 0, Members::Entries(others), 0)
        }
        (Body::EntryInner(children), Body::EntryInner(others)) => {
            go_on(Members::Children(children), 0, Members::Children(others), 0)
        }
        (
            Body::PostLeaf { high, items },
            Body::PostLeaf {
                high: other,
                items: others,
            },
        ) => high == other && items.as_slice() == others.as_slice(),
        (Body::PostInner(children), Body::PostInner(others)) => {
            go_on(Members::Posts(children), 0, Members::Posts(others), 0)
        }
        _ => false,
    }
}

/// Whether a record leaves a root with a large body as an inner page over this one, and its content on
/// that page.
fn grows_root(rec: &Record, page: u32, old: &Page, root: &Page, moved: &Page) -> bool
    requires { IsPage old.now }
    ensures { result ≡ true ↔ GrowsRoot rec.now page old.now root.now moved.now }
{
    if root.right != old.right || root.stamp != rec.number || body_length(old) <= HALF_BODY {
        return false;
    }
    if moved.right != 0 || moved.stamp != rec.number {
        return false;
    }
    is_one_child(page, &old.body, &root.body) && is_same_tree(&old.body, &moved.body)
}

/// Whether GrowRoot may come next: the content of a page of a tree, which has a large body, moves to a
/// new page without right link, and that becomes its one child.
pub fn valid_grow_root(
    state: &State,
    rec: &Record,
    before: &[Page],
    after: &[Page],
    _floor: u32,
    since: u64,
) -> Result<bool, AllocError>
    requires before { All IsPage before.now }
    ensures { Judges (IsGrowRootHere since) state.now.value rec.now before.now after.now result }
{
    let Kind::GrowRoot = rec.kind else {
        return Ok(false);
    };
    let Some(page) = second_new(state, rec, since) else {
        return Ok(false);
    };
    if before.len() != 2 || after.len() != 2 {
        return Ok(false);
    }
    Ok(grows_root(rec, page, &before[0], &after[0], &after[1]))
}
