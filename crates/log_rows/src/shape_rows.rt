// The rows of the kinds 16, 17 and 19: trees grow, pages are split, empty leaves are deleted.
use crate::cuts::{may_cut_at, members};
use crate::parts::{Divider, are_halves, divider_of};
use crate::sizes::{HALF_BODY, tree_body};
use crate::step::{Changed, LEFT, RIGHT, Step};
use log_walks::{
    Fault, PlainBody, PlainChild, PlainEntry, PlainPage, ROOT, Rules, Store, entries_in, must,
    need, post_leaf_in, root_of,
};
use page_types::{NO_BOUND, PostChild};

/// Whether one of the entries names the root.
fn one_names(entries: &[PlainEntry], root: u32) -> bool {
    for entry in entries {
        if root_of(entry) == Some(root) {
            return true;
        }
    }
    false
}

/// Whether the page is a root: that of the tree of keys, or one that an entry names.
fn is_root(store: &Store, page: u32) -> bool {
    for leaf in store.pages() {
        if one_names(entries_in(leaf.shown.live()), page) {
            return true;
        }
    }
    page == ROOT
}

/// Whether this page of the tree of keys is the only child, without bound.
fn is_only_key_child(children: &[PlainChild], page: u32) -> bool {
    match children {
        [child] => child.page == page && child.bound.is_empty(),
        _ => false,
    }
}

/// Whether this page of a posting tree is the only child, without bound.
fn is_only_item_child(children: &[PostChild], page: u32) -> bool {
    match children {
        [child] => child.page == page && child.bound == NO_BOUND,
        _ => false,
    }
}

/// Whether this is on a page of the tree of keys.
fn is_of_keys(body: &PlainBody) -> bool {
    matches!(body, PlainBody::EntryLeaf { .. } | PlainBody::EntryInner(_))
}

/// Whether the root has become an inner page of the tree with this content, whose one child is the page.
fn has_one_child(root: Changed<'_>, body: &PlainBody, page: u32) -> bool {
    match root.left.live() {
        Some(PlainBody::EntryInner(all)) => is_of_keys(body) && is_only_key_child(all, page),
        Some(PlainBody::PostInner(all)) => !is_of_keys(body) && is_only_item_child(all, page),
        _ => false,
    }
}

/// What was on a tree page whose body has more than 4084 bytes.
fn large_body<'a>(page: Changed<'a>) -> Option<&'a PlainBody> {
    match page.was_live() {
        Some(body) if tree_body(body) > HALF_BODY => Some(body),
        _ => None,
    }
}

/// 16 GrowRoot, of a page that may be no root: its body has more than 4084 bytes; it moves to the new page, which
/// becomes the page's one child, without bound.
pub(crate) fn grow_root_here(step: &Step<'_>) -> Result<(), Fault> {
    let (root, new) = step.two()?;
    let body = need(
        large_body(root),
        "the body of a tree's page has more than 4084 bytes",
    )?;
    step.is_new(new)
        .and(root.keeps_right(), RIGHT)
        .and(has_one_child(root, body, new.page), LEFT)
        .then(new.becomes(0, body))
        .end()
}

/// 16 GrowRoot: besides, the page is a root.
pub(crate) fn grow_root(step: &Step<'_>) -> Result<(), Fault> {
    grow_root_here(step)?;
    let (root, _) = step.two()?;
    must(is_root(step.store, root.page), "it changes a root")
}

/// A page that was split.
#[derive(Clone, Copy)]
struct Halves<'a> {
    /// The page.
    page: u32,
    /// The new page.
    new: u32,
    /// What divides them.
    divider: Divider<'a>,
}

/// How many of the children are this page.
fn times_in_keys(children: &[PlainChild], page: u32) -> usize {
    let mut times = 0usize;
    for child in children {
        if child.page == page {
            times = times.saturating_add(1);
        }
    }
    times
}

/// The same of a posting tree.
fn times_in_items(children: &[PostChild], page: u32) -> usize {
    let mut times = 0usize;
    for child in children {
        if child.page == page {
            times = times.saturating_add(1);
        }
    }
    times
}

/// Whether the old child, which was split, became the page with this bound and the new one with its own.
fn is_key_split(old: &PlainChild, news: (&PlainChild, &PlainChild), halves: Halves<'_>) -> bool {
    let (page, new) = news;
    page.page == halves.page
        && new.page == halves.new
        && halves.divider.is_key(&page.bound)
        && new.bound == old.bound
}

/// The children after what became of the old one; none where that is something else.
fn behind_key_child<'a>(
    old: &PlainChild,
    left: &'a [PlainChild],
    halves: Halves<'_>,
) -> Option<&'a [PlainChild]> {
    match left {
        [page, new, rest @ ..] if old.page == halves.page => {
            if is_key_split(old, (page, new), halves) {
                Some(rest)
            } else {
                None
            }
        }
        [same, rest @ ..] if old.page != halves.page && same == old => Some(rest),
        _ => None,
    }
}

/// The children after what became of the old ones, of which the page was one.
fn behind_key_children<'a>(
    was: &[PlainChild],
    left: &'a [PlainChild],
    halves: Halves<'_>,
) -> Option<&'a [PlainChild]> {
    let mut rest = left;
    for old in was {
        rest = behind_key_child(old, rest, halves)?;
    }
    Some(rest)
}

/// Whether the page is one child, and the new one comes after it and takes its bound.
fn key_children_split(was: &[PlainChild], left: &[PlainChild], halves: Halves<'_>) -> bool {
    let split = matches!(behind_key_children(was, left, halves), Some([]));
    split && times_in_keys(was, halves.page) == 1
}

/// Whether the old child of a posting tree, which was split, became the page with this bound and the new one with its
/// own.
fn is_item_split(old: &PostChild, news: (&PostChild, &PostChild), halves: Halves<'_>) -> bool {
    let (page, new) = news;
    page.page == halves.page
        && new.page == halves.new
        && halves.divider.is_item(page.bound)
        && new.bound == old.bound
}

/// The children after what became of the old one; none where that is something else.
fn behind_item_child<'a>(
    old: &PostChild,
    left: &'a [PostChild],
    halves: Halves<'_>,
) -> Option<&'a [PostChild]> {
    match left {
        [page, new, rest @ ..] if old.page == halves.page => {
            if is_item_split(old, (page, new), halves) {
                Some(rest)
            } else {
                None
            }
        }
        [same, rest @ ..] if old.page != halves.page && same == old => Some(rest),
        _ => None,
    }
}

/// The children after what became of the old ones, of which the page was one.
fn behind_item_children<'a>(
    was: &[PostChild],
    left: &'a [PostChild],
    halves: Halves<'_>,
) -> Option<&'a [PostChild]> {
    let mut rest = left;
    for old in was {
        rest = behind_item_child(old, rest, halves)?;
    }
    Some(rest)
}

/// Whether the page is one child, and the new one comes after it and takes its bound.
fn item_children_split(was: &[PostChild], left: &[PostChild], halves: Halves<'_>) -> bool {
    let split = matches!(behind_item_children(was, left, halves), Some([]));
    split && times_in_items(was, halves.page) == 1
}

/// Whether the new page comes into the parent, an inner page of the same tree.
fn parent_splits(was: &PlainBody, left: &PlainBody, halves: Halves<'_>) -> bool {
    match (was, left) {
        (PlainBody::EntryInner(was), PlainBody::EntryInner(left)) => {
            key_children_split(was, left, halves)
        }
        (PlainBody::PostInner(was), PlainBody::PostInner(left)) => {
            item_children_split(was, left, halves)
        }
        _ => false,
    }
}

/// The parent keeps its right link, and gets the new page.
fn parent_gets(parent: Changed<'_>, halves: Halves<'_>) -> Rules {
    let gets = match (parent.was_live(), parent.left.live()) {
        (Some(was), Some(left)) => parent_splits(was, left, halves),
        _ => false,
    };
    Rules::new()
        .and(parent.keeps_right(), RIGHT)
        .and(gets, "the parent gets the new page after the page")
}

/// The page's content was split into what is on the page and on the new one.
fn is_halved(body: &PlainBody, page: Changed<'_>, new: Changed<'_>) -> Rules {
    let front = &page.left.body;
    Rules::new()
        .and(!page.left.deleted && !new.left.deleted, LEFT)
        .and(
            are_halves(body, front, &new.left.body),
            "the two pages hold the content",
        )
        .and(
            may_cut_at(body, members(front)),
            "the first part has the right length",
        )
}

/// The page leads to the new one, which takes its right link.
fn links_new(page: Changed<'_>, new: Changed<'_>) -> Rules {
    Rules::new()
        .and(page.leads_to(new.page), RIGHT)
        .and(new.leads_to(page.right_before()), RIGHT)
}

/// The page and the new one, as the parent has them.
fn halves_of<'a>(page: Changed<'a>, new: Changed<'_>) -> Halves<'a> {
    Halves {
        page: page.page,
        new: new.page,
        divider: divider_of(&page.left.body),
    }
}

/// 17 Split: the page's body has more than 4084 bytes; it keeps a first part with at least half of the bytes where both
/// parts then fit, else the longest that fits, and no part is empty; the new page takes the rest, the right link, and
/// the bound and the place after the page in its parent.
pub(crate) fn split(step: &Step<'_>) -> Result<(), Fault> {
    let (page, new, parent) = step.three()?;
    let body = need(
        large_body(page),
        "the body of a tree's page has more than 4084 bytes",
    )?;
    step.is_new(new)
        .then(is_halved(body, page, new))
        .then(links_new(page, new))
        .then(parent_gets(parent, halves_of(page, new)))
        .end()
}

/// Whether the page is a child, and not the last one.
fn is_before_last(children: &[PostChild], page: u32) -> bool {
    match children.last() {
        Some(last) => last.page != page && times_in_items(children, page) > 0,
        None => false,
    }
}

/// Whether these are the old children but the page.
fn others_stay(olds: &[PostChild], news: &[PostChild], page: u32) -> bool {
    let mut rest = news;
    for old in olds {
        match rest {
            _ if old.page == page => {}
            [new, others @ ..] if new == old => rest = others,
            _ => return false,
        }
    }
    rest.is_empty()
}

/// The parent keeps its right link, and loses the leaf, which isn't its last child.
fn parent_loses(parent: Changed<'_>, page: u32) -> Rules {
    let loses = match (parent.was_live(), parent.left.live()) {
        (Some(PlainBody::PostInner(was)), Some(PlainBody::PostInner(left))) => {
            is_before_last(was, page) && others_stay(was, left, page)
        }
        _ => false,
    };
    Rules::new()
        .and(parent.keeps_right(), RIGHT)
        .and(loses, "the parent loses the leaf, not its last child")
}

/// Whether this is the left leaf of a page of a posting tree.
fn is_left(other: &PlainPage, page: u32) -> bool {
    other.right == page && post_leaf_in(other.live()).is_some()
}

/// Whether a page of a posting tree has a left leaf.
fn has_left(store: &Store, page: u32) -> bool {
    for other in store.pages() {
        if is_left(&other.shown, page) {
            return true;
        }
    }
    false
}

/// Whether the changed page was the left leaf.
fn was_left(left: Changed<'_>, page: u32) -> bool {
    match left.was {
        Some(was) => is_left(was, page),
        None => false,
    }
}

/// The left leaf, whose right link becomes the leaf's.
fn left_links(left: Changed<'_>, leaf: Changed<'_>) -> Rules {
    Rules::new()
        .and(was_left(left, leaf.page), "it changes the left leaf")
        .and(left.leads_to(leaf.left.right), RIGHT)
        .and(left.keeps_body(), LEFT)
}

/// The pages after the leaf: the left leaf, if it is changed, and the parent.
fn beside_leaves(step: &Step<'_>, leaf: Changed<'_>) -> Rules {
    match step.left {
        [_, parent] => parent_loses(step.changed(parent), leaf.page),
        [_, left, parent] => {
            parent_loses(step.changed(parent), leaf.page).then(left_links(step.changed(left), leaf))
        }
        _ => Rules::new().and(false, "it changes two pages or three"),
    }
}

/// 19 DeletePost, where the left leaf may be left out: the leaf is empty and not its parent's last child; the left
/// leaf's right link becomes the leaf's, the parent loses the leaf with its bound, and the leaf becomes Deleted.
pub(crate) fn delete_post_here(step: &Step<'_>) -> Result<(), Fault> {
    let leaf = step.first()?;
    let was = need(post_leaf_in(leaf.was_live()), "it changes a posting leaf")?;
    leaf.is_deleted()
        .and(was.items.is_empty(), "the leaf is empty")
        .then(beside_leaves(step, leaf))
        .end()
}

/// 19 DeletePost: so it is, and the left leaf, where there is one, is changed.
pub(crate) fn delete_post(step: &Step<'_>) -> Result<(), Fault> {
    delete_post_here(step)?;
    let leaf = step.first()?;
    let left_out = step.left.len() == 2 && has_left(step.store, leaf.page);
    Rules::new()
        .and(!left_out, "the left leaf is changed")
        .end()
}
