// What pages of the trees list, member by member, and where two of them differ first.
ghost use Rattle.std.specs.Prelude.{◌≡◌, ◌↔◌, ◌≤◌, true, drop, length};
ghost use Rattle.page_types.specs.Parts.{entry_shown, child_shown};
ghost use Rattle.core_state.specs.Inner.Members.{members_of, IsSameAt, Shared};

use page_types::{
    Entries, EntryChildRef, EntryChildren, EntryRef, PostChild, PostChildren, PostingsRef,
};

/// The members of a page of a tree: a leaf's entries, or an inner page's children.
#[derive(Clone, Copy)]
pub(crate) enum Members<'a> {
    /// Of a leaf of the entry tree.
    Entries(&'a Entries),
    /// Of an inner page of the entry tree.
    Children(&'a EntryChildren),
    /// Of an inner page of a posting tree.
    Posts(&'a PostChildren),
}

/// How many members there are.
pub(crate) fn count(members: Members<'_>) -> usize
    ensures { result ≡ length (members_of members.entry) }
{
    match members {
        Members::Entries(entries) => entries.len(),
        Members::Children(children) => children.len(),
        Members::Posts(children) => children.len(),
    }
}

/// Whether two entries are the same.
fn is_same_entry(a: EntryRef<'_>, b: EntryRef<'_>) -> bool
    ensures { result ≡ true ↔ (entry_shown a.entry ≡ entry_shown b.entry) }
{
    if a.key != b.key {
        return false;
    }
    match (a.postings, b.postings) {
        (PostingsRef::Inline(a), PostingsRef::Inline(b)) => a == b,
        (PostingsRef::Root(a), PostingsRef::Root(b)) => a == b,
        _ => false,
    }
}

/// Whether entries have the same one at these places.
fn is_entry_at(a: &Entries, i: usize, b: &Entries, j: usize) -> bool
    ensures { result ≡ true ↔ IsSameAt a.now i b.now j }
{
    let (Some(x), Some(y)) = (a.get(i), b.get(j)) else {
        return false;
    };
    is_same_entry(x, y)
}

/// Whether children have the same one at these places.
fn is_child_at(a: &EntryChildren, i: usize, b: &EntryChildren, j: usize) -> bool
    ensures { result ≡ true ↔ IsSameAt a.now i b.now j }
{
    let (Some(x), Some(y)) = (a.get(i), b.get(j)) else {
        return false;
    };
    x.page == y.page && x.bound == y.bound
}

/// Whether children of a posting tree have the same one at these places.
fn is_post_at(a: &PostChildren, i: usize, b: &PostChildren, j: usize) -> bool
    ensures { result ≡ true ↔ IsSameAt a.now i b.now j }
{
    let (Some(x), Some(y)) = (a.get(i), b.get(j)) else {
        return false;
    };
    x.page == y.page && x.bound == y.bound
}

/// Whether members are there at these places, and are the same.
fn is_same_at(a: Members<'_>, i: usize, b: Members<'_>, j: usize) -> bool
    ensures { result ≡ true ↔ IsSameAt (members_of a.entry) i (members_of b.entry) j }
{
    match (a, b) {
        (Members::Entries(a), Members::Entries(b)) => is_entry_at(a, i, b, j),
        (Members::Children(a), Members::Children(b)) => is_child_at(a, i, b, j),
        (Members::Posts(a), Members::Posts(b)) => is_post_at(a, i, b, j),
        _ => false,
    }
}

/// How many members are shared, from the first on.
pub(crate) fn shared(a: Members<'_>, b: Members<'_>) -> usize
    ensures { Shared (members_of a.entry) (members_of b.entry) result }
{
    let end = count(a);
    for k in 0..end {
        if !is_same_at(a, k, b, k) {
            return k;
        }
    }
    end
}

/// Whether the members from these places on are the same.
pub(crate) fn go_on(a: Members<'_>, i: usize, b: Members<'_>, j: usize) -> bool
    requires a { i ≤ length (members_of a) }
    requires b { j ≤ length (members_of b) }
    ensures { result ≡ true ↔ (drop i (members_of a.entry) ≡ drop j (members_of b.entry)) }
{
    let left = count(a) - i;
    if left != count(b) - j {
        return false;
    }
    for k in 0..left {
        if !is_same_at(a, i + k, b, j + k) {
            return false;
        }
    }
    true
}
