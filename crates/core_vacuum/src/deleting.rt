// When a record DeletePost may come next, as far as the record, and its pages before and after say.
ghost use Rattle.std.specs.Prelude.{◌≡◌, ◌↔◌, ◌++◌, ◌<◌, suc, true, length, take, drop};
ghost use Rattle.core_state.specs.TreeRules.{IsDeletePostHere};
ghost use Rattle.core_state.specs.Judging.{Judges};
ghost use Rattle.core_vacuum.specs.Inner.Deleting.{LeavesDeleted, LosesChild, LeavesParent, LinksPast};

use core_state::State;
use page_types::{Body, Gone, Kind, Page, PostChild, Record};
use std::alloc::AllocError;

/// Whether a record leaves an empty leaf of a posting tree deleted.
fn leaves_deleted(rec: &Record, old: &Page, new: &Page) -> bool
    ensures { result ≡ true ↔ LeavesDeleted rec.now old.now new.now }
{
    let Body::PostLeaf { high, items } = &old.body else {
        return false;
    };
    let Body::Deleted(gone) = &new.body else {
        return false;
    };
    let Gone::PostLeaf {
        high: kept,
        items: left,
    } = gone
    else {
        return false;
    };
    if new.right != old.right || new.stamp != rec.number || kept != high {
        return false;
    }
    items.as_slice().is_empty() && left.as_slice().is_empty()
}

/// Whether these are the children but the one with this number.
fn are_others(children: &[PostChild], k: usize, new: &[PostChild]) -> bool
    requires { k < length children.now }
    ensures { result ≡ true ↔ (new.now ≡ take k children.now ++ drop (suc k) children.now) }
{
    if new.len() != children.len() - 1 {
        return false;
    }
    for j in 0..new.len() {
        let was = if j < k { children[j] } else { children[j + 1] };
        let now = new[j];
        if now.page != was.page || now.bound != was.bound {
            return false;
        }
    }
    true
}

/// Whether children lose the page, which isn't the last of them.
fn loses_child(children: &[PostChild], page: u32, new: &[PostChild]) -> bool
    ensures { result ≡ true ↔ LosesChild page children.now new.now }
{
    for next in 1..children.len() {
        let k = next - 1;
        if children[k].page == page && are_others(children, k, new) {
            return true;
        }
    }
    false
}

/// Whether a record leaves a parent without the page.
fn leaves_parent(rec: &Record, page: u32, old: &Page, new: &Page) -> bool
    ensures { result ≡ true ↔ LeavesParent rec.now page old.now new.now }
{
    let Body::PostInner(children) = &old.body else {
        return false;
    };
    let Body::PostInner(new_children) = &new.body else {
        return false;
    };
    if new.right != old.right || new.stamp != rec.number {
        return false;
    }
    loses_child(children.as_slice(), page, new_children.as_slice())
}

/// Whether a record leaves a leaf, whose right link was the page, with this right link.
fn links_past(rec: &Record, page: u32, to: u32, old: &Page, new: &Page) -> bool
    ensures { result ≡ true ↔ LinksPast rec.now page to old.now new.now }
{
    let Body::PostLeaf { high, items } = &old.body else {
        return false;
    };
    let Body::PostLeaf {
        high: new_high,
        items: new_items,
    } = &new.body
    else {
        return false;
    };
    if old.right != page || new.right != to || new.stamp != rec.number || new_high != high {
        return false;
    }
    items.as_slice() == new_items.as_slice()
}

/// Whether DeletePost may come next: an empty leaf of a posting tree is deleted, its parent, of which it
/// isn't the last child, loses it, and a leaf before it leads on to the leaf after it.
pub fn valid_delete_post(
    state: &State,
    rec: &Record,
    before: &[Page],
    after: &[Page],
    _floor: u32,
    _since: u64,
) -> Result<bool, AllocError>
    ensures { Judges IsDeletePostHere state.now.value rec.now before.now after.now result }
{
    let Kind::DeletePost = rec.kind else {
        return Ok(false);
    };
    let changes = rec.changes.as_slice();
    let count = changes.len();
    if before.len() != count || after.len() != count || count < 2 || count > 3 {
        return Ok(false);
    }
    let (page, last) = (changes[0].page, count - 1);
    let (old, new) = (&before[0], &after[0]);
    if !leaves_deleted(rec, old, new) {
        return Ok(false);
    }
    if !leaves_parent(rec, page, &before[last], &after[last]) {
        return Ok(false);
    }
    if count == 2 {
        return Ok(true);
    }
    Ok(links_past(rec, page, old.right, &before[1], &after[1]))
}
