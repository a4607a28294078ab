// A key's list becomes a posting tree.
ghost use Rattle.std.specs.Prelude.{◌≡◌, ℕ, ◌<◌, List, [], ◌∷◌, Some, IfOk, IfErr, IfSome, IfNone, OnOk, OnErr};
ghost use Rattle.std.specs.List.{slice_get};
ghost use Rattle.page_types.specs.Numbers.{page_limit};
ghost use Rattle.page_types.specs.Views.{entries_in};
ghost use Rattle.entry_tree.specs.Adding.{list_entry};
ghost use Rattle.buffer_frames.specs.Passes.{IsPassOf, IsHolding};
ghost use Rattle.gin_place.specs.Placing.{HasRight, IsOnWay};
ghost use Rattle.gin_place.specs.Going.{WorksOn};
ghost use Rattle.gin_place.specs.Causes.{Finds, IsBadNew, HadPage, IsWhy};
ghost use Rattle.gin_place.specs.Faults.{MetNoFault, FaultBy};
ghost use Rattle.gin_place.specs.Holding.{ReadsOn};
ghost use Rattle.gin_place.specs.Inner.Logging.{IsTreeStep};
ghost use Rattle.gin_place.specs.Inner.Reading.{IsLongAt};
ghost use Rattle.gin_place.specs.declared.sought.Sought.TheVariants as soughts;

use crate::error::PlaceError;
use crate::holding::hold_new;
use crate::logging::{log_two, release, two_step};
use buffer_frames::{Frames, Held, Pass, Step};
use disk_trait::Disk;
use entry_tree::root_at;
use page_types::{Body, Kind, Page, PostingsRef};
use posting_tree::{leaf, pages_may_be_logged};
use std::alloc::{AllocError, Global};

/// The list of the entry with this number.
fn list_at(page: &Page, place: usize) -> Option<&[u8]>
    ensures some { IfSome result (λ list. (key : List ℕ)
        × (slice_get (entries_in page.now.body) place ≡ Some (list_entry key list.now))) }
    ensures none { IfNone result ((key list : List ℕ)
        → slice_get (entries_in page.now.body) place ≡ Some (list_entry key list) → ⊥) }
{
    let Body::EntryLeaf { entries, .. } = &page.body else {
        return None;
    };
    match entries.get(place)?.postings {
        PostingsRef::Inline(list) => Some(list),
        PostingsRef::Root(_) => None,
    }
}

/// The step by which the list of the entry with this number becomes the one leaf of a posting tree on a
/// new page, which the entry names then.
fn tree_step(alloc: Global, held: &Held, place: usize, new: &Held) -> Result<Step, AllocError>
    requires { (key : List ℕ) × IsLongAt held.now.content key place }
    ensures step { IfOk result (IsTreeStep place held.now new.now) }
    ensures low { OnOk result ((held.now.page < page_limit) × (new.now.page < page_limit)) }
{
    let page = held.page();
    let Some(list) = list_at(page, place) else {
        unreachable!()
    };
    let Some(named) = root_at(page, place, new.number())? else {
        unreachable!()
    };
    match leaf(alloc, list) {
        Ok(tree) => two_step(alloc, Kind::MakeTree, (held, named), (new, tree)),
        Err(error) => {
            drop(named);
            Err(error)
        }
    }
}

/// A key's list becomes a posting tree; the page that is held, with the key's entry, is given back. The
/// answer is the tree's root.
pub(crate) fn make_tree<D: Disk>(
    alloc: Global,
    frames: &mut Frames<D>,
    pass: &mut Pass,
    held: Held,
    place: usize,
) -> Result<u32, PlaceError>
    requires pass { IsPassOf frames.old pass.old }
    requires right { HasRight pass.old }
    requires holding { IsHolding D.Disk frames.old pass.old (held ∷ []) }
    requires long { (key : List ℕ) × IsLongAt held.content key place }
    ensures none_held { pass.new.held ≡ 0 }
    ensures works { OnOk result
        (WorksOn D.Disk frames.old pass.old frames.new pass.new (14 ∷ [])) }
    ensures named { IfOk result (λ root. (key : List ℕ) (item : ℕ) → IsLongAt held.content key place
        → IsOnWay D.Disk frames.new pass.new key (soughts.Item root item) root) }
    ensures took { OnOk result (HadPage D.Disk frames.old pass.old) }
    ensures refused { OnErr result (ReadsOn D.Disk frames.old pass.old frames.new pass.new) }
    ensures cause { IfErr result (λ e. Finds D.Disk frames.old pass.old
        (IsWhy D.Disk IsBadNew frames.new e)) }
    ensures fine { OnOk result (MetNoFault D.Disk frames.old frames.new) }
    ensures fault { IfErr result (λ e. FaultBy D.Disk frames.old frames.new e) }
{
    pages_may_be_logged();
    let new = match hold_new(frames, pass) {
        Ok(new) => new,
        Err(error) => {
            release(frames, pass, held);
            return Err(error);
        }
    };
    let root = new.number();
    match tree_step(alloc, &held, place, &new) {
        Ok(step) => {
            log_two(alloc, frames, pass, held, new, step)?;
            Ok(root)
        }
        Err(_) => {
            release(frames, pass, new);
            release(frames, pass, held);
            Err(PlaceError::OutOfMemory)
        }
    }
}
