// The root of a tree grows.
ghost use Rattle.std.specs.Prelude.{◌≡◌, ◌↔◌, ℕ, ◌<◌, ◌≤◌, [], ◌∷◌, length, IfOk, IfErr, OnOk, OnErr, IsTrue};
ghost use Rattle.page_types.specs.Encoding.{body_bytes};
ghost use Rattle.page_types.specs.Numbers.{page_limit, most_body};
ghost use Rattle.page_types.specs.Pages.{IsPage};
ghost use Rattle.core_state.specs.TreeRules.{half_body};
ghost use Rattle.buffer_frames.specs.Passes.{IsPassOf};
ghost use Rattle.entry_tree.specs.Growing.{moved_down};
ghost use Rattle.gin_place.specs.Trees.{root_of, root_with, IsTreeBody};
ghost use Rattle.gin_place.specs.Placing.{HasRight, IsRootOf};
ghost use Rattle.gin_place.specs.Going.{WorksOn};
ghost use Rattle.gin_place.specs.Causes.{CanGrow, HadPage};
ghost use Rattle.gin_place.specs.Faults.{MetNoFault, FaultBy};
ghost use Rattle.gin_place.specs.Holding.{ReadsOn};
ghost use Rattle.gin_place.specs.Inner.Dividing.{WhyNotTaken};
ghost use Rattle.gin_place.specs.Inner.Making.{WhyNoRoom};
ghost use Rattle.gin_place.specs.Inner.Logging.{IsGrowStep};

use crate::error::PlaceError;
use crate::holding::{bad_page, hold_new, hold_page};
use crate::logging::{log_two, release, two_step};
use crate::sought::{Sought, is_tree_page};
use buffer_frames::{Frames, Held, Pass, Step};
use disk_trait::Disk;
use entry_tree;
use page_types::{Kind, Page, body_length};
use posting_tree;
use std::alloc::{AllocError, Global};

/// A page grows or is split only where its body has more bytes than this.
const HALF_BODY_BYTES: usize = 4084;

/// Whether it is a page of such a tree whose body is large.
pub(crate) fn is_large(sought: Sought, page: &Page) -> bool
    requires { length (body_bytes page.now.body) ≤ most_body }
    ensures { IsTrue result ↔ (IsTreeBody sought page.now.body
        × (half_body < length (body_bytes page.now.body))) }
{
    is_tree_page(sought, page) && body_length(page) > HALF_BODY_BYTES
}

/// Whether it is a root that may grow: its body is large, and it has no right link.
fn can_grow(sought: Sought, page: &Page) -> bool
    requires { length (body_bytes page.now.body) ≤ most_body }
    ensures { IsTrue result ↔ CanGrow sought page.now }
{
    is_large(sought, page) && page.right == 0
}

/// A root with the new page as its one child, and the new page, which takes the root's content.
fn grown(alloc: Global, sought: Sought, root: &Page, new: u32) -> Result<(Page, Page), AllocError>
    requires { IsTreeBody sought root.now.body }
    ensures root { IfOk result (λ r. r.0 ≡ root_with sought root.now new) }
    ensures moved { IfOk result (λ r. r.1 ≡ moved_down root.now) }
    ensures are_pages { IfOk result (λ r. IsPage root.now → root.now.right ≡ 0 → new < page_limit
        → IsPage r.0 × IsPage r.1) }
{
    match sought {
        Sought::Key => entry_tree::grow(alloc, root, new),
        Sought::Item { .. } => posting_tree::grow(alloc, root, new),
    }
}

/// The step by which the root of a tree grows over a new page, where it may.
fn grow_step(alloc: Global, sought: Sought, root: &Held, new: &Held) -> Result<Step, PlaceError>
    ensures step { IfOk result (IsGrowStep sought root.now new.now) }
    ensures can { OnOk result (CanGrow sought root.now.content) }
    ensures low { OnOk result ((root.now.page < page_limit) × (new.now.page < page_limit)) }
    ensures cause { IfErr result (WhyNotTaken (CanGrow sought) root.now) }
{
    let page = root.page();
    if !can_grow(sought, page) {
        return Err(bad_page(root));
    }
    let (inner, moved) = grown(alloc, sought, page, new.number())?;
    Ok(two_step(alloc, Kind::GrowRoot, (root, inner), (new, moved))?)
}

/// The root of the tree where something is sought grows: its content moves to a new page, which becomes
/// its one child.
pub(crate) fn grow_root<D: Disk>(
    alloc: Global,
    frames: &mut Frames<D>,
    pass: &mut Pass,
    sought: Sought,
) -> Result<(), PlaceError>
    requires pass { IsPassOf frames.old pass.old }
    requires right { HasRight pass.old }
    requires none { pass.old.held ≡ 0 }
    requires root { IsRootOf D.Disk frames.old pass.old sought }
    ensures none_held { pass.new.held ≡ 0 }
    ensures grown { OnOk result
        (WorksOn D.Disk frames.old pass.old frames.new pass.new (16 ∷ [])) }
    ensures took { OnOk result (HadPage D.Disk frames.old pass.old) }
    ensures refused { OnErr result (ReadsOn D.Disk frames.old pass.old frames.new pass.new) }
    ensures cause { (parent : ℕ)
        → IfErr result (WhyNoRoom D.Disk sought frames.old pass.old parent (root_of sought) frames.new) }
    ensures fine { OnOk result (MetNoFault D.Disk frames.old frames.new) }
    ensures fault { IfErr result (λ e. FaultBy D.Disk frames.old frames.new e) }
{
    entry_tree::pages_may_be_logged();
    posting_tree::pages_may_be_logged();
    let root = hold_page(frames, pass, sought.root())?;
    let new = match hold_new(frames, pass) {
        Ok(new) => new,
        Err(error) => {
            release(frames, pass, root);
            return Err(error);
        }
    };
    match grow_step(alloc, sought, &root, &new) {
        Ok(step) => log_two(alloc, frames, pass, root, new, step),
        Err(error) => {
            release(frames, pass, new);
            release(frames, pass, root);
            Err(error)
        }
    }
}
