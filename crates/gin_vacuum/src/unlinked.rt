// Which dead items no row of the pending list has.
ghost use Rattle.std.specs.Prelude.{◌≡◌, ◌≢◌, ℕ, suc, ◌<◌, List, [], Option, IfSome, IfNone, IfOk, IfErr};
ghost use Rattle.std.specs.Prelude.{OnOk};
ghost use Rattle.page_types.specs.declared.page.Body.TheVariants as body;
ghost use Rattle.buffer_frames.specs.Passes.{IsPassOf};
ghost use Rattle.gin_place.specs.Placing.{HasRight};
ghost use Rattle.gin_place.specs.Causes.{Finds, NoBadPage};
ghost use Rattle.gin_place.specs.Faults.{MetNoFault, FaultBy};
ghost use Rattle.gin_place.specs.Holding.{ReadsOn};
ghost use Rattle.gin_vacuum.specs.Vacuum.{HaveDeadHeads};
ghost use Rattle.gin_vacuum.specs.Unlinked.{AreUnlinked, IsMetaPage, CannotList};
ghost use Rattle.gin_vacuum.specs.Inner.Unlinked.{HaveMet, AreOthers, IsWalk, HasNoted};

use buffer_frames::{Frames, Pass};
use disk_trait::Disk;
use gin_place::{PlaceError, hold_seen, release};
use page_types::{Body, Page, Rows};
use posting_code::ItemSet;
use std::alloc::{AllocError, Global};

/// The page that names the first page of the pending list.
const META_PAGE: u32 = 0;

/// A walk over the pending list.
#[derive(Drop)]
pub(crate) struct Walk {
    // the page that is read next, 0 where there is none
    pub(crate) page: u32,
    // how many of the pages are left that the list had when the walk began
    pub(crate) left: u32,
    // the dead items of the rows that were read
    pub(crate) met: Vec<u32>,
}

/// The first page that the metapage names, and how many there are.
fn first_of(meta: &Page) -> Option<(u32, u32)>
    ensures some { IfSome result (λ r. (last : ℕ) × (meta.now.body ≡ body.Meta r.0 last r.1)) }
    ensures none { IfNone result (IsMetaPage meta.now → ⊥) }
{
    match meta.body {
        Body::Meta { first, pages, .. } => Some((first, pages)),
        _ => None,
    }
}

/// The items of the set that these rows have come after the others.
fn note_rows(rows: &Rows, dead: &ItemSet, met: &mut Vec<u32>) -> Result<(), AllocError>
    ensures { OnOk result (HaveMet rows.now dead.now met.old.items met.new.items) }
{
    for k in 0..rows.len() {
        if let Some(row) = rows.get(k) {
            if dead.has(row.item) {
                met.push(row.item)?;
            }
        }
    }
    Ok(())
}

/// The items of the set but these.
fn left_out(alloc: Global, dead: &ItemSet, mut met: Vec<u32>) -> Result<ItemSet, AllocError>
    ensures { IfOk result (AreOthers dead.now met.items) }
{
    met.sort_unstable();
    let mut items = Vec::new(alloc);
    for item in dead.items() {
        if met.binary_search(item).is_err() {
            items.push(*item)?;
        }
    }
    Ok(ItemSet::new(items))
}

impl Walk {
    /// All pages of the list are to be read.
    fn begin<D: Disk>(
        alloc: Global,
        frames: &mut Frames<D>,
        pass: &mut Pass,
    ) -> Result<Walk, PlaceError>
        requires pass { IsPassOf frames.old pass.old }
        requires right { HasRight pass.old }
        requires none { pass.old.held ≡ 0 }
        ensures walk { IfOk result (λ w. (dead : List ℕ) → HaveDeadHeads D.Disk frames.old pass.old dead
            → IsWalk D.Disk frames.new pass.new pass.old.seen pass.old.floor dead w) }
        ensures reads { ReadsOn D.Disk frames.old pass.old frames.new pass.new }
        ensures none_held { pass.new.held ≡ 0 }
        ensures cause { IfErr result (λ e. Finds D.Disk frames.old pass.old
            (CannotList D.Disk frames.new e)) }
        ensures fine { OnOk result (MetNoFault D.Disk frames.old frames.new) }
        ensures fault { IfErr result (λ e. FaultBy D.Disk frames.old frames.new e) }
    {
        let (meta, _) = hold_seen(frames, pass, META_PAGE)?;
        let named = first_of(meta.page());
        release(frames, pass, meta);
        let Some((page, left)) = named else {
            return Err(PlaceError::BadPage { page: META_PAGE });
        };
        Ok(Walk {
            page,
            left,
            met: Vec::new(alloc),
        })
    }

    /// Notes the items of the set that a page's rows have, and which page is read after it. False where it is no
    /// page of rows.
    fn note(&mut self, content: &Page, dead: &ItemSet) -> Result<bool, AllocError>
        requires { 0 < self.old.left }
        ensures { IfOk result (HasNoted content.now dead.now self.old self.new) }
    {
        let Body::Pending(rows) = &content.body else {
            return Ok(false);
        };
        note_rows(rows, dead, &mut self.met)?;
        self.page = content.right;
        self.left -= 1;
        Ok(true)
    }

    /// Reads the next page of the list.
    fn read<D: Disk>(
        &mut self,
        frames: &mut Frames<D>,
        pass: &mut Pass,
        dead: &ItemSet,
    ) -> Result<(), PlaceError>
        requires pass { IsPassOf frames.old pass.old }
        requires right { HasRight pass.old }
        requires none { pass.old.held ≡ 0 }
        requires left { 0 < self.old.left }
        requires some { self.old.page ≢ 0 }
        requires walk { (from floor : ℕ) × IsWalk D.Disk frames.old pass.old from floor dead.now self.old }
        ensures walk { OnOk result ((from floor : ℕ)
            → IsWalk D.Disk frames.old pass.old from floor dead.now self.old
            → IsWalk D.Disk frames.new pass.new from floor dead.now self.new) }
        ensures lower { OnOk result (suc self.new.left ≡ self.old.left) }
        ensures reads { ReadsOn D.Disk frames.old pass.old frames.new pass.new }
        ensures none_held { pass.new.held ≡ 0 }
        ensures cause { IfErr result (λ e. Finds D.Disk frames.old pass.old
            (CannotList D.Disk frames.new e)) }
        ensures fine { OnOk result (MetNoFault D.Disk frames.old frames.new) }
        ensures fault { IfErr result (λ e. FaultBy D.Disk frames.old frames.new e) }
    {
        let page = self.page;
        let (held, _) = hold_seen(frames, pass, page)?;
        let noted = self.note(held.page(), dead);
        release(frames, pass, held);
        match noted {
            Ok(true) => Ok(()),
            Ok(false) => Err(PlaceError::BadPage { page }),
            Err(_) => Err(PlaceError::OutOfMemory),
        }
    }
}

/// Those of these items that no linked row has. Of no items nothing is read.
pub fn without_rows<D: Disk>(
    alloc: Global,
    frames: &mut Frames<D>,
    pass: &mut Pass,
    dead: &ItemSet,
) -> Result<ItemSet, PlaceError>
    requires pass { IsPassOf frames.old pass.old }
    requires right { HasRight pass.old }
    requires none { pass.old.held ≡ 0 }
    requires dead { HaveDeadHeads D.Disk frames.old pass.old dead.now }
    ensures unlinked { IfOk result (λ s. AreUnlinked D.Disk frames.new pass.new pass.old.seen dead.now s) }
    ensures dead { HaveDeadHeads D.Disk frames.new pass.new dead.now }
    ensures nothing { dead.now ≡ [] → (frames.new ≡ frames.old) × (pass.new ≡ pass.old) }
    ensures reads { ReadsOn D.Disk frames.old pass.old frames.new pass.new }
    ensures none_held { pass.new.held ≡ 0 }
    ensures cause { IfErr result (λ e. Finds D.Disk frames.old pass.old
        (CannotList D.Disk frames.new e)) }
    ensures lawful { IfErr result (NoBadPage D.Disk frames.old) }
    ensures fine { OnOk result (MetNoFault D.Disk frames.old frames.new) }
    ensures fault { IfErr result (λ e. FaultBy D.Disk frames.old frames.new e) }
{
    if dead.items().is_empty() {
        return Ok(ItemSet::new(Vec::new(alloc)));
    }
    let mut walk = Walk::begin(alloc, frames, pass)?;
    while walk.left > 0 && walk.page != 0 {
        walk.read(frames, pass, dead)?;
    }
    Ok(left_out(alloc, dead, walk.met)?)
}
