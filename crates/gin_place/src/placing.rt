// Items are put under a key, step by step.
ghost use Rattle.std.specs.Prelude.{◌≡◌, ℕ, ◌+◌, ◌<◌, ◌≤◌, List, [], ◌∷◌, length, take, drop, IsTrue, false};
ghost use Rattle.std.specs.Prelude.{IfOk, IfErr, OnOk, OnErr};
ghost use Rattle.page_types.specs.Items.{AreItems};
ghost use Rattle.page_types.specs.Keys.{IsKey};
ghost use Rattle.page_types.specs.Pages.{IsPage};
ghost use Rattle.wal.specs.Waiting.{down_of};
ghost use Rattle.buffer_frames.specs.Frames.{Lies, Behind};
ghost use Rattle.buffer_frames.specs.Passes.{IsPassOf, IsHolding, Seen};
ghost use Rattle.gin_place.specs.Placing.{HasRight, IsRootOf, IsLeft, IsNext, ArePending, ArePlaced, IsOnWay};
ghost use Rattle.gin_place.specs.Placing.{IsPlacing, at_root};
ghost use Rattle.gin_place.specs.Going.{WorksOn};
ghost use Rattle.gin_place.specs.Causes.{Meets, Finds, IsBad, IsBadIn, NoBadPage, HadPage, IsWhy, CannotLog};
ghost use Rattle.gin_place.specs.Faults.{MetNoFault, FaultBy};
ghost use Rattle.gin_place.specs.Holding.{ReadsOn};
ghost use Rattle.gin_place.specs.Inner.Logging.{AddsInTree};
ghost use Rattle.gin_place.specs.Inner.Making.{WhyNoRoom};
ghost use Rattle.gin_place.specs.Inner.ReadingItems.{IsReadingIn, IsFullLeafIn};
ghost use Rattle.gin_place.specs.Inner.Reading.{IsRoomy};
ghost use Rattle.gin_place.specs.Stepping.{reads_left, HasStepped};
ghost use Rattle.gin_place.specs.declared.reading.Next.TheVariants as nexts;
ghost use Rattle.gin_place.specs.declared.sought.Sought.{Sought as SoughtValue};
ghost use Rattle.gin_place.specs.declared.sought.Sought.TheVariants as soughts;
ghost use Rattle.gin_place.specs.Inner.Stepping.{HoldsAt, Seeks, Puts, GoesOn, kind_by, adding_kind};
ghost use Rattle.gin_place.specs.declared.placing.Stage.TheVariants as stages;
ghost use Rattle.gin_place.specs.declared.reading.Reading.TheVariants as readings;

use crate::error::PlaceError;
use crate::growing::grow_root;
use crate::holding::hold_seen;
use crate::logging::{log_one, one_step, release};
use crate::postings::read_postings;
use crate::reading::{Next, Reading, read_entries};
use crate::rooting::make_tree;
use crate::sought::{ROOT, Sought};
use crate::splitting::split_page;
use buffer_frames::{Frames, Held, Pass};
use core_maintenance::added_items_are_main;
use disk_trait::Disk;
use gin_opclass::{CompareKeys, Judge, Meaning, OpClass};
use page_types::{Kind, Page};
use posting_tree::full_pages_are_large;
use std::alloc::{AllocError, Global};

/// What is read next.
#[derive(Clone, Copy)]
pub(crate) enum Stage {
    /// This page of the tree where something is sought, to which the way for it has led, over its parent;
    /// the root has none.
    At {
        sought: Sought,
        parent: u32,
        page: u32,
    },
    /// Nothing: all items are under the key.
    Done,
}

/// Items that are put under a key, step by step.
#[derive(Clone, Copy)]
pub struct Placing {
    pub(crate) stage: Stage,
    // so many of the items, the first of them, are under the key
    pub(crate) from: usize,
    // how many pages more this way may read; none before its first
    pub(crate) left: Option<u32>,
    // whether room is made where a way meets none; none is made until one has met none
    pub(crate) making_room: bool,
}

/// The record by which items come to a leaf.
fn adds_by(sought: Sought) -> Kind
    ensures { result ≡ kind_by sought }
{
    match sought {
        Sought::Key => Kind::AddItems,
        Sought::Item { .. } => Kind::AddPostings,
    }
}

/// The items come to the page that is held, which is given back.
fn log_items<D: Disk>(
    alloc: Global,
    frames: &mut Frames<D>,
    pass: &mut Pass,
    held: Held,
    new: Page,
    sought: Sought,
) -> Result<(), PlaceError>
    requires pass { IsPassOf frames.old pass.old }
    requires right { HasRight pass.old }
    requires holding { IsHolding D.Disk frames.old pass.old (held ∷ []) }
    requires seen { Seen D.Disk frames.old pass.old (λ S P. P held.page ≡ held.content) }
    requires added { (key items : List ℕ) × (count : ℕ)
        × AddsInTree D.Disk frames.old pass.old key items sought held new count }
    ensures none_held { pass.new.held ≡ 0 }
    ensures placed { OnOk result ((key items : List ℕ) (count : ℕ)
        → AddsInTree D.Disk frames.old pass.old key items sought held new count
        → ArePlaced D.Disk frames.new pass.new key (take count items)) }
    ensures ways { OnOk result ((key : List ℕ) (root item : ℕ) → (sought ≡ soughts.Item root item)
        → IsOnWay D.Disk frames.old pass.old key sought held.page → (next : ℕ)
        → IsOnWay D.Disk frames.new pass.new key (soughts.Item root next) root) }
    ensures works { OnOk result
        (WorksOn D.Disk frames.old pass.old frames.new pass.new (adding_kind sought ∷ [])) }
    ensures refused { OnErr result (ReadsOn D.Disk frames.old pass.old frames.new pass.new) }
    ensures cause { IfErr result (λ e. CannotLog D.Disk frames.new e frames.old pass.old) }
    ensures fine { OnOk result (MetNoFault D.Disk frames.old frames.new) }
    ensures fault { IfErr result (λ e. FaultBy D.Disk frames.old frames.new e) }
{
    entry_tree::pages_may_be_logged();
    posting_tree::pages_may_be_logged();
    added_items_are_main();
    match one_step(alloc, adds_by(sought), (&held, new)) {
        Ok(step) => log_one(alloc, frames, pass, held, step),
        Err(_) => {
            release(frames, pass, held);
            Err(PlaceError::OutOfMemory)
        }
    }
}

impl Placing {
    /// Nothing is read yet.
    pub fn begin() -> Placing
        ensures { result ≡ at_root }
    {
        Placing {
            stage: Stage::At {
                sought: Sought::Key,
                parent: 0,
                page: ROOT,
            },
            from: 0,
            left: None,
            making_room: false,
        }
    }

    /// A page is read, or a record is logged. False exactly where all items are under the key. Key and
    /// items are the same each time.
    pub fn step<D: Disk, Q, W: Meaning<Q>, C: CompareKeys, J: Judge<Q, W>>(
        &mut self,
        alloc: Global,
        frames: &mut Frames<D>,
        pass: &mut Pass,
        class: &OpClass<Q, W, C, J>,
        key: &[u8],
        items: &[u32],
    ) -> Result<bool, PlaceError>
        requires pass { IsPassOf frames.old pass.old }
        requires right { HasRight pass.old }
        requires none { pass.old.held ≡ 0 }
        requires key { IsKey key.now }
        requires items { AreItems items.now }
        requires rows { ArePending D.Disk frames.old pass.old key.now items.now }
        requires placing { IsPlacing D.Disk frames.old pass.old key.now items.now self.old }
        ensures { HasStepped D.Disk frames.old pass.old frames.new pass.new key.now items.now
            self.old self.new result }
    {
        entry_tree::found_leads_down();
        posting_tree::found_leads_down();
        let Stage::At {
            sought,
            parent,
            page,
        } = self.stage
        else {
            return Ok(false);
        };
        let (held, left) = self.hold_next(frames, pass, page)?;
        match self.read_next(alloc, held.page(), class, key, items, sought) {
            Ok(Reading::Added(new, count)) => self.add_items(
                alloc, frames, pass, held, new, count, sought, items,
            ),
            Ok(Reading::Long(place)) => self.begin_tree(alloc, frames, pass, held, place, items),
            Ok(Reading::Full) => {
                self.begin_again(
                    alloc, frames, pass, held, class, key, sought, parent, page, items,
                )
            }
            Ok(Reading::On(next)) => {
                release(frames, pass, held);
                self.go_on(sought, page, left, next, items)
            }
            Err(_) => {
                release(frames, pass, held);
                Err(PlaceError::OutOfMemory)
            }
        }
    }

    /// So many of the items come to the page that is held; a way for the others begins in the same tree.
    fn add_items<D: Disk>(
        &mut self,
        alloc: Global,
        frames: &mut Frames<D>,
        pass: &mut Pass,
        held: Held,
        new: Page,
        count: usize,
        sought: Sought,
        items: &[u32],
    ) -> Result<bool, PlaceError>
        requires read { (key : List ℕ) × (parent page : ℕ)
            × HoldsAt D.Disk frames.old pass.old key items.now self.old sought parent page held
            × IsReadingIn sought held.content key (drop self.old.from items.now) (readings.Added new count) }
        ensures { (key : List ℕ) (parent page : ℕ)
            → HoldsAt D.Disk frames.old pass.old key items.now self.old sought parent page held
            → IsReadingIn sought held.content key (drop self.old.from items.now) (readings.Added new count)
            → HasStepped D.Disk frames.old pass.old frames.new pass.new key items.now self.old self.new result }
    {
        log_items(alloc, frames, pass, held, new, sought)?;
        Ok(self.put(count, sought, items))
    }

    /// The list of the key's entry becomes a posting tree; a way for the items that are left begins there.
    fn begin_tree<D: Disk>(
        &mut self,
        alloc: Global,
        frames: &mut Frames<D>,
        pass: &mut Pass,
        held: Held,
        place: usize,
        items: &[u32],
    ) -> Result<bool, PlaceError>
        requires read { (key : List ℕ) × (t : SoughtValue) × (parent page : ℕ)
            × HoldsAt D.Disk frames.old pass.old key items.now self.old t parent page held
            × IsReadingIn t held.content key (drop self.old.from items.now) (readings.Long place) }
        ensures { (key : List ℕ) (t : SoughtValue) (parent page : ℕ)
            → HoldsAt D.Disk frames.old pass.old key items.now self.old t parent page held
            → IsReadingIn t held.content key (drop self.old.from items.now) (readings.Long place)
            → HasStepped D.Disk frames.old pass.old frames.new pass.new key items.now self.old self.new result }
    {
        let root = make_tree(alloc, frames, pass, held, place)?;
        Ok(self.seek(Some(root), items))
    }

    /// Another way begins in the same tree, on which room is made; on such a way room is made first.
    fn begin_again<D: Disk, Q, W: Meaning<Q>, C: CompareKeys, J: Judge<Q, W>>(
        &mut self,
        alloc: Global,
        frames: &mut Frames<D>,
        pass: &mut Pass,
        held: Held,
        class: &OpClass<Q, W, C, J>,
        key: &[u8],
        sought: Sought,
        parent: u32,
        page: u32,
        items: &[u32],
    ) -> Result<bool, PlaceError>
        requires read { HoldsAt D.Disk frames.old pass.old key.now items.now self.old sought parent page held }
        requires full { IsReadingIn sought held.content key.now (drop self.old.from items.now) readings.Full }
        requires leaf { self.old.making_room ≡ false → IsFullLeafIn sought held.content readings.Full }
        ensures { HoldsAt D.Disk frames.old pass.old key.now items.now self.old sought parent page held
            → HasStepped D.Disk frames.old pass.old frames.new pass.new key.now items.now self.old self.new result }
    {
        full_pages_are_large();
        release(frames, pass, held);
        if self.making_room {
            make_room(alloc, frames, pass, class, key, sought, parent, page)?;
            return Ok(self.seek(sought.tree(), items));
        }
        self.making_room = true;
        Ok(self.seek(sought.tree(), items))
    }

    /// Holds the page that is read next, alone; with it comes how many pages the way may read, of which it is
    /// one.
    fn hold_next<D: Disk>(
        &self,
        frames: &mut Frames<D>,
        pass: &mut Pass,
        page: u32,
    ) -> Result<(Held, u32), PlaceError>
        requires pass { IsPassOf frames.old pass.old }
        requires right { HasRight pass.old }
        requires none { pass.old.held ≡ 0 }
        requires way { (key items : List ℕ) × AreItems items × IsPlacing D.Disk frames.old pass.old key items self.now
            × (t : SoughtValue) × (parent : ℕ) × (self.now.stage ≡ stages.At t parent page) }
        ensures reads { ReadsOn D.Disk frames.old pass.old frames.new pass.new }
        ensures number { IfOk result (λ r. r.0.page ≡ page) }
        ensures holding { IfOk result (λ r. IsHolding D.Disk frames.new pass.new (r.0 ∷ [])) }
        ensures seen { IfOk result (λ r. Seen D.Disk frames.new pass.new (λ S P. P r.0.page ≡ r.0.content)) }
        ensures left { IfOk result (λ r. (0 < r.1) × (r.1 ≤ reads_left self.now.left)) }
        ensures enough { IfOk result (λ r. (key items : List ℕ) (t : SoughtValue) (parent : ℕ)
            → IsPlacing D.Disk frames.old pass.old key items self.now → self.now.stage ≡ stages.At t parent page
            → IsLeft D.Disk frames.new pass.new key t page r.1) }
        ensures lies { IfOk result (λ r. Lies frames.old page r.0.content) }
        ensures down { OnOk result (down_of frames.new.journal.wal ≡ down_of frames.old.journal.wal) }

        // The refusals: no page is held.
        ensures still { OnErr result (pass.new.held ≡ 0) }
        ensures cause { (key items : List ℕ) → AreItems items → IsPlacing D.Disk frames.old pass.old key items self.now
            → IfErr result (λ e. Finds D.Disk frames.old pass.old
            (IsWhy D.Disk (IsBad D.Disk key self.now) frames.new e)) }
        ensures lawful { IfErr result (NoBadPage D.Disk frames.old) }
        ensures fine { OnOk result (MetNoFault D.Disk frames.old frames.new) }
        ensures fault { IfErr result (λ e. FaultBy D.Disk frames.old frames.new e) }
    {
        let (held, extent) = hold_seen(frames, pass, page)?;
        let left = self.left.unwrap_or(extent);
        if left == 0 {
            release(frames, pass, held);
            return Err(PlaceError::BadPage { page });
        }
        Ok((held, left))
    }

    /// What a page says of the items that are not known to be under the key.
    fn read_next<Q, W: Meaning<Q>, C: CompareKeys, J: Judge<Q, W>>(
        &self,
        alloc: Global,
        page: &Page,
        class: &OpClass<Q, W, C, J>,
        key: &[u8],
        items: &[u32],
        sought: Sought,
    ) -> Result<Reading, AllocError>
        requires page { IsPage page.now }
        requires key { IsKey key.now }
        requires items { AreItems items.now }
        requires from { self.now.from ≤ length items.now }
        requires next { IsNext items.now self.now.from sought }
        ensures reading { IfOk result (λ r. IsReadingIn sought page.now key.now (drop self.now.from items.now) r) }
        ensures room { IfOk result (λ r. IsTrue self.now.making_room → IsRoomy sought page.now r) }
        ensures leaf { IfOk result (λ r. self.now.making_room ≡ false → IsFullLeafIn sought page.now r) }
    {
        let rest = &items[self.from..];
        match sought {
            Sought::Key => read_entries(alloc, page, class, key, rest, self.making_room),
            Sought::Item { item, .. } => read_postings(alloc, page, rest, item, self.making_room),
        }
    }

    /// So many more of the items are under the key; a way for the others begins in the same tree. False
    /// where there are none.
    fn put(&mut self, count: usize, sought: Sought, items: &[u32]) -> bool
        requires { self.old.from + count ≤ length items.now }
        ensures { Puts count sought items.now self.old self.new result }
    {
        self.from += count;
        self.seek(sought.tree(), items)
    }

    /// A way begins at the root of the entry tree, or of a posting tree, for the items that are not known to
    /// be under the key. False where there are none.
    fn seek(&mut self, tree: Option<u32>, items: &[u32]) -> bool
        requires { self.old.from ≤ length items.now }
        ensures { Seeks tree items.now self.old self.new result }
    {
        if self.from >= items.len() {
            self.stage = Stage::Done;
            return false;
        }
        let sought = match tree {
            None => Sought::Key,
            Some(root) => Sought::Item {
                root,
                item: items[self.from],
            },
        };
        self.stage = Stage::At {
            sought,
            parent: 0,
            page: sought.root(),
        };
        self.left = None;
        true
    }

    /// What comes after a page that said this.
    fn go_on(
        &mut self,
        sought: Sought,
        page: u32,
        left: u32,
        next: Next,
        items: &[u32],
    ) -> Result<bool, PlaceError>
        requires left { 0 < left }
        requires from { self.old.from ≤ length items.now }
        requires stand { (count : ℕ) → next ≡ nexts.Stand count → self.old.from + count ≤ length items.now }
        ensures { GoesOn self.old self.new sought items.now page left next result }
    {
        match next {
            Next::Down(child) => {
                self.stage = Stage::At {
                    sought,
                    parent: page,
                    page: child,
                };
                self.left = Some(left - 1);
                Ok(true)
            }
            Next::Tree(root) => Ok(self.seek(Some(root), items)),
            Next::Stand(count) => Ok(self.put(count, sought, items)),
            Next::Bad => Err(PlaceError::BadPage { page }),
        }
    }
}

/// Makes room where a page has none: a root grows, another page is split.
fn make_room<D: Disk, Q, W: Meaning<Q>, C: CompareKeys, J: Judge<Q, W>>(
    alloc: Global,
    frames: &mut Frames<D>,
    pass: &mut Pass,
    class: &OpClass<Q, W, C, J>,
    key: &[u8],
    sought: Sought,
    parent: u32,
    page: u32,
) -> Result<(), PlaceError>
    requires pass { IsPassOf frames.old pass.old }
    requires right { HasRight pass.old }
    requires none { pass.old.held ≡ 0 }
    requires root { IsRootOf D.Disk frames.old pass.old sought }
    ensures none_held { pass.new.held ≡ 0 }
    ensures works { OnOk result ((kind : ℕ)
        × WorksOn D.Disk frames.old pass.old frames.new pass.new (kind ∷ [])) }
    ensures took { OnOk result (HadPage D.Disk frames.old pass.old) }
    ensures refused { OnErr result (ReadsOn D.Disk frames.old pass.old frames.new pass.new) }
    ensures cause { IfErr result (WhyNoRoom D.Disk sought frames.old pass.old parent page frames.new) }
    ensures fine { OnOk result (MetNoFault D.Disk frames.old frames.new) }
    ensures fault { IfErr result (λ e. FaultBy D.Disk frames.old frames.new e) }
{
    if page == sought.root() {
        return grow_root(alloc, frames, pass, sought);
    }
    split_page(alloc, frames, pass, parent, page, class, key, sought)
}

/// Puts items under a key.
pub fn place<D: Disk, Q, W: Meaning<Q>, C: CompareKeys, J: Judge<Q, W>>(
    alloc: Global,
    frames: &mut Frames<D>,
    pass: &mut Pass,
    class: &OpClass<Q, W, C, J>,
    key: &[u8],
    items: &[u32],
) -> Result<(), PlaceError>
    requires pass { IsPassOf frames.old pass.old }
    requires right { HasRight pass.old }
    requires none { pass.old.held ≡ 0 }
    requires key { IsKey key.now }
    requires items { AreItems items.now }
    requires rows { ArePending D.Disk frames.old pass.old key.now items.now }
    ensures placed { OnOk result (ArePlaced D.Disk frames.new pass.new key.now items.now) }
    ensures none_held { pass.new.held ≡ 0 }
    ensures works { (kinds : List ℕ)
        × WorksOn D.Disk frames.old pass.old frames.new pass.new kinds }
    ensures standing { ArePlaced D.Disk frames.old pass.old key.now items.now
        → Behind D.Disk frames.old (λ R. WorksOn D.Disk frames.old pass.old frames.new pass.new []) }

    // The refusals: what was logged stays.
    ensures cause { IfErr result (λ e. Meets D.Disk frames.old pass.old
        (IsWhy D.Disk (IsBadIn D.Disk key.now) frames.new e)) }
    ensures fine { OnOk result (MetNoFault D.Disk frames.old frames.new) }
    ensures fault { IfErr result (λ e. FaultBy D.Disk frames.old frames.new e) }
{
    let mut placing = Placing::begin();
    for _ in 0..u64::MAX {
        let more = placing.step(alloc, frames, pass, class, key, items)?;
        if !more {
            return Ok(());
        }
    }
    // No store has so many pages.
    Err(PlaceError::OutOfMemory)
}
