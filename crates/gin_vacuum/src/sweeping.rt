// Dead items leave the trees of the index.
ghost use Rattle.std.specs.Prelude.{◌≡◌, ◌≢◌, ◌⊎◌, ◌↔◌, ◌<◌, ◌-◌, suc, true, false, [], ◌∷◌, ℕ, List};
ghost use Rattle.std.specs.Prelude.{Some, None, ⊤};
ghost use Rattle.std.specs.Prelude.{Option, IfOk, IfErr, IfSome, IfNone, OnOk, OnErr, IsErrOf};
ghost use Rattle.std.specs.List.{AllByRecursion};
ghost use Rattle.std.specs.Option.{unwrap_or};
ghost use Rattle.page_types.specs.Numbers.{item_limit};
ghost use Rattle.page_types.specs.Pages.{IsPage};
ghost use Rattle.page_types.specs.Views.{posting_items_in};
ghost use Rattle.core_state.specs.PageChoice.{IsLeast, AreBelow};
ghost use Rattle.core_state.specs.States.{StateTells};
ghost use Rattle.entry_tree.specs.Adding.{IsEntryLeaf};
ghost use Rattle.posting_tree.specs.Adding.{IsPostLeaf};
ghost use Rattle.posting_tree.specs.Finding.{IsFound};
ghost use Rattle.posting_tree.specs.declared.finding.Found.TheVariants as found;
ghost use Rattle.buffer_frames.specs.Frames.{Lies};
ghost use Rattle.buffer_frames.specs.Passes.{IsPassOf, IsHolding, Seen};
ghost use Rattle.gin_place.specs.Placing.{HasRight};
ghost use Rattle.gin_place.specs.Causes.{Finds, CannotUse};
ghost use Rattle.gin_place.specs.Faults.{MetNoFault, FaultBy};
ghost use Rattle.gin_place.specs.Holding.{ReadsOn};
ghost use Rattle.gin_place.specs.Stepping.{reads_left};
ghost use Rattle.gin_vacuum.specs.Vacuum.{AreDead, AreSwept};
ghost use Rattle.gin_vacuum.specs.Going.{VacuumsOn};
ghost use Rattle.gin_vacuum.specs.Sweeping.{IsSweeping};
ghost use Rattle.gin_vacuum.specs.Ending.{VacuumMeets, NeverBad};
ghost use Rattle.gin_vacuum.specs.Stepping.{IsSpent, IsCause, IsBadIn, IsNext, IsSweepKind, HasSwept, left_of};
ghost use Rattle.gin_vacuum.specs.Stepping.{steps_left};
ghost use Rattle.gin_place.specs.declared.error.PlaceError.TheVariants.{BadPage};
ghost use Rattle.gin_vacuum.specs.Inner.Logging.{CannotLog};
ghost use Rattle.gin_vacuum.specs.Inner.Reading.{IsBelow, IsBelowInTree, AreRoots, IsReadLeaf, IsReadPosts, IsUnread};
ghost use Rattle.gin_vacuum.specs.Inner.Sweeping.{WasSpent, IsRemoval, HasCleaned, HasNextTree, GoesPast, HasGoneOn};
ghost use Rattle.gin_vacuum.specs.Inner.HoldingNext.{HoldsNext, SweepsOn};
ghost use Rattle.gin_vacuum.specs.Inner.Sweeping.{begun};
ghost use Rattle.gin_vacuum.specs.declared.sweeping.Stage.TheVariants as stages;

use crate::deleting::{Empty, delete_leaf};
use crate::logging::log_one;
use buffer_frames::{Frames, Held, Pass};
use disk_trait::Disk;
use gin_place::{PlaceError, hold_seen, one_step, release};
use page_types::{Body, Entries, Kind, Page, PostingsRef};
use posting_code::ItemSet;
use posting_tree::{Found, find, left_leaf_may_be_logged, remove, unlink};
use std::alloc::{AllocError, Global};

/// The root of the entry tree.
const ROOT: u32 = 1;

/// What is read next.
#[derive(Clone, Copy)]
pub(crate) enum Stage {
    /// This page of the entry tree, on the way to its first leaf.
    Down {
        page: u32,
    },
    /// This leaf of the entry tree.
    Leaf {
        page: u32,
    },
    /// This page of a posting tree, on the way to its first leaf.
    TreeDown {
        root: u32,
        page: u32,
    },
    /// This leaf of a posting tree, after another one, 0 where it is the first.
    Posts {
        root: u32,
        before: u32,
        page: u32,
    },
    /// This page of a posting tree, on the way to the parent of an empty leaf; so many pages more may be
    /// read on it, none before its first.
    Parent {
        empty: Empty,
        page: u32,
        left: Option<u32>,
    },
    /// Nothing: no dead item is in the trees.
    Done,
}

/// Dead items leave the trees of the index, step by step: leaf by leaf of the entry tree, and of each leaf
/// tree by tree of those that its entries name.
#[derive(Drop)]
pub struct Sweeping {
    pub(crate) stage: Stage,
    // the roots of the trees that the entries of the leaf at work name, the number of the next of them, and
    // the right link of that leaf
    pub(crate) roots: Vec<u32>,
    pub(crate) next: usize,
    pub(crate) link: u32,
    // how many pages of the entry tree more may be read, and of the posting tree at work: none before the
    // first
    pub(crate) left: Option<u32>,
    pub(crate) left_below: Option<u32>,
}

/// What was read of a leaf of the entry tree: the leaf without dead items where it had some.
#[derive(Drop)]
pub(crate) struct ReadLeaf {
    roots: Vec<u32>,
    link: u32,
    cleaned: Option<Page>,
}

/// What was read of a leaf of a posting tree.
#[derive(Drop)]
pub(crate) struct ReadPosts {
    high: u32,
    link: u32,
    cleaned: Option<Page>,
    is_empty: bool,
}

/// What comes after a page on the way to the first leaf of a tree.
#[derive(Clone, Copy)]
pub(crate) enum Below {
    /// The page is a leaf.
    Leaf,
    /// Its first child.
    Child { page: u32 },
    /// It is none of the tree.
    Bad,
}

/// What comes after a page of the entry tree on the way to its first leaf.
fn way_on(page: &Page) -> Below
    ensures { IsBelow page.now.body result }
{
    if let Body::EntryLeaf { .. } = page.body {
        return Below::Leaf;
    }
    match entry_tree::first_child(page) {
        Some(page) => Below::Child { page },
        None => Below::Bad,
    }
}

/// Likewise of a page of a posting tree.
fn tree_way_on(page: &Page) -> Below
    ensures { IsBelowInTree page.now.body result }
{
    if let Body::PostLeaf { .. } = page.body {
        return Below::Leaf;
    }
    match posting_tree::first_child(page) {
        Some(page) => Below::Child { page },
        None => Below::Bad,
    }
}

/// The roots of the posting trees that entries name.
fn roots_of(alloc: Global, entries: &Entries) -> Result<Vec<u32>, AllocError>
    ensures { IfOk result (λ roots. AreRoots entries.now roots.items) }
{
    let mut roots = Vec::new(alloc);
    for k in 0..entries.len() {
        let Some(entry) = entries.get(k) else {
            unreachable!()
        };
        if let PostingsRef::Root(root) = entry.postings {
            roots.push(root)?;
        }
    }
    Ok(roots)
}

/// What a leaf of the entry tree that is held says; another page is a bad one.
fn read_leaf(alloc: Global, held: &Held, dead: &ItemSet) -> Result<ReadLeaf, PlaceError>
    ensures read { IfOk result (IsReadLeaf dead.now held.now.content) }
    ensures unread { IfErr result (IsUnread held.now IsEntryLeaf) }
{
    let page = held.page();
    let Body::EntryLeaf { entries, .. } = &page.body else {
        return Err(PlaceError::BadPage {
            page: held.number(),
        });
    };
    let roots = roots_of(alloc, entries)?;
    Ok(ReadLeaf {
        roots,
        link: page.right,
        cleaned: remove(alloc, page, dead)?,
    })
}

/// Whether a leaf of a posting tree has no items.
fn is_empty(page: &Page) -> bool
    requires leaf { IsPostLeaf page.now.body }
    requires page { IsPage page.now }
    ensures { (result ≡ true) ↔ (posting_items_in page.now.body ≡ []) }
{
    match &page.body {
        Body::PostLeaf { items, .. } => items.as_slice().is_empty(),
        _ => false,
    }
}

/// What a leaf of a posting tree that is held says; another page is a bad one.
fn read_posts(alloc: Global, held: &Held, dead: &ItemSet) -> Result<ReadPosts, PlaceError>
    ensures read { IfOk result (IsReadPosts dead.now held.now.content) }
    ensures unread { IfErr result (IsUnread held.now IsPostLeaf) }
{
    let page = held.page();
    let Body::PostLeaf { high, .. } = page.body else {
        return Err(PlaceError::BadPage {
            page: held.number(),
        });
    };
    let cleaned = remove(alloc, page, dead)?;
    let empty = is_empty(cleaned.as_ref().unwrap_or(page));
    Ok(ReadPosts {
        high,
        link: page.right,
        cleaned,
        is_empty: empty,
    })
}

/// The child of a page of a posting tree on the way of an item; none of a page that has none.
fn child_toward(page: &Page, item: u32) -> Option<u32>
    requires page { IsPage page.now }
    requires above { 0 < item }
    requires below { item < item_limit }
    ensures some { IfSome result (λ c. IsFound page.now item (found.Down c)) }
    ensures none { IfNone result ((c : ℕ) → IsFound page.now item (found.Down c) → ⊥) }
{
    match &page.body {
        Body::PostInner(_) => match find(page, item) {
            Found::Down { child } => Some(child),
            _ => None,
        },
        _ => None,
    }
}

/// Logs that a page that is held is without dead items, where it had some; it is given back.
fn log_cleaned<D: Disk>(
    alloc: Global,
    frames: &mut Frames<D>,
    pass: &mut Pass,
    held: Held,
    cleaned: Option<Page>,
) -> Result<(), PlaceError>
    requires removal { (dead : List ℕ) × IsRemoval D.Disk frames.old pass.old dead held cleaned }
    ensures none_held { pass.new.held ≡ 0 }
    ensures cleaned { OnOk result ((dead : List ℕ) → IsRemoval D.Disk frames.old pass.old dead held cleaned
        → HasCleaned D.Disk frames.old pass.old frames.new pass.new held cleaned) }
    ensures refused { OnErr result (ReadsOn D.Disk frames.old pass.old frames.new pass.new) }
    ensures cause { IfErr result (λ e. CannotLog D.Disk frames.new e frames.old pass.old) }
    ensures fine { OnOk result (MetNoFault D.Disk frames.old frames.new) }
    ensures fault { IfErr result (λ e. FaultBy D.Disk frames.old frames.new e) }
{
    left_leaf_may_be_logged();
    let Some(page) = cleaned else {
        release(frames, pass, held);
        return Ok(());
    };
    let made = one_step(alloc, Kind::RemoveItems, (&held, page));
    log_one(alloc, frames, pass, held, made)
}

/// Holds the page that is read next, alone; with it comes how many pages more may be read after it.
fn hold_next<D: Disk>(
    frames: &mut Frames<D>,
    pass: &mut Pass,
    page: u32,
    left: Option<u32>,
) -> Result<(Held, u32), PlaceError>
    requires pass { IsPassOf frames.old pass.old }
    requires right { HasRight pass.old }
    requires none { pass.old.held ≡ 0 }
    ensures reads { ReadsOn D.Disk frames.old pass.old frames.new pass.new }
    ensures number { IfOk result (λ r. r.0.page ≡ page) }
    ensures holding { IfOk result (λ r. IsHolding D.Disk frames.new pass.new (r.0 ∷ [])) }
    ensures seen { IfOk result (λ r. Seen D.Disk frames.new pass.new (λ S P. P r.0.page ≡ r.0.content)) }
    ensures told { OnOk result (Seen D.Disk frames.new pass.new (λ S P. StateTells S frames.new.journal.state)) }
    ensures left { IfOk result (λ r. (extent : ℕ) × IsLeast (AreBelow frames.new.journal.state) extent
        × (suc r.1 ≡ unwrap_or left extent)) }
    ensures lower { IfOk result (λ r. r.1 < reads_left left) }
    ensures lies { IfOk result (λ r. Lies frames.old page r.0.content) }

    // The refusals: no page is held.
    ensures still { OnErr result (pass.new.held ≡ 0) }
    ensures cause { IfErr result (λ e. Finds D.Disk frames.old pass.old
        (λ f p. IsCause D.Disk (λ g n. (n ≡ page) × (CannotUse g (λ c. ⊤) n ⊎ IsSpent left g)) frames.new e f p)) }
    ensures fine { OnOk result (MetNoFault D.Disk frames.old frames.new) }
    ensures fault { IfErr result (λ e. FaultBy D.Disk frames.old frames.new e) }
    ensures bad { (n : ℕ) → IsErrOf result (BadPage n) → (n ≡ page)
        × (CannotUse frames.old (λ c. ⊤) n ⊎ Finds D.Disk frames.old pass.old (WasSpent D.Disk left)) }
{
    let (held, extent) = hold_seen(frames, pass, page)?;
    let left = left.unwrap_or(extent);
    if left == 0 {
        release(frames, pass, held);
        return Err(PlaceError::BadPage { page });
    }
    Ok((held, left - 1))
}

impl Sweeping {
    /// Nothing is read yet.
    pub fn begin(alloc: Global) -> Sweeping
        ensures { begun result }
    {
        Sweeping {
            stage: Stage::Down { page: ROOT },
            roots: Vec::new(alloc),
            next: 0,
            link: 0,
            left: None,
            left_below: None,
        }
    }

    /// The page that is read next, and how many more may be read of its tree; none where no dead item is left.
    fn next(&self) -> Option<(u32, Option<u32>)>
        ensures page { IfSome result (λ r. IsNext self.now.stage r.0) }
        ensures left { IfSome result (λ r. r.1 ≡ left_of self.now self.now.stage) }
        ensures some { IfSome result (λ r. self.now.stage ≢ stages.Done) }
        ensures done { IfNone result (self.now.stage ≡ stages.Done) }
    {
        match self.stage {
            Stage::Down { page } => Some((page, self.left)),
            Stage::Leaf { page } => Some((page, self.left)),
            Stage::TreeDown { page, .. } => Some((page, self.left_below)),
            Stage::Posts { page, .. } => Some((page, self.left_below)),
            Stage::Parent { page, left, .. } => Some((page, left)),
            Stage::Done => None,
        }
    }

    /// The next tree of the leaf at work is next, or the next leaf.
    fn next_tree(&mut self)
        ensures { HasNextTree self.old self.new }
    {
        self.left_below = None;
        if self.next < self.roots.len() {
            let root = self.roots[self.next];
            self.next += 1;
            self.stage = Stage::TreeDown { root, page: root };
        } else if self.link == 0 {
            self.stage = Stage::Done;
        } else {
            self.stage = Stage::Leaf { page: self.link };
        }
    }

    /// The leaf after this one is next, or the next tree.
    fn go_past(&mut self, root: u32, before: u32, link: u32)
        ensures { GoesPast root before link self.old self.new }
    {
        if link == 0 {
            self.next_tree();
        } else {
            self.stage = Stage::Posts {
                root,
                before,
                page: link,
            };
        }
    }

    /// The parent of a leaf that is empty and isn't the last is next, or the leaf after it, or the next tree.
    fn go_on(&mut self, leaf: Empty, is_empty: bool)
        ensures { HasGoneOn leaf is_empty self.old self.new }
    {
        if is_empty && leaf.high != 0 {
            self.stage = Stage::Parent {
                empty: leaf,
                page: leaf.root,
                left: None,
            };
        } else {
            self.go_past(leaf.root, leaf.page, leaf.link);
        }
    }

    /// Goes on from a page of the entry tree on the way to its first leaf.
    fn go_down<D: Disk>(
        &mut self,
        frames: &mut Frames<D>,
        pass: &mut Pass,
        held: Held,
        left: u32,
        page: u32,
    ) -> Result<(), PlaceError>
        requires stage { self.old.stage ≡ stages.Down page }
        requires held { (dead : List ℕ)
            × HoldsNext D.Disk frames.old pass.old dead self.old page self.old.left held left }
        ensures swept { (dead : List ℕ) → SweepsOn D.Disk frames.old pass.old dead self.old page self.old.left
            held left frames.new pass.new self.new result }
        ensures lower { OnOk result (steps_left self.new < steps_left self.old) }
    {
        let next = way_on(held.page());
        release(frames, pass, held);
        match next {
            Below::Leaf => {
                self.stage = Stage::Leaf { page };
                self.left = Some(left);
                Ok(())
            }
            Below::Child { page } => {
                self.stage = Stage::Down { page };
                self.left = Some(left);
                Ok(())
            }
            Below::Bad => Err(PlaceError::BadPage { page }),
        }
    }

    /// Takes dead items out of a leaf of the entry tree.
    fn clean_leaf<D: Disk>(
        &mut self,
        alloc: Global,
        frames: &mut Frames<D>,
        pass: &mut Pass,
        dead: &ItemSet,
        held: Held,
        left: u32,
    ) -> Result<(), PlaceError>
        requires stage { self.old.stage ≡ stages.Leaf held.page }
        requires held { HoldsNext D.Disk frames.old pass.old dead.now self.old held.page self.old.left held left }
        ensures swept { SweepsOn D.Disk frames.old pass.old dead.now self.old held.page self.old.left held left
            frames.new pass.new self.new result }
        ensures lower { OnOk result (steps_left self.new < steps_left self.old) }
    {
        let read = match read_leaf(alloc, &held, dead) {
            Ok(read) => read,
            Err(error) => {
                release(frames, pass, held);
                return Err(error);
            }
        };
        let ReadLeaf {
            roots,
            link,
            cleaned,
        } = read;
        log_cleaned(alloc, frames, pass, held, cleaned)?;
        self.roots = roots;
        self.next = 0;
        self.link = link;
        self.left = Some(left);
        self.next_tree();
        Ok(())
    }

    /// Goes on from a page of a posting tree on the way to its first leaf.
    fn go_down_tree<D: Disk>(
        &mut self,
        frames: &mut Frames<D>,
        pass: &mut Pass,
        held: Held,
        left: u32,
        root: u32,
        page: u32,
    ) -> Result<(), PlaceError>
        requires stage { self.old.stage ≡ stages.TreeDown root page }
        requires held { (dead : List ℕ)
            × HoldsNext D.Disk frames.old pass.old dead self.old page self.old.left_below held left }
        ensures swept { (dead : List ℕ) → SweepsOn D.Disk frames.old pass.old dead self.old page
            self.old.left_below held left frames.new pass.new self.new result }
        ensures lower { OnOk result (steps_left self.new < steps_left self.old) }
    {
        let next = tree_way_on(held.page());
        release(frames, pass, held);
        match next {
            Below::Leaf => {
                self.stage = Stage::Posts {
                    root,
                    before: 0,
                    page,
                };
                self.left_below = Some(left);
                Ok(())
            }
            Below::Child { page } => {
                self.stage = Stage::TreeDown { root, page };
                self.left_below = Some(left);
                Ok(())
            }
            Below::Bad => Err(PlaceError::BadPage { page }),
        }
    }

    /// Takes dead items out of a leaf of a posting tree. An empty one goes, unless it is the last.
    fn clean_posts<D: Disk>(
        &mut self,
        alloc: Global,
        frames: &mut Frames<D>,
        pass: &mut Pass,
        dead: &ItemSet,
        held: Held,
        left: u32,
        root: u32,
        before: u32,
    ) -> Result<(), PlaceError>
        requires stage { self.old.stage ≡ stages.Posts root before held.page }
        requires held { HoldsNext D.Disk frames.old pass.old dead.now self.old held.page self.old.left_below
            held left }
        ensures swept { SweepsOn D.Disk frames.old pass.old dead.now self.old held.page self.old.left_below
            held left frames.new pass.new self.new result }
        ensures lower { OnOk result (steps_left self.new < steps_left self.old) }
    {
        let read = match read_posts(alloc, &held, dead) {
            Ok(read) => read,
            Err(error) => {
                release(frames, pass, held);
                return Err(error);
            }
        };
        let ReadPosts {
            high,
            link,
            cleaned,
            is_empty,
        } = read;
        let page = held.number();
        log_cleaned(alloc, frames, pass, held, cleaned)?;
        let leaf = Empty {
            root,
            before,
            page,
            high,
            link,
        };
        self.left_below = Some(left);
        self.go_on(leaf, is_empty);
        Ok(())
    }

    /// Goes on from a page of a posting tree on the way to the parent of an empty leaf, which goes there,
    /// unless it is the last child.
    fn seek_parent<D: Disk>(
        &mut self,
        alloc: Global,
        frames: &mut Frames<D>,
        pass: &mut Pass,
        held: Held,
        left: u32,
        empty: Empty,
        page: u32,
    ) -> Result<(), PlaceError>
        requires held { (dead : List ℕ) × (before : Option ℕ) × (self.old.stage ≡ stages.Parent empty page before)
            × HoldsNext D.Disk frames.old pass.old dead self.old page before held left }
        ensures swept { (dead : List ℕ) (before : Option ℕ) → self.old.stage ≡ stages.Parent empty page before
            → SweepsOn D.Disk frames.old pass.old dead self.old page before held left frames.new pass.new
            self.new result }
        ensures lower { OnOk result (steps_left self.new < steps_left self.old) }
    {
        let Some(child) = child_toward(held.page(), empty.high) else {
            release(frames, pass, held);
            return Err(PlaceError::BadPage { page });
        };
        if child != empty.page {
            release(frames, pass, held);
            self.stage = Stage::Parent {
                empty,
                page: child,
                left: Some(left),
            };
            return Ok(());
        }
        self.leave_or_delete(alloc, frames, pass, held, empty)
    }

    /// Deletes an empty leaf, whose parent is held, unless it is the last child.
    fn leave_or_delete<D: Disk>(
        &mut self,
        alloc: Global,
        frames: &mut Frames<D>,
        pass: &mut Pass,
        parent: Held,
        empty: Empty,
    ) -> Result<(), PlaceError>
        requires pass { IsPassOf frames.old pass.old }
        requires right { HasRight pass.old }
        requires holding { IsHolding D.Disk frames.old pass.old (parent ∷ []) }
        requires stage { (page : ℕ) × (left : Option ℕ) × (self.old.stage ≡ stages.Parent empty page left)
            × (0 < reads_left left) }
        requires sweeping { (dead : List ℕ) × IsSweeping D.Disk frames.old pass.old dead self.old }
        ensures swept { (dead : List ℕ) → IsSweeping D.Disk frames.old pass.old dead self.old
            → HasSwept D.Disk frames.old pass.old frames.new pass.new dead self.old self.new result }
        ensures lower { OnOk result (steps_left self.new < steps_left self.old) }
    {
        match unlink(parent.page(), empty.page) {
            Ok(Some(without)) => {
                delete_leaf(alloc, frames, pass, parent, without, empty)?;
                self.go_past(empty.root, empty.before, empty.link);
                Ok(())
            }
            Ok(None) => {
                release(frames, pass, parent);
                self.go_past(empty.root, empty.page, empty.link);
                Ok(())
            }
            Err(_) => {
                release(frames, pass, parent);
                Err(PlaceError::OutOfMemory)
            }
        }
    }

    /// Goes on from the page that is read next, which is held, and logs a record where one is due.
    fn work<D: Disk>(
        &mut self,
        alloc: Global,
        frames: &mut Frames<D>,
        pass: &mut Pass,
        dead: &ItemSet,
        held: Held,
        left: u32,
    ) -> Result<(), PlaceError>
        requires not_done { self.old.stage ≢ stages.Done }
        requires next { IsNext self.old.stage held.page }
        requires held { HoldsNext D.Disk frames.old pass.old dead.now self.old held.page
            (left_of self.old self.old.stage) held left }
        ensures swept { SweepsOn D.Disk frames.old pass.old dead.now self.old held.page
            (left_of self.old self.old.stage) held left frames.new pass.new self.new result }
        ensures lower { OnOk result (steps_left self.new < steps_left self.old) }
    {
        match self.stage {
            Stage::Down { page } => self.go_down(frames, pass, held, left, page),
            Stage::Leaf { .. } => self.clean_leaf(alloc, frames, pass, dead, held, left),
            Stage::TreeDown { root, page } => {
                self.go_down_tree(frames, pass, held, left, root, page)
            }
            Stage::Posts { root, before, .. } => {
                self.clean_posts(alloc, frames, pass, dead, held, left, root, before)
            }
            Stage::Parent { empty, page, .. } => {
                self.seek_parent(alloc, frames, pass, held, left, empty, page)
            }
            Stage::Done => unreachable!(),
        }
    }

    /// Reads a page, and logs a record where one is due. False exactly at the end.
    pub fn step<D: Disk>(
        &mut self,
        alloc: Global,
        frames: &mut Frames<D>,
        pass: &mut Pass,
        dead: &ItemSet,
    ) -> Result<bool, PlaceError>
        requires pass { IsPassOf frames.old pass.old }
        requires right { HasRight pass.old }
        requires none { pass.old.held ≡ 0 }
        requires sweeping { IsSweeping D.Disk frames.old pass.old dead.now self.old }
        ensures swept { HasSwept D.Disk frames.old pass.old frames.new pass.new dead.now self.old self.new result }
        ensures ends { IfOk result (λ more. (more ≡ false) ↔ (self.new.stage ≡ stages.Done)) }
        ensures lower { IfOk result (λ more. more ≡ true → steps_left self.new < steps_left self.old) }
    {
        let Some((page, before)) = self.next() else {
            return Ok(false);
        };
        let (held, left) = hold_next(frames, pass, page, before)?;
        self.work(alloc, frames, pass, dead, held, left)?;
        Ok(self.next().is_some())
    }
}

/// Takes dead items out of the trees of the index.
pub fn sweep<D: Disk>(
    alloc: Global,
    frames: &mut Frames<D>,
    pass: &mut Pass,
    dead: &ItemSet,
) -> Result<(), PlaceError>
    requires pass { IsPassOf frames.old pass.old }
    requires right { HasRight pass.old }
    requires none { pass.old.held ≡ 0 }
    requires dead { AreDead D.Disk frames.old pass.old dead.now }
    ensures swept { OnOk result (AreSwept D.Disk frames.new pass.new dead.now) }
    ensures dead { AreDead D.Disk frames.new pass.new dead.now }
    ensures none_held { pass.new.held ≡ 0 }
    ensures works { (kinds : List ℕ) × AllByRecursion IsSweepKind kinds
        × VacuumsOn D.Disk frames.old pass.old frames.new pass.new kinds }
    ensures nothing { dead.now ≡ [] → (frames.new ≡ frames.old) × (pass.new ≡ pass.old) }

    // The refusals: what was logged stays.
    ensures cause { IfErr result (λ e. VacuumMeets D.Disk frames.old pass.old frames.new
        (IsCause D.Disk (IsBadIn D.Disk) frames.new e)) }
    ensures lawful { IfErr result (λ e. NeverBad D.Disk frames.old e) }
    ensures fine { OnOk result (MetNoFault D.Disk frames.old frames.new) }
    ensures fault { IfErr result (λ e. FaultBy D.Disk frames.old frames.new e) }
{
    if dead.items().is_empty() {
        return Ok(());
    }
    let mut sweeping = Sweeping::begin(alloc);
    let mut more = true;
    while more {
        more = sweeping.step(alloc, frames, pass, dead)?;
    }
    Ok(())
}
