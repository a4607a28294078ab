// What a scan reads of the tree of keys.
ghost use Rattle.std.specs.Prelude.{◌≡◌, ◌⊎◌, ℕ, ◌^◌, ◌-◌, ◌<◌, length, map, Some, IfOk, IfErr, OnOk};
ghost use Rattle.std.specs.List.{slice_get};
ghost use Rattle.page_types.specs.Pages.{IsPage};
ghost use Rattle.buffer_frames.specs.declared.frame_error.FrameError.TheVariants.{BadPage, OutOfMemory};
ghost use Rattle.gin_opclass.specs.Class.{Asked, meaning};
ghost use Rattle.core_moments.specs.Walk as walk;
ghost use Rattle.core_moments.specs.Walk.{Sought};
ghost use Rattle.gin_hits.specs.Rows.{asked_by, asked_for};
ghost use Rattle.core_moments.specs.OpenLaws.{IsLeaf};
ghost use Rattle.gin_hits.specs.Trees.{trees_of};
ghost use Rattle.gin_scan.specs.Scanning.{walked_by, sought_for};
ghost use Rattle.gin_scan.specs.Inner.Ways.{NotesEntries, NamesTrees};

use crate::scan_core::{ScanCore, hold_page};
use crate::stage::Stage;
use buffer_frames::{FrameError, Frames, Pass};
use disk_trait::Disk;
use gin_hits::{Hits, TreeRoot, beyond, judge_met, key_at, toward};
use gin_opclass::{CompareKeys, Judge, Meaning, OpClass, QueryKeys};
use page_types::{Body, Page};
use std::alloc::Global;

/// The page of the tree at which each walk begins.
const ROOT: u32 = 1;

/// What the walk with this number looks for: a key, and whether it is a prefix. Where the whole index is read these
/// are all keys, which begin with no bytes.
fn sought<'a>(keys: &'a QueryKeys, order: &[usize], number: usize) -> (&'a [u8], bool)
    ensures { (a : Asked) → slice_get (walked_by keys.now order.now) number ≡ Some a
        → asked_for result.0.now result.1 ≡ a }
{
    if keys.all {
        return (&[], true);
    }
    match order.get(number) {
        Some(k) => key_at(keys.keys.as_slice(), *k),
        None => (&[], false),
    }
}

/// Notes the entries of a leaf, which has this page number, that fit what the walk with this number looks for: their
/// items, and the posting trees that they name. The leaf that is next, or 0.
fn note_entries<Q, W: Meaning<Q>, C: CompareKeys, J: Judge<Q, W>>(
    alloc: Global,
    class: &OpClass<Q, W, C, J>,
    keys: &QueryKeys,
    order: &[usize],
    page: &Page,
    number: u32,
    key: usize,
    main: &mut Hits,
    trees: &mut Vec<TreeRoot>,
) -> Result<u32, FrameError>
    requires lists { length main.old.by_key.items ≡ length keys.now.keys.items }
    requires page { IsPage page.now }
    ensures leaf { OnOk result (IsLeaf page.now) }
    ensures beyond { IfOk result (λ next. (w : Sought) → slice_get (sought_for keys.now order.now) key ≡ Some w
        → next ≡ walk.beyond w page.now) }
    ensures noted { OnOk result ((w : Sought) → slice_get (sought_for keys.now order.now) key ≡ Some w
        → NotesEntries (map asked_by keys.now.keys.items) w page.now main.old main.new) }
    ensures named { OnOk result ((w : Sought) → slice_get (sought_for keys.now order.now) key ≡ Some w
        → NamesTrees w page.now (trees_of trees.old.items) (trees_of trees.new.items)) }
    ensures lists { length main.new.by_key.items ≡ length main.old.by_key.items }
    ensures bad { IfErr result (λ e. (e ≡ OutOfMemory) ⊎ ((e ≡ BadPage number) × (IsLeaf page.now → ⊥))) }
{
    let Body::EntryLeaf { entries, .. } = &page.body else {
        return Err(FrameError::BadPage { page: number });
    };
    let (asked, prefix) = sought(keys, order, key);
    main.add_entries(
        alloc,
        class,
        keys.keys.as_slice(),
        entries,
        asked,
        prefix,
        trees,
    )?;
    Ok(beyond(page, asked, prefix))
}

impl ScanCore {
    ghost use Rattle.gin_scan.specs.Causes.{HasWay};
    ghost use Rattle.gin_scan.specs.Scanning.{IsScan, sought_in};
    ghost use Rattle.gin_scan.specs.Inner.Steps.{MayStep, IsStepOf};
    ghost use Rattle.gin_scan.specs.Inner.Notes.{PassesLeaf, NotesWay};
    ghost use Rattle.gin_scan.specs.declared.stage.Stage.TheVariants as stages;

    /// How many walks go through the tree: one for each key that is asked, or one for all.
    pub(crate) fn walk_count(&self) -> usize
        ensures count { result ≡ length (sought_in self.now) }
        ensures few { length (sought_in self.now) < 2 ^ 63 }
    {
        if self.keys.all { 1 } else { self.order.len() }
    }

    /// Where the walk with this number begins.
    pub(crate) fn walk(&self, key: usize) -> Stage
        ensures begins { result ≡ stages.Down key 1 self.now.extent }
        ensures within { self.now.extent < 2 ^ 32 }
    {
        Stage::Down {
            key,
            page: ROOT,
            left: self.most_pages(),
        }
    }

    /// Notes the entries of a leaf, which has this number, that fit what the walk with that number looks for: their
    /// items, and the posting trees that they name. What is read then, where so many pages of the way were read.
    fn pass_leaf<Q, W: Meaning<Q>, C: CompareKeys, J: Judge<Q, W>>(
        &mut self,
        alloc: Global,
        class: &OpClass<Q, W, C, J>,
        page: &Page,
        number: u32,
        key: usize,
        read: u32,
    ) -> Result<Stage, FrameError>
        requires scan { IsScan self.old }
        requires page { IsPage page.now }
        ensures took { self.new.took_pin ≡ self.old.took_pin }
        ensures noted { IfOk result (PassesLeaf self.old key page.now read self.new) }
        ensures bad { IfErr result (λ e. (e ≡ OutOfMemory) ⊎ ((e ≡ BadPage number) × (IsLeaf page.now → ⊥))) }
    {
        let from = self.roots.len();
        let then = note_entries(
            alloc,
            class,
            &self.keys,
            self.order.as_slice(),
            page,
            number,
            key,
            &mut self.main,
            &mut self.roots,
        )?;
        Ok(self.next_tree(key, from, then, read))
    }

    /// Goes on by a page on the way of a key, which has this number: the page that is next, or what is read after the
    /// key's leaf, with at most so many pages of the way left, where so many were read.
    fn note_way<Q, W: Meaning<Q>, C: CompareKeys, J: Judge<Q, W>>(
        &mut self,
        alloc: Global,
        class: &OpClass<Q, W, C, J>,
        page: &Page,
        number: u32,
        key: usize,
        left: u32,
        read: u32,
    ) -> Result<Stage, FrameError>
        requires scan { IsScan self.old }
        requires page { IsPage page.now }
        requires read { read ≡ self.old.extent - left }
        ensures took { self.new.took_pin ≡ self.old.took_pin }
        ensures noted { IfOk result (NotesWay self.old key left page.now self.new) }
        ensures bad { IfErr result (λ e. (e ≡ OutOfMemory) ⊎ ((e ≡ BadPage number)
            × ((w : Sought) → slice_get (sought_in self.old) key ≡ Some w → HasWay w page.now → ⊥))) }
    {
        let (asked, _) = sought(&self.keys, self.order.as_slice(), key);
        let next = toward(page, class, asked);
        if next != 0 {
            return Ok(Stage::Down {
                key,
                page: next,
                left,
            });
        }
        self.pass_leaf(alloc, class, page, number, key, read)
    }

    /// Judges all items that were read. It reads no page.
    fn judge_all<D: Disk, Q, W: Meaning<Q>, C: CompareKeys, J: Judge<Q, W>>(
        &mut self,
        alloc: Global,
        frames: &Frames<D>,
        pass: &Pass,
        class: &OpClass<Q, W, C, J>,
        query: &Q,
        work: &mut W,
    ) -> Result<(), FrameError>
        requires may { MayStep D.Disk (meaning W.asked W.all W.satisfies W.judged) query.now
            frames.now pass.now self.old }
        requires stage { (page left : ℕ)
            × (self.old.stage ≡ stages.Down (length (sought_in self.old)) page left) }
        requires serves { J.serves work.old query.now }
        ensures serves { J.serves work.new query.now }
        ensures is_step { IsStepOf D.Disk (meaning W.asked W.all W.satisfies W.judged) query.now
            frames.now pass.now self.old frames.now pass.now self.new result }
    {
        let _ = frames;
        let _ = pass;
        self.pending.put_in_order(alloc, true);
        self.main.put_in_order(alloc, self.keys.all);
        judge_met(
            alloc,
            class,
            query,
            work,
            &self.pending,
            &self.main,
            self.first_item,
            self.keys.all,
            &mut self.kept,
        )?;
        self.stage = Stage::Heads { at: 0 };
        Ok(())
    }

    /// Reads the next page on the way of a key, or judges all items that were read where all walks have ended.
    pub(crate) fn go_on_way<D: Disk, Q, W: Meaning<Q>, C: CompareKeys, J: Judge<Q, W>>(
        &mut self,
        alloc: Global,
        frames: &mut Frames<D>,
        pass: &mut Pass,
        class: &OpClass<Q, W, C, J>,
        query: &Q,
        work: &mut W,
        key: usize,
        page: u32,
        left: u32,
    ) -> Result<(), FrameError>
        requires may { MayStep D.Disk (meaning W.asked W.all W.satisfies W.judged) query.now
            frames.old pass.old self.old }
        requires stage { self.old.stage ≡ stages.Down key page left }
        requires serves { J.serves work.old query.now }
        ensures serves { J.serves work.new query.now }
        ensures is_step { IsStepOf D.Disk (meaning W.asked W.all W.satisfies W.judged) query.now
            frames.old pass.old self.old frames.new pass.new self.new result }
    {
        if key >= self.walk_count() {
            return self.judge_all(alloc, frames, pass, class, query, work);
        }
        if left == 0 {
            let after = self.walk(key + 1);
            return self.go_further::<D, Q, W>(frames, pass, query, after);
        }
        let read = self.most_pages().saturating_sub(left - 1);
        let held = hold_page(frames, pass, page)?;
        let next = self.note_way(alloc, class, held.page(), page, key, left - 1, read);
        self.leave(frames, pass, held, next)
    }

    /// Reads the next leaf, or begins the next walk where there is none.
    pub(crate) fn go_on_leaves<D: Disk, Q, W: Meaning<Q>, C: CompareKeys, J: Judge<Q, W>>(
        &mut self,
        alloc: Global,
        frames: &mut Frames<D>,
        pass: &mut Pass,
        class: &OpClass<Q, W, C, J>,
        query: &Q,
        key: usize,
        page: u32,
        left: u32,
    ) -> Result<(), FrameError>
        requires may { MayStep D.Disk (meaning W.asked W.all W.satisfies W.judged) query.now
            frames.old pass.old self.old }
        requires stage { self.old.stage ≡ stages.Leaf key page left }
        ensures is_step { IsStepOf D.Disk (meaning W.asked W.all W.satisfies W.judged) query.now
            frames.old pass.old self.old frames.new pass.new self.new result }
    {
        let after = self.walk(key + 1);
        if page == 0 {
            self.stage = after;
            return Ok(());
        }
        if left == 0 {
            return self.go_further::<D, Q, W>(frames, pass, query, after);
        }
        let read = self.most_pages().saturating_sub(left - 1);
        let held = hold_page(frames, pass, page)?;
        let next = self.pass_leaf(alloc, class, held.page(), page, key, read);
        self.leave(frames, pass, held, next)
    }
}
