// What a scan reads of heap pages.
ghost use Rattle.std.specs.Prelude.{◌≡◌, ◌↔◌, ◌⊎◌, ℕ, ◌+◌, ◌<◌, ◌≤◌, Bool, List, Some, [], ◌∷◌};
ghost use Rattle.std.specs.Prelude.{◌++◌, length, slice_range, IsTrue, IfOk, IfErr, OnOk};
ghost use Rattle.std.specs.List.{slice_get};
ghost use Rattle.page_types.specs.Parts.{head_shown};
ghost use Rattle.core_state.specs.Documents as documents;
ghost use Rattle.gin_opclass.specs.Class.{meaning};
ghost use Rattle.wal.specs.Waiting.{down_of};
ghost use Rattle.buffer_frames.specs.declared.frame_error.FrameError.TheVariants.{OutOfMemory, Down, BadPage};
ghost use Rattle.gin_scan.specs.Causes.{HasSlots};

use crate::asks::{SeenHeads, page_of, slot_of};
use crate::check::Check;
use crate::scan_core::{ScanCore, hold_page, look_on};
use crate::stage::{LongVector, Stage};
use buffer_frames::{FrameError, Frames, Pass};
use disk_trait::Disk;
use doc_heap::head;
use gin_opclass::{Judge, Meaning};
use page_types::{Body, HeadRef, MOST_SHORT_BYTES, Name, Page};
use std::alloc::{AllocError, Global};

/// Whether it is a heap page.
fn is_heap(page: &Page) -> bool
    ensures { IsTrue result ↔ HasSlots page.now }
{
    matches!(page.body, Body::Heap(_))
}

/// The number of the first kept item, from this one on, that isn't on this heap page.
fn end_of_page(kept: &[(u32, bool)], from: usize, page: u32) -> usize
    requires { from ≤ length kept.now }
    ensures behind { from ≤ result }
    ensures within { result ≤ length kept.now }
    ensures here { (k : ℕ) (item : ℕ) (sure : Bool) → from ≤ k → k < result
        → slice_get kept.now k ≡ Some (item, sure) → documents.page_of item ≡ page }
    ensures more { (item : ℕ) (sure : Bool) → slice_get kept.now from ≡ Some (item, sure)
        → documents.page_of item ≡ page → from < result }
    ensures next { (k : ℕ × Bool) → slice_get kept.now result ≡ Some k
        → documents.page_of k.0 ≡ page → ⊥ }
{
    let mut end = from;
    while end < kept.len() && page_of(kept[end].0) == page {
        end += 1;
    }
    end
}

impl ScanCore {
    ghost use Rattle.buffer_frames.specs.Passes.{IsPassOf};
    ghost use Rattle.core_state.specs.States.{fate_of};
    ghost use Rattle.gin_scan.specs.Seen.{AreSeen};
    ghost use Rattle.gin_scan.specs.Inner.Looks.{LooksOn};
    ghost use Rattle.gin_scan.specs.Inner.Steps.{MayStep, IsStepOf};
    ghost use Rattle.gin_scan.specs.Inner.Heads.{TakesDocument, TakesIfSeen, TakesDocuments, KeepsRest};
    ghost use Rattle.gin_scan.specs.declared.stage.Stage.TheVariants as stages;

    /// Adds a name to those that were found.
    pub(crate) fn add_name(&mut self, name: Name) -> Result<(), AllocError>
        ensures added { OnOk result (self.new.names.items ≡ self.old.names.items ++ name ∷ []) }
        ensures rest { self.new ≡ record self.old { names = self.new.names } }
    {
        self.names.push(name)?;
        Ok(())
    }

    /// Takes the document of a head that the snapshot sees, which satisfies the query for sure or not: its
    /// name if it satisfies the query, or where its vector is.
    fn take_document<Q, W: Meaning<Q>, J: Judge<Q, W>, M: Check<Q, W, J>>(
        &mut self,
        query: &Q,
        work: &mut W,
        check: &M,
        found: HeadRef<'_>,
        item: u32,
        sure: bool,
    ) -> Result<(), AllocError>
        requires serves { J.serves work.old query.now }
        ensures serves { J.serves work.new query.now }
        ensures took { self.new.took_pin ≡ self.old.took_pin }
        ensures taken { OnOk result (TakesDocument (W.satisfies query.now) item sure
            (head_shown found.entry) self.old self.new) }
    {
        let name = Name {
            page: page_of(item),
            slot: slot_of(item),
            serial: found.fields.serial,
        };
        if sure {
            return self.add_name(name);
        }
        if found.fields.bytes > MOST_SHORT_BYTES {
            self.long.push(LongVector {
                name,
                first: found.fields.overflow,
                size: found.fields.bytes,
            })?;
            return Ok(());
        }
        if !check.check(query, work, found.vector) {
            return Ok(());
        }
        self.add_name(name)
    }

    /// Takes the document of a kept item, if the snapshot sees its head on this heap page.
    fn take_if_seen<Q, W: Meaning<Q>, J: Judge<Q, W>, M: Check<Q, W, J>>(
        &mut self,
        query: &Q,
        work: &mut W,
        check: &M,
        page: &Page,
        item: u32,
        sure: bool,
        is_seen: bool,
    ) -> Result<(), AllocError>
        requires serves { J.serves work.old query.now }
        ensures serves { J.serves work.new query.now }
        ensures took { self.new.took_pin ≡ self.old.took_pin }
        ensures taken { OnOk result (TakesIfSeen (W.satisfies query.now) page.now (item, sure) is_seen
            self.old self.new) }
        ensures rest { OnOk result (KeepsRest self.old self.new) }
    {
        if !is_seen {
            return Ok(());
        }
        let Some(found) = head(page, slot_of(item)) else {
            return Ok(());
        };
        self.take_document(query, work, check, found, item, sure)
    }

    /// Takes the documents of those heads on a heap page that the snapshot sees, of the kept items from one
    /// number on.
    fn take_documents<Q, W: Meaning<Q>, J: Judge<Q, W>, M: Check<Q, W, J>>(
        &mut self,
        query: &Q,
        work: &mut W,
        check: &M,
        page: &Page,
        from: usize,
        seen: &[bool],
    ) -> Result<(), AllocError>
        requires serves { J.serves work.old query.now }
        requires within { from + length seen.now ≤ length self.old.kept.items }
        ensures serves { J.serves work.new query.now }
        ensures took { self.new.took_pin ≡ self.old.took_pin }
        ensures taken { OnOk result (TakesDocuments (W.satisfies query.now) page.now from seen.now
            self.old self.new) }
        ensures rest { OnOk result (KeepsRest self.old self.new) }
    {
        for k in 0..seen.len() {
            let (item, sure) = self.kept[from + k];
            self.take_if_seen(query, work, check, page, item, sure, seen[k])?;
        }
        Ok(())
    }

    /// Reads the heads of the kept items between two numbers, on their heap page, which is held and has this
    /// number. The kept items after them are next.
    fn read_page<D: Disk, Q, W: Meaning<Q>, J: Judge<Q, W>, M: Check<Q, W, J>>(
        &mut self,
        alloc: Global,
        frames: &mut Frames<D>,
        pass: &mut Pass,
        query: &Q,
        work: &mut W,
        check: &M,
        page: &Page,
        number: u32,
        from: usize,
        end: usize,
    ) -> Result<Stage, FrameError>
        requires pass { IsPassOf frames.old pass.old }
        requires serves { J.serves work.old query.now }
        requires ordered { from ≤ end }
        requires within { end ≤ length self.old.kept.items }
        ensures serves { J.serves work.new query.now }
        ensures took { self.new.took_pin ≡ self.old.took_pin }
        ensures looks { LooksOn D.Disk frames.old pass.old frames.new pass.new }
        ensures next { IfOk result (λ next. next ≡ stages.Heads end) }
        ensures heap { OnOk result (HasSlots page.now) }
        ensures taken { OnOk result ((seen : List Bool)
            × AreSeen (fate_of frames.new.journal.state) self.old.snapshot page.now
            (slice_range self.old.kept.items from end) seen
            × TakesDocuments (W.satisfies query.now) page.now from seen
            (record self.old { heads_read = self.new.heads_read }) self.new) }
        ensures rest { OnOk result (self.new ≡ record self.old {
          names = self.new.names;
          long = self.new.long;
          heads_read = self.new.heads_read;
        }) }
        ensures counted { OnOk result (self.new.heads_read + from ≤ self.old.heads_read + end) }
        ensures error { IfErr result (λ e. (e ≡ OutOfMemory)
            ⊎ (((e ≡ BadPage number) × (HasSlots page.now → ⊥))
            ⊎ ((f : ℕ) × (e ≡ Down f) × (down_of frames.old.journal.wal ≡ Some f)))) }
    {
        if !is_heap(page) {
            return Err(FrameError::BadPage { page: number });
        }
        let items = &self.kept.as_slice()[from..end];
        let ask = SeenHeads {
            alloc,
            page,
            items,
            commits: self.snapshot,
        };
        let answer = look_on(frames, pass, &ask)?;
        let seen = answer?;
        self.heads_read = self.heads_read.saturating_add((end - from) as u64);
        self.take_documents(query, work, check, page, from, seen.as_slice())?;
        Ok(Stage::Heads { at: end })
    }

    /// Reads the heap page of the kept item with this number, or ends the heads where there is none.
    pub(crate) fn go_on_heads<D: Disk, Q, W: Meaning<Q>, J: Judge<Q, W>, M: Check<Q, W, J>>(
        &mut self,
        alloc: Global,
        frames: &mut Frames<D>,
        pass: &mut Pass,
        query: &Q,
        work: &mut W,
        check: &M,
        at: usize,
    ) -> Result<(), FrameError>
        requires may { MayStep D.Disk (meaning W.asked W.all W.satisfies W.judged) query.now
            frames.old pass.old self.old }
        requires stage { self.old.stage ≡ stages.Heads at }
        requires serves { J.serves work.old query.now }
        ensures serves { J.serves work.new query.now }
        ensures is_step { IsStepOf D.Disk (meaning W.asked W.all W.satisfies W.judged) query.now
            frames.old pass.old self.old frames.new pass.new self.new result }
    {
        if at >= self.kept.len() {
            self.begin_long(0);
            return Ok(());
        }
        let number = page_of(self.kept[at].0);
        let end = end_of_page(self.kept.as_slice(), at, number);
        let held = hold_page(frames, pass, number)?;
        let page = held.page();
        let next = self.read_page(
            alloc, frames, pass, query, work, check, page, number, at, end,
        );
        self.leave(frames, pass, held, next)
    }
}
