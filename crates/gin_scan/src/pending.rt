// What a scan reads of the metapage and of the pending list.
ghost use Rattle.std.specs.Prelude.{◌≡◌, ◌⊎◌, List, Option, Some, IfOk, IfErr, IfSome, IfNone, OnOk};
ghost use Rattle.page_types.specs.Views.{kept_rows_of, first_of};
ghost use Rattle.page_types.specs.declared.page.Row.{Row};
ghost use Rattle.buffer_frames.specs.declared.frame_error.FrameError.TheVariants.{BadPage, OutOfMemory};
ghost use Rattle.gin_opclass.specs.Class.{meaning};
ghost use Rattle.gin_hits.specs.Rows.{first_of_rows};
ghost use Rattle.gin_scan.specs.Causes.{HasMeta, HasRows};
ghost use Rattle.gin_scan.specs.declared.stage.Stage.TheVariants as stages;

use crate::scan_core::{ScanCore, hold_page};
use crate::stage::Stage;
use buffer_frames::{FrameError, Frames, Pass};
use disk_trait::Disk;
use gin_opclass::{CompareKeys, Judge, Meaning, OpClass};
use page_types::{Body, Gone, Page, Rows};

/// The first page of the pending list, of which so many pages may be read, where the page of this number is a metapage.
fn first_pending(page: &Page, number: u32, left: u32) -> Result<Stage, FrameError>
    ensures first { IfOk result (λ next. HasMeta page.now × (next ≡ stages.Pending (first_of page.now) left)) }
    ensures bad { IfErr result (λ e. (e ≡ BadPage number) × (HasMeta page.now → ⊥)) }
{
    match &page.body {
        Body::Meta { first, .. } => Ok(Stage::Pending { page: *first, left }),
        _ => Err(FrameError::BadPage { page: number }),
    }
}

/// The rows of a pending page, which one that was deleted keeps.
fn kept_rows(page: &Page) -> Option<&Rows>
    ensures some { IfSome result (λ rows. HasRows page.now × (rows.now ≡ kept_rows_of page.now)) }
    ensures none { IfNone result (HasRows page.now → ⊥) }
{
    match &page.body {
        Body::Pending(rows) => Some(rows),
        Body::Deleted(Gone::Pending(rows)) => Some(rows),
        _ => None,
    }
}

/// The item of the first row, if there is one.
fn first_item(rows: &Rows) -> Option<u32>
    ensures { result ≡ first_of_rows rows.now }
{
    match rows.get(0) {
        Some(row) => Some(row.item),
        None => None,
    }
}

impl ScanCore {
    ghost use Rattle.std.specs.Prelude.{◌≢◌, ◌-◌, ◌^◌, ◌<◌, ◌++◌, length, true, cond};
    ghost use Rattle.page_types.specs.Pages.{IsPage};
    ghost use Rattle.gin_hits.specs.Rows.{AreNoted};
    ghost use Rattle.gin_scan.specs.Scanning.{IsScan, asked_in};
    ghost use Rattle.gin_scan.specs.Inner.Steps.{MayStep, IsStepOf};
    ghost use Rattle.gin_scan.specs.Inner.Notes.{NotesRows};

    /// Reads the metapage.
    pub(crate) fn read_meta<D: Disk, Q, W: Meaning<Q>>(
        &mut self,
        frames: &mut Frames<D>,
        pass: &mut Pass,
        query: &Q,
    ) -> Result<(), FrameError>
        requires may { MayStep D.Disk (meaning W.asked W.all W.satisfies W.judged) query.now
            frames.old pass.old self.old }
        requires stage { self.old.stage ≡ stages.Meta }
        ensures is_step { IsStepOf D.Disk (meaning W.asked W.all W.satisfies W.judged) query.now
            frames.old pass.old self.old frames.new pass.new self.new result }
    {
        let _ = query;
        let held = hold_page(frames, pass, 0)?;
        let next = first_pending(held.page(), 0, self.extent);
        self.leave(frames, pass, held, next)
    }

    /// The list is begun from now on: the item of the first of these rows is its first, if none was met.
    fn begin_list(&mut self, rows: &Rows)
        ensures { self.new ≡ record self.old {
          has_begun = true;
          first_item = cond self.old.has_begun self.old.first_item (first_of_rows rows.now);
        } }
    {
        if !self.has_begun {
            self.has_begun = true;
            self.first_item = first_item(rows);
        }
    }

    /// Notes the items of the rows on a page of the list, which has this number: the page that it leads to, of at most
    /// so many.
    fn note_rows<Q, W: Meaning<Q>, C: CompareKeys, J: Judge<Q, W>>(
        &mut self,
        class: &OpClass<Q, W, C, J>,
        page: &Page,
        number: u32,
        left: u32,
    ) -> Result<Stage, FrameError>
        requires scan { IsScan self.old }
        requires page { IsPage page.now }
        ensures took { self.new.took_pin ≡ self.old.took_pin }
        ensures noted { IfOk result (NotesRows self.old page.now left self.new) }
        ensures bad { IfErr result (λ e. (e ≡ OutOfMemory)
            ⊎ ((e ≡ BadPage number) × (HasRows page.now → ⊥))) }
    {
        let Some(rows) = kept_rows(page) else {
            return Err(FrameError::BadPage { page: number });
        };
        self.begin_list(rows);
        self.pending
            .add_rows(class, self.keys.keys.as_slice(), rows)?;
        Ok(Stage::Pending {
            page: page.right,
            left,
        })
    }

    /// Reads the next page of the list, or goes on to the tree where there is none.
    pub(crate) fn go_on_list<D: Disk, Q, W: Meaning<Q>, C: CompareKeys, J: Judge<Q, W>>(
        &mut self,
        frames: &mut Frames<D>,
        pass: &mut Pass,
        class: &OpClass<Q, W, C, J>,
        query: &Q,
        work: &mut W,
        page: u32,
        left: u32,
    ) -> Result<(), FrameError>
        requires may { MayStep D.Disk (meaning W.asked W.all W.satisfies W.judged) query.now
            frames.old pass.old self.old }
        requires stage { self.old.stage ≡ stages.Pending page left }
        requires serves { J.serves work.old query.now }
        ensures serves { J.serves work.new query.now }
        ensures is_step { IsStepOf D.Disk (meaning W.asked W.all W.satisfies W.judged) query.now
            frames.old pass.old self.old frames.new pass.new self.new result }
    {
        let after = self.walk(0);
        if page == 0 {
            self.stage = after;
            return Ok(());
        }
        if left == 0 {
            return self.go_further::<D, Q, W>(frames, pass, query, after);
        }
        let held = hold_page(frames, pass, page)?;
        let next = self.note_rows(class, held.page(), page, left - 1);
        self.leave(frames, pass, held, next)
    }
}
