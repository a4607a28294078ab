// A cleanup, step by step.
ghost use Rattle.std.specs.Prelude.{◌≡◌, ◌↔◌, ℕ, ◌<◌, ◌≤◌, length, true, OnOk, OnErr, IfOk, IfErr};
ghost use Rattle.buffer_frames.specs.Passes.{IsPassOf};
ghost use Rattle.gin_place.specs.Placing.{HasRight};
ghost use Rattle.gin_place.specs.Causes.{Finds, NoBadPage};
ghost use Rattle.gin_place.specs.Faults.{MetNoFault, FaultBy};
ghost use Rattle.gin_place.specs.Holding.{ReadsOn};
ghost use Rattle.gin_cleanup.specs.Cleaning.{IsCleaning};
ghost use Rattle.gin_cleanup.specs.Going.{IsCause};
ghost use Rattle.gin_cleanup.specs.Inner.Noting.{IsReadNext, HasTaken, HasKept, EndsBefore, HasNoted};
ghost use Rattle.gin_cleanup.specs.Inner.Between.{HasNext};
ghost use Rattle.gin_cleanup.specs.Inner.Stepping.{StepEnds};

use crate::first_page::hold_meta;
use crate::gathered::Gathered;
use crate::listed::{are_documents, goes_on, items_of, rows_of};
use buffer_frames::{Frames, Pass};
use disk_trait::Disk;
use gin_place::{PlaceError, Placing, hold_seen, release};
use page_types::{Page, Rows};
use std::alloc::{AllocError, Global};

/// A batch has at most so many pages, or those of one document.
const MOST_PAGES: usize = 1024;

/// What is done next.
#[derive(Drop)]
pub(crate) enum Stage {
    /// This page of the list is read; these are the items of the rows on the page before it.
    Reading {
        page: u32,
        before: Vec<u32>,
    },
    /// These items, which rise, are put under this key.
    Placing {
        key: Vec<u8>,
        items: Vec<u32>,
        placing: Placing,
    },
    /// The first page of the list is shifted.
    Shifting,
}

/// A cleanup at work.
#[derive(Drop)]
pub struct Cleanup {
    // how many pages of the list that was there at the beginning are left
    pub(crate) left: u32,
    // how many rows of each page that was read were noted
    pub(crate) counts: Vec<usize>,
    // how many of these pages were shifted
    pub(crate) gone: usize,
    // how many times more the list may be read again, where rows came to its first page
    pub(crate) turns: u32,
    // the keys of these rows that are to be placed, each with its items
    pub(crate) gathered: Gathered,
    pub(crate) stage: Stage,
}

impl Cleanup {
    /// All pages of the list are to be cleaned.
    pub fn begin<D: Disk>(
        alloc: Global,
        frames: &mut Frames<D>,
        pass: &mut Pass,
    ) -> Result<Cleanup, PlaceError>
        requires pass { IsPassOf frames.old pass.old }
        requires right { HasRight pass.old }
        requires none { pass.old.held ≡ 0 }
        ensures cleaning { IfOk result
            (λ c. (from : ℕ) × (pass.old.seen ≤ from) × IsCleaning D.Disk frames.new pass.new from c) }
        ensures reads { ReadsOn D.Disk frames.old pass.old frames.new pass.new }
        ensures none_held { pass.new.held ≡ 0 }
        ensures cause { IfErr result (λ e. Finds D.Disk frames.old pass.old
            (IsCause D.Disk frames.new e)) }
        ensures lawful { IfErr result (NoBadPage D.Disk frames.old) }
        ensures fine { OnOk result (MetNoFault D.Disk frames.old frames.new) }
        ensures fault { IfErr result (λ e. FaultBy D.Disk frames.old frames.new e) }
    {
        let (meta, names) = hold_meta(frames, pass)?;
        release(frames, pass, meta);
        Ok(Cleanup {
            left: names.pages,
            counts: Vec::new(alloc),
            gone: 0,
            turns: u32::MAX,
            gathered: Gathered::new(alloc),
            stage: Stage::Reading {
                page: names.first,
                before: Vec::new(alloc),
            },
        })
    }

    /// Whether all pages that are left were read.
    fn has_read_all(&self) -> bool
        ensures { result ≡ true ↔ (self.now.left ≤ length self.now.counts.items) }
    {
        self.counts.len() >= self.left as usize
    }

    /// The rows of a page are noted, and this page is read next. A refusal may leave some of their pairs.
    fn take(&mut self, alloc: Global, rows: &Rows, right: u32) -> Result<(), AllocError>
        ensures taken { OnOk result (HasTaken rows.now right self.old self.new) }
        ensures kept { OnErr result (HasKept rows.now self.old self.new) }
    {
        self.counts.reserve(1)?;
        self.gathered.put_rows(alloc, rows)?;
        let before = items_of(alloc, rows)?;
        self.counts.push_reserved(rows.len());
        self.stage = Stage::Reading {
            page: right,
            before,
        };
        Ok(())
    }

    /// The least key is next, or the first page is shifted where there is none.
    pub(crate) fn next_key(&mut self)
        ensures { HasNext self.old self.new }
    {
        self.stage = match self.gathered.take_first() {
            Some((key, items)) => Stage::Placing {
                key,
                items,
                placing: Placing::begin(),
            },
            None => Stage::Shifting,
        };
    }

    /// Whether the batch ends before a page with these rows.
    fn ends_before(&self, rows: &Rows) -> bool
        ensures { result ≡ true → EndsBefore rows.now self.now }
    {
        match &self.stage {
            Stage::Reading { before, .. } => {
                self.counts.len() >= MOST_PAGES && !goes_on(rows, before.as_slice())
            }
            _ => false,
        }
    }

    /// Notes the rows of this page, and what is read after it, or ends the batch before it.
    fn note(&mut self, alloc: Global, page: u32, content: &Page) -> Result<(), PlaceError>
        ensures { HasNoted page content.now self.old self.new result }
    {
        let Some(rows) = rows_of(content) else {
            return Err(PlaceError::BadPage { page });
        };
        if !are_documents(rows) {
            return Err(PlaceError::BadPage { page });
        }
        if self.ends_before(rows) {
            self.next_key();
            return Ok(());
        }
        self.take(alloc, rows, content.right)?;
        Ok(())
    }

    /// Reads this page of the list, which is next, or ends the batch before it.
    pub(crate) fn read<D: Disk>(
        &mut self,
        alloc: Global,
        frames: &mut Frames<D>,
        pass: &mut Pass,
        page: u32,
    ) -> Result<(), PlaceError>
        requires pass { IsPassOf frames.old pass.old }
        requires right { HasRight pass.old }
        requires none { pass.old.held ≡ 0 }
        requires some { 0 < self.old.left }
        requires next { IsReadNext page self.old }
        requires cleaning { (from : ℕ) × IsCleaning D.Disk frames.old pass.old from self.old }
        ensures { StepEnds D.Disk frames.old pass.old frames.new pass.new self.old self.new result }
    {
        if self.has_read_all() {
            self.next_key();
            return Ok(());
        }
        let (held, _) = hold_seen(frames, pass, page)?;
        let noted = self.note(alloc, page, held.page());
        release(frames, pass, held);
        noted
    }
}
