// What a scan reads of long vectors, and the end of a scan.
ghost use Rattle.std.specs.Prelude.{◌≡◌, ◌↔◌, ◌⊎◌, ℕ, ◌+◌, ◌<◌, ◌≤◌, ◌++◌, length};
ghost use Rattle.std.specs.Prelude.{IsTrue, IfOk, IfErr, OnOk};
ghost use Rattle.std.specs.List.Sorted.{IsPermutation, IsNonDecreasingBy};
ghost use Rattle.page_types.specs.Views.{part_of};
ghost use Rattle.page_types.specs.declared.page.Name.{Name as NameValue};
ghost use Rattle.core_moments.specs.Walk.{rightward};
ghost use Rattle.buffer_frames.specs.declared.frame_error.FrameError.TheVariants.{BadPage, OutOfMemory};
ghost use Rattle.gin_opclass.specs.Class.{meaning};
ghost use Rattle.gin_scan.specs.Causes.{HasPart};
ghost use Rattle.gin_scan.specs.declared.stage.Stage.TheVariants as stages;

use crate::check::Check;
use crate::scan_core::{ScanCore, hold_page};
use crate::stage::Stage;
use buffer_frames::{FrameError, Frames, Pass};
use disk_trait::Disk;
use gin_opclass::{Judge, Meaning};
use page_types::{Body, Name, Page};
use std::alloc::AllocError;

/// Adds the part of the vector that waits under a number which is on this page, which has this number: the page that it
/// leads to, of at most so many.
fn add_part_of(
    page: &Page,
    number: u32,
    bytes: &mut Vec<u8>,
    at: usize,
    left: u32,
) -> Result<Stage, FrameError>
    ensures added { IfOk result (λ next. HasPart page.now × (next ≡ stages.Parts at (rightward page.now) left)
        × (bytes.new.items ≡ bytes.old.items ++ part_of page.now)) }
    ensures cause { IfErr result (λ e. (e ≡ OutOfMemory) ⊎ ((e ≡ BadPage number) × (HasPart page.now → ⊥))) }
{
    match &page.body {
        Body::Overflow(part) => {
            bytes.extend_from_slice(part.as_slice())?;
            Ok(Stage::Parts {
                at,
                page: page.right,
                left,
            })
        }
        _ => Err(FrameError::BadPage { page: number }),
    }
}

/// The names are by serial from now on.
fn put_by_serial(names: &mut Vec<Name>)
    ensures same { IsPermutation names.old.items names.new.items }
    ensures rise { IsNonDecreasingBy (λ (name : NameValue). name.serial) names.new.items }
{
    names.sort_unstable_by_key(|name| name.serial);
}

impl ScanCore {
    ghost use Rattle.gin_scan.specs.Inner.Steps.{MayStep, IsStepOf};
    ghost use Rattle.gin_scan.specs.Inner.Parts.{IsReadUp, BeginsLong, AddsIfTold};

    /// How many pages a chain has at most.
    pub(crate) fn most_pages(&self) -> u32
        ensures { result ≡ self.now.extent }
    {
        self.extent
    }

    /// Begins the vector that waits under this number, or ends where there are no more.
    pub(crate) fn begin_long(&mut self, at: usize)
        requires { at ≤ length self.old.long.items }
        ensures { BeginsLong self.old at self.new }
    {
        if at < self.long.len() {
            self.bytes.clear();
            self.stage = Stage::Parts {
                at,
                page: self.long[at].first,
                left: self.most_pages(),
            };
            return;
        }
        put_by_serial(&mut self.names);
        self.stage = Stage::Done;
    }

    /// Whether no part more is read of the vector that waits under this number: there is none, or there are
    /// more bytes than it has.
    fn is_read(&self, at: usize, page: u32, left: u32) -> bool
        requires { at < length self.now.long.items }
        ensures { IsTrue result ↔ IsReadUp self.now at page left }
    {
        page == 0 || left == 0 || self.bytes.len() > self.long[at].size as usize
    }

    /// Takes the name of the vector that waits under this number, if the bytes that were read are all and
    /// it satisfies the query.
    fn take_long<Q, W: Meaning<Q>, J: Judge<Q, W>, M: Check<Q, W, J>>(
        &mut self,
        query: &Q,
        work: &mut W,
        check: &M,
        at: usize,
    ) -> Result<(), AllocError>
        requires serves { J.serves work.old query.now }
        requires within { at < length self.old.long.items }
        ensures serves { J.serves work.new query.now }
        ensures took { self.new.took_pin ≡ self.old.took_pin }
        ensures taken { OnOk result (AddsIfTold (W.satisfies query.now) self.old at self.new) }
    {
        let long = self.long[at];
        if self.bytes.len() != long.size as usize {
            return Ok(());
        }
        if !check.check(query, work, self.bytes.as_slice()) {
            return Ok(());
        }
        self.add_name(long.name)
    }

    /// Matches the vector that waits under this number, of which all parts were read.
    fn match_long<D: Disk, Q, W: Meaning<Q>, J: Judge<Q, W>, M: Check<Q, W, J>>(
        &mut self,
        frames: &Frames<D>,
        pass: &Pass,
        query: &Q,
        work: &mut W,
        check: &M,
        at: usize,
    ) -> Result<(), FrameError>
        requires may { MayStep D.Disk (meaning W.asked W.all W.satisfies W.judged) query.now
            frames.now pass.now self.old }
        requires serves { J.serves work.old query.now }
        requires stage { (page left : ℕ) × (self.old.stage ≡ stages.Parts at page left)
            × IsReadUp self.old at page left }
        ensures serves { J.serves work.new query.now }
        ensures is_step { IsStepOf D.Disk (meaning W.asked W.all W.satisfies W.judged) query.now
            frames.now pass.now self.old frames.now pass.now self.new result }
    {
        let _ = frames;
        let _ = pass;
        self.take_long(query, work, check, at)?;
        self.begin_long(at + 1);
        Ok(())
    }

    /// Reads a part of the vector that waits under this number, or matches it where all were read.
    pub(crate) fn go_on_long<D: Disk, Q, W: Meaning<Q>, J: Judge<Q, W>, M: Check<Q, W, J>>(
        &mut self,
        frames: &mut Frames<D>,
        pass: &mut Pass,
        query: &Q,
        work: &mut W,
        check: &M,
        at: usize,
        page: u32,
        left: u32,
    ) -> Result<(), FrameError>
        requires may { MayStep D.Disk (meaning W.asked W.all W.satisfies W.judged) query.now
            frames.old pass.old self.old }
        requires stage { self.old.stage ≡ stages.Parts at page left }
        requires serves { J.serves work.old query.now }
        ensures serves { J.serves work.new query.now }
        ensures is_step { IsStepOf D.Disk (meaning W.asked W.all W.satisfies W.judged) query.now
            frames.old pass.old self.old frames.new pass.new self.new result }
    {
        if self.is_read(at, page, left) {
            return self.match_long(frames, pass, query, work, check, at);
        }
        let held = hold_page(frames, pass, page)?;
        let next = add_part_of(held.page(), page, &mut self.bytes, at, left - 1);
        self.leave(frames, pass, held, next)
    }
}
