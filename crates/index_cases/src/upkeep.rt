// What a pass does beside a scan, by steps: a cleanup or a vacuum.
ghost use Rattle.std.specs.Prelude.{ℕ, List, OnOk, IfOk};
ghost use Rattle.index_cases.specs.Turns.{MayKeep, IsAt, Keeps, Grows, LetScan};

use crate::deleting::delete;
use buffer_frames::{Frames, Pass};
use disk_trait::Disk;
use gin_cleanup::Cleanup;
use gin_place::PlaceError;
use gin_scan::scans_go_on;
use gin_vacuum::{Freeing, Sweeping, find_dead, without_rows};
use page_types::Name;
use posting_code::ItemSet;
use std::alloc::Global;
use std::{mem, result};
use ts_match::MatchWork;
use ts_query::TsQuery;

/// What is done beside a scan.
#[derive(Clone, Copy)]
pub(crate) enum Task {
    /// A cleanup, which has begun when the scan begins.
    Clean,
    /// A vacuum, which begins after the scan.
    Vacuum,
    /// What was dead and had no linked row before the scan began is taken out, and then comes a cleanup.
    Sweep,
    /// This document is deleted after the scan has begun, and then comes a whole vacuum.
    Delete { name: Name },
}

impl Task {
    /// The task of a word, for the documents that a scan finds.
    pub(crate) fn of(word: &str, names: &[Name]) -> Task {
        match (word, names.first()) {
            ("vacuum", _) => Task::Vacuum,
            ("sweep", _) => Task::Sweep,
            ("delete", Some(name)) => Task::Delete { name: *name },
            _ => Task::Clean,
        }
    }

    /// The part that comes first.
    fn first(self) -> Part {
        match self {
            Task::Clean => Part::Clean,
            Task::Vacuum => Part::Seek,
            Task::Sweep => Part::Sweep,
            Task::Delete { name } => Part::Delete { name },
        }
    }
}

/// A part of a task.
#[derive(Clone, Copy)]
enum Part {
    /// A document is deleted.
    Delete { name: Name },
    /// What is dead is sought.
    Seek,
    /// The pending list is moved to the trees.
    Clean,
    /// Dead items are taken out of the trees.
    Sweep,
    /// The chains and the slots of their documents are given back.
    Free,
    /// Nothing is left to do.
    End,
}

/// The part at work, and how far it has come.
#[derive(Drop)]
pub(crate) enum Stage {
    Deleting { name: Name },
    Seeking,
    Cleaning { cleanup: Cleanup },
    Sweeping { sweeping: Sweeping },
    Freeing { freeing: Freeing },
    Done,
}

/// A task at work.
#[derive(Drop)]
pub(crate) struct Upkeep {
    task: Task,
    // the items of the dead documents that were found
    pub(crate) dead: ItemSet,
    pub(crate) stage: Stage,
}

/// The dead items that a task knows of before the scan begins.
fn found_before<D: Disk>(
    alloc: Global,
    frames: &mut Frames<D>,
    pass: &mut Pass,
    task: Task,
) -> result::Result<ItemSet, PlaceError>
    requires silent { D.Disk.tells → ⊥ }
    requires may { MayKeep frames.old pass.old }
    ensures may { OnOk result (MayKeep frames.new pass.new) }
    ensures grows { OnOk result (Grows frames.old frames.new) }
{
    match task {
        Task::Sweep => {
            let dead = find_dead(alloc, frames, pass)?;
            without_rows(alloc, frames, pass, &dead)
        }
        _ => Ok(ItemSet::new(Vec::new(alloc))),
    }
}

/// A part at its beginning.
fn begun<D: Disk>(
    alloc: Global,
    frames: &mut Frames<D>,
    pass: &mut Pass,
    part: Part,
) -> result::Result<Stage, PlaceError>
    requires silent { D.Disk.tells → ⊥ }
    requires may { MayKeep frames.old pass.old }
    ensures may { OnOk result (MayKeep frames.new pass.new) }
    ensures at { IfOk result (λ s. (dead : List ℕ) → IsAt D.Disk frames.new pass.new dead s) }
    ensures grows { OnOk result (Grows frames.old frames.new) }
    ensures scans { OnOk result (LetScan D.Disk frames.old frames.new) }
{
    scans_go_on::<D, TsQuery, MatchWork>();
    match part {
        Part::Delete { name } => Ok(Stage::Deleting { name }),
        Part::Clean => {
            let cleanup = Cleanup::begin(alloc, frames, pass)?;
            Ok(Stage::Cleaning { cleanup })
        }
        Part::Seek => Ok(Stage::Seeking),
        Part::Sweep => {
            let sweeping = Sweeping::begin(alloc);
            Ok(Stage::Sweeping { sweeping })
        }
        Part::Free => {
            let freeing = Freeing::begin();
            Ok(Stage::Freeing { freeing })
        }
        Part::End => Ok(Stage::Done),
    }
}

impl Upkeep {
    /// A task at its beginning.
    pub(crate) fn begin<D: Disk>(
        alloc: Global,
        frames: &mut Frames<D>,
        pass: &mut Pass,
        task: Task,
    ) -> result::Result<Upkeep, PlaceError>
        requires silent { D.Disk.tells → ⊥ }
        requires may { MayKeep frames.old pass.old }
        ensures keeps { IfOk result (Keeps D.Disk frames.new pass.new) }
        ensures grows { OnOk result (Grows frames.old frames.new) }
    {
        let dead = found_before(alloc, frames, pass, task)?;
        let stage = begun(alloc, frames, pass, task.first())?;
        Ok(Upkeep { task, dead, stage })
    }

    /// Whether nothing is left to do.
    pub(crate) fn is_done(&self) -> bool {
        match self.stage {
            Stage::Done => true,
            _ => false,
        }
    }

    /// The part that comes after the one at work.
    fn next(&self) -> Part {
        match (&self.stage, self.task) {
            (Stage::Deleting { .. }, _) => Part::Seek,
            (Stage::Seeking, _) => Part::Clean,
            (Stage::Cleaning { .. }, Task::Vacuum) => Part::Sweep,
            (Stage::Cleaning { .. }, Task::Delete { .. }) => Part::Sweep,
            (Stage::Sweeping { .. }, _) => Part::Free,
            (Stage::Freeing { .. }, Task::Sweep) => Part::Clean,
            _ => Part::End,
        }
    }

    /// Takes a step of the part at work: false where that was its last.
    fn work<D: Disk>(
        &mut self,
        alloc: Global,
        frames: &mut Frames<D>,
        pass: &mut Pass,
    ) -> result::Result<bool, PlaceError>
        requires keeps { Keeps D.Disk frames.old pass.old self.old }
        ensures keeps { OnOk result (Keeps D.Disk frames.new pass.new self.new) }
        ensures scans { OnOk result (LetScan D.Disk frames.old frames.new) }
    {
        scans_go_on::<D, TsQuery, MatchWork>();
        match &mut self.stage {
            Stage::Deleting { name } => {
                delete(alloc, frames, pass, *name)?;
                Ok(false)
            }
            Stage::Seeking => {
                let dead = find_dead(alloc, frames, pass)?;
                drop(mem::replace(&mut self.dead, dead));
                Ok(false)
            }
            Stage::Cleaning { cleanup } => cleanup.step(alloc, frames, pass),
            Stage::Sweeping { sweeping } => sweeping.step(alloc, frames, pass, &self.dead),
            Stage::Freeing { freeing } => freeing.step(alloc, frames, pass, &self.dead),
            Stage::Done => Ok(false),
        }
    }

    /// Begins the part that comes next.
    fn begin_next<D: Disk>(
        &mut self,
        alloc: Global,
        frames: &mut Frames<D>,
        pass: &mut Pass,
    ) -> result::Result<(), PlaceError>
        requires keeps { Keeps D.Disk frames.old pass.old self.old }
        ensures keeps { OnOk result (Keeps D.Disk frames.new pass.new self.new) }
        ensures scans { OnOk result (LetScan D.Disk frames.old frames.new) }
    {
        let part = self.next();
        let stage = begun(alloc, frames, pass, part)?;
        drop(mem::replace(&mut self.stage, stage));
        Ok(())
    }

    /// Takes a step of the part at work, and begins the next one where that was its last.
    pub(crate) fn step<D: Disk>(
        &mut self,
        alloc: Global,
        frames: &mut Frames<D>,
        pass: &mut Pass,
    ) -> result::Result<(), PlaceError>
        requires keeps { Keeps D.Disk frames.old pass.old self.old }
        ensures keeps { OnOk result (Keeps D.Disk frames.new pass.new self.new) }
        ensures scans { OnOk result (LetScan D.Disk frames.old frames.new) }
    {
        if self.work(alloc, frames, pass)? {
            return Ok(());
        }
        self.begin_next(alloc, frames, pass)
    }
}
