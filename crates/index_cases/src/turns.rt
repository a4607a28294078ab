// A scan and a cleanup or a vacuum in turn, by two passes over one store.
ghost use Rattle.std.specs.Prelude.{◌≡◌, OnOk, IfOk, false};
ghost use Rattle.gin_scan.specs.Scanning.{IsAtEnd};
ghost use Rattle.buffer_frames.specs.Passes.{IsPassOf};
ghost use Rattle.index_cases.specs.Turns.{AreFresh, Scans, Keeps, MayKeep};

use crate::pages::{opened, synced};
use crate::rows::{Row, word};
use crate::scans::scan_on;
use crate::upkeep::{Task, Upkeep};
use crate::{exchange, print_counts, refused};
use anyhow::Result;
use bench_base::Bench;
use buffer_frames::{Frames, Pass};
use disk_trait::{Disk, MemoryDisk};
use gin_place::PlaceError;
use gin_scan::Scan;
use page_types::Name;
use std::alloc::Global;
use std::result;
use ts_query::TsQuery;

/// How many steps of the other work come before each further one of a scan, after those that it takes alone: one, some
/// or all.
const SHARES: [u32; 5] = [1, 2, 3, 7, 1_000_000];

/// More steps than a scan and the other work take here.
const MOST_STEPS: u32 = 1_000_000;

/// In what order steps are taken: so many of the scan, and then so many of the other work before each other one.
#[derive(Clone, Copy)]
struct Order {
    lead: u32,
    share: u32,
}

impl Order {
    /// Whether the step of this number is one of the other work.
    fn is_others(self, number: u32) -> bool {
        match number.checked_sub(self.lead) {
            Some(later) => later % self.share.saturating_add(1) != self.share,
            None => false,
        }
    }
}

/// What a scan and a task that take turns come to.
#[derive(Clone, Copy)]
struct Turns {
    /// How many documents the scan finds.
    found: usize,
    /// Whether these are the documents that it finds alone.
    same: bool,
    /// How many steps the task took.
    beside: u32,
    /// How many items it found dead.
    dead: usize,
}

/// A scan and the work beside it, and how many steps were taken of that.
#[derive(Drop)]
struct Pair<'a> {
    scan: Scan<'a>,
    upkeep: Upkeep,
    beside: u32,
}

impl<'a> Pair<'a> {
    /// Takes a step of the work beside the scan, if it is its turn and it has more, or else of the scan: false where
    /// that was the scan's last.
    fn step<D: Disk>(
        &mut self,
        alloc: Global,
        frames: &mut Frames<D>,
        pass: &mut Pass,
        other: &mut Pass,
        is_others: bool,
    ) -> result::Result<bool, PlaceError>
        requires scans { Scans D.Disk frames.old pass.old self.old.scan }
        requires keeps { Keeps D.Disk frames.old other.old self.old.upkeep }
        ensures scans { OnOk result (Scans D.Disk frames.new pass.new self.new.scan) }
        ensures keeps { OnOk result (Keeps D.Disk frames.new other.new self.new.upkeep) }
        ensures end { IfOk result (λ more. more ≡ false → IsAtEnd self.new.scan.core) }
    {
        let is_beside = is_others && !self.upkeep.is_done();
        if is_beside {
            self.upkeep.step(alloc, frames, other)?;
            self.beside = self.beside.saturating_add(1);
            return Ok(true);
        }
        let more = self.scan.step(alloc, frames, pass)?;
        Ok(more)
    }

    /// Takes all steps of the scan in this order.
    fn go_on<D: Disk>(
        &mut self,
        alloc: Global,
        frames: &mut Frames<D>,
        pass: &mut Pass,
        other: &mut Pass,
        order: Order,
    ) -> result::Result<(), PlaceError>
        requires scans { Scans D.Disk frames.old pass.old self.old.scan }
        requires keeps { Keeps D.Disk frames.old other.old self.old.upkeep }
        ensures scans { OnOk result (Scans D.Disk frames.new pass.new self.new.scan) }
        ensures keeps { OnOk result (Keeps D.Disk frames.new other.new self.new.upkeep) }
        ensures end { OnOk result (IsAtEnd self.new.scan.core) }
    {
        for number in 0..MOST_STEPS {
            let is_others = order.is_others(number);
            if !self.step(alloc, frames, pass, other, is_others)? {
                return Ok(());
            }
        }
        Err(PlaceError::OutOfMemory)
    }

    /// Ends the scan: what both come to, where the scan finds these documents alone.
    fn close<D: Disk>(
        self,
        frames: &mut Frames<D>,
        pass: &mut Pass,
        other: &Pass,
        alone: &[Name],
    ) -> Turns
        requires scans { Scans D.Disk frames.old pass.old self.scan }
        requires keeps { Keeps D.Disk frames.old other.now self.upkeep }
        requires end { IsAtEnd self.scan.core }
        ensures pass { IsPassOf frames.new pass.new }
        ensures other { MayKeep frames.new other.now }
        ensures room { pass.new.room ≡ 15 }
    {
        let Pair {
            scan,
            upkeep,
            beside,
        } = self;
        let names = scan.finish(frames, pass).names;
        let dead = upkeep.dead.items().len();
        drop(upkeep);
        Turns {
            found: names.len(),
            same: names.as_slice() == alone,
            beside,
            dead,
        }
    }
}

/// A scan for a query, and a task with a pass of its own.
fn begin<'a, D: Disk>(
    alloc: Global,
    frames: &mut Frames<D>,
    pass: &mut Pass,
    query: &'a TsQuery,
    task: Task,
) -> result::Result<(Pass, Pair<'a>), PlaceError>
    requires silent { D.Disk.tells → ⊥ }
    requires fresh { AreFresh frames.old pass.old }
    ensures scans { IfOk result (λ x. Scans D.Disk frames.new pass.new (x.1).scan) }
    ensures keeps { IfOk result (λ x. Keeps D.Disk frames.new x.0 (x.1).upkeep) }
{
    let mut other = frames.split(pass);
    frames.claim_work(&mut other);
    let upkeep = Upkeep::begin(alloc, frames, &mut other, task)?;
    match Scan::begin(alloc, frames, pass, query) {
        Ok(scan) => {
            let pair = Pair {
                scan,
                upkeep,
                beside: 0,
            };
            Ok((other, pair))
        }
        Err(error) => {
            drop(upkeep);
            Err(PlaceError::from(error))
        }
    }
}

/// What a scan for a query comes to that takes turns with a task, where it finds these documents alone. What they log
/// is flushed then.
fn take_turns<D: Disk>(
    alloc: Global,
    frames: &mut Frames<D>,
    pass: &mut Pass,
    query: &TsQuery,
    task: Task,
    order: Order,
    alone: &[Name],
) -> result::Result<Turns, PlaceError>
    requires silent { D.Disk.tells → ⊥ }
    requires fresh { AreFresh frames.old pass.old }
    ensures { OnOk result (pass.new.room ≡ 16) }
{
    let (mut other, mut pair) = begin(alloc, frames, pass, query, task)?;
    match pair.go_on(alloc, frames, pass, &mut other, order) {
        Ok(()) => {
            let turns = pair.close(frames, pass, &other, alone);
            frames.join(pass, other);
            frames.flush_log(pass)?;
            Ok(turns)
        }
        Err(error) => {
            drop(pair);
            Err(error)
        }
    }
}

/// The same over what is synced of a device, and the device as both leave it.
fn turns_on(
    alloc: Global,
    disk: &MemoryDisk,
    query: &TsQuery,
    task: Task,
    order: Order,
    alone: &[Name],
) -> Option<(Turns, MemoryDisk)> {
    let image = synced(alloc, disk).ok()?;
    match opened(alloc, image, "") {
        Ok((mut frames, mut pass)) => {
            match take_turns(alloc, &mut frames, &mut pass, query, task, order, alone) {
                Ok(turns) => Some((turns, frames.close(pass).disk)),
                Err(_) => {
                    drop(frames);
                    None
                }
            }
        }
        Err(unopened) => {
            drop(unopened);
            None
        }
    }
}

/// Counts of runs in which a scan and a task take turns.
#[derive(Clone, Copy)]
struct Counts {
    /// The runs.
    runs: u64,
    /// Those in which the scan finds other documents than alone, or is refused.
    differ: u64,
    /// The most steps of the task.
    beside: u32,
    /// The most items that it finds dead.
    dead: usize,
}

impl Counts {
    /// One run more, which comes to this.
    fn note(&mut self, turns: Option<(Turns, MemoryDisk)>) {
        self.runs = self.runs.saturating_add(1);
        let is_same = match turns {
            Some((turns, left)) => {
                drop(left);
                self.beside = self.beside.max(turns.beside);
                self.dead = self.dead.max(turns.dead);
                turns.same
            }
            None => false,
        };
        if !is_same {
            self.differ = self.differ.saturating_add(1);
        }
    }

    /// The runs in which the scan takes so many steps alone.
    fn note_shares(
        &mut self,
        alloc: Global,
        disk: &MemoryDisk,
        query: &TsQuery,
        task: Task,
        lead: u32,
        alone: &[Name],
    ) {
        for share in SHARES {
            let order = Order { lead, share };
            self.note(turns_on(alloc, disk, query, task, order, alone));
        }
    }
}

/// How many documents a scan for a query finds alone, and what is counted of the runs in which it takes so many steps
/// or fewer first, and then turns with the task of a word.
fn count_turns(
    alloc: Global,
    disk: &MemoryDisk,
    query: &TsQuery,
    word: &str,
    leads: u32,
) -> Option<(usize, Counts)> {
    let (steps, found) = scan_on(alloc, disk, query).ok()?;
    let task = Task::of(word, &found.names);
    let mut counts = Counts {
        runs: 0,
        differ: 0,
        beside: 0,
        dead: 0,
    };
    let first = u32::try_from(steps).unwrap_or(u32::MAX).saturating_add(1);
    for lead in 0..first.min(leads) {
        counts.note_shares(alloc, disk, query, task, lead, &found.names);
    }
    Some((found.names.len(), counts))
}

/// Prints how many documents a scan for the query of a row finds, alone and in turn with the task of its first word: in
/// how many runs, how many find other documents, how many steps the task takes at most, and how many items it finds
/// dead. The scan takes none, one or more steps alone first, each number below that of the row.
pub(crate) fn run(bench: &Bench<'_>, disk: &MemoryDisk, row: Row<'_>) -> Result<()> {
    let (name, text) = word(row.words);
    let Ok(query) = TsQuery::parse(bench.alloc(), text) else {
        return Err(refused("no query"));
    };
    let counted = count_turns(bench.alloc(), disk, &query, name, row.times);
    drop(query);
    let Some((names, counts)) = counted else {
        return Err(refused("a scan is refused"));
    };
    let counts = [
        (names as u64, row.title),
        (counts.runs, "runs in turn"),
        (counts.differ, "of them find something else"),
        (u64::from(counts.beside), "steps beside the scan at most"),
        (counts.dead as u64, "items found dead at most"),
    ];
    print_counts(bench, &counts)
}

/// What a scan for a query comes to whose steps come after the whole task of a word, and the device as both leave it.
fn after_task(
    alloc: Global,
    disk: &MemoryDisk,
    query: &TsQuery,
    word: &str,
) -> Option<(Turns, MemoryDisk)> {
    let (_, found) = scan_on(alloc, disk, query).ok()?;
    let task = Task::of(word, &found.names);
    let order = Order {
        lead: 0,
        share: MOST_STEPS,
    };
    turns_on(alloc, disk, query, task, order, &found.names)
}

/// Prints how many documents such a scan finds for the query of a row, and how many items the task of its first word
/// finds dead. The device is left as both leave it.
pub(crate) fn run_once(bench: &Bench<'_>, disk: &mut MemoryDisk, row: Row<'_>) -> Result<()> {
    let (name, text) = word(row.words);
    let Ok(query) = TsQuery::parse(bench.alloc(), text) else {
        return Err(refused("no query"));
    };
    let both = after_task(bench.alloc(), disk, &query, name);
    drop(query);
    let Some((turns, left)) = both else {
        return Err(refused("a scan is refused"));
    };
    exchange(disk, left);
    bench.count(turns.found as u64, row.title)?;
    bench.count(turns.dead as u64, "items found dead")
}
