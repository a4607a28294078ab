// Pages in memory over a journal: a store is made, held, logged to, flushed, shared and opened again.
ghost use Rattle.std.specs.Prelude.{◌≡◌, ◌<◌, [], None, Some, OnOk, IfOk};
ghost use Rattle.buffer_frames.specs.Passes.{IsPassOf, IsHolding, IsWhole};
ghost use Rattle.buffer_frames.specs.declared.pass.Pass.{Pass as PassValue};

use crate::silent::Silent;
use buffer_frames::{Ask, Drawn, FrameError, Frames, LogError, OpenFault, Pass, Step};
use core_state::{Settings, State};
use disk_trait::{Disk, File, MemoryDisk};
use page_types::{Body, Kind, PAGE_LIMIT, Page};
use std::alloc::Global;
use std::test::Fail;

/// The sizes of a store.
const SETTINGS: Settings = Settings {
    pages: 65_536,
    frames: 1024,
    pending: 512,
    log_limit: 1 << 40,
    xid_limit: 1 << 24,
};

/// What a look tells: how many records and commits there are, the floor, and the number up to which deleted pages
/// may be taken again.
type Look = (u64, u32, u32, u64);

/// What a look tells before a change, the commits of its snapshot, and what is drawn.
type Under = (Look, u32, [(u64, u64); 2]);

/// Asks for a look.
struct Told;

impl Ask<(u64, u32, u32, u64)> for Told {
    ghost use Rattle.std.specs.Prelude.{◌≡◌, length};

    ghost answers = { λ _ s floor since t. t ≡ (s.records, length s.deleted, floor, since) };

    fn ask(&self, state: &State, floor: u32, since: u64) -> (u64, u32, u32, u64) {
        (state.length(), state.commits(), floor, since)
    }
}

/// The store of a device, and its first pass.
fn opened<D: Disk + Drop>(alloc: Global, disk: D) -> Result<(Frames<D>, Pass), OpenFault>
    ensures pass { IfOk result (λ x. IsPassOf x.0 x.1) }
    ensures idle { IfOk result (λ x. IsHolding D.Disk x.0 x.1 []) }
    ensures whole { IfOk result (λ x. IsWhole (x.0).journal x.1) }
{
    match Frames::open(alloc, disk, &SETTINGS) {
        Ok(opened) => Ok(opened),
        Err((_, fault)) => Err(fault),
    }
}

/// Begins a transaction, on a device that says nothing.
fn begin<D: Disk>(alloc: Global, frames: &mut Frames<D>, pass: &mut Pass) -> Result<Drawn, LogError>
    requires silent { D.tells → ⊥ }
    requires pass { IsPassOf frames.old pass.old }
    requires idle { IsHolding D.Disk frames.old pass.old [] }
    requires none { pass.old.xid ≡ None }
    ensures pass { IsPassOf frames.new pass.new }
    ensures idle { IsHolding D.Disk frames.new pass.new [] }
    ensures same { (pass.new.pin ≡ pass.old.pin) × (pass.new.room ≡ pass.old.room) }
    ensures others { (p : PassValue) → p.xid ≡ None → IsPassOf frames.old p → IsPassOf frames.new p }
{
    let step = Step::new(alloc, Kind::Begin, 0);
    let none = Vec::new(alloc);
    frames.log_step(pass, none, step)
}

/// Commits the transaction of this xid, on a device that says nothing.
fn commit<D: Disk>(
    alloc: Global,
    frames: &mut Frames<D>,
    pass: &mut Pass,
    xid: u32,
) -> Result<Drawn, LogError>
    requires silent { D.tells → ⊥ }
    requires pass { IsPassOf frames.old pass.old }
    requires idle { IsHolding D.Disk frames.old pass.old [] }
    requires runs { pass.old.xid ≡ Some xid }
    ensures pass { IsPassOf frames.new pass.new }
    ensures idle { IsHolding D.Disk frames.new pass.new [] }
    ensures same { (pass.new.pin ≡ pass.old.pin) × (pass.new.room ≡ pass.old.room) }
    ensures ended { OnOk result (pass.new.xid ≡ None) }
    ensures others { (p : PassValue) → p.xid ≡ None → IsPassOf frames.old p → IsPassOf frames.new p }
{
    let step = Step::new(alloc, Kind::Commit { commit: 0 }, xid);
    let none = Vec::new(alloc);
    frames.log_step(pass, none, step)
}

/// Begins and commits a transaction, on a device that says nothing: the numbers and the values that are drawn.
fn change<D: Disk>(
    alloc: Global,
    frames: &mut Frames<D>,
    pass: &mut Pass,
) -> Result<[(u64, u64); 2], Fail>
    requires silent { D.tells → ⊥ }
    requires pass { IsPassOf frames.old pass.old }
    requires idle { IsHolding D.Disk frames.old pass.old [] }
    requires none { pass.old.xid ≡ None }
    ensures pass { IsPassOf frames.new pass.new }
    ensures idle { IsHolding D.Disk frames.new pass.new [] }
    ensures same { (pass.new.pin ≡ pass.old.pin) × (pass.new.room ≡ pass.old.room) }
    ensures ended { OnOk result (pass.new.xid ≡ None) }
    ensures others { (p : PassValue) → p.xid ≡ None → IsPassOf frames.old p → IsPassOf frames.new p }
{
    let begun = parts(begin(alloc, frames, pass)?);
    let Some(xid) = pass.xid() else {
        return Err("no transaction".into());
    };
    let done = parts(commit(alloc, frames, pass, xid)?);
    Ok([begun, done])
}

/// All that was logged counts.
fn flush<D: Disk>(frames: &mut Frames<D>, pass: &mut Pass) -> Result<(), LogError>
    requires pass { IsPassOf frames.old pass.old }
    ensures pass { IsPassOf frames.new pass.new }
    ensures same { (pass.new.pin ≡ pass.old.pin) × (pass.new.room ≡ pass.old.room) × (pass.new.xid ≡ pass.old.xid) }
    ensures others { (p : PassValue) → p.xid ≡ None → IsPassOf frames.old p → IsPassOf frames.new p }
{
    frames.flush_log(pass)
}

/// What a look tells.
fn tells<D: Disk>(frames: &mut Frames<D>, pass: &mut Pass) -> Result<Look, FrameError>
    requires pass { IsPassOf frames.old pass.old }
    ensures pass { IsPassOf frames.new pass.new }
    ensures idle { IsHolding D.Disk frames.old pass.old [] → IsHolding D.Disk frames.new pass.new [] }
    ensures same { (pass.new.pin ≡ pass.old.pin) × (pass.new.room ≡ pass.old.room) × (pass.new.xid ≡ pass.old.xid) }
    ensures held { pass.new.held ≡ pass.old.held }
    ensures others { (p : PassValue) → p.xid ≡ None → IsPassOf frames.old p → IsPassOf frames.new p }
{
    frames.look(pass, &Told)
}

/// Takes a snapshot.
fn pin<D: Disk>(frames: &mut Frames<D>, pass: &mut Pass) -> Result<u32, FrameError>
    requires pass { IsPassOf frames.old pass.old }
    requires none { pass.old.pin ≡ None }
    ensures pass { IsPassOf frames.new pass.new }
    ensures idle { IsHolding D.Disk frames.old pass.old [] → IsHolding D.Disk frames.new pass.new [] }
    ensures same { (pass.new.room ≡ pass.old.room) × (pass.new.xid ≡ pass.old.xid) }
{
    frames.pin(pass)
}

/// Gives the snapshot up.
fn unpin<D: Disk>(frames: &mut Frames<D>, pass: &mut Pass)
    requires pass { IsPassOf frames.old pass.old }
    ensures pass { IsPassOf frames.new pass.new }
    ensures same { (pass.new.room ≡ pass.old.room) × (pass.new.xid ≡ pass.old.xid) }
{
    frames.unpin(pass);
}

/// A change under a snapshot: what a look tells before it, the commits of the snapshot, and what is drawn.
fn under_a_snapshot<D: Disk>(
    alloc: Global,
    frames: &mut Frames<D>,
    pass: &mut Pass,
) -> Result<Under, Fail>
    requires silent { D.tells → ⊥ }
    requires pass { IsPassOf frames.old pass.old }
    requires idle { IsHolding D.Disk frames.old pass.old [] }
    requires none { (pass.old.pin ≡ None) × (pass.old.xid ≡ None) }
    ensures pass { IsPassOf frames.new pass.new }
    ensures idle { IsHolding D.Disk frames.new pass.new [] }
    ensures same { pass.new.room ≡ pass.old.room }
{
    let first = tells(frames, pass)?;
    let commits = pin(frames, pass)?;
    let drawn = change(alloc, frames, pass)?;
    Ok((first, commits, drawn))
}

/// What a look tells of a flushed change under the snapshot, and after it.
fn after_a_snapshot<D: Disk>(frames: &mut Frames<D>, pass: &mut Pass) -> Result<[Look; 2], Fail>
    requires pass { IsPassOf frames.old pass.old }
    ensures same { pass.new.room ≡ pass.old.room }
{
    flush(frames, pass)?;
    let under = tells(frames, pass)?;
    unpin(frames, pass);
    Ok([under, tells(frames, pass)?])
}

/// Both, one after the other.
fn through_a_snapshot<D: Disk>(
    alloc: Global,
    frames: &mut Frames<D>,
    pass: &mut Pass,
) -> Result<(Under, [Look; 2]), Fail>
    requires silent { D.tells → ⊥ }
    requires pass { IsPassOf frames.old pass.old }
    requires idle { IsHolding D.Disk frames.old pass.old [] }
    requires none { (pass.old.pin ≡ None) × (pass.old.xid ≡ None) }
    ensures same { pass.new.room ≡ pass.old.room }
{
    let under = under_a_snapshot(alloc, frames, pass)?;
    Ok((under, after_a_snapshot(frames, pass)?))
}

/// What a look tells, and what the next transaction draws.
fn draws_next<D: Disk>(
    alloc: Global,
    frames: &mut Frames<D>,
    pass: &mut Pass,
) -> Result<(Look, (u64, u64)), Fail>
    requires silent { D.tells → ⊥ }
    requires pass { IsPassOf frames.old pass.old }
    requires idle { IsHolding D.Disk frames.old pass.old [] }
    requires none { pass.old.xid ≡ None }
{
    let told = tells(frames, pass)?;
    Ok((told, parts(begin(alloc, frames, pass)?)))
}

/// The same of a device.
fn goes_on<D: Disk + Drop>(alloc: Global, disk: D) -> Result<(Look, (u64, u64)), Fail>
    requires silent { D.tells → ⊥ }
{
    let (mut frames, mut pass) = opened(alloc, disk)?;
    draws_next(alloc, &mut frames, &mut pass)
}

/// The number and the value that are drawn.
fn parts(drawn: Drawn) -> (u64, u64) {
    (drawn.number, drawn.value)
}

#[test]
fn a_store_is_opened_again(rt: HostRuntime) -> Result<(), Fail> {
    let alloc = rt.alloc();
    let disk = Silent(MemoryDisk::new(alloc, Vec::new(alloc)));
    let (mut frames, mut pass) = opened(alloc, disk)?;
    let (under, after) = through_a_snapshot(alloc, &mut frames, &mut pass)?;
    let again = goes_on(alloc, frames.close(pass))?;
    assert!(rt; under == ((1, 0, 0, 1), 0, [(2, 1), (3, 1)]));
    assert!(rt; after == [(3, 1, 0, 1), (3, 1, 1, 3)]);
    assert!(rt; again == ((3, 1, 1, 3), (5, 2)));
    Ok(())
}

/// Whether the body of a page is of this kind.
fn is_of(page: &Page, kind: &str) -> bool {
    match page.body {
        Body::EntryLeaf { .. } => kind == "leaf",
        Body::Free => kind == "free",
        _ => false,
    }
}

/// Whether a page that is held has its number and a body of this kind. It is given back.
fn is_held<D: Disk>(
    frames: &mut Frames<D>,
    pass: &mut Pass,
    page: u32,
    kind: &str,
) -> Result<bool, FrameError>
    requires pass { IsPassOf frames.old pass.old }
    requires idle { IsHolding D.Disk frames.old pass.old [] }
    requires page { page < PAGE_LIMIT }
    ensures pass { IsPassOf frames.new pass.new }
    ensures idle { IsHolding D.Disk frames.new pass.new [] }
{
    let held = frames.hold(pass, page)?;
    let is = held.number() == page && is_of(held.page(), kind);
    frames.release(pass, held);
    Ok(is)
}

/// Whether a leaf, a free page and the first page are held.
fn are_held<D: Disk>(frames: &mut Frames<D>, pass: &mut Pass) -> Result<[bool; 3], FrameError>
    requires pass { IsPassOf frames.old pass.old }
    requires idle { IsHolding D.Disk frames.old pass.old [] }
{
    let leaf = is_held(frames, pass, 1, "leaf")?;
    let free = is_held(frames, pass, 7, "free")?;
    Ok([leaf, free, is_held_once(frames, pass)?])
}

/// Whether the first page is held as the first record left it, and not once more.
fn is_held_once<D: Disk>(frames: &mut Frames<D>, pass: &mut Pass) -> Result<bool, FrameError>
    requires pass { IsPassOf frames.old pass.old }
    requires idle { IsHolding D.Disk frames.old pass.old [] }
{
    let meta = frames.hold(pass, 0)?;
    let is = matches!(meta.page().body, Body::Meta { .. }) && meta.page().stamp == 1;
    let again = frames.hold(pass, 0);
    Ok(is && matches!(again, Err(FrameError::OutOfMemory)))
}

#[test]
fn pages_are_held(rt: HostRuntime) -> Result<(), Fail> {
    let alloc = rt.alloc();
    let (mut frames, mut pass) = opened(alloc, MemoryDisk::new(alloc, Vec::new(alloc)))?;
    assert!(rt; are_held(&mut frames, &mut pass)? == [true, true, true]);
    Ok(())
}

/// What a second session is told after a change of the first, which then takes it back.
fn shares<D: Disk>(alloc: Global, frames: &mut Frames<D>, pass: &mut Pass) -> Result<Look, Fail>
    requires silent { D.tells → ⊥ }
    requires pass { IsPassOf frames.old pass.old }
    requires idle { IsHolding D.Disk frames.old pass.old [] }
    requires whole { IsWhole frames.old.journal pass.old }
    ensures room { OnOk result (pass.new.room ≡ 16) }
{
    let mut other = frames.split(pass);
    change(alloc, frames, pass)?;
    flush(frames, pass)?;
    let told = tells(frames, &mut other)?;
    frames.join(pass, other);
    Ok(told)
}

#[test]
fn sessions_share_a_store(rt: HostRuntime) -> Result<(), Fail> {
    let alloc = rt.alloc();
    let disk = Silent(MemoryDisk::new(alloc, Vec::new(alloc)));
    let (mut frames, mut pass) = opened(alloc, disk)?;
    let told = shares(alloc, &mut frames, &mut pass)?;
    let _ = frames.close(pass);
    assert!(rt; told == (3, 1, 1, 3));
    Ok(())
}

/// The calls of a device in an opening.
fn calls_of(alloc: Global) -> Result<u64, OpenFault> {
    let (frames, pass) = opened(alloc, MemoryDisk::new(alloc, Vec::new(alloc)))?;
    Ok(frames.close(pass).calls())
}

/// A store is down after a fault in its flush.
#[test]
fn a_flush_fails(rt: HostRuntime) -> Result<(), Fail> {
    let alloc = rt.alloc();
    let fails = vec![in alloc; calls_of(alloc)?.saturating_add(1)]?;
    let (mut frames, mut pass) = opened(alloc, MemoryDisk::new(alloc, fails))?;
    let flushed = [flush(&mut frames, &mut pass), flush(&mut frames, &mut pass)];
    let pinned = pin(&mut frames, &mut pass);
    assert!(rt; flushed == [Err(LogError::DiskFault), Err(LogError::Down { fault: 1 })]);
    assert!(rt; pinned == Err(FrameError::Down { fault: 1 }));
    Ok(())
}

/// A device whose log is no store, or of which a call of the opening fails, is given back.
#[test]
fn a_refused_device_is_given_back(rt: HostRuntime) -> Result<(), Fail> {
    let alloc = rt.alloc();
    let mut disk = MemoryDisk::new(alloc, Vec::new(alloc));
    disk.write_at(File::Log, 0, &[0; 19])?;
    let (mut disk, fault) = Frames::open(alloc, disk, &SETTINGS).err().ok_or("a store")?;
    assert!(rt; (fault, disk.length(File::Log)) == (OpenFault::NotAStore, Ok(19)));
    let disk = MemoryDisk::new(alloc, vec![in alloc; 2]?);
    let (disk, fault) = Frames::open(alloc, disk, &SETTINGS).err().ok_or("a store")?;
    assert!(rt; (fault, disk.calls(), disk.faults()) == (OpenFault::DiskFault, 2, 1));
    Ok(())
}
