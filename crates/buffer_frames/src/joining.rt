// Passes that are made of others, and end in them.
ghost use Rattle.std.specs.Prelude.{◌≡◌, ◌+◌, ◌<◌, ◌≤◌, List, [], max, None};
ghost use Rattle.core_state.specs.Allowed.{Sheet as SheetValue};
ghost use Rattle.buffer_frames.specs.Passes.{IsPassOf, IsHolding, split_of, joined_with, either_right as right_of_two};

use crate::frames::Frames;
use crate::pass::Pass;
use disk_trait::Disk;

/// The right of maintenance of two passes, one of which may have it.
fn either_right(work: Option<u64>, other: Option<u64>) -> Option<u64>
    ensures { result ≡ right_of_two work other }
{
    match work {
        Some(at) => Some(at),
        None => other,
    }
}

impl<D: Disk> Frames<D> {
    /// A pass for another session, of room 1, which has seen as much, has held no page, and has not the
    /// right of maintenance.
    pub fn split(&self, pass: &mut Pass) -> Pass
        requires pass { IsPassOf self.now pass.old }
        requires room { 1 < pass.old.room }
        requires none { pass.old.pin ≡ None }
        ensures old { IsPassOf self.now pass.new }
        ensures new { IsPassOf self.now result }
        ensures room { (pass.new ≡ record pass.old { room = pass.new.room })
            × (pass.new.room + 1 ≡ pass.old.room) }
        ensures value { result ≡ split_of pass.old }
        ensures none_held { IsHolding D.Disk self.now result [] }
        ensures holding { (held : List SheetValue) → IsHolding D.Disk self.now pass.old held
            → IsHolding D.Disk self.now pass.new held }
    {
        pass.room -= 1;
        Pass {
            seen: pass.seen,
            shown: pass.shown,
            floor: pass.floor,
            since: pass.since,
            pin: None,
            held: 0,
            holds: 0,
            xid: None,
            room: 1,
            work: None,
        }
    }

    /// Another pass ends in this one, which has then seen what either has, and has both rooms, and the
    /// right of maintenance where one of them had it. The pages that the other held are not counted
    /// here.
    pub fn join(&self, pass: &mut Pass, other: Pass)
        requires pass { IsPassOf self.now pass.old }
        requires other { IsPassOf self.now other }
        requires rooms { pass.old.room + other.room ≤ 16 }
        requires ended { (other.pin ≡ None) × (other.held ≡ 0) × (other.xid ≡ None) }
        ensures pass { IsPassOf self.now pass.new }
        ensures value { pass.new ≡ joined_with other pass.old }
        ensures holding { (held : List SheetValue) → IsHolding D.Disk self.now pass.old held
            → IsHolding D.Disk self.now pass.new held }
    {
        pass.seen = pass.seen.max(other.seen);
        pass.shown = pass.shown.max(other.shown);
        pass.floor = pass.floor.max(other.floor);
        pass.since = pass.since.max(other.since);
        pass.room += other.room;
        pass.work = either_right(pass.work, other.work);
    }
}
