// The right of maintenance: who has it may log the records that only one pass at a time may.
ghost use Rattle.std.specs.Prelude.{◌≡◌, ◌≢◌, ◌↔◌, List, [], None, true, false};
ghost use Rattle.core_state.specs.Allowed.{Sheet as SheetValue};
ghost use Rattle.buffer_frames.specs.Beginnings.{BeginsOn};
ghost use Rattle.buffer_frames.specs.Frames.{RunsOn};
ghost use Rattle.buffer_frames.specs.Passes.{IsPassOf, IsHolding, SeesOn, HasAdded};
ghost use Rattle.buffer_frames.specs.Passes.{IsRightFree, HasClaimed, with_right};

use crate::frames::Frames;
use crate::laws::counted_are_one;
use crate::pass::Pass;
use disk_trait::Disk;

impl<D: Disk> Frames<D> {
    /// The pass has the right of maintenance from now on, since the length that the log has. Nobody
    /// has had it. Records that the pass has not seen yet may be another's maintenance, so it looks
    /// before it concludes anything.
    pub fn claim_work(&mut self, pass: &mut Pass)
        requires pass { IsPassOf self.old pass.old }
        requires nobody { IsRightFree self.old }
        ensures pass { IsPassOf self.new pass.new }
        ensures claimed { HasClaimed self.old self.new pass.old pass.new }
        ensures holding { (held : List SheetValue) → IsHolding D.Disk self.old pass.old held
            → IsHolding D.Disk self.new pass.new held }
        ensures sees_on { SeesOn D.Disk self.new pass.old pass.new }
        ensures added { HasAdded D.Disk self.old self.new [] }
        ensures runs_on { RunsOn D.Disk self.old self.new }
        ensures begins { BeginsOn D.Disk self.old.journal self.new.journal }
    {
        counted_are_one();
        let length = self.journal.state().length();
        self.journal.set_work(Some(length));
        pass.work = Some(length);
    }

    /// Whether nobody has had the right of maintenance: then the pass has it from now on.
    pub fn try_claim_work(&mut self, pass: &mut Pass) -> bool
        requires pass { IsPassOf self.old pass.old }
        ensures free { result ≡ true ↔ IsRightFree self.old }
        ensures pass { IsPassOf self.new pass.new }
        ensures claimed { result ≡ true → HasClaimed self.old self.new pass.old pass.new }
        ensures refused { result ≡ false → (self.new ≡ self.old) × (pass.new ≡ pass.old) }
        ensures holding { (held : List SheetValue) → IsHolding D.Disk self.old pass.old held
            → IsHolding D.Disk self.new pass.new held }
        ensures sees_on { SeesOn D.Disk self.new pass.old pass.new }
        ensures added { HasAdded D.Disk self.old self.new [] }
        ensures runs_on { RunsOn D.Disk self.old self.new }
        ensures begins { BeginsOn D.Disk self.old.journal self.new.journal }
    {
        counted_are_one();
        if self.journal.is_worked() {
            return false;
        }
        self.claim_work(pass);
        true
    }

    /// The pass gives the right of maintenance back, and nobody has it from now on.
    pub fn give_back_work(&mut self, pass: &mut Pass)
        requires pass { IsPassOf self.old pass.old }
        requires right { pass.old.work ≢ None }
        ensures pass { IsPassOf self.new pass.new }
        ensures frames { self.new ≡ with_right None self.old }
        ensures given { pass.new ≡ record pass.old { work = None } }
        ensures holding { (held : List SheetValue) → IsHolding D.Disk self.old pass.old held
            → IsHolding D.Disk self.new pass.new held }
        ensures sees_on { SeesOn D.Disk self.new pass.old pass.new }
        ensures added { HasAdded D.Disk self.old self.new [] }
        ensures runs_on { RunsOn D.Disk self.old self.new }
        ensures begins { BeginsOn D.Disk self.old.journal self.new.journal }
    {
        counted_are_one();
        self.journal.set_work(None);
        pass.work = None;
    }
}
