// How often a device has failed.
ghost use Rattle.std.specs.Prelude.{◌≡◌, ◌⊎◌, ◌+◌, ◌<◌, ◌≤◌, min, true, false};
ghost use Rattle.disk_trait.specs.Device.{last_count};

use disk_trait::Failed;

/// The counts of a device's failures.
#[derive(Drop)]
pub struct Counts {
    /// Of all calls.
    pub faults: u64,
    /// Of the writes and the syncs.
    pub writes: u64,
}

impl Counts {
    /// Nothing has failed.
    pub fn new() -> Counts
        ensures { (result.faults ≡ 0) × (result.writes ≡ 0) }
    {
        Counts {
            faults: 0,
            writes: 0,
        }
    }

    /// Whether a count is at its last number, so that no more faults could be counted.
    pub fn is_last(&self) -> bool
        ensures below { result ≡ false → (self.now.faults < last_count) × (self.now.writes < last_count) }
        ensures last { result ≡ true → (self.now.faults ≡ last_count) ⊎ (self.now.writes ≡ last_count) }
    {
        self.faults == u64::MAX || self.writes == u64::MAX
    }

    /// Counts a call that reads.
    pub fn fail(&mut self) -> Failed
        ensures faults { self.new.faults ≡ min (self.old.faults + 1) last_count }
        ensures writes { self.new.writes ≡ self.old.writes }
        ensures later { self.old.faults ≤ self.new.faults }
    {
        self.faults = self.faults.saturating_add(1);
        Failed
    }

    /// Counts a write or a sync.
    pub fn fail_write(&mut self) -> Failed
        ensures faults { self.new.faults ≡ min (self.old.faults + 1) last_count }
        ensures writes { self.new.writes ≡ min (self.old.writes + 1) last_count }
        ensures later { (self.old.faults ≤ self.new.faults) × (self.old.writes ≤ self.new.writes) }
    {
        self.writes = self.writes.saturating_add(1);
        self.fail()
    }
}
