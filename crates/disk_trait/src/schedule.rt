// The calls of an object in memory, which are numbered from 1.
ghost use Rattle.std.specs.Prelude.{◌≡◌, ◌+◌, ◌-◌, ◌^◌, ◌≤◌, min};

/// How many calls there were, which of them fail, and how many faults there were. A count stays at
/// 2^64 - 1.
#[derive(Drop)]
pub struct Schedule {
    /// The calls that fail.
    pub fails: Vec<u64>,
    /// How many calls there were.
    pub calls: u64,
    /// How many of them failed.
    pub faults: u64,
}

impl Schedule {
    ghost use Rattle.disk_trait.specs.Device.{last_count};
    ghost use Rattle.disk_trait.specs.Schedules.{IsUnused};
    ghost use Rattle.disk_trait.specs.Inner.Begun.{HasBegun};

    /// No call so far.
    pub(crate) fn new(fails: Vec<u64>) -> Schedule
        ensures { IsUnused result fails.items }
    {
        Schedule {
            fails,
            calls: 0,
            faults: 0,
        }
    }

    /// Counts a call, and says whether it is one that goes on.
    pub(crate) fn begin(&mut self) -> bool
        ensures { HasBegun self.old self.new result }
    {
        if self.calls == u64::MAX {
            return false;
        }
        self.calls += 1;
        self.faults < u64::MAX && !self.fails.contains(&self.calls)
    }

    /// Counts a fault.
    pub(crate) fn fail(&mut self)
        ensures counted { self.new
            ≡ record self.old { faults = min (self.old.faults + 1) last_count } }
        ensures later { self.old.faults ≤ self.new.faults }
    {
        self.faults = self.faults.saturating_add(1);
    }
}
