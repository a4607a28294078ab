// How many statements each session has begun.
ghost use Rattle.std.specs.Prelude.{◌≡◌, ◌≢◌, ℕ, ◌+◌, ◌-◌, ◌^◌, ◌≤◌, min, replicate, slice_index, slice_set};

use engine::Gate;

/// The counts of the sessions 1 to 8, after one that stays 0.
#[derive(Clone, Copy, Debug)]
pub struct StatementCounts {
    counts: [u32; 9],
}

impl StatementCounts {
    /// No statement was counted yet.
    pub fn new() -> StatementCounts
        ensures { result.counts ≡ replicate 9 0 }
    {
        StatementCounts { counts: [0; 9] }
    }

    /// Counts a statement of a session: which of its statements it is.
    fn next(&mut self, session: u8) -> u32
        requires { session ≤ 8 }
        ensures turn { result ≡ min (slice_index self.old.counts session + 1) (2 ^ 32 - 1) }
        ensures others { self.new.counts ≡ slice_set self.old.counts session result }
    {
        let turn = self.counts[session as usize].saturating_add(1);
        self.counts[session as usize] = turn;
        turn
    }

    /// A statement of a session passes the hook. A line without a session passes none.
    pub fn pass<G: Gate>(&mut self, gate: &G, session: u8)
        requires { session ≤ 8 }
        ensures counted { session ≢ 0
            → self.new.counts ≡ slice_set self.old.counts session
            (min (slice_index self.old.counts session + 1) (2 ^ 32 - 1)) }
        ensures none { session ≡ 0 → self.new ≡ self.old }
    {
        if session == 0 {
            return;
        }
        let turn = self.next(session);
        gate.pass(u32::from(session), turn);
    }
}
