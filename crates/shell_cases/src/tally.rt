// How much was run, and how much of it differs from what is wanted.

/// The counts that the program prints.
#[derive(Default, Drop)]
pub struct Tally {
    /// Runs of cases.
    pub runs: u64,
    /// Edits of logs.
    pub edits: u64,
    /// Checks beside the cases.
    pub checks: u64,
    /// How many of all these differ.
    pub differ: u64,
}

/// Prints of a case or a check that something differs: which, its number, and a text.
pub fn tell(rt: &impl Print, name: &str, what: &str, number: u64, text: &str) {
    let _ = println!(rt; "{name}: {what} {number} {text}");
}

impl Tally {
    /// Counts what differs.
    pub fn note(&mut self, agrees: bool) {
        if !agrees {
            self.differ = self.differ.saturating_add(1);
        }
    }

    /// Counts a check. It prints which one, where it does not hold.
    pub fn see(&mut self, rt: &impl Print, holds: bool, what: &str, number: u64) {
        self.checks = self.checks.saturating_add(1);
        self.note(holds);
        if !holds {
            tell(rt, "a check", what, number, "");
        }
    }
}
