// What lies in a slot: a frame, or the journal.

/// A frame, which has a page.
pub trait Framed {
    ghost use Rattle.std.specs.Prelude.{ℕ, List};

    /// The number of its page. An empty frame has a number that no page has.
    ghost page: { Self → ℕ };

    /// The bytes of its page.
    ghost bytes: { Self → List ℕ };
}

/// What keeps the log and the device, and knows which frame has which page.
pub trait Journaled {
    ghost use Rattle.std.specs.Prelude.{ℕ, Bool, Option, List};
    ghost use Rattle.page_types.specs.declared.record.Record.{Record};
    ghost use Rattle.core_state.specs.Legal.{Pin};

    /// The store is a lawful one, where this is the journal at the opening.
    ghost lawful: { Self → Type 0 };

    /// It stands for this log, the newest record first. Of a device that says nothing it may stand
    /// for several.
    ghost stands: { Self → List Record → Type 0 };

    /// How many commits are flushed.
    ghost flushed: { Self → ℕ };

    /// How many records are flushed.
    ghost counted: { Self → ℕ };

    /// How many records the log has.
    ghost length_of: { Self → ℕ };

    /// The number of the page in a frame.
    ghost place: { Self → ℕ → ℕ };

    /// The pins, by their places.
    ghost pins: { Self → ℕ → Option Pin };

    /// The abort of all that ran at the opening is owed.
    ghost owes: { Self → Bool };

    /// The device's count of faults, and that of failed writes and syncs.
    ghost faults: { Self → ℕ };

    ghost write_faults: { Self → ℕ };

    /// From this clock value on, a crash leaves so many commits.
    ghost reaches: { Self → ℕ → ℕ → Type 0 };

    /// What a redo number promises of this log; whether the write and the sync after it were made.
    ghost has_redo: { Self → List Record → ℕ → Bool → Bool → Type 0 };

    /// What a write-back under way promises of this log: from a redo number on, below a bound, so
    /// many pages are passed.
    ghost has_walked: { Self → List Record → ℕ → ℕ → ℕ → Type 0 };
}

/// What a slot of the table has.
#[derive(Drop)]
pub enum Slot<F, J> {
    Frame(F),
    Journal(J),
    /// Its value is in the hands of a pass, or it never has one.
    Away,
}
