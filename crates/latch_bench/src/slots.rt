// What the bench's table guards: frames that count, and a journal whose log is a count.
use latch_table::{Changes, Framed, Journaled, LatchTable, Pass};

/// A frame, with its page, which says nothing of its bytes.
#[derive(Drop)]
pub(crate) struct Leaf {
    /// The number of its page, which is that of the frame.
    pub(crate) page: u32,
    /// How often it was claimed for a turn.
    pub(crate) count: u64,
}

impl Framed for Leaf {
    ghost use Rattle.latch_bench.specs.Slots.{leaf};

    ghost page = { leaf.page };

    ghost bytes = { leaf.bytes };
}

/// A journal whose log has so many records. It is never a lawful store's.
#[derive(Drop)]
pub(crate) struct Tally {
    /// How many.
    pub(crate) count: u64,
}

impl Journaled for Tally {
    ghost use Rattle.latch_bench.specs.Slots.{tally};

    ghost lawful = { tally.lawful };

    ghost stands = { tally.stands };

    ghost flushed = { tally.flushed };

    ghost counted = { tally.counted };

    ghost length_of = { tally.length_of };

    ghost place = { tally.place };

    ghost pins = { tally.pins };

    ghost owes = { tally.owes };

    ghost faults = { tally.faults };

    ghost write_faults = { tally.write_faults };

    ghost reaches = { tally.reaches };

    ghost has_redo = { tally.has_redo };

    ghost has_walked = { tally.has_walked };
}

/// One record was logged.
pub(crate) struct Added;

impl Changes<Tally> for Added {
    ghost use Rattle.latch_bench.specs.Adding.{added_to};

    ghost change = { λ v b. added_to v };
}

/// The table.
pub(crate) type Desk = LatchTable<Leaf, Tally>;

/// A pass of it.
pub(crate) type Hand = Pass<Leaf, Tally>;
