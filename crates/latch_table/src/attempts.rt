// How a word is claimed.
ghost use Rattle.std.specs.Prelude.{true, false};

/// How often the exchange of a claim is tried, and whether what it finds is noted.
pub(crate) trait Attempt {
    ghost use Rattle.std.specs.Prelude.{Bool};

    ghost notes: { Bool };
}

/// Until it finds the word free, and notes nothing.
pub(crate) struct Again;

impl Attempt for Again {
    ghost notes = { false };
}

/// Once, and notes what it finds.
pub(crate) struct Once;

impl Attempt for Once {
    ghost notes = { true };
}
