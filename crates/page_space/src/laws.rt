// What the page that is taken is in the log that the state follows.
ghost use Rattle.page_space.specs.Taking.{TakenIsNew};

/// The page that is taken is a new one among the pages of the log.
pub fn taken_is_new()
    ensures { TakenIsNew }
{}
