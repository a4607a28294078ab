// What entries have.
ghost use Rattle.core_vacuum.specs.Entries.{EntriesHold};

/// In a legal log a key has one entry at most, and the items of its pairs in the main part are those in
/// the entry's list, or on the leaves of the posting tree that it names.
pub fn entries_stand()
    ensures { EntriesHold }
{}
