// What holds of the bytes of a log.
ghost use Rattle.wal.specs.Batches.{HasOneList, OpensToOneList};
ghost use Rattle.wal.specs.Reading.{IsNeverForeign, IsNeverBroken};

/// A log stands for one list of batches.
pub fn one_list()
    ensures counts { HasOneList }
    ensures opens { OpensToOneList }
{}

/// A log that stands for some list of batches is not refused as no store, neither at the opening
/// nor after any of its batches.
pub fn never_refused()
    ensures foreign { IsNeverForeign }
    ensures broken { IsNeverBroken }
{}
