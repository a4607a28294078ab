// What holds of every stop list.
ghost use Rattle.ts_words.specs.StopLists.{LinesHaveOneReading};

/// Lines have one reading: the same stop words, or the same first bad line.
pub fn lines_have_one_reading()
    ensures { LinesHaveOneReading }
{}
