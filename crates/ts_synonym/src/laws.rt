// What holds of every list of synonyms.
ghost use Rattle.ts_synonym.specs.Synonyms.{LinesHaveOneReading};

/// Lines have one reading: the same answers, or the same first bad line.
pub fn lines_have_one_reading()
    ensures { LinesHaveOneReading }
{}
