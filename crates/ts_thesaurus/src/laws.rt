// What holds of all rules, and of all lines.
ghost use Rattle.ts_thesaurus.specs.Laws.{OneFits, LinesHaveOneReading};

/// Of each length one list of samples at most fits the first answers.
pub fn one_fits()
    ensures { OneFits }
{}

/// Lines have one reading: one list of rules, or one first line that is refused.
pub fn lines_have_one_reading()
    ensures { LinesHaveOneReading }
{}
