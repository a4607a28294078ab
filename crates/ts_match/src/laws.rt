// What is proved of queries and vectors as a whole.
ghost use Rattle.ts_match.specs.Candidates.{CandidatesSuffice, NeededHave};
ghost use Rattle.ts_match.specs.Judging.{JudgesWell};

/// A phrase holds at some whole number exactly where it holds at one of finitely many.
pub fn candidates_suffice()
    ensures { CandidatesSuffice }
{}

/// Where a phrase holds, each operand that it needs has a position.
pub fn needed_have()
    ensures { NeededHave }
{}

/// For sound values, True says that the query holds, and False that it does not.
pub fn judges_well()
    ensures { JudgesWell }
{}
