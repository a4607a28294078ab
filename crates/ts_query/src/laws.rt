// What holds of every query's text.
ghost use Rattle.ts_query.specs.Laws.{OneValue, PrintsBack, DistanceIsDecimal, QueryFaultHasOnePlace};
ghost use Rattle.ts_query.specs.Laws.{QueryFaultIsOutside};
ghost use Rattle.ts_query.specs.Refusals.{OneAnswer};

/// A text has at most one value.
pub fn one_value()
    ensures { OneValue }
{}

/// Running out of memory aside, a text has at most one answer, so each refusal comes exactly where it has its cause.
pub fn one_answer()
    ensures { OneAnswer }
{}

/// The printed text of a query is in the grammar, with that query as its value.
pub fn prints_back()
    ensures { PrintsBack }
{}

/// A distance is `->`, or the number that decimal digits write; from 16385 on all numbers count as one, which is
/// too large.
pub fn distance_is_decimal()
    ensures { DistanceIsDecimal }
{}

/// A fault has one place.
pub fn fault_has_one_place()
    ensures { QueryFaultHasOnePlace }
{}

/// A text with a fault is outside the grammar.
pub fn fault_is_outside()
    ensures { QueryFaultIsOutside }
{}
