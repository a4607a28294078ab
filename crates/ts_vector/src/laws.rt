// What holds of every vector and every text.
ghost use Rattle.ts_vector.specs.Normal.{NormalFormIsOne};
ghost use Rattle.ts_vector.specs.TextLaws.{TextHasOneList, TextHasOneValue, FaultHasOnePlace, FaultIsOutside};
ghost use Rattle.ts_vector.specs.TextLaws.{PositionHasItsNumber};
ghost use Rattle.ts_vector.specs.Decoded.{BadPlaceIsOne, BadBytesAreNoEncoding};
ghost use Rattle.ts_vector.specs.Printed.{PrintedTextIsRead};
ghost use Rattle.ts_vector.specs.AnswerLaws.{TextHasOneAnswer, BuildHasOneAnswer, JoinHasOneAnswer};

/// Items have one normal form.
pub fn normal_form_is_one()
    ensures { NormalFormIsOne }
{}

/// The printed text of a vector is a text of that vector.
pub fn printed_text_is_read()
    ensures { PrintedTextIsRead }
{}

/// Bytes go wrong at one place.
pub fn bad_place_is_one()
    ensures { BadPlaceIsOne }
{}

/// Bytes that go wrong are no encoding.
pub fn bad_bytes_are_no_encoding()
    ensures { BadBytesAreNoEncoding }
{}

/// A text has one list of items.
pub fn text_has_one_list()
    ensures { TextHasOneList }
{}

/// A text has one value.
pub fn text_has_one_value()
    ensures { TextHasOneValue }
{}

/// Running out of memory aside, a text has one answer, so each refusal comes exactly where it has its cause.
pub fn text_has_one_answer()
    ensures { TextHasOneAnswer }
{}

/// Running out of memory aside, a join has one answer.
pub fn join_has_one_answer()
    ensures { JoinHasOneAnswer }
{}

/// A fault has one place.
pub fn fault_has_one_place()
    ensures { FaultHasOnePlace }
{}

/// A text with a fault is outside the grammar.
pub fn fault_is_outside()
    ensures { FaultIsOutside }
{}

/// Running out of memory aside, items that are built have one answer.
pub fn build_has_one_answer()
    ensures { BuildHasOneAnswer }
{}

/// A position's number is the decimal number of its digits, and 16383 where that is greater.
pub fn position_has_its_number()
    ensures { PositionHasItsNumber }
{}
