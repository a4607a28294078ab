// What holds of every vector, text and line.
ghost use Rattle.ts_base.specs.Encoding.{EncodingTellsVector, EncodingHasSize};
ghost use Rattle.ts_base.specs.Keys.{KeysRise};
ghost use Rattle.ts_base.specs.Quoted.{QuotedHasOneReading, QuotedIsReadBack};
ghost use Rattle.ts_base.specs.Words.{WordsAreOne};

/// Two vectors in normal form never share an encoding.
pub fn encoding_tells_vector()
    ensures { EncodingTellsVector }
{}

/// How many bytes a vector's encoding has.
pub fn encoding_has_size()
    ensures { EncodingHasSize }
{}

/// The keys of a vector are keys, and are in key order, each once.
pub fn keys_rise()
    ensures { KeysRise }
{}

/// A text has one reading at most as a quoted text.
pub fn quoted_has_one_reading()
    ensures { QuotedHasOneReading }
{}

/// A quoted text is read back, where no quote is right after it.
pub fn quoted_is_read_back()
    ensures { QuotedIsReadBack }
{}

/// A line has one list of words.
pub fn words_are_one()
    ensures { WordsAreOne }
{}
