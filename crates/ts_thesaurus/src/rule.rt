// Rules as they are kept.
use ts_base::Found;

/// A sample word.
#[derive(Debug, Drop)]
pub enum Sample {
    /// Any stop word.
    AnyStop,
    /// The words whose answer has these lexemes, marks aside.
    Lexemes(Vec<Found>),
}

/// A rule: for answers that the samples fit, one after another, the words.
#[derive(Debug, Drop)]
pub struct KeptRule {
    /// The sample words.
    pub samples: Vec<Sample>,
    /// The words in their place.
    pub words: Vec<Found>,
}
