//! Lexemes, positions and weights, which all text crates share; what a vector is, and its bytes; the
//! grammar that texts share.
#![tactic(auto)]

ghost use Rattle.std.specs.Prelude.{◌≡◌, ◌<◌, ◌≤◌, ◌↔◌, [], length, nat_eq, Some, IfOk, IsErrOf};
ghost use Rattle.std.specs.Cmp.{partial_equiv_from_equiv};
ghost use Rattle.std.specs.Cmp.Lexicographic.{pointwise, slice_cmp, nat_list_eq_equiv, nat_list_cmp_total, texts_po};
ghost use Rattle.std.specs.Cmp.Lexicographic.{texts_ties};
ghost use Rattle.std.specs.Ordering.{nat_cmp};
ghost use Rattle.std.specs.String.{string_bytes, string_len};
ghost use Rattle.std.proofs.Common.{rules};
ghost use Rattle.ts_base.specs.Lexemes.{IsLexeme};
ghost use Rattle.ts_base.specs.Vectors.{IsPosition};

mod bytes;
mod error;
mod laws;
mod line_error;
mod quoting;
mod words;

pub use bytes::{is_blank, is_white, weight_of};
pub use error::LexemeError;
pub use laws::{
    encoding_has_size, encoding_tells_vector, keys_rise, quoted_has_one_reading,
    quoted_is_read_back, words_are_one,
};
pub use line_error::{LineError, LinesError};
pub use quoting::push_quoted;
use std::alloc::{AllocError, Global};
use std::cmp::Ordering;
use std::marker::Model;
pub use words::{first_word, front_word, lower_case, without_blanks};

/// The most bytes that a lexeme has.
pub const LONGEST_LEXEME: usize = 2046;

/// The greatest number of a position.
pub const LAST_POSITION: u16 = 16383;

/// The most positions of a lexeme.
pub const MOST_POSITIONS: usize = 256;

/// The size of a vector's content is below this: the bytes of all lexemes and two for each position.
pub const SIZE_LIMIT: usize = 1_048_576;

/// What a weight's number counts in the number of a position: the positions are below it.
pub const WEIGHT_UNIT: u16 = 16384;

/// A text of 1 to 2046 bytes. Contracts see it as the list of its bytes.
#[derive(Debug, Drop)]
pub struct Lexeme {
    /// The lexeme's characters.
    text: String,
}

impl Model for Lexeme {
    ghost use Rattle.std.specs.Prelude.{List, ℕ, ◌≤◌};
    ghost use Rattle.std.specs.String.{string_bytes, string_len};

    ghost Value = { List ℕ };

    ghost view = { λ l. string_bytes l.text };

    ghost use Rattle.ts_base.specs.declared.TheConstants.{LONGEST_LEXEME};

    ghost invariant = { λ l. (1 ≤ string_len l.text) × (string_len l.text ≤ LONGEST_LEXEME) };
}

impl Lexeme {
    /// The lexeme with this text.
    pub fn new(alloc: Global, text: &str) -> Result<Lexeme, LexemeError>
        ensures value { IfOk result (λ lexeme. lexeme ≡ text.now) }
        ensures valid { IfOk result IsLexeme }
        ensures empty { IsErrOf result LexemeError.Empty ↔ (text.now ≡ []) }
        ensures too_long { IsErrOf result LexemeError.TooLong ↔ (LONGEST_LEXEME < length text.now) }
    {
        if text.is_empty() {
            return Err(LexemeError::Empty);
        }
        if text.len() > LONGEST_LEXEME {
            return Err(LexemeError::TooLong);
        }
        match String::from_str(alloc, text) {
            Ok(text) => Ok(Lexeme { text }),
            Err(_) => Err(LexemeError::OutOfMemory),
        }
    }

    /// The lexeme with this text, which is not copied.
    pub fn from_string(text: String) -> Lexeme
        requires some { 1 ≤ string_len text }
        requires most { string_len text ≤ LONGEST_LEXEME }
        ensures value { result ≡ string_bytes text }
        ensures valid { IsLexeme result }
    {
        Lexeme { text }
    }

    /// The lexeme's text.
    pub fn as_str(&self) -> &str
        ensures value { result.now ≡ self.now }
        ensures valid { IsLexeme self.now }
    {
        self.text.as_str()
    }
}

impl Clone for Lexeme {
    ghost is_clone = { λ a b. b ≡ a };

    /// The same lexeme.
    fn clone(&self) -> Result<Lexeme, AllocError> {
        let text = self.text.clone()?;
        Ok(Lexeme { text })
    }
}

impl PartialEq for Lexeme {
    ghost eq = { pointwise nat_eq };

    ghost laws = { partial_equiv_from_equiv nat_list_eq_equiv };

    /// Whether both have the same bytes.
    fn eq(&self, other: &Lexeme) -> bool {
        self.as_str() == other.as_str()
    }
}

impl Eq for Lexeme {
    ghost laws = { nat_list_eq_equiv };
}

/// Byte order: the first byte that differs decides, and a proper prefix comes first.
impl PartialOrd for Lexeme {
    ghost partial_cmp = { λ a b. Some (slice_cmp nat_cmp a b) };

    ghost laws = { texts_po };

    /// The order of both.
    fn partial_cmp(&self, other: &Lexeme) -> Option<Ordering> {
        Some(self.cmp(other))
    }
}

impl Ord for Lexeme {
    ghost cmp = { slice_cmp nat_cmp };

    ghost total = { nat_list_cmp_total };

    ghost matches_partial_cmp = { Prim.search rules };

    ghost matches_eq = { texts_ties };

    /// The order of both.
    fn cmp(&self, other: &Lexeme) -> Ordering {
        self.as_str().cmp(other.as_str())
    }
}

/// How much a position counts, from the least to the most.
#[derive(Clone, Copy, Debug, PartialEq, Eq, PartialOrd, Ord, Hash)]
pub enum Weight {
    /// The least, which a position has without a letter.
    D,
    /// Above D.
    C,
    /// Above C.
    B,
    /// The most.
    A,
}

/// A place in a text, numbered from 1 to 16383, and its weight.
#[derive(Clone, Copy, Debug, PartialEq, Eq)]
pub struct Position {
    /// The number of the place.
    at: u16,
    /// How much it counts.
    weight: Weight,
}

impl Model for Position {
    ghost use Rattle.std.specs.Prelude.{◌≤◌};
    ghost use Rattle.ts_base.specs.Vectors.{Position as Place};

    ghost Value = { Place };

    ghost view = { λ p. record { at = p.at; weight = p.weight } };

    ghost use Rattle.ts_base.specs.declared.TheConstants.{LAST_POSITION};

    ghost invariant = { λ p. (1 ≤ p.at) × (p.at ≤ LAST_POSITION) };

    ghost inverse = { λ p. record { at = p.at; weight = p.weight } };
}

impl Position {
    /// The place with this number, at this weight.
    pub fn new(at: u16, weight: Weight) -> Position
        requires first { 1 ≤ at }
        requires last { at ≤ LAST_POSITION }
        ensures at { result.at ≡ at }
        ensures weight { result.weight ≡ weight }
        ensures valid { IsPosition result }
    {
        Position { at, weight }
    }

    /// The number of the place.
    pub fn at(&self) -> u16
        ensures value { result ≡ self.now.at }
        ensures valid { IsPosition self.now }
    {
        self.at
    }

    /// How much it counts.
    pub fn weight(&self) -> Weight
        ensures { result ≡ self.now.weight }
    {
        self.weight
    }
}

/// A set of weights. The empty set stands for any weight.
#[derive(Clone, Copy, Debug, Default, PartialEq, Eq)]
pub struct Weights {
    /// Whether A is in the set.
    pub a: bool,
    /// Whether B is in the set.
    pub b: bool,
    /// Whether C is in the set.
    pub c: bool,
    /// Whether D is in the set.
    pub d: bool,
}

/// What is known of a fact.
#[derive(Clone, Copy, Debug, PartialEq, Eq, PartialOrd, Ord, Hash)]
pub enum Tri {
    /// It doesn't hold.
    False,
    /// It isn't known.
    Maybe,
    /// It holds.
    True,
}

/// A lexeme that a dictionary gives for a word. With `prefix` it is in a query for each lexeme that begins with it.
#[derive(Clone, Debug, Drop)]
pub struct Found {
    /// The lexeme.
    pub lexeme: Lexeme,
    /// Whether it stands for each lexeme that begins with it.
    pub prefix: bool,
}

/// What a dictionary knows of a word.
#[derive(Debug, Drop)]
pub enum Answer {
    /// It doesn't know the word.
    Unknown,
    /// The word is left out.
    Stop,
    /// One or more lexemes, which stand for the word.
    Lexemes(Vec<Found>),
}

/// What gives words their lexemes.
pub trait Dictionary {
    ghost use Rattle.std.specs.Prelude.{List, ℕ};
    ghost use Rattle.ts_base.specs.Dictionary.{WordAnswer, answer_value, IsWordAnswer};

    /// The answer to each word.
    ghost answer: { Self → List ℕ → WordAnswer };

    /// What it knows of a word.
    fn lexize(&self, alloc: Global, word: &str) -> Result<Answer, AllocError>
        requires some { 1 ≤ length word.now }
        requires most { length word.now ≤ LONGEST_LEXEME }
        ensures value { IfOk result (λ a. answer_value a ≡ answer self.now word.now) }
        ensures valid { IfOk result (λ a. IsWordAnswer (answer_value a)) }
        ensures named { IsWordAnswer (answer self.now word.now) };
}
