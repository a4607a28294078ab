// From the characters of a query's text to tokens, each given to the parser as soon as it ends.
ghost use Rattle.std.specs.Prelude.{◌≡◌, ◌≢◌, ◌⊎◌, ◌↔◌, ◌≤◌, ℕ, List, [], ◌∷◌, ◌++◌, IfOk, IfErr, OnOk, IsTrue, true};
ghost use Rattle.std.specs.Prelude.{false, if◌then◌else◌, Some, None, encode_utf8};
ghost use Rattle.std.specs.String.{string_bytes};
ghost use Rattle.ts_base.specs.Fault.{FaultAt, Stands};
ghost use Rattle.ts_query.specs.Queries.{phrase_joint};
ghost use Rattle.ts_query.specs.Tokens.{QueryToken, word, sign, operand, no_weights, with_weight, IsDelimiter};
ghost use Rattle.ts_base.specs.Digits.{with_digit};
ghost use Rattle.ts_base.specs.Bytes.{IsWhite, IsDigit};
ghost use Rattle.ts_query.specs.Inner.Frames.{Spot, start, IsDue, IsHeld};
ghost use Rattle.ts_query.specs.Inner.Parsing.{link_joint};
ghost use Rattle.ts_query.specs.Limits.{is_far, or_else};
ghost use Rattle.ts_query.specs.Inner.Lexer.{between};
ghost use Rattle.ts_query.specs.Inner.Reader.{Reading, ReadsPair, Stand, IsReaderAt, KeepsParsed, Tracks, Gave};
ghost use Rattle.ts_query.specs.Inner.Reader.{MovedOrStuck, EndsOrNot, IsOutcome};

use crate::parser::{Entry, Link, Parser, Place, Word};
use crate::{GREATEST_DISTANCE, PAST_DISTANCE};
use std::alloc::{AllocError, Global};
use std::mem;
use ts_base::{LONGEST_LEXEME, Weight, Weights, is_white, weight_of};

/// Where a reader is within a token.
#[derive(Clone, Copy)]
pub enum State {
    /// Between tokens.
    Between,
    /// In a quoted lexeme.
    InQuoted,
    /// After `\` in a quoted lexeme.
    QuotedEscape,
    /// After a quote in a quoted lexeme.
    Quote,
    /// In a plain lexeme.
    InPlain,
    /// After `\` in a plain lexeme.
    PlainEscape,
    /// After the `:` of an operand.
    InMarks,
    /// After `<`.
    Less,
    /// After `<-`.
    Dash,
    /// In the number of `<N>`.
    Digits,
}

/// A reader of characters.
#[derive(Drop)]
pub struct Reader {
    /// Where it is within a token.
    pub state: State,
    /// The offset where the token starts.
    pub start: usize,
    /// The lexeme so far.
    pub word: String,
    /// The weights so far.
    pub weights: Weights,
    /// Whether the mark of a prefix was read.
    pub prefix: bool,
    /// The number so far, or 16385 where it is greater.
    pub distance: u16,
    /// What the tokens so far lead to.
    pub parser: Parser,
    /// Where the first operator with a distance above 16384 starts.
    pub far: Option<usize>,
    /// Where the first operand with a lexeme that is too long starts.
    pub long: Option<usize>,
}

/// What was read of a text in the grammar.
#[derive(Drop)]
pub struct Outcome {
    /// The query's postfix list.
    pub entries: Vec<Entry>,
    /// Where the first operator with a distance above 16384 starts.
    pub far: Option<usize>,
    /// Where the first operand with a lexeme that is too long starts.
    pub long: Option<usize>,
}

/// One of `! & ( ) | < :`.
fn is_delimiter(c: char) -> bool
    ensures { IsTrue result ↔ IsDelimiter c }
{
    c == '!' || c == '&' || c == '(' || c == ')' || c == '|' || c == '<' || c == ':'
}

/// Whether a plain lexeme ends before this character.
fn ends_plain(c: char) -> bool
    ensures { IsTrue result ↔ (IsWhite c ⊎ IsDelimiter c) }
{
    is_white(c) || is_delimiter(c)
}

/// The weights with one more.
fn with(weights: Weights, weight: Weight) -> Weights
    ensures { result ≡ with_weight weight weights }
{
    match weight {
        Weight::A => Weights { a: true, ..weights },
        Weight::B => Weights { b: true, ..weights },
        Weight::C => Weights { c: true, ..weights },
        Weight::D => Weights { d: true, ..weights },
    }
}

/// No weights.
fn none() -> Weights
    ensures { result ≡ no_weights }
{
    Weights {
        a: false,
        b: false,
        c: false,
        d: false,
    }
}

/// One digit more of a distance.
fn longer(distance: u16, c: char) -> u16
    requires { IsDigit c }
    ensures { result ≡ with_digit PAST_DISTANCE distance c }
{
    let value = u32::from(distance) * 10 + (c as u32 - '0' as u32);
    value.min(u32::from(PAST_DISTANCE)) as u16
}

/// Whether the operator has a distance above the greatest.
fn is_too_far(link: Link) -> bool
    ensures { result ≡ is_far (link_joint link) }
{
    match link {
        Link::Phrase(distance) => distance > GREATEST_DISTANCE,
        Link::And | Link::Or => false,
    }
}

/// What was found first, or else this place, if it is past a limit.
fn first_at(found: Option<usize>, past: bool, at: usize) -> Option<usize>
    ensures { result ≡ or_else found (if past then Some at else None) }
{
    match found {
        Some(_) => found,
        None => { if past { Some(at) } else { None } }
    }
}

impl Reader {
    /// A reader before the first character.
    pub fn new(alloc: Global) -> Reader
        ensures { IsReaderAt result (record { lexer = between; spot = start; tokens = [] }) }
    {
        Reader {
            state: State::Between,
            start: 0,
            word: String::new(alloc),
            weights: none(),
            prefix: false,
            distance: 0,
            parser: Parser {
                place: Place::Start,
                ops: Vec::new(alloc),
                out: Vec::new(alloc),
            },
            far: None,
            long: None,
        }
    }

    /// The offset at which a token starts, with no byte of it yet.
    fn begin_word(&mut self, at: usize, state: State)
        ensures word { string_bytes self.new.word ≡ [] }
        ensures start { self.new.start ≡ at }
        ensures state { self.new.state ≡ state }
        ensures keeps { KeepsParsed self.old self.new }
    {
        self.word.clear();
        self.start = at;
        self.state = state;
    }

    /// One character more of the lexeme.
    fn put(&mut self, c: char, state: State) -> Result<(), AllocError>
        ensures word { OnOk result
            (string_bytes self.new.word ≡ string_bytes self.old.word ++ encode_utf8 c) }
        ensures start { self.new.start ≡ self.old.start }
        ensures state { OnOk result (self.new.state ≡ state) }
        ensures keeps { KeepsParsed self.old self.new }
    {
        self.word.push(c)?;
        self.state = state;
        Ok(())
    }

    /// After the `:` of an operand.
    fn begin_marks(&mut self)
        ensures { self.new
            ≡ record self.old { state = State.InMarks; weights = no_weights; prefix = false } }
    {
        self.weights = none();
        self.prefix = false;
        self.state = State::InMarks;
    }

    /// The operand is over.
    fn end_word(&mut self, alloc: Global, weights: Weights, prefix: bool) -> Result<(), AllocError>
        ensures state { OnOk result (self.new.state ≡ State.Between) }
        ensures gave { OnOk result
            ((p : Spot) (ts : List QueryToken) → IsDue p → Tracks self.old p ts
            → Gave p ts (word self.old.start (operand (string_bytes self.old.word) weights prefix))
            self.new) }
    {
        self.long = first_at(
            self.long,
            self.word.as_str().len() > LONGEST_LEXEME,
            self.start,
        );
        let lexeme = mem::replace(&mut self.word, String::new(alloc));
        self.parser.operand(Word {
            lexeme,
            weights,
            prefix,
        })?;
        self.state = State::Between;
        Ok(())
    }

    /// A binary operator is over, which starts at `at`.
    fn end_link(&mut self, at: usize, link: Link) -> Result<(), AllocError>
        ensures state { OnOk result (self.new.state ≡ State.Between) }
        ensures gave { OnOk result
            ((p : Spot) (ts : List QueryToken) → IsHeld p → Tracks self.old p ts
            → Gave p ts (sign at (link_joint link)) self.new) }
    {
        self.far = first_at(self.far, is_too_far(link), at);
        self.parser.link(link)?;
        self.state = State::Between;
        Ok(())
    }

    /// A character between tokens, where an operand may come.
    fn begin(&mut self, at: usize, c: char) -> Result<bool, AllocError>
        requires between { self.old.state ≡ State.Between }
        requires dark { ¬ IsWhite c }
        ensures { IfOk result
            (λ ok. (s : Stand) → IsDue s.spot → IsReaderAt self.old s
            → MovedOrStuck at s (encode_utf8 c) ok self.new) }
    {
        match c {
            '\'' => {
                self.begin_word(at, State::InQuoted);
                Ok(true)
            }
            '\\' => {
                self.begin_word(at, State::PlainEscape);
                Ok(true)
            }
            '!' => {
                self.parser.negation()?;
                Ok(true)
            }
            '(' => {
                self.parser.open()?;
                Ok(true)
            }
            '&' | ')' | '|' | '<' | ':' => Ok(false),
            _ => {
                self.begin_word(at, State::InPlain);
                self.put(c, State::InPlain)?;
                Ok(true)
            }
        }
    }

    /// A character between tokens, after an operand.
    fn operator(&mut self, at: usize, c: char) -> Result<bool, AllocError>
        requires between { self.old.state ≡ State.Between }
        requires dark { ¬ IsWhite c }
        ensures { IfOk result
            (λ ok. (s : Stand) → IsHeld s.spot → IsReaderAt self.old s
            → MovedOrStuck at s (encode_utf8 c) ok self.new) }
    {
        match c {
            '&' => {
                self.end_link(at, Link::And)?;
                Ok(true)
            }
            '|' => {
                self.end_link(at, Link::Or)?;
                Ok(true)
            }
            '<' => {
                self.start = at;
                self.state = State::Less;
                Ok(true)
            }
            ')' => {
                let ok = self.parser.close()?;
                Ok(ok)
            }
            _ => Ok(false),
        }
    }

    /// A character between tokens.
    fn between(&mut self, at: usize, c: char) -> Result<bool, AllocError>
        requires { self.old.state ≡ State.Between }
        ensures { IfOk result
            (λ ok. (s : Stand) → IsReaderAt self.old s
            → MovedOrStuck at s (encode_utf8 c) ok self.new) }
    {
        if is_white(c) {
            return Ok(true);
        }
        if self.parser.is_due() {
            let ok = self.begin(at, c)?;
            return Ok(ok);
        }
        let ok = self.operator(at, c)?;
        Ok(ok)
    }

    /// A character in a quoted lexeme.
    fn in_quoted(&mut self, c: char) -> Result<bool, AllocError>
        requires { self.old.state ≡ State.InQuoted }
        ensures { IfOk result
            (λ ok. (at : ℕ) (s : Stand) → IsReaderAt self.old s
            → MovedOrStuck at s (encode_utf8 c) ok self.new) }
    {
        match c {
            '\'' => {
                self.state = State::Quote;
                Ok(true)
            }
            '\\' => {
                self.state = State::QuotedEscape;
                Ok(true)
            }
            _ => {
                self.put(c, State::InQuoted)?;
                Ok(true)
            }
        }
    }

    /// After a quote in a quoted lexeme: it ended there, or another quote follows.
    fn quote(&mut self, alloc: Global, at: usize, c: char) -> Result<bool, AllocError>
        requires { self.old.state ≡ State.Quote }
        ensures { IfOk result
            (λ ok. (s : Stand) → IsReaderAt self.old s
            → MovedOrStuck at s (encode_utf8 c) ok self.new) }
    {
        if c == '\'' {
            self.put(c, State::InQuoted)?;
            return Ok(true);
        }
        if self.word.as_str().is_empty() {
            return Ok(false);
        }
        if c == ':' {
            self.begin_marks();
            return Ok(true);
        }
        self.end_word(alloc, none(), false)?;
        let ok = self.between(at, c)?;
        Ok(ok)
    }

    /// A character in a plain lexeme.
    fn in_plain(&mut self, alloc: Global, at: usize, c: char) -> Result<bool, AllocError>
        requires { self.old.state ≡ State.InPlain }
        ensures { IfOk result
            (λ ok. (s : Stand) → IsReaderAt self.old s
            → MovedOrStuck at s (encode_utf8 c) ok self.new) }
    {
        if c == '\\' {
            self.state = State::PlainEscape;
            return Ok(true);
        }
        if c == ':' {
            self.begin_marks();
            return Ok(true);
        }
        if ends_plain(c) {
            self.end_word(alloc, none(), false)?;
            let ok = self.between(at, c)?;
            return Ok(ok);
        }
        self.put(c, State::InPlain)?;
        Ok(true)
    }

    /// A character after the `:` of an operand.
    fn in_marks(&mut self, alloc: Global, at: usize, c: char) -> Result<bool, AllocError>
        requires { self.old.state ≡ State.InMarks }
        ensures { IfOk result
            (λ ok. (s : Stand) → IsReaderAt self.old s
            → MovedOrStuck at s (encode_utf8 c) ok self.new) }
    {
        if c == '*' {
            self.prefix = true;
            return Ok(true);
        }
        if let Some(weight) = weight_of(c) {
            self.weights = with(self.weights, weight);
            return Ok(true);
        }
        self.end_word(alloc, self.weights, self.prefix)?;
        let ok = self.between(at, c)?;
        Ok(ok)
    }

    /// A character after `<`.
    fn less(&mut self, c: char) -> Result<bool, AllocError>
        requires { self.old.state ≡ State.Less }
        ensures { IfOk result
            (λ ok. (at : ℕ) (s : Stand) → IsReaderAt self.old s
            → MovedOrStuck at s (encode_utf8 c) ok self.new) }
    {
        if c == '-' {
            self.state = State::Dash;
            return Ok(true);
        }
        if '0' <= c && c <= '9' {
            self.distance = longer(0, c);
            self.state = State::Digits;
            return Ok(true);
        }
        Ok(false)
    }

    /// A character after `<-`.
    fn dash(&mut self, c: char) -> Result<bool, AllocError>
        requires { self.old.state ≡ State.Dash }
        ensures { IfOk result
            (λ ok. (at : ℕ) (s : Stand) → IsReaderAt self.old s
            → MovedOrStuck at s (encode_utf8 c) ok self.new) }
    {
        if c == '>' {
            self.end_link(self.start, Link::Phrase(1))?;
            return Ok(true);
        }
        Ok(false)
    }

    /// A character in the number of `<N>`.
    fn digits(&mut self, c: char) -> Result<bool, AllocError>
        requires { self.old.state ≡ State.Digits }
        ensures { IfOk result
            (λ ok. (at : ℕ) (s : Stand) → IsReaderAt self.old s
            → MovedOrStuck at s (encode_utf8 c) ok self.new) }
    {
        if '0' <= c && c <= '9' {
            self.distance = longer(self.distance, c);
            return Ok(true);
        }
        if c == '>' {
            self.end_link(self.start, Link::Phrase(self.distance))?;
            return Ok(true);
        }
        Ok(false)
    }

    /// The character at the offset `at`; `false` where it can't be there.
    fn step(&mut self, alloc: Global, at: usize, c: char) -> Result<bool, AllocError>
        ensures { IfOk result
            (λ ok. (s : Stand) → IsReaderAt self.old s
            → MovedOrStuck at s (encode_utf8 c) ok self.new) }
    {
        match self.state {
            State::Between => self.between(at, c),
            State::InQuoted => self.in_quoted(c),
            State::QuotedEscape => {
                self.put(c, State::InQuoted)?;
                Ok(true)
            }
            State::Quote => self.quote(alloc, at, c),
            State::InPlain => self.in_plain(alloc, at, c),
            State::PlainEscape => {
                self.put(c, State::InPlain)?;
                Ok(true)
            }
            State::InMarks => self.in_marks(alloc, at, c),
            State::Less => self.less(c),
            State::Dash => self.dash(c),
            State::Digits => self.digits(c),
        }
    }

    /// What was read, if the text may end between tokens.
    fn close_up(self) -> Result<Option<Outcome>, AllocError>
        requires { self.state ≡ State.Between }
        ensures { IfOk result (λ r. (s : Stand) → IsReaderAt self s → EndsOrNot s r) }
    {
        match self.parser.finish()? {
            Some(entries) => Ok(Some(Outcome {
                entries,
                far: self.far,
                long: self.long,
            })),
            None => Ok(None),
        }
    }

    /// What was read, if the text may end here.
    fn finish(mut self, alloc: Global) -> Result<Option<Outcome>, AllocError>
        ensures { IfOk result (λ r. (s : Stand) → IsReaderAt self s → EndsOrNot s r) }
    {
        match self.state {
            State::Between => self.close_up(),
            State::Quote => {
                if self.word.as_str().is_empty() {
                    return Ok(None);
                }
                self.end_word(alloc, none(), false)?;
                let outcome = self.close_up()?;
                Ok(outcome)
            }
            State::InPlain => {
                self.end_word(alloc, none(), false)?;
                let outcome = self.close_up()?;
                Ok(outcome)
            }
            State::InMarks => {
                let weights = self.weights;
                let prefix = self.prefix;
                self.end_word(alloc, weights, prefix)?;
                let outcome = self.close_up()?;
                Ok(outcome)
            }
            State::InQuoted
            | State::QuotedEscape
            | State::PlainEscape
            | State::Less
            | State::Dash
            | State::Digits => Ok(None),
        }
    }
}

/// What a query's text has, or the place of its first fault.
pub fn read(alloc: Global, text: &str) -> Result<Result<Outcome, usize>, AllocError>
    ensures found { IfOk result (λ r. IfOk r (IsOutcome text.now)) }
    ensures fault { IfOk result (λ r. IfErr r (FaultAt (Stands Reading ReadsPair) text.now)) }
{
    let mut reader = Reader::new(alloc);
    for (at, c) in text.char_indices() {
        if !reader.step(alloc, at, c)? {
            return Ok(Err(at));
        }
    }
    match reader.finish(alloc)? {
        Some(outcome) => Ok(Ok(outcome)),
        None => Ok(Err(text.len())),
    }
}
