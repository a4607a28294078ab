// Reads the text of a vector.
ghost use Rattle.std.specs.Prelude.{◌≡◌, ◌<◌, ◌≤◌, ◌^◌, ℕ, length, List, [], ◌∷◌, ◌++◌, IfOk, IfErr, OnOk};
ghost use Rattle.ts_base.specs.Fault.{FaultAt, Stands};
ghost use Rattle.ts_base.specs.declared.TheConstants.{LAST_POSITION};
ghost use Rattle.ts_vector.specs.Text.{written, Written, IsVectorText};

use crate::written_lexemes::WrittenLexemes;
use std::alloc::{AllocError, Global};
use ts_base::{LAST_POSITION, Position, Weight, is_white, weight_of};

/// Where a reader is.
#[derive(Clone, Copy, Debug, PartialEq, Eq)]
enum State {
    /// Between items.
    Between,
    /// In a quoted lexeme.
    InQuoted,
    /// After `\` in a quoted lexeme.
    QuotedEscape,
    /// After a quote in a quoted lexeme.
    Quote,
    /// In a plain lexeme.
    InPlain,
    /// After `\` in a plain lexeme.
    PlainEscape,
    /// In a position's number.
    Digits,
    /// After a position's letter.
    Weighted,
}

/// A reader of bytes.
#[derive(Drop)]
struct Reader {
    /// Where it is.
    state: State,
    /// The items so far.
    words: WrittenLexemes,
    /// Where the item starts.
    start: usize,
    /// The lexeme so far.
    word: Vec<u8>,
    /// Its positions so far.
    positions: Vec<Position>,
    /// The number so far.
    value: u16,
    ghost capped: { value ≤ LAST_POSITION },
}

impl Reader {
    ghost use Rattle.ts_vector.specs.Inner.Shape.{shape, ShapeSteps, ShapeEnds};

    /// Ends an item that has no positions.
    fn close_alone(&mut self) -> Result<(), AllocError>
        ensures items { OnOk result
            (self.new.words
            ≡ self.old.words ++ written self.old.start self.old.word.items [] ∷ []) }
        ensures state { OnOk result (self.new.state ≡ State.Between) }
    {
        self.words.push(self.start, self.word.as_slice(), &[])?;
        self.state = State::Between;
        Ok(())
    }

    /// Ends an item that has positions.
    fn close_at(&mut self) -> Result<(), AllocError>
        ensures items { OnOk result
            (self.new.words
            ≡ self.old.words
            ++ written self.old.start self.old.word.items self.old.positions.items ∷ []) }
        ensures state { OnOk result (self.new.state ≡ State.Between) }
    {
        let positions = self.positions.as_slice();
        self.words
            .push(self.start, self.word.as_slice(), positions)?;
        self.state = State::Between;
        Ok(())
    }

    /// Adds a byte to the lexeme.
    fn put(&mut self, byte: u8, state: State) -> Result<(), AllocError>
        ensures word { OnOk result (self.new.word.items ≡ self.old.word.items ++ byte ∷ []) }
        ensures items { self.new.words ≡ self.old.words }
        ensures start { self.new.start ≡ self.old.start }
        ensures state { OnOk result (self.new.state ≡ state) }
    {
        self.word.push(byte)?;
        self.state = state;
        Ok(())
    }

    /// Begins a lexeme at the offset `at`.
    fn begin(&mut self, at: usize, state: State)
        ensures word { self.new.word.items ≡ [] }
        ensures items { self.new.words ≡ self.old.words }
        ensures start { self.new.start ≡ at }
        ensures state { self.new.state ≡ state }
        ensures positions { self.new.positions ≡ self.old.positions }
        ensures value { self.new.value ≡ self.old.value }
    {
        self.word.clear();
        self.start = at;
        self.state = state;
    }

    /// After the `:` of an item.
    fn begin_positions(&mut self)
        ensures state { self.new.state ≡ State.Digits }
        ensures items { self.new.words ≡ self.old.words }
        ensures start { self.new.start ≡ self.old.start }
        ensures word { self.new.word ≡ self.old.word }
        ensures positions { self.new.positions.items ≡ [] }
        ensures value { self.new.value ≡ 0 }
    {
        self.positions.clear();
        self.value = 0;
        self.state = State::Digits;
    }

    /// Between items, at the offset `at`.
    fn between(&mut self, at: usize, byte: u8) -> Result<bool, AllocError>
        requires { self.old.state ≡ State.Between }
        ensures { IfOk result (λ ok. ShapeSteps at (shape self.old) byte ok (shape self.new)) }
    {
        match byte {
            b'\'' => {
                self.begin(at, State::InQuoted);
            }
            b'\\' => {
                self.begin(at, State::PlainEscape);
            }
            b':' => return Ok(false),
            _ => {
                if !is_white(byte as char) {
                    self.begin(at, State::InPlain);
                    self.put(byte, State::InPlain)?;
                }
            }
        }
        Ok(true)
    }

    /// Within a quoted lexeme.
    fn in_quoted(&mut self, at: usize, byte: u8) -> Result<bool, AllocError>
        requires { self.old.state ≡ State.InQuoted }
        ensures { IfOk result (λ ok. ShapeSteps at (shape self.old) byte ok (shape self.new)) }
    {
        match byte {
            b'\'' => self.state = State::Quote,
            b'\\' => self.state = State::QuotedEscape,
            _ => self.put(byte, State::InQuoted)?,
        }
        Ok(true)
    }

    /// After a quote within a quoted lexeme: it ended there, or another quote follows.
    fn quote(&mut self, at: usize, byte: u8) -> Result<bool, AllocError>
        requires { self.old.state ≡ State.Quote }
        ensures { IfOk result (λ ok. ShapeSteps at (shape self.old) byte ok (shape self.new)) }
    {
        if byte == b'\'' {
            self.put(byte, State::InQuoted)?;
            return Ok(true);
        }
        if self.word.is_empty() {
            return Ok(false);
        }
        if byte == b':' {
            self.begin_positions();
            return Ok(true);
        }
        self.close_alone()?;
        let ok = self.between(at, byte)?;
        Ok(ok)
    }

    /// Within a plain lexeme.
    fn in_plain(&mut self, at: usize, byte: u8) -> Result<bool, AllocError>
        requires { self.old.state ≡ State.InPlain }
        ensures { IfOk result (λ ok. ShapeSteps at (shape self.old) byte ok (shape self.new)) }
    {
        match byte {
            b'\\' => self.state = State::PlainEscape,
            b':' => self.begin_positions(),
            _ => {
                if is_white(byte as char) {
                    self.close_alone()?;
                } else {
                    self.put(byte, State::InPlain)?;
                }
            }
        }
        Ok(true)
    }

    /// Within a position's number.
    fn digits(&mut self, at: usize, byte: u8) -> Result<bool, AllocError>
        requires { self.old.state ≡ State.Digits }
        ensures { IfOk result (λ ok. ShapeSteps at (shape self.old) byte ok (shape self.new)) }
    {
        if b'0' <= byte && byte <= b'9' {
            let value = (self.value as u32 * 10 + (byte - b'0') as u32).min(LAST_POSITION as u32);
            self.value = value as u16;
            return Ok(true);
        }
        if self.value == 0 {
            return Ok(false);
        }
        if let Some(weight) = weight_of(byte as char) {
            let position = Position::new(self.value, weight);
            self.positions.push(position)?;
            self.state = State::Weighted;
            return Ok(true);
        }
        if byte == b',' {
            let position = Position::new(self.value, Weight::D);
            self.positions.push(position)?;
            self.value = 0;
            return Ok(true);
        }
        if is_white(byte as char) {
            let position = Position::new(self.value, Weight::D);
            self.positions.push(position)?;
            self.close_at()?;
            return Ok(true);
        }
        Ok(false)
    }

    /// After a position's letter.
    fn weighted(&mut self, at: usize, byte: u8) -> Result<bool, AllocError>
        requires { self.old.state ≡ State.Weighted }
        ensures { IfOk result (λ ok. ShapeSteps at (shape self.old) byte ok (shape self.new)) }
    {
        if byte == b',' {
            self.value = 0;
            self.state = State::Digits;
            return Ok(true);
        }
        if is_white(byte as char) {
            self.close_at()?;
            return Ok(true);
        }
        Ok(false)
    }

    /// The byte at the offset `at`; `false` where it can't be here.
    fn step(&mut self, at: usize, byte: u8) -> Result<bool, AllocError>
        ensures { IfOk result (λ ok. ShapeSteps at (shape self.old) byte ok (shape self.new)) }
    {
        match self.state {
            State::Between => self.between(at, byte),
            State::InQuoted => self.in_quoted(at, byte),
            State::QuotedEscape => {
                self.put(byte, State::InQuoted)?;
                Ok(true)
            }
            State::Quote => self.quote(at, byte),
            State::InPlain => self.in_plain(at, byte),
            State::PlainEscape => {
                self.put(byte, State::InPlain)?;
                Ok(true)
            }
            State::Digits => self.digits(at, byte),
            State::Weighted => self.weighted(at, byte),
        }
    }

    /// The items, if the text may end here.
    fn finish(mut self) -> Result<Option<WrittenLexemes>, AllocError>
        ensures { IfOk result
            (λ r. ShapeEnds (shape self) r) }
    {
        match self.state {
            State::Between => Ok(Some(self.words)),
            State::Quote => {
                if self.word.is_empty() {
                    return Ok(None);
                }
                self.close_alone()?;
                Ok(Some(self.words))
            }
            State::InPlain => {
                self.close_alone()?;
                Ok(Some(self.words))
            }
            State::Digits => {
                if self.value == 0 {
                    return Ok(None);
                }
                let position = Position::new(self.value, Weight::D);
                self.positions.push(position)?;
                self.close_at()?;
                Ok(Some(self.words))
            }
            State::Weighted => {
                self.close_at()?;
                Ok(Some(self.words))
            }
            State::InQuoted | State::QuotedEscape | State::PlainEscape => Ok(None),
        }
    }
}

/// The items of a vector's text, in their order in the text, or the place of its first fault.
pub fn read(alloc: Global, text: &[u8]) -> Result<Result<WrittenLexemes, usize>, AllocError>
    // What is read is written so, and nothing else is.
    ensures found { IfOk result
        (λ r. IfOk r (IsVectorText text.now)) }
    ensures bound { length text.now < 2 ^ 64 }
    // A text outside the grammar is refused at its first fault.
    ensures fault { IfOk result
        (λ r. IfErr r (λ at. FaultAt (Stands (List Written) IsVectorText) text.now at)) }
{
    let mut reader = Reader {
        state: State::Between,
        words: WrittenLexemes::new(alloc),
        start: 0,
        word: Vec::new(alloc),
        positions: Vec::new(alloc),
        value: 0,
    };
    for (i, &byte) in text.iter().enumerate() {
        if !reader.step(i, byte)? {
            return Ok(Err(i));
        }
    }
    match reader.finish()? {
        Some(items) => Ok(Ok(items)),
        None => Ok(Err(text.len())),
    }
}
