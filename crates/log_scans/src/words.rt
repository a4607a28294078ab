// A query's text.
use crate::query::{Asked, Move, Query, Tri};
use std::alloc::{AllocError, Global};

/// What is between lexemes.
const SIGNS: &[u8] = b" !&|()";

/// An operator or a bracket whose turn hasn't come.
#[derive(Clone, Copy)]
enum Waiting {
    /// `(`
    Open,
    /// `|`
    Or,
    /// `&`
    And,
    /// `!`
    Not,
}

impl Waiting {
    /// The greater of two comes first.
    fn rank(self) -> u8 {
        match self {
            Waiting::Open => 0,
            Waiting::Or => 1,
            Waiting::And => 2,
            Waiting::Not => 3,
        }
    }

    /// The move of an operator.
    fn step(self) -> Option<Move> {
        match self {
            Waiting::Open => None,
            Waiting::Or => Some(Move::Or),
            Waiting::And => Some(Move::And),
            Waiting::Not => Some(Move::Not),
        }
    }
}

/// A query as far as its text was read.
#[derive(Drop)]
struct Reader {
    /// What waits, the last on top.
    waiting: Vec<Waiting>,
    /// The query.
    query: Query,
}

impl Reader {
    /// The last that waits has its turn.
    fn take_turn(&mut self) -> Result<(), AllocError> {
        if let Some(last) = self.waiting.pop() {
            if let Some(step) = last.step() {
                self.query.moves.push(step)?;
            }
        }
        Ok(())
    }

    /// What waits with this rank or a greater one has its turn.
    fn take_turns(&mut self, rank: u8) -> Result<(), AllocError> {
        for _ in 0..self.waiting.len() {
            match self.waiting.last() {
                Some(last) if last.rank() >= rank => self.take_turn()?,
                _ => break,
            }
        }
        Ok(())
    }

    /// What waits comes on top.
    fn wait(&mut self, sign: Waiting) -> Result<(), AllocError> {
        Ok(self.waiting.push(sign)?)
    }

    /// An operator between two operands comes.
    fn operator(&mut self, sign: Waiting) -> Result<(), AllocError> {
        self.take_turns(sign.rank())?;
        self.wait(sign)
    }

    /// A bracket closes. One that closes none is left over at the end.
    fn close(&mut self) -> Result<(), AllocError> {
        self.take_turns(Waiting::Or.rank())?;
        match self.waiting.pop() {
            Some(_) => Ok(()),
            None => self.wait(Waiting::Open),
        }
    }

    /// A sign comes.
    fn sign(&mut self, sign: u8) -> Result<(), AllocError> {
        match sign {
            b'!' => self.wait(Waiting::Not),
            b'(' => self.wait(Waiting::Open),
            b'&' => self.operator(Waiting::And),
            b'|' => self.operator(Waiting::Or),
            b')' => self.close(),
            _ => Ok(()),
        }
    }

    /// An operand comes.
    fn operand(&mut self, asked: Asked) -> Result<(), AllocError> {
        let place = self.query.asked.len();
        self.query.asked.push(asked)?;
        self.query.moves.push(Move::Operand(place))?;
        Ok(())
    }

    /// A word comes, or where it has no bytes this sign.
    fn word(&mut self, alloc: Global, word: &[u8], sign: u8) -> Result<(), AllocError> {
        if word.is_empty() {
            self.sign(sign)
        } else {
            self.operand(asked_in(alloc, word)?)
        }
    }
}

/// The last letter of a key is there so many times.
fn repeat_last(key: &mut Vec<u8>, times: usize) -> Result<(), AllocError> {
    if let Some(letter) = key.last().copied() {
        for _ in 1..times {
            key.push(letter)?;
        }
    }
    Ok(())
}

/// A number in base 10 with a digit more.
fn with_digit(number: usize, digit: u8) -> usize {
    let digit = digit.saturating_sub(b'0') as usize;
    number.saturating_mul(10).saturating_add(digit)
}

/// A letter of a lexeme comes after a key; or one of `{N}`, where the number is so far the one that is given back.
fn put_letter(
    key: &mut Vec<u8>,
    number: Option<usize>,
    letter: u8,
) -> Result<Option<usize>, AllocError> {
    match (letter, number) {
        (b'{', _) => return Ok(Some(0)),
        (b'}', Some(times)) => repeat_last(key, times)?,
        (digit, Some(number)) => return Ok(Some(with_digit(number, digit))),
        (letter, None) => key.push(letter)?,
    }
    Ok(None)
}

/// The key of a lexeme, in which a letter with `{N}` after it is N times.
fn key_in(alloc: Global, word: &[u8]) -> Result<Vec<u8>, AllocError> {
    let mut key = Vec::from_slice(alloc, b"\0")?;
    let mut number = None;
    for letter in word {
        number = put_letter(&mut key, number, *letter)?;
    }
    Ok(key)
}

/// What a word asks for: a lexeme, or with `*` after it all that begin with it.
fn asked_in(alloc: Global, word: &[u8]) -> Result<Asked, AllocError> {
    let (letters, prefix) = match word.strip_suffix(b"*") {
        Some(letters) => (letters, true),
        None => (word, false),
    };
    let key = key_in(alloc, letters)?;
    Ok(Asked { key, prefix })
}

/// How many bytes a text has before the first sign.
fn word_size(text: &[u8]) -> usize {
    let mut size = 0usize;
    for byte in text {
        if SIGNS.contains(byte) {
            break;
        }
        size = size.saturating_add(1);
    }
    size
}

/// A word at the front of a text.
#[derive(Clone, Copy)]
struct Word<'a> {
    /// Its bytes; none where a sign is there.
    bytes: &'a [u8],
    /// The text's first byte.
    first: u8,
    /// What is after it, or after the sign.
    behind: &'a [u8],
}

/// The word at the front of a text; none where that is at its end.
fn word_in(text: &[u8]) -> Option<Word<'_>> {
    let (first, others) = text.split_first()?;
    let (bytes, rest) = text.split_at_checked(word_size(text))?;
    let behind = if bytes.is_empty() { others } else { rest };
    Some(Word {
        bytes,
        first: *first,
        behind,
    })
}

/// A text as far as it can be read.
fn read_text(alloc: Global, reader: &mut Reader, text: &[u8]) -> Result<(), AllocError> {
    let mut rest = text;
    // Each turn takes a byte.
    for _ in 0..text.len() {
        let Some(word) = word_in(rest) else {
            break;
        };
        reader.word(alloc, word.bytes, word.first)?;
        rest = word.behind;
    }
    reader.take_turns(Waiting::Or.rank())
}

/// The query that was read, where nothing waits and its operators and operands match.
fn whole_query(alloc: Global, reader: Reader) -> Result<Option<Query>, AllocError> {
    let Reader { waiting, query } = reader;
    let values = query.values(alloc, &[], Tri::False)?;
    let found = query.try_judge(alloc, &values)?;
    Ok(if found.is_some() && waiting.is_empty() {
        Some(query)
    } else {
        None
    })
}

/// The query of a text: lexemes with `!`, `&`, `|` and brackets; none where this is no query.
pub fn query_in(alloc: Global, text: &str) -> Result<Option<Query>, AllocError> {
    let mut reader = Reader {
        waiting: Vec::new(alloc),
        query: Query {
            asked: Vec::new(alloc),
            moves: Vec::new(alloc),
        },
    };
    read_text(alloc, &mut reader, text.as_bytes())?;
    whole_query(alloc, reader)
}
