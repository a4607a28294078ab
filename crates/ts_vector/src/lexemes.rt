// Different lexemes, each with a number.
ghost use Rattle.std.specs.Prelude.{◌≡◌, ◌<◌, [], length, get_or, IfSome, IfOk, OnErr};
ghost use Rattle.ts_vector.specs.Inner.Building.{IsEntered};

use std::alloc::{AllocError, Global};
use std::collections::BTreeMap;
use std::marker::Model;
use ts_base::Lexeme;

/// How many places there are for lexemes that came lately.
const PLACES: usize = 1024;

/// Different lexemes, numbered as they came. Contracts see them as a list.
///
/// A look-up takes time that grows with the logarithm of their number, whatever they are, and less
/// where the lexeme came lately.
#[derive(Drop)]
pub struct Lexemes {
    /// The lexemes.
    texts: Vec<Lexeme>,
    /// The number of each.
    numbers: BTreeMap<Lexeme, usize>,
    /// Numbers of lexemes that came lately, each at a place that the lexeme's bytes say.
    recent: Vec<usize>,
}

impl Model for Lexemes {
    ghost use Rattle.std.specs.Prelude.{List, ℕ};

    ghost Value = { List (List ℕ) };

    ghost use Rattle.ts_vector.specs.Inner.Building.{AreNumbered};

    ghost view = { λ l. l.texts.items };

    ghost invariant = { λ l. AreNumbered l.texts.items l.numbers.entries };
}

/// The place of a lexeme with these bytes.
fn place_of(bytes: &[u8]) -> usize {
    let mut place = bytes.len();
    for byte in bytes {
        place = place.wrapping_mul(31).wrapping_add(usize::from(*byte));
    }
    place % PLACES
}

impl Lexemes {
    /// No lexeme.
    pub fn new(alloc: Global) -> Result<Lexemes, AllocError>
        ensures { IfOk result (λ lexemes. lexemes ≡ []) }
    {
        let mut recent = Vec::new(alloc);
        recent.resize(PLACES, 0)?;
        Ok(Lexemes {
            texts: Vec::new(alloc),
            numbers: BTreeMap::new(alloc),
            recent,
        })
    }

    /// All of them, in the order of their numbers.
    pub fn as_slice(&self) -> &[Lexeme]
        ensures { result.now ≡ self.now }
    {
        self.texts.as_slice()
    }

    /// The number at a place, if it is this lexeme's.
    fn recent_at(&self, place: usize, lexeme: &Lexeme) -> Option<usize>
        ensures { IfSome result
            (λ n. (n < length self.now) × (get_or self.now n [] ≡ lexeme.now)) }
    {
        let number = *self.recent.get(place)?;
        let text = self.texts.get(number)?;
        if text.as_str() == lexeme.as_str() {
            return Some(number);
        }
        None
    }

    /// The number of a lexeme, if it has one.
    fn find(&self, lexeme: &Lexeme) -> Option<usize>
        ensures { IfSome result
            (λ n. (n < length self.now) × (get_or self.now n [] ≡ lexeme.now)) }
    {
        match self.numbers.get(lexeme) {
            Some(number) => Some(*number),
            None => None,
        }
    }

    /// The number of a lexeme, found without a place; one that is new comes last.
    fn looked_up(&mut self, lexeme: &Lexeme) -> Result<usize, AllocError>
        ensures ok { IfOk result (λ n. IsEntered self.old lexeme.now n self.new) }
        ensures err { OnErr result (self.new ≡ self.old) }
    {
        if let Some(number) = self.find(lexeme) {
            return Ok(number);
        }
        let number = self.texts.len();
        self.texts.reserve(1)?;
        let text = lexeme.clone()?;
        let key = lexeme.clone()?;
        self.numbers.insert(key, number)?;
        self.texts.push_reserved(text);
        Ok(number)
    }

    /// The number of a lexeme; one that is new comes last.
    pub fn number_of(&mut self, lexeme: &Lexeme) -> Result<usize, AllocError>
        ensures ok { IfOk result (λ n. IsEntered self.old lexeme.now n self.new) }
        ensures err { OnErr result (self.new ≡ self.old) }
    {
        let place = place_of(lexeme.as_str().as_bytes());
        if let Some(number) = self.recent_at(place, lexeme) {
            return Ok(number);
        }
        let number = self.looked_up(lexeme)?;
        if place < self.recent.len() {
            self.recent[place] = number;
        }
        Ok(number)
    }
}
