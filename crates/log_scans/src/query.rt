// Queries: keys, and a tree of `!`, `&` and `|` over them.
use std::alloc::{AllocError, Global};

/// What is known of a key, or of a whole query.
#[derive(Clone, Copy, PartialEq)]
pub enum Tri {
    /// It isn't there; the query doesn't hold.
    False,
    /// That is open.
    Maybe,
    /// It is there; the query holds.
    True,
}

impl Tri {
    /// False and True change places.
    fn not(self) -> Tri {
        match self {
            Tri::False => Tri::True,
            Tri::Maybe => Tri::Maybe,
            Tri::True => Tri::False,
        }
    }

    /// The least.
    fn and(self, other: Tri) -> Tri {
        match (self, other) {
            (Tri::False, _) | (_, Tri::False) => Tri::False,
            (Tri::True, Tri::True) => Tri::True,
            _ => Tri::Maybe,
        }
    }

    /// The greatest.
    fn or(self, other: Tri) -> Tri {
        match (self, other) {
            (Tri::True, _) | (_, Tri::True) => Tri::True,
            (Tri::False, Tri::False) => Tri::False,
            _ => Tri::Maybe,
        }
    }
}

/// What a query asks for.
#[derive(Drop)]
pub struct Asked {
    /// The key.
    pub key: Vec<u8>,
    /// Each key that begins with it serves.
    pub prefix: bool,
}

impl Asked {
    /// Whether a key serves.
    pub fn fits(&self, key: &[u8]) -> bool {
        if self.prefix {
            key.starts_with(self.key.as_slice())
        } else {
            key == self.key.as_slice()
        }
    }

    /// Whether it comes before another in key order, a key itself before those that begin with it.
    pub(crate) fn is_before(&self, other: &Asked) -> bool {
        self.key < other.key || self.key == other.key && !self.prefix && other.prefix
    }

    /// True where one of these keys serves, else this.
    fn value(&self, keys: &[&[u8]], absent: Tri) -> Tri {
        for key in keys {
            if self.fits(key) {
                return Tri::True;
            }
        }
        absent
    }
}

/// A step by which a query is judged, over a pile of what was found.
#[derive(Clone, Copy)]
pub(crate) enum Move {
    /// The value of the operand with this number comes on the pile.
    Operand(usize),
    /// The topmost is turned.
    Not,
    /// The two topmost become the least of them.
    And,
    /// The two topmost become the greatest of them.
    Or,
}

/// A query.
#[derive(Drop)]
pub struct Query {
    /// What it asks for, an operand each, in the order of the text.
    pub(crate) asked: Vec<Asked>,
    /// How it is judged.
    pub(crate) moves: Vec<Move>,
}

/// The topmost value, turned.
fn turned(pile: &mut Vec<Tri>) -> Option<Tri> {
    Some(pile.pop()?.not())
}

/// The least of the two topmost values.
fn least(pile: &mut Vec<Tri>) -> Option<Tri> {
    let right = pile.pop()?;
    let left = pile.pop()?;
    Some(left.and(right))
}

/// The greatest of the two topmost values.
fn greatest(pile: &mut Vec<Tri>) -> Option<Tri> {
    let right = pile.pop()?;
    let left = pile.pop()?;
    Some(left.or(right))
}

/// The value of one move; none where not so many are there.
fn made(pile: &mut Vec<Tri>, step: Move, values: &[Tri]) -> Option<Tri> {
    match step {
        Move::Operand(place) => values.get(place).copied(),
        Move::Not => turned(pile),
        Move::And => least(pile),
        Move::Or => greatest(pile),
    }
}

impl Query {
    /// What it asks for, an operand each, in the order of the text.
    pub fn asked(&self) -> &[Asked] {
        &self.asked
    }

    /// What it is where the operands are these; none where its operators and operands don't match.
    pub(crate) fn try_judge(
        &self,
        alloc: Global,
        values: &[Tri],
    ) -> Result<Option<Tri>, AllocError> {
        let mut pile = Vec::new(alloc);
        for step in &self.moves {
            match made(&mut pile, *step, values) {
                Some(value) => pile.push(value)?,
                None => return Ok(None),
            }
        }
        match pile.as_slice() {
            [value] => Ok(Some(*value)),
            _ => Ok(None),
        }
    }

    /// The operands, of which one is True where one of these keys serves, and each other is this.
    pub(crate) fn values(
        &self,
        alloc: Global,
        keys: &[&[u8]],
        absent: Tri,
    ) -> Result<Vec<Tri>, AllocError> {
        let mut values = Vec::new(alloc);
        for asked in &self.asked {
            values.push(asked.value(keys, absent))?;
        }
        Ok(values)
    }

    /// What it is where an operand is True for which one of these keys serves, and each other is this.
    pub fn judge(&self, alloc: Global, keys: &[&[u8]], absent: Tri) -> Result<Tri, AllocError> {
        let values = self.values(alloc, keys, absent)?;
        match self.try_judge(alloc, &values)? {
            Some(value) => Ok(value),
            None => Ok(Tri::False),
        }
    }

    /// Whether a document without any of its keys may satisfy it, so that the whole index is read.
    pub fn needs_all(&self, alloc: Global) -> Result<bool, AllocError> {
        let value = self.judge(alloc, &[], Tri::False)?;
        Ok(value != Tri::False)
    }

    /// Whether it holds of a document with these keys.
    pub fn holds(&self, alloc: Global, keys: &[Vec<u8>]) -> Result<bool, AllocError> {
        let mut all = Vec::new(alloc);
        for key in keys {
            all.push(key.as_slice())?;
        }
        let value = self.judge(alloc, &all, Tri::False)?;
        Ok(value == Tri::True)
    }
}
