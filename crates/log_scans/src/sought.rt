// What a walk looks for in the trees.
use crate::query::{Asked, Query};
use std::alloc::{AllocError, Global};

/// What a walk looks for in the trees, one after another.
#[derive(Clone, Copy)]
pub enum Sought<'a> {
    /// The whole index.
    Whole,
    /// What a query asks for.
    Key(&'a Asked),
}

impl<'a> Sought<'a> {
    /// The key at whose leaf it begins.
    pub fn first(self) -> &'a [u8] {
        match self {
            Sought::Whole => &[],
            Sought::Key(asked) => asked.key.as_slice(),
        }
    }

    /// Whether it looks for a key.
    pub fn fits(self, key: &[u8]) -> bool {
        match self {
            Sought::Whole => true,
            Sought::Key(asked) => asked.fits(key),
        }
    }

    /// Whether it may go on after a leaf with this high key.
    pub fn goes_beyond(self, high: &[u8]) -> bool {
        match self {
            Sought::Whole => true,
            Sought::Key(asked) => asked.prefix && (high.is_empty() || asked.fits(high)),
        }
    }
}

/// Whether one comes after another, if there is one.
fn is_behind(one: &Asked, other: Option<&Asked>) -> bool {
    match other {
        Some(other) => other.is_before(one),
        None => true,
    }
}

/// Whether one comes before another, if there is one.
fn is_in_front(one: &Asked, other: Option<&Asked>) -> bool {
    match other {
        Some(other) => one.is_before(other),
        None => true,
    }
}

/// The first after the last one.
fn next<'a>(all: &'a [Asked], last: Option<&Asked>) -> Option<&'a Asked> {
    let mut first = None;
    for one in all {
        if is_behind(one, last) && is_in_front(one, first) {
            first = Some(one);
        }
    }
    first
}

/// Each key that a query asks for once, in key order, and of one key itself before those that begin with it.
fn sought_keys(alloc: Global, asked: &[Asked]) -> Result<Vec<Sought<'_>>, AllocError> {
    let mut all = Vec::new(alloc);
    let mut last = None;
    for _ in 0..asked.len() {
        let Some(first) = next(asked, last) else {
            break;
        };
        all.push(Sought::Key(first))?;
        last = Some(first);
    }
    Ok(all)
}

/// What a walk for a query looks for: the whole index where the query needs that, else each key that it asks for once,
/// in key order, and of one key itself before those that begin with it.
pub fn all_sought(alloc: Global, query: &Query) -> Result<Vec<Sought<'_>>, AllocError> {
    if query.needs_all(alloc)? {
        let mut all = Vec::new(alloc);
        all.push(Sought::Whole)?;
        return Ok(all);
    }
    sought_keys(alloc, query.asked())
}
