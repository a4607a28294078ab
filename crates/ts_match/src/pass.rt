// One walk over the entries of an encoded vector, which finds what each operand names.
ghost use Rattle.std.specs.Prelude.{◌≡◌, ℕ, ◌-◌, ◌<◌, [], ◌∷◌, List, false, None, IsTrue, IfSome, length};
ghost use Rattle.std.specs.Prelude.{slice_index_or, vec_len};
ghost use Rattle.ts_base.specs.Vectors.{Entry, Vector, IsNormal};
ghost use Rattle.ts_query.specs.declared.query.Operand.{Operand as OperandOf};
ghost use Rattle.ts_match.specs.Inner.Ranges.{NamesRange};
ghost use Rattle.ts_match.specs.Inner.Pass.{IsShort, AreShort, Splits, IsAt, IsBounds, AreBounds};

use crate::encoded::names;
use crate::ranges::EntryRange;
use crate::seen::Seen;
use std::alloc::{AllocError, Global};
use std::cmp::Ordering;
use ts_query::Operand;
use ts_vector::{Entries, VectorBytes};

/// One of the two places of an operand in the order of lexemes.
#[derive(Clone, Copy, Debug, PartialEq, Eq)]
pub enum Side {
    /// Where the entries begin that it names.
    First,
    /// Where they end.
    End,
}

/// A place to which a walk over entries comes.
#[derive(Clone, Copy, Debug, PartialEq, Eq)]
pub struct Mark {
    /// The number of the operand.
    pub number: usize,
    /// Which of its places.
    pub side: Side,
}

/// The entries that an operand names, as far as a walk has found where they begin and end.
#[derive(Clone, Copy, Debug, PartialEq, Eq)]
pub struct Bounds {
    /// The index of the first one.
    pub first: Option<usize>,
    /// The index after the last one.
    pub end: Option<usize>,
}

/// What is known of an operand before a walk.
pub const UNKNOWN: Bounds = Bounds {
    first: None,
    end: None,
};

/// A mark with the bytes by which marks are sorted.
#[derive(Debug, Drop)]
struct Keyed {
    /// No lexeme before the mark is greater, and each after it is.
    key: Vec<u8>,
    /// The mark.
    mark: Mark,
}

/// A mark of an operand and its bytes. After a lexeme comes at once that with a byte 0 more,
/// and after all that begin with a prefix comes that with a byte 255, which is in no lexeme.
fn make_keyed(
    alloc: Global,
    operand: &Operand,
    number: usize,
    side: Side,
) -> Result<Keyed, AllocError> {
    let mut key = Vec::new(alloc);
    key.extend_from_slice(operand.lexeme.as_str().as_bytes())?;
    if let Side::End = side {
        key.push(if operand.prefix { 255 } else { 0 })?;
    }
    Ok(Keyed {
        key,
        mark: Mark { number, side },
    })
}

/// The marks of the operands in the order in which a walk comes to them. One operand alone has none: it is sought
/// by itself.
/// Whatever their order, what a walk finds by them is right; in this order it goes over the entries once.
pub fn make_marks(alloc: Global, operands: &[Operand]) -> Result<Vec<Mark>, AllocError> {
    let mut all = Vec::new(alloc);
    if operands.len() > 1 {
        for (number, operand) in operands.iter().enumerate() {
            all.push(make_keyed(alloc, operand, number, Side::First)?)?;
            all.push(make_keyed(alloc, operand, number, Side::End)?)?;
        }
    }
    all.sort_unstable_by(|a, b| a.key.cmp(&b.key));
    marks_of(alloc, &all)
}

/// The marks without their bytes.
fn marks_of(alloc: Global, all: &[Keyed]) -> Result<Vec<Mark>, AllocError> {
    let mut marks = Vec::new(alloc);
    for keyed in all {
        marks.push(keyed.mark)?;
    }
    Ok(marks)
}

/// Whether a lexeme comes before a place of the operand.
fn is_short(operand: &Operand, side: Side, lexeme: &str) -> bool
    ensures yes { IsTrue result → IsShort operand.now side lexeme.now }
    ensures no { result ≡ false → ¬ IsShort operand.now side lexeme.now }
{
    if let Ordering::Less = lexeme.cmp(operand.lexeme.as_str()) {
        return true;
    }
    match side {
        Side::First => false,
        Side::End => names(operand, lexeme),
    }
}

/// A walk over the entries of an encoded vector.
#[derive(Debug, Drop)]
struct Walk<'a> {
    /// The lexeme of the entry that was passed last.
    behind: Option<&'a str>,
    /// The lexeme of the entry that was reached.
    ahead: Option<&'a str>,
    /// The entries after that one.
    rest: Entries<'a>,
    /// How many entries are not passed.
    left: usize,
}

/// The next lexeme.
fn next_lexeme<'a>(entries: &mut Entries<'a>) -> Option<&'a str>
    ensures some { IfSome result (λ l. (e : Entry) × (entries.old ≡ e ∷ entries.new) × (l.now ≡ e.lexeme)) }
    ensures none { result ≡ None → entries.old ≡ [] }
{
    match entries.next() {
        Some(entry) => Some(entry.lexeme()),
        None => None,
    }
}

/// A walk that has passed no entry.
fn start<'a>(vector: &VectorBytes<'a>) -> Walk<'a>
    ensures at { IsAt vector.now result }
    ensures left { result.left ≡ length vector.now }
    ensures normal { IsNormal vector.now }
{
    let mut rest = vector.entries();
    Walk {
        behind: None,
        ahead: next_lexeme(&mut rest),
        rest,
        left: vector.count(),
    }
}

/// Passes the entry that was reached.
fn step(walk: &mut Walk)
    requires { 0 < walk.old.left }
    ensures at { (v : Vector) → IsAt v walk.old → IsAt v walk.new }
    ensures left { walk.new.left ≡ walk.old.left - 1 }
{
    walk.behind = walk.ahead;
    walk.ahead = next_lexeme(&mut walk.rest);
    walk.left -= 1;
}

/// Whether the entry that was reached comes before a place of the operand.
fn is_ahead_short(walk: &Walk, operand: &Operand, side: Side) -> bool
    ensures yes { (v : Vector) → IsAt v walk.now → IsTrue result → (e : Entry) × ((d : Entry)
        → slice_index_or v (length v - walk.now.left) d ≡ e) × (0 < walk.now.left)
        × IsShort operand.now side e.lexeme }
    ensures no { (v : Vector) → IsAt v walk.now → result ≡ false → 0 < walk.now.left → (d : Entry)
        → ¬ IsShort operand.now side (slice_index_or v (length v - walk.now.left) d).lexeme }
{
    match walk.ahead {
        Some(lexeme) => is_short(operand, side, lexeme),
        None => false,
    }
}

/// Whether an entry was passed that does not come before a place of the operand.
fn has_passed(walk: &Walk, operand: &Operand, side: Side) -> bool
    ensures { (v : Vector) → IsNormal v → IsAt v walk.now → result ≡ false
        → AreShort v operand.now side (length v - walk.now.left) }
{
    match walk.behind {
        Some(lexeme) => !is_short(operand, side, lexeme),
        None => false,
    }
}

/// Passes each entry that comes before a place of the operand.
fn skip(walk: &mut Walk, operand: &Operand, side: Side)
    requires { (v : Vector) × IsAt v walk.old }
    ensures at { (v : Vector) → IsAt v walk.old → IsAt v walk.new }
    ensures splits { (v : Vector) → IsNormal v → IsAt v walk.old
        → AreShort v operand.now side (length v - walk.old.left)
        → Splits v operand.now side (length v - walk.new.left) }
{
    while is_ahead_short(walk, operand, side) {
        step(walk);
    }
}

/// Lets the walk begin anew where an entry was passed that does not come before a place of the operand.
fn go_back<'a>(walk: &mut Walk<'a>, vector: &VectorBytes<'a>, operand: &Operand, side: Side)
    requires normal { IsNormal vector.now }
    requires at { IsAt vector.now walk.old }
    ensures at { IsAt vector.now walk.new }
    ensures short { AreShort vector.now operand.now side (length vector.now - walk.new.left) }
{
    if !has_passed(walk, operand, side) {
        return;
    }
    *walk = start(vector);
}

/// The index of the first entry that does not come before a place of the operand.
fn index_of<'a>(
    walk: &mut Walk<'a>,
    vector: &VectorBytes<'a>,
    operand: &Operand,
    side: Side,
) -> usize
    requires normal { IsNormal vector.now }
    requires at { IsAt vector.now walk.old }
    ensures at { IsAt vector.now walk.new }
    ensures splits { Splits vector.now operand.now side result }
{
    go_back(walk, vector, operand, side);
    skip(walk, operand, side);
    vector.count() - walk.left
}

/// Lets nothing be known of the operands.
fn forget(bounds: &mut Vec<Bounds>)
    ensures unknown { (v : Vector) (os : List OperandOf) → AreBounds v os bounds.new.items }
{
    for k in 0..bounds.len() {
        bounds[k] = UNKNOWN;
    }
}

/// What is known of an operand with the index of one mark more.
fn with_index(known: Bounds, side: Side, index: usize) -> Bounds
    ensures { (v : Vector) (o : OperandOf) → IsBounds v o known → Splits v o side index
        → IsBounds v o result }
{
    match side {
        Side::First => Bounds {
            first: Some(index),
            end: known.end,
        },
        Side::End => Bounds {
            first: known.first,
            end: Some(index),
        },
    }
}

/// Writes down the index of a mark.
fn note(bounds: &mut Vec<Bounds>, mark: Mark, index: usize)
    requires { mark.number < vec_len bounds.old }
    ensures { (v : Vector) (os : List OperandOf) → AreBounds v os bounds.old.items
        → ((o : OperandOf) → Splits v (slice_index_or os mark.number o) mark.side index)
        → AreBounds v os bounds.new.items }
{
    let known = bounds[mark.number];
    bounds[mark.number] = with_index(known, mark.side, index);
}

/// Lets the walk come to a mark, and writes down its index.
fn come_to<'a>(
    walk: &mut Walk<'a>,
    vector: &VectorBytes<'a>,
    operands: &[Operand],
    mark: Mark,
    bounds: &mut Vec<Bounds>,
)
    requires normal { IsNormal vector.now }
    requires at { IsAt vector.now walk.old }
    requires bounds { AreBounds vector.now operands.now bounds.old.items }
    ensures at { IsAt vector.now walk.new }
    ensures bounds { AreBounds vector.now operands.now bounds.new.items }
{
    let k = mark.number;
    if k >= operands.len() || k >= bounds.len() {
        return;
    }
    let index = index_of(walk, vector, &operands[k], mark.side);
    note(bounds, mark, index);
}

/// Finds what the operands name in one walk over the entries, by the marks that were made for the query.
pub fn find_bounds(
    vector: &VectorBytes,
    operands: &[Operand],
    marks: &[Mark],
    bounds: &mut Vec<Bounds>,
)
    ensures { AreBounds vector.now operands.now bounds.new.items }
{
    forget(bounds);
    let mut walk = start(vector);
    for mark in marks {
        come_to(&mut walk, vector, operands, *mark, bounds);
    }
}

/// The entries between what is known of where they begin and end.
fn range_of(known: Bounds) -> Option<EntryRange>
    ensures { (v : Vector) (o : OperandOf) → IsBounds v o known
        → IfSome result (NamesRange v o) }
{
    let first = known.first?;
    let end = known.end?;
    Some(EntryRange { first, end })
}

/// The entries that an operand names, as a walk found them; where it did not, they are sought.
pub fn found_for(vector: &Seen, operands: &[Operand], bounds: &[Bounds], k: usize) -> EntryRange
    requires operand { k < length operands.now }
    requires bounds { AreBounds vector.now operands.now bounds.now }
    ensures { (o : OperandOf)
        → NamesRange vector.now (slice_index_or operands.now k o) result }
{
    if k < bounds.len() {
        if let Some(range) = range_of(bounds[k]) {
            return range;
        }
    }
    vector.find(&operands[k])
}
