// Bit sets of places: a truth for each place below some number, and one for all others.
ghost use Rattle.std.specs.Prelude.{◌≡◌, ℕ, ◌+◌, ◌-◌, ◌*◌, ◌<◌, ◌≤◌, ◌==◌, ◌&&◌, ◌||◌, ◌↔◌, IfOk, not, false, IsTrue};
ghost use Rattle.std.specs.Prelude.{All, vec_len, vec_capacity};
ghost use Rattle.std.specs.Int.{bit_at};
ghost use Rattle.ts_match.specs.Inner.Plan.{offset_of};
ghost use Rattle.ts_match.specs.Inner.BitSets.{bit_value, IsWide, words_for as words_of};
ghost use Rattle.ts_match.specs.Inner.Heights.{height_at, highest, HasBitSets};

use crate::phrase::offset;
use crate::work::{Place, Step};
use std::alloc::{AllocError, Global};
use ts_base::LAST_POSITION;
use ts_query::Node;

/// The places of one word.
pub const WORD: usize = 64;

/// The widths of a phrase for which bit sets are made add up to at most this.
pub const WIDEST: usize = 65536;

/// A bit set of places: a truth for each place of its words, of which some are in use, and one for all other places.
#[derive(Debug, Drop)]
pub struct BitSet {
    /// The truths, one for each bit, from the lowest one on.
    pub words: Vec<u64>,
    /// The truth at all other places.
    pub rest: bool,
}

/// Lets a bit set be false at each place.
pub fn clear(bits: &mut BitSet, count: usize)
    requires { count ≤ vec_len bits.old.words }
    ensures value { (j : ℕ) → bit_value count bits.new j ≡ false }
    ensures len { vec_len bits.new.words ≡ vec_len bits.old.words }
{
    for k in 0..count {
        bits.words[k] = 0;
    }
    bits.rest = false;
}

/// Lets a bit set be true at one place more.
pub fn set(bits: &mut BitSet, count: usize, place: usize)
    requires wide { count ≤ vec_len bits.old.words }
    requires within { place < WORD * count }
    ensures value { (j : ℕ) → bit_value count bits.new j
        ≡ ((j == place) || bit_value count bits.old j) }
    ensures len { vec_len bits.new.words ≡ vec_len bits.old.words }
{
    bits.words[place / WORD] |= 1 << (place % WORD);
}

/// The word with each bit turned.
fn turned(word: u64) -> u64
    ensures { (i : ℕ) → i < WORD → bit_at result i ≡ 1 - bit_at word i }
{
    !word
}

/// Whether a word has a bit that is 1.
fn has_bit(word: u64) -> bool
    ensures some { IsTrue result → (i : ℕ) × (i < WORD) × (bit_at word i ≡ 1) }
    ensures none { result ≡ false → word ≡ 0 }
{
    word != 0
}

/// Lets a bit set be false where it was true, and true where it was false.
pub fn negate(bits: &mut BitSet, count: usize)
    requires { count ≤ vec_len bits.old.words }
    ensures value { (j : ℕ) → bit_value count bits.new j ≡ not (bit_value count bits.old j) }
    ensures len { vec_len bits.new.words ≡ vec_len bits.old.words }
{
    for k in 0..count {
        bits.words[k] = turned(bits.words[k]);
    }
    bits.rest = !bits.rest;
}

/// Lets a bit set be true where both are.
pub fn meet(bits: &mut BitSet, other: &BitSet, count: usize)
    requires wide { count ≤ vec_len bits.old.words }
    requires other { count ≤ vec_len other.now.words }
    ensures value { (j : ℕ) → bit_value count bits.new j
        ≡ (bit_value count bits.old j && bit_value count other.now j) }
    ensures len { vec_len bits.new.words ≡ vec_len bits.old.words }
{
    for k in 0..count {
        bits.words[k] &= other.words[k];
    }
    bits.rest = bits.rest && other.rest;
}

/// Lets a bit set be true where one of both is.
pub fn join(bits: &mut BitSet, other: &BitSet, count: usize)
    requires wide { count ≤ vec_len bits.old.words }
    requires other { count ≤ vec_len other.now.words }
    ensures value { (j : ℕ) → bit_value count bits.new j
        ≡ (bit_value count bits.old j || bit_value count other.now j) }
    ensures len { vec_len bits.new.words ≡ vec_len bits.old.words }
{
    for k in 0..count {
        bits.words[k] |= other.words[k];
    }
    bits.rest = bits.rest || other.rest;
}

/// Whether a bit set is true at some place.
pub fn is_somewhere(bits: &BitSet, count: usize) -> bool
    requires { count ≤ vec_len bits.now.words }
    ensures { IsTrue result ↔ ((j : ℕ) × IsTrue (bit_value count bits.now j)) }
{
    if bits.rest {
        return true;
    }
    for k in 0..count {
        if has_bit(bits.words[k]) {
            return true;
        }
    }
    false
}

/// A stack of bit sets, and those that are not in use.
#[derive(Debug, Drop)]
pub struct BitSets {
    /// The stack; the top is the last one.
    pub stack: Vec<BitSet>,
    /// Those that are not in use.
    pub spare: Vec<BitSet>,
    ghost stack_room: { vec_len stack + vec_len spare ≤ vec_capacity stack },
    ghost spare_room: { vec_len stack + vec_len spare ≤ vec_capacity spare },
}

/// How high the stack of bit sets is after a step; it is empty after a step outside phrases.
fn height_behind(step: Step, height: usize) -> usize
    requires { height < usize.MAX }
    ensures { result ≡ height_at step.place step.node height }
{
    match step.place {
        Place::Outside { .. } => 0,
        Place::Within { .. } => match step.node {
            Node::Leaf(_) => height + 1,
            Node::Not => height,
            Node::And | Node::Or | Node::Phrase(_) => height.saturating_sub(1),
        },
    }
}

/// How high the stack of bit sets gets.
fn greatest_height(steps: &[Step]) -> usize
    ensures { highest steps.now 0 ≤ result }
{
    let mut height: usize = 0;
    let mut greatest: usize = 0;
    for step in steps {
        height = height_behind(*step, height);
        greatest = greatest.max(height);
    }
    greatest
}

/// How far after the beginning of its phrase a step is at most.
fn greatest_offset(steps: &[Step]) -> usize
    ensures { All (λ s. offset_of s.place ≤ result) steps.now }
{
    let mut reach: usize = 0;
    for step in steps {
        reach = reach.max(offset(step.place));
    }
    reach
}

/// How many words a bit set has in which each position has a place, moved by `reach` at most.
fn words_for(reach: usize) -> usize
    requires { reach ≤ WIDEST }
    ensures { result ≡ words_of reach }
{
    (LAST_POSITION as usize + reach) / WORD + 1
}

/// So many bit sets of so many words.
fn spare_bit_sets(alloc: Global, height: usize, count: usize) -> Result<Vec<BitSet>, AllocError>
    ensures len { IfOk result (λ bit_sets. vec_len bit_sets ≡ height) }
    ensures room { IfOk result (λ bit_sets. vec_capacity bit_sets ≡ height) }
    ensures wide { IfOk result (λ bit_sets. All (IsWide count) bit_sets.items) }
{
    let mut bit_sets = Vec::with_capacity(alloc, height)?;
    for _ in 0..height {
        let words = vec![in alloc; 0; count]?;
        bit_sets.push_reserved(BitSet { words, rest: false });
    }
    Ok(bit_sets)
}

/// A bit set for each level of the stack that the phrases need, and in each a place for each position moved by
/// their widths.
pub fn make_bit_sets(alloc: Global, steps: &[Step]) -> Result<BitSets, AllocError>
    ensures { IfOk result (λ bit_sets. HasBitSets steps.now bit_sets.stack.items
        bit_sets.spare.items) }
{
    let height = greatest_height(steps);
    let count = words_for(greatest_offset(steps).min(WIDEST));
    let stack = Vec::with_capacity(alloc, height)?;
    let spare = spare_bit_sets(alloc, height, count)?;
    Ok(BitSets { stack, spare })
}
