// A vector, in memory or in an encoding.
ghost use Rattle.std.specs.Prelude.{◌≡◌, ℕ, ◌<◌, ◌≤◌, Contains, length, slice_index_or, vec_len};
ghost use Rattle.ts_base.specs.Vectors.{Position as PlaceOf, Entry, IsNormal};
ghost use Rattle.ts_match.specs.Meaning.{is_met, is_stripped as stripped_vector};
ghost use Rattle.ts_match.specs.Inner.Ranges.{NamesRange, stands_at};
ghost use Rattle.ts_match.specs.Inner.Setting.{CanSet, HasSet};
ghost use Rattle.ts_match.specs.Inner.Seen.{entries_of};

use crate::bit_sets::BitSet;
use crate::layout::Move;
use crate::ranges::EntryRange;
use crate::{encoded, layout, ranges};
use std::marker::Model;
use ts_base::LAST_POSITION;
use ts_query::Operand;
use ts_vector::{TsVector, VectorBytes};

/// How a vector lies in memory.
#[derive(Clone, Copy, Debug)]
pub enum Kind<'a> {
    /// As lists.
    Listed(&'a TsVector),
    /// As its encoding.
    Encoded(&'a VectorBytes<'a>),
}

/// A vector, whichever way it lies in memory. Contracts see it as the list of its entries.
#[derive(Debug, Drop)]
pub struct Seen<'a> {
    /// How it lies there.
    kind: Kind<'a>,
}

impl<'a> Model for Seen<'a> {
    ghost use Rattle.ts_base.specs.Vectors.{Vector};

    ghost Value = { Vector };

    ghost use Rattle.ts_match.specs.Inner.Seen.{entries_of};

    ghost view = { λ s. entries_of s.kind };
}

impl<'a> Seen<'a> {
    /// A vector in memory.
    pub fn listed(vector: &'a TsVector) -> Seen<'a>
        ensures { result ≡ vector.now }
    {
        Seen {
            kind: Kind::Listed(vector),
        }
    }

    /// An encoded vector.
    pub fn encoded(vector: &'a VectorBytes<'a>) -> Seen<'a>
        ensures { result ≡ vector.now }
    {
        Seen {
            kind: Kind::Encoded(vector),
        }
    }

    /// How it lies in memory.
    pub fn kind(&self) -> Kind<'a>
        ensures { entries_of result ≡ self.now }
    {
        self.kind
    }

    /// Whether the vector has a lexeme, and none has a position.
    pub fn is_stripped(&self) -> bool
        ensures stripped { result ≡ stripped_vector self.now }
        ensures normal { IsNormal self.now }
    {
        match self.kind {
            Kind::Listed(vector) => ranges::is_stripped(vector),
            Kind::Encoded(vector) => encoded::is_stripped(vector),
        }
    }

    /// The entries that an operand names.
    pub fn find(&self, operand: &Operand) -> EntryRange
        ensures { NamesRange self.now operand.now result }
    {
        match self.kind {
            Kind::Listed(vector) => ranges::find(vector, operand),
            Kind::Encoded(vector) => encoded::find(vector, operand),
        }
    }

    /// Whether the operand has a position where `sum` says.
    pub fn stands(&self, operand: &Operand, found: EntryRange, sum: usize) -> bool
        requires normal { IsNormal self.now }
        requires found { NamesRange self.now operand.now found }
        ensures { result ≡ stands_at operand.now self.now sum }
    {
        match self.kind {
            Kind::Listed(vector) => ranges::stands(vector, operand, found, sum),
            Kind::Encoded(vector) => encoded::stands(vector, operand, found, sum),
        }
    }

    /// Whether the operand holds of the vector.
    pub fn meets(&self, operand: &Operand, found: EntryRange) -> bool
        requires { NamesRange self.now operand.now found }
        ensures { result ≡ is_met operand.now self.now }
    {
        match self.kind {
            Kind::Listed(vector) => ranges::meets(vector, operand, found),
            Kind::Encoded(vector) => encoded::meets(vector, operand, found),
        }
    }

    /// The greatest position of the entries that were found.
    pub fn last_in(&self, found: EntryRange) -> usize
        requires normal { IsNormal self.now }
        requires within { found.end ≤ length self.now }
        ensures each { (i : ℕ) (e : Entry) (p : PlaceOf) → found.first ≤ i → i < found.end
            → Contains (slice_index_or self.now i e).positions p → p.at ≤ result }
        ensures small { result ≤ LAST_POSITION }
    {
        match self.kind {
            Kind::Listed(vector) => layout::last_in(vector, found),
            Kind::Encoded(vector) => encoded::last_in(vector, found),
        }
    }

    /// How many positions the entries have that were found.
    pub fn count_positions(&self, found: EntryRange) -> usize
        requires { found.end ≤ length self.now }
    {
        match self.kind {
            Kind::Listed(vector) => ranges::count_positions(vector, found),
            Kind::Encoded(vector) => encoded::count_positions(vector, found),
        }
    }

    /// Lets a bit set be true also at each position of a fitting weight that the found entries have, moved.
    pub fn set_found(&self, bits: &mut BitSet, count: usize, found: EntryRange, how: Move)
        requires ready { CanSet count bits.old self.now found how.by }
        requires order { found.first ≤ found.end }
        ensures value { HasSet count bits.old bits.new self.now found how }
        ensures len { vec_len bits.new.words ≡ vec_len bits.old.words }
    {
        match self.kind {
            Kind::Listed(vector) => layout::set_found(bits, count, vector, found, how),
            Kind::Encoded(vector) => encoded::set_found(bits, count, vector, found, how),
        }
    }
}
