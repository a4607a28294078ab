// Byte strings that lie one after the other in one buffer.
ghost use Rattle.std.specs.Prelude.{◌≡◌, ◌-◌, ◌<◌, ◌≤◌, [], ◌∷◌, ◌++◌, ◌+◌, length, take, drop, slice_range, slice_set};
ghost use Rattle.std.specs.Prelude.{slice_index_or, OnOk, OnErr, IsOk, IfOk, IfSome, IfNone, Some};
ghost use Rattle.std.specs.List.{slice_get, splice, insert, remove, sum_by};
ghost use Rattle.page_types.specs.Inner.Cuts.{cut_at, EndAt};

use crate::ends::{replace_ends, start_of};
use crate::splice::replace_run;
use std::alloc::{AllocError, Global};
use std::marker::Model;

/// Byte strings in one buffer, cut at their ends. Contracts see them as a list of lists.
#[derive(Debug, Drop)]
pub struct Pieces {
    bytes: Vec<u8>,
    ends: Vec<usize>,
}

impl Model for Pieces {
    ghost use Rattle.std.specs.Prelude.{List, ℕ, length};
    ghost use Rattle.page_types.specs.Inner.Cuts.{cut_at, EndAt};

    ghost Value = { List (List ℕ) };

    ghost view = { λ p. cut_at 0 p.ends.items p.bytes.items };

    ghost invariant = { λ p. EndAt 0 p.ends.items (length p.bytes.items) };
}

impl Pieces {
    ghost use Rattle.page_types.specs.Parts.{pieces_shown};

    /// No strings.
    pub fn new(alloc: Global) -> Pieces
        ensures { result ≡ [] }
    {
        Pieces {
            bytes: Vec::new(alloc),
            ends: Vec::new(alloc),
        }
    }

    /// No strings, with room for so many of so many bytes together.
    pub fn with_room(alloc: Global, count: usize, size: usize) -> Result<Pieces, AllocError>
        ensures { IfOk result (λ pieces. pieces ≡ []) }
    {
        let bytes = Vec::with_capacity(alloc, size)?;
        let ends = Vec::with_capacity(alloc, count)?;
        Ok(Pieces { bytes, ends })
    }

    /// How many strings there are.
    pub fn len(&self) -> usize
        ensures { result ≡ length self.now }
    {
        self.ends.len()
    }

    /// How many bytes they have together.
    pub(crate) fn size(&self) -> usize
        ensures { result ≡ sum_by length self.now }
    {
        self.bytes.len()
    }

    /// The string with this number, by reference, where there are so many.
    pub fn at(&self, k: usize) -> &[u8]
        requires { k < length self.now }
        ensures { slice_get self.now k ≡ Some result.now }
    {
        let from = start_of(&self.ends, k);
        let to = self.ends[k];
        &self.bytes[from..to]
    }

    /// The string with this number, by reference.
    pub fn get(&self, k: usize) -> Option<&[u8]>
        ensures some { IfSome result (λ piece. slice_get self.now k ≡ Some piece.now) }
        ensures none { IfNone result (length self.now ≤ k) }
    {
        if k < self.len() {
            Some(self.at(k))
        } else {
            None
        }
    }

    /// One string more, after the others. Without memory they stay as they are.
    pub fn push(&mut self, piece: &[u8]) -> Result<(), AllocError>
        ensures ok { OnOk result (self.new ≡ self.old ++ piece.now ∷ []) }
        ensures err { OnErr result (self.new ≡ self.old) }
    {
        self.ends.reserve(1)?;
        self.bytes.extend_from_slice(piece)?;
        let end = self.bytes.len();
        self.ends.push_reserved(end);
        Ok(())
    }

    /// The first n strings stay, or all where there are fewer. It takes no memory.
    pub fn truncate(&mut self, n: usize)
        ensures { self.new ≡ take n self.old }
    {
        if n < self.ends.len() {
            let end = start_of(&self.ends, n);
            self.ends.truncate(n);
            self.bytes.truncate(end);
        }
    }

    /// The strings of another list, after the others. Without memory they stay as they are.
    pub fn append(&mut self, more: &Pieces) -> Result<(), AllocError>
        ensures ok { OnOk result (self.new ≡ self.old ++ more.now) }
        ensures err { OnErr result (self.new ≡ self.old) }
    {
        let n = self.len();
        self.splice(n, n, more)
    }

    /// Strings that lie in other bytes are in place of so many from one number on.
    pub(crate) fn replace(
        &mut self,
        from: usize,
        count: usize,
        bytes: &[u8],
        ends: &[usize],
    ) -> Result<(), AllocError>
        requires within { from + count ≤ length self.old }
        requires at { EndAt 0 ends.now (length bytes.now) }
        ensures ok { OnOk result (self.new
            ≡ splice self.old from (from + count) (cut_at 0 ends.now bytes.now)) }
        ensures err { OnErr result (self.new ≡ self.old) }
        ensures short { length ends.now ≤ count → length bytes.now
            ≤ sum_by length (slice_range self.old from (from + count)) → IsOk result }
    {
        let start = start_of(&self.ends, from);
        let to = from + count;
        let end = start_of(&self.ends, to);
        self.ends.reserve(ends.len().saturating_sub(count))?;
        replace_run(&mut self.bytes, start, end, bytes)?;
        replace_ends(&mut self.ends, from, to, ends, bytes.len());
        Ok(())
    }

    /// Another string in place of the one with this number. Without memory all stay as they are; one that is not
    /// longer takes none.
    pub fn set(&mut self, k: usize, piece: &[u8]) -> Result<(), AllocError>
        requires { k < length self.old }
        ensures ok { OnOk result (self.new ≡ slice_set self.old k piece.now) }
        ensures err { OnErr result (self.new ≡ self.old) }
        ensures short { length piece.now ≤ length (slice_index_or self.old k []) → IsOk result }
    {
        self.replace(k, 1, piece, &[piece.len()])
    }

    /// One string more, in front of the one with this number, or after all. Without memory they stay as they are.
    pub fn insert(&mut self, k: usize, piece: &[u8]) -> Result<(), AllocError>
        requires { k ≤ length self.old }
        ensures ok { OnOk result (self.new ≡ insert self.old k piece.now) }
        ensures err { OnErr result (self.new ≡ self.old) }
    {
        self.replace(k, 0, piece, &[piece.len()])
    }

    /// The string with this number goes. It takes no memory.
    pub fn remove(&mut self, k: usize)
        requires { k < length self.old }
        ensures { self.new ≡ remove self.old k }
    {
        self.replace(k, 1, &[], &[]).unwrap();
    }

    /// The strings of another list in place of those from one number up to another. Without memory they stay as
    /// they are; as many or fewer that are not longer take none.
    pub fn splice(&mut self, from: usize, to: usize, with: &Pieces) -> Result<(), AllocError>
        requires in_order { from ≤ to }
        requires within { to ≤ length self.old }
        ensures ok { OnOk result (self.new ≡ splice self.old from to with.now) }
        ensures err { OnErr result (self.new ≡ self.old) }
        ensures none { with.now ≡ [] → IsOk result }
        ensures short { length with.now ≤ to - from → sum_by length with.now
            ≤ sum_by length (slice_range self.old from to) → IsOk result }
    {
        self.replace(from, to - from, &with.bytes, &with.ends)
    }

    /// The strings from one number up to another, by reference.
    pub fn part(&self, from: usize, to: usize) -> PiecesRef<'_>
        requires in_order { from ≤ to }
        requires within { to ≤ length self.now }
        ensures { pieces_shown result ≡ take (to - from) (drop from self.now) }
    {
        PiecesRef {
            all: self,
            from,
            to,
        }
    }
}

impl Clone for Pieces {
    ghost is_clone = { λ a b. b ≡ a };

    fn clone(&self) -> Result<Pieces, AllocError> {
        let bytes = self.bytes.clone()?;
        let ends = self.ends.clone()?;
        Ok(Pieces { bytes, ends })
    }
}

/// Some of the strings of a list, one after the other, by reference.
#[derive(Clone, Copy, Debug)]
pub struct PiecesRef<'a> {
    pub(crate) all: &'a Pieces,
    pub(crate) from: usize,
    pub(crate) to: usize,
    ghost in_order: { from ≤ to },
    ghost within: { to ≤ length all.now },
}

impl PiecesRef<'_> {
    ghost use Rattle.page_types.specs.Parts.{pieces_shown};

    /// How many strings there are.
    pub fn len(&self) -> usize
        ensures { result ≡ length (pieces_shown self.now) }
    {
        self.to - self.from
    }

    /// The string with this number, by reference, where there are so many.
    pub fn at(&self, k: usize) -> &[u8]
        requires { k < length (pieces_shown self.now) }
        ensures { slice_get (pieces_shown self.now) k ≡ Some result.now }
    {
        self.all.at(self.from + k)
    }
}
