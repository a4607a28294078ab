// The positions of neighbouring entries of an encoding.
ghost use Rattle.std.specs.Prelude.{◌≡◌, take};
ghost use Rattle.std.specs.List.{flat_map, slice_range};
ghost use Rattle.std.specs.Iterator.{YieldsFirst, item_count};

use crate::encoded::{Entries, Positions, VectorBytes};
use std::marker::Model;
use ts_base::Position;

/// The positions that are left of some entries of an encoding, those of one entry after those of another.
/// Contracts see them as a list.
#[derive(Debug, Drop)]
pub struct Places<'a> {
    /// Those of the entry that was reached.
    here: Positions<'a>,
    /// The entries after it.
    entries: Entries<'a>,
    /// How many of these count.
    count: usize,
}

impl<'a> Model for Places<'a> {
    ghost use Rattle.std.specs.Prelude.{List, ◌++◌, take};
    ghost use Rattle.std.specs.List.{flat_map};
    ghost use Rattle.ts_base.specs.Vectors.{Position as Place};

    ghost Value = { List Place };

    ghost view = { λ p. p.here ++ flat_map (λ e. e.positions) (take p.count p.entries) };
}

impl<'a> Iterator for Places<'a> {
    type Item = Position;

    ghost next_gives = { YieldsFirst (λ left. left) };

    ghost remaining = { item_count (λ left. left) };

    /// The next position.
    fn next(&mut self) -> Option<Position> {
        while self.here.is_empty() {
            if self.count == 0 {
                return None;
            }
            let entry = self.entries.next()?;
            self.here = entry.positions();
            self.count -= 1;
        }
        self.here.next()
    }
}

impl<'a> Entries<'a> {
    /// The positions of the first entries that are left, so many.
    pub fn places(self, count: usize) -> Places<'a>
        ensures { result ≡ flat_map (λ e. e.positions) (take count self.entry) }
    {
        Places {
            here: Positions::none(),
            entries: self,
            count,
        }
    }
}

impl<'a> VectorBytes<'a> {
    /// The positions of the entries from the index `first` on and below `end`.
    pub fn places(&self, first: usize, end: usize) -> Places<'a>
        ensures { result ≡ flat_map (λ e. e.positions) (slice_range self.now first end) }
    {
        self.entries_from(first).places(end.saturating_sub(first))
    }
}
