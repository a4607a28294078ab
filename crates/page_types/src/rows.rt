// The rows of a pending page.
ghost use Rattle.std.specs.Prelude.{◌≡◌, ◌+◌, ◌-◌, ◌^◌, ◌<◌, ◌≤◌, [], ◌∷◌, ◌++◌, length, slice_range, slice_set, IsOk};
ghost use Rattle.std.specs.Prelude.{OnOk, OnErr, IfSome, IfNone, Some};
ghost use Rattle.std.specs.List.{slice_get, splice, insert, remove, sum_by, flat_map};
ghost use Rattle.page_types.specs.Inner.Cuts.{cut_at, start_at, EndAt, Cuts};

use crate::ends::{replace_ends, start_of};
use crate::pieces::{Pieces, PiecesRef};
use std::alloc::{AllocError, Global};
use std::marker::Model;

/// A row, its keys by reference.
#[derive(Clone, Copy, Debug)]
pub struct RowRef<'a> {
    /// The document's item.
    pub item: u32,
    /// Its keys.
    pub keys: PiecesRef<'a>,
}

/// The rows of a pending page. Contracts see them as a list.
#[derive(Debug, Drop)]
pub struct Rows {
    items: Vec<u32>,
    ends: Vec<usize>,
    keys: Pieces,
}

impl Model for Rows {
    ghost use Rattle.std.specs.Prelude.{◌≡◌, List, length};
    ghost use Rattle.page_types.specs.declared.page.Row.{Row};

    ghost Value = { List Row };

    ghost use Rattle.page_types.specs.Inner.Cuts.{cut_at, EndAt};
    ghost use Rattle.page_types.specs.Inner.Joins.{joined, row_with};

    ghost view = { λ r. joined row_with r.items.items (cut_at 0 r.ends.items r.keys) };

    ghost invariant = { λ r. EndAt 0 r.ends.items (length r.keys)
        × (length r.items.items ≡ length r.ends.items) };
}

/// The keys of other rows in place of those of so many rows from one number on.
fn replace_keys(
    ends: &mut Vec<usize>,
    all: &mut Pieces,
    k: usize,
    count: usize,
    keys: &Pieces,
    new: &[usize],
) -> Result<(), AllocError>
    requires at { EndAt 0 ends.old.items (length all.old) }
    requires within { k + count ≤ length ends.old.items }
    requires new_at { EndAt 0 new.now (length keys.now) }
    ensures ok { OnOk result (Cuts ends.new.items all.new
        (splice (cut_at 0 ends.old.items all.old) k (k + count) (cut_at 0 new.now keys.now))) }
    ensures err { OnErr result ((ends.new.items ≡ ends.old.items) × (all.new ≡ all.old)) }
    ensures none { keys.now ≡ [] → length new.now ≤ count → IsOk result }
    ensures short { length new.now ≤ count
        → length keys.now ≤ start_at 0 ends.old.items (k + count) - start_at 0 ends.old.items k
        → sum_by length keys.now ≤ sum_by length (slice_range all.old
        (start_at 0 ends.old.items k) (start_at 0 ends.old.items (k + count)))
        → IsOk result }
{
    let start = start_of(ends, k);
    let to = k + count;
    let end = start_of(ends, to);
    let others = all.len() - (end - start);
    ends.reserve(new.len().saturating_sub(count))?;
    all.splice(start, end, keys)?;
    replace_ends(ends, k, to, new, all.len() - others);
    Ok(())
}

impl Rows {
    ghost use Rattle.page_types.specs.Inner.Joins.{row_with};
    ghost use Rattle.page_types.specs.Parts.{row_shown};
    ghost use Rattle.page_types.specs.Encoding.{row_bytes};

    /// No rows.
    pub fn new(alloc: Global) -> Rows
        ensures { result ≡ [] }
    {
        Rows {
            items: Vec::new(alloc),
            ends: Vec::new(alloc),
            keys: Pieces::new(alloc),
        }
    }

    /// How many rows there are.
    pub fn len(&self) -> usize
        ensures { result ≡ length self.now }
    {
        self.items.len()
    }

    /// How many bytes their encoding has.
    pub(crate) fn size(&self) -> usize
        requires { length (flat_map row_bytes self.now) < 2 ^ 64 }
        ensures { result ≡ length (flat_map row_bytes self.now) }
    {
        6 * self.items.len() + (2 * self.keys.len() + self.keys.size())
    }

    /// The row with this number, by reference.
    pub fn get(&self, k: usize) -> Option<RowRef<'_>>
        ensures some { IfSome result (λ row. slice_get self.now k ≡ Some (row_shown row)) }
        ensures none { IfNone result (length self.now ≤ k) }
    {
        if k >= self.items.len() {
            return None;
        }
        let item = self.items[k];
        let from = start_of(&self.ends, k);
        let to = self.ends[k];
        let keys = self.keys.part(from, to);
        Some(RowRef { item, keys })
    }

    /// One row more, after the others. Without memory they stay as they are.
    pub fn push(&mut self, item: u32, keys: &Pieces) -> Result<(), AllocError>
        ensures ok { OnOk result (self.new ≡ self.old
            ++ record { item = item; keys = keys.now } ∷ []) }
        ensures err { OnErr result (self.new ≡ self.old) }
    {
        self.items.reserve(1)?;
        self.ends.reserve(1)?;
        self.keys.append(keys)?;
        let end = self.keys.len();
        self.items.push_reserved(item);
        self.ends.push_reserved(end);
        Ok(())
    }

    /// Another row at a place. Without memory all stay as they are; as many keys or fewer that are not longer take
    /// none.
    pub fn set(&mut self, k: usize, item: u32, keys: &Pieces) -> Result<(), AllocError>
        requires { k < length self.old }
        ensures ok { OnOk result (self.new
            ≡ slice_set self.old k (record { item = item; keys = keys.now })) }
        ensures err { OnErr result (self.new ≡ self.old) }
        ensures short { IfSome (slice_get self.old k) (λ row. (length keys.now ≤ length row.keys)
            × (sum_by length keys.now ≤ sum_by length row.keys)) → IsOk result }
    {
        replace_keys(&mut self.ends, &mut self.keys, k, 1, keys, &[keys.len()])?;
        self.items[k] = item;
        Ok(())
    }

    /// One row more, in front of the one with this number, or after all. Without memory they stay as they are.
    pub fn insert(&mut self, k: usize, item: u32, keys: &Pieces) -> Result<(), AllocError>
        requires { k ≤ length self.old }
        ensures ok { OnOk result (self.new
            ≡ insert self.old k (record { item = item; keys = keys.now })) }
        ensures err { OnErr result (self.new ≡ self.old) }
    {
        self.items.reserve(1)?;
        replace_keys(&mut self.ends, &mut self.keys, k, 0, keys, &[keys.len()])?;
        self.items.insert(k, item).unwrap();
        Ok(())
    }

    /// The row with this number goes. It takes no memory.
    pub fn remove(&mut self, k: usize)
        requires { k < length self.old }
        ensures { self.new ≡ remove self.old k }
    {
        let none = Pieces::new(*self.items.allocator());
        replace_keys(&mut self.ends, &mut self.keys, k, 1, &none, &[]).unwrap();
        self.items.remove(k);
    }
}

impl Clone for Rows {
    ghost is_clone = { λ a b. b ≡ a };

    fn clone(&self) -> Result<Rows, AllocError> {
        let items = self.items.clone()?;
        let ends = self.ends.clone()?;
        let keys = self.keys.clone()?;
        Ok(Rows { items, ends, keys })
    }
}
