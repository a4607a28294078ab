// The keys of rows that were read, each with its items.
ghost use Rattle.std.specs.Prelude.{◌≡◌, ◌↔◌, ◌⊎◌, ◌^◌, ◌<◌, ℕ, [], length, OnOk, OnErr, IfSome, IfNone};
ghost use Rattle.std.specs.List.Sorted.{IsStrictlyIncreasing};
ghost use Rattle.ts_base.specs.Keys.{Key};
ghost use Rattle.page_types.specs.Parts.{row_shown};
ghost use Rattle.core_state.specs.Log.{In};
ghost use Rattle.core_state.specs.Index.{InRows};
ghost use Rattle.gin_cleanup.specs.Gathered.{Has, HasPair, GrowsBy, GivesFirst};

use page_types::{RowRef, Rows};
use std::alloc::{AllocError, Global};
use std::collections::BTreeMap;
use std::marker::Model;

/// Keys, each with one item or more. Contracts see them as the list of these.
#[derive(Drop)]
pub struct Gathered {
    keys: BTreeMap<Vec<u8>, Vec<u32>>,
}

impl Model for Gathered {
    ghost use Rattle.gin_cleanup.specs.Gathered.{KeyItems, shown, HaveItems};

    ghost Value = { KeyItems };

    ghost view = { λ g. shown g.keys.entries };

    ghost invariant = { λ g. HaveItems (shown g.keys.entries) };
}

impl Gathered {
    /// No key.
    pub fn new(alloc: Global) -> Gathered
        ensures { result ≡ [] }
    {
        Gathered {
            keys: BTreeMap::new(alloc),
        }
    }

    /// One item more under a key.
    fn put(&mut self, alloc: Global, key: &[u8], item: u32) -> Result<(), AllocError>
        ensures ok { OnOk result ((k : Key) (i : ℕ)
            → Has self.new k i ↔ (Has self.old k i ⊎ ((k ≡ key.now) × (i ≡ item)))) }
        ensures err { OnErr result ((k : Key) (i : ℕ) → Has self.new k i ↔ Has self.old k i) }
    {
        if let Some(items) = self.keys.get_mut(key) {
            items.push(item)?;
            return Ok(());
        }
        let items = Vec::from_slice(alloc, &[item])?;
        let copy = Vec::from_slice(alloc, key)?;
        self.keys.insert(copy, items)?;
        Ok(())
    }

    /// The keys of a row, each with its item. A refusal may leave some.
    fn put_row(&mut self, alloc: Global, row: RowRef<'_>) -> Result<(), AllocError>
        ensures ok { OnOk result ((k : Key) (i : ℕ)
            → Has self.new k i ↔ (Has self.old k i ⊎ HasPair (row_shown row.entry) k i)) }
        ensures err { OnErr result (GrowsBy (HasPair (row_shown row.entry)) self.old self.new) }
    {
        for j in 0..row.keys.len() {
            self.put(alloc, row.keys.at(j), row.item)?;
        }
        Ok(())
    }

    /// The keys of all these rows, each with its item. A refusal may leave some.
    pub fn put_rows(&mut self, alloc: Global, rows: &Rows) -> Result<(), AllocError>
        ensures ok { OnOk result ((k : Key) (i : ℕ)
            → Has self.new k i ↔ (Has self.old k i ⊎ InRows rows.now k i)) }
        ensures err { OnErr result (GrowsBy (InRows rows.now) self.old self.new) }
    {
        for k in 0..rows.len() {
            if let Some(row) = rows.get(k) {
                self.put_row(alloc, row)?;
            }
        }
        Ok(())
    }

    /// The first key in key order, with its items in rising order, each once. It keeps the others.
    pub fn take_first(&mut self) -> Option<(Vec<u8>, Vec<u32>)>
        ensures some { IfSome result (λ p. GivesFirst self.old p.0.items p.1.items self.new) }
        ensures none { IfNone result ((self.old ≡ []) × (self.new ≡ [])) }
        ensures few { length self.new < 2 ^ 63 }
    {
        // Read for the clause `few`: a map counts fewer.
        let _count = self.keys.len();
        let (key, items) = self.keys.pop_first()?;
        Some((key, in_order(items)))
    }
}

/// These items in rising order, each once.
fn in_order(mut items: Vec<u32>) -> Vec<u32>
    ensures rising { IsStrictlyIncreasing result.items }
    ensures same { (i : ℕ) → In i result.items ↔ In i items.items }
{
    items.sort_unstable();
    items.dedup();
    items
}
