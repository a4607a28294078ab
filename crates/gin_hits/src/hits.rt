// The items that were read on one side of the index.
ghost use Rattle.std.specs.Prelude.{◌≡◌, ◌≤◌, ◌↔◌, ℕ, [], ◌∷◌, ◌++◌, List, IsTrue, length, map, replicate, IfOk};
ghost use Rattle.std.specs.Prelude.{OnOk};
ghost use Rattle.std.specs.List.{All, AllPairs};
ghost use Rattle.page_types.specs.Items.{items_of, IsItemList};
ghost use Rattle.page_types.specs.Parts.{row_shown};
ghost use Rattle.page_types.specs.Pages.{IsRow};
ghost use Rattle.page_types.specs.declared.page.Entry.{Entry};
ghost use Rattle.page_types.specs.declared.page.Row.{Row};
ghost use Rattle.core_state.specs.Log.{In};

use crate::fitting::{fits, has_fitting};
use crate::marks::{merge_runs, put_in_order};
use gin_opclass::{CompareKeys, Judge, Meaning, OpClass};
use page_types::{RowRef, Rows};
use posting_code::Items;
use std::alloc::{AllocError, Global};

/// The items that were read on one side of the index: all of them, and for each key that is asked those
/// of which a key was read that fits it.
#[derive(Drop)]
pub struct Hits {
    /// All items, as they were read.
    pub any: Vec<u32>,
    /// For each key that is asked the items of which a key was read that fits it.
    pub by_key: Vec<Vec<u32>>,
}

/// Whether a list that is in order has the item.
pub(crate) fn has(items: &[u32], item: u32) -> bool
    requires { AllPairs (λ i j. i ≤ j) items.now }
    ensures { IsTrue result ↔ In item items.now }
{
    items.binary_search(&item).is_ok()
}

/// Adds the items of a list.
fn add_list(items: &mut Vec<u32>, bytes: &[u8]) -> Result<(), AllocError>
    requires { IsItemList bytes.now }
    ensures { OnOk result (items.new.items ≡ items.old.items ++ items_of bytes.now) }
{
    let Ok(list) = Items::new(bytes) else {
        return Ok(());
    };
    for item in list {
        items.push(item)?;
    }
    Ok(())
}

/// Puts items in order, or leaves them as they are.
fn put_if(alloc: Global, items: &mut Vec<u32>, all: bool)
    ensures in_order { IsTrue all → AllPairs (λ i j. i ≤ j) items.new.items }
    ensures same { (i : ℕ) → In i items.new.items ↔ In i items.old.items }
{
    if all {
        put_in_order(alloc, items);
    }
}

impl Hits {
    ghost use Rattle.gin_hits.specs.Rows.{asked_by, lists_of, AreNoted};
    ghost use Rattle.entry_tree.specs.Adding.{list_entry};
    ghost use Rattle.gin_hits.specs.Entries.{AreNotedUnder};
    ghost use Rattle.gin_hits.specs.Sides.{AreInOrder, HaveSame};

    /// No item, for so many keys.
    pub fn new(alloc: Global, count: usize) -> Result<Hits, AllocError>
        ensures any { IfOk result (λ h. h.any.items ≡ []) }
        ensures by_key { IfOk result (λ h. lists_of h ≡ replicate count []) }
    {
        let mut by_key = Vec::new(alloc);
        for _ in 0..count {
            by_key.push(Vec::new(alloc))?;
        }
        Ok(Hits {
            any: Vec::new(alloc),
            by_key,
        })
    }

    /// Notes the item of a row: among all items, and for each asked key that one of its keys fits.
    fn add_row<Q, W: Meaning<Q>, C: CompareKeys, J: Judge<Q, W>>(
        &mut self,
        class: &OpClass<Q, W, C, J>,
        asked: &[(Vec<u8>, bool)],
        row: RowRef<'_>,
    ) -> Result<(), AllocError>
        requires lists { length self.old.by_key.items ≡ length asked.now }
        requires row { IsRow (row_shown row) }
        ensures lists { length self.new.by_key.items ≡ length asked.now }
        ensures noted { OnOk result ((rows : List Row)
            → AreNoted (map asked_by asked.now) rows self.old
            → AreNoted (map asked_by asked.now) (rows ++ row_shown row.entry ∷ []) self.new) }
    {
        self.any.push(row.item)?;
        for k in 0..asked.len() {
            let key = &asked[k];
            if has_fitting(row.keys, class, key.0.as_slice(), key.1) {
                self.by_key[k].push(row.item)?;
            }
        }
        Ok(())
    }

    /// Notes the items of all these rows.
    pub fn add_rows<Q, W: Meaning<Q>, C: CompareKeys, J: Judge<Q, W>>(
        &mut self,
        class: &OpClass<Q, W, C, J>,
        asked: &[(Vec<u8>, bool)],
        rows: &Rows,
    ) -> Result<(), AllocError>
        requires lists { length self.old.by_key.items ≡ length asked.now }
        requires rows { All IsRow rows.now }
        ensures lists { length self.new.by_key.items ≡ length asked.now }
        ensures noted { OnOk result ((before : List Row)
            → AreNoted (map asked_by asked.now) before self.old
            → AreNoted (map asked_by asked.now) (before ++ rows.now) self.new) }
    {
        for k in 0..rows.len() {
            if let Some(row) = rows.get(k) {
                self.add_row(class, asked, row)?;
            }
        }
        Ok(())
    }

    /// Notes the items of an entry that has them as this list: among all items, and for each asked key that its key
    /// fits.
    pub fn add_entry(
        &mut self,
        asked: &[(Vec<u8>, bool)],
        key: &[u8],
        list: &[u8],
    ) -> Result<(), AllocError>
        requires lists { length self.old.by_key.items ≡ length asked.now }
        requires list { IsItemList list.now }
        ensures lists { length self.new.by_key.items ≡ length asked.now }
        ensures noted { OnOk result ((es : List Entry) → AreNotedUnder (map asked_by asked.now) es self.old
            → AreNotedUnder (map asked_by asked.now) (es ++ list_entry key.now list.now ∷ []) self.new) }
    {
        let from = self.any.len();
        add_list(&mut self.any, list)?;
        for k in 0..asked.len() {
            let one = &asked[k];
            if fits(key, one.0.as_slice(), one.1) {
                self.by_key[k].extend_from_slice(&self.any.as_slice()[from..])?;
            }
        }
        Ok(())
    }

    /// The list of each key is in order from now on, and where `all` is set that of all items too.
    pub fn put_in_order(&mut self, alloc: Global, all: bool)
        ensures in_order { AreInOrder self.new }
        ensures any { IsTrue all → AllPairs (λ i j. i ≤ j) self.new.any.items }
        ensures same { HaveSame self.old self.new }
        ensures lists { length self.new.by_key.items ≡ length self.old.by_key.items }
    {
        put_if(alloc, &mut self.any, all);
        for items in self.by_key.iter_mut() {
            merge_runs(items);
        }
    }
}
