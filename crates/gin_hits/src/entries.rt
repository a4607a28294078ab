// What is noted of the entries of a leaf.
ghost use Rattle.std.specs.Prelude.{◌≡◌, [], ◌∷◌, ◌++◌, List, length, map, OnOk};
ghost use Rattle.page_types.specs.Parts.{entry_shown};
ghost use Rattle.page_types.specs.Pages.{IsEntry, AreEntries};
ghost use Rattle.page_types.specs.declared.page.Entry.{Entry};
ghost use Rattle.core_moments.specs.Judging.{fits_asked};
ghost use Rattle.gin_hits.specs.Trees.{trees_of, named_tree};

use crate::hits::Hits;
use crate::leaves::fitting;
use gin_opclass::{CompareKeys, Judge, Meaning, OpClass};
use page_types::{Entries, EntryRef, PostingsRef};
use std::alloc::{AllocError, Global};

/// A posting tree that an entry of a leaf named.
#[derive(Drop)]
pub struct TreeRoot {
    /// The entry's key.
    pub key: Vec<u8>,
    /// The root.
    pub root: u32,
}

/// Notes the posting tree of an entry with this key.
fn add_tree(
    alloc: Global,
    trees: &mut Vec<TreeRoot>,
    key: &[u8],
    root: u32,
) -> Result<(), AllocError>
    ensures { OnOk result (trees_of trees.new.items
        ≡ trees_of trees.old.items ++ named_tree key.now root ∷ []) }
{
    let key = Vec::from_slice(alloc, key)?;
    trees.push(TreeRoot { key, root })?;
    Ok(())
}

impl Hits {
    ghost use Rattle.gin_hits.specs.Rows.{asked_by, asked_for};
    ghost use Rattle.gin_hits.specs.Entries.{entries_with, AreNotedUnder};
    ghost use Rattle.gin_hits.specs.Trees.{trees_under};

    /// Notes an entry: its items, or the posting tree that it names.
    fn note_entry(
        &mut self,
        alloc: Global,
        asked: &[(Vec<u8>, bool)],
        entry: EntryRef<'_>,
        trees: &mut Vec<TreeRoot>,
    ) -> Result<(), AllocError>
        requires lists { length self.old.by_key.items ≡ length asked.now }
        requires entry { IsEntry (entry_shown entry) }
        ensures lists { length self.new.by_key.items ≡ length asked.now }
        ensures noted { OnOk result ((es : List Entry) → AreNotedUnder (map asked_by asked.now) es self.old
            → AreNotedUnder (map asked_by asked.now) (es ++ entry_shown entry.entry ∷ []) self.new) }
        ensures named { OnOk result (trees_of trees.new.items
            ≡ trees_of trees.old.items ++ trees_under (entry_shown entry.entry ∷ [])) }
    {
        match entry.postings {
            PostingsRef::Inline(list) => self.add_entry(asked, entry.key, list),
            PostingsRef::Root(root) => add_tree(alloc, trees, entry.key, root),
        }
    }

    /// Notes the entries of a leaf whose keys are this one, or begin with it where it is a prefix.
    pub fn add_entries<Q, W: Meaning<Q>, C: CompareKeys, J: Judge<Q, W>>(
        &mut self,
        alloc: Global,
        class: &OpClass<Q, W, C, J>,
        asked: &[(Vec<u8>, bool)],
        entries: &Entries,
        sought: &[u8],
        prefix: bool,
        trees: &mut Vec<TreeRoot>,
    ) -> Result<(), AllocError>
        requires lists { length self.old.by_key.items ≡ length asked.now }
        requires entries { AreEntries entries.now }
        ensures lists { length self.new.by_key.items ≡ length asked.now }
        ensures noted { OnOk result ((before : List Entry) → AreNotedUnder (map asked_by asked.now) before self.old
            → AreNotedUnder (map asked_by asked.now)
            (before ++ entries_with (fits_asked (asked_for sought.now prefix)) entries.now) self.new) }
        ensures named { OnOk result (trees_of trees.new.items ≡ trees_of trees.old.items
            ++ trees_under (entries_with (fits_asked (asked_for sought.now prefix)) entries.now)) }
    {
        let (from, end) = fitting(entries, class, sought, prefix);
        for k in from..end {
            let Some(entry) = entries.get(k) else {
                return Ok(());
            };
            self.note_entry(alloc, asked, entry, trees)?;
        }
        Ok(())
    }
}
