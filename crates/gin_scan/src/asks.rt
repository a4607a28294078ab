// What a scan asks of the state of a store's log.
ghost use Rattle.std.specs.Prelude.{◌≡◌, ◌↔◌, ℕ, ◌≤◌, IsTrue};
ghost use Rattle.core_state.specs.Documents as documents;
ghost use Rattle.core_state.specs.Standing.{Sees};
ghost use Rattle.core_state.specs.States.{fate_of};
ghost use Rattle.core_state.specs.declared.answers.Fate.TheVariants.{Committed};
ghost use Rattle.page_types.specs.Parts.{head_shown};
ghost use Rattle.gin_scan.specs.Seen.{IsSeen};

use buffer_frames::Ask;
use core_state::{Fate, State};
use doc_heap::head;
use page_types::{HeadRef, MOST_SLOTS, Page};
use std::alloc::{AllocError, Global};

/// How far pages go.
#[derive(Clone, Copy)]
pub(crate) struct Extent;

impl Ask<u32> for Extent {
    ghost use Rattle.gin_scan.specs.Seen.{extent_answer};

    ghost answers = { extent_answer };

    fn ask(&self, state: &State, _floor: u32, _since: u64) -> u32 {
        state.extent()
    }
}

/// Whether a transaction has committed within the first so many commits.
fn is_within(state: &State, xid: u32, commits: u32) -> bool
    ensures { IsTrue result ↔ ((number : ℕ) × (fate_of state.now.value xid ≡ Committed number)
        × (number ≤ commits)) }
{
    match state.fate(xid) {
        Fate::Committed(number) => number <= commits,
        _ => false,
    }
}

/// Whether a snapshot of so many commits sees the head: its inserting transaction is among them, and its
/// deleting one is not.
pub(crate) fn sees(state: &State, head: HeadRef<'_>, commits: u32) -> bool
    ensures { IsTrue result ↔ Sees (fate_of state.now.value) commits (head_shown head.entry) }
{
    let fields = head.fields;
    let inserted = is_within(state, fields.inserted_by, commits);
    let deleted = is_within(state, fields.deleted_by, commits);
    inserted && !deleted
}

/// The slot of an item on its heap page.
pub(crate) fn slot_of(item: u32) -> u16
    ensures { result ≡ documents.slot_of item }
{
    (item % MOST_SLOTS as u32) as u16
}

/// The heap page of an item.
pub(crate) fn page_of(item: u32) -> u32
    ensures { result ≡ documents.page_of item }
{
    item / MOST_SLOTS as u32
}

/// Which of these items have a head on the heap page that a snapshot of so many commits sees.
#[derive(Clone, Copy)]
pub(crate) struct SeenHeads<'a> {
    pub(crate) alloc: Global,
    pub(crate) page: &'a Page,
    pub(crate) items: &'a [(u32, bool)],
    pub(crate) commits: u32,
}

/// Whether an item has such a head.
fn is_seen(state: &State, page: &Page, item: u32, commits: u32) -> bool
    ensures { IsTrue result ↔ IsSeen (fate_of state.now.value) commits page.now item }
{
    match head(page, slot_of(item)) {
        Some(found) => sees(state, found, commits),
        None => false,
    }
}

impl Ask<Result<Vec<bool>, AllocError>> for SeenHeads<'_> {
    ghost use Rattle.gin_scan.specs.Seen.{heads_answer};

    ghost answers = { heads_answer };

    fn ask(&self, state: &State, _floor: u32, _since: u64) -> Result<Vec<bool>, AllocError> {
        let mut seen = Vec::with_capacity(self.alloc, self.items.len())?;
        for kept in self.items {
            seen.push(is_seen(state, self.page, kept.0, self.commits))?;
        }
        Ok(seen)
    }
}
