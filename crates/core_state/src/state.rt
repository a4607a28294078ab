// The state of a log.
ghost use Rattle.std.specs.Prelude.{◌≡◌, ◌≢◌, ◌↔◌, ◌≤◌, ◌-◌, suc, true, [], length, Some, OnOk, OnErr, IsOk};
ghost use Rattle.std.specs.List.{slice_get};
ghost use Rattle.core_state.specs.States.{empty_state, step_of, fate_of, use_of, heap_pages, run_started};
ghost use Rattle.core_state.specs.Changes.{IsNew};
ghost use Rattle.core_state.specs.Rooms.{HasRoom, HasRoomForPages, HasRoomToInsert, LeavesRoom};

use crate::answers::{Fate, PageUse};
use crate::peaks::Peaks;
use crate::table::TransactionTable;
use crate::uses::{lowest_from, note_uses, pages_end};
use page_types::{Name, Record};
use std::alloc::{AllocError, Global};
use std::marker::Model;

/// What is kept of a log: the fates of xids, the uses of pages, the names of each commit, and the
/// numbers that are drawn next.
#[derive(Drop)]
pub struct State {
    pub(crate) records: u64,
    pub(crate) uses: Vec<PageUse>,
    pub(crate) lowest: usize,
    pub(crate) ranks: Peaks,
    pub(crate) table: TransactionTable,
}

impl Model for State {
    ghost use Rattle.std.specs.Prelude.{length, min, ◌≤◌};
    ghost use Rattle.std.specs.Vec.{vec_capacity};
    ghost use Rattle.page_types.specs.Numbers.{page_limit};
    ghost use Rattle.core_state.specs.Inner.Lowest.{AreUses};
    ghost use Rattle.core_state.specs.Inner.Ranks.{AreRanks};
    ghost use Rattle.core_state.specs.Rooms.{InMemory};

    ghost Value = { InMemory };

    ghost view = { λ s. record {
      value = record s.table.value { records = s.records; uses = s.uses.items };
      room = record s.table.room {
        pages = min (min (vec_capacity s.uses) (length s.ranks)) s.table.room.pages;
      };
    } };

    ghost invariant = { λ s. AreUses s.uses.items s.lowest
        × (length s.uses.items ≤ page_limit)
        × AreRanks s.uses.items s.ranks };
}

impl State {
    /// The state of an empty log, for a store of so many pages, whose xids end at this limit. It
    /// takes no memory.
    pub fn new(alloc: Global, pages: u32, xid_limit: u32) -> State
        ensures { result.value ≡ empty_state pages xid_limit }
    {
        State {
            records: 0,
            uses: Vec::new(alloc),
            lowest: 0,
            ranks: Peaks::new(alloc),
            table: TransactionTable::new(alloc, pages, xid_limit),
        }
    }

    /// Makes room for a record, so that the step by it takes no memory. The state stays as it is.
    pub fn make_room(&mut self, rec: &Record) -> Result<(), AllocError>
        ensures same { self.new.value ≡ self.old.value }
        ensures room { OnOk result (HasRoom self.new rec.now) }
        ensures ok { HasRoom self.old rec.now → IsOk result }
    {
        self.make_room_for_pages(rec)?;
        let changes = rec.changes.as_slice().len();
        self.table.make_room(&rec.kind, rec.xid, changes)
    }

    /// The next record, valid or not. Without memory the state stays as it is; where room was made
    /// the step succeeds.
    pub fn step(&mut self, rec: &Record) -> Result<(), AllocError>
        ensures stepped { OnOk result (self.new.value ≡ step_of rec.now self.old.value) }
        ensures refused { OnErr result (self.new.value ≡ self.old.value) }
        ensures ok { HasRoom self.old rec.now → IsOk result }
    {
        self.make_room(rec)?;
        self.step_reserved(rec);
        Ok(())
    }

    /// Makes room for the pages of a record.
    fn make_room_for_pages(&mut self, rec: &Record) -> Result<(), AllocError>
        ensures same { self.new.value ≡ self.old.value }
        ensures room { OnOk result (HasRoomForPages self.new.room.pages rec.now) }
        ensures more { self.old.room.pages ≤ self.new.room.pages }
        ensures rest { self.new.room ≡ record self.old.room { pages = self.new.room.pages } }
        ensures ok { HasRoomForPages self.old.room.pages rec.now → IsOk result }
    {
        let changes = rec.changes.as_slice();
        let end = pages_end(changes);
        let more = end.saturating_sub(self.uses.len());
        self.uses.reserve(more)?;
        self.ranks.reserve(end)?;
        self.table.make_room_for_pages(end)
    }

    /// Makes room for a transaction that begins next, places one document and commits, by these
    /// three records. The state stays as it is.
    pub fn make_room_to_insert(
        &mut self,
        begin: &Record,
        place: &Record,
        commit: &Record,
    ) -> Result<(), AllocError>
        ensures same { self.new.value ≡ self.old.value }
        ensures begin { OnOk result (HasRoomForPages self.new.room.pages begin.now) }
        ensures place { OnOk result (HasRoomForPages self.new.room.pages place.now) }
        ensures commit { OnOk result (HasRoomForPages self.new.room.pages commit.now) }
        ensures room { OnOk result (HasRoomToInsert self.new) }
    {
        self.make_room_for_pages(begin)?;
        self.make_room_for_pages(place)?;
        self.make_room_for_pages(commit)?;
        self.table.make_room_to_insert()
    }

    /// The next record, valid or not, for which there is room.
    #[tactic(auto, using(crate::proofs::Framing::framed_step))]
    pub fn step_reserved(&mut self, rec: &Record)
        requires { HasRoom self.old rec.now }
        ensures stepped { self.new.value ≡ step_of rec.now self.old.value }
        ensures pages { self.new.room.pages ≡ self.old.room.pages }
        ensures room { LeavesRoom rec.now.kind rec.now.xid self.old.room self.new.room }
    {
        let changes = rec.changes.as_slice();
        self.table.note_sizes(changes);
        self.table.turn(&rec.kind, rec.xid, changes);
        note_uses(&mut self.uses, &mut self.ranks, rec.number, changes);
        self.lowest = lowest_from(&self.uses, self.lowest);
        self.records = rec.number;
    }

    /// What became of the transaction with this xid.
    pub fn fate(&self, xid: u32) -> Fate
        ensures { result ≡ fate_of self.now.value xid }
    {
        self.table.fate(xid)
    }

    /// What use a page is of.
    pub fn use_of(&self, page: u32) -> PageUse
        ensures { result ≡ use_of self.now.value page }
    {
        match self.uses.get(page as usize) {
            Some(known) => *known,
            None => PageUse::Unused,
        }
    }

    /// Whether a page is a new one: the lowest unused, or deleted by a record of number `since` at
    /// most.
    pub(crate) fn is_new(&self, page: u32, since: u64) -> bool
        ensures { result ≡ true ↔ IsNew (use_of self.now.value) since page }
    {
        match self.use_of(page) {
            PageUse::Unused => page as usize == self.lowest,
            PageUse::Used => false,
            PageUse::Deleted(stamp) => stamp <= since,
        }
    }

    /// How many commits the log has.
    pub fn commits(&self) -> u32
        ensures { result ≡ length self.now.value.deleted }
    {
        self.table.commits()
    }

    /// The names that a commit deleted. Commits count from 1.
    pub fn deleted(&self, commit: u32) -> &[Name]
        requires first { 1 ≤ commit }
        requires last { commit ≤ length self.now.value.deleted }
        ensures { slice_get self.now.value.deleted (commit - 1) ≡ Some result.now }
    {
        self.table.deleted_by(commit)
    }

    /// The names that a commit inserted. Commits count from 1.
    pub fn inserted(&self, commit: u32) -> &[Name]
        requires first { 1 ≤ commit }
        requires last { commit ≤ length self.now.value.deleted }
        ensures { slice_get self.now.value.inserted (commit - 1) ≡ Some result.now }
    {
        self.table.inserted_by(commit)
    }

    /// The xid that the next transaction gets.
    pub fn next_xid(&self) -> u32
        ensures { result ≡ suc (length self.now.value.fates) }
    {
        self.table.next_xid()
    }

    /// The serial that the next document gets.
    pub fn next_serial(&self) -> u64
        ensures { result ≡ self.now.value.next_serial }
    {
        self.table.next_serial()
    }

    /// How many records the log has: the number of the last.
    pub fn length(&self) -> u64
        ensures { result ≡ self.now.value.records }
    {
        self.records
    }

    /// The redo number of the last checkpoint, 1 where there is none.
    pub fn redo(&self) -> u64
        ensures { result ≡ self.now.value.redo }
    {
        self.table.redo()
    }

    /// Whether a transaction runs.
    pub fn has_running(&self) -> bool
        ensures { result ≡ true ↔ (self.now.value.running ≢ []) }
    {
        self.table.has_running()
    }

    /// How many pages the store may have.
    pub fn pages(&self) -> u32
        ensures { result ≡ self.now.value.pages }
    {
        self.table.pages()
    }

    /// Where xids end.
    pub fn xid_limit(&self) -> u32
        ensures { result ≡ self.now.value.xid_limit }
    {
        self.table.xid_limit()
    }

    /// The old heap page with this number, from 0, that a head is tried on: that of the last placed
    /// head, and then in rising order those where this run freed a slot.
    pub fn heap_page(&self, k: u32) -> Option<u32>
        ensures { result ≡ slice_get (heap_pages self.now.value) k }
    {
        self.table.heap_page(k as usize)
    }

    /// A run begins: the highest heap page comes first, and no slot was freed.
    pub fn start_run(&mut self)
        ensures { self.new.value ≡ run_started self.old.value }
    {
        self.table.start_run();
    }
}
