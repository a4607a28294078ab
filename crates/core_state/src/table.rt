// The table of transactions, with the numbers and commits of a log.
ghost use Rattle.std.specs.Prelude.{◌≡◌, ◌≢◌, ◌↔◌, ◌<◌, ◌≤◌, ◌+◌, ◌-◌, ◌^◌, ℕ, suc, true, [], length, All, IfSome};
ghost use Rattle.std.specs.Prelude.{OnOk, IsOk, Some};
ghost use Rattle.std.specs.List.{slice_get};
ghost use Rattle.core_state.specs.States.{empty_state, begun, committed, aborted, placed_head, marked_head};
ghost use Rattle.core_state.specs.States.{transaction, ended_all, stepped, with_fate, without, fate_of, life_of};
ghost use Rattle.core_state.specs.States.{heap_pages, run_started, size_of, sizes_after};
ghost use Rattle.core_state.specs.Documents as documents;
ghost use Rattle.core_state.specs.Log.{In, pages_of};
ghost use Rattle.core_state.specs.PageChoice.{IsLeastIfAny, HasRoomAt};
ghost use Rattle.core_state.specs.Inner.PageRooms.{HasRoomIn};
ghost use Rattle.page_types.specs.Numbers.{page_limit, most_body};
ghost use Rattle.page_types.specs.declared.record.Kind.TheVariants as kind;
ghost use Rattle.core_state.specs.Rooms.{FitsCommit, FitsPlaced, FitsMarked, HasRoomFor, HasRoomToInsert, LeavesRoom};

use crate::answers::Fate;
use crate::freed::{FreedPages, ROOM};
use crate::heaps::HeapPages;
use crate::lives::{Life, Lives};
use crate::names::NameLists;
use crate::running::RunningOnes;
use crate::transactions::{fate_in, set_fate};
use page_types::{Change, Kind, Name};
use std::alloc::{AllocError, Global};
use std::marker::Model;

/// Xids are below this.
pub const XID_BOUND: u32 = 16_777_216;

/// A heap page has at most this many slots.
const MOST_SLOTS: u32 = 2048;

/// The table of transactions: what is kept of a log, but for the number of its last record and the
/// uses of pages.
#[derive(Drop)]
pub(crate) struct TransactionTable {
    pub(crate) alloc: Global,
    pub(crate) pages: u32,
    pub(crate) xid_limit: u32,
    pub(crate) fates: Vec<Fate>,
    pub(crate) next_serial: u64,
    pub(crate) redo: u64,
    pub(crate) deleted: NameLists,
    pub(crate) inserted: NameLists,
    pub(crate) lives: Lives,
    pub(crate) running: RunningOnes,
    pub(crate) spare: Vec<Name>,
    pub(crate) current: Option<u32>,
    pub(crate) highest: Option<u32>,
    pub(crate) heaps: HeapPages,
    pub(crate) freed: FreedPages,
}

impl Model for TransactionTable {
    ghost use Rattle.std.specs.Prelude.{◌≡◌, ◌<◌, ◌≤◌, ◌^◌, suc, min, [], length};
    ghost use Rattle.std.specs.Vec.{vec_capacity};
    ghost use Rattle.page_types.specs.declared.record.Kind.TheVariants as kind;
    ghost use Rattle.core_state.specs.Rooms.{InMemory};

    ghost Value = { InMemory };

    ghost view = { λ b. record {
      value = record {
        pages = b.pages;
        xid_limit = b.xid_limit;
        records = 0;
        fates = b.fates.items;
        uses = [];
        sizes = b.freed.sizes;
        next_serial = b.next_serial;
        redo = b.redo;
        deleted = b.deleted.lists;
        inserted = b.inserted.lists;
        placed = b.lives.placed;
        ends = b.lives.ends;
        running = b.running.list;
        current = b.current;
        highest = b.highest;
        heaps = b.heaps.pages;
        freed = b.freed.pages;
      };
      room = record {
        pages = b.freed.ends;
        fates = vec_capacity b.fates;
        running = b.running.left;
        freed = b.freed.most;
        names = vec_capacity b.spare;
        serials = min b.lives.left b.heaps.left;
        deletes = b.deleted.lists_left;
        deleted = b.deleted.names_left;
        inserts = b.inserted.lists_left;
        inserted = b.inserted.names_left;
      };
    } };

    ghost invariant = { λ b. (length b.fates.items < 2 ^ 24)
        × (length b.deleted.lists < 2 ^ 32)
        × (length b.inserted.lists ≡ length b.deleted.lists)
        × (b.running.end ≤ suc (length b.fates.items)) };
}

/// The name of the document with this item and serial.
pub(crate) fn name_of(item: u32, serial: u64) -> Name
    ensures { result ≡ documents.name_of (record { item = item; serial = serial }) }
{
    Name {
        page: item / MOST_SLOTS,
        slot: (item % MOST_SLOTS) as u16,
        serial,
    }
}

impl TransactionTable {
    /// That of an empty log.
    pub(crate) fn new(alloc: Global, pages: u32, xid_limit: u32) -> TransactionTable
        ensures { result.value ≡ empty_state pages xid_limit }
    {
        TransactionTable {
            alloc,
            pages,
            xid_limit,
            fates: Vec::new(alloc),
            next_serial: 1,
            redo: 1,
            deleted: NameLists::new(alloc),
            inserted: NameLists::new(alloc),
            lives: Lives::new(alloc),
            running: RunningOnes::new(alloc),
            spare: Vec::new(alloc),
            current: None,
            highest: None,
            heaps: HeapPages::new(alloc),
            freed: FreedPages::new(alloc),
        }
    }

    /// Makes room for the names of transaction xid, if it runs, among those of commits.
    fn reserve_commit(&mut self, xid: u32) -> Result<(), AllocError>
        ensures same { self.new.value ≡ self.old.value }
        ensures pages { self.new.room.pages ≡ self.old.room.pages }
        ensures room { OnOk result
            (IfSome (transaction xid self.old.value.running) (FitsCommit self.new.room)) }
        ensures ok { IfSome (transaction xid self.old.value.running)
            (FitsCommit self.old.room) → IsOk result }
    {
        let Some(t) = self.running.find(xid) else {
            return Ok(());
        };
        self.deleted.reserve(t.deleted.as_slice().len())?;
        self.inserted.reserve(t.inserted.as_slice().len())
    }

    /// Makes room for one name more that transaction xid places, if it runs.
    fn reserve_placed(&mut self, xid: u32) -> Result<(), AllocError>
        ensures same { self.new.value ≡ self.old.value }
        ensures pages { self.new.room.pages ≡ self.old.room.pages }
        ensures room { OnOk result
            (IfSome (transaction xid self.old.value.running) (FitsPlaced self.new.room)) }
        ensures ok { IfSome (transaction xid self.old.value.running)
            (FitsPlaced self.old.room) → IsOk result }
    {
        let Some(t) = self.running.find(xid) else {
            return Ok(());
        };
        let names = t.inserted.as_slice().len();
        self.spare.clear();
        self.spare.reserve(names + 1)?;
        self.lives.reserve()?;
        self.heaps.reserve()
    }

    /// Makes room for one name more that transaction xid marks, if it runs.
    fn reserve_marked(&mut self, xid: u32) -> Result<(), AllocError>
        ensures same { self.new.value ≡ self.old.value }
        ensures pages { self.new.room.pages ≡ self.old.room.pages }
        ensures room { OnOk result
            (IfSome (transaction xid self.old.value.running) (FitsMarked self.new.room)) }
        ensures ok { IfSome (transaction xid self.old.value.running)
            (FitsMarked self.old.room) → IsOk result }
    {
        let Some(t) = self.running.find(xid) else {
            return Ok(());
        };
        let names = t.deleted.as_slice().len();
        self.spare.clear();
        self.spare.reserve(names + 1)
    }

    /// Makes room for what a record of this kind and xid, with so many changes, adds.
    pub(crate) fn make_room(
        &mut self,
        kind: &Kind,
        xid: u32,
        changes: usize,
    ) -> Result<(), AllocError>
        ensures same { self.new.value ≡ self.old.value }
        ensures pages { self.new.room.pages ≡ self.old.room.pages }
        ensures room { OnOk result (HasRoomFor kind.now xid changes self.new) }
        ensures ok { HasRoomFor kind.now xid changes self.old → IsOk result }
    {
        match *kind {
            Kind::Begin => {
                self.fates.reserve(1)?;
                self.running.reserve()
            }
            Kind::Commit { .. } => self.reserve_commit(xid),
            Kind::PlaceHead { .. } => self.reserve_placed(xid),
            Kind::MarkDeleted { .. } => self.reserve_marked(xid),
            Kind::FreeSlots => self.freed.reserve(changes),
            _ => Ok(()),
        }
    }

    /// Makes room for a transaction that begins next, places one document and commits.
    pub(crate) fn make_room_to_insert(&mut self) -> Result<(), AllocError>
        ensures same { self.new.value ≡ self.old.value }
        ensures pages { self.new.room.pages ≡ self.old.room.pages }
        ensures room { OnOk result (HasRoomToInsert self.new) }
    {
        self.fates.reserve(1)?;
        self.running.reserve()?;
        self.spare.clear();
        self.spare.reserve(1)?;
        self.lives.reserve()?;
        self.heaps.reserve()?;
        self.deleted.reserve(0)?;
        self.inserted.reserve(1)
    }

    /// Makes room for what the changes of pages below `end` add.
    pub(crate) fn make_room_for_pages(&mut self, end: usize) -> Result<(), AllocError>
        requires { end ≤ page_limit }
        ensures same { self.new.value ≡ self.old.value }
        ensures room { OnOk result (end ≤ self.new.room.pages) }
        ensures more { self.old.room.pages ≤ self.new.room.pages }
        ensures rest { self.new.room ≡ record self.old.room { pages = self.new.room.pages } }
        ensures ok { end ≤ self.old.room.pages → IsOk result }
    {
        self.freed.reserve_sizes(end)
    }

    /// The lengths of bodies after these changes.
    pub(crate) fn note_sizes(&mut self, changes: &[Change])
        requires { All (λ c. c.page < page_limit → c.page < self.old.room.pages) changes.now }
        ensures value { self.new.value ≡ record self.old.value {
          sizes = sizes_after changes.now self.old.value.sizes;
        } }
        ensures room { self.new.room ≡ self.old.room }
    {
        self.freed.note(changes);
    }

    /// What a record of this kind and xid, with these changes, makes of the table, which has room for
    /// it.
    pub(crate) fn turn(&mut self, kind: &Kind, xid: u32, changes: &[Change])
        requires rest { HasRoomFor kind.now xid (length changes.now) self.old }
        requires places { All (λ c. c.page < page_limit → c.page < self.old.room.pages) changes.now }
        ensures value { self.new.value
            ≡ stepped kind.now xid (pages_of changes.now) self.old.value }
        ensures pages { self.new.room.pages ≡ self.old.room.pages }
        ensures room { LeavesRoom kind.now xid self.old.room self.new.room }
    {
        match *kind {
            Kind::Begin => self.begin(xid),
            Kind::Commit { commit } => self.commit(commit, xid),
            Kind::Abort if xid == 0 => self.end_running(),
            Kind::Abort => self.abort(xid),
            Kind::Checkpoint { redo } => self.redo = redo,
            Kind::PlaceHead { item, serial } => self.place(xid, item, serial),
            Kind::MarkDeleted { item, serial } => self.mark(xid, item, serial),
            Kind::FreeSlots => self.freed.free(changes),
            _ => {}
        }
    }

    /// The next xid begins.
    fn begin(&mut self, xid: u32)
        requires fates { length self.old.value.fates < self.old.room.fates }
        requires running { 0 < self.old.room.running }
        ensures value { self.new.value ≡ begun xid self.old.value }
        ensures pages { self.new.room.pages ≡ self.old.room.pages }
        ensures room { LeavesRoom kind.Begin xid self.old.room self.new.room }
    {
        if xid as usize != self.fates.len() + 1 || xid >= XID_BOUND {
            return;
        }
        self.fates.push_reserved(Fate::Running);
        self.running.begin(self.alloc, xid);
    }

    /// Transaction xid commits with this number, if it runs and the number is the next.
    fn commit(&mut self, number: u32, xid: u32)
        requires { IfSome (transaction xid self.old.value.running) (FitsCommit self.old.room) }
        ensures value { self.new.value
            ≡ committed number xid (transaction xid self.old.value.running) self.old.value }
        ensures pages { self.new.room.pages ≡ self.old.room.pages }
    {
        let Some(t) = self.running.find(xid) else {
            return;
        };
        if number as usize != self.deleted.len() + 1 {
            return;
        }
        self.deleted.push(t.deleted.as_slice());
        self.inserted.push(t.inserted.as_slice());
        self.lives.end(t.deleted.as_slice(), number);
        self.end(xid, Fate::Committed(number));
    }

    /// Transaction xid gets its fate, and runs no more.
    fn end(&mut self, xid: u32, fate: Fate)
        ensures value { self.new.value ≡ record self.old.value {
          fates = with_fate xid fate self.old.value.fates;
          running = without xid self.old.value.running;
        } }
        ensures pages { self.new.room.pages ≡ self.old.room.pages }
    {
        set_fate(&mut self.fates, xid, fate);
        self.running.leave(self.alloc, xid);
    }

    /// Transaction xid places a head, if it runs and the serial is the next.
    fn place(&mut self, xid: u32, item: u32, serial: u64)
        requires { IfSome (transaction xid self.old.value.running) (FitsPlaced self.old.room) }
        ensures value { self.new.value ≡ placed_head (transaction xid self.old.value.running)
            (record { item = item; serial = serial }) self.old.value }
        ensures pages { self.new.room.pages ≡ self.old.room.pages }
        ensures room { LeavesRoom (kind.PlaceHead item serial) xid self.old.room self.new.room }
    {
        let Some(t) = self.running.find(xid) else {
            return;
        };
        let by = t.xid;
        if serial != self.next_serial || serial == u64::MAX {
            return;
        }
        self.lives.push(item, by);
        self.heaps.note(item / MOST_SLOTS);
        let name = name_of(item, serial);
        self.running.note_placed(xid, name, &mut self.spare);
        self.next_serial = serial + 1;
        self.current = Some(name.page);
        self.highest = Some(match self.highest {
            None => name.page,
            Some(page) => name.page.max(page),
        });
    }

    /// Transaction xid marks a document, if it runs.
    fn mark(&mut self, xid: u32, item: u32, serial: u64)
        requires { IfSome (transaction xid self.old.value.running) (FitsMarked self.old.room) }
        ensures value { self.new.value ≡ marked_head (transaction xid self.old.value.running)
            (record { item = item; serial = serial }) self.old.value }
        ensures pages { self.new.room.pages ≡ self.old.room.pages }
    {
        if self.running.find(xid).is_some() {
            let name = name_of(item, serial);
            self.running.note_marked(xid, name, &mut self.spare);
        }
    }

    /// Every running transaction is aborted.
    pub(crate) fn end_running(&mut self)
        ensures value { self.new.value ≡ ended_all self.old.value }
        ensures pages { self.new.room.pages ≡ self.old.room.pages }
        ensures room { LeavesRoom kind.Abort 0 self.old.room self.new.room }
    {
        self.running.end_all(&mut self.fates);
    }

    /// The fate of an xid.
    pub(crate) fn fate(&self, xid: u32) -> Fate
        ensures { result ≡ fate_of self.now.value xid }
    {
        fate_in(&self.fates, xid)
    }

    /// How many commits there are.
    pub(crate) fn commits(&self) -> u32
        ensures { result ≡ length self.now.value.deleted }
    {
        self.deleted.len() as u32
    }

    /// The names that a commit deleted.
    pub(crate) fn deleted_by(&self, commit: u32) -> &[Name]
        requires first { 1 ≤ commit }
        requires last { commit ≤ length self.now.value.deleted }
        ensures { slice_get self.now.value.deleted (commit - 1) ≡ Some result.now }
    {
        self.deleted.at(commit as usize - 1)
    }

    /// The names that a commit inserted.
    pub(crate) fn inserted_by(&self, commit: u32) -> &[Name]
        requires first { 1 ≤ commit }
        requires last { commit ≤ length self.now.value.deleted }
        ensures { slice_get self.now.value.inserted (commit - 1) ≡ Some result.now }
    {
        self.inserted.at(commit as usize - 1)
    }

    /// The xid that the next transaction gets.
    pub(crate) fn next_xid(&self) -> u32
        ensures { result ≡ suc (length self.now.value.fates) }
    {
        self.fates.len() as u32 + 1
    }

    /// The serial that the next document gets.
    pub(crate) fn next_serial(&self) -> u64
        ensures { result ≡ self.now.value.next_serial }
    {
        self.next_serial
    }

    /// The last redo number.
    pub(crate) fn redo(&self) -> u64
        ensures { result ≡ self.now.value.redo }
    {
        self.redo
    }

    /// How many pages the store may have.
    pub(crate) fn pages(&self) -> u32
        ensures { result ≡ self.now.value.pages }
    {
        self.pages
    }

    /// Where xids end.
    pub(crate) fn xid_limit(&self) -> u32
        ensures { result ≡ self.now.value.xid_limit }
    {
        self.xid_limit
    }

    /// Whether a transaction runs.
    pub(crate) fn has_running(&self) -> bool
        ensures { result ≡ true ↔ (self.now.value.running ≢ []) }
    {
        !self.running.is_empty()
    }

    /// The old heap page with this number that a head is tried on.
    pub(crate) fn heap_page(&self, k: usize) -> Option<u32>
        ensures { result ≡ slice_get (heap_pages self.now.value) k }
    {
        match self.current {
            None => self.freed.at(k),
            Some(page) if k == 0 => Some(page),
            Some(_) => self.freed.at(k - 1),
        }
    }

    /// Whether so many bytes more fit on a page.
    fn has_room(&self, page: u32, bytes: u32) -> bool
        ensures { result ≡ true ↔ (size_of self.now.value page + bytes ≤ suc most_body) }
    {
        u64::from(self.freed.size_of(page)) + u64::from(bytes) <= ROOM
    }

    /// The first of the pages where this run freed a slot, from number k of them on, with room for so
    /// many bytes.
    fn freed_with_room(&self, k: u32, bytes: u32) -> Option<u32>
        ensures least { let s = self.now.value in
            IsLeastIfAny (λ p. (k ≤ p) × HasRoomIn s.freed s.sizes bytes p) result }
        ensures small { IfSome result (λ p. p < 2 ^ 21) }
    {
        let place = self.freed.with_room(k as usize, bytes)?;
        Some(place as u32)
    }

    /// The first old heap page from number k on with room for so many bytes, where this page comes
    /// first.
    fn room_behind(&self, page: u32, k: u32, bytes: u32) -> Option<u32>
        requires { self.now.value.current ≡ Some page }
        ensures { IsLeastIfAny (λ p. (k ≤ p) × HasRoomAt self.now.value bytes p) result }
    {
        if k == 0 && self.has_room(page, bytes) {
            return Some(0);
        }
        let place = self.freed_with_room(k.saturating_sub(1), bytes)?;
        Some(place + 1)
    }

    /// The first of the old heap pages that a head is tried on, from number k on, with room for so
    /// many bytes.
    pub(crate) fn room_from(&self, k: u32, bytes: u32) -> Option<u32>
        ensures { IsLeastIfAny (λ p. (k ≤ p) × HasRoomAt self.now.value bytes p) result }
    {
        match self.current {
            None => self.freed_with_room(k, bytes),
            Some(page) => self.room_behind(page, k, bytes),
        }
    }

    /// A run begins.
    pub(crate) fn start_run(&mut self)
        ensures { self.new.value ≡ run_started self.old.value }
    {
        self.current = self.highest;
        self.freed.clear();
    }

    /// The lowest heap page that isn't below this page.
    pub(crate) fn heap_from(&self, page: u32) -> Option<u32>
        ensures { IsLeastIfAny (λ p. (page ≤ p) × In p self.now.value.heaps) result }
    {
        self.heaps.from(page)
    }

    /// By which commits the document of this name was inserted and deleted.
    pub(crate) fn document(&self, name: &Name) -> Option<Life>
        ensures { result ≡ life_of self.now.value name.now }
    {
        let xid = self.lives.placer(name)?;
        match self.fate(xid) {
            Fate::Committed(inserted) => Some(self.lives.life(inserted, name.serial)),
            _ => None,
        }
    }

    /// Transaction xid is aborted, if it runs.
    pub(crate) fn abort(&mut self, xid: u32)
        ensures value { self.new.value
            ≡ aborted xid (transaction xid self.old.value.running) self.old.value }
        ensures pages { self.new.room.pages ≡ self.old.room.pages }
    {
        if self.running.find(xid).is_some() {
            self.end(xid, Fate::Aborted);
        }
    }
}
