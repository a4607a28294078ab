// How the keys of a document come to the pending list: as a row on its last page, or on pages of
// their own, which are then linked.
ghost use Rattle.std.specs.Prelude.{◌≡◌, ◌⊎◌, ℕ, ◌+◌, ◌^◌, ◌<◌, ◌≤◌, List, [], ◌∷◌, ◌++◌, length, map, All, true};
ghost use Rattle.std.specs.Prelude.{false};
ghost use Rattle.std.specs.Prelude.{Some, None, IfOk, IfErr, IfSome, IfNone, OnOk, OnErr, MatchOption};
ghost use Rattle.std.specs.List.{AllByRecursion};
ghost use Rattle.page_types.specs.Numbers.{most_slots, page_limit};
ghost use Rattle.page_types.specs.Pages.{IsPage};
ghost use Rattle.page_types.specs.declared.page.Page.{Page as PageValue};
ghost use Rattle.core_state.specs.Documents.{item_at};
ghost use Rattle.doc_heap.specs.HeapPages.{head_on};
ghost use Rattle.pending_list.specs.Packing.{AreKeys, ArePacked};
ghost use Rattle.pending_list.specs.Adding.{IsPendingPage, HasNoRoom};
ghost use Rattle.ts_base.specs.Vectors.{Vector, IsNormal};
ghost use Rattle.ts_base.specs.Encoding.{IsEncoding};
ghost use Rattle.ts_base.specs.Keys.{keys_of};
ghost use Rattle.engine.specs.Inner.Indexing.{IsRowPageStep, IsRowStep, IsLinkStep, IsListEnd, end_then};
ghost use Rattle.engine.specs.declared.error.DbError.TheVariants.{OutOfMemory, BadPage};

use crate::changes::{item_of, leave_fields, with_room};
use crate::db::Db;
use crate::error::DbError;
use crate::list_end::ListEnd;
use crate::transaction::Transaction;
use buffer_frames::{Drawn, Held, Pass, Sheet, Step};
use disk_trait::Disk;
use doc_heap::head;
use page_types::{Body, HeadFields, Kind, Name, Page};
use pending_list::{add_row, rows};
use std::alloc::{AllocError, Global};

/// The step that puts a page of a document's rows on a new page.
fn rows_step(
    alloc: Global,
    xid: u32,
    name: Name,
    heap: &Held,
    new: &Held,
    mut rows: Page,
) -> Result<Step, DbError>
    requires page { heap.now.page ≡ name.page }
    requires rows { IsPage rows }
    requires pending { IsPendingPage rows }
    ensures step { IfOk result (λ s.
        IsRowPageStep xid name heap.now.content rows.body new.now.page s) }
    ensures bad { IfErr result (λ e. (e ≡ OutOfMemory) ⊎ ((e ≡ BadPage name.page)
        × IsPage heap.now.content × (head_on heap.now.content name.slot ≡ None))) }
{
    let (number, page, new_number) = (heap.number(), heap.page(), new.number());
    // Rows that are not left are dropped by name: one call to prove, and no walk through all of a page's fields.
    let Some(found) = head(page, name.slot) else {
        drop(rows);
        return Err(DbError::BadPage { page: name.page });
    };
    let fields = HeadFields {
        private: new_number,
        ..found.fields
    };
    let kind = Kind::PutPending {
        item: item_of(name),
        serial: name.serial,
    };
    let mut step = Step::new(alloc, kind, xid);
    if let Err(error) = leave_fields(&mut step, number, page, name.slot, fields) {
        drop(rows);
        return Err(DbError::from(error));
    }
    rows.right = found.fields.private;
    rows.stamp = 0;
    step.leave(Sheet::new(new_number, rows))?;
    Ok(step)
}

/// The step that adds a row of a document's keys to the last page of the pending list; none where it
/// has no room.
fn row_step(
    alloc: Global,
    xid: u32,
    name: Name,
    last: &Held,
    keys: &[Vec<u8>],
) -> Result<Option<Step>, DbError>
    requires place { (name.page < page_limit) × (name.slot < most_slots) }
    requires pending { IsPendingPage last.now.content }
    requires keys { AreKeys (map (λ key. key.items) keys.now) }
    ensures step { IfOk result (λ o. IfSome o
        (λ s. IsRowStep xid name last.now (map (λ key. key.items) keys.now) s)) }
    ensures full { IfOk result (λ o. IfNone o (HasNoRoom last.now.content
        (item_at name.page name.slot) (map (λ key. key.items) keys.now))) }
    ensures memory { IfErr result (λ e. e ≡ OutOfMemory) }
{
    let item = item_of(name);
    let Some(page) = add_row(alloc, last.page(), item, keys)? else {
        return Ok(None);
    };
    let serial = name.serial;
    let mut step = Step::new(alloc, Kind::AddRow { item, serial }, xid);
    step.leave(Sheet::new(last.number(), page))?;
    Ok(Some(step))
}

/// The pages of a document's rows: the first, the last, and how many they are.
#[derive(Clone, Copy)]
struct Chain {
    first: u32,
    last: u32,
    pages: u32,
}

/// Leaves the pending list with these pages after its last one, or as these alone.
fn leave_end(step: &mut Step, end: &ListEnd, chain: Chain) -> Result<(), AllocError>
    requires { end.now.pages + chain.pages < 2 ^ 32 }
    ensures { OnOk result (step.new ≡ record step.old {
      after = step.old.after
          ++ end_then end.now.meta end.now.first end.now.pages end.now.last
          chain.first chain.last chain.pages;
    }) }
{
    let first = match end.last {
        Some(_) => end.first,
        None => chain.first,
    };
    let body = Body::Meta {
        first,
        last: chain.last,
        pages: end.pages + chain.pages,
    };
    let right = end.meta.page().right;
    let stamp = 0;
    step.leave(Sheet::new(end.meta.number(), Page { right, stamp, body }))?;
    if let Some(last) = &end.last {
        let mut page = last.page().clone()?;
        page.right = chain.first;
        step.leave(Sheet::new(last.number(), page))?;
    }
    Ok(())
}

/// The step that links the pages of a document's rows, so many and this the last, to the pending list.
fn link_step(
    alloc: Global,
    xid: u32,
    name: Name,
    heap: &Held,
    end: &ListEnd,
    last: u32,
    pages: u32,
) -> Result<Step, DbError>
    requires page { heap.now.page ≡ name.page }
    requires is_end { IsListEnd end.now }
    requires low { last < page_limit }
    requires few { pages ≤ 2 ^ 20 }
    ensures step { IfOk result (λ s. IsLinkStep xid name heap.now.content end.now last pages s) }
    ensures bad { IfErr result (λ e. (e ≡ OutOfMemory) ⊎ ((e ≡ BadPage name.page)
        × IsPage heap.now.content × (head_on heap.now.content name.slot ≡ None))) }
{
    let (number, page) = (heap.number(), heap.page());
    let Some(found) = head(page, name.slot) else {
        return Err(DbError::BadPage { page: name.page });
    };
    let first = found.fields.private;
    let fields = HeadFields {
        private: 0,
        ..found.fields
    };
    let kind = Kind::LinkPending {
        item: item_of(name),
        serial: name.serial,
    };
    let mut step = Step::new(alloc, kind, xid);
    leave_fields(&mut step, number, page, name.slot, fields)?;
    leave_end(&mut step, end, Chain { first, last, pages })?;
    Ok(step)
}

impl<D: Disk> Db<D> {
    ghost use Rattle.page_types.specs.declared.record.Record.{Record};
    ghost use Rattle.core_state.specs.History.{Commit};
    ghost use Rattle.buffer_frames.specs.Drawing.{drawn_by};
    ghost use Rattle.buffer_frames.specs.Journals.{next_record};
    ghost use Rattle.buffer_frames.specs.Passes.{IsPassOf};
    ghost use Rattle.engine.specs.Db.{state_then};
    ghost use Rattle.engine.specs.Finding.{document, Name as NameValue};
    ghost use Rattle.engine.specs.Work.{IsRowOf, IsRowPageOf, IsLinkOf, AreIndexing, AreStored};
    ghost use Rattle.engine.specs.Going.{Goes, FaultIsTold};
    ghost use Rattle.engine.specs.Places.{HasNoRoomOnList};
    ghost use Rattle.engine.specs.Answers.{MeetsNoBadPage};
    ghost use Rattle.engine.specs.Causes.{AreDue};
    ghost use Rattle.engine.specs.Inner.Changing.{doc_of, MayLogStep, LogsStep, CannotLog, MayLogMade, LogsMade};
    ghost use Rattle.engine.specs.Inner.Changing.{CannotLogMade, CannotPutNew};
    ghost use Rattle.engine.specs.Inner.Parts.{IsRunning, HasChanged, HasRows, CarriesOwn, KeepsWork, with_inserted};
    ghost use Rattle.engine.specs.Inner.Indexing.{IsNextPage, last_then, end_sheets};
    ghost use Rattle.engine.specs.Inner.Indexing.{CannotAddRow, CannotPutRows, CannotLink};
    ghost use Rattle.engine.specs.Inner.Indexing.{IsIndexedBy, CannotIndex, CannotStore};

    /// Adds a row of a document's keys to the last page of the pending list; false where there is none,
    /// or it has no room.
    fn add_row_to_list(
        &mut self,
        pass: &mut Pass,
        work: Transaction,
        name: Name,
        keys: &[Vec<u8>],
    ) -> Result<bool, DbError>
        requires running { IsRunning D.Disk self.old pass.old work }
        requires place { (name.page < page_limit) × (name.slot < most_slots) }
        requires keys { AreKeys (map (λ key. key.items) keys.now) }
        requires put { (v : Vector) × (names : List NameValue)
            × (map (λ key. key.items) keys.now ≡ keys_of v)
            × HasRows D.Disk self.old pass.old work.xid (doc_of name) v [] 0 names }
        ensures running { IsRunning D.Disk self.new pass.new work }
        ensures goes { IfOk result (λ b. b ≡ true → (r : Record) × IsRowOf work.xid (doc_of name) r
            × Goes D.Disk self.old self.new (r ∷ [])) }
        ensures indexed { (v : Vector) (c : Commit) → map (λ key. key.items) keys.now ≡ keys_of v
            → c.inserted ≡ []
            → HasRows D.Disk self.old pass.old work.xid (doc_of name) v [] 0 c.deleted
            → IfOk result (λ b. b ≡ true → HasChanged D.Disk self.new pass.new work.xid
            (with_inserted (document name v) c)) }
        ensures keeps { KeepsWork pass.old pass.new }
        ensures fault { FaultIsTold D.Disk self.old self.new result }

        // It is not added.
        ensures full { IfOk result (λ b. b ≡ false → HasNoRoomOnList self.old
            (item_at name.page name.slot) (map (λ key. key.items) keys.now)) }
        ensures still { IfOk result (λ b. b ≡ false → Goes D.Disk self.old self.new []) }
        ensures carries { IfOk result (λ b. b ≡ false
            → CarriesOwn D.Disk self.old pass.old self.new pass.new) }
        ensures refused { OnErr result (Goes D.Disk self.old self.new []) }
        ensures cause { IfErr result (λ e. CannotAddRow D.Disk self.old work.xid (doc_of name) e) }
        ensures lawful { IfErr result (λ e. MeetsNoBadPage D.Disk self.old e) }
    {
        let ListEnd { meta, last, .. } = self.hold_list(pass)?;
        let Some(last) = last else {
            self.give_back(pass, meta);
            return Ok(false);
        };
        let made = row_step(self.alloc, work.xid, name, &last, keys);
        let Some(made) = made.transpose() else {
            self.give_back(pass, last);
            self.give_back(pass, meta);
            return Ok(false);
        };
        self.log_two(pass, meta, last, made)?;
        Ok(true)
    }

    /// Puts a page of a document's rows on a new page, in front of those that are there: its number.
    fn put_row_page(
        &mut self,
        pass: &mut Pass,
        work: Transaction,
        name: Name,
        rows: Page,
    ) -> Result<u32, DbError>
        requires running { IsRunning D.Disk self.old pass.old work }
        requires place { name.slot < most_slots }
        requires is_page { IsPage rows }
        requires pending { IsPendingPage rows }
        requires next { (v : Vector) × (back : List PageValue) × (last : ℕ) × (names : List NameValue)
            × IsNextPage (item_at name.page name.slot) v rows back
            × HasRows D.Disk self.old pass.old work.xid (doc_of name) v back last names }
        ensures running { IsRunning D.Disk self.new pass.new work }
        ensures goes { OnOk result ((r : Record) × IsRowPageOf work.xid (doc_of name) r
            × Goes D.Disk self.old self.new (r ∷ [])) }
        ensures put { (v : Vector) (back : List PageValue) (last : ℕ) (names : List NameValue)
            → IsNextPage (item_at name.page name.slot) v rows back
            → HasRows D.Disk self.old pass.old work.xid (doc_of name) v back last names
            → IfOk result (λ n. HasRows D.Disk self.new pass.new work.xid (doc_of name) v
            (rows ∷ back) (last_then last n) names) }
        ensures low { IfOk result (λ n. n < page_limit) }
        ensures keeps { KeepsWork pass.old pass.new }
        ensures fault { FaultIsTold D.Disk self.old self.new result }

        // The refusals: it isn't put.
        ensures refused { OnErr result (Goes D.Disk self.old self.new []) }
        ensures cause { IfErr result
            (λ e. CannotPutNew D.Disk (IsRowPageOf work.xid (doc_of name)) self.old name e) }
        ensures lawful { IfErr result (λ e. MeetsNoBadPage D.Disk self.old e) }
    {
        let (heap, new) = match self.hold_with_new(pass, name.page) {
            Ok(held) => held,
            Err(error) => {
                // By name, as where the step isn't made.
                drop(rows);
                return Err(error);
            }
        };
        let number = new.number();
        let made = rows_step(self.alloc, work.xid, name, &heap, &new, rows);
        self.log_two(pass, heap, new, made)?;
        Ok(number)
    }

    /// Puts pages of a document's rows, from the last to the first: the number of the last.
    fn put_rows(
        &mut self,
        pass: &mut Pass,
        work: Transaction,
        name: Name,
        mut pages: Vec<Page>,
    ) -> Result<u32, DbError>
        requires running { IsRunning D.Disk self.old pass.old work }
        requires place { name.slot < most_slots }
        requires are_pages { All IsPage pages.items }
        requires packed { (v : Vector) × (names : List NameValue) × AreKeys (keys_of v)
            × ArePacked (item_at name.page name.slot) (keys_of v) pages.items
            × HasRows D.Disk self.old pass.old work.xid (doc_of name) v [] 0 names }
        ensures running { IsRunning D.Disk self.new pass.new work }
        ensures goes { OnOk result ((rs : List Record)
            × AllByRecursion (IsRowPageOf work.xid (doc_of name)) rs × (length rs ≡ length pages.items)
            × Goes D.Disk self.old self.new rs) }
        ensures put { (v : Vector) (names : List NameValue) → AreKeys (keys_of v)
            → ArePacked (item_at name.page name.slot) (keys_of v) pages.items
            → HasRows D.Disk self.old pass.old work.xid (doc_of name) v [] 0 names
            → IfOk result (λ n. HasRows D.Disk self.new pass.new work.xid (doc_of name) v
            pages.items n names) }
        ensures low { IfOk result (λ n. n < page_limit) }
        ensures keeps { KeepsWork pass.old pass.new }
        ensures fault { FaultIsTold D.Disk self.old self.new result }

        // The refusals: some may be put.
        ensures refused { OnErr result ((rs : List Record)
            × AllByRecursion (IsRowPageOf work.xid (doc_of name)) rs × (length rs < length pages.items)
            × Goes D.Disk self.old self.new rs) }
        ensures cause { IfErr result
            (λ e. CannotPutRows D.Disk self.old work.xid name (length pages.items) e) }
        ensures lawful { IfErr result (λ e. MeetsNoBadPage D.Disk self.old e) }
    {
        let mut last = 0;
        while let Some(page) = pages.pop() {
            let number = self.put_row_page(pass, work, name, page)?;
            if last == 0 {
                last = number;
            }
        }
        Ok(last)
    }

    /// Logs a step on pages that are held; they are given back.
    pub(crate) fn log_pages(
        &mut self,
        pass: &mut Pass,
        pages: Vec<Held>,
        step: Step,
    ) -> Result<Drawn, DbError>
        requires { MayLogStep D.Disk self.old pass.old pages.items step }
        ensures pass { IsPassOf self.new.frames pass.new }
        ensures none_held { pass.new.held ≡ 0 }
        ensures keeps { KeepsWork pass.old pass.new }
        ensures logged { OnOk result
            (LogsStep D.Disk self.old pass.old pages.items step self.new pass.new) }
        ensures drawn { IfOk result (λ d. d ≡ drawn_by (state_then self.old) step.kind) }
        ensures fault { FaultIsTold D.Disk self.old self.new result }

        // The refusals: the record isn't there.
        ensures refused { OnErr result (Goes D.Disk self.old self.new []) }
        ensures carries { OnErr result (CarriesOwn D.Disk self.old pass.old self.new pass.new) }
        ensures cause { IfErr result
            (λ e. CannotLog self.old (next_record self.old.frames.journal step) e) }
    {
        Ok(self.frames.log_step(pass, pages, step)?)
    }

    /// Logs the step that was made, if any was, on three pages that are held; they are given back.
    fn log_three(
        &mut self,
        pass: &mut Pass,
        heap: Held,
        meta: Held,
        last: Held,
        made: Result<Step, DbError>,
    ) -> Result<(), DbError>
        requires { MayLogMade D.Disk self.old pass.old (last ∷ meta ∷ heap ∷ []) made }
        ensures pass { IsPassOf self.new.frames pass.new }
        ensures none_held { pass.new.held ≡ 0 }
        ensures keeps { KeepsWork pass.old pass.new }
        ensures logged { OnOk result (LogsMade D.Disk self.old pass.old
            (last ∷ meta ∷ heap ∷ []) made self.new pass.new) }
        ensures fault { FaultIsTold D.Disk self.old self.new result }

        // The refusals: the record isn't there.
        ensures refused { OnErr result (Goes D.Disk self.old self.new []) }
        ensures carries { OnErr result (CarriesOwn D.Disk self.old pass.old self.new pass.new) }
        ensures cause { IfErr result (λ e. CannotLogMade self.old made e) }
    {
        match with_room(self.alloc, made, 3) {
            Ok((step, mut pages)) => {
                pages.push_reserved(last);
                pages.push_reserved(meta);
                pages.push_reserved(heap);
                self.log_pages(pass, pages, step)?;
                Ok(())
            }
            Err(error) => {
                self.give_back(pass, last);
                self.give_back(pass, meta);
                self.give_back(pass, heap);
                Err(error)
            }
        }
    }

    /// Logs the step that was made, if any was, on a heap page and the end of the pending list, which are held;
    /// they are given back.
    fn log_link(
        &mut self,
        pass: &mut Pass,
        heap: Held,
        end: ListEnd,
        made: Result<Step, DbError>,
    ) -> Result<(), DbError>
        requires { MayLogMade D.Disk self.old pass.old
            (end_sheets end.meta end.last ++ heap ∷ []) made }
        ensures pass { IsPassOf self.new.frames pass.new }
        ensures none_held { pass.new.held ≡ 0 }
        ensures keeps { KeepsWork pass.old pass.new }
        ensures logged { OnOk result (LogsMade D.Disk self.old pass.old
            (end_sheets end.meta end.last ++ heap ∷ []) made self.new pass.new) }
        ensures fault { FaultIsTold D.Disk self.old self.new result }

        // The refusals: the record isn't there.
        ensures refused { OnErr result (Goes D.Disk self.old self.new []) }
        ensures carries { OnErr result (CarriesOwn D.Disk self.old pass.old self.new pass.new) }
        ensures cause { IfErr result (λ e. CannotLogMade self.old made e) }
    {
        let ListEnd { meta, last, .. } = end;
        match last {
            Some(last) => self.log_three(pass, heap, meta, last, made),
            None => self.log_two(pass, heap, meta, made),
        }
    }

    /// Links the pages of a document's rows, so many and this the last, to the pending list.
    fn link_rows(
        &mut self,
        pass: &mut Pass,
        work: Transaction,
        name: Name,
        last: u32,
        pages: u32,
    ) -> Result<(), DbError>
        requires running { IsRunning D.Disk self.old pass.old work }
        requires place { name.slot < most_slots }
        requires low { last < page_limit }
        requires few { pages ≤ 2 ^ 20 }
        requires put { (v : Vector) × (packed : List PageValue) × (names : List NameValue)
            × (length packed ≡ pages) × ArePacked (item_at name.page name.slot) (keys_of v) packed
            × HasRows D.Disk self.old pass.old work.xid (doc_of name) v packed last names }
        ensures running { IsRunning D.Disk self.new pass.new work }
        ensures goes { OnOk result ((r : Record) × IsLinkOf work.xid (doc_of name) r
            × Goes D.Disk self.old self.new (r ∷ [])) }
        ensures indexed { (v : Vector) (packed : List PageValue) (c : Commit) → length packed ≡ pages
            → ArePacked (item_at name.page name.slot) (keys_of v) packed → c.inserted ≡ []
            → HasRows D.Disk self.old pass.old work.xid (doc_of name) v packed last c.deleted
            → OnOk result (HasChanged D.Disk self.new pass.new work.xid
            (with_inserted (document name v) c)) }
        ensures keeps { KeepsWork pass.old pass.new }
        ensures fault { FaultIsTold D.Disk self.old self.new result }

        // The refusals: they aren't linked.
        ensures refused { OnErr result (Goes D.Disk self.old self.new []) }
        ensures cause { IfErr result (λ e. CannotLink D.Disk self.old work.xid name e) }
        ensures lawful { IfErr result (λ e. MeetsNoBadPage D.Disk self.old e) }
    {
        let heap = self.hold_page(pass, name.page)?;
        let end = match self.hold_list(pass) {
            Ok(end) => end,
            Err(error) => {
                self.give_back(pass, heap);
                return Err(error);
            }
        };
        let made = link_step(self.alloc, work.xid, name, &heap, &end, last, pages);
        self.log_link(pass, heap, end, made)
    }

    /// Brings the keys of a document to the pending list: as a row on its last page where that has
    /// room, else on pages of their own.
    fn index_document(
        &mut self,
        pass: &mut Pass,
        work: Transaction,
        name: Name,
        keys: &[Vec<u8>],
    ) -> Result<(), DbError>
        requires running { IsRunning D.Disk self.old pass.old work }
        requires place { (name.page < page_limit) × (name.slot < most_slots) }
        requires keys { AreKeys (map (λ key. key.items) keys.now) }
        requires few { length keys.now ≤ 2 ^ 20 }
        requires put { (v : Vector) × (names : List NameValue)
            × (map (λ key. key.items) keys.now ≡ keys_of v)
            × HasRows D.Disk self.old pass.old work.xid (doc_of name) v [] 0 names }
        ensures running { IsRunning D.Disk self.new pass.new work }
        ensures goes { OnOk result ((rs : List Record)
            × AreIndexing work.xid (doc_of name) (map (λ key. key.items) keys.now) rs
            × Goes D.Disk self.old self.new rs) }
        ensures rows { OnOk result (IsIndexedBy D.Disk self.old self.new work.xid (doc_of name)
            (map (λ key. key.items) keys.now)) }
        ensures indexed { (v : Vector) (c : Commit) → map (λ key. key.items) keys.now ≡ keys_of v
            → c.inserted ≡ []
            → HasRows D.Disk self.old pass.old work.xid (doc_of name) v [] 0 c.deleted
            → OnOk result (HasChanged D.Disk self.new pass.new work.xid
            (with_inserted (document name v) c)) }
        ensures keeps { KeepsWork pass.old pass.new }
        ensures fault { FaultIsTold D.Disk self.old self.new result }

        // The refusals: some of its records may be there.
        ensures refused { OnErr result ((done rest : List Record)
            × AreIndexing work.xid (doc_of name) (map (λ key. key.items) keys.now) (done ++ rest)
            × Goes D.Disk self.old self.new done) }
        ensures cause { IfErr result (λ e. CannotIndex D.Disk self.old work.xid name
            (map (λ key. key.items) keys.now) e) }
        ensures lawful { IfErr result (λ e. MeetsNoBadPage D.Disk self.old e) }
    {
        let added = self.add_row_to_list(pass, work, name, keys)?;
        if added {
            return Ok(());
        }
        let pages = rows(self.alloc, item_of(name), keys)?;
        let count = pages.len() as u32;
        let last = self.put_rows(pass, work, name, pages)?;
        self.link_rows(pass, work, name, last, count)
    }

    /// Places a document with a vector of these bytes, and brings its keys to the pending list: its
    /// name.
    pub(crate) fn put(
        &mut self,
        pass: &mut Pass,
        work: Transaction,
        bytes: &[u8],
        keys: &[Vec<u8>],
    ) -> Result<Name, DbError>
        requires running { IsRunning D.Disk self.old pass.old work }
        requires changed { (c : Commit) × (c.inserted ≡ [])
            × HasChanged D.Disk self.old pass.old work.xid c }
        requires vector { (v : Vector) × IsEncoding bytes.now v
            × (map (λ key. key.items) keys.now ≡ keys_of v) }
        ensures running { IsRunning D.Disk self.new pass.new work }
        ensures placed { (v : Vector) (c : Commit) → IsEncoding bytes.now v
            → map (λ key. key.items) keys.now ≡ keys_of v → c.inserted ≡ []
            → HasChanged D.Disk self.old pass.old work.xid c → IfOk result (λ n.
            HasChanged D.Disk self.new pass.new work.xid (with_inserted (document n v) c)) }
        ensures goes { OnOk result ((rs : List Record)
            × AreStored bytes.now (map (λ key. key.items) keys.now) work.xid rs
            × AreDue D.Disk self.old (map (λ key. key.items) keys.now) rs
            × Goes D.Disk self.old self.new rs) }
        ensures keeps { KeepsWork pass.old pass.new }
        ensures fault { FaultIsTold D.Disk self.old self.new result }

        // The refusals: some of its records may be there.
        ensures refused { OnErr result ((done rest : List Record)
            × AreStored bytes.now (map (λ key. key.items) keys.now) work.xid (done ++ rest)
            × Goes D.Disk self.old self.new done) }
        ensures cause { IfErr result (λ e. CannotStore D.Disk self.old work.xid bytes.now
            (map (λ key. key.items) keys.now) e) }
        ensures lawful { IfErr result (λ e. MeetsNoBadPage D.Disk self.old e) }
    {
        let name = self.put_document(pass, work, bytes)?;
        self.index_document(pass, work, name, keys)?;
        Ok(name)
    }
}
