// What a transaction changes: documents are marked deleted and placed.
ghost use Rattle.std.specs.Prelude.{◌≡◌, ◌≢◌, ◌⊎◌, ℕ, ◌+◌, ◌*◌, ◌^◌, ◌<◌, ◌≤◌, List, [], ◌∷◌, ◌++◌, length, take, drop};
ghost use Rattle.std.specs.Prelude.{Some, None, Ok, Err, IsSome, IfOk, IfErr, OnOk, OnErr, MatchOption, vec_capacity};
ghost use Rattle.page_types.specs.Numbers.{most_body, most_short, most_slots, page_limit};
ghost use Rattle.page_types.specs.Pages.{IsHead, IsPage};
ghost use Rattle.page_types.specs.declared.page.Head.{Head as HeadValue};
ghost use Rattle.ts_base.specs.Vectors.{Vector};
ghost use Rattle.ts_base.specs.Encoding.{IsEncoding};
ghost use Rattle.core_state.specs.Documents.{item_at};
ghost use Rattle.doc_heap.specs.HeapPages.{head_on};
ghost use Rattle.engine.specs.Work.{parts_for};
ghost use Rattle.engine.specs.Places.{head_for};
ghost use Rattle.core_state.specs.Steps.{sheet};
ghost use Rattle.engine.specs.Inner.Changing.{HasFields, LeavesFields, IsMarkStep, IsPartStep, place_of, part_page};
ghost use Rattle.engine.specs.declared.asks.Standing.TheVariants.{Unseen, Seen, Past};
ghost use Rattle.engine.specs.declared.error.DbError.TheVariants.{OutOfMemory, BadPage, NoDocument, Conflict};

use crate::asks::{HeadStanding, Standing};
use crate::db::Db;
use crate::error::DbError;
use crate::pages::{Placed, is_heap};
use crate::transaction::Transaction;
use buffer_frames::{Drawn, Held, Pass, Sheet, Step};
use disk_trait::Disk;
use doc_heap::{head, mark};
use page_types::{
    Body, Bytes, Head, HeadFields, Kind, MOST_BODY_BYTES, MOST_SHORT_BYTES, MOST_SLOTS, Name, Page,
};
use std::alloc::{AllocError, Global};

/// The item of a name.
pub(crate) fn item_of(name: Name) -> u32
    requires { (name.page < 2 ^ 20) × (name.slot < 2048) }
    ensures { result ≡ item_at name.page name.slot }
{
    name.page * MOST_SLOTS as u32 + u32::from(name.slot)
}

/// The head of a new document with a vector of these bytes. Its serial is drawn when it is logged.
fn new_head(alloc: Global, xid: u32, bytes: &[u8]) -> Result<Head, AllocError>
    requires { length bytes.now < 2 ^ 32 }
    ensures head { IfOk result (λ h. h ≡ head_for xid bytes.now) }
    ensures is_head { IfOk result (λ h. IsHead h) }
{
    let short = bytes.len() <= MOST_SHORT_BYTES as usize;
    let vector = Bytes::from_slice(alloc, if short { bytes } else { &[] })?;
    Ok(Head {
        serial: 0,
        inserted_by: xid,
        deleted_by: 0,
        overflow: 0,
        private: 0,
        bytes: bytes.len() as u32,
        vector,
    })
}

/// How many overflow pages these bytes of a vector are on.
fn parts_of(bytes: &[u8]) -> usize
    ensures { result ≡ parts_for (length bytes.now) }
{
    if bytes.len() <= MOST_SHORT_BYTES as usize {
        return 0;
    }
    bytes.len().div_ceil(MOST_BODY_BYTES)
}

/// The part with this number, from 0, of these bytes.
fn part_at(bytes: &[u8], number: usize) -> &[u8]
    requires { number * most_body < length bytes.now }
    ensures { result.now ≡ take most_body (drop (number * most_body) bytes.now) }
{
    let start = number * MOST_BODY_BYTES;
    let end = bytes.len().min(start + MOST_BODY_BYTES);
    &bytes[start..end]
}

/// Leaves a copy of a page with these fields in the head that is in the slot.
pub(crate) fn leave_fields(
    step: &mut Step,
    number: u32,
    page: &Page,
    slot: u16,
    fields: HeadFields,
) -> Result<(), AllocError>
    requires { IsSome (head_on page.now slot) }
    ensures { OnOk result (LeavesFields number page.now slot fields step.old step.new) }
{
    let mut heap = page.clone()?;
    if let Body::Heap(slots) = &mut heap.body {
        slots.set_fields(usize::from(slot), fields);
    }
    step.leave(Sheet::new(number, heap))?;
    Ok(())
}

/// Leaves an overflow page with this part of a vector, which leads to the next.
fn leave_part(
    alloc: Global,
    step: &mut Step,
    number: u32,
    right: u32,
    part: &[u8],
) -> Result<(), AllocError>
    ensures { OnOk result (step.new ≡ record step.old {
      after = step.old.after ++ sheet number (part_page right part.now) ∷ [];
    }) }
{
    let body = Body::Overflow(Bytes::from_slice(alloc, part)?);
    let stamp = 0;
    step.leave(Sheet::new(number, Page { right, stamp, body }))?;
    Ok(())
}

/// The step that puts a part of a document's vector on a new page.
fn part_step(
    alloc: Global,
    xid: u32,
    name: Name,
    heap: &Held,
    new: &Held,
    part: &[u8],
) -> Result<Step, DbError>
    requires page { heap.now.page ≡ name.page }
    requires fits { length part.now ≤ most_body }
    ensures step { IfOk result (λ s.
        IsPartStep xid name heap.now.content part.now new.now.page s) }
    ensures bad { IfErr result (λ e. (e ≡ OutOfMemory) ⊎ ((e ≡ BadPage name.page)
        × IsPage heap.now.content × (head_on heap.now.content name.slot ≡ None))) }
{
    let (number, page, new_number) = (heap.number(), heap.page(), new.number());
    let Some(found) = head(page, name.slot) else {
        return Err(DbError::BadPage { page: name.page });
    };
    let fields = HeadFields {
        overflow: new_number,
        ..found.fields
    };
    let kind = Kind::PutOverflow {
        item: item_of(name),
        serial: name.serial,
    };
    let mut step = Step::new(alloc, kind, xid);
    leave_fields(&mut step, number, page, name.slot, fields)?;
    leave_part(alloc, &mut step, new_number, found.fields.overflow, part)?;
    Ok(step)
}

/// The step that marks the head of this name on its page.
fn mark_step(alloc: Global, xid: u32, name: Name, held: &Held) -> Result<Step, DbError>
    requires page { held.now.page ≡ name.page }
    requires there { IsSome (head_on held.now.content name.slot) }
    ensures step { IfOk result (λ s. IsMarkStep xid name held.now.content s) }
    ensures memory { IfErr result (λ e. e ≡ OutOfMemory) }
{
    let number = held.number();
    let mut marked = held.page().clone()?;
    mark(&mut marked, name.slot, xid);
    let kind = Kind::MarkDeleted {
        item: item_of(name),
        serial: name.serial,
    };
    let mut step = Step::new(alloc, kind, xid);
    step.leave(Sheet::new(number, marked))?;
    Ok(step)
}

/// The step that leaves this page, on which a head is placed in the slot. Its serial is drawn when it
/// is logged.
fn place_step(alloc: Global, xid: u32, number: u32, slot: u16, page: Page) -> Result<Step, DbError>
    requires { (number < page_limit) × (slot < most_slots) }
    ensures step { IfOk result (λ s. s ≡ place_of xid number slot page) }
    ensures memory { IfErr result (λ e. e ≡ OutOfMemory) }
{
    let serial = 0;
    let name = Name {
        page: number,
        slot,
        serial,
    };
    let kind = Kind::PlaceHead {
        item: item_of(name),
        serial,
    };
    let mut step = Step::new(alloc, kind, xid);
    step.leave(Sheet::new(number, page))?;
    Ok(step)
}

/// The step that was made, and room for so many pages to log it with.
pub(crate) fn with_room(
    alloc: Global,
    made: Result<Step, DbError>,
    pages: usize,
) -> Result<(Step, Vec<Held>), DbError>
    ensures made { IfOk result (λ r. made ≡ Ok r.0) }
    ensures none { IfOk result (λ r. (r.1).items ≡ []) }
    ensures room { IfOk result (λ r. pages ≤ vec_capacity r.1) }
    ensures cause { IfErr result (λ e. (made ≡ Err e) ⊎ (e ≡ OutOfMemory)) }
{
    let step = made?;
    let room = Vec::with_capacity(alloc, pages)?;
    Ok((step, room))
}

/// The fields of the head of this name, if it is on the page.
fn fields_of(page: &Page, name: Name) -> Option<HeadFields>
    ensures { MatchOption result ((h : HeadValue) → head_on page.now name.slot ≡ Some h
        → h.serial ≢ name.serial) (λ f. HasFields page.now name f) }
{
    let found = head(page, name.slot)?;
    if found.fields.serial == name.serial {
        Some(found.fields)
    } else {
        None
    }
}

/// Whether the transaction may mark a head that is so to its snapshot.
fn allows(standing: Standing, xid: u32) -> Result<(), DbError>
    ensures may { OnOk result ((standing ≡ Seen) ⊎ (standing ≡ Past xid)) }
    ensures refused { IfErr result (λ e. ((standing ≡ Unseen) × (e ≡ NoDocument))
        ⊎ ((y : ℕ) × (standing ≡ Past y) × (y ≢ xid) × (e ≡ Conflict y))) }
{
    match standing {
        Standing::Unseen => Err(DbError::NoDocument),
        Standing::Seen => Ok(()),
        Standing::Past(other) => {
            if other == xid {
                Ok(())
            } else {
                Err(DbError::Conflict { xid: other })
            }
        }
    }
}

impl<D: Disk> Db<D> {
    ghost use Rattle.page_types.specs.declared.record.Record.{Record};
    ghost use Rattle.core_state.specs.History.{Commit};
    ghost use Rattle.core_state.specs.States.{StateTells};
    ghost use Rattle.buffer_frames.specs.Drawing.{drawn_by};
    ghost use Rattle.buffer_frames.specs.Frames.{KeepsState};
    ghost use Rattle.buffer_frames.specs.Passes.{IsPassOf, IsHolding, Seen as SeenBy};
    ghost use Rattle.engine.specs.Db.{state_of, state_then};
    ghost use Rattle.core_state.specs.Documents.{Doc};
    ghost use Rattle.engine.specs.Finding.{Name as NameValue};
    ghost use Rattle.engine.specs.Work.{IsMarkOf, IsPlaceOf, IsPartOf, ArePut};
    ghost use Rattle.engine.specs.Going.{Goes, FaultIsTold, MetNoFault};
    ghost use Rattle.engine.specs.Causes.{MayBeDeleted};
    ghost use Rattle.engine.specs.Answers.{MeetsNoBadPage};
    ghost use Rattle.core_state.specs.Allowed.{Step as StepValue};
    ghost use Rattle.engine.specs.Inner.Changing.{doc_of, MayBeMarked, CannotMakeMark, MayLogMade, LogsMade};
    ghost use Rattle.engine.specs.Inner.Changing.{CannotLogMade, CannotPlace, CannotPutNew, IsNextPart};
    ghost use Rattle.engine.specs.Inner.Parts.{IsRunning, HasChanged, HasPlaced, CarriesOwn, Later, CannotMark};
    ghost use Rattle.engine.specs.Inner.Parts.{TellsOfMark, CannotPut, KeepsWork, no_changes, only_deleted};
    ghost use Rattle.engine.specs.Inner.Parts.{HasRows};

    /// Logs the step that was made, if any was, on one page that is held; the page is given back.
    fn log_one(
        &mut self,
        pass: &mut Pass,
        held: Held,
        made: Result<Step, DbError>,
    ) -> Result<Drawn, DbError>
        requires { MayLogMade D.Disk self.old pass.old (held ∷ []) made }
        ensures pass { IsPassOf self.new.frames pass.new }
        ensures none_held { pass.new.held ≡ 0 }
        ensures keeps { KeepsWork pass.old pass.new }
        ensures logged { OnOk result
            (LogsMade D.Disk self.old pass.old (held ∷ []) made self.new pass.new) }
        ensures drawn { IfOk result (λ d. (s : StepValue) → made ≡ Ok s
            → d ≡ drawn_by (state_then self.old) s.kind) }
        ensures fault { FaultIsTold D.Disk self.old self.new result }

        // The refusals: the record isn't there.
        ensures refused { OnErr result (Goes D.Disk self.old self.new []) }
        ensures carries { OnErr result (CarriesOwn D.Disk self.old pass.old self.new pass.new) }
        ensures cause { IfErr result (λ e. CannotLogMade self.old made e) }
    {
        match with_room(self.alloc, made, 1) {
            Ok((step, mut pages)) => {
                pages.push_reserved(held);
                self.log_pages(pass, pages, step)
            }
            Err(error) => {
                self.give_back(pass, held);
                Err(error)
            }
        }
    }

    /// The step that marks the document of this name, whose page is held, where the transaction may mark it.
    fn mark_held(
        &mut self,
        pass: &mut Pass,
        work: Transaction,
        held: &Held,
        name: Name,
    ) -> Result<Step, DbError>
        requires pass { IsPassOf self.old.frames pass.old }
        requires holding { IsHolding D.Disk self.old.frames pass.old (held.now ∷ []) }
        requires page { held.now.page ≡ name.page }
        ensures pass { IsPassOf self.new.frames pass.new }
        ensures holding { IsHolding D.Disk self.new.frames pass.new (held.now ∷ []) }
        ensures carries { CarriesOwn D.Disk self.old pass.old self.new pass.new }
        ensures goes { Goes D.Disk self.old self.new [] }
        ensures state { KeepsState self.old.frames self.new.frames }
        ensures keeps { KeepsWork pass.old pass.new }
        ensures fault { MetNoFault D.Disk self.old self.new }
        ensures is_page { IsPage held.now.content }
        ensures step { IfOk result (λ s. IsMarkStep work.xid name held.now.content s) }
        ensures may { OnOk result
            (MayBeMarked (state_of self.new) work.snapshot work.xid name held.now.content) }
        ensures all { OnOk result (pass.new.seen ≡ (state_of self.new).records) }
        ensures told { OnOk result (SeenBy D.Disk self.new.frames pass.new
            (λ S P. StateTells S (state_of self.new))) }
        ensures cause { IfErr result (λ e. CannotMakeMark self.old (state_of self.new) work.snapshot work.xid
            name held.now.content e) }
    {
        if !is_heap(held.page()) {
            return Err(DbError::BadPage { page: name.page });
        }
        let Some(fields) = fields_of(held.page(), name) else {
            return Err(DbError::NoDocument);
        };
        let ask = HeadStanding {
            inserted_by: fields.inserted_by,
            deleted_by: fields.deleted_by,
            commits: work.snapshot,
        };
        let standing = self.frames.look(pass, &ask)?;
        allows(standing, work.xid)?;
        mark_step(self.alloc, work.xid, name, held)
    }

    /// Marks the document of this name deleted.
    pub(crate) fn mark(
        &mut self,
        pass: &mut Pass,
        work: Transaction,
        name: Name,
    ) -> Result<(), DbError>
        requires running { IsRunning D.Disk self.old pass.old work }
        requires changed { HasChanged D.Disk self.old pass.old work.xid no_changes }
        ensures running { IsRunning D.Disk self.new pass.new work }
        ensures marked { OnOk result
            (HasChanged D.Disk self.new pass.new work.xid (only_deleted name)) }
        ensures goes { OnOk result ((r : Record) × IsMarkOf work.xid name r
            × Goes D.Disk self.old self.new (r ∷ [])) }
        ensures there { OnOk result (Later D.Disk self.old
            (λ s. MayBeDeleted s work.snapshot work.xid name)) }
        ensures keeps { KeepsWork pass.old pass.new }
        ensures fault { FaultIsTold D.Disk self.old self.new result }

        // The refusals: it is not marked.
        ensures refused { OnErr result (Goes D.Disk self.old self.new []) }
        ensures cause { IfErr result
            (λ e. CannotMark D.Disk self.old work.snapshot work.xid name e) }
        ensures lawful { IfErr result (λ e. TellsOfMark D.Disk self.old work.snapshot name e) }
    {
        let held = self.hold_page(pass, name.page)?;
        let made = self.mark_held(pass, work, &held, name);
        self.log_one(pass, held, made)?;
        Ok(())
    }

    /// Places the head of a document with a vector of these bytes: its name.
    fn place_head(
        &mut self,
        pass: &mut Pass,
        work: Transaction,
        bytes: &[u8],
    ) -> Result<Name, DbError>
        requires running { IsRunning D.Disk self.old pass.old work }
        requires size { length bytes.now < 2 ^ 32 }
        ensures running { IsRunning D.Disk self.new pass.new work }
        ensures place { IfOk result (λ n. (n.page < page_limit) × (n.slot < most_slots)) }
        ensures goes { IfOk result (λ n. (r : Record) × IsPlaceOf work.xid (doc_of n) r
            × Goes D.Disk self.old self.new (r ∷ [])) }
        ensures placed { (c : Commit) → c.inserted ≡ []
            → HasChanged D.Disk self.old pass.old work.xid c → IfOk result (λ n.
            HasPlaced D.Disk self.new pass.new work.xid (doc_of n) bytes.now [] c.deleted) }
        ensures keeps { KeepsWork pass.old pass.new }
        ensures fault { FaultIsTold D.Disk self.old self.new result }

        // The refusals: it isn't placed.
        ensures refused { OnErr result (Goes D.Disk self.old self.new []) }
        ensures cause { IfErr result (λ e. CannotPlace D.Disk self.old work.xid bytes.now e) }
        ensures lawful { IfErr result (λ e. MeetsNoBadPage D.Disk self.old e) }
    {
        let head = new_head(self.alloc, work.xid, bytes)?;
        let placed = self.choose_page(pass, &head);
        drop(head);
        let Placed { held, page, slot } = placed?;
        let number = held.number();
        let made = place_step(self.alloc, work.xid, number, slot, page);
        let serial = self.log_one(pass, held, made)?.value;
        Ok(Name {
            page: number,
            slot,
            serial,
        })
    }

    /// Logs the step that was made, if any was, on two pages that are held; they are given back.
    pub(crate) fn log_two(
        &mut self,
        pass: &mut Pass,
        heap: Held,
        new: Held,
        made: Result<Step, DbError>,
    ) -> Result<(), DbError>
        requires { MayLogMade D.Disk self.old pass.old (new ∷ heap ∷ []) made }
        ensures pass { IsPassOf self.new.frames pass.new }
        ensures none_held { pass.new.held ≡ 0 }
        ensures keeps { KeepsWork pass.old pass.new }
        ensures logged { OnOk result
            (LogsMade D.Disk self.old pass.old (new ∷ heap ∷ []) made self.new pass.new) }
        ensures fault { FaultIsTold D.Disk self.old self.new result }

        // The refusals: the record isn't there.
        ensures refused { OnErr result (Goes D.Disk self.old self.new []) }
        ensures carries { OnErr result (CarriesOwn D.Disk self.old pass.old self.new pass.new) }
        ensures cause { IfErr result (λ e. CannotLogMade self.old made e) }
    {
        match with_room(self.alloc, made, 2) {
            Ok((step, mut pages)) => {
                pages.push_reserved(new);
                pages.push_reserved(heap);
                self.log_pages(pass, pages, step)?;
                Ok(())
            }
            Err(error) => {
                self.give_back(pass, new);
                self.give_back(pass, heap);
                Err(error)
            }
        }
    }

    /// Puts a part of a document's vector on a new page, in front of those that are there.
    fn put_part(
        &mut self,
        pass: &mut Pass,
        work: Transaction,
        name: Name,
        part: &[u8],
    ) -> Result<(), DbError>
        requires running { IsRunning D.Disk self.old pass.old work }
        requires place { name.slot < most_slots }
        requires fits { length part.now ≤ most_body }
        requires next { (bytes behind : List ℕ) × (names : List NameValue)
            × IsNextPart bytes behind part.now
            × HasPlaced D.Disk self.old pass.old work.xid (doc_of name) bytes behind names }
        ensures running { IsRunning D.Disk self.new pass.new work }
        ensures goes { OnOk result ((r : Record) × IsPartOf work.xid (doc_of name) r
            × Goes D.Disk self.old self.new (r ∷ [])) }
        ensures put { (bytes behind : List ℕ) (names : List NameValue)
            → IsNextPart bytes behind part.now
            → HasPlaced D.Disk self.old pass.old work.xid (doc_of name) bytes behind names
            → OnOk result (HasPlaced D.Disk self.new pass.new work.xid (doc_of name) bytes
            (part.now ++ behind) names) }
        ensures keeps { KeepsWork pass.old pass.new }
        ensures fault { FaultIsTold D.Disk self.old self.new result }

        // The refusals: it isn't put.
        ensures refused { OnErr result (Goes D.Disk self.old self.new []) }
        ensures cause { IfErr result
            (λ e. CannotPutNew D.Disk (IsPartOf work.xid (doc_of name)) self.old name e) }
        ensures lawful { IfErr result (λ e. MeetsNoBadPage D.Disk self.old e) }
    {
        let (heap, new) = self.hold_with_new(pass, name.page)?;
        let made = part_step(self.alloc, work.xid, name, &heap, &new, part);
        self.log_two(pass, heap, new, made)
    }

    /// Places a document with a vector of these bytes, its head and then the parts of a long one from
    /// the last to the first: its name.
    pub(crate) fn put_document(
        &mut self,
        pass: &mut Pass,
        work: Transaction,
        bytes: &[u8],
    ) -> Result<Name, DbError>
        requires running { IsRunning D.Disk self.old pass.old work }
        requires changed { (c : Commit) × (c.inserted ≡ [])
            × HasChanged D.Disk self.old pass.old work.xid c }
        requires vector { (v : Vector) × IsEncoding bytes.now v }
        ensures running { IsRunning D.Disk self.new pass.new work }
        ensures place { IfOk result (λ n. (n.page < page_limit) × (n.slot < most_slots)) }
        ensures placed { (v : Vector) (c : Commit) → IsEncoding bytes.now v → c.inserted ≡ []
            → HasChanged D.Disk self.old pass.old work.xid c → IfOk result (λ n.
            HasRows D.Disk self.new pass.new work.xid (doc_of n) v [] 0 c.deleted) }
        ensures goes { IfOk result (λ n. (rs : List Record) × ArePut bytes.now work.xid (doc_of n) rs
            × Goes D.Disk self.old self.new rs) }
        ensures keeps { KeepsWork pass.old pass.new }
        ensures fault { FaultIsTold D.Disk self.old self.new result }

        // The refusals: some of its records may be there.
        ensures refused { OnErr result ((d : Doc) × (done rest : List Record)
            × ArePut bytes.now work.xid d (done ++ rest) × Goes D.Disk self.old self.new done) }
        ensures cause { IfErr result (λ e. CannotPut D.Disk self.old work.xid bytes.now e) }
        ensures lawful { IfErr result (λ e. MeetsNoBadPage D.Disk self.old e) }
    {
        let name = self.place_head(pass, work, bytes)?;
        let parts = parts_of(bytes);
        for done in 0..parts {
            self.put_part(pass, work, name, part_at(bytes, parts - 1 - done))?;
        }
        Ok(name)
    }
}
