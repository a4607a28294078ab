// The logs that a state follows.
use core_state::{State, XID_BOUND};
use page_types::{Bytes, Change, Changes, Edit, Kind, Record};
use std::alloc::{AllocError, Global};

/// How many pages the store may have.
const PAGES: u32 = 1_048_576;

/// The first item of the first heap page.
pub(crate) const ITEM: u32 = 4096;

/// The bytes of a full body.
const FULL: usize = 8168;

/// A state with the records by which it goes on.
#[derive(Drop)]
pub(crate) struct Follower {
    /// The state.
    pub(crate) state: State,
    /// A record that changes no page.
    bare: Record,
    /// A record that changes a heap page.
    placing: Record,
}

/// The state of a log without records.
pub(crate) fn empty(alloc: Global) -> State {
    State::new(alloc, PAGES, XID_BOUND)
}

/// A record with these changes, of which all else is written later.
fn record(changes: Changes) -> Record {
    Record {
        number: 0,
        xid: 0,
        kind: Kind::Begin,
        changes,
    }
}

/// A record that gives a page this first byte and puts bytes there.
fn record_on(alloc: Global, page: u32, first: u8, bytes: &[u8]) -> Result<Record, AllocError> {
    let edit = Edit::Delta {
        front: [first, 0, 0, 0, 0, 0, 0, 0],
        start: 0,
        cut: 0,
        bytes: Bytes::from_slice(alloc, bytes)?,
    };
    let mut changes = Changes::new(alloc);
    changes.push(Change { page, edit })?;
    Ok(record(changes))
}

/// The state goes on by a record, which becomes the next one, of this transaction and kind.
fn step(state: &mut State, record: &mut Record, xid: u32, kind: Kind) -> Result<(), AllocError> {
    record.number = state.length().wrapping_add(1);
    record.xid = xid;
    record.kind = kind;
    state.step(record)
}

impl Follower {
    /// The state of a log without records.
    pub(crate) fn new(alloc: Global) -> Result<Follower, AllocError> {
        let placing = record_on(alloc, 2, 2, &[])?;
        Ok(Follower {
            state: empty(alloc),
            bare: record(Changes::new(alloc)),
            placing,
        })
    }

    /// A transaction begins, aborts, or commits.
    fn turn(&mut self, xid: u32, kind: Kind) -> Result<(), AllocError> {
        step(&mut self.state, &mut self.bare, xid, kind)
    }

    /// A transaction begins, and places the next document.
    fn begin(&mut self, xid: u32) -> Result<(), AllocError> {
        self.turn(xid, Kind::Begin)?;
        let item = ITEM.wrapping_add(xid);
        let serial = self.state.next_serial();
        let kind = Kind::PlaceHead { item, serial };
        step(&mut self.state, &mut self.placing, xid, kind)
    }

    /// A transaction marks the document that it placed.
    fn mark(&mut self, xid: u32) -> Result<(), AllocError> {
        let item = ITEM.wrapping_add(xid);
        let serial = u64::from(xid);
        let kind = Kind::MarkDeleted { item, serial };
        step(&mut self.state, &mut self.placing, xid, kind)
    }

    /// A transaction commits.
    fn commit(&mut self, xid: u32) -> Result<(), AllocError> {
        let commit = self.state.commits().wrapping_add(1);
        self.turn(xid, Kind::Commit { commit })
    }
}

/// So many transactions, one after another, each with a document.
pub(crate) fn follow_documents(follower: &mut Follower, count: u32) -> Result<(), AllocError> {
    for n in 0..count {
        let xid = n.wrapping_add(1);
        follower.begin(xid)?;
        follower.commit(xid)?;
    }
    Ok(())
}

/// A running transaction marks its document; then a third of them commits, a third aborts, and a
/// third runs on.
fn go_on(follower: &mut Follower, xid: u32) -> Result<(), AllocError> {
    follower.mark(xid)?;
    match xid % 3 {
        0 => follower.commit(xid),
        1 => follower.turn(xid, Kind::Abort),
        _ => Ok(()),
    }
}

/// So many transactions begin; then they go on, the last one first; then all are ended that run on.
pub(crate) fn follow_runners(follower: &mut Follower, count: u32) -> Result<(), AllocError> {
    for n in 0..count {
        follower.begin(n.wrapping_add(1))?;
    }
    for n in 0..count {
        go_on(follower, count.wrapping_sub(n))?;
    }
    follower.turn(0, Kind::Abort)
}

/// The state goes on by a record of this kind, and of no transaction, that gives a page this first byte and puts bytes
/// there.
fn step_on(
    alloc: Global,
    state: &mut State,
    page: u32,
    first: u8,
    bytes: &[u8],
    kind: Kind,
) -> Result<(), AllocError> {
    let mut record = record_on(alloc, page, first, bytes)?;
    step(state, &mut record, 0, kind)
}

/// The state goes on by records that delete so many pages, the last page first.
pub(crate) fn delete_pages(alloc: Global, state: &mut State, pages: u32) -> Result<(), AllocError> {
    for n in 0..pages {
        step_on(alloc, state, pages.wrapping_sub(n), 9, &[], Kind::Shift)?;
    }
    Ok(())
}

/// The state goes on by records that free slots of so many heap pages, which fill all of them but the last one.
pub(crate) fn fill_pages(alloc: Global, state: &mut State, pages: u32) -> Result<(), AllocError> {
    let body = vec![in alloc; 0u8; FULL]?;
    let last = pages.saturating_add(1);
    for page in 2..last {
        step_on(alloc, state, page, 2, &body, Kind::FreeSlots)?;
    }
    step_on(alloc, state, last, 2, &[], Kind::FreeSlots)
}
