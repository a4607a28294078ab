// A log as far as it is valid, and whether a record may come after it.
use crate::choices::must_choose;
use crate::images::must_have_images;
use crate::told::{empty_state, must_find, must_tell};
use core_state::State;
use log_rows::{Step, Terms, left_pages, row};
use log_walks::{Doc, Fault, Ledger, LeftBytes, LeftPage, Store, must};
use page_types::{Change, Kind, Record};
use std::alloc::{AllocError, Global};

/// A log as far as it is valid.
#[derive(Drop)]
pub(crate) struct Prefix {
    /// Its pages.
    pub(crate) store: Store,
    /// Its transactions.
    pub(crate) ledger: Ledger,
    /// The core's state.
    state: State,
    /// The page of the last placed head.
    current: Option<u32>,
    /// The pages where a slot was freed, rising.
    freed: Vec<u32>,
}

/// A page comes to rising ones, unless it is among them.
fn insert_page(pages: &mut Vec<u32>, page: u32) -> Result<(), AllocError> {
    match pages.binary_search(&page) {
        Ok(_) => Ok(()),
        Err(place) => Ok(pages.insert(place, page)?),
    }
}

/// The changed pages come to rising ones.
fn insert_changed(pages: &mut Vec<u32>, changes: &[Change]) -> Result<(), AllocError> {
    for change in changes {
        insert_page(pages, change.page)?;
    }
    Ok(())
}

impl Prefix {
    /// The empty log.
    pub(crate) fn new(alloc: Global) -> Prefix {
        Prefix {
            store: Store::new(alloc),
            ledger: Ledger::new(alloc),
            state: empty_state(alloc),
            current: None,
            freed: Vec::new(alloc),
        }
    }

    /// The log is empty again.
    pub(crate) fn clear(&mut self, alloc: Global) {
        *self = Prefix::new(alloc);
    }

    /// A record places a head, or frees slots.
    fn note_heap(&mut self, record: &Record) -> Result<(), AllocError> {
        match record.kind {
            Kind::PlaceHead { item, serial } => self.current = Some(Doc { item, serial }.page()),
            Kind::FreeSlots => insert_changed(&mut self.freed, record.changes.as_slice())?,
            _ => {}
        }
        Ok(())
    }

    /// The pages that a head is tried on, in order.
    fn tried(&self, alloc: Global) -> Result<Vec<u32>, AllocError> {
        let mut pages = Vec::new(alloc);
        if let Some(page) = self.current {
            pages.push(page)?;
        }
        pages.extend_from_slice(&self.freed)?;
        Ok(pages)
    }

    /// The state and the ledger after a valid record.
    fn note(&mut self, alloc: Global, record: &Record) -> Result<(), AllocError> {
        self.ledger.note(alloc, record)?;
        self.state.step(record)?;
        self.note_heap(record)
    }

    /// These records, which are valid, come to the empty log.
    pub(crate) fn know(&mut self, alloc: Global, records: &[Record]) -> Result<(), Fault> {
        for record in records {
            change_bytes(alloc, &mut self.store, record)?;
            self.note(alloc, record)?;
        }
        self.store.show_all(alloc)
    }

    /// The log has begun, or the record makes the store.
    fn must_begin(&self, record: &Record) -> Result<(), Fault> {
        let begins = matches!(record.kind, Kind::Create);
        must(
            begins || self.ledger.records > 0,
            "a log begins with Create",
        )
    }

    /// A record may follow that leaves these pages, with these bytes, and the core finds the same.
    fn must_be_valid(
        &self,
        alloc: Global,
        record: &Record,
        bytes: &[LeftBytes],
        left: &[LeftPage],
        asks_index: bool,
    ) -> Result<(), Fault> {
        let step = Step {
            alloc,
            store: &self.store,
            ledger: &self.ledger,
            record,
            left,
            terms: Terms {
                floor: self.ledger.commits,
                since: record.number,
                asks_index,
            },
        };
        must_find(&self.state, &step, bytes)?;
        row(&step)
    }

    /// A valid record comes that leaves these pages; the core's state then says what the ledger says.
    fn note_left(
        &mut self,
        alloc: Global,
        record: &Record,
        left: &[LeftPage],
    ) -> Result<(), Fault> {
        self.note(alloc, record)?;
        must_tell(&self.state, &self.ledger, record, left)
    }

    /// A record comes that leaves pages with these bytes, where it is valid, and the store has what they show.
    fn put(
        &mut self,
        alloc: Global,
        record: &Record,
        bytes: &[LeftBytes],
        asks_index: bool,
    ) -> Result<(), Fault> {
        let left = left_pages(alloc, record.number, bytes)?;
        self.must_be_valid(alloc, record, bytes, &left, asks_index)?;
        self.note_left(alloc, record, &left)?;
        Ok(self.store.put_pages(left)?)
    }

    /// The core's state after a valid record, which came, says what the walks find.
    fn must_choose(&self, alloc: Global, record: &Record) -> Result<(), Fault> {
        let tried = self.tried(alloc)?;
        must_choose(&self.state, &self.ledger, &self.store, &tried, record)
    }

    /// A record comes, where it is valid, and the store has the bytes of its pages.
    fn extend(&mut self, alloc: Global, record: &Record, asks_index: bool) -> Result<(), Fault> {
        let bytes = self.store.bytes_behind(alloc, record)?;
        self.put(alloc, record, &bytes, asks_index)?;
        Ok(self.store.put_bytes(bytes)?)
    }

    /// One of these records comes after those before it, of which this is the log, where it is valid.
    pub(crate) fn follow(
        &mut self,
        alloc: Global,
        records: &[Record],
        record: &Record,
        asks_index: bool,
    ) -> Result<(), Fault> {
        self.must_begin(record)?;
        must_have_images(alloc, &self.store, self.ledger.redo, records, record)?;
        self.extend(alloc, record, asks_index)?;
        self.must_choose(alloc, record)
    }
}

/// The bytes of the pages that the record changes are those after it from now on.
fn change_bytes(alloc: Global, store: &mut Store, record: &Record) -> Result<(), Fault> {
    let bytes = store.bytes_behind(alloc, record)?;
    Ok(store.put_bytes(bytes)?)
}

/// The same of each of these records.
fn change_all(alloc: Global, store: &mut Store, records: &[Record]) -> Result<(), Fault> {
    for record in records {
        change_bytes(alloc, store, record)?;
    }
    Ok(())
}

/// Whether each delta of the records applies to its page.
pub(crate) fn deltas_apply(alloc: Global, records: &[Record]) -> Result<bool, AllocError> {
    let mut store = Store::new(alloc);
    match change_all(alloc, &mut store, records) {
        Ok(()) => Ok(true),
        Err(Fault::OutOfMemory) => Err(AllocError),
        Err(Fault::Broken(_)) => Ok(false),
    }
}
