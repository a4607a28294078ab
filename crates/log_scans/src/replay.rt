// Pages as they were read at moments of a log.
use log_rows::{Step, Terms, left_pages, row};
use log_walks::{
    Doc, Fault, Ledger, LeftBytes, LeftPage, PlainPage, Store, head_of, is_indexed, must, page_in,
    whole_keys,
};
use page_types::{Kind, Record};
use std::alloc::{AllocError, Global};

/// A snapshot, and when it was taken.
#[derive(Clone, Copy)]
pub struct Pin {
    /// It has so many first commits.
    pub commits: u32,
    /// The log had so many records.
    pub length: u64,
}

/// When a page was read.
#[derive(Clone, Copy)]
pub struct Moment {
    /// The log had so many records.
    pub length: u64,
    /// The page.
    pub page: u32,
}

/// With it records are judged as those of a log that keeps no snapshot: by all commits before each, and with pages
/// that were deleted before it.
const NO_PIN: Pin = Pin {
    commits: u32::MAX,
    length: u64::MAX,
};

/// A page as it was read.
#[derive(Drop)]
pub struct Read {
    /// Its number.
    pub page: u32,
    /// What was on it, unless no record had changed it.
    pub left: Option<PlainPage>,
}

/// A document that the snapshot has, and its keys.
#[derive(Drop)]
pub struct Snapshot {
    /// The document.
    pub doc: Doc,
    /// Its keys, in key order.
    pub keys: Vec<Vec<u8>>,
}

/// The pages that were read from a pin, and the documents of its snapshot.
#[derive(Drop)]
pub struct Reading {
    /// The pages, in the order of reading.
    pub reads: Vec<Read>,
    /// The documents.
    pub docs: Vec<Snapshot>,
}

/// A log up to a moment.
#[derive(Drop)]
struct Replay {
    /// What lists are made on.
    alloc: Global,
    /// The pin that its records keep.
    pin: Pin,
    /// The pages.
    store: Store,
    /// The transactions.
    ledger: Ledger,
    /// The documents among the pin's commits.
    docs: Vec<Snapshot>,
}

/// Whether a record of this kind moves items within the index.
fn moves_items(kind: Kind) -> bool {
    matches!(
        kind,
        Kind::Shift
            | Kind::AddItems
            | Kind::MakeTree
            | Kind::AddPostings
            | Kind::GrowRoot
            | Kind::Split
            | Kind::RemoveItems
            | Kind::DeletePost
    )
}

impl Replay {
    /// The empty log, whose records are to keep this pin.
    fn new(alloc: Global, pin: Pin) -> Replay {
        Replay {
            alloc,
            pin,
            store: Store::new(alloc),
            ledger: Ledger::new(alloc),
            docs: Vec::new(alloc),
        }
    }

    /// The number from which on deleted pages may not be taken by a record of this number.
    fn since(&self, number: u64) -> u64 {
        if number > self.pin.length {
            self.pin.length
        } else {
            number
        }
    }

    /// A record that leaves these pages may follow with the pin's commits as floor, and past the pin without a page
    /// that was deleted since.
    fn must_follow(&self, record: &Record, left: &[LeftPage]) -> Result<(), Fault> {
        let terms = Terms {
            floor: self.pin.commits,
            since: self.since(record.number),
            asks_index: true,
        };
        row(&Step {
            alloc: self.alloc,
            store: &self.store,
            ledger: &self.ledger,
            record,
            left,
            terms,
        })
    }

    /// The keys of a document that is whole.
    fn keys_of(&self, doc: Doc) -> Result<Option<Vec<Vec<u8>>>, AllocError> {
        match head_of(&self.store, doc) {
            Some(head) => whole_keys(self.alloc, &self.store, head),
            None => Ok(None),
        }
    }

    /// A document comes to the snapshot.
    fn insert(&mut self, doc: Doc) -> Result<(), AllocError> {
        if let Some(keys) = self.keys_of(doc)? {
            self.docs.push(Snapshot { doc, keys })?;
        }
        Ok(())
    }

    /// The documents that a transaction placed.
    fn placed_by(&self, xid: u32) -> Result<Vec<Doc>, AllocError> {
        match self.ledger.transaction(xid) {
            Some(transaction) => Vec::from_slice(self.alloc, &transaction.placed),
            None => Ok(Vec::new(self.alloc)),
        }
    }

    /// The documents that a transaction marked leave the snapshot.
    fn remove_marked(&mut self, xid: u32) {
        if let Some(transaction) = self.ledger.transaction(xid) {
            let marked = &transaction.marked;
            self.docs.retain(|known| !marked.contains(&known.doc));
        }
    }

    /// A transaction commits: what it deleted leaves the snapshot, what it inserted comes to it.
    fn commit(&mut self, xid: u32) -> Result<(), AllocError> {
        self.remove_marked(xid);
        for doc in &self.placed_by(xid)? {
            self.insert(*doc)?;
        }
        Ok(())
    }

    /// The snapshot with what a record commits.
    fn note_commit(&mut self, record: &Record) -> Result<(), AllocError> {
        match record.kind {
            Kind::Commit { commit } if commit <= self.pin.commits => self.commit(record.xid),
            _ => Ok(()),
        }
    }

    /// The next record comes: what it commits.
    fn note(&mut self, record: &Record) -> Result<(), AllocError> {
        self.note_commit(record)?;
        self.ledger.note(self.alloc, record)
    }

    /// The next record comes, which leaves these pages, where it may follow.
    fn note_left(&mut self, record: &Record, left: &[LeftPage]) -> Result<(), Fault> {
        self.must_follow(record, left)?;
        Ok(self.note(record)?)
    }

    /// The next record comes, which leaves pages with these bytes; the store has what they show.
    fn put(&mut self, record: &Record, bytes: &[LeftBytes]) -> Result<(), Fault> {
        let left = left_pages(self.alloc, record.number, bytes)?;
        self.note_left(record, &left)?;
        Ok(self.store.put_pages(left)?)
    }

    /// The next record comes.
    fn follow(&mut self, record: &Record) -> Result<(), Fault> {
        let bytes = self.store.bytes_behind(self.alloc, record)?;
        self.put(record, &bytes)?;
        Ok(self.store.put_bytes(bytes)?)
    }

    /// The next record comes, which keeps the pin.
    fn keep(&mut self, record: &Record) -> Result<(), Fault> {
        match self.follow(record) {
            Err(Fault::Broken(_)) => Err(Fault::Broken("the log keeps the pin")),
            kept => kept,
        }
    }

    /// The log gets this length, if it is shorter.
    fn go_to(&mut self, records: &[Record], length: u64) -> Result<(), Fault> {
        must(length <= records.len() as u64, "the log is so long")?;
        for record in records {
            if record.number > self.ledger.records && record.number <= length {
                self.keep(record)?;
            }
        }
        Ok(())
    }

    /// What a page shows now.
    fn shown(&self, page: u32) -> Result<Option<PlainPage>, Fault> {
        match self.store.bytes(page) {
            Some(bytes) => Ok(Some(page_in(self.alloc, bytes)?)),
            None => Ok(None),
        }
    }

    /// A page as it is at a moment, which isn't past.
    fn read(&mut self, records: &[Record], moment: Moment) -> Result<Read, Fault> {
        let later = moment.length >= self.ledger.records;
        must(later, "the moments don't go back")?;
        self.go_to(records, moment.length)?;
        Ok(Read {
            page: moment.page,
            left: self.shown(moment.page)?,
        })
    }

    /// The pages as they are at these moments.
    fn read_all(&mut self, records: &[Record], moments: &[Moment]) -> Result<Vec<Read>, Fault> {
        let mut reads = Vec::new(self.alloc);
        for moment in moments {
            reads.push(self.read(records, *moment)?)?;
        }
        Ok(reads)
    }

    /// The log gets the pin's length, within which its commits are.
    fn go_to_pin(&mut self, records: &[Record]) -> Result<(), Fault> {
        self.go_to(records, self.pin.length)?;
        let within = self.pin.commits <= self.ledger.commits;
        must(within, "the pin's commits stand within its length")
    }
}

/// What was read at these moments from a pin: their lengths don't fall, and are at least the pin's; and the log keeps
/// the pin up to the last of them.
pub fn read_moments(
    alloc: Global,
    records: &[Record],
    pin: Pin,
    moments: &[Moment],
) -> Result<Reading, Fault> {
    let mut replay = Replay::new(alloc, pin);
    replay.go_to_pin(records)?;
    let reads = replay.read_all(records, moments)?;
    let docs = replay.docs;
    Ok(Reading { reads, docs })
}

impl Replay {
    /// Each document of the snapshot has its keys in one part of the index: all in linked rows, or all in the main
    /// part.
    fn must_be_indexed(&self) -> Result<(), Fault> {
        for known in &self.docs {
            let indexed = is_indexed(self.alloc, &self.store, &known.keys, known.doc.item)?;
            must(indexed, "the keys of each document are in one part")?;
        }
        Ok(())
    }

    /// The next record comes, after which the documents are still indexed.
    fn extend(&mut self, record: &Record) -> Result<(), Fault> {
        self.follow(record)?;
        if moves_items(record.kind) {
            self.must_be_indexed()?;
        }
        Ok(())
    }

    /// All these records come.
    fn extend_all(&mut self, records: &[Record]) -> Result<(), Fault> {
        for record in records {
            self.extend(record)?;
        }
        self.must_be_indexed()
    }

    /// All pages as they are now.
    fn read_pages(&self) -> Result<Vec<Read>, Fault> {
        let mut reads = Vec::new(self.alloc);
        for left in self.store.pages() {
            reads.push(Read {
                page: left.page,
                left: self.shown(left.page)?,
            })?;
        }
        Ok(reads)
    }
}

/// The pages that a legal log leaves, by rising numbers, and the documents of all its commits. Their keys are in one
/// part of the index, also after each record that moves items within it.
pub fn read_left(alloc: Global, records: &[Record]) -> Result<Reading, Fault> {
    let mut replay = Replay::new(alloc, NO_PIN);
    replay.extend_all(records)?;
    let reads = replay.read_pages()?;
    let docs = replay.docs;
    Ok(Reading { reads, docs })
}
