// What the records of a log say of transactions, apart from pages.
use crate::documents::Doc;
use page_types::{Kind, Record};
use std::alloc::{AllocError, Global};

/// What became of a transaction.
#[derive(Clone, Copy, PartialEq)]
pub enum Fate {
    /// Its xid was not drawn.
    Unused,
    /// It began.
    Running,
    /// It ended without effect.
    Aborted,
    /// It ended as this commit.
    Committed(u32),
}

/// A transaction that has begun.
#[derive(Drop)]
pub struct Transaction {
    /// What became of it.
    pub fate: Fate,
    /// The documents that it placed, in order.
    pub placed: Vec<Doc>,
    /// The documents that it marked deleted, in order.
    pub marked: Vec<Doc>,
}

impl Transaction {
    /// It placed the document.
    fn place(&mut self, doc: Doc) -> Result<(), AllocError> {
        Ok(self.placed.push(doc)?)
    }

    /// It marked the document deleted.
    fn mark(&mut self, doc: Doc) -> Result<(), AllocError> {
        Ok(self.marked.push(doc)?)
    }

    /// Whether its end makes the document dead, where the first `floor` commits count.
    fn ends_life(&self, doc: Doc, floor: u32) -> bool {
        match self.fate {
            Fate::Aborted => self.placed.contains(&doc),
            Fate::Committed(commit) => commit <= floor && self.marked.contains(&doc),
            _ => false,
        }
    }
}

/// The transactions of a log, and the numbers that come next.
#[derive(Drop)]
pub struct Ledger {
    /// The transactions: that with xid 1 first.
    pub transactions: Vec<Transaction>,
    /// How many records there are.
    pub records: u64,
    /// How many commits there are.
    pub commits: u32,
    /// The serial of the next document.
    pub next_serial: u64,
    /// The redo number of the last checkpoint, or 1.
    pub redo: u64,
}

/// The place of an xid in the list of transactions.
fn place_of(xid: u32) -> Option<usize> {
    let place = xid.checked_sub(1)?;
    Some(place as usize)
}

impl Ledger {
    /// Of the empty log.
    pub fn new(alloc: Global) -> Ledger {
        Ledger {
            transactions: Vec::new(alloc),
            records: 0,
            commits: 0,
            next_serial: 1,
            redo: 1,
        }
    }

    /// The xid of the next transaction.
    pub fn next_xid(&self) -> usize {
        self.transactions.len().saturating_add(1)
    }

    /// The transaction with this xid.
    pub fn transaction(&self, xid: u32) -> Option<&Transaction> {
        self.transactions.get(place_of(xid)?)
    }

    /// What became of the transaction with this xid.
    pub fn fate(&self, xid: u32) -> Fate {
        match self.transaction(xid) {
            None => Fate::Unused,
            Some(transaction) => transaction.fate,
        }
    }

    /// Whether the document is dead: the transaction that placed it was aborted, or one that marked it is among the
    /// first `floor` commits.
    pub fn is_dead(&self, doc: Doc, floor: u32) -> bool {
        for transaction in &self.transactions {
            if transaction.ends_life(doc, floor) {
                return true;
            }
        }
        false
    }

    /// The transaction with this xid.
    fn transaction_mut(&mut self, xid: u32) -> Option<&mut Transaction> {
        self.transactions.get_mut(place_of(xid)?)
    }

    /// The transaction with this xid ends so.
    fn end(&mut self, xid: u32, fate: Fate) {
        if let Some(transaction) = self.transaction_mut(xid) {
            transaction.fate = fate;
        }
    }

    /// Each transaction that runs is aborted.
    fn abort_all(&mut self) {
        for transaction in self.transactions.iter_mut() {
            if transaction.fate == Fate::Running {
                transaction.fate = Fate::Aborted;
            }
        }
    }

    /// One transaction more, which runs.
    fn begin(&mut self, alloc: Global) -> Result<(), AllocError> {
        self.transactions.push(Transaction {
            fate: Fate::Running,
            placed: Vec::new(alloc),
            marked: Vec::new(alloc),
        })?;
        Ok(())
    }

    /// The transaction placed the document.
    fn place(&mut self, xid: u32, doc: Doc) -> Result<(), AllocError> {
        self.next_serial = self.next_serial.saturating_add(1);
        match self.transaction_mut(xid) {
            Some(transaction) => transaction.place(doc),
            None => Ok(()),
        }
    }

    /// The transaction marked the document deleted.
    fn mark(&mut self, xid: u32, doc: Doc) -> Result<(), AllocError> {
        match self.transaction_mut(xid) {
            Some(transaction) => transaction.mark(doc),
            None => Ok(()),
        }
    }

    /// The transaction commits.
    fn commit(&mut self, xid: u32, commit: u32) {
        self.commits = self.commits.saturating_add(1);
        self.end(xid, Fate::Committed(commit));
    }

    /// The transaction is aborted; with the xid 0 each that runs.
    fn abort(&mut self, xid: u32) {
        if xid == 0 {
            self.abort_all();
        } else {
            self.end(xid, Fate::Aborted);
        }
    }

    /// What a valid record says of its transaction.
    fn note_kind(&mut self, alloc: Global, xid: u32, kind: Kind) -> Result<(), AllocError> {
        match kind {
            Kind::Begin => return self.begin(alloc),
            Kind::Commit { commit } => self.commit(xid, commit),
            Kind::Abort => self.abort(xid),
            Kind::Checkpoint { redo } => self.redo = redo,
            Kind::PlaceHead { item, serial } => return self.place(xid, Doc { item, serial }),
            Kind::MarkDeleted { item, serial } => return self.mark(xid, Doc { item, serial }),
            _ => {}
        }
        Ok(())
    }

    /// The ledger with a valid record more.
    pub fn note(&mut self, alloc: Global, record: &Record) -> Result<(), AllocError> {
        self.records = self.records.saturating_add(1);
        self.note_kind(alloc, record.xid, record.kind)
    }
}
