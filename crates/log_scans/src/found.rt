// Which items a walk keeps, which it is sure of, and what the snapshot says of that.
use crate::query::{Query, Tri};
use crate::replay::Snapshot;
use crate::scan::{Posting, Scan};
use log_walks::{Doc, PlainRow};
use std::alloc::{AllocError, Global};

/// What a walk has found, each item once, in order.
#[derive(Drop)]
pub struct WalkResult {
    /// The items that it doesn't leave out.
    pub kept: Vec<u32>,
    /// Those of which it says yes without a look at the vector.
    pub yes: Vec<u32>,
}

/// Whether a row of the item was read.
fn is_met(rows: &[&PlainRow], item: u32) -> bool {
    for row in rows {
        if row.item == item {
            return true;
        }
    }
    false
}

/// The keys come after others.
fn push_keys<'a>(all: &mut Vec<&'a [u8]>, keys: &'a [Vec<u8>]) -> Result<(), AllocError> {
    for key in keys {
        all.push(key.as_slice())?;
    }
    Ok(())
}

/// The keys of the rows of the item that were read.
fn row_keys<'a>(
    alloc: Global,
    rows: &[&'a PlainRow],
    item: u32,
) -> Result<Vec<&'a [u8]>, AllocError> {
    let mut all = Vec::new(alloc);
    for row in rows {
        if row.item == item {
            push_keys(&mut all, &row.keys)?;
        }
    }
    Ok(all)
}

/// The keys under which the item was read in the trees.
fn tree_keys<'a>(
    alloc: Global,
    postings: &[Posting<'a>],
    item: u32,
) -> Result<Vec<&'a [u8]>, AllocError> {
    let mut all = Vec::new(alloc);
    for posting in postings {
        if posting.items.contains(&item) {
            all.push(posting.key)?;
        }
    }
    Ok(all)
}

/// An item comes to rising ones, unless it is among them.
fn insert(all: &mut Vec<u32>, item: u32) -> Result<(), AllocError> {
    match all.binary_search(&item) {
        Ok(_) => Ok(()),
        Err(place) => Ok(all.insert(place, item)?),
    }
}

/// The items come to rising ones.
fn insert_all(all: &mut Vec<u32>, items: &[u32]) -> Result<(), AllocError> {
    for item in items {
        insert(all, *item)?;
    }
    Ok(())
}

/// All items that were read, each once, rising.
fn items_of(alloc: Global, scan: &Scan<'_>) -> Result<Vec<u32>, AllocError> {
    let mut items = Vec::new(alloc);
    for row in &scan.rows {
        insert(&mut items, row.item)?;
    }
    for posting in &scan.postings {
        insert_all(&mut items, &posting.items)?;
    }
    Ok(items)
}

/// What was read of an item, by which a query is judged.
#[derive(Drop)]
struct Judging<'a> {
    /// The query.
    query: &'a Query,
    /// The keys of its rows.
    rows: Vec<&'a [u8]>,
    /// The keys under which it is in the trees.
    trees: Vec<&'a [u8]>,
    /// Whether a row of it was read.
    is_met: bool,
    /// Whether it is the document whose rows may begin on a page before the first.
    is_exception: bool,
}

impl Judging<'_> {
    /// What the rows say, an absent key counting as this.
    fn by_rows(&self, alloc: Global, absent: Tri) -> Result<Tri, AllocError> {
        if self.is_met {
            self.query.judge(alloc, &self.rows, absent)
        } else {
            Ok(Tri::False)
        }
    }

    /// What the trees say of the exception, and of what was met there alone; an absent key counts as this.
    fn by_trees(&self, alloc: Global, absent: Tri) -> Result<Tri, AllocError> {
        if self.is_exception || !self.is_met && !self.trees.is_empty() {
            self.query.judge(alloc, &self.trees, absent)
        } else {
            Ok(Tri::False)
        }
    }

    /// Whether it isn't left out.
    fn is_kept(&self, alloc: Global) -> Result<bool, AllocError> {
        let rows = self.by_rows(alloc, Tri::False)?;
        let trees = self.by_trees(alloc, Tri::False)?;
        Ok(rows != Tri::False || trees != Tri::False)
    }

    /// Whether it gets a yes without its vector.
    fn has_yes(&self, alloc: Global) -> Result<bool, AllocError> {
        let absent = if self.is_exception {
            Tri::Maybe
        } else {
            Tri::False
        };
        let rows = self.by_rows(alloc, absent)?;
        let trees = self.by_trees(alloc, Tri::Maybe)?;
        Ok(rows == Tri::True || trees == Tri::True)
    }
}

/// What was read of an item.
fn read_of<'a>(
    alloc: Global,
    query: &'a Query,
    scan: &'a Scan<'a>,
    item: u32,
) -> Result<Judging<'a>, AllocError> {
    let rows = row_keys(alloc, &scan.rows, item)?;
    Ok(Judging {
        query,
        rows,
        trees: tree_keys(alloc, &scan.postings, item)?,
        is_met: is_met(&scan.rows, item),
        is_exception: scan.first == Some(item),
    })
}

impl WalkResult {
    /// One item more, of which this was read.
    fn push(&mut self, alloc: Global, judging: &Judging<'_>, item: u32) -> Result<(), AllocError> {
        if judging.is_kept(alloc)? {
            self.kept.push(item)?;
        }
        if judging.has_yes(alloc)? {
            self.yes.push(item)?;
        }
        Ok(())
    }
}

/// What a walk has found for its query.
pub fn found_in(alloc: Global, query: &Query, scan: &Scan<'_>) -> Result<WalkResult, AllocError> {
    let mut found = WalkResult {
        kept: Vec::new(alloc),
        yes: Vec::new(alloc),
    };
    for item in &items_of(alloc, scan)? {
        let judging = read_of(alloc, query, scan, *item)?;
        found.push(alloc, &judging, *item)?;
    }
    Ok(found)
}

/// Whether a walk says wrongly of a document: it satisfies the query and is left out, or got a yes and doesn't.
fn is_wrong(holds: bool, found: &WalkResult, item: u32) -> bool {
    if holds {
        !found.kept.contains(&item)
    } else {
        found.yes.contains(&item)
    }
}

/// The documents of a snapshot of which a walk says wrongly: they satisfy the query and are left out, or got a yes and
/// don't satisfy it.
pub fn told_wrong(
    alloc: Global,
    query: &Query,
    docs: &[Snapshot],
    found: &WalkResult,
) -> Result<Vec<Doc>, AllocError> {
    let mut wrong = Vec::new(alloc);
    for known in docs {
        let holds = query.holds(alloc, &known.keys)?;
        if is_wrong(holds, found, known.doc.item) {
            wrong.push(known.doc)?;
        }
    }
    Ok(wrong)
}
