// Whether pages that were read are a walk, and what was read on them.
use crate::replay::Read;
use crate::sought::Sought;
use log_walks::{
    META, PlainBody, PlainChild, PlainEntry, PlainPostings, PlainRow, ROOT, entries_in, rows_in,
};
use page_types::PostChild;
use std::alloc::{AllocError, AllocFailed, Global};

/// Why there is no walk.
#[derive(Clone, Copy)]
pub enum NoWalk {
    /// Memory ran out.
    OutOfMemory,
    /// The read with this number, from 1 on, is not of the page that comes next, or is missing, or follows the end.
    At(usize),
}

impl From<AllocError> for NoWalk {
    fn from(_: AllocError) -> Self {
        NoWalk::OutOfMemory
    }
}

impl<T: Drop> From<AllocFailed<T>> for NoWalk {
    fn from(_: AllocFailed<T>) -> Self {
        NoWalk::OutOfMemory
    }
}

/// The items that were read under a key.
#[derive(Drop)]
pub struct Posting<'a> {
    /// The key.
    pub key: &'a [u8],
    /// The items.
    pub items: Vec<u32>,
}

/// What a walk has read.
#[derive(Drop)]
pub struct Scan<'a> {
    /// The rows on the pending pages, in order.
    pub rows: Vec<&'a PlainRow>,
    /// The item of the first row on the first of these pages.
    pub first: Option<u32>,
    /// Under the keys that were sought: what was in a leaf, or in a posting tree.
    pub postings: Vec<Posting<'a>>,
}

/// How pages are read.
#[derive(Clone, Copy)]
enum Order {
    /// One after another.
    InTurn,
    /// Each when it is wanted, of all pages as they are at one moment.
    Wanted,
}

/// Pages, of which a walk takes one after another.
#[derive(Drop)]
struct Steps<'a> {
    /// What lists are made on.
    alloc: Global,
    /// The pages.
    reads: &'a [Read],
    /// How they are read.
    order: Order,
    /// So many were taken.
    taken: usize,
}

/// The page with this number.
fn find(reads: &[Read], page: u32) -> Option<&Read> {
    for read in reads {
        if read.page == page {
            return Some(read);
        }
    }
    None
}

/// What is on a page that is live.
fn live(read: &Read) -> Option<&PlainBody> {
    read.left.as_ref()?.live()
}

/// The page's right link.
fn right(read: &Read) -> u32 {
    match &read.left {
        Some(page) => page.right,
        None => 0,
    }
}

/// The metapage's first pending page, or 0.
fn first_pending(read: &Read) -> u32 {
    match live(read) {
        Some(PlainBody::Meta { first, .. }) => *first,
        _ => 0,
    }
}

/// The rows of a pending page, which keeps them when it is deleted.
fn rows(read: &Read) -> &[PlainRow] {
    match &read.left {
        Some(page) => rows_in(Some(&page.body)),
        None => &[],
    }
}

/// The item of the first row on the first of these pages.
fn first_item(pages: &[&Read]) -> Option<u32> {
    let read = pages.first()?;
    Some(rows(read).first()?.item)
}

/// Whether a key may be where this is the bound; no bytes: there is none.
fn is_within(key: &[u8], bound: &[u8]) -> bool {
    bound.is_empty() || key <= bound
}

/// The child for a key, or the right link where the key is past all bounds.
fn child_for(key: &[u8], children: &[PlainChild], right: u32) -> u32 {
    for child in children {
        if is_within(key, &child.bound) {
            return child.page;
        }
    }
    right
}

/// The page that comes next on the way to a key's leaf; 0 at that leaf.
fn toward(key: &[u8], read: &Read) -> u32 {
    match live(read) {
        Some(PlainBody::EntryInner(children)) => child_for(key, children, right(read)),
        Some(PlainBody::EntryLeaf { high, .. }) if !is_within(key, high) => right(read),
        _ => 0,
    }
}

/// The first of the children, or 0.
fn first_child(children: &[PostChild]) -> u32 {
    match children.first() {
        Some(child) => child.page,
        None => 0,
    }
}

/// The page that comes next in a posting tree: the first child, or the right link of a leaf, also of a deleted page.
fn along(read: &Read) -> u32 {
    match live(read) {
        Some(PlainBody::PostInner(children)) => first_child(children),
        Some(PlainBody::PostLeaf { .. }) | None => right(read),
        Some(_) => 0,
    }
}

/// The leaf where more keys may be found, or 0.
fn beyond(sought: Sought<'_>, read: &Read) -> u32 {
    match live(read) {
        Some(PlainBody::EntryLeaf { high, .. }) if sought.goes_beyond(high) => right(read),
        _ => 0,
    }
}

/// The items of a posting leaf; of another page none.
fn items(read: &Read) -> &[u32] {
    match live(read) {
        Some(PlainBody::PostLeaf { items, .. }) => items,
        _ => &[],
    }
}

/// Where pages lead.
#[derive(Clone, Copy)]
enum Way {
    /// By their right links.
    Right,
    /// In a posting tree.
    Along,
}

impl Way {
    /// The page that comes next, or 0.
    fn next(self, read: &Read) -> u32 {
        match self {
            Way::Right => right(read),
            Way::Along => along(read),
        }
    }
}

impl<'a> Steps<'a> {
    /// The page that is read next.
    fn next(&self, page: u32) -> Option<&'a Read> {
        match self.order {
            Order::InTurn => self.reads.get(self.taken),
            Order::Wanted => find(self.reads, page),
        }
    }

    /// The next read, which has to be of this page.
    fn take(&mut self, page: u32) -> Result<&'a Read, NoWalk> {
        let number = self.taken.saturating_add(1);
        match self.next(page) {
            Some(read) if read.page == page => {
                self.taken = number;
                Ok(read)
            }
            _ => Err(NoWalk::At(number)),
        }
    }

    /// Whether all that was to be read was taken.
    fn has_ended(&self) -> bool {
        match self.order {
            Order::InTurn => self.taken == self.reads.len(),
            Order::Wanted => true,
        }
    }

    /// Nothing was read after.
    fn end(&self) -> Result<(), NoWalk> {
        if self.has_ended() {
            Ok(())
        } else {
            Err(NoWalk::At(self.taken.saturating_add(1)))
        }
    }

    /// The pages from this one on, each of which leads to the next, up to 0.
    fn follow(&mut self, first: u32, way: Way) -> Result<Vec<&'a Read>, NoWalk> {
        let mut all = Vec::new(self.alloc);
        let mut page = first;
        // Each turn takes a read, or there is none.
        for _ in 0..=self.reads.len() {
            if page == 0 {
                break;
            }
            let read = self.take(page)?;
            all.push(read)?;
            page = way.next(read);
        }
        Ok(all)
    }

    /// The items of a posting tree, whose pages are read then.
    fn tree_items(&mut self, root: u32) -> Result<Vec<u32>, NoWalk> {
        let mut all = Vec::new(self.alloc);
        for read in &self.follow(root, Way::Along)? {
            all.extend_from_slice(items(read))?;
        }
        Ok(all)
    }

    /// The items of an entry: in it, or on the pages of its posting tree, which are read then.
    fn items_of(&mut self, entry: &PlainEntry) -> Result<Vec<u32>, NoWalk> {
        match &entry.postings {
            PlainPostings::Inline(items) => Ok(Vec::from_slice(self.alloc, items)?),
            PlainPostings::Root(root) => self.tree_items(*root),
        }
    }

    /// The entries of a leaf that are sought.
    fn leaf(
        &mut self,
        sought: Sought<'_>,
        leaf: &'a Read,
        postings: &mut Vec<Posting<'a>>,
    ) -> Result<(), NoWalk> {
        for entry in entries_in(live(leaf)) {
            if sought.fits(&entry.key) {
                let items = self.items_of(entry)?;
                let key = entry.key.as_slice();
                postings.push(Posting { key, items })?;
            }
        }
        Ok(())
    }

    /// From the root of the tree of keys to the leaf where the sought ones begin.
    fn down(&mut self, sought: Sought<'_>) -> Result<&'a Read, NoWalk> {
        let mut page = ROOT;
        for _ in 0..self.reads.len() {
            let read = self.take(page)?;
            page = toward(sought.first(), read);
            if page == 0 {
                return Ok(read);
            }
        }
        Err(NoWalk::At(self.taken.saturating_add(1)))
    }

    /// All leaves for what is sought.
    fn leaves(
        &mut self,
        sought: Sought<'_>,
        postings: &mut Vec<Posting<'a>>,
    ) -> Result<(), NoWalk> {
        let mut leaf = self.down(sought)?;
        // Each turn has a leaf that was read.
        for _ in 0..self.reads.len() {
            self.leaf(sought, leaf, postings)?;
            let page = beyond(sought, leaf);
            if page == 0 {
                break;
            }
            leaf = self.take(page)?;
        }
        Ok(())
    }
}

/// The rows on these pages, in order.
fn all_rows<'a>(alloc: Global, pages: &[&'a Read]) -> Result<Vec<&'a PlainRow>, AllocError> {
    let mut all = Vec::new(alloc);
    for read in pages {
        for row in rows(read) {
            all.push(row)?;
        }
    }
    Ok(all)
}

impl<'a> Steps<'a> {
    /// The pending pages, after the metapage.
    fn pending(&mut self) -> Result<Vec<&'a Read>, NoWalk> {
        let meta = self.take(META)?;
        self.follow(first_pending(meta), Way::Right)
    }

    /// What was read under the keys that are sought, one after another, and nothing else after them.
    fn all_leaves(&mut self, all: &[Sought<'_>]) -> Result<Vec<Posting<'a>>, NoWalk> {
        let mut postings = Vec::new(self.alloc);
        for sought in all {
            self.leaves(*sought, &mut postings)?;
        }
        self.end()?;
        Ok(postings)
    }
}

impl<'a> Steps<'a> {
    /// What is read: the metapage, the pending pages, and then the leaves for all that is sought, one after another,
    /// with their posting trees.
    fn walk(&mut self, all: &[Sought<'_>]) -> Result<Scan<'a>, NoWalk> {
        let pending = self.pending()?;
        let postings = self.all_leaves(all)?;
        Ok(Scan {
            rows: all_rows(self.alloc, &pending)?,
            first: first_item(&pending),
            postings,
        })
    }
}

/// What was read, where that is a walk: the metapage, the pending pages, and then the leaves for all that is sought,
/// one after another, with their posting trees.
pub fn scan_pages<'a>(
    alloc: Global,
    reads: &'a [Read],
    all: &[Sought<'_>],
) -> Result<Scan<'a>, NoWalk> {
    let mut steps = Steps {
        alloc,
        reads,
        order: Order::InTurn,
        taken: 0,
    };
    steps.walk(all)
}

/// What a walk reads on all pages, as they are at one moment.
pub fn scan_left<'a>(
    alloc: Global,
    pages: &'a [Read],
    all: &[Sought<'_>],
) -> Result<Scan<'a>, NoWalk> {
    let mut steps = Steps {
        alloc,
        reads: pages,
        order: Order::Wanted,
        taken: 0,
    };
    steps.walk(all)
}
