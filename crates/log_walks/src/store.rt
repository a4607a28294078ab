// The pages that a log leaves: their bytes, and what they show.
use crate::fault::Fault;
use crate::plain::{PlainBody, PlainPage};
use crate::showing::plain_page;
use page_code::{PageError, decode_page};
use page_types::{Change, PAGE_BYTES, PageBytes, Record, apply};
use std::alloc::{AllocError, Global};

/// The bytes of a page as a record leaves it.
#[derive(Drop)]
pub struct LeftBytes {
    /// The page's number.
    pub page: u32,
    /// Its bytes.
    pub bytes: PageBytes,
}

/// A page as a record leaves it.
#[derive(Drop)]
pub struct LeftPage {
    /// Its number.
    pub page: u32,
    /// What it shows.
    pub shown: PlainPage,
}

/// The bytes of the page with this number.
fn find_bytes(all: &[LeftBytes], page: u32) -> Option<&PageBytes> {
    for left in all {
        if left.page == page {
            return Some(&left.bytes);
        }
    }
    None
}

/// What the page with this number shows.
fn find_page(all: &[LeftPage], page: u32) -> Option<&PlainPage> {
    for left in all {
        if left.page == page {
            return Some(&left.shown);
        }
    }
    None
}

/// The place of the page with this number, or that after all.
fn place_in(all: &[LeftBytes], page: u32) -> usize {
    let mut place = 0usize;
    for left in all {
        if left.page == page {
            break;
        }
        place = place.saturating_add(1);
    }
    place
}

/// How many of the rising numbers are below this one.
fn below(all: &[LeftPage], page: u32) -> usize {
    let mut count = 0usize;
    for left in all {
        if left.page < page {
            count = count.saturating_add(1);
        }
    }
    count
}

/// The pages that some record has changed.
#[derive(Drop)]
pub struct Store {
    /// Their bytes.
    bytes: Vec<LeftBytes>,
    /// What they show, by rising numbers.
    pages: Vec<LeftPage>,
}

impl Store {
    /// Of the empty log.
    pub fn new(alloc: Global) -> Store {
        Store {
            bytes: Vec::new(alloc),
            pages: Vec::new(alloc),
        }
    }

    /// The page, unless no record has changed it.
    pub fn page(&self, page: u32) -> Option<&PlainPage> {
        find_page(&self.pages, page)
    }

    /// What is on the page, unless it was deleted or no record has changed it.
    pub fn live(&self, page: u32) -> Option<&PlainBody> {
        self.page(page)?.live()
    }

    /// The page's right link, or 0.
    pub fn right(&self, page: u32) -> u32 {
        match self.page(page) {
            Some(page) => page.right,
            None => 0,
        }
    }

    /// Right links that go in no circle lead to 0 within so many turns: the last page may be an unused one.
    pub fn most_in_line(&self) -> usize {
        self.count().saturating_add(2)
    }

    /// The lowest page that no record has changed.
    pub fn lowest_unused(&self) -> u32 {
        let mut lowest = 0u32;
        for left in &self.pages {
            if left.page == lowest {
                lowest = lowest.saturating_add(1);
            }
        }
        lowest
    }

    /// The page's bytes, unless no record has changed it.
    pub fn bytes(&self, page: u32) -> Option<&PageBytes> {
        find_bytes(&self.bytes, page)
    }

    /// All pages, by rising numbers.
    pub fn pages(&self) -> &[LeftPage] {
        &self.pages
    }

    /// How many pages there are.
    pub fn count(&self) -> usize {
        self.pages.len()
    }

    /// The page's bytes after a change by the record with this number.
    fn changed(&self, alloc: Global, number: u64, change: &Change) -> Result<PageBytes, Fault> {
        let mut bytes = [0u8; PAGE_BYTES];
        if let Some(old) = self.bytes(change.page) {
            bytes.copy_from_slice(old.as_slice());
        }
        if apply(&mut bytes, number, change).is_err() {
            return Err(Fault::Broken("a delta applies to its page"));
        }
        Ok(PageBytes::from_slice(alloc, &bytes)?)
    }

    /// The bytes of the pages after a record, in its order.
    pub fn bytes_behind(&self, alloc: Global, record: &Record) -> Result<Vec<LeftBytes>, Fault> {
        let mut all = Vec::new(alloc);
        for change in record.changes.as_slice() {
            let bytes = self.changed(alloc, record.number, change)?;
            let page = change.page;
            all.push(LeftBytes { page, bytes })?;
        }
        Ok(all)
    }

    /// The page has these bytes from now on.
    fn put_page_bytes(&mut self, left: LeftBytes) -> Result<(), AllocError> {
        let place = place_in(&self.bytes, left.page);
        match self.bytes.get_mut(place) {
            Some(old) => *old = left,
            None => self.bytes.push(left)?,
        }
        Ok(())
    }

    /// The page shows this from now on.
    fn put_page(&mut self, left: LeftPage) -> Result<(), AllocError> {
        let place = below(&self.pages, left.page).min(self.pages.len());
        match self.pages.get_mut(place) {
            Some(old) if old.page == left.page => *old = left,
            _ => self.pages.insert(place, left)?,
        }
        Ok(())
    }

    /// The pages have these bytes from now on.
    pub fn put_bytes(&mut self, all: Vec<LeftBytes>) -> Result<(), AllocError> {
        for left in all {
            self.put_page_bytes(left)?;
        }
        Ok(())
    }

    /// The pages show this from now on.
    pub fn put_pages(&mut self, all: Vec<LeftPage>) -> Result<(), AllocError> {
        for left in all {
            self.put_page(left)?;
        }
        Ok(())
    }

    /// The pages show what their bytes encode from now on.
    pub fn show_all(&mut self, alloc: Global) -> Result<(), Fault> {
        let mut shown = Vec::new(alloc);
        for left in &self.bytes {
            let page = left.page;
            shown.push(LeftPage {
                page,
                shown: page_in(alloc, &left.bytes)?,
            })?;
        }
        Ok(self.put_pages(shown)?)
    }
}

/// The page that the bytes encode.
pub fn page_in(alloc: Global, bytes: &PageBytes) -> Result<PlainPage, Fault> {
    match decode_page(alloc, bytes.as_slice()) {
        Ok(page) => plain_page(alloc, &page),
        Err(PageError::OutOfMemory) => Err(Fault::OutOfMemory),
        Err(PageError::BadPage { .. }) => Err(Fault::Broken(
            "the bytes of a page are its encoding",
        )),
    }
}

/// The page after a change by the record with this number, whose bytes are these.
pub fn left_page(alloc: Global, number: u64, left: &LeftBytes) -> Result<LeftPage, Fault> {
    let page = left.page;
    let shown = page_in(alloc, &left.bytes)?;
    if shown.stamp == number {
        Ok(LeftPage { page, shown })
    } else {
        Err(Fault::Broken("the stamp of a changed page is the record's number"))
    }
}
