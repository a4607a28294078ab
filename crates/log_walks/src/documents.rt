// Documents: their heads, their chains and their keys.
use crate::plain::{PlainBody, PlainHead, slots_in};
use crate::store::Store;
use crate::vector::keys_of;
use page_types::MOST_SHORT_BYTES;
use std::alloc::{AllocError, Global};
use std::fmt;

/// A page has so many items.
const ITEMS_OF_A_PAGE: u32 = 2048;

/// A document as a record names it.
#[derive(Clone, Copy, PartialEq)]
pub struct Doc {
    /// The item of its slot.
    pub item: u32,
    /// Its serial.
    pub serial: u64,
}

impl Doc {
    /// The heap page.
    pub fn page(self) -> u32 {
        self.item / ITEMS_OF_A_PAGE
    }

    /// The slot on it.
    pub fn slot(self) -> usize {
        (self.item % ITEMS_OF_A_PAGE) as usize
    }
}

impl fmt::Display for Doc {
    fn fmt<W: fmt::Write>(&self, f: &mut fmt::Formatter<W>) -> fmt::Result {
        let page = self.page();
        let slot = self.slot();
        let serial = self.serial;
        write!(f, "{page}/{slot}#{serial}")
    }
}

/// The item of a slot of a page.
pub fn item_at(page: u32, slot: usize) -> u32 {
    let slot = u32::try_from(slot).unwrap_or(u32::MAX);
    page.saturating_mul(ITEMS_OF_A_PAGE).saturating_add(slot)
}

/// The head in the item's slot.
pub fn head_at(store: &Store, item: u32) -> Option<&PlainHead> {
    let place = Doc { item, serial: 0 };
    slots_in(store.live(place.page()))
        .get(place.slot())?
        .as_ref()
}

/// The document's head.
pub fn head_of(store: &Store, doc: Doc) -> Option<&PlainHead> {
    let head = head_at(store, doc.item)?;
    if head.fields.serial == doc.serial {
        Some(head)
    } else {
        None
    }
}

/// The part of a vector on a live overflow page; of another page no bytes.
fn part_on(store: &Store, page: u32) -> &[u8] {
    match store.live(page) {
        Some(PlainBody::Overflow(part)) => part,
        _ => &[],
    }
}

/// The bytes that are on the overflow pages from the first on; none where these go in a circle.
fn overflow_bytes(alloc: Global, store: &Store, first: u32) -> Result<Option<Vec<u8>>, AllocError> {
    let mut bytes = Vec::new(alloc);
    let mut page = first;
    for _ in 0..store.most_in_line() {
        if page == 0 {
            return Ok(Some(bytes));
        }
        bytes.extend_from_slice(part_on(store, page))?;
        page = store.right(page);
    }
    Ok(None)
}

/// The keys of a vector that has these bytes, and as many as its head says; else none.
fn keys_in_size(
    alloc: Global,
    bytes: &[u8],
    size: u32,
) -> Result<Option<Vec<Vec<u8>>>, AllocError> {
    if bytes.len() == size as usize {
        keys_of(alloc, bytes)
    } else {
        Ok(None)
    }
}

/// The keys of the document with this head, in key order, where it is whole; else none.
pub fn whole_keys(
    alloc: Global,
    store: &Store,
    head: &PlainHead,
) -> Result<Option<Vec<Vec<u8>>>, AllocError> {
    let size = head.fields.bytes;
    if size <= MOST_SHORT_BYTES {
        return keys_in_size(alloc, &head.vector, size);
    }
    match overflow_bytes(alloc, store, head.fields.overflow)? {
        Some(bytes) => keys_in_size(alloc, &bytes, size),
        None => Ok(None),
    }
}
