// Full pages: their bytes, and how long they take to be read and written; and a leaf, whose keys are sought and get an
// item more.
ghost use Rattle.std.specs.Prelude.{◌≡◌, ℕ, List, length, IfSome, Some};
ghost use Rattle.std.specs.List.{slice_get};
ghost use Rattle.page_types.specs.Pages.{IsPage};
ghost use Rattle.page_types.specs.Views.{entries_in};
ghost use Rattle.entry_tree.specs.Adding.{IsEntryLeaf, list_entry};

use anyhow::Result;
use bench_base::{Bench, Figure, numbered};
use entry_tree::{Added, Found, add, find};
use gin_opclass::{KeyClass, key_class};
use page_code::{PageError, decode_page, encode_page};
use page_types::{Body, PAGE_BYTES, Page, PostingsRef};
use std::alloc::{AllocError, Global};

/// How often each page is coded.
const ROUNDS: u32 = 1000;

/// How often a key of the leaf is sought, and an item is added under one.
const TIMES: u32 = 300_000;

/// How many keys the leaf has.
const KEYS: u32 = 300;

/// An item that is in no list of the leaf.
const ITEM: u32 = 100;

/// The front of a heap page of 204 slots, as far as the length of its body.
const HEAP: &[u8] = b"\x02\0\xcc\0\0\0\0\0\x01\0\0\0\0\0\0\0\xe0\x1f";

/// A slot with a head whose vector has eleven bytes.
const SLOT: &str =
    "\x01\x07\0\0\0\0\0\0\0\x01\0\0\0\0\0\0\0\0\0\0\0\0\0\0\0\x0b\0\0\0\x01\0\0\0\x01\0a\x01\0\x01\0";

/// The front of a leaf of 300 keys.
const LEAF: &[u8] = b"\x05\0\x2c\x01\0\0\0\0\x01\0\0\0\0\0\0\0\xe4\x0c";

/// The front of a pending page of 30 rows.
const PENDING: &[u8] = b"\x04\0\x1e\0\0\0\0\0\x01\0\0\0\0\0\0\0\xbc\x07";

/// A row of ten keys.
const ROW: &str = concat!(
    "\0\x10\0\0\x0a\0\x04\0\0aaa\x04\0\0aab\x04\0\0aac\x04\0\0aad\x04\0\0aae",
    "\x04\0\0aaf\x04\0\0aag\x04\0\0aah\x04\0\0aai\x04\0\0aaj",
);

/// The body of the leaf: each key has three digits and two items.
fn leaf_body(alloc: Global) -> Result<String, AllocError> {
    let mut body = String::new(alloc);
    for number in 100..400u32 {
        write!(body, "\x04\0\0{number}\0\x02\0\x10\x20")?;
    }
    Ok(body)
}

/// The page with this front and this body.
fn page_bytes(alloc: Global, front: &[u8], body: &str) -> Result<Vec<u8>, AllocError> {
    let mut bytes = Vec::from_slice(alloc, front)?;
    bytes.resize(24, 0)?;
    bytes.extend_from_slice(body.as_bytes())?;
    bytes.resize(PAGE_BYTES, 0)?;
    Ok(bytes)
}

/// How many slots, entries or rows there are on the page.
fn members(page: &Page) -> usize {
    match &page.body {
        Body::Heap(slots) => slots.len(),
        Body::EntryLeaf { entries, .. } => entries.len(),
        Body::Pending(rows) => rows.len(),
        _ => 0,
    }
}

/// Reads the page again and again, and says how much it has.
fn read_often(alloc: Global, bytes: &[u8]) -> Result<usize, PageError> {
    let mut found = 0;
    for _ in 0..ROUNDS {
        let page = decode_page(alloc, bytes)?;
        found = members(&page);
        drop(page);
    }
    Ok(found)
}

/// How many of the bytes are other than 0.
fn above_zero(bytes: &[u8]) -> usize {
    let mut count = 0usize;
    for byte in bytes {
        count = count.saturating_add(usize::from(*byte != 0));
    }
    count
}

/// Writes the page again and again over the bytes, and says how many of them are other than 0.
fn write_often(page: &Page, bytes: &mut [u8]) -> usize
    requires page { IsPage page.now }
    requires size { length bytes.old ≡ PAGE_BYTES }
{
    for _ in 0..ROUNDS {
        encode_page(page, bytes);
    }
    above_zero(bytes)
}

/// Reads the page again and again.
fn read_page(bench: &Bench<'_>, what: &str, bytes: &[u8]) -> Result<()> {
    let start = bench.start()?;
    let found = read_often(bench.alloc(), bytes)?;
    bench.report(start, found, what, Figure::Each(ROUNDS))
}

/// Writes the page again and again over the bytes.
fn write_over(bench: &Bench<'_>, page: &Page, bytes: &mut [u8]) -> Result<()>
    requires page { IsPage page.now }
    requires size { length bytes.old ≡ PAGE_BYTES }
{
    let start = bench.start()?;
    let found = write_often(page, bytes);
    bench.report(start, found, "bytes above 0 written", Figure::Each(ROUNDS))
}

/// Writes the page of these bytes again and again.
fn write_page(bench: &Bench<'_>, bytes: &[u8]) -> Result<()> {
    let mut out = vec![in bench.alloc(); 0u8; PAGE_BYTES]?;
    let page = decode_page(bench.alloc(), bytes)?;
    let written = write_over(bench, &page, &mut out);
    drop(page);
    written
}

/// Reads and writes a page.
fn code_page(bench: &Bench<'_>, what: &str, front: &[u8], body: &str) -> Result<()> {
    let bytes = page_bytes(bench.alloc(), front, body)?;
    read_page(bench, what, &bytes)?;
    write_page(bench, &bytes)
}

/// The key of the entry of a leaf with this number, where it has a list of its own.
fn key_at(page: &Page, k: usize) -> Option<&[u8]>
    ensures leaf { IfSome result (λ key. IsEntryLeaf page.now.body) }
    ensures list { IfSome result (λ key. (list : List ℕ)
        × (slice_get (entries_in page.now.body) k ≡ Some (list_entry key.now list))) }
{
    let Body::EntryLeaf { entries, .. } = &page.body else {
        return None;
    };
    let entry = entries.get(k)?;
    match entry.postings {
        PostingsRef::Inline(_) => Some(entry.key),
        PostingsRef::Root(_) => None,
    }
}

/// Whether the key of this entry is found at its place.
fn is_found(page: &Page, class: &KeyClass, k: usize) -> bool
    requires { IsPage page.now }
{
    match key_at(page, k) {
        Some(key) => find(page, class, key) == Found::Here { place: k },
        None => false,
    }
}

/// Whether an item more has room under the key of this entry.
fn takes_item(alloc: Global, page: &Page, class: &KeyClass, k: usize) -> Result<bool, AllocError>
    requires { IsPage page.now }
{
    let Some(key) = key_at(page, k) else {
        return Ok(false);
    };
    let added = add(alloc, page, class, key, &[ITEM])?;
    let takes = matches!(added, Added::Done(_));
    drop(added);
    Ok(takes)
}

/// Seeks the keys of a leaf in turn, and says how often one is found.
fn find_keys(page: &Page, class: &KeyClass) -> usize
    requires { IsPage page.now }
{
    let mut found = 0usize;
    for time in 0..TIMES {
        let is_found = is_found(page, class, (time % KEYS) as usize);
        found = found.saturating_add(usize::from(is_found));
    }
    found
}

/// Adds an item under the keys of a leaf in turn, and says how often it has room.
fn add_items(alloc: Global, page: &Page, class: &KeyClass) -> Result<usize, AllocError>
    requires { IsPage page.now }
{
    let mut added = 0usize;
    for time in 0..TIMES {
        let takes = takes_item(alloc, page, class, (time % KEYS) as usize)?;
        added = added.saturating_add(usize::from(takes));
    }
    Ok(added)
}

/// Seeks the keys of a leaf, and adds an item under each.
fn use_page(bench: &Bench<'_>, page: &Page, class: &KeyClass) -> Result<()>
    requires { IsPage page.now }
{
    let start = bench.start()?;
    let found = find_keys(page, class);
    bench.report(start, found, "keys found on a leaf", Figure::Each(TIMES))?;
    let start = bench.start()?;
    let added = add_items(bench.alloc(), page, class)?;
    bench.report(start, added, "items added on it", Figure::Each(TIMES))
}

/// The same of a leaf with this body.
fn use_leaf(bench: &Bench<'_>, body: &str) -> Result<()> {
    let bytes = page_bytes(bench.alloc(), LEAF, body)?;
    let page = decode_page(bench.alloc(), &bytes)?;
    let used = use_page(bench, &page, &key_class());
    drop(page);
    used
}

/// Reads and writes a page with this front, on which a piece is so many times.
fn code_pieces(bench: &Bench<'_>, what: &str, front: &[u8], piece: &str, times: u32) -> Result<()> {
    let body = numbered(bench.alloc(), piece, times)?;
    code_page(bench, what, front, &body)
}

/// Reads and writes a leaf, and uses it.
fn code_leaf(bench: &Bench<'_>) -> Result<()> {
    let body = leaf_body(bench.alloc())?;
    code_page(bench, "keys of a leaf", LEAF, &body)?;
    use_leaf(bench, &body)
}

/// Reads and writes a heap page, a leaf and a pending page.
pub(crate) fn code_pages(bench: &Bench<'_>) -> Result<()> {
    code_pieces(bench, "heads of a heap page", HEAP, SLOT, 204)?;
    code_leaf(bench)?;
    code_pieces(bench, "rows of a pending page", PENDING, ROW, 30)
}
