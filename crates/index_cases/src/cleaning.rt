// The cleanup of what the list of a device has, and what the trees then have.
ghost use Rattle.std.specs.Prelude.{◌≡◌, ℕ, []};
ghost use Rattle.buffer_frames.specs.Passes.{IsPassOf, IsHolding};
ghost use Rattle.gin_cleanup.specs.Cleaning.{IsCleaning};
ghost use Rattle.index_cases.specs.Working.{Works};

use crate::pages::{Silent, opened, synced};
use crate::refused;
use crate::rows::Row;
use anyhow::Result;
use bench_base::Bench;
use buffer_frames::{FrameError, Frames, Pass};
use disk_trait::{Disk, MemoryDisk};
use gin_cleanup::Cleanup;
use gin_place::PlaceError;
use page_types::{Body, Entries, PAGE_LIMIT, Page, PostingsRef};
use posting_code::Items;
use std::alloc::Global;
use std::result;

/// More pages than a walk over the leaves reads here.
const MOST_READ: u64 = 4096;

/// More steps than a cleanup takes here.
const MOST_STEPS: u64 = 1_000_000;

/// Takes all steps of a cleanup.
fn step_all<D: Disk>(
    alloc: Global,
    frames: &mut Frames<D>,
    pass: &mut Pass,
    cleanup: &mut Cleanup,
) -> result::Result<(), PlaceError>
    requires working { Works frames.old pass.old 16 }
    requires cleaning { (from : ℕ) × IsCleaning D.Disk frames.old pass.old from cleanup.old }
    ensures working { Works frames.new pass.new 16 }
{
    for _ in 0..MOST_STEPS {
        let more = cleanup.step(alloc, frames, pass)?;
        if !more {
            return Ok(());
        }
    }
    Err(PlaceError::OutOfMemory)
}

/// Cleans the pending list, by a pass that has the right of maintenance.
pub(crate) fn clean<D: Disk>(
    alloc: Global,
    frames: &mut Frames<D>,
    pass: &mut Pass,
) -> result::Result<(), PlaceError>
    requires working { Works frames.old pass.old 16 }
    ensures working { Works frames.new pass.new 16 }
{
    let mut cleanup = Cleanup::begin(alloc, frames, pass)?;
    let done = step_all(alloc, frames, pass, &mut cleanup);
    drop(cleanup);
    done
}

/// Whether a key is that of a word, or, where the word is `-`, the placeholder's, or any where it is `*`.
fn is_key_of(key: &[u8], word: &str) -> bool {
    match (key.first(), word) {
        (_, "*") => true,
        (Some(1), "-") => true,
        (Some(0), _) => key.get(1..) == Some(word.as_bytes()),
        _ => false,
    }
}

/// What a page of a tree says for a word.
#[derive(Clone, Copy)]
struct Said {
    /// How many items it has for it.
    items: u64,
    /// The page that is read next: its first child, or the page on its right. 0 where there is none.
    next: u32,
    /// The root of the word's posting tree. 0 where the page names none.
    root: u32,
}

/// The first child of an inner page of a tree; 0 where there is none.
fn child_of(body: &Body) -> u32 {
    match body {
        Body::EntryInner(children) => match children.get(0) {
            Some(child) => child.page,
            None => 0,
        },
        Body::PostInner(children) => match children.get(0) {
            Some(child) => child.page,
            None => 0,
        },
        _ => 0,
    }
}

/// What a page says for a word.
fn read(page: &Page, word: &str) -> Said {
    let child = child_of(&page.body);
    let (items, root) = match &page.body {
        Body::EntryLeaf { entries, .. } => under(entries, word),
        Body::PostLeaf { items, .. } => (count_in(items.as_slice()), 0),
        _ => (0, 0),
    };
    Said {
        items,
        next: if child == 0 { page.right } else { child },
        root,
    }
}

/// How many items are in the entries' lists for a word, and the root of its posting tree, or 0.
fn under(entries: &Entries, word: &str) -> (u64, u32) {
    let mut items: u64 = 0;
    let mut root = 0;
    for k in 0..entries.len() {
        if let Some(entry) = entries.get(k) {
            if is_key_of(entry.key, word) {
                match entry.postings {
                    PostingsRef::Inline(list) => items = items.saturating_add(count_in(list)),
                    PostingsRef::Root(tree) => root = tree,
                }
            }
        }
    }
    (items, root)
}

/// How many items a list has.
fn count_in(list: &[u8]) -> u64 {
    match Items::new(list) {
        Ok(items) => items.len() as u64,
        Err(_) => 0,
    }
}

/// How many items the trees have for a word, and how many pages are read for it: the leftmost way of the tree of keys,
/// and then all leaves, and the same of the word's posting tree.
fn walk<D: Disk>(
    frames: &mut Frames<D>,
    pass: &mut Pass,
    word: &str,
) -> result::Result<(u64, u64), FrameError>
    requires pass { IsPassOf frames.old pass.old }
    requires held { pass.old.held ≡ 0 }
    requires idle { IsHolding D.Disk frames.old pass.old [] }
{
    let mut items: u64 = 0;
    let mut next = 1;
    let mut root = 0;
    for pages in 0..MOST_READ {
        if next == 0 {
            next = root;
            root = 0;
        }
        if next == 0 || next >= PAGE_LIMIT {
            return Ok((items, pages));
        }
        let held = frames.hold(pass, next)?;
        let said = read(held.page(), word);
        frames.release(pass, held);
        items = items.saturating_add(said.items);
        next = said.next;
        root = root.max(said.root);
    }
    Ok((items, MOST_READ))
}

/// The same of the trees of a device; none where they are not read.
pub(crate) fn walk_on(alloc: Global, disk: Silent, word: &str) -> Option<(u64, u64)> {
    match opened(alloc, disk, "") {
        Ok((mut frames, mut pass)) => {
            let walked = walk(&mut frames, &mut pass, word);
            drop(frames);
            walked.ok()
        }
        Err(unopened) => {
            drop(unopened);
            None
        }
    }
}

/// Prints them, for the word of a row and what is synced of a device.
pub(crate) fn run(bench: &Bench<'_>, disk: &MemoryDisk, row: Row<'_>) -> Result<()> {
    let image = synced(bench.alloc(), disk)?;
    let Some((items, pages)) = walk_on(bench.alloc(), image, row.words) else {
        return Err(refused("a page is not held"));
    };
    bench.count(items, row.title)?;
    bench.count(pages, "pages of the tree read")
}
