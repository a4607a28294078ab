// The heap pages on which this run freed a slot, with the lengths of all pages' bodies.
ghost use Rattle.std.specs.Prelude.{◌≡◌, ◌≢◌, ℕ, List, ◌+◌, ◌<◌, ◌≤◌, ◌^◌, [], ◌∷◌, All, length, get_or, OnOk, IsOk};
ghost use Rattle.std.specs.Prelude.{IfSome};
ghost use Rattle.std.specs.Vec.{vec_capacity};
ghost use Rattle.std.specs.List.{slice_get};
ghost use Rattle.page_types.specs.Numbers.{page_limit};
ghost use Rattle.core_state.specs.States.{put_at, sizes_after, with_page, with_pages};
ghost use Rattle.core_state.specs.Log.{In, pages_of};
ghost use Rattle.core_state.specs.PageChoice.{IsLeastIfAny};
ghost use Rattle.core_state.specs.Inner.Rising.{AreRising};
ghost use Rattle.core_state.specs.Inner.PageRooms.{room_rank, AreRooms, HasRoomIn};

use crate::heaps::page_at;
use crate::peaks::Peaks;
use crate::sizes::{put_size, size_after, size_at};
use page_types::{Change, PAGE_LIMIT};
use std::alloc::{AllocError, Global};
use std::marker::Model;

/// A page whose body has at most so many bytes, less those that are asked for, has room: a body has
/// 8168 at most, and a free slot of one byte gives way to a head.
pub(crate) const ROOM: u64 = 8169;

/// The rank of an empty body.
const TOP_RANK: u64 = 65536;

/// Heap pages, rising, and the lengths of all pages' bodies, under a tree by which pages with room
/// are found fast.
#[derive(Drop)]
pub(crate) struct FreedPages {
    alloc: Global,
    pages: Vec<u32>,
    sizes: Vec<u16>,
    rooms: Peaks,
}

impl Model for FreedPages {
    ghost use Rattle.std.specs.Prelude.{min, length};
    ghost use Rattle.std.specs.Vec.{vec_capacity};
    ghost use Rattle.core_state.specs.Inner.Rising.{AreRising};
    ghost use Rattle.core_state.specs.Inner.PageRooms.{AreRooms, FreedValue};

    ghost Value = { FreedValue };

    ghost view = { λ f. record {
      pages = f.pages.items;
      sizes = f.sizes.items;
      most = vec_capacity f.pages;
      ends = min (vec_capacity f.sizes) (length f.rooms);
    } };

    ghost invariant = { λ f. AreRising f.pages.items
        × AreRooms f.pages.items f.sizes.items f.rooms };
}

/// One page more among rising ones.
pub(crate) fn note_page(freed: &mut Vec<u32>, page: u32)
    requires rising { AreRising freed.old.items }
    requires room { length freed.old.items < vec_capacity freed.old }
    ensures pages { freed.new.items ≡ with_page page freed.old.items }
    ensures rising { AreRising freed.new.items }
    ensures room { vec_capacity freed.new ≡ vec_capacity freed.old }
    ensures more { length freed.new.items ≤ length freed.old.items + 1 }
{
    match freed.binary_search(&page) {
        Ok(_) => {}
        Err(place) => {
            let _ = freed.insert(place, page);
        }
    }
}

/// The rank of a page whose body has this length.
fn rank_of(size: u16) -> u64
    ensures { result ≡ room_rank size }
{
    TOP_RANK - u64::from(size)
}

/// Another rank of one page.
fn set_rank(rooms: &mut Peaks, page: usize, size: u16)
    requires { page < length rooms.old }
    ensures here { get_or rooms.new page 0 ≡ room_rank size }
    ensures others { (q : ℕ) → q ≢ page → get_or rooms.new q 0 ≡ get_or rooms.old q 0 }
    ensures size { length rooms.new ≡ length rooms.old }
{
    rooms.set(page, rank_of(size));
}

/// Another rank of one page, where it has one.
fn note_rank(rooms: &mut Peaks, page: usize, size: u16)
    ensures ranked { 0 < get_or rooms.old page 0 → get_or rooms.new page 0 ≡ room_rank size }
    ensures none { get_or rooms.old page 0 ≡ 0 → get_or rooms.new page 0 ≡ 0 }
    ensures others { (q : ℕ) → q ≢ page → get_or rooms.new q 0 ≡ get_or rooms.old q 0 }
    ensures size { length rooms.new ≡ length rooms.old }
{
    if page < rooms.len() && rooms.at(page) > 0 {
        set_rank(rooms, page, size);
    }
}

/// Another length of one page's body, with its rank.
#[tactic(auto, using(crate::proofs::PageRooms::rooms_sized))]
fn note_size(sizes: &mut Vec<u16>, rooms: &mut Peaks, page: usize, size: u16)
    requires small { page < page_limit }
    requires room_before { page < vec_capacity sizes.old }
    ensures items { sizes.new.items ≡ put_at 0 page size sizes.old.items }
    ensures rooms { (ps : List ℕ) → AreRooms ps sizes.old.items rooms.old
        → AreRooms ps sizes.new.items rooms.new }
    ensures room { vec_capacity sizes.new ≡ vec_capacity sizes.old }
    ensures size { length rooms.new ≡ length rooms.old }
{
    put_size(sizes, page, size);
    note_rank(rooms, page, size);
}

/// The lengths after one change, with the ranks.
fn note_change(sizes: &mut Vec<u16>, rooms: &mut Peaks, change: &Change)
    requires { change.now.page < page_limit → change.now.page < vec_capacity sizes.old }
    ensures items { sizes.new.items ≡ sizes_after (change.now ∷ []) sizes.old.items }
    ensures rooms { (ps : List ℕ) → AreRooms ps sizes.old.items rooms.old
        → AreRooms ps sizes.new.items rooms.new }
    ensures room { vec_capacity sizes.new ≡ vec_capacity sizes.old }
    ensures size { length rooms.new ≡ length rooms.old }
{
    if change.page < PAGE_LIMIT {
        let size = size_after(&change.edit, size_at(sizes, change.page));
        note_size(sizes, rooms, change.page as usize, size);
    }
}

/// The lengths after changes, with the ranks, for which there is room.
fn note_changes(sizes: &mut Vec<u16>, rooms: &mut Peaks, changes: &[Change])
    requires { All (λ c. c.page < page_limit → c.page < vec_capacity sizes.old) changes.now }
    ensures items { sizes.new.items ≡ sizes_after changes.now sizes.old.items }
    ensures rooms { (ps : List ℕ) → AreRooms ps sizes.old.items rooms.old
        → AreRooms ps sizes.new.items rooms.new }
    ensures room { vec_capacity sizes.new ≡ vec_capacity sizes.old }
    ensures size { length rooms.new ≡ length rooms.old }
{
    for change in changes {
        note_change(sizes, rooms, change);
    }
}

/// One page more, with its rank.
fn note_freed(pages: &mut Vec<u32>, sizes: &[u16], rooms: &mut Peaks, page: u32)
    requires rising { AreRising pages.old.items }
    requires room_before { length pages.old.items < vec_capacity pages.old }
    requires place { page < length rooms.old }
    requires rooms_before { AreRooms pages.old.items sizes.now rooms.old }
    ensures pages { pages.new.items ≡ with_page page pages.old.items }
    ensures rising { AreRising pages.new.items }
    ensures rooms { AreRooms pages.new.items sizes.now rooms.new }
    ensures room { vec_capacity pages.new ≡ vec_capacity pages.old }
    ensures more { length pages.new.items ≤ length pages.old.items + 1 }
    ensures size { length rooms.new ≡ length rooms.old }
{
    note_page(pages, page);
    set_rank(rooms, page as usize, size_at(sizes, page));
}

/// The page of one change more, unless it is no page.
fn free_change(pages: &mut Vec<u32>, sizes: &[u16], rooms: &mut Peaks, page: u32)
    requires rising { AreRising pages.old.items }
    requires room_before { length pages.old.items < vec_capacity pages.old }
    requires place { page < page_limit → page < length rooms.old }
    requires rooms_before { AreRooms pages.old.items sizes.now rooms.old }
    ensures pages { pages.new.items ≡ with_pages (page ∷ []) pages.old.items }
    ensures rising { AreRising pages.new.items }
    ensures rooms { AreRooms pages.new.items sizes.now rooms.new }
    ensures room { vec_capacity pages.new ≡ vec_capacity pages.old }
    ensures more { length pages.new.items ≤ length pages.old.items + 1 }
    ensures size { length rooms.new ≡ length rooms.old }
{
    if page < PAGE_LIMIT {
        note_freed(pages, sizes, rooms, page);
    }
}

/// The pages of changes more.
fn free_changes(pages: &mut Vec<u32>, sizes: &[u16], rooms: &mut Peaks, changes: &[Change])
    requires rising { AreRising pages.old.items }
    requires room_before { length pages.old.items + length changes.now ≤ vec_capacity pages.old }
    requires places { All (λ c. c.page < page_limit → c.page < length rooms.old) changes.now }
    requires rooms_before { AreRooms pages.old.items sizes.now rooms.old }
    ensures pages { pages.new.items ≡ with_pages (pages_of changes.now) pages.old.items }
    ensures rising { AreRising pages.new.items }
    ensures rooms { AreRooms pages.new.items sizes.now rooms.new }
    ensures room { vec_capacity pages.new ≡ vec_capacity pages.old }
    ensures size { length rooms.new ≡ length rooms.old }
{
    for change in changes {
        free_change(pages, sizes, rooms, change.page);
    }
}

/// The place of a page that is there.
fn place_of(pages: &[u32], page: u32) -> usize
    requires rising { AreRising pages.now }
    requires there { In page pages.now }
    ensures within { result < length pages.now }
    ensures page { get_or pages.now result 0 ≡ page }
{
    match pages.binary_search(&page) {
        Ok(place) => place,
        Err(_) => 0,
    }
}

/// The first place from one on whose page has room for so many bytes.
fn first_with_room(
    pages: &[u32],
    sizes: &[u16],
    rooms: &Peaks,
    from: usize,
    bytes: u32,
) -> Option<usize>
    requires rising { AreRising pages.now }
    requires rooms { AreRooms pages.now sizes.now rooms.now }
    ensures least { IsLeastIfAny (λ p. (from ≤ p) × HasRoomIn pages.now sizes.now bytes p) result }
    ensures small { IfSome result (λ p. p < 2 ^ 21) }
{
    let first = page_at(pages, from)?;
    let page = rooms.first_from(first as usize, TOP_RANK - ROOM + bytes as u64)?;
    Some(place_of(pages, page as u32))
}

impl FreedPages {
    /// No pages.
    pub(crate) fn new(alloc: Global) -> FreedPages
        ensures pages { result.pages ≡ [] }
        ensures sizes { result.sizes ≡ [] }
    {
        FreedPages {
            alloc,
            pages: Vec::new(alloc),
            sizes: Vec::new(alloc),
            rooms: Peaks::new(alloc),
        }
    }

    /// Makes room for so many pages more.
    pub(crate) fn reserve(&mut self, more: usize) -> Result<(), AllocError>
        ensures pages { self.new.pages ≡ self.old.pages }
        ensures sizes { self.new.sizes ≡ self.old.sizes }
        ensures room { OnOk result (length self.new.pages + more ≤ self.new.most) }
        ensures ends { self.new.ends ≡ self.old.ends }
        ensures ok { length self.old.pages + more ≤ self.old.most → IsOk result }
    {
        self.pages.reserve(more)
    }

    /// Makes room for the lengths of the bodies of the first pages.
    pub(crate) fn reserve_sizes(&mut self, end: usize) -> Result<(), AllocError>
        requires { end ≤ page_limit }
        ensures pages { self.new.pages ≡ self.old.pages }
        ensures sizes { self.new.sizes ≡ self.old.sizes }
        ensures most { self.new.most ≡ self.old.most }
        ensures room { OnOk result (end ≤ self.new.ends) }
        ensures more { self.old.ends ≤ self.new.ends }
        ensures ok { end ≤ self.old.ends → IsOk result }
    {
        let more = end.saturating_sub(self.sizes.len());
        self.sizes.reserve(more)?;
        self.rooms.reserve(end)
    }

    /// The lengths of bodies after these changes.
    pub(crate) fn note(&mut self, changes: &[Change])
        requires { All (λ c. c.page < page_limit → c.page < self.old.ends) changes.now }
        ensures pages { self.new.pages ≡ self.old.pages }
        ensures sizes { self.new.sizes ≡ sizes_after changes.now self.old.sizes }
        ensures most { self.new.most ≡ self.old.most }
        ensures ends { self.new.ends ≡ self.old.ends }
    {
        note_changes(&mut self.sizes, &mut self.rooms, changes);
    }

    /// The pages of these changes more.
    pub(crate) fn free(&mut self, changes: &[Change])
        requires room { length self.old.pages + length changes.now ≤ self.old.most }
        requires places { All (λ c. c.page < page_limit → c.page < self.old.ends) changes.now }
        ensures pages { self.new.pages ≡ with_pages (pages_of changes.now) self.old.pages }
        ensures sizes { self.new.sizes ≡ self.old.sizes }
        ensures ends { self.new.ends ≡ self.old.ends }
    {
        free_changes(&mut self.pages, &self.sizes, &mut self.rooms, changes);
    }

    /// No pages any more.
    pub(crate) fn clear(&mut self)
        ensures pages { self.new.pages ≡ [] }
        ensures sizes { self.new.sizes ≡ self.old.sizes }
    {
        self.pages.clear();
        self.rooms = Peaks::new(self.alloc);
    }

    /// The page at a place.
    pub(crate) fn at(&self, place: usize) -> Option<u32>
        ensures { result ≡ slice_get self.now.pages place }
    {
        self.pages.get(place).copied()
    }

    /// The length of a page's body.
    pub(crate) fn size_of(&self, page: u32) -> u16
        ensures { result ≡ get_or self.now.sizes page 0 }
    {
        size_at(&self.sizes, page)
    }

    /// The first place from one on whose page has room for so many bytes.
    pub(crate) fn with_room(&self, from: usize, bytes: u32) -> Option<usize>
        ensures least { IsLeastIfAny (λ p. (from ≤ p) × HasRoomIn self.now.pages self.now.sizes bytes p) result }
        ensures small { IfSome result (λ p. p < 2 ^ 21) }
    {
        first_with_room(&self.pages, &self.sizes, &self.rooms, from, bytes)
    }
}
