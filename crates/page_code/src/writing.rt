// The encoding of a page, written into 8192 bytes.
ghost use Rattle.std.specs.Prelude.{◌≡◌, ℕ, ◌+◌, ◌<◌, ◌≤◌, ◌^◌, ◌++◌, ◌∷◌, [], length, IfOk};
ghost use Rattle.std.specs.List.{flat_map, AllByRecursion};
ghost use Rattle.std.specs.Option.{option_map};
ghost use Rattle.page_types.specs.Numbers.{u16_bytes, u32_bytes, u64_bytes};
ghost use Rattle.page_types.specs.Parts.{head_shown, pieces_shown, row_shown, postings_shown, entry_shown};
ghost use Rattle.page_types.specs.Encoding.{key_field, head_bytes, slot_bytes, row_bytes, postings_bytes, entry_bytes};
ghost use Rattle.page_types.specs.Encoding.{entry_child_bytes, post_child_bytes, high_key_bytes, gone_bytes};
ghost use Rattle.page_types.specs.Encoding.{body_bytes, kind_of, was_of, count_of, gone_kind, gone_count, front_bytes};
ghost use Rattle.page_types.specs.Encoding.{page_bytes};
ghost use Rattle.page_types.specs.Items.{items_of};
ghost use Rattle.page_types.specs.Pages.{IsRow, ArePostings, IsEntry, IsGone, IsBody, IsPage};
ghost use Rattle.page_code.specs.Inner.Putting.{Puts};
ghost use Rattle.page_types.specs.Writing.{overwritten};

use page_types::{
    Body, Bytes, Entries, EntryChildren, EntryRef, FRONT_BYTES, Gone, HeadRef, PAGE_BYTES, Page,
    PageBytes, PiecesRef, PostChild, PostChildren, PostingsRef, RowRef, Rows, Slots, put,
    zero_page,
};
use std::alloc::{AllocError, Global};

/// Writes bytes.
fn put_bytes(out: &mut [u8], at: usize, bytes: &[u8]) -> usize
    requires { at + length bytes.now ≤ length out.old }
    ensures { Puts at bytes.now out.old result out.new }
{
    put(out, at, bytes);
    at + bytes.len()
}

/// Writes a byte.
fn put_byte(out: &mut [u8], at: usize, byte: u8) -> usize
    requires { at + 1 ≤ length out.old }
    ensures { Puts at (byte ∷ []) out.old result out.new }
{
    put_bytes(out, at, &[byte])
}

/// Writes a number in two bytes, the little end first.
#[tactic(auto, unfolding(page_types::specs::Numbers::u16_bytes))]
fn put_u16(out: &mut [u8], at: usize, number: u16) -> usize
    requires { at + 2 ≤ length out.old }
    ensures puts { Puts at (u16_bytes number) out.old result out.new }
    ensures end { result ≡ at + 2 }
{
    put_bytes(out, at, &number.to_le_bytes())
}

/// Writes bytes after their length.
fn put_key(out: &mut [u8], at: usize, key: &[u8]) -> usize
    requires size { length key.now < 2 ^ 16 }
    requires room { at + (2 + length key.now) ≤ length out.old }
    ensures puts { Puts at (key_field key.now) out.old result out.new }
    ensures end { result ≡ at + (2 + length key.now) }
{
    let at = put_u16(out, at, key.len() as u16);
    put_bytes(out, at, key)
}

/// Writes a number in four bytes, the little end first.
#[tactic(auto, unfolding(page_types::specs::Numbers::u32_bytes))]
fn put_u32(out: &mut [u8], at: usize, number: u32) -> usize
    requires { at + 4 ≤ length out.old }
    ensures puts { Puts at (u32_bytes number) out.old result out.new }
    ensures end { result ≡ at + 4 }
{
    put_bytes(out, at, &number.to_le_bytes())
}

/// Writes a number in eight bytes, the little end first.
#[tactic(auto, unfolding(page_types::specs::Numbers::u64_bytes))]
fn put_u64(out: &mut [u8], at: usize, number: u64) -> usize
    requires { at + 8 ≤ length out.old }
    ensures puts { Puts at (u64_bytes number) out.old result out.new }
    ensures end { result ≡ at + 8 }
{
    put_bytes(out, at, &number.to_le_bytes())
}

/// Writes a head.
fn put_head(out: &mut [u8], at: usize, head: HeadRef<'_>) -> usize
    requires { at + (28 + length head.vector.now) ≤ length out.old }
    ensures { Puts at (head_bytes (head_shown head.entry)) out.old result out.new }
{
    let fields = head.fields;
    let at = put_u64(out, at, fields.serial);
    let at = put_u32(out, at, fields.inserted_by);
    let at = put_u32(out, at, fields.deleted_by);
    let at = put_u32(out, at, fields.overflow);
    let at = put_u32(out, at, fields.private);
    let at = put_u32(out, at, fields.bytes);
    put_bytes(out, at, head.vector)
}

/// Writes a slot.
fn put_slot(out: &mut [u8], at: usize, slot: Option<HeadRef<'_>>) -> usize
    requires { at + length (slot_bytes (option_map head_shown slot)) ≤ length out.old }
    ensures { Puts at (slot_bytes (option_map head_shown slot.entry)) out.old result out.new }
{
    match slot {
        None => put_byte(out, at, 0),
        Some(head) => {
            let at = put_byte(out, at, 1);
            put_head(out, at, head)
        }
    }
}

/// Writes slots.
fn put_slots(out: &mut [u8], at: usize, slots: &Slots) -> usize
    requires { at + length (flat_map slot_bytes slots.now) ≤ length out.old }
    ensures { Puts at (flat_map slot_bytes slots.now) out.old result out.new }
{
    let mut end = at;
    for k in 0..slots.len() {
        end = put_slot(out, end, slots.get(k));
    }
    end
}

/// Writes keys.
fn put_keys(out: &mut [u8], at: usize, keys: PiecesRef<'_>) -> usize
    requires sizes { AllByRecursion (λ key. length key < 2 ^ 16) (pieces_shown keys) }
    requires room { at + length (flat_map key_field (pieces_shown keys)) ≤ length out.old }
    ensures { Puts at (flat_map key_field (pieces_shown keys.entry)) out.old result out.new }
{
    let mut end = at;
    for k in 0..keys.len() {
        end = put_key(out, end, keys.at(k));
    }
    end
}

/// Writes a row.
fn put_row(out: &mut [u8], at: usize, row: RowRef<'_>) -> usize
    requires row { IsRow (row_shown row) }
    requires room { at + length (row_bytes (row_shown row)) ≤ length out.old }
    ensures { Puts at (row_bytes (row_shown row.entry)) out.old result out.new }
{
    let at = put_u32(out, at, row.item);
    let at = put_u16(out, at, row.keys.len() as u16);
    put_keys(out, at, row.keys)
}

/// Writes rows.
fn put_rows(out: &mut [u8], at: usize, rows: &Rows) -> usize
    requires rows { AllByRecursion IsRow rows.now }
    requires room { at + length (flat_map row_bytes rows.now) ≤ length out.old }
    ensures { Puts at (flat_map row_bytes rows.now) out.old result out.new }
{
    let mut end = at;
    for k in 0..rows.len() {
        if let Some(row) = rows.get(k) {
            end = put_row(out, end, row);
        }
    }
    end
}

/// Writes an item list after its length, or a root.
fn put_postings(out: &mut [u8], at: usize, postings: PostingsRef<'_>) -> usize
    requires postings { ArePostings (postings_shown postings) }
    requires room { at + length (postings_bytes (postings_shown postings)) ≤ length out.old }
    ensures { Puts at (postings_bytes (postings_shown postings.entry)) out.old result out.new }
{
    match postings {
        PostingsRef::Inline(items) => {
            let at = put_byte(out, at, 0);
            put_key(out, at, items)
        }
        PostingsRef::Root(root) => {
            let at = put_byte(out, at, 1);
            put_u32(out, at, root)
        }
    }
}

/// Writes an entry.
fn put_entry(out: &mut [u8], at: usize, entry: EntryRef<'_>) -> usize
    requires entry { IsEntry (entry_shown entry) }
    requires room { at + length (entry_bytes (entry_shown entry)) ≤ length out.old }
    ensures { Puts at (entry_bytes (entry_shown entry.entry)) out.old result out.new }
{
    let at = put_key(out, at, entry.key);
    put_postings(out, at, entry.postings)
}

/// Writes children of an inner page of the entry tree.
fn put_entry_children(out: &mut [u8], at: usize, children: &EntryChildren) -> usize
    requires sizes { AllByRecursion (λ c. length c.bound < 2 ^ 16) children.now }
    requires room { at + length (flat_map entry_child_bytes children.now) ≤ length out.old }
    ensures { Puts at (flat_map entry_child_bytes children.now) out.old result out.new }
{
    let mut end = at;
    for k in 0..children.len() {
        if let Some(child) = children.get(k) {
            end = put_u32(out, end, child.page);
            end = put_key(out, end, child.bound);
        }
    }
    end
}

/// Writes a child of an inner page of a posting tree.
fn put_post_child(out: &mut [u8], at: usize, child: PostChild) -> usize
    requires { at + length (post_child_bytes child) ≤ length out.old }
    ensures { Puts at (post_child_bytes child) out.old result out.new }
{
    let at = put_u32(out, at, child.page);
    put_u32(out, at, child.bound)
}

/// Writes children of an inner page of a posting tree.
fn put_post_children(out: &mut [u8], at: usize, children: &PostChildren) -> usize
    requires { at + length (flat_map post_child_bytes children.now) ≤ length out.old }
    ensures { Puts at (flat_map post_child_bytes children.now) out.old result out.new }
{
    let all = children.as_slice();
    let mut end = at;
    for child in all {
        end = put_post_child(out, end, *child);
    }
    end
}

/// Writes a high item and an item list.
fn put_posting(out: &mut [u8], at: usize, high: u32, items: &Bytes) -> usize
    requires { at + (4 + length items.now) ≤ length out.old }
    ensures { Puts at (u32_bytes high ++ items.now) out.old result out.new }
{
    let at = put_u32(out, at, high);
    put_bytes(out, at, items.as_slice())
}

/// Writes the high key of a leaf, where it has one.
fn put_high_key(out: &mut [u8], at: usize, high: &[u8]) -> usize
    requires size { length high.now < 2 ^ 16 }
    requires room { at + length (high_key_bytes high.now) ≤ length out.old }
    ensures { Puts at (high_key_bytes high.now) out.old result out.new }
{
    if high.is_empty() {
        at
    } else {
        put_key(out, at, high)
    }
}

/// Writes what a deleted page keeps.
fn put_gone(out: &mut [u8], at: usize, gone: &Gone) -> usize
    requires gone { (right : ℕ) × IsGone right gone.now }
    requires room { at + length (gone_bytes gone.now) ≤ length out.old }
    ensures { Puts at (gone_bytes gone.now) out.old result out.new }
{
    match gone {
        Gone::Overflow(bytes) => put_bytes(out, at, bytes.as_slice()),
        Gone::Pending(rows) => put_rows(out, at, rows),
        Gone::PostLeaf { high, items } => put_posting(out, at, *high, items),
    }
}

/// Writes the fields of the metapage.
fn put_meta(out: &mut [u8], at: usize, first: u32, last: u32, pages: u32) -> usize
    requires { at + 12 ≤ length out.old }
    ensures { Puts at (u32_bytes first ++ (u32_bytes last ++ u32_bytes pages)) out.old
        result out.new }
{
    let at = put_u32(out, at, first);
    let at = put_u32(out, at, last);
    put_u32(out, at, pages)
}

/// Writes a high key and entries.
fn put_leaf(out: &mut [u8], at: usize, high: &Bytes, entries: &Entries) -> usize
    requires high { length high.now < 2 ^ 16 }
    requires entries { AllByRecursion IsEntry entries.now }
    requires room { at + length (high_key_bytes high.now ++ flat_map entry_bytes entries.now)
        ≤ length out.old }
    ensures { Puts at (high_key_bytes high.now ++ flat_map entry_bytes entries.now) out.old
        result out.new }
{
    let mut end = put_high_key(out, at, high.as_slice());
    for k in 0..entries.len() {
        if let Some(entry) = entries.get(k) {
            end = put_entry(out, end, entry);
        }
    }
    end
}

/// Writes a body.
fn put_body(out: &mut [u8], at: usize, body: &Body) -> usize
    requires body { (right stamp : ℕ) × IsBody right stamp body.now }
    requires room { at + length (body_bytes body.now) ≤ length out.old }
    ensures { Puts at (body_bytes body.now) out.old result out.new }
{
    match body {
        Body::Free => at,
        Body::Meta { first, last, pages } => put_meta(out, at, *first, *last, *pages),
        Body::Heap(slots) => put_slots(out, at, slots),
        Body::Overflow(bytes) => put_bytes(out, at, bytes.as_slice()),
        Body::Pending(rows) => put_rows(out, at, rows),
        Body::EntryLeaf { high, entries } => put_leaf(out, at, high, entries),
        Body::EntryInner(children) => put_entry_children(out, at, children),
        Body::PostLeaf { high, items } => put_posting(out, at, *high, items),
        Body::PostInner(children) => put_post_children(out, at, children),
        Body::Deleted(gone) => put_gone(out, at, gone),
    }
}

/// The number of a body's kind.
fn kind_number(body: &Body) -> u8
    ensures { result ≡ kind_of body.now }
{
    match body {
        Body::Free => 0,
        Body::Meta { .. } => 1,
        Body::Heap(_) => 2,
        Body::Overflow(_) => 3,
        Body::Pending(_) => 4,
        Body::EntryLeaf { .. } => 5,
        Body::EntryInner(_) => 6,
        Body::PostLeaf { .. } => 7,
        Body::PostInner(_) => 8,
        Body::Deleted(_) => 9,
    }
}

/// The number of the kind before deletion, 0 where the page is live.
fn was_number(body: &Body) -> u8
    ensures { result ≡ was_of body.now }
{
    match body {
        Body::Deleted(Gone::Overflow(_)) => 3,
        Body::Deleted(Gone::Pending(_)) => 4,
        Body::Deleted(Gone::PostLeaf { .. }) => 7,
        _ => 0,
    }
}

/// How many items a list has: a varbyte ends with a byte below 128.
fn count_items(items: &Bytes) -> usize
    ensures { result ≡ length (items_of items.now) }
{
    let mut count = 0;
    for byte in items.as_slice() {
        if *byte < 128 {
            count += 1;
        }
    }
    count
}

/// How many slots, rows, entries, children or items are in a body.
fn count_in(body: &Body) -> usize
    ensures { result ≡ count_of body.now }
{
    match body {
        Body::Heap(slots) => slots.len(),
        Body::Pending(rows) | Body::Deleted(Gone::Pending(rows)) => rows.len(),
        Body::EntryLeaf { entries, .. } => entries.len(),
        Body::EntryInner(children) => children.len(),
        Body::PostLeaf { items, .. } | Body::Deleted(Gone::PostLeaf { items, .. }) => count_items(
            items,
        ),
        Body::PostInner(children) => children.len(),
        _ => 0,
    }
}

/// Writes the bytes 0 to 7: kind, the kind before deletion, count and right link.
#[tactic(auto, unfolding(page_types::specs::Encoding::front_bytes))]
fn put_front(out: &mut [u8], page: &Page)
    requires page { IsPage page.now }
    requires room { 8 ≤ length out.old }
    ensures { out.new ≡ overwritten 0 (front_bytes page.now) out.old }
{
    let at = put_byte(out, 0, kind_number(&page.body));
    let at = put_byte(out, at, was_number(&page.body));
    let at = put_u16(out, at, count_in(&page.body) as u16);
    put_u32(out, at, page.right);
}

/// Writes the encoding of a page. It takes no memory.
pub fn encode_page(page: &Page, out: &mut [u8])
    requires page { IsPage page.now }
    requires size { length out.old ≡ PAGE_BYTES }
    ensures { out.new ≡ page_bytes page.now }
{
    out.fill(0);
    let end = put_body(out, FRONT_BYTES, &page.body);
    let used = (end - FRONT_BYTES) as u16;
    put_front(out, page);
    put(out, 8, &page.stamp.to_le_bytes());
    put(out, 16, &used.to_le_bytes());
}

/// The encoding of a page as an image. Only memory can be wanting.
pub fn page_image(alloc: Global, page: &Page) -> Result<PageBytes, AllocError>
    requires { IsPage page.now }
    ensures { IfOk result (λ image. image ≡ page_bytes page.now) }
{
    let mut bytes = zero_page(alloc)?;
    encode_page(page, &mut bytes);
    Ok(PageBytes::from_vec(bytes))
}
