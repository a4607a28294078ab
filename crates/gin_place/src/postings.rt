// What a page of a posting tree says of items that are to come under its key.
ghost use Rattle.std.specs.Prelude.{◌≡◌, ◌≢◌, ℕ, List, [], ◌∷◌, IfOk, IsTrue, false};
ghost use Rattle.page_types.specs.Items.{AreItems};
ghost use Rattle.page_types.specs.Pages.{IsPage};
ghost use Rattle.posting_tree.specs.Adding.{IsPostLeaf};
ghost use Rattle.gin_place.specs.Inner.Reading.{IsRoomy};
ghost use Rattle.gin_place.specs.Inner.ReadingItems.{IsUpTo, IsReadingOf, IsFullPostLeaf};
ghost use Rattle.gin_place.specs.declared.sought.Sought.TheVariants as soughts;

use crate::reading::{Next, Reading};
use page_types::{Body, Page};
use posting_code::{fitting, lacks};
use posting_tree::{Added, Found, MOST_LIST_BYTES, add, find, has_room};
use std::alloc::{AllocError, Global};

/// How many of the items, the first of them, are up to a high item.
fn up_to(items: &[u32], high: u32) -> usize
    requires items { AreItems items.now }
    ensures { IsUpTo items.now high result }
{
    if high == 0 {
        return items.len();
    }
    items.partition_point(|item| *item <= high)
}

/// What a leaf says of items: with the first of them, as many as are up to its high item and fit.
fn read_leaf(alloc: Global, page: &Page, items: &[u32]) -> Result<Reading, AllocError>
    requires page { IsPage page.now }
    requires leaf { IsPostLeaf page.now.body }
    requires items { AreItems items.now }
    requires some { items.now ≢ [] }
    ensures { IfOk result (λ r. IsReadingOf page.now items.now r) }
{
    let Body::PostLeaf { high, items: list } = &page.body else {
        unreachable!()
    };
    let within = &items[..up_to(items, *high)];
    if within.is_empty() {
        return Ok(Reading::On(Next::Bad));
    }
    let count = fitting(list.as_slice(), within, MOST_LIST_BYTES);
    if count == 0 {
        return Ok(Reading::Full);
    }
    let part = &within[..count];
    if !lacks(list.as_slice(), part) {
        return Ok(Reading::On(Next::Stand(count)));
    }
    match add(alloc, page, part)? {
        Added::Done(new) => Ok(Reading::Added(new, count)),
        Added::Full => unreachable!(),
    }
}

/// What a page of a posting tree says of items, where the first of them is sought. An inner page without
/// room for a child more is full on a way on which room is made.
pub(crate) fn read_postings(
    alloc: Global,
    page: &Page,
    items: &[u32],
    item: u32,
    making_room: bool,
) -> Result<Reading, AllocError>
    requires page { IsPage page.now }
    requires items { AreItems items.now }
    requires first { (rest : List ℕ) × (items.now ≡ item ∷ rest) }
    ensures reading { IfOk result (λ r. IsReadingOf page.now items.now r) }
    ensures room { IfOk result (λ r. IsTrue making_room → (root : ℕ) → IsRoomy (soughts.Item root item) page.now r) }
    ensures leaf { IfOk result (λ r. making_room ≡ false → IsFullPostLeaf page.now r) }
{
    match &page.body {
        Body::PostLeaf { .. } => read_leaf(alloc, page, items),
        Body::PostInner(_) => match find(page, item) {
            Found::Down { child } if making_room && !has_room(page) => Ok(Reading::Full),
            Found::Down { child } => Ok(Reading::On(Next::Down(child))),
            _ => Ok(Reading::On(Next::Bad)),
        },
        _ => Ok(Reading::On(Next::Bad)),
    }
}
