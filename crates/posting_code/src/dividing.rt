// Where a list is divided when its page is split.
ghost use Rattle.std.specs.Prelude.{◌≡◌, ◌+◌, ◌≤◌, ◌<◌, ◌^◌, ◌↔◌, ℕ, List, length, IfSome, IfNone, IsNone, IsTrue};
ghost use Rattle.page_types.specs.Items.{varbyte, items_of, item_list, IsItemList};
ghost use Rattle.posting_code.specs.Inner.Searching.{IsFirstFrom, IsLastWithin};
ghost use Rattle.posting_code.specs.declared.dividing.Keep.TheVariants.{Most};
ghost use Rattle.posting_code.specs.Cutting.{IsEven, IsCut};
ghost use Rattle.posting_code.specs.Dividing.{IsDivision, list_cutting, AreHalves};

use crate::writing::varbyte_size;
use page_types::{MOST_BODY_BYTES, next_item};

/// What a split keeps in the first part.
#[derive(Clone, Copy, Debug, PartialEq, Eq)]
pub enum Keep {
    /// Half of the bytes, for items that come anywhere.
    Half,
    /// As much as fits, for items that come after all others.
    Most,
}

/// Two parts of a list.
#[derive(Clone, Copy, Debug)]
pub struct Halves<'a> {
    /// The list of the first part.
    pub front: &'a [u8],
    /// The last item of the first part.
    pub last: u32,
    /// The first item of the second part.
    pub next: u32,
    /// What comes after it in the second part's list.
    pub rest: &'a [u8],
}

/// The most bytes of a leaf's list.
const MOST_LIST: usize = MOST_BODY_BYTES - 4;

/// The division of a list after the shortest first part of at least so many bytes.
fn first_from(list: &[u8], least: usize) -> Option<Halves<'_>>
    requires { IsItemList list.now }
    ensures some { IfSome result (λ h. (front back : List ℕ) × IsFirstFrom least list.now front back
        × AreHalves h front back) }
    ensures none { IfNone result ((f b : List ℕ) → IsDivision list.now f b
        → length (item_list f) < least) }
{
    let mut last = 0;
    let mut rest = list;
    while let Ok((item, after)) = next_item(last, rest) {
        let size = list.len() - rest.len();
        if size > 0 && size >= least {
            return Some(Halves {
                front: &list[..size],
                last,
                next: item,
                rest: after,
            });
        }
        last = item;
        rest = after;
    }
    None
}

/// The division of a list after the longest first part of at most so many bytes.
fn last_within(list: &[u8], most: usize) -> Option<Halves<'_>>
    requires { IsItemList list.now }
    ensures some { IfSome result (λ h. (front back : List ℕ) × IsLastWithin most list.now front back
        × AreHalves h front back) }
    ensures none { IfNone result ((f b : List ℕ) → IsDivision list.now f b
        → most < length (item_list f)) }
{
    let mut found = None;
    let mut last = 0;
    let mut rest = list;
    while let Ok((item, after)) = next_item(last, rest) {
        let size = list.len() - rest.len();
        if size > most {
            return found;
        }
        if size > 0 {
            found = Some(Halves {
                front: &list[..size],
                last,
                next: item,
                rest: after,
            });
        }
        last = item;
        rest = after;
    }
    found
}

/// Whether both parts fit on leaves.
fn both_fit(halves: Halves<'_>) -> bool
    requires { halves.next < 2 ^ 31 }
    ensures { IsTrue result ↔ ((4 + length halves.entry.front.now ≤ 8168)
        × (4 + (length (varbyte halves.entry.next) + length halves.entry.rest.now) ≤ 8168)) }
{
    halves.front.len() <= MOST_LIST
        && halves.rest.len() <= MOST_LIST
        && varbyte_size(halves.next) + halves.rest.len() <= MOST_LIST
}

/// The division at half of the bytes where both parts then fit, else after the longest first part that fits.
fn even(list: &[u8]) -> Option<Halves<'_>>
    requires { IsItemList list.now }
    ensures some { IfSome result (λ h. (front back : List ℕ) × IsEven (list_cutting list.now) front back
        × AreHalves h front back) }
    ensures none { IfNone result ((f b : List ℕ) → IsDivision list.now f b → ⊥) }
{
    if let Some(halves) = first_from(list, list.len() - list.len() / 2) {
        if both_fit(halves) {
            return Some(halves);
        }
    }
    last_within(list, MOST_LIST)
}

/// The division after the longest first part that fits, where it has at least half of the bytes; else as `even`.
fn most_or_even(list: &[u8]) -> Option<Halves<'_>>
    requires { IsItemList list.now }
    ensures some { IfSome result (λ h. (front back : List ℕ) × IsCut (list_cutting list.now) front back Most
        × AreHalves h front back) }
    ensures none { IsNone result ↔ (length (items_of list.now) < 2) }
{
    if let Some(halves) = last_within(list, MOST_LIST) {
        if list.len().saturating_sub(halves.front.len()) <= halves.front.len() {
            return Some(halves);
        }
    }
    even(list)
}

/// Where a split divides a page's item list. It takes no memory.
pub fn cut(list: &[u8], keep: Keep) -> Option<Halves<'_>>
    requires { IsItemList list.now }
    ensures some { IfSome result (λ h. (front back : List ℕ) × IsCut (list_cutting list.now) front back keep
        × AreHalves h front back) }
    ensures none { IsNone result ↔ (length (items_of list.now) < 2) }
{
    match keep {
        Keep::Half => even(list),
        Keep::Most => most_or_even(list),
    }
}
