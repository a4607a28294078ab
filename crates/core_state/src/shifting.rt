// When a record Shift may come next, as far as the record, and its pages before and after say.
ghost use Rattle.std.specs.Prelude.{◌≡◌, ◌↔◌, true};
ghost use Rattle.core_state.specs.PendingRules.{IsShiftHere};
ghost use Rattle.core_state.specs.Judging.{Judges};
ghost use Rattle.core_state.specs.Inner.Shifting.{DropsFirst, KeepsRows};

use crate::linking::begin_with;
use crate::marking::second_page;
use crate::state::State;
use page_types::{Body, Gone, Kind, Page, Record};
use std::alloc::AllocError;

/// Whether a record leaves the metapage, which names this page first, with this right link of it in its
/// place, and with one page less.
fn drops_first(rec: &Record, page: u32, right: u32, old: &Page, new: &Page) -> bool
    ensures { result ≡ true ↔ DropsFirst rec.now page right old.now new.now }
{
    let Body::Meta { first, last, pages } = old.body else {
        return false;
    };
    let Body::Meta {
        first: next,
        last: end,
        pages: left,
    } = new.body
    else {
        return false;
    };
    if new.right != old.right || new.stamp != rec.number || first != page || next != right {
        return false;
    }
    if pages == 0 || left != pages - 1 {
        return false;
    }
    if right == 0 { end == 0 } else { end == last }
}

/// Whether a record leaves a pending page deleted, with its rows.
fn keeps_rows(rec: &Record, old: &Page, new: &Page) -> bool
    ensures { result ≡ true ↔ KeepsRows rec.now old.now new.now }
{
    let Body::Pending(rows) = &old.body else {
        return false;
    };
    let Body::Deleted(Gone::Pending(kept)) = &new.body else {
        return false;
    };
    if new.right != old.right || new.stamp != rec.number || kept.len() != rows.len() {
        return false;
    }
    begin_with(kept, rows)
}

/// Whether Shift may come next: the page that the metapage names first becomes a deleted one that
/// keeps its rows, and the metapage names the next in its place.
pub fn valid_shift(
    state: &State,
    rec: &Record,
    before: &[Page],
    after: &[Page],
    _floor: u32,
    _since: u64,
) -> Result<bool, AllocError>
    ensures { Judges IsShiftHere state.now.value rec.now before.now after.now result }
{
    let Kind::Shift = rec.kind else {
        return Ok(false);
    };
    let Some(page) = second_page(rec, 0) else {
        return Ok(false);
    };
    if before.len() != 2 || after.len() != 2 || !keeps_rows(rec, &before[1], &after[1]) {
        return Ok(false);
    }
    Ok(drops_first(rec, page, before[1].right, &before[0], &after[0]))
}
