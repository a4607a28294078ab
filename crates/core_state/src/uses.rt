// The uses of pages, and what changes make of them.
ghost use Rattle.std.specs.Prelude.{◌≡◌, ◌≢◌, ◌<◌, ◌≤◌, ℕ, [], ◌∷◌, All, length, get_or};
ghost use Rattle.std.specs.Vec.{vec_capacity};
ghost use Rattle.page_types.specs.Numbers.{page_limit};
ghost use Rattle.core_state.specs.States.{edited_use, with_use, uses_after};
ghost use Rattle.core_state.specs.PageChoice.{IsLeastIfAny, IsReusable};
ghost use Rattle.core_state.specs.declared.answers.PageUse.TheVariants.{Unused};
ghost use Rattle.core_state.specs.Inner.Ranks.{rank, AreRanks};
ghost use Rattle.core_state.specs.Inner.Lowest.{AreUsedBelow, IsLowest};

use crate::answers::PageUse;
use crate::peaks::Peaks;
use page_types::{Change, Edit, PAGE_LIMIT};

/// The kind of a page that is deleted.
const DELETED: u8 = 9;

/// The use of the page that an edit leaves.
pub(crate) fn use_of_edit(number: u64, edit: &Edit) -> PageUse
    ensures { result ≡ edited_use number edit.now }
{
    let kind = match edit {
        Edit::Image(bytes) => bytes.as_slice()[0],
        Edit::Delta { front, .. } => front[0],
    };
    if kind == DELETED {
        PageUse::Deleted(number)
    } else {
        PageUse::Used
    }
}

/// The least number above the page of a change; 0 where that is no page.
fn page_end(change: &Change) -> usize
    ensures page { change.now.page < page_limit → change.now.page < result }
    ensures least { (most : ℕ) → (change.now.page < page_limit → change.now.page < most)
        → result ≤ most }
{
    if change.page < PAGE_LIMIT {
        change.page as usize + 1
    } else {
        0
    }
}

/// The least number above the pages of these changes, but for those that are no pages.
#[tactic(auto, using(crate::proofs::UseSteps::end_more))]
pub(crate) fn pages_end(changes: &[Change]) -> usize
    ensures above { All (λ c. c.page < page_limit → c.page < result) changes.now }
    ensures least { (most : ℕ) → All (λ c. c.page < page_limit → c.page < most) changes.now
        → result ≤ most }
{
    let mut end = 0;
    for change in changes {
        end = end.max(page_end(change));
    }
    end
}

/// The use of one page.
pub(crate) fn note_use(uses: &mut Vec<PageUse>, page: usize, new: PageUse)
    requires small { page < page_limit }
    requires room_before { page < vec_capacity uses.old }
    ensures items { uses.new.items ≡ with_use page new uses.old.items }
    ensures room { vec_capacity uses.new ≡ vec_capacity uses.old }
{
    let missing = (page + 1).saturating_sub(uses.len());
    for added in 0..missing {
        let _ = added;
        uses.push_reserved(PageUse::Unused);
    }
    uses[page] = new;
}

/// The greater, the older the stamp of a deleted page is; 0 of every other page.
fn rank_of(new: PageUse) -> u64
    ensures { result ≡ rank new }
{
    match new {
        PageUse::Deleted(stamp) => u64::MAX - stamp,
        _ => 0,
    }
}

/// Another rank of one page.
fn note_rank(ranks: &mut Peaks, page: usize, new: PageUse)
    requires { page < length ranks.old }
    ensures here { get_or ranks.new page 0 ≡ rank new }
    ensures others { (q : ℕ) → q ≢ page → get_or ranks.new q 0 ≡ get_or ranks.old q 0 }
    ensures size { length ranks.new ≡ length ranks.old }
{
    let rank = rank_of(new);
    if ranks.at(page) != rank {
        ranks.set(page, rank);
    }
}

/// The use of one page, with its rank.
fn note_ranked(uses: &mut Vec<PageUse>, ranks: &mut Peaks, page: usize, new: PageUse)
    requires small { page < page_limit }
    requires uses { page < vec_capacity uses.old }
    requires ranks { page < length ranks.old }
    requires ranked { AreRanks uses.old.items ranks.old }
    ensures items { uses.new.items ≡ with_use page new uses.old.items }
    ensures ranked { AreRanks uses.new.items ranks.new }
    ensures room { vec_capacity uses.new ≡ vec_capacity uses.old }
    ensures size { length ranks.new ≡ length ranks.old }
{
    note_use(uses, page, new);
    note_rank(ranks, page, new);
}

/// The uses after one change, with their ranks.
fn note_change(uses: &mut Vec<PageUse>, ranks: &mut Peaks, number: u64, change: &Change)
    requires uses { change.now.page < page_limit → change.now.page < vec_capacity uses.old }
    requires ranks { change.now.page < page_limit → change.now.page < length ranks.old }
    requires ranked { AreRanks uses.old.items ranks.old }
    ensures items { uses.new.items ≡ uses_after number (change.now ∷ []) uses.old.items }
    ensures ranked { AreRanks uses.new.items ranks.new }
    ensures room { vec_capacity uses.new ≡ vec_capacity uses.old }
    ensures size { length ranks.new ≡ length ranks.old }
{
    if change.page < PAGE_LIMIT {
        let new = use_of_edit(number, &change.edit);
        note_ranked(uses, ranks, change.page as usize, new);
    }
}

/// The uses after changes, with their ranks, for which there is room.
pub(crate) fn note_uses(uses: &mut Vec<PageUse>, ranks: &mut Peaks, number: u64, changes: &[Change])
    requires uses { All (λ c. c.page < page_limit → c.page < vec_capacity uses.old) changes.now }
    requires ranks { All (λ c. c.page < page_limit → c.page < length ranks.old) changes.now }
    requires ranked { AreRanks uses.old.items ranks.old }
    ensures items { uses.new.items ≡ uses_after number changes.now uses.old.items }
    ensures ranked { AreRanks uses.new.items ranks.new }
    ensures room { vec_capacity uses.new ≡ vec_capacity uses.old }
    ensures size { length ranks.new ≡ length ranks.old }
{
    for change in changes {
        note_change(uses, ranks, number, change);
    }
}

/// The lowest unused page, where each page below `from` is or was in use.
pub(crate) fn lowest_from(uses: &[PageUse], from: usize) -> usize
    requires { AreUsedBelow uses.now from }
    ensures { IsLowest uses.now result }
{
    for page in from..uses.len() {
        if let PageUse::Unused = uses[page] {
            return page;
        }
    }
    uses.len()
}

/// The first page that was deleted by a record of number `since` at most, by a walk over all.
pub(crate) fn first_reusable(uses: &[PageUse], since: u64) -> Option<u32>
    requires { length uses.now ≤ page_limit }
    ensures { IsLeastIfAny (IsReusable (λ p. get_or uses.now p Unused) since) result }
{
    for page in 0..uses.len() {
        if let PageUse::Deleted(stamp) = uses[page] {
            if stamp <= since {
                return Some(page as u32);
            }
        }
    }
    None
}
