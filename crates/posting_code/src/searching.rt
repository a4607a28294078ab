// Rising items, searched by the heap pages that they are on.
ghost use Rattle.std.specs.Prelude.{IfOk};
ghost use Rattle.page_types.specs.Items.{AreItems};
ghost use Rattle.posting_code.specs.Inner.Windows.{IsWindow, AreStarts};

use page_types::MOST_SLOTS;
use std::alloc::{AllocError, Global};

/// So many items are read one after the other.
const FEW: usize = 32;

/// Part of rising items: those before it are below one that is sought, and those after it are not.
#[derive(Clone, Copy, Debug)]
pub(crate) struct Window {
    pub(crate) low: usize,
    pub(crate) high: usize,
}

/// Few of these items, among which the first one is that is not below the one that is sought, or after which it is.
fn narrowed(items: &[u32], item: u32, window: Window) -> Window
    requires rise { AreItems items.now }
    requires window { IsWindow items.now item window.low window.high }
    ensures { IsWindow items.now item result.low result.high }
{
    let mut low = window.low;
    let mut high = window.high;
    while high - low > FEW {
        let middle = low + (high - low) / 2;
        if items[middle] < item {
            low = middle + 1;
        } else {
            high = middle;
        }
    }
    Window { low, high }
}

/// How many of rising items are below one.
pub(crate) fn below(items: &[u32], item: u32, window: Window) -> usize
    requires rise { AreItems items.now }
    requires window { IsWindow items.now item window.low window.high }
    ensures { IsWindow items.now item result result }
{
    let few = narrowed(items, item, window);
    for place in few.low..few.high {
        if items[place] >= item {
            return place;
        }
    }
    few.high
}

/// Of each heap page up to the one after the last item's, how many items are on pages before it.
pub(crate) fn starts_of(alloc: Global, items: &[u32]) -> Result<Vec<u32>, AllocError>
    requires { AreItems items.now }
    ensures { IfOk result (λ v. AreStarts items.now v.items) }
{
    let mut starts = Vec::new(alloc);
    let Some(last) = items.last() else {
        return Ok(starts);
    };
    let all = Window {
        low: 0,
        high: items.len(),
    };
    for page in 0..*last / MOST_SLOTS as u32 + 2 {
        starts.push(below(items, page * MOST_SLOTS as u32, all) as u32)?;
    }
    Ok(starts)
}

/// The items of an item's page, where it is known how many are before each page; else all.
pub(crate) fn window_of(items: &[u32], starts: &[u32], item: u32) -> Window
    requires rise { AreItems items.now }
    requires starts { AreStarts items.now starts.now }
    ensures { IsWindow items.now item result.low result.high }
{
    let page = item as usize / MOST_SLOTS;
    let low = match starts.get(page).or(starts.last()) {
        Some(start) => *start as usize,
        None => 0,
    };
    let high = match starts.get(page + 1) {
        Some(end) => *end as usize,
        None => items.len(),
    };
    Window { low, high }
}
