// Lists of fewer items.
ghost use Rattle.std.specs.Prelude.{◌≡◌, ◌↔◌, ◌++◌, ℕ, List, take, length, OnErr, IfOk, IsTrue};
ghost use Rattle.std.specs.List.{Contains};
ghost use Rattle.page_types.specs.Items.{items_of, AreItems, IsItemList};
ghost use Rattle.posting_code.specs.Uniting.{IsLeft};

use crate::searching::{below, starts_of, window_of};
use crate::writing::put_varbyte;
use page_types::next_item;
use std::alloc::AllocError;
use std::marker::Model;

/// A set of items. Contracts see it as its rising list.
#[derive(Debug, Drop)]
pub struct ItemSet {
    inner: Vec<u32>,
    // of each heap page up to the one after the last item's how many items are before it, where memory was for that
    starts: Vec<u32>,
}

impl Model for ItemSet {
    ghost use Rattle.std.specs.Prelude.{List, ℕ};
    ghost use Rattle.page_types.specs.Items.{AreItems};
    ghost use Rattle.posting_code.specs.Inner.Windows.{AreStarts};

    ghost Value = { List ℕ };

    ghost view = { λ s. s.inner.items };

    ghost invariant = { λ s. AreItems s.inner.items × AreStarts s.inner.items s.starts.items };
}

impl ItemSet {
    /// These items, which are not copied.
    pub fn new(items: Vec<u32>) -> ItemSet
        requires { AreItems items.items }
        ensures { result ≡ items.items }
    {
        let alloc = *items.allocator();
        let starts = match starts_of(alloc, &items) {
            Ok(starts) => starts,
            Err(_) => Vec::new(alloc),
        };
        ItemSet {
            inner: items,
            starts,
        }
    }

    /// Whether an item is one of them. It takes no memory.
    pub fn has(&self, item: u32) -> bool
        ensures { IsTrue result ↔ Contains self.now item }
    {
        let place = below(
            &self.inner,
            item,
            window_of(&self.inner, &self.starts, item),
        );
        match self.inner.get(place) {
            Some(found) => *found == item,
            None => false,
        }
    }

    /// The items, which rise.
    pub fn items(&self) -> &[u32]
        ensures items { result.now ≡ self.now }
        ensures rise { AreItems result.now }
    {
        self.inner.as_slice()
    }
}

/// Appends the list of a list's items but the dead ones, and answers how many there are. Without memory some of its
/// bytes may be there.
fn put_left(list: &[u8], dead: &ItemSet, out: &mut Vec<u8>) -> Result<u32, AllocError>
    requires { IsItemList list.now }
    ensures ok { IfOk result (λ n. (bytes : List ℕ) × (out.new.items ≡ out.old.items ++ bytes)
        × IsLeft list.now dead.now bytes × (n ≡ length (items_of bytes))) }
    ensures front { take (length out.old.items) out.new.items ≡ out.old.items }
{
    let mut before = 0;
    let mut rest = list;
    let mut last = 0;
    let mut count = 0;
    while let Ok((item, after)) = next_item(before, rest) {
        before = item;
        rest = after;
        if !dead.has(item) {
            put_varbyte(item - last, out)?;
            last = item;
            count += 1;
        }
    }
    Ok(count)
}

/// Appends the list of a list's items but the dead ones, never longer than it was, and answers how many there are.
/// Without memory nothing is appended.
pub fn without(list: &[u8], dead: &ItemSet, out: &mut Vec<u8>) -> Result<u32, AllocError>
    requires { IsItemList list.now }
    ensures ok { IfOk result (λ n. (bytes : List ℕ) × (out.new.items ≡ out.old.items ++ bytes)
        × IsLeft list.now dead.now bytes × (n ≡ length (items_of bytes))) }
    ensures err { OnErr result (out.new.items ≡ out.old.items) }
{
    let start = out.len();
    match put_left(list, dead, out) {
        Ok(count) => Ok(count),
        Err(e) => {
            out.truncate(start);
            Err(e)
        }
    }
}
