// The items of a list, one after another.
ghost use Rattle.std.specs.Prelude.{◌≡◌, ◌≢◌, ◌↔◌, [], length, IsOk, IfOk, IfErr, Some};
ghost use Rattle.std.specs.Iterator.{YieldsFirst, item_count};
ghost use Rattle.page_types.specs.Items.{items_of, IsItemList};
ghost use Rattle.page_types.specs.ItemReading.{last_or};
ghost use Rattle.posting_code.specs.Faults.{list_fault, place_of};

use crate::error::ListError;
use page_types::{next_item, read_items};
use std::marker::Model;

/// The items of a list that are left, in order. Contracts see them as a list.
#[derive(Debug, Drop)]
pub struct Items<'a> {
    rest: &'a [u8],
    previous: u32,
    count: usize,
    last: u32,
}

impl<'a> Model for Items<'a> {
    ghost use Rattle.std.specs.Prelude.{List, ℕ};

    ghost Value = { List ℕ };

    ghost use Rattle.posting_code.specs.Inner.Places.{items_left};
    ghost use Rattle.posting_code.specs.Inner.States.{IsAt};

    ghost view = { λ it. items_left it.previous it.rest.now };

    ghost invariant = { λ it. IsAt it.previous it.rest.now it.count it.last };
}

impl<'a> Items<'a> {
    /// The items of these bytes. It takes no memory.
    pub fn new(bytes: &'a [u8]) -> Result<Items<'a>, ListError>
        ensures ok { IsOk result ↔ IsItemList bytes.now }
        ensures items { IfOk result (λ it. it ≡ items_of bytes.now) }
        ensures fault { IfErr result (λ e. list_fault bytes.now ≡ Some (place_of e)) }
    {
        match read_items(bytes.len(), bytes) {
            Ok(whole) => Ok(Items {
                rest: bytes,
                previous: 0,
                count: whole.count,
                last: whole.last,
            }),
            Err(left) => Err(ListError::BadList {
                at: bytes.len() - left,
            }),
        }
    }

    /// How many items are left.
    pub fn len(&self) -> usize
        ensures { result ≡ length self.now }
    {
        self.count
    }

    /// The last of the items that are left, where there is one.
    pub fn last_item(&self) -> u32
        ensures { self.now ≢ [] → result ≡ last_or 0 self.now }
    {
        self.last
    }
}

impl<'a> Iterator for Items<'a> {
    type Item = u32;

    ghost next_gives = { YieldsFirst (λ left. left) };

    ghost remaining = { item_count (λ left. left) };

    fn next(&mut self) -> Option<u32> {
        match next_item(self.previous, self.rest) {
            Ok((item, after)) => {
                self.rest = after;
                self.previous = item;
                self.count -= 1;
                Some(item)
            }
            Err(_) => None,
        }
    }
}
