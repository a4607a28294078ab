// What the state of a log says to those who change pages: which page is free to take, how far
// pages go, and what a running transaction has done.
ghost use Rattle.std.specs.Prelude.{◌≡◌, ◌≤◌, option_copied};
ghost use Rattle.core_state.specs.Log.{In};
ghost use Rattle.core_state.specs.States.{transaction, use_of, life_of};
ghost use Rattle.core_state.specs.PageChoice.{IsLeast, IsLeastIfAny, IsUnused, IsReusable, AreBelow, HasRoomAt};

use crate::lives::Life;
use crate::state::State;
use crate::transactions::Transaction;
use crate::uses::first_reusable;
use page_types::Name;

impl State {
    /// The lowest page below the number of pages that no record has changed.
    pub fn unused(&self) -> Option<u32>
        ensures { IsLeastIfAny (IsUnused self.now.value) result }
    {
        let page = self.lowest as u32;
        if page < self.pages() {
            Some(page)
        } else {
            None
        }
    }

    /// The lowest page that was deleted by a record of number `since` at most.
    pub fn reusable(&self, since: u64) -> Option<u32>
        ensures { IsLeastIfAny (IsReusable (use_of self.now.value) since) result }
    {
        if since == u64::MAX {
            return first_reusable(&self.uses, since);
        }
        let page = self.ranks.first_from(0, u64::MAX - since)?;
        Some(page as u32)
    }

    /// The least number above the pages that the store may have and those that a record has changed.
    pub fn extent(&self) -> u32
        ensures { IsLeast (AreBelow self.now.value) result }
    {
        self.pages().max(self.uses.len() as u32)
    }

    /// The transaction with this xid, where it runs, with the names that it has placed and those that
    /// it has marked.
    pub fn running(&self, xid: u32) -> Option<&Transaction>
        ensures { option_copied result ≡ transaction xid self.now.value.running }
    {
        self.table.running.find(xid)
    }

    /// By which commits the document of this name was inserted and deleted; none where no commit
    /// inserted it.
    pub fn document(&self, name: &Name) -> Option<Life>
        ensures { result ≡ life_of self.now.value name.now }
    {
        self.table.document(name)
    }

    /// The lowest heap page that isn't below this page: heap pages are those on which a head was placed.
    pub fn heap_from(&self, page: u32) -> Option<u32>
        ensures { IsLeastIfAny (λ p. (page ≤ p) × In p self.now.value.heaps) result }
    {
        self.table.heap_from(page)
    }

    /// The first number from k on, in the order of `heap_page`, whose page has room for so many bytes,
    /// of which one may be a free slot's: its body, as its last record made it, and they are 8169 at
    /// most.
    pub fn room_from(&self, k: u32, bytes: u32) -> Option<u32>
        ensures { IsLeastIfAny (λ p. (k ≤ p) × HasRoomAt self.now.value bytes p) result }
    {
        self.table.room_from(k, bytes)
    }
}
