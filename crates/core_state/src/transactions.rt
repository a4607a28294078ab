// A running transaction, and the fates of xids.
ghost use Rattle.std.specs.Prelude.{◌≡◌, ◌<◌, ◌++◌, ◌∷◌, [], length};
ghost use Rattle.std.specs.Vec.{vec_capacity};
ghost use Rattle.core_state.specs.States.{fate_at, with_fate};

use crate::answers::Fate;
use page_types::Name;
use std::alloc::Global;
use std::marker::Model;

/// Names. Contracts see them as a list.
#[derive(Drop)]
pub struct Names {
    inner: Vec<Name>,
}

impl Model for Names {
    ghost use Rattle.std.specs.Prelude.{List};
    ghost use Rattle.page_types.specs.declared.page.Name.{Name};

    ghost Value = { List Name };

    ghost view = { λ n. n.inner.items };
}

impl Names {
    /// No names.
    pub fn new(alloc: Global) -> Names
        ensures { result ≡ [] }
    {
        Names {
            inner: Vec::new(alloc),
        }
    }

    /// The names, by reference.
    pub fn as_slice(&self) -> &[Name]
        ensures { result.now ≡ self.now }
    {
        self.inner.as_slice()
    }

    /// One name more, after the others. Without room for it they move to the spare list, which has
    /// room.
    pub(crate) fn add(&mut self, name: Name, spare: &mut Vec<Name>)
        requires { length self.old < vec_capacity spare.old }
        ensures { self.new ≡ self.old ++ name ∷ [] }
    {
        if self.inner.len() == self.inner.capacity() {
            spare.clear();
            let _ = spare.append(&mut self.inner);
            std::mem::swap(&mut self.inner, spare);
        }
        self.inner.push_reserved(name);
    }
}

/// A running transaction, with the names that it has marked and those that it has placed.
#[derive(Drop)]
pub struct Transaction {
    /// Its number.
    pub xid: u32,
    /// The names that it has marked deleted.
    pub deleted: Names,
    /// The names that it has placed.
    pub inserted: Names,
}

/// The fate of an xid.
pub(crate) fn fate_in(fates: &[Fate], xid: u32) -> Fate
    ensures { result ≡ fate_at fates.now xid }
{
    if xid == 0 {
        return Fate::Unused;
    }
    match fates.get(xid as usize - 1) {
        Some(fate) => *fate,
        None => Fate::Unused,
    }
}

/// The fates with that of an xid, where it has begun.
pub(crate) fn set_fate(fates: &mut [Fate], xid: u32, fate: Fate)
    ensures { fates.new ≡ with_fate xid fate fates.old }
{
    if xid > 0 && xid as usize <= fates.len() {
        fates[xid as usize - 1] = fate;
    }
}
