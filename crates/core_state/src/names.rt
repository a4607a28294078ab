// Lists of names that lie one after the other in one list.
ghost use Rattle.std.specs.Prelude.{◌≡◌, ◌-◌, ◌<◌, ◌≤◌, [], ◌∷◌, ◌++◌, length, OnOk, IsOk, Some};
ghost use Rattle.std.specs.List.{slice_get};
ghost use Rattle.page_types.specs.Inner.Cuts.{start_at};

use page_types::Name;
use std::alloc::{AllocError, Global};
use std::marker::Model;

/// Lists of names in one list, cut at their ends. Contracts see them as a list of lists, with the
/// room for more.
#[derive(Drop)]
pub struct NameLists {
    names: Vec<Name>,
    ends: Vec<usize>,
}

impl Model for NameLists {
    ghost use Rattle.std.specs.Prelude.{◌-◌, length};
    ghost use Rattle.std.specs.Vec.{vec_capacity};
    ghost use Rattle.page_types.specs.Inner.Cuts.{cut_at, EndAt};
    ghost use Rattle.core_state.specs.Inner.Lists.{Listed};

    ghost Value = { Listed };

    ghost view = { λ p. record {
      lists = cut_at 0 p.ends.items p.names.items;
      lists_left = vec_capacity p.ends - length p.ends.items;
      names_left = vec_capacity p.names - length p.names.items;
    } };

    ghost invariant = { λ p. EndAt 0 p.ends.items (length p.names.items) };
}

/// Where the list with this number begins.
#[tactic(auto, using(page_types::proofs::Cutting::start_before))]
fn start_of(ends: &[usize], k: usize) -> usize
    requires { k ≤ length ends.now }
    ensures { result ≡ start_at 0 ends.now k }
{
    if k == 0 { 0 } else { ends[k - 1] }
}

impl NameLists {
    /// No lists.
    pub fn new(alloc: Global) -> NameLists
        ensures { result.lists ≡ [] }
    {
        NameLists {
            names: Vec::new(alloc),
            ends: Vec::new(alloc),
        }
    }

    /// How many lists there are.
    pub fn len(&self) -> usize
        ensures { result ≡ length self.now.lists }
    {
        self.ends.len()
    }

    /// The list with this number, by reference.
    pub fn at(&self, k: usize) -> &[Name]
        requires { k < length self.now.lists }
        ensures { slice_get self.now.lists k ≡ Some result.now }
    {
        let from = start_of(&self.ends, k);
        let to = self.ends[k];
        &self.names[from..to]
    }

    /// Makes room for one list more, with so many names. The lists stay.
    pub fn reserve(&mut self, names: usize) -> Result<(), AllocError>
        ensures same { self.new.lists ≡ self.old.lists }
        ensures lists { OnOk result (0 < self.new.lists_left) }
        ensures names { OnOk result (names ≤ self.new.names_left) }
        ensures ok { 0 < self.old.lists_left → names ≤ self.old.names_left → IsOk result }
    {
        self.ends.reserve(1)?;
        self.names.reserve(names)
    }

    /// One list more, after the others, for which there is room.
    pub fn push(&mut self, names: &[Name])
        requires list { 0 < self.old.lists_left }
        requires names { length names.now ≤ self.old.names_left }
        ensures { self.new.lists ≡ self.old.lists ++ names.now ∷ [] }
    {
        let _ = self.names.extend_from_slice(names);
        let end = self.names.len();
        self.ends.push_reserved(end);
    }
}
