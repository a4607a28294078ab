// What is asked of the state of a store's log.
ghost use Rattle.std.specs.Prelude.{◌≡◌, ◌≤◌, ◌-◌, length, Some, IfOk};
ghost use Rattle.std.specs.List.{slice_get};
ghost use Rattle.engine.specs.Inner.Asked.{is_in};

use crate::commit_names::CommitNames;
use buffer_frames::Ask;
use core_state::{Fate, State};
use page_space::take;
use page_types::Name;
use std::alloc::{AllocError, Global};

/// Whether the document of a name is in the snapshot of so many commits.
#[derive(Clone, Copy)]
pub struct IsListed {
    pub name: Name,
    pub commits: u32,
}

/// Whether the state has a document in the snapshot of so many commits.
fn is_listed(state: &State, name: &Name, commits: u32) -> bool
    ensures { result ≡ is_in state.now.value commits name.now }
{
    match state.document(name) {
        None => false,
        Some(life) => match life.deleted {
            _ if life.inserted > commits => false,
            Some(deleted) => deleted > commits,
            None => true,
        },
    }
}

impl Ask<bool> for IsListed {
    ghost use Rattle.engine.specs.Inner.Asked.{is_listed_answer};

    ghost answers = { is_listed_answer };

    fn ask(&self, state: &State, _floor: u32, _since: u64) -> bool {
        is_listed(state, &self.name, self.commits)
    }
}

/// How a head is to a snapshot.
#[derive(Clone, Copy)]
pub enum Standing {
    /// The snapshot does not see it.
    Unseen,
    /// The snapshot sees it, and nobody deletes it.
    Seen,
    /// The snapshot sees it, and this transaction deletes it: it runs, or has committed past the
    /// snapshot.
    Past(u32),
}

/// How the head with these xids is to the snapshot of so many commits.
#[derive(Clone, Copy)]
pub struct HeadStanding {
    pub inserted_by: u32,
    pub deleted_by: u32,
    pub commits: u32,
}

impl Ask<Standing> for HeadStanding {
    ghost use Rattle.engine.specs.Inner.Asked.{head_answer};

    ghost answers = { head_answer };

    fn ask(&self, state: &State, _floor: u32, _since: u64) -> Standing {
        match state.fate(self.inserted_by) {
            Fate::Committed(number) if number <= self.commits => {}
            _ => return Standing::Unseen,
        }
        if self.deleted_by == 0 {
            return Standing::Seen;
        }
        match state.fate(self.deleted_by) {
            Fate::Running => Standing::Past(self.deleted_by),
            Fate::Committed(number) if number <= self.commits => Standing::Unseen,
            Fate::Committed(_) => Standing::Past(self.deleted_by),
            Fate::Aborted | Fate::Unused => Standing::Seen,
        }
    }
}

/// The old heap page with this number, from 0, that a head is tried on.
#[derive(Clone, Copy)]
pub struct HeapPage {
    pub number: u32,
}

impl Ask<Option<u32>> for HeapPage {
    ghost use Rattle.engine.specs.Inner.Asked.{heap_page_answer};

    ghost answers = { heap_page_answer };

    fn ask(&self, state: &State, _floor: u32, _since: u64) -> Option<u32> {
        state.heap_page(self.number)
    }
}

/// A page that may be taken as a new one, and the number up to which deleted pages may be.
#[derive(Clone, Copy)]
pub struct NewPage;

impl Ask<Option<(u32, u64)>> for NewPage {
    ghost use Rattle.engine.specs.Inner.Asked.{new_page_answer};

    ghost answers = { new_page_answer };

    fn ask(&self, state: &State, _floor: u32, since: u64) -> Option<(u32, u64)> {
        match take(state, since) {
            Ok(page) => Some((page, since)),
            Err(_) => None,
        }
    }
}

/// The names of the first commits.
#[derive(Drop)]
pub struct FirstCommits {
    pub alloc: Global,
    pub commits: u32,
}

/// The names of a commit.
fn names_of(alloc: Global, state: &State, commit: u32) -> Result<CommitNames, AllocError>
    requires first { 1 ≤ commit }
    requires last { commit ≤ length state.now.value.deleted }
    ensures deleted { IfOk result (λ c.
        slice_get state.now.value.deleted (commit - 1) ≡ Some (c.deleted).items) }
    ensures inserted { IfOk result (λ c.
        slice_get state.now.value.inserted (commit - 1) ≡ Some (c.inserted).items) }
{
    let deleted = state.deleted(commit).to_vec(alloc)?;
    let inserted = state.inserted(commit).to_vec(alloc)?;
    Ok(CommitNames { deleted, inserted })
}

impl Ask<Result<Vec<CommitNames>, AllocError>> for FirstCommits {
    ghost use Rattle.engine.specs.Inner.Asked.{commits_answer};

    ghost answers = { commits_answer };

    fn ask(&self, state: &State, _floor: u32, _since: u64) -> Result<Vec<CommitNames>, AllocError> {
        let mut commits = Vec::new(self.alloc);
        for place in 0..self.commits.min(state.commits()) {
            commits.push(names_of(self.alloc, state, place + 1)?)?;
        }
        Ok(commits)
    }
}
