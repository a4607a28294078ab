// An open store.
ghost use Rattle.std.specs.Prelude.{◌≡◌, ◌≤◌, ◌+◌, List, [], IfOk, IfErr, OnOk, OnErr};
ghost use Rattle.ts_base.specs.Encoding.{IsEncoding};
ghost use Rattle.ts_match.specs.Meaning.{Holds};

use crate::commit_names::CommitNames;
use crate::error::DbError;
use crate::transaction::Transaction;
use buffer_frames::{Frames, Pass};
use disk_trait::Disk;
use page_types::Name;
use std::alloc::{AllocError, Global};
use std::marker::Model;
use ts_match::vector_keys;
use ts_query::TsQuery;
use ts_vector::TsVector;

/// An open store.
#[derive(Drop)]
pub struct Db<D: Disk> {
    pub(crate) alloc: Global,
    pub(crate) frames: Frames<D>,
    /// How many pages the pending list may have before it is cleaned up by itself.
    pub(crate) pending: u32,
}

impl<D: Disk> Model for Db<D> {
    ghost use Rattle.engine.specs.Db.{DbValue};

    ghost Value = { DbValue D };

    ghost view = { λ s. record { frames = s.frames; pending = s.pending } };
}

/// The bytes of a vector.
fn encoded(alloc: Global, vector: &TsVector) -> Result<Vec<u8>, AllocError>
    ensures { IfOk result (λ bytes. IsEncoding bytes.items vector.now) }
{
    let _lexemes = vector.count();
    let mut bytes = Vec::new(alloc);
    vector.encode(&mut bytes)?;
    Ok(bytes)
}

impl<D: Disk> Db<D> {
    ghost use Rattle.page_types.specs.declared.record.Record.{Record};
    ghost use Rattle.buffer_frames.specs.Passes.{split_of, joined_with};
    ghost use Rattle.engine.specs.Db.{disk_of};
    ghost use Rattle.engine.specs.Standing.{GoesOn};
    ghost use Rattle.engine.specs.Work.{commit_of, storing, inserting, updating, deleting};
    ghost use Rattle.engine.specs.Going.{Goes, FaultIsTold};
    ghost use Rattle.engine.specs.Answers.{IsResting, IsSession, KeepsSessions, TakesSnapshot};
    ghost use Rattle.engine.specs.Answers.{HasStored, HasDeleted, HasFound, HasListed, OnlyReads};
    ghost use Rattle.engine.specs.Answers.{IsLawfulRefusal, MeetsNoBadPage};
    ghost use Rattle.engine.specs.Cleaning.{StoresThenTidies};
    ghost use Rattle.engine.specs.Coming.{ComesToBadPage};
    ghost use Rattle.engine.specs.Inner.Parts.{IsRunning, HasChanged, KeepsWork, no_changes};
    ghost use Rattle.engine.specs.Inner.Doing.{HasDone, HasStopped, IsNotDone, TellsOfWork, removing, removal};

    /// Marks the document of a name deleted, where one is given.
    fn remove(
        &mut self,
        pass: &mut Pass,
        work: Transaction,
        deletes: Option<Name>,
    ) -> Result<(), DbError>
        requires running { IsRunning D.Disk self.old pass.old work }
        requires changed { HasChanged D.Disk self.old pass.old work.xid no_changes }
        ensures running { IsRunning D.Disk self.new pass.new work }
        ensures done { OnOk result (HasDone D.Disk self.old self.new pass.new work
            (removing deletes) (removal deletes)) }
        ensures keeps { KeepsWork pass.old pass.new }
        ensures fault { FaultIsTold D.Disk self.old self.new result }

        // The refusals: it is not marked.
        ensures refused { OnErr result (Goes D.Disk self.old self.new []) }
        ensures cause { IfErr result (λ e. IsNotDone D.Disk self.old work (removing deletes) e) }
        ensures lawful { IfErr result (λ e. TellsOfWork D.Disk self.old work (removing deletes) e) }
    {
        match deletes {
            Some(name) => self.mark(pass, work, name),
            None => Ok(()),
        }
    }

    /// Places a document of this vector, once the one of a name is marked, where one is given: its name.
    fn place(
        &mut self,
        pass: &mut Pass,
        work: Transaction,
        deletes: Option<Name>,
        vector: &TsVector,
    ) -> Result<Name, DbError>
        requires running { IsRunning D.Disk self.old pass.old work }
        requires changed { HasChanged D.Disk self.old pass.old work.xid no_changes }
        ensures running { IsRunning D.Disk self.new pass.new work }
        ensures done { IfOk result (λ name. HasDone D.Disk self.old self.new pass.new work
            (storing deletes vector.now) (commit_of (storing deletes vector.now) name)) }
        ensures keeps { KeepsWork pass.old pass.new }
        ensures fault { FaultIsTold D.Disk self.old self.new result }

        // The refusals: some of the work may be done.
        ensures refused { OnErr result
            (HasStopped D.Disk self.old self.new work.xid (storing deletes vector.now)) }
        ensures cause { IfErr result
            (λ e. IsNotDone D.Disk self.old work (storing deletes vector.now) e) }
        ensures lawful { IfErr result
            (λ e. TellsOfWork D.Disk self.old work (storing deletes vector.now) e) }
    {
        let bytes = encoded(self.alloc, vector)?;
        let keys = vector_keys(self.alloc, vector)?;
        self.remove(pass, work, deletes)?;
        self.put(pass, work, &bytes, &keys)
    }

    /// A document of this vector, in place of that of a name, where one is given: its name.
    pub(crate) fn store(
        &mut self,
        pass: &mut Pass,
        deletes: Option<Name>,
        vector: &TsVector,
    ) -> Result<Name, DbError>
        requires session { IsResting self.old pass.old }
        ensures session { IsResting self.new pass.new }
        ensures answered { HasStored D.Disk self.old self.new pass.new
            (storing deletes vector.now) result }
        ensures snapshot { TakesSnapshot self.old self.new pass.old pass.new }
        ensures path { (rs : List Record) × Goes D.Disk self.old self.new rs }
        ensures fault { FaultIsTold D.Disk self.old self.new result }
        ensures lawful { IfErr result (λ e. IsLawfulRefusal D.Disk self.old (storing deletes vector.now) e) }
    {
        let work = self.begin(pass, deletes)?;
        let placed = self.place(pass, work, deletes, vector);
        self.finish(pass, work, placed)
    }

    /// The document of a name is deleted.
    fn take_away(&mut self, pass: &mut Pass, name: Name) -> Result<(), DbError>
        requires session { IsResting self.old pass.old }
        ensures session { IsResting self.new pass.new }
        ensures answered { HasDeleted D.Disk self.old self.new pass.new (deleting name) result }
        ensures snapshot { TakesSnapshot self.old self.new pass.old pass.new }
        ensures path { (rs : List Record) × Goes D.Disk self.old self.new rs }
        ensures fault { FaultIsTold D.Disk self.old self.new result }
        ensures lawful { IfErr result (λ e. IsLawfulRefusal D.Disk self.old (deleting name) e) }
    {
        let work = self.begin(pass, Some(name))?;
        let removed = self.remove(pass, work, Some(name));
        self.finish(pass, work, removed)
    }

    /// A document of this vector, committed and flushed: its name. The pending list is cleaned up then, where it
    /// has more pages than the store's setting; the answer is that of the commit.
    pub fn insert(&mut self, pass: &mut Pass, vector: &TsVector) -> Result<Name, DbError>
        requires session { IsSession self.old pass.old }
        ensures session { IsSession self.new pass.new }
        ensures others { KeepsSessions self.old self.new }
        ensures answered { StoresThenTidies D.Disk self.old self.new pass.new
            (inserting vector.now) result }
        ensures snapshot { TakesSnapshot self.old self.new pass.old pass.new }
        ensures goes_on { GoesOn D.Disk self.old self.new }
        ensures lawful { IfErr result (λ e. IsLawfulRefusal D.Disk self.old (inserting vector.now) e) }
    {
        self.store_and_tidy(pass, None, vector)
    }

    /// A document of this vector in place of the one of a name, committed and flushed: its name. The pending list
    /// is cleaned up then as after an insert.
    pub fn update(
        &mut self,
        pass: &mut Pass,
        name: Name,
        vector: &TsVector,
    ) -> Result<Name, DbError>
        requires session { IsSession self.old pass.old }
        ensures session { IsSession self.new pass.new }
        ensures others { KeepsSessions self.old self.new }
        ensures answered { StoresThenTidies D.Disk self.old self.new pass.new
            (updating name vector.now) result }
        ensures snapshot { TakesSnapshot self.old self.new pass.old pass.new }
        ensures goes_on { GoesOn D.Disk self.old self.new }
        ensures lawful { IfErr result (λ e. IsLawfulRefusal D.Disk self.old (updating name vector.now) e) }
    {
        self.store_and_tidy(pass, Some(name), vector)
    }

    /// The document of a name is deleted, committed and flushed.
    pub fn delete(&mut self, pass: &mut Pass, name: Name) -> Result<(), DbError>
        requires session { IsSession self.old pass.old }
        ensures session { IsSession self.new pass.new }
        ensures others { KeepsSessions self.old self.new }
        ensures answered { HasDeleted D.Disk self.old self.new pass.new (deleting name) result }
        ensures snapshot { TakesSnapshot self.old self.new pass.old pass.new }
        ensures goes_on { GoesOn D.Disk self.old self.new }
        ensures fault { FaultIsTold D.Disk self.old self.new result }
        ensures lawful { IfErr result (λ e. IsLawfulRefusal D.Disk self.old (deleting name) e) }
    {
        let deleted = self.take_away(pass, name);
        self.frames.keeps_history();
        deleted
    }

    /// The names of the documents of the snapshot that satisfy the query, by serial.
    fn search_now(&mut self, pass: &mut Pass, query: &TsQuery) -> Result<Vec<Name>, DbError>
        requires session { IsResting self.old pass.old }
        ensures session { IsResting self.new pass.new }
        ensures found { HasFound D.Disk self.old self.new (Holds query.now) result }
        ensures snapshot { TakesSnapshot self.old self.new pass.old pass.new }
        ensures path { Goes D.Disk self.old self.new [] }
        ensures fault { FaultIsTold D.Disk self.old self.new result }
        ensures way { IfErr result (λ e. ComesToBadPage D.Disk self.old query.now e) }
        ensures lawful { IfErr result (λ e. MeetsNoBadPage D.Disk self.old e) }
    {
        let snapshot = self.frames.pin(pass)?;
        let found = self.find(pass, query, snapshot);
        self.frames.unpin(pass);
        found
    }

    /// The names of the documents that satisfy the query, by serial.
    pub fn search(&mut self, pass: &mut Pass, query: &TsQuery) -> Result<Vec<Name>, DbError>
        requires session { IsSession self.old pass.old }
        ensures session { IsSession self.new pass.new }
        ensures others { KeepsSessions self.old self.new }
        ensures found { HasFound D.Disk self.old self.new (Holds query.now) result }
        ensures reads { OnlyReads D.Disk self.old self.new }
        ensures snapshot { TakesSnapshot self.old self.new pass.old pass.new }
        ensures goes_on { GoesOn D.Disk self.old self.new }
        ensures fault { FaultIsTold D.Disk self.old self.new result }
        ensures way { IfErr result (λ e. ComesToBadPage D.Disk self.old query.now e) }
        ensures lawful { IfErr result (λ e. MeetsNoBadPage D.Disk self.old e) }
    {
        let names = self.search_now(pass, query);
        self.frames.keeps_history();
        names
    }

    /// The names of the commits of the snapshot, in their order.
    fn commits_now(&mut self, pass: &mut Pass) -> Result<Vec<CommitNames>, DbError>
        requires session { IsResting self.old pass.old }
        ensures session { IsResting self.new pass.new }
        ensures listed { HasListed D.Disk self.old self.new result }
        ensures snapshot { TakesSnapshot self.old self.new pass.old pass.new }
        ensures path { Goes D.Disk self.old self.new [] }
        ensures fault { FaultIsTold D.Disk self.old self.new result }
        ensures lawful { IfErr result (λ e. MeetsNoBadPage D.Disk self.old e) }
    {
        let snapshot = self.frames.pin(pass)?;
        let listed = self.list(pass, snapshot);
        self.frames.unpin(pass);
        listed
    }

    /// The names of the flushed commits, in their order.
    pub fn commits(&mut self, pass: &mut Pass) -> Result<Vec<CommitNames>, DbError>
        requires session { IsSession self.old pass.old }
        ensures session { IsSession self.new pass.new }
        ensures others { KeepsSessions self.old self.new }
        ensures listed { HasListed D.Disk self.old self.new result }
        ensures reads { OnlyReads D.Disk self.old self.new }
        ensures snapshot { TakesSnapshot self.old self.new pass.old pass.new }
        ensures goes_on { GoesOn D.Disk self.old self.new }
        ensures fault { FaultIsTold D.Disk self.old self.new result }
        ensures lawful { IfErr result (λ e. MeetsNoBadPage D.Disk self.old e) }
    {
        let commits = self.commits_now(pass);
        self.frames.keeps_history();
        commits
    }

    /// A pass for another session, of room 1, which has seen as much.
    pub fn split(&self, pass: &mut Pass) -> Pass
        requires session { IsSession self.now pass.old }
        requires room { 2 ≤ pass.old.room }
        ensures session { IsSession self.now pass.new }
        ensures other { IsSession self.now result }
        ensures room { (pass.new ≡ record pass.old { room = pass.new.room })
            × (pass.new.room + 1 ≡ pass.old.room) }
        ensures same { result ≡ split_of pass.old }
    {
        self.frames.split(pass)
    }

    /// Another pass ends in this one, which has then seen what either has, and has both rooms.
    pub fn join(&self, pass: &mut Pass, other: Pass)
        requires session { IsSession self.now pass.old }
        requires other { IsSession self.now other }
        requires rooms { pass.old.room + other.room ≤ 16 }
        ensures session { IsSession self.now pass.new }
        ensures both { pass.new ≡ joined_with other pass.old }
    {
        self.frames.join(pass, other);
    }

    /// The device, as the store leaves it. It needs the room of all passes.
    pub fn close(self, pass: Pass) -> D
        requires { pass.room ≡ 16 }
        ensures { result ≡ disk_of self }
    {
        self.frames.close(pass)
    }
}
