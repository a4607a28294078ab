// The running transactions, found by their xids.
ghost use Rattle.std.specs.Prelude.{◌≡◌, ◌↔◌, ◌<◌, ◌≤◌, ◌++◌, ◌∷◌, ℕ, suc, true, [], length, OnOk, IsOk, IfSome};
ghost use Rattle.std.specs.Prelude.{IfNone, None, option_copied};
ghost use Rattle.std.specs.Vec.{vec_capacity};
ghost use Rattle.core_state.specs.States.{all_ended, transaction, without, replaced, with_placed, with_marked};
ghost use Rattle.core_state.specs.Inner.Begun.{running_of, kept, AreBegun, IsRunningAt};
ghost use Rattle.core_state.specs.declared.transactions.Transaction.{Transaction as Entry};

use crate::answers::Fate;
use crate::transactions::{Names, Transaction, set_fate};
use page_types::Name;
use std::alloc::{AllocError, Global};
use std::marker::Model;

/// A transaction that has begun, and whether it runs still.
#[derive(Drop)]
pub(crate) struct Begun {
    pub(crate) transaction: Transaction,
    pub(crate) runs: bool,
}

/// The running transactions, in the order in which they began, which is that of their xids. One
/// that has ended keeps its place until the ended ones are more than those that run, so that none
/// has to move when one ends.
#[derive(Drop)]
pub(crate) struct RunningOnes {
    begun: Vec<Begun>,
    running: usize,
}

impl Model for RunningOnes {
    ghost use Rattle.std.specs.Prelude.{◌≡◌, ◌≤◌, ◌*◌, ◌-◌, length};
    ghost use Rattle.std.specs.Vec.{vec_capacity};
    ghost use Rattle.core_state.specs.Inner.Begun.{Kept, running_of, end_of, AreBegun};

    ghost Value = { Kept };

    ghost view = { λ r. record {
      list = running_of r.begun.items;
      left = vec_capacity r.begun - length r.begun.items;
      end = end_of 0 r.begun.items;
    } };

    ghost invariant = { λ r. AreBegun 0 r.begun.items
        × (r.running ≡ length (running_of r.begun.items))
        × (length r.begun.items ≤ 2 * r.running) };
}

/// The place of the transaction with this xid, if it runs.
fn place_of(begun: &[Begun], xid: u32) -> Option<usize>
    requires { AreBegun 0 begun.now }
    ensures some { IfSome result (IsRunningAt begun.now xid) }
    ensures none { IfNone result (transaction xid (running_of begun.now) ≡ None) }
{
    match begun.binary_search_by_key(&xid, |b| b.transaction.xid) {
        Ok(i) if begun[i].runs => Some(i),
        _ => None,
    }
}

/// A transaction without names.
fn bare(alloc: Global, xid: u32, runs: bool) -> Begun
    ensures { result ≡ record {
      transaction = record { xid = xid; deleted = []; inserted = [] };
      runs = runs;
    } }
{
    Begun {
        transaction: Transaction {
            xid,
            deleted: Names::new(alloc),
            inserted: Names::new(alloc),
        },
        runs,
    }
}

/// The ended ones go.
fn drop_ended(begun: &mut Vec<Begun>)
    ensures { begun.new.items ≡ kept begun.old.items }
{
    begun.retain(|b| b.runs);
}

impl RunningOnes {
    /// No transaction runs.
    pub(crate) fn new(alloc: Global) -> RunningOnes
        ensures list { result.list ≡ [] }
        ensures end { result.end ≡ 0 }
    {
        RunningOnes {
            begun: Vec::new(alloc),
            running: 0,
        }
    }

    /// Whether none runs.
    pub(crate) fn is_empty(&self) -> bool
        ensures { result ≡ true ↔ (self.now.list ≡ []) }
    {
        self.running == 0
    }

    /// Makes room for one more.
    pub(crate) fn reserve(&mut self) -> Result<(), AllocError>
        ensures list { self.new.list ≡ self.old.list }
        ensures end { self.new.end ≡ self.old.end }
        ensures room { OnOk result (0 < self.new.left) }
        ensures fresh { (xid : ℕ) → self.old.end ≤ xid → transaction xid self.old.list ≡ None }
        ensures ok { 0 < self.old.left → IsOk result }
    {
        self.begun.reserve(1)
    }

    /// One more begins, after all that have begun, and there is room for it.
    pub(crate) fn begin(&mut self, alloc: Global, xid: u32)
        requires room { 0 < self.old.left }
        requires next { self.old.end ≤ xid }
        ensures list { self.new.list
            ≡ self.old.list ++ record { xid = xid; deleted = []; inserted = [] } ∷ [] }
        ensures end { self.new.end ≡ suc xid }
    {
        self.begun.push_reserved(bare(alloc, xid, true));
        self.running += 1;
    }

    /// The running transaction with this xid.
    pub(crate) fn find(&self, xid: u32) -> Option<&Transaction>
        ensures { option_copied result ≡ transaction xid self.now.list }
    {
        let i = place_of(&self.begun, xid)?;
        Some(&self.begun[i].transaction)
    }

    /// One name more that the running transaction with this xid has placed.
    pub(crate) fn note_placed(&mut self, xid: u32, name: Name, spare: &mut Vec<Name>)
        requires { IfSome (transaction xid self.old.list)
            (λ (t : Entry). length t.inserted < vec_capacity spare.old) }
        ensures list { IfSome (transaction xid self.old.list)
            (λ (t : Entry). self.new.list ≡ replaced (with_placed name t) self.old.list) }
        ensures end { self.new.end ≡ self.old.end }
    {
        if let Some(i) = place_of(&self.begun, xid) {
            let t = &mut self.begun[i].transaction;
            t.inserted.add(name, spare);
        }
    }

    /// One name more that the running transaction with this xid has marked.
    pub(crate) fn note_marked(&mut self, xid: u32, name: Name, spare: &mut Vec<Name>)
        requires { IfSome (transaction xid self.old.list)
            (λ (t : Entry). length t.deleted < vec_capacity spare.old) }
        ensures list { IfSome (transaction xid self.old.list)
            (λ (t : Entry). self.new.list ≡ replaced (with_marked name t) self.old.list) }
        ensures end { self.new.end ≡ self.old.end }
    {
        if let Some(i) = place_of(&self.begun, xid) {
            let t = &mut self.begun[i].transaction;
            t.deleted.add(name, spare);
        }
    }

    /// The transaction with this xid runs no more.
    pub(crate) fn leave(&mut self, alloc: Global, xid: u32)
        ensures list { self.new.list ≡ without xid self.old.list }
        ensures end { self.new.end ≤ self.old.end }
    {
        let Some(i) = place_of(&self.begun, xid) else {
            return;
        };
        self.begun[i] = bare(alloc, xid, false);
        self.running -= 1;
        if self.begun.len() - self.running > self.running {
            drop_ended(&mut self.begun);
        }
    }

    /// Every one of them ends: its fate is Aborted.
    pub(crate) fn end_all(&mut self, fates: &mut [Fate])
        ensures fates { fates.new ≡ all_ended self.old.list fates.old }
        ensures list { self.new.list ≡ [] }
        ensures end { self.new.end ≡ 0 }
        ensures room { self.old.left ≤ self.new.left }
    {
        abort_running(fates, &self.begun);
        self.begun.clear();
        self.running = 0;
    }
}

/// The fates after those of these transactions that run are ended.
fn abort_running(fates: &mut [Fate], begun: &[Begun])
    ensures { fates.new ≡ all_ended (running_of begun.now) fates.old }
{
    for b in begun {
        if b.runs {
            set_fate(fates, b.transaction.xid, Fate::Aborted);
        }
    }
}
