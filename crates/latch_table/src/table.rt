// The table with its memory.
ghost use Rattle.std.specs.Prelude.{◌≡◌, ◌≢◌, ℕ, ◌+◌, ◌-◌, ◌<◌, ◌≤◌, ◌^◌, ◌∷◌, ◌++◌, true, false, Some, None, length};
ghost use Rattle.std.specs.Prelude.{IfOk, IfErr, MatchOption};
ghost use Rattle.std.specs.declared.snapshot.Snapshot.{Snapshot};
ghost use Rattle.core_state.specs.Log.{Log, In};
ghost use Rattle.latch_table.specs.declared.slots.Slot.TheVariants.{Away};
ghost use Rattle.latch_table.specs.declared.states.Note.{Note};
ghost use Rattle.latch_table.specs.PassStates.{first_state, found_by, without_frame, without_work, with_less_room};
ghost use Rattle.latch_table.specs.PassStates.{split_off, joined};
ghost use Rattle.latch_table.specs.Told.{HasClaimed, HasClaimedJournal, HasClaimedWork, HasOpened};
ghost use Rattle.latch_table.specs.Giving.{HasGivenJournal, CanGive};
ghost use Rattle.latch_table.specs.Laying.{CanLie};
ghost use Rattle.latch_table.specs.Closing.{HasClosed};
ghost use Rattle.latch_table.specs.Lines.{Absent};
ghost use Rattle.latch_table.specs.Passes.{state, IsIdle, IsPassOf, MayClaim};

use crate::attempts::{Again, Once};
use crate::changes::Changes;
use crate::claims::{put, put_journal, take, take_journal, turn};
use crate::closing::unlay;
use crate::held::Held;
use crate::laying::{counts, found, open_first};
use crate::pass::Pass;
use crate::plays::{Cut, Glue, Look};
use crate::rule::{Base, Place};
use crate::slots::{Framed, Journaled};
use crate::works::{put_work, take_work};
use std::alloc::Global;
use std::hint::spin_loop;
use std::sync::Wait;
use std::sync::atomic::{AtomicU32, Ordering};

/// How often a claim looks at a word that is taken, before it sleeps.
const SPINS: u32 = 64;

/// A sleep compares the bits of a word below this one.
const LOW: u64 = 1 << 32;

/// The frames and the journal, each after its latch, and the right of maintenance.
#[derive(Drop)]
pub struct LatchTable<F: Framed, J: Journaled> {
    pub(crate) table: Base<F, J>,
    /// How many sleep, or are about to, until a word is free.
    pub(crate) waiting: Vec<AtomicU32>,
    ghost words: { table.shared.table_id.words ≡ table.shared.table_id.slots },
    ghost counts: { length waiting.items ≡ table.shared.table_id.words },
    ghost last: { 2 ≤ table.shared.table_id.slots },
}

impl<F: Framed + Drop, J: Journaled> LatchTable<F, J> {
    /// The table over these frames and this journal, with a first pass, which has seen the
    /// journal's log. For want of memory the journal comes back.
    pub fn new(
        alloc: Global,
        frames: Vec<F>,
        journal: J,
    ) -> Result<(LatchTable<F, J>, Pass<F, J>), J>
        requires count { length frames.items < 2 ^ 32 }
        requires lie { CanLie F.Framed J.Journaled frames.items journal }
        ensures pass { IfOk result (λ t. IsPassOf t.0.table.shared.table_id t.1) }
        ensures frames { IfOk result
            (λ t. t.0.table.shared.table_id.slots ≡ length frames.items + 2) }
        ensures opened { IfOk result (λ t. (key : Snapshot J) × (key.value ≡ journal)
            × HasOpened J.Journaled journal (first_state key) (state t.1)) }
        ensures refused { IfErr result (λ b. b ≡ journal) }
    {
        let Ok(waiting) = counts(alloc, frames.len() + 2) else {
            return Err(journal);
        };
        let made = found(alloc, frames, journal)?;
        let (table, seat) = made;
        Ok(open_first(table, seat, waiting))
    }

    /// Closes the table by the last pass, to which all others were joined. The frames are dropped,
    /// and the journal comes back.
    pub fn close(self, pass: Pass<F, J>) -> J
        requires pass { IsPassOf self.table.shared.table_id pass }
        requires idle { IsIdle (state pass) }
        requires last { (state pass).room ≡ 16 }
        ensures { HasClosed J.Journaled result (state pass) }
    {
        let LatchTable { table, waiting } = self;
        let Pass { seat, held: _ } = pass;
        drop(waiting);
        unlay(table.close_with(seat))
    }
}

impl<F: Framed, J: Journaled> LatchTable<F, J> {
    /// Claims a frame, with the page that is sought, and waits until it is free.
    pub fn claim<R: Wait>(&self, rt: &R, pass: &mut Pass<F, J>, frame: u32, page: u32) -> F
        requires pass { IsPassOf self.now.table.shared.table_id pass.old }
        requires may { MayClaim self.now.table.shared.table_id frame (state pass.old) }
        requires not_held { Absent frame (state pass.old).frames }
        ensures pass { IsPassOf self.now.table.shared.table_id pass.new }
        ensures seat { pass.new.seat.id ≡ pass.old.seat.id }
        ensures claimed { HasClaimed F.Framed J.Journaled frame page result (state pass.old)
            (state pass.new) }
    {
        let value = self.take_waiting(rt, &mut pass.seat, frame as usize, page);
        pass.held = pass.held.with(frame);
        value
    }

    /// The same at once. None comes exactly where the one exchange found the word of that frame
    /// taken.
    pub fn try_claim(&self, pass: &mut Pass<F, J>, frame: u32, page: u32) -> Option<F>
        requires pass { IsPassOf self.now.table.shared.table_id pass.old }
        requires may { MayClaim self.now.table.shared.table_id frame (state pass.old) }
        ensures pass { IsPassOf self.now.table.shared.table_id pass.new }
        ensures seat { pass.new.seat.id ≡ pass.old.seat.id }
        ensures claimed { (found : ℕ) × MatchOption result
            ((found ≢ 0) × (state pass.new ≡ found_by true frame found (state pass.old)))
            (λ f. (found ≡ 0)
            × HasClaimed F.Framed J.Journaled frame page f
            (found_by true frame found (state pass.old)) (state pass.new)) }
    {
        let value = take::<F, J, Once>(&self.table.shared, &mut pass.seat, frame as usize, page)?;
        pass.held = pass.held.with(frame);
        Some(value)
    }

    /// Gives a frame back, which has the page and the bytes that are noted.
    pub fn give_back(&self, pass: &mut Pass<F, J>, frame: u32, value: F)
        requires pass { IsPassOf self.now.table.shared.table_id pass.old }
        requires no_journal { (state pass.old).journal ≡ None }
        requires noted { (note : Note) × In note (state pass.old).frames × (note.frame ≡ frame)
            × (F.page value ≡ note.page) × (F.bytes value ≡ note.bytes) }
        ensures pass { IsPassOf self.now.table.shared.table_id pass.new }
        ensures seat { pass.new.seat.id ≡ pass.old.seat.id }
        ensures given { state pass.new ≡ without_frame frame (state pass.old) }
    {
        let behind = pass.held.position(frame);
        let count = pass.held.count();
        pass.held = pass.held.without(frame);
        turn(&mut pass.seat, behind);
        put(&self.table.shared, &mut pass.seat, frame as usize, value);
        turn(&mut pass.seat, count - 1 - behind);
        self.wake(frame as usize);
    }

    /// Claims the journal, and waits until it is free. The pass has then seen its log.
    pub fn claim_journal<R: Wait>(&self, rt: &R, pass: &mut Pass<F, J>) -> J
        requires pass { IsPassOf self.now.table.shared.table_id pass.old }
        requires no_journal { (state pass.old).journal ≡ None }
        ensures pass { IsPassOf self.now.table.shared.table_id pass.new }
        ensures seat { pass.new.seat.id ≡ pass.old.seat.id }
        ensures claimed { HasClaimedJournal J.Journaled result (state pass.old) (state pass.new) }
    {
        self.take_journal_waiting(rt, &mut pass.seat)
    }

    /// Gives the journal back, with what the kind of change says that the pass changed.
    pub fn give_back_journal<C: Changes<J>>(&self, pass: &mut Pass<F, J>, journal: J)
        requires pass { IsPassOf self.now.table.shared.table_id pass.old }
        requires can { CanGive J.Journaled (self.now.table.shared.table_id.slots - 2)
            (state pass.old) journal (C.change (state pass.old) journal) }
        ensures pass { IsPassOf self.now.table.shared.table_id pass.new }
        ensures seat { pass.new.seat.id ≡ pass.old.seat.id }
        ensures given { (b : J) → (state pass.old).journal ≡ Some b
            → HasGivenJournal J.Journaled b journal (C.change (state pass.old) journal)
            (state pass.old) (state pass.new) }
    {
        let word = self.table.slot_count() - 2;
        put_journal::<F, J, C>(&self.table.shared, &mut pass.seat, word, journal);
        self.wake(word);
    }

    /// Claims the right of maintenance, and waits until it is free.
    pub fn claim_work<R: Wait>(&self, rt: &R, pass: &mut Pass<F, J>)
        requires pass { IsPassOf self.now.table.shared.table_id pass.old }
        requires no_right { (state pass.old).work ≡ None }
        ensures pass { IsPassOf self.now.table.shared.table_id pass.new }
        ensures seat { pass.new.seat.id ≡ pass.old.seat.id }
        ensures claimed { HasClaimedWork J.Journaled (state pass.old) (state pass.new) }
    {
        self.take_work_waiting(rt, &mut pass.seat);
    }

    /// The same at once. False comes exactly where the one exchange found the last word, that of
    /// the right, taken.
    pub fn try_claim_work(&self, pass: &mut Pass<F, J>) -> bool
        requires pass { IsPassOf self.now.table.shared.table_id pass.old }
        requires no_right { (state pass.old).work ≡ None }
        ensures pass { IsPassOf self.now.table.shared.table_id pass.new }
        ensures seat { pass.new.seat.id ≡ pass.old.seat.id }
        ensures claimed { (found : ℕ)
            × (result ≡ true → (found ≡ 0)
            × HasClaimedWork J.Journaled
            (found_by true (self.now.table.shared.table_id.slots - 1) found (state pass.old))
            (state pass.new))
            × (result ≡ false → (found ≢ 0)
            × (state pass.new
            ≡ found_by true (self.now.table.shared.table_id.slots - 1) found (state pass.old))) }
    {
        let word = self.table.slot_count() - 1;
        take_work::<F, J, Once>(&self.table.shared, &mut pass.seat, word)
    }

    /// Gives the right of maintenance back.
    pub fn give_back_work(&self, pass: &mut Pass<F, J>)
        requires pass { IsPassOf self.now.table.shared.table_id pass.old }
        requires right { (at : ℕ) × ((state pass.old).work ≡ Some at) }
        ensures pass { IsPassOf self.now.table.shared.table_id pass.new }
        ensures seat { pass.new.seat.id ≡ pass.old.seat.id }
        ensures given { state pass.new ≡ without_work (state pass.old) }
    {
        let word = self.table.slot_count() - 1;
        put_work(&self.table.shared, &mut pass.seat, word);
        self.wake(word);
    }

    /// A second pass, which has seen the same, with a room of 1.
    pub fn split(&self, pass: &mut Pass<F, J>) -> Pass<F, J>
        requires pass { IsPassOf self.now.table.shared.table_id pass.old }
        requires room { 1 < (state pass.old).room }
        ensures pass { IsPassOf self.now.table.shared.table_id pass.new }
        ensures seat { pass.new.seat.id ≡ pass.old.seat.id }
        ensures second { IsPassOf self.now.table.shared.table_id result }
        ensures less { state pass.new ≡ with_less_room (state pass.old) }
        ensures same { state result ≡ split_off (state pass.old) }
    {
        let seat = self.table.shared.split_seat::<Cut>(&mut pass.seat);
        let held = Held::None;
        Pass { seat, held }
    }

    /// The pass takes in another, and has seen the longer of what both have, of which what each has
    /// seen is a beginning.
    pub fn join(&self, pass: &mut Pass<F, J>, other: Pass<F, J>)
        requires pass { IsPassOf self.now.table.shared.table_id pass.old }
        requires other { IsPassOf self.now.table.shared.table_id other }
        requires idle { IsIdle (state other) }
        ensures pass { IsPassOf self.now.table.shared.table_id pass.new }
        ensures seat { pass.new.seat.id ≡ pass.old.seat.id }
        ensures both { state pass.new ≡ joined (state pass.old) (state other) }
        ensures this { (later : Log) × ((state pass.new).seen ≡ later ++ (state pass.old).seen) }
        ensures that { (later : Log) × ((state pass.new).seen ≡ later ++ (state other).seen) }
    {
        let Pass { seat, held: _ } = other;
        self.table.shared.join_seat::<Glue>(&mut pass.seat, seat);
        self.table.shared.load::<Look>(&mut pass.seat, 0);
    }

    /// Claims the right of maintenance, and waits until it is free.
    fn take_work_waiting<R: Wait>(&self, rt: &R, seat: &mut Place<F, J>)
        requires table { seat.old.table_id ≡ self.now.table.shared.table_id }
        requires room { 0 < seat.old.me.0.room }
        ensures same { (seat.new.table_id ≡ seat.old.table_id) × (seat.new.id ≡ seat.old.id) }
        ensures claimed { HasClaimedWork J.Journaled seat.old.me.0 seat.new.me.0 }
        ensures out { seat.new.me.1 ≡ seat.old.me.1 }
    {
        let word = self.table.slot_count() - 1;
        for _ in rt.forever() {
            if take_work::<F, J, Again>(&self.table.shared, seat, word) {
                return;
            }
            self.wait(rt, word);
        }
        unreachable!()
    }

    /// Claims the journal, and waits until it is free.
    fn take_journal_waiting<R: Wait>(&self, rt: &R, seat: &mut Place<F, J>) -> J
        requires table { seat.old.table_id ≡ self.now.table.shared.table_id }
        requires room { 0 < seat.old.me.0.room }
        ensures same { (seat.new.table_id ≡ seat.old.table_id) × (seat.new.id ≡ seat.old.id) }
        ensures claimed { HasClaimedJournal J.Journaled result seat.old.me.0 seat.new.me.0 }
        ensures out { seat.new.me.1
            ≡ (self.now.table.shared.table_id.slots - 2, Away) ∷ seat.old.me.1 }
    {
        let word = self.table.slot_count() - 2;
        for _ in rt.forever() {
            if let Some(journal) = take_journal(&self.table.shared, seat, word) {
                return journal;
            }
            self.wait(rt, word);
        }
        unreachable!()
    }

    /// Claims a frame for a page, and waits until it is free.
    fn take_waiting<R: Wait>(&self, rt: &R, seat: &mut Place<F, J>, frame: usize, page: u32) -> F
        requires table { (seat.old.table_id ≡ self.now.table.shared.table_id)
            × (frame + 2 < self.now.table.shared.table_id.slots) }
        requires room { 0 < seat.old.me.0.room }
        ensures same { (seat.new.table_id ≡ seat.old.table_id) × (seat.new.id ≡ seat.old.id) }
        ensures claimed { HasClaimed F.Framed J.Journaled frame page result seat.old.me.0
            seat.new.me.0
            × (seat.new.me.1 ≡ (frame, Away) ∷ seat.old.me.1) }
    {
        for _ in rt.forever() {
            if let Some(value) = take::<F, J, Again>(&self.table.shared, seat, frame, page) {
                return value;
            }
            self.wait(rt, frame);
        }
        unreachable!()
    }

    /// Waits until the word may be free.
    fn wait<R: Wait>(&self, rt: &R, word: usize)
        requires { word < self.now.table.shared.table_id.words }
    {
        for _ in 0..SPINS {
            if self.table.shared.peek(word) == 0 {
                return;
            }
            spin_loop();
        }
        self.sleep(rt, word);
    }

    /// Sleeps until the word may be free. A give back that comes once it is counted wakes it.
    fn sleep<R: Wait>(&self, rt: &R, word: usize)
        requires { word < self.now.table.shared.table_id.words }
    {
        let waiting = &self.waiting[word];
        waiting.fetch_add(1, Ordering::SeqCst);
        let found = self.table.shared.peek(word);
        if found != 0 {
            self.table.shared.park(rt, word, (found % LOW) as u32);
        }
        waiting.fetch_sub(1, Ordering::SeqCst);
    }

    /// Wakes one that sleeps for the word, if somebody may.
    fn wake(&self, word: usize)
        requires { word < self.now.table.shared.table_id.words }
    {
        if self.waiting[word].load(Ordering::SeqCst) != 0 {
            self.table.shared.wake_one(word);
        }
    }
}
