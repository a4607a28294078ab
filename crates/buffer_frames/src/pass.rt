// What a session has of a store: how much of the log it has seen, its snapshot, and its room.
ghost use Rattle.std.specs.Prelude.{◌≡◌, None};
ghost use Rattle.buffer_frames.specs.Passes.{xid_after as xid_then};

use page_types::Kind;

/// A snapshot in use.
#[derive(Clone, Copy, Debug)]
pub struct Pinned {
    /// Its place among those in use.
    pub(crate) place: usize,
    /// How many commits it counts.
    pub(crate) commits: u32,
    /// How many records the log had when it was taken.
    pub(crate) length: u64,
}

/// What a session has of a store.
#[derive(Debug, Drop)]
pub struct Pass {
    // how many records of the log it has seen
    pub(crate) seen: u64,
    // how many commits it was shown
    pub(crate) shown: u32,
    // by so many commits a document is dead to all
    pub(crate) floor: u32,
    // pages that were deleted by a record of this number or a lower one may be taken again
    pub(crate) since: u64,
    // its snapshot, if it has one
    pub(crate) pin: Option<Pinned>,
    // how many pages it holds
    pub(crate) held: u32,
    // how many it has held since it was made; the count stays at its last number
    pub(crate) holds: u64,
    // its transaction that runs, if it has one
    pub(crate) xid: Option<u32>,
    // how many passes may be made of it
    pub(crate) room: u32,
    // how many records the log had when it got the right of maintenance, if it has it
    pub(crate) work: Option<u64>,
}

impl Pass {
    /// Gives up its transaction, which runs until the next opening.
    pub fn give_up(&mut self)
        ensures { self.new ≡ record self.old { xid = None } }
    {
        self.xid = None;
    }

    /// How many pages it has held since it was made, each hold counted. The count stays at its last
    /// number.
    pub fn holds(&self) -> u64
        ensures { result ≡ self.now.holds }
    {
        self.holds
    }

    /// How many records the log had when it got the right of maintenance, if it has it.
    pub fn work(&self) -> Option<u64>
        ensures { result ≡ self.now.work }
    {
        self.work
    }

    /// The transaction that runs, if there is one.
    pub fn xid(&self) -> Option<u32>
        ensures { result ≡ self.now.xid }
    {
        self.xid
    }
}

/// The xid of a pass that has logged a record of this kind, which drew this value.
pub(crate) fn xid_after(kind: Kind, value: u32, xid: Option<u32>) -> Option<u32>
    ensures { result ≡ xid_then kind value xid }
{
    match kind {
        Kind::Begin => Some(value),
        Kind::Commit { .. } | Kind::Abort => None,
        _ => xid,
    }
}
