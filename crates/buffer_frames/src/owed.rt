// What goes before a record: the Abort that an opening owes.
ghost use Rattle.std.specs.Prelude.{◌≡◌, ◌++◌, ◌<◌, [], length, cond, IfOk};
ghost use Rattle.page_types.specs.Records.{IsRecord, record_bytes};
ghost use Rattle.page_types.specs.declared.record.Kind.TheVariants as kind;
ghost use Rattle.core_state.specs.States.{step_of};
ghost use Rattle.core_state.specs.Rooms.{HasRoom};
ghost use Rattle.buffer_frames.specs.Journals.{owed_abort as owed_record};
ghost use Rattle.buffer_frames.specs.Opens.{IsLoggedKind};

use core_state::State;
use page_types::{Changes, Kind, Record};
use record_code::encode_record;
use std::alloc::{AllocError, Global};

/// The Abort that ends all that ran before an opening.
pub(crate) fn owed_abort(alloc: Global, number: u64) -> Record
    ensures { result ≡ owed_record number }
{
    Record {
        number,
        xid: 0,
        kind: Kind::Abort,
        changes: Changes::new(alloc),
    }
}

/// The bytes of a record, after those of the owed Abort, where one is owed.
pub(crate) fn encoded(
    alloc: Global,
    owes: bool,
    owed: &Record,
    rec: &Record,
) -> Result<Vec<u8>, AllocError>
    requires owed { IsRecord owed.now }
    requires encoded { IsRecord rec.now }
    ensures { IfOk result (λ bytes. bytes.items
        ≡ cond owes (record_bytes owed.now) [] ++ record_bytes rec.now) }
{
    let mut bytes = Vec::new(alloc);
    if owes {
        encode_record(owed, &mut bytes)?;
    }
    encode_record(rec, &mut bytes)?;
    Ok(bytes)
}

/// The state after the owed Abort, where one is owed. Where there was room for the next record there
/// still is.
pub(crate) fn step_owed(state: &mut State, owes: bool, owed: &Record, rec: &Record)
    requires owed { (owed.now.kind ≡ kind.Abort) × (owed.now.xid ≡ 0) × (owed.now.changes ≡ []) }
    requires kind { IsLoggedKind rec.now.kind }
    requires room { HasRoom state.old rec.now }
    ensures value { state.new.value ≡ cond owes (step_of owed.now state.old.value) state.old.value }
    ensures room { HasRoom state.new rec.now }
{
    if owes {
        state.step_reserved(owed);
    }
}
