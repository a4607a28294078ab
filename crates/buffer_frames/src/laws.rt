// What holds of files and what they open to.
ghost use Rattle.buffer_frames.specs.NoStore.{CountedAreOne, NoStoreIsNone};
ghost use Rattle.buffer_frames.specs.Inner.Known.{StoresAreKnown};
ghost use Rattle.buffer_frames.specs.Opens.{OpensToOne};
ghost use Rattle.buffer_frames.specs.Beginnings.{StaysSince};

use core_state::history_is_one;
use disk_trait::Disk;
use wal::{never_refused, one_list};

/// The records that count are one list.
pub fn counted_are_one()
    ensures { CountedAreOne }
{
    one_list();
}

/// What files open to is one history.
pub fn opens_to_one()
    ensures { OpensToOne }
{
    counted_are_one();
    history_is_one();
}

/// Files that are a store are not refused as none.
pub(crate) fn stores_are_known()
    ensures { StoresAreKnown }
{
    never_refused();
}

/// Files are no store exactly where no records count and can be applied.
pub fn no_store_is_none()
    ensures { NoStoreIsNone }
{
    stores_are_known();
}

/// The commits that a crash leaves since some moment stay there in each later call of a journal.
pub fn flushed_stay<D: Disk>()
    ensures { StaysSince D.Disk }
{
    counted_are_one();
}
