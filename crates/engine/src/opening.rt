// The opening of a store.
ghost use Rattle.std.specs.Prelude.{◌≡◌, ◌≤◌, ℕ, IfOk, IfErr};
ghost use Rattle.disk_trait.specs.Device.{Rose};
ghost use Rattle.wal.specs.declared.sizes.TheConstants.{LOG_LIMIT};
ghost use Rattle.page_types.specs.Numbers.{page_limit};
ghost use Rattle.core_state.specs.Log.{xid_bound};
ghost use Rattle.engine.specs.Finding.{History};
ghost use Rattle.engine.specs.Opening.{StartedFrom, OpensAsBefore, HasSamePages, IsNoStore, IsOnlyRead, IsUnmade};
ghost use Rattle.buffer_frames.specs.declared.error.OpenFault.TheVariants.{NotAStore, DiskFault, OutOfMemory};

use crate::db::Db;
use crate::error::Unopened;
use buffer_frames::{Frames, Pass, counted_are_one};
use core_state::{Settings, XID_BOUND};
use disk_trait::Disk;
use std::alloc::Global;
use wal::LOG_LIMIT;

/// The widest bounds of a log and of the xids.
pub const WIDEST: Settings = Settings {
    pages: 65_536,
    frames: 1024,
    pending: 512,
    log_limit: LOG_LIMIT,
    xid_limit: XID_BOUND,
};

impl<D: Disk> Db<D> {
    ghost use Rattle.engine.specs.Answers.{IsSession};
    ghost use Rattle.engine.specs.Opened.{OpenedAt};

    /// The store of a device, created if it is none yet, and a pass that has all room. A refusal gives
    /// the device back; a store that is made, and files that are no store, were only read then.
    pub fn open(alloc: Global, store: D, settings: Settings) -> Result<(Db<D>, Pass), Unopened<D>>
        requires limit { settings.log_limit ≤ LOG_LIMIT }
        requires xids { settings.xid_limit ≤ xid_bound }
        requires pages { settings.pages ≤ page_limit }
        ensures opened { IfOk result (λ x. (c0 : ℕ) × OpenedAt D.Disk settings store c0 x.0 x.1) }
        ensures session { IfOk result (λ x. IsSession x.0 x.1 × ((x.1).room ≡ 16)) }
        ensures store { D.tells → IfOk result (λ _. IsNoStore (D.seen store) → ⊥) }

        // The refusals.
        ensures no_store { D.tells
            → IfErr result (λ e. e.why ≡ NotAStore → IsNoStore (D.seen store)) }
        ensures refused { D.tells → StartedFrom D.Disk store
            → IfErr result (λ e. OpensAsBefore D.Disk store e.store) }
        ensures pages { D.tells → IfErr result (λ e. HasSamePages D.Disk store e.store) }
        ensures keeps { IfErr result (λ e. e.why ≡ NotAStore → IsOnlyRead D.Disk store e.store) }
        ensures made_kept { D.tells → (IsUnmade (D.seen store) → ⊥)
            → IfErr result (λ e. IsOnlyRead D.Disk store e.store) }
        ensures no_store_kept { D.tells → IsNoStore (D.seen store)
            → IfErr result (λ e. IsOnlyRead D.Disk store e.store) }
        ensures fault { IfErr result (λ e. e.why ≡ DiskFault
            → Rose (D.fault_count store) (D.fault_count e.store)) }
        ensures memory { IfErr result (λ e. e.why ≡ OutOfMemory
            → D.write_fault_count e.store ≡ D.write_fault_count store) }
        ensures later { IfErr result (λ e. D.fault_count store ≤ D.fault_count e.store) }
        ensures time { IfErr result (λ e. D.Disk.clock store ≤ D.Disk.clock e.store) }
    {
        counted_are_one();
        match Frames::open(alloc, store, &settings) {
            Ok((frames, pass)) => {
                frames.keeps_history();
                let pending = settings.pending;
                Ok((
                    Db {
                        alloc,
                        frames,
                        pending,
                    },
                    pass,
                ))
            }
            Err((store, why)) => Err(Unopened { store, why }),
        }
    }
}
