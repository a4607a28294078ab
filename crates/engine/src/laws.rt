// What holds of all stores, and of the definitions alone.
ghost use Rattle.std.specs.Prelude.{◌≡◌, ◌^◌, List};
ghost use Rattle.wal.specs.declared.sizes.TheConstants.{LOG_LIMIT};
ghost use Rattle.page_types.specs.Numbers.{page_limit, most_short, most_body};
ghost use Rattle.core_state.specs.Log.{xid_bound};
ghost use Rattle.ts_query.specs.Queries.{Query};
ghost use Rattle.ts_match.specs.Meaning.{Holds};
ghost use Rattle.engine.specs.Finding.{Document, Name, IsFound};
ghost use Rattle.engine.specs.Standing.{HistoriesAreLawful};

use disk_trait::Disk;

/// The history that a store stands for is a lawful one.
pub fn histories_are_lawful<D: Disk>()
    ensures { HistoriesAreLawful D.Disk }
{}

/// A query finds one list of names in a row of documents.
pub fn one_list()
    ensures { (q : Query) (ds : List Document) (a b : List Name) → IsFound (Holds q) ds a
        → IsFound (Holds q) ds b → a ≡ b }
{}

/// The limits of a vector that is in its head, of a part of a longer one, of pages, logs and xids.
pub fn limits()
    ensures vector { most_short ≡ 2000 }
    ensures part { most_body ≡ 8168 }
    ensures pages { page_limit ≡ 2 ^ 20 }
    ensures log { LOG_LIMIT ≡ 2 ^ 40 }
    ensures xids { xid_bound ≡ 2 ^ 24 }
{}
