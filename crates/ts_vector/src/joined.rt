// Many vectors in one, joined one after another.
ghost use Rattle.std.specs.Prelude.{◌≡◌, IfOk, IfErr};
ghost use Rattle.ts_vector.specs.Changes.{IsJoinOf};
ghost use Rattle.ts_vector.specs.Failures.{JoinFails};

use crate::error::VectorError;
use crate::gathered::Gathered;
use crate::{SIZE_LIMIT, TsVector};
use std::alloc::{AllocError, Global};
use std::marker::Model;

/// A vector to which others are joined, each in the time of its own size. Contracts see it as its value.
#[derive(Debug, Drop)]
pub struct Joined {
    /// Its entries.
    entries: Gathered,
}

impl Model for Joined {
    ghost use Rattle.std.specs.Prelude.{◌<◌};
    ghost use Rattle.ts_base.specs.Vectors.{Vector, content_size};
    ghost use Rattle.ts_base.specs.declared.TheConstants.{SIZE_LIMIT};

    ghost Value = { Vector };

    ghost view = { λ joined. joined.entries };

    ghost invariant = { λ joined. content_size joined.entries < SIZE_LIMIT };
}

impl Joined {
    /// The vector, before others are joined to it.
    pub fn new(alloc: Global, first: &TsVector) -> Result<Joined, AllocError>
        ensures { IfOk result (λ joined. joined ≡ first.now) }
    {
        let mut entries = Gathered::new(alloc);
        entries.join(alloc, &first.entries)?;
        Ok(Joined { entries })
    }

    /// Joins one more vector, its positions after the greatest so far.
    pub fn push(self, alloc: Global, part: &TsVector) -> Result<Joined, VectorError>
        ensures value { IfOk result (IsJoinOf self part.now) }
        ensures cause { IfErr result (JoinFails self part.now) }
    {
        let mut entries = self.entries;
        let Ok(()) = entries.join(alloc, &part.entries) else {
            return Err(VectorError::OutOfMemory);
        };
        let bytes = entries.size();
        if bytes >= SIZE_LIMIT {
            return Err(VectorError::VectorTooLarge { bytes });
        }
        Ok(Joined { entries })
    }

    /// The vector with all that was joined to it.
    pub fn finish(self, alloc: Global) -> Result<TsVector, AllocError>
        ensures { IfOk result (λ vector. vector ≡ self) }
    {
        let entries = self.entries.columns(alloc)?;
        Ok(TsVector { entries })
    }
}
