// The steps of a cleanup.
ghost use Rattle.std.specs.Prelude.{◌≡◌, ℕ, ◌<◌};
ghost use Rattle.buffer_frames.specs.Passes.{IsPassOf};
ghost use Rattle.gin_place.specs.Placing.{HasRight};
ghost use Rattle.gin_cleanup.specs.Cleaning.{IsCleaning};
ghost use Rattle.gin_cleanup.specs.Going.{HasCleaned};
ghost use Rattle.gin_cleanup.specs.Inner.Between.{IsKeyStage};
ghost use Rattle.gin_cleanup.specs.Inner.Stepping.{StepEnds};

use crate::cleanup::{Cleanup, Stage};
use buffer_frames::{Frames, Pass};
use disk_trait::Disk;
use gin_opclass::key_class;
use gin_place::PlaceError;
use std::alloc::Global;

impl Cleanup {
    /// A step of the key that is placed; after its last one the next key is.
    fn place<D: Disk>(
        &mut self,
        alloc: Global,
        frames: &mut Frames<D>,
        pass: &mut Pass,
    ) -> Result<(), PlaceError>
        requires pass { IsPassOf frames.old pass.old }
        requires right { HasRight pass.old }
        requires none { pass.old.held ≡ 0 }
        requires stage { IsKeyStage self.old.stage }
        requires cleaning { (from : ℕ) × IsCleaning D.Disk frames.old pass.old from self.old }
        ensures { StepEnds D.Disk frames.old pass.old frames.new pass.new self.old self.new result }
    {
        let class = key_class();
        let Stage::Placing {
            key,
            items,
            placing,
        } = &mut self.stage
        else {
            unreachable!();
        };
        let more = placing.step(
            alloc,
            frames,
            pass,
            &class,
            key.as_slice(),
            items.as_slice(),
        )?;
        if !more {
            self.next_key();
        }
        Ok(())
    }

    /// Reads a page, or logs a record.
    fn go_on<D: Disk>(
        &mut self,
        alloc: Global,
        frames: &mut Frames<D>,
        pass: &mut Pass,
    ) -> Result<(), PlaceError>
        requires pass { IsPassOf frames.old pass.old }
        requires right { HasRight pass.old }
        requires none { pass.old.held ≡ 0 }
        requires left { 0 < self.old.left }
        requires cleaning { (from : ℕ) × IsCleaning D.Disk frames.old pass.old from self.old }
        ensures { StepEnds D.Disk frames.old pass.old frames.new pass.new self.old self.new result }
    {
        match &self.stage {
            Stage::Reading { page, .. } => {
                let page = *page;
                self.read(alloc, frames, pass, page)
            }
            Stage::Placing { .. } => self.place(alloc, frames, pass),
            Stage::Shifting => self.shift(alloc, frames, pass),
        }
    }

    /// Reads a page, or logs a record. False exactly where no row that was linked at the beginning is still
    /// linked.
    pub fn step<D: Disk>(
        &mut self,
        alloc: Global,
        frames: &mut Frames<D>,
        pass: &mut Pass,
    ) -> Result<bool, PlaceError>
        requires pass { IsPassOf frames.old pass.old }
        requires right { HasRight pass.old }
        requires none { pass.old.held ≡ 0 }
        requires cleaning { (from : ℕ) × IsCleaning D.Disk frames.old pass.old from self.old }
        ensures { (from : ℕ) → IsCleaning D.Disk frames.old pass.old from self.old
            → HasCleaned D.Disk frames.old pass.old frames.new pass.new from self.old self.new result }
    {
        if self.left == 0 {
            return Ok(false);
        }
        self.go_on(alloc, frames, pass)?;
        Ok(self.left != 0)
    }
}
