//! The snapshots in use, at most sixteen at once, and the oldest of them.
#![tactic(auto)]

ghost use Rattle.std.specs.Prelude.{◌≡◌, ℕ, List, Option, None, Some, replicate, slice_set, IfSome, IfNone, length};
ghost use Rattle.snap_pins.specs.declared.Pin.{Pin};
ghost use Rattle.snap_pins.specs.declared.TheConstants.{PLACES};
ghost use Rattle.snap_pins.specs.Taken.{IsFree, IsTaken, IsLeast};

use std::marker::Model;

/// How many snapshots may be in use at once.
pub const PLACES: usize = 16;

/// A snapshot in use.
#[derive(Clone, Copy, Debug)]
pub struct Pin {
    /// How many commits it counts.
    pub commits: u32,
    /// How many records the log had when it was taken.
    pub length: u64,
}

/// The snapshots in use, each in a place of its own.
#[derive(Debug, Drop)]
pub struct Pins {
    places: [Option<Pin>; PLACES],
}

impl Model for Pins {
    ghost Value = { List (Option Pin) };

    ghost view = { λ p. p.places };

    ghost invariant = { λ p. length p.places ≡ PLACES };
}

impl Pins {
    /// No snapshot in use.
    pub fn new() -> Pins
        ensures { result ≡ replicate PLACES None }
    {
        Pins {
            places: [None; PLACES],
        }
    }

    /// The first place without a snapshot, if there is one.
    pub fn first_free(&self) -> Option<usize>
        ensures free { IfSome result (λ place. IsFree self.now place) }
        ensures none { IfNone result ((place : ℕ) → ¬ IsFree self.now place) }
    {
        self.places.iter().position(|place| place.is_none())
    }

    /// Takes a snapshot into use, and returns its place.
    pub fn pin(&mut self, commits: u32, length: u64) -> usize
        requires { (place : ℕ) × IsFree self.old place }
        ensures free { IsFree self.old result }
        ensures pinned { self.new ≡ slice_set self.old result (Some (record { commits = commits; length = length })) }
    {
        let place = self.first_free().unwrap_or(0);
        let places = &mut self.places;
        places[place] = Some(Pin { commits, length });
        place
    }

    /// Gives up the snapshot in this place.
    pub fn unpin(&mut self, place: usize)
        requires { IsTaken self.old place }
        ensures { self.new ≡ slice_set self.old place None }
    {
        let places = &mut self.places;
        places[place] = None;
    }

    /// The least of this number of commits and those of all snapshots in use, and the least of this length and theirs.
    pub fn floor(&self, commits: u32, length: u64) -> (u32, u64)
        ensures commits { IsLeast self.now (λ p. p.commits) commits result.0 }
        ensures length { IsLeast self.now (λ p. p.length) length result.1 }
    {
        let mut floor = (commits, length);
        for place in &self.places {
            if let Some(pin) = place {
                floor = (floor.0.min(pin.commits), floor.1.min(pin.length));
            }
        }
        floor
    }
}
