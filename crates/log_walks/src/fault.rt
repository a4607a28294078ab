// Why a record may not follow a log.
ghost use Rattle.std.specs.Prelude.{◌↔◌, IsOk, IsTrue};

use std::alloc::{AllocError, AllocFailed};

/// Why a record was not found valid.
#[derive(Clone, Copy)]
pub enum Fault {
    /// Memory ran out.
    OutOfMemory,
    /// This rule is broken.
    Broken(&'static str),
}

impl From<AllocError> for Fault {
    fn from(_: AllocError) -> Self {
        Fault::OutOfMemory
    }
}

impl<T: Drop> From<AllocFailed<T>> for Fault {
    fn from(_: AllocFailed<T>) -> Self {
        Fault::OutOfMemory
    }
}

/// The rule is broken where this doesn't hold.
pub fn must(holds: bool, rule: &'static str) -> Result<(), Fault>
    ensures { IsOk result ↔ IsTrue holds }
{
    if holds {
        Ok(())
    } else {
        Err(Fault::Broken(rule))
    }
}

/// Rules, one after another, of which the first that is broken counts.
#[derive(Clone, Copy)]
pub struct Rules {
    /// The first that is broken, if one is.
    broken: Option<&'static str>,
}

impl Rules {
    /// No rules yet.
    pub fn new() -> Rules {
        Rules { broken: None }
    }

    /// One rule more, which is broken where this doesn't hold.
    pub fn and(self, holds: bool, rule: &'static str) -> Rules {
        if holds || self.broken.is_some() {
            self
        } else {
            Rules { broken: Some(rule) }
        }
    }

    /// These rules, and others after them.
    pub fn then(self, others: Rules) -> Rules {
        if self.broken.is_some() { self } else { others }
    }

    /// The first rule that is broken, if one is.
    pub fn end(self) -> Result<(), Fault> {
        match self.broken {
            None => Ok(()),
            Some(rule) => Err(Fault::Broken(rule)),
        }
    }
}

/// What was found; the rule is broken where nothing was.
pub fn need<T>(found: Option<T>, rule: &'static str) -> Result<T, Fault> {
    match found {
        Some(found) => Ok(found),
        None => Err(Fault::Broken(rule)),
    }
}
