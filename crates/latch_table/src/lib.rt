//! Latches on frames, on the journal and on the right of maintenance, as the words of one table,
//! whose rule ties what each session knows to the log.
#![tactic(auto)]

mod attempts;
mod changes;
mod claims;
mod closing;
mod held;
mod laws;
mod laying;
mod pass;
mod plays;
mod rule;
mod slots;
mod states;
mod table;
mod works;

pub use changes::{Changes, Looked};
pub use held::Held;
pub use laws::{empty_stores_lie, may_give, may_look};
pub use pass::Pass;
pub use rule::{LatchRule, Latches, Place};
pub use slots::{Framed, Journaled, Slot};
pub use states::{Find, Note, PassState, PinNote, Reading, RedoNote, Shown, WalkNote};
pub use table::LatchTable;
