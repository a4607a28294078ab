//! A script from a source to a sink, over documents in memory.
#![tactic(auto)]

mod answers;
mod body_lines;
mod defining;
mod dictionaries;
mod error;
mod laws;
mod script;
mod sending;
mod serving;
mod statement_counts;
mod top;
mod values;

pub use engine::{Gate, NoGate};
pub use laws::{limits, next_run, one_answer, ruled_out};
pub use shell_script::Options;
pub use top::{Outcome, run_shell};
