//! What a script says, line by line, and the text of each reply.
#![tactic(auto)]

ghost use Rattle.std.specs.Prelude.{◌≡◌, false};
ghost use Rattle.shell_script.specs.Lines.{script_lines};
ghost use Rattle.shell_script.specs.Steps.{AreSteps};
ghost use Rattle.shell_script.specs.StepsOf.{steps_of};

mod command_words;
mod docs;
mod laws;
mod line;
mod lines;
mod mappings;
mod opening_lines;
mod replies;
mod script;
mod sources;
mod statement;
mod texts;
mod tokens;

pub use command_words::{
    FEWEST_PAGES, FEWEST_PENDING, MOST_PAGES, MOST_PENDING, Options, USUAL_PAGES, USUAL_PENDING,
    options_of,
};
pub use docs::Doc;
pub use laws::{one_meaning, one_reading, one_spelling};
pub use line::is_skipped;
pub use lines::{Line, Lines};
pub use mappings::{Mapping, Names, Types, read_mapping};
pub use opening_lines::{Kind, LONGEST_NAME, OpeningLine, read_opening_line};
pub use replies::{CommitLine, Refusal, Reply, TextFault};
pub use script::{Step, Steps};
pub use sources::{Expr, Maker, Part, QuerySource, VectorSource};
pub use statement::{ScriptLine, Statement, read_line};
pub use texts::{last_line_of, push_commit, push_token};

/// The steps of a script, one after another, without memory.
pub fn steps(text: &[u8]) -> Steps<'_>
    ensures value { result ≡ steps_of text.now }
    ensures list { AreSteps false (script_lines text.now) result }
{
    Steps::new(text)
}
