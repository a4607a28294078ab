// The lines of a definition's body, one after another.
ghost use Rattle.std.specs.Prelude.{IfErr, OnOk};
ghost use Rattle.shell_script.specs.Lines as lines;
ghost use Rattle.shell_script.specs.Replies as replies;
ghost use Rattle.shell_script.specs.StepView.{line as shown};
ghost use Rattle.shell_script.specs.Says.{counted_lines};
ghost use Rattle.shell_script.specs.ReplyView.{refusal};
ghost use Rattle.shell_run.specs.Inner.Bodies.{TakesAll, RefusesOne};

use shell_script::{Line, Lines, Refusal, is_skipped};
use std::alloc::Global;

/// What is made of lines, one after another.
pub trait FromLines {
    /// What a line makes of it.
    ghost takes: { lines.Line → Self → Self → Type 0 };

    /// Why a line is refused.
    ghost refuses: { lines.Line → Self → replies.Refusal → Type 0 };

    /// Takes a line.
    fn take(&mut self, alloc: Global, line: Line<'_>) -> Result<(), Refusal>
        ensures taken { OnOk result (takes (shown line.entry) self.old self.new) }
        ensures refused { IfErr result (λ why. refuses (shown line.entry) self.old (refusal why)) };
}

#[tactic(auto, using(crate::proofs::Taking::taken_start))]
/// Takes the lines of a body that are not skipped, up to the first that is refused.
pub fn take_lines<T: FromLines>(alloc: Global, made: &mut T, body: Lines<'_>) -> Result<(), Refusal>
    ensures taken { OnOk result (TakesAll T.takes (counted_lines body.entry) made.old made.new) }
    ensures refused { IfErr result (λ why. RefusesOne T.takes T.refuses (counted_lines body.entry)
        made.old (refusal why)) }
{
    for line in body {
        if is_skipped(line.bytes) {
            continue;
        }
        if let Err(why) = made.take(alloc, line) {
            return Err(why);
        }
    }
    Ok(())
}
