// What holds of the definitions alone.
ghost use Rattle.std.specs.Prelude.{◌≡◌, ℕ, ◌^◌, List};
ghost use Rattle.ts_config.specs.Known.{Known};
ghost use Rattle.shell_script.specs.Lines.{Line};
ghost use Rattle.shell_script.specs.OpeningLines.{OpeningLine};
ghost use Rattle.shell_script.specs.Grammar.{Expr, QuerySource};
ghost use Rattle.shell_run.specs.Traces.{NoneIsStoredAfterFailure, NoneIsCommittedAfterFailure, NoClockFalls};
ghost use Rattle.shell_run.specs.Traces.{NoFlushIsLate, NoFlushIsOwed, NoCommitIsEarly, NoCommitIsLate};
ghost use Rattle.shell_run.specs.Traces.{NoCommitIsLeftOut, NoneIsReplacedUnseen};
ghost use Rattle.shell_run.specs.Traces.{EachFailureIsNoted, OneCountIsTold, NothingIsPrintedWith4, NoNameIsTakenTwice};
ghost use Rattle.shell_run.specs.Traces.{NoneRunsAfterTheSinkFailed, NoHalfScriptIsRun, NoLogIsWiped};
ghost use Rattle.shell_run.specs.Traces.{NoStrayFileIsWritten, NoStoreIsWrittenUnrun, NoPageIsWritten};
ghost use Rattle.shell_run.specs.NextRun.{OpensIsNoRefusal, EmptyMayStart, NextMayStart, NextHasAll};
ghost use Rattle.shell_run.specs.Defining.{HasOneAnswer};
ghost use Rattle.shell_run.specs.declared.script.TheConstants.{SCRIPT_LIMIT};
ghost use Rattle.shell_run.specs.declared.sending.TheConstants.{PIECE_BYTES};
ghost use Rattle.shell_run.specs.Values.{IsExprAnswer, IsQueryAnswer, IsOneAnswer};

use disk_trait::{Disk, Sink, Source};
use engine::{no_store_is_none, opens_to_one};

/// Want of memory aside, an expression has one answer, and so have a query and a definition.
pub fn one_answer()
    ensures expressions { (known : Known) (e : Expr) → IsOneAnswer (IsExprAnswer known e) }
    ensures queries { (known : Known) (q : QuerySource) → IsOneAnswer (IsQueryAnswer known q) }
    ensures definitions { (known : Known) (number : ℕ) (head : OpeningLine) (lines : List Line)
        → HasOneAnswer known number head lines }
{}

/// The most bytes of a script, and those at which text is written.
pub fn limits()
    ensures script { SCRIPT_LIMIT ≡ 2 ^ 30 }
    ensures piece { PIECE_BYTES ≡ 8192 }
{}

/// Runs that the contract of a run rules out.
pub fn ruled_out<S: Source, K: Sink, D: Disk>()
    ensures stored_after_failure { NoneIsStoredAfterFailure }
    ensures committed_after_failure { NoneIsCommittedAfterFailure }
    ensures clock_falls { NoClockFalls D.Disk }
    ensures late_flush { NoFlushIsLate D.Disk }
    ensures owed_flush { NoFlushIsOwed D.Disk }
    ensures early { NoCommitIsEarly }
    ensures late { NoCommitIsLate }
    ensures left_out { NoCommitIsLeftOut }
    ensures unseen { NoneIsReplacedUnseen }
    ensures unnoted { EachFailureIsNoted }
    ensures two_counts { OneCountIsTold }
    ensures printed_with_4 { NothingIsPrintedWith4 }
    ensures taken_twice { NoNameIsTakenTwice }
    ensures after_the_sink { NoneRunsAfterTheSinkFailed }
    ensures half_a_script { NoHalfScriptIsRun S.Source K.Sink D.Disk }
    ensures wiped { NoLogIsWiped K.Sink D.Disk }
    ensures stray { NoStrayFileIsWritten K.Sink D.Disk }
    ensures unrun { NoStoreIsWrittenUnrun K.Sink D.Disk }
    ensures page_written { NoPageIsWritten K.Sink D.Disk }
{}

/// A run may start from empty files, and from what a run that so started, or a crash in it, has left,
/// also after openings that were refused. The history that it begins with has every commit that was
/// acknowledged.
pub fn next_run<D: Disk, E: Disk>()
    ensures opens { OpensIsNoRefusal }
    ensures empty { EmptyMayStart D.Disk }
    ensures may_start { NextMayStart D.Disk E.Disk }
    ensures has_all { NextHasAll D.Disk E.Disk }
{
    opens_to_one();
    no_store_is_none();
}
