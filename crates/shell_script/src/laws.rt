// What holds of the definitions alone.
ghost use Rattle.std.specs.Prelude.{◌≡◌, ℕ, List};
ghost use Rattle.shell_script.specs.Grammar.{Statement};
ghost use Rattle.shell_script.specs.Steps.{Step};
ghost use Rattle.shell_script.specs.Says.{Says};
ghost use Rattle.shell_script.specs.StepsOf.{OneReading};
ghost use Rattle.shell_script.specs.Tokens.{ScriptToken, IsSpelled};

/// A line is one list of tokens at most.
pub fn one_spelling()
    ensures { (line : List ℕ) (ts us : List ScriptToken)
        → IsSpelled line ts → IsSpelled line us → ts ≡ us }
{}

/// A step says one thing.
pub fn one_meaning()
    ensures { (step : Step) (s t : ℕ) (a b : Statement) → Says step s a → Says step t b
        → (s ≡ t) × (a ≡ b) }
{}

/// A script has exactly one list of steps.
pub fn one_reading()
    ensures { OneReading }
{}
