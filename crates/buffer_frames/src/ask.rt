// A question that is asked of the state of a log.
use core_state::State;

/// A question that is asked of the state of a log, with the floor and the number up to which deleted
/// pages may be taken again.
pub trait Ask<T> {
    ghost use Rattle.std.specs.Prelude.{ℕ};
    ghost use Rattle.core_state.specs.States.{StateValue};

    /// Whether this is an answer.
    ghost answers: { Self → StateValue → ℕ → ℕ → T → Type 0 };

    /// An answer. It takes no memory.
    fn ask(&self, state: &State, floor: u32, since: u64) -> T
        ensures { answers self.now state.now.value floor since result };
}
