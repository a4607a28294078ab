// Stacks in lists that have room: the top is the last element.
ghost use Rattle.std.specs.Prelude.{◌≡◌, ◌+◌, ◌-◌, ◌<◌, ◌∷◌, reverse, vec_len, vec_capacity};
ghost use Rattle.ts_match.specs.Inner.Stacks.{top_or, below};

/// Puts a value on top.
pub fn put<T>(stack: &mut Vec<T>, value: T)
    requires { vec_len stack.old < vec_capacity stack.old }
    ensures stack { reverse stack.new.items ≡ value ∷ reverse stack.old.items }
    ensures len { vec_len stack.new ≡ vec_len stack.old + 1 }
    ensures capacity { vec_capacity stack.new ≡ vec_capacity stack.old }
{
    stack.push_reserved(value);
}

/// Takes the top off; the default where there is none.
pub fn take_top<T: Drop>(stack: &mut Vec<T>, default: T) -> T
    ensures top { result ≡ top_or default (reverse stack.old.items) }
    ensures stack { reverse stack.new.items ≡ below (reverse stack.old.items) }
    ensures len { vec_len stack.new ≡ vec_len stack.old - 1 }
    ensures capacity { vec_capacity stack.new ≡ vec_capacity stack.old }
{
    match stack.pop() {
        Some(value) => value,
        None => default,
    }
}
