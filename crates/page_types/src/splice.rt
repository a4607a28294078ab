// Other elements in place of some of a list's.
ghost use Rattle.std.specs.Prelude.{◌≡◌, ◌+◌, ◌-◌, ◌≤◌, length, OnOk, OnErr, IsOk};
ghost use Rattle.std.specs.List.{remove_range, splice};
ghost use Rattle.std.specs.Vec.{vec_capacity};

use std::alloc::AllocError;

/// The elements from one place up to another go. It takes no memory.
fn take_out<T: Copy>(list: &mut Vec<T>, from: usize, to: usize)
    requires in_order { from ≤ to }
    requires within { to ≤ length list.old.items }
    ensures { list.new.items ≡ remove_range list.old.items from to }
{
    let left = list.len() - (to - from);
    list[from..].rotate_left(to - from);
    list.truncate(left);
}

/// Elements come in at a place.
fn put_in<T: Copy>(list: &mut Vec<T>, at: usize, new: &[T]) -> Result<(), AllocError>
    requires { at ≤ length list.old.items }
    ensures ok { OnOk result (list.new.items ≡ splice list.old.items at at new.now) }
    ensures err { OnErr result (list.new.items ≡ list.old.items) }
    ensures room { length list.old.items + length new.now ≤ vec_capacity list.old → IsOk result }
{
    list.extend_from_slice(new)?;
    list[at..].rotate_right(new.len());
    Ok(())
}

/// Elements are written over those from a place on.
fn put_over<T: Copy>(list: &mut Vec<T>, at: usize, new: &[T])
    requires { at + length new.now ≤ length list.old.items }
    ensures { list.new.items ≡ splice list.old.items at (at + length new.now) new.now }
{
    let end = at + new.len();
    list[at..end].copy_from_slice(new);
}

/// Other elements in place of those from one place up to another. As many or fewer take no memory.
pub(crate) fn replace_run<T: Copy>(
    list: &mut Vec<T>,
    from: usize,
    to: usize,
    new: &[T],
) -> Result<(), AllocError>
    requires in_order { from ≤ to }
    requires within { to ≤ length list.old.items }
    ensures ok { OnOk result (list.new.items ≡ splice list.old.items from to new.now) }
    ensures err { OnErr result (list.new.items ≡ list.old.items) }
    ensures short { length new.now ≤ to - from → IsOk result }
    ensures room { length list.old.items + length new.now ≤ vec_capacity list.old + (to - from)
        → IsOk result }
{
    let cut = to - from;
    if new.len() <= cut {
        put_over(list, from, new);
        take_out(list, from + new.len(), to);
        return Ok(());
    }
    put_in(list, to, &new[cut..])?;
    put_over(list, from, &new[..cut]);
    Ok(())
}
