// Lists before a record and after it.

/// The first members of a list, and the others.
pub(crate) fn in_two<T>(all: &[T], place: usize) -> (&[T], &[T]) {
    all.split_at_checked(place).unwrap_or((all, &[]))
}

/// Two lists without the members with which both begin.
pub(crate) fn without_same<'a, T: PartialEq>(was: &'a [T], left: &'a [T]) -> (&'a [T], &'a [T]) {
    let mut same = 0usize;
    for (old, new) in was.iter().zip(left) {
        if old != new {
            break;
        }
        same = same.saturating_add(1);
    }
    let (_, olds) = in_two(was, same);
    let (_, news) = in_two(left, same);
    (olds, news)
}

/// Whether two lists, neither of them empty, are the parts of a third.
pub(crate) fn are_parts<T: PartialEq>(whole: &[T], front: &[T], back: &[T]) -> bool {
    match whole.split_at_checked(front.len()) {
        Some((first, second)) => {
            first == front && second == back && !front.is_empty() && !back.is_empty()
        }
        None => false,
    }
}

/// Whether each of the items is among others.
pub(crate) fn are_among(items: &[u32], others: &[u32]) -> bool {
    for item in items {
        if !others.contains(item) {
            return false;
        }
    }
    true
}
