// Whether records are the same.
use page_types::{Change, Edit, Record};

/// Whether two changes are the same.
fn is_same_change(one: &Change, other: &Change) -> bool {
    let same = match (&one.edit, &other.edit) {
        (Edit::Image(one), Edit::Image(other)) => one.as_slice() == other.as_slice(),
        (
            Edit::Delta {
                front,
                start,
                cut,
                bytes,
            },
            Edit::Delta {
                front: other_front,
                start: other_start,
                cut: other_cut,
                bytes: other_bytes,
            },
        ) => {
            let placed = front == other_front && start == other_start && cut == other_cut;
            placed && bytes.as_slice() == other_bytes.as_slice()
        }
        _ => false,
    };
    same && one.page == other.page
}

/// Whether two lists of changes are the same.
fn are_same_changes(ones: &[Change], others: &[Change]) -> bool {
    for (one, other) in ones.iter().zip(others) {
        if !is_same_change(one, other) {
            return false;
        }
    }
    ones.len() == others.len()
}

/// Whether two records are the same.
fn is_same(one: &Record, other: &Record) -> bool {
    let named = one.number == other.number && one.xid == other.xid && one.kind == other.kind;
    named && are_same_changes(one.changes.as_slice(), other.changes.as_slice())
}

/// How many first records are the same.
pub(crate) fn same_in_front(ones: &[Record], others: &[Record]) -> usize {
    let mut count = 0usize;
    for (one, other) in ones.iter().zip(others) {
        if !is_same(one, other) {
            break;
        }
        count = count.saturating_add(1);
    }
    count
}
