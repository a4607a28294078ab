// The slots of a heap page before a record and after it.
use log_walks::PlainHead;
use page_types::HeadFields;

/// The slots after the first of these.
fn after_first(slots: &[Option<PlainHead>]) -> &[Option<PlainHead>] {
    match slots {
        [_, back @ ..] => back,
        [] => &[],
    }
}

/// Whether two lists of slots agree on both sides of one.
fn agree_beside(was: &[Option<PlainHead>], left: &[Option<PlainHead>], slot: usize) -> bool {
    match (was.split_at_checked(slot), left.split_at_checked(slot)) {
        (Some((before, old)), Some((front, new))) => {
            before == front && after_first(old) == after_first(new)
        }
        _ => false,
    }
}

/// The head in a slot.
pub(crate) fn head_in(slots: &[Option<PlainHead>], slot: usize) -> Option<&PlainHead> {
    match slots.get(slot) {
        Some(Some(head)) => Some(head),
        _ => None,
    }
}

/// Whether the slot was free or the next, and nothing but it changes.
pub(crate) fn head_comes(
    was: &[Option<PlainHead>],
    left: &[Option<PlainHead>],
    slot: usize,
) -> bool {
    match head_in(was, slot) {
        None => agree_beside(was, left, slot),
        Some(_) => false,
    }
}

/// The fields of a head, with another first overflow page.
pub(crate) fn with_overflow(head: &PlainHead, overflow: u32) -> HeadFields {
    HeadFields {
        overflow,
        ..head.fields
    }
}

/// The fields of a head, with another first private page.
pub(crate) fn with_private(head: &PlainHead, private: u32) -> HeadFields {
    HeadFields {
        private,
        ..head.fields
    }
}

/// The fields of a head, with another deleting transaction.
pub(crate) fn with_deleting(head: &PlainHead, deleted_by: u32) -> HeadFields {
    HeadFields {
        deleted_by,
        ..head.fields
    }
}

/// Whether two heads have the same vector, and the second these fields.
fn has_fields(was: Option<&PlainHead>, left: Option<&PlainHead>, fields: HeadFields) -> bool {
    match (was, left) {
        (Some(was), Some(left)) => left.fields == fields && left.vector == was.vector,
        _ => false,
    }
}

/// Whether the slot's head gets these fields, and nothing else changes.
pub(crate) fn head_becomes(
    was: &[Option<PlainHead>],
    left: &[Option<PlainHead>],
    slot: usize,
    fields: HeadFields,
) -> bool {
    has_fields(head_in(was, slot), head_in(left, slot), fields) && agree_beside(was, left, slot)
}
