// The slots of a heap page, read from left to right.
ghost use Rattle.std.specs.Prelude.{◌≡◌, [], Ok};
ghost use Rattle.std.specs.Option.{option_map};
ghost use Rattle.page_types.specs.Fields.{Gives};
ghost use Rattle.page_types.specs.Parts.{head_shown};
ghost use Rattle.page_code.specs.Bodies.{vector_at, head_at, used_slot_at, heap_slot_at, slots_at};

use crate::fields::read_below;
use page_types::{
    HeadFields, HeadRef, MOST_SHORT_BYTES, PAGE_LIMIT, ReadError, Slots, slice_at, u32_at, u64_at,
};
use std::alloc::Global;

/// A vector of this many bytes, where it is in its head.
fn read_vector(size: u32, bytes: &[u8]) -> Result<(&[u8], &[u8]), ReadError>
    ensures { Gives (λ x. (x.0.now, x.1.now)) result (vector_at size bytes.now) }
{
    if size <= MOST_SHORT_BYTES {
        slice_at(size as usize, bytes)
    } else {
        Ok((&[], bytes))
    }
}

/// A head.
#[tactic(auto, unfolding(crate::specs::Bodies::head_at))]
fn read_head(bytes: &[u8]) -> Result<(HeadRef<'_>, &[u8]), ReadError>
    ensures { Gives (λ x. (head_shown x.0, x.1.now)) result (head_at bytes.now) }
{
    let (serial, rest) = u64_at(bytes)?;
    let (inserted_by, rest) = u32_at(rest)?;
    let (deleted_by, rest) = u32_at(rest)?;
    let (overflow, rest) = read_below(PAGE_LIMIT, rest)?;
    let (private, rest) = read_below(PAGE_LIMIT, rest)?;
    let (size, rest) = u32_at(rest)?;
    let (vector, rest) = read_vector(size, rest)?;
    let fields = HeadFields {
        serial,
        inserted_by,
        deleted_by,
        overflow,
        private,
        bytes: size,
    };
    Ok((HeadRef { fields, vector }, rest))
}

/// A used slot after the byte 1.
#[tactic(auto, unfolding(crate::specs::Bodies::used_slot_at))]
fn read_used(bytes: &[u8]) -> Result<(Option<HeadRef<'_>>, &[u8]), ReadError>
    ensures { Gives (λ x. (option_map head_shown x.0, x.1.now)) result (used_slot_at bytes.now) }
{
    let (head, rest) = read_head(bytes)?;
    Ok((Some(head), rest))
}

/// A slot: the byte 0, free, or the byte 1 and a head.
fn read_slot(bytes: &[u8]) -> Result<(Option<HeadRef<'_>>, &[u8]), ReadError>
    ensures { Gives (λ x. (option_map head_shown x.0, x.1.now)) result (heap_slot_at bytes.now) }
{
    match bytes {
        [] => Err(ReadError::Fault(0)),
        [0, rest @ ..] => Ok((None, rest)),
        [1, rest @ ..] => read_used(rest),
        [_, ..] => Err(ReadError::Fault(bytes.len())),
    }
}

/// So many slots.
pub fn read_slots(alloc: Global, count: u16, bytes: &[u8]) -> Result<(Slots, &[u8]), ReadError>
    ensures { Gives (λ x. (x.0, x.1.now)) result (slots_at count bytes.now) }
{
    let mut slots = Slots::new(alloc);
    let mut rest = bytes;
    for _ in 0..count {
        let (slot, behind) = read_slot(rest)?;
        slots.push(slot)?;
        rest = behind;
    }
    Ok((slots, rest))
}
