// A page, read from left to right.
ghost use Rattle.std.specs.Prelude.{◌≡◌, length, IfOk, Ok};
ghost use Rattle.page_types.specs.Fields.{Gives};
ghost use Rattle.page_types.specs.Encoding.{page_bytes};
ghost use Rattle.page_types.specs.Pages.{IsPage};
ghost use Rattle.page_types.specs.declared.page.Page.{Page};
ghost use Rattle.page_code.specs.Bodies.{meta_at, body_at, whole_body_at, in_part};
ghost use Rattle.page_code.specs.Reading.{kind_at, was_at, form_at, count_at, right_at, stamp_at, used_length_at};
ghost use Rattle.page_code.specs.Reading.{framed_at, front_at, page_at};
ghost use Rattle.page_code.specs.Forms.{form_with, count_fits, fits_free};
ghost use Rattle.page_code.specs.Decoding.{Answers, placed};
ghost use Rattle.page_code.specs.Laws.{Encodes};

use crate::entries::{read_entry_children, read_entry_leaf};
use crate::error::PageError;
use crate::fields::{read_below, skip_zeros};
use crate::form::Form;
use crate::heap::read_slots;
use crate::pending::read_rows;
use crate::postings::{read_post_children, read_posting};
use page_types::{
    Body, Bytes, Gone, MOST_BODY_BYTES, MOST_SLOTS, PAGE_LIMIT, Page, ReadError, slice_at, u8_at,
    u16_at, u32_at, u64_at,
};
use std::alloc::Global;

/// The kind of a deleted page.
const DELETED: u8 = 9;

/// The kinds of live pages in the order of their numbers.
const LIVE: [Form; 9] = [
    Form::Free,
    Form::Meta,
    Form::Heap,
    Form::Overflow,
    Form::Pending,
    Form::EntryLeaf,
    Form::EntryInner,
    Form::PostLeaf,
    Form::PostInner,
];

/// What a deleted page was, by the number of that kind.
const GONE: [Option<Form>; 8] = [
    None,
    None,
    None,
    Some(Form::GoneOverflow),
    Some(Form::GonePending),
    None,
    None,
    Some(Form::GonePostLeaf),
];

/// The form of a page of this kind, by the kind before its deletion, which is 0 where it is live.
fn form_of_kinds(kind: u8, was: u8) -> Option<Form>
    ensures { result ≡ form_with kind was }
{
    if kind == DELETED {
        GONE.get(usize::from(was)).copied().flatten()
    } else if was == 0 {
        LIVE.get(usize::from(kind)).copied()
    } else {
        None
    }
}

/// The kind.
#[tactic(auto, unfolding(crate::specs::Reading::kind_at))]
fn read_kind(bytes: &[u8]) -> Result<(u8, &[u8]), ReadError>
    ensures { Gives (λ x. (x.0, x.1.now)) result (kind_at bytes.now) }
{
    let (kind, rest) = u8_at(bytes)?;
    if kind <= DELETED {
        Ok((kind, rest))
    } else {
        Err(ReadError::Fault(bytes.len()))
    }
}

/// The form of a page of this kind, by the kind before its deletion.
#[tactic(auto, unfolding(crate::specs::Reading::was_at))]
fn read_was(kind: u8, bytes: &[u8]) -> Result<(Form, &[u8]), ReadError>
    ensures { Gives (λ x. (x.0, x.1.now)) result (was_at kind bytes.now) }
{
    let (was, rest) = u8_at(bytes)?;
    match form_of_kinds(kind, was) {
        Some(form) => Ok((form, rest)),
        None => Err(ReadError::Fault(bytes.len())),
    }
}

/// The form.
#[tactic(auto, unfolding(crate::specs::Reading::form_at))]
fn read_form(bytes: &[u8]) -> Result<(Form, &[u8]), ReadError>
    ensures { Gives (λ x. (x.0, x.1.now)) result (form_at bytes.now) }
{
    let (kind, rest) = read_kind(bytes)?;
    read_was(kind, rest)
}

/// Whether a page of this form may have so many slots, rows, entries, children or items.
fn may_have(form: Form, count: u16) -> bool
    ensures { result ≡ count_fits form count }
{
    match form {
        Form::Free | Form::Meta | Form::Overflow | Form::GoneOverflow => count == 0,
        Form::Heap => usize::from(count) <= MOST_SLOTS,
        Form::EntryInner | Form::PostInner => count > 0,
        _ => true,
    }
}

/// Whether the number is 0 or the page is not free.
fn is_free_or(form: Form, number: u64) -> bool
    ensures { result ≡ fits_free form number }
{
    match form {
        Form::Free => number == 0,
        _ => true,
    }
}

/// The count.
#[tactic(auto, unfolding(crate::specs::Reading::count_at))]
fn read_count(form: Form, bytes: &[u8]) -> Result<(u16, &[u8]), ReadError>
    ensures { Gives (λ x. (x.0, x.1.now)) result (count_at form bytes.now) }
{
    let (count, rest) = u16_at(bytes)?;
    if may_have(form, count) {
        Ok((count, rest))
    } else {
        Err(ReadError::Fault(bytes.len()))
    }
}

/// The right link.
#[tactic(auto, unfolding(crate::specs::Reading::right_at))]
fn read_right(form: Form, bytes: &[u8]) -> Result<(u32, &[u8]), ReadError>
    ensures { Gives (λ x. (x.0, x.1.now)) result (right_at form bytes.now) }
{
    let (right, rest) = u32_at(bytes)?;
    if right < PAGE_LIMIT && is_free_or(form, u64::from(right)) {
        Ok((right, rest))
    } else {
        Err(ReadError::Fault(bytes.len()))
    }
}

/// The stamp.
#[tactic(auto, unfolding(crate::specs::Reading::stamp_at))]
fn read_stamp(form: Form, bytes: &[u8]) -> Result<(u64, &[u8]), ReadError>
    ensures { Gives (λ x. (x.0, x.1.now)) result (stamp_at form bytes.now) }
{
    let (stamp, rest) = u64_at(bytes)?;
    if is_free_or(form, stamp) {
        Ok((stamp, rest))
    } else {
        Err(ReadError::Fault(bytes.len()))
    }
}

/// The used length; the zero gap after it is read too.
#[tactic(auto, unfolding(crate::specs::Reading::used_length_at))]
fn read_used(bytes: &[u8]) -> Result<(u16, &[u8]), ReadError>
    ensures { Gives (λ x. (x.0, x.1.now)) result (used_length_at bytes.now) }
{
    let (used, rest) = u16_at(bytes)?;
    if usize::from(used) > MOST_BODY_BYTES {
        return Err(ReadError::Fault(bytes.len()));
    }
    let rest = skip_zeros(6, rest)?;
    Ok((used, rest))
}

/// The fields of the metapage.
#[tactic(auto, unfolding(crate::specs::Bodies::meta_at))]
fn read_meta(bytes: &[u8]) -> Result<(Body, &[u8]), ReadError>
    ensures { Gives (λ x. (x.0, x.1.now)) result (meta_at bytes.now) }
{
    let (first, rest) = read_below(PAGE_LIMIT, bytes)?;
    let (last, rest) = read_below(PAGE_LIMIT, rest)?;
    let (pages, rest) = u32_at(rest)?;
    Ok((Body::Meta { first, last, pages }, rest))
}

/// What is on a page of this form.
#[tactic(auto, unfolding(crate::specs::Bodies::body_at))]
fn read_body(
    alloc: Global,
    form: Form,
    right: u32,
    count: u16,
    bytes: &[u8],
) -> Result<(Body, &[u8]), ReadError>
    ensures { Gives (λ x. (x.0, x.1.now)) result (body_at form right count bytes.now) }
{
    match form {
        Form::Free => Ok((Body::Free, bytes)),
        Form::Meta => read_meta(bytes),
        Form::Heap => {
            let (slots, rest) = read_slots(alloc, count, bytes)?;
            Ok((Body::Heap(slots), rest))
        }
        Form::Overflow => Ok((Body::Overflow(Bytes::from_slice(alloc, bytes)?), &[])),
        Form::Pending => {
            let (rows, rest) = read_rows(alloc, count, bytes)?;
            Ok((Body::Pending(rows), rest))
        }
        Form::EntryLeaf => read_entry_leaf(alloc, right, count, bytes),
        Form::EntryInner => {
            let (children, rest) = read_entry_children(alloc, right, count, bytes)?;
            Ok((Body::EntryInner(children), rest))
        }
        Form::PostLeaf => {
            let ((high, items), rest) = read_posting(alloc, right, count, bytes)?;
            Ok((Body::PostLeaf { high, items }, rest))
        }
        Form::PostInner => {
            let (children, rest) = read_post_children(alloc, right, count, bytes)?;
            Ok((Body::PostInner(children), rest))
        }
        Form::GoneOverflow => {
            let part = Bytes::from_slice(alloc, bytes)?;
            Ok((Body::Deleted(Gone::Overflow(part)), &[]))
        }
        Form::GonePending => {
            let (rows, rest) = read_rows(alloc, count, bytes)?;
            Ok((Body::Deleted(Gone::Pending(rows)), rest))
        }
        Form::GonePostLeaf => {
            let ((high, items), rest) = read_posting(alloc, right, count, bytes)?;
            Ok((Body::Deleted(Gone::PostLeaf { high, items }), rest))
        }
    }
}

/// What is on a page of this form, all of the bytes.
#[tactic(auto, unfolding(crate::specs::Bodies::whole_body_at))]
fn read_whole_body(
    alloc: Global,
    form: Form,
    right: u32,
    count: u16,
    bytes: &[u8],
) -> Result<Body, ReadError>
    ensures { Gives (λ b. b) result (whole_body_at form right count bytes.now) }
{
    let (body, rest) = read_body(alloc, form, right, count, bytes)?;
    if rest.is_empty() {
        Ok(body)
    } else {
        Err(ReadError::Fault(rest.len()))
    }
}

/// A body of so many bytes; the zeros after it are read too.
#[tactic(auto, unfolding(crate::specs::Reading::framed_at))]
fn read_framed(
    alloc: Global,
    form: Form,
    right: u32,
    count: u16,
    used: u16,
    bytes: &[u8],
) -> Result<(Body, &[u8]), ReadError>
    ensures { Gives (λ x. (x.0, x.1.now)) result (framed_at form right count used bytes.now) }
{
    let (text, rest) = slice_at(usize::from(used), bytes)?;
    match read_whole_body(alloc, form, right, count, text) {
        Ok(body) => {
            let rest = skip_zeros(MOST_BODY_BYTES.saturating_sub(usize::from(used)), rest)?;
            Ok((body, rest))
        }
        Err(ReadError::OutOfMemory) => Err(ReadError::OutOfMemory),
        Err(ReadError::Fault(left)) => Err(ReadError::Fault(
            bytes.len().saturating_sub(text.len().saturating_sub(left)),
        )),
    }
}

/// A page, and what is after it.
#[tactic(auto, unfolding(crate::specs::Reading::front_at))]
fn read_front(alloc: Global, bytes: &[u8]) -> Result<(Page, &[u8]), ReadError>
    ensures { Gives (λ x. (x.0, x.1.now)) result (front_at bytes.now) }
{
    let (form, rest) = read_form(bytes)?;
    let (count, rest) = read_count(form, rest)?;
    let (right, rest) = read_right(form, rest)?;
    let (stamp, rest) = read_stamp(form, rest)?;
    let (used, rest) = read_used(rest)?;
    let (body, rest) = read_framed(alloc, form, right, count, used, rest)?;
    Ok((Page { right, stamp, body }, rest))
}

/// A page, all of the bytes.
#[tactic(auto, unfolding(crate::specs::Reading::page_at))]
fn read_page(alloc: Global, bytes: &[u8]) -> Result<Page, PageError>
    ensures { Answers result (placed (length bytes.now) (page_at bytes.now)) }
{
    match read_front(alloc, bytes) {
        Ok((page, rest)) => {
            if rest.is_empty() {
                Ok(page)
            } else {
                let at = bytes.len().saturating_sub(rest.len());
                Err(PageError::BadPage { at })
            }
        }
        Err(ReadError::OutOfMemory) => Err(PageError::OutOfMemory),
        Err(ReadError::Fault(left)) => Err(PageError::BadPage {
            at: bytes.len().saturating_sub(left),
        }),
    }
}

/// The page whose encoding the bytes are.
pub fn decode_page(alloc: Global, bytes: &[u8]) -> Result<Page, PageError>
    // What is read is encoded so.
    ensures found { IfOk result (λ p. Encodes bytes.now p) }
    // What is encoded so is read, unless memory runs out.
    ensures only { (p : Page) → IsPage p → bytes.now ≡ page_bytes p → Answers result (Ok p) }
    // Where the first fault is.
    ensures at { Answers result (placed (length bytes.now) (page_at bytes.now)) }
{
    read_page(alloc, bytes)
}
