// The record of a step: what it draws, and its pages as images.
ghost use Rattle.std.specs.Prelude.{◌≡◌, ◌<◌, ◌^◌, ◌≤◌, suc, length, All, IfOk, OnOk};
ghost use Rattle.page_types.specs.Pages.{IsPage};
ghost use Rattle.page_types.specs.Records.{IsKind};
ghost use Rattle.page_types.specs.declared.record.Kind.TheVariants as kind;
ghost use Rattle.core_state.specs.Allowed.{numbered, drawn_body, made_by};
ghost use Rattle.core_state.specs.Documents.{slot_of};
ghost use Rattle.buffer_frames.specs.First.{imaged};
ghost use Rattle.buffer_frames.specs.Drawing.{kind_by, xid_by, value_by, front_of, made_sheet, made_sheets, images_of};

use crate::step::{Sheet, Step};
use core_state::State;
use page_code::page_image;
use page_types::{Body, Change, Changes, Edit, HeadFields, Kind, MOST_SLOTS, Page, Record, Slots};
use std::alloc::{AllocError, Global};

/// The kind, with the commit number or the serial that it draws.
pub(crate) fn drawn_kind(state: &State, kind: Kind) -> Kind
    requires { suc (length state.now.value.deleted) < 2 ^ 32 }
    ensures value { result ≡ kind_by state.now.value kind }
    ensures encoded { IsKind kind → IsKind result }
{
    match kind {
        Kind::Commit { .. } => Kind::Commit {
            commit: state.commits() + 1,
        },
        Kind::PlaceHead { item, .. } => Kind::PlaceHead {
            item,
            serial: state.next_serial(),
        },
        other => other,
    }
}

/// The xid, which a Begin draws.
pub(crate) fn drawn_xid(state: &State, kind: Kind, xid: u32) -> u32
    ensures value { result ≡ xid_by state.now.value kind xid }
    ensures fits { result < 2 ^ 32 }
{
    match kind {
        Kind::Begin => state.next_xid(),
        _ => xid,
    }
}

/// The xid, commit number or serial that is drawn; 0 where none is.
pub(crate) fn drawn_value(state: &State, kind: Kind) -> u64
    requires { suc (length state.now.value.deleted) < 2 ^ 32 }
    ensures { result ≡ value_by state.now.value kind }
{
    match kind {
        Kind::Begin => u64::from(state.next_xid()),
        Kind::Commit { .. } => u64::from(state.commits()) + 1,
        Kind::PlaceHead { .. } => state.next_serial(),
        _ => 0,
    }
}

/// The head in this slot gets this serial.
fn number_slot(slots: &mut Slots, k: usize, serial: u64)
    ensures { slots.new ≡ numbered slots.old k serial }
{
    if let Some(head) = slots.get(k) {
        let fields = HeadFields {
            serial,
            ..head.fields
        };
        slots.set_fields(k, fields);
    }
}

/// A page's content as a record of this kind leaves it.
fn draw_body(kind: Kind, body: &mut Body)
    ensures { body.new ≡ drawn_body kind body.old }
{
    if let Kind::PlaceHead { item, serial } = kind {
        if let Body::Heap(slots) = body {
            number_slot(slots, item as usize % MOST_SLOTS, serial);
        }
    }
}

/// The page as the record makes it.
pub(crate) fn make_page(rec: &Record, page: &mut Page)
    ensures { page.new ≡ made_by rec.now page.old }
{
    page.stamp = rec.number;
    draw_body(rec.kind, &mut page.body);
}

/// The change of a page by its image.
pub(crate) fn image_of(alloc: Global, page: u32, content: &Page) -> Result<Change, AllocError>
    requires { IsPage content.now }
    ensures { IfOk result (λ c. c ≡ imaged page content.now) }
{
    let image = page_image(alloc, content)?;
    Ok(Change {
        page,
        edit: Edit::Image(image),
    })
}

/// Pages by their images.
pub(crate) fn images(alloc: Global, sheets: &[Sheet]) -> Result<Changes, AllocError>
    requires { All (λ x. IsPage x.content) sheets.now }
    ensures { IfOk result (λ c. c ≡ images_of sheets.now) }
{
    let mut changes = Changes::new(alloc);
    for sheet in sheets {
        let change = image_of(alloc, sheet.page(), sheet.content())?;
        changes.push(change)?;
    }
    Ok(changes)
}
