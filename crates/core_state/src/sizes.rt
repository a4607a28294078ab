// The lengths of pages' bodies, and what changes make of them.
ghost use Rattle.std.specs.Prelude.{◌≡◌, ◌<◌, ◌-◌, ◌+◌, min, length, get_or};
ghost use Rattle.std.specs.Vec.{vec_capacity};
ghost use Rattle.page_types.specs.Numbers.{page_limit};
ghost use Rattle.page_types.specs.Edits.{used_in};
ghost use Rattle.core_state.specs.States.{edited_size, put_at};

use byteorder::{ByteOrder, LittleEndian};
use page_types::{Edit, PAGE_BYTES};

/// The used length that a page's bytes have.
#[tactic(auto, unfolding(page_types::specs::Edits::used_in))]
fn used_length(bytes: &[u8]) -> u16
    requires { length bytes.now ≡ PAGE_BYTES }
    ensures { result ≡ used_in bytes.now }
{
    LittleEndian::read_u16(&bytes[16..])
}

/// The length of a body of which so many bytes go and so many come.
fn delta_size(old: u16, cut: u16, more: usize) -> u16
    ensures { result ≡ min 65535 (old - cut + more) }
{
    let kept = usize::from(old.saturating_sub(cut));
    kept.saturating_add(more).min(65535) as u16
}

/// The length of the body that an edit leaves.
pub(crate) fn size_after(edit: &Edit, old: u16) -> u16
    ensures { result ≡ edited_size edit.now old }
{
    match edit {
        Edit::Image(bytes) => used_length(bytes.as_slice()),
        Edit::Delta { cut, bytes, .. } => delta_size(old, *cut, bytes.as_slice().len()),
    }
}

/// The length of one page's body.
pub(crate) fn size_at(sizes: &[u16], page: u32) -> u16
    ensures { result ≡ get_or sizes.now page 0 }
{
    match sizes.get(page as usize) {
        Some(size) => *size,
        None => 0,
    }
}

/// Another length of one page's body.
pub(crate) fn put_size(sizes: &mut Vec<u16>, page: usize, size: u16)
    requires small { page < page_limit }
    requires room_before { page < vec_capacity sizes.old }
    ensures items { sizes.new.items ≡ put_at 0 page size sizes.old.items }
    ensures room { vec_capacity sizes.new ≡ vec_capacity sizes.old }
{
    let missing = (page + 1).saturating_sub(sizes.len());
    for added in 0..missing {
        let _ = added;
        sizes.push_reserved(0);
    }
    sizes[page] = size;
}
