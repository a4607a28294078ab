// What a change makes of a page's bytes.
ghost use Rattle.std.specs.Prelude.{◌≡◌, ◌↔◌, ◌+◌, ◌-◌, ◌^◌, ◌≤◌, ◌<◌, ◌++◌, length, take, drop, OnOk, OnErr, IsOk};
ghost use Rattle.page_types.specs.Edits.{edited, spliced, body_in, used_in, CanEdit};
ghost use Rattle.page_types.specs.Encoding.{framed};
ghost use Rattle.page_types.specs.Writing.{overwritten};

use crate::error::BadChange;
use crate::record::{Change, Edit};
use crate::{FRONT_BYTES, MOST_BODY_BYTES, PAGE_BYTES};
use byteorder::{ByteOrder, LittleEndian};

/// Writes bytes over those from a place on.
pub fn put(out: &mut [u8], at: usize, bytes: &[u8])
    requires { at + length bytes.now ≤ length out.old }
    ensures { out.new ≡ overwritten at bytes.now out.old }
{
    let end = at + bytes.len();
    out[at..end].copy_from_slice(bytes);
}

/// The used length that a page's bytes have.
#[tactic(auto, unfolding(crate::specs::Edits::used_in))]
fn used_length(bytes: &[u8]) -> usize
    requires { length bytes.now ≡ PAGE_BYTES }
    ensures value { result ≡ used_in bytes.now }
    ensures bound { result < 2 ^ 16 }
{
    usize::from(LittleEndian::read_u16(&bytes[16..]))
}

/// The page with a new front, a stamp and a body of three parts.
fn put_page(out: &mut [u8], front: &[u8; 8], number: u64, before: &[u8], new: &[u8], behind: &[u8])
    requires size { length out.old ≡ PAGE_BYTES }
    requires room { length before.now + length new.now + length behind.now ≤ MOST_BODY_BYTES }
    ensures { out.new ≡ framed front.now number (before.now ++ (new.now ++ behind.now)) }
{
    let used = before.len() + new.len() + behind.len();
    out.fill(0);
    put(out, 0, front);
    put(out, 8, &number.to_le_bytes());
    put(out, 16, &(used as u16).to_le_bytes());
    put(out, FRONT_BYTES, before);
    put(out, FRONT_BYTES + before.len(), new);
    put(out, FRONT_BYTES + before.len() + new.len(), behind);
}

/// A delta on a page's bytes, where it is in range.
fn put_delta(
    bytes: &mut [u8],
    number: u64,
    front: &[u8; 8],
    place: (usize, usize, usize),
    new: &[u8],
)
    requires size { length bytes.old ≡ PAGE_BYTES }
    requires used { place.2 ≤ MOST_BODY_BYTES }
    requires end { place.0 + place.1 ≤ place.2 }
    requires grown { place.2 - place.1 + length new.now ≤ MOST_BODY_BYTES }
    ensures { let body = take place.2 (drop FRONT_BYTES bytes.old) in
        bytes.new ≡ framed front.now number (spliced place.0 place.1 new.now body) }
{
    let (start, cut, used) = place;
    let mut page = [0u8; PAGE_BYTES];
    put_page(
        &mut page,
        front,
        number,
        &bytes[FRONT_BYTES..FRONT_BYTES + start],
        new,
        &bytes[FRONT_BYTES + start + cut..FRONT_BYTES + used],
    );
    bytes.copy_from_slice(&page);
}

/// Changes a page's bytes, as the record with this number does. A refusal leaves them as they are. It takes no memory.
pub fn apply(bytes: &mut [u8], number: u64, change: &Change) -> Result<(), BadChange>
    requires { length bytes.old ≡ PAGE_BYTES }
    ensures done { OnOk result (bytes.new ≡ edited number change.now.edit bytes.old) }
    ensures ok { IsOk result ↔ CanEdit change.now.edit bytes.old }
    ensures same { OnErr result (bytes.new ≡ bytes.old) }
{
    match &change.edit {
        Edit::Image(image) => {
            bytes.copy_from_slice(image.as_slice());
            Ok(())
        }
        Edit::Delta {
            front,
            start,
            cut,
            bytes: new,
        } => {
            let used = used_length(bytes);
            let (start, cut) = (usize::from(*start), usize::from(*cut));
            if used > MOST_BODY_BYTES || start + cut > used {
                return Err(BadChange);
            }
            if new.len() > MOST_BODY_BYTES - (used - cut) {
                return Err(BadChange);
            }
            put_delta(bytes, number, front, (start, cut, used), new.as_slice());
            Ok(())
        }
    }
}
