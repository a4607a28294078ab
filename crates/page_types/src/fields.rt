// Fields of bytes, read from left to right. The codecs of pages and records read by these.
ghost use Rattle.std.specs.Prelude.{◌≡◌, ◌^◌, ◌<◌, IfOk};
ghost use Rattle.page_types.specs.Fields.{Gives, number_at, bytes_at};

use byteorder::{ByteOrder, LittleEndian};
use std::alloc::{AllocError, AllocFailed};

/// Why a field was not read.
#[derive(Clone, Copy, Debug, PartialEq, Eq)]
pub enum ReadError {
    /// Memory ran out.
    OutOfMemory,
    /// So many bytes were left before the field that is refused, 0 where the bytes end within it.
    Fault(usize),
}

impl From<AllocError> for ReadError {
    ghost use Rattle.page_types.specs.declared.fields.ReadError.TheVariants.{OutOfMemory};

    ghost from_gives = { λ _ e. e ≡ OutOfMemory };

    fn from(_: AllocError) -> Self {
        ReadError::OutOfMemory
    }
}

impl<T: Drop> From<AllocFailed<T>> for ReadError {
    ghost use Rattle.page_types.specs.declared.fields.ReadError.TheVariants.{OutOfMemory};

    ghost from_gives = { λ _ e. e ≡ OutOfMemory };

    fn from(_: AllocFailed<T>) -> Self {
        ReadError::OutOfMemory
    }
}

/// A byte, and those after it.
#[tactic(auto, unfolding(crate::specs::Fields::number_at))]
pub fn u8_at(bytes: &[u8]) -> Result<(u8, &[u8]), ReadError>
    ensures { Gives (λ x. (x.0, x.1.now)) result (number_at 1 bytes.now) }
{
    if bytes.is_empty() {
        return Err(ReadError::Fault(0));
    }
    let (front, rest) = bytes.split_at(1);
    Ok((front[0], rest))
}

/// A number in two bytes, and the bytes after it.
#[tactic(auto, unfolding(crate::specs::Fields::number_at))]
pub fn u16_at(bytes: &[u8]) -> Result<(u16, &[u8]), ReadError>
    ensures { Gives (λ x. (x.0, x.1.now)) result (number_at 2 bytes.now) }
{
    if bytes.len() < 2 {
        return Err(ReadError::Fault(0));
    }
    Ok((LittleEndian::read_u16(bytes), &bytes[2..]))
}

/// A number in four bytes, and the bytes after it.
#[tactic(auto, unfolding(crate::specs::Fields::number_at))]
pub fn u32_at(bytes: &[u8]) -> Result<(u32, &[u8]), ReadError>
    ensures { Gives (λ x. (x.0, x.1.now)) result (number_at 4 bytes.now) }
{
    if bytes.len() < 4 {
        return Err(ReadError::Fault(0));
    }
    Ok((LittleEndian::read_u32(bytes), &bytes[4..]))
}

/// A number in eight bytes, and the bytes after it.
#[tactic(auto, unfolding(crate::specs::Fields::number_at))]
pub fn u64_at(bytes: &[u8]) -> Result<(u64, &[u8]), ReadError>
    ensures { Gives (λ x. (x.0, x.1.now)) result (number_at 8 bytes.now) }
{
    if bytes.len() < 8 {
        return Err(ReadError::Fault(0));
    }
    Ok((LittleEndian::read_u64(bytes), &bytes[8..]))
}

/// So many bytes, and those after them.
#[tactic(auto, unfolding(crate::specs::Fields::bytes_at))]
pub fn slice_at(size: usize, bytes: &[u8]) -> Result<(&[u8], &[u8]), ReadError>
    ensures { Gives (λ x. (x.0.now, x.1.now)) result (bytes_at size bytes.now) }
{
    if bytes.len() < size {
        return Err(ReadError::Fault(0));
    }
    let (front, rest) = bytes.split_at(size);
    Ok((front, rest))
}
