// A byte, and bytes of a known number, read from the front of bytes.
ghost use Rattle.std.specs.Prelude.{◌≡◌, length, IfOk, Ok};
ghost use Rattle.page_types.specs.Fields.{Gives, bytes_at};
ghost use Rattle.record_code.specs.Fields.{byte_at};

use page_types::ReadError;

/// One byte, and those after it.
pub fn byte_of(bytes: &[u8]) -> Result<(u8, &[u8]), ReadError>
    ensures { Gives (λ x. (x.0, x.1.now)) result (byte_at bytes.now) }
{
    match bytes {
        [] => Err(ReadError::Fault(0)),
        [byte, rest @ ..] => Ok((*byte, rest)),
    }
}

/// So many bytes, and those after them.
#[tactic(auto, unfolding(page_types::specs::Fields::bytes_at))]
pub fn bytes_of(n: usize, bytes: &[u8]) -> Result<(&[u8], &[u8]), ReadError>
    ensures value { Gives (λ x. (x.0.now, x.1.now)) result (bytes_at n bytes.now) }
    ensures size { IfOk result (λ x. length x.0.now ≡ n) }
{
    if bytes.len() < n {
        return Err(ReadError::Fault(0));
    }
    Ok(bytes.split_at(n))
}
