// Item lists on pages, read from left to right.
ghost use Rattle.page_types.specs.Fields.{Gives};
ghost use Rattle.page_code.specs.Items.{items_at, list_at};

use page_types::{ReadError, read_items};

/// So many items; what is after them is read.
pub fn skip_items(count: u16, bytes: &[u8]) -> Result<&[u8], ReadError>
    ensures { Gives (λ rest. rest.now) result (items_at count bytes.now) }
{
    match read_items(usize::from(count), bytes) {
        Ok(read) if read.count < usize::from(count) => Err(ReadError::Fault(0)),
        Ok(read) => Ok(read.rest),
        Err(left) => Err(ReadError::Fault(left)),
    }
}

/// An item list, all of the bytes: nothing is left after it.
pub fn skip_list(bytes: &[u8]) -> Result<&[u8], ReadError>
    ensures { Gives (λ rest. rest.now) result (list_at bytes.now) }
{
    match read_items(bytes.len(), bytes) {
        Ok(read) => Ok(read.rest),
        Err(left) => Err(ReadError::Fault(left)),
    }
}
