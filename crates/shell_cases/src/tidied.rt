// Texts of a case with maintenance after each statement of a session.
use std::alloc::{AllocError, Global};

/// What a statement of maintenance is answered.
pub const DONE: &str = "ok";

/// A text with a line of the first session, of this word, after each of its lines that begins with a session's label.
pub fn with_after_each(alloc: Global, text: &str, word: &str) -> Result<String, AllocError> {
    let mut long = String::new(alloc);
    for part in text.split_inclusive('\n') {
        long.push_str(part)?;
        if part.starts_with('@') {
            long.push_str("@1 ")?;
            long.push_str(word)?;
            long.push_str("\n")?;
        }
    }
    Ok(long)
}
