// Lines: what is put into them, and how they are printed.
use anyhow::Result;
use log_walks::Doc;
use std::alloc::AllocError;

/// Puts a piece and a number after a line.
pub(crate) fn push_number(line: &mut String, piece: &str, number: u64) -> Result<(), AllocError> {
    write!(line, "{piece}{number}")
}

/// Puts a piece and a document after a line: its page, its slot and its serial.
pub(crate) fn push_doc(line: &mut String, piece: &str, doc: Doc) -> Result<(), AllocError> {
    push_number(line, piece, u64::from(doc.page()))?;
    push_number(line, "/", doc.slot() as u64)?;
    push_number(line, "#", doc.serial)
}

/// Prints a line of these parts.
pub(crate) fn say(rt: &impl Print, parts: &[&str]) -> Result<()> {
    for part in parts {
        print!(rt; "{part}")?;
    }
    println!(rt; "")?;
    Ok(())
}

/// Prints how many there are, and how many of them.
pub(crate) fn say_counts(
    rt: &impl Print,
    count: usize,
    what: &str,
    some: usize,
    which: &str,
) -> Result<()> {
    println!(rt; "{count} {what}, {some} {which}")?;
    Ok(())
}
