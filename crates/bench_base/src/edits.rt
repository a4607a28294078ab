// Edits of a log, one a line: what of its bytes is replaced or put after them, what that does, and the wanted verdict.
use anyhow::{Context, Result, ensure};
use std::alloc::Global;

/// A line of edits, in the form `OFFSET BYTES ..; what it does; verdict`. The bytes, in base 16, are at the offset in
/// place of the log's, or right after them.
#[derive(Clone, Copy)]
pub struct EditLine<'a> {
    /// Pairs of an offset and bytes, as `17 00+61*20`, where the byte 61 is 20 times.
    pairs: &'a str,
    /// What the edit does.
    pub what: &'a str,
    /// The wanted verdict.
    pub wanted: &'a str,
}

impl<'a> EditLine<'a> {
    /// The line's three parts.
    pub fn new(line: &'a str) -> Result<EditLine<'a>> {
        let (pairs, rest) = line.split_once("; ").context("an edit has three parts")?;
        let (what, wanted) = rest.rsplit_once("; ").context("an edit has three parts")?;
        Ok(EditLine {
            pairs,
            what,
            wanted,
        })
    }

    /// The log's bytes with the edit, which may go on after them.
    pub fn apply(&self, alloc: Global, log: &[u8]) -> Result<Vec<u8>> {
        let mut bytes = Vec::from_slice(alloc, log)?;
        let mut words = self.pairs.split_whitespace();
        for _ in 0..self.pairs.len() {
            let Some(offset) = words.next() else {
                break;
            };
            let parts = words.next().context("an offset has bytes after it")?;
            let at = offset.parse::<usize>().context("an offset is a number")?;
            put_parts(&mut bytes, at, parts)?;
        }
        Ok(bytes)
    }
}

/// A byte is at this place, within the others or right after them.
fn put_byte(bytes: &mut Vec<u8>, at: usize, byte: u8) -> Result<()> {
    match bytes.get_mut(at) {
        Some(old) => *old = byte,
        None => {
            ensure!(
                at == bytes.len(),
                "an edit is within the log or right after it"
            );
            bytes.push(byte)?;
        }
    }
    Ok(())
}

/// Bytes are over those from a place on; the place after them.
fn put_bytes(bytes: &mut Vec<u8>, at: usize, new: &[u8]) -> Result<usize> {
    let mut place = at;
    for byte in new {
        put_byte(bytes, place, *byte)?;
        place = place.saturating_add(1);
    }
    Ok(place)
}

/// The same with the bytes of digits, so many times where `*` and a number follow.
fn put_part(bytes: &mut Vec<u8>, at: usize, part: &str) -> Result<usize> {
    let (digits, times) = part.split_once('*').unwrap_or((part, "1"));
    let new = hex::decode(*bytes.allocator(), digits).context("bytes are in base 16")?;
    let times = times.parse::<u16>().context("a number of times")?;
    let mut place = at;
    for _ in 0..times {
        place = put_bytes(bytes, place, &new)?;
    }
    Ok(place)
}

/// The same with several parts, between which `+` is.
fn put_parts(bytes: &mut Vec<u8>, at: usize, parts: &str) -> Result<()> {
    let mut place = at;
    for part in parts.split('+') {
        place = put_part(bytes, place, part)?;
    }
    Ok(())
}
