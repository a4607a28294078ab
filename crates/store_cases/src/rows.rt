// Rows of text, one a line, and what their words stand for. A row's fields are parted by `|`.
ghost use Rattle.std.specs.Prelude.{◌≡◌, length, IfOk};

use hex::FromHexError;
use page_types::PAGE_BYTES;
use std::alloc::{AllocError, Global};
use std::process::Abort;

/// A row holds.
pub(crate) fn see(rt: &impl Abort, holds: bool, row: &str) {
    assert!(rt; holds, "{row}");
}

/// The first field of a row, and the others.
pub(crate) fn cut(row: &str) -> (&str, &str) {
    let (front, rest) = row.split_once('|').unwrap_or((row, ""));
    (front.trim(), rest.trim())
}

/// The first word, and the words after it.
pub(crate) fn word(words: &str) -> (&str, &str) {
    words.split_once(' ').unwrap_or((words, ""))
}

/// The number that a word is; the greatest where it is none, so that its row fails.
pub(crate) fn number(word: &str) -> u32 {
    word.parse().unwrap_or(u32::MAX)
}

/// As `number`, of eight bytes.
pub(crate) fn long(word: &str) -> u64 {
    word.parse().unwrap_or(u64::MAX)
}

/// As `number`, of two bytes.
pub(crate) fn short(word: &str) -> u16 {
    word.parse().unwrap_or(u16::MAX)
}

/// The numbers that words are.
pub(crate) fn numbers(alloc: Global, words: &str) -> Result<Vec<u64>, AllocError> {
    let mut all = Vec::new(alloc);
    for word in words.split_whitespace() {
        all.push(long(word))?;
    }
    Ok(all)
}

/// Appends each number from one up to another twice, in four bytes: the page and the bound of a child.
fn put_children(out: &mut Vec<u8>, first: u32, last: u32) -> Result<(), AllocError> {
    for number in first..=last {
        out.extend_from_slice(&number.to_le_bytes())?;
        out.extend_from_slice(&number.to_le_bytes())?;
    }
    Ok(())
}

/// Appends the bytes that a word stands for: two digits a byte, or a byte and how many times it is
/// there; or children, as `1..9`, whose pages and bounds are these numbers. Other words stand for none, so that their
/// row fails.
fn put_word(out: &mut Vec<u8>, word: &str) -> Result<(), AllocError> {
    if let Some((first, last)) = word.split_once("..") {
        return put_children(out, number(first), number(last));
    }
    let (digits, times) = word.split_once('*').unwrap_or((word, "1"));
    let bytes = match hex::decode(*out.allocator(), digits) {
        Ok(bytes) => bytes,
        Err(FromHexError::OutOfMemory) => return Err(AllocError),
        Err(_) => return Ok(()),
    };
    for _ in 0..number(times) {
        out.extend_from_slice(&bytes)?;
    }
    Ok(())
}

/// The bytes that words stand for.
pub(crate) fn bytes_of(alloc: Global, words: &str) -> Result<Vec<u8>, AllocError> {
    let mut out = Vec::new(alloc);
    for word in words.split(' ') {
        put_word(&mut out, word)?;
    }
    Ok(out)
}

/// The page with these bytes first, which zeros follow.
pub(crate) fn page_with(alloc: Global, words: &str) -> Result<Vec<u8>, AllocError>
    ensures { IfOk result (λ v. length v.items ≡ PAGE_BYTES) }
{
    let mut bytes = bytes_of(alloc, words)?;
    bytes.resize(PAGE_BYTES, 0)?;
    Ok(bytes)
}
