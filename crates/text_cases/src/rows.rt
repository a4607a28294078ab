// Rows of text: what is asked, `=`, and what comes of it.
use std::alloc::{AllocError, Global};

/// Puts a piece after a text, so many times.
fn push_times(text: &mut String, piece: &str, times: u32) -> Result<(), AllocError> {
    for _ in 0..times {
        text.push_str(piece)?;
    }
    Ok(())
}

/// Puts what a part of a row stands for after a text.
fn push_part(text: &mut String, part: &str) -> Result<(), AllocError> {
    let (repeated, rest) = part.split_once('»').unwrap_or(("", part));
    let (piece, times) = repeated.split_once('^').unwrap_or(("", "0"));
    push_times(text, piece, times.parse::<u32>().unwrap_or(0))?;
    text.push_str(rest)
}

/// The text that a row stands for.
pub fn expanded(alloc: Global, row: &str) -> Result<String, AllocError> {
    let mut text = String::new(alloc);
    for part in row.split('«') {
        push_part(&mut text, part)?;
    }
    text.as_str().replace(alloc, "~", "\"")
}

/// What is before and after the first `@`.
pub fn cut(asked: &str) -> (&str, &str) {
    asked.split_once('@').unwrap_or((asked, ""))
}

/// Puts a word after others.
pub fn push_word(text: &mut String, word: &str) -> Result<(), AllocError> {
    if !text.is_empty() {
        text.push_str(" ")?;
    }
    text.push_str(word)
}

/// Puts a number after words.
pub fn push_number(text: &mut String, number: usize) -> Result<(), AllocError> {
    if !text.is_empty() {
        text.push_str(" ")?;
    }
    write!(text, "{number}")
}
