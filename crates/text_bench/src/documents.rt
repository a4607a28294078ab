// Made documents.
use bench_base::numbered;
use std::alloc::{AllocError, Global};

/// How many documents are made.
pub(crate) const DOCUMENTS: u32 = 1000;

/// How many words a document has.
const WORDS: u32 = 250;

/// The next of a row of numbers that look random.
fn draw(seed: &mut u64) -> u32 {
    *seed = seed
        .wrapping_mul(6364136223846793005)
        .wrapping_add(1442695040888963407);
    (*seed >> 33) as u32
}

/// The letter w and two letters for the number.
fn push_word(text: &mut String, number: u32) -> Result<(), AllocError> {
    text.push('w')?;
    text.push((b'a' + (number / 26 % 26) as u8) as char)?;
    text.push((b'a' + (number % 26) as u8) as char)
}

/// A made document, in which words of low numbers are more frequent.
fn push_document(text: &mut String, seed: &mut u64) -> Result<(), AllocError> {
    for place in 1..=WORDS {
        let word = (draw(seed) % 676).min(draw(seed) % 676);
        push_word(text, word)?;
        write!(text, ":{place} ")?;
    }
    text.push('\n')
}

/// The texts of the made documents, each a line.
pub(crate) fn all_documents(alloc: Global) -> Result<String, AllocError> {
    let mut seed = 1;
    let mut text = String::new(alloc);
    for _ in 0..DOCUMENTS {
        push_document(&mut text, &mut seed)?;
    }
    Ok(text)
}

/// A phrase of 8,000 operands on each side, all of one word.
pub(crate) fn wide_phrase(alloc: Global) -> Result<String, AllocError> {
    let left = numbered(alloc, "|a", 7999)?;
    let right = numbered(alloc, "|b", 7999)?;
    format!(in alloc; "(a{left})<->(b{right})")
}

/// Two words, each at the same 200 odd positions.
pub(crate) fn odd_document(alloc: Global) -> Result<String, AllocError> {
    let mut odd = String::from_str(alloc, "1")?;
    for k in 1..200u32 {
        let place = 2 * k + 1;
        write!(odd, ",{place}")?;
    }
    format!(in alloc; "a:{odd} b:{odd}")
}

/// 8,000 lexemes, each at an odd position; half of them begin with a, the others with b.
pub(crate) fn long_document(alloc: Global) -> Result<String, AllocError> {
    let mut text = String::new(alloc);
    for k in 0..8000u32 {
        let letter = if k % 2 == 0 { 'a' } else { 'b' };
        let place = 2 * k + 1;
        write!(text, "{letter}{k}:{place} ")?;
    }
    Ok(text)
}
