// Documents of eight drawn words.
use std::alloc::{AllocError, Global};
use ts_vector::TsVector;

/// How many words a drawn document has.
const WORDS: u32 = 8;

/// Drawn numbers are below this.
const DRAWN: u32 = 1024;

/// The letters of a long word.
const LETTERS: u32 = 2046;

/// The next of a row of numbers that look random.
fn draw(drawn: &mut u32) -> u32 {
    *drawn = drawn.wrapping_mul(1_664_525).wrapping_add(1_013_904_223);
    *drawn >> 22
}

/// Puts a number.
pub(crate) fn push_number(text: &mut String, number: u32) -> Result<(), AllocError> {
    write!(text, "{number}")?;
    Ok(())
}

/// Puts a letter so often.
pub(crate) fn push_letters(text: &mut String, letter: char, times: u32) -> Result<(), AllocError> {
    for _ in 0..times {
        text.push(letter)?;
    }
    Ok(())
}

/// Puts drawn words.
fn push_drawn(text: &mut String, drawn: &mut u32) -> Result<(), AllocError> {
    for _ in 0..WORDS {
        text.push('w')?;
        push_number(text, draw(drawn))?;
        text.push(' ')?;
    }
    Ok(())
}

/// Puts a word of one letter so often, that of its number.
fn push_long(text: &mut String, number: &mut u32) -> Result<(), AllocError> {
    let letter = char::from(b'a'.wrapping_add((*number % 26) as u8));
    *number = number.wrapping_add(1);
    push_letters(text, letter, LETTERS)
}

/// Puts drawn words, and after about every other time one more.
fn push_half(text: &mut String, drawn: &mut u32) -> Result<(), AllocError> {
    push_drawn(text, drawn)?;
    if draw(drawn) < DRAWN / 2 {
        return text.push_str("common");
    }
    Ok(())
}

/// Puts the text of the next document: these words; none where they are `-`; a word of 2,046 letters, each time another
/// one, where they are `long`; drawn ones where there are none, and, where they are `half`, in about every other text
/// the word `common` too.
fn push_document(text: &mut String, words: &str, drawn: &mut u32) -> Result<(), AllocError> {
    match words {
        "-" => Ok(()),
        "long" => push_long(text, drawn),
        "" => push_drawn(text, drawn),
        "half" => push_half(text, drawn),
        _ => text.push_str(words),
    }
}

/// The vector of the next document.
pub(crate) fn next_document(alloc: Global, words: &str, drawn: &mut u32) -> Option<TsVector> {
    let mut text = String::new(alloc);
    push_document(&mut text, words, drawn).ok()?;
    TsVector::parse(alloc, text.as_str()).ok()
}
