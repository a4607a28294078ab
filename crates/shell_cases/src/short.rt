// Texts about the limits, which are too large for files. A case that has the file `short` has them written short.
use anyhow::Result;
use std::alloc::{AllocError, Global};

/// Pushes a letter of an item with its number.
fn push_letter(long: &mut String, letter: char, number: u32) -> Result<(), AllocError> {
    match letter {
        '@' => write!(long, "{:x>2041}{number:05}", ""),
        '#' => write!(long, "{number}"),
        _ => long.push(letter),
    }
}

/// Pushes an item with its number.
fn push_item(long: &mut String, item: &str, number: u32) -> Result<(), AllocError> {
    for letter in item.chars() {
        push_letter(long, letter, number)?;
    }
    Ok(())
}

/// Pushes what `FIRST~END~ITEM~BETWEEN` stands for, and nothing for any other text.
fn push_items(long: &mut String, items: &str) -> Result<()> {
    let mut parts = items.splitn(4, '~');
    let (Some(first), Some(end)) = (parts.next(), parts.next()) else {
        return Ok(());
    };
    let (item, between) = (parts.next().unwrap_or(""), parts.next().unwrap_or(""));
    let first = first.parse::<u32>()?;
    for number in first..end.parse::<u32>()? {
        if number > first {
            long.push_str(between)?;
        }
        push_item(long, item, number)?;
    }
    Ok(())
}

/// The text with each `{FIRST~END~ITEM~BETWEEN}` replaced by items with the numbers from FIRST up to END, and BETWEEN
/// between two of them. In an item `#` is the number, and `@` a lexeme of 2046 bytes that ends in the number.
pub fn expanded(alloc: Global, text: &str) -> Result<String> {
    let mut long = String::new(alloc);
    for piece in text.split('{') {
        let (items, rest) = piece.split_once('}').unwrap_or(("", piece));
        push_items(&mut long, items)?;
        long.push_str(rest)?;
    }
    Ok(long)
}
