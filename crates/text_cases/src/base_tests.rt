// Lexemes, positions and words.
use crate::kinds::{Kind, try_rows};
use crate::rows::cut;
use std::alloc::{AllocError, Global};
use std::test::Fail;
use ts_base::{
    Lexeme, Position, Tri, Weight, Weights, front_word, is_blank, is_white, lower_case,
    push_quoted, weight_of, without_blanks,
};

/// Two texts, and how the lexeme of the first is to that of the second, or why it is none.
const ORDER: &str = concat!(
    "cat@cat=cat, equal;ca@cat=ca, less;cat@cow=cat, less;z@é=z, less;",
    "«a^2046»@a=«a^2046», greater;@a=an empty lexeme;«a^2047»@a=a lexeme of more than 2046 bytes",
);

/// Lines, and the first word of each with what is after it.
const FRONTS: &str = " \tthe cat=the, cat;'x'\t='x',\t;\u{a0}é=\u{a0}é,; \t =none;=none";

/// Texts, and each without the blanks at its front, in lower case, and in quotes.
const WRITTEN: &str = concat!(
    " \t a =a | \t a |' \t a ';AZ[@`{É9=AZ[@`{É9|az[@`{É9|'AZ[@`{É9';",
    "it's a \\ é=it's a \\ é|it's a \\ é|'it''s a \\\\ é'",
);

/// Puts a lexeme, and how it is to another. A copy is as good as the first.
fn push_order(out: &mut String, left: &Lexeme, right: &Lexeme) -> Result<(), AllocError> {
    let copy = left.clone()?;
    let order = if copy == *right {
        "equal"
    } else if copy < *right {
        "less"
    } else {
        "greater"
    };
    let left = left.as_str();
    write!(out, "{left}, {order}")
}

/// How the lexemes of two texts are to each other.
pub fn compared(alloc: Global, out: &mut String, asked: &str) -> Result<(), Fail> {
    let (left, right) = cut(asked);
    let right = Lexeme::new(alloc, right)?;
    match Lexeme::new(alloc, left) {
        Ok(left) => push_order(out, &left, &right)?,
        Err(error) => write!(out, "{error}")?,
    }
    Ok(())
}

/// The first word of a line, and what is after it.
pub fn front(out: &mut String, line: &str) -> Result<(), Fail> {
    match front_word(line) {
        Some((word, rest)) => write!(out, "{word},{rest}")?,
        None => out.push_str("none")?,
    }
    Ok(())
}

/// A text without blanks at its front, in lower case, and in quotes.
pub fn written(alloc: Global, out: &mut String, text: &str) -> Result<(), Fail> {
    out.push_str(without_blanks(text))?;
    out.push_str("|")?;
    out.push_str(lower_case(alloc, text)?.as_str())?;
    out.push_str("|")?;
    push_quoted(out, text)?;
    Ok(())
}

/// Lexemes are made, copied and compared, lines cut, and texts written.
#[test]
fn bases(rt: HostRuntime) -> Result<(), Fail> {
    let alloc = rt.alloc();
    try_rows(&rt, alloc, Kind::Order, ORDER, 7)?;
    try_rows(&rt, alloc, Kind::Front, FRONTS, 5)?;
    try_rows(&rt, alloc, Kind::Written, WRITTEN, 3)
}

/// Whether a position has its number and weight, and weights, and what is known of a fact, have their order.
fn are_ordered() -> bool {
    let last = Position::new(16383, Weight::A);
    let other = Position::new(16383, Weight::D);
    let weights = Weight::D < Weight::C && Weight::C < Weight::B && Weight::B < Weight::A;
    weights
        && Tri::False < Tri::Maybe
        && Tri::Maybe < Tri::True
        && last.at() == 16383
        && last.weight() == Weight::A
        && last != other
}

/// Whether no weight is asked for from the start, and letters name weights.
fn are_named() -> bool {
    let none = Weights::default();
    let named = weight_of('b') == Some(Weight::B) && weight_of('e').is_none();
    named && !(none.a || none.b || none.c || none.d)
}

/// Positions, weights, what is known of a fact, and kinds of bytes.
#[test]
fn positions(rt: HostRuntime) {
    assert!(rt; are_ordered() && are_named());
    assert!(rt; is_white('\x0b') && !is_white('\u{a0}') && is_blank(b'\t') && !is_blank(b'\n'));
}
