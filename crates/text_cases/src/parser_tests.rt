// Texts and their tokens.
use crate::kinds::{Kind, try_rows};
use std::alloc::{AllocError, Global};
use std::test::Fail;
use ts_parser::{Token, TokenType, token_list};

/// Texts, and their tokens as type, start and length.
const TOKENS: &str = "\
    foo-bar-beta1=15 0 13, 11 0 3, 12 3 1, 11 4 3, 12 7 1, 9 8 5;\
    -1.234e56 -1.234 -1234 1234 8.3.0 beta1 1.2.3a=7 0 9, 12 9 1, 20 10 6, 12 16 1, 21 17 5, 12 22 1, 22 23 4, 12 \
    27 1, 8 28 5, 12 33 1, 3 34 5, 12 39 1, 22 40 1, 12 41 1, 22 42 1, 12 43 1, 3 44 2;\
    été 中1 xé-y aé-b1 €\u{a0}=2 0 5, 12 5 1, 3 6 4, 12 10 1, 17 11 5, 10 11 3, 12 14 1, 11 15 1, 12 16 1, 15 17 6, \
    10 17 3, 12 20 1, 9 21 2, 12 23 1, 2 24 5;\
    1e5-foo-bar=7 0 3, 12 3 1, 16 4 7, 11 4 3, 12 7 1, 11 8 3;\
    foo-5a-b-7=15 0 8, 11 0 3, 12 3 1, 9 4 2, 12 6 1, 11 7 1, 12 8 1, 22 9 1;\
    -1.2.3=12 0 1, 8 1 5;\
    +1.2.3 1.e5 .5 1..5=12 0 1, 8 1 5, 12 6 1, 22 7 1, 12 8 1, 3 9 2, 12 11 2, 22 13 1, 12 14 1, 22 15 1, 12 16 2, \
    22 18 1;\
    a-5 --5 a--b-=1 0 1, 12 1 1, 22 2 1, 12 3 2, 21 5 2, 12 7 1, 1 8 1, 12 9 2, 1 11 1, 12 12 1;\
    1e5e3 -1e+5 1e+=3 0 5, 12 5 1, 7 6 5, 12 11 1, 3 12 2, 12 14 1;\
    1.1.1e5=22 0 1, 12 1 1, 7 2 5;\
    1.1.1.1a=22 0 1, 12 1 1, 22 2 1, 12 3 1, 22 4 1, 12 5 1, 3 6 2;\
    a--b=1 0 1, 12 1 2, 1 3 1;\
    =;\
    \x20=12 0 1;\
    +7 x=21 0 2, 12 2 1, 1 3 1;\
    12=22 0 2;\
    +-1.5, The cat=12 0 1, 20 1 4, 12 5 2, 1 7 3, 12 10 1, 1 11 3";

/// Names of types, and which type each names: its number, and whether its tokens have parts.
const KINDS: &str = "\
    asciiword=1 Asciiword;word=2 Word;numword=3 Numword;sfloat=7 Sfloat;version=8 Version;\
    hword_numpart=9 HwordNumpart;hword_part=10 HwordPart;hword_asciipart=11 HwordAsciipart;blank=12 Blank;\
    numhword=15 Numhword of parts;asciihword=16 Asciihword of parts;hword=17 Hword of parts;float=20 Float;\
    int=21 Int;uint=22 Uint;=none;Word=none;words=none";

/// Puts a token after others.
fn push_token(out: &mut String, token: &Token) -> Result<(), AllocError> {
    let between = if out.is_empty() { "" } else { ", " };
    let kind = token.kind.number();
    let start = token.start;
    let length = token.length;
    write!(out, "{between}{kind} {start} {length}")
}

/// The tokens of a text.
pub fn tokens(alloc: Global, out: &mut String, asked: &str) -> Result<(), Fail> {
    for token in &token_list(alloc, asked)? {
        push_token(out, token)?;
    }
    Ok(())
}

/// The type of a name.
pub fn kind(out: &mut String, name: &str) -> Result<(), Fail> {
    let Some(kind) = TokenType::from_name(name) else {
        out.push_str("none")?;
        return Ok(());
    };
    let number = kind.number();
    let parts = if kind.has_parts() { " of parts" } else { "" };
    let again = if kind.name() == name {
        ""
    } else {
        " of another name"
    };
    write!(out, "{number} {kind:?}{parts}{again}")?;
    Ok(())
}

/// Each text has its tokens, and each type its name.
#[test]
fn parsed(rt: HostRuntime) -> Result<(), Fail> {
    let alloc = rt.alloc();
    try_rows(&rt, alloc, Kind::Tokens, TOKENS, 17)?;
    try_rows(&rt, alloc, Kind::TokenKind, KINDS, 18)
}
