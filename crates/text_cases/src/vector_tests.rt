// Vectors: what is printed of texts, which are refused, and how they are encoded.
use crate::kinds::{Kind, try_rows};
use crate::rows::{expanded, push_number};
use std::alloc::{AllocError, Global};
use std::test::Fail;
use ts_base::{Lexeme, Position, Weight};
use ts_vector::{EntryBytes, Joined, TsVector, VectorBuilder, VectorBytes, VectorError};

/// Texts and what they give; `+` joins vectors.
const ROWS: &str = concat!(
    // What is printed.
    "=; b a\tb ='a' 'b';",
    " \t\n\x0b\x0c\ra b\tc\nd\x0be\x0cf\rg='a' 'b' 'c' 'd' 'e' 'f' 'g';",
    "a:16384,16383 b:1,1A='a':16383 'b':1A;",
    "a:99999999999999999999999999 b:2b,2d,2C a:7 a='a':7,16383 'b':2B;",
    "a:3 a:1d,2A b a:2,01c='a':1C,2A,3 'b';",
    "'a''b'='a''b';'a''b':1='a''b':1;'a'b'c'd:2D='a' 'b''c''d':2;'a' 'b'c='a' 'b' 'c';",
    "a\\ b\\\\ \\'c \\:1='''c' ':1' 'a b\\\\';'a \\'\\n\\\\:'='a ''n\\\\:';",
    "é:3 z ab b a='a' 'ab' 'b' 'z' 'é':3;",
    // The places of faults.
    "a:0=syntax error at 3;a:=syntax error at 2;a: 1=syntax error at 2;a:x=syntax error at 2;",
    ":a=syntax error at 0;a b:1,=syntax error at 6;a:1DA=syntax error at 4;",
    "a:1 b:0 c=syntax error at 7;a:1b:2=syntax error at 4;'a':1'b'=syntax error at 5;",
    "a\\=syntax error at 2;'a=syntax error at 2;'a\\'=syntax error at 4;'a''=syntax error at 4;",
    "''=syntax error at 2;x '' a=syntax error at 4;'a' :1=syntax error at 4;",
    // The limits.
    "x:1 '«a^2046»'='«a^2046»' 'x':1;x:1 '«a^2047»' =lexeme too long at 4;",
    "x:1 '«a^2047»' y:0=syntax error at 2057;",
    // Joined vectors.
    "a:1 b:3+a:1 c b:2A='a':1,4 'b':3,5A 'c';a+b:2='a' 'b':2;",
    "a:16383+a:1B b:5='a':16383B 'b':16383;+=;c+b+a='a' 'b' 'c';+a:2+='a':2;",
    "a:1+a:1+a:1='a':1,2,3;a:1 b:3+a:1 c b:2A+a:1='a':1,4,6 'b':3,5A 'c';",
    "a:16382+b:9+a:1B c:7='a':16382,16383B 'b':16383 'c':16383;a:7b+a+c:1='a':7B 'c':8;",
    "a:1+b:x+c:=syntax error at 2",
);

/// Texts after 512 long words, and how many lexemes they have, joined to vectors and in one value that grows: the
/// content has to stay below the limit.
const LARGE: &str = concat!(
    " a:1,1A «b^1020»=514 514; a:1,1A «b^1020»+a=514 514;",
    " a:1,1A «b^1020»+c= vector of 1048576 bytes vector of 1048576 bytes;",
    " a:1,1A «b^1021»= vector of 1048576 bytes vector of 1048576 bytes",
);

/// Bytes, and what is read of them where they lie.
const BYTES: &str = concat!(
    // The end comes too early.
    "=bad bytes at 0;2 0 0=bad bytes at 3;255 255 255 255=bad bytes at 4;1 0 0 0 3 0 97 98=bad bytes at 8;",
    "2 0 0 0 1 0 97 1 0 1 192 1 0 98 0=bad bytes at 15;",
    // A byte too much.
    "0 0 0 0 0=bad bytes at 4;2 0 0 0 1 0 97 1 0 1 192 1 0 98 0 0 9=bad bytes at 16;",
    // The length of a lexeme.
    "1 0 0 0 0 0=bad bytes at 4;1 0 0 0 255 7=bad bytes at 4;",
    // A lexeme that is no text, and one out of order.
    "1 0 0 0 1 0 255 0 0=bad bytes at 6;2 0 0 0 1 0 98 0 0 1 0 97 0 0=bad bytes at 11;",
    "2 0 0 0 1 0 97 0 0 1 0 97 0 0=bad bytes at 11;",
    // The number of positions.
    "1 0 0 0 1 0 97 1 1=bad bytes at 7;",
    // No position, and positions out of order.
    "1 0 0 0 1 0 97 1 0 0 192=bad bytes at 9;1 0 0 0 1 0 97 2 0 2 0 1 0=bad bytes at 11;",
    "1 0 0 0 1 0 97 2 0 2 0 2 192=bad bytes at 11;",
    // An encoding: how many entries, and of each the number of positions, the first and the last after it.
    "2 0 0 0 1 0 97 2 0 1 192 3 0 1 0 98 0 0=2 a 2 Some(Position { at: 1, weight: A }) \
    Some(Position { at: 3, weight: D }) b 0 None None",
);

/// Vectors, and their encoding after a byte that was there before, with what is read of it.
const ENCODED: &str =
    "'a':1A 'b'=[7, 2, 0, 0, 0, 1, 0, 97, 1, 0, 1, 192, 1, 0, 98, 0, 0] 'a':1A 'b'";

/// Of many positions the 256 least are kept at each join, and what follows is after these; `%` is a vector that is
/// built of 257 positions.
const JOINS: &str = "\
    a:1«+a:1^299»+b:1=2 a 256 Some(Position { at: 1, weight: D }) Some(Position { at: 256, weight: D }) \
    b 1 Some(Position { at: 257, weight: D }) None;\
    %=1 a 256 Some(Position { at: 1, weight: D }) Some(Position { at: 256, weight: D })";

/// Vectors, and each without positions and with the weight C.
const CHANGED: &str = "a:1,2A b='a' 'b', 'a':1C,2C 'b'";

/// Adds the vector of a text to one before it.
fn with_part(alloc: Global, value: &TsVector, part: &str) -> Result<TsVector, VectorError> {
    let part = TsVector::parse(alloc, part)?;
    value.concat(alloc, &part)
}

/// The vector of a text; `+` joins one more vector to all before it.
pub fn vector(alloc: Global, text: &str) -> Result<TsVector, VectorError> {
    let mut parts = text.split('+');
    let mut value = TsVector::parse(alloc, parts.next().unwrap_or(""))?;
    for part in parts {
        value = with_part(alloc, &value, part)?;
    }
    Ok(value)
}

/// A value that begins with the vector of a text.
fn begun(alloc: Global, text: &str) -> Result<Joined, VectorError> {
    let first = TsVector::parse(alloc, text)?;
    match Joined::new(alloc, &first) {
        Ok(value) => Ok(value),
        Err(_) => Err(VectorError::OutOfMemory),
    }
}

/// Adds the vector of a text to a value that grows.
fn grown(alloc: Global, value: Joined, part: &str) -> Result<Joined, VectorError> {
    let part = TsVector::parse(alloc, part)?;
    value.push(alloc, &part)
}

/// The vector of a text, joined in one value that grows.
pub fn joined(alloc: Global, text: &str) -> Result<TsVector, VectorError> {
    let mut parts = text.split('+');
    let mut value = begun(alloc, parts.next().unwrap_or(""))?;
    for part in parts {
        value = grown(alloc, value, part)?;
    }
    match value.finish(alloc) {
        Ok(value) => Ok(value),
        Err(_) => Err(VectorError::OutOfMemory),
    }
}

/// The printed form of a vector, or why it is refused.
pub fn printed(
    alloc: Global,
    out: &mut String,
    vector: Result<TsVector, VectorError>,
) -> Result<(), Fail> {
    match vector {
        Ok(vector) => out.push_str(vector.to_text(alloc)?.as_str())?,
        Err(error) => write!(out, "{error}")?,
    }
    Ok(())
}

/// Puts how many lexemes a vector has, or why it is refused.
fn push_count(out: &mut String, vector: Result<TsVector, VectorError>) -> Result<(), AllocError> {
    match vector {
        Ok(vector) => push_number(out, vector.count()),
        Err(error) => write!(out, " {error}"),
    }
}

/// Texts after 512 long words.
fn long_text(alloc: Global, after: &str) -> Result<String, AllocError> {
    let word = expanded(alloc, "«a^2042»")?;
    let mut text = String::new(alloc);
    for k in 1000..1512 {
        push_number(&mut text, k)?;
        text.push_str(word.as_str())?;
    }
    text.push_str(after)?;
    Ok(text)
}

/// How many lexemes the vector of a text has that is after 512 words of 2046 bytes.
pub fn large(alloc: Global, out: &mut String, after: &str) -> Result<(), Fail> {
    let text = long_text(alloc, after)?;
    push_count(out, vector(alloc, text.as_str()))?;
    push_count(out, joined(alloc, text.as_str()))?;
    Ok(())
}

/// Puts a lexeme, how many positions it has, the first of them and the last of the others.
fn push_entry(out: &mut String, entry: &EntryBytes) -> Result<(), AllocError> {
    let lexeme = entry.lexeme();
    let mut positions = entry.positions();
    let count = positions.len();
    let first = positions.next();
    let last = positions.last();
    write!(out, " {lexeme} {count} {first:?} {last:?}")
}

/// Puts the entries of an encoding.
fn push_entries(out: &mut String, bytes: &VectorBytes) -> Result<(), AllocError> {
    push_number(out, bytes.count())?;
    for entry in bytes.entries() {
        push_entry(out, &entry)?;
    }
    Ok(())
}

/// The bytes that numbers stand for.
fn bytes_of(alloc: Global, numbers: &str) -> Result<Vec<u8>, Fail> {
    let mut bytes = Vec::new(alloc);
    for number in numbers.split_ascii_whitespace() {
        bytes.push(number.parse::<u8>()?)?;
    }
    Ok(bytes)
}

/// What is read of bytes.
pub fn read(alloc: Global, out: &mut String, numbers: &str) -> Result<(), Fail> {
    let bytes = bytes_of(alloc, numbers)?;
    match VectorBytes::new(bytes.as_slice()) {
        Ok(bytes) => push_entries(out, &bytes)?,
        Err(error) => write!(out, "{error}")?,
    }
    Ok(())
}

/// The encoding of a text's vector after the byte 7, and the vector that is read of it.
pub fn encoded(alloc: Global, out: &mut String, text: &str) -> Result<(), Fail> {
    let mut bytes = vec![in alloc; 7u8]?;
    TsVector::parse(alloc, text)?.encode(&mut bytes)?;
    write!(out, "{bytes:?} ")?;
    printed(
        alloc,
        out,
        TsVector::decode(alloc, bytes.get(1..).unwrap_or(&[])),
    )
}

/// A vector that is built of 257 positions.
fn built(alloc: Global) -> Result<TsVector, Fail> {
    let mut builder = VectorBuilder::new(alloc)?;
    let lexeme = Lexeme::new(alloc, "a")?;
    for k in (1..258u16).rev() {
        builder.push(&lexeme, Position::new(k, Weight::D))?;
    }
    Ok(builder.finish(alloc)?)
}

/// The entries of joined vectors, or of one that is built, by their encoding.
pub fn joins(alloc: Global, out: &mut String, text: &str) -> Result<(), Fail> {
    let vector = if text == "%" {
        built(alloc)?
    } else {
        joined(alloc, text)?
    };
    let mut bytes = Vec::new(alloc);
    vector.encode(&mut bytes)?;
    push_entries(out, &VectorBytes::new(bytes.as_slice())?)?;
    Ok(())
}

/// Puts a vector without positions, and with one weight.
fn push_changed(alloc: Global, out: &mut String, vector: &TsVector) -> Result<(), Fail> {
    printed(alloc, out, Ok(vector.strip(alloc)?))?;
    out.push_str(", ")?;
    printed(alloc, out, Ok(vector.set_weight(alloc, Weight::C)?))
}

/// The vector of a text without positions, and with one weight.
pub fn changed(alloc: Global, out: &mut String, text: &str) -> Result<(), Fail> {
    let vector = TsVector::parse(alloc, text)?;
    push_changed(alloc, out, &vector)
}

/// Each row gives its outcome, by vectors that are joined and by one value that grows.
#[test]
fn vectors(rt: HostRuntime) -> Result<(), Fail> {
    let alloc = rt.alloc();
    try_rows(&rt, alloc, Kind::Vector, ROWS, 44)?;
    try_rows(&rt, alloc, Kind::Joined, ROWS, 44)?;
    try_rows(&rt, alloc, Kind::Large, LARGE, 4)?;
    try_rows(&rt, alloc, Kind::Changed, CHANGED, 1)
}

/// Vectors are encoded, and read where they lie.
#[test]
fn encodings(rt: HostRuntime) -> Result<(), Fail> {
    let alloc = rt.alloc();
    try_rows(&rt, alloc, Kind::Bytes, BYTES, 17)?;
    try_rows(&rt, alloc, Kind::Encoded, ENCODED, 1)?;
    try_rows(&rt, alloc, Kind::Joins, JOINS, 2)
}
