// The items of a web text.
ghost use Rattle.std.specs.Prelude.{◌≡◌, ◌≤◌, ◌<◌, ℕ, List, [], ◌∷◌, ◌++◌, length, take, drop, All, IfSome, IfNone};
ghost use Rattle.std.specs.Prelude.{IsTrue, ◌↔◌, ◌≢◌};
ghost use Rattle.ts_base.specs.Bytes.{IsWhite, BeginsWithout};
ghost use Rattle.ts_websearch.specs.Items.{WebItem, IsRowByte, QuotedText, RowText, AreItems};
ghost use Rattle.ts_websearch.specs.Rows.{IsOr};
ghost use Rattle.ts_websearch.specs.Inner.Pieces.{piece_item, IsNext};

use ts_base::is_white;

/// An item of a web text.
#[derive(Clone, Copy, Debug)]
pub enum Piece<'a> {
    /// A text in quotes.
    Quoted {
        /// Whether it is negated.
        negated: bool,
        /// The text within.
        text: &'a str,
    },
    /// A row of characters other than white space and quotes.
    Row {
        /// Whether it is negated.
        negated: bool,
        /// The characters.
        text: &'a str,
    },
    /// A lone hyphen.
    Hyphen,
}

/// How many white characters are at the front.
fn white_len(bytes: &[u8]) -> usize
    ensures within { result ≤ length bytes.now }
    ensures white { All IsWhite (take result bytes.now) }
    ensures all { BeginsWithout IsWhite (drop result bytes.now) }
{
    bytes
        .iter()
        .position(|byte| !is_white(*byte as char))
        .unwrap_or(bytes.len())
}

/// What is after the white space at the front.
fn without_white(text: &str) -> &str
    ensures white { (gap : List ℕ) × All IsWhite gap × (text.now ≡ gap ++ result.now) }
    ensures all { BeginsWithout IsWhite result.now }
{
    &text[white_len(text.as_bytes())..]
}

/// How many characters of a row are at the front.
fn row_len(bytes: &[u8]) -> usize
    ensures within { result ≤ length bytes.now }
    ensures row { All IsRowByte (take result bytes.now) }
    ensures all { BeginsWithout IsRowByte (drop result bytes.now) }
{
    bytes
        .iter()
        .position(|byte| is_white(*byte as char) || *byte == b'"')
        .unwrap_or(bytes.len())
}

/// The row at the front, and what follows it.
fn row_text(text: &str) -> (&str, &str)
    ensures { RowText text.now result.0.now result.1.now }
{
    text.split_at(row_len(text.as_bytes()))
}

/// The text in quotes whose first quote is before this, and what follows it.
fn quoted_text(text: &str) -> (&str, &str)
    ensures { QuotedText text.now result.0.now result.1.now }
{
    text.split_once('"').unwrap_or((text, ""))
}

/// The item after a hyphen, and what follows it.
fn behind_hyphen(text: &str) -> (Piece<'_>, &str)
    ensures goes_on { (is : List WebItem) → AreItems result.1.now is
        → AreItems (45 ∷ text.now) (piece_item result.0 ∷ is) }
    ensures shorter { length result.1.now ≤ length text.now }
{
    let negated = true;
    if let Some(behind) = text.strip_prefix('"') {
        let (text, rest) = quoted_text(behind);
        return (Piece::Quoted { negated, text }, rest);
    }
    let (text, rest) = row_text(text);
    if text.is_empty() {
        return (Piece::Hyphen, rest);
    }
    (Piece::Row { negated, text }, rest)
}

/// The first item of a text, and what follows it; none where there is only white space.
pub fn next_piece(text: &str) -> Option<(Piece<'_>, &str)>
    ensures some { IfSome result (λ r. IsNext text.now (piece_item r.0) r.1.now) }
    ensures none { IfNone result (AreItems text.now []) }
{
    let text = without_white(text);
    if text.is_empty() {
        return None;
    }
    let negated = false;
    if let Some(behind) = text.strip_prefix('"') {
        let (text, rest) = quoted_text(behind);
        return Some((Piece::Quoted { negated, text }, rest));
    }
    if let Some(behind) = text.strip_prefix('-') {
        return Some(behind_hyphen(behind));
    }
    let (text, rest) = row_text(text);
    Some((Piece::Row { negated, text }, rest))
}

/// Whether an item is `or`, in any mix of cases, and not negated.
pub fn is_or(piece: Piece) -> bool
    ensures { IsTrue result ↔ IsOr (piece_item piece.entry) }
{
    match piece {
        Piece::Row {
            negated: false,
            text,
        } => text.eq_ignore_ascii_case("or"),
        _ => false,
    }
}
