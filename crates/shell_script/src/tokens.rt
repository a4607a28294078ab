// The words and quoted texts of a line.
ghost use Rattle.std.specs.Prelude.{◌≡◌, ℕ, ◌↔◌, List, [], ◌∷◌, ◌++◌, IfOk, IfSome, IfNone, IsTrue};
ghost use Rattle.std.specs.List.{All};
ghost use Rattle.std.specs.String.{string_bytes};
ghost use Rattle.ts_base.specs.Bytes.{BeginsWithout, IsBlank};
ghost use Rattle.ts_base.specs.Words.{EndsWord, BeginsWithWord};
ghost use Rattle.shell_script.specs.Tokens.{IsSpelled, word, quote};
ghost use Rattle.shell_script.specs.Inner.Fronts.{Fronts, IsFirst, IsNoQuote, IsQuote};
ghost use Rattle.shell_script.specs.Tokens.{ScriptToken as Spelled};

use memchr::memchr;
use std::alloc::{AllocError, Global};
use ts_base::{is_blank, without_blanks};

/// Whether a token may end where this text begins.
fn ends_token(text: &str) -> bool
    ensures { IsTrue result ↔ EndsWord text.now }
{
    match text.as_bytes().first() {
        Some(byte) => is_blank(*byte),
        None => true,
    }
}

/// What is after a quote at the front.
fn behind_quote(text: &str) -> Option<&str>
    ensures some { IfSome result (λ rest. text.now ≡ 39 ∷ rest.now) }
    ensures none { IfNone result (BeginsWithout IsQuote text.now) }
{
    match text.as_bytes().first() {
        Some(byte) if *byte == b'\'' => Some(&text[1..]),
        _ => None,
    }
}

/// What is before the first quote, and after it.
fn cut_at_quote(text: &str) -> Option<(&str, &str)>
    ensures some { IfSome result (λ r. (text.now ≡ r.0.now ++ 39 ∷ r.1.now)
        × All IsNoQuote r.0.now) }
    ensures none { IfNone result (All IsNoQuote text.now) }
{
    match memchr(b'\'', text.as_bytes()) {
        Some(at) => Some((&text[..at], &text[at + 1..])),
        None => None,
    }
}

/// The quoted text whose first quote has been read, and what is after it.
fn quote_inside(alloc: Global, text: &str) -> Result<Option<(String, &str)>, AllocError>
    ensures some { IfOk result (λ found. IfSome found
        (λ r. IsFirst (39 ∷ text.now) (quote (string_bytes r.0)) r.1.now)) }
    ensures none { IfOk result (λ found. IfNone found ((t : Spelled) (rest : List ℕ)
        → IsFirst (39 ∷ text.now) t rest → ⊥)) }
{
    let mut content = String::new(alloc);
    let mut rest = text;
    while let Some((piece, more)) = cut_at_quote(rest) {
        content.push_str(piece)?;
        let Some(next) = behind_quote(more) else {
            if !ends_token(more) {
                return Ok(None);
            }
            return Ok(Some((content, more)));
        };
        content.push('\'')?;
        rest = next;
    }
    Ok(None)
}

/// Whether nothing but blanks is in the text.
pub fn is_all_blank(text: &str) -> bool
    ensures { IsTrue result ↔ All IsBlank text.now }
{
    without_blanks(text).is_empty()
}

/// The word at the front, after blanks, and what is after it.
/// None where no word is there, or a quote is in it.
pub fn front_word(text: &str) -> Option<(&str, &str)>
    ensures some { IfSome result (λ r. Fronts text.now (word r.0.now ∷ []) r.1.now) }
    ensures begins { IfSome result (λ r. BeginsWithWord text.now r.0.now r.1.now) }
    ensures none { IfNone result ((w : List ℕ) (ts : List Spelled)
        → IsSpelled text.now (word w ∷ ts) → ⊥) }
{
    let (word, rest) = ts_base::front_word(text)?;
    match cut_at_quote(word) {
        Some(_) => None,
        None => Some((word, rest)),
    }
}

/// What is after this word, where it is the one at the front.
pub fn behind_word<'a>(text: &'a str, expected: &str) -> Option<&'a str>
    ensures some { IfSome result (λ rest. Fronts text.now (word expected.now ∷ []) rest.now) }
    ensures none { IfNone result ((ts : List Spelled)
        → IsSpelled text.now (word expected.now ∷ ts) → ⊥) }
{
    match front_word(text) {
        Some((word, rest)) if word == expected => Some(rest),
        _ => None,
    }
}

/// The quoted text at the front, after blanks, and what is after it.
/// None where none is there, it isn't closed, or something is right after it.
pub fn front_quote(alloc: Global, text: &str) -> Result<Option<(String, &str)>, AllocError>
    ensures some { IfOk result (λ found. IfSome found
        (λ r. Fronts text.now (quote (string_bytes r.0) ∷ []) r.1.now)) }
    ensures none { IfOk result (λ found. IfNone found ((t : List ℕ) (ts : List Spelled)
        → IsSpelled text.now (quote t ∷ ts) → ⊥)) }
{
    match behind_quote(without_blanks(text)) {
        Some(inside) => quote_inside(alloc, inside),
        None => Ok(None),
    }
}
