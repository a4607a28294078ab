// The name of a document, as a line has it.
ghost use Rattle.std.specs.Prelude.{◌≡◌, ◌≢◌, ◌+◌, ◌^◌, ◌<◌, true, false, get_or, ℕ};
ghost use Rattle.std.specs.Prelude.{List, [], ◌∷◌, ◌++◌, IfSome, IfNone};
ghost use Rattle.std.specs.List.{All};
ghost use Rattle.std.specs.Str.Parse.{IsNumeral};
ghost use Rattle.shell_script.specs.Docs.{Doc as Named, IsDecimal, IsDoc};
ghost use Rattle.shell_script.specs.Inner.Fronts.{Fronts};
ghost use Rattle.shell_script.specs.Lines.{HasNo};
ghost use Rattle.shell_script.specs.StatementView.{doc};
ghost use Rattle.shell_script.specs.Tokens.{ScriptToken as Spelled, IsSpelled, word};

use crate::tokens::front_word;
use memchr::memchr;
use page_types::Name;

/// The name of a document. Its text lies in the line.
#[derive(Clone, Copy, Debug)]
pub struct Doc<'a> {
    /// Its text.
    pub text: &'a str,
    /// What it names.
    pub name: Name,
}

/// What is before the first of these bytes, and after it.
fn cut_at(text: &str, byte: u8) -> Option<(&str, &str)>
    requires { byte < 128 }
    ensures some { IfSome result (λ r. (text.now ≡ r.0.now ++ byte ∷ r.1.now)
        × HasNo byte r.0.now) }
    ensures none { IfNone result (HasNo byte text.now) }
{
    match memchr(byte, text.as_bytes()) {
        Some(at) => Some((&text[..at], &text[at + 1..])),
        None => None,
    }
}

/// Whether a text begins with a digit.
fn begins_digit(text: &str) -> bool
    ensures yes { result ≡ true → get_or text.now 0 0 ≢ 43 }
    ensures no { result ≡ false → IsNumeral 10 text.now → ⊥ }
{
    match text.as_bytes().first() {
        Some(byte) => byte.is_ascii_digit(),
        None => false,
    }
}

/// The number that decimal digits say, if it is at most this one.
fn number_of(digits: &str, most: u64) -> Option<u64>
    ensures some { IfSome result (λ n. IsDecimal digits.now n (most + 1)) }
    ensures none { IfNone result ((n : ℕ) → IsDecimal digits.now n (most + 1) → ⊥) }
{
    if !begins_digit(digits) {
        return None;
    }
    let Ok(number) = digits.parse::<u64>() else {
        return None;
    };
    if number > most {
        return None;
    }
    Some(number)
}

/// The document that a word names.
fn doc_in(text: &str) -> Option<Doc<'_>>
    ensures some { IfSome result (λ d. IsDoc (doc d) × (d.text.now ≡ text.now)) }
    ensures none { IfNone result ((d : Named) → IsDoc d → d.text ≡ text.now → ⊥) }
{
    let Some((first, rest)) = cut_at(text, b'/') else {
        return None;
    };
    let Some((second, third)) = cut_at(rest, b'#') else {
        return None;
    };
    let Some(page) = number_of(first, u32::MAX as u64) else {
        return None;
    };
    let Some(slot) = number_of(second, u16::MAX as u64) else {
        return None;
    };
    let Some(serial) = number_of(third, u64::MAX) else {
        return None;
    };
    let name = Name {
        page: page as u32,
        slot: slot as u16,
        serial,
    };
    Some(Doc { text, name })
}

/// The document that the word at the front names, and what is after it.
pub(crate) fn front_doc(text: &str) -> Option<(Doc<'_>, &str)>
    ensures some { IfSome result (λ r. IsDoc (doc r.0)
        × Fronts text.now (word r.0.text.now ∷ []) r.1.now) }
    ensures none { IfNone result ((d : Named) (ts : List Spelled) → IsDoc d
        → IsSpelled text.now (word d.text ∷ ts) → ⊥) }
{
    let Some((found, rest)) = front_word(text) else {
        return None;
    };
    match doc_in(found) {
        Some(doc) => Some((doc, rest)),
        None => None,
    }
}
