// The first lines of definitions.
ghost use Rattle.std.specs.Prelude.{◌≡◌, ◌↔◌, ℕ, Bool, List, [], ◌∷◌, IfSome, IfNone, IsTrue, IsUtf8};
ghost use Rattle.std.specs.Char.{IsAsciiDigit};
ghost use Rattle.ts_base.specs.Bytes.{BeginsWithout};
ghost use Rattle.ts_base.specs.Words.{BeginsWithWord};
ghost use Rattle.shell_script.specs.Tokens.{ScriptToken, IsSpelled, word};
ghost use Rattle.shell_script.specs.OpeningLines.{IsNameByte, IsName, IsNamedKind, IsOpeningLine};
ghost use Rattle.shell_script.specs.OpeningLines.{OpeningLine as Said, Kind as KindOf, mark_tokens, kind_tokens};
ghost use Rattle.shell_script.specs.OpeningLineView.{opening_line, kind};
ghost use Rattle.shell_script.specs.Inner.Fronts.{Fronts};

use crate::tokens::{behind_word, front_word, is_all_blank};
use std::str;

/// The most bytes of a name.
pub const LONGEST_NAME: usize = 64;

/// The kind of a dictionary. A name in it lies in the line.
#[derive(Clone, Copy, Debug)]
pub enum Kind<'a> {
    /// Words in lower case.
    Simple {
        /// Whether a word that is no stop word is accepted.
        accept: bool,
    },
    /// Stems.
    Porter,
    /// Synonyms.
    Synonym {
        /// Whether the case of a word counts.
        case_sensitive: bool,
    },
    /// Phrases.
    Thesaurus {
        /// The name of the dictionary that words are passed through.
        sub: &'a str,
    },
}

/// What the first line of a definition says. Its name lies in the line.
#[derive(Clone, Copy, Debug)]
pub enum OpeningLine<'a> {
    /// A dictionary of a kind.
    Dictionary {
        /// Its name.
        name: &'a str,
        /// Its kind.
        kind: Kind<'a>,
    },
    /// A configuration.
    Configuration {
        /// Its name.
        name: &'a str,
    },
}

/// Whether a byte may be in a name.
fn is_name_byte(byte: u8) -> bool
    ensures { IsTrue result ↔ IsNameByte byte }
{
    byte.is_ascii_alphanumeric() || byte == b'_'
}

/// Whether a text does not begin with a digit.
fn begins_name(bytes: &[u8]) -> bool
    ensures { IsTrue result ↔ BeginsWithout IsAsciiDigit bytes.now }
{
    match bytes {
        [first, ..] => !first.is_ascii_digit(),
        [] => true,
    }
}

/// Whether a word is a name.
fn is_name(name: &str) -> bool
    ensures { IsTrue result ↔ IsName name.now }
{
    let bytes = name.as_bytes();
    !bytes.is_empty()
        && bytes.len() <= LONGEST_NAME
        && begins_name(bytes)
        && bytes.iter().all(|byte| is_name_byte(*byte))
        && name != "vector"
        && name != "strip"
}

/// The name at the front, after blanks, and what is after it.
pub(crate) fn front_name(text: &str) -> Option<(&str, &str)>
    ensures front { IfSome result (λ r. Fronts text.now (word r.0.now ∷ []) r.1.now) }
    ensures begins { IfSome result (λ r. BeginsWithWord text.now r.0.now r.1.now) }
    ensures name { IfSome result (λ r. IsName r.0.now) }
    ensures none { IfNone result ((n : List ℕ) (ts : List ScriptToken) → IsName n
        → IsSpelled text.now (word n ∷ ts) → ⊥) }
{
    let Some((found, rest)) = front_word(text) else {
        return None;
    };
    if is_name(found) {
        Some((found, rest))
    } else {
        None
    }
}

/// The name that the text is.
fn name_alone(text: &str) -> Option<&str>
    ensures some { IfSome result (λ n. IsName n.now × IsSpelled text.now (word n.now ∷ [])) }
    ensures none { IfNone result ((n : List ℕ) → IsName n → IsSpelled text.now (word n ∷ []) → ⊥) }
{
    let Some((name, rest)) = front_name(text) else {
        return None;
    };
    if !is_all_blank(rest) {
        return None;
    }
    Some(name)
}

/// Whether the text is this word, or nothing; None where it is something else.
fn mark_of(text: &str, mark: &str) -> Option<bool>
    ensures some { IfSome result (λ m. IsSpelled text.now (mark_tokens m mark.now)) }
    ensures none { IfNone result ((m : Bool) → IsSpelled text.now (mark_tokens m mark.now) → ⊥) }
{
    if is_all_blank(text) {
        return Some(false);
    }
    let Some(rest) = behind_word(text, mark) else {
        return None;
    };
    if !is_all_blank(rest) {
        return None;
    }
    Some(true)
}

/// The kind that the text is.
fn kind_of(text: &str) -> Option<Kind<'_>>
    ensures some { IfSome result
        (λ k. IsNamedKind (kind k) × IsSpelled text.now (kind_tokens (kind k))) }
    ensures none { IfNone result ((k : KindOf) → IsNamedKind k → IsSpelled text.now (kind_tokens k)
        → ⊥) }
{
    let Some((first, rest)) = front_word(text) else {
        return None;
    };
    match first {
        "simple" => match mark_of(rest, "pass") {
            Some(pass) => Some(Kind::Simple { accept: !pass }),
            None => None,
        },
        "synonym" => match mark_of(rest, "casesensitive") {
            Some(case_sensitive) => Some(Kind::Synonym { case_sensitive }),
            None => None,
        },
        "thesaurus" => match name_alone(rest) {
            Some(sub) => Some(Kind::Thesaurus { sub }),
            None => None,
        },
        "porter" if is_all_blank(rest) => Some(Kind::Porter),
        _ => None,
    }
}

/// The name and the kind that the text is.
fn name_and_kind(text: &str) -> Option<(&str, Kind<'_>)>
    ensures some { IfSome result (λ r. IsName r.0.now × IsNamedKind (kind r.1)
        × IsSpelled text.now (word r.0.now ∷ kind_tokens (kind r.1))) }
    ensures none { IfNone result ((n : List ℕ) (k : KindOf) → IsName n → IsNamedKind k
        → IsSpelled text.now (word n ∷ kind_tokens k) → ⊥) }
{
    let Some((name, rest)) = front_name(text) else {
        return None;
    };
    match kind_of(rest) {
        Some(kind) => Some((name, kind)),
        None => None,
    }
}

/// What the first line of a definition says, or None where it is outside the grammar.
pub fn read_opening_line(line: &[u8]) -> Option<OpeningLine<'_>>
    ensures some { IfSome result (λ h. IsOpeningLine line.now (opening_line h)) }
    ensures none { IfNone result ((h : Said) → IsOpeningLine line.now h → ⊥) }
{
    let Ok(text) = str::from_utf8(line) else {
        return None;
    };
    let Some((first, rest)) = front_word(text) else {
        return None;
    };
    if first == "dictionary" {
        let Some((name, kind)) = name_and_kind(rest) else {
            return None;
        };
        return Some(OpeningLine::Dictionary { name, kind });
    }
    if first == "configuration" {
        let Some(name) = name_alone(rest) else {
            return None;
        };
        return Some(OpeningLine::Configuration { name });
    }
    None
}
