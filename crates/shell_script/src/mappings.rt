// The lines of a configuration.
ghost use Rattle.std.specs.Prelude.{◌≡◌, ◌≢◌, ℕ, ◌<◌, List, [], ◌∷◌, length, map};
ghost use Rattle.std.specs.Prelude.{drop, ◌+◌, IfSome, IfNone, MatchOption, Some, None};
ghost use Rattle.std.specs.Iterator.{YieldsFirst, YieldsFirstRef, item_count};
ghost use Rattle.std.specs.List.{All, join_with_byte};
ghost use Rattle.ts_parser.specs.declared.kinds.TokenType.{TokenType as Kinds};
ghost use Rattle.ts_parser.specs.Kinds.{type_name};
ghost use Rattle.shell_script.specs.Tokens.{IsSpelled, word};
ghost use Rattle.shell_script.specs.OpeningLines.{IsName, IsMapping};
ghost use Rattle.shell_script.specs.Inner.Parts.{comma, part_of};

use crate::opening_lines::front_name;
use crate::tokens::{front_word, is_all_blank};
use memchr::memchr;
use std::marker::Model;
use std::str;
use ts_parser::TokenType;

/// The types that are left of a line. Contracts see them as their list.
#[derive(Drop)]
pub struct Types<'a> {
    /// Their names, with commas between them.
    text: &'a str,
}

impl<'a> Model for Types<'a> {
    ghost use Rattle.std.specs.Prelude.{List};
    ghost use Rattle.ts_parser.specs.declared.kinds.TokenType.{TokenType};
    ghost use Rattle.shell_script.specs.Inner.Parts.{types_in, IsTypes};

    ghost Value = { List TokenType };

    ghost view = { λ t. types_in t.text.now };

    ghost invariant = { λ t. IsTypes t.text.now };
}

/// The bytes before the first comma, and those after it.
fn cut_at_comma(text: &str) -> (&str, &str)
    ensures front { result.0.now ≡ part_of text.now }
    ensures behind { result.1.now ≡ drop (length (part_of text.now) + 1) text.now }
{
    match memchr(b',', text.as_bytes()) {
        Some(at) => (&text[..at], &text[at + 1..]),
        None => (text, ""),
    }
}

impl<'a> Iterator for Types<'a> {
    type Item = TokenType;

    ghost next_gives = { YieldsFirst (λ s. s) };

    ghost remaining = { item_count (λ s. s) };

    /// The next type.
    fn next(&mut self) -> Option<TokenType> {
        if self.text.is_empty() {
            return None;
        }
        let (name, rest) = cut_at_comma(self.text);
        self.text = rest;
        TokenType::from_name(name)
    }
}

/// The names that are left of a line. Contracts see them as their list.
#[derive(Drop)]
pub struct Names<'a> {
    /// The text that they are in.
    text: &'a str,
}

impl<'a> Model for Names<'a> {
    ghost use Rattle.std.specs.Prelude.{List, ℕ};
    ghost use Rattle.shell_script.specs.Inner.Parts.{words_in};

    ghost Value = { List (List ℕ) };

    ghost view = { λ n. words_in n.text.now };
}

impl<'a> Iterator for Names<'a> {
    type Item = &'a str;

    ghost next_gives = { YieldsFirstRef (λ s. s) };

    ghost remaining = { item_count (λ s. s) };

    /// The next name.
    fn next(&mut self) -> Option<&'a str> {
        let Some((name, rest)) = ts_base::front_word(self.text) else {
            return None;
        };
        self.text = rest;
        Some(name)
    }
}

/// The names that the text is, with blanks between them.
fn names_of(text: &str) -> Option<Names<'_>>
    ensures some { IfSome result (λ ns. (0 < length ns) × All IsName ns
        × IsSpelled text.now (map word ns)) }
    ensures none { IfNone result ((ns : List (List ℕ)) → 0 < length ns → All IsName ns
        → IsSpelled text.now (map word ns) → ⊥) }
{
    if is_all_blank(text) {
        return None;
    }
    let mut rest = text;
    while !is_all_blank(rest) {
        let Some((_, more)) = front_name(rest) else {
            return None;
        };
        rest = more;
    }
    Some(Names { text })
}

/// The types that the text names, with commas between them.
fn types_of(text: &str) -> Option<Types<'_>>
    ensures some { IfSome result (λ ks. (0 < length ks)
        × (text.now ≡ join_with_byte comma (map type_name ks))) }
    ensures none { IfNone result ((ks : List Kinds) → 0 < length ks
        → text.now ≢ join_with_byte comma (map type_name ks)) }
{
    let mut rest = text;
    loop {
        let (name, more) = cut_at_comma(rest);
        let _ = TokenType::from_name(name)?;
        if name.len() == rest.len() {
            return Some(Types { text });
        }
        rest = more;
    }
}

/// A line `TYPES DICTS` of a configuration.
#[derive(Drop)]
pub struct Mapping<'a> {
    /// The types.
    pub types: Types<'a>,
    /// The names of the dictionaries that they get.
    pub names: Names<'a>,
}

/// What a line of a configuration says, or None where it is outside the grammar.
pub fn read_mapping(line: &[u8]) -> Option<Mapping<'_>>
    ensures some { IfSome result (λ m. IsMapping line.now m.types m.names) }
    ensures none { IfNone result ((types : List Kinds) (names : List (List ℕ))
        → IsMapping line.now types names → ⊥) }
{
    let Ok(text) = str::from_utf8(line) else {
        return None;
    };
    let (first, rest) = front_word(text)?;
    let types = types_of(first)?;
    let names = names_of(rest)?;
    Some(Mapping { types, names })
}
