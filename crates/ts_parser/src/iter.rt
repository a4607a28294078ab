ghost use Rattle.std.specs.Prelude.{◌≡◌, ◌≤◌, ◌<◌, ◌+◌, length, drop, take, if◌then◌else◌};
ghost use Rattle.std.specs.Iterator.{YieldsFirst, item_count};
ghost use Rattle.ts_parser.specs.Kinds.{has_parts as parts_follow};
ghost use Rattle.ts_parser.specs.TokensOf.{byte_before as before_is};
ghost use Rattle.ts_parser.specs.NumberForms.{groups_len as groups_are};

use crate::bytes::groups_len;
use crate::forms::{Form, form_at, part_form};
use crate::kinds::TokenType;
use std::marker::Model;

/// A piece of a text: its type, the offset at which it starts, and its length in bytes.
#[derive(Clone, Copy, Debug, PartialEq, Eq)]
pub struct Token {
    /// What it is.
    pub kind: TokenType,
    /// The offset of its first byte.
    pub start: usize,
    /// How many bytes it has.
    pub length: usize,
}

impl Token {
    ghost use Rattle.ts_parser.specs.Between.{IsBetween};

    /// The token's own piece of its text.
    pub fn of(self, text: &str) -> &str
        requires { IsBetween text.now self }
        ensures { result.now ≡ take self.length (drop self.start text.now) }
    {
        &text[self.start..self.start + self.length]
    }
}

/// The tokens that are left of a text. Contracts see them as their list.
#[derive(Drop)]
pub struct Tokens<'a> {
    /// The bytes of the whole text.
    text: &'a [u8],
    /// Where the next part of a hyphen word starts that is yet to be given, `at` where none is.
    part: usize,
    /// The end of what has been given, parts aside.
    at: usize,
    /// The end of the groups of digits that `at` is in, if it is above `at`.
    groups_end: usize,
}

impl<'a> Model for Tokens<'a> {
    ghost use Rattle.std.specs.Prelude.{List};
    ghost use Rattle.ts_parser.specs.declared.iter.Token.{Token};

    ghost Value = { List Token };

    ghost use Rattle.ts_parser.specs.Inner.Left.{tokens_left, AreLeft};

    ghost view = { tokens_left };

    ghost invariant = { AreLeft };
}

/// The byte before a place, None at the start.
fn byte_before(text: &[u8], at: usize) -> Option<u8>
    requires { at ≤ length text.now }
    ensures { result ≡ before_is text.now at }
{
    if at == 0 {
        return None;
    }
    Some(text[at - 1])
}

/// The bytes from a place on.
fn behind(text: &[u8], at: usize) -> &[u8]
    requires { at ≤ length text.now }
    ensures { result.now ≡ drop at text.now }
{
    &text[at..]
}

/// How long the groups of digits are at the front of `rest`, which is at `at`. Where `end` is
/// above that, they are known to end there, and are not read again.
#[tactic(auto, using(crate::proofs::Fits::row_fits))]
fn groups_here(rest: &[u8], at: usize, end: usize) -> usize
    requires { at < end → groups_are rest.now + at ≡ end }
    ensures value { result ≡ groups_are rest.now }
    ensures within { result ≤ length rest.now }
{
    if at < end { end - at } else { groups_len(rest) }
}

/// Where the parts start that are to be given after a token, its end where it has none.
fn parts_start(kind: TokenType, start: usize, end: usize) -> usize
    ensures { result ≡ (if parts_follow kind then start else end) }
{
    if kind.has_parts() { start } else { end }
}

impl<'a> Tokens<'a> {
    ghost use Rattle.ts_parser.specs.TokensOf.{tokens_of};

    /// The tokens of a text.
    pub(crate) fn new(text: &'a [u8]) -> Tokens<'a>
        ensures { result ≡ tokens_of text.now }
    {
        Tokens {
            text,
            part: 0,
            at: 0,
            groups_end: 0,
        }
    }

    /// The same tokens once more, to look ahead.
    pub fn again(&self) -> Tokens<'a>
        ensures { result ≡ self.now }
    {
        Tokens {
            text: self.text,
            part: self.part,
            at: self.at,
            groups_end: self.groups_end,
        }
    }
}

impl<'a> Iterator for Tokens<'a> {
    type Item = Token;

    ghost next_gives = { YieldsFirst (λ s. s) };

    ghost remaining = { item_count (λ s. s) };

    /// The next token; after a hyphen word its parts come first.
    fn next(&mut self) -> Option<Token> {
        if self.part < self.at {
            let word = behind(&self.text[..self.at], self.part);
            let part = part_form(word);
            let token = Token {
                kind: part.kind,
                start: self.part,
                length: part.length,
            };
            self.part += part.length;
            return Some(token);
        }
        if self.at == self.text.len() {
            return None;
        }
        let before = byte_before(self.text, self.at);
        let rest = behind(self.text, self.at);
        let groups = groups_here(rest, self.at, self.groups_end);
        let form = form_at(before, rest, groups);
        let token = Token {
            kind: form.kind,
            start: self.at,
            length: form.length,
        };
        self.groups_end = self.at + groups;
        self.at += form.length;
        self.part = parts_start(form.kind, token.start, self.at);
        Some(token)
    }
}
