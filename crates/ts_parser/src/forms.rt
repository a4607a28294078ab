ghost use Rattle.std.specs.Prelude.{◌≡◌, ◌≤◌, ◌<◌, length, is_some, true};
ghost use Rattle.ts_parser.specs.NumberForms.{exponent_len as exponent_is, ends_number as end_is};
ghost use Rattle.ts_parser.specs.NumberForms.{is_one_group as one_is, is_two_groups as two_are, ended as ended_is};
ghost use Rattle.ts_parser.specs.NumberForms.{number_of as number_is, number_front as front_number};
ghost use Rattle.ts_parser.specs.NumberForms.{number_at as number_here, groups_len as groups_are};
ghost use Rattle.ts_parser.specs.WordForms.{word_form as word_is, run_kind as kind_of_run, whole_kind as kind_of_whole};
ghost use Rattle.ts_parser.specs.WordForms.{part_form as part_is};
ghost use Rattle.ts_parser.specs.Letters.{begins_with as front_is, is_word_byte as inner_is};
ghost use Rattle.ts_parser.specs.TokensOf.{starts_form as form_starts, blank_len as blank_is, form_at as form_here};

use crate::bytes::{
    all_ascii_letters, all_digits, any_digit, any_wide, any_word_letter, begins_with_digit,
    begins_with_word_byte, digits_len, groups_len, is_free, is_sign, is_word_byte, links_len,
    run_len,
};
use crate::kinds::TokenType;

/// A type, and how many bytes at the front are of it.
#[derive(Clone, Copy, Debug)]
pub struct Form {
    /// The type.
    pub kind: TokenType,
    /// The number of bytes.
    pub length: usize,
}

/// How long the exponent at the front is, 0 where none is.
fn exponent_len(u: &[u8]) -> usize
    ensures value { result ≡ exponent_is u.now }
    ensures within { result ≤ length u.now }
{
    match u {
        [b'e' | b'E', rest @ ..] => {
            let sign = match rest {
                [c, ..] if is_sign(*c) => 1,
                _ => 0,
            };
            match digits_len(&rest[sign..]) {
                0 => 0,
                n => 1 + sign + n,
            }
        }
        _ => 0,
    }
}

/// Whether a number may end before these bytes.
fn ends_number(r: &[u8]) -> bool
    ensures { result ≡ end_is r.now }
{
    match r {
        [] => true,
        [c, rest @ ..] => !is_word_byte(*c) && !(*c == b'.' && begins_with_digit(rest)),
    }
}

/// The number of `n` bytes at the front, if it ends there.
fn ended(u: &[u8], n: usize, kind: TokenType) -> Option<Form>
    requires { n ≤ length u.now }
    ensures { result ≡ ended_is u.now n kind }
{
    if ends_number(&u[n..]) {
        Some(Form { kind, length: n })
    } else {
        None
    }
}

/// Whether `n` bytes at the front are two groups of digits with a dot between them.
fn is_two_groups(u: &[u8], n: usize) -> bool
    ensures { result ≡ two_are u.now n }
{
    let first = digits_len(u);
    let second = if first < u.len() {
        digits_len(&u[first + 1..])
    } else {
        0
    };
    n > first && n - first - 1 == second
}

/// The number at the front, whose groups of digits have `n` bytes.
fn number_of(signed: bool, u: &[u8], n: usize) -> Option<Form>
    requires { n ≤ length u.now }
    ensures { result ≡ number_is signed u.now n }
{
    let one = n == digits_len(u);
    let two = !one && is_two_groups(u, n);
    if one || two {
        let exponent = exponent_len(&u[n..]);
        if exponent > 0 {
            return ended(u, n + exponent, TokenType::Sfloat);
        }
    }
    if one {
        return ended(
            u,
            n,
            if signed {
                TokenType::Int
            } else {
                TokenType::Uint
            },
        );
    }
    if two {
        return ended(u, n, TokenType::Float);
    }
    if signed {
        return None;
    }
    ended(u, n, TokenType::Version)
}

/// The number after a sign, without the sign.
fn signed_number(u: &[u8]) -> Option<Form>
    ensures { result ≡ front_number true u.now }
{
    if !begins_with_digit(u) {
        return None;
    }
    number_of(true, u, groups_len(u))
}

/// The number at the front, where `n` is the length of the groups of digits there.
fn number_at(before: Option<u8>, u: &[u8], n: usize) -> Option<Form>
    requires { n ≡ groups_are u.now }
    ensures { result ≡ number_here before u.now }
{
    match u {
        [] => None,
        [c, rest @ ..] if is_sign(*c) => {
            if !is_free(before) {
                return None;
            }
            let number = signed_number(rest)?;
            Some(Form {
                kind: number.kind,
                length: number.length + 1,
            })
        }
        _ => {
            if !begins_with_digit(u) {
                return None;
            }
            number_of(false, u, n)
        }
    }
}

/// The type of a run.
fn run_kind(run: &[u8]) -> TokenType
    requires { 0 < length run.now }
    ensures { result ≡ kind_of_run run.now }
{
    if all_ascii_letters(run) {
        return TokenType::Asciiword;
    }
    if all_digits(run) {
        return TokenType::Uint;
    }
    if any_digit(run) {
        return TokenType::Numword;
    }
    TokenType::Word
}

/// The type of a hyphen word.
fn whole_kind(word: &[u8]) -> TokenType
    ensures { result ≡ kind_of_whole word.now }
{
    if any_digit(word) {
        return TokenType::Numhword;
    }
    if any_wide(word) {
        return TokenType::Hword;
    }
    TokenType::Asciihword
}

/// The hyphen word or the run at the front of a text that begins with a letter or a digit.
fn word_form(u: &[u8]) -> Form
    requires { front_is inner_is u.now ≡ true }
    ensures { result ≡ word_is u.now }
{
    let length = run_len(u);
    let run = &u[..length];
    if any_word_letter(run) {
        let links = links_len(u, length);
        if length < links {
            return Form {
                kind: whole_kind(&u[..links]),
                length: links,
            };
        }
    }
    Form {
        kind: run_kind(run),
        length,
    }
}

/// Whether a number or a run starts at the front.
fn starts_form(before: Option<u8>, u: &[u8]) -> bool
    ensures { result ≡ form_starts before u.now }
{
    match u {
        [] => false,
        [c, rest @ ..] if is_sign(*c) => is_free(before) && signed_number(rest).is_some(),
        [c, ..] => is_word_byte(*c),
    }
}

/// How many bytes at the front are at no place where a form starts.
fn blank_len(before: Option<u8>, u: &[u8]) -> usize
    ensures value { result ≡ blank_is before u.now }
    ensures within { result ≤ length u.now }
{
    let mut last = before;
    let mut n = 0;
    while n < u.len() && !starts_form(last, &u[n..]) {
        last = Some(u[n]);
        n += 1;
    }
    n
}

/// The form at the front of a text that is not empty, where `n` is the length of the groups of
/// digits there.
pub fn form_at(before: Option<u8>, u: &[u8], n: usize) -> Form
    requires groups { n ≡ groups_are u.now }
    requires some { 0 < length u.now }
    ensures value { result ≡ form_here before u.now }
    ensures within { (1 ≤ result.length) × (result.length ≤ length u.now) }
{
    if let Some(number) = number_at(before, u, n) {
        return number;
    }
    if begins_with_word_byte(u) {
        return word_form(u);
    }
    Form {
        kind: TokenType::Blank,
        length: blank_len(before, u),
    }
}

/// The part of a hyphen word at the front, or the hyphen between two.
pub fn part_form(u: &[u8]) -> Form
    requires { 0 < length u.now }
    ensures value { result ≡ part_is u.now }
    ensures within { (1 ≤ result.length) × (result.length ≤ length u.now) }
{
    if !begins_with_word_byte(u) {
        return Form {
            kind: TokenType::Blank,
            length: 1,
        };
    }
    let length = run_len(u);
    let part = &u[..length];
    let kind = if any_digit(part) {
        TokenType::HwordNumpart
    } else if all_ascii_letters(part) {
        TokenType::HwordAsciipart
    } else {
        TokenType::HwordPart
    };
    Form { kind, length }
}
