// The lines of a text, one after another.
ghost use Rattle.std.specs.Prelude.{◌≡◌, ℕ, ◌+◌, ◌<◌, ◌^◌, [], ◌∷◌, length, IfSome, IfNone};
ghost use Rattle.std.specs.Iterator.{YieldsFirstBy, item_count};
ghost use Rattle.std.specs.Str.Lines.{lines};
ghost use Rattle.shell_script.specs.Inner.Cuts.{IsCutOff};

use crate::line::{cut_at, without_return};
use std::marker::Model;

/// A line of a script, with its number.
#[derive(Clone, Copy)]
pub struct Line<'a> {
    /// Its number, from 1.
    pub number: u64,
    /// Its bytes, without its end.
    pub bytes: &'a [u8],
}

/// The lines that are left of a text. Contracts see them as their list.
#[derive(Drop)]
pub struct Lines<'a> {
    /// The bytes of these lines.
    rest: &'a [u8],
    /// The number of the first of them.
    number: u64,
}

impl<'a> Model for Lines<'a> {
    ghost use Rattle.std.specs.Prelude.{List};
    ghost use Rattle.shell_script.specs.Lines.{Line};

    ghost Value = { List Line };

    ghost use Rattle.shell_script.specs.Inner.LinesLeft.{lines_left, NumbersFit};

    ghost view = { lines_left };

    ghost invariant = { NumbersFit };
}

/// The first line of a text, and what is after it.
pub(crate) fn next_line(text: &[u8]) -> Option<(&[u8], &[u8])>
    ensures some { IfSome result (λ r. lines text.now ≡ r.0.now ∷ lines r.1.now) }
    ensures cut { IfSome result (λ r. IsCutOff text.now r.0.now r.1.now) }
    ensures shorter { IfSome result (λ r. length r.1.now < length text.now) }
    ensures none { IfNone result (text.now ≡ []) }
{
    if text.is_empty() {
        return None;
    }
    match cut_at(b'\n', text) {
        Some((line, rest)) => Some((without_return(line), rest)),
        None => Some((text, b"")),
    }
}

impl<'a> Lines<'a> {
    ghost use Rattle.shell_script.specs.Lines.{lines_from};

    /// The lines of a text, of which the first has this number.
    pub(crate) fn new(text: &'a [u8], number: u64) -> Lines<'a>
        requires { number + length text.now < 2 ^ 64 }
        ensures { result ≡ lines_from number (lines text.now) }
    {
        Lines { rest: text, number }
    }
}

impl<'a> Iterator for Lines<'a> {
    ghost use Rattle.shell_script.specs.StepView.{line};

    type Item = Line<'a>;

    ghost next_gives = { YieldsFirstBy line (λ s. s) };

    ghost remaining = { item_count (λ s. s) };

    /// The next line.
    fn next(&mut self) -> Option<Line<'a>> {
        let (bytes, rest) = next_line(self.rest)?;
        let line = Line {
            number: self.number,
            bytes,
        };
        self.rest = rest;
        self.number += 1;
        Some(line)
    }
}
