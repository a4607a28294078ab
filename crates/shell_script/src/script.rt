// The steps of a script, one after another.
ghost use Rattle.std.specs.Prelude.{◌≡◌, ◌≢◌, ℕ, ◌+◌, ◌<◌, ◌≤◌, ◌^◌, List, [], ◌∷◌, ◌++◌, ◌||◌};
ghost use Rattle.std.specs.Prelude.{length, IfSome, IfNone, codes, Bool, true, false, bytes_eq, suc};
ghost use Rattle.std.specs.Iterator.{YieldsFirstBy, item_count};
ghost use Rattle.std.specs.List.{All};
ghost use Rattle.std.specs.Str.Lines.{lines};
ghost use Rattle.shell_script.specs.Lines.{lines_from};
ghost use Rattle.shell_script.specs.StepsOf.{is_end, is_skipped as skips, role as role_in};
ghost use Rattle.shell_script.specs.StepsOf.{role_outside, body_of, has_end, defined_steps, steps_from};
ghost use Rattle.shell_script.specs.StepView.{line as shown, step as view_of};
ghost use Rattle.shell_script.specs.Inner.Cuts.{IsCut};

use crate::line::is_skipped;
use crate::lines::{Line, Lines, next_line};
use std::marker::Model;
use ts_base::first_word;

/// What a line is where it is, if it is not skipped.
#[derive(Clone, Copy)]
pub(crate) enum Role {
    /// It is a step by itself.
    Alone,
    /// It opens a definition.
    Opening,
    /// It opens a block, or is in one.
    Inner,
    /// It ends a block.
    Closing,
}

/// A step of a script.
#[derive(Drop)]
pub enum Step<'a> {
    /// A line by itself.
    Single(Line<'a>),
    /// The first line of a definition, and the lines of its body.
    Definition(Line<'a>, Lines<'a>),
    /// A line that is no statement where it is: in a block, since blocks are not built, or the
    /// first of a definition that has no end.
    Stray(Line<'a>),
}

/// The steps that are left of a script. Contracts see them as their list.
#[derive(Drop)]
pub struct Steps<'a> {
    /// The bytes of the lines that are left.
    rest: &'a [u8],
    /// The number of the first of them.
    number: u64,
    /// Whether it is in a block.
    within: bool,
}

impl<'a> Model for Steps<'a> {
    ghost use Rattle.std.specs.Prelude.{List};
    ghost use Rattle.shell_script.specs.Steps.{Step};

    ghost Value = { List Step };

    ghost use Rattle.shell_script.specs.Inner.StepsLeft.{steps_left, StepsFit};

    ghost view = { steps_left };

    ghost invariant = { StepsFit };
}

/// What a line outside a block is, by its first word.
fn role_by(first: &[u8]) -> Role
    ensures { result ≡ role_outside (bytes_eq first.now (codes "parallel"))
        (bytes_eq first.now (codes "dictionary") || bytes_eq first.now (codes "configuration")) }
{
    if first == b"parallel".as_slice() {
        return Role::Inner;
    }
    if first == b"dictionary".as_slice() || first == b"configuration".as_slice() {
        return Role::Opening;
    }
    Role::Alone
}

/// What a line is, given whether it is in a block.
fn role_of(within: bool, line: &[u8]) -> Role
    ensures { result ≡ role_in within line.now }
{
    if within {
        return if line == b"end".as_slice() {
            Role::Closing
        } else {
            Role::Inner
        };
    }
    match first_word(line) {
        Some((first, _)) => role_by(first),
        None => Role::Alone,
    }
}

/// The lines of a body, as bytes, how many they are, and what is after its end.
#[derive(Clone, Copy)]
struct Cut<'a> {
    body: &'a [u8],
    count: u64,
    behind: &'a [u8],
}

/// The body that a text begins with, up to the first line that is exactly `end`.
fn cut_body(text: &[u8]) -> Option<Cut<'_>>
    ensures some { IfSome result
        (λ c. IsCut (lines text.now) (lines c.body.now) (lines c.behind.now)) }
    ensures count { IfSome result (λ c. c.count ≡ length (lines c.body.now)) }
    ensures fits { IfSome result (λ c. (c.count + length c.behind.now < length text.now)
        × (length c.body.now ≤ length text.now)) }
    ensures none { IfNone result (All (λ l. is_end l ≡ false) (lines text.now)) }
{
    let mut behind = text;
    let mut count = 0;
    while let Some((line, rest)) = next_line(behind) {
        if line == b"end".as_slice() {
            return Some(Cut {
                body: &text[..text.len() - behind.len()],
                count,
                behind: rest,
            });
        }
        behind = rest;
        count += 1;
    }
    None
}

/// The first line that is not skipped, and what is after it.
fn counted_line(text: &[u8], from: u64) -> Option<(Line<'_>, &[u8])>
    requires { from + length text.now < 2 ^ 64 }
    ensures some { IfSome result (λ r. (w : Bool) → steps_from 0 w (lines_from from (lines text.now))
        ≡ steps_from 0 w (shown r.0 ∷ lines_from (r.0.number + 1) (lines r.1.now))) }
    ensures counts { IfSome result (λ r. skips r.0.bytes.now ≡ false) }
    ensures fits { IfSome result (λ r. r.0.number + 1 + length r.1.now < 2 ^ 64) }
    ensures none { IfNone result ((w : Bool)
        → steps_from 0 w (lines_from from (lines text.now)) ≡ []) }
{
    let mut rest = text;
    let mut number = from;
    while let Some((bytes, more)) = next_line(rest) {
        if !is_skipped(bytes) {
            return Some((Line { number, bytes }, more));
        }
        rest = more;
        number += 1;
    }
    None
}

/// The step of a line that opens a definition, and the steps after it.
fn defined<'a>(line: Line<'a>, rest: &'a [u8]) -> (Step<'a>, Steps<'a>)
    requires { line.number + 1 + length rest.now < 2 ^ 64 }
    ensures { (ls : _) → ls ≡ lines_from (line.entry.number + 1) (lines rest.now)
        → view_of result.0 ∷ result.1 ≡ defined_steps (has_end ls) (shown line.entry) (body_of ls)
        (steps_from (suc (length (body_of ls))) false ls) }
{
    let number = line.number + 1;
    match cut_body(rest) {
        Some(cut) => (
            Step::Definition(line, Lines::new(cut.body, number)),
            Steps {
                rest: cut.behind,
                number: number + cut.count + 1,
                within: false,
            },
        ),
        None => (
            Step::Stray(line),
            Steps {
                rest: b"",
                number,
                within: false,
            },
        ),
    }
}

/// The step of a line, and the steps after it.
fn step_at<'a>(within: bool, line: Line<'a>, rest: &'a [u8]) -> (Step<'a>, Steps<'a>)
    requires counts { skips line.bytes.now ≡ false }
    requires fits { line.number + 1 + length rest.now < 2 ^ 64 }
    ensures { view_of result.0 ∷ result.1
        ≡ steps_from 0 within
        (shown line.entry ∷ lines_from (line.entry.number + 1) (lines rest.now)) }
{
    let number = line.number + 1;
    match role_of(within, line.bytes) {
        Role::Opening => defined(line, rest),
        Role::Alone => (
            Step::Single(line),
            Steps {
                rest,
                number,
                within: false,
            },
        ),
        Role::Inner => (
            Step::Stray(line),
            Steps {
                rest,
                number,
                within: true,
            },
        ),
        Role::Closing => (
            Step::Stray(line),
            Steps {
                rest,
                number,
                within: false,
            },
        ),
    }
}

impl<'a> Steps<'a> {
    ghost use Rattle.shell_script.specs.StepsOf.{steps_of};

    /// The steps of a script.
    pub(crate) fn new(text: &'a [u8]) -> Steps<'a>
        ensures { result ≡ steps_of text.now }
    {
        Steps {
            rest: text,
            number: 1,
            within: false,
        }
    }
}

impl<'a> Iterator for Steps<'a> {
    type Item = Step<'a>;

    ghost next_gives = { YieldsFirstBy view_of (λ s. s) };

    ghost remaining = { item_count (λ s. s) };

    /// The next step.
    fn next(&mut self) -> Option<Step<'a>> {
        let (line, rest) = counted_line(self.rest, self.number)?;
        let (step, left) = step_at(self.within, line, rest);
        *self = left;
        Some(step)
    }
}
