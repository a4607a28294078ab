// How what was wanted and what came differ.
ghost use Rattle.std.specs.Prelude.{◌≡◌, ◌↔◌, IsTrue, IfSome};

use crate::tally::tell;
use std::str;

/// What a run must print, its status, and the log's bytes that it must leave, where they are known.
#[derive(Drop)]
pub struct Wanted {
    /// What is printed.
    pub text: Vec<u8>,
    /// The status.
    pub status: u64,
    /// The log that is left.
    pub left: Option<Vec<u8>>,
}

/// How many bytes are the same before the first that differs.
pub fn same_front(first: &[u8], second: &[u8]) -> usize {
    let mut count = 0usize;
    for (a, b) in first.iter().zip(second) {
        if a != b {
            break;
        }
        count = count.saturating_add(1);
    }
    count
}

/// How often a byte is there.
pub fn count_of(bytes: &[u8], sought: u8) -> usize {
    let mut count = 0usize;
    for byte in bytes {
        count = count.saturating_add(usize::from(*byte == sought));
    }
    count
}

/// Whether this is the log that was wanted, where that is known.
fn is_left(wanted: &Option<Vec<u8>>, left: &[u8]) -> bool
    ensures { IsTrue result ↔ IfSome wanted.now (λ w. w.items ≡ left.now) }
{
    match wanted {
        Some(wanted) => wanted.as_slice() == left,
        None => true,
    }
}

/// Whether what a run printed, its status and the log that it left are as they were wanted.
pub fn agrees(wanted: &Wanted, status: u8, written: &[u8], left: &[u8]) -> bool
    ensures { IsTrue result ↔ ((wanted.now.text.items ≡ written.now)
        × (wanted.now.status ≡ status)
        × IfSome wanted.now.left (λ w. w.items ≡ left.now)) }
{
    wanted.text.as_slice() == written
        && wanted.status == u64::from(status)
        && is_left(&wanted.left, left)
}

/// The line with this number, from 0, of a text.
fn line_at(bytes: &[u8], number: usize) -> &str {
    let text = str::from_utf8(bytes).unwrap_or("");
    text.split('\n').nth(number).unwrap_or("")
}

/// Prints the first line that differs.
fn tell_line(rt: &impl Print, name: &str, wanted: &[u8], written: &[u8]) {
    let same = wanted.get(..same_front(wanted, written)).unwrap_or(b"");
    let number = count_of(same, b'\n');
    let line = number.saturating_add(1) as u64;
    tell(rt, name, "wanted in line", line, line_at(wanted, number));
    tell(rt, name, "written in line", line, line_at(written, number));
}

/// Prints the first place where a log differs, and how many bytes there are.
fn tell_log(rt: &impl Print, name: &str, wanted: &[u8], left: &[u8]) {
    let place = same_front(wanted, left);
    tell(rt, name, "the log differs at", place as u64, "");
    tell(rt, name, "bytes of log wanted:", wanted.len() as u64, "");
    tell(rt, name, "bytes of log left:", left.len() as u64, "");
}

/// Prints how a run differs from what was wanted.
pub fn tell_difference(
    rt: &impl Print,
    name: &str,
    wanted: &Wanted,
    status: u8,
    written: &[u8],
    left: &[u8],
) {
    if wanted.text.as_slice() != written {
        tell_line(rt, name, &wanted.text, written);
    }
    match &wanted.left {
        Some(wanted) if wanted.as_slice() != left => tell_log(rt, name, wanted, left),
        _ => {}
    }
    tell(rt, name, "status wanted:", wanted.status, "");
    tell(rt, name, "status:", u64::from(status), "");
}
