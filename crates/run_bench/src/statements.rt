// A script of statements over a store that grows.
use std::alloc::{AllocError, Global};

/// The statements of a script, in turn: of which session, what they do, the numbers of the first and the last one, and
/// what they are called. A document with a number below 60 lies on page 2, in that slot.
const FEW: &str = "\
1 insert 0 100 inserts behind 0
4 update 0 15 updates among 100
5 delete 15 30 deletes among 100
2 insert 100 200 inserts behind 100
6 update 30 45 updates among 200
7 delete 45 60 deletes among 200
8 search 0 10 searches among 200";

/// The same where time is asked for.
const MANY: &str = "\
1 insert 0 1000 inserts behind 0
4 update 0 15 updates among 1000
5 delete 15 30 deletes among 1000
2 insert 1000 19000 inserts behind 1000
3 insert 19000 20000 inserts behind 19000
6 update 30 45 updates among 20000
7 delete 45 60 deletes among 20000
8 search 0 10 searches among 20000";

/// So many statements of a session.
#[derive(Clone, Copy)]
pub(crate) struct Series<'a> {
    /// The session's number.
    pub(crate) session: u32,
    /// The verb.
    verb: &'a str,
    /// The number of the first one.
    first: u32,
    /// The number after that of the last one.
    end: u32,
    /// What they are called.
    pub(crate) name: &'a str,
}

/// The number that a word says.
fn number_in(word: Option<&str>) -> u32 {
    match word {
        Some(word) => word.parse().unwrap_or(0),
        None => 0,
    }
}

impl<'a> Series<'a> {
    /// The series that a line says.
    fn read(line: &'a str) -> Series<'a> {
        let mut words = line.splitn(5, ' ');
        let session = number_in(words.next());
        let verb = words.next().unwrap_or("");
        let first = number_in(words.next());
        let end = number_in(words.next());
        let name = words.next().unwrap_or("");
        Series {
            session,
            verb,
            first,
            end,
            name,
        }
    }

    /// How many statements these are.
    pub(crate) fn count(&self) -> u32 {
        self.end.saturating_sub(self.first)
    }
}

/// The series of the script.
pub(crate) fn all_series(alloc: Global, timed: bool) -> Result<Vec<Series<'static>>, AllocError> {
    let mut all = Vec::new(alloc);
    let text = if timed { MANY } else { FEW };
    for line in text.lines() {
        all.push(Series::read(line))?;
    }
    Ok(all)
}

/// Pushes a piece and a number.
fn push_number(script: &mut String, piece: &str, number: u32) -> Result<(), AllocError> {
    write!(script, "{piece}{number}")
}

/// Pushes eight words, as numbers drawn one after another say.
fn push_words(script: &mut String, drawn: &mut u32) -> Result<(), AllocError> {
    script.push_str(" simple '")?;
    for _ in 0..8 {
        *drawn = drawn.wrapping_mul(1_664_525).wrapping_add(1_013_904_223);
        push_number(script, " w", *drawn >> 22)?;
    }
    script.push_str("'\n")
}

/// Pushes the name of the document with this number.
fn push_name(script: &mut String, number: u32) -> Result<(), AllocError> {
    push_number(script, " 2/", number)?;
    push_number(script, "#", number.saturating_add(1))
}

/// Pushes the words of a statement after its verb.
fn push_rest(
    script: &mut String,
    verb: &str,
    number: u32,
    drawn: &mut u32,
) -> Result<(), AllocError> {
    match verb {
        "search" => script.push_str(" 'w241'\n"),
        "insert" => push_words(script, drawn),
        "update" => {
            push_name(script, number)?;
            push_words(script, drawn)
        }
        _ => {
            push_name(script, number)?;
            script.push('\n')
        }
    }
}

/// Pushes the statements of a series.
fn push_series(script: &mut String, one: &Series<'_>, drawn: &mut u32) -> Result<(), AllocError> {
    for number in one.first..one.end {
        push_number(script, "@", one.session)?;
        script.push(' ')?;
        script.push_str(one.verb)?;
        push_rest(script, one.verb, number, drawn)?;
    }
    Ok(())
}

/// The script of these series.
pub(crate) fn script_of(alloc: Global, series: &[Series<'_>]) -> Result<Vec<u8>, AllocError> {
    let mut script = String::new(alloc);
    let mut drawn = 0;
    for one in series {
        push_series(&mut script, one, &mut drawn)?;
    }
    Ok(script.into_bytes())
}
