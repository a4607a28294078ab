// What thesauri replace, and which lines are refused.
use crate::kinds::{Kind, try_rows};
use crate::rows::{cut, push_number, push_word};
use std::alloc::{AllocError, Global};
use std::test::Fail;
use ts_base::{Answer, Dictionary, Found, LONGEST_LEXEME, Lexeme, LinesError};
use ts_thesaurus::Thesaurus;

/// Has the stop word `the`, doesn't know `no`, and gives each other word as it is, with a mark.
struct Sub;

impl Dictionary for Sub {
    ghost use Rattle.std.specs.Prelude.{[], ◌∷◌, bytes_eq, if◌then◌else◌, true};
    ghost use Rattle.ts_base.specs.Dictionary.{unknown_word, stop_word, word_lexemes};

    ghost answer = { λ d word. (if bytes_eq word (116 ∷ 104 ∷ 101 ∷ []) then stop_word else
        (if bytes_eq word (110 ∷ 111 ∷ []) then unknown_word else
        word_lexemes (record { lexeme = word; prefix = true } ∷ []))) };

    /// What it knows of a word.
    fn lexize(&self, alloc: Global, word: &str) -> Result<Answer, AllocError> {
        if word == "the" {
            return Ok(Answer::Stop);
        }
        if word == "no" {
            return Ok(Answer::Unknown);
        }
        let lexeme = Lexeme::from_string(String::from_str(alloc, word)?);
        let mut found = Vec::new(alloc);
        found.push(Found {
            lexeme,
            prefix: true,
        })?;
        Ok(Answer::Lexemes(found))
    }
}

/// Answers, one for each word: `?` is a stop word, `!` is unknown, and others have no mark.
fn answers_of(alloc: Global, text: &str) -> Result<Vec<Answer>, Fail> {
    let mut answers = Vec::new(alloc);
    for word in text.split_whitespace() {
        answers.push(match word {
            "?" => Answer::Stop,
            "!" => Answer::Unknown,
            _ => lexeme_answer(alloc, word)?,
        })?;
    }
    Ok(answers)
}

/// An answer of one lexeme without a mark.
fn lexeme_answer(alloc: Global, word: &str) -> Result<Answer, Fail> {
    let lexeme = Lexeme::new(alloc, word)?;
    let mut found = Vec::new(alloc);
    found.push(Found {
        lexeme,
        prefix: false,
    })?;
    Ok(Answer::Lexemes(found))
}

/// Puts words after others, each with a star after it where it has a mark.
fn push_found(text: &mut String, words: &[Found]) -> Result<(), AllocError> {
    for word in words {
        push_word(text, word.lexeme.as_str())?;
        text.push_str(if word.prefix { "*" } else { "" })?;
    }
    Ok(())
}

/// Puts what a dictionary knows of a word.
pub fn push_told<D: Dictionary>(
    alloc: Global,
    out: &mut String,
    dictionary: &D,
    word: &str,
) -> Result<(), AllocError> {
    if word.is_empty() || word.len() > LONGEST_LEXEME {
        return push_word(out, "no word");
    }
    match dictionary.lexize(alloc, word)? {
        Answer::Unknown => push_word(out, "unknown"),
        Answer::Stop => push_word(out, "stop"),
        Answer::Lexemes(found) => push_found(out, &found),
    }
}

/// The lines of the rows that name none.
const LINES: &str =
    "new york : *NYC\r\n # none\n\nnew york city:big apple\n? cat : *stopcat\nx y : p q\nx y : r\nred : p\n";

/// Lines, answers, how many of them are replaced and by which words, or why the lines are refused.
const BEST: &str = concat!(
    // The longest rule that fits counts, of equally long ones the last.
    "@new york city x=3 big* apple*;@new york new=2 NYC;@new 7=none;@? cat=2 stopcat;@the cat=none;@! cat=none;",
    "@x y z=2 r*;@red=1 p*;a b:c : d@a b=2 c* :* d*;a : ? **b@a=1 ?* *b;",
    "a b c : d\na b : e\na b c d : f@a b c e=3 d*;a b c : d\na b : e@a b d=2 e*;",
    "a : b\nc : d\na : e\nd : f@a c=1 e*;? ? : a\n? : b@? ? ?=2 a*;",
    // The first line that is refused counts, and of its causes a bad line, then a stop word, then an unknown one.
    "a b\n@=bad line 1;a : b\n : b\n@=bad line 2;a : \t\n@=bad line 1;a : *@=bad line 1;\n\na : b the@=bad line 3;",
    "the : no@=bad line 1;no the : x@=stop word among the sample words of line 1;",
    "# no\nno : x\nthe : x@=unknown sample word in line 2;? : *the *no@=none;",
    // A word of 2046 bytes is read, one of 2047 is bad.
    "«a^2046» : «a^2046»@«a^2046»=1 «a^2046»*;«a^2047» : b@=bad line 1;b : *«a^2046»@=bad line 1",
);

/// Lines and answers, and whether phrases go on: as long as some rule begins so.
const GOING_ON: &str = "@new=yes;@new york=yes;@york=no;@?=yes;@new york city x=no;@=yes;#@=no";

/// The thesaurus of a row's lines, and the row's answers.
fn read(alloc: Global, lines: &str) -> Result<Thesaurus, LinesError> {
    Thesaurus::read(alloc, if lines.is_empty() { LINES } else { lines }, &Sub)
}

/// Puts the best rule of a thesaurus.
fn push_best(
    out: &mut String,
    thesaurus: &Thesaurus,
    answers: &[Answer],
) -> Result<(), AllocError> {
    match thesaurus.best(answers) {
        Some(replaced) => {
            push_number(out, replaced.tokens)?;
            push_found(out, replaced.words)
        }
        None => out.push_str("none"),
    }
}

/// The best rule of a row's lines.
pub fn best(alloc: Global, out: &mut String, asked: &str) -> Result<(), Fail> {
    let (lines, text) = cut(asked);
    match read(alloc, lines) {
        Ok(thesaurus) => push_best(out, &thesaurus, &answers_of(alloc, text)?)?,
        Err(error) => write!(out, "{error}")?,
    }
    Ok(())
}

/// Whether a walk along answers goes on.
fn walks_on(
    alloc: Global,
    thesaurus: &Thesaurus,
    answers: Vec<Answer>,
) -> Result<bool, AllocError> {
    let mut walk = thesaurus.walk(alloc);
    for answer in answers {
        walk.push(answer)?;
    }
    Ok(walk.continues())
}

/// Whether phrases go on, by the answers and by a walk along them.
pub fn going_on(alloc: Global, out: &mut String, asked: &str) -> Result<(), Fail> {
    let (lines, text) = cut(asked);
    let thesaurus = read(alloc, lines)?;
    let answers = answers_of(alloc, text)?;
    let goes_on = thesaurus.continues(&answers);
    let same = walks_on(alloc, &thesaurus, answers)? == goes_on;
    out.push_str(if goes_on { "yes" } else { "no" })?;
    out.push_str(if same { "" } else { ", and the walk differs" })?;
    Ok(())
}

/// Dictionaries with words, and what each knows of its word.
const SINGLES: &str = "thesaurus@new=unknown;sub@the=stop;sub@no=unknown;sub@cat=cat*";

/// What a dictionary knows of a word through its trait.
pub fn single(alloc: Global, out: &mut String, asked: &str) -> Result<(), Fail> {
    let (dictionary, word) = cut(asked);
    if dictionary == "sub" {
        push_told(alloc, out, &Sub, word)?;
    } else {
        push_told(alloc, out, &Thesaurus::new(alloc), word)?;
    }
    Ok(())
}

/// Thesauri replace phrases; dictionaries answer through their trait.
#[test]
fn thesauri(rt: HostRuntime) -> Result<(), Fail> {
    let alloc = rt.alloc();
    try_rows(&rt, alloc, Kind::Best, BEST, 26)?;
    try_rows(&rt, alloc, Kind::GoingOn, GOING_ON, 7)?;
    try_rows(&rt, alloc, Kind::Told, SINGLES, 4)
}
