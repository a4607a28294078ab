// Dictionaries of a hundred thousand lines, and stems.
use crate::configs::simple;
use anyhow::Result;
use bench_base::{Bench, Figure, numbered};
use porter_stem::stem;
use std::alloc::{AllocError, Global};
use ts_base::{Answer, Dictionary, LONGEST_LEXEME};
use ts_synonym::Synonym;
use ts_thesaurus::Thesaurus;
use ts_words::{Simple, StopList};

/// How many lines each dictionary has.
const LINES: u32 = 100_000;

/// Words whose stems are taken.
const WORDS: &str = concat!(
    "full text searching provides the capability to identify natural language documents that satisfy a query and ",
    "optionally to sort them by relevance the most common type of search is to find all documents containing given ",
    "terms and return them in order of their similarity notions of similarity are very flexible and depend on the ",
    "specific application relational generalizations oscillators hopefulness electricity conditionally controlling ",
);

/// How often the stems of all these 63 words are taken.
const ROUNDS: u32 = 20_000;

/// How many letters the stems of words have.
fn count_letters(alloc: Global, words: &str) -> Result<u64, AllocError> {
    let mut buffer = Vec::new(alloc);
    let mut letters = 0u64;
    for word in words.split(' ') {
        buffer.clear();
        buffer.extend_from_slice(word.as_bytes())?;
        stem(&mut buffer);
        letters = letters.saturating_add(buffer.len() as u64);
    }
    Ok(letters)
}

/// Takes the stems of words.
fn take_stems(bench: &Bench<'_>, words: &str) -> Result<()> {
    let start = bench.start()?;
    let letters = count_letters(bench.alloc(), words)?;
    let seconds = bench.since(start)?;
    let figure = Figure::Each(63 * ROUNDS);
    bench.tell(letters, "letters in 1260000 stems", seconds, figure)
}

/// How many of the words are stop words.
fn count_stops(stops: &StopList, words: &str) -> u64 {
    let mut found = 0u64;
    for word in words.lines() {
        if stops.contains(word) {
            found = found.saturating_add(1);
        }
    }
    found
}

/// Reads a stop list, and asks for each word.
fn read_stops(bench: &Bench<'_>, lines: &str, words: &str) -> Result<()> {
    let start = bench.start()?;
    let stops = StopList::read(bench.alloc(), lines)?;
    let seconds = bench.since(start)?;
    let found = count_stops(&stops, words);
    bench.tell(found, "of 100000 stop words found", seconds, Figure::Whole)
}

/// What a dictionary answers to a word; unknown where that is no word.
fn ask<D: Dictionary>(alloc: Global, dictionary: &D, word: &str) -> Result<Answer, AllocError> {
    if word.is_empty() || word.len() > LONGEST_LEXEME {
        return Ok(Answer::Unknown);
    }
    dictionary.lexize(alloc, word)
}

/// How many of the words have a synonym.
fn count_synonyms(alloc: Global, synonym: &Synonym, words: &str) -> Result<u64, AllocError> {
    let mut found = 0u64;
    for word in words.lines() {
        if let Answer::Lexemes(_) = ask(alloc, synonym, word)? {
            found = found.saturating_add(1);
        }
    }
    Ok(found)
}

/// Reads synonyms, and asks for each word.
fn read_synonyms(bench: &Bench<'_>, lines: &str, words: &str) -> Result<()> {
    let start = bench.start()?;
    let synonym = Synonym::read(bench.alloc(), lines, false)?;
    let seconds = bench.since(start)?;
    let found = count_synonyms(bench.alloc(), &synonym, words)?;
    bench.tell(found, "of 100000 synonyms found", seconds, Figure::Whole)
}

/// What the subdictionary answers to the two words of a phrase.
fn answers_of(alloc: Global, sub: &Simple, phrase: &str) -> Result<Vec<Answer>, AllocError> {
    let (first, second) = phrase.split_once(' ').unwrap_or((phrase, ""));
    let mut answers = vec![in alloc; ask(alloc, sub, first)?]?;
    answers.push(ask(alloc, sub, second)?)?;
    Ok(answers)
}

/// For how many phrases some rule goes on with them, and some rule fits.
fn count_phrases(
    alloc: Global,
    thesaurus: &Thesaurus,
    sub: &Simple,
    phrases: &str,
) -> Result<u64, AllocError> {
    let mut found = 0u64;
    for phrase in phrases.lines() {
        let answers = answers_of(alloc, sub, phrase)?;
        if thesaurus.continues(&answers) && thesaurus.best(&answers).is_some() {
            found = found.saturating_add(1);
        }
    }
    Ok(found)
}

/// Reads a thesaurus, and asks for each phrase.
fn read_thesaurus(bench: &Bench<'_>, sub: &Simple, lines: &str, phrases: &str) -> Result<()> {
    let start = bench.start()?;
    let thesaurus = Thesaurus::read(bench.alloc(), lines, sub)?;
    let seconds = bench.since(start)?;
    let found = count_phrases(bench.alloc(), &thesaurus, sub, phrases)?;
    bench.tell(found, "of 100000 phrases found", seconds, Figure::Whole)
}

/// Asks a dictionary of this name, which has a line for each number, for a word or a phrase for
/// each.
fn run_dictionary(bench: &Bench<'_>, name: &str, lines: &str, words: &str) -> Result<()> {
    match name {
        "stop-list" => read_stops(bench, lines, words),
        "synonyms" => read_synonyms(bench, lines, words),
        _ => read_thesaurus(bench, &simple(bench.alloc()), lines, words),
    }
}

/// The same, of a piece for each line and one for each word.
fn run_pieces(bench: &Bench<'_>, name: &str, line: &str, word: &str) -> Result<()> {
    let lines = numbered(bench.alloc(), line, LINES)?;
    let words = numbered(bench.alloc(), word, LINES)?;
    run_dictionary(bench, name, &lines, &words)
}

/// Takes stems, and reads each dictionary.
pub(crate) fn run_dictionaries(bench: &Bench<'_>) -> Result<()> {
    let words = numbered(bench.alloc(), WORDS, ROUNDS)?;
    take_stems(bench, &words)?;
    run_pieces(bench, "stop-list", "Word# and a remark\n", "word#\n")?;
    run_pieces(bench, "synonyms", "Word# Other#* and a remark\n", "word#\n")?;
    run_pieces(
        bench,
        "thesaurus",
        "word# other# : phrase#\n",
        "word# other#\n",
    )
}
