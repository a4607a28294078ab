// Texts that are written short.
use anyhow::Result;
use bench_base::push_times;
use std::alloc::Global;

/// What is said in each paragraph of a text.
const PARAGRAPH: &str = concat!(
    "Full text searching provides the capability to identify natural-language documents that satisfy a query, and ",
    "optionally to sort them by relevance to the query. The most common type of search is to find all documents ",
    "containing given query terms and return them in order of their similarity to the query. In 2023 some 4.5 ",
    "million people read such a well-known page; it wasn't the first one, nor - as far as we know - the last. ",
    "Notions of query and similarity are very flexible and depend on the specific application. The simplest search ",
    "considers the query as a set of words and similarity as the frequency of query words in the document.\n\n",
);

/// The piece of this name.
fn piece_of(name: &str) -> &str {
    match name {
        "paragraph" => PARAGRAPH,
        "operand" => "word# | ",
        "last" => "word",
        "open" => "(",
        "close" => ")",
        "letter" => "a ",
        "letters" => "aaaaaaaaaa",
        "blanks" => "          ",
        "quotes" => "\"\"\"\"\"\"\"\"\"\"",
        "hyphens" => "----------",
        "or" => " or ",
        "rule" => " : b",
        "other-rule" => "b : c",
        "indexed" => "a: ",
        _ => name,
    }
}

/// The first word, and what is after it.
pub(crate) fn cut(words: &str) -> (&str, &str) {
    words.split_once(' ').unwrap_or((words, ""))
}

/// The text of pieces, of each of which the name is given and how often it is there, with `+`
/// between two.
pub(crate) fn text_of(alloc: Global, words: &str) -> Result<String> {
    let mut text = String::new(alloc);
    for part in words.split('+') {
        let (name, times) = cut(part);
        push_times(&mut text, piece_of(name), times.parse::<u32>()?)?;
    }
    Ok(text)
}
