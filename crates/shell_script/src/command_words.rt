// The words of a call.
ghost use Rattle.std.specs.Prelude.{◌≡◌, ◌↔◌, ◌<◌, ℕ, List, ◌∷◌, ◌++◌, length, IfSome, IfNone, IsTrue, codes};
ghost use Rattle.std.specs.String.{string_bytes};
ghost use Rattle.shell_script.specs.CommandWords.{IsForm, IsCount, SetsCount, SetsOption, SetsPages, SetsPending};
ghost use Rattle.shell_script.specs.CommandWords.{SetsOptions};

/// The fewest pages of a store.
pub const FEWEST_PAGES: u32 = 16;

/// The most pages of a store.
pub const MOST_PAGES: u32 = 1_048_576;

/// The pages of a store where the words do not say.
pub const USUAL_PAGES: u32 = 65_536;

/// The fewest pages that the pending list may have before it is cleaned up by itself.
pub const FEWEST_PENDING: u32 = 1;

/// The most pages that it may have.
pub const MOST_PENDING: u32 = 1_048_576;

/// The pages that it may have where the words do not say.
pub const USUAL_PENDING: u32 = 512;

/// What the words of a call set.
#[derive(Clone, Copy)]
pub struct Options {
    /// How many pages the store may have.
    pub pages: u32,
    /// How many pages the pending list may have before it is cleaned up by itself.
    pub pending: u32,
}

/// The number within these bounds that decimal digits say.
fn count_in(digits: &str, fewest: u32, most: u32) -> Option<u32>
    ensures some { IfSome result (λ n. IsCount fewest most digits.now n) }
    ensures none { IfNone result ((n : ℕ) → IsCount fewest most digits.now n → ⊥) }
{
    match digits.as_bytes().first() {
        Some(byte) if byte.is_ascii_digit() => {}
        _ => return None,
    }
    match digits.parse::<u32>() {
        Ok(n) if n >= fewest && n <= most => Some(n),
        _ => None,
    }
}

/// What comes after a name and `=`.
fn set_by<'a>(word: &'a str, name: &str) -> Option<&'a str>
    ensures some { IfSome result (λ rest. word.now ≡ name.now ++ (61 ∷ rest.now)) }
    ensures none { IfNone result ((rest : List ℕ) → word.now ≡ name.now ++ (61 ∷ rest) → ⊥) }
{
    match word.strip_prefix(name) {
        Some(rest) => rest.strip_prefix("="),
        None => None,
    }
}

/// The number within these bounds that one word sets, of the option of a name.
fn count_of(word: &str, name: &str, fewest: u32, most: u32) -> Option<u32>
    ensures some { IfSome result (λ n. SetsCount name.now fewest most word.now n) }
    ensures none { IfNone result ((n : ℕ) → SetsCount name.now fewest most word.now n → ⊥) }
{
    match set_by(word, name) {
        Some(digits) => count_in(digits, fewest, most),
        None => None,
    }
}

/// The number that these words set, of the option of a name; the usual one where there is none.
fn option_in(words: &[String], name: &str, fewest: u32, most: u32, usual: u32) -> Option<u32>
    ensures some { IfSome result (λ n. SetsOption name.now fewest most usual words.now n) }
    ensures none { IfNone result
        ((n : ℕ) → SetsOption name.now fewest most usual words.now n → ⊥) }
{
    match words {
        [] => Some(usual),
        [one] => count_of(one.as_str(), name, fewest, most),
        [one, two] if one.as_str() == name => count_in(two.as_str(), fewest, most),
        _ => None,
    }
}

/// The options, where one part of the words sets the pages and the other the pending list's.
fn options_by(pages: &[String], pending: &[String]) -> Option<Options>
    ensures some { IfSome result
        (λ o. SetsPages pages.now o.pages × SetsPending pending.now o.pending) }
    ensures none { IfNone result ((o : Options)
        → SetsPages pages.now o.pages → SetsPending pending.now o.pending → ⊥) }
{
    let pages = option_in(pages, "--pages", FEWEST_PAGES, MOST_PAGES, USUAL_PAGES);
    let pending = option_in(
        pending,
        "--pending",
        FEWEST_PENDING,
        MOST_PENDING,
        USUAL_PENDING,
    );
    match (pages, pending) {
        (Some(pages), Some(pending)) => Some(Options { pages, pending }),
        _ => None,
    }
}

/// The options that these words set, in either order.
fn options_among(words: &[String]) -> Option<Options>
    ensures some { IfSome result (λ o. SetsOptions words.now o) }
    ensures none { IfNone result ((o : Options) → SetsOptions words.now o → ⊥) }
{
    for at in 0..words.len() + 1 {
        let (front, back) = words.split_at(at);
        if let Some(options) = options_by(front, back) {
            return Some(options);
        }
        if let Some(options) = options_by(back, front) {
            return Some(options);
        }
    }
    None
}

/// Whether the word is that of a run.
fn is_run(word: &str) -> bool
    ensures { IsTrue result ↔ (word.now ≡ codes "run") }
{
    word == "run"
}

/// The options of a call, if its words have a form.
pub fn options_of(words: &[String]) -> Option<Options>
    ensures some { IfSome result (λ options. IsForm words.now options) }
    ensures none { IfNone result ((options : Options) → IsForm words.now options → ⊥) }
{
    match words {
        [first, rest @ ..] if is_run(first.as_str()) => options_among(rest),
        _ => None,
    }
}
