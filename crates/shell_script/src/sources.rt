// What vectors and queries are made of: expressions, and queries by a configuration.
ghost use Rattle.std.specs.Prelude.{◌≡◌, ℕ, List, [], ◌∷◌, ◌++◌, IfOk, IfSome, IfNone};
ghost use Rattle.std.specs.Prelude.{IsTrue, codes, map, string_bytes, MatchOption, ◌≢◌};
ghost use Rattle.shell_script.specs.Grammar.{strip_tokens, weight_letter, weight_tokens, source_tokens, part_tokens};
ghost use Rattle.shell_script.specs.Grammar.{joined_tokens, expr_tokens, maker_word, query_tokens};
ghost use Rattle.shell_script.specs.Grammar.{IsSource, IsExpr, IsQuery};
ghost use Rattle.shell_script.specs.Grammar.{VectorSource as Vectors, QuerySource as Queries};
ghost use Rattle.shell_script.specs.Grammar.{Part as Parted, Expr as Joined};
ghost use Rattle.shell_script.specs.Tokens.{IsSpelled, word, quote};
ghost use Rattle.shell_script.specs.Tokens.{ScriptToken as Spelled};
ghost use Rattle.shell_script.specs.Inner.Fronts.{Fronts};
ghost use Rattle.shell_script.specs.StatementView.{vector_source, query_source, part, expr};
ghost use Rattle.ts_base.specs.declared.Weight.{Weight as Weights};
ghost use Rattle.shell_script.specs.declared.sources.Maker.{Maker as Makers};

use crate::opening_lines::front_name;
use crate::tokens::{behind_word, front_quote, front_word, is_all_blank};
use std::alloc::{AllocError, Global};
use ts_base::Weight;

/// What a vector is made of. A name in it lies in the line.
#[derive(Debug, Drop)]
pub enum VectorSource<'a> {
    /// The text of a vector.
    Text(String),
    /// A text, by a configuration.
    Made {
        /// The configuration's name.
        config: &'a str,
        /// The weight that all positions get, if they get one.
        weight: Option<Weight>,
        /// The text.
        text: String,
    },
}

/// A part of an expression: a vector, which may be stripped.
#[derive(Debug, Drop)]
pub struct Part<'a> {
    /// Whether it is taken without its positions.
    pub stripped: bool,
    /// What it is made of.
    pub source: VectorSource<'a>,
}

/// An expression: its parts are joined from the left.
#[derive(Debug, Drop)]
pub struct Expr<'a> {
    /// The first part.
    pub first: Part<'a>,
    /// Those after it, in their order.
    pub others: Vec<Part<'a>>,
}

/// How a query is made of a text.
#[derive(Clone, Copy, Debug)]
pub enum Maker {
    /// The text is a query, whose operands are made.
    To,
    /// All words of the text.
    Plain,
    /// The words of the text, one after another.
    Phrase,
    /// The text is a web query.
    Web,
}

/// What a query is made of. A name in it lies in the line.
#[derive(Debug, Drop)]
pub enum QuerySource<'a> {
    /// The text of a query.
    Text(String),
    /// A text, by a configuration.
    Made {
        /// How.
        maker: Maker,
        /// The configuration's name.
        config: &'a str,
        /// The text.
        text: String,
    },
}

/// The weight that a letter stands for.
fn weight_of(letter: &str) -> Option<Weight>
    ensures { MatchOption result ((w : Weights) → weight_letter w ∷ [] ≢ letter.now)
        (λ w. weight_letter w ∷ [] ≡ letter.now) }
{
    match letter {
        "A" => Some(Weight::A),
        "B" => Some(Weight::B),
        "C" => Some(Weight::C),
        "D" => Some(Weight::D),
        _ => None,
    }
}

/// The weight at the front, if one is there, and what is after it.
fn front_weight(text: &str) -> (Option<Weight>, &str)
    ensures front { Fronts text.now (weight_tokens result.0) result.1.now }
    ensures first { (w : _) (t : List ℕ) (ts : List Spelled)
        → IsSpelled text.now (weight_tokens w ++ (quote t ∷ ts)) → w ≡ result.0 }
{
    let Some((letter, rest)) = front_word(text) else {
        return (None, text);
    };
    match weight_of(letter) {
        Some(weight) => (Some(weight), rest),
        None => (None, text),
    }
}

/// What a vector is made of at the front, and what is after that.
fn front_source<'a>(
    alloc: Global,
    text: &'a str,
) -> Result<Option<(VectorSource<'a>, &'a str)>, AllocError>
    ensures some { IfOk result (λ found. IfSome found (λ r. IsSource (vector_source r.0)
        × Fronts text.now (source_tokens (vector_source r.0)) r.1.now)) }
    ensures none { IfOk result (λ found. IfNone found ((s : Vectors) (ts : List Spelled)
        → IsSource s → IsSpelled text.now (source_tokens s ++ ts) → ⊥)) }
{
    if let Some(rest) = behind_word(text, "vector") {
        let Some((text, rest)) = front_quote(alloc, rest)? else {
            return Ok(None);
        };
        return Ok(Some((VectorSource::Text(text), rest)));
    }
    let Some((config, rest)) = front_name(text) else {
        return Ok(None);
    };
    let (weight, rest) = front_weight(rest);
    match front_quote(alloc, rest)? {
        Some((text, rest)) => Ok(Some((
            VectorSource::Made {
                config,
                weight,
                text,
            },
            rest,
        ))),
        None => Ok(None),
    }
}

/// The mark of a stripped part, if it is at the front, and what is after it.
fn front_strip(text: &str) -> (bool, &str)
    ensures front { Fronts text.now (strip_tokens result.0) result.1.now }
    ensures first { (b : _) (s : Vectors) (ts : List Spelled) → IsSource s
        → IsSpelled text.now (strip_tokens b ++ (source_tokens s ++ ts)) → b ≡ result.0 }
{
    match behind_word(text, "strip") {
        Some(rest) => (true, rest),
        None => (false, text),
    }
}

/// The part at the front, and what is after it.
fn front_part<'a>(alloc: Global, text: &'a str) -> Result<Option<(Part<'a>, &'a str)>, AllocError>
    ensures some { IfOk result (λ found. IfSome found (λ r. IsSource (vector_source r.0.source)
        × Fronts text.now (part_tokens (part r.0)) r.1.now)) }
    ensures none { IfOk result (λ found. IfNone found ((p : Parted) (ts : List Spelled)
        → IsSource p.source → IsSpelled text.now (part_tokens p ++ ts) → ⊥)) }
{
    let (stripped, rest) = front_strip(text);
    match front_source(alloc, rest)? {
        Some((source, rest)) => Ok(Some((Part { stripped, source }, rest))),
        None => Ok(None),
    }
}

/// The part after `||` at the front, and what is after it.
fn front_joined<'a>(alloc: Global, text: &'a str) -> Result<Option<(Part<'a>, &'a str)>, AllocError>
    ensures some { IfOk result (λ found. IfSome found (λ r. IsSource (vector_source r.0.source)
        × Fronts text.now (joined_tokens (part r.0)) r.1.now)) }
    ensures none { IfOk result (λ found. IfNone found ((p : Parted) (ts : List Spelled)
        → IsSource p.source → IsSpelled text.now (joined_tokens p ++ ts) → ⊥)) }
{
    match behind_word(text, "||") {
        Some(rest) => front_part(alloc, rest),
        None => Ok(None),
    }
}

/// The expression that the text is.
pub fn expr_of(alloc: Global, text: &str) -> Result<Option<Expr<'_>>, AllocError>
    ensures some { IfOk result (λ found. IfSome found (λ e. IsExpr (expr e)
        × IsSpelled text.now (expr_tokens (expr e)))) }
    ensures none { IfOk result (λ found. IfNone found ((e : Joined) → IsExpr e
        → IsSpelled text.now (expr_tokens e) → ⊥)) }
{
    let Some((first, mut rest)) = front_part(alloc, text)? else {
        return Ok(None);
    };
    let mut others = Vec::new(alloc);
    while !is_all_blank(rest) {
        let Some((part, more)) = front_joined(alloc, rest)? else {
            return Ok(None);
        };
        others.push(part)?;
        rest = more;
    }
    Ok(Some(Expr { first, others }))
}

/// The quoted text that the text is.
pub fn quote_of(alloc: Global, text: &str) -> Result<Option<String>, AllocError>
    ensures some { IfOk result (λ found. IfSome found
        (λ t. IsSpelled text.now (quote (string_bytes t) ∷ []))) }
    ensures none { IfOk result (λ found. IfNone found ((t : List ℕ)
        → IsSpelled text.now (quote t ∷ []) → ⊥)) }
{
    match front_quote(alloc, text)? {
        Some((found, rest)) if is_all_blank(rest) => Ok(Some(found)),
        _ => Ok(None),
    }
}

/// How a query is made after this word.
fn maker_of(found: &str) -> Option<Maker>
    ensures { MatchOption result ((m : Makers) → maker_word m ≢ found.now)
        (λ m. maker_word m ≡ found.now) }
{
    match found {
        "to" => Some(Maker::To),
        "plain" => Some(Maker::Plain),
        "phrase" => Some(Maker::Phrase),
        "web" => Some(Maker::Web),
        _ => None,
    }
}

/// The query that the text is.
pub fn query_of(alloc: Global, text: &str) -> Result<Option<QuerySource<'_>>, AllocError>
    ensures some { IfOk result (λ found. IfSome found (λ q. IsQuery (query_source q)
        × IsSpelled text.now (query_tokens (query_source q)))) }
    ensures none { IfOk result (λ found. IfNone found ((q : Queries) → IsQuery q
        → IsSpelled text.now (query_tokens q) → ⊥)) }
{
    let Some((found, rest)) = front_word(text) else {
        let Some(text) = quote_of(alloc, text)? else {
            return Ok(None);
        };
        return Ok(Some(QuerySource::Text(text)));
    };
    let Some(maker) = maker_of(found) else {
        return Ok(None);
    };
    let Some((config, rest)) = front_name(rest) else {
        return Ok(None);
    };
    match quote_of(alloc, rest)? {
        Some(text) => Ok(Some(QuerySource::Made {
            maker,
            config,
            text,
        })),
        None => Ok(None),
    }
}
