// What a line says.
ghost use Rattle.std.specs.Prelude.{◌≡◌, ◌↔◌, ℕ, List, [], ◌∷◌, ◌++◌, IfOk, IfSome};
ghost use Rattle.std.specs.Prelude.{IfNone, IsTrue, codes, map, string_bytes};
ghost use Rattle.shell_script.specs.Grammar.{IsSession, IsStatement, label};
ghost use Rattle.shell_script.specs.Grammar.{Statement as Said, Expr as Joined, IsExpr, expr_tokens};
ghost use Rattle.shell_script.specs.Docs.{Doc as Named, IsDoc};
ghost use Rattle.shell_script.specs.Tokens.{IsSpelled, word, quote};
ghost use Rattle.shell_script.specs.Inner.Fronts.{Fronts};
ghost use Rattle.shell_script.specs.Tokens.{ScriptToken as Spelled};
ghost use Rattle.shell_script.specs.Inner.Said.{IsOfSession, IsPlain, IsStatementBody, IsSaidBehind};
ghost use Rattle.shell_script.specs.declared.statement.Statement.TheVariants.{Invalid};
ghost use Rattle.shell_script.specs.StatementView.{statement, part, expr};

use crate::docs::{Doc, front_doc};
use crate::sources::{Expr, QuerySource, expr_of, query_of, quote_of};
use crate::tokens::{front_word, is_all_blank};
use std::alloc::{AllocError, Global};
use std::str;
use ts_base::first_word;

/// A statement of one line.
#[derive(Debug, Drop)]
pub enum Statement<'a> {
    /// A document is to be stored.
    Insert(Expr<'a>),
    /// A document is to be deleted, and another stored.
    Update(Doc<'a>, Expr<'a>),
    /// A document is to be deleted.
    Delete(Doc<'a>),
    /// The documents are asked for that satisfy a query.
    Search(QuerySource<'a>),
    /// The pending list is to be moved into the index.
    Cleanup,
    /// Dead documents are to leave the index and the heap.
    Vacuum,
    /// The text of an expression's vector is asked for.
    Show(Expr<'a>),
    /// The printed form of a query is asked for.
    Ask(QuerySource<'a>),
    /// The tokens of a text are asked for.
    Parse(String),
    /// The names of the commits are asked for.
    Commits,
    /// The line is no statement.
    Invalid,
}

/// What a line says.
#[derive(Debug, Drop)]
pub struct ScriptLine<'a> {
    /// The session, from 1 to 8, or 0 where it names none.
    pub session: u8,
    /// What is said.
    pub statement: Statement<'a>,
}

impl ScriptLine<'_> {
    /// A line that is no statement.
    fn invalid() -> Self
        ensures session { result.session ≡ 0 }
        ensures statement { result.statement ≡ Invalid }
    {
        ScriptLine {
            session: 0,
            statement: Statement::Invalid,
        }
    }
}

/// A statement, where what is read is one.
type Read<'a> = Result<Option<Statement<'a>>, AllocError>;

/// The session that a label names.
fn session_number(text: &[u8]) -> Option<u8>
    ensures some { IfSome result (λ s. IsSession s × (text.now ≡ label s)) }
    ensures none { IfNone result ((s : ℕ) → IsSession s → text.now ≡ label s → ⊥) }
{
    match text {
        [b'@', digit] if *digit >= b'1' && *digit <= b'8' => Some(*digit - 48),
        _ => None,
    }
}

/// Whether a word is this one.
fn is_word(found: &[u8], word: &str) -> bool
    ensures { IsTrue result ↔ (found.now ≡ word.now) }
{
    found == word.as_bytes()
}

/// The update that is said after its word.
fn update_of<'a>(alloc: Global, rest: &'a str) -> Read<'a>
    ensures some { IfOk result (λ found. IfSome found
        (λ s. IsStatementBody IsOfSession (codes "update") rest.now (statement s))) }
    ensures none { IfOk result (λ found. IfNone found ((d : Named) (e : Joined) → IsDoc d
        → IsExpr e → IsSpelled rest.now (word d.text ∷ expr_tokens e) → ⊥)) }
{
    let Some((doc, rest)) = front_doc(rest) else {
        return Ok(None);
    };
    let Some(expr) = expr_of(alloc, rest)? else {
        return Ok(None);
    };
    Ok(Some(Statement::Update(doc, expr)))
}

/// The deletion that is said after its word.
fn delete_of(rest: &str) -> Option<Statement<'_>>
    ensures some { IfSome result
        (λ s. IsStatementBody IsOfSession (codes "delete") rest.now (statement s)) }
    ensures none { IfNone result ((d : Named) → IsDoc d
        → IsSpelled rest.now (word d.text ∷ []) → ⊥) }
{
    let Some((doc, rest)) = front_doc(rest) else {
        return None;
    };
    if is_all_blank(rest) {
        Some(Statement::Delete(doc))
    } else {
        None
    }
}

/// The statement after a session's label, by its first word and what is after it.
fn session_statement<'a>(alloc: Global, first: &[u8], rest: &'a str) -> Read<'a>
    ensures some { IfOk result (λ found. IfSome found
        (λ s. IsStatementBody IsOfSession first.now rest.now (statement s))) }
    ensures none { IfOk result (λ found. IfNone found ((s : Said)
        → IsStatementBody IsOfSession first.now rest.now s → ⊥)) }
{
    if is_word(first, "update") {
        return update_of(alloc, rest);
    }
    if is_word(first, "insert") {
        let Some(expr) = expr_of(alloc, rest)? else {
            return Ok(None);
        };
        return Ok(Some(Statement::Insert(expr)));
    }
    if is_word(first, "delete") {
        return Ok(delete_of(rest));
    }
    if is_word(first, "search") {
        let Some(query) = query_of(alloc, rest)? else {
            return Ok(None);
        };
        return Ok(Some(Statement::Search(query)));
    }
    if is_word(first, "cleanup") && is_all_blank(rest) {
        return Ok(Some(Statement::Cleanup));
    }
    if is_word(first, "vacuum") && is_all_blank(rest) {
        return Ok(Some(Statement::Vacuum));
    }
    Ok(None)
}

/// A statement without a session, by its first word and what is after it.
fn plain_statement<'a>(alloc: Global, first: &[u8], rest: &'a str) -> Read<'a>
    ensures some { IfOk result (λ found. IfSome found
        (λ s. IsStatementBody IsPlain first.now rest.now (statement s))) }
    ensures none { IfOk result (λ found. IfNone found ((s : Said)
        → IsStatementBody IsPlain first.now rest.now s → ⊥)) }
{
    if is_word(first, "show") {
        let Some(expr) = expr_of(alloc, rest)? else {
            return Ok(None);
        };
        return Ok(Some(Statement::Show(expr)));
    }
    if is_word(first, "ask") {
        let Some(query) = query_of(alloc, rest)? else {
            return Ok(None);
        };
        return Ok(Some(Statement::Ask(query)));
    }
    if is_word(first, "parse") {
        let Some(text) = quote_of(alloc, rest)? else {
            return Ok(None);
        };
        return Ok(Some(Statement::Parse(text)));
    }
    if is_word(first, "commits") && is_all_blank(rest) {
        return Ok(Some(Statement::Commits));
    }
    Ok(None)
}

/// The session and the statement of a line, by its first word and what is after it.
/// None where it is no statement.
fn statement_of<'a>(
    alloc: Global,
    first: &[u8],
    rest: &'a [u8],
) -> Result<Option<(u8, Statement<'a>)>, AllocError>
    ensures some { IfOk result (λ found. IfSome found
        (λ r. IsSaidBehind first.now rest.now r.0 (statement r.1))) }
    ensures none { IfOk result (λ found. IfNone found ((s : ℕ) (a : Said)
        → IsSaidBehind first.now rest.now s a → ⊥)) }
{
    let Ok(rest) = str::from_utf8(rest) else {
        return Ok(None);
    };
    let Some(session) = session_number(first) else {
        return match plain_statement(alloc, first, rest)? {
            Some(statement) => Ok(Some((0, statement))),
            None => Ok(None),
        };
    };
    let Some((word, rest)) = front_word(rest) else {
        return Ok(None);
    };
    match session_statement(alloc, word.as_bytes(), rest)? {
        Some(statement) => Ok(Some((session, statement))),
        None => Ok(None),
    }
}

/// What a line by itself says. Its first word is read once.
pub fn read_line(alloc: Global, line: &[u8]) -> Result<ScriptLine<'_>, AllocError>
    ensures { IfOk result
        (λ read. IsStatement line.now read.session (statement read.statement)) }
{
    let Some((first, rest)) = first_word(line) else {
        return Ok(ScriptLine::invalid());
    };
    match statement_of(alloc, first, rest)? {
        Some((session, statement)) => Ok(ScriptLine { session, statement }),
        None => Ok(ScriptLine::invalid()),
    }
}
