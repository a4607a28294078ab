// Replies as text.
ghost use Rattle.std.specs.Prelude.{◌≡◌, List, [], ◌∷◌, ◌++◌, IfOk, OnOk, codes, decimal};
ghost use Rattle.std.specs.List.{flat_map};
ghost use Rattle.shell_script.specs.ReplyView.{text_fault, refusal, reply, commit_line};
ghost use Rattle.shell_script.specs.Texts.{name_text, names_after, label_text, behind_space};
ghost use Rattle.shell_script.specs.Texts.{refusal_text, reply_text, token_line, commit_text, last_line};
ghost use Rattle.shell_script.specs.Texts.{fault_words as words_of_fault, fault_detail as detail_of_fault};
ghost use Rattle.shell_script.specs.Texts.{refusal_words as words_of, refusal_detail as detail_of};

use crate::replies::{CommitLine, Refusal, Reply, TextFault};
use itoa::Buffer;
use page_types::Name;
use std::alloc::{AllocError, Global};
use ts_parser::Token;

/// A number in decimal.
fn push_number(text: &mut Vec<u8>, n: u64) -> Result<(), AllocError>
    ensures { OnOk result (text.new.items ≡ text.old.items ++ decimal n) }
{
    let mut buffer = Buffer::new();
    text.extend_from_slice(buffer.format(n).as_bytes())
}

/// A name: its page, its slot and its serial.
fn push_name(text: &mut Vec<u8>, n: &Name) -> Result<(), AllocError>
    ensures { OnOk result (text.new.items ≡ text.old.items ++ name_text n.now) }
{
    push_number(text, u64::from(n.page))?;
    text.extend_from_slice(b"/")?;
    push_number(text, u64::from(n.slot))?;
    text.extend_from_slice(b"#")?;
    push_number(text, n.serial)
}

/// Each name after a text.
fn push_names(text: &mut Vec<u8>, before: &[u8], names: &[Name]) -> Result<(), AllocError>
    ensures { OnOk result (text.new.items ≡ text.old.items ++ names_after before.now names.now) }
{
    for n in names {
        text.extend_from_slice(before)?;
        push_name(text, n)?;
    }
    Ok(())
}

/// The label of a session, which another statement has not.
fn push_label(text: &mut Vec<u8>, session: u8) -> Result<(), AllocError>
    ensures { OnOk result (text.new.items ≡ text.old.items ++ label_text session) }
{
    if session == 0 {
        return Ok(());
    }
    text.extend_from_slice(b"@")?;
    push_number(text, u64::from(session))?;
    text.extend_from_slice(b" ")
}

/// What is shown, after a space if it isn't empty.
fn push_shown(text: &mut Vec<u8>, shown: &str) -> Result<(), AllocError>
    ensures { OnOk result (text.new.items ≡ text.old.items ++ behind_space shown.now) }
{
    if shown.is_empty() {
        return Ok(());
    }
    text.extend_from_slice(b" ")?;
    text.extend_from_slice(shown.as_bytes())
}

/// The number and the words of a text's refusal.
fn fault_words(fault: &TextFault) -> &str
    ensures { result.now ≡ words_of_fault (text_fault fault.now) }
{
    match fault {
        TextFault::BadVector(_) => "2 vector",
        TextFault::BadQuery(_) => "3 query",
        TextFault::LongLexeme(_) => "6 lexeme",
        TextFault::LargeVector(_) => "7 vector size",
        TextFault::LargeQuery => "8 query size",
    }
}

/// The number and the words of a refusal.
fn refusal_words(why: &Refusal) -> &str
    ensures { result.now ≡ words_of (refusal why.now) }
{
    match why {
        Refusal::NoStatement(_) => "1 statement",
        Refusal::NoConfiguration => "4 configuration",
        Refusal::NoDictionary => "5 dictionary",
        Refusal::Text(fault) => fault_words(fault),
        Refusal::NoDocument => "9 no document",
        Refusal::Conflict(_) => "10 conflict",
        Refusal::StoreFull => "11 store full",
        Refusal::LogFull => "12 log full",
        Refusal::TransactionsSpent => "13 transactions spent",
        Refusal::Down(_) => "14 down",
        Refusal::Device => "15 device",
        Refusal::BadPage(_) => "16 page",
        Refusal::Memory => "17 memory",
    }
}

/// The offset or size that a text's refusal says.
fn fault_detail(fault: &TextFault) -> Option<u64>
    ensures { result ≡ detail_of_fault (text_fault fault.now) }
{
    match fault {
        TextFault::BadVector(at)
        | TextFault::BadQuery(at)
        | TextFault::LongLexeme(at)
        | TextFault::LargeVector(at) => Some(*at as u64),
        TextFault::LargeQuery => None,
    }
}

/// The line, offset, size, transaction, count or page that a refusal says.
fn refusal_detail(why: &Refusal) -> Option<u64>
    ensures { result ≡ detail_of (refusal why.now) }
{
    match why {
        Refusal::NoStatement(line) => Some(*line),
        Refusal::Text(fault) => fault_detail(fault),
        Refusal::Conflict(xid) => Some(u64::from(*xid)),
        Refusal::Down(count) => Some(*count),
        Refusal::BadPage(page) => Some(u64::from(*page)),
        _ => None,
    }
}

/// The words of a refusal, and the number that it says after them.
fn push_refusal(text: &mut Vec<u8>, why: &Refusal) -> Result<(), AllocError>
    ensures { OnOk result (text.new.items ≡ text.old.items ++ refusal_text (refusal why.now)) }
{
    text.extend_from_slice(refusal_words(why).as_bytes())?;
    match refusal_detail(why) {
        Some(n) => {
            text.extend_from_slice(b" ")?;
            push_number(text, n)
        }
        None => Ok(()),
    }
}

/// What a reply says.
fn push_reply(text: &mut Vec<u8>, answer: &Reply) -> Result<(), AllocError>
    ensures { OnOk result (text.new.items ≡ text.old.items ++ reply_text (reply answer.now)) }
{
    match answer {
        Reply::Stored(name) => {
            text.extend_from_slice(b"ok ")?;
            push_name(text, name)
        }
        Reply::Lists(names) => {
            text.extend_from_slice(b"found")?;
            push_names(text, b" ", names.as_slice())
        }
        Reply::Vector(shown) => {
            text.extend_from_slice(b"vector")?;
            push_shown(text, shown.as_str())
        }
        Reply::Query(shown) => {
            text.extend_from_slice(b"query")?;
            push_shown(text, shown.as_str())
        }
        Reply::Commits(commits) => {
            text.extend_from_slice(b"commits ")?;
            push_number(text, commits.len() as u64)
        }
        Reply::Removed | Reply::Maintained | Reply::Tokens(_) | Reply::Done => {
            text.extend_from_slice(b"ok")
        }
        Reply::Refused(why) => {
            text.extend_from_slice(b"error ")?;
            push_refusal(text, why)
        }
    }
}

/// Puts the line of a token after a text. Such lines are before the last line of a reply.
pub fn push_token(text: &mut Vec<u8>, token: Token) -> Result<(), AllocError>
    ensures { OnOk result (text.new.items ≡ text.old.items ++ token_line token) }
{
    text.extend_from_slice(b"token ")?;
    push_number(text, u64::from(token.kind.number()))?;
    text.extend_from_slice(b" ")?;
    push_number(text, token.start as u64)?;
    text.extend_from_slice(b" ")?;
    push_number(text, token.length as u64)?;
    text.extend_from_slice(b"\n")
}

/// Puts the line of a commit, which has this number, after a text. Such lines are before the last
/// line of a reply.
pub fn push_commit(text: &mut Vec<u8>, number: u64, commit: &CommitLine) -> Result<(), AllocError>
    ensures { OnOk result (text.new.items
        ≡ text.old.items ++ commit_text number (commit_line commit.now)) }
{
    text.extend_from_slice(b"commit ")?;
    push_number(text, number)?;
    push_names(text, b" -", commit.deleted.as_slice())?;
    push_names(text, b" +", commit.inserted.as_slice())?;
    text.extend_from_slice(b"\n")
}

/// The last line of a reply, which is all of it where it has no tokens and no commits.
pub fn last_line_of(alloc: Global, session: u8, answer: &Reply) -> Result<Vec<u8>, AllocError>
    ensures { IfOk result (λ text. text.items ≡ last_line session (reply answer.now)) }
{
    let mut text = Vec::new(alloc);
    push_label(&mut text, session)?;
    push_reply(&mut text, answer)?;
    text.extend_from_slice(b"\n")?;
    Ok(text)
}
