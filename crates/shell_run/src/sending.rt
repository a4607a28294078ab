// Text into the sink.
ghost use Rattle.std.specs.Prelude.{◌≡◌, ◌⊎◌, ℕ, ◌<◌, ◌≤◌, List, [], ◌++◌, length, IfErr, OnOk, IsErrOf, is_ok, drop};
ghost use Rattle.std.specs.Prelude.{map, ◌+◌};
ghost use Rattle.std.specs.List.{flat_map};
ghost use Rattle.ts_parser.specs.TokensOf.{tokens_of};
ghost use Rattle.shell_script.specs.ReplyView.{reply, commit_line};
ghost use Rattle.shell_script.specs.Texts.{token_line, commit_text, commit_texts, lines_before, said};
ghost use Rattle.disk_trait.specs.Device.{Rose};
ghost use Rattle.shell_run.specs.Inner.Sending.{Sends};
ghost use Rattle.shell_run.specs.declared.error.Stop.TheVariants.{SinkFault, OutOfMemory};

use crate::error::Stop;
use disk_trait::Sink;
use shell_script::{CommitLine, Reply, last_line_of, push_commit, push_token};
use std::alloc::Global;
use ts_parser::{Token, tokens};

/// What is after the first n bytes.
fn behind(bytes: &[u8], n: usize) -> &[u8]
    requires { n ≤ length bytes.now }
    ensures { result.now ≡ drop n bytes.now }
{
    &bytes[n..]
}

#[tactic(auto, using(crate::proofs::Streams::writing_steps))]
/// All of the bytes, or a beginning of them.
fn write_all<K: Sink>(out: &mut K, bytes: &[u8]) -> Result<(), Stop>
    ensures text { Sends (K.taken out.old) (K.taken out.new) bytes.now [] (is_ok result) }
    ensures later { K.fault_count out.old ≤ K.fault_count out.new }
    ensures error { IfErr result (λ e. (e ≡ SinkFault) ⊎ (e ≡ OutOfMemory)) }
    ensures fault { IsErrOf result SinkFault
        → Rose (K.fault_count out.old) (K.fault_count out.new) }
{
    let mut rest = bytes;
    while !rest.is_empty() {
        match out.write(rest) {
            Err(_) => return Err(Stop::SinkFault),
            Ok(n) => rest = behind(rest, n),
        }
    }
    Ok(())
}

/// The bytes of a piece: where so many wait, they are written.
const PIECE_BYTES: usize = 8192;

/// What waits is written.
pub fn flush<K: Sink>(out: &mut K, waiting: &mut Vec<u8>) -> Result<(), Stop>
    ensures text { Sends (K.taken out.old) (K.taken out.new) waiting.old.items waiting.new.items
        (is_ok result) }
    ensures empty { OnOk result (waiting.new.items ≡ []) }
    ensures later { K.fault_count out.old ≤ K.fault_count out.new }
    ensures error { IfErr result (λ e. (e ≡ SinkFault) ⊎ (e ≡ OutOfMemory)) }
    ensures fault { IsErrOf result SinkFault
        → Rose (K.fault_count out.old) (K.fault_count out.new) }
{
    write_all(out, waiting.as_slice())?;
    waiting.clear();
    Ok(())
}

#[tactic(auto, using(crate::proofs::Streams::puts_start))]
/// What waits is written where it is a whole piece.
fn flush_piece<K: Sink>(out: &mut K, waiting: &mut Vec<u8>) -> Result<(), Stop>
    ensures text { Sends (K.taken out.old) (K.taken out.new) waiting.old.items waiting.new.items
        (is_ok result) }
    ensures few { OnOk result (length waiting.new.items < PIECE_BYTES) }
    ensures later { K.fault_count out.old ≤ K.fault_count out.new }
    ensures error { IfErr result (λ e. (e ≡ SinkFault) ⊎ (e ≡ OutOfMemory)) }
    ensures fault { IsErrOf result SinkFault
        → Rose (K.fault_count out.old) (K.fault_count out.new) }
{
    if waiting.len() >= PIECE_BYTES {
        return flush(out, waiting);
    }
    Ok(())
}

/// A text more after what waits, which is written where it is a whole piece.
pub fn put<K: Sink>(out: &mut K, waiting: &mut Vec<u8>, text: &[u8]) -> Result<(), Stop>
    ensures text { Sends (K.taken out.old) (K.taken out.new) (waiting.old.items ++ text.now)
        waiting.new.items (is_ok result) }
    ensures few { OnOk result (length waiting.new.items < PIECE_BYTES) }
    ensures later { K.fault_count out.old ≤ K.fault_count out.new }
    ensures error { IfErr result (λ e. (e ≡ SinkFault) ⊎ (e ≡ OutOfMemory)) }
    ensures fault { IsErrOf result SinkFault
        → Rose (K.fault_count out.old) (K.fault_count out.new) }
{
    waiting.extend_from_slice(text)?;
    flush_piece(out, waiting)
}

/// The line of a token, which is put like a text.
fn put_token<K: Sink>(out: &mut K, waiting: &mut Vec<u8>, token: Token) -> Result<(), Stop>
    ensures text { Sends (K.taken out.old) (K.taken out.new)
        (waiting.old.items ++ token_line token) waiting.new.items (is_ok result) }
    ensures later { K.fault_count out.old ≤ K.fault_count out.new }
    ensures error { IfErr result (λ e. (e ≡ SinkFault) ⊎ (e ≡ OutOfMemory)) }
    ensures fault { IsErrOf result SinkFault
        → Rose (K.fault_count out.old) (K.fault_count out.new) }
{
    push_token(waiting, token)?;
    flush_piece(out, waiting)
}

/// The lines of a text's tokens, one after another, so that few of them wait.
fn put_tokens<K: Sink>(out: &mut K, waiting: &mut Vec<u8>, text: &str) -> Result<(), Stop>
    ensures text { Sends (K.taken out.old) (K.taken out.new)
        (waiting.old.items ++ flat_map token_line (tokens_of text.now)) waiting.new.items
        (is_ok result) }
    ensures later { K.fault_count out.old ≤ K.fault_count out.new }
    ensures error { IfErr result (λ e. (e ≡ SinkFault) ⊎ (e ≡ OutOfMemory)) }
    ensures fault { IsErrOf result SinkFault
        → Rose (K.fault_count out.old) (K.fault_count out.new) }
{
    for token in tokens(text) {
        if let Err(stop) = put_token(out, waiting, token) {
            return Err(stop);
        }
    }
    Ok(())
}

/// The line of a commit, which is put like a text.
fn put_commit<K: Sink>(
    out: &mut K,
    waiting: &mut Vec<u8>,
    number: u64,
    commit: &CommitLine,
) -> Result<(), Stop>
    ensures text { Sends (K.taken out.old) (K.taken out.new)
        (waiting.old.items ++ commit_text number (commit_line commit.now)) waiting.new.items
        (is_ok result) }
    ensures later { K.fault_count out.old ≤ K.fault_count out.new }
    ensures error { IfErr result (λ e. (e ≡ SinkFault) ⊎ (e ≡ OutOfMemory)) }
    ensures fault { IsErrOf result SinkFault
        → Rose (K.fault_count out.old) (K.fault_count out.new) }
{
    push_commit(waiting, number, commit)?;
    flush_piece(out, waiting)
}

/// The lines of commits, one after another, so that few of them wait.
fn put_commits<K: Sink>(
    out: &mut K,
    waiting: &mut Vec<u8>,
    commits: &[CommitLine],
) -> Result<(), Stop>
    ensures text { Sends (K.taken out.old) (K.taken out.new)
        (waiting.old.items ++ commit_texts 1 (map commit_line commits.now)) waiting.new.items
        (is_ok result) }
    ensures later { K.fault_count out.old ≤ K.fault_count out.new }
    ensures error { IfErr result (λ e. (e ≡ SinkFault) ⊎ (e ≡ OutOfMemory)) }
    ensures fault { IsErrOf result SinkFault
        → Rose (K.fault_count out.old) (K.fault_count out.new) }
{
    for (place, commit) in commits.iter().enumerate() {
        if let Err(stop) = put_commit(out, waiting, place as u64 + 1, commit) {
            return Err(stop);
        }
    }
    Ok(())
}

/// The lines before the last one of a reply, if it has any: those of its tokens or commits.
fn put_lines_before<K: Sink>(out: &mut K, waiting: &mut Vec<u8>, answer: &Reply) -> Result<(), Stop>
    ensures text { Sends (K.taken out.old) (K.taken out.new)
        (waiting.old.items ++ lines_before (reply answer.now)) waiting.new.items (is_ok result) }
    ensures later { K.fault_count out.old ≤ K.fault_count out.new }
    ensures error { IfErr result (λ e. (e ≡ SinkFault) ⊎ (e ≡ OutOfMemory)) }
    ensures fault { IsErrOf result SinkFault
        → Rose (K.fault_count out.old) (K.fault_count out.new) }
{
    match answer {
        Reply::Tokens(text) => put_tokens(out, waiting, text.as_str()),
        Reply::Commits(commits) => put_commits(out, waiting, commits.as_slice()),
        _ => Ok(()),
    }
}

/// A reply: the lines of its tokens or commits, and its last line.
pub fn put_reply<K: Sink>(
    alloc: Global,
    out: &mut K,
    waiting: &mut Vec<u8>,
    session: u8,
    answer: &Reply,
) -> Result<(), Stop>
    ensures text { Sends (K.taken out.old) (K.taken out.new)
        (waiting.old.items ++ said session (reply answer.now)) waiting.new.items (is_ok result) }
    ensures few { OnOk result (length waiting.new.items < PIECE_BYTES) }
    ensures later { K.fault_count out.old ≤ K.fault_count out.new }
    ensures error { IfErr result (λ e. (e ≡ SinkFault) ⊎ (e ≡ OutOfMemory)) }
    ensures fault { IsErrOf result SinkFault
        → Rose (K.fault_count out.old) (K.fault_count out.new) }
{
    if let Err(stop) = put_lines_before(out, waiting, answer) {
        return Err(stop);
    }
    match last_line_of(alloc, session, answer) {
        Ok(line) => put(out, waiting, &line),
        Err(_) => Err(Stop::OutOfMemory),
    }
}
