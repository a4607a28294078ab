// Which statement calls what, and how it is answered.
ghost use Rattle.std.specs.Prelude.{◌≡◌, ℕ, ◌≤◌, IfOk, map};
ghost use Rattle.engine.specs.Db.{disk_of};
ghost use Rattle.engine.specs.Answers.{IsSession};
ghost use Rattle.shell_script.specs.ReplyView.{refusal, reply, commit_line};
ghost use Rattle.shell_script.specs.Docs.{Doc};
ghost use Rattle.shell_script.specs.Grammar.{update};
ghost use Rattle.shell_script.specs.StatementView.{statement, expr};
ghost use Rattle.shell_run.specs.Inner.Refusing.{refusal_for, stored_reply, removed_reply, cleaned_reply};
ghost use Rattle.shell_run.specs.Inner.Refusing.{found_reply, names_line, IsListReply};
ghost use Rattle.shell_run.specs.Inner.Answering.{HasAnswered};

use crate::values::{ask_query, expr_value, query_value, show};
use disk_trait::Disk;
use engine::{CommitNames, Db, DbError, Name, Pass};
use shell_script::{CommitLine, Expr, Refusal, Reply, Statement};
use std::alloc::{AllocError, Global};
use ts_config::Configs;

/// The refusal that an error of the store is printed as.
fn refusal_of(error: DbError) -> Refusal
    ensures { refusal result ≡ refusal_for error }
{
    match error {
        DbError::NoDocument => Refusal::NoDocument,
        DbError::Conflict { xid } => Refusal::Conflict(xid),
        DbError::StoreFull => Refusal::StoreFull,
        DbError::LogFull => Refusal::LogFull,
        DbError::XidsSpent => Refusal::TransactionsSpent,
        DbError::Down { fault } => Refusal::Down(fault),
        DbError::DiskFault => Refusal::Device,
        DbError::BadPage { page } => Refusal::BadPage(page),
        DbError::OutOfMemory => Refusal::Memory,
    }
}

/// The reply to an insertion or an update.
fn stored(answer: Result<Name, DbError>) -> Reply
    ensures { reply result ≡ stored_reply answer }
{
    match answer {
        Ok(name) => Reply::Stored(name),
        Err(error) => Reply::Refused(refusal_of(error)),
    }
}

/// The reply to a deletion.
fn removed(answer: Result<(), DbError>) -> Reply
    ensures { reply result ≡ removed_reply answer }
{
    match answer {
        Ok(()) => Reply::Removed,
        Err(error) => Reply::Refused(refusal_of(error)),
    }
}

/// The reply to a cleanup or a vacuum.
fn cleaned(answer: Result<(), DbError>) -> Reply
    ensures { reply result ≡ cleaned_reply answer }
{
    match answer {
        Ok(()) => Reply::Maintained,
        Err(error) => Reply::Refused(refusal_of(error)),
    }
}

/// The reply to a search.
fn found(answer: Result<Vec<Name>, DbError>) -> Reply
    ensures { reply result ≡ found_reply answer }
{
    match answer {
        Ok(names) => Reply::Lists(names),
        Err(error) => Reply::Refused(refusal_of(error)),
    }
}

/// The lines of commits.
fn lines_of(alloc: Global, commits: Vec<CommitNames>) -> Result<Vec<CommitLine>, AllocError>
    ensures { IfOk result (λ lines. map commit_line lines.items ≡ map names_line commits.items) }
{
    let mut lines = Vec::new(alloc);
    for commit in commits {
        let CommitNames { deleted, inserted } = commit;
        lines.push(CommitLine { deleted, inserted })?;
    }
    Ok(lines)
}

/// The reply to a list of commits.
fn listed(alloc: Global, answer: Result<Vec<CommitNames>, DbError>) -> Reply
    ensures { IsListReply answer (reply result) }
{
    match answer {
        Ok(commits) => match lines_of(alloc, commits) {
            Ok(lines) => Reply::Commits(lines),
            Err(_) => Reply::Refused(Refusal::Memory),
        },
        Err(error) => Reply::Refused(refusal_of(error)),
    }
}

/// What an update is answered.
fn update<D: Disk>(
    alloc: Global,
    configs: &Configs,
    store: &mut Db<D>,
    pass: &mut Pass,
    name: Name,
    from: &Expr<'_>,
) -> Reply
    requires session { IsSession store.old pass.old }
    ensures session { IsSession store.new pass.new }
    ensures room { pass.new.room ≡ pass.old.room }
    ensures answered { (d : Doc) → d.name ≡ name → (line : ℕ)
        → HasAnswered D.Disk store.old store.new pass.old pass.new configs.now line
        (update d (expr from.now)) (reply result) }
    ensures counts { D.fault_count (disk_of store.old) ≤ D.fault_count (disk_of store.new) }
{
    match expr_value(alloc, configs, from) {
        Ok(vector) => stored(store.update(pass, name, &vector)),
        Err(why) => Reply::Refused(why),
    }
}

/// What the statement of a line with this number is answered, where this is defined. Its texts are
/// read before the store is touched, and a statement that is not of the store never reaches it.
pub fn answer<D: Disk>(
    alloc: Global,
    configs: &Configs,
    store: &mut Db<D>,
    pass: &mut Pass,
    line: u64,
    asked: Statement<'_>,
) -> Reply
    requires session { IsSession store.old pass.old }
    ensures session { IsSession store.new pass.new }
    ensures room { pass.new.room ≡ pass.old.room }
    ensures answered { HasAnswered D.Disk store.old store.new pass.old pass.new configs.now line
        (statement asked.entry) (reply result) }
    ensures counts { D.fault_count (disk_of store.old) ≤ D.fault_count (disk_of store.new) }
{
    match asked {
        Statement::Insert(from) => match expr_value(alloc, configs, &from) {
            Ok(vector) => stored(store.insert(pass, &vector)),
            Err(why) => Reply::Refused(why),
        },
        Statement::Update(doc, from) => update(alloc, configs, store, pass, doc.name, &from),
        Statement::Delete(doc) => removed(store.delete(pass, doc.name)),
        Statement::Search(from) => match query_value(alloc, configs, &from) {
            Ok(query) => found(store.search(pass, &query)),
            Err(why) => Reply::Refused(why),
        },
        Statement::Cleanup => cleaned(store.cleanup(pass)),
        Statement::Vacuum => cleaned(store.vacuum(pass)),
        Statement::Show(from) => show(alloc, configs, &from),
        Statement::Ask(from) => ask_query(alloc, configs, &from),
        Statement::Parse(text) => Reply::Tokens(text),
        Statement::Commits => listed(alloc, store.commits(pass)),
        Statement::Invalid => Reply::Refused(Refusal::NoStatement(line)),
    }
}
