// The replies to statements.
ghost use Rattle.std.specs.Prelude.{◌≡◌};

use page_types::Name;
use std::alloc::AllocError;

/// What is at fault in a statement's text: the offset of the fault, or the size of the vector.
#[derive(Drop)]
pub enum TextFault {
    /// No vector's text, with the offset of the fault.
    BadVector(usize),
    /// No query's text, with the offset of the fault.
    BadQuery(usize),
    /// A lexeme is too long, with its offset.
    LongLexeme(usize),
    /// The vector is too large, with its size.
    LargeVector(usize),
    /// The query has too many nodes.
    LargeQuery,
}

/// Why a statement was refused.
#[derive(Drop)]
pub enum Refusal {
    /// The line with this number is no statement.
    NoStatement(u64),
    /// A configuration that the statement names isn't there.
    NoConfiguration,
    /// A dictionary that the definition names isn't there.
    NoDictionary,
    /// A text of the statement is at fault.
    Text(TextFault),
    /// There is no document of this name.
    NoDocument,
    /// A transaction with this number deletes the document, or has since the statement began.
    Conflict(u32),
    /// The store has no room for the document.
    StoreFull,
    /// The log has no room for the document.
    LogFull,
    /// The store has drawn all the numbers of transactions.
    TransactionsSpent,
    /// The store is down since a fault of the device, after which its count was this.
    Down(u64),
    /// A call of the device failed.
    Device,
    /// The bytes of this page are no page, or one of another kind.
    BadPage(u32),
    /// Memory ran out.
    Memory,
}

impl From<AllocError> for Refusal {
    ghost use Rattle.shell_script.specs.declared.replies.Refusal.TheVariants.{Memory};

    ghost from_gives = { λ _ e. e ≡ Memory };

    /// Memory ran out.
    fn from(_: AllocError) -> Refusal {
        Refusal::Memory
    }
}

/// The names that a commit deleted, and those that it inserted.
#[derive(Drop)]
pub struct CommitLine {
    /// The names that it deleted.
    pub deleted: Vec<Name>,
    /// The names that it inserted.
    pub inserted: Vec<Name>,
}

/// What a statement is answered; a vector or a query by its text, tokens by the text that has them.
#[derive(Drop)]
pub enum Reply {
    /// The document was stored under this name.
    Stored(Name),
    /// The document was deleted.
    Removed,
    /// The store was maintained, by a cleanup or a vacuum.
    Maintained,
    /// The documents that a search found.
    Lists(Vec<Name>),
    /// The vector that was asked for.
    Vector(String),
    /// The query that was asked for.
    Query(String),
    /// The tokens of this text.
    Tokens(String),
    /// The commits, in their order.
    Commits(Vec<CommitLine>),
    /// The definition is done.
    Done,
    /// The statement was refused.
    Refused(Refusal),
}
