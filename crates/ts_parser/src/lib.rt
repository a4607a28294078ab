//! The tokens of a text: its numbers, hyphen words, words and what is between them.
#![tactic(auto)]

ghost use Rattle.std.specs.Prelude.{◌≡◌, All, IfOk};
ghost use Rattle.ts_parser.specs.Between.{IsBetween};
ghost use Rattle.ts_parser.specs.TokensOf.{tokens_of};
ghost use Rattle.ts_parser.specs.TokenList.{IsTokenList};

mod bytes;
mod forms;
mod iter;
mod kinds;
mod laws;

pub use iter::{Token, Tokens};
pub use kinds::TokenType;
pub use laws::{
    names_tell_types, numbers_tell_types, one_token_list, tokens_between, tokens_cover, tokens_few,
};
use std::alloc::{AllocError, Global};

/// The tokens of a text, one after another, without memory.
pub fn tokens(text: &str) -> Tokens<'_>
    ensures value { result ≡ tokens_of text.now }
    ensures list { IsTokenList text.now result }
    ensures between { All (IsBetween text.now) result }
{
    Tokens::new(text.as_bytes())
}

/// The tokens of a text as a list.
pub fn token_list(alloc: Global, text: &str) -> Result<Vec<Token>, AllocError>
    ensures value { IfOk result (λ list. list.items ≡ tokens_of text.now) }
    ensures list { IfOk result (λ list. IsTokenList text.now list.items) }
    ensures between { IfOk result (λ list. All (IsBetween text.now) list.items) }
{
    tokens(text).collect(alloc)
}
