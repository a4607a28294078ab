//! Pages of a store and records of its log as values, what bytes they stand for, and what a change makes of a
//! page's bytes.
//!
//! A page has 8192 bytes: a front of 24 bytes, a body of at most 8168, and zeros. A record is a number, a kind with its
//! fields, and the changes of the pages that it changes. `specs/` says which bytes are which page and which record;
//! the codecs use it. All numbers have their little end first.
#![tactic(auto)]

mod bytes;
mod edits;
mod ends;
mod entries;
mod error;
mod fields;
mod inners;
mod items;
mod laws;
mod page;
mod pieces;
mod record;
mod rows;
mod seq;
mod sizes;
mod slots;
mod splice;

pub use bytes::{Bytes, zero_page};
pub use edits::{apply, put};
pub use entries::{Entries, EntryRef, PostingsRef};
pub use error::BadChange;
pub use fields::{ReadError, slice_at, u8_at, u16_at, u32_at, u64_at};
pub use inners::{EntryChildRef, EntryChildren, PostChildren};
pub use items::{ItemsRead, next_item, read_items};
pub use laws::{items_are_told, pages_are_told, records_are_told};
pub use page::{Body, Entry, EntryChild, Gone, Head, Name, Page, PostChild, Postings, Row};
pub use pieces::{Pieces, PiecesRef};
pub use record::{Change, Changes, Edit, Kind, PageBytes, Record};
pub use rows::{RowRef, Rows};
pub use seq::Seq;
pub use sizes::body_length;
pub use slots::{HeadFields, HeadRef, Slots};

/// The bytes of a page.
pub const PAGE_BYTES: usize = 8192;

/// The bytes of a page before its body.
pub const FRONT_BYTES: usize = 24;

/// The most bytes of a body.
pub const MOST_BODY_BYTES: usize = 8168;

/// Pages are numbered below this.
pub const PAGE_LIMIT: u32 = 1_048_576;

/// Items are below this: page * 2048 + slot.
pub const ITEM_LIMIT: u32 = 2_147_483_648;

/// The most slots of a heap page.
pub const MOST_SLOTS: usize = 2048;

/// A vector of at most so many bytes is in its head; a longer one on overflow pages.
pub const MOST_SHORT_BYTES: u32 = 2000;

/// The most bytes of an item list that is in its entry.
pub const MOST_INLINE_BYTES: usize = 1000;

/// The most bytes of a key's text.
pub const MOST_KEY_TEXT: usize = 2046;

/// The bound of the last child of an inner posting page without right link, where it has no limit.
pub const NO_BOUND: u32 = 4_294_967_295;
