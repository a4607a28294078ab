//! Records of the log as bytes: the one encoding of each, and the first record that bytes encode.
//!
//! `page_types` says what an encoding is. Here are its reader and its writer, with the place of the first fault of
//! bytes that begin with no record.
#![tactic(auto)]

mod error;
mod fields;
mod laws;
mod records;
mod writing;

pub use error::RecordError;
pub use laws::encodings_are_read;
pub use records::decode_record;
pub use writing::encode_record;
