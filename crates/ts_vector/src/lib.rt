//! Vectors: lexemes in byte order, each with its positions.
#![tactic(auto)]

ghost use Rattle.std.specs.Prelude.{◌≡◌, ℕ, ◌<◌, ◌++◌, length, IfOk, IfErr, OnOk, OnErr, slice_index_or};
ghost use Rattle.std.specs.String.{string_bytes};
ghost use Rattle.ts_base.specs.Vectors.{Entry, Vector, IsNormal, content_size};
ghost use Rattle.ts_base.specs.Encoding.{vector_bytes, IsEncoding};
ghost use Rattle.ts_vector.specs.Normal.{IsNormalFormOf};
ghost use Rattle.ts_vector.specs.Text.{IsTextOf};
ghost use Rattle.ts_vector.specs.Failures.{TextFails, JoinFails};
ghost use Rattle.ts_vector.specs.Inner.Over.{IsOver};
ghost use Rattle.ts_vector.specs.Changes.{stripped, reweighted, IsJoinOf};
ghost use Rattle.ts_vector.specs.Decoded.{DecodeFails};
ghost use Rattle.ts_vector.specs.Printed.{vector_text};

mod builder;
mod bytes;
mod changes;
mod checker;
mod codec;
mod columns;
mod encoded;
mod error;
mod gathered;
mod joined;
mod laws;
mod lexemes;
mod merge;
mod normal;
mod places;
mod printer;
mod reader;
mod written_lexemes;

pub use builder::VectorBuilder;
use changes::{entries_with_weight, greatest, without_positions};
use codec::put_entries;
use columns::Columns;
pub use encoded::{Entries, EntryBytes, Positions, VectorBytes};
pub use error::VectorError;
pub use joined::Joined;
pub use laws::{
    bad_bytes_are_no_encoding, bad_place_is_one, build_has_one_answer, fault_has_one_place,
    fault_is_outside, join_has_one_answer, normal_form_is_one, position_has_its_number,
    printed_text_is_read, text_has_one_answer, text_has_one_list, text_has_one_value,
};
use merge::merged;
use normal::normal_form;
pub use places::Places;
use reader::read;
use std::alloc::{AllocError, Global};
use std::marker::Model;
use std::str;
pub use ts_base::{Lexeme, LexemeError, Position, SIZE_LIMIT, Weight};

/// A vector in normal form. Contracts see it as the list of its entries.
#[derive(Debug, Drop)]
pub struct TsVector {
    /// Its entries, in the order of their lexemes.
    entries: Columns,
}

impl Model for TsVector {
    ghost use Rattle.std.specs.Prelude.{◌<◌};
    ghost use Rattle.ts_base.specs.Vectors.{Vector, IsNormal, content_size};

    ghost Value = { Vector };

    ghost view = { λ v. v.entries };

    ghost use Rattle.ts_base.specs.declared.TheConstants.{SIZE_LIMIT};

    ghost invariant = { λ v. IsNormal v.entries × (content_size v.entries < SIZE_LIMIT) };
}

/// The vector of entries in normal form, if it is within the limit.
fn within_limit(entries: Columns) -> Result<TsVector, VectorError>
    requires { IsNormal entries }
    ensures value { IfOk result (λ v. (v ≡ entries) × (content_size v < SIZE_LIMIT)) }
    ensures cause { IfErr result (IsOver entries) }
{
    let bytes = entries.size();
    if bytes >= SIZE_LIMIT {
        return Err(VectorError::VectorTooLarge { bytes });
    }
    Ok(TsVector { entries })
}

impl TsVector {
    /// The vector of a text, in normal form.
    ///
    /// ```rust
    /// let vector = TsVector::parse(alloc, "rat:2 cat:1A cat:3")?;
    /// assert_eq!(rt; vector.to_text(alloc)?.as_str(), "'cat':1A,3 'rat':2");
    /// ```
    pub fn parse(alloc: Global, text: &str) -> Result<TsVector, VectorError>
        ensures value { IfOk result (IsTextOf text.now) }
        ensures cause { IfErr result (TextFails text.now) }
    {
        let words = match read(alloc, text.as_bytes()) {
            Ok(Ok(words)) => words,
            Ok(Err(at)) => return Err(VectorError::Syntax { at }),
            Err(_) => return Err(VectorError::OutOfMemory),
        };
        if let Some(at) = words.first_long() {
            return Err(VectorError::LexemeTooLong { at });
        }
        match normal_form(alloc, words.into_entries()) {
            Ok(entries) => within_limit(entries),
            Err(_) => Err(VectorError::OutOfMemory),
        }
    }

    /// The entries of both, the other's positions after this one's greatest, in normal form.
    pub fn concat(&self, alloc: Global, other: &TsVector) -> Result<TsVector, VectorError>
        ensures value { IfOk result (IsJoinOf self.now other.now) }
        ensures cause { IfErr result (JoinFails self.now other.now) }
    {
        let by = greatest(&self.entries);
        match merged(alloc, &self.entries, &other.entries, by) {
            Ok(entries) => within_limit(entries),
            Err(_) => Err(VectorError::OutOfMemory),
        }
    }

    /// The vector without positions.
    pub fn strip(&self, alloc: Global) -> Result<TsVector, AllocError>
        ensures { IfOk result (λ v. v ≡ stripped self.now) }
    {
        let entries = without_positions(alloc, &self.entries)?;
        Ok(TsVector { entries })
    }

    /// The vector with each position at this weight.
    pub fn set_weight(&self, alloc: Global, weight: Weight) -> Result<TsVector, AllocError>
        ensures { IfOk result (λ v. v ≡ reweighted weight self.now) }
    {
        let entries = entries_with_weight(alloc, &self.entries, weight)?;
        Ok(TsVector { entries })
    }

    /// The printed text: each lexeme in quotes with its positions, and one space between two.
    pub fn to_text(&self, alloc: Global) -> Result<String, AllocError>
        ensures { IfOk result (λ text. string_bytes text ≡ vector_text self.now) }
    {
        let mut out = String::new(alloc);
        printer::put_entries(&mut out, &self.entries)?;
        Ok(out)
    }

    /// The number of lexemes.
    pub fn count(&self) -> usize
        ensures count { result ≡ length self.now }
        ensures normal { IsNormal self.now }
        ensures limit { content_size self.now < SIZE_LIMIT }
    {
        self.entries.len()
    }

    /// The lexeme at the index k.
    pub fn lexeme(&self, k: usize) -> &str
        requires { k < length self.now }
        ensures { (d : Entry) → result.now ≡ (slice_index_or self.now k d).lexeme }
    {
        let bytes = self.entries.lexeme(k);
        unsafe { str::from_utf8_unchecked(bytes) }
    }

    /// The positions of the lexeme at the index k.
    pub fn positions(&self, k: usize) -> &[Position]
        requires { k < length self.now }
        ensures { (d : Entry) → result.now ≡ (slice_index_or self.now k d).positions }
    {
        self.entries.positions(k)
    }

    /// Appends the vector's encoding; after an error nothing was appended.
    pub fn encode(&self, out: &mut Vec<u8>) -> Result<(), AllocError>
        ensures ok { OnOk result (out.new.items ≡ out.old.items ++ vector_bytes self.now) }
        ensures err { OnErr result (out.new.items ≡ out.old.items) }
        ensures normal { IsNormal self.now }
    {
        let start = out.len();
        if let Err(error) = put_entries(out, &self.entries) {
            out.truncate(start);
            return Err(error);
        }
        Ok(())
    }

    /// The vector with this encoding.
    pub fn decode(alloc: Global, bytes: &[u8]) -> Result<TsVector, VectorError>
        ensures value { IfOk result (IsEncoding bytes.now) }
        ensures cause { IfErr result (DecodeFails bytes.now) }
    {
        let encoded = VectorBytes::new(bytes)?;
        match Columns::of_encoding(alloc, &encoded) {
            Ok(entries) => Ok(TsVector { entries }),
            Err(_) => Err(VectorError::OutOfMemory),
        }
    }
}
