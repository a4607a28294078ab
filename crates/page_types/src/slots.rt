// The slots of a heap page.
ghost use Rattle.std.specs.Prelude.{◌≡◌, ◌^◌, ◌<◌, ◌≤◌, [], ◌∷◌, ◌++◌, length, slice_set, OnOk, OnErr, IsOk, None};
ghost use Rattle.std.specs.List.{insert, remove, flat_map};
ghost use Rattle.std.specs.Option.{option_map};
ghost use Rattle.page_types.specs.Parts.{head_shown};
ghost use Rattle.page_types.specs.Encoding.{slot_bytes};
ghost use Rattle.page_types.specs.Views.{vector_in};
ghost use Rattle.page_types.specs.Inner.Joins.{slot_with};

use crate::pieces::Pieces;
use std::alloc::{AllocError, Global};
use std::marker::Model;

/// A head without its vector's bytes.
#[derive(Clone, Copy, Debug, PartialEq, Eq)]
pub struct HeadFields {
    /// The document's serial number.
    pub serial: u64,
    /// The transaction that placed it.
    pub inserted_by: u32,
    /// The transaction that marked it deleted, or 0.
    pub deleted_by: u32,
    /// The first overflow page, or 0.
    pub overflow: u32,
    /// The first private pending page, or 0.
    pub private: u32,
    /// How many bytes the vector has.
    pub bytes: u32,
}

/// A head, its vector's bytes by reference.
#[derive(Clone, Copy, Debug)]
pub struct HeadRef<'a> {
    /// All but the vector.
    pub fields: HeadFields,
    /// The vector's bytes, where they are at most 2000; else none.
    pub vector: &'a [u8],
}

/// The slots of a heap page: each is free, or has a head. Contracts see them as a list.
#[derive(Debug, Drop)]
pub struct Slots {
    fields: Vec<Option<HeadFields>>,
    vectors: Pieces,
}

impl Model for Slots {
    ghost use Rattle.std.specs.Prelude.{◌≡◌, List, Option, length};
    ghost use Rattle.page_types.specs.declared.page.Head.{Head};

    ghost Value = { List (Option Head) };

    ghost use Rattle.page_types.specs.Inner.Joins.{joined, slot_with};

    ghost view = { λ s. joined slot_with s.fields.items s.vectors };

    ghost invariant = { λ s. length s.fields.items ≡ length s.vectors };
}

/// The two parts of a slot.
fn parts_of<'a>(slot: Option<HeadRef<'a>>) -> (Option<HeadFields>, &'a [u8])
    ensures whole { slot_with result.0 result.1.now ≡ option_map head_shown slot.entry }
    ensures vector { result.1.now ≡ vector_in (option_map head_shown slot.entry) }
{
    match slot {
        None => (None, &[]),
        Some(head) => (Some(head.fields), head.vector),
    }
}

/// How many bytes a slot's encoding has.
fn slot_size(slot: Option<HeadRef<'_>>) -> usize
    requires { length (slot_bytes (option_map head_shown slot)) < 2 ^ 64 }
    ensures { result ≡ length (slot_bytes (option_map head_shown slot.entry)) }
{
    match slot {
        None => 1,
        Some(head) => 29 + head.vector.len(),
    }
}

impl Slots {
    ghost use Rattle.page_types.specs.Parts.{head_shown, head_with};
    ghost use Rattle.page_types.specs.Views.{slot_at, vector_in};

    /// No slots.
    pub fn new(alloc: Global) -> Slots
        ensures { result ≡ [] }
    {
        Slots {
            fields: Vec::new(alloc),
            vectors: Pieces::new(alloc),
        }
    }

    /// How many slots there are.
    pub fn len(&self) -> usize
        ensures { result ≡ length self.now }
    {
        self.fields.len()
    }

    /// How many bytes their encoding has.
    pub(crate) fn size(&self) -> usize
        requires { length (flat_map slot_bytes self.now) < 2 ^ 64 }
        ensures { result ≡ length (flat_map slot_bytes self.now) }
    {
        let mut size = 0;
        for k in 0..self.len() {
            size += slot_size(self.get(k));
        }
        size
    }

    /// The head in a slot, by reference; none where the slot is free or absent.
    pub fn get(&self, k: usize) -> Option<HeadRef<'_>>
        ensures { option_map head_shown result ≡ slot_at self.now k }
    {
        if k >= self.fields.len() {
            return None;
        }
        let vector = self.vectors.at(k);
        match self.fields[k] {
            None => None,
            Some(fields) => Some(HeadRef { fields, vector }),
        }
    }

    /// One slot more, after the others. Without memory they stay as they are.
    pub fn push(&mut self, slot: Option<HeadRef<'_>>) -> Result<(), AllocError>
        ensures ok { OnOk result (self.new ≡ self.old
            ++ option_map head_shown slot.entry ∷ []) }
        ensures err { OnErr result (self.new ≡ self.old) }
    {
        let (fields, vector) = parts_of(slot);
        self.fields.reserve(1)?;
        self.vectors.push(vector)?;
        self.fields.push_reserved(fields);
        Ok(())
    }

    /// A slot with other contents. Without memory all stay as they are; a vector that is not longer takes none.
    pub fn set(&mut self, k: usize, slot: Option<HeadRef<'_>>) -> Result<(), AllocError>
        requires { k < length self.old }
        ensures ok { OnOk result (self.new ≡ slice_set self.old k
            (option_map head_shown slot.entry)) }
        ensures err { OnErr result (self.new ≡ self.old) }
        ensures short { length (vector_in (option_map head_shown slot.entry))
            ≤ length (vector_in (slot_at self.old k)) → IsOk result }
    {
        let (fields, vector) = parts_of(slot);
        self.vectors.set(k, vector)?;
        self.fields[k] = fields;
        Ok(())
    }

    /// A head with other fields; its vector stays, and so does a free slot. It takes no memory.
    pub fn set_fields(&mut self, k: usize, fields: HeadFields)
        requires { k < length self.old }
        ensures { self.new ≡ slice_set self.old k
            (option_map (λ h. head_with fields h.vector) (slot_at self.old k)) }
    {
        if self.fields[k].is_some() {
            self.fields[k] = Some(fields);
        }
    }

    /// The slot is free from now on. It takes no memory.
    pub fn free(&mut self, k: usize)
        requires { k < length self.old }
        ensures { self.new ≡ slice_set self.old k None }
    {
        self.set(k, None).unwrap();
    }

    /// One slot more, in front of the one with this number, or after all. Without memory they stay as they are.
    pub fn insert(&mut self, k: usize, slot: Option<HeadRef<'_>>) -> Result<(), AllocError>
        requires { k ≤ length self.old }
        ensures ok { OnOk result (self.new ≡ insert self.old k (option_map head_shown slot.entry)) }
        ensures err { OnErr result (self.new ≡ self.old) }
    {
        let (fields, vector) = parts_of(slot);
        self.fields.reserve(1)?;
        self.vectors.insert(k, vector)?;
        self.fields.insert(k, fields).unwrap();
        Ok(())
    }

    /// The slot with this number goes; those after it get a number less. It takes no memory.
    pub fn remove(&mut self, k: usize)
        requires { k < length self.old }
        ensures { self.new ≡ remove self.old k }
    {
        self.fields.remove(k);
        self.vectors.remove(k);
    }
}

impl Clone for Slots {
    ghost is_clone = { λ a b. b ≡ a };

    fn clone(&self) -> Result<Slots, AllocError> {
        let fields = self.fields.clone()?;
        let vectors = self.vectors.clone()?;
        Ok(Slots { fields, vectors })
    }
}
