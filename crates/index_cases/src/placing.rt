// Items that are put under keys, on a device that says nothing: so a program may place items that no row has.
ghost use Rattle.std.specs.Prelude.{◌≤◌, length, IfOk};
ghost use Rattle.page_types.specs.Items.{AreItems};
ghost use Rattle.page_types.specs.Keys.{IsKey};
ghost use Rattle.index_cases.specs.Working.{Works};

use crate::documents::{push_letters, push_number};
use crate::rows::{number, word};
use buffer_frames::{Frames, Pass};
use disk_trait::Disk;
use gin_place::{PlaceError, place};
use std::alloc::{AllocError, Global};
use ts_match::text_class;

/// The most items that a key gets here.
const MOST_ITEMS: u32 = 100_000;

/// The most letters that a word has.
const MOST_LETTERS: u32 = 2046;

/// What is put: under so many keys of so many letters so many items from a first one on, with this step from one to the
/// next, so many at once.
#[derive(Clone, Copy)]
pub(crate) struct Load {
    keys: u32,
    letters: u32,
    first: u32,
    count: u32,
    step: u32,
    part: u32,
}

impl Load {
    /// A load of so many keys by the first words of some, and the words after them.
    pub(crate) fn of(keys: u32, words: &str) -> (Load, &str) {
        let (letters, words) = word(words);
        let (first, words) = word(words);
        let (count, words) = word(words);
        let (step, words) = word(words);
        let (part, words) = word(words);
        let load = Load {
            keys,
            letters: number(letters).min(MOST_LETTERS),
            first: number(first),
            count: number(count).min(MOST_ITEMS),
            step: number(step),
            part: number(part),
        };
        (load, words)
    }
}

/// Puts a word of so many letters that begins with a number.
fn push_word(text: &mut String, number: u32, letters: u32) -> Result<(), AllocError> {
    push_number(text, number.saturating_add(100_000))?;
    push_letters(text, 'x', letters.saturating_sub(6))
}

/// The key of this word: the byte 0, and the word.
fn key_of(alloc: Global, word: &str) -> Result<Vec<u8>, AllocError>
    requires some { 1 ≤ length word.now }
    requires most { length word.now ≤ MOST_LETTERS }
    ensures { IfOk result (λ key. IsKey key.items) }
{
    let mut key = vec![in alloc; 0u8]?;
    key.extend_from_slice(word.as_bytes())?;
    Ok(key)
}

/// The key of the word of so many letters that begins with a number; none where that has too many letters.
fn key_with(alloc: Global, number: u32, letters: u32) -> Result<Vec<u8>, AllocError>
    ensures { IfOk result (λ key. IsKey key.items) }
{
    let mut text = String::new(alloc);
    push_word(&mut text, number, letters)?;
    if text.is_empty() || text.len() > MOST_LETTERS as usize {
        return Err(AllocError);
    }
    key_of(alloc, text.as_str())
}

/// So many items from one on, with this step from one to the next, as far as they are items.
#[tactic(auto, using(crate::proofs::Rising::more_from, crate::proofs::Rising::above_from))]
fn items_from(alloc: Global, first: u32, step: u32, count: u32) -> Result<Vec<u32>, AllocError>
    ensures { IfOk result (λ items. AreItems items.items) }
{
    let mut items = Vec::new(alloc);
    if first == 0 || step == 0 {
        return Ok(items);
    }
    let mut next = first;
    for _ in 0..count {
        if next >= 1 << 31 {
            return Ok(items);
        }
        items.push(next)?;
        next = next.saturating_add(step);
    }
    Ok(items)
}

/// Puts items under a key, and what is logged for it on the device.
fn put<D: Disk>(
    alloc: Global,
    frames: &mut Frames<D>,
    pass: &mut Pass,
    key: &[u8],
    items: &[u32],
) -> Result<(), PlaceError>
    requires silent { D.tells → ⊥ }
    requires working { Works frames.old pass.old 16 }
    requires key { IsKey key.now }
    requires items { AreItems items.now }
    ensures working { Works frames.new pass.new 16 }
{
    let class = text_class();
    place(alloc, frames, pass, &class, key, items)?;
    Ok(frames.flush_log(pass)?)
}

/// Puts a load under a key, part by part.
fn put_parts<D: Disk>(
    alloc: Global,
    frames: &mut Frames<D>,
    pass: &mut Pass,
    key: &[u8],
    load: Load,
) -> Result<(), PlaceError>
    requires silent { D.tells → ⊥ }
    requires working { Works frames.old pass.old 16 }
    requires key { IsKey key.now }
    ensures working { Works frames.new pass.new 16 }
{
    let mut next = load.first;
    let mut left = load.count;
    for _ in 0..load.count {
        let count = load.part.min(left);
        if count == 0 {
            return Ok(());
        }
        let items = items_from(alloc, next, load.step, count)?;
        put(alloc, frames, pass, key, &items)?;
        next = next.saturating_add(load.step.saturating_mul(count));
        left -= count;
    }
    Ok(())
}

/// Puts a load.
pub(crate) fn put_all<D: Disk>(
    alloc: Global,
    frames: &mut Frames<D>,
    pass: &mut Pass,
    load: Load,
) -> Result<(), PlaceError>
    requires silent { D.tells → ⊥ }
    requires working { Works frames.old pass.old 16 }
    ensures working { Works frames.new pass.new 16 }
{
    for k in 0..load.keys {
        let key = key_with(alloc, k, load.letters)?;
        put_parts(alloc, frames, pass, &key, load)?;
    }
    Ok(())
}
