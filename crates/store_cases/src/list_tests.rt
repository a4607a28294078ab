// The lists of pages, changed in steps.
use crate::kinds::{Kind, try_rows};
use crate::rows::{cut, long, number, word};
use crate::state_tests::changes_of;
use page_types::{
    Entries, EntryChildRef, EntryChildren, EntryRef, HeadFields, HeadRef, Pieces, PostChild,
    PostChildren, PostingsRef, Rows, Slots,
};
use std::alloc::{AllocError, Global};
use std::fmt::Debug;
use std::test::Fail;

/// A list, its steps, and what a copy of it then says; or pages, and how many changes of them are listed.
const LISTS: &str = "\
    pieces | push ab; insert 1 c; append de de; set 0 fgh | Pieces { bytes: [102, 103, 104, 99, 100, 101, 100, 101], \
        ends: [3, 4, 6, 8] }
    pieces | push x; push yz; append x yz; splice 1 3 x yz; set 0 abc; remove 2; truncate 3 | Pieces { bytes: [97, \
        98, 99, 120, 121, 122], ends: [3, 4, 6] }
    slots | push 1 a; push -; insert 0 2 bc; set 0 3 def | Slots { fields: [Some(HeadFields { serial: 3, \
        inserted_by: 2, deleted_by: 0, overflow: 0, private: 0, bytes: 3 }), Some(HeadFields { serial: 1, \
        inserted_by: 2, deleted_by: 0, overflow: 0, private: 0, bytes: 3 }), None], vectors: Pieces { bytes: [100, \
        101, 102, 97], ends: [3, 4, 4] } }
    slots | push -; push 1 abc; insert 1 2 de; set 0 3 f; set 2 4 ghij; insert 3 -; change 1 5; change 3 6; free 0 | \
        Slots { fields: [None, Some(HeadFields { serial: 5, inserted_by: 2, deleted_by: 0, overflow: 0, private: 0, \
        bytes: 3 }), Some(HeadFields { serial: 4, inserted_by: 2, deleted_by: 0, overflow: 0, private: 0, bytes: 3 \
        }), None], vectors: Pieces { bytes: [100, 101, 103, 104, 105, 106], ends: [0, 2, 6, 6] } }
    slots | push -; push 1 abc; insert 1 2 de; set 0 3 f; set 2 4 ghij; insert 3 -; change 1 5; change 3 6; free 0; \
        remove 1 | Slots { fields: [None, Some(HeadFields { serial: 4, inserted_by: 2, deleted_by: 0, overflow: 0, \
        private: 0, bytes: 3 }), None], vectors: Pieces { bytes: [103, 104, 105, 106], ends: [0, 4, 4] } }
    rows | push 4096 k k; push 4097; insert 0 4098 k k; set 0 4099 mn mn | Rows { items: [4099, 4096, 4097], ends: \
        [2, 4, 4], keys: Pieces { bytes: [109, 110, 109, 110, 107, 107], ends: [2, 4, 5, 6] } }
    rows | push 4097 \0a; push 4096 \0 \0a; insert 1 4098 \0 \0a; insert 3 4099 \0; set 0 4095 \0 | Rows { items: \
        [4095, 4098, 4096, 4099], ends: [1, 3, 5, 6], keys: Pieces { bytes: [0, 0, 0, 97, 0, 0, 97, 0], ends: [1, 2, \
        4, 5, 7, 8] } }
    rows | push 4097 \0a; push 4096 \0 \0a; insert 1 4098 \0 \0a; insert 3 4099 \0; set 0 4095 \0; remove 1 | Rows { \
        items: [4095, 4096, 4099], ends: [1, 3, 4], keys: Pieces { bytes: [0, 0, 0, 97, 0], ends: [1, 2, 4, 5] } }
    entries | push a \x01; insert 0 b \x02\x03; set 0 \x04\x05\x06 | Entries { keys: Pieces { bytes: [98, 97], ends: \
        [1, 2] }, roots: [None, None], lists: Pieces { bytes: [4, 5, 6, 1], ends: [3, 4] } }
    entries | push \0a \x01; insert 0  \x01; insert 2 b \x01; set 0 root 11; set 2 \x02\x03 | Entries { keys: Pieces \
        { bytes: [0, 97, 98], ends: [0, 2, 3] }, roots: [Some(11), None, None], lists: Pieces { bytes: [1, 2, 3], \
        ends: [0, 1, 3] } }
    entries | push \0a \x01; insert 0  \x01; insert 2 b \x01; set 0 root 11; set 2 \x02\x03; remove 1 | Entries { \
        keys: Pieces { bytes: [98], ends: [0, 1] }, roots: [Some(11), None], lists: Pieces { bytes: [2, 3], ends: \
        [0, 2] } }
    children | push 20; push 20 a; insert 0 20 b; set 0 21 cd | EntryChildren { pages: [21, 20, 20], bounds: Pieces \
        { bytes: [99, 100, 97], ends: [2, 2, 3] } }
    children | push 20; insert 0 21 ab; set 1 22 c | EntryChildren { pages: [21, 22], bounds: Pieces { bytes: [97, \
        98, 99], ends: [2, 3] } }
    children | push 20; insert 0 21 ab; set 1 22 c; remove 0 | EntryChildren { pages: [22], bounds: Pieces { bytes: \
        [99], ends: [1] } }
    leaves | push 24 1; push 25 2; insert 0 26 3 | Seq { inner: [PostChild { page: 26, bound: 3 }, PostChild { page: \
        24, bound: 1 }, PostChild { page: 25, bound: 2 }] }
    leaves | push 25 7; insert 1 25 7; set 1 24 4294967295 | Seq { inner: [PostChild { page: 25, bound: 7 }, \
        PostChild { page: 24, bound: 4294967295 }] }
    leaves | push 25 7; insert 1 25 7; set 1 24 4294967295; remove 0 | Seq { inner: [PostChild { page: 24, bound: \
        4294967295 }] }
    changes | 7 7 7 7 | 4
";

/// What is done with a list.
#[derive(Clone, Copy)]
enum Verb {
    /// One thing more, after the others.
    Push,
    /// One thing more, in a place.
    Insert,
    /// Another thing in a place.
    Set,
    /// Other fields of the head in a place.
    Change,
    /// A place goes.
    Remove,
    /// What is in a place goes, and the place stays.
    Free,
    /// Strings more, after the others.
    Append,
    /// Strings in place of those from one place up to another.
    Splice,
    /// All from a place on go.
    Truncate,
}

/// The verb that is spelled so.
fn verb_of(word: &str) -> Verb {
    match word {
        "push" => Verb::Push,
        "insert" => Verb::Insert,
        "set" => Verb::Set,
        "change" => Verb::Change,
        "remove" => Verb::Remove,
        "free" => Verb::Free,
        "append" => Verb::Append,
        "splice" => Verb::Splice,
        _ => Verb::Truncate,
    }
}

/// A list of a page, changed in steps. A step that it has not, or in no place of it, changes nothing.
trait List {
    /// Makes a step in a place, with the words of what is put there.
    fn step(&mut self, alloc: Global, verb: Verb, k: usize, words: &str) -> Result<(), AllocError>;
}

/// The strings of words.
fn pieces_of(alloc: Global, words: &str) -> Result<Pieces, AllocError> {
    let mut pieces = Pieces::with_room(alloc, 2, words.len())?;
    for word in words.split_whitespace() {
        pieces.push(word.as_bytes())?;
    }
    Ok(pieces)
}

impl List for Pieces {
    fn step(&mut self, alloc: Global, verb: Verb, k: usize, words: &str) -> Result<(), AllocError> {
        match verb {
            Verb::Push => return self.push(words.as_bytes()),
            Verb::Append => return self.append(&pieces_of(alloc, words)?),
            Verb::Insert if k <= self.len() => return self.insert(k, words.as_bytes()),
            Verb::Set if k < self.len() => return self.set(k, words.as_bytes()),
            Verb::Splice => return splice(alloc, self, k, words),
            Verb::Remove if k < self.len() => self.remove(k),
            Verb::Truncate => self.truncate(k),
            _ => {}
        }
        Ok(())
    }
}

/// The strings of the other words in place of those up to the place of the first.
fn splice(alloc: Global, pieces: &mut Pieces, k: usize, words: &str) -> Result<(), AllocError> {
    let (end, rest) = word(words);
    let end = number(end) as usize;
    if k <= end && end <= pieces.len() {
        pieces.splice(k, end, &pieces_of(alloc, rest)?)?;
    }
    Ok(())
}

/// The head with the serial of the first word and the vector of the second.
fn head(words: &str) -> HeadRef<'_> {
    let (serial, vector) = word(words);
    let fields = HeadFields {
        serial: long(serial),
        inserted_by: 2,
        deleted_by: 0,
        overflow: 0,
        private: 0,
        bytes: 3,
    };
    HeadRef {
        fields,
        vector: vector.as_bytes(),
    }
}

/// The head of words, none for `-`.
fn slot(words: &str) -> Option<HeadRef<'_>> {
    if words == "-" {
        None
    } else {
        Some(head(words))
    }
}

impl List for Slots {
    fn step(&mut self, _: Global, verb: Verb, k: usize, words: &str) -> Result<(), AllocError> {
        match verb {
            Verb::Push => return self.push(slot(words)),
            Verb::Insert if k <= self.len() => return self.insert(k, slot(words)),
            Verb::Set if k < self.len() => return self.set(k, slot(words)),
            Verb::Change if k < self.len() => self.set_fields(k, head(words).fields),
            Verb::Free if k < self.len() => self.free(k),
            Verb::Remove if k < self.len() => self.remove(k),
            _ => {}
        }
        Ok(())
    }
}

/// The item of the first word, and the keys of the others.
fn row(alloc: Global, words: &str) -> Result<(u32, Pieces), AllocError> {
    let (item, rest) = word(words);
    let keys = pieces_of(alloc, rest)?;
    Ok((number(item), keys))
}

impl List for Rows {
    fn step(&mut self, alloc: Global, verb: Verb, k: usize, words: &str) -> Result<(), AllocError> {
        let (item, keys) = row(alloc, words)?;
        match verb {
            Verb::Push => return self.push(item, &keys),
            Verb::Insert if k <= self.len() => return self.insert(k, item, &keys),
            Verb::Set if k < self.len() => return self.set(k, item, &keys),
            Verb::Remove if k < self.len() => self.remove(k),
            _ => {}
        }
        Ok(())
    }
}

/// The postings of words: the page of a root after `root`, else the bytes of a list.
fn postings(words: &str) -> PostingsRef<'_> {
    match words.strip_prefix("root ") {
        Some(root) => PostingsRef::Root(number(root)),
        None => PostingsRef::Inline(words.as_bytes()),
    }
}

/// The entry of the first word's key and the postings of the others.
fn entry(words: &str) -> EntryRef<'_> {
    let (key, rest) = word(words);
    EntryRef {
        key: key.as_bytes(),
        postings: postings(rest),
    }
}

impl List for Entries {
    fn step(&mut self, _: Global, verb: Verb, k: usize, words: &str) -> Result<(), AllocError> {
        match verb {
            Verb::Push => return self.push(entry(words)),
            Verb::Insert if k <= self.len() => return self.insert(k, entry(words)),
            Verb::Set if k < self.len() => return self.set_postings(k, postings(words)),
            Verb::Remove if k < self.len() => self.remove(k),
            _ => {}
        }
        Ok(())
    }
}

/// The child of the first word's page and the second's bound.
fn child(words: &str) -> EntryChildRef<'_> {
    let (page, bound) = word(words);
    EntryChildRef {
        page: number(page),
        bound: bound.as_bytes(),
    }
}

impl List for EntryChildren {
    fn step(&mut self, _: Global, verb: Verb, k: usize, words: &str) -> Result<(), AllocError> {
        match verb {
            Verb::Push => return self.push(child(words)),
            Verb::Insert if k <= self.len() => return self.insert(k, child(words)),
            Verb::Set if k < self.len() => return self.set(k, child(words)),
            Verb::Remove if k < self.len() => self.remove(k),
            _ => {}
        }
        Ok(())
    }
}

/// The child of the first word's page and the second's item.
fn leaf(words: &str) -> PostChild {
    let (page, bound) = word(words);
    PostChild {
        page: number(page),
        bound: number(bound),
    }
}

impl List for PostChildren {
    fn step(&mut self, _: Global, verb: Verb, k: usize, words: &str) -> Result<(), AllocError> {
        match verb {
            Verb::Push => return self.push(leaf(words)),
            Verb::Insert if k <= self.len() => return self.insert(k, leaf(words)),
            Verb::Set if k < self.len() => self.set(k, leaf(words)),
            Verb::Remove if k < self.len() => self.remove(k),
            _ => {}
        }
        Ok(())
    }
}

/// The verb of a step, its place, and the words after it. A push or an append has no place.
fn parts(step: &str) -> (Verb, usize, &str) {
    let (verb, words) = word(step);
    let verb = verb_of(verb);
    if let Verb::Push | Verb::Append = verb {
        return (verb, 0, words);
    }
    let (place, rest) = word(words);
    (verb, number(place) as usize, rest)
}

/// Makes the steps of a list.
fn make_all<T: List>(alloc: Global, list: &mut T, steps: &str) -> Result<(), AllocError> {
    for step in steps.split(';') {
        let (verb, k, words) = parts(step.trim());
        list.step(alloc, verb, k, words)?;
    }
    Ok(())
}

/// Whether steps make a list of which a copy says what its row says.
fn comes_to<T: List + Clone + Debug + Drop>(
    alloc: Global,
    mut list: T,
    row: &str,
) -> Result<bool, AllocError> {
    let (steps, tells) = cut(row);
    make_all(alloc, &mut list, steps)?;
    let copy = list.clone()?;
    Ok(format!(in alloc; "{copy:?}")?.as_str() == tells)
}

/// Whether so many changes of pages are listed as their row says.
fn are_listed(alloc: Global, row: &str) -> Result<bool, AllocError> {
    let (pages, count) = cut(row);
    Ok(changes_of(alloc, pages, 0)?.len() == number(count) as usize)
}

/// Whether a row holds of a list of its kind.
pub(crate) fn holds(alloc: Global, row: &str) -> Result<bool, AllocError> {
    let (kind, rest) = cut(row);
    match kind {
        "pieces" => comes_to(alloc, Pieces::new(alloc), rest),
        "slots" => comes_to(alloc, Slots::new(alloc), rest),
        "rows" => comes_to(alloc, Rows::new(alloc), rest),
        "entries" => comes_to(alloc, Entries::with_room(alloc, 1, 1)?, rest),
        "children" => comes_to(alloc, EntryChildren::new(alloc), rest),
        "changes" => are_listed(alloc, rest),
        _ => comes_to(alloc, PostChildren::new(alloc), rest),
    }
}

#[test]
fn lists_hold_what_their_steps_make(rt: HostRuntime) -> Result<(), Fail> {
    try_rows(&rt, rt.alloc(), Kind::List, LISTS)?;
    Ok(())
}
