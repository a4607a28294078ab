// The rows, and what their words stand for.

/// What is done with a device: how often, and how often where time is asked for, with what, and after `|` what is
/// printed after the first count. `new` begins another device; `log` puts bytes at a place of its log, which both its
/// numbers are. `insert` has the vector of the documents: `-` is the one without words, `long` one of a word of 2,046
/// letters, each time another, where it has none, each has eight words that are drawn, and of `half` about every other
/// one has the word `common` too. `search` has a query; both also print the serial of the last document that they
/// stored or found. `scan` has a query: it is printed how many documents are found, how many the judge does not leave
/// out, and how many heads and pages are read in how many steps. `clean` moves the pending list to the trees; it is
/// printed how many records it logs, and where no page or no byte of the log was left. Its words are how many pages
/// there may be, and how many bytes. `tree` has a word: it is printed how many items the trees have for it, and how
/// many pages are read, the leftmost way and all leaves, and so of the word's posting tree. `judge` has a query: it is
/// printed how many documents the model doesn't leave out, and of how many it is sure without their vector; the log is
/// legal, each document in one part of the index after each record, and each judged rightly. `bad` has a query: it is
/// printed which page a scan for it calls bad. `hold` holds a page.
///
/// `turn` has a task and a query: a scan for it and the task take turns, by two passes, after each number of the scan's
/// steps below that of the row, with each of some numbers of those of the task before each other one; it is printed in
/// how many such runs the scan finds something else than alone, and how many items the task found dead. The task
/// `clean` is a cleanup that has begun before the scan; `vacuum` is a whole vacuum that begins after it; `sweep` takes
/// out what was dead before the scan began, as far as it has no linked row, and is then a cleanup; `delete` deletes the
/// first document that the scan finds, after it has begun, and is then a whole vacuum, to which the document is not
/// dead. `during` has a task and a query too: the scan begins, all of the task comes, and then the scan goes on to its
/// end; the device is left so. `slot` has a query: the slot of the last document that is found is printed, and its
/// serial.
///
/// `delete` has a number and a query: of the documents that are found the first one is deleted, and then each that is
/// so many after it; the serial of the last one is printed too. `vacuum` takes out what is dead; its words are those of
/// `clean`, and it is printed how many records it logs.
///
/// `place` puts items, that no row has, under so many keys: its words are how many letters each has, the first item,
/// how many there are, the step from one to the next, how many are put at once, and then those of `clean`. It is
/// printed how many records that takes. `fail` has `place` or `clean` before the words of that, which is not done with
/// the device but with images of it: each call of the device fails in turn, and what is left takes the work again.
///
/// No head is read for a word that no document has. 816 rows of one key of a letter have room on a page, and 204 heads
/// with their vectors: so 2,000 documents have 3 pages of the list and 10 heap pages, and the metapage is read too.
///
/// A document is deleted while a scan for it has its snapshot: the vacuum then leaves its slot and its item, and the
/// scan finds it. To the next vacuum it is dead, and the next insert takes its slot.
///
/// In the log are three inserts: the second one, of `b:1`, is aborted when its row is linked. The row stays, and the
/// document is never found.
///
/// In three logs is no insert, but the root of the tree of keys is no lawful one: it is its own child, it names page 5,
/// which no record changed, as a posting tree of `a`, or its right link leads to itself.
///
/// 995 documents of one word make a list of 1000 bytes, and with one more the list is a posting tree. A leaf of it has
/// room for some 8,100 of these items. 9,000 documents of two words are on 54 heap pages and 16 of the list, so that of
/// 73 pages there are two for the trees; what comes into them stays there, and the rest comes with more pages.
///
/// The word of the first key of `place` is `100000`. In one store its tree is a leaf, the root, with items of 100
/// documents and others before and after them; with 150 documents more the root grows and the leaf splits. In another
/// one the others are numbers of slots that heap pages don't have, so that a scan for the word reads these pages and
/// finds no document there. Three leaves come of them: the second one has items of documents alone that are deleted,
/// and goes; the third one is all but full, and items of 140 documents more, which lie between its own, split it.
pub(crate) const ROWS: &str = "\
    new
    insert 1 1 a:1 b:2 | insert of a and b
    search 1 1 b | with b
    new
    scan 1 1 a | with a among none
    insert 2000 2000 b:1 | inserts of b
    scan 1 1 a | with a
    scan 1 1 a & b | with a and b
    scan 1 1 b | with b
    scan 1 1 !a | without a
    insert 1 1 a:1 | insert of a
    scan 1 1 a | with a
    scan 1 1 a & b | with a and b
    new
    log 0 0 0147494e53482053544f5245203030303101b7e00000184000000100000000010000000000000002000000000001
    log 53 53 01000000000000000c
    log 8237 8237 0100000000050000000000000001
    log 16434 16434 0e00000002010000000200000000000000001f200000060100000003000000000000000010000001000000000000
    log 16481 16481 01020000000002000100000000000300000000000000280000000000000001010000000000000001000000000000
    log 16536 16536 0b00000001000000010061010001
    log 24679 24679 24400000090100000004000000000000000010000001000000000000000202000000000200010000000000040000
    log 24730 24730 2800000000000000010100000000000000010000000000000000000000030000000b000000010000000100610100
    log 24776 24776 01
    log 32906 32906 0300000000040001000000000004000000000000000a0000000000000000100000010002000061
    log 41103 41103 244000000b0100000005000000000000000010000001000000000000000202000000000200010000000000050000
    log 41154 41154 2800000000000000010100000000000000010000000000000000000000000000000b000000010000000100610100
    log 41200 41200 01
    log 49335 49335 010000000000000005000000000000000c00000000000000030000000300000001
    log 57527 57527 1200000003010000000600000000000000010000000001d88000000e00000002020000000700000000000000001f
    log 57573 57573 20000006020000000800000000000000011000000200000000000000010200000000020002000000000008000000
    log 57623 57623 5000000000000000010100000000000000010000000000000000000000000000000b000000010000000100610100
    log 57669 57669 0100010200000000000000020000000000000000000000000000000b00000001000000010062010001
    log 65799 65799 1f2000000a0200000009000000000000000110000002000000000000000103000000000400020000000000090000
    log 65850 65850 14000000000000000010000001000200006101100000010002000062
    log 74026 74026 0e00000004020000000a00000000000000000e00000002030000000b00000000000000001f20000006030000000c
    log 74079 74079 02100000030000000000000001020000000002000300000000000c00000000000000780000000000000001010000
    log 74130 74130 010000000000000000000000000000000b0000000100000001006101000100010200000000000000020000000000
    log 74186 74186 0b0000000100000001006201000100010300000000000000030000000000000000000000000000000b0000000100
    log 74234 74234 010063010001
    log 82289 82289 1f2000000a030000000d0000000000000002100000030000000000000001030000000004000300000000000d0000
    log 82340 82340 1e00000000000000001000000100020000610110000001000200006202100000010002000063
    log 90516 90516 1200000003030000000e00000000000000020000000000
    scan 1 1 a | with a in the log
    scan 1 1 b | with b, whose insert is aborted
    scan 1 1 c | with c
    scan 1 1 !z | without z
    insert 1 1 b:1 | insert of b
    scan 1 1 b | with b
    new
    log 0 0 0147494e53482053544f52452030303031011c400000184000000100000000010000000000000002000000000001
    log 53 53 01000000000000000c
    log 8237 8237 0100000000060001000000000001000000000000000600000000000000010000000000
    log 16434 16434 00
    scan 1 1 a | with a in a tree that leads back
    new
    log 0 0 0147494e53482053544f52452030303031011c400000184000000100000000010000000000000002000000000001
    log 53 53 01000000000000000c
    log 8237 8237 0100000000050001000000000001000000000000000900000000000000020000610105000000
    log 16434 16434 00
    bad 1 1 a | is a root that is no posting page
    new
    log 0 0 0147494e53482053544f52452030303031011c400000184000000100000000010000000000000002000000000001
    log 53 53 01000000000000000c
    log 8237 8237 0100000000050001000100000001000000000000000d0000000000000002000062020000610002008020
    log 16434 16434 00
    scan 1 1 b:* | with b at a leaf that leads to itself
    new
    insert 1 1 - | insert of no word
    clean 1 1 | records of a cleanup
    tree 1 1 - | items of the placeholder
    new
    insert 995 995 a:1 | inserts of a
    clean 1 1 | records of a cleanup
    tree 1 1 a | items of a
    scan 1 1 a | with a
    clean 1 1 | records of a cleanup
    insert 1 1 a:1 | insert of a
    clean 1 1 | records of a cleanup
    tree 1 1 a | items of a
    scan 1 1 a | with a
    scan 1 1 !b | without b
    judge 1 1 a | with a to the model
    insert 500 500 a:1 b:1 | inserts of a and b
    scan 1 1 a & !b | with a without b
    clean 1 1 | records of a cleanup
    tree 1 1 a | items of a
    tree 1 1 b | items of b
    scan 1 1 a & !b | with a without b
    judge 1 1 a & !b | with a without b to the model
    new
    insert 9000 9000 a:1 b:1 | inserts of a and b
    clean 1 1 73 | records of a cleanup on 73 pages
    tree 1 1 a | items of a
    scan 1 1 a & b | with a and b
    clean 1 1 | records of a cleanup
    tree 1 1 a | items of a
    tree 1 1 b | items of b
    scan 1 1 a & b | with a and b
    search 1 1 a | with a
    delete 1 1 1 a | deletions of all
    vacuum 1 1 | records of a vacuum
    tree 1 1 a | items of a
    insert 10 10 a:1 | inserts of a
    clean 1 1 | records of a cleanup
    tree 1 1 a | items of a
    scan 1 1 a | with a
    judge 1 1 a | with a to the model
    new
    insert 8 8 long | inserts of long words
    turn 99 99 clean !z | without z
    clean 1 1 16 | records of a cleanup
    scan 1 1 !z | without z
    clean 1 1 65536 520000 | records of a cleanup
    scan 1 1 !z | without z
    clean 1 1 | records of a cleanup
    tree 1 1 * | items of all keys
    scan 1 1 !z | without z
    judge 1 1 !z | without z to the model
    new
    insert 200 200 | inserts of eight words
    turn 99 99 clean w2:* | with a word that begins with w2
    turn 99 99 clean w241 & !w5 | with w241 and without w5
    clean 1 1 | records of a cleanup
    judge 1 1 w2* | with a word that begins with w2 to the model
    new
    insert 996 996 a:1 | inserts of a
    turn 8 8 clean a | with a
    new
    insert 8 8 long | inserts of long words
    delete 1 1 2 !z | deletions of each other one
    turn 99 99 vacuum !z | without z
    turn 99 99 sweep !z | without z
    clean 1 1 | records of a cleanup
    insert 4 4 long | inserts of long words
    turn 99 99 vacuum !z | without z
    turn 99 99 sweep !z | without z
    new
    insert 300 300 a:1 | inserts of a
    clean 1 1 | records of a cleanup
    delete 1 1 3 a | deletions of each third one
    insert 30 30 a:1 | inserts of a
    turn 99 99 vacuum a | with a
    turn 99 99 sweep a | with a
    new
    insert 100 100 100000:1 b:1 | inserts of 100000 and b
    clean 1 1 | records of a cleanup
    place 1 1 6 1 3900 1 3900 | records of items before theirs
    place 1 1 6 2048001 4100 1 4100 | records of items after theirs
    tree 1 1 100000 | items of 100000
    insert 150 150 100000:1 b:1 | inserts of both
    turn 99 99 clean 100000 & b | with both
    clean 1 1 | records of a cleanup
    tree 1 1 100000 | items of 100000
    new
    insert 360 360 100000:1 b:1 | inserts of 100000 and b
    clean 1 1 | records of a cleanup
    place 1 1 6 4253 1891 1 1891 | records of items on page 2
    place 1 1 6 8349 1700 1 1700 | records of items on page 4
    insert 4200 4200 100000:1 | inserts of 100000
    insert 720 720 100000:1 b:1 | inserts of both
    clean 1 1 | records of a cleanup
    place 1 1 6 10049 60 1 60 | records of items on page 4
    place 1 1 6 75933 1891 1 1891 | records of items on page 37
    place 1 1 6 80029 1891 1 1891 | records of items on page 39
    place 1 1 6 82077 1891 1 1891 | records of items on page 40
    place 1 1 6 86173 1650 1 1650 | records of items on page 42
    place 1 1 6 89064 50 1 50 | records of items on page 43
    tree 1 1 100000 | items of 100000
    delete 1 1 1 !b | deletions of those without b
    insert 140 140 100000:1 b:1 | inserts of both
    turn 9 9 sweep 100000 | with 100000
    turn 3 3 vacuum 100000 | with 100000
    vacuum 1 1 | records of a vacuum
    tree 1 1 100000 | items of 100000
    scan 1 1 100000 | with 100000
    new
    insert 2 2 long | inserts of long words
    insert 2 2 a:1 b:1 | inserts of a and b
    fail 1 1 clean | items of a cleanup
    new
    place 24 24 2046 1 1 1 1 | records of 24 long keys
    place 24 24 2046 1 1 1 1 | records of them once more
    tree 1 1 * | items of all keys
    new
    place 24 24 2046 1 1 1 1 16 | records of long keys on 16 pages
    place 24 24 2046 1 1 1 1 | records of the rest, on more pages
    tree 1 1 * | items of all keys
    new
    place 24 24 2046 1 1 1 1 65536 300000 | records of long keys in a short log
    place 24 24 2046 1 1 1 1 | records of the rest, in a longer one
    tree 1 1 * | items of all keys
    new
    place 1 1 6 1 5000 1 5000 | records of 5,000 items of a new key
    tree 1 1 100000 | items of the key
    new
    place 1 1 6 1 10 1 10 | records of ten items
    place 1 1 6 11 5000 1 5000 | records of 5,000 more
    tree 1 1 100000 | items of the key
    new
    place 1 1 6 1 40000 1 40000 | records of 40,000 items at once
    place 1 1 6 1 40000 1 40000 | records of them once more
    tree 1 1 100000 | items of the key
    new
    place 1 1 6 1 40000 1 1000 | records of 40,000 items in 40 parts
    tree 1 1 100000 | items of the key
    new
    place 1 1 6 2 40000 2 40000 | records of 40,000 even items
    place 1 1 6 1 40000 2 40000 | records of the odd ones
    tree 1 1 100000 | items of the key
    new
    place 2 2 6 1 9000 1 9000 | records of 9,000 items of two keys
    tree 1 1 100000 | items of the first key
    tree 1 1 100001 | items of the second
    new
    place 1 1 6 1 40000 1 40000 5 | records of 40,000 items on five pages
    tree 1 1 100000 | items of the key
    place 1 1 6 1 40000 1 40000 | records of the rest, on more pages
    tree 1 1 100000 | items of the key
    new
    fail 5 5 place 2046 1 1 1 1 | items of five long keys
    fail 1 1 place 6 1 5000 1 1000 | items of one key
    place 1 1 6 2 9000 2 9000 | records of 9,000 even items
    fail 1 1 place 6 1 9000 2 3000 | items with the odd ones, in three parts
    new
    insert 9 9 a:1 | inserts of a
    delete 1 1 3 a | deletions of each third one
    scan 1 1 a | with a
    vacuum 1 1 | records of a vacuum
    tree 1 1 a | items of a
    scan 1 1 a | with a
    vacuum 1 1 | records of one more
    insert 3 3 b:1 | inserts of b
    scan 1 1 b | with b
    scan 1 1 !b | without b
    judge 1 1 !b | without b to the model
    new
    insert 3000 3000 a:1 | inserts of a
    clean 1 1 | records of a cleanup
    delete 1 1 2 a | deletions of each other one
    vacuum 1 1 | records of a vacuum
    tree 1 1 a | items of a
    scan 1 1 a | with a
    delete 1 1 1 a | deletions of the rest
    vacuum 1 1 | records of a vacuum
    tree 1 1 a | items of a
    insert 1000 1000 a:1 | inserts of a
    clean 1 1 | records of a cleanup
    tree 1 1 a | items of a
    scan 1 1 a | with a
    judge 1 1 a | with a to the model
    new
    insert 8 8 long | inserts of long words
    delete 1 1 1 !z | deletions of them
    vacuum 1 1 16 | records of a vacuum on 16 pages
    vacuum 1 1 65536 520000 | records of the rest in a short log
    vacuum 1 1 | records of the rest
    tree 1 1 * | items of all keys
    new
    insert 2 2 long | inserts of long words
    insert 4 4 a:1 b:1 | inserts of a and b
    delete 1 1 2 !z | deletions of each other one
    fail 1 1 vacuum | items of a vacuum
    new
    insert 8 8 long | inserts of long words
    clean 1 1 | records of a cleanup
    insert 4 4 long | inserts of long words
    turn 99 99 delete !z | without z, one of which is deleted
    new
    insert 1 1 a:1 | insert of a
    slot 1 1 a | is the slot of the document with a
    insert 3 3 a:1 | inserts of a
    clean 1 1 | records of a cleanup
    during 1 1 delete a | with a, one of which is deleted
    search 1 1 a | with a
    tree 1 1 a | items of a
    during 1 1 vacuum a | with a
    tree 1 1 a | items of a
    search 1 1 a | with a
    insert 1 1 b:1 | insert of b
    slot 1 1 b | is the slot of the document with b
    judge 1 1 !b | without b to the model
    new
    insert 1000 20000 | inserts of eight words
    search 1 100 w241 | with w241
    search 1 100 z | with z
    search 1 100 w241 & w5 | with w241 and w5
    search 1 100 w241 | w5 | with w241 or w5
    search 1 100 w24:* | with a word that begins with w24
    search 1 100 !w241 | without w241
    search 1 100 w241 <-> w5 | with w241 before w5
    hold 1000 1000000 | holds
    scan 1 1 w241 | with w241
    scan 1 1 z | with z
    scan 1 1 w241 & w5 | with w241 and w5
    scan 1 1 w241 | w5 | with w241 or w5
    scan 1 1 w24:* | with a word that begins with w24
    scan 1 1 !w241 | without w241
    scan 1 1 w241 <-> w5 | with w241 before w5
    clean 1 1 | records of a cleanup
    tree 1 1 w241 | items of w241
    scan 1 1 w241 | with w241
    scan 1 1 z | with z
    scan 1 1 w241 & w5 | with w241 and w5
    scan 1 1 w24:* | with a word that begins with w24
    scan 1 1 !w241 | without w241
    search 1 1000 w241 | with w241
    search 1 1000 z | with z
    search 1 1000 w241 & w5 | with w241 and w5
    search 1 100 w24:* | with a word that begins with w24
    search 1 1000 w241 <-> w5 | with w241 before w5
    search 1 1000 w241 & !w5 | with w241 and without w5
    search 1 10 !w241 | without w241
    vacuum 1 1 | records of a vacuum of nothing
    delete 1 1 3 !z | deletions of each third one
    vacuum 1 1 | records of a vacuum
    search 1 1000 w241 | with w241
    search 1 10 !w241 | without w241
    new
    insert 1000 20000 common:1 | inserts of one word
    clean 1 1 | records of a cleanup
    tree 1 1 common | items of the word
    search 1 100 common | with the word
    delete 1 1 1 common | deletions of all
    vacuum 1 1 | records of a vacuum
    search 1 100 common | with the word
    new
    insert 1000 20000 half | inserts of eight words, half of them with one more
    clean 1 1 | records of a cleanup
    insert 100 1000 half | more of them
    clean 1 1 | records of a cleanup
    tree 1 1 common | items of the word
    search 1 100 common | with the word
";

/// The first word, and the words after it.
pub(crate) fn word(words: &str) -> (&str, &str) {
    words.split_once(' ').unwrap_or((words, ""))
}

/// The number that a word is; the greatest where it is none.
pub(crate) fn number(word: &str) -> u32 {
    word.parse().unwrap_or(u32::MAX)
}

/// A row: what is done, how often, with what, and what is printed after its count. The number of bytes for the log is
/// their place.
#[derive(Clone, Copy)]
pub(crate) struct Row<'a> {
    pub(crate) verb: &'a str,
    pub(crate) times: u32,
    pub(crate) words: &'a str,
    pub(crate) title: &'a str,
}

impl<'a> Row<'a> {
    /// The row of a line, which is done as often as it says where time is asked for, or where not.
    pub(crate) fn new(line: &'a str, is_timed: bool) -> Row<'a> {
        let (words, title) = line.rsplit_once(" | ").unwrap_or((line, ""));
        let (verb, words) = word(words);
        let (some, words) = word(words);
        let (many, words) = word(words);
        let times = if is_timed { many } else { some };
        Row {
            verb,
            times: number(times),
            words,
            title,
        }
    }
}
