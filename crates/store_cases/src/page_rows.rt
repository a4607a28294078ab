// Pages by their bytes up to the last that is not 0, and bytes that are no pages. Bytes are in hexadecimal.

/// Each kind of page: its name, what it says, and its bytes, which zeros follow.
pub(crate) const PAGES: &str = "\
    free | Page { right: 0, stamp: 0, body: Free } |
    meta | Page { right: 0, stamp: 12, body: Meta { first: 7, last: 9, pages: 3 } } | 01 00 0000 00000000 \
        0c00000000000000 0c00 000000000000 070000000900000003
    heap | Page { right: 0, stamp: 13, body: Heap(Slots { fields: [Some(HeadFields { serial: 1, inserted_by: 1, \
        deleted_by: 3, overflow: 0, private: 0, bytes: 22 }), None, Some(HeadFields { serial: 2, inserted_by: 2, \
        deleted_by: 0, overflow: 5, private: 8, bytes: 20044 })], vectors: Pieces { bytes: [2, 0, 0, 0, 3, 0, 99, \
        97, 116, 1, 0, 1, 0, 3, 0, 102, 97, 116, 1, 0, 2, 0], ends: [22, 22, 22] } }) } | 02 00 0300 00000000 \
        0d00000000000000 5100 000000000000 01010000000000000001000000030000 00000000000000000016000000020000 \
        00030063617401000100030066617401 00020000010200000000000000020000 000000000005000000080000004c4e
    overflow | Page { right: 4, stamp: 14, body: Overflow(Bytes { inner: [97, 98, 99, 100, 101, 102] }) } | 03 00 \
        0000 04000000 0e00000000000000 0600 000000000000 616263646566
    pending | Page { right: 9, stamp: 15, body: Pending(Rows { items: [4096, 4097], ends: [3, 4], keys: Pieces { \
        bytes: [0, 97, 0, 97, 98, 0, 98, 1], ends: [2, 5, 7, 8] } }) } | 04 00 0200 09000000 0f00000000000000 1c00 \
        000000000000 00100000030002000061030000616202 000062011000000100010001
    entry-leaf | Page { right: 12, stamp: 16, body: EntryLeaf { high: Bytes { inner: [0, 109] }, entries: Entries { \
        keys: Pieces { bytes: [0, 97, 0, 99, 97, 116, 0, 109], ends: [2, 6, 8] }, roots: [None, None, Some(11)], \
        lists: Pieces { bytes: [1, 127, 128, 1, 128, 128, 1], ends: [7, 7, 7] } } } } | 05 00 0300 0c000000 \
        1000000000000000 2400 000000000000 0200006d02000061000700017f800180 80010400006361740000000200006d01 0b
    entry-leaf-last | Page { right: 0, stamp: 17, body: EntryLeaf { high: Bytes { inner: [] }, entries: Entries { \
        keys: Pieces { bytes: [1], ends: [1] }, roots: [None], lists: Pieces { bytes: [129, 32], ends: [2] } } } } \
        | 05 00 0100 00000000 1100000000000000 0800 000000000000 0100010002008120
    entry-inner | Page { right: 0, stamp: 18, body: EntryInner(EntryChildren { pages: [20, 21, 22], bounds: Pieces \
        { bytes: [0, 102, 0, 109], ends: [2, 4, 4] } }) } | 06 00 0300 00000000 1200000000000000 1600 000000000000 \
        1400000002000066150000000200006d 16
    post-leaf | Page { right: 23, stamp: 19, body: PostLeaf { high: 16640, items: Bytes { inner: [1, 127, 128, 1, \
        128, 128, 1] } } } | 07 00 0400 17000000 1300000000000000 0b00 000000000000 00410000017f8001808001
    post-leaf-last | Page { right: 0, stamp: 20, body: PostLeaf { high: 0, items: Bytes { inner: [] } } } | 07 00 \
        0000 00000000 1400000000000000 04
    post-inner | Page { right: 0, stamp: 21, body: PostInner(Seq { inner: [PostChild { page: 24, bound: \
        256 }, PostChild { page: 25, bound: 4294967295 }] }) } | 08 00 0200 00000000 1500000000000000 1000 \
        000000000000 180000000001000019000000ffffffff
    deleted-pending | Page { right: 9, stamp: 22, body: Deleted(Pending(Rows { items: [4096], ends: [1], keys: \
        Pieces { bytes: [0, 97], ends: [2] } })) } | 09 04 0100 09000000 1600000000000000 0a00 000000000000 \
        00100000010002000061
    deleted-post-leaf | Page { right: 23, stamp: 23, body: Deleted(PostLeaf { high: 16640, items: Bytes { inner: [] \
        } }) } | 09 07 0000 17000000 1700000000000000 0400 000000000000 0041
    deleted-overflow | Page { right: 0, stamp: 24, body: Deleted(Overflow(Bytes { inner: [120, 121, 122] })) } | 09 \
        03 0000 00000000 1800000000000000 0300 000000000000 78797a
";

/// A page with other bytes from a place on: its name, the place, the bytes, where it is refused (`-`: it is not),
/// and what the bytes make of it.
pub(crate) const EDITS: &str = "\
    free 100 01 24 a byte that is not 0
    free 8 01 8 a stamp
    meta 0 0a 0 kind 10
    meta 1 03 1 was of a page that is not deleted
    meta 2 01 2 count 1
    meta 4 00001000 4 right link 1,048,576
    meta 16 0b00 35 a body of 11 bytes
    meta 16 0d00 36 a body of 13 bytes
    meta 16 e91f 16 a body of 8169 bytes
    meta 20 01 18 one of the six bytes
    meta 24 00001000 24 first page 1,048,576
    meta 32 ffffffff - a great number of pages
    meta 36 01 36 a byte behind the body
    heap 2 0200 76 one slot fewer than the body has
    heap 2 0400 105 one slot more
    heap 24 02 24 slot byte 2
    heap 41 00001000 41 overflow page 1,048,576
    heap 49 d1070000 53 a length of 2,001 with bytes behind it
    heap 49 15000000 76 a length of one less
    heap 53 ff - bytes that are no vector: a page all the same
    overflow 2 0100 2 count 1
    overflow 4 00000000 - no right link: a page all the same
    pending 28 0000 28 a row without keys
    pending 30 0300 35 a key that takes its neighbour's first byte
    pending 32 02 30 a key that begins with 2
    pending 33 ff 30 a key that is no text
    pending 33 62 34 keys that do not rise
    pending 24 00000080 24 item 2,147,483,648
    pending 24 01100000 - two rows of one item: a page all the same
    entry-leaf 4 00000000 28 a high key without a right link
    entry-leaf 26 01 24 a high key that is no key
    entry-leaf 31 6e 42 entries that do not rise
    entry-leaf 32 02 32 an entry of form 2
    entry-leaf 33 e903 33 a list of 1,001 bytes
    entry-leaf 35 00 35 a list that begins with the item 0
    entry-leaf 41 00 39 a last varbyte of 0
    entry-leaf-last 4 03000000 32 a right link without a high key
    entry-inner 2 0000 2 no child
    entry-inner 4 03000000 44 a last child without bound beside a right link
    entry-inner 31 7a 36 bounds that do not rise
    post-leaf 24 00000000 24 high item 0 beside a right link
    post-leaf 24 00010000 - an item above the high item: a page all the same
    post-leaf 2 0300 32 one item fewer than the list has
    post-leaf 28 80 35 a first varbyte with a zero behind it
    post-leaf-last 24 01000000 24 a high item without a right link
    post-inner 28 ffffffff 28 no limit for a child that is not the last
    post-inner 36 c8000000 36 bounds that do not rise
    deleted-pending 1 02 1 was Heap
    deleted-pending 1 00 1 was nothing
    heap 2 0108 2 2,049 slots
    meta 28 00001000 28 last page 1,048,576
    heap 45 00001000 45 private page 1,048,576
    heap 49 ff000000 105 a vector that passes the end of the body
    deleted-post-leaf 24 00000000 24 high item 0 beside a right link
    post-leaf 24 00000080 24 high item 2,147,483,648
    post-leaf 2 0500 35 one item more than the list has
    post-leaf 34 81 35 a list that ends within a varbyte
    entry-leaf 41 81 42 an inline list that ends within a varbyte
    entry-leaf 56 00001000 56 root 1,048,576
    entry-leaf 33 0600 41 an inline list of one byte less
    entry-inner 24 00001000 24 child 1,048,576
    entry-inner 28 0000 28 no bound for a child that is not the last
    post-inner 24 00001000 24 child 1,048,576
    post-inner 28 00000080 28 bound 2,147,483,648
    post-inner 4 03000000 36 no limit beside a right link
    free 1 03 1 was of a free page
    free 2 01 2 count of a free page
    free 4 01 4 right link of a free page
    free 16 01 24 a body of a free page
    overflow 30 01 30 a byte behind the body
    deleted-overflow 2 01 2 count of a deleted part of a vector
    pending 2 03 52 one row more
    pending 2 01 43 one row fewer
    deleted-pending 24 00000080 24 item 2,147,483,648
    deleted-pending 28 0000 28 a row without keys
    deleted-pending 32 02 30 a key that begins with 2
    deleted-post-leaf 2 01 28 one item more than the list has
    deleted-overflow 27 01 27 a byte behind the body
";
