// Logs by their records, and what is asked of the state after them.
//
// A row is a call of the state before it. A record is its xid and kind, the pages that it changes, their first
// byte, and what the state says after it: how many records there are, the next numbers, the names that each commit
// deleted and inserted as page/slot#serial, the redo number where it isn't 1, and the old heap pages.

/// Whole logs, and records that no store would write.
pub(crate) const LOGS: &str = "\
    new 1000 16000000
    0 Create | 0 1 | 1 | 1: xid 1, serial 1, commits 0, heap
    1 Begin | | 0 | 2: xid 2, serial 1, commits 0, runs, heap
    1 PlaceHead 4096 1 | 2 | 2 | 3: xid 2, serial 2, commits 0, runs, heap 2
    2 Begin | | 0 | 4: xid 3, serial 2, commits 0, runs, heap 2
    2 PlaceHead 8192 2 | 4 | 2 | 5: xid 3, serial 3, commits 0, runs, heap 4
    1 PlaceHead 6144 3 | 3 | 2 | 6: xid 3, serial 4, commits 0, runs, heap 3
    1 PlaceHead 0 3 | | 2 | 7: xid 3, serial 4, commits 0, runs, heap 3
    1 Commit 2 | | 0 | 8: xid 3, serial 4, commits 0, runs, heap 3
    1 Commit 1 | | 0 | 9: xid 3, serial 4, commits 1, runs, - + 2/0#1 3/0#3, heap 3
    1 Commit 2 | | 0 | 10: xid 3, serial 4, commits 1, runs, - + 2/0#1 3/0#3, heap 3
    2 Abort | | 0 | 11: xid 3, serial 4, commits 1, - + 2/0#1 3/0#3, heap 3
    3 Begin | | 0 | 12: xid 4, serial 4, commits 1, runs, - + 2/0#1 3/0#3, heap 3
    3 MarkDeleted 4096 1 | 2 | 2 | 13: xid 4, serial 4, commits 1, runs, - + 2/0#1 3/0#3, heap 3
    3 Commit 2 | | 0 | 14: xid 4, serial 4, commits 2, - + 2/0#1 3/0#3, - 2/0#1 +, heap 3
    0 FreeSlots | 4 | 2 | 15: xid 4, serial 4, commits 2, - + 2/0#1 3/0#3, - 2/0#1 +, heap 3 4
    0 FreeSlots | 2 | 2 | 16: xid 4, serial 4, commits 2, - + 2/0#1 3/0#3, - 2/0#1 +, heap 3 2 4
    0 FreeSlots | 4 | 2 | 17: xid 4, serial 4, commits 2, - + 2/0#1 3/0#3, - 2/0#1 +, heap 3 2 4
    0 Checkpoint 9 | | 0 | 18: xid 4, serial 4, commits 2, - + 2/0#1 3/0#3, - 2/0#1 +, redo 9, heap 3 2 4
    fate 0 Unused
    fate 1 Committed(1)
    fate 2 Aborted
    fate 3 Committed(2)
    fate 4 Unused
    use 4 Used
    use 5 Unused
    limits 1000 16000000
    start 4
    new 1000 16000000
    4294967295 Begin | 4294967295 | 1 | 1: xid 1, serial 1, commits 0, heap
    4294967295 PlaceHead 4294967295 18446744073709551615 | 1048575 | 2 | 2: xid 1, serial 1, commits 0, heap
    4294967295 MarkDeleted 4294967295 1 | 1048576 | 9 | 3: xid 1, serial 1, commits 0, heap
    4294967295 Commit 4294967295 | | 0 | 4: xid 1, serial 1, commits 0, heap
    0 Abort | | 0 | 5: xid 1, serial 1, commits 0, heap
    7 Abort | | 0 | 6: xid 1, serial 1, commits 0, heap
    fate 4294967295 Unused
    use 1048575 Used
    use 1048576 Unused
    new 1000 16000000
    1 Begin | 2 | 2 | 1: xid 2, serial 1, commits 0, runs, heap
    1 PlaceHead 4096 1 | 3 | 2 | 2: xid 2, serial 2, commits 0, runs, heap 2
    2 Begin | 4 | 2 | 3: xid 3, serial 2, commits 0, runs, heap 2
    1 PlaceHead 4097 2 | 5 | 2 | 4: xid 3, serial 3, commits 0, runs, heap 2
    2 MarkDeleted 4096 1 | 6 | 2 | 5: xid 3, serial 3, commits 0, runs, heap 2
    1 PlaceHead 4098 3 | 7 | 2 | 6: xid 3, serial 4, commits 0, runs, heap 2
    1 Commit 1 | 8 | 2 | 7: xid 3, serial 4, commits 1, runs, - + 2/0#1 2/1#2 2/2#3, heap 2
    0 FreeSlots | 9 | 2 | 8: xid 3, serial 4, commits 1, runs, - + 2/0#1 2/1#2 2/2#3, heap 2 9
    2 Commit 2 | 10 | 2 | 9: xid 3, serial 4, commits 2, - + 2/0#1 2/1#2 2/2#3, - 2/0#1 +, heap 2 9
    3 Begin | 11 | 2 | 10: xid 4, serial 4, commits 2, runs, - + 2/0#1 2/1#2 2/2#3, - 2/0#1 +, heap 2 9
    0 Abort | 12 | 2 | 11: xid 4, serial 4, commits 2, - + 2/0#1 2/1#2 2/2#3, - 2/0#1 +, heap 2 9
    4 Begin | 13 | 2 | 12: xid 5, serial 4, commits 2, runs, - + 2/0#1 2/1#2 2/2#3, - 2/0#1 +, heap 2 9
    fate 3 Aborted
";

/// Which page is taken: the lowest that was deleted by a record of the number given at most, else the lowest unused
/// one.
pub(crate) const TAKEN: &str = "\
    new 6 16
    take 0 0
    0 Create | 0 1 | 1 | 1: xid 1, serial 1, commits 0, heap
    take 0 2
    0 DeletePost | 3 | 9 | 2: xid 1, serial 1, commits 0, heap
    take 1 2
    take 2 3
    0 DeletePost | 2 | 9 | 3: xid 1, serial 1, commits 0, heap
    take 1 4
    take 2 3
    take 3 2
    0 FreeSlots | 4 5 | 2 | 4: xid 1, serial 1, commits 0, heap 4 5
    take 1 full
    take 2 3
    take 4 2
    0 FreeSlots | 2 | 2 | 5: xid 1, serial 1, commits 0, heap 2 4 5
    take 5 3
    0 FreeSlots | 3 | 2 | 6: xid 1, serial 1, commits 0, heap 2 3 4 5
    take 6 full
    new 1 16
    0 Create | 0 1 | 1 | 1: xid 1, serial 1, commits 0, heap
    take 1 full
";

/// Which records may come next: each with its pages, these before and after it, since, and the call that finds it
/// valid.
///
/// Before the second `new` a transaction has placed a head in slot 0 of page 2, and then page 3 was deleted.
pub(crate) const VALID: &str = "\
    new 1000 16000000
    0 Create | 0 1 | 1 | 1: xid 1, serial 1, commits 0, heap
    1 Begin | | 0 | 2: xid 2, serial 1, commits 0, runs, heap
    1 PlaceHead 4096 1 | 2 | 2 | 3: xid 2, serial 2, commits 0, runs, heap 2
    0 DeletePost | 3 | 9 | 4: xid 2, serial 2, commits 0, runs, heap 2
    valid 1 PlaceHead 4097 2 | 2 | heap 0 First | heap 0 First New | 0 | PlaceHead
    valid 1 PlaceHead 4096 2 | 2 | heap 0 First | heap 0 New | 0 | none
    valid 1 PlaceHead 4098 2 | 2 | heap 0 First | heap 0 First New | 0 | none
    valid 1 PlaceHead 4097 2 | 2 | heap 0 First | heap 0 New New | 0 | none
    valid 1 PlaceHead 4097 2 | 2 | heap 0 First | heap 5 First New | 0 | none
    valid 1 PlaceHead 4097 2 | 4 | heap 0 First | heap 0 First New | 0 | none
    valid 1 PlaceHead 4097 2 | 2 | heap 0 First | heap 0 First Foreign | 0 | none
    valid 1 PlaceHead 4097 2 | 2 | heap 0 First | heap 0 First Marked | 0 | none
    valid 1 PlaceHead 4097 2 | 2 | heap 0 First | heap 0 First Long | 0 | none
    valid 1 PlaceHead 4097 2 | 2 | heap 0 First | heap 0 First Keyed | 0 | none
    valid 1 PlaceHead 4097 2 | 2 | leaf | heap 0 First New | 0 | none
    valid 1 PlaceHead 8192 2 | 4 | free | heap 0 New | 0 | PlaceHead
    valid 1 PlaceHead 8193 2 | 4 | free | heap 0 First New | 0 | none
    valid 1 PlaceHead 10240 2 | 5 | free | heap 0 New | 0 | none
    valid 1 PlaceHead 6144 2 | 3 | free | heap 0 New | 3 | none
    valid 1 PlaceHead 6144 2 | 3 | free | heap 0 New | 4 | PlaceHead
    valid 1 PlaceHead 8192 2 | 4 | free | leaf | 0 | none
    valid 2 Begin | | | | 9 | Begin
    valid 1 Begin | | | | 9 | none
    valid 3 Begin | | | | 9 | none
    valid 1 Commit 1 | | | | 9 | Commit
    valid 1 Commit 2 | | | | 9 | none
    valid 2 Commit 1 | | | | 9 | none
    valid 1 Abort | | | | 9 | Abort
    valid 0 Abort | | | | 9 | Abort
    valid 2 Abort | | | | 9 | none
    valid 0 Create | | | | 9 | none
    valid 1 Checkpoint 1 | | | | 9 | none
    new 1000 16000000
    valid 0 Create | 0 1 | | meta 0, leaf | 0 | Create
    valid 0 Create | 0 1 | | meta 2, leaf | 0 | none
    valid 0 Create | 0 1 | | meta 0, meta 0 | 0 | none
";
