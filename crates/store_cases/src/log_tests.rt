// The log by its calls: what waited is one batch, what is no log is refused, and what a fault or a crash leaves.
ghost use Rattle.std.specs.Prelude.{◌≡◌, ◌+◌, ◌^◌, ◌<◌, ◌≤◌, length, true, IfOk};
ghost use Rattle.disk_trait.specs.Files.{file_limit};
ghost use Rattle.disk_trait.specs.MemoryDisk.{clock_of};
ghost use Rattle.wal.specs.Waiting.{IsReadToEnd, waiting};

use crate::rows::{bytes_of, cut, long, see, word};
use crate::silent::Silent;
use disk_trait::{Disk, File, MemoryDisk};
use std::alloc::Global;
use std::process::Abort;
use std::test::Fail;
use wal::{AppendError, FlushError, LOG_LIMIT, MOST_WAITING, ReadError, Wal};

/// What is cut short before a log was there, and over which one is created.
const CUT_SHORT: &str = "\
    00*0 01*0 09*0
    00*1 01*1 09*1
    00*2 01*2 09*2
    00*3 01*3 09*3
    00*4 01*4 09*4
    00*5 01*5 09*5
    00*6 01*6 09*6
    00*7 01*7 09*7
    00*8 01*8 09*8
    00*9 01*9 09*9
    00*10 01*10 09*10
    00*11 01*11 09*11
    00*12 01*12 09*12
    00*13 01*13 09*13
    00*14 01*14 09*14
    00*15 01*15 09*15
    00*16 01*16 09*16
    00*17 01*17 09*17
    00*18 09*18
";

/// Bytes with the batches of their log, each with its length before it, or that are refused. What is after a
/// an unset commit byte is not looked at.
const OPENED: &str = "\
    00*19 | refused
    01 47494e53482053544f52452030303032 00 | refused
    01 47494e534820445241465420 30303031 00 | refused
    01 47494e534820445241465420 30303032 00 | refused
    01 47494e534820445241465420 30303035 00 | refused
    01 47494e53482053544f524520 30303031 01 00*5 | refused
    01 47494e53482053544f524520 30303031 01 05000000 616263 00 | refused
    01 47494e53482053544f524520 30303031 01 02000000 6162 | refused
    01 47494e53482053544f524520 30303031 01 02000000 6162 01 | refused
    01 47494e53482053544f524520 30303031 01 0200 | refused
    01 47494e53482053544f524520 30303031 01 02000000 6162 02 78797a | 02 6162
";

/// Calls of a log with what each gives. `new` begins another log, on a device of its own, with a limit or with the
/// highest; it is ready after ten calls. `holds` and `batches` look at all bytes of a short log, and at its
/// batches.
///
/// What waited is one batch, and where nothing waits a flush calls no device. With a commit byte, a length, three bytes
/// and the next commit byte after its header a log has 26 bytes. A flush comes first where much waits.
const CALLS: &str = "\
    new
    append ok 6162
    append ok 63
    calls 10
    flush
    calls 14
    append ok 64
    flush
    calls 18
    flush
    calls 18
    holds 01 47494e53482053544f524520 30303031 01 03000000 616263 01 01000000 64 00
    batches 03 616263 01 64
    new 26
    append full 61626364
    append ok 616263
    append full 64
    flush
    append full
    batches 03 616263
    new
    append ok 07*4194303
    append ok 61
    calls 10
    append ok 62
    calls 14
    flush
    length 4194333
";

/// A device whose log holds these bytes.
fn holding(alloc: Global, bytes: &[u8]) -> Result<Silent, ReadError>
    requires { length bytes.now ≤ file_limit }
{
    let mut disk = Silent(MemoryDisk::new(alloc, Vec::new(alloc)));
    disk.write_at(File::Log, 0, bytes)?;
    disk.sync(File::Log)?;
    Ok(disk)
}

/// The log's bytes, of which there are few, and how many they are; none but more where they are not read.
fn content(disk: &mut Silent) -> ([u8; 64], usize) {
    let mut bytes = [0u8; 64];
    let n = disk.read(File::Log, 0, &mut bytes).unwrap_or(usize::MAX);
    (bytes, n)
}

/// Whether the log has these bytes.
fn has(disk: &mut Silent, wanted: &[u8]) -> bool {
    let (bytes, n) = content(disk);
    bytes.get(..n) == Some(wanted)
}

/// A log without a batch, that is created, and ready for entries.
fn create_ready<D: Disk>(alloc: Global, disk: &mut D, limit: u64) -> Result<Wal, ReadError>
    requires untold { D.tells → ⊥ }
    requires limit { limit ≤ LOG_LIMIT }
    ensures { IfOk result IsReadToEnd }
{
    Wal::create(disk)?;
    let mut out = Vec::new(alloc);
    let mut wal = Wal::open(alloc, disk, limit)?;
    match wal.read_batch(disk, &mut out) {
        Ok(false) => Ok(wal),
        Ok(true) => Err(ReadError::NotAStore),
        Err(e) => Err(e),
    }
}

/// The batches of a log, one after another, in one list with their lengths before them.
fn batches(alloc: Global, disk: &mut Silent) -> Result<Vec<u8>, ReadError> {
    let mut wal = Wal::open(alloc, disk, LOG_LIMIT)?;
    let mut all = Vec::new(alloc);
    let mut out = Vec::new(alloc);
    for _ in 0..100 {
        if !wal.read_batch(disk, &mut out)? {
            break;
        }
        let short = (out.len() % 256) as u8;
        all.extend_from_slice(&[short])?;
        all.extend_from_slice(&out)?;
    }
    Ok(all)
}

/// Whether a log is created on a device.
fn is_created(alloc: Global, disk: &mut Silent) -> Result<bool, ReadError> {
    Wal::create(disk)?;
    let is_new = has(disk, b"\x01GINSH STORE 0001\0");
    Ok(is_new && batches(alloc, disk)?.is_empty())
}

/// Whether a log is created over these bytes.
fn is_created_over(alloc: Global, word: &str) -> Result<bool, ReadError> {
    let bytes = bytes_of(alloc, word)?;
    if MOST_WAITING < bytes.len() {
        return Ok(false);
    }
    let mut disk = holding(alloc, &bytes)?;
    is_created(alloc, &mut disk)
}

/// Whether the log of a device has batches with these bytes.
fn are_batches(alloc: Global, disk: &mut Silent, words: &str) -> Result<bool, ReadError> {
    let wanted = bytes_of(alloc, words)?;
    Ok(batches(alloc, disk)? == wanted)
}

/// Whether the log of a device has these batches, or is refused as no store.
fn has_batches(alloc: Global, disk: &mut Silent, words: &str) -> Result<bool, ReadError> {
    if words == "refused" {
        return Ok(batches(alloc, disk).err() == Some(ReadError::NotAStore));
    }
    are_batches(alloc, disk, words)
}

/// Whether bytes are a log with the batches that its row says, or are refused as no store.
fn is_opened(alloc: Global, row: &str) -> Result<bool, ReadError> {
    let (words, wanted) = cut(row);
    let log = bytes_of(alloc, words)?;
    if MOST_WAITING < log.len() {
        return Ok(false);
    }
    let mut disk = holding(alloc, &log)?;
    has_batches(alloc, &mut disk, wanted)
}

/// Flushes a log in which much waits; whether there is little then.
fn makes_room(wal: &mut Wal, disk: &mut Silent) -> bool
    requires { IsReadToEnd wal.old }
    ensures ready { IsReadToEnd wal.new }
    ensures room { result ≡ true → length (waiting wal.new) < MOST_WAITING }
{
    wal.waits() < MOST_WAITING || wal.flush(disk).is_ok()
}

/// Whether an append is done where it has room, and is refused where it has none. A flush comes first where much
/// waits.
fn appends(wal: &mut Wal, disk: &mut Silent, entry: &[u8], room: bool) -> bool
    requires { IsReadToEnd wal.old }
    ensures { IsReadToEnd wal.new }
{
    if MOST_WAITING < entry.len() {
        return false;
    }
    if !makes_room(wal, disk) {
        return false;
    }
    match wal.append(entry) {
        Ok(()) => room,
        Err(e) => !room && e == AppendError::LogFull,
    }
}

/// Begins another log.
fn renew(alloc: Global, wal: &mut Wal, disk: &mut Silent, limit: u64) -> Result<(), ReadError>
    requires { IsReadToEnd wal.old }
    ensures { IsReadToEnd wal.new }
{
    *disk = Silent(MemoryDisk::new(alloc, Vec::new(alloc)));
    *wal = create_ready(alloc, disk, limit.min(LOG_LIMIT))?;
    Ok(())
}

/// Whether an append of the bytes of a word is done, or is refused, as its row says.
fn puts(alloc: Global, wal: &mut Wal, disk: &mut Silent, words: &str) -> Result<bool, ReadError>
    requires { IsReadToEnd wal.old }
    ensures { IsReadToEnd wal.new }
{
    let (outcome, entry) = word(words);
    let bytes = bytes_of(alloc, entry)?;
    Ok(appends(wal, disk, &bytes, outcome == "ok"))
}

/// Whether the log has the bytes of these words.
fn holds(alloc: Global, disk: &mut Silent, words: &str) -> Result<bool, ReadError> {
    let wanted = bytes_of(alloc, words)?;
    Ok(has(disk, &wanted))
}

/// Whether a look at a device gives what its row says.
fn tells(alloc: Global, disk: &mut Silent, verb: &str, words: &str) -> Result<bool, ReadError> {
    match verb {
        "calls" => Ok(disk.0.calls() == long(words)),
        "length" => Ok(disk.length(File::Log) == Ok(long(words))),
        "holds" => holds(alloc, disk, words),
        _ => are_batches(alloc, disk, words),
    }
}

/// Whether a call gives what its row says.
fn gives(alloc: Global, wal: &mut Wal, disk: &mut Silent, row: &str) -> Result<bool, ReadError>
    requires { IsReadToEnd wal.old }
    ensures { IsReadToEnd wal.new }
{
    let (verb, rest) = word(row);
    match verb {
        "new" => {
            renew(alloc, wal, disk, long(rest))?;
            Ok(true)
        }
        "append" => puts(alloc, wal, disk, rest),
        "flush" => Ok(wal.flush(disk).is_ok()),
        _ => tells(alloc, disk, verb, rest),
    }
}

/// Each call gives what its row says.
fn follow(rt: &impl Abort, alloc: Global, rows: &str) -> Result<(), Fail> {
    let mut disk = Silent(MemoryDisk::new(alloc, Vec::new(alloc)));
    let mut wal = create_ready(alloc, &mut disk, LOG_LIMIT)?;
    for row in rows.lines() {
        see(rt, gives(alloc, &mut wal, &mut disk, row.trim())?, row);
    }
    Ok(())
}

#[test]
fn a_log_keeps_what_was_flushed(rt: HostRuntime) -> Result<(), Fail> {
    let alloc = rt.alloc();
    for word in CUT_SHORT.split_whitespace() {
        see(&rt, is_created_over(alloc, word)?, word);
    }
    for row in OPENED.lines() {
        see(&rt, is_opened(alloc, row.trim())?, row);
    }
    follow(&rt, alloc, CALLS)
}

/// An entry in a flush of its own.
fn put<D: Disk>(wal: &mut Wal, disk: &mut D, entry: &[u8]) -> bool
    requires ready { IsReadToEnd wal.old }
    requires short { length entry.now ≤ MOST_WAITING }
    ensures { IsReadToEnd wal.new }
{
    if wal.waits() >= MOST_WAITING {
        return false;
    }
    if wal.append(entry).is_err() {
        return false;
    }
    wal.flush(disk).is_ok()
}

/// Two entries in flushes of their own. Where the device fails, the log is down from then on.
fn run<D: Disk>(alloc: Global, disk: &mut D) -> Result<u8, u8>
    requires { D.tells → ⊥ }
{
    let Ok(mut wal) = create_ready(alloc, disk, LOG_LIMIT) else {
        return Err(0);
    };
    if put(&mut wal, disk, b"ab") && put(&mut wal, disk, b"c") {
        return Ok(2);
    }
    Err(is_down(&mut wal, disk))
}

/// 1 where both calls answer the count just after the fault, and call no device; else 9.
fn is_down<D: Disk>(wal: &mut Wal, disk: &mut D) -> u8
    requires { IsReadToEnd wal.old }
{
    if wal.waits() >= MOST_WAITING {
        return 9;
    }
    let appended = wal.append(b"x");
    let flushed = wal.flush(disk);
    if appended == Err(AppendError::Down { fault: 1 })
        && flushed == Err(FlushError::Down { fault: 1 })
    {
        1
    } else {
        9
    }
}

/// Creation makes seven calls, opening two, reading one, and each flush four.
#[test]
fn a_device_fails_at_each_call(rt: HostRuntime) -> Result<(), Fail> {
    let alloc = rt.alloc();
    for k in 1..20u64 {
        let mut disk = Silent(MemoryDisk::new(alloc, vec![in alloc; k]?));
        let wanted = match k {
            1..=10 => Err(0),
            11..=18 => Err(1),
            _ => Ok(2),
        };
        let got = run(alloc, &mut disk);
        assert!(rt;
            (got, disk.0.calls()) == (wanted, k.min(18)),
            "call {k} fails"
        );
    }
    Ok(())
}

/// The batches that a device opens to.
fn opened(alloc: Global, disk: &mut Silent) -> Result<Vec<u8>, ReadError> {
    let (bytes, n) = content(disk);
    if n < 18 || n == 18 && bytes[0] != 1 {
        return Ok(Vec::new(alloc));
    }
    batches(alloc, disk)
}

/// The batches that an image opens to.
fn kept(alloc: Global, disk: &MemoryDisk, moment: u64, pick: u64) -> Result<Vec<u8>, ReadError>
    requires { moment ≤ clock_of disk.now }
{
    let mut image = Silent(disk.image(alloc, moment, pick)?);
    opened(alloc, &mut image)
}

/// Whether an image has what was flushed at its moment: the first flush ends with call 14, the second with call 18.
fn is_kept(alloc: Global, disk: &MemoryDisk, moment: u64, pick: u64) -> Result<bool, ReadError> {
    if disk.calls() < moment {
        return Ok(false);
    }
    let got = kept(alloc, disk, moment, pick)?;
    Ok(match got.as_slice() {
        b"" => moment < 14,
        b"\x02ab" => moment < 18,
        all => all == b"\x02ab\x01c".as_slice(),
    })
}

#[test]
fn a_crash_leaves_what_was_flushed(rt: HostRuntime) -> Result<(), Fail> {
    let alloc = rt.alloc();
    let mut disk = Silent(MemoryDisk::new(alloc, Vec::new(alloc)));
    assert!(rt; (run(alloc, &mut disk), disk.0.calls()) == (Ok(2), 18));
    for row in 0..304u64 {
        let (moment, pick) = (row / 16, row % 16);
        assert!(rt; is_kept(alloc, &disk.0, moment, pick)?, "{moment} {pick}");
    }
    Ok(())
}
