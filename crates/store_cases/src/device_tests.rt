// The device in memory by its calls, and its images after a crash; the source and the sink in memory.
ghost use Rattle.std.specs.Prelude.{◌≤◌};
ghost use Rattle.disk_trait.specs.MemoryDisk.{clock_of};

use crate::rows::{bytes_of, long, number, numbers, see, word};
use disk_trait::{Disk, Failed, File, MemoryDisk, MemorySink, MemorySource, Sink, Source};
use std::alloc::{AllocError, Global};
use std::test::Fail;

/// Calls of a device with what each gives. `new` begins another device, with the numbers of the calls that fail;
/// `image` looks at a file in the image of a moment and a pick; `counts` says how many calls have failed, and how
/// many there were.
///
/// A write that was not synced is left out by pick 0, done by 1, or other bytes. An image is of its moment. A
/// failed write is in images and in no read. A sync settles its own file. From 3 on a pick draws bytes.
const CALLS: &str = "\
    new
    write log 0 01020304 ok
    sync log ok
    write log 1 0909 ok
    write log 5 0707 ok
    counts 0 4
    image log 4 0 01020304
    image log 4 1 01090904000707
    image log 4 2 01010104000101
    new
    write log 0 05 ok
    sync log ok
    write log 0 06 ok
    counts 0 3
    image log 0 0
    image log 0 1
    image log 0 2
    image log 0 3
    image log 1 0
    image log 1 1 05
    image log 2 0 05
    image log 2 1 05
    image log 2 2 05
    image log 2 3 05
    image log 3 0 05
    image log 3 1 06
    image log 3 2 01
    new 2
    write log 0 05 ok
    write log 0 06 fails
    counts 1 2
    read log 05
    counts 1 3
    image log 3 1 06
    fails 4 5
    sync log fails
    image log 4 1 06
    length log fails
    length log 1
    counts 3 6
    sync log ok
    image log 7 1 05
    new
    write pages 0 08 ok
    through log 0 07 ok
    counts 0 3
    image log 3 0 07
    image pages 3 0
    image pages 3 1 08
    new
    through log 0 01020304 ok
    write log 1 0909 ok
    write log 5 0707 ok
    draws
";

/// The file with this name.
fn file_of(name: &str) -> File {
    if name == "pages" {
        File::Pages
    } else {
        File::Log
    }
}

/// What a read of a whole short file gives, and how many bytes these are; none but more where it fails.
fn content(disk: &mut MemoryDisk, file: File) -> ([u8; 16], usize) {
    let mut bytes = [0u8; 16];
    let n = disk.read(file, 0, &mut bytes).unwrap_or(usize::MAX);
    (bytes, n)
}

/// Whether a short file has these bytes.
fn has(disk: &mut MemoryDisk, file: File, wanted: &[u8]) -> bool {
    let (bytes, n) = content(disk, file);
    bytes.get(..n) == Some(wanted)
}

/// Whether a file of the image of a moment and a pick has these bytes. No image is of a moment to come.
fn leaves(alloc: Global, disk: &MemoryDisk, file: File, words: &str) -> Result<bool, AllocError> {
    let (moment, rest) = word(words);
    let (pick, bytes) = word(rest);
    let moment = long(moment);
    if disk.calls() < moment {
        return Ok(false);
    }
    let wanted = bytes_of(alloc, bytes)?;
    let mut image = disk.image(alloc, moment, long(pick))?;
    Ok(has(&mut image, file, &wanted))
}

/// What the log of the image of this moment and a pick has.
fn drawn(alloc: Global, disk: &MemoryDisk, pick: u64) -> Result<([u8; 16], usize), AllocError> {
    let mut image = disk.image(alloc, disk.calls(), pick)?;
    Ok(content(&mut image, File::Log))
}

/// Whether the picks 3 and 99 draw other bytes, in the ranges that were not synced alone.
fn draws(alloc: Global, disk: &MemoryDisk) -> Result<bool, AllocError> {
    let (bytes, n) = drawn(alloc, disk, 3)?;
    let other = drawn(alloc, disk, 99)?;
    let kept = [bytes[0], bytes[3], bytes[4]] == [1, 4, 0];
    Ok(kept && n == 7 && (bytes, n) != other)
}

/// Whether a write of these bytes at a small place is done, and synced where it goes through.
fn is_done(disk: &mut MemoryDisk, file: File, at: u32, bytes: &[u8], through: bool) -> bool {
    if bytes.len() > 1000 {
        return false;
    }
    let at = u64::from(at);
    if through {
        disk_trait::write_and_sync(disk, file, at, bytes).is_ok()
    } else {
        disk.write_at(file, at, bytes).is_ok()
    }
}

/// Whether such a write is done as is said after its bytes.
fn writes(
    alloc: Global,
    disk: &mut MemoryDisk,
    file: File,
    words: &str,
    through: bool,
) -> Result<bool, AllocError> {
    let (at, rest) = word(words);
    let (bytes, done) = word(rest);
    let bytes = bytes_of(alloc, bytes)?;
    Ok(is_done(disk, file, number(at), &bytes, through) == (done == "ok"))
}

/// Whether a file has the bytes of these words.
fn reads(
    alloc: Global,
    disk: &mut MemoryDisk,
    file: File,
    words: &str,
) -> Result<bool, AllocError> {
    let wanted = bytes_of(alloc, words)?;
    Ok(has(disk, file, &wanted))
}

/// Whether a look at a device gives what its row says.
fn tells(alloc: Global, disk: &MemoryDisk, verb: &str, words: &str) -> Result<bool, AllocError> {
    let (first, rest) = word(words);
    match verb {
        "draws" => draws(alloc, disk),
        "counts" => Ok(disk.faults() == long(first) && disk.calls() == long(rest)),
        _ => leaves(alloc, disk, file_of(first), rest),
    }
}

/// Whether a call of a file gives what its row says.
fn gives_file(
    alloc: Global,
    disk: &mut MemoryDisk,
    verb: &str,
    words: &str,
) -> Result<bool, AllocError> {
    let (first, rest) = word(words);
    let file = file_of(first);
    match verb {
        "write" => writes(alloc, disk, file, rest, false),
        "through" => writes(alloc, disk, file, rest, true),
        "sync" => Ok(disk.sync(file).is_ok() == (rest == "ok")),
        "length" => Ok(disk.length(file).ok() == rest.parse().ok()),
        _ => reads(alloc, disk, file, rest),
    }
}

/// Whether a row holds.
fn holds(alloc: Global, disk: &mut MemoryDisk, row: &str) -> Result<bool, AllocError> {
    let (verb, words) = word(row);
    match verb {
        "new" => *disk = MemoryDisk::new(alloc, numbers(alloc, words)?),
        "fails" => disk.set_fails(numbers(alloc, words)?),
        "image" | "draws" | "counts" => return tells(alloc, disk, verb, words),
        _ => return gives_file(alloc, disk, verb, words),
    }
    Ok(true)
}

#[test]
fn a_device_gives_what_was_written(rt: HostRuntime) -> Result<(), Fail> {
    let alloc = rt.alloc();
    let mut disk = MemoryDisk::new(alloc, Vec::new(alloc));
    for row in CALLS.lines() {
        see(&rt, holds(alloc, &mut disk, row.trim())?, row);
    }
    Ok(())
}

/// Images of the log that `write_much` leaves: a moment, a pick and a byte, how long the log is, and how many bytes
/// are that.
const MUCH: &str = "\
    3999 0 7 99950 99950
    3999 1 7 100000 100000
    3999 2 1 100000 50
    3998 0 7 99950 99950
    3998 2 1 99950 0
    2000 1 7 50000 50000
    1999 0 7 49950 49950
    1999 1 7 50000 50000
    0 1 7 0 0
";

/// 100,000 bytes by 2,000 writes, each with a sync but for the last.
fn write_much(disk: &mut MemoryDisk, piece: &[u8; 50]) -> Result<(), Failed> {
    for i in 0..2000u64 {
        disk.write_at(File::Log, i * 50, piece)?;
        if i < 1999 {
            disk.sync(File::Log)?;
        }
    }
    Ok(())
}

/// How many of the bytes are this one.
fn count_of(bytes: &[u8], wanted: u8) -> usize {
    let mut count = 0usize;
    for byte in bytes {
        count = count.saturating_add(usize::from(*byte == wanted));
    }
    count
}

/// How many bytes the log of an image has, and how many are this one.
fn counts(alloc: Global, mut image: MemoryDisk, byte: u8) -> Result<(usize, usize), AllocError> {
    let mut bytes = vec![in alloc; 0u8; 100_001]?;
    let n = image.read(File::Log, 0, &mut bytes).unwrap_or(0);
    bytes.truncate(n);
    Ok((n, count_of(&bytes, byte)))
}

/// Whether an image is as its row says.
fn is_left(alloc: Global, disk: &MemoryDisk, row: &str) -> Result<bool, AllocError> {
    let (moment, rest) = word(row);
    let (pick, rest) = word(rest);
    let (byte, rest) = word(rest);
    let (len, count) = word(rest);
    let byte = byte.parse().unwrap_or(0);
    let moment = long(moment);
    if disk.calls() < moment {
        return Ok(false);
    }
    let image = disk.image(alloc, moment, long(pick))?;
    let wanted = (number(len) as usize, number(count) as usize);
    Ok(counts(alloc, image, byte)? == wanted)
}

#[test]
fn images_of_much(rt: HostRuntime) -> Result<(), Fail> {
    let alloc = rt.alloc();
    let mut disk = MemoryDisk::new(alloc, Vec::new(alloc));
    write_much(&mut disk, &[7; 50])?;
    assert_eq!(rt; (disk.calls(), disk.length(File::Log)), (3999, Ok(100_000)));
    for row in MUCH.lines() {
        see(&rt, is_left(alloc, &disk, row.trim())?, row);
    }
    Ok(())
}

/// How many bytes each read of four gives of 1, 2 and 3, by pieces of two, where the second fails; and what is then
/// read.
const READS: &str = "\
    2 01020000
    fails 01020000
    1 03020000
    0 03020000
";

/// Writes to a sink whose second call fails: the bytes, and how many are taken.
const WRITES: &str = "\
    6162 2
    63 fails
    64 1
";

/// Whether a read gives what its row says.
fn gives(
    alloc: Global,
    source: &mut MemorySource,
    buf: &mut [u8],
    row: &str,
) -> Result<bool, AllocError> {
    let (count, bytes) = word(row);
    let wanted = bytes_of(alloc, bytes)?;
    let read = source.read(buf).ok();
    Ok(read == count.parse().ok() && wanted.as_slice() == buf)
}

/// Whether a write is taken as its row says.
fn takes(alloc: Global, sink: &mut MemorySink, row: &str) -> Result<bool, AllocError> {
    let (bytes, count) = word(row);
    let bytes = bytes_of(alloc, bytes)?;
    Ok(sink.write(&bytes).ok() == count.parse().ok())
}

#[test]
fn a_source_gives(rt: HostRuntime) -> Result<(), Fail> {
    let alloc = rt.alloc();
    let fails = vec![in alloc; 2u64]?;
    let mut source = MemorySource::new(vec![in alloc; 1u8, 2, 3]?, fails, 2);
    let mut buf = [0u8; 4];
    for row in READS.lines() {
        see(&rt, gives(alloc, &mut source, &mut buf, row.trim())?, row);
    }
    Ok(())
}

#[test]
fn a_sink_takes(rt: HostRuntime) -> Result<(), Fail> {
    let alloc = rt.alloc();
    let mut sink = MemorySink::new(alloc, vec![in alloc; 2u64]?);
    for row in WRITES.lines() {
        see(&rt, takes(alloc, &mut sink, row.trim())?, row);
    }
    see(&rt, sink.bytes() == b"abd".as_slice(), "abd");
    Ok(())
}

/// So many reads of a source, each written to a sink; how many bytes one more gives.
fn pass_on(source: &mut MemorySource, sink: &mut MemorySink, times: u32) -> Result<usize, Failed> {
    let mut buf = [0u8; 1000];
    for _ in 0..times {
        let n = source.read(&mut buf)?;
        sink.write(buf.get(..n).unwrap_or(b""))?;
    }
    source.read(&mut buf)
}

/// 100,000 bytes are given in pieces, and taken in pieces.
#[test]
fn much_is_given_and_taken(rt: HostRuntime) -> Result<(), Fail> {
    let alloc = rt.alloc();
    let bytes = vec![in alloc; 7u8; 100_000]?;
    let mut source = MemorySource::new(bytes, Vec::new(alloc), 999);
    let mut sink = MemorySink::new(alloc, Vec::new(alloc));
    let last = pass_on(&mut source, &mut sink, 101);
    let taken = (sink.bytes().len(), count_of(sink.bytes(), 7));
    assert_eq!(rt; (last, taken), (Ok(0), (100_000, 100_000)));
    Ok(())
}
