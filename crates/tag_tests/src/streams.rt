// Tests what no clause says: that calls succeed if there is memory, and what each of the types does at a call.
use crate::spelled::{number, rows_tell, same};
use byte_io::*;
use std::alloc::{AllocError, Global};
use std::io::{Read, Write};
use std::process::Abort;
use std::test::Fail;
use std::{fs, io};

// A reader that returns one byte at each call, and a writer that takes one. One call fails instead.
#[derive(Drop)]
struct FailsOnce {
    bytes: Vec<u8>,
    at: usize,
    calls_until: u64,
    kind: io::ErrorKind,
}

impl FailsOnce {
    // Whether this call is the one that fails.
    fn fails(&mut self) -> bool {
        let fails = self.calls_until == 0;
        self.calls_until = self.calls_until.checked_sub(1).unwrap_or(u64::MAX);
        fails
    }
}

impl Read for FailsOnce {
    fn read(&mut self, buf: &mut [u8]) -> io::Result<usize> {
        if self.fails() {
            return Err(io::Error::from(self.kind));
        }
        if buf.is_empty() || self.at >= self.bytes.len() {
            return Ok(0);
        }
        buf[0] = self.bytes[self.at];
        self.at += 1;
        Ok(1)
    }
}

impl Write for FailsOnce {
    fn write(&mut self, buf: &[u8]) -> io::Result<usize> {
        if self.fails() {
            return Err(io::Error::from(self.kind));
        }
        let Some(first) = buf.first() else {
            return Ok(0);
        };
        self.bytes.push(*first)?;
        Ok(1)
    }

    fn flush(&mut self) -> io::Result<()> {
        Ok(())
    }
}

// A list of one number, that of the call that fails.
fn failing(alloc: Global, call: u64) -> Result<Vec<u64>, AllocError> {
    Ok(vec![in alloc; call]?)
}

// A reader or a writer of these bytes. This call fails, with an error of this kind.
fn fails_once(bytes: Vec<u8>, call: u64, kind: io::ErrorKind) -> FailsOnce {
    FailsOnce {
        bytes,
        at: 0,
        calls_until: call,
        kind,
    }
}

// How many bytes a source gives up to a limit, or why none.
fn count(alloc: Global, source: &mut impl Source, limit: u64) -> Result<usize, ReadNo> {
    Ok(read_all(alloc, source, limit)?.len())
}

// How many bytes a file gives up to a limit, or why none.
fn file_count(
    alloc: Global,
    files: &mut impl Files,
    name: &str,
    limit: u64,
) -> Result<usize, ReadNo> {
    Ok(read_file(alloc, files, name, limit)?.len())
}

// How many bytes there are, the call that fails, and the limit; then the result, the calls, and the faults.
const READS: &str = "\
0 9 0 => Ok(0) 1 0
0 0 0 => Err(ReadFault) 1 1
5 9 6 => Ok(5) 2 0
5 9 5 => Ok(5) 2 0
5 9 4 => Err(TooLong { limit: 4 }) 1 0
5 9 18446744073709551615 => Ok(5) 2 0
5 1 5 => Err(ReadFault) 2 1
5 2 5 => Ok(5) 2 0
70000 9 70000 => Ok(70000) 3 0
70000 2 70000 => Err(ReadFault) 3 1
70000 9 65536 => Err(TooLong { limit: 65536 }) 2 0
70000 9 65535 => Err(TooLong { limit: 65535 }) 1 0";

// The name of a file, the call that fails, and the limit; then the result, the calls, and the faults.
const FILES: &str = "\
a.csv 9 5 => Ok(5) 2 0
a.csv 9 4 => Err(TooLong { limit: 4 }) 1 0
a.csv 1 5 => Err(ReadFault) 2 1
b.csv 9 5 => Err(ReadFault) 1 1
long 9 70000 => Ok(70000) 3 0
long 2 70000 => Err(ReadFault) 3 1
long 9 69999 => Err(TooLong { limit: 69999 }) 2 0";

// The call that fails; then what is written of "ab", "cd" and "ef" before it, the calls, and the faults.
const WRITES: &str = "\
0 =>  1 1
1 => ab 2 1
2 => abcd 3 1
3 => abcdef 3 0";

// The first field of a row, and the two numbers after it.
fn fields<'a>(rt: &impl Abort, given: &'a str) -> (&'a str, u64, u64) {
    let (first, rest) = given.split_once(' ').expect(rt, "a field");
    let (call, limit) = rest.split_once(' ').expect(rt, "two numbers");
    (first, number(rt, call), number(rt, limit))
}

// What a row says of the reading of its bytes.
fn reading_told(rt: &impl Abort, alloc: Global, given: &str) -> Result<String, Fail> {
    let (len, call, limit) = fields(rt, given);
    let bytes = vec![in alloc; 7; number(rt, len) as usize]?;
    let mut source = MemSource::new(bytes, failing(alloc, call)?);
    let got = count(alloc, &mut source, limit);
    Ok(format!(in alloc; "{got:?} {} {}", source.calls(), source.faults())?)
}

#[test]
fn reads_to_the_end_or_says_why_not(rt: HostRuntime) -> Result<(), Fail> {
    rows_tell(&rt, READS, " => ", |given| {
        reading_told(&rt, rt.alloc(), given)
    })
}

// A file of this name and these bytes.
fn file(alloc: Global, name: &str, bytes: &[u8]) -> Result<(String, Vec<u8>), AllocError> {
    Ok((String::from_str(alloc, name)?, bytes.to_vec(alloc)?))
}

// Three files. The third has the name of the first. The second is longer than one piece.
fn three_files(alloc: Global, call: u64) -> Result<MemFiles, AllocError> {
    let long = vec![in alloc; 7; 70_000]?;
    let mut files = Vec::new(alloc);
    files.push(file(alloc, "a.csv", b"hello")?)?;
    files.push(file(alloc, "long", long.as_slice())?)?;
    files.push(file(alloc, "a.csv", b"another")?)?;
    Ok(MemFiles::new(files, failing(alloc, call)?))
}

// What a row says of the reading of its file.
fn file_told(rt: &impl Abort, alloc: Global, given: &str) -> Result<String, Fail> {
    let (name, call, limit) = fields(rt, given);
    let mut files = three_files(alloc, call)?;
    let got = file_count(alloc, &mut files, name, limit);
    Ok(format!(in alloc; "{got:?} {} {}", files.calls(), files.faults())?)
}

#[test]
fn reads_a_file_or_says_why_not(rt: HostRuntime) -> Result<(), Fail> {
    rows_tell(&rt, FILES, " => ", |given| {
        file_told(&rt, rt.alloc(), given)
    })
}

// Writes "ab", "cd" and "ef". Stops at the first write that fails.
fn write_three(sink: &mut impl Sink) -> Result<(), WriteFault> {
    write_all(sink, b"ab")?;
    write_all(sink, b"cd")?;
    write_all(sink, b"ef")
}

// What a sink has of three writes, its calls and its faults, if this call fails.
fn writes_told(rt: &impl Abort, alloc: Global, call: u64) -> Result<String, Fail> {
    let mut sink = MemSink::new(alloc, failing(alloc, call)?);
    let done = write_three(&mut sink).is_ok();
    assert!(rt; done == (sink.faults() == 0));
    let bytes = str::from_utf8(sink.bytes()).map_err(|_| "bytes")?;
    Ok(format!(in alloc; "{bytes} {} {}", sink.calls(), sink.faults())?)
}

// Whether a sink takes a million bytes, and has them then.
fn takes_a_million(alloc: Global) -> Result<bool, AllocError> {
    let long = vec![in alloc; 7; 1_000_000]?;
    let mut sink = MemSink::new(alloc, Vec::new(alloc));
    let done = write_all(&mut sink, long.as_slice()).is_ok();
    Ok(done && sink.bytes() == long.as_slice())
}

#[test]
fn writes_all_or_says_that_a_write_failed(rt: HostRuntime) -> Result<(), Fail> {
    rows_tell(&rt, WRITES, " => ", |call| {
        writes_told(&rt, rt.alloc(), number(&rt, call))
    })?;
    assert!(rt; takes_a_million(rt.alloc())?);
    Ok(())
}

// A file of the working folder: its name, a limit, and how many bytes are read and how many faults there are then.
const FOLDER: &str = "\
kept.txt 5 => Ok(5) 0
kept.txt 4 => Err(TooLong { limit: 4 }) 0
missing.txt 5 => Err(ReadFault) 1";

// The bytes of a file, as a text.
fn text_of(alloc: Global, files: &mut impl Files, name: &str) -> Result<String, Fail> {
    let bytes = read_file(alloc, files, name, 5).map_err(|_| "refused")?;
    Ok(String::from_utf8(bytes).map_err(|_| "text")?)
}

#[test]
fn files_of_the_working_folder_are_read(rt: HostRuntime) -> Result<(), Fail> {
    fs::write(&rt, "kept.txt", b"hello")?;
    let mut files = DirFiles::new(rt.clone()?);
    let kept = text_of(rt.alloc(), &mut files, "kept.txt")?;
    same(&rt, kept.as_str(), "hello", "kept.txt");
    rows_tell(&rt, FOLDER, " => ", |given| {
        let (name, limit) = given.split_once(' ').ok_or("limit")?;
        let got = file_count(rt.alloc(), &mut files, name, number(&rt, limit));
        Ok(format!(in rt.alloc(); "{got:?} {}", files.faults())?)
    })?;
    fs::remove_file(&rt, "kept.txt")?;
    Ok(())
}

// The call at which a reader of "hello" fails once. Then what two reads of all that there is give. A read that fails is
// reported, and the bytes after it are left in the reader.
const FAILED_READS: &str = "\
0 => Err(ReadFault) Ok(5)
3 => Err(ReadFault) Ok(2)
5 => Err(ReadFault) Ok(0)";

// The call at which a read is interrupted. It is made again.
const INTERRUPTED_READS: &str = "\
0 => Ok(5) Ok(0)
3 => Ok(5) Ok(0)
5 => Ok(5) Ok(0)";

// What two reads of all of "hello" give, if this call fails.
fn two_reads(alloc: Global, call: u64, kind: io::ErrorKind) -> Result<String, Fail> {
    let bytes = b"hello".to_vec(alloc)?;
    let mut once = StdSource::new(fails_once(bytes, call, kind));
    let (got, rest) = (count(alloc, &mut once, 5), count(alloc, &mut once, 5));
    Ok(format!(in alloc; "{got:?} {rest:?}")?)
}

#[test]
fn std_readers_are_sources(rt: HostRuntime) -> Result<(), Fail> {
    let (first, second): (&[u8], &[u8]) = (b"hel", b"lo");
    let mut source = StdSource::new(first.chain(second));
    let all = read_all(rt.alloc(), &mut source, 5).map_err(|_| "refused")?;
    assert!(rt; all.as_slice() == b"hello".as_slice());
    rows_tell(&rt, FAILED_READS, " => ", |call| {
        two_reads(rt.alloc(), number(&rt, call), io::ErrorKind::WouldBlock)
    })
}

// The call at which a writer fails once. Then whether "hello" is written, and what is written. No byte is written after
// a write that fails.
const FAILED_WRITES: &str = "\
0 => Err(WriteFault) <>
3 => Err(WriteFault) <hel>
4 => Err(WriteFault) <hell>";

// The call at which a write is interrupted. It is made again.
const INTERRUPTED_WRITES: &str = "\
0 => Ok(()) <hello>
3 => Ok(()) <hello>
4 => Ok(()) <hello>";

// Whether "hello" is written, and what is written, if this call fails.
fn written(alloc: Global, call: u64, kind: io::ErrorKind) -> Result<String, Fail> {
    let mut once = StdSink::new(fails_once(Vec::new(alloc), call, kind));
    let done = write_all(&mut once, b"hello");
    let FailsOnce { bytes, .. } = once.into_inner();
    let bytes = String::from_utf8(bytes).map_err(|_| "text")?;
    Ok(format!(in alloc; "{done:?} <{bytes}>")?)
}

// Whether a writer with room for three bytes takes three, and then none.
fn takes_three() -> bool {
    let mut room = [0; 3];
    let mut full = StdSink::new(room.as_mut_slice());
    let refused = write_all(&mut full, b"hello") == Err(WriteFault);
    refused && room.as_slice() == b"hel".as_slice()
}

// Whether a writer with room takes all.
fn takes_all(alloc: Global) -> bool {
    let mut sink = StdSink::new(Vec::new(alloc));
    let done = write_all(&mut sink, b"hello").is_ok();
    done && sink.into_inner().as_slice() == b"hello".as_slice()
}

#[test]
fn std_writers_are_sinks(rt: HostRuntime) -> Result<(), Fail> {
    assert!(rt; takes_all(rt.alloc()));
    assert!(rt; takes_three());
    rows_tell(&rt, FAILED_WRITES, " => ", |call| {
        written(rt.alloc(), number(&rt, call), io::ErrorKind::WouldBlock)
    })
}

#[test]
fn a_read_that_is_interrupted_is_made_again(rt: HostRuntime) -> Result<(), Fail> {
    rows_tell(&rt, INTERRUPTED_READS, " => ", |call| {
        two_reads(rt.alloc(), number(&rt, call), io::ErrorKind::Interrupted)
    })
}

#[test]
fn a_write_that_is_interrupted_is_made_again(rt: HostRuntime) -> Result<(), Fail> {
    rows_tell(&rt, INTERRUPTED_WRITES, " => ", |call| {
        written(rt.alloc(), number(&rt, call), io::ErrorKind::Interrupted)
    })
}

// The refusals, as texts.
fn refusals(alloc: Global) -> Result<String, Fail> {
    let limit = ReadNo::TooLong { limit: 7 };
    Ok(format!(in alloc; "{limit}, {}, {Failed}, {WriteFault}", ReadNo::ReadFault)?)
}

#[test]
fn refusals_have_texts(rt: HostRuntime) -> Result<(), Fail> {
    let want =
        "more than 7 bytes came, a read failed, a call to the outside failed, a write failed";
    same(&rt, refusals(rt.alloc())?.as_str(), want, "refusals");
    Ok(())
}
