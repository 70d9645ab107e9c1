// What a run of the program needs, and what it prints.
use byte_io::{MemFiles, MemSink, MemSource};
use disk_model::{MemStore, Store};
use plant_run::{OpenPasses, Outcome, Passes, run, run_args};
use std::alloc::{AllocError, Global};
use std::process::{Abort, ExitCode};
use std::sync::Wait;
use std::test::Fail;
use std::thread::Threads;

/// The numbers of a failing read and a failing write that are never reached.
pub const NO_FAULT: (u64, u64) = (u64::MAX, u64::MAX);

/// Returns the number that a field spells.
pub fn number(rt: &impl Abort, field: &str) -> u64 {
    field.parse::<u64>().expect(rt, "a number")
}

/// Returns the text of a field. In the field a bar represents a line feed, and a caret a carriage return.
pub fn text(alloc: Global, field: &str) -> Result<String, AllocError> {
    let mut text = String::new(alloc);
    for c in field.chars() {
        match c {
            '|' => text.push('\n')?,
            '^' => text.push('\r')?,
            _ => text.push(c)?,
        }
    }
    Ok(text)
}

/// Returns a list of one number.
pub fn only(alloc: Global, number: u64) -> Result<Vec<u64>, AllocError> {
    Ok(vec![in alloc; number]?)
}

/// Returns the words of a line.
pub fn words(alloc: Global, line: &str) -> Result<Vec<String>, AllocError> {
    let mut words = Vec::new(alloc);
    for word in line.split(' ') {
        words.push(String::from_str(alloc, word)?)?;
    }
    Ok(words)
}

/// Returns the names and texts of files. Each line has a name, a colon, a blank and a text.
pub fn files_of(alloc: Global, rows: &str) -> Result<Vec<(String, Vec<u8>)>, Fail> {
    let mut files = Vec::new(alloc);
    for row in rows.lines() {
        let (name, field) = row.split_once(": ").ok_or("a file")?;
        let text = text(alloc, field)?.into_bytes();
        files.push((String::from_str(alloc, name)?, text))?;
    }
    Ok(files)
}

/// Runs words over files and a store with these passes. Returns how the run ended and what it printed.
pub fn ended<R: Threads + Wait + Sync, S: Store, P: Passes>(
    rt: &R,
    alloc: Global,
    line: &str,
    mut files: MemFiles,
    store: &mut S,
    passes: &mut P,
) -> Result<(Outcome, String), Fail> {
    let words = words(alloc, line)?;
    let mut input = MemSource::new(Vec::new(alloc), Vec::new(alloc));
    let mut out = MemSink::new(alloc, Vec::new(alloc));
    let outcome = run(
        rt, alloc, &words, &mut input, &mut files, &mut out, store, passes,
    );
    let printed = str::from_utf8(out.bytes()).map_err(|_| "text")?;
    Ok((outcome, String::from_str(alloc, printed)?))
}

/// Runs a line of words, of which the first is the program's name. Returns the exit code, a space, and what is printed.
/// `fail` has the numbers of the read of the input and of the write that fail.
pub fn told<R: Threads + Wait + Sync>(
    rt: &R,
    alloc: Global,
    line: &str,
    input: &[u8],
    files: &mut MemFiles,
    store: &mut MemStore,
    fail: (u64, u64),
) -> Result<String, Fail> {
    let words = words(alloc, line)?;
    let mut input = MemSource::new(input.to_vec(alloc)?, only(alloc, fail.0)?);
    let mut out = MemSink::new(alloc, only(alloc, fail.1)?);
    let args = Ok(words.into_iter());
    let mut passes = OpenPasses;
    let exit = run_args(
        rt,
        alloc,
        args,
        &mut input,
        files,
        &mut out,
        store,
        &mut passes,
    );
    let mut code = u8::MAX;
    for c in 0..100u8 {
        if ExitCode::from(c) == exit {
            code = c;
        }
    }
    let printed = str::from_utf8(out.bytes()).map_err(|_| "text")?;
    Ok(format!(in alloc; "{code} {printed}")?)
}
