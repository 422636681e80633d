//! Calls of the host, over files of the system, over files in memory, and over stores and sinks that fail. An answer is the
//! status and all that was written.

use crate::devices::Faltering;
use crate::edits::edited;
use anyhow::Result;
use check_run::check_all;
use host_run::{Status, host_one};
use std::alloc::{AllocError, Global};
use std::collections::BTreeMap;
use std::rt::Files;
use ti_port::{FileStore, MemSink, MemStore, StdSink};

/// The most bytes that a case writes.
const ROOM: usize = 1000;

const WORDS: &[&str] = &["run", "--main", "Add", "--class", "Add.class"];

fn texts(alloc: Global, words: &[&str]) -> Result<Vec<String>, AllocError> {
    words
        .iter()
        .map(|word| String::from_str(alloc, word))
        .try_collect(alloc)
}

fn told(alloc: Global, status: Status, written: &[u8]) -> Result<String> {
    let text = str::from_utf8(written)?;
    Ok(format!(in alloc; "{} {text:?}", status.number())?)
}

/// A call over the files of the system.
pub fn over_files<R: Files>(rt: &R, alloc: Global, words: &[&str]) -> Result<String> {
    let mut store = FileStore::new(rt);
    let mut sink = MemSink::steady(alloc, ROOM)?;
    let status = host_one(alloc, &texts(alloc, words)?, &mut store, &mut sink);
    told(alloc, status, sink.bytes())
}

/// The file `Add.class` with an edit, or no file.
fn files(alloc: Global, add: &[u8], edit: &str) -> Result<BTreeMap<String, Vec<u8>>> {
    let mut files = BTreeMap::new(alloc);
    if edit != "none" {
        files.insert(
            String::from_str(alloc, "Add.class")?,
            edited(alloc, add, edit)?,
        )?;
    }
    Ok(files)
}

/// A call over files in memory.
pub fn in_memory(alloc: Global, add: &[u8], edit: &str, words: &[&str]) -> Result<String> {
    let mut store = MemStore::steady(alloc, files(alloc, add, edit)?);
    let mut sink = MemSink::steady(alloc, ROOM)?;
    let status = host_one(alloc, &texts(alloc, words)?, &mut store, &mut sink);
    told(alloc, status, sink.bytes())
}

/// The file `Add.class` in a store whose fetch of this number fails.
fn store_with_fault(alloc: Global, add: &[u8], fetch: &str) -> Result<MemStore> {
    let failing = vec![in alloc; fetch.parse::<u64>()?]?;
    Ok(MemStore::failing(files(alloc, add, "whole")?, failing))
}

/// A writer of which the write of this number fails in this way, and which takes at most so many bytes in one.
fn writer_with_fault(alloc: Global, put: &str, how: &str, most: &str) -> Result<Faltering> {
    Ok(Faltering::new(
        alloc,
        put.parse::<u64>()?,
        how == "broken",
        most.parse::<usize>()?,
    ))
}

/// A check of class files by these words, with the same faults.
pub fn check_with_faults(
    alloc: Global,
    add: &[u8],
    faults: [&str; 4],
    words: &[&str],
) -> Result<String> {
    let [fetch, put, how, most] = faults;
    let mut store = store_with_fault(alloc, add, fetch)?;
    let mut writer = writer_with_fault(alloc, put, how, most)?;
    let status = check_all(alloc, &texts(alloc, words)?, &mut store, &mut writer);
    let text = str::from_utf8(writer.taken())?;
    Ok(format!(in alloc; "{} {text:?}", status as u8)?)
}

/// A call with these numbers of the fetch and of the put that fails, how the put does, and the most that a put takes.
pub fn with_faults(alloc: Global, add: &[u8], faults: [&str; 4]) -> Result<String> {
    let [fetch, put, how, most] = faults;
    let mut store = store_with_fault(alloc, add, fetch)?;
    let mut writer = writer_with_fault(alloc, put, how, most)?;
    let status = host_one(
        alloc,
        &texts(alloc, WORDS)?,
        &mut store,
        &mut StdSink::new(&mut writer),
    );
    told(alloc, status, writer.taken())
}
