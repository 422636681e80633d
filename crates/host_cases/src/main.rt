//! Prints what calls of the host answer, and what its port, the reading of its classes and its machine do. The words are the
//! names of files of cases. A line of such a file is one case, and it is printed with the answer, or the error, behind it:
//! `CASE -> ANSWER`. Lines that are empty or begin with `#` are passed over.
//!
//! Where a case speaks of a file `Add.class`, EDIT says how it differs from the one that prints the sum of 2 and 3: `whole`,
//! `233=64` (the byte at 233 is 0x64), `first=40` (so many bytes of it), `more=1` (so many zeros behind it), `twice` (its
//! method twice), `name=a/B`, `name_hex=61` or `code=b1` (another name of the class, or another code of its method).
#![tactic(auto)]

mod calls;
mod devices;
mod edits;
mod runs;

use anyhow::{Result, bail};
use std::alloc::Global;
use std::fs;
use std::rt::Files;
use ti_port::program_words;

/// What a case answers: a function's name, and its arguments. `add` is the file `Add.class`.
fn answer<R: Files>(rt: &R, alloc: Global, add: &[u8], case: &[&str]) -> Result<String> {
    match case {
        ["files", words @ ..] => calls::over_files(rt, alloc, words),
        ["memory", edit, words @ ..] => calls::in_memory(alloc, add, edit, words),
        ["fetch", fetch, "put", put, how, "most", most] => {
            calls::with_faults(alloc, add, [fetch, put, how, most])
        }
        [
            "check",
            "fetch",
            fetch,
            "put",
            put,
            how,
            "most",
            most,
            words @ ..,
        ] => { calls::check_with_faults(alloc, add, [fetch, put, how, most], words) }
        ["read", name, limit] => devices::read(rt, alloc, name, limit),
        ["program_words", words @ ..] => devices::words(alloc, words),
        ["form", edit] => runs::form(alloc, add, edit),
        ["run", limit, edit] => runs::run(alloc, add, limit, edit),
        ["enabled", edit] => runs::enabled(alloc, add, edit),
        _ => bail!("not a case"),
    }
}

/// Prints a case, if the line is one.
fn tell_line<R: Files + Print + AllocGlobal>(rt: &R, add: &[u8], line: &str) -> Result<()> {
    if line.is_empty() || line.starts_with('#') {
        return Ok(());
    }
    let words: Vec<&str> = line.split_whitespace().collect(rt.alloc())?;
    match answer(rt, rt.alloc(), add, words.as_slice()) {
        Ok(text) => println!(rt; "{line} -> {text}")?,
        Err(error) => println!(rt; "{line} -> {error}")?,
    }
    Ok(())
}

fn tell_file<R: Files + Print + AllocGlobal>(rt: &R, add: &[u8], name: &str) -> Result<()> {
    let text = fs::read_to_string(rt, name)?;
    for line in text.lines() {
        tell_line(rt, add, line)?;
    }
    Ok(())
}

fn main(rt: HostRuntime) -> Result<()> {
    let add = fs::read(&rt, "Add.class")?;
    for name in program_words(&rt)? {
        tell_file(&rt, &add, name.as_str())?;
    }
    Ok(())
}
