//! Tries what a run holds: monitors, the stacks of threads, a heap, classes with their versions, and instructions that change
//! their own frame alone. The words are names of files. Each line of a file is a call on a value that the lines before it
//! built up; a line `new ..` begins another value. The program prints each call with its answer behind it: `CALL -> ANSWER`. Lines
//! that are empty or begin with `#` are passed over.
//!
//! An object is written `#3`, a thread `t1`, an int `5`, a long `5L`, and no object `null`.
#![tactic(auto)]

mod classes;
mod frames;
mod heap;
mod held;
mod local;
mod monitors;
mod operands;
mod words;

use anyhow::Result;
use held::Held;
use std::env::{self, Env};
use std::fs;
use std::rt::Files;
use words::Unanswered;

/// Prints a line with its answer.
fn tell_line<R: Files + Print + AllocGlobal>(rt: &R, held: &mut Held, line: &str) -> Result<()> {
    match held.answer(rt, line) {
        Ok(answer) => println!(rt; "{line} -> {answer}")?,
        Err(Unanswered::NotCase) => println!(rt; "{line} -> not a case")?,
        Err(Unanswered::Memory) => println!(rt; "{line} -> out of memory")?,
    }
    Ok(())
}

/// Prints the calls of a file.
fn tell_file<R: Files + Print + AllocGlobal>(rt: &R, name: &str) -> Result<()> {
    let text = fs::read_to_string(rt, name)?;
    let mut held = Held::Nothing;
    for line in text.as_str().lines() {
        if !line.is_empty() && !line.starts_with('#') {
            tell_line(rt, &mut held, line)?;
        }
    }
    Ok(())
}

fn main(rt: HostRuntime) -> Result<()> {
    for name in env::args(&rt)?.skip(1) {
        tell_file(&rt, name.as_str())?;
    }
    Ok(())
}
