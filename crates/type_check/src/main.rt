//! Says of class files what the type check (JVM specification 4.10.1) says of each of their methods.
//!
//! The words are `[--states] FILE.. [--known FILE..]`, and after the word `--next` others of the kind. Each class is checked against the base
//! classes, itself, and the classes of the files behind `--known`: of several of one name the first counts. Each method has a line on standard
//! output, `NAME METHOD passes` or `NAME METHOD fails OFFSET`, and behind them its class, `NAME class passes` or `NAME class fails METHOD OFFSET`
//! for the first method that fails. A file that is no class file has the line `NAME FAULT OFFSET`. The word `--base` in the place of a file checks the
//! base classes, each of which has a line `NAME passes`.
//!
//! With `--states` the type states stand before the line of a method: those of its stack map, `NAME METHOD map at 7: ..`, and where it passes those
//! before its instructions, `NAME METHOD at 7: locals [int, Shape, top] stack [long]`.
#![tactic(auto)]

mod files;
mod methods;
mod states;
mod words;

use files::answer;
use std::env;
use words::request_of;

fn main(rt: HostRuntime) -> anyhow::Result<()> {
    let alloc = rt.alloc();
    let words: Vec<String> = env::args(&rt)?.skip(1).collect(alloc)?;
    for part in words.split(|word| word.as_str() == "--next") {
        answer(&rt, alloc, request_of(part))?;
    }
    Ok(())
}
