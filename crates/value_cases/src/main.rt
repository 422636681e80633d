//! Prints what the functions of the layer of values answer. The words are the names of files of cases. A line of such a file
//! is one case, the name of a function and its arguments, and it is printed with the answer, or the error, behind it:
//! `CASE -> ANSWER`. Lines that are empty or begin with `#` are passed over.
#![tactic(auto)]

mod codes;
mod descriptors;
mod mnemonics;
mod numbers;
mod reports;
mod texts;
mod words;

use anyhow::Result;
use std::alloc::Global;
use std::env::{self, Env};
use std::fs;
use std::rt::Files;

/// What the function of this name answers of these arguments.
fn answer(alloc: Global, function: &str, arguments: &[&str]) -> Result<String> {
    match function {
        "units_of" => texts::units_of_bytes(alloc, arguments),
        "utf8_of" => texts::utf8_of_units(alloc, arguments),
        "front_units" => texts::front_of_bytes(alloc, arguments),
        "same" => texts::compare(alloc, arguments),
        "is_text" => texts::compare_bytes(alloc, arguments),
        "may_name" => texts::may_name(alloc, arguments),
        "is_class_name" => texts::class_name(alloc, arguments),
        "printed" => texts::printed_units(alloc, arguments),
        "decimal" => texts::decimal_number(alloc, arguments),
        "field_desc" => descriptors::read_field(alloc, arguments),
        "method_desc" => descriptors::read_method(alloc, arguments),
        "field_flaw" => descriptors::flaw_of_field(alloc, arguments),
        "method_flaw" => descriptors::flaw_of_method(alloc, arguments),
        "decode" => codes::list(alloc, arguments),
        "length_at" => codes::length(alloc, arguments),
        "pool_use_at" => codes::pool_use(alloc, arguments),
        "instr_at" => codes::read_one(alloc, arguments),
        "begins_at" => codes::begins(alloc, arguments),
        "entry_at" => codes::entry(alloc, arguments),
        "same_actor" => reports::compare_actors(alloc, arguments),
        "report" => reports::print(alloc, arguments),
        "report_with_agents" => reports::print_with_agents(alloc, arguments),
        _ => numbers::answer(alloc, function, arguments),
    }
}

/// Prints a case, if the line is one.
fn tell_line<R: Print + AllocGlobal>(rt: &R, line: &str) -> Result<()> {
    let words: Vec<&str> = line.split_whitespace().collect(rt.alloc())?;
    let Some((function, arguments)) = words.split_first() else {
        return Ok(());
    };
    if function.starts_with('#') {
        return Ok(());
    }
    match answer(rt.alloc(), function, arguments) {
        Ok(text) => println!(rt; "{line} -> {text}")?,
        Err(error) => println!(rt; "{line} -> {error}")?,
    }
    Ok(())
}

fn tell_file<R: Print + Files + AllocGlobal>(rt: &R, name: &str) -> Result<()> {
    let text = fs::read_to_string(rt, name)?;
    for line in text.lines() {
        tell_line(rt, line)?;
    }
    Ok(())
}

fn main(rt: HostRuntime) -> Result<()> {
    for name in env::args(&rt)?.skip(1) {
        tell_file(&rt, name.as_str())?;
    }
    Ok(())
}
