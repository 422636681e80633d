//! An operand stack (JVM specification 2.6.2).

use crate::words::{Shown, Unanswered, number, said, told, value};
use std::alloc::{AllocError, Global};
use thread_frames::Operands;
use ti_ids::Value;

fn push(alloc: Global, operands: &mut Operands, value: Value) -> Result<String, Unanswered> {
    if !operands.fits(value) {
        return said(alloc, "no room");
    }
    operands.push(value);
    said(alloc, "done")
}

/// The operands from the lowest to the top, each with a space before it.
pub fn listed(alloc: Global, operands: &Operands) -> Result<String, AllocError> {
    let mut text = String::new(alloc);
    for depth in (0..operands.len()).rev() {
        if let Some(value) = operands.get(depth) {
            write!(text, " {}", Shown(value))?;
        }
    }
    Ok(text)
}

fn size(alloc: Global, operands: &Operands) -> Result<String, Unanswered> {
    let (entries, words, room) = (operands.len(), operands.words(), operands.room());
    Ok(format!(in alloc; "entries {entries}, words {words} of {room}")?)
}

/// The answer of a line.
pub fn answer(
    alloc: Global,
    operands: &mut Operands,
    words: &[&str],
) -> Result<String, Unanswered> {
    match *words {
        ["push", word] => push(alloc, operands, value(word)?),
        ["pop"] => told(alloc, operands.pop()),
        ["top"] => told(alloc, operands.top()),
        ["get", depth] => told(alloc, operands.get(number(depth)? as usize)),
        ["size"] => size(alloc, operands),
        ["clear"] => {
            operands.clear();
            said(alloc, "done")
        }
        _ => Err(Unanswered::NotCase),
    }
}
