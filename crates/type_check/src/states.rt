//! Type states (JVM specification 4.10.1.4) as lines.

use crate::methods::name_text;
use class_tree::ClassFile;
use std::alloc::{AllocError, Global};
use type_frames::{MapFault, MapFrame, VType};
use type_verify::{TypedCode, expand};

/// A type, with the names of `javap`.
fn type_text(alloc: Global, entry: &VType) -> anyhow::Result<String> {
    Ok(match entry {
        VType::Top => String::from_str(alloc, "top")?,
        VType::Integer => String::from_str(alloc, "int")?,
        VType::Long => String::from_str(alloc, "long")?,
        VType::Null => String::from_str(alloc, "null")?,
        VType::UninitThis => String::from_str(alloc, "uninitialized_this")?,
        VType::Uninit(offset) => format!(in alloc; "uninitialized {offset}")?,
        VType::Object(name) => name_text(alloc, name)?,
    })
}

/// Types, in brackets.
fn types_text(alloc: Global, types: &[VType]) -> anyhow::Result<String> {
    let mut text = String::from_str(alloc, "[")?;
    for (place, entry) in types.iter().enumerate() {
        if place > 0 {
            text.push_str(", ")?;
        }
        text.push_str(type_text(alloc, entry)?.as_str())?;
    }
    text.push_str("]")?;
    Ok(text)
}

/// Tells a type state, on a line that begins with this.
fn tell_state(rt: &impl Print, alloc: Global, begin: &str, frame: &MapFrame) -> anyhow::Result<()> {
    let locals = types_text(alloc, frame.locals.as_slice())?;
    let stack = types_text(alloc, frame.stack.as_slice())?;
    let flag = if frame.this_uninit {
        " flagThisUninit"
    } else {
        ""
    };
    println!(rt;
        "{begin} at {}: locals {locals} stack {stack}{flag}",
        frame.at
    )?;
    Ok(())
}

/// Tells the type states of a method's stack map, or which of its entries is bad.
pub fn tell_map(
    rt: &impl Print,
    alloc: Global,
    tree: &ClassFile,
    method: usize,
    begin: &str,
) -> anyhow::Result<()> {
    if method >= tree.methods.len() {
        return Ok(());
    }
    let map = match expand(alloc, tree, method) {
        Ok(map) => map,
        Err(MapFault::Bad(place)) => {
            println!(rt; "{begin} map entry {place} is bad")?;
            return Ok(());
        }
        Err(MapFault::Memory) => return Err(AllocError.into()),
    };
    let begin = format!(in alloc; "{begin} map")?;
    for place in 0..map.len() {
        tell_state(rt, alloc, begin.as_str(), &map.frame(alloc, place)?)?;
    }
    Ok(())
}

/// Tells the type states of a method that passes.
pub fn tell_states(
    rt: &impl Print,
    alloc: Global,
    code: &TypedCode<'_>,
    begin: &str,
) -> anyhow::Result<()> {
    for frame in &code.frames(alloc)? {
        tell_state(rt, alloc, begin, frame)?;
    }
    Ok(())
}
