//! What the type check says of the methods of a class, and of the class.

use crate::states::{tell_map, tell_states};
use class_tree::{ClassFile, Member};
use jv_names::{Units, printed};
use std::alloc::Global;
use type_frames::Hierarchy;
use type_verify::{VerifyFault, verify_class, verify_method};

/// A name, in visible ASCII.
pub fn name_text(alloc: Global, name: &Units) -> anyhow::Result<String> {
    Ok(String::from_utf8(printed(alloc, name)?)?)
}

/// A method's name and its descriptor.
fn method_text(alloc: Global, tree: &ClassFile, member: &Member) -> anyhow::Result<String> {
    let mut text = String::new(alloc);
    for part in [tree.name_of(member), tree.desc_of(member)] {
        if let Some(units) = part {
            text.push_str(name_text(alloc, units)?.as_str())?;
        }
    }
    Ok(text)
}

/// Tells of a class that fails, or of a lack of memory.
fn tell_failing(
    rt: &impl Print,
    alloc: Global,
    tree: &ClassFile,
    file: &str,
    fault: VerifyFault,
) -> anyhow::Result<()> {
    let VerifyFault::Fails { method, offset } = fault else {
        return Err(fault.into());
    };
    if let Some(member) = tree.methods.as_slice().get(method) {
        let name = method_text(alloc, tree, member)?;
        println!(rt; "{file} class fails {name} {offset}")?;
    }
    Ok(())
}

/// Tells of the method at a place, whose file and name begin each line.
fn tell_method(
    rt: &impl Print,
    alloc: Global,
    hierarchy: &Hierarchy,
    tree: &ClassFile,
    method: usize,
    begin: &str,
    states: bool,
) -> anyhow::Result<()> {
    if method >= tree.methods.len() {
        return Ok(());
    }
    if states {
        tell_map(rt, alloc, tree, method, begin)?;
    }
    match verify_method(alloc, hierarchy, tree, method) {
        Ok(code) => {
            if states {
                tell_states(rt, alloc, &code, begin)?;
            }
            println!(rt; "{begin} passes")?;
        }
        Err(VerifyFault::Fails { offset, .. }) => println!(rt; "{begin} fails {offset}")?,
        Err(fault) => return Err(fault.into()),
    }
    Ok(())
}

/// Tells of each method of a class, and of the class.
pub fn tell_class(
    rt: &impl Print,
    alloc: Global,
    hierarchy: &Hierarchy,
    tree: &ClassFile,
    file: &str,
    states: bool,
) -> anyhow::Result<()> {
    for (place, member) in tree.methods.as_slice().iter().enumerate() {
        let name = method_text(alloc, tree, member)?;
        let begin = format!(in alloc; "{file} {name}")?;
        tell_method(rt, alloc, hierarchy, tree, place, begin.as_str(), states)?;
    }
    match verify_class(alloc, hierarchy, tree) {
        Ok(_) => println!(rt; "{file} class passes")?,
        Err(fault) => tell_failing(rt, alloc, tree, file, fault)?,
    }
    Ok(())
}
