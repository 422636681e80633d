//! The files that are checked, and those that are known beside them.

use crate::methods::{name_text, tell_class};
use crate::words::Request;
use anyhow::Context;
use base_set::base_classes;
use class_tree::ClassFile;
use classfile_read::{ReadClassFault, read_class};
use std::alloc::Global;
use std::fs;
use std::rt::Files;
use type_frames::Hierarchy;
use type_verify::check_class;

/// The class of a file, if it is a class file.
fn class_of<R: Files + AllocGlobal>(
    rt: &R,
    alloc: Global,
    name: &str,
) -> anyhow::Result<Result<ClassFile, ReadClassFault>> {
    let bytes = fs::read(rt, name).context("a file that can't be read")?;
    Ok(read_class(alloc, bytes.as_slice()))
}

/// The classes that are known beside one that is checked, in front of it and behind it.
#[derive(Drop)]
struct Beside {
    base: Vec<ClassFile>,
    known: Vec<ClassFile>,
}

/// The base classes, and the classes of these files.
fn classes_beside<R: Files + AllocGlobal>(
    rt: &R,
    alloc: Global,
    names: &[String],
) -> anyhow::Result<Beside> {
    let mut known = Vec::new(alloc);
    for name in names {
        known.push(class_of(rt, alloc, name.as_str())??)?;
    }
    Ok(Beside {
        base: base_classes(alloc)?,
        known,
    })
}

/// What is known where a class is checked.
fn hierarchy_of(alloc: Global, beside: &Beside, tree: &ClassFile) -> anyhow::Result<Hierarchy> {
    let mut hierarchy = Hierarchy::of(alloc, beside.base.as_slice())?;
    hierarchy.add_tree(tree)?;
    for other in &beside.known {
        hierarchy.add_tree(other)?;
    }
    Ok(hierarchy)
}

/// Tells of a fault of a file.
fn tell_fault(rt: &impl Print, name: &str, fault: ReadClassFault) -> anyhow::Result<()> {
    match fault.name_and_offset() {
        (text, Some(offset)) => println!(rt; "{name} {text} {offset}")?,
        (text, None) => println!(rt; "{name} {text}")?,
    }
    Ok(())
}

/// Tells of the class of a file.
fn tell_file<R: Files + Print + AllocGlobal>(
    rt: &R,
    alloc: Global,
    beside: &Beside,
    name: &str,
    states: bool,
) -> anyhow::Result<()> {
    match class_of(rt, alloc, name)? {
        Ok(tree) => {
            let hierarchy = hierarchy_of(alloc, beside, &tree)?;
            tell_class(rt, alloc, &hierarchy, &tree, name, states)
        }
        Err(fault) => tell_fault(rt, name, fault),
    }
}

/// Tells of each base class.
fn tell_base(rt: &impl Print, alloc: Global, base: &[ClassFile]) -> anyhow::Result<()> {
    let hierarchy = Hierarchy::of(alloc, base)?;
    for tree in base {
        check_class(alloc, &hierarchy, tree)?;
        if let Some(name) = tree.name() {
            println!(rt; "{} passes", name_text(alloc, name)?)?;
        }
    }
    Ok(())
}

/// Does what the words ask for.
pub fn answer<R: Files + Print + AllocGlobal>(
    rt: &R,
    alloc: Global,
    request: Request<'_>,
) -> anyhow::Result<()> {
    let beside = classes_beside(rt, alloc, request.known)?;
    for name in request.files {
        if name.as_str() == "--base" {
            tell_base(rt, alloc, beside.base.as_slice())?;
        } else {
            tell_file(rt, alloc, &beside, name.as_str(), request.states)?;
        }
    }
    Ok(())
}
