//! Lists the base classes, those that stand ready in the machine and are in no file. A class has a line, and behind it its
//! fields and its methods have theirs, as in
//!
//!     class java/lang/Runnable 0x0601 public interface abstract extends java/lang/Object
//!       method run ()V 0x0401 public abstract
//!
//! A method that has a code ends with how many local variables that takes.
#![tactic(auto)]

use base_set::base_classes;
use class_tree::{ClassFile, Flag, Flags, Member};
use jv_names::{Units, printed};
use std::alloc::{AllocError, Global};
use std::io::Write;

/// The flags of a class with their words (table 4.1-A).
const CLASS_FLAGS: [(Flag, &str); 5] = [
    (Flag::Public, "public"),
    (Flag::Final, "final"),
    (Flag::Super, "super"),
    (Flag::Interface, "interface"),
    (Flag::Abstract, "abstract"),
];

/// Those of a field or a method (tables 4.5-A and 4.6-A).
const MEMBER_FLAGS: [(Flag, &str); 6] = [
    (Flag::Public, "public"),
    (Flag::Private, "private"),
    (Flag::Protected, "protected"),
    (Flag::Static, "static"),
    (Flag::Final, "final"),
    (Flag::Abstract, "abstract"),
];

/// A word in front, and a name, if there is one.
fn put_name(
    alloc: Global,
    text: &mut Vec<u8>,
    word: &str,
    name: Option<&Units>,
) -> Result<(), AllocError> {
    let Some(name) = name else {
        return Ok(());
    };
    text.extend_from_slice(word.as_bytes())?;
    text.extend_from_slice(&printed(alloc, name)?)
}

/// The flags as a number, and the words of those that are set.
fn put_flags(
    alloc: Global,
    text: &mut Vec<u8>,
    flags: Flags,
    words: &[(Flag, &str)],
) -> Result<(), AllocError> {
    let bits = flags.bits;
    text.extend_from_slice(format!(in alloc; " 0x{bits:04x}")?.as_bytes())?;
    for (flag, word) in words {
        if flags.has(*flag) {
            text.extend_from_slice(b" ")?;
            text.extend_from_slice(word.as_bytes())?;
        }
    }
    Ok(())
}

fn put_class_line(alloc: Global, text: &mut Vec<u8>, class: &ClassFile) -> Result<(), AllocError> {
    put_name(alloc, text, "class ", class.name())?;
    put_flags(alloc, text, class.flags, &CLASS_FLAGS)?;
    put_name(alloc, text, " extends ", class.super_name())?;
    for interface in class.interfaces.as_slice() {
        put_name(alloc, text, " implements ", class.class_at(*interface))?;
    }
    text.extend_from_slice(b"\n")
}

fn put_member(
    alloc: Global,
    text: &mut Vec<u8>,
    class: &ClassFile,
    word: &str,
    member: &Member,
) -> Result<(), AllocError> {
    put_name(alloc, text, word, class.name_of(member))?;
    put_name(alloc, text, " ", class.desc_of(member))?;
    put_flags(alloc, text, member.flags, &MEMBER_FLAGS)?;
    if let Some(code) = member.code() {
        let count = code.max_locals;
        text.extend_from_slice(format!(in alloc; " locals {count}")?.as_bytes())?;
    }
    text.extend_from_slice(b"\n")
}

fn put_members(
    alloc: Global,
    text: &mut Vec<u8>,
    class: &ClassFile,
    word: &str,
    members: &[Member],
) -> Result<(), AllocError> {
    for member in members {
        put_member(alloc, text, class, word, member)?;
    }
    Ok(())
}

fn put_class(alloc: Global, text: &mut Vec<u8>, class: &ClassFile) -> Result<(), AllocError> {
    put_class_line(alloc, text, class)?;
    put_members(alloc, text, class, "  field ", class.fields.as_slice())?;
    put_members(alloc, text, class, "  method ", class.methods.as_slice())
}

fn main(rt: HostRuntime) -> anyhow::Result<()> {
    let alloc = rt.alloc();
    let mut text = Vec::new(alloc);
    for class in &base_classes(alloc)? {
        put_class(alloc, &mut text, class)?;
    }
    rt.stdout().write_all(&text)?;
    Ok(())
}
