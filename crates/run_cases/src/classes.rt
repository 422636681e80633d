//! Classes with their versions (JVM specification 5.3 and 5.4.3), and the code of their methods.
ghost use Rattle.std.specs.Prelude.{◌≡◌, None, IsTrue, IsSome, IfSome, IfOk, All, option_copied};
ghost use Rattle.class_tree.specs.Tree.{class_at as name_at};
ghost use Rattle.link_versions.specs.Classes.{number_of};
ghost use Rattle.link_versions.specs.Changes.{IsThere, CanDefine, IsElementThere, CanMakeArray};

use crate::local;
use crate::operands::listed;
use crate::words::{Unanswered, told_number};
use base_set::base_classes;
use bytecode_local::{fits, local_step};
use class_tree::ClassFile;
use classfile_read::read_class;
use jv_names::{Desc, ElementType, Units, field_desc, utf8_of};
use link_versions::{Classes, LinkFault};
use std::alloc::Global;
use std::fs;
use std::rt::Files;
use thread_frames::Frame;
use ti_ids::{ClassNo, VersionNo};

/// How many classes the lines of a file define at most.
const MOST_CLASSES: usize = 1_000;

/// Whether a class of this name is there, where there is a name.
fn is_there(classes: &Classes, name: Option<&Units>) -> bool
    ensures { IsTrue result → IfSome (option_copied name.entry) (λ n. IsSome (number_of classes.now n)) }
{
    match name {
        Some(name) => classes.resolve_class(name).is_ok(),
        None => true,
    }
}

/// Whether no class of this name is there, where there is a name.
fn is_new(classes: &Classes, name: Option<&Units>) -> bool
    ensures { IsTrue result → IfSome (option_copied name.entry) (λ n. number_of classes.now n ≡ None) }
{
    match name {
        Some(name) => classes.resolve_class(name).is_err(),
        None => true,
    }
}

fn are_there(classes: &Classes, tree: &ClassFile) -> bool
    ensures { IsTrue result → All (λ index. IfSome (name_at tree.now.pool index) (λ n. IsSome (number_of classes.now n))) tree.now.interfaces }
{
    for index in tree.interfaces.as_slice() {
        if !is_there(classes, tree.class_at(*index)) {
            return false;
        }
    }
    true
}

/// Whether a class may be defined.
fn can_define(classes: &Classes, tree: &ClassFile) -> bool
    ensures { IsTrue result → CanDefine classes.now tree.now }
{
    is_new(classes, tree.name()) && is_there(classes, tree.super_name()) && are_there(classes, tree)
}

fn is_element_there(classes: &Classes, element: &ElementType) -> bool
    ensures { IsTrue result → IsElementThere classes.now element.now }
{
    match element {
        ElementType::Class(name) => classes.resolve_class(name).is_ok(),
        _ => true,
    }
}

/// Whether an array class of this name may be made.
fn can_make_array(alloc: Global, classes: &Classes, name: &Units) -> bool
    ensures { IsTrue result → CanMakeArray classes.now name.now }
{
    match field_desc(alloc, name) {
        Ok(Desc::Field(array)) => {
            array.dimensions > 0
                && array.dimensions <= 255
                && is_element_there(classes, &array.element)
        }
        _ => false,
    }
}

fn units(alloc: Global, word: &str) -> Result<Units, Unanswered> {
    Ok(Units::from_ascii(alloc, word.as_bytes())?)
}

/// The class of a name.
fn named(alloc: Global, classes: &Classes, name: &str) -> Result<ClassNo, Unanswered>
    ensures { IfOk result (IsThere classes.now) }
{
    match classes.resolve_class(&units(alloc, name)?) {
        Ok(class) if class.0 > 0 && class.0 as usize <= classes.count() => Ok(class),
        _ => Err(Unanswered::NotCase),
    }
}

/// The name of a class that was found, or why none was.
fn told_class(
    alloc: Global,
    classes: &Classes,
    found: Result<ClassNo, LinkFault>,
) -> Result<String, Unanswered> {
    match found {
        Ok(class) if class.0 > 0 && class.0 as usize <= classes.count() => {
            let bytes = utf8_of(alloc, classes.name(class))?;
            String::from_utf8(bytes).map_err(|_| Unanswered::NotCase)
        }
        Ok(_) => Err(Unanswered::NotCase),
        Err(fault) => Ok(format!(in alloc; "{fault}")?),
    }
}

/// Defines the class of a tree.
fn define_tree(classes: &mut Classes, tree: ClassFile) -> Result<ClassNo, Unanswered> {
    if classes.count() >= MOST_CLASSES || !can_define(classes, &tree) {
        return Err(Unanswered::NotCase);
    }
    classes.define(tree).map_err(|_| Unanswered::Memory)
}

/// Defines the class of a class file, and gives its number.
pub fn define<R: Files + AllocGlobal>(
    rt: &R,
    classes: &mut Classes,
    file: &str,
) -> Result<String, Unanswered> {
    let alloc = rt.alloc();
    let bytes = fs::read(rt, file).map_err(|_| Unanswered::NotCase)?;
    let tree = read_class(alloc, &bytes).map_err(|_| Unanswered::NotCase)?;
    let class = define_tree(classes, tree)?;
    told_number(alloc, "class ", Some(class.0))
}

/// Defines the classes that stand ready in the machine, and gives the number of the last one.
fn define_base(alloc: Global, classes: &mut Classes) -> Result<String, Unanswered> {
    let mut last = None;
    for tree in base_classes(alloc)? {
        last = Some(define_tree(classes, tree)?.0);
    }
    told_number(alloc, "class ", last)
}

/// The number of an array class, which is made at the first call.
fn array_class(alloc: Global, classes: &mut Classes, name: &str) -> Result<String, Unanswered> {
    let name = units(alloc, name)?;
    if classes.count() >= MOST_CLASSES || !can_make_array(alloc, classes, &name) {
        return Err(Unanswered::NotCase);
    }
    told_number(alloc, "class ", Some(classes.array_class(&name)?.0))
}

/// The class of a field that a reference names.
fn field(
    alloc: Global,
    classes: &Classes,
    class: ClassNo,
    name: &str,
    desc: &str,
) -> Result<String, Unanswered>
    requires { IsThere classes.now class }
{
    let found = classes.resolve_field(class, &units(alloc, name)?, &units(alloc, desc)?);
    told_class(alloc, classes, found.map(|field| field.class))
}

/// The class of the method that a reference names, or of the one that a call of it runs on a receiver of a class.
fn method(
    alloc: Global,
    classes: &Classes,
    class: ClassNo,
    names: (&str, &str),
    receiver: Option<ClassNo>,
) -> Result<String, Unanswered>
    requires class { IsThere classes.now class }
    requires receiver { IfSome receiver (IsThere classes.now) }
{
    let (name, desc) = (units(alloc, names.0)?, units(alloc, names.1)?);
    let mut found = classes.resolve_method(class, &name, &desc);
    if let (Ok(method), Some(receiver)) = (found, receiver) {
        found = classes.select(receiver, method);
    }
    told_class(alloc, classes, found.map(|method| method.class))
}

/// The classes that a class's values may be cast to.
fn casts(alloc: Global, classes: &Classes, from: &str) -> Result<String, Unanswered> {
    let from = named(alloc, classes, from)?;
    let mut text = String::new(alloc);
    for number in 1..MOST_CLASSES {
        if number > classes.count() {
            break;
        }
        let to = ClassNo(number as u32);
        if classes.is_subclass(from, to) {
            let name = told_class(alloc, classes, Ok(to))?;
            let gap = if text.is_empty() { "" } else { " " };
            write!(text, "{gap}{name}")?;
        }
    }
    Ok(text)
}

/// Runs a method's code on a frame up to the first instruction that isn't local, or that doesn't fit: the pc and the operands
/// then.
fn run(
    alloc: Global,
    classes: &Classes,
    class: ClassNo,
    names: (&str, &str),
    mut frame: Frame<u32>,
) -> Result<String, Unanswered>
    requires { IsThere classes.now class }
{
    let (name, desc) = (units(alloc, names.0)?, units(alloc, names.1)?);
    let Ok(method) = classes.resolve_method(class, &name, &desc) else {
        return Err(Unanswered::NotCase);
    };
    let first = VersionNo {
        class: method.class,
        place: 0,
    };
    let Some(code) = classes.code(first, method) else {
        return Err(Unanswered::NotCase);
    };
    for _ in 0..100_000 {
        if !fits(code, &frame) {
            break;
        }
        frame = local_step(code, frame);
    }
    Ok(format!(in alloc; "pc {} |{}", frame.pc, listed(alloc, &frame.stack)?)?)
}

/// The answer of a line `run CLASS NAME DESCRIPTOR PC ROOM | OPERANDS | LOCALS`.
fn run_line(alloc: Global, classes: &Classes, line: &str) -> Result<String, Unanswered> {
    let parts: Vec<&str> = line.split('|').collect(alloc)?;
    let &[head, operands, locals] = parts.as_slice() else {
        return Err(Unanswered::NotCase);
    };
    let words: Vec<&str> = head.split_whitespace().collect(alloc)?;
    let &["run", class, name, desc, pc, room] = words.as_slice() else {
        return Err(Unanswered::NotCase);
    };
    let mut frame = local::frame(alloc, room, operands, locals)?;
    frame.pc = pc.parse::<u16>().map_err(|_| Unanswered::NotCase)?;
    let class = named(alloc, classes, class)?;
    run(alloc, classes, class, (name, desc), frame)
}

/// The answer of a line.
pub fn answer(
    alloc: Global,
    classes: &mut Classes,
    line: &str,
    words: &[&str],
) -> Result<String, Unanswered> {
    match *words {
        ["define_base"] => define_base(alloc, classes),
        ["array_class", name] => array_class(alloc, classes, name),
        ["resolve_field", class, name, desc] => {
            let class = named(alloc, classes, class)?;
            field(alloc, classes, class, name, desc)
        }
        ["resolve_method", class, name, desc] => {
            let class = named(alloc, classes, class)?;
            method(alloc, classes, class, (name, desc), None)
        }
        ["call", class, name, desc, receiver] => {
            let class = named(alloc, classes, class)?;
            let receiver = named(alloc, classes, receiver)?;
            method(alloc, classes, class, (name, desc), Some(receiver))
        }
        ["casts", from] => casts(alloc, classes, from),
        ["run", ..] => run_line(alloc, classes, line),
        _ => Err(Unanswered::NotCase),
    }
}
