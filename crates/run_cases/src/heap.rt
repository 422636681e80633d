//! The heap (JVM specification 2.4 and 2.5.3).

use crate::words::{
    Shown, Unanswered, number, object, reference, said, told, told_number, value, values,
};
use java_heap::{Heap, HeapFault, STRING_BUILDER};
use jv_names::Units;
use std::alloc::Global;
use ti_ids::{ClassNo, ObjNo, Value};

/// The number of a new object, or why there is none.
fn made(alloc: Global, outcome: Result<ObjNo, HeapFault>) -> Result<String, Unanswered> {
    match outcome {
        Ok(object) => told_number(alloc, "#", Some(object.0)),
        Err(fault) => Ok(format!(in alloc; "{fault}")?),
    }
}

/// A text in quotes.
fn text(alloc: Global, word: &str) -> Result<Units, Unanswered> {
    let word = word.strip_prefix('"').ok_or(Unanswered::NotCase)?;
    let word = word.strip_suffix('"').ok_or(Unanswered::NotCase)?;
    Ok(Units::from_ascii(alloc, word.as_bytes())?)
}

/// The UTF-16 units of an object.
fn units_of(alloc: Global, heap: &Heap, object: ObjNo) -> Result<String, Unanswered> {
    match heap.text(object) {
        Some(units) => Ok(format!(in alloc; "{units:?}")?),
        None => said(alloc, "none"),
    }
}

/// Three values, which are all there.
fn three(
    alloc: Global,
    values: (Option<Value>, Option<Value>, Option<Value>),
) -> Result<String, Unanswered> {
    match values {
        (Some(first), Some(second), Some(third)) => {
            Ok(format!(in alloc; "{} {} {}", Shown(first), Shown(second), Shown(third))?)
        }
        _ => said(alloc, "none"),
    }
}

/// A new instance whose fields are an int, a long and null, and what they are once a value was put in the last one.
fn put_field(
    alloc: Global,
    heap: &mut Heap,
    class: ClassNo,
    value: Value,
) -> Result<String, Unanswered> {
    let Ok(object) = heap.alloc_object(class, &[Value::Int(1), Value::Long(2), Value::Ref(None)])
    else {
        return said(alloc, "no object");
    };
    heap.set_field(object, 2, value);
    let fields = (
        heap.get_field(object, 0),
        heap.get_field(object, 1),
        heap.get_field(object, 2),
    );
    three(alloc, fields)
}

/// A new array of three elements that are null, and what they are once a value was put in the second one.
fn put_elem(
    alloc: Global,
    heap: &mut Heap,
    class: ClassNo,
    value: Value,
) -> Result<String, Unanswered> {
    let Ok(array) = heap.alloc_array(class, 3, Value::Ref(None)) else {
        return said(alloc, "no object");
    };
    heap.set_elem(array, 1, value);
    let elements = (
        heap.get_elem(array, 0),
        heap.get_elem(array, 1),
        heap.get_elem(array, 2),
    );
    three(alloc, elements)
}

/// A new StringBuilder, and the units that it has once others were put behind its own, or what refused them.
fn append(
    alloc: Global,
    heap: &mut Heap,
    units: &Units,
    more: &Units,
) -> Result<String, Unanswered> {
    let Ok(builder) = heap.alloc_text(STRING_BUILDER, units.as_slice()) else {
        return said(alloc, "no object");
    };
    let appended = heap.append(builder, more.as_slice());
    let now = units_of(alloc, heap, builder)?;
    match appended {
        Ok(true) => Ok(now),
        Ok(false) => said(alloc, "no text"),
        Err(fault) => Ok(format!(in alloc; "{fault}; {now}")?),
    }
}

/// The reference at an object's side.
fn side(alloc: Global, heap: &Heap, object: ObjNo) -> Result<String, Unanswered> {
    told(alloc, heap.side(object).map(Value::Ref))
}

fn set_side(
    alloc: Global,
    heap: &mut Heap,
    object: ObjNo,
    side: Option<ObjNo>,
) -> Result<String, Unanswered> {
    heap.set_side(object, side);
    said(alloc, "done")
}

fn class_of(alloc: Global, heap: &Heap, object: ObjNo) -> Result<String, Unanswered> {
    told_number(alloc, "", heap.class_of(object).map(|class| class.0))
}

fn size(alloc: Global, heap: &Heap) -> Result<String, Unanswered> {
    let (count, words, limit) = (heap.count(), heap.words(), heap.limit());
    Ok(format!(in alloc; "objects {count}, words {words} of {limit}")?)
}

/// The answer of a line that makes an object.
fn make(alloc: Global, heap: &mut Heap, words: &[&str]) -> Result<String, Unanswered> {
    match *words {
        ["alloc_object", class, ref fields @ ..] => {
            let fields = values(alloc, fields)?;
            made(alloc, heap.alloc_object(ClassNo(number(class)?), &fields))
        }
        ["alloc_array", class, length, first] => {
            let class = ClassNo(number(class)?);
            made(
                alloc,
                heap.alloc_array(class, number(length)?, value(first)?),
            )
        }
        ["alloc_text", class, word] => {
            let class = ClassNo(number(class)?);
            made(
                alloc,
                heap.alloc_owned_text(class, text(alloc, word)?.into_vec()),
            )
        }
        ["literal", word] => made(alloc, heap.literal(&text(alloc, word)?)),
        ["class_object", class] => made(alloc, heap.class_object(ClassNo(number(class)?))),
        ["append", first, more] => append(alloc, heap, &text(alloc, first)?, &text(alloc, more)?),
        ["put_field", class, new] => {
            put_field(alloc, heap, ClassNo(number(class)?), value(new)?)
        }
        ["put_elem", class, new] => put_elem(alloc, heap, ClassNo(number(class)?), value(new)?),
        _ => Err(Unanswered::NotCase),
    }
}

/// The answer of a line.
pub fn answer(alloc: Global, heap: &mut Heap, words: &[&str]) -> Result<String, Unanswered> {
    match *words {
        ["size"] => size(alloc, heap),
        ["class_of", at] => class_of(alloc, heap, object(at)?),
        ["side", at] => side(alloc, heap, object(at)?),
        ["set_side", at, new] => set_side(alloc, heap, object(at)?, reference(new)?),
        ["array_length", at] => told_number(alloc, "", heap.array_length(object(at)?)),
        ["text", at] => units_of(alloc, heap, object(at)?),
        ["class_named", at] => {
            told_number(
                alloc,
                "",
                heap.class_named(object(at)?).map(|class| class.0),
            )
        }
        ["class_object_made", class] => {
            let made = heap.class_object_made(ClassNo(number(class)?));
            told_number(alloc, "#", made.map(|object| object.0))
        }
        _ => make(alloc, heap, words),
    }
}
