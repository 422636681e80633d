ghost use Rattle.std.specs.Prelude.{◌≡◌, ◌<◌, IsTrue, length};
ghost use Rattle.thread_frames.specs.Operands.{value_words};
ghost use Rattle.bytecode_local.specs.Changes.{has_places, has_long, with_one, with_value};
ghost use Rattle.bytecode_local.specs.Locals.{loaded, stored, incremented};

use crate::change::Change;
use crate::kinds::{is_category_two, is_kind, kind_at};
use class_code::Kind;
use thread_frames::{Locals, Operands};
use ti_ids::Value;

/// How many words a value takes: as many local variables, and as much room of an operand stack.
pub(crate) fn value_words(value: Value) -> usize
    ensures { result ≡ value_words value }
{
    match value {
        Value::Long(_) => 2,
        _ => 1,
    }
}

/// Whether each local variable is there that a value takes from this one on.
pub(crate) fn has_places(locals: &Locals, place: u16, value: Value) -> bool
    ensures { result ≡ has_places locals.now place value }
{
    place as usize + value_words(value) <= locals.len()
}

fn has_long(locals: &Locals, place: usize) -> bool
    ensures { result ≡ has_long locals.now place }
{
    match locals.get(place) {
        Some(value) => is_category_two(value),
        None => false,
    }
}

/// Stores a value in one local variable, and the int 0 in the other one of each long that had it.
fn store_one(locals: &mut Locals, place: usize, value: Value)
    requires { place < length locals.old }
    ensures { locals.new ≡ with_one locals.old place value }
{
    if has_long(locals, place) && locals.len() - place > 1 {
        locals.set(place + 1, Value::Int(0));
    }
    if place > 0 && has_long(locals, place - 1) {
        locals.set(place - 1, Value::Int(0));
    }
    locals.set(place, value);
}

/// Stores a value: a long in two local variables.
pub(crate) fn store(locals: &mut Locals, place: u16, value: Value)
    requires { IsTrue (has_places locals.old place value) }
    ensures { locals.new ≡ with_value locals.old place value }
{
    let place = place as usize;
    if is_category_two(value) {
        store_one(locals, place + 1, Value::Int(0));
    }
    store_one(locals, place, value);
}

/// What a load changes.
pub(crate) fn load_change(kind: Kind, place: u16, locals: &Locals) -> Option<Change>
    ensures { result ≡ loaded kind place locals.now }
{
    let value = locals.get(place as usize)?;
    if is_kind(kind, value) && has_places(locals, place, value) {
        Some(Change::pushing(value))
    } else {
        None
    }
}

/// What a store changes.
pub(crate) fn store_change(kind: Kind, place: u16, stack: &Operands) -> Option<Change>
    ensures { result ≡ stored kind place stack.now }
{
    let value = kind_at(kind, stack, 0)?;
    Some(Change::storing(1, place, value))
}

/// What `iinc` changes.
#[tactic(auto, using(std::proofs::lemmas::Int::wraps))]
pub(crate) fn increment_change(place: u16, by: i32, locals: &Locals) -> Option<Change>
    ensures { result ≡ incremented place by locals.now }
{
    match locals.get(place as usize)? {
        Value::Int(number) => Some(Change::storing(0, place, Value::Int(number.wrapping_add(by)))),
        _ => None,
    }
}
