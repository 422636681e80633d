//! The stack map of a method by itself (4.7.4).
ghost use Rattle.std.specs.Prelude.{◌≡◌, ◌<◌, [], true, Some, Ok, length, slice_get};
ghost use Rattle.class_tree.specs.CodeRules.{is_code};
ghost use Rattle.class_tree.specs.Tree.{code_of};
ghost use Rattle.type_frames.specs.TypeChecks.{map_in};
ghost use Rattle.type_states.specs.Reading.{Reads};
ghost use Rattle.type_verify.specs.Typing.{map_of, map_at};

use crate::code::{instrs_of, map_with};
use class_tree::{ClassFile, Code, Member};
use std::alloc::Global;
use type_frames::MapFault;
use type_states::{MapBounds, StackMap};

fn expand_code<'a>(
    alloc: Global,
    tree: &'a ClassFile,
    member: &'a Member,
    code: &'a Code,
) -> Result<StackMap<'a>, MapFault>
    requires { is_code tree.now.major tree.now.pool code.now ≡ true }
    ensures { Reads result (map_in tree.now member.now code.now) }
{
    let instrs = instrs_of(alloc, tree, code)?;
    map_with(alloc, tree, member, code, instrs.as_slice())
}

/// The stack map of a method without code.
#[tactic(auto, using(crate::proofs::NoInstrs::none_rise, crate::proofs::NoInstrs::none_low))]
fn no_map<'a>(alloc: Global, tree: &'a ClassFile) -> Result<StackMap<'a>, MapFault>
    ensures { Reads result (Ok []) }
{
    let bounds = MapBounds {
        pool: tree.pool.as_slice(),
        max_locals: 0,
        max_stack: 0,
        instrs: &[],
    };
    StackMap::read(alloc, bounds, &[], &[])
}

#[tactic(auto, using(type_frames::proofs::Formed::method_code))]
fn expand_member<'a>(
    alloc: Global,
    tree: &'a ClassFile,
    place: usize,
    member: &'a Member,
) -> Result<StackMap<'a>, MapFault>
    requires { slice_get tree.now.methods place ≡ Some member.now }
    ensures { Reads result (map_of tree.now member.now (code_of member.now.attrs)) }
{
    let _ = &tree.methods;
    let _ = place;
    match member.code() {
        Some(code) => expand_code(alloc, tree, member, code),
        None => no_map(alloc, tree),
    }
}

/// The type states that the stack map of a method gives (4.7.4), by the method's place among the class's methods, counted from 0. A
/// method without a stack map has none.
///
/// `Bad` comes exactly where an entry is bad, with the place of the first one. Nothing else of the method is checked. What is
/// answered borrows the class and takes memory for what the stack map lists; while it is read there is also need for the
/// instructions.
pub fn expand<'a>(
    alloc: Global,
    tree: &'a ClassFile,
    method: usize,
) -> Result<StackMap<'a>, MapFault>
    requires { method < length tree.now.methods }
    ensures { Reads result (map_at tree.now method) }
{
    let methods = tree.methods.as_slice();
    expand_member(alloc, tree, method, &methods[method])
}
