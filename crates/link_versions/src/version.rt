//! Versions of classes: the code of each method, decoded once and made ready for running.
ghost use Rattle.std.specs.Prelude.{◌≡◌, ◌<◌, ◌^◌, ℤ, length, map, Option, Some, IsSome, IfOk, option_copied, All, IfSome, position};
ghost use Rattle.jv_names.specs.Names.{Name};
ghost use Rattle.link_versions.specs.MemberIndexes.{found_in};
ghost use Rattle.class_code.specs.CodeReading.{list_of};
ghost use Rattle.class_code.specs.Listing.{IsRising};
ghost use Rattle.class_tree.specs.Tree.{entry_at, is_named as has_names};
ghost use Rattle.link_versions.specs.ReadyCode.{int_of, long_of, ready, ready_list as made_ready, ready_code as code_ready, code_named, IsCoded};
ghost use Rattle.link_versions.specs.Entries.{IsReady, RisesIfThere};

use crate::class::{Instrs, Version};
use crate::member_index::MemberIndex;
use class_code::{CodeFault, Instr, PoolOp, decode};
use class_tree::{ClassFile, Const, Member};
use jv_names::Units;
use sqlite_items::Items;
use std::alloc::{AllocError, Global};

/// The Integer at an index of the pool.
fn int_at(tree: &ClassFile, index: u16) -> Option<i32>
    ensures { result ≡ int_of (entry_at tree.now.pool index) }
{
    match tree.entry_at(index)? {
        Const::Integer(value) => Some(*value),
        _ => None,
    }
}

/// The Long at an index of the pool.
fn long_at(tree: &ClassFile, index: u16) -> Option<i64>
    ensures { result ≡ long_of (entry_at tree.now.pool index) }
{
    match tree.entry_at(index)? {
        Const::Long(value) => Some(*value),
        _ => None,
    }
}

/// An instruction made ready for running.
#[tactic(auto, unfolding(crate::specs::ReadyCode::ready))]
fn ready_instr(tree: &ClassFile, instr: Instr) -> Instr
    ensures { result ≡ ready tree.now.pool instr }
{
    match instr {
        Instr::LoadConst(index) => match int_at(tree, u16::from(index)) {
            Some(value) => Instr::PushInt(value),
            None => Instr::LoadConst(index),
        },
        Instr::Pool(PoolOp::LoadConstWide, index) => match int_at(tree, index) {
            Some(value) => Instr::PushInt(value),
            None => Instr::Pool(PoolOp::LoadConstWide, index),
        },
        Instr::Pool(PoolOp::LoadLongConst, index) => match long_at(tree, index) {
            Some(value) => Instr::PushLong(value),
            None => Instr::Pool(PoolOp::LoadLongConst, index),
        },
        other => other,
    }
}

/// The list of a code that has one.
fn decoded(alloc: Global, bytes: &[u8]) -> Result<Vec<(u16, Instr)>, AllocError>
    requires short { length bytes.now < 2 ^ 16 }
    requires listed { IsSome (list_of bytes.now) }
    ensures list { IfOk result (λ list. list_of bytes.now ≡ Some list.items) }
    ensures rising { IfOk result (λ list. IsRising list.items) }
{
    match decode(alloc, bytes) {
        Ok(list) => Ok(list),
        Err(CodeFault::Memory) => Err(AllocError),
        Err(_) => unreachable!(),
    }
}

/// A list made ready for running.
#[tactic(auto, using(crate::proofs::RisingCode::made_rising))]
fn ready_list(
    alloc: Global,
    tree: &ClassFile,
    list: Vec<(u16, Instr)>,
) -> Result<Instrs, AllocError>
    requires { IsRising list.items }
    ensures made { IfOk result (λ instrs. instrs ≡ made_ready tree.now.pool list.items) }
    ensures rising { IfOk result IsRising }
{
    let mut instrs = Items::new(alloc);
    for (at, instr) in list {
        instrs.push((at, ready_instr(tree, instr)))?;
    }
    Ok(instrs)
}

/// The code of a method, made ready for running.
#[tactic(auto, unfolding(crate::specs::ReadyCode::ready_code))]
fn ready_code(
    alloc: Global,
    tree: &ClassFile,
    method: &Member,
) -> Result<Option<Instrs>, AllocError>
    requires { IsCoded method.now }
    ensures made { IfOk result (λ code. code ≡ code_ready tree.now.pool method.now) }
    ensures rising { IfOk result RisesIfThere }
{
    match method.code() {
        Some(code) => {
            let list = decoded(alloc, code.bytes.as_slice())?;
            Ok(Some(ready_list(alloc, tree, list)?))
        }
        None => Ok(None),
    }
}

/// The codes of the methods, in their order.
fn ready_codes(alloc: Global, tree: &ClassFile) -> Result<Items<Option<Instrs>>, AllocError>
    ensures made { IfOk result (λ codes. codes ≡ map (code_ready tree.now.pool) tree.now.methods) }
    ensures rising { IfOk result (All RisesIfThere) }
{
    let mut codes = Items::new(alloc);
    for method in tree.methods.as_slice() {
        codes.push(ready_code(alloc, tree, method)?)?;
    }
    Ok(codes)
}

/// The index of a class's fields, of which it has 65535 at most.
fn indexed_fields(alloc: Global, tree: &ClassFile) -> Result<MemberIndex, AllocError>
    ensures { IfOk result (λ index. (n d : Name) → found_in index n d ≡ position (has_names tree.now.pool n d) tree.now.fields) }
{
    MemberIndex::new(alloc, tree, tree.fields.as_slice())
}

/// The index of a class's methods, of which it has 65535 at most.
fn indexed_methods(alloc: Global, tree: &ClassFile) -> Result<MemberIndex, AllocError>
    ensures { IfOk result (λ index. (n d : Name) → found_in index n d ≡ position (has_names tree.now.pool n d) tree.now.methods) }
{
    MemberIndex::new(alloc, tree, tree.methods.as_slice())
}

impl Version {
    /// The version of a tree.
    pub(crate) fn new(alloc: Global, tree: ClassFile) -> Result<Version, AllocError>
        ensures tree { IfOk result (λ version. version.tree ≡ tree) }
        ensures ready { IfOk result IsReady }
    {
        let codes = ready_codes(alloc, &tree)?;
        let fields = indexed_fields(alloc, &tree)?;
        let methods = indexed_methods(alloc, &tree)?;
        Ok(Version {
            tree,
            codes,
            fields,
            methods,
        })
    }

    /// The code of the method of this name and this descriptor.
    #[tactic(auto, using(crate::proofs::RisingCode::rising_at))]
    pub(crate) fn code(&self, name: &Units, desc: &Units) -> Option<&[(u16, Instr)]>
        requires { IsReady self.now }
        ensures code { option_copied result ≡ code_named self.now.tree (Some name.now) (Some desc.now) }
        ensures rising { IfSome result (λ list. IsRising list.now) }
    {
        let place = self.methods.find(name, desc)?;
        match self.codes.get(place as usize)? {
            Some(list) => Some(list.as_slice()),
            None => None,
        }
    }
}
