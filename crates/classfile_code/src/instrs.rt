ghost use Rattle.std.specs.Prelude.{◌≡◌, ◌+◌, ◌<◌, ◌≤◌, ◌^◌, length, take, All, IfOk, Some, None, option_copied, option_map};
ghost use Rattle.class_code.specs.Listing.{astray};
ghost use Rattle.class_tree.specs.CodeRules.{meets, is_met, is_place};
ghost use Rattle.classfile_items.specs.Reading.{Mirrors, Reads};
ghost use Rattle.classfile_code.specs.CodeReading.{stopped, instr_of, instrs};

use class_code::{
    Instr, InstrFault, PoolUse, Unread, begins_at, first_astray, instr_at, pool_use_at,
};
use class_tree::{Const, entry_at};
use classfile_items::{ReadClassFault, offset};
use sqlite_items::Items;
use std::alloc::Global;
use std::marker::Model;

/// The instructions of a code, each with its offset in bytes, in the order of the code: their offsets rise.
#[derive(Drop)]
pub struct Listing {
    list: Items<(u16, Instr)>,
}

impl Model for Listing {
    ghost use Rattle.std.specs.Prelude.{ℕ, List};
    ghost use Rattle.std.specs.List.Sorted.{IsNonDecreasingBy};
    ghost use Rattle.class_code.specs.declared.instr.Instr.{Instr};

    ghost Value = { List (ℕ × Instr) };

    ghost view = { λ l. l.list };

    ghost invariant = { λ l. IsNonDecreasingBy (λ p. p.0) l.list };
}

impl Listing {
    /// Whether an instruction begins at this offset. It is found by halving.
    pub fn begins_at(&self, at: u16) -> bool
        ensures { result ≡ is_place self.now at }
    {
        begins_at(self.list.as_slice(), at)
    }

    /// The offset of the first instruction that leads to where none begins.
    pub fn first_astray(&self) -> Option<u16>
        ensures { result ≡ option_map (λ p. p.0) (astray self.now) }
    {
        first_astray(self.list.as_slice())
    }
}

/// Where a code begins, and what its instructions are read by.
#[derive(Drop)]
struct CodeStart<'p> {
    /// The major number of the class's version.
    major: u16,
    pool: &'p [Const],
    /// The file's length in bytes.
    end: usize,
    /// Whether the file ends before the code does.
    cut: bool,
    /// The offset in the file of the code's first byte.
    at: usize,
}

/// Whether an entry may be used so in a class of this major version (4.9.1).
fn meets(major: u16, need: PoolUse, named: Option<&Const>) -> bool
    ensures { result ≡ meets major need (option_copied named.entry) }
{
    match (need, named) {
        (PoolUse::Loadable, Some(Const::Integer(_) | Const::Text(_) | Const::Class(_))) => true,
        (PoolUse::Long, Some(Const::Long(_))) => true,
        (PoolUse::Field, Some(Const::Field(_, _))) => true,
        (PoolUse::Method, Some(Const::Method(_, _))) => true,
        (PoolUse::MethodOrInterfaceMethod, Some(Const::Method(_, _))) => true,
        (PoolUse::MethodOrInterfaceMethod, Some(Const::InterfaceMethod(_, _))) => major == 52,
        (PoolUse::InterfaceMethod, Some(Const::InterfaceMethod(_, _))) => true,
        (PoolUse::Class, Some(Const::Class(_))) => true,
        _ => false,
    }
}

/// Whether the index of an instruction, if it has one, names an entry that may be used so.
fn is_met(major: u16, pool: &[Const], used: Option<(u16, PoolUse)>) -> bool
    ensures { result ≡ is_met major pool.now used }
{
    match used {
        Some((index, need)) => meets(major, need, entry_at(pool, index)),
        None => true,
    }
}

/// The fault of an instruction at this offset of the file.
fn stopped(start: &CodeStart<'_>, at: usize, why: InstrFault) -> ReadClassFault
    ensures { result ≡ stopped start.now.end start.now.cut at why }
{
    match why {
        InstrFault::Floating => ReadClassFault::Floating(at),
        InstrFault::Unsupported => ReadClassFault::Unsupported(at),
        InstrFault::BadOperand => ReadClassFault::BadCode(at),
        InstrFault::Truncated if start.cut => ReadClassFault::Truncated(start.end),
        InstrFault::Truncated => ReadClassFault::BadCode(at),
    }
}

/// The instruction at an offset of the code, of which these bytes are there. Its index is looked up before the rest of it is
/// read.
fn instr_of<'a>(
    alloc: Global,
    start: &CodeStart<'_>,
    pc: usize,
    bytes: &'a [u8],
) -> Result<(Instr, &'a [u8]), ReadClassFault>
    requires some { 0 < length bytes.now }
    requires within { start.now.at + pc + 1 < 2 ^ 64 }
    ensures found { Reads result (instr_of start.now.major start.now.pool.now start.now.end start.now.cut (start.now.at + pc) pc bytes.now) }
    ensures shorter { IfOk result (λ x. length x.1.now < length bytes.now) }
{
    let at = start.at + pc;
    if !is_met(start.major, start.pool, pool_use_at(bytes)) {
        return Err(ReadClassFault::BadIndex(at + 1));
    }
    match instr_at(alloc, pc, bytes) {
        Ok(found) => Ok(found),
        Err(Unread::Memory) => Err(ReadClassFault::Memory),
        Err(Unread::Fault(why)) => Err(stopped(start, at, why)),
    }
}

/// So many of the bytes, or those that are there.
fn front(len: usize, bytes: &[u8]) -> &[u8]
    ensures { result.now ≡ take len bytes.now }
{
    bytes.get(..len).unwrap_or(bytes)
}

/// The instructions of a code of this length, as they stand in the bytes that are left of the file. Where their branches lead
/// is not looked at.
pub fn instrs(
    alloc: Global,
    major: u16,
    pool: &[Const],
    end: usize,
    len: usize,
    bytes: &[u8],
) -> Result<Listing, ReadClassFault>
    requires { len < 2 ^ 16 }
    ensures found { Mirrors (λ l. l) result (instrs major pool.now end len bytes.now) }
    ensures whole { IfOk result (λ _. len ≤ length bytes.now) }
    ensures within { IfOk result (All (λ p. p.0 < len)) }
{
    let cut = bytes.len() < len;
    let at = offset(end, bytes);
    let start = CodeStart {
        major,
        pool,
        end,
        cut,
        at,
    };
    let code = front(len, bytes);
    let mut list = Items::from_vec(Vec::with_capacity(alloc, code.len() / 2)?);
    let mut rest = code;
    'code: while !rest.is_empty() {
        let pc = code.len() - rest.len();
        let (instr, behind) = instr_of(alloc, &start, pc, rest)?;
        list.push((pc as u16, instr))?;
        rest = behind;
    }
    if cut {
        Err(ReadClassFault::Truncated(end))
    } else {
        Ok(Listing { list })
    }
}
