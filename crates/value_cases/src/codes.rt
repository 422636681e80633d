//! The instructions of a method's code (`class_code`).

ghost use Rattle.std.specs.Prelude.{◌<◌, ◌^◌, length, IfOk};

use crate::mnemonics::mnemonic;
use crate::words::{bytes, bytes_text, or_none, put, word};
use anyhow::{Result, ensure};
use class_code::{PoolUse, begins_at, decode, instr_at, length_at, pool_use_at};
use code_index::Code;
use std::alloc::Global;

/// The bytes of a method's code.
fn code(alloc: Global, arguments: &[&str]) -> Result<Vec<u8>>
    ensures { IfOk result (λ code. length code.items < 2 ^ 16) }
{
    let code = bytes(alloc, arguments)?;
    ensure!(code.len() < 65536, "more bytes than a code has");
    Ok(code)
}

/// `decode BYTES`: each instruction's offset and name.
pub fn list(alloc: Global, arguments: &[&str]) -> Result<String> {
    let mut text = String::new(alloc);
    for (at, instr) in decode(alloc, &code(alloc, arguments)?)?.iter() {
        let name = mnemonic(instr);
        let part = format!(in alloc; "{at} {name}")?;
        put(&mut text, ", ", part.as_str())?;
    }
    or_none(text)
}

/// `length_at OFFSET BYTES`: how long the instruction is that begins there.
pub fn length(alloc: Global, arguments: &[&str]) -> Result<String> {
    let at = word(arguments, 0).parse()?;
    let code = code(alloc, arguments.get(1..).unwrap_or(&[]))?;
    match length_at(&code, at) {
        Some(length) => Ok(length.to_string(alloc)?),
        None => Ok(String::from_str(alloc, "none")?),
    }
}

/// What an entry of the constant pool must be.
fn use_name(used: PoolUse) -> &'static str {
    match used {
        PoolUse::Loadable => "loadable constant",
        PoolUse::Long => "long",
        PoolUse::Field => "field",
        PoolUse::Method => "method",
        PoolUse::MethodOrInterfaceMethod => "method or interface method",
        PoolUse::InterfaceMethod => "interface method",
        PoolUse::Class => "class",
    }
}

fn use_text(alloc: Global, used: Option<(u16, PoolUse)>) -> Result<String> {
    match used {
        Some((index, used)) => {
            let name = use_name(used);
            Ok(format!(in alloc; "{index} {name}")?)
        }
        None => Ok(String::from_str(alloc, "none")?),
    }
}

/// `pool_use_at BYTES`: the index into the constant pool behind an opcode, and what it must name.
pub fn pool_use(alloc: Global, arguments: &[&str]) -> Result<String> {
    use_text(alloc, pool_use_at(&bytes(alloc, arguments)?))
}

/// `instr_at BYTES`: the instruction at the front, what its index into the constant pool must name, and the bytes behind it.
pub fn read_one(alloc: Global, arguments: &[&str]) -> Result<String> {
    let bytes = bytes(alloc, arguments)?;
    ensure!(!bytes.is_empty(), "no bytes");
    let (instr, rest) = instr_at(alloc, 0, &bytes)?;
    let mut text = String::from_str(alloc, mnemonic(&instr))?;
    put(
        &mut text,
        ", pool ",
        use_text(alloc, instr.pool_use())?.as_str(),
    )?;
    put(&mut text, ", rest ", bytes_text(alloc, rest)?.as_str())?;
    Ok(text)
}

/// `begins_at OFFSET BYTES`: whether the instruction at the front, alone in a list, begins there.
pub fn begins(alloc: Global, arguments: &[&str]) -> Result<String> {
    let at = word(arguments, 0).parse()?;
    let bytes = bytes(alloc, arguments.get(1..).unwrap_or(&[]))?;
    ensure!(!bytes.is_empty(), "no bytes");
    let (instr, _) = instr_at(alloc, 0, &bytes)?;
    Ok(begins_at(&[(0, instr)], at).to_string(alloc)?)
}

/// `entry_at OFFSET BYTES`: the instruction that begins there, and where the next one does, by an index of the code.
pub fn entry(alloc: Global, arguments: &[&str]) -> Result<String> {
    let at = word(arguments, 0).parse()?;
    let code = code(alloc, arguments.get(1..).unwrap_or(&[]))?;
    let code = Code::new(alloc, decode(alloc, &code)?)?;
    let Some((instr, next)) = code.entry_at(at) else {
        return Ok(String::from_str(alloc, "none")?);
    };
    let name = mnemonic(instr);
    match next {
        Some(next) => Ok(format!(in alloc; "{name}, then {next}")?),
        None => Ok(format!(in alloc; "{name}, the last")?),
    }
}
