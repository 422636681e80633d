//! The file `Add.class` with an edit.

use anyhow::{Context, Result, bail};
use std::alloc::Global;

/// The bytes from one offset to another, which the file must have.
fn part(bytes: &[u8], from: usize, to: usize) -> Result<&[u8]> {
    bytes.get(from..to).context("the file is shorter")
}

fn changed(alloc: Global, add: &[u8], offset: &str, byte: &str) -> Result<Vec<u8>> {
    let mut bytes = add.to_vec(alloc)?;
    let place = bytes.get_mut(offset.parse::<usize>()?);
    *place.context("the file is shorter")? = u8::from_str_radix(byte, 16)?;
    Ok(bytes)
}

fn longer(alloc: Global, add: &[u8], zeros: usize) -> Result<Vec<u8>> {
    let mut bytes = add.to_vec(alloc)?;
    bytes.extend_from_slice(&vec![in alloc; 0u8; zeros]?)?;
    Ok(bytes)
}

/// With two methods, which are the same. The number of methods ends at 205, and the method from 206 to 241.
fn method_twice(alloc: Global, add: &[u8]) -> Result<Vec<u8>> {
    let mut bytes = part(add, 0, 205)?.to_vec(alloc)?;
    bytes.push(2)?;
    bytes.extend_from_slice(part(add, 206, 242)?)?;
    bytes.extend_from_slice(part(add, 206, add.len())?)?;
    Ok(bytes)
}

/// With another name of the class, which stands from 13 to 15, behind its length.
fn renamed(alloc: Global, add: &[u8], name: &[u8]) -> Result<Vec<u8>> {
    let mut bytes = part(add, 0, 11)?.to_vec(alloc)?;
    bytes.extend_from_slice(&u16::try_from(name.len())?.to_be_bytes())?;
    bytes.extend_from_slice(name)?;
    bytes.extend_from_slice(part(add, 16, add.len())?)?;
    Ok(bytes)
}

/// With another code, which stands from 228 to 237. Its length and that of its attribute stand before it.
fn recoded(alloc: Global, add: &[u8], code: &[u8]) -> Result<Vec<u8>> {
    let length = u32::from(u16::try_from(code.len())?);
    let mut bytes = part(add, 0, 216)?.to_vec(alloc)?;
    bytes.extend_from_slice(&(length + 12).to_be_bytes())?;
    bytes.extend_from_slice(part(add, 220, 224)?)?;
    bytes.extend_from_slice(&length.to_be_bytes())?;
    bytes.extend_from_slice(code)?;
    bytes.extend_from_slice(part(add, 238, add.len())?)?;
    Ok(bytes)
}

/// The file with an edit.
pub fn edited(alloc: Global, add: &[u8], edit: &str) -> Result<Vec<u8>> {
    let (kind, value) = edit.split_once('=').unwrap_or((edit, ""));
    match kind {
        "whole" => Ok(add.to_vec(alloc)?),
        "twice" => method_twice(alloc, add),
        "first" => Ok(part(add, 0, value.parse::<usize>()?)?.to_vec(alloc)?),
        "more" => longer(alloc, add, value.parse::<usize>()?),
        "name" => renamed(alloc, add, value.as_bytes()),
        "name_hex" => renamed(alloc, add, &hex::decode(alloc, value)?),
        "code" => recoded(alloc, add, &hex::decode(alloc, value)?),
        _ => changed(alloc, add, kind, value),
    }
}
