//! Texts, names and how they are printed (`jv_names`).

use crate::words::{bytes, bytes_text, or_none, put, text, units, units_text, word};
use anyhow::Result;
use jv_names::{Units, decimal, front_units, is_class_name, printed, units_of, utf8_of};
use std::alloc::Global;

/// `units_of BYTES`: the units of a text in modified UTF-8.
pub fn units_of_bytes(alloc: Global, arguments: &[&str]) -> Result<String> {
    let units = units_of(alloc, &bytes(alloc, arguments)?)?;
    units_text(alloc, units.as_slice())
}

/// `utf8_of UNITS`: the bytes of a text in modified UTF-8.
pub fn utf8_of_units(alloc: Global, arguments: &[&str]) -> Result<String> {
    let units = units(alloc, arguments)?;
    bytes_text(alloc, &utf8_of(alloc, &units)?)
}

/// `front_units BYTES`: the units that the bytes begin with, and the bytes behind them.
pub fn front_of_bytes(alloc: Global, arguments: &[&str]) -> Result<String> {
    let bytes = bytes(alloc, arguments)?;
    let (front, rest) = front_units(alloc, &bytes)?;
    let mut text = units_text(alloc, front.as_slice())?;
    put(&mut text, ", then ", bytes_text(alloc, rest)?.as_str())?;
    Ok(text)
}

/// `same TEXT TEXT`
pub fn compare(alloc: Global, arguments: &[&str]) -> Result<String> {
    let left = Units::from_ascii(alloc, word(arguments, 0).as_bytes())?;
    let right = Units::from_ascii(alloc, word(arguments, 1).as_bytes())?.clone_in(alloc)?;
    Ok(left.same(&right).to_string(alloc)?)
}

/// `is_text TEXT TEXT`
pub fn compare_bytes(alloc: Global, arguments: &[&str]) -> Result<String> {
    let left = Units::from_ascii(alloc, word(arguments, 0).as_bytes())?;
    Ok(
        left.is_text(word(arguments, 1).as_bytes())
            .to_string(alloc)?,
    )
}

/// `may_name TEXT`: of a class, a field and a method, those whose name the text may be.
pub fn may_name(alloc: Global, arguments: &[&str]) -> Result<String> {
    let name = text(alloc, arguments)?;
    let mut answer = String::new(alloc);
    if name.is_class_name() {
        put(&mut answer, ", ", "class")?;
    }
    if name.is_member_name() {
        put(&mut answer, ", ", "field")?;
    }
    if name.is_method_name() {
        put(&mut answer, ", ", "method")?;
    }
    or_none(answer)
}

/// `is_class_name TEXT`, of bytes of ASCII.
pub fn class_name(alloc: Global, arguments: &[&str]) -> Result<String> {
    Ok(is_class_name(word(arguments, 0).as_bytes()).to_string(alloc)?)
}

/// A name as reports print it.
pub fn name_text(alloc: Global, name: &Units) -> Result<String> {
    Ok(String::from_utf8(printed(alloc, name)?)?)
}

/// `printed UNITS`
pub fn printed_units(alloc: Global, arguments: &[&str]) -> Result<String> {
    name_text(alloc, &units(alloc, arguments)?)
}

/// `decimal NUMBER`
pub fn decimal_number(alloc: Global, arguments: &[&str]) -> Result<String> {
    let text = decimal(alloc, word(arguments, 0).parse()?)?;
    Ok(String::from_utf8(text)?)
}
