//! The arguments of cases, and the parts of answers.

use anyhow::Result;
use jv_names::Units;
use std::alloc::Global;

/// The argument at this place, or the empty text where there are not so many.
pub fn word<'a>(arguments: &[&'a str], place: usize) -> &'a str {
    arguments.get(place).copied().unwrap_or("")
}

/// Bytes, each in two hexadecimal digits.
pub fn bytes(alloc: Global, arguments: &[&str]) -> Result<Vec<u8>> {
    let mut bytes = Vec::new(alloc);
    for word in arguments {
        bytes.push(u8::from_str_radix(word, 16)?)?;
    }
    Ok(bytes)
}

/// UTF-16 units, each in four hexadecimal digits.
pub fn units(alloc: Global, arguments: &[&str]) -> Result<Units> {
    let mut units = Vec::new(alloc);
    for word in arguments {
        units.push(u16::from_str_radix(word, 16)?)?;
    }
    Ok(Units::new(units))
}

/// The first argument as a text.
pub fn text(alloc: Global, arguments: &[&str]) -> Result<Units> {
    Ok(jv_names::units_of(alloc, word(arguments, 0).as_bytes())?)
}

/// Puts a part of an answer behind those that are there, and the separator between them.
pub fn put(answer: &mut String, separator: &str, part: &str) -> Result<()> {
    if !answer.is_empty() {
        answer.push_str(separator)?;
    }
    answer.push_str(part)?;
    Ok(())
}

/// The answer, or `none` where it has no parts.
pub fn or_none(answer: String) -> Result<String> {
    let mut answer = answer;
    if answer.is_empty() {
        answer.push_str("none")?;
    }
    Ok(answer)
}

/// Bytes as they are written in cases.
pub fn bytes_text(alloc: Global, bytes: &[u8]) -> Result<String> {
    let mut text = String::new(alloc);
    for byte in bytes {
        let part = format!(in alloc; "{byte:02x}")?;
        put(&mut text, " ", part.as_str())?;
    }
    or_none(text)
}

/// Units as they are written in cases.
pub fn units_text(alloc: Global, units: &[u16]) -> Result<String> {
    let mut text = String::new(alloc);
    for unit in units {
        let part = format!(in alloc; "{unit:04x}")?;
        put(&mut text, " ", part.as_str())?;
    }
    or_none(text)
}
