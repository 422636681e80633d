//! The arithmetic of int and long (`jv_number`), called by the instructions' names.

use crate::words::word;
use anyhow::{Result, bail};
use class_code::{Arithmetic, Condition, Conversion};
use jv_number::{arith, compare, convert, holds, negate};
use std::alloc::Global;
use ti_ids::Value;

fn operation(name: &str) -> Option<Arithmetic> {
    match name {
        "add" => Some(Arithmetic::Add),
        "sub" => Some(Arithmetic::Sub),
        "mul" => Some(Arithmetic::Mul),
        "div" => Some(Arithmetic::Div),
        "rem" => Some(Arithmetic::Rem),
        "neg" => Some(Arithmetic::Neg),
        "shl" => Some(Arithmetic::Shl),
        "shr" => Some(Arithmetic::Shr),
        "ushr" => Some(Arithmetic::Ushr),
        "and" => Some(Arithmetic::And),
        "or" => Some(Arithmetic::Or),
        "xor" => Some(Arithmetic::Xor),
        _ => None,
    }
}

fn condition(name: &str) -> Option<Condition> {
    match name {
        "eq" => Some(Condition::Eq),
        "ne" => Some(Condition::Ne),
        "lt" => Some(Condition::Lt),
        "ge" => Some(Condition::Ge),
        "gt" => Some(Condition::Gt),
        "le" => Some(Condition::Le),
        _ => None,
    }
}

/// What an operation leaves of two ints, or of the first.
fn of_ints(op: Arithmetic, left: &str, right: &str) -> Result<Value> {
    let left = Value::Int(left.parse()?);
    match op {
        Arithmetic::Neg => Ok(negate(left)),
        _ => Ok(arith(op, left, Value::Int(right.parse()?))?),
    }
}

/// What an operation leaves of two longs, of a long and an int, or of the first.
fn of_longs(op: Arithmetic, left: &str, right: &str) -> Result<Value> {
    let left = Value::Long(left.parse()?);
    match op {
        Arithmetic::Neg => Ok(negate(left)),
        Arithmetic::Shl | Arithmetic::Shr | Arithmetic::Ushr => {
            Ok(arith(op, left, Value::Int(right.parse()?))?)
        }
        _ => Ok(arith(op, left, Value::Long(right.parse()?))?),
    }
}

fn converted(name: &str, number: &str) -> Result<Value> {
    match name {
        "i2l" => Ok(convert(Conversion::IntToLong, Value::Int(number.parse()?))),
        "l2i" => Ok(convert(Conversion::LongToInt, Value::Long(number.parse()?))),
        "i2b" => Ok(convert(Conversion::IntToByte, Value::Int(number.parse()?))),
        "i2c" => Ok(convert(Conversion::IntToChar, Value::Int(number.parse()?))),
        "i2s" => Ok(convert(Conversion::IntToShort, Value::Int(number.parse()?))),
        _ => bail!("not a case"),
    }
}

fn value_of(name: &str, left: &str, right: &str) -> Result<Value> {
    if let Some(op) = name.strip_prefix('i').and_then(operation) {
        return of_ints(op, left, right);
    }
    if let Some(op) = name.strip_prefix('l').and_then(operation) {
        return of_longs(op, left, right);
    }
    converted(name, left)
}

/// `INSTRUCTION NUMBER ..`: what it leaves, or for a branch whether it is taken.
pub fn answer(alloc: Global, name: &str, arguments: &[&str]) -> Result<String> {
    let (left, right) = (word(arguments, 0), word(arguments, 1));
    if name == "lcmp" {
        return Ok(compare(left.parse()?, right.parse()?).to_string(alloc)?);
    }
    if let Some(condition) = name.strip_prefix("if_icmp").and_then(condition) {
        return Ok(holds(condition, left.parse()?, right.parse()?).to_string(alloc)?);
    }
    match value_of(name, left, right)? {
        Value::Int(number) => Ok(number.to_string(alloc)?),
        Value::Long(number) => Ok(number.to_string(alloc)?),
        Value::Ref(_) => bail!("a reference"),
    }
}
