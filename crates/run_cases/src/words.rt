//! The words of a line: what they stand for, and how answers are written.

use std::alloc::{AllocError, AllocFailed, Global};
use std::fmt;
use ti_ids::{ObjNo, ThreadNo, Value};

/// Why a line has no answer.
#[derive(Drop)]
pub enum Unanswered {
    /// It is no call that is known, or its value doesn't take it.
    NotCase,
    Memory,
}

impl From<AllocError> for Unanswered {
    fn from(_: AllocError) -> Self {
        Unanswered::Memory
    }
}

impl<T: Drop> From<AllocFailed<T>> for Unanswered {
    fn from(_: AllocFailed<T>) -> Self {
        Unanswered::Memory
    }
}

/// A number, as `30`.
pub fn number(word: &str) -> Result<u32, Unanswered> {
    word.parse::<u32>().map_err(|_| Unanswered::NotCase)
}

/// A thread, as `t1`.
pub fn thread(word: &str) -> Result<ThreadNo, Unanswered> {
    let digits = word.strip_prefix('t').ok_or(Unanswered::NotCase)?;
    Ok(ThreadNo(number(digits)?))
}

/// An object, as `#3`.
pub fn object(word: &str) -> Result<ObjNo, Unanswered> {
    let digits = word.strip_prefix('#').ok_or(Unanswered::NotCase)?;
    Ok(ObjNo(number(digits)?))
}

/// An object or `null`.
pub fn reference(word: &str) -> Result<Option<ObjNo>, Unanswered> {
    if word == "null" {
        return Ok(None);
    }
    Ok(Some(object(word)?))
}

/// A value: an int, as `5`, a long, as `5L`, or a reference.
pub fn value(word: &str) -> Result<Value, Unanswered> {
    if let Ok(int) = word.parse::<i32>() {
        return Ok(Value::Int(int));
    }
    match word.strip_suffix('L') {
        Some(digits) => Ok(Value::Long(digits.parse::<i64>().map_err(|_| Unanswered::NotCase)?)),
        None => Ok(Value::Ref(reference(word)?)),
    }
}

/// The values of some words.
pub fn values(alloc: Global, words: &[&str]) -> Result<Vec<Value>, Unanswered> {
    let mut values = Vec::new(alloc);
    for word in words {
        values.push(value(word)?)?;
    }
    Ok(values)
}

/// An answer in fixed words.
pub fn said(alloc: Global, answer: &str) -> Result<String, Unanswered> {
    Ok(String::from_str(alloc, answer)?)
}

/// A value as it is written.
#[derive(Clone, Copy)]
pub struct Shown(pub Value);

impl fmt::Display for Shown {
    fn fmt<W: fmt::Write>(&self, f: &mut fmt::Formatter<W>) -> fmt::Result {
        match self.0 {
            Value::Int(int) => write!(f, "{int}"),
            Value::Long(long) => write!(f, "{long}L"),
            Value::Ref(None) => write!(f, "null"),
            Value::Ref(Some(object)) => write!(f, "#{}", object.0),
        }
    }
}

/// A value where there is one.
pub fn told(alloc: Global, value: Option<Value>) -> Result<String, Unanswered> {
    match value {
        Some(value) => Ok(format!(in alloc; "{}", Shown(value))?),
        None => said(alloc, "none"),
    }
}

/// The number of something where there is one.
pub fn told_number(alloc: Global, what: &str, number: Option<u32>) -> Result<String, Unanswered> {
    match number {
        Some(number) => Ok(format!(in alloc; "{what}{number}")?),
        None => said(alloc, "none"),
    }
}

/// How a call went that answers nothing else.
pub fn told_fault<E: fmt::Display + Drop>(
    alloc: Global,
    outcome: Result<(), E>,
) -> Result<String, Unanswered> {
    match outcome {
        Ok(()) => said(alloc, "done"),
        Err(fault) => Ok(format!(in alloc; "{fault}")?),
    }
}
