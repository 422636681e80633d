//! Descriptors of fields and methods (`jv_names`).

use crate::texts::name_text;
use crate::words::text;
use anyhow::Result;
use jv_names::{
    Desc, DescFlaw, ElementType, FieldType, MethodType, field_desc, field_flaw, method_desc,
    method_flaw,
};
use std::alloc::Global;

fn element_text(alloc: Global, element: &ElementType) -> Result<String> {
    let name = match element {
        ElementType::Boolean => "boolean",
        ElementType::Byte => "byte",
        ElementType::Char => "char",
        ElementType::Short => "short",
        ElementType::Int => "int",
        ElementType::Long => "long",
        ElementType::Class(name) => return name_text(alloc, name),
    };
    Ok(String::from_str(alloc, name)?)
}

/// A type as Java writes it, but for the names of classes, which stay in internal form.
fn type_text(alloc: Global, field: &FieldType) -> Result<String> {
    let mut text = element_text(alloc, &field.element)?;
    for _ in 0..field.dimensions {
        text.push_str("[]")?;
    }
    Ok(text)
}

/// The result, and the parameters in parentheses.
fn method_text(alloc: Global, method: &MethodType) -> Result<String> {
    let mut text = match &method.result {
        Some(result) => type_text(alloc, result)?,
        None => String::from_str(alloc, "void")?,
    };
    text.push_str(" (")?;
    for (i, parameter) in method.parameters.as_slice().iter().enumerate() {
        if i > 0 {
            text.push_str(", ")?;
        }
        text.push_str(type_text(alloc, parameter)?.as_str())?;
    }
    text.push(')')?;
    Ok(text)
}

fn desc_text(alloc: Global, desc: &Desc) -> Result<String> {
    match desc {
        Desc::Field(field) => type_text(alloc, field),
        Desc::Method(method) => method_text(alloc, method),
    }
}

/// `field_desc TEXT`
pub fn read_field(alloc: Global, arguments: &[&str]) -> Result<String> {
    desc_text(alloc, &field_desc(alloc, &text(alloc, arguments)?)?)
}

/// `method_desc TEXT`
pub fn read_method(alloc: Global, arguments: &[&str]) -> Result<String> {
    desc_text(alloc, &method_desc(alloc, &text(alloc, arguments)?)?)
}

fn flaw_text(alloc: Global, flaw: Option<DescFlaw>) -> Result<String> {
    match flaw {
        Some(flaw) => Ok(flaw.to_string(alloc)?),
        None => Ok(String::from_str(alloc, "none")?),
    }
}

/// `field_flaw TEXT`
pub fn flaw_of_field(alloc: Global, arguments: &[&str]) -> Result<String> {
    flaw_text(alloc, field_flaw(&text(alloc, arguments)?))
}

/// `method_flaw TEXT`
pub fn flaw_of_method(alloc: Global, arguments: &[&str]) -> Result<String> {
    flaw_text(alloc, method_flaw(&text(alloc, arguments)?))
}
