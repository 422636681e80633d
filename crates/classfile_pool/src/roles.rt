ghost use Rattle.std.specs.Prelude.{◌≡◌, IfOk, map};
ghost use Rattle.jv_names.specs.Names.{is_class_name, is_member_name, is_method_name};
ghost use Rattle.class_tree.specs.PoolRules.{begins_with, class_text_flaw};
ghost use Rattle.classfile_pool.specs.TextRoles.{marks_of, roles_of, roles_at};

use class_tree::Const;
use jv_names::{DescFlaw, Units, field_flaw, method_flaw};
use sqlite_items::Items;
use std::alloc::{AllocError, Global};

/// What a text may serve as.
#[derive(Clone, Copy)]
pub struct Roles {
    /// Why no class may have it as its text (4.4.1).
    pub class: Option<DescFlaw>,
    /// It is the name of a class that is no array (4.2.1).
    pub plain_class: bool,
    pub field_name: bool,
    pub method_name: bool,
    /// Why it is no field descriptor (4.3.2).
    pub field_desc: Option<DescFlaw>,
    /// Why it is no method descriptor (4.3.3).
    pub method_desc: Option<DescFlaw>,
    /// It begins as a method descriptor does.
    pub begins_method: bool,
}

fn begins_with(text: &Units, unit: u16) -> bool
    ensures { result ≡ begins_with unit text.now }
{
    match text.as_slice() {
        [first, ..] => *first == unit,
        [] => false,
    }
}

/// Which units a text has that names may not have.
#[derive(Clone, Copy)]
struct Marks {
    /// `.`, `;` or `[`, which no part of a class's name may have.
    stop: bool,
    /// `/`, which stands between the parts of a class's name.
    slash: bool,
    /// `<` or `>`.
    angle: bool,
}

/// Looks a text through once, with no branch in the loop.
fn marks_of(units: &[u16]) -> Marks
    ensures { result ≡ marks_of units.now }
{
    let mut stop = false;
    let mut slash = false;
    let mut angle = false;
    for unit in units {
        stop |= (*unit == 46) | (*unit == 59) | (*unit == 91);
        slash |= *unit == 47;
        angle |= (*unit == 60) | (*unit == 62);
    }
    Marks { stop, slash, angle }
}

/// Whether the text is the name of a class that is no array (4.2.1). Its parts are only looked at where it may have several.
#[tactic(auto, using(crate::proofs::TextMarks::stop_named, crate::proofs::TextMarks::one_part_named))]
fn is_plain_class(text: &Units, marks: Marks) -> bool
    requires { marks ≡ marks_of text.now }
    ensures { result ≡ is_class_name text.now }
{
    if marks.stop {
        false
    } else if marks.slash {
        text.is_class_name()
    } else {
        !text.as_slice().is_empty()
    }
}

/// Whether the text may be the name of a field (4.2.2).
#[tactic(auto, using(crate::proofs::TextMarks::stop_member, crate::proofs::TextMarks::slash_member, crate::proofs::TextMarks::one_part_member))]
fn is_field_name(text: &Units, marks: Marks) -> bool
    requires { marks ≡ marks_of text.now }
    ensures { result ≡ is_member_name text.now }
{
    if marks.stop {
        false
    } else if marks.slash {
        false
    } else {
        !text.as_slice().is_empty()
    }
}

/// Whether the text may be the name of a method (4.2.2). Only one with `<` or `>` may be a special name.
#[tactic(auto, using(crate::proofs::TextMarks::method_named))]
fn is_method_name(text: &Units, marks: Marks) -> bool
    requires { marks ≡ marks_of text.now }
    ensures { result ≡ is_method_name text.now }
{
    if marks.angle {
        text.is_method_name()
    } else {
        is_field_name(text, marks)
    }
}

/// Looks a text through.
fn roles_of(text: &Units) -> Roles
    ensures { result ≡ roles_of text.now }
{
    let marks = marks_of(text.as_slice());
    let plain_class = is_plain_class(text, marks);
    let field_desc = field_flaw(text);
    let class = if plain_class {
        None
    } else if begins_with(text, 91) {
        field_desc
    } else {
        Some(DescFlaw::Bad)
    };
    Roles {
        class,
        plain_class,
        field_name: is_field_name(text, marks),
        method_name: is_method_name(text, marks),
        field_desc,
        method_desc: method_flaw(text),
        begins_method: begins_with(text, 40),
    }
}

fn roles_at(entry: &Const) -> Option<Roles>
    ensures { result ≡ roles_at entry.now }
{
    match entry {
        Const::Utf8(text) => Some(roles_of(text)),
        _ => None,
    }
}

/// What each entry may serve as, if it is a text.
pub fn all_roles(alloc: Global, entries: &[Const]) -> Result<Items<Option<Roles>>, AllocError>
    ensures { IfOk result (λ roles. roles ≡ map roles_at entries.now) }
{
    let mut roles = Vec::with_capacity(alloc, entries.len())?;
    for entry in entries {
        roles.push(roles_at(entry))?;
    }
    Ok(Items::from_vec(roles))
}
