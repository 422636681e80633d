ghost use Rattle.std.specs.Prelude.{◌≡◌, ◌++◌, IsTrue, true, map, OnOk, IfOk, Some};
ghost use Rattle.std.specs.List.{list_all};
ghost use Rattle.base_set.specs.BaseSet.{base_set};
ghost use Rattle.base_set.specs.BaseTrees.{base_tree};
ghost use Rattle.base_set.specs.Says.{Says, AllSay};
ghost use Rattle.base_set.specs.Rows.{class_of, error_of, is_ready, is_well_formed_error};

use crate::entries::{put_class, put_classes, put_super, put_text};
use crate::members::{put_fields, put_methods};
use crate::table::{CLASS, ClassRow, ERROR_METHODS, ErrorRow, class_rows, error_rows};
use class_tree::{ClassFile, Flags};
use sqlite_items::Items;
use std::alloc::{AllocError, Global};

/// The version of each base class.
const MAJOR: u16 = 52;

fn base_class(alloc: Global, row: &ClassRow) -> Result<ClassFile, AllocError>
    requires { IsTrue (is_ready row.now) }
    ensures { IfOk result (λ tree. tree ≡ base_tree (class_of row.now)) }
{
    let mut pool = Items::new(alloc);
    put_text(alloc, &mut pool, b"Code")?;
    let this_class = put_class(alloc, &mut pool, row.name)?;
    let super_class = put_super(alloc, &mut pool, row.superclass)?;
    let interfaces = put_classes(alloc, &mut pool, row.interfaces)?;
    let fields = put_fields(alloc, &mut pool, row.fields)?;
    let methods = put_methods(alloc, &mut pool, row.methods)?;
    Ok(ClassFile {
        minor: 0,
        major: MAJOR,
        pool,
        flags: Flags { bits: row.flags },
        this_class,
        super_class,
        interfaces,
        fields,
        methods,
        attrs: Items::new(alloc),
    })
}

/// What is said of an error class, which has no more than its names of its own.
fn error_row(error: &ErrorRow) -> ClassRow
    ensures said { class_of result ≡ error_of error.now }

    // Nothing else is asked of such a row.
    ensures ready { is_ready result ≡ is_well_formed_error error.now }
{
    ClassRow {
        name: error.name,
        flags: CLASS,
        superclass: Some(error.superclass),
        interfaces: &[],
        fields: &[],
        methods: &ERROR_METHODS,
    }
}

fn error_class(alloc: Global, error: &ErrorRow) -> Result<ClassFile, AllocError>
    requires { IsTrue (is_well_formed_error error.now) }
    ensures { IfOk result (λ tree. tree ≡ base_tree (error_of error.now)) }
{
    base_class(alloc, &error_row(error))
}

fn add_classes(
    alloc: Global,
    classes: &mut Vec<ClassFile>,
    rows: &[ClassRow],
) -> Result<(), AllocError>
    requires { IsTrue (list_all is_ready rows.now) }
    ensures { OnOk result (classes.new.items ≡ classes.old.items ++ map (λ row. base_tree (class_of row)) rows.now) }
{
    for row in rows {
        classes.push(base_class(alloc, row)?)?;
    }
    Ok(())
}

fn add_errors(
    alloc: Global,
    classes: &mut Vec<ClassFile>,
    rows: &[ErrorRow],
) -> Result<(), AllocError>
    requires { IsTrue (list_all is_well_formed_error rows.now) }
    ensures { OnOk result (classes.new.items ≡ classes.old.items ++ map (λ row. base_tree (error_of row)) rows.now) }
{
    for row in rows {
        classes.push(error_class(alloc, row)?)?;
    }
    Ok(())
}

/// The base classes, in the order of their table: the first is `Object`, and the error classes are the last. They are 41.
///
/// Each has version 52.0 and no attribute, and `Object` alone has no superclass. Fields and methods stand in the table's
/// order: constructors first, and overloads by their parameter, int, long, char, boolean and `String`. `PrintStream` has
/// `println` of these five, then `print` of the same, then `println` without a parameter. A method that isn't abstract has
/// the code `aconst_null`, `athrow`, which is never run, for a stack of one and the local variables of its
/// parameters, `this` among them.
///
/// Fails only where memory is refused.
pub fn base_classes(alloc: Global) -> Result<Vec<ClassFile>, AllocError>
    ensures laid_out { IfOk result (λ classes. classes.items ≡ map base_tree base_set) }
    ensures said { IfOk result (λ classes. AllSay Says base_set classes.items) }
{
    let mut classes = Vec::new(alloc);
    add_classes(alloc, &mut classes, class_rows())?;
    add_errors(alloc, &mut classes, error_rows())?;
    Ok(classes)
}
