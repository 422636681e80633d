ghost use Rattle.std.specs.Prelude.{◌≡◌, map};
ghost use Rattle.std.specs.List.{list_any};
ghost use Rattle.base_set.specs.BaseSet.{has_name, is_base as names_base};
ghost use Rattle.base_set.specs.Rows.{class_of, error_of};

use crate::table::{ClassRow, ErrorRow, class_rows, error_rows};
use jv_names::Units;

fn names_class(name: &Units, rows: &[ClassRow]) -> bool
    ensures { result ≡ list_any (λ row. has_name name.now (class_of row)) rows.now }
{
    rows.iter().any(|class| name.is_text(class.name))
}

fn names_error(name: &Units, rows: &[ErrorRow]) -> bool
    ensures { result ≡ list_any (λ row. has_name name.now (error_of row)) rows.now }
{
    rows.iter().any(|error| name.is_text(error.name))
}

/// Whether a name, in internal form, is that of a base class. It takes no memory.
pub fn is_base(name: &Units) -> bool
    ensures { result ≡ names_base name.now }
{
    names_class(name, class_rows()) || names_error(name, error_rows())
}
