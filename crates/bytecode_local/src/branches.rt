ghost use Rattle.std.specs.Prelude.{◌≡◌};
ghost use Rattle.bytecode_local.specs.Branching.{same_reference, branched};

use crate::change::Change;
use crate::kinds::{int_at, reference_at};
use class_code::Branch;
use jv_number::holds;
use thread_frames::Operands;
use ti_ids::ObjNo;

/// Whether both are null, or both refer to the same object.
fn is_same_reference(a: Option<ObjNo>, b: Option<ObjNo>) -> bool
    ensures { result ≡ same_reference a b }
{
    match (a, b) {
        (None, None) => true,
        (Some(a), Some(b)) => a.0 == b.0,
        (_, _) => false,
    }
}

/// What a branch changes that leads so far.
pub(crate) fn branch(when: Branch, by: i32, stack: &Operands) -> Option<Change>
    ensures { result ≡ branched when by stack.now }
{
    match when {
        Branch::If(condition) => {
            let value = int_at(stack, 0)?;
            Some(Change::jumping(1, holds(condition, value, 0), by))
        }
        Branch::IfIntCompare(condition) => {
            let value2 = int_at(stack, 0)?;
            let value1 = int_at(stack, 1)?;
            Some(Change::jumping(2, holds(condition, value1, value2), by))
        }
        Branch::IfSameReference => {
            let value2 = reference_at(stack, 0)?;
            let value1 = reference_at(stack, 1)?;
            Some(Change::jumping(2, is_same_reference(value1, value2), by))
        }
        Branch::IfOtherReference => {
            let value2 = reference_at(stack, 0)?;
            let value1 = reference_at(stack, 1)?;
            Some(Change::jumping(2, !is_same_reference(value1, value2), by))
        }
        Branch::Goto => Some(Change::jumping(0, true, by)),
        Branch::IfNull => Some(Change::jumping(1, reference_at(stack, 0)?.is_none(), by)),
        Branch::IfNonNull => Some(Change::jumping(1, reference_at(stack, 0)?.is_some(), by)),
    }
}
