//! Where an instruction goes.
ghost use Rattle.std.specs.Prelude.{◌≡◌};
ghost use Rattle.type_frames.specs.Rules.{branch_falls as branch_goes_on, simple_falls as simple_goes_on, falls_through as goes_on};

use class_code::{Branch, Instr, Simple};

fn branch_falls(branch: Branch) -> bool
    ensures { result ≡ branch_goes_on branch }
{
    !matches!(branch, Branch::Goto)
}

fn simple_falls(simple: Simple) -> bool
    ensures { result ≡ simple_goes_on simple }
{
    !matches!(
        simple,
        Simple::Return(_) | Simple::ReturnVoid | Simple::Throw
    )
}

/// Whether the next instruction may follow.
pub(crate) fn falls_through(instr: &Instr) -> bool
    ensures { result ≡ goes_on instr.now }
{
    match instr {
        Instr::Simple(simple) => simple_falls(*simple),
        Instr::Branch(branch, _) => branch_falls(*branch),
        Instr::GotoWide(_) | Instr::TableSwitch(_) | Instr::LookupSwitch(_) => false,
        _ => true,
    }
}
