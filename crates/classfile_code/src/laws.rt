ghost use Rattle.classfile_code.specs.CodeLaws.{CodeFaultShows, OnlyCodeFault};

/// Does nothing, and is there for its contract: the laws of a code that is whole in the file (4.7.3 and 4.9.1), which the
/// contract of reading it speaks of. Its fault is what its own bytes say.
pub fn code_laws()
    // A code that has a fault, by the relations of instructions, is refused for it.
    ensures shows { CodeFaultShows }

    // It is refused for no other.
    ensures only { OnlyCodeFault }
{}
