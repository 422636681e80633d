ghost use Rattle.classfile_pool.specs.TextLaws.{TextIsRead, FirstBadIsFault, FaultIsFirstBad};

/// Does nothing, and is there for its contract: the laws of a text that is whole in the file (4.4.7), which the contract of
/// reading a pool speaks of. What is found of it is what its own bytes say.
pub fn text_laws()
    // Bytes that spell a text are read as that text.
    ensures read { TextIsRead }

    // The first byte that begins no unit is the fault.
    ensures bad { FirstBadIsFault }

    // There is no other fault.
    ensures only { FaultIsFirstBad }
{}
