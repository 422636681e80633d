//! What tool calls see, computed.
ghost use Rattle.machine_rows.specs.MethodRows.{BodiesCompared, ConstantsCompared, CallsCompared, PaddingCounts, HandlersCompared};
ghost use Rattle.machine_rows.specs.StatusRows.{ClassStatuses, ThreadStates};

/// Does nothing, and is there for its contract: methods that are equivalent, and methods that aren't.
pub fn compared_methods()
    // The same instructions, other ones, and none.
    ensures bodies { BodiesCompared }

    // Loads of equal constants and of others.
    ensures constants { ConstantsCompared }

    // Calls of one method and of others.
    ensures calls { CallsCompared }

    // The bytes between a switch and its operands.
    ensures padding { PaddingCounts }

    // Exception tables: their order, ranges and classes.
    ensures handlers { HandlersCompared }
{}

/// Does nothing, and is there for its contract: what is told of a class and of a thread at each of their states.
pub fn seen_statuses()
    ensures classes { ClassStatuses }
    ensures threads { ThreadStates }
{}
