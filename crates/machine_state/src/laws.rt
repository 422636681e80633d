ghost use Rattle.machine_state.specs.Laws.{KeepsCode, TagsStay, TagsAsSet, MasksAsSet, LogsGrow, ObjectsAreGiven};
ghost use Rattle.machine_state.specs.Shares.{ChangesOnePart};
ghost use Rattle.machine_state.specs.Births.{BirthsApart};

/// Does nothing, and is there for its contract: the laws of what follows from the trace.
pub fn state_laws()
    // Whatever happens, and whichever classes are added or go on: a frame that was born runs the code that it ran.
    ensures code { KeepsCode }

    // A tag changes only by a record of its own environment that sets it, or by the environment's end.
    ensures tags { TagsStay }

    // A tag is the one that was set last, until the environment's end.
    ensures tagged { TagsAsSet }

    // A mask is what the last record that speaks of it says.
    ensures masks { MasksAsSet }

    // A log goes on by the line of the record that was added: an event that the environment is told of, its own turn and its own reply have
    // one, and nothing else has.
    ensures logs { LogsGrow }
{}

/// Does nothing, and is there for its contract: the laws of changes.
pub fn change_laws()
    // Each change is of one part of the core alone: of what base methods change, of what instructions and classes change besides, or of
    // the rest.
    ensures parts { ChangesOnePart }

    // The core after acts is the same whichever birth the frames get that they push, but for births.
    ensures births { BirthsApart }
{}

/// Does nothing, and is there for its contract: the laws of calls.
pub fn call_laws()
    // A call has an object exactly where its row names one, and the object is all that changes where another takes its place.
    ensures { ObjectsAreGiven }
{}
