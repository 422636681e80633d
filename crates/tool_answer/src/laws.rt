ghost use Rattle.tool_answer.specs.Laws.{CallsOnlyRecord, RefusedDoesNothing, AllOrNone, AsksCapable, TagsItsOwn, WorldsAreOrderly};
ghost use Rattle.tool_answer.specs.CheckRows.{RefusedOnce, RefusedInOrder};

/// Does nothing, and is there for its contract: the laws of tool calls.
pub fn call_laws()
    // What a call does it does by its records: none changes the core by itself.
    ensures records { CallsOnlyRecord }

    // A call that is refused before anything is done for it does nothing, and its reply has no values.
    ensures refused { RefusedDoesNothing }

    // A class call makes a version of each of its classes, behind the turns of all; or one of them is the first that is refused, and then
    // there are the turns up to it and nothing else.
    ensures classes { AllOrNone }

    // A retransformation goes by those transformers alone that are capable of it, and tells of no other's turn.
    ensures capable { AsksCapable }

    // A call tags objects in its own environment alone.
    ensures tags { TagsItsOwn }

    // The world of a job whose files and donors are bytes is orderly: its rules make bytes of bytes, and what its calls redefine is bytes.
    ensures orderly { WorldsAreOrderly }
{}

/// Does nothing, and is there for its contract: changes of a class by `javac`, and how the check of a redefinition refuses them.
pub fn check_rows()
    // Each refusal but the type check's once.
    ensures once { RefusedOnce }

    // Of two the first in order.
    ensures order { RefusedInOrder }
{}
