ghost use Rattle.type_verify.specs.Laws.{TypedInOneWay};

/// Does nothing, and is there for its contract: a law of the type states of a method.
pub fn typed_laws()
    // A method has one list of type states at most.
    ensures { TypedInOneWay }
{}
