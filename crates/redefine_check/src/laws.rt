ghost use Rattle.redefine_check.specs.Laws.{IsItself};

/// Does nothing, and is there for its contract: the law of equivalent methods.
pub fn equivalence_laws()
    // A method is equivalent to itself.
    ensures { IsItself }
{}
