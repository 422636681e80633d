ghost use Rattle.type_frames.specs.Laws.{AgreeUpTo, FailsAtOne, NeverBoth, ClassFailsAtOne, ClassNeverBoth, ChecksTypes};

/// Does nothing, and is there for its contract: the laws of the type check of a method and of a class.
pub fn type_laws()
    // Two lists of states that fit up to a place agree up to it.
    ensures agree { AgreeUpTo }

    // A method first fails at one offset at most.
    ensures one_offset { FailsAtOne }

    // A method doesn't both fail and pass.
    ensures not_both { NeverBoth }

    // A class first fails in one method at most, and there at one offset.
    ensures one_fault { ClassFailsAtOne }

    // A class doesn't both fail and pass.
    ensures not_both_of_class { ClassNeverBoth }

    // The answer that is computed is that of the specification's type checker.
    ensures computed { ChecksTypes }
{}
