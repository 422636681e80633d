ghost use Rattle.change_list.specs.Laws.{LastDecides, NoneSpeaks, GoesOn};

/// Does nothing, and is there for its contract: the laws of what the last change says.
pub fn change_laws<C, A>()
    // The last change that speaks of a thing decides, whatever stands before it.
    ensures last { LastDecides C A }

    // Of what no change speaks, that is as it was in the beginning.
    ensures silent { NoneSpeaks C A }

    // After one more change a thing is what that one says, if it speaks of it, and else what it was.
    ensures more { GoesOn C A }
{}
