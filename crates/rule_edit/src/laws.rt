ghost use Rattle.rule_edit.specs.Laws.{NoneForOthers, MadeIsAccepted, BytesOfBytes, EntriesStay};
ghost use Rattle.rule_edit.specs.EditRows.{MakeThese, FailThese};

/// Does nothing, and is there for its contract: the laws of what rules make of classes.
pub fn edit_laws()
    // A set that has no rule for the class makes nothing of it.
    ensures others { NoneForOthers }

    // What an edit of a class file's parts makes is an accepted class file.
    ensures accepted { MadeIsAccepted }

    // Of bytes a set makes bytes, where the donors are bytes.
    ensures bytes { BytesOfBytes }

    // A constant that is needed leaves all entries where they are: those that are made for it stand behind them.
    ensures entries { EntriesStay }
{}

/// Does nothing, and is there for its contract: what rules make of a class by `javac`, computed.
pub fn edit_rows()
    // Each kind of rule once, to the last byte.
    ensures makes { MakeThese }

    // What fails.
    ensures fails { FailThese }
{}
