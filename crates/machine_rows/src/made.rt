ghost use Rattle.machine_rows.specs.MadeRows.{MadePrintsLast};

/// Does nothing, and is there for its contract: what is written of the made job of the number 0 and the size 2.
pub fn made_rows()
    ensures { MadePrintsLast }
{}
