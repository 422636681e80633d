ghost use Rattle.monitor_table.specs.Laws.{EntryAddsOne, OthersAddNone};

/// Does nothing, and is there for its contract: the laws of entries. So a monitor has at most as many entries as there were
/// calls of `enter`.
pub fn monitor_laws()
    // An entry makes the entries of a monitor and of all its waits one more.
    ensures entered { EntryAddsOne }

    // No other change makes them more.
    ensures others { OthersAddNone }
{}
