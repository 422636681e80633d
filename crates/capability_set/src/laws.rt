ghost use Rattle.capability_set.specs.Laws.{AddsThese, TakesThese};

/// Does nothing, and is there for its contract: what is held after capabilities are added or relinquished.
pub fn capability_laws()
    // What is added is held, besides what was held before.
    ensures add { AddsThese }

    // What is relinquished isn't held, and all else is as it was.
    ensures relinquish { TakesThese }
{}
